//! The parameters and local objects in force at a place of a function.

ghost use Rattle.std.specs.Prelude.{◌≡◌, ◌<◌, ◌≤◌, ◌-◌, [], ◌∷◌, ◌++◌, length, take, drop, map, OnOk, OnErr, IfSome};
ghost use Rattle.std.specs.Option.{option_copied, option_map, is_some};
ghost use Rattle.stk_ctype.specs.Types.{type_of};
ghost use Rattle.stk_ctype.specs.Structs.{Structs};
ghost use Rattle.stk_ctype.specs.Sound.{IsSound};
ghost use Rattle.stk_typing.specs.Locals.{AreSoundLocals, local_of, find_local};
ghost use Rattle.stk_typing.specs.Places.{place_of};

use std::alloc::Global;
use std::marker::Model;
use stk_base::{List, NoMemory};
use stk_ctype::{CType, Index};

/// A parameter or a local object: its name, as bytes, the number of its declarator's node, and its type.
#[derive(Drop)]
pub struct LocalName {
    pub name: List<u8>,
    pub node: u32,
    pub ty: CType,
}

/// The parameters and local objects in force, the last one last. What a name means is found in logarithmic time.
#[derive(Drop)]
pub struct Locals {
    alloc: Global,
    list: Vec<LocalName>,
    places: Index<usize>,
}

impl Model for Locals {
    ghost use Rattle.std.specs.Prelude.{List};
    ghost use Rattle.std.specs.Coded.{codes};
    ghost use Rattle.stk_ctype.specs.contracts.ctype.CType as ctype;
    ghost use Rattle.stk_ctype.specs.contracts.ctype.Signature as signature;
    ghost use Rattle.stk_ctype.specs.Index.{IsIndexOf};
    ghost use Rattle.stk_typing.specs.declared.locals.LocalName.{LocalName};
    ghost use Rattle.stk_typing.specs.Places.{local_words};

    ghost Value = { List LocalName };

    ghost coded = { Prim.hlevel (codes, ctype.the_row.coded, signature.the_row.coded) };

    ghost view = { λ l. l.list.items };

    ghost invariant = { λ l. IsIndexOf l.places (local_words 0 l.list.items) };
}

impl Locals {
    /// No locals. It takes no memory; later calls take theirs from `alloc`.
    pub fn new(alloc: Global) -> Locals
        ensures { result ≡ [] }
    {
        Locals {
            alloc,
            list: Vec::new(alloc),
            places: Index::new(alloc),
        }
    }

    /// How many locals there are.
    pub fn count(&self) -> usize
        ensures { result ≡ length self.now }
    {
        self.list.len()
    }

    /// Brings a local into force. After `NoMemory` the locals are as before.
    pub fn push(&mut self, local: LocalName) -> Result<(), NoMemory>
        ensures added { OnOk result (self.new ≡ self.old ++ local ∷ []) }
        ensures kept { OnErr result (self.new ≡ self.old) }
    {
        self.list.reserve(1)?;
        let place = self.list.len();
        self.places.push(self.alloc, local.name.as_slice(), place)?;
        match self.list.push(local) {
            Ok(()) => Ok(()),
            Err(_) => unreachable!(),
        }
    }

    /// Keeps the first `count` locals, of at least so many. It takes no memory.
    pub fn cut_to(&mut self, count: usize)
        requires { count ≤ length self.old }
        ensures { self.new ≡ take count self.old }
    {
        while self.count() > count {
            self.take_back();
        }
    }

    /// Takes the last local away.
    fn take_back(&mut self)
        requires { 0 < length self.old }
        ensures { self.new ≡ take (length self.old - 1) self.old }
    {
        if let Some(local) = self.list.pop() {
            self.places.pop(local.name.as_slice());
        }
    }

    /// The place of the last local of a name, counted from 0.
    fn place(&self, name: &[u8]) -> Option<usize>
        ensures { result ≡ place_of name.now self.now }
    {
        self.places.get(name)
    }

    /// The last local of a name, given as bytes; its type is sound where those of all locals are.
    pub fn find(&self, name: &[u8]) -> Option<&LocalName>
        ensures is { option_map local_of (option_copied result) ≡ find_local name.now (map local_of self.now) }
        ensures sound { (structs : Structs) → AreSoundLocals structs (map local_of self.now) → IfSome (option_copied result) (λ l. IsSound structs (type_of l.ty)) }
    {
        match self.place(name) {
            Some(place) => Some(&self.list[place]),
            None => None,
        }
    }

    /// Whether a name, given as bytes, is that of a local that stands behind the first `outer`, in the block at hand.
    pub fn is_declared_behind(&self, outer: usize, name: &[u8]) -> bool
        ensures { result ≡ is_some (find_local name.now (map local_of (drop outer self.now))) }
    {
        match self.place(name) {
            Some(place) => outer <= place,
            None => false,
        }
    }
}
