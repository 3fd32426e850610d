ghost use Rattle.std.specs.Prelude.{◌≡◌, ◌<◌, ◌≤◌, ◌-◌, ◌^◌, [], ◌∷◌, ◌++◌, length, take, IfOk, IfSome, OnOk, OnErr};
ghost use Rattle.std.specs.Option.{option_copied, option_map};
ghost use Rattle.stk_ctype.specs.Facts.{symbol_in, IsNewLayout};
ghost use Rattle.stk_ctype.specs.Names.{find, is_type, struct_count, tag_of};
ghost use Rattle.stk_ctype.specs.Structs.{structs_of};
ghost use Rattle.stk_ctype.specs.Sound.{IsSoundSymbol, IsSoundTag, RestsOn, Keeps};

use crate::facts::{Facts, Layout};
use crate::{NameEntry, Symbol, Tag};
use std::alloc::Global;
use std::marker::Model;
use stk_base::NoMemory;

/// The names in force: a list of entries, each of which rests on earlier ones alone.
///
/// Look-ups of names and tags take logarithmic time, those of structs constant time.
#[derive(Drop)]
pub struct Names {
    pub(crate) alloc: Global,
    pub(crate) entries: Vec<NameEntry>,
    pub(crate) facts: Facts,
}

impl Model for Names {
    ghost use Rattle.std.specs.Prelude.{List, length, ◌<◌, ◌^◌};
    ghost use Rattle.stk_ctype.specs.declared.symbol.NameEntry.{NameEntry};
    ghost use Rattle.std.specs.Coded.{codes};
    ghost use Rattle.stk_ctype.specs.contracts.ctype.CType as ctype;
    ghost use Rattle.stk_ctype.specs.contracts.ctype.Signature as signature;
    ghost use Rattle.stk_ctype.specs.Facts.{AreFactsOf};

    ghost Value = { List NameEntry };

    ghost coded = { Prim.hlevel (codes, ctype.the_row.coded, signature.the_row.coded) };

    ghost view = { λ n. n.entries.items };

    ghost invariant = { λ n. AreFactsOf n.facts n.entries.items × (length n.entries.items < 2 ^ 32) };
}

/// What an entry says a name means, whatever the name.
fn symbol_in(entry: &NameEntry) -> Option<&Symbol>
    ensures { option_copied result ≡ symbol_in entry.now }
{
    match entry {
        NameEntry::Symbol { name: _, symbol } => Some(symbol),
        NameEntry::Struct { tag: _ }
        | NameEntry::Members { id: _, members: _ }
        | NameEntry::Enumeration { tag: _ } => None,
    }
}

impl Names {
    /// No names. It takes no memory; later calls take theirs from `alloc`.
    pub fn new(alloc: Global) -> Names
        ensures { result ≡ [] }
    {
        Names {
            alloc,
            entries: Vec::new(alloc),
            facts: Facts::new(alloc),
        }
    }

    /// Appends an entry.
    ///
    /// The types in it are sound under the names so far, and the struct of a `Members` entry has no members yet, and
    /// then has a size from 1 to 2,147,483,647 bytes. Types that were sound before stay so, and keep their sizes. After
    /// `NoMemory` the names are as before.
    pub fn add(&mut self, entry: NameEntry) -> Result<(), NoMemory>
        requires room { length self.old < 2 ^ 32 - 1 }
        requires rests { RestsOn (structs_of self.old) entry }
        ensures added { OnOk result (self.new ≡ self.old ++ entry ∷ []) }
        ensures keeps { OnOk result (Keeps (structs_of self.old) (structs_of self.new)) }
        ensures kept { OnErr result (self.new ≡ self.old) }
    {
        let layout = self.new_layout(&entry)?;
        self.entries.reserve(1)?;
        self.facts.note(self.alloc, &self.entries, &entry, layout)?;
        match self.entries.push(entry) {
            Ok(()) => Ok(()),
            Err(_) => unreachable!(),
        }
    }

    /// How many entries there are.
    pub fn count(&self) -> u32
        ensures { result ≡ length self.now }
    {
        self.entries.len() as u32
    }

    /// Keeps the first `count` entries, of at least so many. It takes no memory.
    pub fn cut_to(&mut self, count: u32)
        requires { count ≤ length self.old }
        ensures { self.new ≡ take count self.old }
    {
        while self.count() > count {
            self.take_back();
        }
    }

    /// Takes the last entry away.
    fn take_back(&mut self)
        requires { 0 < length self.old }
        ensures { self.new ≡ take (length self.old - 1) self.old }
    {
        if let Some(entry) = self.entries.pop() {
            self.facts.forget(&self.entries, &entry);
        }
    }

    /// How many structs are declared. Their numbers are those below it.
    pub fn structs(&self) -> u32
        ensures { result ≡ struct_count self.now }
    {
        self.facts.layouts.len() as u32
    }

    /// What a name means: the meaning in the last entry of this name, and `None` exactly where no entry has it. The
    /// name is given as bytes, and the types in its meaning are sound.
    pub fn find(&self, name: &[u8]) -> Option<&Symbol>
        ensures value { option_copied result ≡ find name.now self.now }
        ensures sound { IfSome (option_copied result) (IsSoundSymbol (structs_of self.now)) }
    {
        let Some(place) = self.facts.symbols.get(name) else {
            return None;
        };
        symbol_in(&self.entries[place as usize])
    }

    /// Whether a name is a typedef name: true exactly where the last entry of this name declares one.
    pub fn is_type(&self, name: &[u8]) -> bool
        ensures { result ≡ is_type name.now self.now }
    {
        matches!(self.find(name), Some(Symbol::TypeDef(_)))
    }

    /// What a tag means: the struct or the enumeration of the last entry with this tag, and `None` exactly where no
    /// entry has it. The tag is given as bytes, and the struct that it means is declared.
    pub fn tag(&self, tag: &[u8]) -> Option<Tag>
        ensures value { result ≡ tag_of tag.now self.now }
        ensures sound { IfSome result (IsSoundTag (structs_of self.now)) }
    {
        self.facts.tags.get(tag)
    }

    /// The layout of the struct that an entry gives its members.
    fn new_layout(&self, entry: &NameEntry) -> Result<Option<Layout>, NoMemory>
        requires { RestsOn (structs_of self.now) entry.now }
        ensures { IfOk result (IsNewLayout self.now entry.now) }
    {
        match entry {
            NameEntry::Members { id: _, members } => { Ok(Some(self.lay_out(members.as_slice())?)) }
            NameEntry::Symbol { name: _, symbol: _ }
            | NameEntry::Struct { tag: _ }
            | NameEntry::Enumeration { tag: _ } => Ok(None),
        }
    }
}
