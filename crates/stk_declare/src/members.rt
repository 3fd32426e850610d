//! The members of a struct that is being declared.

ghost use Rattle.std.specs.Prelude.{◌≡◌, [], ◌∷◌, ◌++◌, OnOk, OnErr};
ghost use Rattle.stk_declare.specs.Structs.{has_member, is_empty};

use std::alloc::Global;
use std::marker::Model;
use stk_base::{List, NoMemory};
use stk_ctype::{CType, Index, MemberInfo};

/// The members so far, in order. Whether one has a name is found in logarithmic time.
#[derive(Drop)]
pub(crate) struct Members {
    alloc: Global,
    list: Vec<MemberInfo>,
    places: Index<usize>,
}

impl Model for Members {
    ghost use Rattle.std.specs.Prelude.{List};
    ghost use Rattle.std.specs.Coded.{codes};
    ghost use Rattle.stk_ctype.specs.contracts.ctype.CType as ctype;
    ghost use Rattle.stk_ctype.specs.contracts.ctype.Signature as signature;
    ghost use Rattle.stk_ctype.specs.Index.{IsIndexOf};
    ghost use Rattle.stk_ctype.specs.declared.symbol.MemberInfo.{MemberInfo};
    ghost use Rattle.stk_declare.specs.Members.{member_words};

    ghost Value = { List MemberInfo };

    ghost coded = { Prim.hlevel (codes, ctype.the_row.coded, signature.the_row.coded) };

    ghost view = { λ m. m.list.items };

    ghost invariant = { λ m. IsIndexOf m.places (member_words 0 m.list.items) };
}

impl Members {
    /// No members. It takes no memory; later calls take theirs from `alloc`.
    pub(crate) fn new(alloc: Global) -> Members
        ensures { result ≡ [] }
    {
        Members {
            alloc,
            list: Vec::new(alloc),
            places: Index::new(alloc),
        }
    }

    /// The members in order.
    pub(crate) fn as_slice(&self) -> &[MemberInfo]
        ensures { result.now ≡ self.now }
    {
        self.list.as_slice()
    }

    /// Whether there are none.
    pub(crate) fn is_empty(&self) -> bool
        ensures { result ≡ is_empty self.now }
    {
        self.list.is_empty()
    }

    /// The members as a list.
    pub(crate) fn into_list(self) -> List<MemberInfo>
        ensures { result ≡ self }
    {
        List::from_vec(self.list)
    }

    /// Puts a member behind the others. After `NoMemory` they are as before.
    pub(crate) fn push(&mut self, name: &[u8], ty: CType) -> Result<(), NoMemory>
        ensures added { OnOk result (self.new ≡ self.old ++ record { name = name.now; ty = ty } ∷ []) }
        ensures kept { OnErr result (self.new ≡ self.old) }
    {
        let text = List::from_vec(Vec::from_slice(self.alloc, name)?);
        self.list.reserve(1)?;
        let place = self.list.len();
        self.places.push(self.alloc, name, place)?;
        match self.list.push(MemberInfo { name: text, ty }) {
            Ok(()) => Ok(()),
            Err(_) => unreachable!(),
        }
    }

    /// Whether a member has this name, given as bytes.
    pub(crate) fn has(&self, name: &[u8]) -> bool
        ensures { result ≡ has_member name.now self.now }
    {
        self.places.get(name).is_some()
    }
}
