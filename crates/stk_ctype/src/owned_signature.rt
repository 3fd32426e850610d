// The signature in a function type.
ghost use Rattle.std.specs.Prelude.{◌≡◌, ◌+◌, IfOk};
ghost use Rattle.stk_ctype.specs.Trees.{SignatureTree};
ghost use Rattle.stk_ctype.specs.Types.{type_of, signature_of};
ghost use Rattle.stk_ctype.specs.Turns.{turns, turns_outside, turns_of_types, turns_of_signature, turns_outside_signature};

use crate::{CType, Signature};
use std::alloc::{AllocError, Global};
use std::marker::Model;
use std::mem;
use stk_base::List;

/// A signature with one owner, which contracts see as its tree.
#[cycle(ctype)]
#[derive(Drop)]
pub(crate) struct OwnedSignature {
    inner: Box<Signature>,
}

impl Model for OwnedSignature {
    ghost use Rattle.stk_ctype.specs.Trees.{SignatureTree};
    ghost use Rattle.stk_ctype.specs.Codes.{signature_coded};
    ghost use Rattle.stk_ctype.specs.Depths.{depth_of_signature};

    ghost Value = { SignatureTree };

    ghost coded = { signature_coded };

    ghost use Rattle.stk_ctype.specs.Types.{signature_of};

    ghost view = { λ s. signature_of s.inner.value };

    ghost size = { depth_of_signature };

    ghost use Rattle.stk_ctype.specs.Falls.{owned_falls};

    ghost size_decreases = { λ s h. owned_falls s };
}

impl OwnedSignature {
    /// A signature with one owner.
    pub fn new(alloc: Global, signature: Signature) -> Result<OwnedSignature, AllocError>
        ensures { IfOk result (λ s. s ≡ signature_of signature) }
    {
        Ok(OwnedSignature {
            inner: Box::new(alloc, signature)?,
        })
    }

    /// The signature.
    pub fn get(&self) -> &Signature
        ensures { signature_of result.now ≡ self.now }
    {
        &self.inner
    }

    /// The signature, taken out.
    pub(crate) fn into_inner(self) -> Signature
        ensures { signature_of result ≡ self }
    {
        let OwnedSignature { inner } = self;
        Box::into_inner(inner)
    }

    /// Puts a result and parameters in the place of those of the signature, which it answers.
    pub(crate) fn replace(&mut self, first: CType, row: List<CType>) -> (CType, List<CType>)
        ensures inside { turns_of_signature self.old ≡ turns (type_of result.0) + turns_of_types result.1 + 2 }
        ensures outside { turns_outside_signature self.new ≡ turns_outside (type_of first) + turns_of_types row + 1 }
    {
        let signature: &mut Signature = &mut self.inner;
        let params = mem::replace(&mut signature.params, row);
        let result = mem::replace(&mut signature.result, first);
        (result, params)
    }
}
