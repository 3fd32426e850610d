// Signatures that are shared by the function types that are made of them.
ghost use Rattle.std.specs.Prelude.{◌≡◌, IfOk, IfSome};
ghost use Rattle.stk_ctype.specs.Trees.{SignatureTree};
ghost use Rattle.stk_ctype.specs.Types.{signature_of};

use crate::{OwnedSignature, Signature};
use std::alloc::{AllocError, Global};
use std::marker::Model;
use std::rc::Rc;

/// Where a signature is: with all its owners, or with the one that is being dropped.
#[cycle(ctype)]
#[derive(Drop)]
enum Held {
    Shared(Rc<OwnedSignature>),
    Lone(OwnedSignature),
}

/// A signature that may have several owners, which contracts see as its tree. Sharing it takes no memory, whatever its
/// size.
#[cycle(ctype)]
#[derive(Drop)]
pub struct SharedSignature {
    inner: Held,
}

impl Model for SharedSignature {
    ghost use Rattle.stk_ctype.specs.Trees.{SignatureTree};
    ghost use Rattle.stk_ctype.specs.Codes.{signature_coded};
    ghost use Rattle.stk_ctype.specs.Depths.{depth_of_shared};

    ghost Value = { SignatureTree };

    ghost coded = { signature_coded };

    ghost use Rattle.stk_ctype.specs.Held.{held};

    ghost view = { λ s. held s.inner };

    ghost size = { depth_of_shared };

    ghost use Rattle.stk_ctype.specs.Falls.{held_falls};

    ghost size_decreases = { λ s h. held_falls s };
}

impl SharedSignature {
    /// A signature with one owner.
    pub fn new(alloc: Global, signature: Signature) -> Result<SharedSignature, AllocError>
        ensures { IfOk result (λ s. s ≡ signature_of signature) }
    {
        let owned = OwnedSignature::new(alloc, signature)?;
        Ok(SharedSignature {
            inner: Held::Shared(Rc::new(alloc, owned)?),
        })
    }

    /// The signature.
    pub fn get(&self) -> &Signature
        ensures { signature_of result.now ≡ self.now }
    {
        match &self.inner {
            Held::Shared(inner) => Rc::as_ref(inner).get(),
            Held::Lone(inner) => inner.get(),
        }
    }

    /// One more owner of the signature. It fails only where the signature has more than 2^63 owners.
    pub fn share(&self) -> Result<SharedSignature, AllocError>
        ensures { IfOk result (λ s. s ≡ self.now) }
    {
        match &self.inner {
            Held::Shared(inner) => Ok(SharedSignature {
                inner: Held::Shared(inner.clone()?),
            }),
            // A type that is being dropped isn't shared.
            Held::Lone(_) => Err(AllocError),
        }
    }

    /// A signature that is being dropped.
    pub(crate) fn lone(inner: OwnedSignature) -> SharedSignature
        ensures { result ≡ inner }
    {
        SharedSignature {
            inner: Held::Lone(inner),
        }
    }

    /// The signature, where this was its last owner.
    pub(crate) fn into_inner(self) -> Option<OwnedSignature>
        ensures { IfSome result (λ o. o ≡ self) }
    {
        let SharedSignature { inner } = self;
        match inner {
            Held::Shared(inner) => Rc::into_inner(inner),
            Held::Lone(inner) => Some(inner),
        }
    }
}
