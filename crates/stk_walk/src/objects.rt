//! The memory objects of a function, as it is asked of an input map whether their addresses are valid.

ghost use Rattle.std.specs.Prelude.{◌≡◌};
ghost use Rattle.stk_walk.specs.Validity.{is_pair};

/// A memory object: the node of its address, its bytes, whether it is kept, and whether it has a name and a scalar or
/// struct type.
#[derive(Clone, Copy, Debug, PartialEq, Eq)]
pub(crate) struct WalkObject {
    pub node: u32,
    pub size: u64,
    pub is_kept: bool,
    pub is_plain: bool,
}

impl WalkObject {
    /// Whether two objects must share no byte: one is kept, and the other has a name and a scalar or struct type.
    pub(crate) fn is_pair(self, other: WalkObject) -> bool
        ensures { result ≡ is_pair self other }
    {
        (self.is_kept && other.is_plain) || (other.is_kept && self.is_plain)
    }
}
