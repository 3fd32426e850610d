ghost use Rattle.std.specs.Prelude.{◌≡◌};
ghost use Rattle.stk_script_trees.specs.declared.fault.Fault.TheVariants.{NoMemory};

use std::alloc::{AllocError, AllocFailed};

/// Why nothing was read.
#[derive(Clone, Copy, Debug, PartialEq, Eq)]
pub enum Fault {
    /// The text is no script of the subset.
    Bad,
    /// An allocation was refused. The answer is free: no clause ties it to a cause.
    NoMemory,
}

impl From<AllocError> for Fault {
    ghost from_gives = { λ _ e. e ≡ NoMemory };

    fn from(_: AllocError) -> Self {
        Fault::NoMemory
    }
}

impl<T: Drop> From<AllocFailed<T>> for Fault {
    ghost from_gives = { λ _ e. e ≡ NoMemory };

    fn from(_: AllocFailed<T>) -> Self {
        Fault::NoMemory
    }
}

impl From<stk_base::NoMemory> for Fault {
    ghost from_gives = { λ _ e. e ≡ NoMemory };

    fn from(_: stk_base::NoMemory) -> Self {
        Fault::NoMemory
    }
}
