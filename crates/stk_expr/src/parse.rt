ghost use Rattle.std.specs.Prelude.{◌≡◌};
ghost use Rattle.stk_expr.specs.declared.parse.Parse.TheVariants.{NoMemory};

use std::alloc::{AllocError, AllocFailed};

/// Why nothing was read.
#[derive(Clone, Copy, Debug, PartialEq, Eq)]
pub enum Parse {
    /// No tree prints the tokens.
    NoTree,
    /// An allocation was refused. The answer is free: no clause ties it to a cause.
    NoMemory,
}

impl From<AllocError> for Parse {
    ghost from_gives = { λ _ e. e ≡ NoMemory };

    fn from(_: AllocError) -> Self {
        Parse::NoMemory
    }
}

impl<T: Drop> From<AllocFailed<T>> for Parse {
    ghost from_gives = { λ _ e. e ≡ NoMemory };

    fn from(_: AllocFailed<T>) -> Self {
        Parse::NoMemory
    }
}

impl From<stk_base::NoMemory> for Parse {
    ghost from_gives = { λ _ e. e ≡ NoMemory };

    fn from(_: stk_base::NoMemory) -> Self {
        Parse::NoMemory
    }
}
