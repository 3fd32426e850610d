// Why a text isn't read.
ghost use Rattle.std.specs.Prelude.{◌≡◌};

use std::alloc::{AllocError, AllocFailed};
use stk_base::NoMemory;

/// Why a text isn't read.
#[derive(Clone, Copy, Debug, PartialEq, Eq)]
pub enum Text {
    /// It has no such reading.
    Bad,
    /// An allocation was refused.
    NoMemory,
}

impl From<NoMemory> for Text {
    ghost use Rattle.stk_proofs.specs.declared.text.Text.TheVariants as texts;

    ghost from_gives = { λ _ e. e ≡ texts.NoMemory };

    fn from(_: NoMemory) -> Self {
        Text::NoMemory
    }
}

impl From<AllocError> for Text {
    ghost use Rattle.stk_proofs.specs.declared.text.Text.TheVariants as texts;

    ghost from_gives = { λ _ e. e ≡ texts.NoMemory };

    fn from(_: AllocError) -> Self {
        Text::NoMemory
    }
}

impl<T: Drop> From<AllocFailed<T>> for Text {
    ghost use Rattle.stk_proofs.specs.declared.text.Text.TheVariants as texts;

    ghost from_gives = { λ _ e. e ≡ texts.NoMemory };

    fn from(_: AllocFailed<T>) -> Self {
        Text::NoMemory
    }
}
