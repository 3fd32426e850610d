//! Why nodes have no types.

ghost use Rattle.std.specs.Prelude.{◌≡◌};
ghost use Rattle.stk_type_rules.specs.declared.untyped.Untyped.TheVariants as untyped;
ghost use Rattle.stk_type_rules.specs.declared.untyped.Broken.TheVariants as broken;

use std::alloc::{AllocError, AllocFailed};
use stk_base::NoMemory;

/// Why a unit has no types: a rule, by its number, refuses the node of this number; or there is no memory.
#[derive(Clone, Copy, Debug, PartialEq, Eq)]
pub enum Untyped {
    Rule { node: u32, rule: u8 },
    NoMemory,
}

impl From<NoMemory> for Untyped {
    ghost from_gives = { λ _ e. e ≡ untyped.NoMemory };

    fn from(_: NoMemory) -> Self {
        Untyped::NoMemory
    }
}

impl From<AllocError> for Untyped {
    ghost from_gives = { λ _ e. e ≡ untyped.NoMemory };

    fn from(_: AllocError) -> Self {
        Untyped::NoMemory
    }
}

impl<T: Drop> From<AllocFailed<T>> for Untyped {
    ghost from_gives = { λ _ e. e ≡ untyped.NoMemory };

    fn from(_: AllocFailed<T>) -> Self {
        Untyped::NoMemory
    }
}

/// What is said of one node in place of a fact: a rule, by its number, refuses it; or there is no memory.
#[derive(Clone, Copy, Debug, PartialEq, Eq)]
pub enum Broken {
    Rule(u8),
    NoMemory,
}

impl From<NoMemory> for Broken {
    ghost from_gives = { λ _ e. e ≡ broken.NoMemory };

    fn from(_: NoMemory) -> Self {
        Broken::NoMemory
    }
}

impl From<AllocError> for Broken {
    ghost from_gives = { λ _ e. e ≡ broken.NoMemory };

    fn from(_: AllocError) -> Self {
        Broken::NoMemory
    }
}
