//! Why a unit has no types.

ghost use Rattle.std.specs.Prelude.{◌≡◌};
ghost use Rattle.stk_typed.specs.declared.untyped.Untyped.TheVariants as untyped;

use stk_base::NoMemory;

/// Why a unit has no types: the first node that a rule refuses, with the lowest rule that does, by their numbers; that
/// it has so many nodes; or that there is no memory.
#[derive(Clone, Copy, Debug, PartialEq, Eq)]
pub enum Untyped {
    Rule { node: u32, rule: u8 },
    Nodes { count: u32 },
    NoMemory,
}

impl From<NoMemory> for Untyped {
    ghost from_gives = { λ _ e. e ≡ untyped.NoMemory };

    fn from(_: NoMemory) -> Self {
        Untyped::NoMemory
    }
}
