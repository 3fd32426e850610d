//! The input keys that a walk asks for, and their values.

ghost use Rattle.std.specs.Prelude.{◌≡◌, ℤ, List, IfOk, IfSome, ◌≤◌};
ghost use Rattle.stk_values.specs.Keeping.{Keeps};
ghost use Rattle.stk_walking.specs.Keyed.{placed};

use stk_base::NoMemory;
use stk_numbers::IntKind;
use stk_values::Values;

/// An input key: a register parameter, the address of an object, a register without initialiser, a load and the result
/// of a call, each by its node; and a register that a loop sets first, by the nodes of the loop and of the declarator.
#[derive(Clone, Copy, Debug)]
pub enum InputKey {
    Parameter(u32),
    Address(u32),
    Unset(u32),
    Load(u32),
    Call(u32),
    Loop(u32, u32),
}

/// The number of a place of the input map, of the kind that the store has it at; 0 where there is no place.
pub(crate) fn keyed<V: Values>(
    values: &mut V,
    place: Option<u32>,
    kind: IntKind,
) -> Result<V::Value, NoMemory>
    requires { IfSome place (λ p. V.has_key values.old p kind) }
    ensures makes { IfOk result (λ v. V.made values.new kind v) }
    ensures value { IfOk result (λ v. (m : List ℤ) → V.serves values.old m → V.shows values.new m kind v (placed place m)) }
    ensures keeps { Keeps V.serves V.has_key V.made V.shows values.old values.new }
    ensures charge { V.cost values.new ≤ V.cost values.old }
{
    match place {
        Some(place) => values.input(place, kind),
        None => values.constant(kind, 0),
    }
}
