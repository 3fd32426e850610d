// A function that is judged, by its unit.
ghost use Rattle.std.specs.Prelude.{◌≡◌, ◌<◌, ◌^◌, IfOk};
ghost use Rattle.stk_tree.specs.Syntax.{FunctionTree};
ghost use Rattle.stk_tree.specs.Nodes.{unit_nodes};
ghost use Rattle.stk_tree.specs.View.{view_function, view_unit};
ghost use Rattle.stk_units.specs.Functions.{IsDefinition};

use std::alloc::Global;
use stk_base::NoMemory;
use stk_ctype::Names;
use stk_function_types::FunctionTypes;
use stk_numbers::Kinds;
use stk_tree::{Function, Unit};
use stk_typed::typed_of;

/// A unit of a source that defines a function which is judged: where memory comes from, the bytes of the source, the
/// unit, the function, the names that its head leaves in force, and the kinds of conditions that are taken out.
#[derive(Clone, Copy)]
pub(crate) struct JudgedFunction<'a> {
    pub alloc: Global,
    pub bytes: &'a [u8],
    pub unit: &'a Unit,
    pub function: &'a Function,
    pub names: &'a Names,
    pub without: Kinds,
}

/// The function that a unit defines.
pub(crate) fn function_of(unit: &Unit) -> &Function
    requires { (f : FunctionTree) × IsDefinition (view_unit unit.now) f }
    ensures { IsDefinition (view_unit unit.now) (view_function result.now) }
{
    match unit {
        Unit::Defines(_, function) => function,
        Unit::Empty(_) | Unit::Declares(_, _) => unreachable!(),
    }
}

/// The types of a unit that typing accepts.
pub(crate) fn types_of<'a>(
    alloc: Global,
    bytes: &'a [u8],
    unit: &'a Unit,
    names: &'a Names,
) -> Result<FunctionTypes<'a>, NoMemory>
    requires { unit_nodes (view_unit unit.now) < 2 ^ 32 }
    ensures { IfOk result (λ t. t ≡ record { bytes = bytes.now; unit = unit.now; entries = names.now }) }
{
    match typed_of(alloc, bytes, unit, names) {
        Ok(types) => Ok(types),
        Err(_) => Err(NoMemory),
    }
}
