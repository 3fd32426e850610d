//! The register parameters of a function (C11 6.9.1p10).

ghost use Rattle.std.specs.Prelude.{◌≡◌, ◌++◌, [], ◌∷◌, if◌then◌else◌, OnOk, IfOk, map};
ghost use Rattle.stk_tree.specs.View.{view_function, view_parameter, parameters};
ghost use Rattle.stk_meaning.specs.Typings.{declarator_node};
ghost use Rattle.stk_meaning.specs.Keys.{fits_register, register_parameters};
ghost use Rattle.stk_function_types.specs.Nodes.{typing_in};
ghost use Rattle.stk_function_env.specs.Listed.{parameters_registers};

use std::alloc::Global;
use stk_base::NoMemory;
use stk_function_env::fits_register;
use stk_function_types::FunctionTypes;
use stk_tree::{Function, Param};

// Notes a declarator, where its object is a register.
fn note_register(types: &FunctionTypes, node: u32, out: &mut Vec<u32>) -> Result<(), NoMemory>
    ensures { OnOk result (out.new.items ≡ out.old.items ++ (if fits_register (typing_in types.now) node then node ∷ [] else [])) }
{
    if fits_register(types, node) {
        out.push(node)?;
    }
    Ok(())
}

// The declarators of the parameters among some that are registers, in order.
fn registers_among(
    alloc: Global,
    types: &FunctionTypes,
    list: &[Param],
) -> Result<Vec<u32>, NoMemory>
    ensures { IfOk result (λ out. out.items ≡ parameters_registers (typing_in types.now) (parameters (map view_parameter list.now))) }
{
    let mut out = Vec::new(alloc);
    for p in list {
        note_register(types, p.declr.node.number, &mut out)?;
    }
    Ok(out)
}

/// The declarators of the parameters of a function that are registers, in order.
pub(crate) fn register_parameters(
    alloc: Global,
    types: &FunctionTypes,
    f: &Function,
) -> Result<Vec<u32>, NoMemory>
    ensures { IfOk result (λ out. out.items ≡ map declarator_node (register_parameters (typing_in types.now) (view_function f.now))) }
{
    registers_among(alloc, types, f.declr.parameters())
}
