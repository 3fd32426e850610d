//! The registers of a function.

ghost use Rattle.std.specs.Prelude.{◌≡◌, ◌++◌, [], ◌∷◌, if◌then◌else◌, OnOk, IfOk, map};
ghost use Rattle.stk_tree.specs.View.{view_parameter, parameters};
ghost use Rattle.stk_function_types.specs.Nodes.{typing_in};
ghost use Rattle.stk_meaning.specs.Keys.{fits_register, visit_registers};
ghost use Rattle.stk_function_types.specs.Visits.{marked_visit};
ghost use Rattle.stk_function_types.specs.Gathered.{given, gathered};
ghost use Rattle.stk_function_env.specs.Listed.{parameters_registers};

use std::alloc::Global;
use stk_base::NoMemory;
use stk_function_types::{FunctionTypes, Visit, VisitForm};
use stk_tree::Param;
use stk_type_rules::is_scalar;

/// Whether the object of a declarator is a register, where it is automatic: a scalar whose name is no operand of `&`.
pub fn fits_register(types: &FunctionTypes, node: u32) -> bool
    ensures { result ≡ fits_register (typing_in types.now) node }
{
    is_scalar(types.type_at(node)) && !types.is_taken(node)
}

// Notes a declarator, where its object is a register.
fn note_register(types: &FunctionTypes, node: u32, out: &mut Vec<u32>) -> Result<(), NoMemory>
    ensures { OnOk result (out.new.items ≡ out.old.items ++ (if fits_register (typing_in types.now) node then node ∷ [] else [])) }
{
    if fits_register(types, node) {
        out.push(node)?;
    }
    Ok(())
}

// Notes the parameters that are registers.
fn parameters_registers(
    types: &FunctionTypes,
    list: &[Param],
    out: &mut Vec<u32>,
) -> Result<(), NoMemory>
    ensures { OnOk result (out.new.items ≡ out.old.items ++ parameters_registers (typing_in types.now) (parameters (map view_parameter list.now))) }
{
    for p in list {
        note_register(types, p.declr.node.number, out)?;
    }
    Ok(())
}

// Notes the register that a visit declares.
fn visit_registers(types: &FunctionTypes, visit: &Visit, out: &mut Vec<u32>) -> Result<(), NoMemory>
    ensures { OnOk result (out.new.items ≡ out.old.items ++ given (visit_registers (typing_in types.now)) (marked_visit visit.now)) }
{
    if !visit.is_evaluated {
        return Ok(());
    }
    match visit.form {
        VisitForm::Declarator(is_static, _, _) => {
            if is_static {
                Ok(())
            } else {
                note_register(types, visit.node, out)
            }
        }
        VisitForm::Expression(_, _) | VisitForm::Statement(_, _) | VisitForm::Section(_) => Ok(()),
    }
}

/// The declarators of the registers of a function with these parameters and visits, parameters first.
pub(crate) fn registers_among(
    alloc: Global,
    types: &FunctionTypes,
    list: &[Param],
    visits: &[Visit],
) -> Result<Vec<u32>, NoMemory>
    ensures { IfOk result (λ out. out.items ≡ parameters_registers (typing_in types.now) (parameters (map view_parameter list.now)) ++ gathered (visit_registers (typing_in types.now)) (map marked_visit visits.now)) }
{
    let mut out = Vec::new(alloc);
    parameters_registers(types, list, &mut out)?;
    for visit in visits {
        visit_registers(types, visit, &mut out)?;
    }
    Ok(out)
}
