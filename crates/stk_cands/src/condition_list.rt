//! The conditions of a function.

ghost use Rattle.std.specs.Prelude.{◌≡◌, ◌++◌, IfOk, OnOk, map};
ghost use Rattle.stk_tree.specs.View.{view_expression_form, view_function};
ghost use Rattle.stk_function_types.specs.Nodes.{typing_in};
ghost use Rattle.stk_meaning.specs.Conditions.{conditions_of, tests_at};
ghost use Rattle.stk_meaning.specs.Lists.{conditions, visit_conditions};
ghost use Rattle.stk_function_types.specs.Visits.{marked_visit};
ghost use Rattle.stk_function_types.specs.Gathered.{given, gathered};

use crate::condition_forms::form_node_tests;
use std::alloc::Global;
use stk_base::NoMemory;
use stk_function_types::{FunctionTypes, Visit, VisitForm, accesses, function_visits};
use stk_numbers::{Condition, Kinds};
use stk_operators::push_conditions;
use stk_tree::{ExprForm, Function};

// Puts the conditions of a form at a node.
fn form_conditions(
    types: &FunctionTypes,
    without: Kinds,
    node: u32,
    accessed: bool,
    f: &ExprForm,
    out: &mut Vec<Condition>,
) -> Result<(), NoMemory>
    ensures { OnOk result (out.new.items ≡ out.old.items ++ conditions_of node (tests_at (typing_in types.now) without accessed (view_expression_form f.now))) }
{
    push_conditions(form_node_tests(types, accessed, f), without, node, out)
}

// Puts the conditions of a visit that is evaluated.
fn visit_conditions(
    types: &FunctionTypes,
    without: Kinds,
    visit: &Visit,
    out: &mut Vec<Condition>,
) -> Result<(), NoMemory>
    ensures { OnOk result (out.new.items ≡ out.old.items ++ given (visit_conditions (typing_in types.now) without) (marked_visit visit.now)) }
{
    if !visit.is_evaluated {
        return Ok(());
    }
    match visit.form {
        VisitForm::Expression(role, f) => {
            let accessed = accesses(types.type_at(visit.node), role.use_of);
            form_conditions(types, without, visit.node, accessed, f, out)
        }
        VisitForm::Declarator(_, _, _) | VisitForm::Statement(_, _) | VisitForm::Section(_) => Ok(
            (),
        ),
    }
}

// The conditions of visits.
fn conditions_among(
    alloc: Global,
    types: &FunctionTypes,
    without: Kinds,
    visits: &[Visit],
) -> Result<Vec<Condition>, NoMemory>
    ensures { IfOk result (λ out. out.items ≡ gathered (visit_conditions (typing_in types.now) without) (map marked_visit visits.now)) }
{
    let mut out = Vec::new(alloc);
    for visit in visits {
        visit_conditions(types, without, visit, &mut out)?;
    }
    Ok(out)
}

/// The conditions of a function, by node and then by kind, but of the kinds that are taken out.
pub fn conditions(
    alloc: Global,
    types: &FunctionTypes,
    without: Kinds,
    f: &Function,
) -> Result<Vec<Condition>, NoMemory>
    ensures { IfOk result (λ out. out.items ≡ conditions (typing_in types.now) without (view_function f.now)) }
{
    let visits = function_visits(alloc, types, f)?;
    let out = conditions_among(alloc, types, without, visits.as_slice())?;
    Ok(out)
}
