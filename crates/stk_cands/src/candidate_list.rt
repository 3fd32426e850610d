//! The candidates of a function.

ghost use Rattle.std.specs.Prelude.{◌≡◌, ◌++◌, IfOk, OnOk, map};
ghost use Rattle.stk_tree.specs.View.{view_expression_form, view_function};
ghost use Rattle.stk_function_types.specs.Nodes.{typing_in};
ghost use Rattle.stk_meaning.specs.Lists.{arm_candidates, candidates, form_candidates, visit_candidates};
ghost use Rattle.stk_function_types.specs.Visits.{marked_visit};
ghost use Rattle.stk_function_types.specs.Gathered.{given, gathered};

use crate::candidate_forms::{arm_candidates, form_candidates};
use std::alloc::Global;
use stk_base::NoMemory;
use stk_function_types::{FunctionTypes, Role, Visit, VisitForm, function_visits};
use stk_numbers::Candidate;
use stk_tree::{ExprForm, Function};

// Puts the candidates of an expression of a form at a node.
fn expression_candidates(
    alloc: Global,
    types: &FunctionTypes,
    node: u32,
    role: Role,
    f: &ExprForm,
    out: &mut Vec<Candidate>,
) -> Result<(), NoMemory>
    ensures { OnOk result (out.new.items ≡ out.old.items ++ (arm_candidates node role.is_arm ++ form_candidates (typing_in types.now) node role.is_test (view_expression_form f.now))) }
{
    arm_candidates(node, role.is_arm, out)?;
    form_candidates(alloc, types, node, role.is_test, f, out)
}

// Puts the candidates of a visit that is evaluated.
fn visit_candidates(
    alloc: Global,
    types: &FunctionTypes,
    visit: &Visit,
    out: &mut Vec<Candidate>,
) -> Result<(), NoMemory>
    ensures { OnOk result (out.new.items ≡ out.old.items ++ given (visit_candidates (typing_in types.now)) (marked_visit visit.now)) }
{
    if !visit.is_evaluated {
        return Ok(());
    }
    match visit.form {
        VisitForm::Expression(role, f) => {
            expression_candidates(alloc, types, visit.node, role, f, out)
        }
        VisitForm::Declarator(_, _, _) => Ok(()),
        VisitForm::Statement(is_arm, _) => arm_candidates(visit.node, is_arm, out),
        VisitForm::Section(_) => arm_candidates(visit.node, true, out),
    }
}

// The candidates of visits.
fn candidates_among(
    alloc: Global,
    types: &FunctionTypes,
    visits: &[Visit],
) -> Result<Vec<Candidate>, NoMemory>
    ensures { IfOk result (λ out. out.items ≡ gathered (visit_candidates (typing_in types.now)) (map marked_visit visits.now)) }
{
    let mut out = Vec::new(alloc);
    for visit in visits {
        visit_candidates(alloc, types, visit, &mut out)?;
    }
    Ok(out)
}

/// The candidates of a function, by node and then by kind: each branch of an `if`, of `?:`, of a `switch`, the body of
/// each loop and the right operand of each `&&` and `||`; each comparison and each controlling expression, without the
/// parentheses round it, as one that is always true and as one that is always false; and each comparison that may be
/// replaced. Only evaluated nodes have candidates. It goes over the nodes once; how long comparisons take is said in
/// stk_replacements.
pub fn candidates(
    alloc: Global,
    types: &FunctionTypes,
    f: &Function,
) -> Result<Vec<Candidate>, NoMemory>
    ensures { IfOk result (λ out. out.items ≡ candidates (typing_in types.now) (view_function f.now)) }
{
    let visits = function_visits(alloc, types, f)?;
    let out = candidates_among(alloc, types, visits.as_slice())?;
    Ok(out)
}
