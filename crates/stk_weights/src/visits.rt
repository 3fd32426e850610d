//! What the visits of a function add, without the registers that are assigned in branches and loops.

ghost use Rattle.std.specs.Prelude.{◌≡◌, ◌≤◌, ◌+◌, ◌*◌, if◌then◌else◌, IfOk, map};
ghost use Rattle.std.specs.Option.{option_map};
ghost use Rattle.stk_tree.specs.View.{view_expression_form, view_initialiser, view_label, labels, maybe_initialiser};
ghost use Rattle.stk_meaning.specs.Visits.{at_expression};
ghost use Rattle.stk_meaning.specs.Weights.{visit_weight, initial_weight, labels_weight};
ghost use Rattle.stk_function_types.specs.Visits.{marked_visit, role_in};
ghost use Rattle.stk_function_env.specs.Settings.{setting_in};
ghost use Rattle.stk_weights.specs.Sums.{capped};
ghost use Rattle.stk_weights.specs.MarkedVisit.{marked_visit_weight, marked_weight};
ghost use Rattle.stk_weights.specs.Loads.{cases_in, IsMetLimited, IsLimited};

use crate::evaluated::evaluated_weight;
use crate::forms::form_weight;
use crate::statements::{initial_weight, labels_weight, statement_weight};
use std::alloc::Global;
use stk_base::NoMemory;
use stk_function_env::Setting;
use stk_function_types::{Role, Visit, VisitForm};
use stk_tree::{ExprForm, Init, Label};

// What an expression adds at a node, evaluated or not.
fn expression_weight(
    alloc: Global,
    setting: &Setting,
    node: u32,
    is_evaluated: bool,
    role: Role,
    f: &ExprForm,
) -> Result<u64, NoMemory>
    ensures is { IfOk result (λ n. n ≡ visit_weight (setting_in setting.now) is_evaluated (at_expression node (role_in role) (view_expression_form f.now))) }
    ensures few { IfOk result (λ n. n ≤ 139776) }
{
    let own = form_weight(setting.types(), node, f);
    if is_evaluated {
        let more = evaluated_weight(alloc, setting, node, role, f)?;
        Ok(own + more)
    } else {
        Ok(own)
    }
}

// What the declarator of a local object adds.
fn declarator_weight(setting: &Setting, node: u32, is_static: bool, init: &Option<Init>) -> u64
    ensures is { result ≡ (if is_static then 0 else initial_weight (setting_in setting.now) node ((setting_in setting.now).typing.type_at node) (maybe_initialiser (option_map view_initialiser init.now))) }
    ensures few { result ≤ 3072 }
{
    if is_static {
        0
    } else {
        initial_weight(setting, node, init)
    }
}

// What the labels of a section add, or 2^64 - 1 where that is more.
fn section_weight(list: &[Label]) -> u64
    ensures is { result ≡ capped (labels_weight (labels (map view_label list.now))) }
    ensures limited { labels_weight (labels (map view_label list.now)) ≤ 140288 * (1 + cases_in (labels (map view_label list.now))) }
{
    labels_weight(list)
}

// What a visit adds, or 2^64 - 1 where that is more.
#[tactic(auto, using(crate::proofs::Capping::uncapped))]
fn visit_weight(alloc: Global, setting: &Setting, visit: &Visit) -> Result<u64, NoMemory>
    ensures is { IfOk result (λ n. n ≡ capped (marked_visit_weight (setting_in setting.now) (marked_visit visit.now))) }
    ensures limited { IfOk result (λ n. IsMetLimited (setting_in setting.now) (marked_visit visit.now)) }
{
    match visit.form {
        VisitForm::Expression(role, f) => {
            expression_weight(alloc, setting, visit.node, visit.is_evaluated, role, f)
        }
        VisitForm::Declarator(is_static, _, init) => {
            Ok(declarator_weight(setting, visit.node, is_static, init))
        }
        VisitForm::Statement(_, f) => Ok(statement_weight(setting, f)),
        VisitForm::Section(list) => Ok(section_weight(list)),
    }
}

/// What visits add, or 2^64 - 1 where that is more.
#[tactic(auto, using(crate::proofs::Capping::capping))]
pub(crate) fn visits_weight(
    alloc: Global,
    setting: &Setting,
    visits: &[Visit],
) -> Result<u64, NoMemory>
    ensures is { IfOk result (λ n. n ≡ capped (marked_weight (setting_in setting.now) (map marked_visit visits.now))) }
    ensures limited { IfOk result (λ n. IsLimited (setting_in setting.now) (map marked_visit visits.now)) }
{
    let mut sum: u64 = 0;
    for visit in visits {
        let own = visit_weight(alloc, setting, visit)?;
        sum = sum.saturating_add(own);
    }
    Ok(sum)
}
