//! What declarators, statements and sections add to the weight of their nodes.

ghost use Rattle.std.specs.Prelude.{◌≡◌, ◌≤◌, ◌+◌, ◌*◌, IfOk, length, map};
ghost use Rattle.std.specs.Option.{option_map};
ghost use Rattle.stk_ctype.specs.Types.{type_of};
ghost use Rattle.stk_tree.specs.View.{given_expression, view_initialiser, view_statement_form, view_label, labels, maybe_initialiser};
ghost use Rattle.stk_function_types.specs.Nodes.{typing_in};
ghost use Rattle.stk_meaning.specs.Weights.{scalar_weight, initial_weight, test_weight, label_weight, labels_weight};
ghost use Rattle.stk_function_env.specs.Settings.{setting_in};
ghost use Rattle.stk_weights.specs.MarkedVisit.{own_statement_weight};
ghost use Rattle.stk_weights.specs.Sums.{capped};

use crate::forms::bits_of;
use crate::operations::{bits_in, greater};
use crate::storing::{kept_count, store_weight};
use stk_ctype::CType;
use stk_function_env::Setting;
use stk_function_types::FunctionTypes;
use stk_tree::{Expr, Init, Label, StmtForm};
use stk_type_rules::is_scalar;

// What the initialiser of a scalar of a type adds: 32 a bit of the object and of the expression.
fn scalar_weight(types: &FunctionTypes, ty: &CType, init: &Init) -> u64
    ensures is { result ≡ scalar_weight (typing_in types.now) (type_of ty.now) (view_initialiser init.now) }
    ensures few { result ≤ 2048 }
{
    match init {
        Init::Plain(e) => 32 * greater(bits_in(ty), bits_of(types, e)),
        Init::Braces(_, _) => 32 * bits_in(ty),
    }
}

/// What the initialiser of a local object that isn't `static` adds, by the declarator's node.
pub(crate) fn initial_weight(setting: &Setting, node: u32, init: &Option<Init>) -> u64
    ensures is { result ≡ initial_weight (setting_in setting.now) node ((setting_in setting.now).typing.type_at node) (maybe_initialiser (option_map view_initialiser init.now)) }
    ensures few { result ≤ 3072 }
{
    let Some(init) = init else {
        return 0;
    };
    let types = setting.types();
    let ty = types.type_at(node);
    let kept = kept_count(setting);
    if is_scalar(ty) {
        let stored = store_weight(kept, bits_in(ty), setting.target_at(node));
        scalar_weight(types, ty, init) + stored
    } else {
        16 * kept
    }
}

// The bits of the type of an expression that may be missing; it has none then.
fn maybe_bits(types: &FunctionTypes, e: &Option<Expr>) -> u64
    ensures is { 32 * result ≡ test_weight (typing_in types.now) (given_expression e.now) }
    ensures few { result ≤ 64 }
{
    match e {
        None => 0,
        Some(e) => bits_of(types, e),
    }
}

// What a loop adds, with a test of so many bits: 32 a bit of the test, and 16 for each kept object.
fn loop_weight(setting: &Setting, bits: u64) -> u64
    requires { bits ≤ 64 }
    ensures is { result ≡ 32 * bits + 16 * length (setting_in setting.now).kept }
    ensures few { result ≤ 2560 }
{
    32 * bits + 16 * kept_count(setting)
}

/// What a statement of this form adds to its node, without the registers that are assigned in it.
pub(crate) fn statement_weight(setting: &Setting, f: &StmtForm) -> u64
    ensures is { result ≡ own_statement_weight (setting_in setting.now) (view_statement_form f.now) }
    ensures few { result ≤ 2560 }
{
    match f {
        StmtForm::Block(_)
        | StmtForm::Plain(_)
        | StmtForm::Switch(_, _)
        | StmtForm::Break
        | StmtForm::Continue
        | StmtForm::Return(_) => 0,
        StmtForm::If(e, _, _) => 32 * bits_of(setting.types(), e),
        StmtForm::While(e, _) | StmtForm::Do(_, e) => {
            loop_weight(setting, bits_of(setting.types(), e))
        }
        StmtForm::For(_, test, _, _) => loop_weight(setting, maybe_bits(setting.types(), test)),
    }
}

// What a label of a section adds.
fn label_weight(x: &Label) -> u64
    ensures { result ≡ label_weight (view_label x.now) }
{
    match x {
        Label::Default => 0,
        Label::Case(_) => 1024,
    }
}

/// What the labels of a section add to its node, or 2^64 - 1 where that is more.
#[tactic(auto, using(crate::proofs::Capping::capping))]
pub(crate) fn labels_weight(list: &[Label]) -> u64
    ensures { result ≡ capped (labels_weight (labels (map view_label list.now))) }
{
    let mut sum: u64 = 0;
    for x in list {
        sum = sum.saturating_add(label_weight(x));
    }
    sum
}
