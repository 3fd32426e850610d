//! Operators on values that a walk has come to, and comparisons.

ghost use Rattle.std.specs.Prelude.{◌≡◌, ℕ, ℤ, List, true, not, pos, negsuc, ◌-ℤ◌, Option, option_map, if◌then◌else◌, IfOk, OnOk, ◌+◌, ◌*◌, ◌≤◌, length};
ghost use Rattle.stk_ctype.specs.declared.kind.IntKind.TheVariants.{Int};
ghost use Rattle.stk_ctype.specs.declared.kind.IntKind as kinds;
ghost use Rattle.stk_tree.specs.Syntax.{ExprFormTree};
ghost use Rattle.stk_tree.specs.Syntax as s;
ghost use Rattle.stk_tree.specs.View.{view_expression};
ghost use Rattle.stk_tree.specs.declared.expression.UnaryOp.TheVariants as unary;
ghost use Rattle.stk_tree.specs.Parts.{bare};
ghost use Rattle.stk_numbers.specs.Kinds.{promote, wrap, width_of};
ghost use Rattle.stk_numbers.specs.declared.operators.ArithOp.TheVariants.{Sub};
ghost use Rattle.stk_meaning.specs.Typings.{Typing, type_in, number_kind, node_of};
ghost use Rattle.stk_meaning.specs.Operations.{operation_of, operation_tests, operated, in_kind, comparing, truth, bit};
ghost use Rattle.stk_meaning.specs.Conditions.{form_tests};
ghost use Rattle.stk_meaning.specs.Replacements.{Replaced, replacement};
ghost use Rattle.stk_meaning.specs.Worlds.{Went};
ghost use Rattle.stk_meaning.specs.Expressions as runs;
ghost use Rattle.stk_meaning.specs.Expressions.{breaks, operate, replaced_by, seen};
ghost use Rattle.stk_operators.specs.Shown.{operation_shown};
ghost use Rattle.stk_eval_expr.specs.Parts.{comparison_end};
ghost use Rattle.stk_eval_expr.specs.Shown.{replacement_shown};
ghost use Rattle.stk_kinded.specs.Kinds.{operation_kind};
ghost use Rattle.stk_values.specs.Keeping.{Keeps};
ghost use Rattle.stk_walking.specs.Events.{seen_events};
ghost use Rattle.stk_walking.specs.ExpressionEvents.{condition_events, control_events};
ghost use Rattle.stk_walking.specs.Operands.{IsShiftOf};
ghost use Rattle.stk_walking.specs.Stands.{MaybeMade, MaybeShows};
ghost use Rattle.stk_walking.specs.Walks.{IsReady, Walks};
ghost use Rattle.stk_walk_values.specs.Parts.{WalksBehind};
ghost use Rattle.stk_walk_values.specs.Sided.{SidesMade, SidesShow};
ghost use Rattle.stk_values.specs.Charges.{convert_charge};
ghost use Rattle.stk_spending.specs.Charges.{tested_charge, seen_charge, replaced_charge};
ghost use Rattle.stk_spending.specs.Expressions.{kind_in, operator_spent, compared_spent};
ghost use Rattle.stk_walking.specs.Costs.{Costs};

use crate::sides::Sides;
use crate::steps::{check_one, check_two};
use stk_base::NoMemory;
use stk_eval_expr::{Replacement, is_comparison, node_of};
use stk_numbers::{CompareOp, IntKind, promote};
use stk_operators::{NodeTests, Operation, Operator};
use stk_tree::Expr;
use stk_values::Values;
use stk_walking::{
    Operand, WalkSetting, WalkState, flipped, is_true, is_zero, negated, operated, replaced_test,
    see, zero,
};

/// The value of an operator on two operands, with the steps of its conditions.
pub(crate) fn operated_number<O: WalkSetting, V: Values>(
    out: &O,
    node: u32,
    operation: Operation,
    pair: (Operand<V::Value>, Operand<V::Value>),
    values: &mut V,
    state: &mut WalkState<V::Value>,
) -> Result<V::Value, NoMemory>
    requires first { V.made values.old pair.0.kind pair.0.value }
    requires second { V.made values.old pair.1.kind pair.1.value }
    requires shifts { IsShiftOf pair.0.kind (operation_shown operation) }
    requires ready { IsReady V.has_key V.made (O.kinds out.now) (O.setting out.now) values.old state.old }
    ensures walks { IfOk result (λ v. (f : ExprFormTree) (x y : ℤ) → form_tests (O.setting out.now).typing true f ≡ operation_tests (operation_shown operation) → WalksBehind V.serves V.has_key V.made V.shows (O.setting out.now) (λ m. V.shows values.old m pair.0.kind pair.0.value x × V.shows values.old m pair.1.kind pair.1.value y) (operation_kind (operation_shown operation)) v (λ m. operate (O.setting out.now) node f (operation_shown operation) x y) (condition_events (O.setting out.now) node true f) values.old values.new state.old state.new) }
    ensures cost { OnOk result (Costs V.cost (length (O.setting out.now).kept) (operator_spent (operation_shown operation) pair.0.kind pair.1.kind) values.old values.new (length state.old.cells.items) (length state.new.cells.items)) }
{
    let (left, right) = pair;
    let number = operated(values, &operation, left, right)?;
    let tests = NodeTests::Operation(operation);
    check_two(out, node, tests, (left, right), values, state)?;
    Ok(number)
}

/// The value of `-` on the value of an operand, with the steps of its conditions.
pub(crate) fn negated_number<O: WalkSetting, V: Values>(
    out: &O,
    node: u32,
    e: &Expr,
    value: V::Value,
    values: &mut V,
    state: &mut WalkState<V::Value>,
) -> Result<V::Value, NoMemory>
    requires value { V.made values.old (number_kind (type_in (O.setting out.now).typing (view_expression e.now))) value }
    requires ready { IsReady V.has_key V.made (O.kinds out.now) (O.setting out.now) values.old state.old }
    ensures walks { IfOk result (λ v. (x : ℤ) → let g = O.setting out.now in let p = view_expression e.now in let k = promote (number_kind (type_in g.typing p)) in WalksBehind V.serves V.has_key V.made V.shows g (λ m. V.shows values.old m (number_kind (type_in g.typing p)) value x) k v (λ m r i. Went (operated (in_kind Sub k) (pos 0) x) r i (breaks g node true (s.unary unary.Minus p) x (pos 0) (pos 0))) (condition_events g node true (s.unary unary.Minus p)) values.old values.new state.old state.new) }
    ensures cost { OnOk result (Costs V.cost (length (O.setting out.now).kept) (operator_spent (in_kind Sub (promote (kind_in (O.setting out.now).typing (view_expression e.now)))) (promote (kind_in (O.setting out.now).typing (view_expression e.now))) (kind_in (O.setting out.now).typing (view_expression e.now))) values.old values.new (length state.old.cells.items) (length state.new.cells.items)) }
{
    let from = out.kind_at(node_of(e));
    let kind = promote(from);
    let operand = Operand { kind: from, value };
    let number = negated(values, kind, operand)?;
    let tests = NodeTests::Negation(kind);
    check_one(out, node, tests, operand, values, state)?;
    Ok(number)
}

// The operand of a replaced comparison that is kept.
fn kept_operand<T: Copy>(found: &Replacement, x: &Sides<T>, y: &Sides<T>) -> Operand<T>
    ensures { result ≡ (if found.now.sum_first then (if found.now.is_right then x.now.right else x.now.left) else (if found.now.is_right then y.now.right else y.now.left)) }
{
    let side = if found.sum_first { x } else { y };
    if found.is_right {
        side.right
    } else {
        side.left
    }
}

// The truth of a comparison's replacement, where it has one, as a test.
fn replaced<V: Values>(
    values: &mut V,
    op: CompareOp,
    found: Option<Replacement>,
    x: &Sides<V::Value>,
    y: &Sides<V::Value>,
) -> Result<Option<V::Value>, NoMemory>
    requires first_left { V.made values.old x.now.left.kind x.now.left.value }
    requires first_right { V.made values.old x.now.right.kind x.now.right.value }
    requires second_left { V.made values.old y.now.left.kind y.now.left.value }
    requires second_right { V.made values.old y.now.right.kind y.now.right.value }
    ensures makes { IfOk result (λ v. MaybeMade (V.made values.new Int) v) }
    ensures events { IfOk result (λ v. (n : ℕ) → seen_events n v ≡ seen_events n found) }
    ensures value { IfOk result (λ v. (m : List ℤ) (ty : Typing) (r : Option Replaced) (k j : kinds.IntKind) (p q : runs.Sides) → V.serves values.old m → found ≡ option_map (λ f. replacement_shown ty f) r → SidesShow (V.shows values.old m) k x.now p → SidesShow (V.shows values.old m) j y.now q → MaybeShows (V.shows values.new m Int) v (replaced_by ty op r p q)) }
    ensures keeps { OnOk result (Keeps V.serves V.has_key V.made V.shows values.old values.new) }
    ensures charge { OnOk result (V.cost values.new ≤ V.cost values.old + replaced_charge found) }
    ensures seen { IfOk result (λ v. seen_charge v ≡ seen_charge found) }
{
    match found {
        None => Ok(None),
        Some(found) => {
            let operand = kept_operand(&found, x, y);
            let test = replaced_test(values, found.zero_first, op, found.kind, operand)?;
            Ok(Some(test))
        }
    }
}

/// The end of a comparison of two sides: what it is seen to be.
pub(crate) fn compared_number<O: WalkSetting, V: Values>(
    out: &O,
    node: u32,
    op: CompareOp,
    left: &Expr,
    right: &Expr,
    pair: (Sides<V::Value>, Sides<V::Value>),
    values: &mut V,
    state: &mut WalkState<V::Value>,
) -> Result<V::Value, NoMemory>
    requires first { SidesMade (V.made values.old) (number_kind (type_in (O.setting out.now).typing (view_expression left.now))) pair.0 }
    requires second { SidesMade (V.made values.old) (number_kind (type_in (O.setting out.now).typing (view_expression right.now))) pair.1 }
    requires ready { IsReady V.has_key V.made (O.kinds out.now) (O.setting out.now) values.old state.old }
    ensures walks { IfOk result (λ v. (p q : runs.Sides) → let g = O.setting out.now in let a = view_expression left.now in let b = view_expression right.now in WalksBehind V.serves V.has_key V.made V.shows g (λ m. SidesShow (V.shows values.old m) (number_kind (type_in g.typing a)) pair.0 p × SidesShow (V.shows values.old m) (number_kind (type_in g.typing b)) pair.1 q) Int v (λ m. comparison_end g node op (operation_of g.typing (comparing op) (type_in g.typing a) (type_in g.typing b)) (replacement g.typing a b) p q) (seen_events node (replacement g.typing a b)) values.old values.new state.old state.new) }
    ensures cost { OnOk result (Costs V.cost (length (O.setting out.now).kept) (compared_spent (operation_of (O.setting out.now).typing (comparing op) (type_in (O.setting out.now).typing (view_expression left.now)) (type_in (O.setting out.now).typing (view_expression right.now))) (kind_in (O.setting out.now).typing (view_expression left.now)) (kind_in (O.setting out.now).typing (view_expression right.now)) (replacement (O.setting out.now).typing (view_expression left.now) (view_expression right.now))) values.old values.new (length state.old.cells.items) (length state.new.cells.items)) }
{
    let (x, y) = pair;
    let (first, second) = (node_of(left), node_of(right));
    let operation = out.operation(Operator::Comparing(op), first, second);
    let one = Operand {
        kind: out.kind_at(first),
        value: x.number,
    };
    let other = Operand {
        kind: out.kind_at(second),
        value: y.number,
    };
    let number = operated(values, &operation, one, other)?;
    let found = out.replacement(left, right)?;
    let replaced = replaced(values, op, found, &x, &y)?;
    see(values, node, number, replaced, state)?;
    Ok(number)
}

/// The test of a controlling expression for its value: it is seen without its parentheses, unless it is a comparison,
/// which has been seen already.
pub(crate) fn seen_test<O: WalkSetting, V: Values>(
    out: &O,
    e: &Expr,
    value: V::Value,
    values: &mut V,
    state: &mut WalkState<V::Value>,
) -> Result<V::Value, NoMemory>
    requires value { V.made values.old (number_kind (type_in (O.setting out.now).typing (view_expression e.now))) value }
    requires ready { IsReady V.has_key V.made (O.kinds out.now) (O.setting out.now) values.old state.old }
    ensures walks { IfOk result (λ v. (x : ℤ) → let g = O.setting out.now in let p = view_expression e.now in Walks V.serves V.has_key V.made V.shows g (λ m. V.shows values.old m (number_kind (type_in g.typing p)) value x) (λ c. V.made c Int v) (λ c m z. V.shows c m Int v (bit (truth z))) (λ m r i. Went x r i (seen (bare p) x)) (control_events (bare p)) values.old values.new state.old state.new) }
    ensures cost { OnOk result (Costs V.cost (length (O.setting out.now).kept) (tested_charge (kind_in (O.setting out.now).typing (view_expression e.now))) values.old values.new (length state.old.cells.items) (length state.new.cells.items)) }
{
    let test = is_true(values, out.kind_at(node_of(e)), value)?;
    let inner = e.bare();
    if is_comparison(inner) {
        return Ok(test);
    }
    see(values, node_of(inner), test, None, state)?;
    Ok(test)
}

/// The value of `~` on the value of an operand.
pub(crate) fn flipped_number<O: WalkSetting, V: Values>(
    out: &O,
    e: &Expr,
    value: V::Value,
    values: &mut V,
) -> Result<V::Value, NoMemory>
    requires { V.made values.old (number_kind (type_in (O.setting out.now).typing (view_expression e.now))) value }
    ensures makes { IfOk result (λ v. V.made values.new (promote (number_kind (type_in (O.setting out.now).typing (view_expression e.now)))) v) }
    ensures value { IfOk result (λ v. (m : List ℤ) (x : ℤ) → V.serves values.old m → V.shows values.old m (number_kind (type_in (O.setting out.now).typing (view_expression e.now))) value x → V.shows values.new m (promote (number_kind (type_in (O.setting out.now).typing (view_expression e.now)))) v (wrap (promote (number_kind (type_in (O.setting out.now).typing (view_expression e.now)))) (negsuc 0 -ℤ x))) }
    ensures keeps { Keeps V.serves V.has_key V.made V.shows values.old values.new }
    ensures charge { OnOk result (V.cost values.new ≤ V.cost values.old + (convert_charge (kind_in (O.setting out.now).typing (view_expression e.now)) (promote (kind_in (O.setting out.now).typing (view_expression e.now))) + 10 * width_of (promote (kind_in (O.setting out.now).typing (view_expression e.now))))) }
{
    let kind = out.kind_at(node_of(e));
    let found = flipped(values, promote(kind), Operand { kind, value })?;
    Ok(found)
}

/// The value of `!` on the value of an operand.
pub(crate) fn opposed_number<O: WalkSetting, V: Values>(
    out: &O,
    e: &Expr,
    value: V::Value,
    values: &mut V,
) -> Result<V::Value, NoMemory>
    requires { V.made values.old (number_kind (type_in (O.setting out.now).typing (view_expression e.now))) value }
    ensures makes { IfOk result (λ v. V.made values.new Int v) }
    ensures value { IfOk result (λ v. (m : List ℤ) (x : ℤ) → V.serves values.old m → V.shows values.old m (number_kind (type_in (O.setting out.now).typing (view_expression e.now))) value x → V.shows values.new m Int v (bit (not (truth x)))) }
    ensures keeps { Keeps V.serves V.has_key V.made V.shows values.old values.new }
    ensures charge { OnOk result (V.cost values.new ≤ V.cost values.old + 10 * width_of (kind_in (O.setting out.now).typing (view_expression e.now))) }
{
    let kind = out.kind_at(node_of(e));
    let found = is_zero(values, Operand { kind, value })?;
    Ok(found)
}

/// A value as a side of a comparison.
pub(crate) fn alone<V: Values>(
    values: &mut V,
    number: V::Value,
) -> Result<Sides<V::Value>, NoMemory>
    ensures makes { IfOk result (λ v. (k : kinds.IntKind) → V.made values.old k number → SidesMade (V.made values.new) k v) }
    ensures value { IfOk result (λ v. (m : List ℤ) (k : kinds.IntKind) (x : ℤ) → V.serves values.old m → V.shows values.old m k number x → SidesShow (V.shows values.new m) k v (record { number = x; left = pos 0; right = pos 0 })) }
    ensures keeps { Keeps V.serves V.has_key V.made V.shows values.old values.new }
    ensures charge { OnOk result (V.cost values.new ≤ V.cost values.old) }
{
    let kind = IntKind::Int;
    let value = zero(values, kind)?;
    let none = Operand { kind, value };
    Ok(Sides {
        number,
        left: none,
        right: none,
    })
}
