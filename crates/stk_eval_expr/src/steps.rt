//! What an expression does once its operands are evaluated.
#![tactic(auto, using(crate::proofs::LeavingLaws::value_leaves, crate::proofs::LeavingLaws::nothing_adds))]

ghost use Rattle.std.specs.Prelude.{if◌then◌else◌, Option, option_map, get_or, ◌≡◌, ◌+◌, ℤ, Bool, true, false, pos, IfOk, List};
ghost use Rattle.stk_tree.specs.Syntax.{ExprTree, ExprTrees, ExprFormTree};
ghost use Rattle.stk_tree.specs.Syntax as s;
ghost use Rattle.stk_tree.specs.View.{view_expression};
ghost use Rattle.stk_tree.specs.declared.expression.UnaryOp.TheVariants as unary;
ghost use Rattle.stk_tree.specs.Parts.{bare};
ghost use Rattle.stk_numbers.specs.Values.{moved};
ghost use Rattle.stk_numbers.specs.Kinds.{promote};
ghost use Rattle.stk_meaning.specs.Typings.{Typing, type_in, node_of, pointed, stride_in, number_kind};
ghost use Rattle.stk_meaning.specs.Operations.{gives_old, operation_of, operation_tests, to_address, in_kind, operated, comparing};
ghost use Rattle.stk_meaning.specs.Conditions.{form_tests};
ghost use Rattle.stk_meaning.specs.Libraries.{called_library, called_signature, result_in};
ghost use Rattle.stk_meaning.specs.Replacements.{Replaced, replacement};
ghost use Rattle.stk_meaning.specs.Places.{object_named, target_of, member_target};
ghost use Rattle.stk_meaning.specs.Worlds.{Went};
ghost use Rattle.stk_meaning.specs.Expressions.{name_meaning, returned, breaks, number_in, stored_at, operate, seen, is_comparison, compares, replaced_by};
ghost use Rattle.stk_numbers.specs.declared.operators.ArithOp.TheVariants.{Sub};
ghost use Rattle.stk_operators.specs.Shown.{sort_shown, operation_shown};
ghost use Rattle.stk_operators.specs.Checked.{tests_of};
ghost use Rattle.stk_eval_expr.specs.Shown.{sides_shown, replacement_shown};
ghost use Rattle.stk_operators.specs.Targets.{target_shown};
ghost use Rattle.stk_eval_expr.specs.Leaving.{Leaves, Adds};
ghost use Rattle.stk_eval_expr.specs.Parts.{place_end, comparison_end, step_end, plain_end, compound_end, call_end};

use crate::asked::{Replacement, RunSetting};
use crate::outside::{answer, object_address, read, store, write};
use crate::state::{Sides, State};
use crate::world::World;
use stk_base::{NoMemory, Span};
use stk_meaning::Entry;
use stk_numbers::{ArithOp, CompareOp, promote};
use stk_operators::{
    BinarySort, Library, NodeTests, Operation, Operator, Target, Word, absolute, gives_old,
    library_node_tests, moved_address, operated, replaced_truth, sort_of, target_node_tests,
};
use stk_tree::{Expr, ExprForm, StepOp};

/// The number of an expression's node.
pub fn node_of(e: &Expr) -> u32
    ensures { result ≡ node_of (view_expression e.now) }
{
    e.node.number
}

/// Adds the entries of what is asked at a node that these numbers violate.
pub(crate) fn check<W: World>(
    out: &W,
    node: u32,
    node_tests: NodeTests,
    numbers: (Word, Word, Word),
    state: &mut State<W::Kept>,
) -> Result<(), NoMemory>
    ensures { IfOk result (λ _. (accessed : Bool) (f : ExprFormTree) → form_tests (W.setting out.now).typing accessed f ≡ tests_of node_tests → Adds (breaks (W.setting out.now) node accessed f numbers.0 numbers.1 numbers.2) state.old state.new) }
{
    state.violate(node_tests, out.without(), node, numbers)
}

/// The number of a place whose address is known: of an array its address, else what is read.
pub(crate) fn place_number<W: World>(
    out: &W,
    node: u32,
    target: Target,
    address: u64,
    state: &mut State<W::Kept>,
) -> Word
    ensures { Leaves W.shown (place_end (W.setting out.now) (W.world out.now) node (target_shown target) address state.old.registers.items (W.shown state.old.kept)) result state.old state.new }
{
    if out.is_array_at(node) {
        return Word::address(address);
    }
    read(out, target, node, out.kind_at(node), address, state)
}

/// The address of `*e`, for the number of e.
pub(crate) fn target_place<W: World>(
    out: &W,
    node: u32,
    accessed: bool,
    number: Word,
    state: &mut State<W::Kept>,
) -> Result<u64, NoMemory>
    ensures { IfOk result (λ v. (e : ExprTree) → Leaves W.shown (Went (to_address number) state.old.registers.items (W.shown state.old.kept) (breaks (W.setting out.now) node accessed (s.unary unary.Deref e) number (pos 0) (pos 0))) v state.old state.new) }
{
    let zero = Word::bit(false);
    check(
        out,
        node,
        target_node_tests(accessed),
        (number, zero, zero),
        state,
    )?;
    Ok(number.to_address())
}

// An address, and so many bytes more, modulo 2^64.
fn behind(address: u64, bytes: u64) -> u64
    ensures { result ≡ to_address (pos (address + bytes)) }
{
    address.wrapping_add(bytes)
}

/// The address of a member of a place.
pub(crate) fn member_place<O: RunSetting>(out: &O, node: u32, name: Span, address: u64) -> u64
    ensures { result ≡ to_address (pos (address + (O.setting out.now).typing.offset_of ((O.setting out.now).typing.type_at node) name)) }
{
    behind(address, out.offset(node, name))
}

/// The address of `e->m`, for the node and the number of e.
pub(crate) fn arrow_place<W: World>(
    out: &W,
    node: u32,
    accessed: bool,
    e: &Expr,
    name: Span,
    number: Word,
    state: &mut State<W::Kept>,
) -> Result<u64, NoMemory>
    ensures { IfOk result (λ v. Leaves W.shown (Went (to_address (pos (to_address number + (W.setting out.now).typing.offset_of (pointed (type_in (W.setting out.now).typing (view_expression e.now))) name))) state.old.registers.items (W.shown state.old.kept) (breaks (W.setting out.now) node accessed (s.arrow (view_expression e.now) name) number (pos 0) (pos 0))) v state.old state.new) }
{
    let zero = Word::bit(false);
    check(
        out,
        node,
        target_node_tests(accessed),
        (number, zero, zero),
        state,
    )?;
    Ok(behind(number.to_address(), out.pointed_offset(node_of(e), name)))
}

/// The address of `e[e]`, for the number of what is indexed and the index.
pub(crate) fn indexed_place<W: World>(
    out: &W,
    node: u32,
    accessed: bool,
    left: &Expr,
    numbers: (Word, Word),
    state: &mut State<W::Kept>,
) -> Result<u64, NoMemory>
    ensures { IfOk result (λ v. (right : ExprTree) → Leaves W.shown (Went (moved (to_address numbers.0) numbers.1 (stride_in (W.setting out.now).typing (type_in (W.setting out.now).typing (view_expression left.now))) false) state.old.registers.items (W.shown state.old.kept) (breaks (W.setting out.now) node accessed (s.index (view_expression left.now) right) numbers.0 numbers.1 (pos 0))) v state.old state.new) }
{
    let (x, y) = numbers;
    let at = node_of(left);
    let node_tests = out.index_node_tests(accessed, at);
    check(out, node, node_tests, (x, y, Word::bit(false)), state)?;
    Ok(moved_address(x, y, out.stride_at(at), false))
}

/// The value of an operator on two numbers, with the conditions that they violate.
pub(crate) fn operated_number<W: World>(
    out: &W,
    node: u32,
    operation: Operation,
    numbers: (Word, Word),
    state: &mut State<W::Kept>,
) -> Result<Word, NoMemory>
    ensures { IfOk result (λ v. (f : ExprFormTree) → form_tests (W.setting out.now).typing true f ≡ operation_tests (operation_shown operation) → Leaves W.shown (operate (W.setting out.now) node f (operation_shown operation) numbers.0 numbers.1 state.old.registers.items (W.shown state.old.kept)) v state.old state.new) }
{
    let (x, y) = numbers;
    let number = operated(&operation, x, y);
    check(
        out,
        node,
        NodeTests::Operation(operation),
        (x, y, Word::bit(false)),
        state,
    )?;
    Ok(number)
}

/// The value of `-` on the number of an operand.
pub(crate) fn negated_number<W: World>(
    out: &W,
    node: u32,
    e: &Expr,
    number: Word,
    state: &mut State<W::Kept>,
) -> Result<Word, NoMemory>
    ensures { IfOk result (λ v. Leaves W.shown (Went (operated (in_kind Sub (promote (number_kind (type_in (W.setting out.now).typing (view_expression e.now))))) (pos 0) number) state.old.registers.items (W.shown state.old.kept) (breaks (W.setting out.now) node true (s.unary unary.Minus (view_expression e.now)) number (pos 0) (pos 0))) v state.old state.new) }
{
    let zero = Word::bit(false);
    let kind = promote(out.kind_at(node_of(e)));
    check(
        out,
        node,
        NodeTests::Negation(kind),
        (number, zero, zero),
        state,
    )?;
    Ok(operated(&Operation::InKind(ArithOp::Sub, kind), zero, number))
}

// The number that the kept operand of a replaced comparison had.
fn kept_number(found: &Replacement, x: &Sides, y: &Sides) -> Word
    ensures { result ≡ (if found.now.sum_first then (if found.now.is_right then x.now.right else x.now.left) else (if found.now.is_right then y.now.right else y.now.left)) }
{
    let side = if found.sum_first { x } else { y };
    if found.is_right {
        side.right
    } else {
        side.left
    }
}

// The truth of a comparison's replacement, where it has one.
fn replaced(op: CompareOp, found: Option<Replacement>, x: &Sides, y: &Sides) -> Option<bool>
    ensures { (ty : Typing) (r : Option Replaced) → found ≡ option_map (λ f. replacement_shown ty f) r → result ≡ replaced_by ty op r (sides_shown x.now) (sides_shown y.now) }
{
    match found {
        None => None,
        Some(found) => {
            let number = kept_number(&found, x, y);
            Some(replaced_truth(found.zero_first, op, found.kind, number))
        }
    }
}

/// The end of a comparison of two sides: what it is seen to be.
pub(crate) fn compared_number<W: World>(
    out: &W,
    node: u32,
    op: CompareOp,
    left: &Expr,
    right: &Expr,
    sides: (Sides, Sides),
    state: &mut State<W::Kept>,
) -> Result<Word, NoMemory>
    ensures { IfOk result (λ v. let ty = (W.setting out.now).typing in let a = view_expression left.now in let b = view_expression right.now in Leaves W.shown (comparison_end (W.setting out.now) node op (operation_of ty (comparing op) (type_in ty a) (type_in ty b)) (replacement ty a b) (sides_shown sides.0) (sides_shown sides.1) state.old.registers.items (W.shown state.old.kept)) v state.old state.new) }
{
    let (x, y) = sides;
    let operation = out.operation(Operator::Comparing(op), node_of(left), node_of(right));
    let number = operated(&operation, x.number, y.number);
    let found = out.replacement(left, right)?;
    let other = replaced(op, found, &x, &y);
    state.push(Entry::Seen(node, number.is_true(), other))?;
    Ok(number)
}

// Whether an operator compares.
fn compares(sort: BinarySort) -> bool
    ensures { result ≡ compares (sort_shown sort) }
{
    match sort {
        BinarySort::Operates(Operator::Comparing(_)) => true,
        BinarySort::Operates(Operator::Arithmetic(_)) => false,
        BinarySort::Operates(Operator::Shifting(_)) => false,
        BinarySort::Joins => false,
        BinarySort::OrElse => false,
        BinarySort::AndAlso => false,
    }
}

/// Whether an expression is a comparison (C11 6.5.8, 6.5.9); one in parentheses isn't.
pub fn is_comparison(e: &Expr) -> bool
    ensures { result ≡ is_comparison (view_expression e.now) }
{
    match &e.form {
        ExprForm::Binary(op, _, _) => compares(sort_of(*op)),
        ExprForm::Paren(_)
        | ExprForm::Name(_)
        | ExprForm::Number(_)
        | ExprForm::Character(_)
        | ExprForm::Text(_)
        | ExprForm::Index(_, _)
        | ExprForm::Call(_, _)
        | ExprForm::Dot(_, _)
        | ExprForm::Arrow(_, _)
        | ExprForm::Step(_, _)
        | ExprForm::Unary(_, _)
        | ExprForm::SizeExpr(_)
        | ExprForm::SizeName(_)
        | ExprForm::Cast(_, _)
        | ExprForm::Choice(_, _, _)
        | ExprForm::Assign(_, _, _) => false,
    }
}

/// Adds what a controlling expression is seen to be, unless it is a comparison.
pub(crate) fn see<K>(e: &Expr, number: Word, state: &mut State<K>) -> Result<(), NoMemory>
    ensures { IfOk result (λ _. Adds (seen (bare (view_expression e.now)) number) state.old state.new) }
{
    let inner = e.bare();
    if is_comparison(inner) {
        return Ok(());
    }
    state.push(Entry::Seen(node_of(inner), number.is_true(), None))
}

/// What an expression is as a place by name: a name, or a member of one, parentheses aside.
pub fn target_of<O: RunSetting>(out: &O, e: &Expr) -> Target
    ensures { target_shown result ≡ target_of (O.setting out.now) (view_expression e.now) }
{
    match &e.form {
        ExprForm::Name(at) => out.target_at(out.object_named(node_of(e), *at)),
        ExprForm::Paren(x) => target_of(out, x.get()),
        ExprForm::Dot(x, _) => member_target(target_of(out, x.get())),
        ExprForm::Number(_)
        | ExprForm::Character(_)
        | ExprForm::Text(_)
        | ExprForm::Index(_, _)
        | ExprForm::Call(_, _)
        | ExprForm::Arrow(_, _)
        | ExprForm::Step(_, _)
        | ExprForm::Unary(_, _)
        | ExprForm::SizeExpr(_)
        | ExprForm::SizeName(_)
        | ExprForm::Cast(_, _)
        | ExprForm::Binary(_, _, _)
        | ExprForm::Choice(_, _, _)
        | ExprForm::Assign(_, _, _) => Target::Unnamed,
    }
}

// A member of a place by name.
fn member_target(target: Target) -> Target
    ensures { target_shown result ≡ member_target (target_shown target) }
{
    match target {
        Target::Object(node) => Target::Object(node),
        Target::Register(_) | Target::Kept(_) | Target::Unnamed => Target::Unnamed,
    }
}

// The node of an expression without the parentheses round it.
fn bare_node(e: &Expr) -> u32
    ensures { result ≡ node_of (bare (view_expression e.now)) }
{
    node_of(e.bare())
}

// The number of an expression that is a place, at its address.
fn read_place<W: World>(out: &W, e: &Expr, address: u64, state: &mut State<W::Kept>) -> Word
    ensures { let t = type_in (W.setting out.now).typing (view_expression e.now) in Leaves W.shown (number_in (W.world out.now) (target_of (W.setting out.now) (view_expression e.now)) (node_of (bare (view_expression e.now))) (number_kind t) address state.old.registers.items (W.shown state.old.kept)) result state.old state.new }
{
    let kind = out.kind_at(node_of(e));
    read(out, target_of(out, e), bare_node(e), kind, address, state)
}

// Stores a number in an expression that is a place, at its address.
fn store_place<W: World>(
    out: &W,
    e: &Expr,
    address: u64,
    number: Word,
    state: &mut State<W::Kept>,
) -> Result<(), NoMemory>
    ensures { IfOk result (λ _. (z : ℤ) → let t = type_in (W.setting out.now).typing (view_expression e.now) in Leaves W.shown (stored_at (W.world out.now) (target_of (W.setting out.now) (view_expression e.now)) (number_kind t) address number z state.old.registers.items (W.shown state.old.kept)) z state.old state.new) }
{
    let kind = out.kind_at(node_of(e));
    store(out, target_of(out, e), kind, address, number, state)
}

// The number from before or the new one, as `++` and `--` give it.
fn given(op: StepOp, old: Word, new: Word) -> Word
    ensures { result ≡ (if gives_old op then old else new) }
{
    if gives_old(op) { old } else { new }
}

/// The end of `++` and `--`, once the address of the place is known.
pub(crate) fn stepped_number<W: World>(
    out: &W,
    node: u32,
    op: StepOp,
    e: &Expr,
    address: u64,
    state: &mut State<W::Kept>,
) -> Result<Word, NoMemory>
    ensures { IfOk result (λ v. Leaves W.shown (step_end (W.setting out.now) (W.world out.now) node op (view_expression e.now) address state.old.registers.items (W.shown state.old.kept)) v state.old state.new) }
{
    let x = read_place(out, e, address, state);
    let operation = out.step_operation(op, node_of(e));
    let number = operated_number(out, node, operation, (x, Word::bit(true)), state)?;
    let y = number.to_kind(out.kind_at(node_of(e)));
    store_place(out, e, address, y, state)?;
    Ok(given(op, x, y))
}

/// The end of `=`, once the right side and the address of the place are known.
pub(crate) fn assigned_number<W: World>(
    out: &W,
    left: &Expr,
    address: u64,
    number: Word,
    state: &mut State<W::Kept>,
) -> Result<Word, NoMemory>
    ensures { IfOk result (λ v. Leaves W.shown (plain_end (W.setting out.now) (W.world out.now) (view_expression left.now) number address state.old.registers.items (W.shown state.old.kept)) v state.old state.new) }
{
    let y = number.to_kind(out.kind_at(node_of(left)));
    store_place(out, left, address, y, state)?;
    Ok(y)
}

/// The end of a compound assignment, once the right side and the address of the place are known.
pub(crate) fn compound_number<W: World>(
    out: &W,
    node: u32,
    operation: Operation,
    left: &Expr,
    address: u64,
    number: Word,
    state: &mut State<W::Kept>,
) -> Result<Word, NoMemory>
    ensures { IfOk result (λ v. (f : ExprFormTree) → form_tests (W.setting out.now).typing true f ≡ operation_tests (operation_shown operation) → Leaves W.shown (compound_end (W.setting out.now) (W.world out.now) node f (operation_shown operation) (view_expression left.now) number address state.old.registers.items (W.shown state.old.kept)) v state.old state.new) }
{
    let x = read_place(out, left, address, state);
    let found = operated_number(out, node, operation, (x, number), state)?;
    let z = found.to_kind(out.kind_at(node_of(left)));
    store_place(out, left, address, z, state)?;
    Ok(z)
}

// The numbers of the first three arguments; 0 for one that there isn't.
fn first_three(numbers: &[Word]) -> (Word, Word, Word)
    ensures first { result.0 ≡ get_or numbers.now 0 (pos 0) }
    ensures second { result.1 ≡ get_or numbers.now 1 (pos 0) }
    ensures third { result.2 ≡ get_or numbers.now 2 (pos 0) }
{
    (
        argument(numbers, 0),
        argument(numbers, 1),
        argument(numbers, 2),
    )
}

// The number of an argument; 0 for one that there isn't.
fn argument(numbers: &[Word], at: usize) -> Word
    ensures { result ≡ get_or numbers.now at (pos 0) }
{
    match numbers.get(at) {
        Some(number) => *number,
        None => Word::bit(false),
    }
}

// The value of a call that returns, once its arguments are evaluated.
fn returned_number<W: World>(
    out: &W,
    node: u32,
    callee: &Expr,
    first: Word,
    state: &mut State<W::Kept>,
) -> Result<Word, NoMemory>
    ensures { IfOk result (λ v. (xs : List ℤ) → first ≡ get_or xs 0 (pos 0) → Leaves W.shown (returned (W.world out.now) node (result_in (called_signature (W.setting out.now).typing (view_expression callee.now))) (called_library (W.setting out.now).typing (view_expression callee.now)) xs state.old.registers.items (W.shown state.old.kept)) v state.old state.new) }
{
    match out.library(callee) {
        Some(Library::AbsoluteIn(kind)) => Ok(absolute(kind, first)),
        Some(Library::CopyBytes) => {
            write(out, state)?;
            Ok(first)
        }
        None => answer(out, node, callee, state),
    }
}

/// The end of a call, once its arguments are evaluated.
pub(crate) fn called_number<W: World>(
    out: &W,
    node: u32,
    callee: &Expr,
    numbers: &[Word],
    state: &mut State<W::Kept>,
) -> Result<Word, NoMemory>
    ensures { IfOk result (λ v. (es : ExprTrees) → Leaves W.shown (call_end (W.setting out.now) (W.world out.now) node (view_expression callee.now) es numbers.now state.old.registers.items (W.shown state.old.kept)) v state.old state.new) }
{
    let (x, y, z) = first_three(numbers);
    let node_tests = library_node_tests(out.library(callee));
    check(out, node, node_tests, (x, y, z), state)?;
    if out.never_returns(callee) {
        state.end();
        return Ok(x);
    }
    let v = returned_number(out, node, callee, x, state)?;
    Ok(v)
}

/// The address of a name's object. An enumerator's name is no place, so the run ends.
pub(crate) fn named_place<W: World>(
    out: &W,
    node: u32,
    name: Span,
    state: &mut State<W::Kept>,
) -> u64
    ensures { (accessed : Bool) → Leaves W.shown ((name_meaning (W.setting out.now) (W.world out.now) node (s.name name) (object_named (W.setting out.now) node name) ((W.setting out.now).typing.number_at node)).place accessed state.old.registers.items (W.shown state.old.kept)) result state.old state.new }
{
    match out.own_number(node) {
        Some(_) => {
            state.end();
            0
        }
        None => object_address(out, out.object_named(node, name)),
    }
}
