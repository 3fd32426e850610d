//! The table of conditions: which kinds of undefined behaviour a node may have, and where the numbers of its operands
//! violate them (C11 6.5).

ghost use Rattle.std.specs.Prelude.{◌≡◌, ◌++◌, ◌∷◌, [], ℤ, Bool, true, false, not, ◌&&◌, if◌then◌else◌, filter, IfOk};
ghost use Rattle.std.specs.Option.{option_map};
ghost use Rattle.stk_ctype.specs.Types.{type_of};
ghost use Rattle.stk_numbers.specs.declared.conditions.Condition.{Condition};
ghost use Rattle.stk_numbers.specs.Kinds.{is_signed};
ghost use Rattle.stk_numbers.specs.Conditions.{divides, leaves_memory};
ghost use Rattle.stk_meaning.specs.declared.entry.Entry.TheVariants.{Ub};
ghost use Rattle.stk_meaning.specs.Operations.{may_overflow, to_address};
ghost use Rattle.stk_meaning.specs.Conditions.{index_tests, target_tests, unary_tests, library_tests, conditions_of, violated};
ghost use Rattle.stk_operators.specs.Shown.{operation_shown, library_shown};
ghost use Rattle.stk_operators.specs.Checked.{tests_of, kept_tests, taken_up, named};
ghost use Rattle.stk_operators.specs.declared.node_tests.NodeTests.TheVariants as asked;
ghost use Rattle.stk_operators.specs.declared.operators.Operation.TheVariants.{InKind};
ghost use Rattle.stk_numbers.specs.declared.conditions.UbKind.TheVariants.{Pointer};

use crate::libraries::Library;
use crate::operators::Operation;
use crate::types::{element_count, is_array};
use crate::words::{Stride, Word};
use stk_base::NoMemory;
use stk_ctype::CType;
use stk_meaning::Entry;
use stk_numbers::{
    ArithOp, Condition, IntKind, Kinds, UbKind, breaks, breaks_abs, breaks_bounds, breaks_copy,
    breaks_move, breaks_shift, signed, wrap,
};
use stk_tree::UnaryOp;

/// What is asked of the numbers of a node's operands: nothing; that an operation on them is defined; that `-` is, in a
/// kind; that a pointer isn't null; that an index doesn't move a pointer out of the address space, without and with the
/// question whether it is null; that an index is below a count; that a number has an absolute value in a kind; that the
/// bytes of a copy don't overlap.
#[derive(Clone, Copy, Debug)]
pub enum NodeTests {
    Nothing,
    Operation(Operation),
    Negation(IntKind),
    Target,
    Moved(Stride),
    TargetMoved(Stride),
    Bounds(u64),
    Absolute(IntKind),
    Copy,
}

/// What is asked at `e[e]`, with the type of what is indexed and the size of an element, where the place is accessed or
/// not.
pub fn index_node_tests(accessed: bool, ty: &CType, size: Stride) -> NodeTests
    ensures { tests_of result ≡ index_tests accessed (type_of ty.now) size }
{
    if !is_array(ty) {
        return if accessed {
            NodeTests::TargetMoved(size)
        } else {
            NodeTests::Moved(size)
        };
    }
    match (accessed, element_count(ty)) {
        (true, Some(count)) => NodeTests::Bounds(count),
        (true, None) | (false, _) => NodeTests::Moved(size),
    }
}

/// What is asked at `*e` and at `e->m`, where the place is accessed or not.
pub fn target_node_tests(accessed: bool) -> NodeTests
    ensures { tests_of result ≡ target_tests accessed }
{
    if accessed {
        NodeTests::Target
    } else {
        NodeTests::Nothing
    }
}

/// What is asked at a unary operator, with the promoted kind of its operand; of `*` where the place is accessed or not.
pub fn unary_node_tests(accessed: bool, kind: IntKind, op: UnaryOp) -> NodeTests
    ensures { tests_of result ≡ unary_tests accessed kind op }
{
    match op {
        UnaryOp::Deref => target_node_tests(accessed),
        UnaryOp::Minus => NodeTests::Negation(kind),
        UnaryOp::Address | UnaryOp::Plus | UnaryOp::Flip | UnaryOp::Not => NodeTests::Nothing,
    }
}

/// What is asked at a call of what may be a function of the library.
pub fn library_node_tests(library: Option<Library>) -> NodeTests
    ensures { tests_of result ≡ library_tests (option_map library_shown library) }
{
    match library {
        None => NodeTests::Nothing,
        Some(Library::AbsoluteIn(kind)) => NodeTests::Absolute(kind),
        Some(Library::CopyBytes) => NodeTests::Copy,
    }
}

// Whether the exact result of an operator may leave a kind.
fn may_overflow(op: ArithOp) -> bool
    ensures { result ≡ may_overflow op }
{
    match op {
        ArithOp::Add | ArithOp::Sub | ArithOp::Mul | ArithOp::Div | ArithOp::Rem => true,
        ArithOp::And | ArithOp::Xor | ArithOp::Or => false,
    }
}

// Whether the exact result of an operator in a kind may leave it, which is undefined.
fn may_leave(op: ArithOp, kind: IntKind) -> bool
    ensures { result ≡ (may_overflow op && is_signed kind) }
{
    may_overflow(op) && signed(kind)
}

// Whether an operator divides.
fn divides(op: ArithOp) -> bool
    ensures { result ≡ divides op }
{
    match op {
        ArithOp::Div | ArithOp::Rem => true,
        ArithOp::Add | ArithOp::Sub | ArithOp::Mul | ArithOp::And | ArithOp::Xor | ArithOp::Or =>
            false,
    }
}

// A kind, unless it is taken out.
fn put_kind(
    without: Kinds,
    node: u32,
    kind: UbKind,
    list: &mut Vec<Condition>,
) -> Result<(), NoMemory>
    ensures { IfOk result (λ _. list.new.items ≡ list.old.items ++ named without node kind) }
{
    if !without.has(kind) {
        list.push(Condition { node, kind })?;
    }
    Ok(())
}

// A kind that is violated, unless it is taken out.
fn put_broken(
    without: Kinds,
    node: u32,
    kind: UbKind,
    broken: bool,
    entries: &mut Vec<Entry>,
) -> Result<(), NoMemory>
    ensures { IfOk result (λ _. entries.new.items ≡ entries.old.items ++ taken_up without node kind broken) }
{
    if !without.has(kind) && broken {
        entries.push(Entry::Ub(Condition { node, kind }))?;
    }
    Ok(())
}

// The conditions of an operation.
fn put_operation_kinds(
    operation: Operation,
    without: Kinds,
    node: u32,
    list: &mut Vec<Condition>,
) -> Result<(), NoMemory>
    ensures { IfOk result (λ _. list.new.items ≡ list.old.items ++ conditions_of node (kept_tests without (asked.Operation operation))) }
{
    match operation {
        Operation::InKind(op, kind) => put_arithmetic_kinds(op, kind, without, node, list),
        Operation::ShiftIn(_, _) => put_kind(without, node, UbKind::Shift, list),
        Operation::Move(_, _) | Operation::MoveBehind(_) => {
            put_kind(without, node, UbKind::Pointer, list)
        }
        Operation::CompareIn(_, _) | Operation::Measure(_) => Ok(()),
    }
}

// The conditions of an operator in a kind.
fn put_arithmetic_kinds(
    op: ArithOp,
    kind: IntKind,
    without: Kinds,
    node: u32,
    list: &mut Vec<Condition>,
) -> Result<(), NoMemory>
    ensures { IfOk result (λ _. list.new.items ≡ list.old.items ++ conditions_of node (kept_tests without (asked.Operation (InKind op kind)))) }
{
    if may_overflow(op) && signed(kind) {
        put_kind(without, node, UbKind::Overflow, list)?;
    }
    if divides(op) {
        put_kind(without, node, UbKind::Zero, list)?;
    }
    Ok(())
}

/// Adds the conditions of a node for what is asked there, in the order of their kinds, but of the kinds that are taken
/// out.
pub fn push_conditions(
    node_tests: NodeTests,
    without: Kinds,
    node: u32,
    list: &mut Vec<Condition>,
) -> Result<(), NoMemory>
    ensures { IfOk result (λ _. list.new.items ≡ list.old.items ++ conditions_of node (kept_tests without node_tests)) }
{
    match node_tests {
        NodeTests::Nothing => Ok(()),
        NodeTests::Operation(operation) => put_operation_kinds(operation, without, node, list),
        NodeTests::Negation(kind) => {
            put_arithmetic_kinds(ArithOp::Sub, kind, without, node, list)
        }
        NodeTests::Target => put_kind(without, node, UbKind::Null, list),
        NodeTests::Moved(_) => put_kind(without, node, UbKind::Pointer, list),
        NodeTests::TargetMoved(_) => {
            put_kind(without, node, UbKind::Null, list)?;
            put_kind(without, node, UbKind::Pointer, list)
        }
        NodeTests::Bounds(_) => put_kind(without, node, UbKind::Bounds, list),
        NodeTests::Absolute(_) => put_kind(without, node, UbKind::AbsValue, list),
        NodeTests::Copy => put_kind(without, node, UbKind::Overlap, list),
    }
}

// A kind that is violated, where it is asked for, unless it is taken out.
fn put_asked(
    asked: bool,
    without: Kinds,
    node: u32,
    kind: UbKind,
    broken: bool,
    entries: &mut Vec<Entry>,
) -> Result<(), NoMemory>
    ensures { IfOk result (λ _. entries.new.items ≡ entries.old.items ++ (if asked then taken_up without node kind broken else [])) }
{
    if asked {
        put_broken(without, node, kind, broken, entries)?;
    }
    Ok(())
}

// The entries of an operator in a kind on the first two numbers.
fn put_arithmetic(
    op: ArithOp,
    kind: IntKind,
    without: Kinds,
    node: u32,
    numbers: (Word, Word, Word),
    entries: &mut Vec<Entry>,
) -> Result<(), NoMemory>
    ensures { IfOk result (λ _. entries.new.items ≡ entries.old.items ++ violated node (kept_tests without (asked.Operation (InKind op kind))) numbers.0 numbers.1 numbers.2) }
{
    let left = wrap(kind, numbers.0.number());
    let right = wrap(kind, numbers.1.number());
    let overflows = breaks(UbKind::Overflow, op, kind, left, right);
    put_asked(
        may_leave(op, kind),
        without,
        node,
        UbKind::Overflow,
        overflows,
        entries,
    )?;
    let by_zero = breaks(UbKind::Zero, op, kind, left, right);
    put_asked(divides(op), without, node, UbKind::Zero, by_zero, entries)?;
    Ok(())
}

// The entry of a pointer that is moved out of the address space.
fn put_moved(
    base: Word,
    step: Word,
    size: Stride,
    minus: bool,
    without: Kinds,
    node: u32,
    entries: &mut Vec<Entry>,
) -> Result<(), NoMemory>
    ensures { IfOk result (λ _. entries.new.items ≡ entries.old.items ++ taken_up without node Pointer (leaves_memory (to_address base) step size minus)) }
{
    let broken = breaks_move(base.to_address(), step.number(), size.bytes(), minus);
    put_broken(without, node, UbKind::Pointer, broken, entries)
}

// The entries of an operation on the first two numbers.
fn put_operation(
    operation: Operation,
    without: Kinds,
    node: u32,
    numbers: (Word, Word, Word),
    entries: &mut Vec<Entry>,
) -> Result<(), NoMemory>
    ensures { IfOk result (λ _. entries.new.items ≡ entries.old.items ++ violated node (kept_tests without (asked.Operation operation)) numbers.0 numbers.1 numbers.2) }
{
    let (x, y, _) = numbers;
    match operation {
        Operation::InKind(op, kind) => {
            put_arithmetic(op, kind, without, node, numbers, entries)?;
            Ok(())
        }
        Operation::ShiftIn(_, kind) => {
            let broken = breaks_shift(kind, y.number());
            put_broken(without, node, UbKind::Shift, broken, entries)?;
            Ok(())
        }
        Operation::Move(minus, size) => {
            put_moved(x, y, size, minus, without, node, entries)?;
            Ok(())
        }
        Operation::MoveBehind(size) => {
            put_moved(y, x, size, false, without, node, entries)?;
            Ok(())
        }
        Operation::CompareIn(_, _) | Operation::Measure(_) => Ok(()),
    }
}

// The entries of a pointer that is null, and of an index that moves it out of the address space.
fn put_target_moved(
    size: Stride,
    without: Kinds,
    node: u32,
    numbers: (Word, Word, Word),
    entries: &mut Vec<Entry>,
) -> Result<(), NoMemory>
    ensures { IfOk result (λ _. entries.new.items ≡ entries.old.items ++ violated node (kept_tests without (asked.TargetMoved size)) numbers.0 numbers.1 numbers.2) }
{
    put_broken(without, node, UbKind::Null, !numbers.0.is_true(), entries)?;
    put_moved(numbers.0, numbers.1, size, false, without, node, entries)?;
    Ok(())
}

/// Adds the entries of what is asked at a node that the numbers of its operands, in order, violate, but of the kinds
/// that are taken out; a number beyond the operands doesn't matter.
pub fn push_violated(
    node_tests: NodeTests,
    without: Kinds,
    node: u32,
    numbers: (Word, Word, Word),
    entries: &mut Vec<Entry>,
) -> Result<(), NoMemory>
    ensures { IfOk result (λ _. entries.new.items ≡ entries.old.items ++ violated node (kept_tests without node_tests) numbers.0 numbers.1 numbers.2) }
{
    let (x, y, z) = numbers;
    match node_tests {
        NodeTests::Nothing => Ok(()),
        NodeTests::Operation(operation) => {
            put_operation(operation, without, node, numbers, entries)?;
            Ok(())
        }
        NodeTests::Negation(kind) => {
            let zero = Word::bit(false);
            put_arithmetic(ArithOp::Sub, kind, without, node, (zero, x, z), entries)?;
            Ok(())
        }
        NodeTests::Target => {
            put_broken(without, node, UbKind::Null, !x.is_true(), entries)?;
            Ok(())
        }
        NodeTests::Moved(size) => {
            put_moved(x, y, size, false, without, node, entries)?;
            Ok(())
        }
        NodeTests::TargetMoved(size) => {
            put_target_moved(size, without, node, numbers, entries)?;
            Ok(())
        }
        NodeTests::Bounds(count) => {
            let broken = breaks_bounds(y.number(), count);
            put_broken(without, node, UbKind::Bounds, broken, entries)?;
            Ok(())
        }
        NodeTests::Absolute(kind) => {
            let broken = breaks_abs(kind, x.number());
            put_broken(without, node, UbKind::AbsValue, broken, entries)?;
            Ok(())
        }
        NodeTests::Copy => {
            let broken = breaks_copy(x.to_address(), y.to_address(), z.to_address());
            put_broken(without, node, UbKind::Overlap, broken, entries)?;
            Ok(())
        }
    }
}
