//! What operations add to the weight of their nodes.

ghost use Rattle.std.specs.Prelude.{◌≡◌, ◌≤◌, ◌+◌, ◌*◌, ◌==◌, if◌then◌else◌, count_ones, max};
ghost use Rattle.std.specs.Option.{option_map};
ghost use Rattle.stk_ctype.specs.Types.{type_of};
ghost use Rattle.stk_numbers.specs.Kinds.{width_of};
ghost use Rattle.stk_operators.specs.Shown.{operation_shown, library_shown};
ghost use Rattle.stk_meaning.specs.Weights.{bits_in, operation_bits, is_product, operation_weight, step_weight, unary_weight, library_weight};

use stk_ctype::CType;
use stk_numbers::{ArithOp, IntKind, width};
use stk_operators::{Library, Operation, Stride};
use stk_tree::UnaryOp;

// The bits of a kind.
#[tactic(auto, using(crate::proofs::Widths::narrow))]
fn kind_bits(kind: IntKind) -> u64
    ensures is { result ≡ width_of kind }
    ensures few { result ≤ 64 }
{
    u64::from(width(kind))
}

/// The bits of a value of a type; what is `void` has none.
pub(crate) fn bits_in(ty: &CType) -> u64
    ensures is { result ≡ bits_in (type_of ty.now) }
    ensures few { result ≤ 64 }
{
    match ty {
        CType::Int(kind) => kind_bits(*kind),
        CType::Pointer(_) | CType::Array(_, _) => 64,
        CType::Void | CType::Struct(_) | CType::Function(_) => 0,
    }
}

/// The greater of two widths.
pub(crate) fn greater(a: u64, b: u64) -> u64
    ensures is { result ≡ max a b }
    ensures few { a ≤ 64 → b ≤ 64 → result ≤ 64 }
{
    if a < b { b } else { a }
}

/// The bits that an operation works in.
pub(crate) fn operation_bits(op: &Operation) -> u64
    ensures is { result ≡ operation_bits (operation_shown op.now) }
    ensures few { result ≤ 64 }
{
    match op {
        Operation::InKind(_, kind) => kind_bits(*kind),
        Operation::ShiftIn(_, kind) => kind_bits(*kind),
        Operation::CompareIn(_, kind) => kind_bits(*kind),
        Operation::Move(_, _) | Operation::MoveBehind(_) | Operation::Measure(_) => 64,
    }
}

/// What the move of a pointer adds, by the size of what it points to.
pub(crate) fn move_weight(size: Stride) -> u64
    ensures is { result ≡ 2048 + 2048 * count_ones size }
    ensures few { result ≤ 133120 }
{
    2048 + 2048 * u64::from(size.bytes().count_ones())
}

// What the distance of two pointers adds.
fn measure_weight(size: Stride) -> u64
    ensures is { result ≡ (if size == 1 then 1024 else 132096) }
    ensures few { result ≤ 133120 }
{
    if size.bytes() == 1 { 1024 } else { 132_096 }
}

// Whether an operator multiplies or divides.
fn is_product(op: ArithOp) -> bool
    ensures { result ≡ is_product op }
{
    match op {
        ArithOp::Mul | ArithOp::Div | ArithOp::Rem => true,
        ArithOp::Add | ArithOp::Sub | ArithOp::And | ArithOp::Xor | ArithOp::Or => false,
    }
}

// What a product, quotient or remainder of a width adds.
#[tactic(auto, using(crate::proofs::Widths::few_squares))]
fn product_weight(w: u64) -> u64
    requires { w ≤ 64 }
    ensures is { result ≡ 16 * w + 32 * w * w }
    ensures few { result ≤ 133120 }
{
    16 * w + 32 * w * w
}

// What an operator on integers adds, in this greatest width.
fn arithmetic_weight(w: u64, op: ArithOp) -> u64
    requires { w ≤ 64 }
    ensures is { result ≡ (if is_product op then 16 * w + 32 * w * w else 32 * w) }
    ensures few { result ≤ 133120 }
{
    if is_product(op) {
        product_weight(w)
    } else {
        32 * w
    }
}

/// What an operation adds whose greatest width is this one.
pub(crate) fn operation_weight(w: u64, op: &Operation) -> u64
    requires { w ≤ 64 }
    ensures is { result ≡ operation_weight w (operation_shown op.now) }
    ensures few { result ≤ 133120 }
{
    match op {
        Operation::InKind(op, _) => arithmetic_weight(w, *op),
        Operation::ShiftIn(_, _) => 48 * w,
        Operation::CompareIn(_, _) => 32 * w,
        Operation::Move(_, size) => move_weight(*size),
        Operation::MoveBehind(size) => move_weight(*size),
        Operation::Measure(size) => measure_weight(*size),
    }
}

/// What `++` or `--` adds: on integers 48 a bit, and on pointers what their move does.
pub(crate) fn step_weight(w: u64, op: &Operation) -> u64
    requires { w ≤ 64 }
    ensures is { result ≡ step_weight w (operation_shown op.now) }
    ensures few { result ≤ 133120 }
{
    match op {
        Operation::InKind(_, _) | Operation::ShiftIn(_, _) | Operation::CompareIn(_, _) => 48 * w,
        Operation::Move(_, size) => move_weight(*size),
        Operation::MoveBehind(size) => move_weight(*size),
        Operation::Measure(size) => move_weight(*size),
    }
}

/// What a unary operator adds.
pub(crate) fn unary_weight(w: u64, op: UnaryOp) -> u64
    requires { w ≤ 64 }
    ensures is { result ≡ unary_weight w op }
    ensures few { result ≤ 2048 }
{
    match op {
        UnaryOp::Address | UnaryOp::Plus => 0,
        UnaryOp::Deref => 2048,
        UnaryOp::Minus | UnaryOp::Flip | UnaryOp::Not => 32 * w,
    }
}

/// What a call of the library adds.
pub(crate) fn library_weight(library: Option<Library>) -> u64
    ensures is { result ≡ library_weight (option_map library_shown library) }
    ensures few { result ≤ 4096 }
{
    match library {
        None => 0,
        Some(Library::AbsoluteIn(kind)) => 48 * kind_bits(kind),
        Some(Library::CopyBytes) => 4096,
    }
}
