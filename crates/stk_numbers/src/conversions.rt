// The kinds of operands: promotion, and the common kind of two.
ghost use Rattle.std.specs.Prelude.{◌≡◌};
ghost use Rattle.stk_numbers.specs.Kinds.{rank, promote, unsigned_of, mixed, common};

use crate::kinds::{greatest, signed};
use stk_ctype::IntKind;

/// The rank of a kind (C11 6.3.1.1).
fn rank(kind: IntKind) -> u8
    ensures { result ≡ rank kind }
{
    match kind {
        IntKind::Bool => 0,
        IntKind::Char | IntKind::SChar | IntKind::UChar => 1,
        IntKind::Short | IntKind::UShort => 2,
        IntKind::Int | IntKind::UInt => 3,
        IntKind::Long | IntKind::ULong => 4,
        IntKind::LLong | IntKind::ULLong => 5,
    }
}

/// The kind of a promoted operand: `int` for a kind of lower rank, and else the kind itself (C11 6.3.1.1).
pub fn promote(kind: IntKind) -> IntKind
    ensures { result ≡ promote kind }
{
    if rank(kind) < 3 { IntKind::Int } else { kind }
}

/// The unsigned kind of a kind's rank.
fn unsigned_of(kind: IntKind) -> IntKind
    ensures { result ≡ unsigned_of kind }
{
    match kind {
        IntKind::Bool => IntKind::Bool,
        IntKind::Char | IntKind::SChar | IntKind::UChar => IntKind::UChar,
        IntKind::Short | IntKind::UShort => IntKind::UShort,
        IntKind::Int | IntKind::UInt => IntKind::UInt,
        IntKind::Long | IntKind::ULong => IntKind::ULong,
        IntKind::LLong | IntKind::ULLong => IntKind::ULLong,
    }
}

/// The common kind of an unsigned kind and a signed one.
fn mixed(unsigned: IntKind, other: IntKind) -> IntKind
    ensures { result ≡ mixed unsigned other }
{
    if rank(other) <= rank(unsigned) {
        unsigned
    } else if greatest(unsigned) <= greatest(other) {
        other
    } else {
        unsigned_of(other)
    }
}

/// The common kind of two operands, which are promoted (C11 6.3.1.8).
pub fn common(left: IntKind, right: IntKind) -> IntKind
    ensures { result ≡ common left right }
{
    let a = promote(left);
    let b = promote(right);
    match (signed(a), signed(b)) {
        (false, true) => mixed(a, b),
        (true, false) => mixed(b, a),
        (true, true) | (false, false) => { if rank(b) <= rank(a) { a } else { b } }
    }
}
