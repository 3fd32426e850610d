// Comparisons of numbers.
ghost use Rattle.std.specs.Prelude.{◌≡◌};
ghost use Rattle.stk_numbers.specs.Values.{compared};

use crate::operators::CompareOp;

/// Whether a comparison of two numbers holds (C11 6.5.8, 6.5.9).
pub fn compared(op: CompareOp, left: i128, right: i128) -> bool
    ensures { result ≡ compared op left right }
{
    match op {
        CompareOp::Lt => left < right,
        CompareOp::Gt => left > right,
        CompareOp::Le => left <= right,
        CompareOp::Ge => left >= right,
        CompareOp::Eq => left == right,
        CompareOp::Ne => left != right,
    }
}
