// The kind of an integer constant.
ghost use Rattle.std.specs.Prelude.{◌≡◌};
ghost use Rattle.stk_numbers.specs.Suffixes.{kinds_of, first_holding, constant_kind};

use crate::kinds::fits;
use stk_ctype::IntKind;

/// The suffix of an integer constant (C11 6.4.4.1), without regard to the case and the order of its parts.
#[derive(Clone, Copy, Debug, PartialEq, Eq)]
pub enum Suffix {
    None,
    U,
    L,
    UL,
    LL,
    ULL,
}

/// The kinds that an integer constant may have, in order (C11 6.4.4.1p5).
fn kinds_of(decimal: bool, suffix: Suffix) -> &'static [IntKind]
    ensures { result.now ≡ kinds_of decimal suffix }
{
    match suffix {
        Suffix::None if decimal => &[IntKind::Int, IntKind::Long, IntKind::LLong],
        Suffix::None => &[
            IntKind::Int,
            IntKind::UInt,
            IntKind::Long,
            IntKind::ULong,
            IntKind::LLong,
            IntKind::ULLong,
        ],
        Suffix::U => &[IntKind::UInt, IntKind::ULong, IntKind::ULLong],
        Suffix::L if decimal => &[IntKind::Long, IntKind::LLong],
        Suffix::L => &[
            IntKind::Long,
            IntKind::ULong,
            IntKind::LLong,
            IntKind::ULLong,
        ],
        Suffix::UL => &[IntKind::ULong, IntKind::ULLong],
        Suffix::LL if decimal => &[IntKind::LLong],
        Suffix::LL => &[IntKind::LLong, IntKind::ULLong],
        Suffix::ULL => &[IntKind::ULLong],
    }
}

/// The first of some kinds that holds a number.
fn first_holding(kinds: &[IntKind], number: i128) -> Option<IntKind>
    ensures { result ≡ first_holding kinds.now number }
{
    for kind in kinds {
        if fits(*kind, number) {
            return Some(*kind);
        }
    }
    None
}

/// The kind of an integer constant, which is decimal or else octal or hexadecimal: the first of its list that holds the
/// number (C11 6.4.4.1p5). `None` exactly where no kind of the list does.
pub fn constant_kind(decimal: bool, suffix: Suffix, number: u64) -> Option<IntKind>
    ensures { result ≡ constant_kind decimal suffix number }
{
    first_holding(kinds_of(decimal, suffix), i128::from(number))
}
