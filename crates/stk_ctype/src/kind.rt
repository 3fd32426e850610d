ghost use Rattle.std.specs.Prelude.{◌≡◌, ◌≤◌};
ghost use Rattle.stk_ctype.specs.Kinds.{bytes_of};

/// The integer kinds (C11 6.2.5) of this profile: `char` is signed, `short` has 16 bits, `int` 32, `long` and `long
/// long` have 64.
#[derive(Clone, Copy, Debug, PartialEq, Eq)]
pub enum IntKind {
    Bool,
    Char,
    SChar,
    UChar,
    Short,
    UShort,
    Int,
    UInt,
    Long,
    ULong,
    LLong,
    ULLong,
}

/// The size and the alignment of an integer of a kind, in bytes.
pub(crate) fn bytes_of(kind: IntKind) -> u64
    ensures value { result ≡ bytes_of kind }
    ensures least { 1 ≤ result }
    ensures greatest { result ≤ 8 }
{
    match kind {
        IntKind::Bool | IntKind::Char | IntKind::SChar | IntKind::UChar => 1,
        IntKind::Short | IntKind::UShort => 2,
        IntKind::Int | IntKind::UInt => 4,
        IntKind::Long | IntKind::ULong | IntKind::LLong | IntKind::ULLong => 8,
    }
}
