//! How each reserved word and each punctuator is spelled.
ghost use Rattle.std.specs.Prelude.{◌≡◌, ◌≢◌, ◌<◌, ℕ, IfSome, IfNone, get_or, length};
ghost use Rattle.std.specs.List.{filter};
ghost use Rattle.stk_tree.specs.Spelling.{begins, every, spelling_of};
ghost use Rattle.stk_tree.specs.declared.fixed.Fixed.{Fixed};

use crate::Fixed;

/// The text of a reserved word or a punctuator, as it stands in an input (C11 6.4.1, 6.4.6, and the words that GNU C
/// adds).
pub fn spelling(fixed: Fixed) -> &'static [u8]
    ensures { result.now ≡ spelling_of fixed }
{
    match fixed {
        Fixed::Auto => b"auto",
        Fixed::Break => b"break",
        Fixed::Case => b"case",
        Fixed::Char => b"char",
        Fixed::Const => b"const",
        Fixed::Continue => b"continue",
        Fixed::Default => b"default",
        Fixed::Do => b"do",
        Fixed::Double => b"double",
        Fixed::Else => b"else",
        Fixed::Enum => b"enum",
        Fixed::Extern => b"extern",
        Fixed::Float => b"float",
        Fixed::For => b"for",
        Fixed::Goto => b"goto",
        Fixed::If => b"if",
        Fixed::Inline => b"inline",
        Fixed::Int => b"int",
        Fixed::Long => b"long",
        Fixed::Register => b"register",
        Fixed::Restrict => b"restrict",
        Fixed::Return => b"return",
        Fixed::Short => b"short",
        Fixed::Signed => b"signed",
        Fixed::Sizeof => b"sizeof",
        Fixed::Static => b"static",
        Fixed::Struct => b"struct",
        Fixed::Switch => b"switch",
        Fixed::Typedef => b"typedef",
        Fixed::Union => b"union",
        Fixed::Unsigned => b"unsigned",
        Fixed::Void => b"void",
        Fixed::Volatile => b"volatile",
        Fixed::While => b"while",
        Fixed::Alignas => b"_Alignas",
        Fixed::Alignof => b"_Alignof",
        Fixed::Atomic => b"_Atomic",
        Fixed::Bool => b"_Bool",
        Fixed::Complex => b"_Complex",
        Fixed::Generic => b"_Generic",
        Fixed::Imaginary => b"_Imaginary",
        Fixed::Noreturn => b"_Noreturn",
        Fixed::StaticAssert => b"_Static_assert",
        Fixed::ThreadLocal => b"_Thread_local",
        Fixed::Asm => b"asm",
        Fixed::AsmPrefixed => b"__asm",
        Fixed::AsmWrapped => b"__asm__",
        Fixed::AttributePrefixed => b"__attribute",
        Fixed::AttributeWrapped => b"__attribute__",
        Fixed::Typeof => b"typeof",
        Fixed::TypeofPrefixed => b"__typeof",
        Fixed::TypeofWrapped => b"__typeof__",
        Fixed::VolatilePrefixed => b"__volatile",
        Fixed::VolatileWrapped => b"__volatile__",
        Fixed::LabelWrapped => b"__label__",
        Fixed::ThreadPrefixed => b"__thread",
        Fixed::SignedPrefixed => b"__signed",
        Fixed::SignedWrapped => b"__signed__",
        Fixed::AlignofWrapped => b"__alignof__",
        Fixed::IntWide => b"__int128",
        Fixed::BuiltinVaList => b"__builtin_va_list",
        Fixed::BuiltinVaArg => b"__builtin_va_arg",
        Fixed::BuiltinOffsetof => b"__builtin_offsetof",
        Fixed::BuiltinTypesCompatible => b"__builtin_types_compatible_p",
        Fixed::BuiltinChooseExpr => b"__builtin_choose_expr",
        Fixed::LeftBracket => b"[",
        Fixed::RightBracket => b"]",
        Fixed::LeftParen => b"(",
        Fixed::RightParen => b")",
        Fixed::LeftBrace => b"{",
        Fixed::RightBrace => b"}",
        Fixed::Dot => b".",
        Fixed::Arrow => b"->",
        Fixed::PlusPlus => b"++",
        Fixed::MinusMinus => b"--",
        Fixed::Ampersand => b"&",
        Fixed::Star => b"*",
        Fixed::Plus => b"+",
        Fixed::Minus => b"-",
        Fixed::Tilde => b"~",
        Fixed::Exclamation => b"!",
        Fixed::Slash => b"/",
        Fixed::Percent => b"%",
        Fixed::LeftShift => b"<<",
        Fixed::RightShift => b">>",
        Fixed::Less => b"<",
        Fixed::Greater => b">",
        Fixed::LessEqual => b"<=",
        Fixed::GreaterEqual => b">=",
        Fixed::EqualEqual => b"==",
        Fixed::NotEqual => b"!=",
        Fixed::Caret => b"^",
        Fixed::Pipe => b"|",
        Fixed::AndAnd => b"&&",
        Fixed::OrOr => b"||",
        Fixed::Question => b"?",
        Fixed::Colon => b":",
        Fixed::Semicolon => b";",
        Fixed::Ellipsis => b"...",
        Fixed::Assign => b"=",
        Fixed::StarAssign => b"*=",
        Fixed::SlashAssign => b"/=",
        Fixed::PercentAssign => b"%=",
        Fixed::PlusAssign => b"+=",
        Fixed::MinusAssign => b"-=",
        Fixed::LeftShiftAssign => b"<<=",
        Fixed::RightShiftAssign => b">>=",
        Fixed::AmpersandAssign => b"&=",
        Fixed::CaretAssign => b"^=",
        Fixed::PipeAssign => b"|=",
        Fixed::Comma => b",",
    }
}

/// The reserved word or punctuator with this text. `None` comes exactly where there is none: the text is then a name, a
/// number or another token of the input.
pub fn fixed_of(text: &[u8]) -> Option<Fixed>
    ensures found { IfSome result (λ f. spelling_of f ≡ text.now) }
    ensures missing { IfNone result ((f : Fixed) → spelling_of f ≢ text.now) }
{
    match text {
        [first, _rest @ ..] => among(beginning_with(*first), text),
        [] => None,
    }
}

/// The reserved words and punctuators that begin with a byte.
fn beginning_with(first: u8) -> &'static [Fixed]
    ensures { result.now ≡ filter (begins first) every }
{
    match first {
        b'a' => &[Fixed::Auto, Fixed::Asm],
        b'b' => &[Fixed::Break],
        b'c' => &[Fixed::Case, Fixed::Char, Fixed::Const, Fixed::Continue],
        b'd' => &[Fixed::Default, Fixed::Do, Fixed::Double],
        b'e' => &[Fixed::Else, Fixed::Enum, Fixed::Extern],
        b'f' => &[Fixed::Float, Fixed::For],
        b'g' => &[Fixed::Goto],
        b'i' => &[Fixed::If, Fixed::Inline, Fixed::Int],
        b'l' => &[Fixed::Long],
        b'r' => &[Fixed::Register, Fixed::Restrict, Fixed::Return],
        b's' => &[
            Fixed::Short,
            Fixed::Signed,
            Fixed::Sizeof,
            Fixed::Static,
            Fixed::Struct,
            Fixed::Switch,
        ],
        b't' => &[Fixed::Typedef, Fixed::Typeof],
        b'u' => &[Fixed::Union, Fixed::Unsigned],
        b'v' => &[Fixed::Void, Fixed::Volatile],
        b'w' => &[Fixed::While],
        b'_' => &[
            Fixed::Alignas,
            Fixed::Alignof,
            Fixed::Atomic,
            Fixed::Bool,
            Fixed::Complex,
            Fixed::Generic,
            Fixed::Imaginary,
            Fixed::Noreturn,
            Fixed::StaticAssert,
            Fixed::ThreadLocal,
            Fixed::AsmPrefixed,
            Fixed::AsmWrapped,
            Fixed::AttributePrefixed,
            Fixed::AttributeWrapped,
            Fixed::TypeofPrefixed,
            Fixed::TypeofWrapped,
            Fixed::VolatilePrefixed,
            Fixed::VolatileWrapped,
            Fixed::LabelWrapped,
            Fixed::ThreadPrefixed,
            Fixed::SignedPrefixed,
            Fixed::SignedWrapped,
            Fixed::AlignofWrapped,
            Fixed::IntWide,
            Fixed::BuiltinVaList,
            Fixed::BuiltinVaArg,
            Fixed::BuiltinOffsetof,
            Fixed::BuiltinTypesCompatible,
            Fixed::BuiltinChooseExpr,
        ],
        b'[' => &[Fixed::LeftBracket],
        b']' => &[Fixed::RightBracket],
        b'(' => &[Fixed::LeftParen],
        b')' => &[Fixed::RightParen],
        b'{' => &[Fixed::LeftBrace],
        b'}' => &[Fixed::RightBrace],
        b'.' => &[Fixed::Dot, Fixed::Ellipsis],
        b'-' => &[
            Fixed::Arrow,
            Fixed::MinusMinus,
            Fixed::Minus,
            Fixed::MinusAssign,
        ],
        b'+' => &[Fixed::PlusPlus, Fixed::Plus, Fixed::PlusAssign],
        b'&' => &[Fixed::Ampersand, Fixed::AndAnd, Fixed::AmpersandAssign],
        b'*' => &[Fixed::Star, Fixed::StarAssign],
        b'~' => &[Fixed::Tilde],
        b'!' => &[Fixed::Exclamation, Fixed::NotEqual],
        b'/' => &[Fixed::Slash, Fixed::SlashAssign],
        b'%' => &[Fixed::Percent, Fixed::PercentAssign],
        b'<' => &[
            Fixed::LeftShift,
            Fixed::Less,
            Fixed::LessEqual,
            Fixed::LeftShiftAssign,
        ],
        b'>' => &[
            Fixed::RightShift,
            Fixed::Greater,
            Fixed::GreaterEqual,
            Fixed::RightShiftAssign,
        ],
        b'=' => &[Fixed::EqualEqual, Fixed::Assign],
        b'^' => &[Fixed::Caret, Fixed::CaretAssign],
        b'|' => &[Fixed::Pipe, Fixed::OrOr, Fixed::PipeAssign],
        b'?' => &[Fixed::Question],
        b':' => &[Fixed::Colon],
        b';' => &[Fixed::Semicolon],
        b',' => &[Fixed::Comma],
        _ => &[],
    }
}

/// The first of these words and punctuators with this text.
fn among(list: &[Fixed], text: &[u8]) -> Option<Fixed>
    ensures found { IfSome result (λ f. spelling_of f ≡ text.now) }
    ensures missing { IfNone result ((k : ℕ) (other : Fixed) → k < length list.now → spelling_of (get_or list.now k other) ≢ text.now) }
{
    for fixed in list {
        if spelling(*fixed) == text {
            return Some(*fixed);
        }
    }
    None
}
