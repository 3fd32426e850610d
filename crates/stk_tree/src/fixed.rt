use stk_base::{Class, Span};

/// A reserved word or a punctuator.
///
/// The keywords of C11 6.4.1 come first, then the words that GNU C adds and that this checker keeps from being names,
/// then the punctuators of C11 6.4.6 without `#`, `##` and the digraphs. Of a word that GNU C spells in several ways,
/// `Prefixed` has two underscores before it, and `Wrapped` has them on both sides.
#[derive(Clone, Copy, Debug, PartialEq, Eq)]
pub enum Fixed {
    /// `auto`
    Auto,
    /// `break`
    Break,
    /// `case`
    Case,
    /// `char`
    Char,
    /// `const`
    Const,
    /// `continue`
    Continue,
    /// `default`
    Default,
    /// `do`
    Do,
    /// `double`
    Double,
    /// `else`
    Else,
    /// `enum`
    Enum,
    /// `extern`
    Extern,
    /// `float`
    Float,
    /// `for`
    For,
    /// `goto`
    Goto,
    /// `if`
    If,
    /// `inline`
    Inline,
    /// `int`
    Int,
    /// `long`
    Long,
    /// `register`
    Register,
    /// `restrict`
    Restrict,
    /// `return`
    Return,
    /// `short`
    Short,
    /// `signed`
    Signed,
    /// `sizeof`
    Sizeof,
    /// `static`
    Static,
    /// `struct`
    Struct,
    /// `switch`
    Switch,
    /// `typedef`
    Typedef,
    /// `union`
    Union,
    /// `unsigned`
    Unsigned,
    /// `void`
    Void,
    /// `volatile`
    Volatile,
    /// `while`
    While,
    /// `_Alignas`
    Alignas,
    /// `_Alignof`
    Alignof,
    /// `_Atomic`
    Atomic,
    /// `_Bool`
    Bool,
    /// `_Complex`
    Complex,
    /// `_Generic`
    Generic,
    /// `_Imaginary`
    Imaginary,
    /// `_Noreturn`
    Noreturn,
    /// `_Static_assert`
    StaticAssert,
    /// `_Thread_local`
    ThreadLocal,
    /// `asm`
    Asm,
    /// `__asm`
    AsmPrefixed,
    /// `__asm__`
    AsmWrapped,
    /// `__attribute`
    AttributePrefixed,
    /// `__attribute__`
    AttributeWrapped,
    /// `typeof`
    Typeof,
    /// `__typeof`
    TypeofPrefixed,
    /// `__typeof__`
    TypeofWrapped,
    /// `__volatile`
    VolatilePrefixed,
    /// `__volatile__`
    VolatileWrapped,
    /// `__label__`
    LabelWrapped,
    /// `__thread`
    ThreadPrefixed,
    /// `__signed`
    SignedPrefixed,
    /// `__signed__`
    SignedWrapped,
    /// `__alignof__`
    AlignofWrapped,
    /// `__int128`
    IntWide,
    /// `__builtin_va_list`
    BuiltinVaList,
    /// `__builtin_va_arg`
    BuiltinVaArg,
    /// `__builtin_offsetof`
    BuiltinOffsetof,
    /// `__builtin_types_compatible_p`
    BuiltinTypesCompatible,
    /// `__builtin_choose_expr`
    BuiltinChooseExpr,
    /// `[`
    LeftBracket,
    /// `]`
    RightBracket,
    /// `(`
    LeftParen,
    /// `)`
    RightParen,
    /// `{`
    LeftBrace,
    /// `}`
    RightBrace,
    /// `.`
    Dot,
    /// `->`
    Arrow,
    /// `++`
    PlusPlus,
    /// `--`
    MinusMinus,
    /// `&`
    Ampersand,
    /// `*`
    Star,
    /// `+`
    Plus,
    /// `-`
    Minus,
    /// `~`
    Tilde,
    /// `!`
    Exclamation,
    /// `/`
    Slash,
    /// `%`
    Percent,
    /// `<<`
    LeftShift,
    /// `>>`
    RightShift,
    /// `<`
    Less,
    /// `>`
    Greater,
    /// `<=`
    LessEqual,
    /// `>=`
    GreaterEqual,
    /// `==`
    EqualEqual,
    /// `!=`
    NotEqual,
    /// `^`
    Caret,
    /// `|`
    Pipe,
    /// `&&`
    AndAnd,
    /// `||`
    OrOr,
    /// `?`
    Question,
    /// `:`
    Colon,
    /// `;`
    Semicolon,
    /// `...`
    Ellipsis,
    /// `=`
    Assign,
    /// `*=`
    StarAssign,
    /// `/=`
    SlashAssign,
    /// `%=`
    PercentAssign,
    /// `+=`
    PlusAssign,
    /// `-=`
    MinusAssign,
    /// `<<=`
    LeftShiftAssign,
    /// `>>=`
    RightShiftAssign,
    /// `&=`
    AmpersandAssign,
    /// `^=`
    CaretAssign,
    /// `|=`
    PipeAssign,
    /// `,`
    Comma,
}

/// A token as a tree prints it: a reserved word or punctuator, or a token whose text stands in the input at the span.
#[derive(Clone, Copy, Debug, PartialEq, Eq)]
pub enum Lexeme {
    Fixed(Fixed),
    Leaf(Class, Span),
}
