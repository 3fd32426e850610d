use crate::{Node, TypeName};
use stk_base::{Boxed, List, Span};

/// The four ways to step a value (C11 6.5.2.4, 6.5.3.1): `++e`, `--e`, `e++`, `e--`.
#[derive(Clone, Copy, Debug, PartialEq, Eq)]
pub enum StepOp {
    IncBefore,
    DecBefore,
    IncAfter,
    DecAfter,
}

/// The unary operators (C11 6.5.3): `&`, `*`, `+`, `-`, `~`, `!`.
#[derive(Clone, Copy, Debug, PartialEq, Eq)]
pub enum UnaryOp {
    Address,
    Deref,
    Plus,
    Minus,
    Flip,
    Not,
}

/// The binary operators from the weakest to the strongest (C11 6.5.5 to 6.5.14, 6.5.17): `,`, `||`, `&&`, `|`, `^`,
/// `&`, `==`, `!=`, `<`, `>`, `<=`, `>=`, `<<`, `>>`, `+`, `-`, `*`, `/`, `%`.
#[derive(Clone, Copy, Debug, PartialEq, Eq)]
pub enum BinaryOp {
    Comma,
    OrElse,
    AndAlso,
    Or,
    Xor,
    And,
    Eq,
    Ne,
    Lt,
    Gt,
    Le,
    Ge,
    Left,
    Right,
    Add,
    Sub,
    Mul,
    Div,
    Rem,
}

/// The assignment operators (C11 6.5.16): `=`, `*=`, `/=`, `%=`, `+=`, `-=`, `<<=`, `>>=`, `&=`, `^=`, `|=`.
#[derive(Clone, Copy, Debug, PartialEq, Eq)]
pub enum AssignOp {
    Plain,
    Mul,
    Div,
    Rem,
    Add,
    Sub,
    Left,
    Right,
    And,
    Xor,
    Or,
}

/// An expression (C11 6.5).
#[cycle(expression)]
#[derive(Drop)]
pub struct Expr {
    pub node: Node,
    pub form: ExprForm,
}

/// What an expression is made of. Spans are those of the words, numbers, characters and strings in the input.
#[cycle(expression)]
#[derive(Drop)]
pub enum ExprForm {
    /// An identifier (C11 6.5.1).
    Name(Span),
    /// An integer constant (C11 6.4.4.1).
    Number(Span),
    /// A character constant (C11 6.4.4.4).
    Character(Span),
    /// One or more string literals in a row (C11 6.4.5).
    Text(List<Span>),
    /// `(e)`.
    Paren(Boxed<Expr>),
    /// `e[e]`.
    Index(Boxed<Expr>, Boxed<Expr>),
    /// `e(e, ..)`.
    Call(Boxed<Expr>, List<Expr>),
    /// `e.member`.
    Dot(Boxed<Expr>, Span),
    /// `e->member`.
    Arrow(Boxed<Expr>, Span),
    /// `++e`, `--e`, `e++` or `e--`.
    Step(StepOp, Boxed<Expr>),
    /// A unary operator before its operand.
    Unary(UnaryOp, Boxed<Expr>),
    /// `sizeof e`.
    SizeExpr(Boxed<Expr>),
    /// `sizeof (type)`.
    SizeName(TypeName),
    /// `(type) e`.
    Cast(TypeName, Boxed<Expr>),
    /// A binary operator between its operands.
    Binary(BinaryOp, Boxed<Expr>, Boxed<Expr>),
    /// `e ? e : e`.
    Choice(Boxed<Expr>, Boxed<Expr>, Boxed<Expr>),
    /// An assignment operator between its operands.
    Assign(AssignOp, Boxed<Expr>, Boxed<Expr>),
}
