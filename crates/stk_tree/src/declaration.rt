use crate::{Expr, Fixed, Node};
use stk_base::{List, Span};

/// The storage words that stay in a tree (C11 6.7.1): `typedef`, `extern`, `static`.
#[derive(Clone, Copy, Debug, PartialEq, Eq)]
pub enum Storage {
    Typedef,
    Extern,
    Static,
}

/// What declares names: `[storage] base declarator, .. ;` (C11 6.7).
#[derive(Drop)]
pub struct Declaration {
    pub storage: Option<Storage>,
    pub base: Base,
    pub list: List<Declr>,
}

/// The type specifiers that a declaration begins with (C11 6.7.2).
#[cycle(expression)]
#[derive(Drop)]
pub struct Base {
    pub node: Node,
    pub form: BaseForm,
}

/// What a base is made of. Spans are those of tags, names and typedef names in the input.
#[cycle(expression)]
#[derive(Drop)]
pub enum BaseForm {
    /// Basic words, as `unsigned long`.
    Words(List<Fixed>),
    /// `struct tag`.
    StructRef(Span),
    /// `struct [tag] { members }`.
    StructDef(Option<Span>, List<Member>),
    /// `enum tag`.
    EnumRef(Span),
    /// `enum [tag] { enumerators [,] }`; the last part is whether a comma stands before the brace.
    EnumDef(Option<Span>, List<Enumr>, bool),
    /// A typedef name.
    Named(Span),
}

/// The members of one base: `base declarator, .. ;` (C11 6.7.2.1).
#[cycle(expression)]
#[derive(Drop)]
pub struct Member {
    pub base: Base,
    pub list: List<Declr>,
}

/// An enumerator: `name [= e]` (C11 6.7.2.2).
#[cycle(expression)]
#[derive(Drop)]
pub struct Enumr {
    pub name: Span,
    pub value: Option<Expr>,
}

/// A declarator with its initialiser: `* .. [name] tail [= init]` (C11 6.7.6). `stars` counts the `*`.
#[cycle(expression)]
#[derive(Drop)]
pub struct Declr {
    pub node: Node,
    pub stars: u32,
    pub name: Option<Span>,
    pub tail: Tail,
    pub init: Option<Init>,
}

/// What follows the name of a declarator.
#[cycle(expression)]
#[derive(Drop)]
pub enum Tail {
    /// `[e] ..`, none included.
    Arrays(List<Dimension>),
    /// `()`.
    Unspecified,
    /// `(void)`.
    NoParams,
    /// `(parameters [, ...])`; the last part is whether `...` stands there.
    Params(List<Param>, bool),
}

/// One array part of a declarator or a type name (C11 6.7.6.2).
#[cycle(expression)]
#[derive(Drop)]
pub enum Dimension {
    /// `[]`.
    Open,
    /// `[e]`.
    Sized(Expr),
}

/// A parameter: `base * .. [name] arrays` (C11 6.7.6.3).
#[cycle(expression)]
#[derive(Drop)]
pub struct Param {
    pub node: Node,
    pub base: Base,
    pub declr: Declr,
}

/// A type name: `base * .. arrays` (C11 6.7.7). `stars` counts the `*`.
#[cycle(expression)]
#[derive(Drop)]
pub struct TypeName {
    pub node: Node,
    pub base: Base,
    pub stars: u32,
    pub arrays: List<Dimension>,
}

/// An initialiser (C11 6.7.9).
#[cycle(expression)]
#[derive(Drop)]
pub enum Init {
    /// `e`.
    Plain(Expr),
    /// `{ items [,] }`; the last part is whether a comma stands before the brace.
    Braces(List<Item>, bool),
}

/// An item of an initialiser's braces: `[designators =] init`.
#[cycle(expression)]
#[derive(Drop)]
pub struct Item {
    pub path: List<Desig>,
    pub init: Init,
}

/// A designator.
#[cycle(expression)]
#[derive(Drop)]
pub enum Desig {
    /// `.member`.
    Dot(Span),
    /// `[e]`.
    At(Expr),
}
