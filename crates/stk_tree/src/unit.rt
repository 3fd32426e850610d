use crate::{Base, Declaration, Declr, Node, Stmt, Storage};

/// A unit of the input: what stands at file scope (C11 6.9).
#[derive(Drop)]
pub enum Unit {
    /// A unlaid `;`.
    Empty(Node),
    /// A declaration.
    Declares(Node, Declaration),
    /// A function definition.
    Defines(Node, Function),
}

/// A function definition: `[storage] base declarator block` (C11 6.9.1).
#[derive(Drop)]
pub struct Function {
    pub storage: Option<Storage>,
    pub base: Base,
    pub declr: Declr,
    pub body: Stmt,
}
