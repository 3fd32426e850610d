use crate::{Declaration, Expr, Node};
use stk_base::{Boxed, List};

/// A statement (C11 6.8).
#[cycle(statement)]
#[derive(Drop)]
pub struct Stmt {
    pub node: Node,
    pub form: StmtForm,
}

/// What a statement is made of.
#[cycle(statement)]
#[derive(Drop)]
pub enum StmtForm {
    /// `{ declarations and statements }`.
    Block(List<Part>),
    /// `[e] ;`.
    Plain(Option<Expr>),
    /// `if (e) statement [else statement]`.
    If(Expr, Boxed<Stmt>, Option<Boxed<Stmt>>),
    /// `switch (e) { sections }`.
    Switch(Expr, List<Section>),
    /// `while (e) statement`.
    While(Expr, Boxed<Stmt>),
    /// `do statement while (e) ;`.
    Do(Boxed<Stmt>, Expr),
    /// `for (start [e] ; [e]) statement`.
    For(Start, Option<Expr>, Option<Expr>, Boxed<Stmt>),
    /// `break ;`.
    Break,
    /// `continue ;`.
    Continue,
    /// `return [e] ;`.
    Return(Option<Expr>),
}

/// A part of a block (C11 6.8.2).
#[cycle(statement)]
#[derive(Drop)]
pub enum Part {
    Local(Declaration),
    Run(Stmt),
}

/// The first part of a `for`, with its semicolon (C11 6.8.5.3).
#[derive(Drop)]
pub enum Start {
    /// A declaration.
    Local(Declaration),
    /// `[e] ;`.
    Plain(Option<Expr>),
}

/// The labels of a `switch` that stand in a row, and the statements up to the next label.
#[cycle(statement)]
#[derive(Drop)]
pub struct Section {
    pub node: Node,
    pub labels: List<Label>,
    pub body: List<Stmt>,
}

/// A label of a `switch` (C11 6.8.1).
#[derive(Drop)]
pub enum Label {
    /// `default :`.
    Default,
    /// `case e :`.
    Case(Expr),
}
