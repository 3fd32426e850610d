//! Nodes of trees. Their records are all alike: a tree is laid out as a whole, once its unit is read.
//!
//! A statement is put in a box as soon as it is made, since it isn't dropped where it stands; and an expression stays
//! in its box until the statement that holds it is made, since to drop the box is one step, and to drop the expression
//! is many.

ghost use Rattle.std.specs.Prelude.{◌≡◌, IfOk, map};
ghost use Rattle.stk_tree.specs.Syntax as s;
ghost use Rattle.stk_tree.specs.View.{given_expression, labels, parts, sections, statements, view_base, view_declaration, view_declarator, view_expression, view_label, view_part, view_section, view_start, view_statement, view_statement_form, view_unit};
ghost use Rattle.stk_tree.specs.Unlaid.{no_node};
ghost use Rattle.stk_expr.specs.Gives.{Gives};
ghost use Rattle.stk_stmt.specs.Finished.{finished_at};

use std::alloc::{AllocError, Global};
use stk_base::{Boxed, List};
use stk_expr::Parse;
use stk_tree::{
    Base, Declaration, Declr, Expr, Function, Label, Lexeme, Part, Section, Start, Stmt, StmtForm,
    Storage, Unit, no_node,
};

/// What a reader of statements answers: a statement of this form, and the tokens behind it.
pub(crate) fn finished(
    alloc: Global,
    form: StmtForm,
    rest: &[Lexeme],
) -> Result<(Boxed<Stmt>, &[Lexeme]), Parse>
    ensures { Gives (λ x. (view_statement x.0, x.1.now)) result (finished_at (view_statement_form form) rest.now) }
{
    let statement = Stmt {
        node: no_node(),
        form,
    };
    Ok((Boxed::new(alloc, statement)?, rest))
}

/// An expression out of its box, where there is one.
pub(crate) fn opened(value: Option<Boxed<Expr>>) -> Option<Expr>
    ensures { given_expression result ≡ given_expression value }
{
    match value {
        None => None,
        Some(e) => Some(e.into_inner()),
    }
}

/// `{ parts }`
pub(crate) fn block(list: List<Part>) -> StmtForm
    ensures { view_statement_form result ≡ s.block (parts (map view_part list)) }
{
    StmtForm::Block(list)
}

/// `[e] ;`
pub(crate) fn plain(value: Option<Boxed<Expr>>) -> StmtForm
    ensures { view_statement_form result ≡ s.expression_statement (given_expression value) }
{
    StmtForm::Plain(opened(value))
}

/// An `if` without `else`.
pub(crate) fn lone_if(test: Boxed<Expr>, then: Boxed<Stmt>) -> StmtForm
    ensures { view_statement_form result ≡ s.if_statement (view_expression test) (view_statement then) s.no_statement }
{
    StmtForm::If(test.into_inner(), then, None)
}

/// An `if` with an `else`, whose test is out of its box.
fn if_form(test: Expr, then: Boxed<Stmt>, other: Boxed<Stmt>) -> StmtForm
    ensures { view_statement_form result ≡ s.if_statement (view_expression test) (view_statement then) (s.some_statement (view_statement other)) }
{
    StmtForm::If(test, then, Some(other))
}

/// An `if` with an `else`.
pub(crate) fn if_else(test: Boxed<Expr>, then: Boxed<Stmt>, other: Boxed<Stmt>) -> StmtForm
    ensures { view_statement_form result ≡ s.if_statement (view_expression test) (view_statement then) (s.some_statement (view_statement other)) }
{
    if_form(test.into_inner(), then, other)
}

/// `switch (e) { sections }`
pub(crate) fn switch(value: Boxed<Expr>, list: List<Section>) -> StmtForm
    ensures { view_statement_form result ≡ s.switch_statement (view_expression value) (sections (map view_section list)) }
{
    StmtForm::Switch(value.into_inner(), list)
}

/// `while (e) statement`
pub(crate) fn while_loop(test: Boxed<Expr>, body: Boxed<Stmt>) -> StmtForm
    ensures { view_statement_form result ≡ s.while_statement (view_expression test) (view_statement body) }
{
    StmtForm::While(test.into_inner(), body)
}

/// `do statement while (e) ;`
pub(crate) fn do_loop(body: Boxed<Stmt>, test: Boxed<Expr>) -> StmtForm
    ensures { view_statement_form result ≡ s.do_statement (view_statement body) (view_expression test) }
{
    StmtForm::Do(body, test.into_inner())
}

/// `for (start [e] ; [e]) statement`
pub(crate) fn for_loop(
    start: Boxed<Start>,
    test: Option<Boxed<Expr>>,
    step: Option<Boxed<Expr>>,
    body: Boxed<Stmt>,
) -> StmtForm
    ensures { view_statement_form result ≡ s.for_statement (view_start start) (given_expression test) (given_expression step) (view_statement body) }
{
    StmtForm::For(start.into_inner(), opened(test), opened(step), body)
}

/// `break ;`
pub(crate) fn break_form() -> StmtForm
    ensures { view_statement_form result ≡ s.break_statement }
{
    StmtForm::Break
}

/// `continue ;`
pub(crate) fn continue_form() -> StmtForm
    ensures { view_statement_form result ≡ s.continue_statement }
{
    StmtForm::Continue
}

/// `return [e] ;`
pub(crate) fn return_form(value: Option<Boxed<Expr>>) -> StmtForm
    ensures { view_statement_form result ≡ s.return_statement (given_expression value) }
{
    StmtForm::Return(opened(value))
}

/// A declaration as a part of a block.
pub(crate) fn local(declaration: Declaration) -> Part
    ensures { view_part result ≡ s.local (view_declaration declaration) }
{
    Part::Local(declaration)
}

/// A statement as a part of a block.
pub(crate) fn run(statement: Boxed<Stmt>) -> Part
    ensures { view_part result ≡ s.run (view_statement statement) }
{
    Part::Run(statement.into_inner())
}

/// Labels, and the statements behind them.
pub(crate) fn section(punctuators: List<Label>, body: List<Stmt>) -> Section
    ensures { view_section result ≡ s.section no_node (labels (map view_label punctuators)) (statements (map view_statement body)) }
{
    Section {
        node: no_node(),
        labels: punctuators,
        body,
    }
}

/// A lone `;`.
pub(crate) fn empty_unit(alloc: Global) -> Result<Boxed<Unit>, AllocError>
    ensures { IfOk result (λ x. view_unit x ≡ s.empty_unit no_node) }
{
    Boxed::new(alloc, Unit::Empty(no_node()))
}

/// A declaration as a unit.
pub(crate) fn declares(alloc: Global, declaration: Declaration) -> Result<Boxed<Unit>, AllocError>
    ensures { IfOk result (λ x. view_unit x ≡ s.declares no_node (view_declaration declaration)) }
{
    Boxed::new(alloc, Unit::Declares(no_node(), declaration))
}

/// A function as a unit.
pub(crate) fn defines(
    alloc: Global,
    storage: Option<Storage>,
    base: Base,
    declr: Declr,
    body: Boxed<Stmt>,
) -> Result<Boxed<Unit>, AllocError>
    ensures { IfOk result (λ x. view_unit x ≡ s.defines no_node (s.function storage (view_base base) (view_declarator declr) (view_statement body))) }
{
    Boxed::new(
        alloc,
        Unit::Defines(
            no_node(),
            Function {
                storage,
                base,
                declr,
                body: body.into_inner(),
            },
        ),
    )
}
