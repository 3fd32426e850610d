//! Nodes of trees. Their records are all alike: a tree is laid out as a whole, once its unit is read.

ghost use Rattle.std.specs.Prelude.{◌≡◌, ◌+◌, IfOk, map};
ghost use Rattle.stk_tree.specs.View.{dimensions, expressions, view_base, view_base_form, view_dimension, view_expression, view_type_name};
ghost use Rattle.stk_tree.specs.Syntax.{open_dimension, sized};
ghost use Rattle.stk_tree.specs.Syntax as s;
ghost use Rattle.stk_tree.specs.declared.expression.StepOp.TheVariants.{IncAfter, DecAfter};
ghost use Rattle.stk_tree.specs.Unlaid.{no_node};
ghost use Rattle.stk_grammar.specs.Reading.{made};
ghost use Rattle.stk_expr.specs.Prefixes.{prefix_form, prefix_operand};

use std::alloc::{AllocError, Global};
use stk_base::{Boxed, List, Span};
use stk_tree::{
    AssignOp, Base, BaseForm, BinaryOp, Dimension, Expr, ExprForm, StepOp, TypeName, UnaryOp,
    levels, no_node,
};

/// An operator before its operand.
#[derive(Clone, Copy, Debug, PartialEq, Eq)]
pub enum Prefix {
    Unary(UnaryOp),
    Increment,
    Decrement,
    Size,
}

impl Prefix {
    /// The least level of the operand.
    pub fn operand(self) -> usize
        ensures { result ≡ prefix_operand self }
    {
        match self {
            Prefix::Unary(_) => levels::CAST,
            Prefix::Increment | Prefix::Decrement | Prefix::Size => levels::UNARY,
        }
    }
}

fn made(alloc: Global, form: ExprForm) -> Result<Boxed<Expr>, AllocError>
    ensures { IfOk result (λ e. e ≡ record { node = no_node; form = form }) }
{
    Boxed::new(
        alloc,
        Expr {
            node: no_node(),
            form,
        },
    )
}

pub(crate) fn name(alloc: Global, at: Span) -> Result<Boxed<Expr>, AllocError>
    ensures { IfOk result (λ e. view_expression e ≡ made (s.name at)) }
{
    made(alloc, ExprForm::Name(at))
}

pub(crate) fn number(alloc: Global, at: Span) -> Result<Boxed<Expr>, AllocError>
    ensures { IfOk result (λ e. view_expression e ≡ made (s.number at)) }
{
    made(alloc, ExprForm::Number(at))
}

pub(crate) fn character(alloc: Global, at: Span) -> Result<Boxed<Expr>, AllocError>
    ensures { IfOk result (λ e. view_expression e ≡ made (s.character at)) }
{
    made(alloc, ExprForm::Character(at))
}

pub(crate) fn text(alloc: Global, parts: List<Span>) -> Result<Boxed<Expr>, AllocError>
    ensures { IfOk result (λ e. view_expression e ≡ made (s.text parts)) }
{
    made(alloc, ExprForm::Text(parts))
}

pub(crate) fn paren(alloc: Global, inner: Boxed<Expr>) -> Result<Boxed<Expr>, AllocError>
    ensures { IfOk result (λ e. view_expression e ≡ made (s.paren (view_expression inner))) }
{
    made(alloc, ExprForm::Paren(inner))
}

pub(crate) fn index(
    alloc: Global,
    left: Boxed<Expr>,
    right: Boxed<Expr>,
) -> Result<Boxed<Expr>, AllocError>
    ensures { IfOk result (λ e. view_expression e ≡ made (s.index (view_expression left) (view_expression right))) }
{
    made(alloc, ExprForm::Index(left, right))
}

pub(crate) fn call(
    alloc: Global,
    callee: Boxed<Expr>,
    list: List<Expr>,
) -> Result<Boxed<Expr>, AllocError>
    ensures { IfOk result (λ e. view_expression e ≡ made (s.call (view_expression callee) (expressions (map view_expression list)))) }
{
    made(alloc, ExprForm::Call(callee, list))
}

pub(crate) fn dot(alloc: Global, left: Boxed<Expr>, member: Span) -> Result<Boxed<Expr>, AllocError>
    ensures { IfOk result (λ e. view_expression e ≡ made (s.dot (view_expression left) member)) }
{
    made(alloc, ExprForm::Dot(left, member))
}

pub(crate) fn arrow(
    alloc: Global,
    left: Boxed<Expr>,
    member: Span,
) -> Result<Boxed<Expr>, AllocError>
    ensures { IfOk result (λ e. view_expression e ≡ made (s.arrow (view_expression left) member)) }
{
    made(alloc, ExprForm::Arrow(left, member))
}

/// `e++` or `e--`, where the operator is one of these.
pub(crate) fn stepped(
    alloc: Global,
    op: StepOp,
    left: Boxed<Expr>,
) -> Result<Boxed<Expr>, AllocError>
    ensures { IfOk result (λ e. view_expression e ≡ made (s.step op (view_expression left))) }
{
    made(alloc, ExprForm::Step(op, left))
}

pub(crate) fn prefixed(
    alloc: Global,
    prefix: Prefix,
    operand: Boxed<Expr>,
) -> Result<Boxed<Expr>, AllocError>
    ensures { IfOk result (λ e. view_expression e ≡ made (prefix_form prefix (view_expression operand))) }
{
    match prefix {
        Prefix::Unary(op) => made(alloc, ExprForm::Unary(op, operand)),
        Prefix::Increment => made(alloc, ExprForm::Step(StepOp::IncBefore, operand)),
        Prefix::Decrement => made(alloc, ExprForm::Step(StepOp::DecBefore, operand)),
        Prefix::Size => made(alloc, ExprForm::SizeExpr(operand)),
    }
}

pub(crate) fn size_name(alloc: Global, name: TypeName) -> Result<Boxed<Expr>, AllocError>
    ensures { IfOk result (λ e. view_expression e ≡ made (s.size_name (view_type_name name))) }
{
    made(alloc, ExprForm::SizeName(name))
}

pub(crate) fn cast(
    alloc: Global,
    name: TypeName,
    operand: Boxed<Expr>,
) -> Result<Boxed<Expr>, AllocError>
    ensures { IfOk result (λ e. view_expression e ≡ made (s.cast (view_type_name name) (view_expression operand))) }
{
    made(alloc, ExprForm::Cast(name, operand))
}

pub(crate) fn binary(
    alloc: Global,
    op: BinaryOp,
    left: Boxed<Expr>,
    right: Boxed<Expr>,
) -> Result<Boxed<Expr>, AllocError>
    ensures { IfOk result (λ e. view_expression e ≡ made (s.binary op (view_expression left) (view_expression right))) }
{
    made(alloc, ExprForm::Binary(op, left, right))
}

pub(crate) fn assign(
    alloc: Global,
    op: AssignOp,
    left: Boxed<Expr>,
    right: Boxed<Expr>,
) -> Result<Boxed<Expr>, AllocError>
    ensures { IfOk result (λ e. view_expression e ≡ made (s.assign op (view_expression left) (view_expression right))) }
{
    made(alloc, ExprForm::Assign(op, left, right))
}

pub(crate) fn choice(
    alloc: Global,
    test: Boxed<Expr>,
    then: Boxed<Expr>,
    other: Boxed<Expr>,
) -> Result<Boxed<Expr>, AllocError>
    ensures { IfOk result (λ e. view_expression e ≡ made (s.choice (view_expression test) (view_expression then) (view_expression other))) }
{
    made(alloc, ExprForm::Choice(test, then, other))
}

/// An array part with a size.
pub(crate) fn sized(size: Boxed<Expr>) -> Dimension
    ensures { view_dimension result ≡ s.sized (view_expression size) }
{
    Dimension::Sized(size.into_inner())
}

/// `[]`
pub(crate) fn open() -> Dimension
    ensures { view_dimension result ≡ s.open_dimension }
{
    Dimension::Open
}

pub(crate) fn type_name(form: BaseForm, stars: u32, arrays: List<Dimension>) -> TypeName
    ensures { view_type_name result ≡ s.type_name no_node (s.base no_node (view_base_form form)) stars (dimensions (map view_dimension arrays)) }
{
    TypeName {
        node: no_node(),
        base: Base {
            node: no_node(),
            form,
        },
        stars,
        arrays,
    }
}
