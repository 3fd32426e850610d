//! Makes trees whose nodes have no number and no span yet.
ghost use Rattle.std.specs.Prelude.{◌≡◌, []};
ghost use Rattle.stk_tree.specs.Height.{expression_height};
ghost use Rattle.stk_tree.specs.Nodes.{expression_nodes};
ghost use Rattle.stk_tree.specs.View.{view_expression};

use crate::printed::{F, are_spelled};
use std::alloc::Global;
use std::process::Abort;
use stk_base::{Boxed, List, Span};
use stk_tree::{
    Base, BaseForm, BinaryOp, Declaration, Declr, Expr, ExprForm, Fixed, Function, Init, Node,
    Stmt, StmtForm, Tail, Unit,
};
use stk_tree_calls::{tokens_of, well_placed};

pub const UNLAID: Node = Node {
    number: 0,
    span: Span { from: 0, to: 0 },
};

pub(crate) fn expression(form: ExprForm) -> Expr {
    Expr { node: UNLAID, form }
}

pub(crate) fn name(at: Span) -> Expr
    ensures nodes { expression_nodes (view_expression result) ≡ 1 }
    ensures height { expression_height (view_expression result) ≡ 1 }
{
    Expr {
        node: UNLAID,
        form: ExprForm::Name(at),
    }
}

pub(crate) fn number(at: Span) -> Expr
    ensures nodes { expression_nodes (view_expression result) ≡ 1 }
    ensures height { expression_height (view_expression result) ≡ 1 }
{
    Expr {
        node: UNLAID,
        form: ExprForm::Number(at),
    }
}

pub(crate) fn statement(form: StmtForm) -> Stmt {
    Stmt { node: UNLAID, form }
}

pub(crate) fn base(form: BaseForm) -> Base {
    Base { node: UNLAID, form }
}

pub(crate) fn declarator(stars: u32, name: Option<Span>, tail: Tail, init: Option<Init>) -> Declr {
    Declr {
        node: UNLAID,
        stars,
        name,
        tail,
        init,
    }
}

/// Makes trees; where memory runs out, the test ends.
#[derive(Clone, Copy)]
pub struct Maker<'a, R> {
    pub alloc: Global,
    pub rt: &'a R,
}

impl<R: Abort> Maker<'_, R> {
    pub(crate) fn boxed<T: Drop>(&self, value: T) -> Boxed<T>
        ensures { result ≡ value }
    {
        Boxed::new(self.alloc, value).expect(self.rt, "no memory")
    }

    pub(crate) fn list<T, const N: usize>(&self, items: [T; N]) -> List<T>
        ensures { result ≡ items }
    {
        let all = Vec::from_array(self.alloc, items).expect(self.rt, "no memory");
        List::from_vec(all)
    }

    pub(crate) fn none<T>(&self) -> List<T>
        ensures { result ≡ [] }
    {
        List::empty(self.alloc)
    }

    pub(crate) fn binary(&self, op: BinaryOp, a: Expr, b: Expr) -> Expr {
        expression(ExprForm::Binary(op, self.boxed(a), self.boxed(b)))
    }

    pub(crate) fn paren(&self, e: Expr) -> Expr {
        expression(ExprForm::Paren(self.boxed(e)))
    }

    /// `int`
    pub(crate) fn int(&self) -> Base {
        base(BaseForm::Words(self.list([Fixed::Int])))
    }

    /// A name alone.
    pub(crate) fn named(&self, at: Span) -> Declr {
        declarator(0, Some(at), Tail::Arrays(self.none()), None)
    }

    /// `declarator ;` behind a base.
    pub(crate) fn declares(&self, base: Base, declarators: List<Declr>) -> Declaration {
        Declaration {
            storage: None,
            base,
            list: declarators,
        }
    }

    /// `int f ( ) statement`
    pub(crate) fn function(&self, body: Stmt) -> Boxed<Unit> {
        self.boxed(Unit::Defines(
            UNLAID,
            Function {
                storage: None,
                base: self.int(),
                declr: declarator(0, Some(F), Tail::Unspecified, None),
                body,
            },
        ))
    }

    /// Compares the tokens and the placing of a unit with what they are to be.
    pub(crate) fn check(&self, unit: Boxed<Unit>, text: &str, placed: bool) {
        let tokens = tokens_of(self.alloc, unit.get()).expect(self.rt, "no memory");
        assert!(self.rt; are_spelled(tokens.as_slice(), text), "{text}");
        assert_eq!(self.rt; well_placed(unit.get()), placed, "{text}");
    }
}
