//! Three units whose nodes and heights are known, with the spans of their tokens.
ghost use Rattle.std.specs.Prelude.{◌≡◌};
ghost use Rattle.stk_tree.specs.Height.{base_height, declaration_height, declarator_height, expression_height, statement_height, unit_height};
ghost use Rattle.stk_tree.specs.Nodes.{base_nodes, declaration_nodes, declarator_nodes, expression_nodes, statement_nodes, unit_nodes};
ghost use Rattle.stk_tree.specs.Syntax.{if_statement, no_statement};
ghost use Rattle.stk_tree.specs.View.{view_base, view_declaration, view_declarator, view_expression, view_statement, view_statement_form, view_unit};

use crate::maker::{Maker, UNLAID, name, number};
use std::process::Abort;
use stk_base::{Boxed, List, Span};
use stk_tree::{
    Base, BaseForm, BinaryOp, Declaration, Declr, Dimension, Expr, ExprForm, Fixed, Function, Init,
    Item, Param, Part, Stmt, StmtForm, Tail, Unit,
};

fn at(from: u32, to: u32) -> Span {
    Span { from, to }
}

fn words(words: List<Fixed>) -> Base
    ensures nodes { base_nodes (view_base result) ≡ 1 }
    ensures height { base_height (view_base result) ≡ 1 }
{
    Base {
        node: UNLAID,
        form: BaseForm::Words(words),
    }
}

/// An `if` without `else`.
fn if_form(test: Expr, body: Boxed<Stmt>) -> StmtForm
    ensures { view_statement_form result ≡ if_statement (view_expression test) (view_statement body) no_statement }
{
    StmtForm::If(test, body, None)
}

impl<R: Abort> Maker<'_, R> {
    /// Two leaves with an operator between them.
    fn leaves(&self, op: BinaryOp, a: Expr, b: Expr) -> Expr
        requires one_node_a { expression_nodes (view_expression a) ≡ 1 }
        requires one_node_b { expression_nodes (view_expression b) ≡ 1 }
        requires one_high_a { expression_height (view_expression a) ≡ 1 }
        requires one_high_b { expression_height (view_expression b) ≡ 1 }
        ensures nodes { expression_nodes (view_expression result) ≡ 3 }
        ensures height { expression_height (view_expression result) ≡ 2 }
    {
        Expr {
            node: UNLAID,
            form: ExprForm::Binary(op, self.boxed(a), self.boxed(b)),
        }
    }

    /// `unsigned char x` as the parameters of `f`
    fn head(&self) -> Declr
        ensures nodes { declarator_nodes (view_declarator result) ≡ 4 }
        ensures height { declarator_height (view_declarator result) ≡ 3 }
    {
        let declr = Declr {
            node: UNLAID,
            stars: 0,
            name: Some(at(20, 21)),
            tail: Tail::Arrays(self.none()),
            init: None,
        };
        let parameter = Param {
            node: UNLAID,
            base: words(self.list([Fixed::Unsigned, Fixed::Char])),
            declr,
        };
        Declr {
            node: UNLAID,
            stars: 0,
            name: Some(at(4, 5)),
            tail: Tail::Params(self.list([parameter]), false),
            init: None,
        }
    }

    /// `int y = 10 / x;`
    fn local(&self) -> Declaration
        ensures nodes { declaration_nodes (view_declaration result) ≡ 5 }
        ensures height { declaration_height (view_declaration result) ≡ 3 }
    {
        let quotient = self.leaves(BinaryOp::Div, number(at(33, 35)), name(at(38, 39)));
        let declr = Declr {
            node: UNLAID,
            stars: 0,
            name: Some(at(29, 30)),
            tail: Tail::Arrays(self.none()),
            init: Some(Init::Plain(quotient)),
        };
        Declaration {
            storage: None,
            base: words(self.list([Fixed::Int])),
            list: self.list([declr]),
        }
    }

    /// `return e;`
    fn returned(&self, e: Expr) -> Stmt
        requires one_node { expression_nodes (view_expression e) ≡ 1 }
        requires one_high { expression_height (view_expression e) ≡ 1 }
        ensures nodes { statement_nodes (view_statement result) ≡ 2 }
        ensures height { statement_height (view_statement result) ≡ 2 }
    {
        Stmt {
            node: UNLAID,
            form: StmtForm::Return(Some(e)),
        }
    }

    /// `if (x == 0) return 1;`
    fn test(&self) -> Stmt
        ensures nodes { statement_nodes (view_statement result) ≡ 6 }
        ensures height { statement_height (view_statement result) ≡ 3 }
    {
        let equal = self.leaves(BinaryOp::Eq, name(at(45, 46)), number(at(50, 51)));
        let body = self.boxed(self.returned(number(at(60, 61))));
        Stmt {
            node: UNLAID,
            form: if_form(equal, body),
        }
    }

    fn body(&self) -> Stmt
        ensures nodes { statement_nodes (view_statement result) ≡ 14 }
        ensures height { statement_height (view_statement result) ≡ 4 }
    {
        let local = Part::Local(self.local());
        let test = Part::Run(self.test());
        let last = Part::Run(self.returned(name(at(70, 71))));
        Stmt {
            node: UNLAID,
            form: StmtForm::Block(self.list([local, test, last])),
        }
    }

    /// `int f(unsigned char x) { int y = 10 / x; if (x == 0) return 1; return y; }`
    pub(crate) fn sample(&self) -> Boxed<Unit>
        ensures nodes { unit_nodes (view_unit result) ≡ 20 }
        ensures height { unit_height (view_unit result) ≡ 5 }
    {
        self.boxed(Unit::Defines(
            UNLAID,
            Function {
                storage: None,
                base: words(self.list([Fixed::Int])),
                declr: self.head(),
                body: self.body(),
            },
        ))
    }

    /// `int **a[1] = {{1}};`
    pub(crate) fn array(&self) -> Boxed<Unit>
        ensures nodes { unit_nodes (view_unit result) ≡ 5 }
        ensures height { unit_height (view_unit result) ≡ 3 }
    {
        let inner = Item {
            path: self.none(),
            init: Init::Plain(number(at(15, 16))),
        };
        let outer = Item {
            path: self.none(),
            init: Init::Braces(self.list([inner]), false),
        };
        let declr = Declr {
            node: UNLAID,
            stars: 2,
            name: Some(at(6, 7)),
            tail: Tail::Arrays(self.list([Dimension::Sized(number(at(8, 9)))])),
            init: Some(Init::Braces(self.list([outer]), false)),
        };
        let declaration = Declaration {
            storage: None,
            base: words(self.list([Fixed::Int])),
            list: self.list([declr]),
        };
        self.boxed(Unit::Declares(UNLAID, declaration))
    }

    /// `int f(int);`
    pub(crate) fn unnamed(&self) -> Boxed<Unit>
        ensures nodes { unit_nodes (view_unit result) ≡ 6 }
        ensures height { unit_height (view_unit result) ≡ 4 }
    {
        let declr = Declr {
            node: UNLAID,
            stars: 0,
            name: None,
            tail: Tail::Arrays(self.none()),
            init: None,
        };
        let parameter = Param {
            node: UNLAID,
            base: words(self.list([Fixed::Int])),
            declr,
        };
        let declr = Declr {
            node: UNLAID,
            stars: 0,
            name: Some(at(4, 5)),
            tail: Tail::Params(self.list([parameter]), false),
            init: None,
        };
        let declaration = Declaration {
            storage: None,
            base: words(self.list([Fixed::Int])),
            list: self.list([declr]),
        };
        self.boxed(Unit::Declares(UNLAID, declaration))
    }
}
