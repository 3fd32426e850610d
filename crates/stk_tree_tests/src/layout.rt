//! The tokens, the counts, the heights and the layouts of three units.
ghost use Rattle.std.specs.Prelude.{◌<◌};
ghost use Rattle.stk_tree.specs.Nodes.{unit_nodes};
ghost use Rattle.stk_tree.specs.View.{view_unit};

use crate::maker::Maker;
use std::alloc::{AllocError, Global};
use std::process::Abort;
use std::test::Fail;
use stk_base::{Boxed, Class, Span};
use stk_nodes::lay_out;
use stk_tree::{
    Declaration, Declr, Dimension, Expr, ExprForm, Fixed, Init, Item, Lexeme, Node, Part, Stmt,
    StmtForm, Tail, Unit,
};
use stk_tree_calls::{height, nodes, tokens_of, well_placed};

fn leaf(class: Class, from: u32, to: u32) -> Lexeme {
    Lexeme::Leaf(class, Span { from, to })
}

/// What `int f(unsigned char x) { int y = 10 / x; if (x == 0) return 1; return y; }` prints.
fn sample_tokens() -> [Lexeme; 28] {
    [
        Lexeme::Fixed(Fixed::Int),
        leaf(Class::Word, 4, 5),
        Lexeme::Fixed(Fixed::LeftParen),
        Lexeme::Fixed(Fixed::Unsigned),
        Lexeme::Fixed(Fixed::Char),
        leaf(Class::Word, 20, 21),
        Lexeme::Fixed(Fixed::RightParen),
        Lexeme::Fixed(Fixed::LeftBrace),
        Lexeme::Fixed(Fixed::Int),
        leaf(Class::Word, 29, 30),
        Lexeme::Fixed(Fixed::Assign),
        leaf(Class::Number, 33, 35),
        Lexeme::Fixed(Fixed::Slash),
        leaf(Class::Word, 38, 39),
        Lexeme::Fixed(Fixed::Semicolon),
        Lexeme::Fixed(Fixed::If),
        Lexeme::Fixed(Fixed::LeftParen),
        leaf(Class::Word, 45, 46),
        Lexeme::Fixed(Fixed::EqualEqual),
        leaf(Class::Number, 50, 51),
        Lexeme::Fixed(Fixed::RightParen),
        Lexeme::Fixed(Fixed::Return),
        leaf(Class::Number, 60, 61),
        Lexeme::Fixed(Fixed::Semicolon),
        Lexeme::Fixed(Fixed::Return),
        leaf(Class::Word, 70, 71),
        Lexeme::Fixed(Fixed::Semicolon),
        Lexeme::Fixed(Fixed::RightBrace),
    ]
}

// Spans are written as the place of the first byte and that behind the last.

const SAMPLE_SPANS: [(u32, u32); 28] = [
    (0, 3),
    (4, 5),
    (5, 6),
    (6, 14),
    (15, 19),
    (20, 21),
    (21, 22),
    (23, 24),
    (25, 28),
    (29, 30),
    (31, 32),
    (33, 35),
    (36, 37),
    (38, 39),
    (39, 40),
    (41, 43),
    (44, 45),
    (45, 46),
    (47, 49),
    (50, 51),
    (51, 52),
    (53, 59),
    (60, 61),
    (61, 62),
    (63, 69),
    (70, 71),
    (71, 72),
    (73, 74),
];

/// The spans of the nodes 0 to 19 of the first unit.
const SAMPLE_NODES: [(u32, u32); 20] = [
    (0, 3), // int
    (6, 19), // unsigned char
    (20, 21), // the declarator x
    (6, 21), // the parameter
    (4, 22), // the declarator of f
    (25, 28), // int
    (33, 35), // 10
    (38, 39), // x
    (33, 39), // 10 / x
    (29, 39), // the declarator of y
    (45, 46), // x
    (50, 51), // 0
    (45, 51), // x == 0
    (60, 61), // 1
    (53, 62), // return 1;
    (41, 62), // if (x == 0) return 1;
    (70, 71), // y
    (63, 72), // return y;
    (23, 74), // the block
    (0, 74), // the unit
];

// `int **a[1] = {{1}};`
const ARRAY_SPANS: [(u32, u32); 14] = [
    (0, 3),
    (4, 5),
    (5, 6),
    (6, 7),
    (7, 8),
    (8, 9),
    (9, 10),
    (11, 12),
    (13, 14),
    (14, 15),
    (15, 16),
    (16, 17),
    (17, 18),
    (18, 19),
];

const ARRAY_NODES: [(u32, u32); 5] = [
    (0, 3), // int
    (8, 9), // the 1 in brackets
    (15, 16), // the 1 in braces
    (4, 18), // the declarator
    (0, 19), // the unit
];

// `int f(int);`
const UNNAMED_SPANS: [(u32, u32); 6] = [(0, 3), (4, 5), (5, 6), (6, 9), (9, 10), (10, 11)];

const UNNAMED_NODES: [(u32, u32); 6] = [
    (0, 3), // int
    (6, 9), // int
    (9, 9), // the declarator that prints nothing
    (6, 9), // the parameter
    (4, 10), // the declarator of f
    (0, 11), // the unit
];

/// Adds a node. Where there is no memory for it, it is left out, and then the test that wants it fails.
fn add(out: &mut Vec<Node>, node: Node) {
    let _ = out.push(node);
}

/// Adds the nodes of a leaf, or of an expression with two leaves.
fn add_expression(out: &mut Vec<Node>, e: &Expr) {
    if let ExprForm::Binary(_, a, b) = &e.form {
        add(out, a.get().node);
        add(out, b.get().node);
    }
    add(out, e.node);
}

/// Adds the nodes of a declarator whose parameters have none, with array parts and an initialiser that nests.
fn add_declarator(out: &mut Vec<Node>, x: &Declr) {
    match &x.tail {
        Tail::Params(list, _) => {
            for parameter in list.as_slice() {
                add(out, parameter.base.node);
                add(out, parameter.declr.node);
                add(out, parameter.node);
            }
        }
        Tail::Arrays(list) => {
            for dimension in list.as_slice() {
                if let Dimension::Sized(e) = dimension {
                    add_expression(out, e);
                }
            }
        }
        Tail::Unspecified | Tail::NoParams => {}
    }
}

/// Adds the nodes of an initialiser that is an expression, or one in two braces.
fn add_initialiser(out: &mut Vec<Node>, init: &Init) {
    match init {
        Init::Plain(e) => add_expression(out, e),
        Init::Braces(list, _) => {
            if let [
                Item {
                    init: Init::Braces(inner, _),
                    ..
                },
            ] = list.as_slice()
                && let [
                    Item {
                        init: Init::Plain(e),
                        ..
                    },
                ] = inner.as_slice()
            {
                add_expression(out, e);
            }
        }
    }
}

/// Adds the nodes of a declaration with one declarator.
fn add_declaration(out: &mut Vec<Node>, x: &Declaration) {
    add(out, x.base.node);
    if let [declarator] = x.list.as_slice() {
        add_declarator(out, declarator);
        if let Some(init) = &declarator.init {
            add_initialiser(out, init);
        }
        add(out, declarator.node);
    }
}

/// Adds the nodes of `return e;`, or of an `if` before one.
fn add_statement(out: &mut Vec<Node>, x: &Stmt) {
    match &x.form {
        StmtForm::Return(Some(e)) => add_expression(out, e),
        StmtForm::If(e, body, None) => {
            add_expression(out, e);
            if let StmtForm::Return(Some(e)) = &body.get().form {
                add_expression(out, e);
            }
            add(out, body.get().node);
        }
        _ => {}
    }
    add(out, x.node);
}

/// Adds the nodes of a block.
fn add_block(out: &mut Vec<Node>, x: &Stmt) {
    if let StmtForm::Block(parts) = &x.form {
        for part in parts.as_slice() {
            match part {
                Part::Local(declaration) => add_declaration(out, declaration),
                Part::Run(statement) => add_statement(out, statement),
            }
        }
    }
    add(out, x.node);
}

/// The nodes of a unit from left to right, each behind its children.
fn nodes_of(alloc: Global, unit: &Unit) -> Vec<Node> {
    let mut out = Vec::new(alloc);
    match unit {
        Unit::Empty(node) => {
            add(&mut out, *node);
        }
        Unit::Declares(node, declaration) => {
            add_declaration(&mut out, declaration);
            add(&mut out, *node);
        }
        Unit::Defines(node, function) => {
            add(&mut out, function.base.node);
            add_declarator(&mut out, &function.declr);
            add(&mut out, function.declr.node);
            add_block(&mut out, &function.body);
            add(&mut out, *node);
        }
    }
    out
}

fn spans_of(alloc: Global, places: &[(u32, u32)]) -> Result<Vec<Span>, AllocError> {
    let mut spans = Vec::new(alloc);
    for (from, to) in places {
        spans.push(Span {
            from: *from,
            to: *to,
        })?;
    }
    Ok(spans)
}

/// Lays a unit out over the spans of its tokens, and compares its nodes with these spans, numbered from 0.
fn check_layout(
    rt: &impl Abort,
    alloc: Global,
    mut unit: Boxed<Unit>,
    spans: &[(u32, u32)],
    wanted: &[(u32, u32)],
) -> Result<(), Fail>
    requires few_nodes { unit_nodes (view_unit unit) < 100 }
{
    let tokens = tokens_of(alloc, unit.get())?;
    let spans = spans_of(alloc, spans)?;
    let wanted = spans_of(alloc, wanted)?;
    assert_eq!(rt; spans.len(), tokens.len());
    assert!(rt; spans.len() < 100);
    lay_out(unit.get_mut(), spans.as_slice());
    let nodes = nodes_of(alloc, unit.get());
    assert_eq!(rt; nodes.len(), wanted.len());
    let mut number = 0;
    for (node, span) in nodes.iter().zip(wanted.iter()) {
        assert_eq!(rt;
            *node,
            Node {
                number,
                span: *span
            }
        );
        assert!(rt; number < 1000);
        number += 1;
    }
    Ok(())
}

#[test]
fn a_function(rt: HostRuntime) -> Result<(), Fail> {
    let make = Maker {
        alloc: rt.alloc(),
        rt: &rt,
    };
    let unit = make.sample();
    let tokens = tokens_of(rt.alloc(), unit.get())?;
    assert_eq!(rt; tokens.as_slice(), sample_tokens().as_slice());
    assert_eq!(rt; nodes(unit.get()), 20);
    assert_eq!(rt; height(unit.get()), 5);
    assert!(rt; well_placed(unit.get()));
    check_layout(&rt, rt.alloc(), unit, &SAMPLE_SPANS, &SAMPLE_NODES)
}

#[test]
fn an_array(rt: HostRuntime) -> Result<(), Fail> {
    let make = Maker {
        alloc: rt.alloc(),
        rt: &rt,
    };
    let unit = make.array();
    assert_eq!(rt; nodes(unit.get()), 5);
    assert_eq!(rt; height(unit.get()), 3);
    check_layout(&rt, rt.alloc(), unit, &ARRAY_SPANS, &ARRAY_NODES)
}

#[test]
fn a_parameter_without_a_name(rt: HostRuntime) -> Result<(), Fail> {
    let make = Maker {
        alloc: rt.alloc(),
        rt: &rt,
    };
    let unit = make.unnamed();
    assert_eq!(rt; nodes(unit.get()), 6);
    assert_eq!(rt; height(unit.get()), 4);
    check_layout(&rt, rt.alloc(), unit, &UNNAMED_SPANS, &UNNAMED_NODES)
}
