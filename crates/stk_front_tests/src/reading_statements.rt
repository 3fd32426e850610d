//! Texts of units with the trees that they are, worked out by hand from C11 6.8 and 6.9.
use crate::reading_texts::{names, tokens};
use crate::tables::{EACH_LINE, Says, add, check};
use std::alloc::Global;
use stk_base::{Boxed, Span};
use stk_expr::Parse;
use stk_stmt::{head, unit};
use stk_tree::{Declaration, Expr, Label, Part, Section, Start, Stmt, StmtForm, Unit};

// Functions, and their shapes: expressions and declarators as they stand in the text, each statement and
// section in brackets, or `no tree`. `T` is a typedef name, and all other words aren't.
static BODIES: &str = r#"
int f() {} => f()[{}]
int f() { ; } => f()[{[;]}]
int f() { a = 1; b; } => f()[{[a = 1;][b;]}]
int f() { int x = 1, y; x; } => f()[{(x = 1,y)[x;]}]
int f() { T x; T * y; } => f()[{(x)(* y)}]
int f() { a * b; } => f()[{[a * b;]}]
int f() { static int x; } => f()[{(x)}]
int f() { x; int y; } => f()[{[x;](y)}]
int f() { { int x; } { } } => f()[{[{(x)}][{}]}]
int f() { if (a) b; } => f()[{[if a[b;]]}]
int f() { if (a) b; else c; } => f()[{[if a[b;] else [c;]]}]
int f() { if (a) if (b) ; else ; } => f()[{[if a[if b[;] else [;]]]}]
int f() { if (a) if (b) ; else ; else ; } => f()[{[if a[if b[;] else [;]] else [;]]}]
int f() { if (a) while (b) if (c) ; else ; } => f()[{[if a[while b[if c[;] else [;]]]]}]
int f() { if (a) { if (b) ; } else ; } => f()[{[if a[{[if b[;]]}] else [;]]}]
int f() { while (a, b) c; } => f()[{[while a, b[c;]]}]
int f() { do a; while (b); } => f()[{[do [a;] b]}]
int f() { do { } while (b) ; c; } => f()[{[do [{}] b][c;]}]
int f() { for (;;) ; } => f()[{[for |||[;]]}]
int f() { for (a = 0; a < b; a++) c; } => f()[{[for a = 0|a < b|a++|[c;]]}]
int f() { for (int i = 0, j; i; ) { } } => f()[{[for (i = 0,j)|i||[{}]]}]
int f() { break; continue; return; return a, b; } => f()[{[break][continue][return][return a, b]}]
int f() { switch (a) { } } => f()[{[switch a{}]}]
int f() { switch (a) { case 1: case 2: b; break; default: } } => f()[{[switch a{[1:2:[b;][break]][default:]}]}]
int f() { switch (a) { default: { int x; } case b ? 1 : 2: ; } } => f()[{[switch a{[default:[{(x)}]][b ? 1 : 2:[;]]}]}]
int f() { switch (a) case 1: b; } => no tree
int f() { switch (a) { b; case 1: c; } } => no tree
int f() { switch (a) { int x; case 1: c; } } => no tree
int f() { switch (a) { case 1: int x; } } => no tree
int f() { switch (a) { case 1: { case 2: b; } } } => no tree
int f() { switch (a) { case b = 1: c; } } => no tree
int f() { case 1: a; } => no tree
int f() { else ; } => no tree
int f() { if (a) else ; } => no tree
int f() { if a ; } => no tree
int f() { do a; while (b) } => no tree
int f() { for (a; b) ; } => no tree
int f() { a b; } => no tree
int f() { goto a; a: ; } => no tree
int f() { typedef int t; } => no tree
int f() { struct s { int a; } x; } => no tree
int f() { int f(int); } => no tree
int f() { int; } => no tree
int f() { a; } ; => no tree
"#;

// Units with their shapes.
static UNITS: &str = r#"
; => ;
int x; => (x)
int; => ()
typedef int t, *u; => (t,*u)
int f(void), g(int a, ...); => (f(void),g(int a, ...))
struct s { int a; struct s *next; } x = { .a = 1, }; => (x = { .a = 1, })
enum e { A, B = 2, }; => ()
T x; => (x)
T T; => no tree
int f(int a) { return a; } => f(int a)[{[return a]}]
static T *f() { } => *f()[{}]
int f { } => no tree
int f(void);; => no tree
; ; => no tree
=> no tree
int x => no tree
x; => no tree
int f(void) { } x => no tree
int f(void) { => no tree
int x = 1, f(void) { } => no tree
"#;

// Fronts of functions with their shapes.
static HEADS: &str = r#"
int f(int a) => (f(int a))
static int f() { } => no tree
=> no tree
int x; => no tree
int => ()
"#;

/// The text of an expression that may be missing.
fn add_expression(out: &mut Vec<u8>, bytes: &[u8], value: &Option<Expr>) {
    match value {
        None => {}
        Some(e) => add(out, e.node.span.text(bytes)),
    }
}

/// The declarators of a declaration, in parentheses.
fn add_declaration(out: &mut Vec<u8>, bytes: &[u8], tree: &Declaration) {
    let mut between: &[u8] = b"(";
    for declr in tree.list.as_slice() {
        add(out, between);
        add(out, declr.node.span.text(bytes));
        between = b",";
    }
    if tree.list.as_slice().is_empty() {
        add(out, between);
    }
    add(out, b")")
}

fn add_label(out: &mut Vec<u8>, bytes: &[u8], label: &Label) {
    match label {
        Label::Default => add(out, b"default:"),
        Label::Case(e) => {
            add(out, e.node.span.text(bytes));
            add(out, b":")
        }
    }
}

fn add_start(out: &mut Vec<u8>, bytes: &[u8], start: &Start) {
    match start {
        Start::Local(tree) => add_declaration(out, bytes, tree),
        Start::Plain(e) => add_expression(out, bytes, e),
    }
}

#[cycle(shape)]
fn add_part(out: &mut Vec<u8>, bytes: &[u8], part: &Part, room: usize) {
    match part {
        Part::Local(tree) => add_declaration(out, bytes, tree),
        Part::Run(statement) => add_statement(out, bytes, statement, room),
    }
}

#[cycle(shape)]
fn add_section(out: &mut Vec<u8>, bytes: &[u8], section: &Section, room: usize) {
    add(out, b"[");
    for label in section.labels.as_slice() {
        add_label(out, bytes, label);
    }
    for statement in section.body.as_slice() {
        add_statement(out, bytes, statement, room);
    }
    add(out, b"]")
}

#[cycle(shape)]
fn add_headed(out: &mut Vec<u8>, bytes: &[u8], word: &[u8], test: &Expr, body: &Stmt, room: usize) {
    add(out, word);
    add(out, test.node.span.text(bytes));
    add_statement(out, bytes, body, room)
}

#[cycle(shape)]
fn add_form(out: &mut Vec<u8>, bytes: &[u8], form: &StmtForm, room: usize) {
    match form {
        StmtForm::Block(list) => {
            add(out, b"{");
            for part in list.as_slice() {
                add_part(out, bytes, part, room);
            }
            add(out, b"}")
        }
        StmtForm::Plain(e) => {
            add_expression(out, bytes, e);
            add(out, b";")
        }
        StmtForm::If(test, then, None) => { add_headed(out, bytes, b"if ", test, then.get(), room) }
        StmtForm::If(test, then, Some(other)) => {
            add_headed(out, bytes, b"if ", test, then.get(), room);
            add(out, b" else ");
            add_statement(out, bytes, other.get(), room)
        }
        StmtForm::Switch(e, list) => {
            add(out, b"switch ");
            add(out, e.node.span.text(bytes));
            add(out, b"{");
            for section in list.as_slice() {
                add_section(out, bytes, section, room);
            }
            add(out, b"}")
        }
        StmtForm::While(test, body) => { add_headed(out, bytes, b"while ", test, body.get(), room) }
        StmtForm::Do(body, test) => {
            add(out, b"do ");
            add_statement(out, bytes, body.get(), room);
            add(out, b" ");
            add(out, test.node.span.text(bytes))
        }
        StmtForm::For(start, test, step, body) => {
            add(out, b"for ");
            add_start(out, bytes, start);
            add(out, b"|");
            add_expression(out, bytes, test);
            add(out, b"|");
            add_expression(out, bytes, step);
            add(out, b"|");
            add_statement(out, bytes, body.get(), room)
        }
        StmtForm::Break => add(out, b"break"),
        StmtForm::Continue => add(out, b"continue"),
        StmtForm::Return(None) => add(out, b"return"),
        StmtForm::Return(Some(e)) => {
            add(out, b"return ");
            add(out, e.node.span.text(bytes))
        }
    }
}

/// A statement in brackets; nothing of one that is nested deeper than there is room.
#[cycle(shape)]
fn add_statement(out: &mut Vec<u8>, bytes: &[u8], statement: &Stmt, room: usize) {
    if room == 0 {
        return;
    }
    add(out, b"[");
    add_form(out, bytes, &statement.form, room - 1);
    add(out, b"]")
}

fn add_unit(out: &mut Vec<u8>, bytes: &[u8], unit: &Unit) {
    match unit {
        Unit::Empty(_) => add(out, b";"),
        Unit::Declares(_, tree) => add_declaration(out, bytes, tree),
        Unit::Defines(_, function) => {
            add(out, function.declr.node.span.text(bytes));
            add_statement(out, bytes, &function.body, 50)
        }
    }
}

/// The unit that some tokens are, or the front of a function.
fn tree_of(alloc: Global, text: &[u8], headed: bool) -> Result<Boxed<Unit>, Parse> {
    let list = tokens(alloc, text)?;
    let names = names(alloc)?;
    if list.len() >= 16_777_215 {
        return Err(Parse::NoTree);
    }
    if headed {
        head(alloc, text, list.as_slice(), &names)
    } else {
        unit(alloc, text, list.as_slice(), &names)
    }
}

/// Adds the shape of the unit that a text is.
fn add_shape(alloc: Global, text: &[u8], headed: bool, out: &mut Vec<u8>) {
    match tree_of(alloc, text, headed) {
        Ok(tree) => add_unit(out, text, tree.get()),
        Err(Parse::NoTree) => add(out, b"no tree"),
        Err(Parse::NoMemory) => add(out, b"no memory"),
    }
}

struct Units;

impl Says for Units {
    fn say(alloc: Global, text: &str, out: &mut Vec<u8>) {
        add(out, b" ");
        add_shape(alloc, text.as_bytes(), false, out)
    }
}

struct Heads;

impl Says for Heads {
    fn say(alloc: Global, text: &str, out: &mut Vec<u8>) {
        add(out, b" ");
        add_shape(alloc, text.as_bytes(), true, out)
    }
}

#[test]
fn reads_statements(rt: HostRuntime) {
    check::<Units>(&rt, rt.alloc(), BODIES, EACH_LINE, 44);
}

#[test]
fn reads_units(rt: HostRuntime) {
    check::<Units>(&rt, rt.alloc(), UNITS, EACH_LINE, 20);
}

#[test]
fn reads_heads(rt: HostRuntime) {
    check::<Heads>(&rt, rt.alloc(), HEADS, EACH_LINE, 5);
}

/// A function whose body returns a name in so many parentheses.
fn nested(alloc: Global, count: usize) -> Vec<u8> {
    let mut text = Vec::new(alloc);
    add(&mut text, b"int f(int x) { return ");
    for _ in 0..count {
        let _ = text.push(b'(');
    }
    let _ = text.push(b'x');
    for _ in 0..count {
        let _ = text.push(b')');
    }
    add(&mut text, b"; }");
    text
}

/// Whether such a function is read; nothing where there is no memory.
fn is_read(alloc: Global, count: usize) -> Option<bool> {
    let text = nested(alloc, count);
    match tree_of(alloc, text.as_slice(), false) {
        Ok(_) => Some(true),
        Err(Parse::NoTree) => Some(false),
        Err(Parse::NoMemory) => None,
    }
}

#[test]
fn stops_at_the_greatest_height(rt: HostRuntime) {
    assert!(rt; is_read(rt.alloc(), 396) == Some(true));
    assert!(rt; is_read(rt.alloc(), 397) == Some(false));
    assert!(rt; is_read(rt.alloc(), 200_000) == Some(false));
}

/// The number and the span of the whole unit.
fn last_node(unit: &Unit) -> (u32, Span) {
    match unit {
        Unit::Empty(node) | Unit::Declares(node, _) | Unit::Defines(node, _) => {
            (node.number, node.span)
        }
    }
}

/// Whether the last node of a unit has this number and this span.
fn ends_with(alloc: Global, text: &[u8], number: u32, span: Span) -> bool {
    match tree_of(alloc, text, false) {
        Ok(tree) => last_node(tree.get()) == (number, span),
        Err(_) => false,
    }
}

#[test]
fn numbers_the_nodes(rt: HostRuntime) {
    let span = Span { from: 1, to: 37 };
    assert!(rt;
        ends_with(
            rt.alloc(),
            b" int f(unsigned char x) { return x; } ",
            8,
            span
        )
    );
}
