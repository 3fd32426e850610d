//! Texts of expressions with the trees that they are, worked out by hand from the levels of C11 6.5.
use crate::reading_texts::{names, tokens};
use crate::tables::{EACH_LINE, Says, add, add_number, add_span, check};
use std::alloc::Global;
use stk_base::{Boxed, Span};
use stk_expr::{Parse, expr};
use stk_lex::Token;
use stk_tree::{
    AssignOp, BaseForm, BinaryOp, Dimension, Expr, ExprForm, Fixed, Node, StepOp, TypeName,
    UnaryOp, spelling,
};

// Each level that is asked for, with a text and the shape of its tree: each operator before its operands, in braces, or
// `no tree`. `T` is a typedef name, and all other words aren't.
static TABLE: &str = r#"
-- leaves
17: a => a
17: 10 => 10
17: 'x' => 'x'
17: "x" => "x"
17: "x" "y" L"z" => "x""y"L"z"
1: "x" a => no tree
17: (a) => (a)
17: ((a, b)) => (({, a b}))
1: T => no tree
1: int => no tree
1: while => no tree
1: () => no tree
1: => no tree
1: a b => no tree
1: @ => no tree
-- levels against their neighbours
1: a - b - c => {- {- a b} c}
1: a - (b - c) => {- a ({- b c})}
1: a = b = c => {= a {= b c}}
1: a += b *= c => {+= a {*= b c}}
1: a ? b : c ? d : e => {? a b {? c d e}}
1: a ? b, c : d => {? a {, b c} d}
1: a ? b = c : d => {? a {= b c} d}
1: a ? b : c = d => no tree
1: a ? b => no tree
1: a ? b ? c : d : e => {? a {? b c d} e}
1: a, b, c => {, {, a b} c}
1: a = b, c => {, {= a b} c}
1: a || b && c => {|| a {&& b c}}
1: a && b || c => {|| {&& a b} c}
1: a && b | c => {&& a {| b c}}
1: a | b ^ c => {| a {^ b c}}
1: a ^ b & c => {^ a {& b c}}
1: a & b == c => {& a {== b c}}
1: a == b < c => {== a {< b c}}
1: a != b >= c => {!= a {>= b c}}
1: a < b << c => {< a {<< b c}}
1: a << b + c => {<< a {+ b c}}
1: a >> b >> c => {>> {>> a b} c}
1: a + b * c => {+ a {* b c}}
1: a * b + c => {+ {* a b} c}
1: a / b % c => {% {/ a b} c}
1: a * -b => {* a {- b}}
1: a + b = c => no tree
1: -a = b => {= {- a} b}
1: (T) a = b => no tree
1: a ? b : c || d => {? a b {|| c d}}
1: a || b ? c : d => {? {|| a b} c d}
1: a = b ? c : d => {= a {? b c d}}
4: a ? b : c => no tree
13: a + b => no tree
13: a * b => {* a b}
16: -a => no tree
17: a[b] => no tree
-- casts and sizes
1: (T) x => {T x}
1: (T)(x) => {T (x)}
1: (x)(y) => {() (x) y}
1: (T) + x => {T {+ x}}
1: (x) + y => {+ (x) y}
1: (T) x + y => {+ {T x} y}
1: (T)(int) x => {T {int x}}
1: (unsigned long int **) x => {unsigned long int** x}
1: (struct T *) x => {struct T* x}
1: (enum e) x => {enum e x}
1: (T T) x => no tree
1: (int T) x => no tree
1: (struct s {int a;}) x => no tree
1: (T *[3][]) x => {T*[3][] x}
1: (T [a, b]) x => no tree
1: (T [a ? b : c]) x => {T[{? a b c}] x}
15: (T) x => no tree
1: (T) => no tree
1: sizeof (T) => {sizeof T}
1: sizeof (x) => {sizeof (x)}
1: sizeof x[1] => {sizeof {[] x 1}}
1: sizeof (T) x => no tree
1: sizeof (T[3]) * 2 => {* {sizeof T[3]} 2}
1: sizeof (T) + 1 => {+ {sizeof T} 1}
1: sizeof sizeof a => {sizeof {sizeof a}}
-- operators before and behind their operands
1: -a++ => {- {.++ a}}
1: *p++ => {* {.++ p}}
1: &*p => {& {* p}}
1: - -a-- => {- {- {.-- a}}}
1: ++a++ => {++ {.++ a}}
1: ++-a => {++ {- a}}
1: --(T)a => no tree
1: !~+a => {! {~ {+ a}}}
1: f() => {() f}
1: f(a, b = c)(d) => {() {() f a {= b c}} d}
1: f((a, b)) => {() f ({, a b})}
1: f(a b) => no tree
1: a.b->T[d] => {[] {-> {. a b} T} d}
1: a.1 => no tree
"#;

fn binary_text(op: BinaryOp) -> &'static [u8] {
    spelling(match op {
        BinaryOp::Comma => Fixed::Comma,
        BinaryOp::OrElse => Fixed::OrOr,
        BinaryOp::AndAlso => Fixed::AndAnd,
        BinaryOp::Or => Fixed::Pipe,
        BinaryOp::Xor => Fixed::Caret,
        BinaryOp::And => Fixed::Ampersand,
        BinaryOp::Eq => Fixed::EqualEqual,
        BinaryOp::Ne => Fixed::NotEqual,
        BinaryOp::Lt => Fixed::Less,
        BinaryOp::Gt => Fixed::Greater,
        BinaryOp::Le => Fixed::LessEqual,
        BinaryOp::Ge => Fixed::GreaterEqual,
        BinaryOp::Left => Fixed::LeftShift,
        BinaryOp::Right => Fixed::RightShift,
        BinaryOp::Add => Fixed::Plus,
        BinaryOp::Sub => Fixed::Minus,
        BinaryOp::Mul => Fixed::Star,
        BinaryOp::Div => Fixed::Slash,
        BinaryOp::Rem => Fixed::Percent,
    })
}

fn assign_text(op: AssignOp) -> &'static [u8] {
    spelling(match op {
        AssignOp::Plain => Fixed::Assign,
        AssignOp::Mul => Fixed::StarAssign,
        AssignOp::Div => Fixed::SlashAssign,
        AssignOp::Rem => Fixed::PercentAssign,
        AssignOp::Add => Fixed::PlusAssign,
        AssignOp::Sub => Fixed::MinusAssign,
        AssignOp::Left => Fixed::LeftShiftAssign,
        AssignOp::Right => Fixed::RightShiftAssign,
        AssignOp::And => Fixed::AmpersandAssign,
        AssignOp::Xor => Fixed::CaretAssign,
        AssignOp::Or => Fixed::PipeAssign,
    })
}

fn unary_text(op: UnaryOp) -> &'static [u8] {
    spelling(match op {
        UnaryOp::Address => Fixed::Ampersand,
        UnaryOp::Deref => Fixed::Star,
        UnaryOp::Plus => Fixed::Plus,
        UnaryOp::Minus => Fixed::Minus,
        UnaryOp::Flip => Fixed::Tilde,
        UnaryOp::Not => Fixed::Exclamation,
    })
}

fn step_text(op: StepOp) -> &'static [u8] {
    match op {
        StepOp::IncBefore => b"++",
        StepOp::DecBefore => b"--",
        StepOp::IncAfter => b".++",
        StepOp::DecAfter => b".--",
    }
}

fn add_texts(bytes: &[u8], parts: &[Span], out: &mut Vec<u8>) {
    for part in parts {
        add(out, part.text(bytes));
    }
}

fn base_shape(bytes: &[u8], form: &BaseForm, out: &mut Vec<u8>) {
    match form {
        BaseForm::Words(words) => {
            let mut between: &[u8] = b"";
            for word in words.as_slice() {
                add(out, between);
                add(out, spelling(*word));
                between = b" ";
            }
        }
        BaseForm::StructRef(tag) => {
            add(out, b"struct ");
            add(out, tag.text(bytes))
        }
        BaseForm::EnumRef(tag) => {
            add(out, b"enum ");
            add(out, tag.text(bytes))
        }
        BaseForm::Named(at) => add(out, at.text(bytes)),
        _ => add(out, b"!"),
    }
}

/// The operator of a node that is told in braces.
fn operator(form: &ExprForm) -> &'static [u8] {
    match form {
        ExprForm::Index(_, _) => b"[]",
        ExprForm::Call(_, _) => b"()",
        ExprForm::Dot(_, _) => b".",
        ExprForm::Arrow(_, _) => b"->",
        ExprForm::Step(op, _) => step_text(*op),
        ExprForm::Unary(op, _) => unary_text(*op),
        ExprForm::SizeExpr(_) | ExprForm::SizeName(_) => b"sizeof",
        ExprForm::Binary(op, _, _) => binary_text(*op),
        ExprForm::Choice(_, _, _) => b"?",
        ExprForm::Assign(op, _, _) => assign_text(*op),
        _ => b"",
    }
}

/// A type name: its base, its `*`, and the shapes of its sizes.
#[cycle(shape)]
fn type_shape(bytes: &[u8], name: &TypeName, room: u32, out: &mut Vec<u8>) {
    base_shape(bytes, &name.base.form, out);
    for _ in 0..name.stars {
        add(out, b"*");
    }
    for part in name.arrays.as_slice() {
        add(out, b"[");
        if let Dimension::Sized(size) = part {
            shape(bytes, size, room, out);
        }
        add(out, b"]");
    }
}

/// An operand behind a blank.
#[cycle(shape)]
fn add_operand(bytes: &[u8], e: &Expr, room: u32, out: &mut Vec<u8>) {
    add(out, b" ");
    shape(bytes, e, room, out)
}

/// The operands of a node that is told in braces.
#[cycle(shape)]
fn add_operands(bytes: &[u8], form: &ExprForm, room: u32, out: &mut Vec<u8>) {
    match form {
        ExprForm::Index(x, y) | ExprForm::Binary(_, x, y) | ExprForm::Assign(_, x, y) => {
            add_operand(bytes, x.get(), room, out);
            add_operand(bytes, y.get(), room, out)
        }
        ExprForm::Call(f, list) => {
            add_operand(bytes, f.get(), room, out);
            for argument in list.as_slice() {
                add_operand(bytes, argument, room, out);
            }
        }
        ExprForm::Dot(x, at) | ExprForm::Arrow(x, at) => {
            add_operand(bytes, x.get(), room, out);
            add(out, b" ");
            add(out, at.text(bytes))
        }
        ExprForm::Step(_, x) | ExprForm::Unary(_, x) | ExprForm::SizeExpr(x) => {
            add_operand(bytes, x.get(), room, out)
        }
        ExprForm::SizeName(y) => {
            add(out, b" ");
            type_shape(bytes, y, room, out)
        }
        ExprForm::Cast(y, x) => {
            type_shape(bytes, y, room, out);
            add_operand(bytes, x.get(), room, out)
        }
        ExprForm::Choice(x, y, z) => {
            add_operand(bytes, x.get(), room, out);
            add_operand(bytes, y.get(), room, out);
            add_operand(bytes, z.get(), room, out)
        }
        _ => {}
    }
}

/// What a tree is, as far as `room` goes.
#[cycle(shape)]
fn shape(bytes: &[u8], e: &Expr, room: u32, out: &mut Vec<u8>) {
    if room == 0 {
        return;
    }
    match &e.form {
        ExprForm::Name(at) | ExprForm::Number(at) | ExprForm::Character(at) => {
            add(out, at.text(bytes))
        }
        ExprForm::Text(parts) => add_texts(bytes, parts.as_slice(), out),
        ExprForm::Paren(x) => {
            add(out, b"(");
            shape(bytes, x.get(), room - 1, out);
            add(out, b")")
        }
        form => {
            add(out, b"{");
            add(out, operator(form));
            add_operands(bytes, form, room - 1, out);
            add(out, b"}")
        }
    }
}

/// What is asked of some tokens: the tree of a level that begins at a place, told by its shape or by its nodes.
#[derive(Clone, Copy)]
struct Asked {
    at: usize,
    level: u8,
    nodes: bool,
}

/// The tree that is asked for, and where it ends.
fn tree_at(
    alloc: Global,
    bytes: &[u8],
    list: &[Token],
    asked: Asked,
) -> Result<(Boxed<Expr>, usize), Parse> {
    let Asked { at, level, .. } = asked;
    if at > list.len() || list.len() > 16_777_216 || level == 0 || level > 17 {
        return Err(Parse::NoTree);
    }
    let names = names(alloc)?;
    let (tree, end) = expr(alloc, bytes, list, &names, at, level)?;
    Ok((Boxed::new(alloc, tree)?, end))
}

fn add_node(node: &Node, out: &mut Vec<u8>) {
    add_number(out, b" ", node.number);
    add_span(out, b":", node.span);
}

/// The numbers and the spans of the nodes of a sum of a name and a cast name, from the left to the right, each parent
/// behind its children.
fn add_nodes(tree: &Expr, out: &mut Vec<u8>) {
    if let ExprForm::Binary(_, left, right) = &tree.form {
        add_node(&left.get().node, out);
        if let ExprForm::Cast(target, operand) = &right.get().form {
            add_node(&target.base.node, out);
            add_node(&target.node, out);
            add_node(&operand.get().node, out);
        }
        add_node(&right.get().node, out);
    }
    add_node(&tree.node, out);
}

/// Adds what the tree is that is asked for, and says where it ends; nothing where there is no tree.
fn add_tree(
    alloc: Global,
    bytes: &[u8],
    list: &[Token],
    asked: Asked,
    out: &mut Vec<u8>,
) -> Option<usize> {
    match tree_at(alloc, bytes, list, asked) {
        Ok((tree, end)) => {
            if asked.nodes {
                add_nodes(tree.get(), out);
            } else {
                shape(bytes, tree.get(), 900, out);
            }
            Some(end)
        }
        Err(Parse::NoTree) => {
            add(out, b"no tree");
            None
        }
        Err(Parse::NoMemory) => {
            add(out, b"no memory");
            None
        }
    }
}

/// Adds what the tree is that is asked for, and where it ends, if it isn't where the text ends.
fn add_asked(alloc: Global, bytes: &[u8], asked: Asked, out: &mut Vec<u8>) {
    match tokens(alloc, bytes) {
        Ok(list) => match add_tree(alloc, bytes, list.as_slice(), asked, out) {
            Some(end) if end != list.len() => {
                add_number(out, b" to ", u32::try_from(end).unwrap_or(u32::MAX))
            }
            Some(_) | None => {}
        },
        Err(_) => add(out, b"no memory"),
    }
}

struct Shapes;

impl Says for Shapes {
    fn say(alloc: Global, text: &str, out: &mut Vec<u8>) {
        add(out, b" ");
        match asked_of(text) {
            Some((asked, text)) => add_asked(alloc, text.as_bytes(), asked, out),
            None => add(out, b"no level"),
        }
    }
}

/// The level that is asked for, with the place behind a blank if it isn't the first one, and the text behind its `:`.
fn asked_of(row: &str) -> Option<(Asked, &str)> {
    let (asked, behind) = row.split_once(':')?;
    let text = behind.strip_prefix(' ').unwrap_or(behind);
    let (level, at) = asked.split_once(' ').unwrap_or((asked, "0"));
    match (level.parse::<u8>(), at.parse::<usize>()) {
        (Ok(level), Ok(at)) => Some((
            Asked {
                at,
                level,
                nodes: false,
            },
            text,
        )),
        _ => None,
    }
}

#[test]
fn reads_the_table(rt: HostRuntime) {
    check::<Shapes>(&rt, rt.alloc(), TABLE, EACH_LINE, 92);
}

/// An operand behind so many punctuators, with as many right parentheses behind it.
fn nested(alloc: Global, count: usize, punctuator: &str) -> Vec<u8> {
    let mut text = Vec::new(alloc);
    for _ in 0..count {
        add(&mut text, punctuator.as_bytes());
    }
    let _ = text.push(b'a');
    for _ in 0..count {
        let _ = text.push(b')');
    }
    text
}

/// Whether this is said of an operand in so many punctuators.
fn is_nested(alloc: Global, count: usize, punctuator: &str, wanted: &[u8]) -> bool {
    let text = nested(alloc, count, punctuator);
    let asked = Asked {
        at: 0,
        level: 1,
        nodes: true,
    };
    let mut out = Vec::new(alloc);
    add_asked(alloc, text.as_slice(), asked, &mut out);
    out.as_slice() == wanted
}

// A level, a place and a text, and the shape of what stands there and where it ends, if that isn't where the text ends.
static PLACES: &str = r#"
1 0: a, b => {, a b}
2 0: a, b => a to 1
2 2: a, b => b
1 1: a, b => no tree
1 3: a, b => no tree
2 2: x = y); z => y to 3
1 2: a ? b : c => b to 3
2 2: f(a[1]) } => {[] a 1} to 6
"#;

#[test]
fn ends_before_a_stop(rt: HostRuntime) {
    check::<Shapes>(&rt, rt.alloc(), PLACES, EACH_LINE, 8);
}

#[test]
fn stops_at_the_greatest_height(rt: HostRuntime) {
    assert!(rt; is_nested(rt.alloc(), 399, "(", b" 0:0-799"));
    assert!(rt; is_nested(rt.alloc(), 400, "(", b"no tree"));
    assert!(rt; is_nested(rt.alloc(), 200_000, "(", b"no tree"));
    assert!(rt; is_nested(rt.alloc(), 200_000, "sizeof ", b"no tree"));
}

struct Nodes;

impl Says for Nodes {
    fn say(alloc: Global, text: &str, out: &mut Vec<u8>) {
        let asked = Asked {
            at: 1,
            level: 1,
            nodes: true,
        };
        add_asked(alloc, text.as_bytes(), asked, out)
    }
}

// The nodes of the expression that begins with the second token.
static NODES: &str = "
( a  + (T)b ) => 0:2-3 0:8-9 0:8-9 0:10-11 0:7-11 0:2-11 to 7
";

#[test]
fn sets_the_span_of_each_node(rt: HostRuntime) {
    check::<Nodes>(&rt, rt.alloc(), NODES, EACH_LINE, 1);
}
