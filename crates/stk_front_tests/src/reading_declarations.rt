//! Texts of declarations with the trees that they are, worked out by hand from C11 6.7.
ghost use Rattle.std.specs.Prelude.{◌≤◌};
ghost use Rattle.stk_tree.specs.Nesting.{most_nesting};

use crate::reading_texts::{names, tokens};
use crate::tables::{EACH_LINE, Says, add, add_number, add_span, check};
use std::alloc::Global;
use stk_base::{Boxed, NoMemory, Span};
use stk_decl::{LeadingDeclaration, decl, declaration_within, front, front_within};
use stk_expr::Parse;
use stk_grammar::lexemes_of;
use stk_lex::Token;
use stk_tree::{
    BaseForm, Declaration, Declr, Desig, Dimension, Enumr, Expr, ExprForm, Init, Item, Lexeme,
    Member, Node, Param, Storage, Tail, spelling,
};

/// What is read, and whether it is told by its shape: a declaration at file scope or in a block, or the front of a
/// function; or by its nodes: a declaration at file scope behind the first token.
#[derive(Clone, Copy)]
enum Form {
    File,
    Local,
    Front,
    Nodes,
}

// Each text and the shape of its tree: the base, and each declarator in brackets. `#` stands before a typedef name.
// `T` is a typedef name, and all other words aren't.

// Words, names, storage words, structs and enumerations, at file scope.
static BASES: &str = r#"
int x; => int<x>
long unsigned int long x; => long unsigned int long<x>
T x; => #T<x>
T T; => no tree
T x, T; => no tree
int T; => no tree
x; => no tree
int; => int
T; => #T
int x => no tree
int x,; => no tree
int x y; => no tree
typedef int *x; => typedef int<*x>
extern T x; => extern #T<x>
static int x, **y; => static int<x><**y>
static extern int x; => no tree
int static x; => no tree
static x; => no tree
int int T; => no tree
register int x; => no tree
struct s; => struct s
struct T x; => struct T<x>
struct s { int a; } x, *y; => struct s{int<a>;}<x><*y>
struct { int a; }; => struct {int<a>;}
struct s { }; => no tree
struct; => no tree
struct s { int T; }; => no tree
struct s { T a, *b[2]; }; => struct s{#T<a><*b[2]>;}
struct s { int a; T b; } const x; => no tree
struct s { struct { int a; } b; enum { A } c; }; => struct s{struct {int<a>;}<b>;enum {A}<c>;}
struct s { int; }; => no tree
struct s { struct { int a; }; }; => no tree
struct s { int a : 3; }; => no tree
struct s { int a = 1; }; => no tree
struct s { int a(); }; => no tree
struct s { static int a; }; => no tree
union u x; => no tree
enum e { A, B = 2, }; => enum e{A,B=2,,}
enum { A } x; => enum {A}<x>
enum e x; => enum e<x>
enum { }; => no tree
enum { , }; => no tree
enum { T }; => no tree
enum { A = 1, 2 }; => no tree
enum; => no tree
"#;

// Parameters, array parts and initialisers, at file scope.
static DECLARATORS: &str = r#"
int f(); => int<f()>
int f(void); => int<f(void)>
int f(void, int); => int<f(void<>,int<>)>
int f(void *); => int<f(void<*>)>
int f(int, ...); => int<f(int<>,...)>
int f(...); => no tree
int f(int,); => no tree
int f(int, ...; => no tree
int f(int *, char [3]); => int<f(int<*>,char<[3]>)>
int *f(T a, struct s *b, enum e c[]), g(); => int<*f(#T<a>,struct s<*b>,enum e<c[]>)><g()>
int f(int T); => no tree
int f(a); => no tree
int f(struct s { int a; } x); => no tree
int f(int a = 1); => no tree
int f(int g()); => no tree
int f(static int a); => no tree
int f()[2]; => no tree
int (*f)(int); => no tree
int (a); => no tree
int f(a) int a; {} => no tree
int a[]; => int<a[]>
int a[2][3]; => int<a[2][3]>
int *a[]; => int<*a[]>
int a[2; => no tree
int a[b, c]; => no tree
int a = 1, b; => int<a=1><b>
int a[] = {1, 2,}; => int<a[]={1,2,,}>
int a = {}; => int<a={}>
int a = {,}; => no tree
int a = {1 2}; => no tree
int a = ; => no tree
int a = {{1}, {{2}, 3}}; => int<a={{1},{{2},3}}>
struct s a = {.a = 1, [2].b[3] = {4}}; => struct s<a={.a=1,[2].b[3]={4}}>
struct s a = {.T = 1}; => struct s<a={.T=1}>
struct s a = {.a 1}; => no tree
struct s a = {= 1}; => no tree
int a = {1;}; => no tree
int f() = 1; => int<f()=1>
_Static_assert(1, "x"); => no tree
_Alignas(8) int x; => no tree
=> no tree
"#;

// In a block.
static LOCAL: &str = r#"
int x = 1, *y; => int<x=1><*y>
static T x[2]; => static #T<x[2]>
struct s x; => struct s<x>
extern int x; => no tree
typedef int x; => no tree
struct s { int a; } x; => no tree
int f(); => no tree
int; => no tree
"#;

// What stands before the body of a function, and how many tokens stand behind it.
static FRONTS: &str = r#"
static int *f(int a, T b) { => static int<*f(int<a>,#T<b>)> before 1
int f() { => int<f()> before 1
int f { => no tree
int f(); => no tree
int x = 1, f() { => no tree
struct s { int a; } f() { => no tree
"#;

/// A name or a number; other expressions have their tests with the reader of expressions.
fn add_value(bytes: &[u8], e: &Expr, out: &mut Vec<u8>) {
    match &e.form {
        ExprForm::Name(at) | ExprForm::Number(at) => add(out, at.text(bytes)),
        _ => add(out, b"?"),
    }
}

fn add_optional(bytes: &[u8], at: Option<Span>, out: &mut Vec<u8>) {
    match at {
        None => {}
        Some(at) => add(out, at.text(bytes)),
    }
}

fn add_part(bytes: &[u8], part: &Dimension, out: &mut Vec<u8>) {
    add(out, b"[");
    if let Dimension::Sized(e) = part {
        add_value(bytes, e, out);
    }
    add(out, b"]")
}

fn add_designator(bytes: &[u8], part: &Desig, out: &mut Vec<u8>) {
    match part {
        Desig::Dot(at) => {
            add(out, b".");
            add(out, at.text(bytes))
        }
        Desig::At(e) => {
            add(out, b"[");
            add_value(bytes, e, out);
            add(out, b"]")
        }
    }
}

#[cycle(initial)]
fn add_item(bytes: &[u8], item: &Item, room: u32, out: &mut Vec<u8>) {
    for part in item.path.as_slice() {
        add_designator(bytes, part, out);
    }
    if item.path.len() > 0 {
        add(out, b"=");
    }
    add_initial(bytes, &item.init, room, out)
}

/// An initialiser, as far as `room` goes.
#[cycle(initial)]
fn add_initial(bytes: &[u8], init: &Init, room: u32, out: &mut Vec<u8>) {
    match init {
        Init::Plain(e) => add_value(bytes, e, out),
        Init::Braces(list, comma) => {
            let mut between: &[u8] = b"{";
            if list.len() == 0 {
                add(out, between);
            }
            for item in list.as_slice() {
                add(out, between);
                between = b",";
                if room > 0 {
                    add_item(bytes, item, room - 1, out);
                }
            }
            add(out, if *comma { b",,}" } else { b"}" })
        }
    }
}

/// A base without braces.
fn add_unbraced_base(bytes: &[u8], form: &BaseForm, out: &mut Vec<u8>) {
    match form {
        BaseForm::Words(words) => {
            let mut between: &[u8] = b"";
            for word in words.as_slice() {
                add(out, between);
                add(out, spelling(*word));
                between = b" ";
            }
        }
        BaseForm::StructRef(tag) => {
            add(out, b"struct ");
            add(out, tag.text(bytes))
        }
        BaseForm::EnumRef(tag) => {
            add(out, b"enum ");
            add(out, tag.text(bytes))
        }
        BaseForm::Named(at) => {
            add(out, b"#");
            add(out, at.text(bytes))
        }
        _ => add(out, b"!"),
    }
}

fn add_parameter(bytes: &[u8], param: &Param, out: &mut Vec<u8>) {
    add_unbraced_base(bytes, &param.base.form, out);
    add(out, b"<");
    add_name(bytes, &param.declr, out);
    if let Tail::Arrays(list) = &param.declr.tail {
        for part in list.as_slice() {
            add_part(bytes, part, out);
        }
    }
    add(out, b">")
}

fn add_tail(bytes: &[u8], tail: &Tail, out: &mut Vec<u8>) {
    match tail {
        Tail::Arrays(list) => {
            for part in list.as_slice() {
                add_part(bytes, part, out);
            }
        }
        Tail::Unspecified => add(out, b"()"),
        Tail::NoParams => add(out, b"(void)"),
        Tail::Params(list, more) => {
            let mut between: &[u8] = b"(";
            for param in list.as_slice() {
                add(out, between);
                add_parameter(bytes, param, out);
                between = b",";
            }
            add(out, if *more { b",...)" } else { b")" })
        }
    }
}

fn add_name(bytes: &[u8], declr: &Declr, out: &mut Vec<u8>) {
    for _ in 0..declr.stars {
        add(out, b"*");
    }
    add_optional(bytes, declr.name, out)
}

fn add_declarator(bytes: &[u8], declr: &Declr, out: &mut Vec<u8>) {
    add(out, b"<");
    add_name(bytes, declr, out);
    add_tail(bytes, &declr.tail, out);
    if let Some(init) = &declr.init {
        add(out, b"=");
        add_initial(bytes, init, 400, out);
    }
    add(out, b">")
}

fn add_enumerator(bytes: &[u8], part: &Enumr, out: &mut Vec<u8>) {
    add(out, part.name.text(bytes));
    if let Some(value) = &part.value {
        add(out, b"=");
        add_value(bytes, value, out);
    }
}

#[cycle(base)]
fn add_member(bytes: &[u8], member: &Member, room: u32, out: &mut Vec<u8>) {
    add_base(bytes, &member.base.form, room, out);
    for declr in member.list.as_slice() {
        add_declarator(bytes, declr, out);
    }
    add(out, b";")
}

/// A base, as far as `room` goes.
#[cycle(base)]
fn add_base(bytes: &[u8], form: &BaseForm, room: u32, out: &mut Vec<u8>) {
    match form {
        BaseForm::StructDef(tag, list) => {
            add(out, b"struct ");
            add_optional(bytes, *tag, out);
            add(out, b"{");
            for member in list.as_slice() {
                if room > 0 {
                    add_member(bytes, member, room - 1, out);
                }
            }
            add(out, b"}")
        }
        BaseForm::EnumDef(tag, list, comma) => {
            add(out, b"enum ");
            add_optional(bytes, *tag, out);
            let mut between: &[u8] = b"{";
            for part in list.as_slice() {
                add(out, between);
                add_enumerator(bytes, part, out);
                between = b",";
            }
            add(out, if *comma { b",,}" } else { b"}" })
        }
        _ => add_unbraced_base(bytes, form, out),
    }
}

fn storage_text(storage: Option<Storage>) -> &'static [u8] {
    match storage {
        None => b"",
        Some(Storage::Typedef) => b"typedef ",
        Some(Storage::Extern) => b"extern ",
        Some(Storage::Static) => b"static ",
    }
}

fn shape(bytes: &[u8], tree: &Declaration, out: &mut Vec<u8>) {
    add(out, storage_text(tree.storage));
    add_base(bytes, &tree.base.form, 400, out);
    for declr in tree.list.as_slice() {
        add_declarator(bytes, declr, out);
    }
}

/// The lexemes of a text; none of one that is too long.
fn lexemes(alloc: Global, text: &str) -> Result<Vec<Lexeme>, NoMemory> {
    let list = tokens(alloc, text.as_bytes())?;
    lexemes_of(alloc, text.as_bytes(), list.as_slice())
}

/// The tree that some tokens begin with, and where it ends.
fn tree_of(
    alloc: Global,
    bytes: &[u8],
    list: &[Token],
    form: Form,
) -> Result<(Declaration, usize), Parse> {
    if list.len() > 16_777_216 {
        return Err(Parse::NoTree);
    }
    let names = names(alloc)?;
    match form {
        Form::File => decl(alloc, bytes, list, &names, 0, true),
        Form::Local => decl(alloc, bytes, list, &names, 0, false),
        Form::Front => front(alloc, bytes, list, &names, 0),
        Form::Nodes => decl(alloc, bytes, list, &names, list.len().min(1), true),
    }
}

/// That tree in a box, which is let go at once.
fn boxed_tree(
    alloc: Global,
    bytes: &[u8],
    list: &[Token],
    form: Form,
) -> Result<(Boxed<Declaration>, usize), Parse> {
    let (tree, end) = tree_of(alloc, bytes, list, form)?;
    Ok((Boxed::new(alloc, tree)?, end))
}

fn add_node(node: &Node, out: &mut Vec<u8>) {
    add_number(out, b" ", node.number);
    add_span(out, b":", node.span);
}

/// The numbers and the spans of the nodes of a declaration of objects with expressions as initialisers: its base, and
/// of each declarator the initialiser and itself.
fn add_nodes(tree: &Declaration, out: &mut Vec<u8>) {
    add_node(&tree.base.node, out);
    for declr in tree.list.as_slice() {
        if let Some(Init::Plain(value)) = &declr.init {
            add_node(&value.node, out);
        }
        add_node(&declr.node, out);
    }
}

/// Adds what a tree is.
fn add_said(bytes: &[u8], tree: &Declaration, form: Form, out: &mut Vec<u8>) {
    match form {
        Form::File | Form::Local | Form::Front => {
            add(out, b" ");
            shape(bytes, tree, out)
        }
        Form::Nodes => add_nodes(tree, out),
    }
}

/// Adds what that tree is, and says where it ends; nothing where there is none.
fn add_tree(
    alloc: Global,
    bytes: &[u8],
    list: &[Token],
    form: Form,
    out: &mut Vec<u8>,
) -> Option<usize> {
    match boxed_tree(alloc, bytes, list, form) {
        Ok((tree, end)) => {
            add_said(bytes, tree.get(), form, out);
            Some(end)
        }
        Err(Parse::NoTree) => {
            add(out, b" no tree");
            None
        }
        Err(Parse::NoMemory) => {
            add(out, b" no memory");
            None
        }
    }
}

/// Adds what the tree is that a text begins with, and how many tokens stand behind it, where any do.
fn add_whole(alloc: Global, bytes: &[u8], form: Form, out: &mut Vec<u8>) {
    match tokens(alloc, bytes) {
        Ok(list) => match add_tree(alloc, bytes, list.as_slice(), form, out) {
            Some(end) if end != list.len() => {
                let left = list.len().saturating_sub(end);
                add_number(out, b" before ", u32::try_from(left).unwrap_or(u32::MAX))
            }
            Some(_) | None => {}
        },
        Err(_) => add(out, b" no memory"),
    }
}

struct AtFileScope;

impl Says for AtFileScope {
    fn say(alloc: Global, text: &str, out: &mut Vec<u8>) {
        add_whole(alloc, text.as_bytes(), Form::File, out)
    }
}

struct InABlock;

impl Says for InABlock {
    fn say(alloc: Global, text: &str, out: &mut Vec<u8>) {
        add_whole(alloc, text.as_bytes(), Form::Local, out)
    }
}

struct Fronts;

impl Says for Fronts {
    fn say(alloc: Global, text: &str, out: &mut Vec<u8>) {
        add_whole(alloc, text.as_bytes(), Form::Front, out)
    }
}

#[test]
fn reads_bases(rt: HostRuntime) {
    check::<AtFileScope>(&rt, rt.alloc(), BASES, EACH_LINE, 45);
}

#[test]
fn reads_declarators(rt: HostRuntime) {
    check::<AtFileScope>(&rt, rt.alloc(), DECLARATORS, EACH_LINE, 41);
}

#[test]
fn reads_local_declarations(rt: HostRuntime) {
    check::<InABlock>(&rt, rt.alloc(), LOCAL, EACH_LINE, 8);
}

#[test]
fn reads_fronts(rt: HostRuntime) {
    check::<Fronts>(&rt, rt.alloc(), FRONTS, EACH_LINE, 6);
}

/// `int a = ` with so many braces in one another, up to the `;`.
fn nested(alloc: Global, count: usize) -> Vec<u8> {
    let mut text = Vec::new(alloc);
    add(&mut text, b"int a = ");
    for _ in 0..count {
        let _ = text.push(b'{');
    }
    for _ in 0..count {
        let _ = text.push(b'}');
    }
    let _ = text.push(b';');
    text
}

/// Whether such a declaration has no tree.
fn is_too_deep(alloc: Global, count: usize) -> bool {
    let text = nested(alloc, count);
    let mut out = Vec::new(alloc);
    add_whole(alloc, text.as_slice(), Form::File, &mut out);
    out.as_slice() == b" no tree".as_slice()
}

/// Whether such a declaration is read whole.
fn is_read(alloc: Global, count: usize) -> bool {
    let text = nested(alloc, count);
    let mut out = Vec::new(alloc);
    match tokens(alloc, text.as_slice()) {
        Ok(list) => {
            add_tree(
                alloc,
                text.as_slice(),
                list.as_slice(),
                Form::File,
                &mut out,
            ) == Some(list.len())
        }
        Err(_) => false,
    }
}

#[test]
fn stops_at_the_greatest_height(rt: HostRuntime) {
    assert!(rt; is_read(rt.alloc(), 399));
    assert!(rt; is_too_deep(rt.alloc(), 400));
    assert!(rt; is_too_deep(rt.alloc(), 200_000));
}

/// How many lexemes stand behind a tree that was read.
fn left(alloc: Global, found: Result<LeadingDeclaration, Parse>) -> Option<usize> {
    match found {
        Ok(LeadingDeclaration { tree, rest }) => {
            let _boxed = Boxed::new(alloc, tree);
            Some(rest.len())
        }
        Err(_) => None,
    }
}

/// How many lexemes stand behind a declaration in a block, as deep as `room`, or behind the front of a function.
fn left_within(
    alloc: Global,
    text: &str,
    room: usize,
    is_front: bool,
) -> Result<Option<usize>, NoMemory>
    requires { room ≤ most_nesting }
{
    let list = lexemes(alloc, text)?;
    let names = names(alloc)?;
    let bytes = text.as_bytes();
    if is_front {
        Ok(left(
            alloc,
            front_within(alloc, bytes, &names, room, list.as_slice()),
        ))
    } else {
        Ok(left(
            alloc,
            declaration_within(alloc, bytes, &names, false, room, list.as_slice()),
        ))
    }
}

#[test]
fn reads_what_stands_in_front(rt: HostRuntime) {
    assert!(rt; left_within(rt.alloc(), "T a; b = 1;", 1, false) == Ok(Some(4)));
    assert!(rt; left_within(rt.alloc(), "T a; b = 1;", 0, false) == Ok(None));
    assert!(rt; left_within(rt.alloc(), "T a() { }", 1, true) == Ok(Some(2)));
}

struct Nodes;

impl Says for Nodes {
    fn say(alloc: Global, text: &str, out: &mut Vec<u8>) {
        add_whole(alloc, text.as_bytes(), Form::Nodes, out)
    }
}

// The nodes of the declaration that begins with the second token.
static NODES: &str = "
; static  T *a [2] = b ; => 0:10-11 0:21-22 0:12-22
";

#[test]
fn sets_the_span_of_each_node(rt: HostRuntime) {
    check::<Nodes>(&rt, rt.alloc(), NODES, EACH_LINE, 1);
}
