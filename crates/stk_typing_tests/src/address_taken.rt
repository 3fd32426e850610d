use crate::names_taken::{Asked, noted};
use crate::tables::{EACH_LINE, Says, add, add_number, check};
use std::alloc::Global;
use std::test::Fail;
use stk_address_taken::NodeSet;

// Functions with the numbers of the declarators that are taken. Nodes are numbered from 0, children first: a base, and
// of each parameter the base, the declarator and the parameter, then the declarator of the function.
static TAKEN: &str = r#"
int f(int x) { return x; } =>
int f(int x) { return *&x; } => 2
int f(int x, int y) { return &y == &x; } => 5 2
int f(int x) { return *&(x); } => 2
int f(int x) { return *&y; } =>
int f(int *x) { return *&*x; } =>
int f(int x) { int *p = &x; return *p; } => 2
int f(int x) { static int *p = &x; return *p; } =>
int f(int x) { int x; { int x; &x; } return 0; } => 8
int f(int x) { { int x; } &x; return 0; } => 2
int f(void) { for (int i = 0; i < 3; i++) g(&i); return 0; } => 4
int f(int x) { return sizeof &x; } => 2
"#;

// Functions with the numbers of the declarators of their `static` objects.
static STATICS: &str = r#"
int f(int x) { int n; return n; } =>
int f(int x) { static int n; return n; } => 6
int f(int x) { int n; { static int n, m; } return n; } => 8 9
int f(void) { static int a, b; { static int c; } for (;;) { static int d; } } => 3 4 6 9
int f(int x) { switch (x) { case 1: { static int n; } } return 0; } => 8
"#;

// Adds the numbers of the declarators that are asked for.
fn add_noted(alloc: Global, text: &str, asked: Asked, out: &mut Vec<u8>) {
    match noted(alloc, text.as_bytes(), asked) {
        Ok(Some(found)) => add_numbers(found.as_slice(), out),
        Ok(None) => add(out, b" no function"),
        Err(_) => add(out, b" no memory"),
    }
}

fn add_numbers(numbers: &[u32], out: &mut Vec<u8>) {
    for number in numbers {
        add_number(out, b" ", i128::from(*number));
    }
}

struct Taken;

impl Says for Taken {
    fn say(alloc: Global, text: &str, out: &mut Vec<u8>) {
        add_noted(alloc, text, Asked::Taken, out)
    }
}

struct Statics;

impl Says for Statics {
    fn say(alloc: Global, text: &str, out: &mut Vec<u8>) {
        add_noted(alloc, text, Asked::Statics, out)
    }
}

#[test]
fn each_function_has_its_taken_names(rt: HostRuntime) {
    check::<Taken>(&rt, rt.alloc(), TAKEN, EACH_LINE, 12);
}

#[test]
fn each_function_has_its_statics(rt: HostRuntime) {
    check::<Statics>(&rt, rt.alloc(), STATICS, EACH_LINE, 5);
}

#[test]
fn a_set_has_its_nodes_alone(rt: HostRuntime) -> Result<(), Fail> {
    let list = Vec::from_slice(rt.alloc(), &[5, 2, 70_000])?;
    let set = NodeSet::of(rt.alloc(), list)?;
    for (node, wanted) in [
        (0, false),
        (2, true),
        (4, false),
        (5, true),
        (6, false),
        (69_999, false),
        (70_000, true),
        (70_001, false),
        (u32::MAX, false),
    ] {
        assert!(rt; set.has(node) == wanted, "{node}");
    }
    Ok(())
}
