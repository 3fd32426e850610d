use crate::declared::{add_agreement, add_declared};
use crate::initialised::{add_initialised, object_number};
use crate::tables::{EACH_LINE, Says, add, check};
use crate::typed_texts::add_typed;
use std::alloc::Global;

// In force are `int x`, `unsigned u`, `unsigned char c`, `long l`, `int *p`, `void *v` and `int a[3]`. The types and
// numbers are what C gives (checked with gcc, where C gives one); the rules are those of this profile. Behind a colon
// stands the number of a constant, or that it violates a condition.
static TABLE: &str = r#"
x => int lvalue
(c) => unsigned char lvalue
y => rule 1
x + c => int
c + c => int
u + x => unsigned int
l + u => long
c % x => int
u & l => long
c << l => int
u >> x => unsigned int
-c => int
~u => unsigned int
+l => long
!p => int
~p => rule 6
-p => rule 6
x < p => int
p == 0 => int
p && x => int
p + 1 => pointer to int
1 + p => pointer to int
p - x => pointer to int
1 - p => rule 6
p - p => long
p - v => rule 6
p + p => rule 6
v + 1 => pointer to void
p * 2 => rule 6
p << 1 => rule 6
*p => int lvalue
*v => rule 4
*x => rule 6
p[x] => int lvalue
v[0] => rule 4
x[p] => rule 6
a[1] => int lvalue
*a => int lvalue
a + 1 => pointer to int
&a => pointer to array of 3 int
&x => pointer to int
&*v => rule 4
&5 => rule 7
&(x + 1) => rule 7
x.m => rule 6
p->m => rule 6
v->m => rule 4
x = 2 => int
(x) = l => int
(x + 1) = 2 => rule 7
(x, x) = 1 => rule 7
a = 0 => rule 6
p = x => pointer to int
x += p => rule 6
p += 1 => pointer to int
p *= 2 => rule 6
c <<= l => unsigned char
x++ => int
--p => pointer to int
++(x++) => rule 7
a++ => rule 6
x ? p : 0 => pointer to int
x ? p : v => pointer to void
x ? (void *) 0 : p => pointer to int
x ? p : ((void *) 0) => pointer to int
x ? c : l => long
x ? a : v => pointer to void
x ? (void) x : (void) u => void
x ? (void) x : u => rule 6
(long) p => long
(void) p => void
(int *) l => pointer to int
(int[3]) x => rule 6
sizeof x => unsigned long
sizeof (void) => rule 4
sizeof (int[x]) => rule 5
sizeof (int[-1]) => rule 5
sizeof (unsigned signed) => rule 2
sizeof (struct s) => rule 1
sizeof (int[3][2]) => unsigned long: 24
sizeof (long long unsigned *) => unsigned long: 8
x(1) => rule 8
y(x, 1) => rule 1
x , p => pointer to int
1 << 31 => int: -2147483648
1 << 32 => int: violates
1u << 31 => unsigned int: 2147483648
2147483647 + 1 => int: violates
2147483647u + 1 => unsigned int: 2147483648
1 / 0 => int: violates
1 || 1 / 0 => int: 1
0 && 1 / 0 ? 1 : 2 => int: 2
1 ? 3 : 1 / 0 => int: 3
1 && x => int
-1 + 5u > 0 => int: 1
(char) 300 => char: 44
(_Bool) 300 => _Bool: 1
'a' => int: 97
'\377' => int: -1
4294967296 => long: 4294967296
0x80000000 => unsigned int: 2147483648
-2147483648 => long: -2147483648
~0u => unsigned int: 4294967295
-7 / 2 * 10 + -7 % 2 => int: -31
-8 >> 1 => int: -4
(1, 2) => int
08 => rule 11
"ab" "c" => array of 4 char lvalue
L'a' => rule 11
"#;

struct Expressions;

impl Says for Expressions {
    fn say(alloc: Global, text: &str, out: &mut Vec<u8>) {
        add(out, b" ");
        add_typed(alloc, text.as_bytes(), out)
    }
}

#[test]
fn each_expression_has_its_type(rt: HostRuntime) {
    check::<Expressions>(&rt, rt.alloc(), TABLE, EACH_LINE, 109);
}

// Types of objects with initialisers, and the rule that is broken; nothing where none is.
static INITIALISERS: &str = r#"
int: x =>
int: y => rule 1
int: {x} => rule 16
int: (void) x => rule 6
int *: a =>
int *: "ab" =>
int [3]: {x, 2} =>
int [3]: {{x}} =>
int [3]: {[1] = x} =>
int [3]: {[y] = x} => rule 1
int [3]: x => rule 16
int [3]: "ab" => rule 16
char [3]: "ab" =>
char [3]: ("ab") => rule 16
char [3]: {'a', 0} =>
"#;

struct Initialisers;

impl Says for Initialisers {
    fn say(alloc: Global, text: &str, out: &mut Vec<u8>) {
        match text.split_once(": ") {
            Some((object, initialiser)) => match object_number(object) {
                Some(object) => add_initialised(alloc, object, initialiser, out),
                None => add(out, b" no object"),
            },
            None => add(out, b" no object"),
        }
    }
}

#[test]
fn each_initialiser_fits_or_breaks_its_rule(rt: HostRuntime) {
    check::<Initialisers>(&rt, rt.alloc(), INITIALISERS, EACH_LINE, 15);
}

// Declarations, and what their first declarators declare.
static DECLARED: &str = r#"
int x; => int
long *x[2]; => array of 2 pointer to long
int x[2][3]; => array of 2 array of 3 int
int x[]; => array of int
int x[][3]; => array of array of 3 int
int x[2][]; => rule 4
void x[2]; => rule 4
int x[0]; => rule 5
int x[1 / 0]; => rule 5
int x[2147483647]; => rule 5
int x[y]; => rule 1
unsigned signed x; => rule 2
char x[] = "abc"; => array of 4 char
char x[] = "a\0b" "c"; => array of 5 char
char x[] = {"abc"}; => array of 1 char
char x[] = "\q"; => array of char
int x[] = {1, 2, 3}; => array of 3 int
int x[] = {1, {2}}; => array of int
int x[] = {[2] = 1}; => array of int
int x[] = {}; => rule 5
int x[][2] = {{1, 2}, {3}}; => array of 2 array of 2 int
int x[][2] = {1, 2}; => array of array of 2 int
int x[3] = {1}; => array of 3 int
int f(void); => function of 0
int f(); => function of 0 and more
int f(int a[3], char *, ...); => function of 2 and more
int f(void x); => rule 4
int f(int a, int a); => rule 3
int f(int n, int a[n]); => rule 5
int f(int n, char a[sizeof(int)], int n); => rule 3
int f(struct s x); => rule 1
int f(int a[0]); => rule 5
int *f(int a[], int b[][2]); => function of 2
"#;

struct Declared;

impl Says for Declared {
    fn say(alloc: Global, text: &str, out: &mut Vec<u8>) {
        add(out, b" ");
        add_declared(alloc, text.as_bytes(), out)
    }
}

#[test]
fn each_declarator_declares_its_type(rt: HostRuntime) {
    check::<Declared>(&rt, rt.alloc(), DECLARED, EACH_LINE, 33);
}

// Two declarations, and how the types of their first declarators agree: the old one or the new one holds, or they
// differ.
static AGREEMENTS: &str = r#"
int x; and int x; => old
int x; and long x; => differ
long x; and long long x; => differ
int *x; and int x[3]; => differ
int x[]; and int x[3]; => new
int x[3]; and int x[]; => old
int x[3]; and int x[4]; => differ
int x[]; and long x[3]; => differ
int *x[3]; and int *x[3]; => old
int f(int); and int f(int a); => old
int f(); and int f(long); => new
int f(long); and int f(); => old
int f(int); and int f(int, ...); => differ
int f(int a[3], int); and int f(int *, int b); => old
int f(int, int); and int f(int); => differ
int f(void); and long f(void); => differ
"#;

struct Agreements;

impl Says for Agreements {
    fn say(alloc: Global, text: &str, out: &mut Vec<u8>) {
        match text.split_once(" and ") {
            Some((old, new)) => add_agreement(alloc, old.as_bytes(), new.as_bytes(), out),
            None => add(out, b" no declarations"),
        }
    }
}

#[test]
fn declarations_agree_as_they_should(rt: HostRuntime) {
    check::<Agreements>(&rt, rt.alloc(), AGREEMENTS, EACH_LINE, 16);
}
