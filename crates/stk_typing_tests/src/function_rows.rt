//! Functions whose bodies are typed. An `@` stands before the first node that a rule refuses, and is no part of the
//! text; beside the text stands the lowest rule that refuses this node. A function without an `@` is accepted.

/// What is declared before each function.
pub(crate) static FIRST: &str =
    "int one(int); void none(void); int many(); struct point { int x; char mark; int at[2]; struct point *next; }; struct hidden; struct hidden *veiled; struct point here; extern int row[]; enum shade { DARK, PALE }; typedef int count; void taking(struct point); ";

/// Names, types and objects.
pub(crate) static DECLARED: &str = r#"
-- names that aren't declared, or no longer
int f(int a) { return @b; } => rule 1
int f(int a) { { int b; } return @b; } => rule 1
int f(void) { for (int i = 0; i < 2; i++) ; return @i; } => rule 1
int f(int a) { return @later(a); } => rule 1
int f(int a) { return (@struct nowhere *) 0 == 0; } => rule 1
int f(count a) { count *p = &a; return *p; } => accepted
-- a register in its own initialiser, and an object that is none
int f(void) { int b = @b; return b; } => rule 1
int f(void) { int b = sizeof b; return b; } => accepted
int f(void) { int *b = &b == 0 ? 0 : 0; return b == 0; } => accepted
-- words that name no type
int f(int a) { @short long b; return a; } => rule 2
int f(int a) { return (@signed unsigned) a; } => rule 2
int f(int a) { return (long unsigned int long) a; } => accepted
-- a name twice in a block, and in two
int f(int a) { int @a; return 1; } => rule 3
int f(void) { int b; char @b; return 1; } => rule 3
int f(void) { int b, @b; return 1; } => rule 3
int f(int a) { { int a = 2; return a; } } => accepted
int f(int a) { for (int a = 0; a; ) { int a = 1; return a; } return a; } => accepted
int f(void) { int f = 1; return f; } => accepted
-- types that aren't complete
int f(void *p) { return @*p; } => rule 4
int f(struct hidden *p) { return sizeof @*p; } => rule 4
int f(struct hidden *p) { return @p + 1 == p; } => rule 4
int f(struct hidden *p) { return @p->x; } => rule 4
int f(void) { return @veiled - veiled; } => rule 4
int f(void) { return @sizeof(void); } => rule 4
int f(void) { void @b; return 1; } => rule 4
int f(void) { struct hidden @b; return 1; } => rule 4
int f(void) { int @b[]; return 1; } => rule 4
int f(void) { return row[1]; } => accepted
int f(void *p) { return p + 1 == p; } => accepted
int f(int b[]) { return b[0]; } => accepted
int f(void) { static int b[] = { 1, 2 }; return b[1]; } => accepted
-- sizes and labels that aren't constant
int f(int a) { int @b[a]; return 1; } => rule 5
int f(void) { int @b[0]; return 1; } => rule 5
-- a local whose type can't be made, in its own initialiser
int f(int a) { int @b[0] = { b + 1 }; return a; } => rule 5
int f(int a) { int @b[0] = { sizeof b }; return a; } => rule 5
int f(int a) { char @b[3000000000] = { b[0] }; return a; } => rule 5
int f(int a) { int @b[a] = { b[0] }; return a; } => rule 5
int f(int a) { int @b[][] = { b[0][0] }; return a; } => rule 4
int f(int a) { return sizeof(@int[a]); } => rule 5
int f(int a) { switch (a) { @case a: ; } return 0; } => rule 5
int f(int a) { switch (a) { @case 1 / 0: ; } return 0; } => rule 5
int f(int a) { switch (a) { case sizeof(int) + PALE: return 1; } return 0; } => accepted
-- initialisers
int f(void) { int @b = { 1 }; return b; } => rule 16
int f(void) { int @b[2] = 1; return 1; } => rule 16
int f(void) { int @b[2] = "ab"; return 1; } => rule 16
int f(void) { static int @b = { 1 }; return b; } => rule 16
int f(void) { struct point @b = 1; return 1; } => rule 16
int f(void) { char b[3] = { "ab" }; return 1; } => accepted
int f(void) { struct point b = { 1, 2, { 3, 4 }, 0 }; return b.x; } => accepted
int f(int *p) { int b[2] = { *p, p[1] }; return b[0]; } => accepted
int f(void) { static int b = elsewhere; return b; } => accepted
"#;

/// Expressions.
pub(crate) static EXPRESSIONS: &str = r#"
-- operands of the wrong type
int f(int *p) { return @p * 2; } => rule 6
int f(int *p) { return @p + p == p; } => rule 6
int f(int a) { return @*a; } => rule 6
int f(int a) { return @a[1]; } => rule 6
int f(int a) { return @a.x; } => rule 6
int f(struct point *p) { return @p.x; } => rule 6
int f(int *p) { return @~p == 0; } => rule 6
int f(int a) { return @a ? none() : 1; } => rule 6
int f(int a) { a ? none() : none(); return 1; } => accepted
int f(int *p) { return !p; } => accepted
int f(int *p, char *q) { return (1 ? p : q) == 0; } => accepted
-- what can't be assigned, and what has no address
int f(int a) { @(a, a) = 2; return a; } => rule 7
int f(int a) { return @&(a + 1) == 0; } => rule 7
int f(int a) { @++(a++); return a; } => rule 7
int f(void) { @DARK = 1; return 1; } => rule 7
int f(void) { int b[2]; @b = 0; return 1; } => rule 6
int f(int a) { (a) = 2; return a; } => accepted
-- calls and functions
int f(int a) { return @a(1); } => rule 8
int f(void) { return @one(); } => rule 8
int f(int a) { return @one(a, a); } => rule 8
int f(int a) { return (@one)(a); } => rule 8
int f(int a) { return @one == 0; } => rule 8
int f(void) { return &@one == 0; } => rule 8
int f(int a) { int one = 1; return @one(a); } => rule 8
int f(int a) { return one(one(a)); } => accepted
int f(int a) { @taking(a); return a; } => rule 6
int f(int a) { return many(1, 2, &a); } => accepted
-- structs as values
int f(struct point *p) { struct point @b = *p; return 1; } => rule 9
int f(struct point *p) { @here = *p; return 1; } => rule 6
int f(struct point *p) { return @many(*p); } => rule 9
int f(struct point *p) { return (*p).x + p->at[1]; } => accepted
int f(struct point *p) { return sizeof *p == 24; } => accepted
-- members
int f(struct point *p) { return @p->z; } => rule 10
int f(struct point *p) { return @(*p).z; } => rule 10
int f(struct point *p) { return p->next->next->x; } => accepted
-- constants
int f(void) { return @09; } => rule 11
int f(void) { return @2.5; } => rule 11
int f(void) { return @'xy'; } => rule 11
int f(void) { return @"\777"[0]; } => rule 11
int f(void) { return @0b11; } => rule 11
int f(void) { return @1uu; } => rule 11
int f(void) { return @18446744073709551616u == 0; } => rule 11
int f(void) { return 18446744073709551615u == 0; } => accepted
int f(void) { return 0x7fLL + 017 + 'x' + "\377"[0]; } => accepted
int f(int a) { return (a, a); } => accepted
"#;

/// Statements.
pub(crate) static STATEMENTS: &str = r#"
-- tests that are no scalars
int f(int a) { @if (none()) ; return a; } => rule 6
int f(struct point *p) { @if (*p) return 1; return 0; } => rule 6
int f(int a) { @while (none()) ; return a; } => rule 6
int f(int a) { @do ; while (none()); return a; } => rule 6
int f(int a) { @for (; none(); ) ; return a; } => rule 6
int f(int *p) { @switch (p) { } return 1; } => rule 6
int f(int *p) { @switch (p) { case 1: case 1: ; } return 1; } => rule 6
int f(int a) { @return none(); } => rule 6
int f(int a) { for (none(); a; none()) ; return a; } => accepted
int f(int *p) { if (p) while (p) p = 0; return 1; } => accepted
-- structs that are discarded or returned
int f(struct point *p) { @*p; return 1; } => rule 9
int f(struct point *p) { @for (*p; 0; ) ; return 1; } => rule 9
int f(struct point *p) { @for (; 0; *p) ; return 1; } => rule 9
int f(struct point *p) { @return *p; } => rule 9
struct point f(char c) { @return 1; } => rule 6
int f(struct point *p) { (*p).x; ; return 1; } => accepted
-- labels that stand twice
int f(int a) { switch (a) { @case 1: case 1: ; } return a; } => rule 12
int f(int a) { switch (a) { case 1: ; @case 1: ; } return a; } => rule 12
int f(int a) { switch (a) { default: ; @default: ; } return a; } => rule 12
int f(unsigned a) { switch (a) { case -1: ; @case 4294967295: ; } return 0; } => rule 12
int f(_Bool a) { switch (a) { case 7: ; @case 3 + 4: ; } return 0; } => rule 12
int f(int a) { switch (a) { case 2: case 1: ; default: case 3: ; @case 0: default: ; } return 0; } => rule 12
int f(unsigned char a) { switch (a) { case 1: ; case 257: ; } return 0; } => accepted
int f(long a) { switch (a) { case -1: ; case 0xffffffff: ; } return 0; } => accepted
int f(int a) { switch (a) { case 1: switch (a) { case 1: ; default: ; } default: ; } return 0; } => accepted
-- a label that isn't constant beside one that stands twice
int f(int a) { switch (a) { case 1: ; @case a: case 1: ; } return 0; } => rule 5
-- nothing to leave
int f(int a) { @break; return a; } => rule 13
int f(int a) { @continue; return a; } => rule 13
int f(int a) { if (a) @break; return 1; } => rule 13
int f(int a) { switch (a) { case 1: @continue; } return 1; } => rule 13
int f(int a) { while (a) { break; } @continue; return a; } => rule 13
int f(int a) { while (a) { switch (a) { case 1: continue; default: break; } } return 1; } => accepted
int f(int a) { do { if (a) break; else continue; } while (a); for (;;) { break; continue; } return 1; } => accepted
-- results
void f(int a) { @return a; } => rule 14
int f(int a) { @return; } => rule 14
void f(int a) { return; } => accepted
int *f(int a) { return a; } => accepted
int f(int *p) { return p; } => accepted
void f(void) { none(); } => accepted
static int f(int a) { return a; } => accepted
-- the lowest of several rules at a node
int f(int a) { int @b[][0]; return a; } => rule 4
void f(int a) { @return none(); } => rule 14
-- the first of several nodes
int f(int a) { return @b + c; } => rule 1
int f(void *p) { for (none(); @*p; *p) ; return 1; } => rule 4
int f(int a) { while (@b) break; return c; } => rule 1
int f(int a) { if (a) @break; else a = c; return a; } => rule 13
int f(int a) { do return @c; while (b); } => rule 1
"#;
