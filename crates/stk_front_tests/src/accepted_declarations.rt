//! What declarations leave, told by which later ones agree with them.
ghost use Rattle.std.specs.Prelude.{◌≤◌, length};
ghost use Rattle.stk_base.specs.Limits.{most_bytes};

use crate::reading_texts::skimmed;
use crate::tables::{EACH_LINE, Says, add, add_number, check};
use std::alloc::Global;
use stk_accept::{Accepted, Refusal, accept};
use stk_ctype::Names;
use stk_lex::{Piece, Skimmed, Token, cut};

// Texts with their units that aren't accepted, in order: where the first token begins, where the refused node does, and
// the rule; 0 and 0 where there is no tree. The rules are those of C11 6.7 and 6.9 in the profile of this project, and
// the sizes those that gcc gives.
static TEXTS: &str = r#"
-- a name that isn't declared
int a[n]; => 0:6:1
-- a struct tag is declared by its use
struct s *p; struct s { int x; }; struct s v; =>
-- an enumeration's tag isn't
int f(enum e x); => 0:6:1
-- an initialiser isn't typed
int a = b; =>
-- a base that is a tag
enum e x; => 0:0:1
-- words that name no type
short long x; => 0:0:2
-- two signs
unsigned signed x; => 0:0:2
-- a kind of its own
_Bool int x; => 0:0:2
-- another type
int a; extern long a; => 7:19:3
-- the same type
int a; int a; extern int a; static int a; =>
-- another sort
int f(void); int f; => 13:17:3
-- a typedef name for an object
int a; typedef int a; => 7:19:3
-- other parameters
int f(void); int f(int); => 13:17:3
-- another result, before an unnamed parameter of a definition, an incomplete result and an array
int f(int); long f(int) { return 0; } => 12:17:3
struct s; int f(int); struct s f(int x) { return 0; } => 22:31:3
typedef int A[3]; int f(int); A f(int); => 30:32:3
-- no parameters given
int f(); int f(int); int f(); int f(long); => 30:34:3
-- a size that was unknown
extern int a[]; int a[3]; extern int a[]; extern int a[4]; => 42:53:3
-- an enumerator twice
enum { A }; enum { A }; => 12:12:3
-- an enumerator that is an object
int a; enum { a }; => 7:7:3
-- a member twice
struct s { int x; long x; }; => 0:23:3
-- parameters of one name
int f(int a, int a); => 0:17:3
-- a typedef name once more
typedef int T; typedef int T; => 15:0:0
-- void
void v; => 0:5:4
-- an incomplete struct
struct s v; => 0:9:4
-- an incomplete struct elsewhere
extern struct s v; extern int a[]; extern struct s w; =>
-- void elsewhere
extern void v; => 0:12:4
-- an unknown size
int a[]; => 0:4:4
-- an incomplete struct elsewhere, with an initialiser
struct s; extern struct s x = { 1 }; => 10:26:4
-- an unknown size within
extern int a[2][]; => 0:11:4
-- designators don't count
int a[] = { [1] = 1 }; => 0:4:4
-- items in braces and not
int a[] = { 1, { 2 } }; => 0:4:4
-- items that are arrays
int a[][2] = { 1, 2 }; => 0:4:4
-- items that count
int a[] = { 1, 2, 3 }; extern int a[3]; int b[][2] = { { 1 }, { 2 } }; extern int b[2][2]; =>
-- a missing size before a size of 0, but where it may be missing
int a[][0]; extern int b[][0]; => 0:4:4 12:23:5
struct s { int n; int a[][0]; }; struct t { int a[][0]; int n; }; => 0:22:5 33:48:4
-- a lone member of unknown size
struct s { int a[]; }; => 0:15:4
-- a member of unknown size that isn't last
struct s { int n; int a[]; int m; }; => 0:22:4
-- a last member of unknown size
struct s { int n; char a[]; }; char z[sizeof(struct s)]; extern char z[4]; =>
-- a struct in itself
struct s { struct s x; }; => 0:20:4
-- a pointer to the struct itself
struct s { struct s *next; int v; }; char z[sizeof(struct s)]; extern char z[16]; =>
-- a function that returns an array
typedef int A[3]; A f(void); => 18:20:4
-- a parameter of type void
int f(void v); => 0:11:4
-- an array of void
void a[3]; => 0:5:4
-- a function's type as a type of a member
typedef int F(int); struct s { F f; }; => 20:33:4
-- a function by its type
typedef int F(int); F f; int f(int); long f(int); => 37:42:3
-- no element
int a[0]; => 0:4:5
-- less than none
int a[-1]; => 0:4:5
-- a size that isn't constant
int b; int a[b]; => 7:11:5
-- too large
char a[2147483648]; => 0:5:5
-- just not too large
char a[2147483647]; long b[268435455]; long c[268435456]; => 39:44:5
-- a struct that is too large
struct s { char a[2147483647]; char b; }; => 0:0:5
-- an enumerator that is no int
enum { A = 2147483648 }; => 0:0:5
-- the enumerator behind the greatest
enum { A = 2147483647, B }; => 0:0:5
-- the least enumerator
enum { A = -2147483647 - 1, B }; char z[B + 2147483647 + 1]; extern char z[1]; =>
-- enumerators go on
enum e { A, B = 5, C, D = -3, E, }; char z[C + 4 + D]; extern char z[7]; char y[E + 3]; extern char y[1]; =>
-- a constant that violates a condition
int a[1 / 0]; => 0:4:5
-- one that isn't evaluated
int a[1 || 1 / 0]; extern int a[1]; int b[0 && 1 / 0 ? 1 : 2]; extern int b[2]; =>
-- a sum that overflows
int a[2147483647 + 1]; => 0:4:5
-- a converted constant
char a[(char)300]; extern char a[44]; char b['a']; extern char b[97]; =>
-- a comma
int a[(1, 2)]; => 0:4:5
-- an octal digit
int a[08]; => 0:6:11
-- no digit
int a[0x]; => 0:6:11
-- no kind holds it
int a[99999999999999999999]; => 0:6:11
-- two characters
int a['ab']; => 0:6:11
-- a parameter without a name
int f(int) { return 1; } => 0:4:15
-- a typedef of a definition
typedef int f(void) { return 1; } => 0:0:15
-- an unnamed one in a declaration
int f(int); =>
-- a struct that is returned
struct s; struct s f(void) { } => 10:19:4
-- braces for a scalar
int a = { 1 }; => 0:4:16
-- no braces for an array
int a[2] = 1; => 0:4:16
-- a string for no characters
int a[3] = "ab"; => 0:4:16
-- no braces for a struct
struct s { int x; }; struct s v = 1; => 21:30:16
-- a typedef with an initialiser
typedef int T = 1; => 0:12:16
-- a function with one
int f(void) = 0; => 0:4:16
-- a string that counts
char a[] = "a\0b" "c\x41"; extern char a[6]; =>
-- a struct defined twice
struct s { int x; }; struct s { int y; }; => 21:21:17
-- an enumeration defined twice
enum e { A }; enum e { B }; => 14:14:17
-- another kind of tag
struct s; enum s x; => 10:10:17
-- and the other way round
enum e { A }; struct e x; => 14:14:17
-- a definition with another kind of tag
enum e { A }; struct e { int x; }; => 14:14:17
-- a struct in the members of its own
struct s { struct s { int x; } a; }; => 0:0:17
-- members with gaps
struct d { char c; long l; short s; }; char z[sizeof(struct d)]; extern char z[24]; =>
-- arrays and structs in a struct
struct d { char c; long l; short s; }; struct e { char c; int n[3]; struct d d; char f; }; char z[sizeof(struct e)]; extern char z[48]; =>
-- a struct that is named later
struct s; struct s *p; struct s v; => 23:32:4
-- a tag that was used
struct s v; struct s { int x; }; struct s w; => 0:9:4
-- a struct whose members are refused
struct s { int x; void y; }; struct s { long x; }; char z[sizeof(struct s)]; extern char z[8]; => 0:23:4
-- enumerators before one that is refused
enum { A, B = 2147483648 }; int A; int B; => 0:0:5
-- declarators before one that is refused
int a, b[0]; long a; => 0:7:5
-- the head of a function whose definition is refused
int f(int) { return 1; } long f(int); => 0:4:15 25:30:3
-- the head of a function without a tree
int g(int x) { goto out; out: return x; } long g(int); => 0:0:0 42:47:3
-- a struct in the head of one
int g(struct s { int x; } *p) { goto out; } struct s v; => 0:0:0 44:53:4
-- a head that is refused
int g; int g(int x) { goto out; } long g; => 7:0:0 34:39:3
"#;

struct Refused;

impl Says for Refused {
    fn say(alloc: Global, text: &str, out: &mut Vec<u8>) {
        match skimmed(alloc, text.as_bytes()) {
            Ok(skimmed) => add_refused(alloc, text.as_bytes(), &skimmed, out),
            Err(_) => add(out, b" no memory"),
        }
    }
}

/// Adds the units that aren't accepted, of a text that was skimmed.
fn add_refused(alloc: Global, text: &[u8], skimmed: &Skimmed, out: &mut Vec<u8>) {
    if skimmed.tokens.len() > 16_777_216 {
        return add(out, b" too long");
    }
    match cut(alloc, text, skimmed) {
        Ok(pieces) => {
            let tokens = skimmed.tokens.as_slice();
            add_pieces(alloc, text, tokens, pieces.as_slice(), out)
        }
        Err(_) => add(out, b" no memory"),
    }
}

/// Adds those of some units that aren't accepted.
fn add_pieces(alloc: Global, text: &[u8], tokens: &[Token], pieces: &[Piece], out: &mut Vec<u8>)
    requires { length tokens.now ≤ most_bytes }
{
    let mut names = Names::new(alloc);
    for piece in pieces {
        match tokens.get(piece.from as usize..piece.to as usize) {
            Some(unit) => add_unit(alloc, text, unit, piece, &mut names, out),
            None => add(out, b" no tokens"),
        }
    }
}

/// Adds a unit, where it isn't accepted, and leaves its names.
fn add_unit(
    alloc: Global,
    text: &[u8],
    unit: &[Token],
    piece: &Piece,
    names: &mut Names,
    out: &mut Vec<u8>,
)
    requires { length unit.now ≤ most_bytes }
{
    let body = piece.body.map(|at| at.saturating_sub(piece.from) as usize);
    match accept(alloc, text, piece.no_return, unit, body, names) {
        Ok(Accepted::Tree(_)) => {}
        Ok(Accepted::Refused(refusal)) => add_refusal(unit, refusal, out),
        Err(_) => add(out, b" no memory"),
    }
}

fn add_refusal(unit: &[Token], refusal: Refusal, out: &mut Vec<u8>) {
    let (at, rule) = match refusal {
        Refusal::NoTree => (0, 0),
        Refusal::Rule { at, rule } => (at, u32::from(rule)),
    };
    if let Some(first) = unit.first() {
        add_number(out, b" ", first.span.from);
        add_number(out, b":", at);
        add_number(out, b":", rule);
    }
}

#[test]
fn declarations_are_refused_by_their_rules(rt: HostRuntime) {
    check::<Refused>(&rt, rt.alloc(), TEXTS, EACH_LINE, 93);
}
