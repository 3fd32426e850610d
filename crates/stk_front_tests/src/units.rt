//! Texts with what skimming leaves of them and with their units, worked out by hand from the rules.
use crate::reading_texts::skimmed;
use crate::tables::{BEFORE, EACH_LINE, Says, add, add_number, check};
use std::alloc::Global;
use stk_lex::{Piece, Skimmed, cut};

// Each text, the tokens that are kept, with a blank between them, and the notes.
static SKIMMED: &str = "
| => =>
| -- dropped words
| auto const inline register restrict _Noreturn x => x => 36
| __const __const__ __extension__ __inline __inline__ __restrict __restrict__ x => x =>
| volatile static extern Const const_ \"const\" 'c' => volatile static extern Const const_ \"const\" 'c' =>
| int f(const int x); => int f ( int x ) ; =>
| /* const */ const//const\nx => x =>
| -- groups of attributes
| int f() __attribute__((pure)); => int f ( ) ; =>
| __attribute ((pure, const)) int x; => int x ; =>
| f(__attribute__((unused)) x) => f ( x ) =>
| __attribute__(()) __attribute__() x => x =>
| __attribute__((a(b[c]){d}))x => x =>
| __attribute__(x] y => y =>
| __attribute__((__packed)) x => x =>
| __attribute__((\"packed\")) x => x =>
| -- no group, or one without end
| __attribute__ => __attribute__ =>
| __attribute__ x (y) => __attribute__ x ( y ) =>
| __attribute__[x] y => __attribute__ [ x ] y =>
| __attribute__((const) x => __attribute__ ( ( ) x =>
| __attribute__(__attribute__(x) y => __attribute__ ( y =>
| -- attributes that change what is declared
| __attribute__((a(packed))) const x => __attribute__ ( ( a ( packed ) ) ) x =>
| __attribute__((packed, __attribute__((pure)) x)) => __attribute__ ( ( packed , x ) ) =>
| __attribute__((pure)) __attribute__((mode(x))) => __attribute__ ( ( mode ( x ) ) ) =>
| __attribute__((pure)) packed => packed =>
| -- assembly
| int f() asm(\"g\"); => int f ( ) ; =>
| __asm(\"a\") __asm__((\"b\")) x => x =>
| { asm(\"a\"); } => { asm ( \"a\" ) ; } =>
| (x) asm(packed) => ( x ) =>
| asm volatile(\"a\") => asm volatile ( \"a\" ) =>
| } asm(\"a\") x => } x =>
| } { asm(\"a\") => } { asm ( \"a\" ) =>
| -- notes
| void f() __attribute__((noreturn)); _Noreturn void g(); => void f ( ) ; void g ( ) ; => 9 36
| \x20__attribute__((a(__noreturn__))) x => x => 1
| struct s { __attribute__((noreturn)) x; _Noreturn y; }; => struct s { x ; y ; } ; =>
| __attribute__((noreturn, packed)) x => __attribute__ ( ( noreturn , packed ) ) x =>
| asm(noreturn) x => x =>
| __attribute__((_Noreturn)) x => x =>
| __attribute__((noreturn_)) x => x =>
| _Noreturn _Noreturn => => 0 10";

// Each attribute that changes what is declared, and what is kept of a text with it: all tokens, without notes.
static CHANGING: &str = "
packed => __attribute__ ( ( noreturn , packed ) ) x =>
aligned => __attribute__ ( ( noreturn , aligned ) ) x =>
mode => __attribute__ ( ( noreturn , mode ) ) x =>
vector_size => __attribute__ ( ( noreturn , vector_size ) ) x =>
cleanup => __attribute__ ( ( noreturn , cleanup ) ) x =>
transparent_union => __attribute__ ( ( noreturn , transparent_union ) ) x =>
__packed__ => __attribute__ ( ( noreturn , __packed__ ) ) x =>
__aligned__ => __attribute__ ( ( noreturn , __aligned__ ) ) x =>
__mode__ => __attribute__ ( ( noreturn , __mode__ ) ) x =>
__vector_size__ => __attribute__ ( ( noreturn , __vector_size__ ) ) x =>
__cleanup__ => __attribute__ ( ( noreturn , __cleanup__ ) ) x =>
__transparent_union__ => __attribute__ ( ( noreturn , __transparent_union__ ) ) x =>
";

// Each text, with its units: the first token and the one behind the last, behind `{` the body's first token, and `!`
// where the unit is marked.
static UNITS: &str = "
| =>
| const =>
| ;; => 0-1 1-2
| -- prototypes and definitions
| int f(void); => 0-6
| int f(void) { return 1; } => 0-10{5
| int f(){} int g(){;} int h(){} => 0-6{4 6-13{10 13-19{17
| int f(void) { { x; } } y; => 0-11{5 11-13
| int f(void) { x;  => 0-8{5
| int f(a) int a; { } => 0-8 8-10
| -- structs
| struct s { int a; }; => 0-8
| struct s { int a; } x; int y; => 0-9 9-12
| struct { int a; } f(void) { } => 0-12{10
| int f(struct s { int a; } x); => 0-13
| struct __attribute__((packed)) { int a; } x; => 0-12{7 12-14
| -- initialisers
| int a[] = { 1, 2 }; int b; => 0-11 11-14
| int x = (int) { 1 }; => 0-9{6 9-10
| -- brackets
| for (;;) x; y => 0-7 7-8
| ( [ { ) ] } ; => 0-7
| ( ) { [ ( ) } ) } => 0-9{2
| a ) { } b => 0-4{2 4-5
| { a; } b; => 0-4 4-6
| } ; } x; => 0-2 2-5
| int x; int y => 0-3 3-5
| -- marked units
| _Noreturn void f(void); void g(void); => 0-6! 6-12
| void f(void); _Noreturn void g(void); => 0-6 6-12!
| void f(void) __attribute__((noreturn)); void g(void); => 0-6! 6-12
| void f(void) {} _Noreturn void g(void) {} => 0-7{5 7-14{12!
| void f(void) { _Noreturn x; } void g(void); => 0-9{5 9-15
| void f(void) _Noreturn; => 0-6!
| void f(void); _Noreturn => 0-6
| a; _Noreturn _Noreturn b; c _Noreturn => 0-2 2-4! 4-5";

/// Adds the tokens that are kept, and the notes.
fn add_kept(text: &[u8], skimmed: &Skimmed, out: &mut Vec<u8>) {
    for token in skimmed.tokens.as_slice() {
        add(out, b" ");
        add(out, token.span.text(text));
    }
    add(out, b" =>");
    for note in skimmed.notes.as_slice() {
        add_number(out, b" ", *note);
    }
}

/// Adds what skimming leaves of a text.
fn add_skimmed(alloc: Global, text: &[u8], out: &mut Vec<u8>) {
    match skimmed(alloc, text) {
        Ok(skimmed) => add_kept(text, &skimmed, out),
        Err(_) => add(out, b" no memory"),
    }
}

struct Kept;

impl Says for Kept {
    fn say(alloc: Global, text: &str, out: &mut Vec<u8>) {
        add_skimmed(alloc, text.as_bytes(), out)
    }
}

#[test]
fn skims_texts(rt: HostRuntime) {
    check::<Kept>(&rt, rt.alloc(), SKIMMED, BEFORE, 38);
}

struct Changing;

impl Says for Changing {
    fn say(alloc: Global, text: &str, out: &mut Vec<u8>) {
        let mut whole = Vec::new(alloc);
        add(&mut whole, b"__attribute__ ( ( noreturn , ");
        add(&mut whole, text.as_bytes());
        add(&mut whole, b" ) ) x ");
        add_skimmed(alloc, whole.as_slice(), out)
    }
}

#[test]
fn keeps_attributes_that_change(rt: HostRuntime) {
    check::<Changing>(&rt, rt.alloc(), CHANGING, EACH_LINE, 12);
}

struct Units;

impl Says for Units {
    fn say(alloc: Global, text: &str, out: &mut Vec<u8>) {
        match skimmed(alloc, text.as_bytes()) {
            Ok(skimmed) => add_units(alloc, text.as_bytes(), &skimmed, out),
            Err(_) => add(out, b" no memory"),
        }
    }
}

/// Adds the units of a text that was skimmed.
fn add_units(alloc: Global, text: &[u8], skimmed: &Skimmed, out: &mut Vec<u8>) {
    if skimmed.tokens.len() > 16_777_216 {
        return add(out, b" too long");
    }
    match cut(alloc, text, skimmed) {
        Ok(pieces) => add_pieces(pieces.as_slice(), out),
        Err(_) => add(out, b" no memory"),
    }
}

fn add_pieces(pieces: &[Piece], out: &mut Vec<u8>) {
    for piece in pieces {
        add_number(out, b" ", piece.from);
        add_number(out, b"-", piece.to);
        if let Some(body) = piece.body {
            add_number(out, b"{", body);
        }
        if piece.no_return {
            add(out, b"!");
        }
    }
}

#[test]
fn cuts_units(rt: HostRuntime) {
    check::<Units>(&rt, rt.alloc(), UNITS, BEFORE, 31);
}
