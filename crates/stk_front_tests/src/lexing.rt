//! Texts with their tokens and places, worked out by hand from the classes and the line markers.
ghost use Rattle.std.specs.Prelude.{◌≤◌, length};

use crate::reading_texts::tokens;
use crate::tables::{BEFORE, Says, add, add_number, add_span, check};
use std::alloc::Global;
use stk_base::{Class, MOST_BYTES, Place};
use stk_lex::{Places, Token, place};

// Each text, with the class, the beginning and the end of each of its tokens: W is a word, N a number, C a character,
// T a text, M a punctuator, S a stray byte or an open quote.
static TABLE: &str = "
| -- white space, words and numbers
| =>
| \x20\t\n\r\x0b\x0c =>
| int_9 _x => W0-5 W6-8
| 9x_y => N0-4
| .5 => N0-2
| ..5 => M0-1 N1-3
| a.5.b => W0-1 N1-5
| 0x1e+2 => N0-6
| 1e+ => N0-3
| 1e+-2 => N0-3 M3-4 N4-5
| 0x1.p-4P+ => N0-9
| 1f+2 => N0-2 M2-3 N3-4
| x+++y 0x1e+2 'a => W0-1 M1-3 M3-4 W4-5 N6-12 S13-15
| a\r\nb\r\n => W0-1 W3-4
| -- characters, texts and open quotes
| L'a' => C0-4
| u'b'U'c' => C0-4 C4-8
| u8\"x\" => T0-5
| u8'x' => W0-2 C2-5
| U\"x\"u\"\" => T0-4 T4-7
| uL\"a\" => W0-2 T2-5
| L 'a' => W0-1 C2-5
| L\"a => W0-1 S1-3
| ' => S0-1
| '' => C0-2
| '\\'' => C0-4
| '\\ => S0-2
| '\\' => S0-3
| \"a\\\"b\" => T0-6
| \"\\\\\"x => T0-4 W4-5
| \"a\nb\" => S0-2 W3-4 S4-5
| \"\\\n\" => S0-2 S3-4
| 'a\r\nb => S0-3 W4-5
| 'a\"b' \"it's\" => C0-5 T6-12
| '/*\n*/ => S0-3 M4-5 M5-6
| -- punctuators, digraphs and other bytes
| >>= => M0-3
| <<=<<< => M0-3 M3-5 M5-6
| ... => M0-3
| .. => M0-1 M1-2
| .... => M0-3 M3-4
| ->- => M0-2 M2-3
| ->* => M0-2 M2-3
| !==&&& => M0-2 M2-3 M3-5 M5-6
| [a](b){} => M0-1 W1-2 M2-3 M3-4 W4-5 M5-6 M6-7 M7-8
| %:%: => S0-4
| %:% => S0-2 M2-3
| <: => S0-2
| <:: => S0-2 M2-3
| <::> => S0-2 S2-4
| <%%>%= => S0-2 S2-4 M4-6
| @ => S0-1
| a$b => W0-1 S1-2 W2-3
| \\ => S0-1
| \0` => S0-1 S1-2
| -- comments
| a/*b*/c => W0-1 W6-7
| /**/ =>
| /***/x => W5-6
| /*/ => S0-3
| /*/ */x => W6-7
| a /* b\nc => W0-1 S2-8
| a// => W0-1
| a // b\nc => W0-1 W7-8
| // /*\nx => W6-7
| /* \"*/ \"x\" => T7-10
| \"/*\"x*/ => T0-4 W4-5 M5-6 M6-7
| /*\n# 1\n*/x => W9-10
| -- directive lines
| # =>
| # 3 \"f.c\"\nint => W10-13
| \x20\t\r\x0b\x0c# x\ny => W9-10
| /* */ # 1 => S6-7 N8-9
| a # x\nb => W0-1 S2-3 W4-5 W6-7
| x##y => W0-1 S1-2 S2-3 W3-4
| # /* x\ny */ => W7-8 M9-10 M10-11
| #define A \\\nb => W12-13";

/// The letter of a class, with a blank before it.
fn letter(class: Class) -> &'static [u8] {
    match class {
        Class::Word => b" W",
        Class::Number => b" N",
        Class::Character => b" C",
        Class::Text => b" T",
        Class::Punctuator => b" M",
        Class::Stray => b" S",
    }
}

struct Tokens;

impl Says for Tokens {
    fn say(alloc: Global, text: &str, out: &mut Vec<u8>) {
        add_cut(alloc, text.as_bytes(), out)
    }
}

/// Adds the tokens of a text.
fn add_cut(alloc: Global, text: &[u8], out: &mut Vec<u8>) {
    match tokens(alloc, text) {
        Ok(tokens) => add_tokens(tokens.as_slice(), out),
        Err(_) => add(out, b" no memory"),
    }
}

fn add_tokens(tokens: &[Token], out: &mut Vec<u8>) {
    for token in tokens {
        add_span(out, letter(token.class), token.span);
    }
}

#[test]
fn cuts_texts(rt: HostRuntime) {
    check::<Tokens>(&rt, rt.alloc(), TABLE, BEFORE, 73);
}

/// Whether bytes that are no characters are tokens of one byte each.
fn cut_bytes(alloc: Global) -> bool {
    let mut out = Vec::new(alloc);
    add_cut(alloc, b"\x80\xc3\xff", &mut out);
    out.as_slice() == b" S0-1 S1-2 S2-3".as_slice()
}

#[test]
fn cuts_other_bytes(rt: HostRuntime) {
    assert!(rt; cut_bytes(rt.alloc()));
}

// Each text, with `^` before the byte whose place is asked for, the span of the file's name there, and the line and the
// column.
static PLACES: &str = "
| -- no marker
| ^ => none 1:1
| int x;\n^y => none 2:1
| int x;\ny^ => none 2:2
| -- one, and places on its own line
| # 5 \"a.c\"\n^x y => 5-8 5:1
| # 5 \"a.c\"\nx ^y => 5-8 5:3
| # 5 \"a.c\"^\nx y => none 1:10
| # 5 ^\"a.c\"\nx y => none 1:5
| # 5 \"a.c\"^ => none 1:10
| -- several
| # 5 \"a\"\n^x\n# 70 \"bc\"\ny\n\nz => 5-6 5:1
| # 5 \"a\"\nx\n^# 70 \"bc\"\ny\n\nz => 5-6 6:1
| # 5 \"a\"\nx\n# 70 \"bc^\"\ny\n\nz => 5-6 6:9
| # 5 \"a\"\nx\n# 70 \"bc\"\n^y\n\nz => 16-18 70:1
| # 5 \"a\"\nx\n# 70 \"bc\"\ny\n\n^z => 16-18 72:1
| # 5 \"a\"\nx\n# 70 \"bc\"\ny\n\nz^ => 16-18 72:2
| -- in a comment, behind a token, and lines of a comment
| /*\n# 5 \"a\"\n*/^x => none 3:3
| x # 5 \"a\"\n^y => none 2:1
| # 5 \"a\"\n/*\n*/^x => 5-6 6:3
| -- names
| # 1 \"a\\\"b\"\n^x => 5-9 1:1
| # 3 \"\"\n^x => 5-5 3:1
| # 5 \"a\n^x => none 2:1
| # 5 a\n^x => none 2:1
| -- numbers
| # 0 \"a\"\n^x => 5-6 0:1
| # 999999999 \"f\"\n\n^x => 13-14 1000000000:1
| # 1000000000 \"f\"\n^x => none 2:1
| # \"a\"\n^x => none 2:1
| -- spaces, and what stands behind the name
| #5 \"a\"\n^x => none 2:1
| # 5\"a\"\n^x => none 2:1
| #line 5 \"a\"\n^x => none 2:1
|  #\t5 \t\"a\" 1 3\n^x => 7-8 5:1
| # 5 \"a\"\r\n^x\r\ny => 5-6 5:1
| # 5 \"a\"\r\nx\r\n^y => 5-6 6:1";

/// Adds a place.
fn add_place(at: &Place, out: &mut Vec<u8>) {
    match at.file {
        Some(span) => add_span(out, b" ", span),
        None => add(out, b" none"),
    }
    add_number(out, b" ", at.line);
    add_number(out, b":", at.column);
}

/// Adds the place of a byte, and whether the table of places says another one.
fn add_places(alloc: Global, text: &[u8], at: usize, out: &mut Vec<u8>) {
    if text.len() as u64 > MOST_BYTES || at > text.len() {
        return;
    }
    let found = place(text, at);
    add_place(&found, out);
    match Places::new(alloc, text) {
        Ok(places) => add_other(&places, at, &found, out),
        Err(_) => add(out, b" no memory"),
    }
}

/// Adds the place that a table of places says of a byte, where it is another one.
fn add_other(places: &Places, at: usize, found: &Place, out: &mut Vec<u8>)
    requires { at ≤ length places.now }
{
    let other = places.place(at);
    if other != *found {
        add_place(&other, out);
    }
}

struct Placed;

impl Says for Placed {
    fn say(alloc: Global, text: &str, out: &mut Vec<u8>) {
        let mut whole = Vec::new(alloc);
        let mut at = 0;
        for byte in text.as_bytes() {
            if *byte == b'^' {
                at = whole.len();
            } else {
                add(&mut whole, &[*byte]);
            }
        }
        add_places(alloc, whole.as_slice(), at, out)
    }
}

#[test]
fn finds_places(rt: HostRuntime) {
    check::<Placed>(&rt, rt.alloc(), PLACES, BEFORE, 31);
}

/// 400 times the same two lines.
fn long_text(alloc: Global) -> Vec<u8> {
    let mut text = Vec::new(alloc);
    for _ in 0..400 {
        add(&mut text, b"# 5 \"a\"\nx\n");
    }
    text
}

/// Whether a byte of the long text has this place.
fn is_in_long_text(alloc: Global, at: usize, wanted: &[u8]) -> bool {
    let text = long_text(alloc);
    let mut out = Vec::new(alloc);
    add_places(alloc, text.as_slice(), at, &mut out);
    out.as_slice() == wanted
}

#[test]
fn finds_places_of_a_long_text(rt: HostRuntime) {
    assert!(rt; long_text(rt.alloc()).len() == 4000);
    assert!(rt; is_in_long_text(rt.alloc(), 3998, b" 3995-3996 5:1"));
    assert!(rt; is_in_long_text(rt.alloc(), 1008, b" 1005-1006 5:1"));
    assert!(rt; is_in_long_text(rt.alloc(), 1010, b" 1005-1006 6:1"));
}
