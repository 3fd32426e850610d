// How long the longest text of a class is at the front of some bytes; 0 where there is none.

ghost use Rattle.std.specs.Prelude.{◌≡◌, ℕ, ◌≤◌, ◌<◌, ◌^◌, ◌==◌, ◌&&◌, length, false, cond};
ghost use Rattle.stk_lex.specs.Classes.{begins_word, is_word_byte, may_follow, is_prefix, is_punctuator_of_one, is_punctuator_of_two, is_punctuator_of_three, is_digraph_of_two, is_digraph_of_four};
ghost use Rattle.std.specs.List.{list_any};
ghost use Rattle.stk_lex.specs.Gaps.{one_more};
ghost use Rattle.stk_lex.specs.Lengths.{word_run, word_length, number_run, digits_length, dotted_length, number_length, closing, quoted_length, marked_length, utf8_length, character_length, text_length, fixed_length, punctuator_length, digraph_length};

fn begins_word(b: u8) -> bool
    ensures { result ≡ begins_word b }
{
    b.is_ascii_alphabetic() || b == b'_'
}

fn is_word_byte(b: u8) -> bool
    ensures { result ≡ is_word_byte b }
{
    begins_word(b) || b.is_ascii_digit()
}

fn may_follow(before: u8, b: u8) -> bool
    ensures { result ≡ may_follow before b }
{
    let is_exponent = before == b'e' || before == b'E' || before == b'p' || before == b'P';
    is_word_byte(b) || b == b'.' || is_exponent && (b == b'+' || b == b'-')
}

/// How many word bytes stand at the front.
#[tactic(auto, unfolding(crate::specs::Lengths::word_run))]
fn word_run(bytes: &[u8]) -> usize
    ensures within { result ≤ length bytes.now }
    ensures value { result ≡ word_run bytes.now }
{
    let mut n = 0;
    let mut rest = bytes;
    while let Some((b, behind)) = rest.split_first() {
        if !is_word_byte(*b) {
            return n;
        }
        n += 1;
        rest = behind;
    }
    n
}

pub(crate) fn word_length(bytes: &[u8]) -> usize
    ensures within { result ≤ length bytes.now }
    ensures value { result ≡ word_length bytes.now }
{
    match bytes.split_first() {
        Some((b, behind)) => {
            if begins_word(*b) {
                word_run(behind) + 1
            } else {
                0
            }
        }
        None => 0,
    }
}

/// How many bytes of a number stand at the front, behind a byte of it.
#[tactic(auto, unfolding(crate::specs::Lengths::number_run))]
fn number_run(first: u8, bytes: &[u8]) -> usize
    ensures within { result ≤ length bytes.now }
    ensures value { result ≡ number_run first bytes.now }
{
    let mut n = 0;
    let mut before = first;
    let mut rest = bytes;
    while let Some((b, behind)) = rest.split_first() {
        if !may_follow(before, *b) {
            return n;
        }
        n += 1;
        before = *b;
        rest = behind;
    }
    n
}

fn digits_length(bytes: &[u8]) -> usize
    ensures within { result ≤ length bytes.now }
    ensures value { result ≡ digits_length bytes.now }
{
    match bytes.split_first() {
        Some((b, behind)) => {
            if b.is_ascii_digit() {
                number_run(*b, behind) + 1
            } else {
                0
            }
        }
        None => 0,
    }
}

/// One more, where there is something.
fn one_more(n: usize, ok: bool) -> usize
    requires { n < 2 ^ 63 }
    ensures { result ≡ cond ok (one_more n) 0 }
{
    if ok && n > 0 { n + 1 } else { 0 }
}

pub(crate) fn number_length(bytes: &[u8]) -> usize
    ensures within { result ≤ length bytes.now }
    ensures value { result ≡ number_length bytes.now }
{
    let dotted = match bytes.split_first() {
        Some((b, behind)) => one_more(digits_length(behind), *b == b'.'),
        None => 0,
    };
    digits_length(bytes).max(dotted)
}

/// How long a text is up to its closing quote, and with it.
#[tactic(auto, unfolding(crate::specs::Lengths::closing))]
pub(crate) fn closing(quote: u8, bytes: &[u8]) -> usize
    ensures within { result ≤ length bytes.now }
    ensures value { result ≡ closing quote false bytes.now }
{
    let mut n = 0;
    let mut escaped = false;
    let mut rest = bytes;
    while let Some((b, behind)) = rest.split_first() {
        if !escaped && *b == quote {
            return n + 1;
        }
        if *b == b'\n' {
            return 0;
        }
        n += 1;
        escaped = !escaped && *b == b'\\';
        rest = behind;
    }
    0
}

fn quoted_length(quote: u8, bytes: &[u8]) -> usize
    ensures within { result ≤ length bytes.now }
    ensures value { result ≡ quoted_length quote bytes.now }
{
    match bytes.split_first() {
        Some((b, behind)) => {
            if *b == quote {
                one_more(closing(quote, behind), true)
            } else {
                0
            }
        }
        None => 0,
    }
}

fn is_prefix(b: u8) -> bool
    ensures { result ≡ is_prefix b }
{
    b == b'L' || b == b'u' || b == b'U'
}

fn marked_length(quote: u8, bytes: &[u8]) -> usize
    ensures within { result ≤ length bytes.now }
    ensures value { result ≡ marked_length is_prefix quote bytes.now }
{
    match bytes.split_first() {
        Some((b, behind)) => one_more(quoted_length(quote, behind), is_prefix(*b)),
        None => 0,
    }
}

/// The same of `8`.
fn eight_length(quote: u8, bytes: &[u8]) -> usize
    ensures within { result ≤ length bytes.now }
    ensures value { result ≡ marked_length (λ c. c == 56) quote bytes.now }
{
    match bytes.split_first() {
        Some((b, behind)) => one_more(quoted_length(quote, behind), *b == b'8'),
        None => 0,
    }
}

fn utf8_length(quote: u8, bytes: &[u8]) -> usize
    ensures within { result ≤ length bytes.now }
    ensures value { result ≡ utf8_length quote bytes.now }
{
    match bytes.split_first() {
        Some((b, behind)) => one_more(eight_length(quote, behind), *b == b'u'),
        None => 0,
    }
}

pub(crate) fn character_length(bytes: &[u8]) -> usize
    ensures within { result ≤ length bytes.now }
    ensures value { result ≡ character_length bytes.now }
{
    quoted_length(b'\'', bytes).max(marked_length(b'\'', bytes))
}

pub(crate) fn text_length(bytes: &[u8]) -> usize
    ensures within { result ≤ length bytes.now }
    ensures value { result ≡ text_length bytes.now }
{
    let plain = quoted_length(b'"', bytes);
    plain
        .max(marked_length(b'"', bytes))
        .max(utf8_length(b'"', bytes))
}

fn punctuator_of_one(bytes: &[u8]) -> usize
    ensures within { result ≤ length bytes.now }
    ensures value { result ≡ fixed_length is_punctuator_of_one 1 bytes.now }
{
    match bytes {
        [a, ..] => {
            if b"[](){}.&*+-~!/%<>^|?:;=,".contains(a) {
                1
            } else {
                0
            }
        }
        [] => 0,
    }
}

fn punctuator_of_two(bytes: &[u8]) -> usize
    ensures within { result ≤ length bytes.now }
    ensures value { result ≡ fixed_length is_punctuator_of_two 2 bytes.now }
{
    match bytes {
        [a, b, ..] => { if is_pair(&MARKS_OF_TWO, *a, *b) { 2 } else { 0 } }
        _ => 0,
    }
}

const MARKS_OF_TWO: [(u8, u8); 19] = [
    (b'-', b'>'),
    (b'+', b'+'),
    (b'-', b'-'),
    (b'<', b'<'),
    (b'>', b'>'),
    (b'<', b'='),
    (b'>', b'='),
    (b'=', b'='),
    (b'!', b'='),
    (b'&', b'&'),
    (b'|', b'|'),
    (b'*', b'='),
    (b'/', b'='),
    (b'%', b'='),
    (b'+', b'='),
    (b'-', b'='),
    (b'&', b'='),
    (b'^', b'='),
    (b'|', b'='),
];

const DIGRAPHS: [(u8, u8); 5] = [
    (b'<', b':'),
    (b':', b'>'),
    (b'<', b'%'),
    (b'%', b'>'),
    (b'%', b':'),
];

fn is_pair(pairs: &[(u8, u8)], a: u8, b: u8) -> bool
    ensures { result ≡ list_any (λ m. m.0 == a && m.1 == b) pairs.now }
{
    pairs.iter().any(|m| m.0 == a && m.1 == b)
}

const MARKS_OF_THREE: [(u8, u8, u8); 3] = [
    (b'.', b'.', b'.'),
    (b'<', b'<', b'='),
    (b'>', b'>', b'='),
];

fn is_triple(triples: &[(u8, u8, u8)], a: u8, b: u8, c: u8) -> bool
    ensures { result ≡ list_any (λ m. m.0 == a && m.1 == b && m.2 == c) triples.now }
{
    triples.iter().any(|m| m.0 == a && m.1 == b && m.2 == c)
}

fn punctuator_of_three(bytes: &[u8]) -> usize
    ensures within { result ≤ length bytes.now }
    ensures value { result ≡ fixed_length is_punctuator_of_three 3 bytes.now }
{
    match bytes {
        [a, b, c, ..] => {
            if is_triple(&MARKS_OF_THREE, *a, *b, *c) {
                3
            } else {
                0
            }
        }
        _ => 0,
    }
}

pub(crate) fn punctuator_length(bytes: &[u8]) -> usize
    ensures within { result ≤ length bytes.now }
    ensures value { result ≡ punctuator_length bytes.now }
{
    punctuator_of_one(bytes)
        .max(punctuator_of_two(bytes))
        .max(punctuator_of_three(bytes))
}

fn digraph_of_two(bytes: &[u8]) -> usize
    ensures within { result ≤ length bytes.now }
    ensures value { result ≡ fixed_length is_digraph_of_two 2 bytes.now }
{
    match bytes {
        [a, b, ..] => { if is_pair(&DIGRAPHS, *a, *b) { 2 } else { 0 } }
        _ => 0,
    }
}

fn digraph_of_four(bytes: &[u8]) -> usize
    ensures within { result ≤ length bytes.now }
    ensures value { result ≡ fixed_length is_digraph_of_four 4 bytes.now }
{
    match bytes {
        [a, b, c, d, ..] => {
            if *a == b'%' && *b == b':' && *c == b'%' && *d == b':' {
                4
            } else {
                0
            }
        }
        _ => 0,
    }
}

pub(crate) fn digraph_length(bytes: &[u8]) -> usize
    ensures within { result ≤ length bytes.now }
    ensures value { result ≡ digraph_length bytes.now }
{
    digraph_of_two(bytes).max(digraph_of_four(bytes))
}
