// What stands between tokens: white space, comments and directive lines.

ghost use Rattle.std.specs.Prelude.{◌≡◌, ℕ, ◌≤◌, ◌<◌, ◌^◌, ◌==◌, ◌&&◌, length, true, cond, take, drop};
ghost use Rattle.stk_lex.specs.Gaps.{is_blank, line, begins, one_more, comment, only_blanks, gap_at, gap};

pub(crate) fn is_blank(b: u8) -> bool
    ensures { result ≡ is_blank b }
{
    b == b' ' || b == b'\t' || b == b'\r' || b == 11 || b == 12
}

/// How many bytes stand before the next newline, or before the end.
#[tactic(auto, unfolding(crate::specs::Gaps::line))]
pub(crate) fn line(bytes: &[u8]) -> usize
    ensures within { result ≤ length bytes.now }
    ensures value { result ≡ line bytes.now }
{
    let mut n = 0;
    let mut rest = bytes;
    while let Some((b, behind)) = rest.split_first() {
        if *b == b'\n' {
            return n;
        }
        n += 1;
        rest = behind;
    }
    n
}

pub(crate) fn begins(a: u8, bytes: &[u8]) -> bool
    ensures { result ≡ begins a bytes.now }
{
    match bytes.split_first() {
        Some((b, _)) => *b == a,
        None => false,
    }
}

fn ends_comment(b: u8, behind: &[u8]) -> bool
    ensures { result ≡ (b == 42 && begins 47 behind.now) }
{
    b == b'*' && begins(b'/', behind)
}

/// How many bytes stand up to the end of the next `*/`; 0 where there is none.
#[tactic(auto, unfolding(crate::specs::Gaps::comment))]
fn comment(bytes: &[u8]) -> usize
    ensures within { result ≤ length bytes.now }
    ensures value { result ≡ comment bytes.now }
{
    let mut n = 0;
    let mut rest = bytes;
    while let Some((b, behind)) = rest.split_first() {
        if ends_comment(*b, behind) {
            return n + 2;
        }
        n += 1;
        rest = behind;
    }
    0
}

/// Two more, where there is something.
fn two_more(n: usize) -> usize
    requires { n < 2 ^ 63 }
    ensures { result ≡ one_more (one_more n) }
{
    if n > 0 { n + 2 } else { 0 }
}

/// Whether only blanks stand before a place on its line. It looks back to the last byte that is no blank.
fn only_blanks(bytes: &[u8], at: usize) -> bool
    requires { at ≤ length bytes.now }
    ensures { result ≡ only_blanks true (take at bytes.now) }
{
    let mut place = at;
    while place > 0 {
        let b = bytes[place - 1];
        if b == b'\n' {
            return true;
        }
        if !is_blank(b) {
            return false;
        }
        place -= 1;
    }
    true
}

/// How long the gap is that begins at a place; 0 where none begins there.
pub(crate) fn gap(bytes: &[u8], at: usize) -> usize
    requires { at ≤ length bytes.now }
    ensures within { result ≤ length (drop at bytes.now) }
    ensures value { result ≡ gap bytes.now at }
{
    let (_, rest) = bytes.split_at(at);
    match rest.split_first() {
        Some((b, behind)) => {
            if is_blank(*b) || *b == b'\n' {
                1
            } else if *b == b'/' && begins(b'*', behind) {
                two_more(comment(&behind[1..]))
            } else if *b == b'/' && begins(b'/', behind) {
                line(rest)
            } else if *b == b'#' && only_blanks(bytes, at) {
                line(rest)
            } else {
                0
            }
        }
        None => 0,
    }
}
