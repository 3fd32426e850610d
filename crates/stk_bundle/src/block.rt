// Lines of a text, and blocks of lines.
ghost use Rattle.std.specs.Prelude.{◌≡◌, ◌++◌, ◌<◌, MatchOption};
ghost use Rattle.stk_bundle.specs.Blocks.{line_count, IsBlock};

use stk_line_reading::first_line;

/// How many lines a text has, those that a newline ends.
pub fn line_count(text: &[u8]) -> usize
    ensures { result ≡ line_count text.now }
{
    text.iter().filter(|byte| **byte == b'\n').count()
}

/// The first lines of a text, so many, each with its newline, and what comes behind them; `None` exactly where there
/// are fewer.
pub(crate) fn block_of(text: &[u8], lines: u64) -> Option<(&[u8], &[u8])>
    ensures { MatchOption result (line_count text.now < lines) (λ p. (text.now ≡ p.0.now ++ p.1.now) × IsBlock lines p.0.now) }
{
    let mut rest = text;
    let mut left = lines;
    while left > 0 {
        let Some((_, behind)) = first_line(rest) else {
            return None;
        };
        rest = behind;
        left -= 1;
    }
    Some(text.split_at(text.len() - rest.len()))
}
