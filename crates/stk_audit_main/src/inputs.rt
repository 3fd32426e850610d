//! The bundle and the source of an input.

ghost use Rattle.std.specs.Prelude.{◌++◌, ◌≡◌};
ghost use Rattle.stk_audit_main.specs.Parts.{IsSplit};

use stk_line_reading::first_line;

/// Cuts an input behind its first line `end`: the bundle up to there, and the source. Where no line is `end`, all of it
/// is the bundle.
pub(crate) fn split_input(text: &[u8]) -> (&[u8], &[u8])
    ensures { IsSplit text.now result.0.now result.1.now }
{
    let mut rest = text;
    while let Some((line, behind)) = first_line(rest) {
        rest = behind;
        if line == b"end".as_slice() {
            return text.split_at(text.len() - rest.len());
        }
    }
    text.split_at(text.len())
}
