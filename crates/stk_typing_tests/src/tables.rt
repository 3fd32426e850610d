//! Tables as texts, each row with a text and what is to be said of it.
//!
//! A text is one value, and what is found is written out and compared as a text, so a table costs its proof little,
//! however many rows it has.
use itoa::Buffer;
use std::alloc::Global;
use std::process::Abort;

/// What stands before each row of a table.
pub(crate) const EACH_LINE: &str = "\n";

/// What is said of a text, each word of it behind a blank.
pub(crate) trait Says {
    fn say(alloc: Global, text: &str, out: &mut Vec<u8>);
}

/// Adds a text. Where there is no memory for it, it is left out, and then the test that wants it fails.
pub(crate) fn add(out: &mut Vec<u8>, text: &[u8]) {
    let _ = out.extend_from_slice(text);
}

/// Adds a number in digits, behind a text.
pub(crate) fn add_number(out: &mut Vec<u8>, before: &[u8], number: i128) {
    let mut buffer = Buffer::new();
    add(out, before);
    add(out, buffer.format(number).as_bytes());
}

/// What stands before the first ` =>` of a row, and what stands behind it.
fn columns(row: &str) -> Option<(&str, &str)> {
    row.split_once(" =>")
}

/// Whether of the text of a row that is said which stands beside it.
fn is_said<S: Says>(alloc: Global, row: &str) -> bool {
    let Some((text, wanted)) = columns(row) else {
        return false;
    };
    let mut out = Vec::new(alloc);
    S::say(alloc, text, &mut out);
    out.as_slice() == wanted.as_bytes()
}

/// Whether a part of a table is no row: it is empty, or says behind `-- ` what the rows below it show.
fn is_note(row: &str) -> bool {
    row.is_empty() || row.starts_with("-- ")
}

/// Checks each row of a table, and that there are so many.
pub(crate) fn check<S: Says>(
    rt: &impl Abort,
    alloc: Global,
    table: &str,
    between: &str,
    rows: usize,
) {
    let mut count: usize = 0;
    for row in table.split(between) {
        if !is_note(row) {
            assert!(rt; is_said::<S>(alloc, row), "{row}");
            count = count.saturating_add(1);
        }
    }
    assert!(rt; count == rows);
}
