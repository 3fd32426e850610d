//! The file that is checked.

use std::alloc::Global;
use stk_lex::Places;
use stk_records::Options;

/// A file whose units are checked: where memory comes from, its bytes with the places in them, and the options of the
/// run.
#[derive(Clone, Copy)]
pub struct LintedFile<'a> {
    pub alloc: Global,
    pub input: &'a Places<'a>,
    pub options: Options,
}
