//! The numbers that a path run keeps, by the positions of the kept objects.

ghost use Rattle.std.specs.Prelude.{◌≡◌, None, Option, if◌then◌else◌, set, get_or, replicate, IfOk};
ghost use Rattle.stk_meaning.specs.Paths.{all_forgotten, forgotten};
ghost use Rattle.stk_path_runs.specs.Rows.{forgets_in};

use crate::LoopRow;
use std::alloc::Global;
use stk_base::NoMemory;
use stk_operators::Word;

/// Nothing kept of so many objects.
pub(crate) fn nothing_kept(alloc: Global, count: usize) -> Result<Vec<Option<Word>>, NoMemory>
    ensures { IfOk result (λ kept. kept.items ≡ replicate count None) }
{
    Ok(vec![in alloc; None; count]?)
}

/// Puts what is kept in a place, where there is one.
pub(crate) fn put_kept(list: &mut Vec<Option<Word>>, at: usize, number: Option<Word>)
    ensures { list.new.items ≡ set list.old.items at number }
{
    if at < list.len() {
        list[at] = number;
    }
}

/// What is kept in a place; nothing, where there is none.
pub(crate) fn kept_at(list: &Vec<Option<Word>>, at: usize) -> Option<Word>
    ensures { result ≡ get_or list.now.items at None }
{
    match list.get(at) {
        Some(found) => *found,
        None => None,
    }
}

/// Forgets all that is kept.
pub(crate) fn forget_all(list: &mut Vec<Option<Word>>)
    ensures { list.new.items ≡ all_forgotten list.old.items }
{
    for at in 0..list.len() {
        list[at] = None;
    }
}

// Forgets what is kept at a position, where a row has it as changed.
fn forget_one(row: &LoopRow, position: usize, kept: &mut Vec<Option<Word>>)
    ensures { kept.new.items ≡ (if forgets_in row.now position then set kept.old.items position None else kept.old.items) }
{
    if row.forgets(position) {
        put_kept(kept, position, None);
    }
}

/// Forgets what a row has as changed.
pub(crate) fn forget_changed(row: &LoopRow, kept: &mut Vec<Option<Word>>)
    ensures { kept.new.items ≡ forgotten (forgets_in row.now) kept.old.items }
{
    for position in 0..kept.len() {
        forget_one(row, position, kept);
    }
}
