//! A law of the entries that a unit adds to the names in force.
ghost use Rattle.stk_type_laws.specs.Entries.{AddsFewEntries};

/// A unit adds at most one entry for each token that it prints: so the names in force behind a file are at most as many
/// as its tokens, and their numbers don't overflow.
pub fn adds_few_entries()
    ensures { AddsFewEntries }
{}
