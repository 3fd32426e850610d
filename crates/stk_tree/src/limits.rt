//! How deep a tree may nest.

/// The deepest nesting that is read: a tree's height, and a level more for each `*`, array part, brace of an
/// initialiser and designator. So a recursion over a tree goes no deeper.
pub const MOST_NESTING: usize = 400;
