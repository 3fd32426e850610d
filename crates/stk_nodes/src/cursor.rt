//! The place in a unit that a layout has come to.
ghost use Rattle.std.specs.Prelude.{◌≡◌, ◌+◌, ◌-◌, ◌<◌, ◌≤◌, ◌^◌, length, map};
ghost use Rattle.stk_nodes.specs.Setter.{setter};
ghost use Rattle.stk_tree.specs.Layout.{covered, span_at};
ghost use Rattle.stk_tree.specs.Tokens.{last_comma, more_tokens, optional_word, path_end, storage_tokens};
ghost use Rattle.stk_tree.specs.View.{designators, view_designator};

use stk_base::Span;
use stk_tree::{Desig, Node, Storage};

/// The number of the first free node, and the first token that comes next.
#[derive(Clone, Copy)]
pub struct Cursor {
    pub number: u32,
    pub token: u32,
}

/// What the records of nodes are made from: the spans of the tokens that are printed, in order, and whether the nodes
/// get their numbers or 0.
#[derive(Clone, Copy)]
pub struct Records<'a> {
    pub spans: &'a [Span],
    pub numbered: bool,
}

impl Cursor {
    /// The cursor that many tokens on.
    pub fn past(self, count: u32) -> Cursor
        requires { self.token + count < 2 ^ 32 }
        ensures number { result.number ≡ self.number }
        ensures token { result.token ≡ self.token + count }
    {
        Cursor {
            token: self.token + count,
            ..self
        }
    }
}

/// The span of one token; empty at 0 where there is no such token.
fn token_span(spans: &[Span], token: u32) -> Span
    ensures { result ≡ span_at spans.now token }
{
    if (token as usize) < spans.len() {
        spans[token as usize]
    } else {
        Span { from: 0, to: 0 }
    }
}

/// What the tokens from `from` up to `to` cover.
fn span_between(spans: &[Span], from: u32, to: u32) -> Span
    requires { from ≤ to }
    ensures { result ≡ covered spans.now from (to - from) }
{
    let first = token_span(spans, from).from;
    if from == to {
        return Span {
            from: first,
            to: first,
        };
    }
    Span {
        from: first,
        to: token_span(spans, to - 1).to,
    }
}

/// Sets the node of a tree whose first token stands at the cursor `at` and whose children end at the cursor `end`, and
/// gives the cursor after the tree.
pub(crate) fn close(node: &mut Node, at: Cursor, end: Cursor, records: Records<'_>) -> Cursor
    requires tokens { at.token ≤ end.token }
    requires numbers { end.number + 1 < 2 ^ 32 }
    ensures node { node.new ≡ setter records.entry end.number at.token (end.token - at.token) }
    ensures number { result.number ≡ end.number + 1 }
    ensures token { result.token ≡ end.token }
{
    *node = Node {
        number: if records.numbered { end.number } else { 0 },
        span: span_between(records.spans, at.token, end.token),
    };
    Cursor {
        number: end.number + 1,
        ..end
    }
}

/// The cursor after the stars and the name of a declarator.
pub(crate) fn after_name(stars: u32, name: Option<Span>, at: Cursor) -> Cursor
    requires { at.token + stars + length (optional_word name) < 2 ^ 32 }
    ensures number { result.number ≡ at.number }
    ensures token { result.token ≡ at.token + stars + length (optional_word name) }
{
    at.past(stars).past(count_of_word(name))
}

/// How many tokens an optional name prints.
pub(crate) fn count_of_word(name: Option<Span>) -> u32
    ensures { result ≡ length (optional_word name) }
{
    match name {
        None => 0,
        Some(_) => 1,
    }
}

/// How many tokens the comma before a closing brace prints.
pub(crate) fn count_of_comma(comma: bool) -> u32
    ensures { result ≡ length (last_comma comma) }
{
    if comma { 1 } else { 0 }
}

/// How many tokens the end of a designator path prints.
pub(crate) fn count_of_path_end(path: &[Desig]) -> u32
    ensures { result ≡ length (path_end (designators (map view_designator path.now))) }
{
    match path {
        [] => 0,
        [_, _rest @ ..] => 1,
    }
}

/// How many tokens the end of a parameter list prints.
pub(crate) fn count_of_more(more: bool) -> u32
    ensures { result ≡ length (more_tokens more) }
{
    if more { 2 } else { 0 }
}

/// How many tokens an optional storage word prints.
pub(crate) fn count_of_storage(storage: Option<Storage>) -> u32
    ensures { result ≡ length (storage_tokens storage) }
{
    match storage {
        None => 0,
        Some(_) => 1,
    }
}
