//! Lays out declarations and labels: sets the node records of a tree, from a cursor on.
ghost use Rattle.std.specs.Prelude.{◌≡◌, ◌+◌, ◌<◌, ◌^◌, length, map};
ghost use Rattle.stk_tree.specs.Layout.{laid_declaration, laid_expression, laid_label, laid_labels, laid_maybe_expression, laid_start};
ghost use Rattle.stk_tree.specs.Nodes.{declaration_nodes, expression_nodes, label_nodes, labels_nodes, maybe_expression_nodes, start_nodes};
ghost use Rattle.stk_tree.specs.Tokens.{declaration_tokens, expression_tokens, label_tokens, labels_tokens, optional_tokens, start_tokens};
ghost use Rattle.stk_nodes.specs.Setter.{setter};
ghost use Rattle.stk_tree.specs.View.{given_expression, labels, view_declaration, view_expression, view_label, view_start};

use crate::cursor::{Cursor, Records, count_of_storage};
use crate::lay_expressions::{lay_base, lay_declarators, lay_expression};
use stk_tree::{Declaration, Expr, Label, Start};

/// Lays out `[e]` and the mark that follows it.
pub(crate) fn lay_ended(x: &mut Option<Expr>, at: Cursor, records: Records<'_>) -> Cursor
    requires numbers { at.number + maybe_expression_nodes (given_expression x.old) < 2 ^ 32 }
    requires tokens { at.token + length (optional_tokens (given_expression x.old)) + 1 < 2 ^ 32 }
    ensures tree { given_expression x.new ≡ laid_maybe_expression (setter records.entry) at.number at.token (given_expression x.old) }
    ensures number { result.number ≡ at.number + maybe_expression_nodes (given_expression x.old) }
    ensures token { result.token ≡ at.token + length (optional_tokens (given_expression x.old)) + 1 }
{
    match x {
        None => at.past(1),
        Some(e) => lay_expression(e, at, records).past(1),
    }
}

/// Lays out `( e )`.
pub(crate) fn lay_bracketed(x: &mut Expr, at: Cursor, records: Records<'_>) -> Cursor
    requires numbers { at.number + expression_nodes (view_expression x.old) < 2 ^ 32 }
    requires tokens { at.token + length (expression_tokens (view_expression x.old)) + 2 < 2 ^ 32 }
    ensures tree { view_expression x.new ≡ laid_expression (setter records.entry) at.number (at.token + 1) (view_expression x.old) }
    ensures number { result.number ≡ at.number + expression_nodes (view_expression x.old) }
    ensures token { result.token ≡ at.token + length (expression_tokens (view_expression x.old)) + 2 }
{
    lay_expression(x, at.past(1), records).past(1)
}

pub(crate) fn lay_declaration(x: &mut Declaration, at: Cursor, records: Records<'_>) -> Cursor
    requires numbers { at.number + declaration_nodes (view_declaration x.old) < 2 ^ 32 }
    requires tokens { at.token + length (declaration_tokens (view_declaration x.old)) < 2 ^ 32 }
    ensures tree { view_declaration x.new ≡ laid_declaration (setter records.entry) at.number at.token (view_declaration x.old) }
    ensures number { result.number ≡ at.number + declaration_nodes (view_declaration x.old) }
    ensures token { result.token ≡ at.token + length (declaration_tokens (view_declaration x.old)) }
{
    let next = lay_base(&mut x.base, at.past(count_of_storage(x.storage)), records);
    lay_declarators(x.list.as_mut_slice(), next, records).past(1)
}

pub(crate) fn lay_start(x: &mut Start, at: Cursor, records: Records<'_>) -> Cursor
    requires numbers { at.number + start_nodes (view_start x.old) < 2 ^ 32 }
    requires tokens { at.token + length (start_tokens (view_start x.old)) < 2 ^ 32 }
    ensures tree { view_start x.new ≡ laid_start (setter records.entry) at.number at.token (view_start x.old) }
    ensures number { result.number ≡ at.number + start_nodes (view_start x.old) }
    ensures token { result.token ≡ at.token + length (start_tokens (view_start x.old)) }
{
    match x {
        Start::Local(d) => lay_declaration(d, at, records),
        Start::Plain(e) => lay_ended(e, at, records),
    }
}

pub(crate) fn lay_label(x: &mut Label, at: Cursor, records: Records<'_>) -> Cursor
    requires numbers { at.number + label_nodes (view_label x.old) < 2 ^ 32 }
    requires tokens { at.token + length (label_tokens (view_label x.old)) < 2 ^ 32 }
    ensures tree { view_label x.new ≡ laid_label (setter records.entry) at.number at.token (view_label x.old) }
    ensures number { result.number ≡ at.number + label_nodes (view_label x.old) }
    ensures token { result.token ≡ at.token + length (label_tokens (view_label x.old)) }
{
    match x {
        Label::Default => at.past(2),
        Label::Case(e) => lay_expression(e, at.past(1), records).past(1),
    }
}

pub(crate) fn lay_labels(list: &mut [Label], at: Cursor, records: Records<'_>) -> Cursor
    requires numbers { at.number + labels_nodes (labels (map view_label list.old)) < 2 ^ 32 }
    requires tokens { at.token + length (labels_tokens (labels (map view_label list.old))) < 2 ^ 32 }
    ensures tree { labels (map view_label list.new) ≡ laid_labels (setter records.entry) at.number at.token (labels (map view_label list.old)) }
    ensures number { result.number ≡ at.number + labels_nodes (labels (map view_label list.old)) }
    ensures token { result.token ≡ at.token + length (labels_tokens (labels (map view_label list.old))) }
{
    let mut end = at;
    for i in 0..list.len() {
        end = lay_label(&mut list[i], end, records);
    }
    end
}
