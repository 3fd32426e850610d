//! Lays out a unit: sets its node records.
ghost use Rattle.std.specs.Prelude.{◌≡◌, ◌+◌, ◌<◌, ◌^◌, length};
ghost use Rattle.stk_tree.specs.Layout.{laid_function, unit_laid_out};
ghost use Rattle.stk_tree.specs.Nodes.{function_nodes, unit_nodes};
ghost use Rattle.stk_tree.specs.Tokens.{function_tokens, unit_tokens};
ghost use Rattle.stk_nodes.specs.Setter.{setter};
ghost use Rattle.stk_tree.specs.View.{view_function, view_unit};

use crate::cursor::{Cursor, Records, close, count_of_storage};
use crate::lay_declarations::lay_declaration;
use crate::lay_expressions::{lay_base, lay_declarator};
use crate::lay_statements::lay_statement;
use stk_base::Span;
use stk_tree::{Function, Unit};

fn lay_function(x: &mut Function, at: Cursor, records: Records<'_>) -> Cursor
    requires numbers { at.number + function_nodes (view_function x.old) < 2 ^ 32 }
    requires tokens { at.token + length (function_tokens (view_function x.old)) < 2 ^ 32 }
    ensures tree { view_function x.new ≡ laid_function (setter records.entry) at.number at.token (view_function x.old) }
    ensures number { result.number ≡ at.number + function_nodes (view_function x.old) }
    ensures token { result.token ≡ at.token + length (function_tokens (view_function x.old)) }
{
    let storage = at.past(count_of_storage(x.storage));
    let base = lay_base(&mut x.base, storage, records);
    let declarator = lay_declarator(&mut x.declr, base, records);
    lay_statement(&mut x.body, declarator, records)
}

/// Sets every node of a unit: its number and its span.
///
/// `spans` are the spans of the tokens that the unit prints, in order. Nodes are numbered from 0, children from left to
/// right, then their parent. A node's span reaches from the first byte of its first token to the end of its last token;
/// a node that prints no token has the empty span where the next token of the unit begins. Nothing else changes.
pub fn lay_out(unit: &mut Unit, spans: &[Span])
    requires one_span_each { length spans.now ≡ length (unit_tokens (view_unit unit.old)) }
    requires tokens { length spans.now < 2 ^ 32 }
    requires numbers { unit_nodes (view_unit unit.old) < 2 ^ 32 }
    ensures { view_unit unit.new ≡ unit_laid_out spans.now (view_unit unit.old) }
{
    let start = Cursor {
        number: 0,
        token: 0,
    };
    let records = Records {
        spans,
        numbered: true,
    };
    match unit {
        Unit::Empty(node) => {
            close(node, start, start.past(1), records);
        }
        Unit::Declares(node, declaration) => {
            let end = lay_declaration(declaration, start, records);
            close(node, start, end, records);
        }
        Unit::Defines(node, function) => {
            let end = lay_function(function, start, records);
            close(node, start, end, records);
        }
    }
}
