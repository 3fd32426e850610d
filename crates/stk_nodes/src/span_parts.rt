//! Sets the spans of the nodes of a part of a unit, which have no numbers yet.
ghost use Rattle.std.specs.Prelude.{◌≡◌, ◌+◌, ◌<◌, ◌^◌, length};
ghost use Rattle.stk_tree.specs.Layout.{laid_declaration, laid_expression, unnumbered_at};
ghost use Rattle.stk_tree.specs.Nodes.{declaration_nodes, expression_nodes};
ghost use Rattle.stk_tree.specs.Tokens.{declaration_tokens, expression_tokens};
ghost use Rattle.stk_tree.specs.View.{view_declaration, view_expression};

use crate::cursor::{Cursor, Records};
use crate::lay_declarations::lay_declaration;
use crate::lay_expressions::lay_expression;
use stk_base::Span;
use stk_tree::{Declaration, Expr};

/// Sets every node of an expression: the number 0, and the span of the tokens that it prints.
///
/// `spans` are the spans of the tokens of a text, in order, and the expression prints those from the token `first` on.
/// A node's span reaches from the first byte of its first token to the end of its last token; a node that prints no
/// token has the empty span where the next token begins.
pub fn span_expression(x: &mut Expr, first: u32, spans: &[Span])
    requires numbers { expression_nodes (view_expression x.old) < 2 ^ 32 }
    requires tokens { first + length (expression_tokens (view_expression x.old)) < 2 ^ 32 }
    ensures { view_expression x.new ≡ laid_expression (unnumbered_at spans.now) 0 first (view_expression x.old) }
{
    let start = Cursor {
        number: 0,
        token: first,
    };
    let records = Records {
        spans,
        numbered: false,
    };
    lay_expression(x, start, records);
}

/// Sets every node of a declaration, as `span_expression` sets those of an expression.
pub fn span_declaration(x: &mut Declaration, first: u32, spans: &[Span])
    requires numbers { declaration_nodes (view_declaration x.old) < 2 ^ 32 }
    requires tokens { first + length (declaration_tokens (view_declaration x.old)) < 2 ^ 32 }
    ensures { view_declaration x.new ≡ laid_declaration (unnumbered_at spans.now) 0 first (view_declaration x.old) }
{
    let start = Cursor {
        number: 0,
        token: first,
    };
    let records = Records {
        spans,
        numbered: false,
    };
    lay_declaration(x, start, records);
}
