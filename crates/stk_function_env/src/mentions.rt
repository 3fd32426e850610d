//! The names of objects of file scope that a function mentions.

ghost use Rattle.std.specs.Prelude.{◌≡◌, ◌++◌, OnOk, IfOk, map};
ghost use Rattle.stk_ctype.specs.Index.{IsIndexOf};
ghost use Rattle.stk_function_types.specs.Nodes.{typing_in};
ghost use Rattle.stk_meaning.specs.Keys.{names_outside, form_mentions, visit_mentions};
ghost use Rattle.stk_tree.specs.View.{view_expression_form};
ghost use Rattle.stk_function_types.specs.Visits.{marked_visit};
ghost use Rattle.stk_function_types.specs.Gathered.{given, gathered};
ghost use Rattle.stk_function_env.specs.Settings.{mention_in, words_behind};

use std::alloc::Global;
use stk_base::{NoMemory, Span};
use stk_ctype::Index;
use stk_function_types::{FunctionTypes, Visit, VisitForm};
use stk_tree::ExprForm;

/// A mention of an object of file scope: where its name stands, and the number of the node.
#[derive(Clone, Copy, Debug, PartialEq, Eq)]
pub struct Mention {
    pub name: Span,
    pub node: u32,
}

/// Whether a name is that of an object of file scope: it means no parameter or local object, and no enumerator.
pub(crate) fn names_outside(types: &FunctionTypes, node: u32) -> bool
    ensures { result ≡ names_outside (typing_in types.now) node }
{
    !(types.declared(node).is_some() || types.constant(node).is_some())
}

// Notes the name that a form is, where it is that of an object of file scope.
fn form_mentions(
    types: &FunctionTypes,
    node: u32,
    f: &ExprForm,
    out: &mut Vec<Mention>,
) -> Result<(), NoMemory>
    ensures { OnOk result (map (mention_in types.now.bytes) out.new.items ≡ map (mention_in types.now.bytes) out.old.items ++ form_mentions (typing_in types.now) node (view_expression_form f.now)) }
{
    match f {
        ExprForm::Name(at) => {
            if names_outside(types, node) {
                out.push(Mention { name: *at, node })?;
            }
            Ok(())
        }
        ExprForm::Number(_)
        | ExprForm::Character(_)
        | ExprForm::Text(_)
        | ExprForm::Paren(_)
        | ExprForm::Index(_, _)
        | ExprForm::Call(_, _)
        | ExprForm::Dot(_, _)
        | ExprForm::Arrow(_, _)
        | ExprForm::Step(_, _)
        | ExprForm::Unary(_, _)
        | ExprForm::SizeExpr(_)
        | ExprForm::SizeName(_)
        | ExprForm::Cast(_, _)
        | ExprForm::Binary(_, _, _)
        | ExprForm::Choice(_, _, _)
        | ExprForm::Assign(_, _, _) => Ok(()),
    }
}

// Notes the mention of a visit that is evaluated.
fn visit_mentions(
    types: &FunctionTypes,
    visit: &Visit,
    out: &mut Vec<Mention>,
) -> Result<(), NoMemory>
    ensures { OnOk result (map (mention_in types.now.bytes) out.new.items ≡ map (mention_in types.now.bytes) out.old.items ++ given (visit_mentions (typing_in types.now)) (marked_visit visit.now)) }
{
    if !visit.is_evaluated {
        return Ok(());
    }
    match visit.form {
        VisitForm::Expression(_, f) => form_mentions(types, visit.node, f, out),
        VisitForm::Declarator(_, _, _) | VisitForm::Statement(_, _) | VisitForm::Section(_) => Ok(
            (),
        ),
    }
}

/// The mentions of objects of file scope among visits, in order.
pub(crate) fn mentions_among(
    alloc: Global,
    types: &FunctionTypes,
    visits: &[Visit],
) -> Result<Vec<Mention>, NoMemory>
    ensures { IfOk result (λ out. map (mention_in types.now.bytes) out.items ≡ gathered (visit_mentions (typing_in types.now)) (map marked_visit visits.now)) }
{
    let mut out = Vec::new(alloc);
    for visit in visits {
        visit_mentions(types, visit, &mut out)?;
    }
    Ok(out)
}

/// An index of the mentions: under each name the node of the first one.
pub(crate) fn mentions_index(
    alloc: Global,
    bytes: &[u8],
    mentions: &[Mention],
) -> Result<Index<u32>, NoMemory>
    ensures { IfOk result (λ index. IsIndexOf index (words_behind (map (mention_in bytes.now) mentions.now))) }
{
    let mut index = Index::new(alloc);
    let mut left = mentions.len();
    while left > 0 {
        left -= 1;
        let m = mentions[left];
        index.push(alloc, m.name.text(bytes), m.node)?;
    }
    Ok(index)
}
