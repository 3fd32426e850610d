//! Lays out statements: sets the node records of a tree, from a cursor on.
ghost use Rattle.std.specs.Prelude.{◌≡◌, ◌+◌, ◌<◌, ◌^◌, length, map};
ghost use Rattle.stk_tree.specs.Layout.{laid_part, laid_parts, laid_section, laid_sections, laid_statement, laid_statement_form, laid_statements};
ghost use Rattle.stk_tree.specs.Nodes.{part_nodes, parts_nodes, section_nodes, sections_nodes, statement_form_nodes, statement_nodes, statements_nodes};
ghost use Rattle.stk_tree.specs.Tokens.{part_tokens, parts_tokens, section_tokens, sections_tokens, statement_form_tokens, statement_tokens, statements_tokens};
ghost use Rattle.stk_nodes.specs.Setter.{setter};
ghost use Rattle.stk_tree.specs.View.{parts, sections, statements, view_part, view_section, view_statement, view_statement_form};

use crate::cursor::{Cursor, Records, close};
use crate::lay_declarations::{lay_bracketed, lay_declaration, lay_ended, lay_labels, lay_start};
use stk_tree::{Part, Section, Stmt, StmtForm};

#[cycle(lay_statement)]
pub(crate) fn lay_statement(x: &mut Stmt, at: Cursor, records: Records<'_>) -> Cursor
    requires numbers { at.number + statement_nodes (view_statement x.old) < 2 ^ 32 }
    requires tokens { at.token + length (statement_tokens (view_statement x.old)) < 2 ^ 32 }
    ensures tree { view_statement x.new ≡ laid_statement (setter records.entry) at.number at.token (view_statement x.old) }
    ensures number { result.number ≡ at.number + statement_nodes (view_statement x.old) }
    ensures token { result.token ≡ at.token + length (statement_tokens (view_statement x.old)) }
{
    let end = lay_statement_form(&mut x.form, at, records);
    close(&mut x.node, at, end, records)
}

#[cycle(lay_statement)]
fn lay_statements(list: &mut [Stmt], at: Cursor, records: Records<'_>) -> Cursor
    requires numbers { at.number + statements_nodes (statements (map view_statement list.old)) < 2 ^ 32 }
    requires tokens { at.token + length (statements_tokens (statements (map view_statement list.old))) < 2 ^ 32 }
    ensures tree { statements (map view_statement list.new) ≡ laid_statements (setter records.entry) at.number at.token (statements (map view_statement list.old)) }
    ensures number { result.number ≡ at.number + statements_nodes (statements (map view_statement list.old)) }
    ensures token { result.token ≡ at.token + length (statements_tokens (statements (map view_statement list.old))) }
{
    let mut end = at;
    for i in 0..list.len() {
        end = lay_statement(&mut list[i], end, records);
    }
    end
}

#[cycle(lay_statement)]
fn lay_statement_form(x: &mut StmtForm, at: Cursor, records: Records<'_>) -> Cursor
    requires numbers { at.number + statement_form_nodes (view_statement_form x.old) < 2 ^ 32 }
    requires tokens { at.token + length (statement_form_tokens (view_statement_form x.old)) < 2 ^ 32 }
    ensures tree { view_statement_form x.new ≡ laid_statement_form (setter records.entry) at.number at.token (view_statement_form x.old) }
    ensures number { result.number ≡ at.number + statement_form_nodes (view_statement_form x.old) }
    ensures token { result.token ≡ at.token + length (statement_form_tokens (view_statement_form x.old)) }
{
    match x {
        StmtForm::Block(list) => lay_parts(list.as_mut_slice(), at.past(1), records).past(1),
        StmtForm::Plain(e) => lay_ended(e, at, records),
        StmtForm::If(e, body, other) => {
            let test = lay_bracketed(e, at.past(1), records);
            let next = lay_statement(body.get_mut(), test, records);
            match other {
                None => next,
                Some(other) => lay_statement(other.get_mut(), next.past(1), records),
            }
        }
        StmtForm::Switch(e, list) => {
            let next = lay_bracketed(e, at.past(1), records).past(1);
            lay_sections(list.as_mut_slice(), next, records).past(1)
        }
        StmtForm::While(e, body) => {
            let next = lay_bracketed(e, at.past(1), records);
            lay_statement(body.get_mut(), next, records)
        }
        StmtForm::Do(body, e) => {
            let next = lay_statement(body.get_mut(), at.past(1), records).past(1);
            lay_bracketed(e, next, records).past(1)
        }
        StmtForm::For(start, test, step, body) => {
            let first = lay_start(start, at.past(2), records);
            let second = lay_ended(test, first, records);
            let third = lay_ended(step, second, records);
            lay_statement(body.get_mut(), third, records)
        }
        StmtForm::Break | StmtForm::Continue => at.past(2),
        StmtForm::Return(e) => lay_ended(e, at.past(1), records),
    }
}

#[cycle(lay_statement)]
fn lay_part(x: &mut Part, at: Cursor, records: Records<'_>) -> Cursor
    requires numbers { at.number + part_nodes (view_part x.old) < 2 ^ 32 }
    requires tokens { at.token + length (part_tokens (view_part x.old)) < 2 ^ 32 }
    ensures tree { view_part x.new ≡ laid_part (setter records.entry) at.number at.token (view_part x.old) }
    ensures number { result.number ≡ at.number + part_nodes (view_part x.old) }
    ensures token { result.token ≡ at.token + length (part_tokens (view_part x.old)) }
{
    match x {
        Part::Local(d) => lay_declaration(d, at, records),
        Part::Run(s) => lay_statement(s, at, records),
    }
}

#[cycle(lay_statement)]
fn lay_parts(list: &mut [Part], at: Cursor, records: Records<'_>) -> Cursor
    requires numbers { at.number + parts_nodes (parts (map view_part list.old)) < 2 ^ 32 }
    requires tokens { at.token + length (parts_tokens (parts (map view_part list.old))) < 2 ^ 32 }
    ensures tree { parts (map view_part list.new) ≡ laid_parts (setter records.entry) at.number at.token (parts (map view_part list.old)) }
    ensures number { result.number ≡ at.number + parts_nodes (parts (map view_part list.old)) }
    ensures token { result.token ≡ at.token + length (parts_tokens (parts (map view_part list.old))) }
{
    let mut end = at;
    for i in 0..list.len() {
        end = lay_part(&mut list[i], end, records);
    }
    end
}

#[cycle(lay_statement)]
fn lay_section(x: &mut Section, at: Cursor, records: Records<'_>) -> Cursor
    requires numbers { at.number + section_nodes (view_section x.old) < 2 ^ 32 }
    requires tokens { at.token + length (section_tokens (view_section x.old)) < 2 ^ 32 }
    ensures tree { view_section x.new ≡ laid_section (setter records.entry) at.number at.token (view_section x.old) }
    ensures number { result.number ≡ at.number + section_nodes (view_section x.old) }
    ensures token { result.token ≡ at.token + length (section_tokens (view_section x.old)) }
{
    let next = lay_labels(x.labels.as_mut_slice(), at, records);
    let end = lay_statements(x.body.as_mut_slice(), next, records);
    close(&mut x.node, at, end, records)
}

#[cycle(lay_statement)]
fn lay_sections(list: &mut [Section], at: Cursor, records: Records<'_>) -> Cursor
    requires numbers { at.number + sections_nodes (sections (map view_section list.old)) < 2 ^ 32 }
    requires tokens { at.token + length (sections_tokens (sections (map view_section list.old))) < 2 ^ 32 }
    ensures tree { sections (map view_section list.new) ≡ laid_sections (setter records.entry) at.number at.token (sections (map view_section list.old)) }
    ensures number { result.number ≡ at.number + sections_nodes (sections (map view_section list.old)) }
    ensures token { result.token ≡ at.token + length (sections_tokens (sections (map view_section list.old))) }
{
    let mut end = at;
    for i in 0..list.len() {
        end = lay_section(&mut list[i], end, records);
    }
    end
}
