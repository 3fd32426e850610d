//! The visits of a function.

ghost use Rattle.std.specs.Prelude.{◌≡◌, [], ◌∷◌, ◌++◌, map, OnOk};
ghost use Rattle.stk_function_types.specs.Visits.{marked_visit};

use crate::Role;
use stk_base::{NoMemory, Span};
use stk_tree::{ExprForm, Init, Label, StmtForm};

/// What stands at a visit: an expression with how it is evaluated; the declarator of a local object, with whether it is
/// `static`, its name and its initialiser; a statement, with whether it is entered as a branch; a section, with its
/// labels.
#[derive(Clone, Copy)]
pub enum VisitForm<'a> {
    Expression(Role, &'a ExprForm),
    Declarator(bool, Option<Span>, &'a Option<Init>),
    Statement(bool, &'a StmtForm),
    Section(&'a [Label]),
}

/// A node of a function, with whether it is evaluated. Not evaluated are the operand of `sizeof`, the size of an array,
/// a case label and a designator (C11 6.5.3.4p2, 6.7.6.2, 6.8.4.2p3, 6.7.9p7).
#[derive(Clone, Copy)]
pub struct Visit<'a> {
    pub node: u32,
    pub is_evaluated: bool,
    pub form: VisitForm<'a>,
}

// Puts a visit behind the others.
pub(crate) fn put<'a>(visit: Visit<'a>, out: &mut Vec<Visit<'a>>) -> Result<(), NoMemory>
    ensures { OnOk result (map marked_visit out.new.items ≡ map marked_visit out.old.items ++ marked_visit visit.entry ∷ []) }
{
    out.push(visit)?;
    Ok(())
}
