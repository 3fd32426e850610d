//! The names of a function's parameters and local objects.

ghost use Rattle.std.specs.Prelude.{◌≡◌, ◌++◌, IfOk, OnOk, map};
ghost use Rattle.stk_tree.specs.View.{view_declarator, view_parameter, view_function, parameters};
ghost use Rattle.stk_function_types.specs.Nodes.{typing_in};
ghost use Rattle.stk_function_types.specs.Visits.{marked_visit};
ghost use Rattle.stk_function_types.specs.Gathered.{given, gathered};
ghost use Rattle.stk_spelling.specs.Named.{named, parameters_named, visit_named, names_of, name_among};

use std::alloc::Global;
use stk_base::{NoMemory, Span};
use stk_function_types::{FunctionTypes, Visit, VisitForm, function_visits};
use stk_tree::{Declr, Function, Param};

/// The declarator of a parameter or local object, by the number of its node, with the place of its name.
#[derive(Clone, Copy, Debug, PartialEq, Eq)]
pub struct Named {
    pub node: u32,
    pub name: Option<Span>,
}

// A declarator with its name.
fn name_of(d: &Declr) -> Named
    ensures { result ≡ named (view_declarator d.now) }
{
    Named {
        node: d.node.number,
        name: d.name,
    }
}

// Notes parameters.
fn parameters_named(list: &[Param], out: &mut Vec<Named>) -> Result<(), NoMemory>
    ensures { OnOk result (out.new.items ≡ out.old.items ++ parameters_named (parameters (map view_parameter list.now))) }
{
    for p in list {
        out.push(name_of(&p.declr))?;
    }
    Ok(())
}

// Notes the local object that a visit declares.
fn visit_named(visit: &Visit, out: &mut Vec<Named>) -> Result<(), NoMemory>
    ensures { OnOk result (out.new.items ≡ out.old.items ++ given visit_named (marked_visit visit.now)) }
{
    if !visit.is_evaluated {
        return Ok(());
    }
    match visit.form {
        VisitForm::Declarator(_, name, _) => {
            let node = visit.node;
            out.push(Named { node, name })?;
            Ok(())
        }
        VisitForm::Expression(_, _) | VisitForm::Statement(_, _) | VisitForm::Section(_) => Ok(()),
    }
}

// Notes the local objects that visits declare.
fn visits_named(visits: &[Visit], out: &mut Vec<Named>) -> Result<(), NoMemory>
    ensures { OnOk result (out.new.items ≡ out.old.items ++ gathered visit_named (map marked_visit visits.now)) }
{
    for visit in visits {
        visit_named(visit, out)?;
    }
    Ok(())
}

/// The parameters of a function and its local objects, each with the place of its name, in order.
pub fn names_of(alloc: Global, types: &FunctionTypes, f: &Function) -> Result<Vec<Named>, NoMemory>
    ensures { IfOk result (λ out. out.items ≡ names_of (typing_in types.now) (view_function f.now)) }
{
    let visits = function_visits(alloc, types, f)?;
    let mut out = Vec::new(alloc);
    parameters_named(f.declr.parameters(), &mut out)?;
    visits_named(visits.as_slice(), &mut out)?;
    Ok(out)
}

// The name of the declarator with this node.
pub(crate) fn name_among(node: u32, names: &[Named]) -> Option<Span>
    ensures { result ≡ name_among node names.now }
{
    for x in names {
        if x.node == node {
            return x.name;
        }
    }
    None
}
