//! The tags that declarators use.

ghost use Rattle.std.specs.Prelude.{◌≡◌, ◌++◌, OnOk, map};
ghost use Rattle.stk_tree.specs.View.{view_declarator, view_tail, view_parameter, parameters};
ghost use Rattle.stk_declarators.specs.Uses.{declarator_uses, tail_uses, parameter_uses, parameters_uses};

use crate::expressions::dimensions_uses;
use crate::{TagUse, base_uses};
use stk_base::NoMemory;
use stk_tree::{Declr, Param, Tail};

/// Puts the tags that a declarator uses in its array parts and parameters behind the others; what its initialiser uses
/// isn't among them.
#[cycle(declarator_uses)]
pub fn declarator_uses(d: &Declr, out: &mut Vec<TagUse>) -> Result<(), NoMemory>
    ensures { OnOk result (out.new.items ≡ out.old.items ++ declarator_uses (view_declarator d.now)) }
{
    tail_uses(&d.tail, out)
}

// The same of what follows the name.
#[cycle(declarator_uses)]
fn tail_uses(t: &Tail, out: &mut Vec<TagUse>) -> Result<(), NoMemory>
    ensures { OnOk result (out.new.items ≡ out.old.items ++ tail_uses (view_tail t.now)) }
{
    match t {
        Tail::Arrays(list) => dimensions_uses(list.as_slice(), out),
        Tail::Unspecified | Tail::NoParams => Ok(()),
        Tail::Params(list, _) => parameters_uses(list.as_slice(), out),
    }
}

// The same of a parameter.
#[cycle(declarator_uses)]
fn parameter_uses(p: &Param, out: &mut Vec<TagUse>) -> Result<(), NoMemory>
    ensures { OnOk result (out.new.items ≡ out.old.items ++ parameter_uses (view_parameter p.now)) }
{
    base_uses(&p.base, out)?;
    declarator_uses(&p.declr, out)
}

// The same of parameters.
#[cycle(declarator_uses)]
fn parameters_uses(list: &[Param], out: &mut Vec<TagUse>) -> Result<(), NoMemory>
    ensures { OnOk result (out.new.items ≡ out.old.items ++ parameters_uses (parameters (map view_parameter list.now))) }
{
    for p in list {
        parameter_uses(p, out)?;
    }
    Ok(())
}
