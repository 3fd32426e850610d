//! The visits of initialisers and of what follows the name of a declarator.

ghost use Rattle.std.specs.Prelude.{◌≡◌, ◌++◌, OnOk, map, true};
ghost use Rattle.std.specs.Option.{option_map};
ghost use Rattle.stk_tree.specs.View.{view_initialiser, view_item, view_designator, view_tail, view_parameter, view_declarator, items, designators, parameters, maybe_initialiser};
ghost use Rattle.stk_function_types.specs.Nodes.{typing_in};
ghost use Rattle.stk_meaning.specs.Visits.{initialiser_visits, items_visits, item_visits, designators_visits, designator_visits, tail_visits, parameters_visits, parameter_visits, head_visits, initial_visits};
ghost use Rattle.stk_function_types.specs.Visits.{marked_visits, marked_visit};

use crate::expressions::{dimensions_visits, expression_visits};
use crate::{FunctionTypes, Role, Visit};
use stk_base::NoMemory;
use stk_tree::{Declr, Desig, Init, Item, Param, Tail};

// Puts the visits of a designator.
fn designator_visits<'a>(
    d: &'a Desig,
    types: &FunctionTypes,
    out: &mut Vec<Visit<'a>>,
) -> Result<(), NoMemory>
    ensures { OnOk result (map marked_visit out.new.items ≡ map marked_visit out.old.items ++ marked_visits true (designator_visits (typing_in types.now) (view_designator d.now))) }
{
    match d {
        Desig::Dot(_) => Ok(()),
        Desig::At(e) => expression_visits(e, types, false, Role::reading(), out),
    }
}

// Puts the visits of designators.
fn designators_visits<'a>(
    list: &'a [Desig],
    types: &FunctionTypes,
    out: &mut Vec<Visit<'a>>,
) -> Result<(), NoMemory>
    ensures { OnOk result (map marked_visit out.new.items ≡ map marked_visit out.old.items ++ marked_visits true (designators_visits (typing_in types.now) (designators (map view_designator list.now)))) }
{
    for d in list {
        designator_visits(d, types, out)?;
    }
    Ok(())
}

/// Puts the visits of an initialiser that is evaluated behind the others, in order.
#[cycle(initialiser_visits)]
pub(crate) fn initialiser_visits<'a>(
    x: &'a Init,
    types: &FunctionTypes,
    out: &mut Vec<Visit<'a>>,
) -> Result<(), NoMemory>
    ensures { OnOk result (map marked_visit out.new.items ≡ map marked_visit out.old.items ++ marked_visits true (initialiser_visits (typing_in types.now) (view_initialiser x.now))) }
{
    match x {
        Init::Plain(e) => expression_visits(e, types, true, Role::reading(), out),
        Init::Braces(list, _) => items_visits(list.as_slice(), types, out),
    }
}

// Puts the visits of items.
#[cycle(initialiser_visits)]
fn items_visits<'a>(
    list: &'a [Item],
    types: &FunctionTypes,
    out: &mut Vec<Visit<'a>>,
) -> Result<(), NoMemory>
    ensures { OnOk result (map marked_visit out.new.items ≡ map marked_visit out.old.items ++ marked_visits true (items_visits (typing_in types.now) (items (map view_item list.now)))) }
{
    for x in list {
        item_visits(x, types, out)?;
    }
    Ok(())
}

// Puts the visits of an item.
#[cycle(initialiser_visits)]
fn item_visits<'a>(
    x: &'a Item,
    types: &FunctionTypes,
    out: &mut Vec<Visit<'a>>,
) -> Result<(), NoMemory>
    ensures { OnOk result (map marked_visit out.new.items ≡ map marked_visit out.old.items ++ marked_visits true (item_visits (typing_in types.now) (view_item x.now))) }
{
    designators_visits(x.path.as_slice(), types, out)?;
    initialiser_visits(&x.init, types, out)
}

/// Puts the visits of the initialiser of a local object, which isn't evaluated where the object is `static`.
pub(crate) fn initial_visits<'a>(
    x: &'a Option<Init>,
    types: &FunctionTypes,
    is_static: bool,
    out: &mut Vec<Visit<'a>>,
) -> Result<(), NoMemory>
    ensures { OnOk result (map marked_visit out.new.items ≡ map marked_visit out.old.items ++ marked_visits true (initial_visits (typing_in types.now) is_static (maybe_initialiser (option_map view_initialiser x.now)))) }
{
    match x {
        None => Ok(()),
        Some(x) => {
            if is_static {
                Ok(())
            } else {
                initialiser_visits(x, types, out)
            }
        }
    }
}

/// Puts the visits of what follows the name of a declarator.
#[cycle(tail_visits)]
pub(crate) fn tail_visits<'a>(
    t: &'a Tail,
    types: &FunctionTypes,
    out: &mut Vec<Visit<'a>>,
) -> Result<(), NoMemory>
    ensures { OnOk result (map marked_visit out.new.items ≡ map marked_visit out.old.items ++ marked_visits true (tail_visits (typing_in types.now) (view_tail t.now))) }
{
    match t {
        Tail::Arrays(list) => dimensions_visits(list.as_slice(), types, true, out),
        Tail::Unspecified | Tail::NoParams => Ok(()),
        Tail::Params(list, _) => parameters_visits(list.as_slice(), types, out),
    }
}

// Puts the visits of parameters.
#[cycle(tail_visits)]
fn parameters_visits<'a>(
    list: &'a [Param],
    types: &FunctionTypes,
    out: &mut Vec<Visit<'a>>,
) -> Result<(), NoMemory>
    ensures { OnOk result (map marked_visit out.new.items ≡ map marked_visit out.old.items ++ marked_visits true (parameters_visits (typing_in types.now) (parameters (map view_parameter list.now)))) }
{
    for p in list {
        head_visits(&p.declr, types, out)?;
    }
    Ok(())
}

/// Puts the visits of the declarator of a parameter or of a function.
#[cycle(tail_visits)]
pub(crate) fn head_visits<'a>(
    d: &'a Declr,
    types: &FunctionTypes,
    out: &mut Vec<Visit<'a>>,
) -> Result<(), NoMemory>
    ensures { OnOk result (map marked_visit out.new.items ≡ map marked_visit out.old.items ++ marked_visits true (head_visits (typing_in types.now) (view_declarator d.now))) }
{
    tail_visits(&d.tail, types, out)
}
