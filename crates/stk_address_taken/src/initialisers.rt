//! What is an operand of `&` in initialisers and array parts.

ghost use Rattle.std.specs.Prelude.{◌≡◌, ◌++◌, OnOk, map};
ghost use Rattle.std.specs.Option.{option_map};
ghost use Rattle.stk_tree.specs.View.{view_designator, view_initialiser, view_item, view_tail, designators, items, maybe_initialiser};
ghost use Rattle.stk_address_taken.specs.Expressions.{designator_taken, designators_taken, initialiser_taken, item_taken, items_taken, maybe_initialiser_taken, tail_taken};

use crate::Binding;
use crate::expressions::{dimensions_taken, expression_taken};
use stk_base::NoMemory;
use stk_tree::{Desig, Init, Item, Tail};

// Notes what is an operand of `&` in a designator.
fn designator_taken(
    bytes: &[u8],
    bindings: &[Binding],
    d: &Desig,
    out: &mut Vec<u32>,
) -> Result<(), NoMemory>
    ensures { OnOk result (out.new.items ≡ out.old.items ++ designator_taken bytes.now bindings.now (view_designator d.now)) }
{
    match d {
        Desig::Dot(_) => Ok(()),
        Desig::At(e) => expression_taken(bytes, bindings, e, out),
    }
}

// Notes the same in designators.
fn designators_taken(
    bytes: &[u8],
    bindings: &[Binding],
    list: &[Desig],
    out: &mut Vec<u32>,
) -> Result<(), NoMemory>
    ensures { OnOk result (out.new.items ≡ out.old.items ++ designators_taken bytes.now bindings.now (designators (map view_designator list.now))) }
{
    for d in list {
        designator_taken(bytes, bindings, d, out)?;
    }
    Ok(())
}

// Notes the same in an initialiser.
#[cycle(initialiser_taken)]
fn initialiser_taken(
    bytes: &[u8],
    bindings: &[Binding],
    i: &Init,
    out: &mut Vec<u32>,
) -> Result<(), NoMemory>
    ensures { OnOk result (out.new.items ≡ out.old.items ++ initialiser_taken bytes.now bindings.now (view_initialiser i.now)) }
{
    match i {
        Init::Plain(e) => expression_taken(bytes, bindings, e, out),
        Init::Braces(list, _) => items_taken(bytes, bindings, list.as_slice(), out),
    }
}

// Notes the same in an item of braces.
#[cycle(initialiser_taken)]
fn item_taken(
    bytes: &[u8],
    bindings: &[Binding],
    i: &Item,
    out: &mut Vec<u32>,
) -> Result<(), NoMemory>
    ensures { OnOk result (out.new.items ≡ out.old.items ++ item_taken bytes.now bindings.now (view_item i.now)) }
{
    designators_taken(bytes, bindings, i.path.as_slice(), out)?;
    initialiser_taken(bytes, bindings, &i.init, out)
}

// Notes the same in items.
#[cycle(initialiser_taken)]
fn items_taken(
    bytes: &[u8],
    bindings: &[Binding],
    list: &[Item],
    out: &mut Vec<u32>,
) -> Result<(), NoMemory>
    ensures { OnOk result (out.new.items ≡ out.old.items ++ items_taken bytes.now bindings.now (items (map view_item list.now))) }
{
    for i in list {
        item_taken(bytes, bindings, i, out)?;
    }
    Ok(())
}

/// Notes what is an operand of `&` in an initialiser that may be missing.
pub(crate) fn maybe_initialiser_taken(
    bytes: &[u8],
    bindings: &[Binding],
    i: &Option<Init>,
    out: &mut Vec<u32>,
) -> Result<(), NoMemory>
    ensures { OnOk result (out.new.items ≡ out.old.items ++ maybe_initialiser_taken bytes.now bindings.now (maybe_initialiser (option_map view_initialiser i.now))) }
{
    match i {
        None => Ok(()),
        Some(i) => initialiser_taken(bytes, bindings, i, out),
    }
}

/// Notes what is an operand of `&` in what follows the name of an object.
pub(crate) fn tail_taken(
    bytes: &[u8],
    bindings: &[Binding],
    t: &Tail,
    out: &mut Vec<u32>,
) -> Result<(), NoMemory>
    ensures { OnOk result (out.new.items ≡ out.old.items ++ tail_taken bytes.now bindings.now (view_tail t.now)) }
{
    match t {
        Tail::Arrays(list) => dimensions_taken(bytes, bindings, list.as_slice(), out),
        Tail::Unspecified | Tail::NoParams | Tail::Params(_, _) => Ok(()),
    }
}
