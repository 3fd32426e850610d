//! The types of an initialiser's nodes.

ghost use Rattle.std.specs.Prelude.{◌≡◌, map, OnOk};
ghost use Rattle.stk_ctype.specs.Structs.{structs_of};
ghost use Rattle.stk_tree.specs.View.{view_initialiser, view_item, view_designator, items, designators};
ghost use Rattle.stk_type_rules.specs.Facts.{AreSoundFacts, fact_of};
ghost use Rattle.stk_type_rules.specs.Outcome.{Gives};
ghost use Rattle.stk_typing.specs.Scope.{IsSoundScope, scope_of};
ghost use Rattle.stk_typing.specs.InitialiserTyping.{designator_typed, designators_typed, initialiser_typed, item_typed, items_typed};

use crate::{Leaves, Scoped, expression, unevaluated};
use stk_tree::{Desig, Init, Item};
use stk_type_rules::{NodeFact, Untyped, fact};

// Types a designator.
fn designator(s: &Scoped, facts: &mut Vec<NodeFact>, d: &Desig) -> Result<(), Untyped>
    requires scope { IsSoundScope (scope_of s.now) }
    requires sound { AreSoundFacts (structs_of s.now.names.now) (map fact_of facts.old.items) }
    ensures gives { Gives (λ u r. Unit {0}) (designator_typed (scope_of s.now) (view_designator d.now)) result (map fact_of facts.old.items) (map fact_of facts.new.items) }
    ensures sound { OnOk result (AreSoundFacts (structs_of s.now.names.now) (map fact_of facts.new.items)) }
{
    match d {
        Desig::Dot(_) => Ok(()),
        Desig::At(e) => {
            let _ = expression(s, facts, e)?;
            Ok(())
        }
    }
}

// Types designators, one after the other.
fn designators(s: &Scoped, facts: &mut Vec<NodeFact>, list: &[Desig]) -> Result<(), Untyped>
    requires scope { IsSoundScope (scope_of s.now) }
    requires sound { AreSoundFacts (structs_of s.now.names.now) (map fact_of facts.old.items) }
    ensures gives { Gives (λ u r. Unit {0}) (designators_typed (scope_of s.now) (designators (map view_designator list.now))) result (map fact_of facts.old.items) (map fact_of facts.new.items) }
    ensures sound { OnOk result (AreSoundFacts (structs_of s.now.names.now) (map fact_of facts.new.items)) }
{
    for d in list {
        designator(s, facts, d)?;
    }
    Ok(())
}

/// Types an initialiser (C11 6.7.9): a fact for each node of its expressions is put behind the others, and the answer
/// is what is known of these expressions; or the first node that a rule refuses, by the lowest rule that does.
#[cycle(initialiser)]
pub fn initialiser(s: &Scoped, facts: &mut Vec<NodeFact>, i: &Init) -> Result<Leaves, Untyped>
    requires scope { IsSoundScope (scope_of s.now) }
    requires sound { AreSoundFacts (structs_of s.now.names.now) (map fact_of facts.old.items) }
    ensures gives { Gives (λ a r. r ≡ a) (initialiser_typed (scope_of s.now) (view_initialiser i.now)) result (map fact_of facts.old.items) (map fact_of facts.new.items) }
    ensures sound { OnOk result (AreSoundFacts (structs_of s.now.names.now) (map fact_of facts.new.items)) }
{
    match i {
        Init::Plain(e) => {
            let at = expression(s, facts, e)?;
            Ok(Leaves::of(fact(facts, at)))
        }
        Init::Braces(list, _) => items(s, facts, list.as_slice()),
    }
}

// Types an item of braces.
#[cycle(initialiser)]
fn item(s: &Scoped, facts: &mut Vec<NodeFact>, i: &Item) -> Result<Leaves, Untyped>
    requires scope { IsSoundScope (scope_of s.now) }
    requires sound { AreSoundFacts (structs_of s.now.names.now) (map fact_of facts.old.items) }
    ensures gives { Gives (λ a r. r ≡ a) (item_typed (scope_of s.now) (view_item i.now)) result (map fact_of facts.old.items) (map fact_of facts.new.items) }
    ensures sound { OnOk result (AreSoundFacts (structs_of s.now.names.now) (map fact_of facts.new.items)) }
{
    designators(&unevaluated(s), facts, i.path.as_slice())?;
    initialiser(s, facts, &i.init)
}

// Types items, one after the other.
#[cycle(initialiser)]
fn items(s: &Scoped, facts: &mut Vec<NodeFact>, list: &[Item]) -> Result<Leaves, Untyped>
    requires scope { IsSoundScope (scope_of s.now) }
    requires sound { AreSoundFacts (structs_of s.now.names.now) (map fact_of facts.old.items) }
    ensures gives { Gives (λ a r. r ≡ a) (items_typed (scope_of s.now) (items (map view_item list.now))) result (map fact_of facts.old.items) (map fact_of facts.new.items) }
    ensures sound { OnOk result (AreSoundFacts (structs_of s.now.names.now) (map fact_of facts.new.items)) }
{
    let mut all = Leaves::none();
    for i in list {
        let leaves = item(s, facts, i)?;
        all = all.merged(leaves);
    }
    Ok(all)
}
