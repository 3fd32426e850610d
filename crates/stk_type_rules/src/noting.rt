//! The facts of nodes in a row.

ghost use Rattle.std.specs.Prelude.{◌≡◌, ◌<◌, map, vec_len, IfOk, OnOk};
ghost use Rattle.stk_ctype.specs.Types.{type_of};
ghost use Rattle.stk_ctype.specs.Structs.{Structs};
ghost use Rattle.stk_ctype.specs.Sound.{IsSound};
ghost use Rattle.stk_type_rules.specs.Facts.{AreSoundFacts, Ruled, fact_of, fact_at};
ghost use Rattle.stk_type_rules.specs.Outcome.{Gives, IsAt, MakesFact, finish};

use crate::{Broken, NodeFact, Untyped};

/// The fact at a place.
#[tactic(auto, using(crate::proofs::FactsAt::facts_at))]
pub fn fact(facts: &Vec<NodeFact>, at: usize) -> &NodeFact
    requires { at < vec_len facts.now }
    ensures is { fact_of result.now ≡ fact_at (map fact_of facts.now.items) at }
    ensures sound { (structs : Structs) → AreSoundFacts structs (map fact_of facts.now.items) → IsSound structs (type_of result.now.ty) }
{
    &facts[at]
}

/// Puts what a rule makes of a node behind the facts of the nodes before it. The answer is the place of the node's
/// fact, or that the rule refuses this node.
#[tactic(auto, using(crate::proofs::FactsAt::facts_at))]
pub fn own(
    facts: &mut Vec<NodeFact>,
    node: u32,
    made: Result<NodeFact, Broken>,
) -> Result<usize, Untyped>
    ensures gives { (r : Ruled) → MakesFact r made → Gives (IsAt (map fact_of facts.new.items)) (finish node r) result (map fact_of facts.old.items) (map fact_of facts.new.items) }
    ensures sound { (structs : Structs) → IfOk made (λ f. IsSound structs (type_of f.ty)) → AreSoundFacts structs (map fact_of facts.old.items) → OnOk result (AreSoundFacts structs (map fact_of facts.new.items)) }
{
    match made {
        Ok(fact) => {
            let at = facts.len();
            facts.push(fact)?;
            Ok(at)
        }
        Err(Broken::Rule(rule)) => Err(Untyped::Rule { node, rule }),
        Err(Broken::NoMemory) => Err(Untyped::NoMemory),
    }
}
