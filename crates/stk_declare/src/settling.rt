//! What a rule makes of a node.

ghost use Rattle.std.specs.Prelude.{◌≡◌, IfOk, Ok};
ghost use Rattle.stk_type_rules.specs.declared.facts.NodeFact.{NodeFact};
ghost use Rattle.stk_ctype.specs.Structs.{Structs};
ghost use Rattle.stk_ctype.specs.Sound.{IsSound};
ghost use Rattle.stk_ctype.specs.Types.{type_of};
ghost use Rattle.stk_type_rules.specs.Facts.{Ruled, fact_of};
ghost use Rattle.stk_type_rules.specs.Outcome.{MakesFact, finish};
ghost use Rattle.stk_declare.specs.Answers.{Answers};

use stk_type_rules::{Broken, NodeFact, Untyped};

/// The fact that a rule gives a node, or that the rule refuses it.
pub(crate) fn settled(node: u32, made: Result<NodeFact, Broken>) -> Result<NodeFact, Untyped>
    ensures fact { (r : Ruled) → MakesFact r made → Answers (λ x f. fact_of f ≡ x) (finish node r) result }
    ensures same { (f : NodeFact) → result ≡ Ok f → made ≡ Ok f }
    ensures sound { (structs : Structs) → IfOk made (λ f. IsSound structs (type_of f.ty)) → IfOk result (λ f. IsSound structs (type_of f.ty)) }
{
    match made {
        Ok(fact) => Ok(fact),
        Err(Broken::Rule(rule)) => Err(Untyped::Rule { node, rule }),
        Err(Broken::NoMemory) => Err(Untyped::NoMemory),
    }
}
