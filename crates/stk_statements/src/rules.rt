//! The rules of statements.

ghost use Rattle.std.specs.Prelude.{◌≡◌, ◌||◌, IfOk, Option, if◌then◌else◌, length, map};
ghost use Rattle.stk_ctype.specs.Types.{type_of};
ghost use Rattle.stk_ctype.specs.Structs.{Structs};
ghost use Rattle.stk_ctype.specs.Sound.{IsSound};
ghost use Rattle.stk_type_rules.specs.Facts.{Breaks, Fits, plain, fact_of};
ghost use Rattle.stk_type_rules.specs.Outcome.{MakesFact};
ghost use Rattle.stk_function_types.specs.Statements.{has_struct, lacks_scalar, switch_rule, leave_rule, return_value, return_rule};
ghost use Rattle.stk_function_types.specs.Functions.{storage_rule};
ghost use Rattle.stk_statements.specs.Rows.{IsBelow, known_at};

use stk_ctype::{CType, IntKind};
use stk_tree::Storage;
use stk_type_rules::{Broken, NodeFact, fact, is_scalar, is_struct, is_void, reads_scalar};

/// A node without a type.
pub(crate) fn nothing() -> Result<NodeFact, Broken>
    ensures fact { MakesFact (Fits plain) result }
    ensures sound { (structs : Structs) → IfOk result (λ f. IsSound structs (type_of f.ty)) }
{
    Ok(NodeFact::plain())
}

/// A node without a type, or one that a rule refuses.
pub(crate) fn unless(refused: bool, rule: u8) -> Result<NodeFact, Broken>
    ensures fact { MakesFact (if refused then Breaks rule else Fits plain) result }
    ensures sound { (structs : Structs) → IfOk result (λ f. IsSound structs (type_of f.ty)) }
{
    if refused {
        Err(Broken::Rule(rule))
    } else {
        Ok(NodeFact::plain())
    }
}

/// A node without a type, or one that the first of two rules refuses that does.
pub(crate) fn unless_two(refused: bool, rule: u8, too: bool, second: u8) -> Result<NodeFact, Broken>
    ensures fact { MakesFact (if refused then Breaks rule else (if too then Breaks second else Fits plain)) result }
    ensures sound { (structs : Structs) → IfOk result (λ f. IsSound structs (type_of f.ty)) }
{
    if refused {
        Err(Broken::Rule(rule))
    } else if too {
        Err(Broken::Rule(second))
    } else {
        Ok(NodeFact::plain())
    }
}

/// Whether an expression that may be missing is a struct.
pub(crate) fn has_struct(facts: &Vec<NodeFact>, at: Option<usize>) -> bool
    requires { IsBelow (length (map fact_of facts.now.items)) at }
    ensures { result ≡ has_struct (known_at (map fact_of facts.now.items) at) }
{
    match at {
        None => false,
        Some(i) => is_struct(&fact(facts, i).ty),
    }
}

/// Whether one that is there is no scalar.
pub(crate) fn lacks_scalar(facts: &Vec<NodeFact>, at: Option<usize>) -> bool
    requires { IsBelow (length (map fact_of facts.now.items)) at }
    ensures { result ≡ lacks_scalar (known_at (map fact_of facts.now.items) at) }
{
    match at {
        None => false,
        Some(i) => !reads_scalar(&fact(facts, i).ty),
    }
}

/// What a `switch` tests is an integer.
pub(crate) fn switch_rule(kind: Option<IntKind>) -> Result<NodeFact, Broken>
    ensures fact { MakesFact (switch_rule kind) result }
    ensures sound { (structs : Structs) → IfOk result (λ f. IsSound structs (type_of f.ty)) }
{
    match kind {
        None => Err(Broken::Rule(6)),
        Some(_) => Ok(NodeFact::plain()),
    }
}

/// `break` and `continue` leave something.
pub(crate) fn leave_rule(can: bool) -> Result<NodeFact, Broken>
    ensures fact { MakesFact (leave_rule can) result }
    ensures sound { (structs : Structs) → IfOk result (λ f. IsSound structs (type_of f.ty)) }
{
    if can {
        Ok(NodeFact::plain())
    } else {
        Err(Broken::Rule(13))
    }
}

// A value that a function returns whose result has this type.
fn return_value(returns: &CType, value: &NodeFact) -> Result<NodeFact, Broken>
    ensures fact { MakesFact (return_value (type_of returns.now) (fact_of value.now)) result }
    ensures sound { (structs : Structs) → IfOk result (λ f. IsSound structs (type_of f.ty)) }
{
    if is_struct(&value.ty) {
        Err(Broken::Rule(9))
    } else if is_void(returns) {
        Err(Broken::Rule(14))
    } else if is_scalar(returns) && reads_scalar(&value.ty) {
        Ok(NodeFact::plain())
    } else {
        Err(Broken::Rule(6))
    }
}

/// A `return` of a function whose result has this type.
pub(crate) fn return_rule(
    returns: &CType,
    facts: &Vec<NodeFact>,
    at: Option<usize>,
) -> Result<NodeFact, Broken>
    requires { IsBelow (length (map fact_of facts.now.items)) at }
    ensures fact { MakesFact (return_rule (type_of returns.now) (known_at (map fact_of facts.now.items) at)) result }
    ensures sound { (structs : Structs) → IfOk result (λ f. IsSound structs (type_of f.ty)) }
{
    match at {
        None => unless(!is_void(returns), 14),
        Some(i) => return_value(returns, fact(facts, i)),
    }
}

/// The storage word of a function definition.
pub(crate) fn storage_rule(word: Option<Storage>) -> Result<NodeFact, Broken>
    ensures fact { MakesFact (storage_rule word) result }
    ensures sound { (structs : Structs) → IfOk result (λ f. IsSound structs (type_of f.ty)) }
{
    match word {
        Some(Storage::Typedef) => Err(Broken::Rule(15)),
        None | Some(Storage::Extern) | Some(Storage::Static) => Ok(NodeFact::plain()),
    }
}
