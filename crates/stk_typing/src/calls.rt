//! Calls.

ghost use Rattle.std.specs.Prelude.{◌≡◌, ◌<◌, ◌^◌, ◌-◌, IfOk, IfSome, List, [], Option, Some, map};
ghost use Rattle.std.specs.Option.{option_map, option_copied};
ghost use Rattle.stk_ctype.specs.Types.{TypeTrees, type_of, signature_of, row_of};
ghost use Rattle.stk_ctype.specs.Structs.{Structs};
ghost use Rattle.stk_ctype.specs.Sound.{IsSound, IsSoundSignature};
ghost use Rattle.stk_type_rules.specs.Facts.{Fact, fact_of};
ghost use Rattle.stk_type_rules.specs.Outcome.{MakesFact};
ghost use Rattle.stk_typing.specs.Calls.{AreArguments, begin_with_struct, behind_first, call_result, call_rule, misfits, parameters_in, takes, with_behind};

use stk_ctype::{CType, Signature};
use stk_type_rules::{Broken, NodeFact, is_struct, reads_scalar};

/// What is known of the arguments of a call: how many they are, whether one doesn't fit its parameter or can't be
/// passed at all, and whether one is a struct.
#[derive(Clone, Copy, Debug, PartialEq, Eq)]
pub struct Arguments {
    pub count: usize,
    pub has_misfit: bool,
    pub has_struct: bool,
}

// Whether an argument doesn't fit its parameter, by whether that is a struct.
fn misfits(takes_struct: bool, x: &NodeFact) -> bool
    ensures { result ≡ misfits takes_struct (fact_of x.now) }
{
    !is_struct(&x.ty) && (takes_struct || !reads_scalar(&x.ty))
}

impl Arguments {
    /// No argument.
    pub fn none() -> Arguments
        ensures { (params : TypeTrees) → AreArguments params [] result }
    {
        Arguments {
            count: 0,
            has_misfit: false,
            has_struct: false,
        }
    }

    /// One more argument behind the others, by whether its parameter is a struct.
    pub fn behind(self, takes_struct: bool, x: &NodeFact) -> Arguments
        requires { self.count < 2 ^ 64 - 1 }
        ensures { result ≡ with_behind takes_struct self (fact_of x.now) }
    {
        Arguments {
            count: self.count + 1,
            has_misfit: self.has_misfit || misfits(takes_struct, x),
            has_struct: self.has_struct || is_struct(&x.ty),
        }
    }
}

/// The parameters of what is called.
pub(crate) fn parameters_in<'a>(f: Option<&'a Signature>) -> &'a [CType]
    ensures { row_of (map type_of result.now) ≡ parameters_in (option_map signature_of (option_copied f.entry)) }
{
    match f {
        None => &[],
        Some(signature) => signature.params.as_slice(),
    }
}

/// Whether the first parameter is a struct.
pub(crate) fn begin_with_struct(params: &[CType]) -> bool
    ensures { result ≡ begin_with_struct (row_of (map type_of params.now)) }
{
    match params {
        [] => false,
        [first, _rest @ ..] => is_struct(first),
    }
}

/// The parameters behind the first one.
pub(crate) fn behind_first(params: &[CType]) -> &[CType]
    ensures { row_of (map type_of result.now) ≡ behind_first (row_of (map type_of params.now)) }
{
    match params {
        [] => params,
        [_, others @ ..] => others,
    }
}

// Whether so many arguments may be passed for so many parameters.
fn takes(more: bool, parameters: usize, arguments: usize) -> bool
    ensures { result ≡ takes more parameters arguments }
{
    if more {
        parameters <= arguments
    } else {
        parameters == arguments
    }
}

// The value of a call of a function.
#[tactic(auto, using(crate::proofs::Signatures::count_row))]
fn call_result(f: &Signature, a: Arguments) -> Result<NodeFact, Broken>
    ensures fact { (xs : List Fact) → AreArguments (parameters_in (Some (signature_of f.now))) xs a → MakesFact (call_result (signature_of f.now) xs) result }
    ensures sound { (structs : Structs) → IsSoundSignature structs (signature_of f.now) → IfOk result (λ x. IsSound structs (type_of x.ty)) }
{
    if !takes(f.more, f.params.len(), a.count) {
        return Err(Broken::Rule(8));
    }
    if is_struct(&f.result) || a.has_struct {
        return Err(Broken::Rule(9));
    }
    let ty = f.result.copy()?;
    Ok(NodeFact::value(ty))
}

/// A call (C11 6.5.2.2), of a function or of what is none, with these arguments. Rule 6 refuses an argument that is
/// neither a scalar nor a struct and a scalar for a parameter that is a struct, rule 8 what is no function and a wrong
/// number of arguments, rule 9 a struct as an argument or as the result.
pub(crate) fn call_rule(f: Option<&Signature>, a: Arguments) -> Result<NodeFact, Broken>
    ensures fact { (xs : List Fact) → AreArguments (parameters_in (option_map signature_of (option_copied f.entry))) xs a → MakesFact (call_rule (option_map signature_of (option_copied f.entry)) xs) result }
    ensures sound { (structs : Structs) → IfSome (option_copied f.entry) (λ g. IsSoundSignature structs (signature_of g)) → IfOk result (λ x. IsSound structs (type_of x.ty)) }
{
    if a.has_misfit {
        return Err(Broken::Rule(6));
    }
    match f {
        None => Err(Broken::Rule(8)),
        Some(signature) => call_result(signature, a),
    }
}
