//! Constants and string literals as expressions.

ghost use Rattle.std.specs.Prelude.{◌≡◌, IfOk};
ghost use Rattle.stk_ctype.specs.Types.{type_of};
ghost use Rattle.stk_ctype.specs.Structs.{Structs};
ghost use Rattle.stk_ctype.specs.Sound.{IsSound};
ghost use Rattle.stk_type_rules.specs.Outcome.{MakesFact};
ghost use Rattle.stk_typing.specs.Literals.{number_rule, character_rule, string_of, text_rule};

use std::alloc::Global;
use stk_base::Span;
use stk_ctype::{CType, IntKind, SharedType};
use stk_numbers::{character_constant, integer_constant, string_bytes};
use stk_type_rules::{Broken, NodeFact};

/// An integer constant, given as its text (C11 6.4.4.1); rule 11 refuses a text that isn't one, or whose number no kind
/// of its list holds.
pub(crate) fn number_rule(text: &[u8]) -> Result<NodeFact, Broken>
    ensures fact { MakesFact (number_rule text.now) result }
    ensures sound { (structs : Structs) → IfOk result (λ f. IsSound structs (type_of f.ty)) }
{
    match integer_constant(text) {
        None => Err(Broken::Rule(11)),
        Some((kind, number)) => Ok(NodeFact::literal(CType::Int(kind), i128::from(number))),
    }
}

/// A character constant, given as its text (C11 6.4.4.4); rule 11 refuses a text that isn't one character or escape.
pub(crate) fn character_rule(text: &[u8]) -> Result<NodeFact, Broken>
    ensures fact { MakesFact (character_rule text.now) result }
    ensures sound { (structs : Structs) → IfOk result (λ f. IsSound structs (type_of f.ty)) }
{
    match character_constant(text) {
        None => Err(Broken::Rule(11)),
        Some(number) => Ok(NodeFact::literal(CType::Int(IntKind::Int), number)),
    }
}

// A string of so many bytes.
fn string_of(alloc: Global, count: usize) -> Result<NodeFact, Broken>
    ensures fact { MakesFact (string_of count) result }
    ensures sound { (structs : Structs) → IfOk result (λ f. IsSound structs (type_of f.ty)) }
{
    if count >= 2_147_483_647 {
        return Err(Broken::Rule(5));
    }
    let element = SharedType::new(alloc, CType::Int(IntKind::Char))?;
    Ok(NodeFact::place(CType::Array(element, Some(count as u64 + 1))))
}

/// String literals in a row, given by their spans in the input: an array of `char` with a zero at its end, an lvalue
/// (C11 6.4.5). Rule 5 refuses a string that is too large for an array, rule 11 one with a prefix, with an escape that
/// isn't one or with a value above 255.
pub(crate) fn text_rule(alloc: Global, bytes: &[u8], parts: &[Span]) -> Result<NodeFact, Broken>
    ensures fact { MakesFact (text_rule bytes.now parts.now) result }
    ensures sound { (structs : Structs) → IfOk result (λ f. IsSound structs (type_of f.ty)) }
{
    match string_bytes(alloc, bytes, parts)? {
        None => Err(Broken::Rule(11)),
        Some(found) => string_of(alloc, found.len()),
    }
}
