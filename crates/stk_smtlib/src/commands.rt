// The commands of a script, each in a line.
ghost use Rattle.std.specs.Prelude.{◌≡◌, ◌<◌, ◌+◌, ◌++◌, ◌∷◌, [], IfOk, codes, length, take};
ghost use Rattle.stk_terms.specs.Terms.{term_at};
ghost use Rattle.stk_scripts.specs.Tokens.{sort_tokens, declared_tokens, defined_tokens, declared_commands, defined_commands, assert_tokens};
ghost use Rattle.stk_scripts.specs.Texts.{laid, lines};
ghost use Rattle.stk_scripts.specs.Syntax.{literal};
ghost use Rattle.stk_scripts.specs.declared.operators.TestOp.TheVariants as tests;
ghost use Rattle.stk_smtlib.specs.Written.{input_name, at, inputs_from, definition, definitions_from, head_tokens, wanted_line};

use crate::bodies::{add_body, argument};
use crate::pieces::{add, add_count, add_input, add_is, add_term};
use stk_base::NoMemory;
use stk_terms::{TermId, Terms};

// Adds the sort of terms of a width.
fn add_sort(text: &mut Vec<u8>, width: u8) -> Result<(), NoMemory>
    ensures { IfOk result (λ _. text.new.items ≡ text.old.items ++ laid (sort_tokens width [])) }
{
    add(text, b"(_ BitVec ")?;
    add_count(text, u64::from(width))?;
    add(text, b")")
}

// Begins the declaration of an input.
fn add_declared_name(text: &mut Vec<u8>, key: u64) -> Result<(), NoMemory>
    ensures { IfOk result (λ _. text.new.items ≡ text.old.items ++ (codes "(declare-fun " ++ input_name key)) }
{
    add(text, b"(declare-fun ")?;
    add_input(text, key)?;
    Ok(())
}

// Adds the declaration of an input.
fn add_declared(text: &mut Vec<u8>, key: usize, width: u8) -> Result<(), NoMemory>
    ensures { IfOk result (λ _. text.new.items ≡ text.old.items ++ (laid (declared_tokens (record { name = input_name key; width = width })) ++ 10 ∷ [])) }
{
    add_declared_name(text, key as u64)?;
    add(text, b" () ")?;
    add_sort(text, width)?;
    add(text, b")\n")?;
    Ok(())
}

/// Adds the declarations of the inputs, in order.
pub(crate) fn add_inputs(text: &mut Vec<u8>, widths: &[u8]) -> Result<(), NoMemory>
    ensures { IfOk result (λ _. text.new.items ≡ text.old.items ++ lines (declared_commands (inputs_from 0 widths.now))) }
{
    for key in 0..widths.len() {
        add_declared(text, key, widths[key])?;
    }
    Ok(())
}

// Adds what stands before the term of a definition.
fn add_head(text: &mut Vec<u8>, id: TermId, width: u8) -> Result<(), NoMemory>
    ensures { IfOk result (λ _. text.new.items ≡ text.old.items ++ (laid (head_tokens id.0 width) ++ 32 ∷ [])) }
{
    add(text, b"(define-fun ")?;
    add_term(text, id)?;
    add(text, b" () ")?;
    add_sort(text, width)?;
    add(text, b" ")
}

// Adds the definition of a term.
fn add_defined(text: &mut Vec<u8>, terms: &Terms, id: TermId) -> Result<(), NoMemory>
    requires { id.0 < length terms.now.terms }
    ensures { IfOk result (λ _. text.new.items ≡ text.old.items ++ (laid (defined_tokens (definition terms.now id.0 (term_at terms.now id.0))) ++ 10 ∷ [])) }
{
    // For the prover: the terms keep their facts.
    let _ = terms.count();
    let args = terms.args(id);
    let width = terms.width(argument(args, 0));
    add_head(text, id, terms.width(id))?;
    add_body(text, terms.op(id), width, args)?;
    add(text, b")\n")?;
    Ok(())
}

// Adds the definition of a term, if it is wanted.
fn add_wanted(text: &mut Vec<u8>, terms: &Terms, id: TermId, wanted: bool) -> Result<(), NoMemory>
    requires { id.0 < length terms.now.terms }
    ensures { IfOk result (λ _. text.new.items ≡ text.old.items ++ wanted_line terms.now id.0 wanted) }
{
    if !wanted {
        return Ok(());
    }
    add_defined(text, terms, id)
}

/// Adds the definitions of the terms on which a goal depends, in order, the goal itself the last.
pub(crate) fn add_definitions(
    text: &mut Vec<u8>,
    terms: &Terms,
    goal: TermId,
) -> Result<(), NoMemory>
    requires { goal.0 < length terms.now.terms }
    ensures { IfOk result (λ _. text.new.items ≡ text.old.items ++ lines (defined_commands (definitions_from terms.now goal.0 0 (take (goal.0 + 1) terms.now.terms)))) }
{
    let parts = terms.parts(goal)?;
    let chosen = parts.as_slice();
    for place in 0..chosen.len() {
        add_wanted(text, terms, TermId(place), chosen[place])?;
    }
    Ok(())
}

/// Adds that a goal is 1.
pub(crate) fn add_assertion(text: &mut Vec<u8>, goal: TermId) -> Result<(), NoMemory>
    ensures { IfOk result (λ _. text.new.items ≡ text.old.items ++ (laid (assert_tokens tests.Equal (at goal.0) (literal 1 1)) ++ 10 ∷ [])) }
{
    add(text, b"(assert ")?;
    add_is(text, goal, 1, 1)?;
    add(text, b")\n")
}
