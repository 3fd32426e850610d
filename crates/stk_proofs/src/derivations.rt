// Derivations as texts of LRAT, written and read.
ghost use Rattle.std.specs.Prelude.{◌≡◌, ◌≤◌, ◌<◌, ◌+◌, ◌/◌, ◌^◌, ◌++◌, ◌↔◌, Some, ℕ, length, IfOk, IsErrOf, IsTrue};
ghost use Rattle.std.specs.List.{All};
ghost use Rattle.stk_clauses.specs.declared.literal.Lit.{Lit as Literal};
ghost use Rattle.stk_clauses.specs.declared.derivation.Derivation.{Derivation as Steps};
ghost use Rattle.stk_proofs.specs.Numbers.{number_in};
ghost use Rattle.stk_proofs.specs.Lrat.{hints_text, step_text, lrat_text, IsLrat, FitsLratLine, FitsLrat};

use crate::Text;
use crate::lists::{read_hints, read_literals};
use crate::numbers::number_in;
use crate::words::next_word;
use crate::writing::{add, add_literals, add_number};
use std::alloc::Global;
use stk_base::{List, NoMemory};
use stk_clauses::{Derivation, Derived, Lit};

/// The greatest number that is written.
const MOST_NUMBER: u32 = 2_147_483_647;

/// Whether each literal is written as a number below 2^31.
fn literals_fit(literals: &[Lit]) -> bool
    ensures { IsTrue result ↔ All (λ (l : Literal). l.0 / 2 + 1 < 2 ^ 31) literals.now }
{
    for literal in literals {
        if literal.variable() >= MOST_NUMBER {
            return false;
        }
    }
    true
}

/// Whether each hint is written as a number below 2^31.
fn hints_fit(hints: &[u32]) -> bool
    ensures { IsTrue result ↔ All (λ (h : ℕ). h + 1 < 2 ^ 31) hints.now }
{
    for hint in hints {
        if *hint >= MOST_NUMBER {
            return false;
        }
    }
    true
}

/// Whether each literal and each hint of a step is.
fn line_fits(step: &Derived) -> bool
    ensures { IsTrue result ↔ FitsLratLine step.now }
{
    literals_fit(step.clause.as_slice()) && hints_fit(step.hints.as_slice())
}

/// Whether each literal and each hint of these steps is.
fn lines_fit(steps: &[Derived]) -> bool
    ensures { IsTrue result ↔ All FitsLratLine steps.now }
{
    for step in steps {
        if !line_fits(step) {
            return false;
        }
    }
    true
}

/// Whether the ids of so many steps behind so many given clauses are below 2^31.
fn ids_fit(given: u32, count: usize) -> bool
    requires { count < 2 ^ 63 }
    ensures { IsTrue result ↔ (0 < count → given + count < 2 ^ 31) }
{
    count == 0 || u64::from(given) + count as u64 <= u64::from(MOST_NUMBER)
}

/// Whether a derivation over so many given clauses has a text: each number that is written is below 2^31.
pub fn fits_lrat(given: u32, derivation: &Derivation) -> bool
    ensures { IsTrue result ↔ FitsLrat given derivation.now }
{
    let steps = derivation.steps.as_slice();
    ids_fit(given, steps.len()) && lines_fit(steps)
}

/// Adds hints, each with a space behind it.
fn add_hints(text: &mut Vec<u8>, hints: &[u32]) -> Result<(), NoMemory>
    requires { All (λ (h : ℕ). h + 1 < 2 ^ 31) hints.now }
    ensures { IfOk result (λ _. text.new.items ≡ text.old.items ++ hints_text hints.now) }
{
    for hint in hints {
        add_number(text, *hint + 1)?;
        add(text, b" ")?;
    }
    Ok(())
}

/// Adds the line of a step.
fn add_step(text: &mut Vec<u8>, id: u32, step: &Derived) -> Result<(), NoMemory>
    requires { FitsLratLine step.now }
    ensures { IfOk result (λ _. text.new.items ≡ text.old.items ++ step_text id step.now) }
{
    add_number(text, id)?;
    add(text, b" ")?;
    add_literals(text, step.clause.as_slice())?;
    add(text, b"0 ")?;
    add_hints(text, step.hints.as_slice())?;
    add(text, b"0\n")
}

/// The text of a derivation over so many given clauses that has one, as `fits_lrat` tells: for each step a line of its
/// id, its literals, `0`, its hints' ids and `0`, with one space between. The id of a clause is its number plus 1, so
/// the first step has `given` + 1. `read_lrat` reads the text as the same derivation.
pub fn lrat(alloc: Global, given: u32, derivation: &Derivation) -> Result<Vec<u8>, NoMemory>
    requires { FitsLrat given derivation.now }
    ensures text { IfOk result (λ bytes. bytes.items ≡ lrat_text given derivation.now) }
    ensures read_back { IfOk result (λ bytes. IsLrat given bytes.items derivation.now) }
{
    let mut text = Vec::new(alloc);
    let mut id = given;
    for step in derivation.steps.as_slice() {
        id += 1;
        add_step(&mut text, id, step)?;
    }
    Ok(text)
}

/// Whether a word is this number.
fn is_number(word: &[u8], number: u64) -> bool
    ensures { IsTrue result ↔ (number_in word.now ≡ Some number) }
{
    match number_in(word) {
        Some(found) => u64::from(found) == number,
        None => false,
    }
}

/// A step of its own, with these literals and hints and no room beside them.
fn step_of(alloc: Global, clause: &[Lit], hints: &[u32]) -> Result<Derived, NoMemory>
    ensures { IfOk result (λ step. step ≡ record { clause = clause.now; hints = hints.now }) }
{
    Ok(Derived {
        clause: List::from_vec(Vec::from_slice(alloc, clause)?),
        hints: List::from_vec(Vec::from_slice(alloc, hints)?),
    })
}

/// The derivation over so many given clauses that a text says. Its words, those of `read_dimacs`, are for each step
/// its id, its literals, `0`, its hints' ids and `0`. Ids run from `given` + 1 by ones, hints are at least 1, and
/// literals stay as they are written. Numbers are decimal digits, without a leading zero, of a number below 2^31.
/// `Bad` exactly where the text has no such reading, as where a line deletes clauses. It takes time linear in the
/// text.
pub fn read_lrat(alloc: Global, given: u32, bytes: &[u8]) -> Result<Derivation, Text>
    ensures read { IfOk result (λ d. IsLrat given bytes.now d) }
    ensures only { IfOk result (λ d. (e : Steps) → IsLrat given bytes.now e → e ≡ d) }
    ensures fits { IfOk result (FitsLrat given) }
    ensures bad { IsErrOf result Text.Bad → (e : Steps) → IsLrat given bytes.now e → ⊥ }
{
    let mut steps = Vec::new(alloc);
    let mut clause = Vec::new(alloc);
    let mut hints = Vec::new(alloc);
    let mut id = u64::from(given) + 1;
    let mut rest = bytes;
    while let Some((word, behind)) = next_word(rest) {
        if !is_number(word, id) {
            return Err(Text::Bad);
        }
        let hinted = read_literals(&mut clause, MOST_NUMBER, behind)?;
        rest = read_hints(&mut hints, hinted)?;
        let step = step_of(alloc, &clause, &hints)?;
        steps.push(step)?;
        id += 1;
    }
    Ok(Derivation {
        steps: List::from_vec(steps),
    })
}
