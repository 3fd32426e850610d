// Clause lists as texts of DIMACS, written and read.
ghost use Rattle.std.specs.Prelude.{◌≡◌, ◌≤◌, ◌<◌, ◌-◌, ◌^◌, ◌++◌, ◌↔◌, min, Some, None, length, IfOk, IsErrOf, IsTrue};
ghost use Rattle.stk_proofs.specs.Words.{words_of};
ghost use Rattle.stk_proofs.specs.Dimacs.{clause_text, clauses_text, head_text, dimacs_text, literal_count, clauses_in, cnf_of, dimacs_in, FitsDimacs};

use crate::Text;
use crate::distinct::distinct;
use crate::lists::read_literals;
use crate::numbers::number_in;
use crate::words::next_word;
use crate::writing::{add, add_literals, add_number};
use std::alloc::Global;
use stk_base::NoMemory;
use stk_clauses::{Cnf, Lit, Store};

/// The most variables of a clause list.
const MOST_VARS: u32 = 1_073_741_823;

/// A clause list has fewer clauses than this.
const CLAUSES: u32 = 2_147_483_647;

/// A clause list has fewer literals than this.
const LITERALS: u64 = 2_147_483_648;

/// Adds the line of a clause.
fn add_clause(text: &mut Vec<u8>, clause: &[Lit]) -> Result<(), NoMemory>
    ensures { IfOk result (λ _. text.new.items ≡ text.old.items ++ clause_text clause.now) }
{
    add_literals(text, clause)?;
    add(text, b"0\n")
}

/// Adds the first line.
fn add_head(text: &mut Vec<u8>, vars: u32, count: u32) -> Result<(), NoMemory>
    ensures { IfOk result (λ _. text.new.items ≡ text.old.items ++ head_text vars count) }
{
    add(text, b"p cnf ")?;
    add_number(text, vars)?;
    add(text, b" ")?;
    add_number(text, count)?;
    add(text, b"\n")
}

/// Adds the lines of the clauses.
fn add_clauses(text: &mut Vec<u8>, store: &Store) -> Result<(), NoMemory>
    ensures { IfOk result (λ _. text.new.items ≡ text.old.items ++ clauses_text store.now) }
{
    for id in 0..store.count() {
        add_clause(text, store.clause(id))?;
    }
    Ok(())
}

/// How many literals clauses have together; the limit stands for any number from it on.
fn count_literals(store: &Store) -> u64
    ensures { result ≡ min (literal_count store.now) 2147483648 }
{
    let mut total: u64 = 0;
    for id in 0..store.count() {
        total = (total + store.clause(id).len() as u64).min(LITERALS);
    }
    total
}

/// Whether a clause list has a text: it has at most 1,073,741,823 variables, fewer than 2^31 - 1 clauses and fewer than
/// 2^31 literals, each of a variable below `vars`.
pub fn fits_dimacs(cnf: &Cnf) -> bool
    ensures { IsTrue result ↔ FitsDimacs cnf.now }
{
    cnf.vars <= MOST_VARS
        && cnf.store.count() < CLAUSES
        && count_literals(&cnf.store) < LITERALS
        && cnf.is_within()
}

/// The text of a clause list that has one, as `fits_dimacs` tells: the line `p cnf V C`, V being how many variables
/// there are and C how many clauses, and then for each clause a line of its literals and `0`, with one space between.
/// Variable v is written as v + 1, with `-` where it is negated. `read_dimacs` reads the text as the same list.
pub fn dimacs(alloc: Global, cnf: &Cnf) -> Result<Vec<u8>, NoMemory>
    requires { FitsDimacs cnf.now }
    ensures text { IfOk result (λ bytes. bytes.items ≡ dimacs_text cnf.now) }
    ensures read_back { IfOk result (λ bytes. dimacs_in bytes.items ≡ Some cnf.now) }
{
    let mut text = Vec::new(alloc);
    add_head(&mut text, cnf.vars, cnf.store.count())?;
    add_clauses(&mut text, &cnf.store)?;
    Ok(text)
}

/// The clause list of so many clauses over so many variables that the words of a text are. The literals of a clause are
/// gathered in one buffer, which is used again.
#[tactic(auto, using(crate::proofs::Clauses::cnf_from_start))]
fn read_clauses(alloc: Global, vars: u32, count: u32, text: &[u8]) -> Result<Cnf, Text>
    requires vars { vars ≤ 1073741823 }
    requires few { count < 2 ^ 31 - 1 }
    ensures read { IfOk result (λ cnf. cnf_of vars (clauses_in vars count (words_of text.now)) ≡ Some cnf) }
    ensures fits { IfOk result FitsDimacs }
    ensures bad { IsErrOf result Text.Bad → cnf_of vars (clauses_in vars count (words_of text.now)) ≡ None }
{
    let mut store = Store::new(alloc);
    let mut literals = Vec::new(alloc);
    let mut total: u64 = 0;
    let mut rest = text;
    let mut left = count;
    while left > 0 {
        rest = read_literals(&mut literals, vars, rest)?;
        total = (total + literals.len() as u64).min(LITERALS);
        store.push(&distinct(alloc, &literals)?)?;
        left -= 1;
    }
    if next_word(rest).is_some() {
        return Err(Text::Bad);
    }
    if total >= LITERALS {
        return Err(Text::Bad);
    }
    Ok(Cnf { vars, store })
}

/// The clause list that a text says. Lines that begin with `c` are dropped; the rest is words between spaces, tabs,
/// newlines and carriage returns: `p`, `cnf`, V, C, and then C clauses, each its literals and `0`. V is at most
/// 1,073,741,823, C is below 2^31 - 1, literals lie between -V and V, and fewer than 2^31 of them are written; one
/// that a clause repeats is read once. Numbers are decimal digits without a leading zero. `Bad` exactly where the
/// text has no such reading. It takes time linear in the text, and no memory for variables that no clause names.
pub fn read_dimacs(alloc: Global, bytes: &[u8]) -> Result<Cnf, Text>
    ensures read { IfOk result (λ cnf. dimacs_in bytes.now ≡ Some cnf) }
    ensures fits { IfOk result FitsDimacs }
    ensures bad { IsErrOf result Text.Bad → dimacs_in bytes.now ≡ None }
{
    let Some((p, rest)) = next_word(bytes) else {
        return Err(Text::Bad);
    };
    let Some((cnf, rest)) = next_word(rest) else {
        return Err(Text::Bad);
    };
    let Some((vars, rest)) = next_word(rest) else {
        return Err(Text::Bad);
    };
    let Some((count, rest)) = next_word(rest) else {
        return Err(Text::Bad);
    };
    if p != b"p".as_slice() || cnf != b"cnf".as_slice() {
        return Err(Text::Bad);
    }
    let Some(vars) = number_in(vars) else {
        return Err(Text::Bad);
    };
    let Some(count) = number_in(count) else {
        return Err(Text::Bad);
    };
    if vars > MOST_VARS || count >= CLAUSES {
        return Err(Text::Bad);
    }
    read_clauses(alloc, vars, count, rest)
}
