//! Calls whose conditions are tested first.
ghost use Rattle.std.specs.Prelude.{◌≡◌, ◌*◌, ◌<◌, List, IfOk, MatchOption, length};
ghost use Rattle.std.specs.List.{All};
ghost use Rattle.stk_clauses.specs.declared.literal.Lit.{Lit};
ghost use Rattle.stk_clauses.specs.Literals.{AreBelow};
ghost use Rattle.stk_propagate.specs.Fitting.{Fits};

use std::alloc::Global;
use stk_base::NoMemory;
use stk_clauses::{Cnf, Lit, Store, are_distinct};
use stk_propagate::{Assignment, Trail, WatchLists};

/// The number that stands for none.
pub(crate) const NONE: u32 = 99;

/// Four variables, clauses over them, literals that are assumed one after the other, and what propagation finds then:
/// the number of a clause with only false literals, the true literals, and the reason of each.
#[derive(Drop)]
pub(crate) struct Row {
    pub clauses: &'static [&'static [u32]],
    pub assumed: &'static [u32],
    pub found: u32,
    pub literals: &'static [u32],
    pub reasons: &'static [u32],
}

fn number_of(answer: Option<u32>) -> u32 {
    match answer {
        Some(number) => number,
        None => NONE,
    }
}

/// Appends the clause of these numbers, if no literal stands twice.
pub(crate) fn put(alloc: Global, store: &mut Store, numbers: &[u32]) -> Result<bool, NoMemory> {
    let mut clause = Vec::new(alloc);
    for number in numbers {
        clause.push(Lit(*number))?;
    }
    if store.count() > 2000000 || !are_distinct(&clause) {
        return Ok(false);
    }
    store.push(&clause)?;
    Ok(true)
}

/// Makes an unassigned literal true once every clause is quiet. Says whether that was possible.
pub(crate) fn decide(trail: &mut Trail, store: &Store, lit: Lit) -> bool
    requires fits { Fits trail.old store.now }
    requires below { lit.0 < 2 * trail.old.assigned.vars }
    ensures fits { Fits trail.new store.now }
    ensures vars { trail.new.assigned.vars ≡ trail.old.assigned.vars }
{
    if let Some(_) = trail.propagate(store) {
        return false;
    }
    match trail.value(lit) {
        Some(_) => false,
        None => {
            trail.assume(lit, store);
            true
        }
    }
}

/// Goes back to where so many literals were true, if the next one was assumed. Says whether it was.
pub(crate) fn undo(trail: &mut Trail, count: u32) -> bool
    ensures fits { (cs : List (List Lit)) → Fits trail.old cs → Fits trail.new cs }
    ensures vars { trail.new.assigned.vars ≡ trail.old.assigned.vars }
{
    let place = count as usize;
    let literals = trail.assigned();
    if place >= literals.len() {
        return false;
    }
    let lit = literals[place];
    if let Some(_) = trail.reason(lit) {
        return false;
    }
    trail.back_to(count);
    true
}

/// Takes one more clause in, where nothing is true. Says whether that was possible.
pub(crate) fn learn(trail: &mut Trail, store: &mut Store, clause: &[Lit]) -> Result<bool, NoMemory>
    requires fits { Fits trail.old store.old }
    requires below { AreBelow trail.old.assigned.vars clause.now }
    ensures fits { IfOk result (λ _. Fits trail.new store.new) }
    ensures vars { trail.new.assigned.vars ≡ trail.old.assigned.vars }
{
    if trail.assigned().len() > 0 || store.count() > 2000000 || !are_distinct(clause) {
        return Ok(false);
    }
    let id = store.push(clause)?;
    trail.attach(id, store)?;
    Ok(true)
}

/// Whether the true literals are these, in this order, with these reasons.
pub(crate) fn stands(trail: &Trail, literals: &[u32], reasons: &[u32]) -> bool
    requires { trail.now.assigned.vars ≡ 4 }
{
    if trail.assigned().len() != literals.len() || literals.len() != reasons.len() {
        return false;
    }
    for i in 0..literals.len() {
        let lit = Lit(literals[i]);
        if lit.0 >= 8 || trail.assigned()[i].0 != lit.0 {
            return false;
        }
        if number_of(trail.reason(lit)) != reasons[i] {
            return false;
        }
    }
    true
}

/// The clauses of a row, or none if a literal stands twice or is out of range.
fn clauses_of(alloc: Global, row: &Row) -> Result<Option<Cnf>, NoMemory>
    ensures { IfOk result (λ r. MatchOption r (Unit {0}) (λ c. All (AreBelow 4) c.store)) }
{
    let mut store = Store::new(alloc);
    for numbers in row.clauses {
        if !put(alloc, &mut store, numbers)? {
            return Ok(None);
        }
    }
    let cnf = Cnf { vars: 4, store };
    if !cnf.is_within() {
        return Ok(None);
    }
    Ok(Some(cnf))
}

/// Whether a row is as it says.
pub(crate) fn holds(alloc: Global, row: &Row) -> Result<bool, NoMemory> {
    let Some(cnf) = clauses_of(alloc, row)? else {
        return Ok(false);
    };
    let mut trail = Trail::reserve(alloc, 4, &cnf.store)?;
    for number in row.assumed {
        if *number >= 8 || !decide(&mut trail, &cnf.store, Lit(*number)) {
            return Ok(false);
        }
    }
    let found = trail.propagate(&cnf.store);
    Ok(number_of(found) == row.found && stands(&trail, row.literals, row.reasons))
}

/// Whether propagation ends without a clause of false literals, and the true literals are these, with these reasons.
fn settles(trail: &mut Trail, store: &Store, literals: &[u32], reasons: &[u32]) -> bool
    requires fits { Fits trail.old store.now }
    requires vars { trail.old.assigned.vars ≡ 4 }
    ensures fits { Fits trail.new store.now }
    ensures vars { trail.new.assigned.vars ≡ 4 }
{
    if let Some(_) = trail.propagate(store) {
        return false;
    }
    stands(trail, literals, reasons)
}

static TWO: [&[u32]; 2] = [&[1, 2], &[0, 4]];

/// Assumes a literal and, back from there, its negation; then takes the clause (not b) in, where nothing is true.
fn turns(trail: &mut Trail, store: &mut Store) -> Result<bool, NoMemory>
    requires fits { Fits trail.old store.old }
    requires vars { trail.old.assigned.vars ≡ 4 }
    requires two { length store.old ≡ 2 }
{
    if !decide(trail, store, Lit(0)) || !settles(trail, store, &[0, 2], &[NONE, 0]) {
        return Ok(false);
    }
    if undo(trail, 1) || undo(trail, 2) || !undo(trail, 0) {
        return Ok(false);
    }
    if !decide(trail, store, Lit(1)) || !settles(trail, store, &[1, 4], &[NONE, 1]) {
        return Ok(false);
    }
    if !undo(trail, 0) || !learn(trail, store, &[Lit(3)])? || store.count() != 3 {
        return Ok(false);
    }
    Ok(
        settles(trail, store, &[3, 1, 4], &[2, 0, 1])
            && trail.watched(0).is_some()
            && trail.watched(2).is_none(),
    )
}

/// Whether going back and taking a clause in go as they should.
pub(crate) fn goes_back(alloc: Global) -> Result<bool, NoMemory> {
    let row = Row {
        clauses: &TWO,
        assumed: &[],
        found: NONE,
        literals: &[],
        reasons: &[],
    };
    let Some(cnf) = clauses_of(alloc, &row)? else {
        return Ok(false);
    };
    let mut store = cnf.store;
    let mut trail = Trail::reserve(alloc, 4, &store)?;
    if store.count() != 2 {
        return Ok(false);
    }
    turns(&mut trail, &mut store)
}

/// How many literals are true when the first one is assumed, of clauses by which each literal forces the next one.
pub(crate) fn chain_length(alloc: Global, clauses: u32) -> Result<usize, NoMemory>
    requires { clauses < 2000000 }
{
    let mut store = Store::new(alloc);
    for i in 0..clauses {
        if !put(alloc, &mut store, &[2 * i + 1, 2 * i + 2])? {
            return Ok(0);
        }
    }
    let cnf = Cnf {
        vars: clauses + 1,
        store,
    };
    if !cnf.is_within() {
        return Ok(0);
    }
    let mut trail = Trail::reserve(alloc, clauses + 1, &cnf.store)?;
    if !decide(&mut trail, &cnf.store, Lit(0)) {
        return Ok(0);
    }
    if let Some(_) = trail.propagate(&cnf.store) {
        return Ok(0);
    }
    Ok(trail.assigned().len())
}

/// Makes a literal true that is unassigned. Says whether it was.
pub(crate) fn add(assigned: &mut Assignment, number: u32, reason: Option<u32>) -> bool {
    let lit = Lit(number);
    if number / 2 >= assigned.vars() {
        return false;
    }
    match assigned.value(lit) {
        Some(_) => false,
        None => {
            assigned.push(lit, reason);
            true
        }
    }
}

/// Whether the literal is true, 1, or false, 0, where it stands, and its reason, each `NONE` if there is none.
pub(crate) fn told(assigned: &Assignment, number: u32) -> (u32, usize, u32) {
    let lit = Lit(number);
    if number / 2 >= assigned.vars() {
        return (NONE, 99, NONE);
    }
    let value = match assigned.value(lit) {
        Some(true) => 1,
        Some(false) => 0,
        None => NONE,
    };
    let place = match assigned.place(lit) {
        Some(place) => place,
        None => 99,
    };
    (value, place, number_of(assigned.reason(lit)))
}

/// Takes the first number out of a chain, if the chain exists.
pub(crate) fn first_of(chains: &mut WatchLists, chain: usize) -> u32
    requires { chain < length chains.old.chains }
    ensures { length chains.new.chains ≡ length chains.old.chains }
{
    number_of(chains.take_first(chain))
}

/// Takes the first number out of a chain and puts it into another one.
pub(crate) fn hand_over(chains: &mut WatchLists, from: usize, to: usize) -> u32
    requires from { from < length chains.old.chains }
    requires to { to < length chains.old.chains }
    ensures { length chains.new.chains ≡ length chains.old.chains }
{
    match chains.take_first(from) {
        Some(number) => {
            chains.link(number, to);
            number
        }
        None => NONE,
    }
}

/// Three chains, and the number 0 in the first.
pub(crate) fn with_one(alloc: Global) -> Result<WatchLists, NoMemory>
    ensures { IfOk result (λ c. length c.chains ≡ 3) }
{
    let mut chains = WatchLists::reserve(alloc, 3)?;
    chains.grow()?;
    chains.link(0, 0);
    Ok(chains)
}
