// Which literals of a clause to watch.
ghost use Rattle.std.specs.Prelude.{◌≡◌, ◌≢◌, ◌*◌, ◌<◌, ◌≤◌, ◌↔◌, ℕ, length, IsTrue, MatchOption, Some};
ghost use Rattle.std.specs.List.{Contains};
ghost use Rattle.stk_clauses.specs.declared.literal.Lit.{Lit};
ghost use Rattle.stk_clauses.specs.Literals.{negated, AreBelow, AreDistinct};
ghost use Rattle.stk_propagate.specs.Fitting.{IsWatched};
ghost use Rattle.stk_propagate.specs.Choosing.{IsFalseFrom, IsNotLater};

use crate::Assignment;
use stk_clauses::Lit;

/// Where the literal became false: the place of its negation, or how many literals are true, if it isn't false.
fn falsified_at(assigned: &Assignment, lit: Lit) -> usize
    requires { lit.0 < 2 * assigned.now.vars }
    ensures { IsFalseFrom assigned.now.literals lit result }
{
    let count = assigned.literals().len();
    match assigned.place(lit.negated()) {
        None => count,
        Some(place) => place,
    }
}

fn is_it(but: Option<Lit>, lit: Lit) -> bool
    ensures { IsTrue result ↔ (but ≡ Some lit) }
{
    match but {
        None => false,
        Some(other) => other.0 == lit.0,
    }
}

/// The literal of the clause, other than `but`, that became false last, or isn't false. `start` is one of them.
pub(crate) fn latest(assigned: &Assignment, clause: &[Lit], start: Lit, but: Option<Lit>) -> Lit
    requires below { AreBelow assigned.now.vars clause.now }
    requires start { Contains clause.now start }
    requires other { but ≢ Some start }
    ensures among { Contains clause.now result }
    ensures other { but ≢ Some result }
    ensures latest { (m : Lit) → Contains clause.now m → but ≢ Some m → IsNotLater assigned.now.literals m result }
{
    // A literal that isn't false is as late as any.
    if !assigned.is_true(start.negated()) {
        return start;
    }
    let mut best = start;
    let mut when = falsified_at(assigned, start);
    for lit in clause {
        if is_it(but, *lit) {
            continue;
        }
        let at = falsified_at(assigned, *lit);
        if when < at {
            best = *lit;
            when = at;
        }
    }
    best
}

/// A literal of the clause that isn't false, other than these two, and how many stand before it.
fn live_among(assigned: &Assignment, clause: &[Lit], a: Lit, b: Lit) -> Option<(Lit, usize)>
    requires { AreBelow assigned.now.vars clause.now }
    ensures { MatchOption result ((m : Lit) → Contains clause.now m → m ≢ a → m ≢ b → Contains assigned.now.literals (negated m)) (λ p. Contains clause.now p.0 × (p.0 ≢ a) × (p.0 ≢ b) × (Contains assigned.now.literals (negated p.0) → ⊥)) }
{
    for (at, lit) in clause.iter().enumerate() {
        if lit.0 == a.0 || lit.0 == b.0 {
            continue;
        }
        if !assigned.is_true(lit.negated()) {
            return Some((*lit, at));
        }
    }
    None
}

/// A literal of the clause that isn't false, other than these two, and how many stand before it. The search begins
/// behind the first `start` literals, and goes through these last.
pub(crate) fn replacement(
    assigned: &Assignment,
    clause: &[Lit],
    start: usize,
    a: Lit,
    b: Lit,
) -> Option<(Lit, usize)>
    requires { AreBelow assigned.now.vars clause.now }
    ensures { MatchOption result ((m : Lit) → Contains clause.now m → m ≢ a → m ≢ b → Contains assigned.now.literals (negated m)) (λ p. Contains clause.now p.0 × (p.0 ≢ a) × (p.0 ≢ b) × (Contains assigned.now.literals (negated p.0) → ⊥)) }
{
    let (front, back) = clause.split_at(start.min(clause.len()));
    if let Some((lit, at)) = live_among(assigned, back, a, b) {
        return Some((lit, at.wrapping_add(front.len())));
    }
    live_among(assigned, front, a, b)
}

/// The first two literals of a clause, if it has two.
pub(crate) fn first_two(clause: &[Lit]) -> Option<(Lit, Lit)>
    requires { AreDistinct clause.now }
    ensures { IsWatched clause.now result }
{
    if clause.len() < 2 {
        return None;
    }
    Some((clause[0], clause[1]))
}
