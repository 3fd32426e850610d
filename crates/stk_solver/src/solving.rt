// The search as a call.
ghost use Rattle.std.specs.Prelude.{◌+◌, ◌-◌, ◌^◌, ◌<◌, length, IfOk};
ghost use Rattle.std.specs.List.{All};
ghost use Rattle.stk_clauses.specs.Literals.{AreBelow};
ghost use Rattle.stk_solver.specs.Answers.{IsAnswer};

use crate::search::Search;
use std::alloc::Global;
use stk_base::{Bits, List, NoMemory};
use stk_clauses::{Cnf, Derivation};

/// What a search ends with: values that satisfy the clauses, a derivation that refutes them, or a spent log.
#[derive(Drop)]
pub enum Answer {
    Satisfied(Bits),
    Refuted(Derivation),
    Spent(Derivation),
}

/// Searches for values of the variables below `vars` that satisfy all clauses, and learns at most `budget` clauses.
///
/// `Satisfied` has one value for each variable, and they satisfy every clause. `Refuted` has a derivation of at most
/// `budget` + 1 steps that refutes the clauses, so a checker accepts it. `Spent` comes only with a spent log of the
/// budget: exactly `budget` clauses, each by its hints and new, after which one more conflict above level 0 stands.
/// Literals are numbers below 2^32, so they name the variables below 2^31.
pub fn solve(alloc: Global, cnf: &Cnf, budget: u32) -> Result<Answer, NoMemory>
    requires within { All (AreBelow cnf.now.vars) cnf.now.store }
    requires vars { cnf.now.vars < 2 ^ 31 }
    requires room { length cnf.now.store + budget < 2 ^ 31 - 1 }
    ensures { IfOk result (IsAnswer cnf.now.vars cnf.now.store budget) }
{
    let mut search = Search::start(alloc, cnf)?;
    let given = &cnf.store;
    loop {
        match search.propagate(given) {
            None => match search.choose(given) {
                None => {
                    let bits = List::from_vec(search.values(alloc, given)?);
                    return Ok(Answer::Satisfied(Bits { bits }));
                }
                Some(lit) => search.decide(given, lit)?,
            },
            Some(conflict) => {
                if search.levels.len() == 0 {
                    let steps = List::from_vec(search.refute(alloc, given, conflict)?);
                    return Ok(Answer::Refuted(Derivation { steps }));
                }
                if search.log.len() == budget as usize {
                    let steps = List::from_vec(search.spent(alloc, given, conflict)?);
                    return Ok(Answer::Spent(Derivation { steps }));
                }
                search.learn(alloc, given, conflict)?;
            }
        }
    }
}
