// Derivations.
ghost use Rattle.std.specs.Prelude.{◌≡◌, IfOk};

use crate::Lit;
use std::alloc::Global;
use stk_base::{List, NoMemory};

/// A step of a derivation: its clause, and the numbers of the clauses that lead to it, in the order in which they are
/// used. Given clauses are numbered first, from 0, and then the steps.
#[derive(Drop)]
pub struct Derived {
    pub clause: List<Lit>,
    pub hints: List<u32>,
}

/// Steps, each over the given clauses and the steps before it.
#[derive(Drop)]
pub struct Derivation {
    pub steps: List<Derived>,
}

// A step once more.
fn copied_step(alloc: Global, step: &Derived) -> Result<Derived, NoMemory>
    ensures { IfOk result (λ copy. copy ≡ step.now) }
{
    let clause = Vec::from_slice(alloc, step.clause.as_slice())?;
    let hints = Vec::from_slice(alloc, step.hints.as_slice())?;
    Ok(Derived {
        clause: List::from_vec(clause),
        hints: List::from_vec(hints),
    })
}

impl Derivation {
    /// The same steps once more, in memory from `alloc`.
    pub fn copied(&self, alloc: Global) -> Result<Derivation, NoMemory>
        ensures { IfOk result (λ copy. copy.steps ≡ self.now.steps) }
    {
        let given = self.steps.as_slice();
        let mut steps = Vec::with_capacity(alloc, given.len())?;
        for step in given {
            let copy = copied_step(alloc, step)?;
            steps.push(copy)?;
        }
        Ok(Derivation {
            steps: List::from_vec(steps),
        })
    }
}
