// Whether lists of clauses are the same.
ghost use Rattle.std.specs.Prelude.{◌≡◌, ◌↔◌, IsTrue, IfOk};

use crate::{Cnf, Lit, Store};
use std::alloc::Global;
use stk_base::NoMemory;

// Whether two clauses have the same literals, in the same order.
fn same_clause(a: &[Lit], b: &[Lit]) -> bool
    ensures { IsTrue result ↔ (a.now ≡ b.now) }
{
    a == b
}

// Whether two stores have the same clauses, in the same order.
fn same_store(a: &Store, b: &Store) -> bool
    ensures { IsTrue result ↔ (a.now ≡ b.now) }
{
    if a.count() != b.count() {
        return false;
    }
    for id in 0..a.count() {
        if !same_clause(a.clause(id), b.clause(id)) {
            return false;
        }
    }
    true
}

impl Cnf {
    /// Whether another list has the same variables, and the same clauses in the same order.
    pub fn is_same(&self, other: &Cnf) -> bool
        ensures { IsTrue result ↔ (self.now ≡ other.now) }
    {
        self.vars == other.vars && same_store(&self.store, &other.store)
    }

    /// The same list once more, in memory from `alloc`.
    pub fn copied(&self, alloc: Global) -> Result<Cnf, NoMemory>
        ensures { IfOk result (λ copy. copy ≡ self.now) }
    {
        let store = self.store.copied(alloc)?;
        Ok(Cnf {
            vars: self.vars,
            store,
        })
    }
}
