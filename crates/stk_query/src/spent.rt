// What is remembered of the last goal that was given up.
ghost use Rattle.std.specs.Prelude.{◌≡◌, IfOk, IfSome};
ghost use Rattle.stk_clauses.specs.Derivations.{IsSpentLog};
ghost use Rattle.stk_query.specs.Spent.{IsSpent};

use std::alloc::Global;
use stk_base::NoMemory;
use stk_clauses::{Cnf, Derivation};

/// Clauses on which a budget was spent, and the log of the search.
#[derive(Drop)]
pub(crate) struct SpentSearch {
    cnf: Cnf,
    budget: u32,
    log: Derivation,
}

impl SpentSearch {
    /// A search of these clauses within a budget, which was spent.
    pub(crate) fn new(
        alloc: Global,
        cnf: &Cnf,
        budget: u32,
        log: &Derivation,
    ) -> Result<SpentSearch, NoMemory>
        requires { IsSpentLog cnf.now.vars cnf.now.store budget log.now.steps }
        ensures { IfOk result IsSpent }
    {
        let cnf = cnf.copied(alloc)?;
        let log = log.copied(alloc)?;
        Ok(SpentSearch { cnf, budget, log })
    }
}

/// The log of the last search that spent its budget, where it was one of these clauses within this budget.
pub(crate) fn log_of(
    alloc: Global,
    last: &Option<SpentSearch>,
    cnf: &Cnf,
    budget: u32,
) -> Result<Option<Derivation>, NoMemory>
    requires { IfSome last.now IsSpent }
    ensures { IfOk result (λ r. IfSome r (λ log. IsSpentLog cnf.now.vars cnf.now.store budget log.steps)) }
{
    match last {
        Some(search) if search.budget == budget && search.cnf.is_same(cnf) => {
            let log = search.log.copied(alloc)?;
            Ok(Some(log))
        }
        _ => Ok(None),
    }
}
