// The variables that a learnt clause rests on are tried before the rest.
ghost use Rattle.std.specs.Prelude.{◌≡◌};

use crate::decision_order::Order;
use crate::redundancy::reason_of;
use stk_clauses::{Lit, Store};
use stk_propagate::Trail;

/// Raises the variables of the clause that made a literal true, if it has one.
fn raise_reason(order: &mut Order, trail: &Trail, store: &Store, lit: Lit, vars: u32)
    requires { trail.now.assigned.vars ≡ vars }
{
    if let Some(reason) = reason_of(trail, store, lit, vars) {
        order.raise(reason);
    }
}

/// Raises the variables of the clauses that made these literals false.
fn raise_reasons(order: &mut Order, trail: &Trail, store: &Store, clause: &[Lit], vars: u32)
    requires { trail.now.assigned.vars ≡ vars }
{
    for lit in clause {
        raise_reason(order, trail, store, lit.negated(), vars);
    }
}

/// Raises the variables of the clauses that made these literals false, and of those that made their others false.
pub(crate) fn raise_behind(
    order: &mut Order,
    trail: &Trail,
    store: &Store,
    clause: &[Lit],
    vars: u32,
)
    requires { trail.now.assigned.vars ≡ vars }
{
    raise_reasons(order, trail, store, clause, vars);
    for lit in clause {
        if let Some(reason) = reason_of(trail, store, lit.negated(), vars) {
            raise_reasons(order, trail, store, reason, vars);
        }
    }
}
