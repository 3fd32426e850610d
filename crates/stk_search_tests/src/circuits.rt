// The clauses of small circuits, with what satisfies them.
ghost use Rattle.stk_gates.specs.Tables.{IsEdge};

use std::alloc::Global;
use std::test::Fail;
use stk_base::NoMemory;
use stk_clauses::Cnf;
use stk_cnf::clauses_of;
use stk_gates::{Edge, Gates};

/// Whether these bits, the least for variable 0, make each clause true.
fn satisfies(cnf: &Cnf, bits: u32) -> bool {
    for id in 0..cnf.store.count() {
        let mut some = false;
        for lit in cnf.store.clause(id) {
            let bit = (bits >> (lit.variable() % 32)) % 2 == 1;
            some = some || bit != lit.is_negated();
        }
        if !some {
            return false;
        }
    }
    true
}

/// The variables, the clauses, and how many of the eight assignments of three variables satisfy them.
fn counts(alloc: Global, gates: &Gates, goal: Edge) -> Result<[u32; 3], NoMemory>
    requires { IsEdge gates.now goal }
{
    let cnf = clauses_of(alloc, gates, goal)?;
    let mut satisfying = 0u32;
    for bits in 0..8 {
        if satisfies(&cnf, bits) {
            satisfying = satisfying.wrapping_add(1);
        }
    }
    Ok([cnf.vars, cnf.store.count(), satisfying])
}

/// What stands for the AND of two inputs, for it inverted, and for the constants.
fn rows(alloc: Global) -> Result<[[u32; 3]; 4], NoMemory> {
    let mut gates = Gates::new(alloc, 2);
    let both = gates.and(Edge(2), Edge(4))?;
    let first = counts(alloc, &gates, both)?;
    let second = counts(alloc, &gates, both.inverted())?;
    let third = counts(alloc, &gates, Edge::FALSE)?;
    let fourth = counts(alloc, &gates, Edge::TRUE)?;
    Ok([first, second, third, fourth])
}

#[test]
fn clauses_have_one_assignment_for_each_extension(rt: HostRuntime) -> Result<(), Fail> {
    let wanted = [[3, 4, 1], [3, 4, 3], [2, 1, 0], [2, 0, 8]];
    let got = rows(rt.alloc());
    assert!(rt; got == Ok(wanted));
    Ok(())
}
