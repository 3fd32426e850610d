// Clauses that are pushed, read and tested.
use std::alloc::Global;
use std::test::Fail;
use stk_base::NoMemory;
use stk_clauses::{Cnf, Lit, Store, are_distinct};

static CLAUSES: [&[u32]; 6] = [&[0, 3], &[], &[5], &[2, 2], &[1, 0, 4], &[7, 6, 4, 0]];

/// Appends the clause of these numbers, if no literal stands twice.
fn put(alloc: Global, store: &mut Store, numbers: &[u32]) -> Result<bool, NoMemory> {
    let mut clause = Vec::new(alloc);
    for number in numbers {
        clause.push(Lit(*number))?;
    }
    if store.count() > 1000 || !are_distinct(&clause) {
        return Ok(false);
    }
    store.push(&clause)?;
    Ok(true)
}

/// Whether the clause with this number has these literals.
fn stands(store: &Store, id: u32, numbers: &[u32]) -> bool {
    if id >= store.count() {
        return false;
    }
    let clause = store.clause(id);
    if clause.len() != numbers.len() {
        return false;
    }
    for (lit, number) in clause.iter().zip(numbers) {
        if lit.0 != *number {
            return false;
        }
    }
    true
}

#[test]
fn clauses_stand_as_they_were_pushed(rt: HostRuntime) -> Result<(), Fail> {
    let mut store = Store::new(rt.alloc());
    let mut repeats = 0;
    for numbers in &CLAUSES {
        let Ok(pushed) = put(rt.alloc(), &mut store, numbers) else {
            assert!(rt; false);
            return Ok(());
        };
        if !pushed {
            repeats = 1;
        }
    }
    assert_eq!(rt; repeats, 1);
    assert_eq!(rt; store.count(), 5);
    assert!(rt; stands(&store, 0, CLAUSES[0]));
    assert!(rt; stands(&store, 1, CLAUSES[1]));
    assert!(rt; stands(&store, 2, CLAUSES[2]));
    assert!(rt; stands(&store, 3, CLAUSES[4]));
    assert!(rt; stands(&store, 4, CLAUSES[5]));
    let small = Cnf { vars: 3, store };
    assert!(rt; !small.is_within());
    let large = Cnf {
        vars: 4,
        store: small.store,
    };
    assert!(rt; large.is_within());
    let copy = large.store.copied(rt.alloc())?;
    assert_eq!(rt; copy.count(), 5);
    assert!(rt; stands(&copy, 4, CLAUSES[5]));
    Ok(())
}

#[test]
fn literals_have_a_variable_and_a_sign(rt: HostRuntime) -> Result<(), Fail> {
    let lit = Lit::new(6, true);
    assert_eq!(rt; lit, Lit(13));
    assert_eq!(rt; lit.negated(), Lit(12));
    assert_eq!(rt; lit.negated().negated(), lit);
    assert_eq!(rt; lit.variable(), 6);
    assert!(rt; lit.is_negated() && !lit.negated().is_negated());
    assert_eq!(rt; Lit(4294967295).negated(), Lit(4294967294));
    Ok(())
}
