// Who answers for the made-up source.
ghost use Rattle.std.specs.Prelude.{◌≡◌, ◌↔◌, ◌∷◌, [], None, IsTrue};
ghost use Rattle.stk_meaning.specs.Hits.{has};
ghost use Rattle.stk_audit.specs.Hands.{hand_by};
ghost use Rattle.stk_audit_tests.specs.Small.{zero_at_8};

use std::alloc::Global;
use stk_audit::Answering;
use stk_base::NoMemory;
use stk_clauses::{Cnf, Store};
use stk_numbers::{CandKind, Candidate, Condition, Kinds, UbKind};

/// Which kinds are taken out, and where the function at hand begins.
#[derive(Drop)]
pub(crate) struct Small {
    pub alloc: Global,
    pub without: Kinds,
    pub at: Option<u32>,
}

/// No kind.
static NO_KINDS: Kinds = Kinds {
    overflow: false,
    zero: false,
    shift: false,
    null: false,
    pointer: false,
    bounds: false,
    abs: false,
    copy: false,
};

/// Whether a set has the condition.
fn has_zero(set: &[Condition]) -> bool
    ensures { result ≡ has set.now zero_at_8 }
{
    set.iter()
        .any(|member| member.node == 8 && member.kind.number() == 2)
}

/// Whether a start is that of the map 0.
fn is_zero(start: &[u64]) -> bool
    ensures { IsTrue result ↔ (start.now ≡ 0 ∷ []) }
{
    start.len() == 1 && start[0] == 0
}

impl Small {
    /// Nothing is at hand yet.
    pub(crate) fn new(alloc: Global) -> Small
        ensures { hand_by result.without result.at ≡ None }
    {
        Small {
            alloc,
            without: NO_KINDS,
            at: None,
        }
    }
}

impl Answering for Small {
    ghost use Rattle.stk_audit.specs.Hands.{hand_by};
    ghost use Rattle.stk_audit_tests.specs.Small.{small};

    ghost identity = { Unit {0} };

    ghost about = { λ s. tt };

    ghost world = { λ i. small };

    ghost hand = { λ s. hand_by s.without s.at };

    fn source_length(&self) -> u64 {
        74
    }

    fn take_up(&mut self, without: Kinds, at: u64) -> Result<bool, NoMemory> {
        if at != 0 {
            return Ok(false);
        }
        self.without = without;
        self.at = Some(0);
        Ok(true)
    }

    fn candidate(&self, node: u64, kind: u64) -> Option<Candidate> {
        if node == 12 && kind == 3 {
            return Some(Candidate {
                node: 12,
                kind: CandKind::AlwaysFalse,
            });
        }
        if node == 14 && kind == 1 {
            return Some(Candidate {
                node: 14,
                kind: CandKind::Arm,
            });
        }
        None
    }

    fn condition(&self, node: u64, kind: u64) -> Option<Condition> {
        if node == 8 && kind == 2 {
            return Some(Condition {
                node: 8,
                kind: UbKind::Zero,
            });
        }
        None
    }

    fn tries_all(&self) -> bool {
        true
    }

    fn is_answer(
        &self,
        _candidate: Candidate,
        set: &[Condition],
        start: &[u64],
    ) -> Result<bool, NoMemory> {
        if has_zero(set) {
            return Ok(false);
        }
        Ok(is_zero(start))
    }

    fn none_answers(&mut self, _candidate: Candidate, set: &[Condition]) -> Result<bool, NoMemory> {
        Ok(has_zero(set))
    }

    fn clauses(&mut self, _candidate: Candidate, set: &[Condition]) -> Result<Cnf, NoMemory> {
        let mut store = Store::new(self.alloc);
        if has_zero(set) {
            store.push(&[])?;
            return Ok(Cnf { vars: 0, store });
        }
        Ok(Cnf { vars: 0, store })
    }
}
