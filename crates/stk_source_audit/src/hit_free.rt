// Whether a trace hits a candidate free of a set of conditions.
ghost use Rattle.std.specs.Prelude.{◌≡◌};
ghost use Rattle.stk_meaning.specs.Hits as rules;

use stk_meaning::Entry;
use stk_numbers::{CandKind, Candidate, Condition};

/// Whether two truths differ.
fn differs(truth: bool, other: Option<bool>) -> bool
    ensures { result ≡ rules.differs truth other }
{
    match other {
        None => false,
        Some(other) => if truth { !other } else { other },
    }
}

/// Whether a truth that is seen hits a candidate of this kind.
fn seen_hits(kind: CandKind, truth: bool, other: Option<bool>) -> bool
    ensures { result ≡ rules.seen_hits kind truth other }
{
    match kind {
        CandKind::Arm => false,
        CandKind::AlwaysTrue => !truth,
        CandKind::AlwaysFalse => truth,
        CandKind::Algebra => differs(truth, other),
    }
}

/// Whether a candidate is a branch.
fn is_arm(kind: CandKind) -> bool
    ensures { result ≡ rules.is_arm kind }
{
    match kind {
        CandKind::Arm => true,
        CandKind::AlwaysTrue | CandKind::AlwaysFalse | CandKind::Algebra => false,
    }
}

/// Whether an entry hits a candidate.
fn hits(candidate: Candidate, entry: Entry) -> bool
    ensures { result ≡ rules.hits candidate entry }
{
    match entry {
        Entry::Ub(_) => false,
        Entry::Enter(node) => node == candidate.node && is_arm(candidate.kind),
        Entry::Seen(node, truth, other) => {
            node == candidate.node && seen_hits(candidate.kind, truth, other)
        }
    }
}

/// Whether a condition is in a set.
fn has(set: &[Condition], condition: Condition) -> bool
    ensures { result ≡ rules.has set.now condition }
{
    set.iter().any(|member| {
        member.node == condition.node && member.kind.number() == condition.kind.number()
    })
}

/// Whether an entry says that a condition of the set is violated.
fn breaks(set: &[Condition], entry: Entry) -> bool
    ensures { result ≡ rules.breaks set.now entry }
{
    match entry {
        Entry::Ub(condition) => has(set, condition),
        Entry::Enter(_) | Entry::Seen(_, _, _) => false,
    }
}

/// Whether some entry of a trace hits a candidate, and no condition of the set is violated before it.
pub(crate) fn is_hit_free(set: &[Condition], candidate: Candidate, trace: &[Entry]) -> bool
    ensures { result ≡ rules.is_hit_free set.now candidate trace.now }
{
    let mut rest = trace;
    while let Some((entry, behind)) = rest.split_first() {
        if hits(candidate, *entry) {
            return true;
        }
        if breaks(set, *entry) {
            return false;
        }
        rest = behind;
    }
    false
}
