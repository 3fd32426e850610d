// What lines name, and in which order.
ghost use Rattle.std.specs.Prelude.{◌≡◌, MatchOption, ℕ, Option, List, true, Some, None};
ghost use Rattle.stk_numbers.specs.declared.conditions.Candidate.{Candidate as Asked};
ghost use Rattle.stk_numbers.specs.declared.conditions.Condition.{Condition as Violated};
ghost use Rattle.stk_bundle.specs.Kinds.{is_listed};
ghost use Rattle.stk_bundle.specs.Claims.{candidate_number};
ghost use Rattle.stk_audit_rules.specs.Knowing.{kinds_taken};
ghost use Rattle.stk_audit_rules.specs.Naming as rules;
ghost use Rattle.stk_audit_rules.specs.Naming.{comes_before, NamesCandidate, NamesCondition};
ghost use Rattle.stk_audit.specs.Hands.{hand_of};
ghost use Rattle.stk_audit.specs.Progressing.{known_in};

use crate::Answering;
use crate::progress::Progress;
use stk_numbers::{CandKind, Candidate, Condition, Kinds, UbKind};

/// Whether a kind is among these.
fn is_listed(kinds: &[UbKind], kind: UbKind) -> bool
    ensures { result ≡ is_listed kinds.now kind }
{
    kinds.iter().any(|other| other.number() == kind.number())
}

/// The kinds that a line takes out.
pub(crate) fn kinds_taken(kinds: &[UbKind]) -> Kinds
    ensures { result ≡ kinds_taken kinds.now }
{
    Kinds {
        overflow: is_listed(kinds, UbKind::Overflow),
        zero: is_listed(kinds, UbKind::Zero),
        shift: is_listed(kinds, UbKind::Shift),
        null: is_listed(kinds, UbKind::Null),
        pointer: is_listed(kinds, UbKind::Pointer),
        bounds: is_listed(kinds, UbKind::Bounds),
        abs: is_listed(kinds, UbKind::AbsValue),
        copy: is_listed(kinds, UbKind::Overlap),
    }
}

/// The number of a kind of candidates, from 1 to 4.
fn candidate_number(kind: CandKind) -> u8
    ensures { result ≡ candidate_number kind }
{
    match kind {
        CandKind::Arm => 1,
        CandKind::AlwaysTrue => 2,
        CandKind::AlwaysFalse => 3,
        CandKind::Algebra => 4,
    }
}

/// Whether a node comes before another one; the same node, whether the number of its kind does.
fn comes_before(node: u32, kind: u8, other_node: u32, other_kind: u8) -> bool
    ensures { result ≡ comes_before node kind other_node other_kind }
{
    node < other_node || (node == other_node && kind < other_kind)
}

/// Whether a candidate comes behind the last one, if there is one.
fn is_next_candidate(last: Option<Candidate>, candidate: Candidate) -> bool
    ensures { result ≡ rules.is_next_candidate last candidate }
{
    match last {
        Some(last) => comes_before(
            last.node,
            candidate_number(last.kind),
            candidate.node,
            candidate_number(candidate.kind),
        ),
        None => true,
    }
}

/// Whether a condition does.
fn is_next_condition(last: Option<Condition>, condition: Condition) -> bool
    ensures { result ≡ rules.is_next_condition last condition }
{
    match last {
        Some(last) => comes_before(
            last.node,
            last.kind.number(),
            condition.node,
            condition.kind.number(),
        ),
        None => true,
    }
}

/// Whether a function begins behind the last one, if there is one.
pub(crate) fn is_next_function(last: Option<u32>, at: u64) -> bool
    ensures { result ≡ rules.is_next_function last at }
{
    match last {
        Some(last) => u64::from(last) < at,
        None => true,
    }
}

/// The candidate that a line names, behind the last one of the function at hand, if there is one.
pub(crate) fn named_candidate<A: Answering>(
    answering: &A,
    progress: &Progress,
    node: u64,
    kind: u64,
) -> Option<Candidate>
    requires { A.hand answering.now ≡ hand_of (known_in progress.now) }
    ensures { MatchOption result ((c : Asked) → NamesCandidate (A.world (A.about answering.now)) (known_in progress.now) node kind c → ⊥) (NamesCandidate (A.world (A.about answering.now)) (known_in progress.now) node kind) }
{
    let Some(_at) = progress.at else {
        return None;
    };
    let Some(candidate) = answering.candidate(node, kind) else {
        return None;
    };
    if is_next_candidate(progress.last, candidate) {
        Some(candidate)
    } else {
        None
    }
}

/// The condition that a line names, behind the last one of the claim, if there is one.
pub(crate) fn named_condition<A: Answering>(
    answering: &A,
    progress: &Progress,
    node: u64,
    kind: u64,
) -> Option<Condition>
    requires { A.hand answering.now ≡ hand_of (known_in progress.now) }
    ensures { MatchOption result ((k : Violated) → NamesCondition (A.world (A.about answering.now)) (known_in progress.now) node kind k → ⊥) (NamesCondition (A.world (A.about answering.now)) (known_in progress.now) node kind) }
{
    let Some(_at) = progress.at else {
        return None;
    };
    let Some(condition) = answering.condition(node, kind) else {
        return None;
    };
    if is_next_condition(progress.members.last().copied(), condition) {
        Some(condition)
    } else {
        None
    }
}
