//! Which candidates the entries of a trace hit, by the candidates' nodes.

ghost use Rattle.std.specs.Prelude.{◌≡◌, ◌<◌, ◌||◌, ◌&&◌, ◌==◌, ℕ, length, get_or, IfOk, OnOk};
ghost use Rattle.std.specs.List.{list_any};
ghost use Rattle.stk_numbers.specs.declared.conditions.CandKind.{CandKind};
ghost use Rattle.stk_numbers.specs.declared.conditions.Candidate.{Candidate};
ghost use Rattle.stk_meaning.specs.Hits as rules;
ghost use Rattle.stk_replaying.specs.Marks.{hits_at_node, has_kind, no_kinds, is_marked_in, is_marked};

use std::alloc::Global;
use stk_base::NoMemory;
use stk_meaning::Entry;
use stk_numbers::{CandKind, Candidate};

// Whether two truths differ.
fn differs(truth: bool, other: Option<bool>) -> bool
    ensures { result ≡ rules.differs truth other }
{
    match other {
        None => false,
        Some(other) => { if truth { !other } else { other } }
    }
}

// Whether a truth that is seen hits a candidate of this kind.
fn seen_hits(kind: CandKind, truth: bool, other: Option<bool>) -> bool
    ensures { result ≡ rules.seen_hits kind truth other }
{
    match kind {
        CandKind::Arm => false,
        CandKind::AlwaysTrue => !truth,
        CandKind::AlwaysFalse => truth,
        CandKind::Algebra => differs(truth, other),
    }
}

// Whether a candidate is a branch.
fn is_arm(kind: CandKind) -> bool
    ensures { result ≡ rules.is_arm kind }
{
    match kind {
        CandKind::Arm => true,
        CandKind::AlwaysTrue | CandKind::AlwaysFalse | CandKind::Algebra => false,
    }
}

// Whether an entry hits a candidate of this kind that is at the entry's node.
fn hits_at_node(kind: CandKind, entry: Entry) -> bool
    ensures { result ≡ hits_at_node kind entry }
{
    match entry {
        Entry::Ub(_) => false,
        Entry::Enter(_) => is_arm(kind),
        Entry::Seen(_, truth, other) => seen_hits(kind, truth, other),
    }
}

/// Of the candidates at a node those kinds that are hit.
#[derive(Clone, Copy)]
pub(crate) struct HitKinds {
    pub arm: bool,
    pub always_true: bool,
    pub always_false: bool,
    pub algebra: bool,
}

impl HitKinds {
    // No kind is hit.
    fn none() -> HitKinds
        ensures { result ≡ no_kinds }
    {
        HitKinds {
            arm: false,
            always_true: false,
            always_false: false,
            algebra: false,
        }
    }

    // Whether this kind is hit.
    fn has(self, kind: CandKind) -> bool
        ensures { result ≡ has_kind self kind }
    {
        match kind {
            CandKind::Arm => self.arm,
            CandKind::AlwaysTrue => self.always_true,
            CandKind::AlwaysFalse => self.always_false,
            CandKind::Algebra => self.algebra,
        }
    }

    // These, and those that an entry at the node hits.
    fn with(self, entry: Entry) -> HitKinds
        ensures { (kind : CandKind) → has_kind result kind ≡ (has_kind self kind || hits_at_node kind entry) }
    {
        HitKinds {
            arm: self.arm | hits_at_node(CandKind::Arm, entry),
            always_true: self.always_true | hits_at_node(CandKind::AlwaysTrue, entry),
            always_false: self.always_false | hits_at_node(CandKind::AlwaysFalse, entry),
            algebra: self.algebra | hits_at_node(CandKind::Algebra, entry),
        }
    }
}

// Puts nodes at which nothing is hit behind the others, so that there is this one.
#[tactic(auto, using(crate::proofs::Marking::none_behind))]
fn reach(nodes: &mut Vec<HitKinds>, node: usize) -> Result<(), NoMemory>
    ensures reached { OnOk result (node < length nodes.new.items) }
    ensures same { OnOk result ((k : ℕ) → get_or nodes.new.items k no_kinds ≡ get_or nodes.old.items k no_kinds) }
{
    while nodes.len() <= node {
        nodes.push(HitKinds::none())?;
    }
    Ok(())
}

// Marks at a node what an entry hits there.
fn mark_there(nodes: &mut Vec<HitKinds>, node: usize, entry: Entry)
    requires { node < length nodes.old.items }
    ensures { (c : Candidate) → is_marked_in nodes.new.items c ≡ (is_marked_in nodes.old.items c || (node == c.node && hits_at_node c.kind entry)) }
{
    nodes[node] = nodes[node].with(entry);
}

/// Which candidates are hit, whatever candidates there are: of each node, by its number, the kinds that are hit. It takes
/// as much memory as the greatest number says.
#[derive(Drop)]
pub(crate) struct Marks {
    pub nodes: Vec<HitKinds>,
}

impl Marks {
    // Marks at a node what an entry hits there.
    fn mark_at(&mut self, node: u32, entry: Entry) -> Result<(), NoMemory>
        ensures { OnOk result ((c : Candidate) → is_marked self.new c ≡ (is_marked self.old c || (node == c.node && hits_at_node c.kind entry))) }
    {
        reach(&mut self.nodes, node as usize)?;
        mark_there(&mut self.nodes, node as usize, entry);
        Ok(())
    }

    // Marks what an entry hits.
    fn mark(&mut self, entry: Entry) -> Result<(), NoMemory>
        ensures { OnOk result ((c : Candidate) → is_marked self.new c ≡ (is_marked self.old c || rules.hits c entry)) }
    {
        match entry {
            Entry::Ub(_) => Ok(()),
            Entry::Enter(node) => self.mark_at(node, entry),
            Entry::Seen(node, _, _) => self.mark_at(node, entry),
        }
    }

    /// What a trace hits. It goes over the trace once.
    pub fn of(alloc: Global, trace: &[Entry]) -> Result<Marks, NoMemory>
        ensures { IfOk result (λ marks. (c : Candidate) → is_marked marks c ≡ list_any (rules.hits c) trace.now) }
    {
        let mut marks = Marks {
            nodes: Vec::new(alloc),
        };
        for entry in trace {
            marks.mark(*entry)?;
        }
        Ok(marks)
    }

    /// Whether a candidate is hit.
    pub fn has(&self, candidate: Candidate) -> bool
        ensures { result ≡ is_marked self.now candidate }
    {
        let kinds = match self.nodes.get(candidate.node as usize) {
            Some(kinds) => *kinds,
            None => HitKinds::none(),
        };
        kinds.has(candidate.kind)
    }
}
