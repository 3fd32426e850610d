// The true literals, by list, by literal and by variable.
ghost use Rattle.std.specs.Prelude.{◌≡◌, ◌+◌, ◌-◌, ◌*◌, ◌<◌, ◌≤◌, ◌↔◌, ◌++◌, ◌∷◌, ◌^◌, [], ℕ, length, take, slice_index_or, IfOk, IsTrue, MatchOption, MatchBool, None};
ghost use Rattle.std.specs.List.{Contains};
ghost use Rattle.stk_clauses.specs.Literals.{negated};
ghost use Rattle.stk_clauses.specs.Propagation.{IsOpen};
ghost use Rattle.stk_propagate.specs.Assigned.{IsAssigned};
ghost use Rattle.stk_propagate.specs.Trailed.{one_if_assumed, level_of};

use std::alloc::Global;
use std::marker::Model;
use stk_base::NoMemory;
use stk_clauses::Lit;

/// The true literals, in the order in which they became true, each with its reason: the number of a clause, or `None`.
/// No literal is there twice or beside its negation.
///
/// `truth` tells of each literal whether it is true, and `places` and `levels` of each variable that has a value where
/// its literal stands, and how many literals as far as it were assumed. `depth` counts all assumed ones.
#[derive(Drop)]
pub struct Assignment {
    vars: u32,
    truth: Vec<bool>,
    places: Vec<usize>,
    levels: Vec<u32>,
    depth: u32,
    literals: Vec<Lit>,
    reasons: Vec<Option<u32>>,
}

impl Model for Assignment {
    ghost use Rattle.stk_propagate.specs.Assigned.{Assigned};

    ghost Value = { Assigned };

    ghost use Rattle.stk_propagate.specs.AssignmentInside.{seen_as, IsInside};

    ghost view = { seen_as };

    ghost invariant = { IsInside };
}

/// A number of assumed literals with one literal more, which has this reason.
fn deeper(depth: u32, reason: Option<u32>) -> u32
    requires { depth < 2 ^ 32 - 1 }
    ensures { result ≡ depth + one_if_assumed reason }
{
    match reason {
        None => depth + 1,
        Some(_) => depth,
    }
}

/// A number of assumed literals without one literal, which has this reason.
fn shallower(depth: u32, reason: Option<u32>) -> u32
    requires { one_if_assumed reason ≤ depth }
    ensures { result + one_if_assumed reason ≡ depth }
{
    match reason {
        None => depth - 1,
        Some(_) => depth,
    }
}

impl Assignment {
    /// No true literals, over the variables below `vars`. All memory is taken here: a mark and two entries a literal,
    /// and two numbers a variable.
    pub fn reserve(alloc: Global, vars: u32) -> Result<Assignment, NoMemory>
        ensures { IfOk result (λ a. a ≡ record { vars = vars; literals = []; reasons = [] }) }
    {
        let size = vars as usize * 2;
        let truth = vec![in alloc; false; size]?;
        let places = vec![in alloc; 0usize; vars as usize]?;
        let levels = vec![in alloc; 0u32; vars as usize]?;
        let literals = Vec::with_capacity(alloc, size)?;
        let reasons = Vec::with_capacity(alloc, size)?;
        Ok(Assignment {
            vars,
            truth,
            places,
            levels,
            depth: 0,
            literals,
            reasons,
        })
    }

    /// The number of variables.
    pub fn vars(&self) -> u32
        ensures vars { result ≡ self.now.vars }
        ensures facts { IsAssigned self.now }
    {
        self.vars
    }

    /// Whether the literal is true.
    pub fn is_true(&self, lit: Lit) -> bool
        requires { lit.0 < 2 * self.now.vars }
        ensures { IsTrue result ↔ Contains self.now.literals lit }
    {
        self.truth[lit.0 as usize]
    }

    /// Where the literal stands among the true ones, counted from 0, or `None` if it isn't true.
    pub fn place(&self, lit: Lit) -> Option<usize>
        requires { lit.0 < 2 * self.now.vars }
        ensures { MatchOption result (Contains self.now.literals lit → ⊥) (λ k. (k < length self.now.literals) × (slice_index_or self.now.literals k lit ≡ lit)) }
    {
        if self.truth[lit.0 as usize] {
            Some(self.places[(lit.0 / 2) as usize])
        } else {
            None
        }
    }

    /// How many literals as far as this true one were assumed, or `None` if it isn't true.
    pub fn level(&self, lit: Lit) -> Option<u32>
        requires { lit.0 < 2 * self.now.vars }
        ensures { MatchOption result (Contains self.now.literals lit → ⊥) (λ n. (k : ℕ) × (k < length self.now.literals) × (slice_index_or self.now.literals k lit ≡ lit) × (n ≡ level_of self.now.reasons k)) }
    {
        if self.truth[lit.0 as usize] {
            Some(self.levels[(lit.0 / 2) as usize])
        } else {
            None
        }
    }

    /// The literal's value, or `None` if its variable is unassigned.
    pub fn value(&self, lit: Lit) -> Option<bool>
        requires { lit.0 < 2 * self.now.vars }
        ensures { MatchOption result (IsOpen self.now.literals lit) (λ b. MatchBool b (Contains self.now.literals lit) (Contains self.now.literals (negated lit))) }
    {
        if self.is_true(lit) {
            return Some(true);
        }
        if self.is_true(lit.negated()) {
            return Some(false);
        }
        None
    }

    /// The reason of a true literal, `None` if it has none or isn't true.
    pub fn reason(&self, lit: Lit) -> Option<u32>
        requires { lit.0 < 2 * self.now.vars }
        ensures known { (k : ℕ) → k < length self.now.literals → slice_index_or self.now.literals k lit ≡ lit → result ≡ slice_index_or self.now.reasons k None }
        ensures not_true { (Contains self.now.literals lit → ⊥) → result ≡ None }
    {
        let reasons = self.reasons();
        match self.place(lit) {
            None => None,
            Some(place) => reasons[place],
        }
    }

    /// Makes an unassigned literal true. It takes no memory.
    pub fn push(&mut self, lit: Lit, reason: Option<u32>)
        requires below { lit.0 < 2 * self.old.vars }
        requires unassigned { IsOpen self.old.literals lit }
        ensures literals { self.new.literals ≡ self.old.literals ++ lit ∷ [] }
        ensures reasons { self.new.reasons ≡ self.old.reasons ++ reason ∷ [] }
        ensures vars { self.new.vars ≡ self.old.vars }
    {
        self.truth[lit.0 as usize] = true;
        self.places[(lit.0 / 2) as usize] = self.literals.len();
        let depth = deeper(self.depth, reason);
        self.depth = depth;
        self.levels[(lit.0 / 2) as usize] = depth;
        self.literals.push_reserved(lit);
        self.reasons.push_reserved(reason);
    }

    /// The true literals, in the order in which they became true.
    pub fn literals(&self) -> &[Lit]
        ensures literals { result.now ≡ self.now.literals }
        ensures facts { IsAssigned self.now }
        ensures few { length self.now.literals ≤ 2 * self.now.vars }
    {
        &self.literals
    }

    /// The reasons of the true literals, in the same order.
    pub fn reasons(&self) -> &[Option<u32>]
        ensures reasons { result.now ≡ self.now.reasons }
        ensures facts { IsAssigned self.now }
    {
        &self.reasons
    }

    /// Keeps the first `count` true literals.
    pub fn cut_to(&mut self, count: usize)
        ensures literals { self.new.literals ≡ take count self.old.literals }
        ensures reasons { self.new.reasons ≡ take count self.old.reasons }
        ensures vars { self.new.vars ≡ self.old.vars }
    {
        while self.literals().len() > count {
            self.drop_last();
        }
    }

    /// The last true literal becomes unassigned.
    fn drop_last(&mut self)
        requires { 0 < length self.old.literals }
        ensures literals { self.new.literals ≡ take (length self.old.literals - 1) self.old.literals }
        ensures reasons { self.new.reasons ≡ take (length self.old.literals - 1) self.old.reasons }
        ensures vars { self.new.vars ≡ self.old.vars }
    {
        let at = self.literals.len() - 1;
        let lit = self.literals[at];
        self.truth[lit.0 as usize] = false;
        self.depth = shallower(self.depth, self.reasons[at]);
        self.literals.truncate(at);
        self.reasons.truncate(at);
    }
}
