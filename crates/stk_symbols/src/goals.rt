// Goals of candidates, over the terms of a walk.
ghost use Rattle.std.specs.Prelude.{◌≡◌, ◌+◌, ◌≤◌, ℕ, ℤ, Bool, true, false, ◌&&◌, ◌||◌, List, length, IfOk};
ghost use Rattle.stk_ctype.specs.declared.kind.IntKind.TheVariants.{Int};
ghost use Rattle.stk_terms.specs.Values.{bit, width_at, number_at};
ghost use Rattle.stk_terms.specs.Cost.{IsClosed, Grows, weight, cost, total_cost};
ghost use Rattle.stk_terms.specs.Growth as growth;
ghost use Rattle.stk_rewrite.specs.Normal.{IsNormal};
ghost use Rattle.stk_values.specs.Keeping.{Keeps, truth};
ghost use Rattle.stk_values.specs.Walks.{ListedEvent, EachTest, Says, test_of};
ghost use Rattle.stk_symbols.specs.Valued.{IsTerm, Obeys, Grown};
ghost use Rattle.stk_symbols.specs.Symbolic.{Symbolic, residues_of, Serves, HasKey, IsMade, Shows};
ghost use Rattle.stk_symbols.specs.Goals.{is_hit_free, goal_charge, MaybeTerm, MaybeChosen, MaybeIs, joining, Truths, IsState, StateIs, HasState, no_state, when_violated, when_hit, next, is_hit_first, full_charge, full_charges, Spends};

use crate::indexed_walk::IndexedWalk;
use crate::making::constant;
use crate::symbols::Symbols;
use crate::tests::{all, any, fails, test};
use stk_base::NoMemory;
use stk_numbers::Condition;
use stk_rewrite::NormalTerms;
use stk_terms::TermId;
use stk_values::Step;

/// What the steps so far say: the bit that no member of the set was violated, which is missing where no step tells of
/// one, and the bit that the candidate was hit while none was, which is missing where no step tells of a hit.
#[derive(Clone, Copy)]
pub(crate) struct GoalState {
    pub(crate) clear: Option<TermId>,
    pub(crate) found: Option<TermId>,
}

// Whether the first bit is set, where there is one, and the second.
#[tactic(auto, using(crate::proofs::Made::kept))]
fn both_set(
    terms: &mut NormalTerms,
    left: Option<TermId>,
    right: TermId,
) -> Result<TermId, NoMemory>
    requires first { MaybeTerm terms.old left }
    requires second { IsTerm terms.old 1 right.0 }
    ensures made { IfOk result (λ v. IsTerm terms.new 1 v.0) }
    ensures value { IfOk result (λ v. (numbers : ℕ → ℕ) (x y : Bool) → Obeys terms.new numbers → MaybeIs numbers true left x → numbers right.0 ≡ bit y → numbers v.0 ≡ bit (x && y)) }
    ensures grows { IfOk result (λ v. (chosen : ℕ → Bool) → IsClosed terms.old chosen → MaybeChosen chosen left → chosen right.0 ≡ true → Grows terms.old terms.new chosen (joining left) v.0) }
    ensures grown { Grown terms.old terms.new 3 }
{
    match left {
        None => Ok(right),
        Some(a) => {
            let v = all(terms, a, right)?;
            Ok(v)
        }
    }
}

// Whether the first bit is set, where there is one, or the second.
#[tactic(auto, using(crate::proofs::Made::kept))]
fn either_set(
    terms: &mut NormalTerms,
    left: Option<TermId>,
    right: TermId,
) -> Result<TermId, NoMemory>
    requires first { MaybeTerm terms.old left }
    requires second { IsTerm terms.old 1 right.0 }
    ensures made { IfOk result (λ v. IsTerm terms.new 1 v.0) }
    ensures value { IfOk result (λ v. (numbers : ℕ → ℕ) (x y : Bool) → Obeys terms.new numbers → MaybeIs numbers false left x → numbers right.0 ≡ bit y → numbers v.0 ≡ bit (x || y)) }
    ensures grows { IfOk result (λ v. (chosen : ℕ → Bool) → IsClosed terms.old chosen → MaybeChosen chosen left → chosen right.0 ≡ true → Grows terms.old terms.new chosen (joining left) v.0) }
    ensures grown { Grown terms.old terms.new 3 }
{
    match left {
        None => Ok(right),
        Some(a) => {
            let v = any(terms, a, right)?;
            Ok(v)
        }
    }
}

// After a step that tells of a member of the set.
#[tactic(auto, using(crate::proofs::Made::kept))]
fn violated(terms: &mut NormalTerms, state: GoalState, value: TermId) -> Result<GoalState, NoMemory>
    requires state { IsState terms.old state }
    requires value { IsTerm terms.old 32 value.0 }
    ensures made { IfOk result (λ x. IsState terms.new x) }
    ensures value { IfOk result (λ x. (numbers : ℕ → ℕ) (t : Truths) (b : Bool) → Obeys terms.new numbers → StateIs numbers state t → numbers value.0 ≡ bit b → StateIs numbers x (when_violated t b)) }
    ensures spends { IfOk result (λ x. (chosen : ℕ → Bool) → IsClosed terms.old chosen → HasState chosen state → chosen value.0 ≡ true → Spends terms.old terms.new chosen state x 3) }
    ensures grown { Grown terms.old terms.new 3 }
{
    let bit = test(terms, value)?;
    let not = fails(terms, bit)?;
    let clear = both_set(terms, state.clear, not)?;
    Ok(GoalState {
        clear: Some(clear),
        found: state.found,
    })
}

// After a step that tells of a hit of the candidate.
#[tactic(auto, using(crate::proofs::Made::kept))]
fn hit(terms: &mut NormalTerms, state: GoalState, value: TermId) -> Result<GoalState, NoMemory>
    requires state { IsState terms.old state }
    requires value { IsTerm terms.old 32 value.0 }
    ensures made { IfOk result (λ x. IsState terms.new x) }
    ensures value { IfOk result (λ x. (numbers : ℕ → ℕ) (t : Truths) (b : Bool) → Obeys terms.new numbers → StateIs numbers state t → numbers value.0 ≡ bit b → StateIs numbers x (when_hit t b)) }
    ensures spends { IfOk result (λ x. (chosen : ℕ → Bool) → IsClosed terms.old chosen → HasState chosen state → chosen value.0 ≡ true → Spends terms.old terms.new chosen state x 6) }
    ensures grown { Grown terms.old terms.new 6 }
{
    let bit = test(terms, value)?;
    let free = both_set(terms, state.clear, bit)?;
    let found = either_set(terms, state.found, free)?;
    Ok(GoalState {
        clear: state.clear,
        found: Some(found),
    })
}

// After any step on which the goal depends.
#[tactic(auto, using(crate::proofs::Made::kept))]
fn stepped(
    terms: &mut NormalTerms,
    state: GoalState,
    step: Step<TermId>,
) -> Result<GoalState, NoMemory>
    requires state { IsState terms.old state }
    requires value { IsTerm terms.old 32 (test_of step).0 }
    ensures made { IfOk result (λ x. IsState terms.new x) }
    ensures value { IfOk result (λ x. (numbers : ℕ → ℕ) (t : Truths) (b : Bool) → Obeys terms.new numbers → StateIs numbers state t → numbers (test_of step).0 ≡ bit b → StateIs numbers x (next t step b)) }
    ensures spends { IfOk result (λ x. (chosen : ℕ → Bool) → IsClosed terms.old chosen → HasState chosen state → chosen (test_of step).0 ≡ true → Spends terms.old terms.new chosen state x (full_charge step)) }
    ensures grown { Grown terms.old terms.new (full_charge step) }
{
    match step {
        Step::Broken(_, value) => violated(terms, state, value),
        Step::Hit(_, value) => hit(terms, state, value),
    }
}

// The bit that the map is valid and the candidate was found.
#[tactic(auto, using(crate::proofs::Made::kept))]
fn closed(terms: &mut NormalTerms, valid: TermId, found: Option<TermId>) -> Result<TermId, NoMemory>
    requires valid { IsTerm terms.old 32 valid.0 }
    requires found { MaybeTerm terms.old found }
    ensures made { IfOk result (λ v. IsTerm terms.new 1 v.0) }
    ensures value { IfOk result (λ v. (numbers : ℕ → ℕ) (x y : Bool) → Obeys terms.new numbers → numbers valid.0 ≡ bit x → MaybeIs numbers false found y → numbers v.0 ≡ bit (x && y)) }
    ensures grows { IfOk result (λ v. (chosen : ℕ → Bool) → IsClosed terms.old chosen → chosen valid.0 ≡ true → MaybeChosen chosen found → Grows terms.old terms.new chosen (joining found) v.0) }
    ensures grown { Grown terms.old terms.new 3 }
{
    match found {
        None => {
            let v = constant(terms, 1, 0)?;
            Ok(v)
        }
        Some(f) => {
            let t = test(terms, valid)?;
            let v = all(terms, t, f)?;
            Ok(v)
        }
    }
}

// After all steps on which the goal depends.
#[tactic(auto, using(crate::proofs::Made::kept))]
fn folded(terms: &mut NormalTerms, steps: &[Step<TermId>]) -> Result<GoalState, NoMemory>
    requires { EachTest (λ v. IsTerm terms.old 32 v.0) steps.now }
    ensures made { IfOk result (λ x. IsState terms.new x) }
    ensures value { IfOk result (λ x. (numbers : ℕ → ℕ) (events : List ListedEvent) → Obeys terms.new numbers → Says (λ v b. numbers v.0 ≡ bit b) steps.now events → MaybeIs numbers false x.found (is_hit_first events)) }
    ensures spends { IfOk result (λ x. (chosen : ℕ → Bool) → IsClosed terms.old chosen → EachTest (λ v. chosen v.0 ≡ true) steps.now → Spends terms.old terms.new chosen no_state x (full_charges steps.now)) }
    ensures grown { Grown terms.old terms.new (full_charges steps.now) }
{
    let mut state = GoalState {
        clear: None,
        found: None,
    };
    let mut rest = steps;
    while let Some((first, behind)) = rest.split_first() {
        state = stepped(terms, state, *first)?;
        rest = behind;
    }
    Ok(state)
}

/// The bit that the map is valid and a step says that the candidate is hit, where no step before it says that a member
/// of the set is violated. Violations are joined in the order of the steps, so that the goals of one walk share their
/// terms.
#[tactic(auto, using(crate::proofs::Made::kept))]
pub(crate) fn goal_of(
    terms: &mut NormalTerms,
    walk: &IndexedWalk,
    candidate: u32,
    set: &[Condition],
) -> Result<TermId, NoMemory>
    requires valid { IsTerm terms.old 32 walk.now.walked.valid.0 }
    requires steps { EachTest (λ v. IsTerm terms.old 32 v.0) walk.now.walked.steps }
    ensures made { IfOk result (λ v. IsTerm terms.new 1 v.0) }
    ensures value { IfOk result (λ v. (numbers : ℕ → ℕ) (b : Bool) (events : List ListedEvent) → Obeys terms.new numbers → numbers walk.now.walked.valid.0 ≡ bit b → Says (λ x y. numbers x.0 ≡ bit y) walk.now.walked.steps events → numbers v.0 ≡ bit (b && is_hit_free set.now candidate events)) }
    ensures grows { IfOk result (λ v. (chosen : ℕ → Bool) → IsClosed terms.old chosen → chosen walk.now.walked.valid.0 ≡ true → EachTest (λ x. chosen x.0 ≡ true) walk.now.walked.steps → Grows terms.old terms.new chosen (goal_charge set.now candidate walk.now.walked.steps) v.0) }
    ensures grown { Grown terms.old terms.new (goal_charge set.now candidate walk.now.walked.steps + 3) }
{
    let steps = walk.steps_that_matter(candidate, set)?;
    let state = folded(terms, steps.as_slice())?;
    let v = closed(terms, walk.walked.valid, state.found)?;
    Ok(v)
}

impl Symbols {
    /// The goal of a candidate, by its position in the list of candidates, for a set of conditions: a term of width 1
    /// over the values of a walk, none of whose parts is the left side of a rewriting rule. Under an input map it is 1
    /// exactly where the map is valid and the candidate is hit with no member of the set violated before, as the
    /// walk's values say (Wang, Zeldovich, Kaashoek, Solar-Lezama, SOSP 2013, section 3).
    ///
    /// It costs at most what the walk's values cost, each term on which they depend once, and 3 for each step that
    /// tells of a member of the set, 6 for each one that tells of a hit of the candidate. So it costs at most as much
    /// as the store did when these values were made, and that; what other goals added since doesn't count. Terms that
    /// were made stay, also after `NoMemory`; no term that was there is gone over, and no step but those that tell of a
    /// member of the set or of the candidate. Violations are joined in the order of the steps, so that the goals of one
    /// walk share their terms.
    pub fn goal(
        &mut self,
        walk: &IndexedWalk,
        candidate: u32,
        set: &[Condition],
    ) -> Result<TermId, NoMemory>
        requires valid { IsMade self.old Int walk.now.walked.valid }
        requires steps { EachTest (IsMade self.old Int) walk.now.walked.steps }
        ensures normal { IfOk result (λ v. IsNormal self.new.terms v.0) }
        ensures one { IfOk result (λ v. width_at self.new.terms v.0 ≡ 1) }
        ensures value { IfOk result (λ v. (m : List ℤ) (b : Bool) (events : List ListedEvent) → Serves self.old m → Shows self.old m Int walk.now.walked.valid (truth b) → Says (λ x y. Shows self.old m Int x (truth y)) walk.now.walked.steps events → number_at self.new.terms (residues_of self.old.kinds m) v.0 ≡ bit (b && is_hit_free set.now candidate events)) }
        ensures cheap { IfOk result (λ v. (chosen : ℕ → Bool) → IsClosed self.old.terms chosen → chosen walk.now.walked.valid.0 ≡ true → EachTest (λ x. chosen x.0 ≡ true) walk.now.walked.steps → cost self.new.terms v.0 ≤ weight self.old.terms chosen (length self.old.terms.terms) + goal_charge set.now candidate walk.now.walked.steps) }
        ensures within { IfOk result (λ v. (first : Symbolic) → IsMade first Int walk.now.walked.valid → EachTest (IsMade first Int) walk.now.walked.steps → growth.Keeps first.terms self.old.terms → cost self.new.terms v.0 ≤ total_cost first.terms + goal_charge set.now candidate walk.now.walked.steps) }
        ensures kinds { self.new.kinds ≡ self.old.kinds }
        ensures stays { growth.Keeps self.old.terms self.new.terms }
        ensures keeps { Keeps Serves HasKey IsMade Shows self.old self.new }
    {
        let answer = goal_of(&mut self.terms, walk, candidate, set);
        // For the prover: the terms keep their facts.
        let _count = self.terms.count();
        answer
    }
}
