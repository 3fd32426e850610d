// Who answers for a source.
ghost use Rattle.std.specs.Prelude.{◌≡◌, ◌<◌, ◌^◌, ◌↔◌, true, ℕ, List, Option, Some, None, IfOk, OnOk, IsSome, IsTrue, MatchOption};
ghost use Rattle.std.specs.List.{All};
ghost use Rattle.stk_clauses.specs.Literals.{AreBelow};
ghost use Rattle.stk_audit_rules.specs.Worlds.{World, IsAnsweredBy};
ghost use Rattle.stk_audit_rules.specs.Naming.{is_next_function};
ghost use Rattle.stk_numbers.specs.declared.conditions.Candidate.{Candidate as Asked};
ghost use Rattle.stk_numbers.specs.declared.conditions.Condition.{Condition as Violated};
ghost use Rattle.stk_audit.specs.Hands.{Hand, begins, hand_at, function_at, IsNamedCandidate, IsNamedCondition, IsAsked, TellsNone};

use stk_base::NoMemory;
use stk_clauses::Cnf;
use stk_numbers::{Candidate, Condition, Kinds};

/// Who answers for a source, of one function after the other, in the order in which they begin. What is asked below is
/// asked of the function at hand. The only refusal is want of memory, after which nothing may be asked.
pub trait Answering {
    /// What tells one source from another.
    ghost identity: { Type 0 };

    /// The source that is asked about.
    ghost about: { Self → identity };

    /// What stands for a source.
    ghost world: { identity → World };

    /// The function at hand: which kinds are taken out, and where it begins.
    ghost hand: { Self → Option Hand };

    /// How many bytes the source has.
    fn source_length(&self) -> u64
        ensures { result ≡ (world (about self.now)).length };

    /// Takes up the function whose definition begins at this byte, behind that of the one at hand, if it is accepted
    /// with these kinds taken out.
    fn take_up(&mut self, without: Kinds, at: u64) -> Result<bool, NoMemory>
        requires { is_next_function (begins (hand self.old)) at ≡ true }
        ensures found { IfOk result (λ found. found ≡ (world (about self.old)).is_function without at) }
        ensures hand { IfOk result (λ found. found ≡ true → hand self.new ≡ Some (hand_at without at)) }
        ensures near { IfOk result (λ found. found ≡ true → at < 2 ^ 32) }
        ensures about { OnOk result (about self.new ≡ about self.old) };

    /// The candidate at the node with this number that is of the kind with this number, from 1 to 4, if the function
    /// has it.
    fn candidate(&self, node: u64, kind: u64) -> Option<Candidate>
        requires { IsSome (hand self.now) }
        ensures { (h : Hand) → hand self.now ≡ Some h → MatchOption result ((c : Asked) → IsNamedCandidate (function_at (world (about self.now)) h) node kind c → ⊥) (IsNamedCandidate (function_at (world (about self.now)) h) node kind) };

    /// The condition at the node with this number that is of the kind with this number, from 1 to 8, if the function
    /// has it.
    fn condition(&self, node: u64, kind: u64) -> Option<Condition>
        requires { IsSome (hand self.now) }
        ensures { (h : Hand) → hand self.now ≡ Some h → MatchOption result ((k : Violated) → IsNamedCondition (function_at (world (about self.now)) h) node kind k → ⊥) (IsNamedCondition (function_at (world (about self.now)) h) node kind) };

    /// Whether all input maps of the function are to be tried: it has at most 16 input bits.
    fn tries_all(&self) -> bool
        requires { IsSome (hand self.now) }
        ensures { (h : Hand) → hand self.now ≡ Some h → result ≡ (function_at (world (about self.now)) h).subject.tries_all };

    /// Whether a start, the numbers of an input map each modulo 2 to the width of its key, answers the query of a
    /// candidate and a set: the map is valid, and its path run hits the candidate where no condition of the set has
    /// been violated before (SOSP 2013 paper "Towards Optimization-Safe Systems", section 3).
    fn is_answer(
        &self,
        candidate: Candidate,
        set: &[Condition],
        start: &[u64],
    ) -> Result<bool, NoMemory>
        requires { IsAsked (world (about self.now)) (hand self.now) candidate set.now }
        ensures { IfOk result (λ is. (h : Hand) → hand self.now ≡ Some h → IsTrue is ↔ IsAnsweredBy (function_at (world (about self.now)) h) candidate set.now start.now) };

    /// Whether no map answers this query, in a function whose maps are all to be tried.
    fn none_answers(&mut self, candidate: Candidate, set: &[Condition]) -> Result<bool, NoMemory>
        requires asked { IsAsked (world (about self.old)) (hand self.old) candidate set.now }
        requires all { (h : Hand) → hand self.old ≡ Some h → (function_at (world (about self.old)) h).subject.tries_all ≡ true }
        ensures none { IfOk result (λ none. (h : Hand) → hand self.old ≡ Some h → TellsNone (function_at (world (about self.old)) h).subject candidate set.now none) }
        ensures hand { OnOk result (hand self.new ≡ hand self.old) }
        ensures about { OnOk result (about self.new ≡ about self.old) };

    /// The clauses that stand for this query, within their bound on variables.
    fn clauses(&mut self, candidate: Candidate, set: &[Condition]) -> Result<Cnf, NoMemory>
        requires { IsAsked (world (about self.old)) (hand self.old) candidate set.now }
        ensures stand { IfOk result (λ own. (h : Hand) → hand self.old ≡ Some h → (function_at (world (about self.old)) h).Stands candidate set.now own) }
        ensures within { IfOk result (λ own. All (AreBelow own.vars) own.store) }
        ensures hand { OnOk result (hand self.new ≡ hand self.old) }
        ensures about { OnOk result (about self.new ≡ about self.old) };
}
