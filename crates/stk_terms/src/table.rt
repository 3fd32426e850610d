//! The store of terms and its calls.
ghost use Rattle.std.specs.Prelude.{◌≡◌, ℕ, ◌+◌, List, ◌<◌, ◌≤◌, ◌^◌, [], true, false, length, get_or, ◌↔◌, IsTrue, IfOk, OnOk, OnErr};
ghost use Rattle.stk_terms.specs.Fitting.{AreWidths, AreResidues, CanMake, IsSound};
ghost use Rattle.stk_terms.specs.Terms.{StandsAt, Adds, Term, term_of, no_terms};
ghost use Rattle.stk_terms.specs.Values.{meaning, meanings, bits_of, width_of, widths_of, width_at, number_at};
ghost use Rattle.stk_terms.specs.Cost.{total_cost, bound_of};
ghost use Rattle.stk_terms.specs.Growth.{Keeps};
ghost use Rattle.stk_terms.specs.Parts.{IsPart, is_part};
ghost use Rattle.stk_terms.specs.Orders.{IsOrder, HasPlace, AreParts, AreNumbers};

use crate::fitting::are_residues;
use crate::kept;
use crate::marks::parts;
use crate::nodes::{evaluate, fits, number, width_of};
use crate::order::order_of;
use crate::term::{TermId, TermNode, TermOp};
use indexmap::IndexSet;
use smallvec::SmallVec;
use std::alloc::Global;
use std::marker::Model;
use stk_base::{List, NoMemory};

/// One residue for each input, below 2 to the input's width.
#[derive(Debug, Drop)]
pub struct Residues {
    pub numbers: List<u64>,
}

/// The terms made so far, over inputs of fixed widths. Each term is an operator over earlier ones, and none is there
/// twice.
#[derive(Drop)]
pub struct Terms {
    inputs: List<u8>,
    nodes: IndexSet<TermNode>,
}

impl Model for Terms {
    ghost use Rattle.stk_terms.specs.Terms.{Stored};

    ghost Value = { Stored };

    ghost use Rattle.stk_terms.specs.Keys.{terms_of, AreKept};

    ghost view = { λ t. record { inputs = t.inputs; terms = terms_of t.nodes.keys } };

    ghost invariant = { λ t. AreKept t.inputs t.nodes.keys };
}

impl Terms {
    /// No terms yet, over inputs of these widths, each from 1 to 64. Takes no memory; the allocator is for later calls.
    pub fn new(alloc: Global, widths: List<u8>) -> Terms
        requires { AreWidths widths }
        ensures { result ≡ no_terms widths }
    {
        Terms {
            inputs: widths,
            nodes: IndexSet::new(alloc),
        }
    }

    /// Whether `make` can make a term of this operator and these arguments: whether the arguments exist, and fit the
    /// operator in number and widths, and the numbers in the operator are in their ranges.
    pub fn can_make(&self, op: TermOp, args: &[TermId]) -> bool
        ensures { IsTrue result ↔ CanMake self.now (term_of op args.now) }
    {
        fits(self.inputs.as_slice(), self.nodes.as_slice(), op, args)
    }

    /// Whether there is one residue for each input, below 2 to the input's width.
    pub fn has_residues(&self, inputs: &Residues) -> bool
        ensures { IsTrue result ↔ AreResidues self.now.inputs inputs.now.numbers }
    {
        are_residues(self.inputs.as_slice(), inputs.numbers.as_slice())
    }

    /// As `has_residues`, of residues in a row.
    pub fn are_residues(&self, residues: &[u64]) -> bool
        ensures { IsTrue result ↔ AreResidues self.now.inputs residues.now }
    {
        are_residues(self.inputs.as_slice(), residues)
    }

    /// The term of an operator over earlier terms: the one that is there, or a new one behind all others.
    pub fn make(&mut self, op: TermOp, args: &[TermId]) -> Result<TermId, NoMemory>
        requires { CanMake self.old (term_of op args.now) }
        ensures made { IfOk result (λ id. StandsAt self.new.terms id.0 (term_of op args.now)) }
        ensures shared { (i : ℕ) → StandsAt self.old.terms i (term_of op args.now) → IfOk result (λ id. id.0 ≡ i) }
        ensures adds { OnOk result (Adds self.old.terms (term_of op args.now) self.new.terms) }
        ensures value { IfOk result (λ id. (residues : List ℕ) → meaning self.new residues id.0
            ≡ bits_of self.old.inputs residues (meanings self.old residues) (term_of op args.now)) }
        ensures wide { IfOk result (λ id. width_at self.new id.0 ≡ width_of self.old.inputs (widths_of self.old) (term_of op args.now)) }
        ensures charge { total_cost self.new ≤ total_cost self.old + bound_of (widths_of self.old) (term_of op args.now) }
        ensures keeps { Keeps self.old self.new }
        ensures sound { IsSound self.new }
        ensures err { OnErr result (self.new ≡ self.old) }
    {
        let inputs = self.inputs.as_slice();
        let nodes = self.nodes.as_slice();
        let width = width_of(inputs, nodes, op, args);
        let args = SmallVec::from_slice(*self.nodes.allocator(), args)?;
        let place = kept::add(&mut self.nodes, TermNode { op, args, width })?;
        Ok(TermId(place))
    }

    /// How many terms there are.
    pub fn count(&self) -> usize
        ensures count { result ≡ length self.now.terms }
        ensures sound { IsSound self.now }
    {
        self.nodes.len()
    }

    /// The widths of the inputs.
    pub fn widths(&self) -> &[u8]
        ensures { result.now ≡ self.now.inputs }
    {
        self.inputs.as_slice()
    }

    /// The width of a term, from 1 to 128.
    pub fn width(&self, id: TermId) -> u8
        requires { id.0 < length self.now.terms }
        ensures is { result ≡ width_at self.now id.0 }
        ensures least { 1 ≤ result }
        ensures most { result ≤ 128 }
    {
        self.nodes.as_slice()[id.0].width
    }

    /// The operator of a term.
    pub fn op(&self, id: TermId) -> TermOp
        requires { id.0 < length self.now.terms }
        ensures { (t : Term) → StandsAt self.now.terms id.0 t → result ≡ t.op }
    {
        self.nodes.as_slice()[id.0].op
    }

    /// The arguments of a term.
    pub fn args(&self, id: TermId) -> &[TermId]
        requires { id.0 < length self.now.terms }
        ensures { (t : Term) → StandsAt self.now.terms id.0 t → result.now ≡ t.args }
    {
        self.nodes.as_slice()[id.0].args.as_slice()
    }

    /// For each term up to this one, whether this one depends on it: it is this one, or an argument of a term on which
    /// this one depends.
    pub fn parts(&self, id: TermId) -> Result<List<bool>, NoMemory>
        requires { id.0 < length self.now.terms }
        ensures count { IfOk result (λ m. length m ≡ id.0 + 1) }
        ensures told { IfOk result (λ m. (j : ℕ) → j ≤ id.0 → get_or m j false ≡ is_part self.now id.0 j) }
        ensures all { (j : ℕ) → IsPart self.now j id.0 → (j ≤ id.0) × (is_part self.now id.0 j ≡ true) }
        ensures only { (j : ℕ) → is_part self.now id.0 j ≡ true → IsPart self.now j id.0 }
    {
        let marks = parts(
            *self.nodes.allocator(),
            self.inputs.as_slice(),
            self.nodes.as_slice(),
            id.0,
        )?;
        Ok(List::from_vec(marks))
    }

    /// What `order_of` gives, in memory of the store's own allocator.
    pub fn order(&self, id: TermId) -> Result<Vec<usize>, NoMemory>
        requires { id.0 < length self.now.terms }
        ensures order { IfOk result (λ r. IsOrder self.now (id.0 + 1) r.items) }
        ensures has { IfOk result (λ r. HasPlace r.items id.0) }
        ensures parts { IfOk result (λ r. AreParts self.now id.0 r.items) }
    {
        order_of(*self.nodes.allocator(), self, id)
    }

    /// The number of a term for residues of the inputs, below 2 to the term's width. It takes one pass over the terms
    /// up to this one.
    pub fn value(&self, id: TermId, inputs: &Residues) -> Result<u128, NoMemory>
        requires exists { id.0 < length self.now.terms }
        requires residues { AreResidues self.now.inputs inputs.now.numbers }
        ensures is { IfOk result (λ n. n ≡ number_at self.now inputs.now.numbers id.0) }
        ensures below { IfOk result (λ n. n < 2 ^ width_at self.now id.0) }
    {
        let number = number(
            *self.nodes.allocator(),
            self.inputs.as_slice(),
            self.nodes.as_slice(),
            inputs.numbers.as_slice(),
            id.0,
        )?;
        Ok(number)
    }

    /// Writes the numbers of the terms at the places of an order for residues of the inputs, each at its place.
    pub(crate) fn evaluate(&self, order: &[usize], residues: &[u64], numbers: &mut [u128])
        requires residues { AreResidues self.now.inputs residues.now }
        requires order { IsOrder self.now (length numbers.old) order.now }
        ensures are { AreNumbers self.now residues.now order.now (length order.now) numbers.new }
        ensures long { length numbers.new ≡ length numbers.old }
    {
        evaluate(
            self.inputs.as_slice(),
            self.nodes.as_slice(),
            order,
            residues,
            numbers,
        );
    }
}
