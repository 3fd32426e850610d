//! Stores of terms none of which is the left side of a rule.
ghost use Rattle.std.specs.Prelude.{◌≡◌, ◌+◌, ◌<◌, ◌≤◌, ◌^◌, ℕ, List, length, get_or, IfOk};
ghost use Rattle.stk_terms.specs.Cost.{bound, total_cost};
ghost use Rattle.stk_terms.specs.Fitting.{AreWidths, IsSound, WidthsFit, arity};
ghost use Rattle.stk_terms.specs.Growth.{Keeps};
ghost use Rattle.stk_terms.specs.Terms.{no_terms};
ghost use Rattle.stk_terms.specs.Values.{width_at, number_at};
ghost use Rattle.stk_terms.specs.declared.term.TermOp.TheVariants.{Ite};
ghost use Rattle.stk_rewrite.specs.Normal.{AreNormal};
ghost use Rattle.stk_rewrite.specs.Rights.{IsBuilt};
ghost use Rattle.stk_rewrite.specs.declared.right.Right.TheVariants.{Number, One, Two, Chosen};

use crate::making::{normal_choice, normal_constant, normal_input, normal_one, normal_two};
use std::alloc::Global;
use std::marker::Model;
use stk_base::{List, NoMemory};
use stk_terms::{TermId, TermOp, Terms};

/// A store of terms none of which is the left side of a rule: each operator is rewritten over its arguments as it is
/// asked for, so no term is gone over twice. Contracts see it as its terms.
#[derive(Drop)]
pub struct NormalTerms {
    terms: Terms,
}

impl Model for NormalTerms {
    ghost use Rattle.stk_terms.specs.Terms.{Stored};

    ghost Value = { Stored };

    ghost use Rattle.stk_rewrite.specs.Normal.{AreNormal};

    ghost view = { λ t. t.terms };

    ghost invariant = { λ t. AreNormal t.terms };
}

impl NormalTerms {
    /// No terms yet, over inputs of these widths, each from 1 to 64. Takes no memory; the allocator is for later calls.
    pub fn new(alloc: Global, widths: List<u8>) -> NormalTerms
        requires { AreWidths widths }
        ensures { result ≡ no_terms widths }
    {
        NormalTerms {
            terms: Terms::new(alloc, widths),
        }
    }

    /// The terms, none of which is the left side of a rule.
    pub fn terms(&self) -> &Terms
        ensures same { result.now ≡ self.now }
        ensures sound { IsSound self.now }
        ensures normal { AreNormal self.now }
    {
        // For the prover: the terms keep their facts.
        let _count = self.terms.count();
        &self.terms
    }

    /// How many terms there are.
    pub fn count(&self) -> usize
        ensures count { result ≡ length self.now.terms }
        ensures sound { IsSound self.now }
        ensures normal { AreNormal self.now }
    {
        self.terms.count()
    }

    /// A constant.
    pub fn constant(&mut self, width: u8, number: u128) -> Result<TermId, NoMemory>
        requires least { 1 ≤ width }
        requires most { width ≤ 128 }
        requires number { number < 2 ^ width }
        ensures built { IfOk result (λ v. IsBuilt self.old self.new (Number width number) v.0) }
        ensures charge { total_cost self.new ≤ total_cost self.old }
        ensures keeps { Keeps self.old self.new }
        ensures sound { IsSound self.new }
    {
        let v = normal_constant(&mut self.terms, width, number)?;
        Ok(v)
    }

    /// An input.
    pub fn input(&mut self, key: u32) -> Result<TermId, NoMemory>
        requires { key < length self.old.inputs }
        ensures exists { IfOk result (λ v. v.0 < length self.new.terms) }
        ensures wide { IfOk result (λ v. width_at self.new v.0 ≡ get_or self.old.inputs key 0) }
        ensures value { IfOk result (λ v. (residues : List ℕ) → number_at self.new residues v.0 ≡ get_or residues key 0) }
        ensures charge { total_cost self.new ≤ total_cost self.old }
        ensures keeps { Keeps self.old self.new }
        ensures sound { IsSound self.new }
    {
        let v = normal_input(&mut self.terms, key)?;
        Ok(v)
    }

    /// What stands for an operator over a term: a term with the width and, for all residues of the inputs, the number
    /// of that operator. It costs no more than the operator would, and terms that are there stay.
    pub fn one(&mut self, op: TermOp, a: TermId) -> Result<TermId, NoMemory>
        requires exists { a.0 < length self.old.terms }
        requires arity { arity op ≡ 1 }
        requires fits { WidthsFit self.old.inputs op (width_at self.old a.0) 0 0 }
        ensures built { IfOk result (λ v. IsBuilt self.old self.new (One op a) v.0) }
        ensures charge { total_cost self.new ≤ total_cost self.old + bound op (width_at self.old a.0) 0 }
        ensures keeps { Keeps self.old self.new }
        ensures sound { IsSound self.new }
    {
        let v = normal_one(&mut self.terms, op, a)?;
        Ok(v)
    }

    /// The same for an operator over two terms.
    pub fn two(&mut self, op: TermOp, a: TermId, b: TermId) -> Result<TermId, NoMemory>
        requires first { a.0 < length self.old.terms }
        requires second { b.0 < length self.old.terms }
        requires arity { arity op ≡ 2 }
        requires fits { WidthsFit self.old.inputs op (width_at self.old a.0) (width_at self.old b.0) 0 }
        ensures built { IfOk result (λ v. IsBuilt self.old self.new (Two op a b) v.0) }
        ensures charge { total_cost self.new ≤ total_cost self.old + bound op (width_at self.old a.0) (width_at self.old b.0) }
        ensures keeps { Keeps self.old self.new }
        ensures sound { IsSound self.new }
    {
        let v = normal_two(&mut self.terms, op, a, b)?;
        Ok(v)
    }

    /// The same for the choice between two terms of one width by a test of width 1.
    pub fn choice(&mut self, test: TermId, a: TermId, b: TermId) -> Result<TermId, NoMemory>
        requires test { test.0 < length self.old.terms }
        requires first { a.0 < length self.old.terms }
        requires second { b.0 < length self.old.terms }
        requires one { width_at self.old test.0 ≡ 1 }
        requires alike { width_at self.old a.0 ≡ width_at self.old b.0 }
        ensures built { IfOk result (λ v. IsBuilt self.old self.new (Chosen test a b) v.0) }
        ensures charge { total_cost self.new ≤ total_cost self.old + bound Ite 1 (width_at self.old a.0) }
        ensures keeps { Keeps self.old self.new }
        ensures sound { IsSound self.new }
    {
        let v = normal_choice(&mut self.terms, test, a, b)?;
        Ok(v)
    }
}
