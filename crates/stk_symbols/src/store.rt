// The calls of a store, as terms.
use crate::symbols::Symbols;
use stk_base::NoMemory;
use stk_numbers::{ArithOp, CompareOp, IntKind, ShiftOp, UbKind};
use stk_terms::TermId;
use stk_values::Values;

impl Values for Symbols {
    type Value = TermId;

    ghost use Rattle.stk_terms.specs.Cost.{total_cost};
    ghost use Rattle.stk_symbols.specs.Symbolic.{Serves, HasKey, IsMade, Shows};

    ghost serves = { Serves };

    ghost has_key = { HasKey };

    ghost made = { IsMade };

    ghost shows = { Shows };

    ghost cost = { λ s. total_cost s.terms };

    ghost needs_memory = { Unit };

    fn constant(&mut self, kind: IntKind, number: i128) -> Result<TermId, NoMemory> {
        let answer = crate::constant(&mut self.terms, kind, number);
        // For the prover: the terms keep their facts.
        let _count = self.terms.count();
        answer
    }

    fn input(&mut self, key: u32, kind: IntKind) -> Result<TermId, NoMemory> {
        let answer = crate::input(&mut self.terms, key);
        // For the prover: the terms keep their facts.
        let _count = self.terms.count();
        answer
    }

    fn convert(&mut self, from: IntKind, to: IntKind, value: TermId) -> Result<TermId, NoMemory> {
        let answer = crate::converted(&mut self.terms, from, to, value);
        // For the prover: the terms keep their facts.
        let _count = self.terms.count();
        answer
    }

    fn arith(
        &mut self,
        op: ArithOp,
        kind: IntKind,
        left: TermId,
        right: TermId,
    ) -> Result<TermId, NoMemory> {
        let answer = crate::arith(&mut self.terms, op, kind, left, right);
        // For the prover: the terms keep their facts.
        let _count = self.terms.count();
        answer
    }

    fn shift(
        &mut self,
        op: ShiftOp,
        kind: IntKind,
        left: TermId,
        count_kind: IntKind,
        count: TermId,
    ) -> Result<TermId, NoMemory> {
        let answer = crate::shift(&mut self.terms, op, kind, left, count_kind, count);
        // For the prover: the terms keep their facts.
        let _count = self.terms.count();
        answer
    }

    fn compare(
        &mut self,
        op: CompareOp,
        kind: IntKind,
        left: TermId,
        right: TermId,
    ) -> Result<TermId, NoMemory> {
        let answer = crate::compare(&mut self.terms, op, kind, left, right);
        // For the prover: the terms keep their facts.
        let _count = self.terms.count();
        answer
    }

    fn moved(
        &mut self,
        base: TermId,
        step_kind: IntKind,
        step: TermId,
        size: u64,
        minus: bool,
    ) -> Result<TermId, NoMemory> {
        let answer = crate::moved(&mut self.terms, base, step_kind, step, size, minus);
        // For the prover: the terms keep their facts.
        let _count = self.terms.count();
        answer
    }

    fn distance(&mut self, left: TermId, right: TermId, size: u64) -> Result<TermId, NoMemory> {
        let answer = crate::distance(&mut self.terms, left, right, size);
        // For the prover: the terms keep their facts.
        let _count = self.terms.count();
        answer
    }

    fn choose(
        &mut self,
        test: TermId,
        kind: IntKind,
        yes: TermId,
        no: TermId,
    ) -> Result<TermId, NoMemory> {
        let answer = crate::choose(&mut self.terms, test, kind, yes, no);
        // For the prover: the terms keep their facts.
        let _count = self.terms.count();
        answer
    }

    fn both(&mut self, left: TermId, right: TermId) -> Result<TermId, NoMemory> {
        let answer = crate::both(&mut self.terms, left, right);
        // For the prover: the terms keep their facts.
        let _count = self.terms.count();
        answer
    }

    fn opposite(&mut self, test: TermId) -> Result<TermId, NoMemory> {
        let answer = crate::opposite(&mut self.terms, test);
        // For the prover: the terms keep their facts.
        let _count = self.terms.count();
        answer
    }

    fn breaks(
        &mut self,
        what: UbKind,
        op: ArithOp,
        kind: IntKind,
        left: TermId,
        right: TermId,
    ) -> Result<TermId, NoMemory> {
        let answer = crate::breaks(&mut self.terms, what, op, kind, left, right);
        // For the prover: the terms keep their facts.
        let _count = self.terms.count();
        answer
    }

    fn breaks_shift(
        &mut self,
        kind: IntKind,
        count_kind: IntKind,
        count: TermId,
    ) -> Result<TermId, NoMemory> {
        let answer = crate::breaks_shift(&mut self.terms, kind, count_kind, count);
        // For the prover: the terms keep their facts.
        let _count = self.terms.count();
        answer
    }

    fn breaks_move(
        &mut self,
        base: TermId,
        step_kind: IntKind,
        step: TermId,
        size: u64,
        minus: bool,
    ) -> Result<TermId, NoMemory> {
        let answer = crate::breaks_move(&mut self.terms, base, step_kind, step, size, minus);
        // For the prover: the terms keep their facts.
        let _count = self.terms.count();
        answer
    }

    fn breaks_bounds(
        &mut self,
        index_kind: IntKind,
        index: TermId,
        count: u64,
    ) -> Result<TermId, NoMemory> {
        let answer = crate::breaks_bounds(&mut self.terms, index_kind, index, count);
        // For the prover: the terms keep their facts.
        let _count = self.terms.count();
        answer
    }

    ghost use Rattle.stk_symbols.specs.Laws.{numbered, one};

    ghost has_number = { λ s m k v served made. numbered s m k v served made };

    ghost one_number = { λ s m k v x y p q. one s m k v x y p q };
}
