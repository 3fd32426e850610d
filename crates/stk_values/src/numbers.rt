// The store of values for one input map.
ghost use Rattle.std.specs.Prelude.{◌≡◌};
ghost use Rattle.stk_values.specs.Keeping.{truth};

use crate::values::Values;
use std::marker::Model;
use stk_base::NoMemory;
use stk_numbers as table;
use stk_numbers::{ArithOp, CompareOp, Inputs, IntKind, ShiftOp, UbKind};

/// The store of values for one input map: a value is its number. It needs no memory, so no call answers `NoMemory`, and
/// nothing in it costs anything. Contracts see it as the map's numbers.
#[derive(Debug, Drop)]
pub struct Numbers {
    inputs: Inputs,
}

impl Model for Numbers {
    ghost use Rattle.std.specs.Prelude.{List, ℤ};

    ghost Value = { List ℤ };

    ghost view = { λ n. n.inputs.numbers };
}

impl Numbers {
    /// The store for a map. It has a key at each kind whose range holds the map's number for that key.
    pub fn new(inputs: Inputs) -> Numbers
        ensures { result ≡ inputs.numbers }
    {
        Numbers { inputs }
    }
}

// 1 for true.
fn test(holds: bool) -> i128
    ensures { result ≡ truth holds }
{
    if holds { 1 } else { 0 }
}

impl Values for Numbers {
    type Value = i128;

    ghost use Rattle.std.specs.Prelude.{◌≡◌, ◌<◌, length, get_or, pos, IsTrue, refl};
    ghost use Rattle.stk_numbers.specs.Kinds.{fits};

    ghost serves = { λ s m. m ≡ s };

    ghost has_key = { λ s key k. (key < length s) × IsTrue (fits k (get_or s key (pos 0))) };

    ghost made = { λ s k v. IsTrue (fits k v) };

    ghost shows = { λ s m k v z. z ≡ v };

    ghost cost = { λ s. 0 };

    ghost needs_memory = { ⊥ };

    fn constant(&mut self, _kind: IntKind, number: i128) -> Result<i128, NoMemory> {
        Ok(number)
    }

    fn input(&mut self, key: u32, _kind: IntKind) -> Result<i128, NoMemory> {
        let numbers = self.inputs.numbers.as_slice();
        Ok(numbers[key as usize])
    }

    fn convert(&mut self, _from: IntKind, to: IntKind, value: i128) -> Result<i128, NoMemory> {
        Ok(table::wrap(to, value))
    }

    fn arith(
        &mut self,
        op: ArithOp,
        kind: IntKind,
        left: i128,
        right: i128,
    ) -> Result<i128, NoMemory> {
        Ok(table::arith(op, kind, left, right))
    }

    fn shift(
        &mut self,
        op: ShiftOp,
        kind: IntKind,
        left: i128,
        _count_kind: IntKind,
        count: i128,
    ) -> Result<i128, NoMemory> {
        Ok(table::shifted(op, kind, left, count))
    }

    fn compare(
        &mut self,
        op: CompareOp,
        _kind: IntKind,
        left: i128,
        right: i128,
    ) -> Result<i128, NoMemory> {
        Ok(test(table::compared(op, left, right)))
    }

    fn moved(
        &mut self,
        base: i128,
        _step_kind: IntKind,
        step: i128,
        size: u64,
        minus: bool,
    ) -> Result<i128, NoMemory> {
        Ok(i128::from(table::moved(base as u64, step, size, minus)))
    }

    fn distance(&mut self, left: i128, right: i128, size: u64) -> Result<i128, NoMemory> {
        Ok(table::distance(left as u64, right as u64, size))
    }

    fn choose(
        &mut self,
        test: i128,
        _kind: IntKind,
        yes: i128,
        no: i128,
    ) -> Result<i128, NoMemory> {
        Ok(if test == 1 { yes } else { no })
    }

    fn both(&mut self, left: i128, right: i128) -> Result<i128, NoMemory> {
        Ok(test(left == 1 && right == 1))
    }

    fn opposite(&mut self, value: i128) -> Result<i128, NoMemory> {
        Ok(test(value != 1))
    }

    fn breaks(
        &mut self,
        what: UbKind,
        op: ArithOp,
        kind: IntKind,
        left: i128,
        right: i128,
    ) -> Result<i128, NoMemory> {
        Ok(test(table::breaks(what, op, kind, left, right)))
    }

    fn breaks_shift(
        &mut self,
        kind: IntKind,
        _count_kind: IntKind,
        count: i128,
    ) -> Result<i128, NoMemory> {
        Ok(test(table::breaks_shift(kind, count)))
    }

    fn breaks_move(
        &mut self,
        base: i128,
        _step_kind: IntKind,
        step: i128,
        size: u64,
        minus: bool,
    ) -> Result<i128, NoMemory> {
        Ok(test(table::breaks_move(base as u64, step, size, minus)))
    }

    fn breaks_bounds(
        &mut self,
        _index_kind: IntKind,
        index: i128,
        count: u64,
    ) -> Result<i128, NoMemory> {
        Ok(test(table::breaks_bounds(index, count)))
    }

    ghost has_number = { λ s m k v served made. (v, refl, made) };

    ghost use Rattle.stk_values.specs.Keeping.{alike};

    ghost one_number = { λ s m k v x y p q. alike x y v p q };
}
