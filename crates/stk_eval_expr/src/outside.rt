//! What a run does with the answers of the outside.
#![tactic(auto, using(crate::proofs::LeavingLaws::value_leaves, crate::proofs::LeavingLaws::stops_leave))]

ghost use Rattle.std.specs.Prelude.{◌≡◌, IfOk, ℤ};
ghost use Rattle.stk_tree.specs.View.{view_expression};
ghost use Rattle.stk_meaning.specs.Libraries.{called_signature, result_in};
ghost use Rattle.stk_meaning.specs.Places.{target_at};
ghost use Rattle.stk_meaning.specs.Worlds.{answered, written};
ghost use Rattle.stk_meaning.specs.Expressions.{address_of, number_in, stored_at};
ghost use Rattle.stk_operators.specs.Targets.{target_shown};
ghost use Rattle.stk_eval_expr.specs.Leaving.{Leaves};

use crate::state::{State, put_word};
use crate::world::World;
use stk_base::NoMemory;
use stk_numbers::IntKind;
use stk_operators::{Target, Word};
use stk_tree::Expr;

/// The address of an object; a register has none.
pub fn object_address<W: World>(out: &W, object: u32) -> u64
    ensures { result ≡ address_of (W.world out.now) (target_at (W.setting out.now) object) object }
{
    match out.target_at(object) {
        Target::Register(_) => 0,
        Target::Kept(_) | Target::Object(_) | Target::Unnamed => out.address(object),
    }
}

/// The number of a place that is read at a node in a kind: of a register its own, else what the world gives.
pub(crate) fn read<W: World>(
    out: &W,
    target: Target,
    node: u32,
    kind: IntKind,
    at: u64,
    state: &mut State<W::Kept>,
) -> Word
    ensures { Leaves W.shown (number_in (W.world out.now) (target_shown target) node kind at state.old.registers.items (W.shown state.old.kept)) result state.old state.new }
{
    match target {
        Target::Register(register) => state.register(register),
        Target::Kept(_) | Target::Object(_) | Target::Unnamed => {
            out.load(target, node, kind, at, &mut state.kept)
        }
    }
}

/// Stores a number of a kind in a place.
pub fn store<W: World>(
    out: &W,
    target: Target,
    kind: IntKind,
    at: u64,
    number: Word,
    state: &mut State<W::Kept>,
) -> Result<(), NoMemory>
    ensures { IfOk result (λ _. (z : ℤ) → Leaves W.shown (stored_at (W.world out.now) (target_shown target) kind at number z state.old.registers.items (W.shown state.old.kept)) z state.old state.new) }
{
    match target {
        Target::Register(register) => {
            put_word(&mut state.registers, register as usize, number);
            Ok(())
        }
        Target::Kept(_) | Target::Object(_) | Target::Unnamed => {
            out.store(target, kind, at, number, &mut state.kept)
        }
    }
}

/// The writes of the outside; where it has no answer left, the run ends.
pub fn write<W: World>(out: &W, state: &mut State<W::Kept>) -> Result<(), NoMemory>
    ensures { IfOk result (λ _. (z : ℤ) → Leaves W.shown (written z ((W.world out.now).write (W.shown state.old.kept)) state.old.registers.items) z state.old state.new) }
{
    if !out.write(&mut state.kept)? {
        state.end();
    }
    Ok(())
}

/// The number of a call; where no answer is left, the run ends.
pub(crate) fn answer<W: World>(
    out: &W,
    node: u32,
    callee: &Expr,
    state: &mut State<W::Kept>,
) -> Result<Word, NoMemory>
    ensures { IfOk result (λ v. Leaves W.shown (answered ((W.world out.now).call node (result_in (called_signature (W.setting out.now).typing (view_expression callee.now))) (W.shown state.old.kept)) state.old.registers.items) v state.old state.new) }
{
    match out.call(node, callee, &mut state.kept)? {
        Some(number) => Ok(number),
        None => {
            state.end();
            Ok(Word::bit(false))
        }
    }
}
