//! How the outside answers a run.

ghost use Rattle.std.specs.Prelude.{◌≡◌, IfOk, OnOk};
ghost use Rattle.stk_tree.specs.View.{view_expression, view_statement_form};
ghost use Rattle.stk_meaning.specs.Changes.{assigned_in, forgotten_in};
ghost use Rattle.stk_meaning.specs.Libraries.{called_signature, result_in};
ghost use Rattle.stk_meaning.specs.Worlds as worlds;
ghost use Rattle.stk_operators.specs.Targets.{target_shown};
ghost use Rattle.stk_eval_expr.specs.Answering.{Answers, Writes};

use crate::asked::RunSetting;
use stk_base::NoMemory;
use stk_numbers::IntKind;
use stk_operators::{Target, Word};
use stk_tree::{Expr, StmtForm};

/// How the outside answers a run: an input map in a path run, memory and a list of answers in an execution. What it
/// keeps from one answer to the next is the caller's: a call changes what it is handed, and nothing else.
pub trait World: RunSetting {
    /// What is kept from one answer to the next.
    type Kept: Drop;

    /// The states of the world.
    ghost Shown: { Type 0 };

    /// The state that is kept.
    ghost shown: { Self.Kept → Shown };

    ghost world: { Self → worlds.World Shown };

    /// The address of an object.
    fn address(&self, node: u32) -> u64
        ensures { result ≡ (world self.now).address node };

    /// What a read of a place at a node gives in a kind; the place is said by name, and by its address.
    fn load(&self, target: Target, node: u32, kind: IntKind, at: u64, kept: &mut Self::Kept) -> Word
        ensures { (result, shown kept.new) ≡ (world self.now).load (target_shown target) node kind at (shown kept.old) };

    /// Stores a number of a kind in a place, which is said by name, and by its address.
    fn store(
        &self,
        target: Target,
        kind: IntKind,
        at: u64,
        number: Word,
        kept: &mut Self::Kept,
    ) -> Result<(), NoMemory>
        ensures { OnOk result (shown kept.new ≡ (world self.now).store (target_shown target) kind at number (shown kept.old)) };

    /// The number of the call of an expression at a node; none where no answer is left.
    fn call(
        &self,
        node: u32,
        callee: &Expr,
        kept: &mut Self::Kept,
    ) -> Result<Option<Word>, NoMemory>
        ensures { IfOk result (λ x. Answers x (shown kept.new) ((world self.now).call node (result_in (called_signature (Self.setting self.now).typing (view_expression callee.now))) (shown kept.old))) };

    /// The writes of the outside; false where no answer is left.
    fn write(&self, kept: &mut Self::Kept) -> Result<bool, NoMemory>
        ensures { IfOk result (λ x. Writes x (shown kept.new) ((world self.now).write (shown kept.old))) };

    /// The number of a register without initialiser, in its kind; none where no answer is left.
    fn unset(&self, node: u32, kind: IntKind, kept: &mut Self::Kept) -> Option<Word>
        ensures { Answers result (shown kept.new) ((world self.now).unset node kind (shown kept.old)) };

    /// Begins a kept object without initialiser, by its position.
    fn begin_kept(&self, position: u32, kept: &mut Self::Kept)
        ensures { shown kept.new ≡ (world self.now).begin_kept position (shown kept.old) };

    /// Sets the registers of a loop, by its node and its form.
    fn reset(&self, node: u32, form: &StmtForm, registers: &mut Vec<Word>)
        requires { Self.knows self.now node (view_statement_form form.now) }
        ensures { registers.new.items ≡ (world self.now).reset node (assigned_in (Self.setting self.now) (view_statement_form form.now)) registers.old.items };

    /// Forgets what a loop forgets, by its node and its form.
    fn forget(&self, node: u32, form: &StmtForm, kept: &mut Self::Kept)
        requires { Self.knows self.now node (view_statement_form form.now) }
        ensures { shown kept.new ≡ (world self.now).forget (forgotten_in (Self.setting self.now) (view_statement_form form.now)) (shown kept.old) };

    /// How many turns each loop takes at most.
    fn turns(&self) -> u32
        ensures { result ≡ (world self.now).turns };
}
