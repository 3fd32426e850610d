//! A function in an execution: its memory has bytes at addresses, and the outside answers calls.

ghost use Rattle.std.specs.Prelude.{◌≡◌, IfOk, None, Some, Option, if◌then◌else◌, pos};
ghost use Rattle.stk_tree.specs.View.{view_expression};
ghost use Rattle.stk_type_rules.specs.Types.{is_void};
ghost use Rattle.stk_meaning.specs.Executions.{Outside, next_answer, next_writes, real_world};
ghost use Rattle.stk_meaning.specs.Libraries.{called_signature, result_in};
ghost use Rattle.stk_meaning.specs.Maps.{addresses_in};
ghost use Rattle.stk_meaning.specs.Paths.{number_under};
ghost use Rattle.stk_meaning.specs.Typings.{converted};
ghost use Rattle.stk_eval_expr.specs.Answering.{Answers};
ghost use Rattle.stk_function_env.specs.Settings.{setting_in};
ghost use Rattle.stk_function_types.specs.Nodes.{typing_in};
ghost use Rattle.stk_path_runs.specs.Rows.{Knows};
ghost use Rattle.stk_replaying.specs.Outsides.{outside_of, Takes};

use crate::outside::OutsideLeft;
use stk_base::{NoMemory, Span};
use stk_ctype::CType;
use stk_eval_expr::{Replacement, RunSetting, World};
use stk_function_env::called_signature;
use stk_function_types::FunctionTypes;
use stk_numbers::{IntKind, Kinds};
use stk_operators::{Library, NodeTests, Operation, Operator, Stride, Target, Word, number_kind};
use stk_path_runs::MappedFunction;
use stk_tree::{Expr, StepOp, StmtForm};
use stk_type_rules::is_void;

/// A function in an execution. What its path runs ask of it is answered as there, and so is the address of an object.
#[derive(Drop)]
pub(crate) struct ExecutedFunction<'a> {
    pub mapped: MappedFunction<'a>,
    pub turns: u32,
}

// The number of an answer, in the type of what a call calls; 0 where that has none.
fn answered_number(types: &FunctionTypes, callee: &Expr, number: i128) -> Word
    ensures { result ≡ (let t = result_in (called_signature (typing_in types.now) (view_expression callee.now)) in if is_void t then pos 0 else converted t number) }
{
    match called_signature(types, callee) {
        None => Word::bit(false),
        Some(f) => {
            if is_void(&f.result) {
                Word::bit(false)
            } else {
                Word::wrapped(number_kind(&f.result), number)
            }
        }
    }
}

impl<'a> RunSetting for ExecutedFunction<'a> {
    ghost setting = { λ s. setting_in s.mapped.tables.now.places };

    ghost knows = { λ s. Knows (setting_in s.mapped.tables.now.places) s.mapped.tables.now.places.keys s.mapped.tables.now.rows };

    fn without(&self) -> Kinds {
        self.mapped.without()
    }

    fn kind_at(&self, node: u32) -> IntKind {
        self.mapped.kind_at(node)
    }

    fn is_array_at(&self, node: u32) -> bool {
        self.mapped.is_array_at(node)
    }

    fn is_scalar_at(&self, node: u32) -> bool {
        self.mapped.is_scalar_at(node)
    }

    fn own_number(&self, node: u32) -> Option<Word> {
        self.mapped.own_number(node)
    }

    fn object_named(&self, node: u32, name: Span) -> u32 {
        self.mapped.object_named(node, name)
    }

    fn target_at(&self, node: u32) -> Target {
        self.mapped.target_at(node)
    }

    fn operation(&self, op: Operator, left: u32, right: u32) -> Operation {
        self.mapped.operation(op, left, right)
    }

    fn step_operation(&self, op: StepOp, node: u32) -> Operation {
        self.mapped.step_operation(op, node)
    }

    fn stride_at(&self, node: u32) -> Stride {
        self.mapped.stride_at(node)
    }

    fn index_node_tests(&self, accessed: bool, node: u32) -> NodeTests {
        self.mapped.index_node_tests(accessed, node)
    }

    fn offset(&self, node: u32, name: Span) -> u64 {
        self.mapped.offset(node, name)
    }

    fn pointed_offset(&self, node: u32, name: Span) -> u64 {
        self.mapped.pointed_offset(node, name)
    }

    fn library(&self, callee: &Expr) -> Option<Library> {
        self.mapped.library(callee)
    }

    fn never_returns(&self, callee: &Expr) -> bool {
        self.mapped.never_returns(callee)
    }

    fn gives_nothing(&self, callee: &Expr) -> bool {
        self.mapped.gives_nothing(callee)
    }

    fn parameters(&self, callee: &Expr) -> &[CType] {
        self.mapped.parameters(callee)
    }

    fn replacement(&self, left: &Expr, right: &Expr) -> Result<Option<Replacement>, NoMemory> {
        self.mapped.replacement(left, right)
    }

    fn is_number(&self, kind: IntKind, number: Word, node: u32) -> bool {
        self.mapped.is_number(kind, number, node)
    }
}

impl<'a> World for ExecutedFunction<'a> {
    type Kept = OutsideLeft<'a>;

    ghost Shown = { Outside };

    ghost shown = { λ kept. outside_of kept };

    ghost world = { λ s. real_world (addresses_in (number_under s.mapped.tables.now.places.keys s.mapped.numbers.now)) s.turns };

    fn address(&self, node: u32) -> u64 {
        self.mapped.address(node)
    }

    // Memory knows a place by its address alone.
    fn load(
        &self,
        _target: Target,
        _node: u32,
        kind: IntKind,
        at: u64,
        kept: &mut OutsideLeft<'a>,
    ) -> Word {
        Word::wrapped(kind, kept.memory.number_at(kind, at))
    }

    fn store(
        &self,
        _target: Target,
        kind: IntKind,
        at: u64,
        number: Word,
        kept: &mut OutsideLeft<'a>,
    ) -> Result<(), NoMemory> {
        kept.memory.store(kind, at, number.number())
    }

    // The next reply answers a call, whatever its node.
    fn call(
        &self,
        _node: u32,
        callee: &Expr,
        kept: &mut OutsideLeft<'a>,
    ) -> Result<Option<Word>, NoMemory> {
        match kept.take()? {
            None => Ok(None),
            Some(number) => {
                let types = self.mapped.tables.setting().types();
                Ok(Some(answered_number(types, callee, number)))
            }
        }
    }

    fn write(&self, kept: &mut OutsideLeft<'a>) -> Result<bool, NoMemory> {
        let reply = kept.take()?;
        Ok(reply.is_some())
    }

    fn unset(&self, _node: u32, kind: IntKind, kept: &mut OutsideLeft<'a>) -> Option<Word> {
        match kept.take_number() {
            None => None,
            Some(number) => Some(Word::wrapped(kind, number)),
        }
    }

    fn begin_kept(&self, _position: u32, _kept: &mut OutsideLeft<'a>) {
        // An object that isn't set has the bytes that stand there.
    }

    fn reset(&self, _node: u32, _form: &StmtForm, _registers: &mut Vec<Word>) {
        // An execution comes to a loop with the registers that it has.
    }

    fn forget(&self, _node: u32, _form: &StmtForm, _kept: &mut OutsideLeft<'a>) {
        // Memory forgets nothing.
    }

    fn turns(&self) -> u32 {
        self.turns
    }
}
