//! A function, as a walk over all branches asks of it.

ghost use Rattle.std.specs.Prelude.{◌≡◌, ◌<◌, ◌^◌, length, map};
ghost use Rattle.stk_meaning.specs.Keys.{KeyInfo};
ghost use Rattle.stk_meaning.specs.Paths.{number_under};
ghost use Rattle.stk_kinded.specs.Keys.{HaveKeyKinds};

use crate::tables::TableSetting;
use stk_base::{NoMemory, Span};
use stk_ctype::CType;
use stk_eval_expr::{Replacement, RunSetting};
use stk_numbers::{IntKind, Kinds};
use stk_operators::{Library, NodeTests, Operation, Operator, Stride, Target, Word};
use stk_tree::{Expr, StepOp, StmtForm};
use stk_walking::{InputKey, WalkSetting};

/// A function, as a walk over all branches asks of it: by a setting of its runs. Each of its keys has the kind that its
/// form says, and its place is a number of 32 bits. Its calls take no memory but for replacements, and constant time
/// where those of the setting do.
///
/// What it rests on is a parameter, since what it passes on is proved once for whatever that is.
#[derive(Drop)]
pub(crate) struct WalkedFunction<'a, T: TableSetting> {
    pub path: &'a T,
    ghost kinded: { HaveKeyKinds (T.setting path.now) (T.keys path.now) },
    ghost few: { length (T.keys path.now) < 2 ^ 32 },
}

impl<'a, T: TableSetting> WalkedFunction<'a, T> {
    /// The function of a setting of its path runs. The premises hold of each function whose tree is typed and that
    /// isn't too heavy to be searched.
    pub fn new(path: &'a T) -> WalkedFunction<'a, T>
        requires kinded { HaveKeyKinds (T.setting path.now) (T.keys path.now) }
        requires few { length (T.keys path.now) < 2 ^ 32 }
        ensures { result.path.now ≡ path.now }
    {
        WalkedFunction { path }
    }
}

impl<'a, T: TableSetting> RunSetting for WalkedFunction<'a, T> {
    ghost setting = { λ s. T.setting s.path.now };

    ghost knows = { λ s. T.knows s.path.now };

    fn without(&self) -> Kinds {
        self.path.without()
    }

    fn kind_at(&self, node: u32) -> IntKind {
        self.path.kind_at(node)
    }

    fn is_array_at(&self, node: u32) -> bool {
        self.path.is_array_at(node)
    }

    fn is_scalar_at(&self, node: u32) -> bool {
        self.path.is_scalar_at(node)
    }

    fn own_number(&self, node: u32) -> Option<Word> {
        self.path.own_number(node)
    }

    fn object_named(&self, node: u32, name: Span) -> u32 {
        self.path.object_named(node, name)
    }

    fn target_at(&self, node: u32) -> Target {
        self.path.target_at(node)
    }

    fn operation(&self, op: Operator, left: u32, right: u32) -> Operation {
        self.path.operation(op, left, right)
    }

    fn step_operation(&self, op: StepOp, node: u32) -> Operation {
        self.path.step_operation(op, node)
    }

    fn stride_at(&self, node: u32) -> Stride {
        self.path.stride_at(node)
    }

    fn index_node_tests(&self, accessed: bool, node: u32) -> NodeTests {
        self.path.index_node_tests(accessed, node)
    }

    fn offset(&self, node: u32, name: Span) -> u64 {
        self.path.offset(node, name)
    }

    fn pointed_offset(&self, node: u32, name: Span) -> u64 {
        self.path.pointed_offset(node, name)
    }

    fn library(&self, callee: &Expr) -> Option<Library> {
        self.path.library(callee)
    }

    fn never_returns(&self, callee: &Expr) -> bool {
        self.path.never_returns(callee)
    }

    fn gives_nothing(&self, callee: &Expr) -> bool {
        self.path.gives_nothing(callee)
    }

    fn parameters(&self, callee: &Expr) -> &[CType] {
        self.path.parameters(callee)
    }

    fn replacement(&self, left: &Expr, right: &Expr) -> Result<Option<Replacement>, NoMemory> {
        self.path.replacement(left, right)
    }

    fn is_number(&self, kind: IntKind, number: Word, node: u32) -> bool {
        self.path.is_number(kind, number, node)
    }
}

impl<'a, T: TableSetting> WalkSetting for WalkedFunction<'a, T> {
    ghost kinds = { λ s. map (λ (x : KeyInfo). x.kind) (T.keys s.path.now) };

    ghost under = { λ s m. number_under (T.keys s.path.now) m };

    fn place_of(&self, key: InputKey) -> Option<u32> {
        match self.path.place(key) {
            None => None,
            Some(place) => Some(place as u32),
        }
    }

    fn number_in(&self, kind: IntKind, node: u32) -> Option<Word> {
        match self.path.constant(node) {
            None => None,
            Some(number) => Some(Word::wrapped(kind, number)),
        }
    }

    fn count_slots(&self, node: u32, form: &StmtForm) -> usize {
        self.path.row(node, form).registers.len()
    }

    fn slot(&self, node: u32, form: &StmtForm, at: usize) -> u32 {
        self.path.row(node, form).registers[at].register
    }

    fn forgets(&self, node: u32, form: &StmtForm, position: usize) -> bool {
        self.path.row(node, form).forgets(position)
    }
}
