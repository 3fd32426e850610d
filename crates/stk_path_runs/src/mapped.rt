//! A function under an input map, as its path runs ask.

ghost use Rattle.std.specs.Prelude.{◌≡◌, Some, None, Option, get_or};
ghost use Rattle.stk_meaning.specs.Keys.{parameter_key, address_key, unset_key, load_key, call_key};
ghost use Rattle.stk_meaning.specs.Paths.{KeptNumbers, number_under, kept_or, path_world};
ghost use Rattle.stk_function_env.specs.Settings.{setting_in};
ghost use Rattle.stk_path_runs.specs.Places.{number_in};
ghost use Rattle.stk_path_runs.specs.Rows.{slots_set, Knows};

use crate::kept::{forget_all, forget_changed, kept_at, put_kept};
use crate::{FunctionTables, LoopSlot, types};
use std::alloc::Global;
use stk_base::{NoMemory, Span};
use stk_ctype::CType;
use stk_eval_expr::{Replacement, RunSetting, World, put_word};
use stk_function_env::called_library;
use stk_function_types::FunctionTypes;
use stk_numbers::{IntKind, Kinds};
use stk_operators::{
    Library, NodeTests, Operation, Operator, Stride, Target, Word, is_array, number_kind,
};
use stk_replacements::replacement;
use stk_tree::{Expr, StepOp, StmtForm};
use stk_type_rules::is_scalar;

/// A function under an input map, which is given as the numbers of the function's keys, in order: a key without a
/// number has 0.
#[derive(Drop)]
pub struct MappedFunction<'a> {
    pub tables: &'a FunctionTables<'a>,
    pub numbers: &'a [Word],
    pub alloc: Global,
}

/// The number in a place, where there is one; 0 else.
pub(crate) fn number_in(place: Option<usize>, numbers: &[Word]) -> Word
    ensures { result ≡ number_in place numbers.now }
{
    let Some(place) = place else {
        return Word::bit(false);
    };
    match numbers.get(place) {
        Some(number) => *number,
        None => Word::bit(false),
    }
}

// Sets registers to the numbers in their places.
fn set_slots(list: &[LoopSlot], numbers: &[Word], registers: &mut Vec<Word>)
    ensures { registers.new.items ≡ slots_set list.now numbers.now registers.old.items }
{
    for slot in list {
        let number = number_in(slot.place, numbers);
        put_word(registers, slot.register as usize, number);
    }
}

impl<'a> MappedFunction<'a> {
    // The types of the function.
    fn types(&self) -> &'a FunctionTypes<'a>
        ensures { result.now ≡ self.now.tables.now.places.types }
    {
        self.tables.setting().types()
    }

    // The number of the key of a parameter that is a register.
    pub(crate) fn parameter_number(&self, node: u32) -> Word
        ensures { result ≡ number_under self.now.tables.now.places.keys self.now.numbers.now (parameter_key node) }
    {
        number_in(self.tables.index().parameter(node), self.numbers)
    }

    // The number of the key of an object's address.
    fn address_number(&self, node: u32) -> Word
        ensures { result ≡ number_under self.now.tables.now.places.keys self.now.numbers.now (address_key node) }
    {
        number_in(self.tables.index().address(node), self.numbers)
    }

    // The number of the key of a load.
    fn load_number(&self, node: u32) -> Word
        ensures { result ≡ number_under self.now.tables.now.places.keys self.now.numbers.now (load_key node) }
    {
        number_in(self.tables.index().load(node), self.numbers)
    }

    // The number of a kept object that is read at a node: the kept one, and else that of the load's key, which is then
    // kept.
    fn load_kept(&self, position: usize, node: u32, kept: &mut Vec<Option<Word>>) -> Word
        ensures { (result, kept.new.items) ≡ kept_or position (number_under self.now.tables.now.places.keys self.now.numbers.now (load_key node)) (get_or kept.old.items position None) kept.old.items }
    {
        match kept_at(kept, position) {
            Some(number) => number,
            None => {
                let number = self.load_number(node);
                put_kept(kept, position, Some(number));
                number
            }
        }
    }

    // The number of the key of a call.
    fn call_number(&self, node: u32) -> Word
        ensures { result ≡ number_under self.now.tables.now.places.keys self.now.numbers.now (call_key node) }
    {
        number_in(self.tables.index().call(node), self.numbers)
    }

    // The number of the key of a register without initialiser.
    fn unset_number(&self, node: u32) -> Word
        ensures { result ≡ number_under self.now.tables.now.places.keys self.now.numbers.now (unset_key node) }
    {
        number_in(self.tables.index().unset(node), self.numbers)
    }
}

impl<'a> RunSetting for MappedFunction<'a> {
    ghost setting = { λ s. setting_in s.tables.now.places };

    ghost knows = { λ s. Knows (setting_in s.tables.now.places) s.tables.now.places.keys s.tables.now.rows };

    fn without(&self) -> Kinds {
        self.tables.setting().without()
    }

    fn kind_at(&self, node: u32) -> IntKind {
        number_kind(self.types().type_at(node))
    }

    fn is_array_at(&self, node: u32) -> bool {
        is_array(self.types().type_at(node))
    }

    fn is_scalar_at(&self, node: u32) -> bool {
        is_scalar(self.types().type_at(node))
    }

    fn own_number(&self, node: u32) -> Option<Word> {
        types::own_number(self.types(), node)
    }

    fn object_named(&self, node: u32, name: Span) -> u32 {
        self.tables.setting().object_named(node, name)
    }

    fn target_at(&self, node: u32) -> Target {
        self.tables.setting().target_at(node)
    }

    fn operation(&self, op: Operator, left: u32, right: u32) -> Operation {
        types::operation(self.types(), op, left, right)
    }

    fn step_operation(&self, op: StepOp, node: u32) -> Operation {
        types::step_operation(self.types(), op, node)
    }

    fn stride_at(&self, node: u32) -> Stride {
        types::stride_at(self.types(), node)
    }

    fn index_node_tests(&self, accessed: bool, node: u32) -> NodeTests {
        types::index_checks_at(self.types(), accessed, node)
    }

    fn offset(&self, node: u32, name: Span) -> u64 {
        types::offset(self.types(), node, name)
    }

    fn pointed_offset(&self, node: u32, name: Span) -> u64 {
        types::pointed_offset(self.types(), node, name)
    }

    fn library(&self, callee: &Expr) -> Option<Library> {
        called_library(self.types(), callee)
    }

    fn never_returns(&self, callee: &Expr) -> bool {
        types::never_returns(self.types(), callee)
    }

    fn gives_nothing(&self, callee: &Expr) -> bool {
        types::gives_nothing(self.types(), callee)
    }

    fn parameters(&self, callee: &Expr) -> &[CType] {
        types::parameters(self.types(), callee)
    }

    fn replacement(&self, left: &Expr, right: &Expr) -> Result<Option<Replacement>, NoMemory> {
        let found = replacement(self.alloc, self.types(), left, right)?;
        Ok(types::replaced(self.types(), found))
    }

    fn is_number(&self, kind: IntKind, number: Word, node: u32) -> bool {
        types::is_number(self.types(), kind, number, node)
    }
}

impl<'a> World for MappedFunction<'a> {
    type Kept = Vec<Option<Word>>;

    ghost Shown = { KeptNumbers };

    ghost shown = { λ kept. kept.items };

    // A path run knows a place by its name alone, and the numbers of its keys are those of their kinds.
    ghost world = { λ s. path_world (number_under s.tables.now.places.keys s.numbers.now) };

    fn address(&self, node: u32) -> u64 {
        self.address_number(node).to_address()
    }

    fn load(
        &self,
        target: Target,
        node: u32,
        _kind: IntKind,
        _at: u64,
        kept: &mut Vec<Option<Word>>,
    ) -> Word {
        match target {
            Target::Kept(position) => self.load_kept(position as usize, node, kept),
            Target::Register(_) | Target::Object(_) | Target::Unnamed => self.load_number(node),
        }
    }

    fn store(
        &self,
        target: Target,
        _kind: IntKind,
        _at: u64,
        number: Word,
        kept: &mut Vec<Option<Word>>,
    ) -> Result<(), NoMemory> {
        match target {
            Target::Kept(position) => put_kept(kept, position as usize, Some(number)),
            Target::Unnamed => forget_all(kept),
            Target::Register(_) | Target::Object(_) => {}
        }
        Ok(())
    }

    fn call(
        &self,
        node: u32,
        callee: &Expr,
        kept: &mut Vec<Option<Word>>,
    ) -> Result<Option<Word>, NoMemory> {
        forget_all(kept);
        if types::gives_nothing(self.types(), callee) {
            return Ok(Some(Word::bit(false)));
        }
        Ok(Some(self.call_number(node)))
    }

    fn write(&self, kept: &mut Vec<Option<Word>>) -> Result<bool, NoMemory> {
        forget_all(kept);
        Ok(true)
    }

    fn unset(&self, node: u32, _kind: IntKind, _kept: &mut Vec<Option<Word>>) -> Option<Word> {
        Some(self.unset_number(node))
    }

    fn begin_kept(&self, position: u32, kept: &mut Vec<Option<Word>>) {
        put_kept(kept, position as usize, None);
    }

    fn reset(&self, node: u32, form: &StmtForm, registers: &mut Vec<Word>) {
        // The row of the node stands for the form.
        let _ = form;
        if let Some(row) = self.tables.row(node) {
            set_slots(row.registers.as_slice(), self.numbers, registers);
        }
    }

    fn forget(&self, node: u32, form: &StmtForm, kept: &mut Vec<Option<Word>>) {
        // The row of the node stands for the form.
        let _ = form;
        if let Some(row) = self.tables.row(node) {
            forget_changed(row, kept);
        }
    }

    fn turns(&self) -> u32 {
        1
    }
}
