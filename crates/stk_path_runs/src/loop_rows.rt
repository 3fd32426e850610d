//! What the loops of a function change.

ghost use Rattle.std.specs.Prelude.{◌≡◌, ◌++◌, ◌∷◌, ◌||◌, ◌&&◌, ◌==◌, nat_lt, [], ℕ, List, length, map, false, OnOk, IfOk};
ghost use Rattle.std.specs.Option.{option_copied, is_some};
ghost use Rattle.stk_tree.specs.View.{view_statement_form};
ghost use Rattle.stk_function_types.specs.Nodes.{typing_in};
ghost use Rattle.stk_meaning.specs.Changes.{kept_spot};
ghost use Rattle.stk_meaning.specs.Keys as runs;
ghost use Rattle.stk_function_types.specs.Visits.{marked_visit};
ghost use Rattle.stk_function_types.specs.Gathered.{given, gathered};
ghost use Rattle.stk_function_env.specs.Settings.{setting_in};
ghost use Rattle.stk_function_env.specs.Changed.{changed_by_any};
ghost use Rattle.stk_path_runs.specs.Places.{IsKeyIndex, slot_in};
ghost use Rattle.stk_path_runs.specs.Rows.{loop_slots, forgets_in, is_loop, form_loops, visit_loops, IsRowOf, AreRowsOf, AddsRows, AreRowPlaces, row_at};

use crate::{KeyIndex, Slots};
use std::alloc::Global;
use stk_base::NoMemory;
use stk_function_env::{Change, Setting, assigned, changed_in_turn, is_any_of_kept};
use stk_function_types::{Visit, VisitForm};
use stk_tree::StmtForm;

/// A register that a loop sets first, by its declarator, and the place of its number among those of the keys, where it
/// has one.
#[derive(Clone, Copy, Debug)]
pub struct LoopSlot {
    pub register: u32,
    pub place: Option<usize>,
}

/// What the loop at a node changes: the registers that it sets first; whether it may change each kept object; and if
/// not, those that it changes by name, which have a place under their positions.
#[derive(Drop)]
pub struct LoopRow {
    pub node: u32,
    pub registers: Vec<LoopSlot>,
    pub each_kept: bool,
    pub kept: Slots,
}

impl LoopRow {
    /// Whether the loop may change a kept object, by its position.
    pub fn forgets(&self, position: usize) -> bool
        ensures { result ≡ forgets_in self.now position }
    {
        self.each_kept || self.kept.get(position).is_some()
    }
}

/// The rows of the loops of a function, and for each node the place of its row.
#[derive(Drop)]
pub struct LoopRows {
    pub rows: Vec<LoopRow>,
    pub places: Slots,
}

// The registers of a loop, each with the place of its key.
fn loop_slots(
    alloc: Global,
    index: &KeyIndex,
    node: u32,
    list: &[u32],
) -> Result<Vec<LoopSlot>, NoMemory>
    ensures { (keys : List runs.KeyInfo) → IsKeyIndex index.now keys → IfOk result (λ out. out.items ≡ loop_slots keys node list.now) }
{
    let mut out = Vec::new(alloc);
    for j in list {
        let place = index.in_loop(node, *j);
        out.push(LoopSlot {
            register: *j,
            place,
        })?;
    }
    Ok(out)
}

// Notes a position, where one of some changes may be of the kept object at it.
fn note_position(changes: &[Change], position: u32, kept: &mut Slots) -> Result<(), NoMemory>
    ensures { OnOk result ((q : ℕ) → is_some (slot_in kept.new q) ≡ ((position == q && changed_by_any changes.now (kept_spot position)) || is_some (slot_in kept.old q))) }
{
    if !is_any_of_kept(changes, position) {
        return Ok(());
    }
    kept.put(position, 0)
}

// The positions of the kept objects of which some changes may be, each with a place; none where all are known to be
// changed.
fn kept_slots(
    alloc: Global,
    setting: &Setting,
    changes: &[Change],
    each: bool,
) -> Result<Slots, NoMemory>
    ensures { each ≡ false → IfOk result (λ kept. (q : ℕ) → is_some (slot_in kept q) ≡ (nat_lt q (length (setting_in setting.now).kept) && changed_by_any changes.now (kept_spot q))) }
{
    let mut kept = Slots::new(alloc);
    if each {
        return Ok(kept);
    }
    let count = setting.kept().len() as u32;
    for position in 0..count {
        note_position(changes, position, &mut kept)?;
    }
    Ok(kept)
}

// The row of a loop.
fn loop_row(
    alloc: Global,
    setting: &Setting,
    index: &KeyIndex,
    node: u32,
    f: &StmtForm,
) -> Result<LoopRow, NoMemory>
    ensures { (keys : List runs.KeyInfo) → IsKeyIndex index.now keys → IfOk result (λ row. IsRowOf (setting_in setting.now) keys node (view_statement_form f.now) row) }
{
    // For the prover: the setting keeps its facts.
    let _ = setting.kept();
    let list = assigned(alloc, setting, f)?;
    let registers = loop_slots(alloc, index, node, list.as_slice())?;
    let changes = changed_in_turn(alloc, setting, f)?;
    let each_kept = is_any_of_kept(changes.as_slice(), 32);
    let kept = kept_slots(alloc, setting, changes.as_slice(), each_kept)?;
    Ok(LoopRow {
        node,
        registers,
        each_kept,
        kept,
    })
}

// Whether a form is a loop (C11 6.8.5).
fn is_loop(f: &StmtForm) -> bool
    ensures { result ≡ is_loop (view_statement_form f.now) }
{
    match f {
        StmtForm::While(_, _) | StmtForm::Do(_, _) | StmtForm::For(_, _, _, _) => true,
        StmtForm::Block(_)
        | StmtForm::Plain(_)
        | StmtForm::Return(_)
        | StmtForm::If(_, _, _)
        | StmtForm::Switch(_, _)
        | StmtForm::Break
        | StmtForm::Continue => false,
    }
}

impl LoopRows {
    /// No rows. It takes no memory.
    fn new(alloc: Global) -> LoopRows
        ensures places { AreRowPlaces result }
        ensures rows { result.rows.items ≡ [] }
    {
        LoopRows {
            rows: Vec::new(alloc),
            places: Slots::new(alloc),
        }
    }

    // Puts a row behind the others.
    fn push(&mut self, row: LoopRow) -> Result<(), NoMemory>
        ensures places { AreRowPlaces self.old → OnOk result (AreRowPlaces self.new) }
        ensures rows { OnOk result (self.new.rows.items ≡ self.old.rows.items ++ row ∷ []) }
    {
        let place = self.rows.len();
        self.places.put(row.node, place)?;
        self.rows.push(row)?;
        Ok(())
    }

    /// The first row of a node; none where there is none.
    pub fn at(&self, node: u32) -> Option<&LoopRow>
        ensures { AreRowPlaces self.now → option_copied result ≡ row_at node self.now.rows.items }
    {
        let place = self.places.at(node)?;
        match self.rows.get(place) {
            None => None,
            Some(row) => Some(row),
        }
    }
}

// Puts the row of a statement that is a loop behind the others.
fn statement_row(
    alloc: Global,
    setting: &Setting,
    index: &KeyIndex,
    node: u32,
    f: &StmtForm,
    out: &mut LoopRows,
) -> Result<(), NoMemory>
    ensures places { AreRowPlaces out.old → OnOk result (AreRowPlaces out.new) }
    ensures rows { (keys : List runs.KeyInfo) → IsKeyIndex index.now keys → OnOk result (AddsRows (setting_in setting.now) keys (form_loops node (view_statement_form f.now)) out.old.rows.items out.new.rows.items) }
{
    if !is_loop(f) {
        return Ok(());
    }
    let row = loop_row(alloc, setting, index, node, f)?;
    out.push(row)?;
    Ok(())
}

// Puts the row of a visit behind the others, where a loop stands there.
fn visit_row(
    alloc: Global,
    setting: &Setting,
    index: &KeyIndex,
    visit: &Visit,
    out: &mut LoopRows,
) -> Result<(), NoMemory>
    ensures places { AreRowPlaces out.old → OnOk result (AreRowPlaces out.new) }
    ensures rows { (keys : List runs.KeyInfo) → IsKeyIndex index.now keys → OnOk result (AddsRows (setting_in setting.now) keys (given visit_loops (marked_visit visit.now)) out.old.rows.items out.new.rows.items) }
{
    if !visit.is_evaluated {
        return Ok(());
    }
    match visit.form {
        VisitForm::Statement(_, f) => statement_row(alloc, setting, index, visit.node, f, out),
        VisitForm::Expression(_, _) | VisitForm::Declarator(_, _, _) | VisitForm::Section(_) => Ok(
            (),
        ),
    }
}

/// The rows of the loops among visits.
pub(crate) fn rows_among(
    alloc: Global,
    setting: &Setting,
    index: &KeyIndex,
    visits: &[Visit],
) -> Result<LoopRows, NoMemory>
    ensures places { IfOk result (λ t. AreRowPlaces t) }
    ensures rows { (keys : List runs.KeyInfo) → IsKeyIndex index.now keys → IfOk result (λ t. AddsRows (setting_in setting.now) keys (gathered visit_loops (map marked_visit visits.now)) [] t.rows.items) }
{
    let mut out = LoopRows::new(alloc);
    for visit in visits {
        visit_row(alloc, setting, index, visit, &mut out)?;
    }
    Ok(out)
}
