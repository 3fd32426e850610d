//! Where a loop of a walk begins: its registers have the numbers of their keys, and what it may change isn't kept (C11
//! 6.8.5).

ghost use Rattle.std.specs.Prelude.{◌≡◌, ℤ, ℕ, List, Bool, OnOk, None, length, not, set, if◌then◌else◌, ◌+◌, ◌*◌, ◌≤◌};
ghost use Rattle.stk_ctype.specs.declared.kind.IntKind as kinds;
ghost use Rattle.stk_ctype.specs.declared.kind.IntKind.TheVariants.{Int};
ghost use Rattle.stk_tree.specs.View.{view_statement_form};
ghost use Rattle.stk_meaning.specs.Operations.{bit};
ghost use Rattle.stk_meaning.specs.Changes.{assigned_in, forgotten_in};
ghost use Rattle.stk_meaning.specs.Paths.{KeptNumbers, reset_all, forgotten};
ghost use Rattle.stk_values.specs.Keeping.{Keeps};
ghost use Rattle.stk_guarded.specs.Standing.{Standing, moved_to};
ghost use Rattle.stk_walking.specs.Events.{events_in};
ghost use Rattle.stk_walking.specs.Keyed.{AreThere};
ghost use Rattle.stk_walking.specs.Stands.{CellsShow, CellsMade, Stands, IsMade};
ghost use Rattle.stk_spending.specs.Statements.{loop_spent};
ghost use Rattle.stk_walking.specs.Costs.{Costs};

use crate::asked::WalkSetting;
use crate::cells::keep_only;
use crate::loop_registers::begin_registers;
use crate::state::{KeptCell, WalkState};
use stk_base::NoMemory;
use stk_tree::StmtForm;
use stk_values::Values;

// Forgets a kept object, if a loop may change it, unless a test is true.
fn begin_cell<O: WalkSetting, V: Values>(
    out: &O,
    node: u32,
    form: &StmtForm,
    values: &mut V,
    stays: V::Value,
    cells: &mut Vec<KeptCell<V::Value>>,
    place: usize,
) -> Result<(), NoMemory>
    requires known { O.knows out.now node (view_statement_form form.now) }
    requires stays { V.made values.old Int stays }
    requires row { (row : ℕ → kinds.IntKind) × CellsMade (V.made values.old) row 0 cells.old.items }
    ensures length { OnOk result (length cells.new.items ≡ length cells.old.items) }
    ensures made { OnOk result ((row : ℕ → kinds.IntKind) → CellsMade (V.made values.old) row 0 cells.old.items → CellsMade (V.made values.new) row 0 cells.new.items) }
    ensures shown { OnOk result ((m : List ℤ) (row : ℕ → kinds.IntKind) (b : Bool) (kept : KeptNumbers) → V.serves values.old m → V.shows values.old m Int stays (bit (not b)) → CellsShow (V.shows values.old m) row 0 cells.old.items kept → CellsShow (V.shows values.new m) row 0 cells.new.items (if forgotten_in (O.setting out.now) (view_statement_form form.now) place then (if b then set kept place None else kept) else kept)) }
    ensures keeps { Keeps V.serves V.has_key V.made V.shows values.old values.new }
    ensures charge { OnOk result (V.cost values.new ≤ V.cost values.old + 3) }
{
    if out.forgets(node, form, place) {
        keep_only(values, stays, cells, place)?;
    }
    Ok(())
}

/// Forgets the kept objects that a loop may change, where the guard is true.
pub(crate) fn begin_cells<O: WalkSetting, V: Values>(
    out: &O,
    node: u32,
    form: &StmtForm,
    values: &mut V,
    guard: V::Value,
    cells: &mut Vec<KeptCell<V::Value>>,
) -> Result<(), NoMemory>
    requires known { O.knows out.now node (view_statement_form form.now) }
    requires guard { V.made values.old Int guard }
    requires row { (row : ℕ → kinds.IntKind) × CellsMade (V.made values.old) row 0 cells.old.items }
    ensures made { OnOk result ((row : ℕ → kinds.IntKind) → CellsMade (V.made values.old) row 0 cells.old.items → CellsMade (V.made values.new) row 0 cells.new.items) }
    ensures shown { OnOk result ((m : List ℤ) (row : ℕ → kinds.IntKind) (b : Bool) (kept : KeptNumbers) → V.serves values.old m → V.shows values.old m Int guard (bit b) → CellsShow (V.shows values.old m) row 0 cells.old.items kept → CellsShow (V.shows values.new m) row 0 cells.new.items (if b then forgotten (forgotten_in (O.setting out.now) (view_statement_form form.now)) kept else kept)) }
    ensures keeps { OnOk result (Keeps V.serves V.has_key V.made V.shows values.old values.new) }
    ensures cost { OnOk result ((kept : ℕ) → Costs V.cost kept (3 * kept) values.old values.new (length cells.old.items) (length cells.new.items)) }
{
    let stays = values.opposite(guard)?;
    for place in 0..cells.len() {
        begin_cell(out, node, form, values, stays, cells, place)?;
    }
    Ok(())
}

/// Begins the loop of a form at a node, where the guard is true: its registers have the numbers of their keys, and what
/// it may change isn't kept.
pub fn begin_loop<O: WalkSetting, V: Values>(
    out: &O,
    node: u32,
    form: &StmtForm,
    values: &mut V,
    state: &mut WalkState<V::Value>,
) -> Result<(), NoMemory>
    requires known { O.knows out.now node (view_statement_form form.now) }
    requires keys { AreThere (V.has_key values.old) (O.kinds out.now) }
    requires made { IsMade (V.made values.old) (O.setting out.now) state.old }
    ensures made { OnOk result (IsMade (V.made values.new) (O.setting out.now) state.new) }
    ensures events { OnOk result (events_in state.new.steps.items ≡ events_in state.old.steps.items) }
    ensures stands { OnOk result ((m : List ℤ) (s : Standing) → V.serves values.old m → Stands (V.shows values.old m) (O.setting out.now) state.old s → Stands (V.shows values.new m) (O.setting out.now) state.new (moved_to (reset_all (O.under out.now m) node (assigned_in (O.setting out.now) (view_statement_form form.now)) s.numbers) (forgotten (forgotten_in (O.setting out.now) (view_statement_form form.now)) s.kept) s)) }
    ensures keeps { OnOk result (Keeps V.serves V.has_key V.made V.shows values.old values.new) }
    ensures cost { OnOk result (Costs V.cost (length (O.setting out.now).kept) (loop_spent (O.setting out.now) (view_statement_form form.now)) values.old values.new (length state.old.cells.items) (length state.new.cells.items)) }
{
    let guard = state.guard;
    begin_registers(out, node, form, values, guard, &mut state.registers)?;
    begin_cells(out, node, form, values, guard, &mut state.cells)?;
    Ok(())
}
