//! Kept objects of a walk.

ghost use Rattle.std.specs.Prelude.{◌≡◌, ℤ, ℕ, List, Bool, Option, Some, None, IfOk, OnOk, get_or, set, length, not, if◌then◌else◌, ◌+◌, ◌*◌, ◌≤◌};
ghost use Rattle.stk_ctype.specs.declared.kind.IntKind as kinds;
ghost use Rattle.stk_ctype.specs.declared.kind.IntKind.TheVariants.{Int};
ghost use Rattle.stk_meaning.specs.Operations.{bit};
ghost use Rattle.stk_meaning.specs.Paths.{KeptNumbers, all_forgotten};
ghost use Rattle.stk_values.specs.Keeping.{Keeps};
ghost use Rattle.stk_guarded.specs.Cells.{read_of};
ghost use Rattle.stk_walking.specs.Stands.{CellsShow, CellsMade};
ghost use Rattle.stk_numbers.specs.Kinds.{width_of};
ghost use Rattle.stk_walking.specs.Costs.{Costs};

use crate::state::KeptCell;
use crate::tests::either;
use stk_base::NoMemory;
use stk_numbers::IntKind;
use stk_values::Values;

/// The number of a kept object of a kind: the kept one, or else that of a load, which is kept then, where the guard is
/// true. Of an object that there isn't, that of the load.
pub(crate) fn read_cell<V: Values>(
    values: &mut V,
    guard: V::Value,
    cells: &mut Vec<KeptCell<V::Value>>,
    at: u32,
    kind: IntKind,
    loaded: V::Value,
) -> Result<V::Value, NoMemory>
    requires guard { V.made values.old Int guard }
    requires loaded { V.made values.old kind loaded }
    requires row { (row : ℕ → kinds.IntKind) × (row at ≡ kind) × CellsMade (V.made values.old) row 0 cells.old.items }
    ensures makes { IfOk result (λ v. V.made values.new kind v) }
    ensures made { OnOk result ((row : ℕ → kinds.IntKind) → row at ≡ kind → CellsMade (V.made values.old) row 0 cells.old.items → CellsMade (V.made values.new) row 0 cells.new.items) }
    ensures value { IfOk result (λ v. (m : List ℤ) (row : ℕ → kinds.IntKind) (y : ℤ) (kept : KeptNumbers) → V.serves values.old m → row at ≡ kind → V.shows values.old m kind loaded y → CellsShow (V.shows values.old m) row 0 cells.old.items kept → V.shows values.new m kind v (read_of y (get_or kept at None))) }
    ensures shown { OnOk result ((m : List ℤ) (row : ℕ → kinds.IntKind) (b : Bool) (y : ℤ) (kept : KeptNumbers) → V.serves values.old m → row at ≡ kind → V.shows values.old m Int guard (bit b) → V.shows values.old m kind loaded y → CellsShow (V.shows values.old m) row 0 cells.old.items kept → CellsShow (V.shows values.new m) row 0 cells.new.items (if b then set kept at (Some (read_of y (get_or kept at None))) else kept)) }
    ensures keeps { Keeps V.serves V.has_key V.made V.shows values.old values.new }
    ensures cost { OnOk result ((kept : ℕ) → Costs V.cost kept (3 * width_of kind + 3) values.old values.new (length cells.old.items) (length cells.new.items)) }
{
    let place = at as usize;
    if place >= cells.len() {
        return Ok(loaded);
    }
    let cell = cells[place];
    let number = values.choose(cell.known, kind, cell.number, loaded)?;
    let known = either(values, cell.known, guard)?;
    cells[place] = KeptCell { known, number };
    Ok(number)
}

/// Stores a number in a kept object of a kind where the guard is true; nothing, where there is no such object.
pub fn store_cell<V: Values>(
    values: &mut V,
    guard: V::Value,
    cells: &mut Vec<KeptCell<V::Value>>,
    at: u32,
    kind: IntKind,
    value: V::Value,
) -> Result<(), NoMemory>
    requires guard { V.made values.old Int guard }
    requires value { V.made values.old kind value }
    requires row { (row : ℕ → kinds.IntKind) × (row at ≡ kind) × CellsMade (V.made values.old) row 0 cells.old.items }
    ensures made { OnOk result ((row : ℕ → kinds.IntKind) → row at ≡ kind → CellsMade (V.made values.old) row 0 cells.old.items → CellsMade (V.made values.new) row 0 cells.new.items) }
    ensures shown { OnOk result ((m : List ℤ) (row : ℕ → kinds.IntKind) (b : Bool) (x : ℤ) (kept : KeptNumbers) → V.serves values.old m → row at ≡ kind → V.shows values.old m Int guard (bit b) → V.shows values.old m kind value x → CellsShow (V.shows values.old m) row 0 cells.old.items kept → CellsShow (V.shows values.new m) row 0 cells.new.items (if b then set kept at (Some x) else kept)) }
    ensures keeps { Keeps V.serves V.has_key V.made V.shows values.old values.new }
    ensures cost { OnOk result ((kept : ℕ) → Costs V.cost kept (3 * width_of kind + 3) values.old values.new (length cells.old.items) (length cells.new.items)) }
{
    let place = at as usize;
    if place >= cells.len() {
        return Ok(());
    }
    let cell = cells[place];
    let number = values.choose(guard, kind, value, cell.number)?;
    let known = either(values, cell.known, guard)?;
    cells[place] = KeptCell { known, number };
    Ok(())
}

/// Forgets the number of a kept object, unless a test is true; nothing, where there is no such object.
pub(crate) fn keep_only<V: Values>(
    values: &mut V,
    stays: V::Value,
    cells: &mut Vec<KeptCell<V::Value>>,
    place: usize,
) -> Result<(), NoMemory>
    requires stays { V.made values.old Int stays }
    requires row { (row : ℕ → kinds.IntKind) × CellsMade (V.made values.old) row 0 cells.old.items }
    ensures length { OnOk result (length cells.new.items ≡ length cells.old.items) }
    ensures made { OnOk result ((row : ℕ → kinds.IntKind) → CellsMade (V.made values.old) row 0 cells.old.items → CellsMade (V.made values.new) row 0 cells.new.items) }
    ensures shown { OnOk result ((m : List ℤ) (row : ℕ → kinds.IntKind) (b : Bool) (kept : KeptNumbers) → V.serves values.old m → V.shows values.old m Int stays (bit (not b)) → CellsShow (V.shows values.old m) row 0 cells.old.items kept → CellsShow (V.shows values.new m) row 0 cells.new.items (if b then set kept place None else kept)) }
    ensures keeps { Keeps V.serves V.has_key V.made V.shows values.old values.new }
    ensures charge { OnOk result (V.cost values.new ≤ V.cost values.old + 3) }
{
    if place >= cells.len() {
        return Ok(());
    }
    let cell = cells[place];
    let known = values.both(cell.known, stays)?;
    cells[place] = KeptCell {
        known,
        number: cell.number,
    };
    Ok(())
}

/// Forgets the number of a kept object where the guard is true; nothing, where there is no such object.
pub fn remove_cell<V: Values>(
    values: &mut V,
    guard: V::Value,
    cells: &mut Vec<KeptCell<V::Value>>,
    at: u32,
) -> Result<(), NoMemory>
    requires guard { V.made values.old Int guard }
    requires row { (row : ℕ → kinds.IntKind) × CellsMade (V.made values.old) row 0 cells.old.items }
    ensures made { OnOk result ((row : ℕ → kinds.IntKind) → CellsMade (V.made values.old) row 0 cells.old.items → CellsMade (V.made values.new) row 0 cells.new.items) }
    ensures shown { OnOk result ((m : List ℤ) (row : ℕ → kinds.IntKind) (b : Bool) (kept : KeptNumbers) → V.serves values.old m → V.shows values.old m Int guard (bit b) → CellsShow (V.shows values.old m) row 0 cells.old.items kept → CellsShow (V.shows values.new m) row 0 cells.new.items (if b then set kept at None else kept)) }
    ensures keeps { Keeps V.serves V.has_key V.made V.shows values.old values.new }
    ensures cost { OnOk result ((kept : ℕ) → Costs V.cost kept 3 values.old values.new (length cells.old.items) (length cells.new.items)) }
{
    let stays = values.opposite(guard)?;
    keep_only(values, stays, cells, at as usize)?;
    Ok(())
}

/// Forgets all that is kept where the guard is true: the outside may have written.
pub fn remove_cells<V: Values>(
    values: &mut V,
    guard: V::Value,
    cells: &mut Vec<KeptCell<V::Value>>,
) -> Result<(), NoMemory>
    requires guard { V.made values.old Int guard }
    requires row { (row : ℕ → kinds.IntKind) × CellsMade (V.made values.old) row 0 cells.old.items }
    ensures made { OnOk result ((row : ℕ → kinds.IntKind) → CellsMade (V.made values.old) row 0 cells.old.items → CellsMade (V.made values.new) row 0 cells.new.items) }
    ensures shown { OnOk result ((m : List ℤ) (row : ℕ → kinds.IntKind) (b : Bool) (kept : KeptNumbers) → V.serves values.old m → V.shows values.old m Int guard (bit b) → CellsShow (V.shows values.old m) row 0 cells.old.items kept → CellsShow (V.shows values.new m) row 0 cells.new.items (if b then all_forgotten kept else kept)) }
    ensures keeps { OnOk result (Keeps V.serves V.has_key V.made V.shows values.old values.new) }
    ensures cost { OnOk result ((kept : ℕ) → Costs V.cost kept (3 * kept) values.old values.new (length cells.old.items) (length cells.new.items)) }
{
    let stays = values.opposite(guard)?;
    for place in 0..cells.len() {
        keep_only(values, stays, cells, place)?;
    }
    Ok(())
}
