//! Where the walk of a function starts: at its body, with the numbers of its register parameters and nothing kept (C11
//! 6.9.1p10).

ghost use Rattle.std.specs.Prelude.{◌≡◌, ℕ, ℤ, List, [], pos, true, false, None, replicate, length, set, IfOk, OnOk, ◌≤◌};
ghost use Rattle.stk_ctype.specs.declared.kind.IntKind.TheVariants.{Int};
ghost use Rattle.stk_meaning.specs.Keys.{parameter_key};
ghost use Rattle.stk_meaning.specs.Paths.{with_parameters};
ghost use Rattle.stk_kinded.specs.Kinds.{register_kind, cell_kind};
ghost use Rattle.stk_values.specs.Keeping.{Keeps};
ghost use Rattle.stk_walking.specs.Keyed.{AreThere};
ghost use Rattle.stk_walking.specs.Stands.{RowShows, RowMade, CellShows, CellsShow, CellsMade, Stands, IsMade};
ghost use Rattle.stk_walk.specs.Starting.{started};

use std::alloc::Global;
use stk_base::NoMemory;
use stk_numbers::IntKind;
use stk_values::Values;
use stk_walking::{InputKey, KeptCell, WalkSetting, WalkState, input_value, zero};

/// What the start of a walk is made from: how many registers there are, which of them are parameters, and the
/// declarators of the kept objects, in order.
#[derive(Clone, Copy, Debug)]
pub(crate) struct Sizes<'a> {
    pub(crate) registers: u32,
    pub(crate) parameters: &'a [u32],
    pub(crate) kept: &'a [u32],
}

// So many registers with 0 in them, each in its kind.
fn zeros<O: WalkSetting, V: Values>(
    alloc: Global,
    out: &O,
    count: u32,
    values: &mut V,
) -> Result<Vec<V::Value>, NoMemory>
    ensures makes { IfOk result (λ row. RowMade (V.made values.new) (register_kind (O.setting out.now)) 0 row.items) }
    ensures value { IfOk result (λ row. (m : List ℤ) → V.serves values.old m → RowShows (V.shows values.new m) (register_kind (O.setting out.now)) 0 row.items (replicate count (pos 0))) }
    ensures keeps { OnOk result (Keeps V.serves V.has_key V.made V.shows values.old values.new) }
    ensures charge { OnOk result (V.cost values.new ≤ V.cost values.old) }
{
    let mut row = Vec::new(alloc);
    for node in 0..count {
        let kind = out.kind_at(node);
        let none = zero(values, kind)?;
        row.push(none)?;
    }
    Ok(row)
}

// Sets the register of a parameter to the number of its key, where there is such a register.
fn set_parameter<O: WalkSetting, V: Values>(
    out: &O,
    node: u32,
    values: &mut V,
    row: &mut Vec<V::Value>,
) -> Result<(), NoMemory>
    requires keys { AreThere (V.has_key values.old) (O.kinds out.now) }
    requires made { RowMade (V.made values.old) (register_kind (O.setting out.now)) 0 row.old.items }
    ensures made { OnOk result (RowMade (V.made values.new) (register_kind (O.setting out.now)) 0 row.new.items) }
    ensures value { OnOk result ((m : List ℤ) (xs : List ℤ) → V.serves values.old m → RowShows (V.shows values.old m) (register_kind (O.setting out.now)) 0 row.old.items xs → RowShows (V.shows values.new m) (register_kind (O.setting out.now)) 0 row.new.items (set xs node (O.under out.now m (parameter_key node)))) }
    ensures keeps { OnOk result (Keeps V.serves V.has_key V.made V.shows values.old values.new) }
    ensures charge { OnOk result (V.cost values.new ≤ V.cost values.old) }
{
    let kind = out.kind_at(node);
    let number = input_value(out, InputKey::Parameter(node), kind, values)?;
    let at = node as usize;
    if at < row.len() {
        row[at] = number;
    }
    Ok(())
}

// Sets the registers of parameters to the numbers of their keys.
fn set_parameters<O: WalkSetting, V: Values>(
    out: &O,
    parameters: &[u32],
    values: &mut V,
    row: &mut Vec<V::Value>,
) -> Result<(), NoMemory>
    requires keys { AreThere (V.has_key values.old) (O.kinds out.now) }
    requires made { RowMade (V.made values.old) (register_kind (O.setting out.now)) 0 row.old.items }
    ensures made { OnOk result (RowMade (V.made values.new) (register_kind (O.setting out.now)) 0 row.new.items) }
    ensures value { OnOk result ((m : List ℤ) (xs : List ℤ) → V.serves values.old m → RowShows (V.shows values.old m) (register_kind (O.setting out.now)) 0 row.old.items xs → RowShows (V.shows values.new m) (register_kind (O.setting out.now)) 0 row.new.items (with_parameters parameters.now (λ k. O.under out.now m (parameter_key k)) xs)) }
    ensures keeps { OnOk result (Keeps V.serves V.has_key V.made V.shows values.old values.new) }
    ensures charge { OnOk result (V.cost values.new ≤ V.cost values.old) }
{
    let mut rest = parameters;
    while let Some((node, behind)) = rest.split_first() {
        set_parameter(out, *node, values, row)?;
        rest = behind;
    }
    Ok(())
}

// A kept object of which no number is kept.
fn empty_cell<V: Values>(values: &mut V, kind: IntKind) -> Result<KeptCell<V::Value>, NoMemory>
    ensures makes { IfOk result (λ c. V.made values.new Int c.known × V.made values.new kind c.number) }
    ensures value { IfOk result (λ c. (m : List ℤ) → V.serves values.old m → CellShows (V.shows values.new m) kind c None) }
    ensures keeps { OnOk result (Keeps V.serves V.has_key V.made V.shows values.old values.new) }
    ensures charge { OnOk result (V.cost values.new ≤ V.cost values.old) }
{
    let known = zero(values, IntKind::Int)?;
    let number = zero(values, kind)?;
    Ok(KeptCell { known, number })
}

// The kept objects of a function, of which no number is kept.
fn empty_cells<O: WalkSetting, V: Values>(
    alloc: Global,
    out: &O,
    kept: &[u32],
    values: &mut V,
) -> Result<Vec<KeptCell<V::Value>>, NoMemory>
    requires kept { kept.now ≡ (O.setting out.now).kept }
    ensures makes { IfOk result (λ row. CellsMade (V.made values.new) (cell_kind (O.setting out.now)) 0 row.items) }
    ensures value { IfOk result (λ row. (m : List ℤ) → V.serves values.old m → CellsShow (V.shows values.new m) (cell_kind (O.setting out.now)) 0 row.items (replicate (length kept.now) None)) }
    ensures keeps { OnOk result (Keeps V.serves V.has_key V.made V.shows values.old values.new) }
    ensures count { IfOk result (λ row. length row.items ≡ length kept.now) }
    ensures charge { OnOk result (V.cost values.new ≤ V.cost values.old) }
{
    let mut row = Vec::new(alloc);
    for place in 0..kept.len() {
        let kind = out.kind_at(kept[place]);
        let cell = empty_cell(values, kind)?;
        row.push(cell)?;
    }
    Ok(row)
}

/// Where the walk of a function starts that has these kept objects and register parameters, and so many registers.
pub(crate) fn start<O: WalkSetting, V: Values>(
    alloc: Global,
    out: &O,
    sizes: &Sizes,
    values: &mut V,
) -> Result<WalkState<V::Value>, NoMemory>
    requires kept { sizes.now.kept.now ≡ (O.setting out.now).kept }
    requires keys { AreThere (V.has_key values.old) (O.kinds out.now) }
    ensures made { IfOk result (λ state. IsMade (V.made values.new) (O.setting out.now) state) }
    ensures steps { IfOk result (λ state. state.steps.items ≡ []) }
    ensures stands { IfOk result (λ state. (m : List ℤ) → V.serves values.old m → Stands (V.shows values.new m) (O.setting out.now) state (started sizes.now.registers sizes.now.parameters.now (length sizes.now.kept.now) (λ k. O.under out.now m (parameter_key k)))) }
    ensures keeps { OnOk result (Keeps V.serves V.has_key V.made V.shows values.old values.new) }
    ensures cells { IfOk result (λ state. length state.cells.items ≡ length (O.setting out.now).kept) }
    ensures charge { OnOk result (V.cost values.new ≤ V.cost values.old) }
{
    let mut registers = zeros(alloc, out, sizes.registers, values)?;
    set_parameters(out, sizes.parameters, values, &mut registers)?;
    let cells = empty_cells(alloc, out, sizes.kept, values)?;
    let guard = values.constant(IntKind::Int, 1)?;
    let broken = zero(values, IntKind::Int)?;
    let continued = zero(values, IntKind::Int)?;
    Ok(WalkState {
        guard,
        broken,
        continued,
        registers,
        cells,
        steps: Vec::new(alloc),
        alloc,
    })
}
