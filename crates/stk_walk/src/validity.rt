//! Whether the addresses of a function's memory objects are valid, as a test.

ghost use Rattle.std.specs.Prelude.{◌≡◌, ℕ, ◌+◌, ◌-◌, ◌^◌, ◌%◌, ℤ, pos, List, Bool, not, ◌&&◌, nat_le, IfOk, OnOk, ◌*◌, ◌≤◌, length, if◌then◌else◌};
ghost use Rattle.stk_ctype.specs.declared.kind.IntKind.TheVariants.{Int, ULong};
ghost use Rattle.stk_meaning.specs.Maps.{addresses_in};
ghost use Rattle.stk_meaning.specs.Operations.{bit};
ghost use Rattle.stk_values.specs.Keeping.{Keeps};
ghost use Rattle.stk_walking.specs.Keyed.{AreThere};
ghost use Rattle.stk_walk.specs.Validity.{is_pair, lies_in_memory, all_lie, share, stands_apart, all_apart, addresses_valid, pairs_with, pairs_in};
ghost use Rattle.stk_walk.specs.Located.{wrapped_end, IsLocated, AreLocated, IsLocatedMade, AreLocatedMade, objects_of};

use crate::objects::WalkObject;
use std::alloc::Global;
use stk_base::NoMemory;
use stk_numbers::{ArithOp, CompareOp, IntKind};
use stk_values::Values;
use stk_walking::{InputKey, Operand, WalkSetting, input_value, to_address, zero};

// An object with the value of its address, and that of its end, modulo 2^64.
#[derive(Clone, Copy, Debug)]
pub(crate) struct Located<T> {
    pub(crate) object: WalkObject,
    pub(crate) address: T,
    pub(crate) end: T,
}

// The end of what lies at an address and has a size, modulo 2^64.
fn end_value<V: Values>(values: &mut V, address: V::Value, size: u64) -> Result<V::Value, NoMemory>
    requires { V.made values.old ULong address }
    ensures makes { IfOk result (λ v. V.made values.new ULong v) }
    ensures value { IfOk result (λ v. (m : List ℤ) (n : ℕ) → V.serves values.old m → V.shows values.old m ULong address (pos n) → V.shows values.new m ULong v (pos ((n + size) % 2 ^ 64))) }
    ensures keeps { OnOk result (Keeps V.serves V.has_key V.made V.shows values.old values.new) }
    ensures charge { OnOk result (V.cost values.new ≤ V.cost values.old + 640) }
{
    let size = values.constant(IntKind::ULong, i128::from(size))?;
    let end = values.arith(ArithOp::Add, IntKind::ULong, address, size)?;
    Ok(end)
}

// An object by its values.
fn locate<O: WalkSetting, V: Values>(
    out: &O,
    object: WalkObject,
    values: &mut V,
) -> Result<Located<V::Value>, NoMemory>
    requires keys { AreThere (V.has_key values.old) (O.kinds out.now) }
    ensures object { IfOk result (λ x. x.object ≡ object) }
    ensures makes { IfOk result (λ x. IsLocatedMade (V.made values.new ULong) x) }
    ensures value { IfOk result (λ x. (m : List ℤ) → V.serves values.old m → IsLocated (V.shows values.new m ULong) (addresses_in (O.under out.now m)) x) }
    ensures keeps { OnOk result (Keeps V.serves V.has_key V.made V.shows values.old values.new) }
    ensures charge { OnOk result (V.cost values.new ≤ V.cost values.old + 640) }
{
    let key = input_value(out, InputKey::Address(object.node), IntKind::ULong, values)?;
    let operand = Operand {
        kind: IntKind::ULong,
        value: key,
    };
    let address = to_address(values, operand)?;
    let end = end_value(values, address, object.size)?;
    Ok(Located {
        object,
        address,
        end,
    })
}

// Whether an object of a size lies in memory at an address: its first byte isn't at 0, and it ends before the last
// address.
fn lies<V: Values>(values: &mut V, address: V::Value, size: u64) -> Result<V::Value, NoMemory>
    requires { V.made values.old ULong address }
    ensures makes { IfOk result (λ v. V.made values.new Int v) }
    ensures value { IfOk result (λ v. (m : List ℤ) (n : ℕ) → V.serves values.old m → V.shows values.old m ULong address (pos n) → V.shows values.new m Int v (bit (nat_le 1 n && nat_le (n + size) (2 ^ 64 - 1)))) }
    ensures keeps { OnOk result (Keeps V.serves V.has_key V.made V.shows values.old values.new) }
    ensures charge { OnOk result (V.cost values.new ≤ V.cost values.old + 1283) }
{
    let none = zero(values, IntKind::ULong)?;
    let begins = values.compare(CompareOp::Ne, IntKind::ULong, address, none)?;
    let last = values.constant(IntKind::ULong, i128::from(u64::MAX - size))?;
    let ends = values.compare(CompareOp::Le, IntKind::ULong, address, last)?;
    let both = values.both(begins, ends)?;
    Ok(both)
}

// Whether two objects share no byte, by their ends modulo 2^64.
fn apart<V: Values>(
    values: &mut V,
    x: &Located<V::Value>,
    y: &Located<V::Value>,
) -> Result<V::Value, NoMemory>
    requires first { IsLocatedMade (V.made values.old ULong) x.now }
    requires second { IsLocatedMade (V.made values.old ULong) y.now }
    ensures makes { IfOk result (λ v. V.made values.new Int v) }
    ensures value { IfOk result (λ v. (m : List ℤ) (a : ℕ → ℕ) → V.serves values.old m → IsLocated (V.shows values.old m ULong) a x.now → IsLocated (V.shows values.old m ULong) a y.now → V.shows values.new m Int v (bit (not (share a (wrapped_end a) x.now.object y.now.object)))) }
    ensures keeps { OnOk result (Keeps V.serves V.has_key V.made V.shows values.old values.new) }
    ensures charge { OnOk result (V.cost values.new ≤ V.cost values.old + 1283) }
{
    let first = values.compare(CompareOp::Lt, IntKind::ULong, x.address, y.end)?;
    let second = values.compare(CompareOp::Lt, IntKind::ULong, y.address, x.end)?;
    let shared = values.both(first, second)?;
    let found = values.opposite(shared)?;
    Ok(found)
}

// Whether a test is true and two objects share no byte, where they are a pair.
fn apart_where<V: Values>(
    values: &mut V,
    x: &Located<V::Value>,
    y: &Located<V::Value>,
    found: V::Value,
) -> Result<V::Value, NoMemory>
    requires first { IsLocatedMade (V.made values.old ULong) x.now }
    requires second { IsLocatedMade (V.made values.old ULong) y.now }
    requires found { V.made values.old Int found }
    ensures makes { IfOk result (λ v. V.made values.new Int v) }
    ensures value { IfOk result (λ v. (m : List ℤ) (a : ℕ → ℕ) (b : Bool) → V.serves values.old m → IsLocated (V.shows values.old m ULong) a x.now → IsLocated (V.shows values.old m ULong) a y.now → V.shows values.old m Int found (bit b) → V.shows values.new m Int v (bit (b && not (is_pair x.now.object y.now.object && share a (wrapped_end a) x.now.object y.now.object)))) }
    ensures keeps { OnOk result (Keeps V.serves V.has_key V.made V.shows values.old values.new) }
    ensures charge { OnOk result (V.cost values.new ≤ V.cost values.old + (if is_pair x.now.object y.now.object then 1286 else 0)) }
{
    if !x.object.is_pair(y.object) {
        return Ok(found);
    }
    let test = apart(values, x, y)?;
    let both = values.both(found, test)?;
    Ok(both)
}

// Whether a test is true and an object shares no byte with those others that it is a pair with.
fn apart_from<V: Values>(
    values: &mut V,
    x: &Located<V::Value>,
    others: &[Located<V::Value>],
    start: V::Value,
) -> Result<V::Value, NoMemory>
    requires first { IsLocatedMade (V.made values.old ULong) x.now }
    requires others { AreLocatedMade (V.made values.old ULong) others.now }
    requires start { V.made values.old Int start }
    ensures makes { IfOk result (λ v. V.made values.new Int v) }
    ensures value { IfOk result (λ v. (m : List ℤ) (a : ℕ → ℕ) (b : Bool) → V.serves values.old m → IsLocated (V.shows values.old m ULong) a x.now → AreLocated (V.shows values.old m ULong) a others.now → V.shows values.old m Int start (bit b) → V.shows values.new m Int v (bit (b && stands_apart a (wrapped_end a) x.now.object (objects_of others.now)))) }
    ensures keeps { OnOk result (Keeps V.serves V.has_key V.made V.shows values.old values.new) }
    ensures charge { OnOk result (V.cost values.new ≤ V.cost values.old + 1286 * pairs_with x.now.object (objects_of others.now)) }
{
    let mut found = start;
    let mut rest = others;
    while let Some((y, behind)) = rest.split_first() {
        found = apart_where(values, x, y, found)?;
        rest = behind;
    }
    Ok(found)
}

// Whether a test is true and no two objects of a pair share a byte. It takes a step for each two objects.
fn all_apart<V: Values>(
    values: &mut V,
    list: &[Located<V::Value>],
    start: V::Value,
) -> Result<V::Value, NoMemory>
    requires list { AreLocatedMade (V.made values.old ULong) list.now }
    requires start { V.made values.old Int start }
    ensures makes { IfOk result (λ v. V.made values.new Int v) }
    ensures value { IfOk result (λ v. (m : List ℤ) (a : ℕ → ℕ) (b : Bool) → V.serves values.old m → AreLocated (V.shows values.old m ULong) a list.now → V.shows values.old m Int start (bit b) → V.shows values.new m Int v (bit (b && all_apart a (wrapped_end a) (objects_of list.now)))) }
    ensures keeps { OnOk result (Keeps V.serves V.has_key V.made V.shows values.old values.new) }
    ensures charge { OnOk result (V.cost values.new ≤ V.cost values.old + 1286 * pairs_in (objects_of list.now)) }
{
    let mut found = start;
    let mut rest = list;
    while let Some((x, behind)) = rest.split_first() {
        found = apart_from(values, x, behind, found)?;
        rest = behind;
    }
    Ok(found)
}

// Objects by their values, and whether each lies in memory.
#[derive(Drop)]
struct Objects<T> {
    list: Vec<Located<T>>,
    lie: T,
}

// Whether a test is true and an object lies in memory.
fn lies_where<V: Values>(
    values: &mut V,
    x: &Located<V::Value>,
    found: V::Value,
) -> Result<V::Value, NoMemory>
    requires object { IsLocatedMade (V.made values.old ULong) x.now }
    requires found { V.made values.old Int found }
    ensures makes { IfOk result (λ v. V.made values.new Int v) }
    ensures value { IfOk result (λ v. (m : List ℤ) (a : ℕ → ℕ) (b : Bool) → V.serves values.old m → IsLocated (V.shows values.old m ULong) a x.now → V.shows values.old m Int found (bit b) → V.shows values.new m Int v (bit (b && lies_in_memory a x.now.object))) }
    ensures keeps { OnOk result (Keeps V.serves V.has_key V.made V.shows values.old values.new) }
    ensures charge { OnOk result (V.cost values.new ≤ V.cost values.old + 1286) }
{
    let test = lies(values, x.address, x.object.size)?;
    let both = values.both(found, test)?;
    Ok(both)
}

// The objects of a function by their values, and whether each lies in memory.
fn locate_all<O: WalkSetting, V: Values>(
    alloc: Global,
    out: &O,
    objects: &[WalkObject],
    values: &mut V,
) -> Result<Objects<V::Value>, NoMemory>
    requires keys { AreThere (V.has_key values.old) (O.kinds out.now) }
    ensures objects { IfOk result (λ x. objects_of x.list.items ≡ objects.now) }
    ensures makes { IfOk result (λ x. AreLocatedMade (V.made values.new ULong) x.list.items × V.made values.new Int x.lie) }
    ensures located { IfOk result (λ x. (m : List ℤ) → V.serves values.old m → AreLocated (V.shows values.new m ULong) (addresses_in (O.under out.now m)) x.list.items) }
    ensures lie { IfOk result (λ x. (m : List ℤ) → V.serves values.old m → V.shows values.new m Int x.lie (bit (all_lie (addresses_in (O.under out.now m)) objects.now))) }
    ensures keeps { OnOk result (Keeps V.serves V.has_key V.made V.shows values.old values.new) }
    ensures charge { OnOk result (V.cost values.new ≤ V.cost values.old + 1926 * length objects.now) }
{
    let mut list = Vec::new(alloc);
    let mut lie = values.constant(IntKind::Int, 1)?;
    for object in objects {
        let x = locate(out, *object, values)?;
        lie = lies_where(values, &x, lie)?;
        list.push(x)?;
    }
    Ok(Objects { list, lie })
}

/// Whether the addresses of these objects are valid under an input map, as a test: each object lies in memory, and no
/// two of a pair share a byte.
pub(crate) fn addresses_valid<O: WalkSetting, V: Values>(
    alloc: Global,
    out: &O,
    objects: &[WalkObject],
    values: &mut V,
) -> Result<V::Value, NoMemory>
    requires keys { AreThere (V.has_key values.old) (O.kinds out.now) }
    ensures makes { IfOk result (λ v. V.made values.new Int v) }
    ensures value { IfOk result (λ v. (m : List ℤ) → V.serves values.old m → V.shows values.new m Int v (bit (addresses_valid (addresses_in (O.under out.now m)) objects.now))) }
    ensures keeps { OnOk result (Keeps V.serves V.has_key V.made V.shows values.old values.new) }
    ensures charge { OnOk result (V.cost values.new ≤ V.cost values.old + (1926 * length objects.now + 1286 * pairs_in objects.now)) }
{
    let placed = locate_all(alloc, out, objects, values)?;
    let found = all_apart(values, placed.list.as_slice(), placed.lie)?;
    Ok(found)
}
