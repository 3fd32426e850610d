//! Memory objects at addresses.

ghost use Rattle.std.specs.Prelude.{◌≡◌, ◌+◌, nat_lt};
ghost use Rattle.std.specs.List.{list_all};
ghost use Rattle.stk_first_maps.specs.Placed.{lies_in_memory, shares_byte, is_apart, is_placed, are_placed};

/// A memory object: the node of its address, its bytes, whether it is kept, whether it has a name and a scalar or
/// struct type, and its address.
#[derive(Clone, Copy, Debug)]
pub(crate) struct PlacedObject {
    pub node: u32,
    pub size: u64,
    pub is_kept: bool,
    pub is_plain: bool,
    pub address: u64,
}

// Whether an object lies in memory: its first byte isn't at 0, and it ends before the last address.
fn lies_in_memory(object: PlacedObject) -> bool
    ensures { result ≡ lies_in_memory object }
{
    object.address >= 1 && object.address <= u64::MAX - object.size
}

// Whether an object begins before another one ends.
fn begins_before_end(object: PlacedObject, other: PlacedObject) -> bool
    ensures { result ≡ nat_lt object.address (other.address + other.size) }
{
    u128::from(object.address) < u128::from(other.address) + u128::from(other.size)
}

// Whether two objects share a byte.
fn shares_byte(object: PlacedObject, other: PlacedObject) -> bool
    ensures { result ≡ shares_byte object other }
{
    begins_before_end(object, other) && begins_before_end(other, object)
}

// Whether another object is the same, has no name or no scalar or struct type, or shares no byte with an object.
fn is_apart(object: PlacedObject, other: PlacedObject) -> bool
    ensures { result ≡ is_apart object other }
{
    object.node == other.node || !other.is_plain || !shares_byte(object, other)
}

// Whether an object is so to each of a list.
fn is_apart_from(object: PlacedObject, all: &[PlacedObject]) -> bool
    ensures { result ≡ list_all (is_apart object) all.now }
{
    for other in all {
        if !is_apart(object, *other) {
            return false;
        }
    }
    true
}

// Whether an object lies in memory, and stands apart from all where it is kept.
fn is_placed(all: &[PlacedObject], object: PlacedObject) -> bool
    ensures { result ≡ is_placed all.now object }
{
    lies_in_memory(object) && (!object.is_kept || is_apart_from(object, all))
}

/// Whether each object lies in memory, and each kept one stands apart from all. It takes a step for each kept object
/// and each other one.
pub(crate) fn are_placed(all: &[PlacedObject]) -> bool
    ensures { result ≡ are_placed all.now }
{
    for object in all {
        if !is_placed(all, *object) {
            return false;
        }
    }
    true
}
