use stk_base::Span;
use stk_numbers::IntKind;

/// What a number of a path run is asked for: a register parameter, the address of an object, a register without
/// initialiser, a load, the result of a call, each by the number of a node; a register that a loop sets first, by the
/// loop and its declarator.
#[derive(Clone, Copy, Debug, PartialEq, Eq)]
pub enum Key {
    Parameter(u32),
    Address(u32),
    Unset(u32),
    Load(u32),
    Call(u32),
    Loop(u32, u32),
}

/// A key with the kind of its numbers; the size in bytes of the object whose address it is, and 0 for any other key;
/// and where the name of the object or register stands, where it has one.
#[derive(Clone, Copy, Debug, PartialEq, Eq)]
pub struct KeyInfo {
    pub key: Key,
    pub kind: IntKind,
    pub size: u64,
    pub name: Option<Span>,
}
