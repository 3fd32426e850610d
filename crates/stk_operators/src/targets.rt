//! What a place is by name.

/// What a place is by name: a register, by its declarator; a kept object, by its position among these; another object,
/// by the node of its address, or a member of it; or none of these.
#[derive(Clone, Copy, Debug, PartialEq, Eq)]
pub enum Target {
    Register(u32),
    Kept(u32),
    Object(u32),
    Unnamed,
}
