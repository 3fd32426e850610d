//! The call that types a function definition whole.
#![tactic(auto)]

mod typing;
mod untyped;

pub use typing::typed_of;
pub use untyped::Untyped;
