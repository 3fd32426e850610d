//! The parameters and local objects of a function whose names are operands of `&`: the others, where they are scalars,
//! have no address that a program can know, and are registers, but for `static` ones.
#![tactic(auto)]

mod bindings;
mod expressions;
mod initialisers;
mod sets;
mod statements;
mod statics;

pub use bindings::Binding;
pub use sets::NodeSet;
pub use statements::taken_in;
pub use statics::statics_in;
