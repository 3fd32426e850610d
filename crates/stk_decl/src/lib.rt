//! Reading declarations from tokens (C11 6.7).
#![tactic(auto)]

mod arrays;
mod bases;
mod build;
mod declarations;
mod declarators;
mod fronts;
mod initialisers;
mod parameters;
mod reading;
mod turns;

pub use reading::{LeadingDeclaration, decl, declaration_within, front, front_within};
