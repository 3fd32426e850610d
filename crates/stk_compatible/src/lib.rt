//! When two types are the same, and when two declarations agree on a type (C11 6.2.7).
#![tactic(auto)]

mod agreement;
mod comparing;

pub use agreement::{Agreement, agree, agree_signature};
