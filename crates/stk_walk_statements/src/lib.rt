//! What a statement does in a walk over all branches.
#![tactic(auto)]

mod body;
mod choosing;
mod declarations;
mod guards;
mod scopes;
mod simple;
mod statements;

pub use body::walk_body;
