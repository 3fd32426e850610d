//! The true literals of a search, the clauses that watch them, and unit propagation.
#![tactic(auto)]

mod assignment;
mod choosing;
mod inner;
mod looking;
mod propagation;
mod starts;
mod taking;
mod trail;
mod walking;
mod watch_lists;

pub use assignment::Assignment;
pub use trail::Trail;
pub use watch_lists::WatchLists;
