//! Tables of AND gates: equal gates are shared, and an AND that needs no gate gets none.
#![tactic(auto)]

mod edge;
mod folding;
mod gates;
mod laws;

pub use edge::Edge;
pub use gates::Gates;
pub use laws::meanings;
