//! The types that declarators declare, and the tags that the parts of a declaration use.
#![tactic(auto)]

mod counting;
mod declarators;
mod expressions;
mod functions;
mod prototypes;
mod tails;
mod uses;

pub use counting::given_count;
pub use declarators::declarator_uses;
pub use expressions::{dimensions_uses, expression_uses};
pub(crate) use prototypes::parameters;
pub use prototypes::{File, Params, scope};
pub use tails::{Tailed, are_scalars, tail, tail_type};
pub use uses::{TagUse, base_uses};
