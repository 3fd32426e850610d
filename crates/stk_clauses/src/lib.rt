//! Literals, clauses and their store, derivations; and what unit propagation gives, what a step by its hints is, a new
//! clause and a spent log, for whoever makes clauses, checks them or learns from them.
#![tactic(auto)]

mod comparing;
mod derivation;
mod laws;
mod literal;
mod store;

pub use derivation::{Derivation, Derived};
pub use laws::{new_is_no_superset, quiet_makes_new, refutation_is_sound};
pub use literal::{Lit, are_distinct, is_among};
pub use store::{Cnf, Store};
