//! Rewriting of terms to a normal form, of which no part is the left side of a rule.
#![tactic(auto)]

mod bits;
mod building;
mod choices;
mod choosing;
mod cuts;
mod equalities;
mod folding;
mod making;
mod normal_terms;
mod ordered;
mod reading;
mod right;
mod shifts;
mod signs;
mod simplifying;
mod sums;

pub use normal_terms::NormalTerms;
pub use simplifying::simplify;
