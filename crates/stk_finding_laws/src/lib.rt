//! Laws of findings by path runs: each candidate has a finding and only one.
#![tactic(auto)]

mod laws;
mod one_finding;

pub use laws::each_candidate_has_a_finding;
pub use one_finding::findings_are_one;
