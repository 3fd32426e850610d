//! Bundles of inputs: what is said of a unit, which is the line of a function with reports and a claim for each of
//! them, in the order of its candidates; and the first lines, what is said of all units, and the last
//! line.
#![tactic(auto)]

mod bundle;
mod functions;
mod units;

pub use bundle::{BundledFile, write_bundle};
