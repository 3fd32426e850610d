//! The lines of a unit: those of its findings, in the order of its candidates, and those of a unit that is skipped.
#![tactic(auto)]

mod file;
mod functions;
mod lines;
mod recording;
mod units;

pub use file::LintedFile;
pub use units::write_unit;
