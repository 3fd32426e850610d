//! Laws of lawful reports: what a report shows of its set of conditions.
#![tactic(auto)]

mod reports;

pub use reports::reports_show_their_sets;
