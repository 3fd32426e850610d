//! Laws of goals: what a goal says of a walk's events is what a query asks of the trace.
#![tactic(auto)]

mod goals;

pub use goals::goals_are_of_queries;
