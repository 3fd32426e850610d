//! The findings of a function of any number of input bits: by what the path runs of known input maps hit, and by
//! queries that are asked where these don't tell.
#![tactic(auto)]

mod asking;
mod beginning;
mod guessing;
mod judged;
mod judging;
mod known;
mod plain;
mod rounds;
mod traces;

pub use asking::{QueryAnswer, Questions};
pub use judged::{AskedCandidate, JudgedFunction};
pub use judging::judge_candidate;
pub use known::Known;
