//! The top call of the replay: from an input that holds a script and its source to the text of the execution.
#![tactic(auto)]

mod main_call;
mod run;
mod status;
mod writing;

pub use main_call::replay_main;
pub use run::run_replay;
pub use status::ReplayStatus;
