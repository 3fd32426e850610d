//! The trusted edge: the real source and the real sinks, over std's reader and writer, and the words of the command
//! line.
#![tactic(auto)]

mod real;
mod words;

pub use real::{RealSink, RealSource};
pub use words::command_words;
