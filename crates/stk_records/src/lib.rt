//! What is read from the command line, the lines of records as data, as text and as JSON, and their writing.
#![tactic(auto)]

mod counts;
mod items;
mod json;
mod kinds;
mod line;
mod numbers;
mod options;
mod parts;
mod reading;
mod text;
mod writing;

pub use counts::Counts;
pub use json::add_json_line;
pub use line::{Cause, Claim, Fragment, Input, Line, Needed, Spot, StartInputs};
pub use options::{AskedScript, ConditionSet, Options, WordsFault};
pub use reading::words;
pub use text::{add_claim, add_line, add_spot, kind_text, printed_byte};
pub use writing::{Stop, write_record, write_summary};
