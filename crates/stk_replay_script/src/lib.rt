//! The script of a replay: which execution of which function, as data and as text, and its reading.
#![tactic(auto)]

mod cells;
mod fields;
mod laws;
mod numbers;
mod reading;
mod replies;
mod script;
mod starts;

pub use laws::texts_have_one_reading;
pub use reading::read_script;
pub use script::Script;
pub use starts::start_numbers;
