//! The input maps that a search for findings begins with, and whether an input map is valid.
#![tactic(auto)]

mod choices;
mod drawing;
mod mapping;
mod placed;
mod placing;
mod words;

pub use choices::{CHOICES, Choice, number_choices};
pub use mapping::map_of_choice;
pub use placing::is_valid;
pub use words::words_of;
