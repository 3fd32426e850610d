//! The lines of bundles, as data and as text, and which line may follow which.
#![tactic(auto)]

mod block;
mod claims;
mod head;
mod kinds;
mod laws;
mod line;
mod numbers;
mod parts;
mod reading;
mod stage;
mod word;
mod writing;

pub use block::line_count;
pub use claims::{left_line, report_lines};
pub use head::head_lines;
pub use laws::{claims_stand, texts_have_one_reading};
pub use line::BundleLine;
pub use parts::{NextPart, Part, PartFault, Reading, next_part, read_bundle};
pub(crate) use reading::read_line;
pub use stage::Stage;
pub use writing::add_line;
