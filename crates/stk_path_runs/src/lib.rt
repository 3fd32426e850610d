//! The path run of a function under an input map.
#![tactic(auto)]

mod bits;
mod kept;
mod key_index;
mod loop_rows;
mod mapped;
mod running;
mod slots;
mod starting;
mod tables;
mod types;

pub use bits::input_bits;
pub use key_index::{KeyIndex, LoopKey};
pub use loop_rows::{LoopRow, LoopRows, LoopSlot};
pub use mapped::MappedFunction;
pub use running::path_run;
pub use slots::Slots;
pub use starting::start_registers;
pub use tables::FunctionTables;
