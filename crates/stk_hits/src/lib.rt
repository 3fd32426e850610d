//! Input maps by their numbers, and the table of what the path runs of input maps hit.
#![tactic(auto)]

mod condition_ids;
mod hit_table;
mod input_map_laws;
mod input_maps;
mod path_laws;
mod path_table;
mod queries;
mod recording;

pub use hit_table::{HitTable, Row};
pub use input_map_laws::maps_by_number;
pub use input_maps::{map_of, total_bits};
pub use path_laws::all_path_runs_tell;
pub use path_table::{kinds_of, table_of};
