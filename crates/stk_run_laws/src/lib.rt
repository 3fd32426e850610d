//! Laws of runs: numbers of nodes, memory and what stays; what runs violate and hit is listed, each of it once; and
//! what a path run shows for each place of an execution.
#![tactic(auto)]

mod listing;
mod memory_laws;
mod numbering;
mod showing;

pub use listing::{
    a_sufficient_set_has_a_member, each_node_is_evaluated_once, lists_are_in_order,
    what_runs_make_is_listed,
};
pub use memory_laws::{
    kept_numbers_go_on_agreeing, what_is_read_is_in_range, what_is_stored_is_read_back,
};
pub use numbering::what_is_laid_out_is_numbered;
pub use showing::{
    each_end_is_shown, each_place_is_shown, one_condition_serves_all,
    what_suffices_in_paths_suffices,
};
