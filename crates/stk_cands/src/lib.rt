//! What is asked of a function: its candidates, and the conditions that its runs may violate.
#![tactic(auto)]

mod candidate_forms;
mod candidate_list;
mod condition_forms;
mod condition_list;
mod strides;

pub use candidate_list::candidates;
pub use condition_list::conditions;
pub use strides::stride_of;
