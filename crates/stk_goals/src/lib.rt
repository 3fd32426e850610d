//! The goals of a function's queries: which functions are searched, and terms that are 1 exactly for the maps that
//! answer a query.
#![tactic(auto)]

mod laws;
mod query;
mod query_goal;
mod search_laws;
mod walked;

pub use laws::goals_add_little;
pub use query::Query;
pub use query_goal::{QueryGoal, goal_of};
pub use search_laws::{
    accepted_functions_are_searched, keys_are_there, typed_functions_are_searched,
};
pub use stk_walk::{FunctionTables, input_bits};
pub use walked::{WalkedStore, add_goal, kinds_of, walked_store};
