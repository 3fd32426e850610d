//! Where a walk over all branches of a function has come to, as values of a store, and what a step of it does.
#![tactic(auto)]

mod asked;
mod cells;
mod conditions;
mod expressions;
mod inputs;
mod jumps;
mod keys;
mod lists;
mod loop_registers;
mod loops;
mod node_tests;
mod operations;
mod places;
mod registers;
mod state;
mod steps;
mod tests;
mod violations;

pub use asked::WalkSetting;
pub use cells::{remove_cell, remove_cells, store_cell};
pub use expressions::ExpressionWalk;
pub use inputs::input_value;
pub use jumps::{leave_by_break, leave_by_continue, leave_by_return, open_body};
pub use keys::InputKey;
pub use loops::begin_loop;
pub use node_tests::{NodeTest, Operands};
pub use operations::{
    Operand, absolute, flipped, is_zero, moved_address, negated, operated, replaced_test,
    to_address,
};
pub use places::{forget, read_place, store_place};
pub use registers::read_register;
pub use state::{Event, GuardedEvent, KeptCell, WalkState};
pub use steps::{enter, see};
pub use tests::{converted, either, is_true, zero};
pub use violations::violate;
