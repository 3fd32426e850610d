//! Which kinds the values of a function have, expression by expression: definitions alone.
#![tactic(auto)]
