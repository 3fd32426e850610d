//! What it means that a query of a function was given up: definitions alone.
#![tactic(auto)]
