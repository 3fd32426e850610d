//! Laws of typed functions: what units declare; that each accepted function has a typed tree, whose values have the
//! kinds and the bits of their nodes; the input keys and candidates that it has; and what a walk over it may cost. And
//! path runs over typed trees as examples.
#![tactic(auto)]

mod candidates;
mod entries;
mod key_kinds;
mod key_weights;
mod kind_widths;
mod kinded_trees;
mod order;
mod typed_bits;
mod typed_trees;
mod walks;

pub use candidates::candidates_are_few;
pub use entries::adds_few_entries;
pub use key_kinds::keys_have_their_kinds;
pub use key_weights::keys_are_within_weight;
pub use kind_widths::kinds_are_wide;
pub use kinded_trees::{accepted_trees_are_kinded, accepted_units_are_kinded};
pub use order::units_keep_order;
pub use typed_bits::{accepted_trees_have_bits, accepted_units_have_bits};
pub use typed_trees::{accepted_trees_are_typed, accepted_units_are_typed};
pub use walks::walks_are_within_weight;
