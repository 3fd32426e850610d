//! What a unit declares: the entries in force behind it, or the first node that a rule refuses, by its lowest rule.
//! Rule 1: a name isn't declared. 2: words name no type. 3: a name is declared twice, or as something else. 4: a
//! complete object type is needed. 5: a size or an enumerator isn't a constant in its range, or a type is too large.
//! 11: a constant isn't one. 15: a definition with `typedef` or with a parameter without a name. 16: an initialiser
//! doesn't fit. 17: a tag of another kind, or defined twice.
#![tactic(auto)]

mod additions;
mod declarators;
mod enumerations;
mod members;
mod settling;
mod structs;
mod symbols;
mod tags;
mod units;

pub use symbols::SymbolSort;
pub use units::declare;
