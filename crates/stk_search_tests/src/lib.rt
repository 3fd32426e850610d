//! Tests of the search, of deciding goals, and of the texts of clause lists and derivations.
#![tactic(auto)]

mod answers;
#[cfg(test)]
mod checked;
#[cfg(test)]
mod circuits;
#[cfg(test)]
mod cutting;
#[cfg(test)]
mod deciding;
#[cfg(test)]
mod plain;
#[cfg(test)]
mod query;
#[cfg(test)]
mod search;
#[cfg(test)]
mod solver;
mod steps;
#[cfg(test)]
mod stored;
#[cfg(test)]
mod texts;
