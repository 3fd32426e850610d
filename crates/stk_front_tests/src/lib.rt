//! Tests of the way from a text to accepted units: tokens, units, the trees that are read, and declarations.
//!
//! They stand in a crate of their own, so that the crates with those calls are proved once and not a second time with
//! tests.
#![tactic(auto)]

#[cfg(test)]
mod accepted_declarations;
#[cfg(test)]
mod lexing;
#[cfg(test)]
mod reading_declarations;
#[cfg(test)]
mod reading_expressions;
#[cfg(test)]
mod reading_statements;
#[cfg(test)]
mod reading_texts;
#[cfg(test)]
mod tables;
#[cfg(test)]
mod units;
