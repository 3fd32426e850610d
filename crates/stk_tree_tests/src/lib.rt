//! Tests of trees: what they print, whether they are well placed, their counts, heights and layouts.
//!
//! They stand in a crate of their own, so that the crates with those calls are proved once and not a second time with
//! tests.
#![tactic(auto)]

#[cfg(test)]
mod declarations;
#[cfg(test)]
mod expressions;
#[cfg(test)]
mod layout;
#[cfg(test)]
mod maker;
#[cfg(test)]
mod printed;
#[cfg(test)]
mod statements;
#[cfg(test)]
mod units;
