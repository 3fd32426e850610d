//! Tests of terms: the store, rewriting, trying all inputs, and likely ones.
#![tactic(auto)]

#[cfg(test)]
mod enumerate;
#[cfg(test)]
mod local_search;
#[cfg(test)]
mod making_terms;
#[cfg(test)]
mod operators;
#[cfg(test)]
mod random;
#[cfg(test)]
mod rewritten_terms;
#[cfg(test)]
mod rules;
#[cfg(test)]
mod sharing;
