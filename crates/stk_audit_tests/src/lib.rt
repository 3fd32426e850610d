//! Tests of audits: a bundle over a made-up source, with each line changed, left out, doubled and exchanged with the
//! next.
#![tactic(auto)]

#[cfg(test)]
mod lines;
#[cfg(test)]
mod small;
#[cfg(test)]
mod tests;
