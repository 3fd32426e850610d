//! Tests of scripts, written and read.
#![tactic(auto)]

#[cfg(test)]
mod goal_scripts;
#[cfg(test)]
mod read_scripts;
#[cfg(test)]
mod tokens;
