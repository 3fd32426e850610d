//! Tests of the top call of the replay: the texts of executions, and how it ends otherwise; and of memory, of scripts
//! and of the lines of a replay.
#![tactic(auto)]

#[cfg(test)]
mod cells;
#[cfg(test)]
mod examples;
#[cfg(test)]
mod executions;
#[cfg(test)]
mod lines;
#[cfg(test)]
mod refusals;
#[cfg(test)]
mod running;
#[cfg(test)]
mod scripts;
