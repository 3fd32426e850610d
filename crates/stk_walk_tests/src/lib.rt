//! Tests of walks over all branches, over numbers and over terms, and of goals: against path runs.
#![tactic(auto)]

#[cfg(test)]
mod asking;
#[cfg(test)]
mod comparing;
#[cfg(test)]
mod events;
#[cfg(test)]
mod functions;
#[cfg(test)]
mod goal_values;
#[cfg(test)]
mod growing;
#[cfg(test)]
mod large;
#[cfg(test)]
mod last_rows;
#[cfg(test)]
mod memory_rows;
#[cfg(test)]
mod more_rows;
#[cfg(test)]
mod narrow_rows;
#[cfg(test)]
mod rows;
#[cfg(test)]
mod runs;
#[cfg(test)]
mod walks;
