//! Tests of runs and records: what is listed of functions, their path runs and findings, the words, and the lines of
//! records.
#![tactic(auto)]

#[cfg(test)]
mod exhaustive;
#[cfg(test)]
mod facts;
#[cfg(test)]
mod finding;
#[cfg(test)]
mod lines;
#[cfg(test)]
mod listed;
#[cfg(test)]
mod listed_memory_rows;
#[cfg(test)]
mod listed_rows;
#[cfg(test)]
mod listed_writing;
#[cfg(test)]
mod path_runs;
#[cfg(test)]
mod records;
#[cfg(test)]
mod run_memory_rows;
#[cfg(test)]
mod run_rows;
#[cfg(test)]
mod run_writing;
#[cfg(test)]
mod runs;
#[cfg(test)]
mod words;
#[cfg(test)]
mod worked_rows;
