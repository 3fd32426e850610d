//! Tests of the top call: the records of functions of more than 16 input bits, and what the decider is asked; texts that
//! are generated; the scripts that it writes; and bundles, whose clauses and derivations are read back and checked, and
//! which are audited.
#![tactic(auto)]

#[cfg(test)]
mod asked;
#[cfg(test)]
mod audit_rows;
#[cfg(test)]
mod audited;
#[cfg(test)]
mod bundles;
#[cfg(test)]
mod failing;
#[cfg(test)]
mod files;
#[cfg(test)]
mod generated;
#[cfg(test)]
mod given_up;
#[cfg(test)]
mod narrow;
#[cfg(test)]
mod rows;
#[cfg(test)]
mod running;
#[cfg(test)]
mod scripts;
#[cfg(test)]
mod sets;
#[cfg(test)]
mod wide;
#[cfg(test)]
mod wide_rows;
#[cfg(test)]
mod writing;
