//! Tests of circuits and of stores of values: gates, arithmetic, blasting, numbers and terms.
#![tactic(auto)]

#[cfg(test)]
mod arithmetic;
#[cfg(test)]
mod blasting;
#[cfg(test)]
mod call_rows;
#[cfg(test)]
mod calls;
#[cfg(test)]
mod conditions;
#[cfg(test)]
mod edge_rows;
#[cfg(test)]
mod gates;
#[cfg(test)]
mod goals;
