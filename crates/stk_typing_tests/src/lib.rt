//! Tests of numbers, constants and types: of expressions, initialisers, declarators and function bodies.
#![tactic(auto)]

#[cfg(test)]
mod address_taken;
#[cfg(test)]
mod constants;
#[cfg(test)]
mod declared;
#[cfg(test)]
mod expressions;
#[cfg(test)]
mod function_rows;
#[cfg(test)]
mod functions;
#[cfg(test)]
mod initialised;
#[cfg(test)]
mod names_taken;
#[cfg(test)]
mod numbers;
#[cfg(test)]
mod tables;
#[cfg(test)]
mod typed_texts;
