//! Tests of matrices, openings and hashes without a tree. The generator, the matrices and the comparisons of these
//! tests are public, for the other test crates.
#![tactic(auto)]

pub mod compared;
#[cfg(test)]
mod constants;
pub mod counting;
#[cfg(test)]
mod hashes;
pub mod matrices;
#[cfg(test)]
mod values;
