//! Tests of the functions from commit to verdict, of both schemes.
#![tactic(auto)]

#[cfg(test)]
mod accepted;
#[cfg(test)]
mod by_paths;
