//! Tests of trees and schemes that no line of a file of cases can say.
#![tactic(auto)]

#[cfg(test)]
mod any_scheme;
#[cfg(test)]
mod bound;
#[cfg(test)]
mod calls;
#[cfg(test)]
mod clones;
#[cfg(test)]
mod errors;
#[cfg(test)]
mod exclusive_or;
#[cfg(test)]
mod noting;
pub mod reasons;
#[cfg(test)]
mod roots;
#[cfg(test)]
mod staging;
