//! Writing a text whole: `write_all` of the standard library, with a contract that says what the output has after a
//! failed write, too.
#![tactic(auto)]

#[cfg(test)]
mod tests;
mod writing;

pub use writing::{WriteFailed, write_whole};
