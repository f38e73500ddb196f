//! The program `mmcs`: from its arguments and an input to an output or an error, with the exit code. Matrices are read,
//! committed to, opened and checked, and lines are printed.
#![tactic(auto)]

pub mod command;
pub mod engine;
pub mod fault;
pub mod input;
pub mod laws;
pub mod number;
pub mod process;
pub mod text;
pub mod word;
