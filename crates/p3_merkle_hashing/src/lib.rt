//! How the layers of a tree are hashed: the rows of matrices, and groups of children.
#![tactic(auto)]

pub mod calls;
pub mod nodes;
pub mod rows;
