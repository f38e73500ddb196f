//! Several entries of a log by RFC 9162, proved by one smallest proof, under SHA-256: a log's tree is the tree of arity
//! 2 over one column of leaf hashes, with a compression that passes an only child on.
#![tactic(auto)]

mod ascending;
mod collision;
mod error;
pub mod laws;
mod opening;
mod tree;
mod verify;

pub use ascending::{AscendingEntries, verify_ascending};
pub use collision::entries_collision;
pub use error::EntriesError;
pub use opening::entry_nodes;
pub use verify::verify_entries;
