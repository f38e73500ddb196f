//! Trees of logs by RFC 9162 that only grow, under SHA-256 eight nodes at a time.
#![tactic(auto)]

mod builder;
mod error;
mod frontier;
pub mod laws;
mod leaf;
mod node_id;
mod proof_nodes;
mod wanted;

pub use builder::TreeBuilder;
pub use error::TreeError;
pub use frontier::Frontier;
pub use leaf::leaf_hashes;
pub use node_id::NodeId;
pub use proof_nodes::{consistency_nodes, inclusion_nodes};
pub use wanted::WantedNode;
