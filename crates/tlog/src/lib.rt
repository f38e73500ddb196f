//! Logs by RFC 9162: leaf and node hashes under SHA-256, and the verifiers of inclusion and of consistency, which
//! allocate nothing. Under any hash function: what accepted proofs fix, or else two byte strings with one hash.
//! Indices are counted from 0, sizes go up to 2^62.
#![tactic(auto)]

mod binding;
pub mod collision;
mod composition;
pub mod consistency;
mod error;
mod hash;
pub mod honest_proofs;
pub mod inclusion;
pub mod laws;

pub use binding::{
    consistency_collision, entry_collision, leaf_collision, prefix_collision, proof_collision,
};
pub use composition::{compose, growth_collision};
pub use consistency::verify_consistency;
pub use error::{ComposeError, ProofError};
pub use hash::{EMPTY_ROOT, LogHash, leaf_hash, node_hash};
pub use inclusion::{SIZE_LIMIT, verify_inclusion};
