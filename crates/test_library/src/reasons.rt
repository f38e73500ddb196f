//! What a caller makes of refusals: some of them it handles by name.

use p3_merkle_tree::MerkleTreeError;

/// Why a verifier rejects an opening.
#[derive(Debug, PartialEq, Eq, Drop)]
pub enum Rejection {
    /// It leads to another digest than the one in the commitment.
    OtherCommitment,
    /// No matrix has a row at its index.
    NoSuchIndex,
    /// Any other refusal, or that memory ran out.
    Other(MerkleTreeError),
}
