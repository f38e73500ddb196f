//! Why a batch, an index or an opening is refused.

ghost use Rattle.std.specs.Prelude.{◌≡◌};
ghost use Rattle.p3_merkle_core.specs.declared.error.MerkleTreeError.TheVariants.{MalformedPrunedProof, OutOfMemory};

use std::alloc::{AllocError, AllocFailed};
use thiserror::Error;

/// Why a pruned proof does not fit the queries and rows that it comes with.
#[derive(Debug, PartialEq, Eq, Drop, Error)]
pub enum PrunedProofError {
    /// The proof's digest count differs from what the queries require.
    #[error("wrong pruned sibling count: expected {expected}, got {got}")]
    SiblingCountMismatch {
        /// How many digests the queries require.
        expected: usize,
        /// How many digests the proof has.
        got: usize,
    },
    /// Two queries of one index have different rows.
    #[error("duplicate queries for path slot {slot} disagree on opened values")]
    InconsistentDuplicateOpenings {
        /// The position of the index, from 0, among the distinct queried indices, ascending.
        slot: usize,
    },
    /// Two queries under one node have different rows of a matrix that belongs to the node's layer.
    #[error("unique path slot {slot} disagrees with its group's lead on matrix {matrix}'s opened row")]
    InconsistentGroupOpening {
        /// The position, from 0, among the distinct queried indices, ascending, of the index whose row differs from
        /// that of the lowest index under the node.
        slot: usize,
        /// The position of the matrix in input order, from 0.
        matrix: usize,
    },
}

/// Why a batch of matrices, an index or an opening is refused.
#[derive(Debug, PartialEq, Eq, Drop, Error)]
pub enum MerkleTreeError {
    /// Two lists that belong together differ in length: rows and matrices, row sets and indices, salts and rows, or
    /// salt sets and row sets.
    #[error("batch size mismatch: expected {expected} entries, got {got}")]
    WrongBatchSize {
        /// How many there should be.
        expected: usize,
        /// How many there are.
        got: usize,
    },
    /// The length of an opened row is not the width of its matrix.
    #[error("wrong width: matrix {matrix} expected {expected} values, got {got}")]
    WrongWidth {
        /// The position of the matrix in input order, from 0.
        matrix: usize,
        /// Its width.
        expected: usize,
        /// How many words the row has.
        got: usize,
    },
    /// The number of siblings is not what the levels below the cap need.
    #[error("wrong height: expected {expected_proof_len} siblings, got {num_siblings}")]
    WrongHeight {
        /// How many siblings the levels need.
        expected_proof_len: usize,
        /// How many there are.
        num_siblings: usize,
    },
    /// A height is not the tallest one halved and rounded up some number of times.
    #[error("matrix height {height} incompatible with tallest height {max_height}; expected ceil_div({max_height}, 2^{bits_reduced}) = {expected_height} so every global index maps to a row at depth {bits_reduced}")]
    IncompatibleHeights {
        /// The height that is refused.
        height: usize,
        /// The tallest height.
        max_height: usize,
        /// The tallest height after `bits_reduced` halvings, each rounded up.
        expected_height: usize,
        /// The exponent of the tallest height less that of this one. An exponent is log2, rounded up.
        bits_reduced: usize,
    },
    /// An index is not below the tallest height.
    #[error("index out of bounds: index {index} exceeds max height {max_height}")]
    IndexOutOfBounds {
        /// The tallest height.
        max_height: usize,
        /// The index that is refused.
        index: usize,
    },
    /// There are no matrices, or none of them has a row.
    #[error("empty batch: attempted to open an empty batch with no committed matrices")]
    EmptyBatch,
    /// The cap has no entry above the index, or another digest than the one computed from the opening.
    #[error("cap mismatch: computed digest does not match any entry in the Merkle cap")]
    CapMismatch,
    /// The pruned proof does not fit its queries and rows.
    #[error("malformed pruned proof: {0}")]
    MalformedPrunedProof(PrunedProofError),
    /// A height is above 2^62, the greatest one allowed; or, with salts, a width does not fit `usize`.
    #[error("matrix {matrix}: size {size} is too large")]
    TooLarge {
        /// The position of the matrix in input order, from 0.
        matrix: usize,
        /// Its height in rows if that is above 2^62; else its width without the salts.
        size: usize,
    },
    /// Memory ran out.
    #[error("out of memory")]
    OutOfMemory,
}

impl From<PrunedProofError> for MerkleTreeError {
    ghost from_gives = { λ inner e. e ≡ MalformedPrunedProof inner };

    fn from(error: PrunedProofError) -> MerkleTreeError {
        MerkleTreeError::MalformedPrunedProof(error)
    }
}

impl From<AllocError> for MerkleTreeError {
    ghost from_gives = { λ _ e. e ≡ OutOfMemory };

    fn from(_error: AllocError) -> MerkleTreeError {
        MerkleTreeError::OutOfMemory
    }
}

impl<T: Drop> From<AllocFailed<T>> for MerkleTreeError {
    ghost from_gives = { λ _ e. e ≡ OutOfMemory };

    fn from(_error: AllocFailed<T>) -> MerkleTreeError {
        MerkleTreeError::OutOfMemory
    }
}
