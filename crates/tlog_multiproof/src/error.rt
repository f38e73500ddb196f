//! Why entries are refused.
ghost use Rattle.std.specs.Prelude.{◌≡◌};
ghost use Rattle.tlog_multiproof.specs.declared.error.EntriesError.TheVariants.{OutOfMemory};

use std::alloc::{AllocError, AllocFailed};
use thiserror::Error;

/// Why entries are refused: the first reason that applies, in the order of the variants.
#[derive(Clone, Copy, Debug, PartialEq, Eq, Error)]
pub enum EntriesError {
    /// The size is above 2^62.
    #[error("the size is above 2^62")]
    SizeTooLarge,
    /// There are no indices.
    #[error("there are no indices")]
    NoIndices,
    /// The number of leaf hashes is not that of the indices.
    #[error("the number of leaf hashes is not that of the indices")]
    LeafCountMismatch,
    /// An index is not below the size.
    #[error("an index is not below the size")]
    IndexPastEnd,
    /// The proof has too few digests.
    #[error("the proof has too few digests")]
    TooFewDigests,
    /// The proof has too many digests.
    #[error("the proof has too many digests")]
    TooManyDigests,
    /// One index has two leaf hashes.
    #[error("one index has two leaf hashes")]
    TwoLeafHashes,
    /// The proof leads to another root.
    #[error("the proof is of another root")]
    RootMismatch,
    /// Memory ran out. It may come in place of any reason but the first four.
    #[error("out of memory")]
    OutOfMemory,
}

impl From<AllocError> for EntriesError {
    ghost from_gives = { λ _ e. e ≡ OutOfMemory };

    fn from(_error: AllocError) -> EntriesError {
        EntriesError::OutOfMemory
    }
}

impl<T: Drop> From<AllocFailed<T>> for EntriesError {
    ghost from_gives = { λ _ e. e ≡ OutOfMemory };

    fn from(_error: AllocFailed<T>) -> EntriesError {
        EntriesError::OutOfMemory
    }
}
