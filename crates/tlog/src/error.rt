//! Why a proof is refused, and why two are not composed.
ghost use Rattle.std.specs.Prelude.{◌≡◌};
ghost use Rattle.tlog.specs.declared.error.ComposeError.TheVariants.{OutOfMemory};

use crate::collision::Collision;
use std::alloc::{AllocError, AllocFailed};
use thiserror::Error;

/// Why a proof is refused: the first reason that applies, in the order of the variants.
#[derive(Clone, Copy, Debug, PartialEq, Eq, Error)]
pub enum ProofError {
    /// The size is above 2^62, in a proof of consistency the new one.
    #[error("the size is above 2^62")]
    SizeTooLarge,
    /// The index is not below the size.
    #[error("the index is not below the size")]
    IndexPastEnd,
    /// The new size is below the old one.
    #[error("the new size is below the old size")]
    SmallerNewSize,
    /// The proof ends before it leads to a root.
    #[error("the proof has too few digests")]
    TooFewDigests,
    /// The proof leads to a root before it ends.
    #[error("the proof has too many digests")]
    TooManyDigests,
    /// The proof leads to another old root.
    #[error("the proof is of another old root")]
    OldRootMismatch,
    /// The proof leads to another root, in a proof of consistency another new one.
    #[error("the proof is of another root")]
    RootMismatch,
}

/// Why two proofs of consistency are not composed: the first reason that applies, in the order of the variants.
#[derive(Debug, Drop, Error)]
pub enum ComposeError {
    /// The first proof is not accepted.
    #[error("the first proof is refused: {0}")]
    First(ProofError),
    /// The second proof is not accepted.
    #[error("the second proof is refused: {0}")]
    Second(ProofError),
    /// The hash function has a collision, by which both proofs compute one middle root.
    #[error("two different byte strings have one hash")]
    Collision(Collision),
    /// Memory ran out, which may come in place of `Collision`.
    #[error("out of memory")]
    OutOfMemory,
}

impl From<AllocError> for ComposeError {
    ghost from_gives = { λ _ error. error ≡ OutOfMemory };

    fn from(_error: AllocError) -> ComposeError {
        ComposeError::OutOfMemory
    }
}

impl<T: Drop> From<AllocFailed<T>> for ComposeError {
    ghost from_gives = { λ _ error. error ≡ OutOfMemory };

    fn from(_error: AllocFailed<T>) -> ComposeError {
        ComposeError::OutOfMemory
    }
}
