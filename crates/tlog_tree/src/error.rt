//! Why a log does not grow.

ghost use Rattle.std.specs.Prelude.{◌≡◌};
ghost use Rattle.tlog_tree.specs.declared.error.TreeError.TheVariants.{OutOfMemory};

use std::alloc::{AllocError, AllocFailed};
use thiserror::Error;

/// Why a log does not grow, or is not begun.
#[derive(Clone, Copy, Debug, PartialEq, Eq, Error)]
pub enum TreeError {
    /// The log would have more than 2^62 entries.
    #[error("the size is above 2^62")]
    SizeTooLarge,
    /// A log of this size has another number of whole nodes.
    #[error("the number of nodes is not that of the size")]
    NodeCountMismatch,
    /// Memory ran out.
    #[error("out of memory")]
    OutOfMemory,
}

impl From<AllocError> for TreeError {
    ghost from_gives = { λ _ e. e ≡ OutOfMemory };

    fn from(_error: AllocError) -> TreeError {
        TreeError::OutOfMemory
    }
}

impl<T: Drop> From<AllocFailed<T>> for TreeError {
    ghost from_gives = { λ _ e. e ≡ OutOfMemory };

    fn from(_error: AllocFailed<T>) -> TreeError {
        TreeError::OutOfMemory
    }
}
