//! Why a file is not read.

ghost use Rattle.std.specs.Prelude.{◌≡◌, ◌⊎◌, IfSome};
ghost use Rattle.tlog_files.specs.Inner.Failures.{failure_of};
ghost use Rattle.tlog_files.specs.declared.error.ReadError.TheVariants.{OutOfMemory, Read};

use std::alloc::AllocError;
use std::io::ErrorKind;
use thiserror::Error;

/// Why the entries of a file are not read. It prints as one line.
#[derive(Clone, Copy, Debug, PartialEq, Eq, Error)]
pub enum ReadError {
    /// A read failed.
    #[error("cannot be read")]
    Read,
    /// The file has more than 2^62 entries.
    #[error("has more than 2^62 entries")]
    TooManyEntries,
    /// The file ends inside a line, and a partial line is refused.
    #[error("ends inside a line")]
    EndsInsideLine,
    /// Memory ran out.
    #[error("out of memory")]
    OutOfMemory,
}

impl From<AllocError> for ReadError {
    ghost from_gives = { λ _ e. e ≡ OutOfMemory };

    fn from(_error: AllocError) -> ReadError {
        ReadError::OutOfMemory
    }
}

/// What ends the reading after a read that failed so; `None` if it was interrupted, and is tried again.
pub(crate) fn failure_of(kind: ErrorKind) -> Option<ReadError>
    ensures by_kind { result ≡ failure_of kind }
    ensures either { IfSome result (λ error. (error ≡ OutOfMemory) ⊎ (error ≡ Read)) }
{
    match kind {
        ErrorKind::Interrupted => None,
        ErrorKind::OutOfMemory => Some(ReadError::OutOfMemory),
        _ => Some(ReadError::Read),
    }
}
