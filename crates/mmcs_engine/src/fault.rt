//! The errors of `mmcs`.

ghost use Rattle.std.specs.Prelude.{◌≡◌};
ghost use Rattle.p3_merkle_core.specs.declared.error.MerkleTreeError.TheVariants.{OutOfMemory};
ghost use Rattle.mmcs_engine.specs.declared.fault.Fault.TheVariants.{Tree};
ghost use Rattle.mmcs_engine.specs.Faults.{status_of};

use p3_merkle_core::error::MerkleTreeError;
use std::alloc::{AllocError, AllocFailed};
use thiserror::Error;

/// Why `mmcs` fails. It prints as one line.
#[derive(Debug, Drop, Error)]
pub enum Fault {
    /// The arguments are no command.
    #[error("usage: mmcs fold|sha256 2|4|8 CAP[f] commit|open I..|check I..")]
    Usage,
    /// The input could not be read.
    #[error("read failed")]
    Read,
    /// A line of the input, the first faulty one, has a part that is no number that the hash takes.
    #[error("line {line}: not a number from 0 to {max}")]
    Number {
        /// Which line, counted from 1.
        line: usize,
        /// The greatest word of a row.
        max: usize,
    },
    /// A line of the input, the first faulty one, has another count of numbers than the first row of its matrix.
    #[error("line {line}: expected {expected} numbers, got {got}")]
    Count {
        /// Which line, counted from 1.
        line: usize,
        /// How many numbers the first row of the matrix has.
        expected: usize,
        /// How many this one has.
        got: usize,
    },
    /// The tree refuses the matrices or the indices, or memory ran out.
    #[error("{0}")]
    Tree(MerkleTreeError),
    /// The output could not be written.
    #[error("write failed")]
    Write,
}

impl Fault {
    /// The exit code: 2 for `Usage`, else 1.
    pub fn status(&self) -> u8
        ensures { result ≡ status_of self.now }
    {
        match self {
            Fault::Usage => 2,
            _ => 1,
        }
    }
}

impl From<MerkleTreeError> for Fault {
    ghost from_gives = { λ e fault. fault ≡ Tree e };

    fn from(error: MerkleTreeError) -> Fault {
        Fault::Tree(error)
    }
}

impl From<AllocError> for Fault {
    ghost from_gives = { λ _ fault. fault ≡ Tree OutOfMemory };

    fn from(_error: AllocError) -> Fault {
        Fault::Tree(MerkleTreeError::OutOfMemory)
    }
}

impl<T: Drop> From<AllocFailed<T>> for Fault {
    ghost from_gives = { λ _ fault. fault ≡ Tree OutOfMemory };

    fn from(_error: AllocFailed<T>) -> Fault {
        Fault::Tree(MerkleTreeError::OutOfMemory)
    }
}
