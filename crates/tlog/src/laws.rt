//! Laws of the definitions, each as the contract of a function that does nothing.
ghost use Rattle.std.specs.Prelude.{◌≡◌, []};
ghost use Rattle.sha2.specs.Sha256.{sha256};
ghost use Rattle.tlog.specs.Laws.{HonestIsConsistent, HonestIsIncluded, PathIsAsWritten, RootIsAsWritten};
ghost use Rattle.tlog.specs.Laws.{SplitIsLargest, SubproofIsAsWritten};

use crate::hash::EMPTY_ROOT;

/// [`EMPTY_ROOT`] is SHA-256 of nothing.
pub fn empty_root()
    ensures { EMPTY_ROOT ≡ sha256 [] }
{}

/// Roots, paths and subproofs are those of the equations of RFC 9162 (2.1.1, 2.1.3.1, 2.1.4.1), for every hash function
/// and lists of any lengths.
pub fn as_written()
    ensures split { SplitIsLargest }
    ensures root { RootIsAsWritten }
    ensures path { PathIsAsWritten }
    ensures subproof { SubproofIsAsWritten }
{}

/// Honest proofs are accepted, for every hash function and sizes up to 2^62: the path of an entry under the root of all
/// (RFC 9162, 2.1.3.1), and the proof of consistency (2.1.4.1) from the root of the first entries to that of all, or no
/// digests if the first are none.
pub fn honest_proofs()
    ensures included { HonestIsIncluded }
    ensures consistent { HonestIsConsistent }
{}
