//! The verifiers of logs (RFC 9162) and of openings of matrices, and logs that grow, as a library for C, on plain
//! bytes: `include/fohlazu.h` declares its calls. They keep nothing. Of those of logs only the one that hashes many
//! entries takes memory.
#![tactic(auto)]

pub mod growing;
pub mod opening;
pub mod setting;
pub mod statuses;

ghost use Rattle.std.specs.Prelude.{◌≡◌, ◌↔◌, ◌≤◌, pos};
ghost use Rattle.std.specs.Result.{result_err};
ghost use Rattle.sha2.specs.Sha256.{sha256};
ghost use Rattle.fohlazu_c.specs.Statuses.{status_of};
ghost use Rattle.tlog.specs.Rfc9162.{leaf_hash as leaf_hash_by};
ghost use Rattle.tlog.specs.Verdicts.{IsConsistent, IsIncluded, consistency_refusal, inclusion_refusal, size_limit};

use tlog::{ProofError, leaf_hash, verify_consistency, verify_inclusion};

/// Verifies that the log of `size` entries under `root` has `leaf` as the leaf hash of its entry `index`, counted from
/// 0 (RFC 9162, 2.1.3.2). It returns 0 if the proof is accepted, else the number of the first reason that applies in
/// the order of [`verify_inclusion`]: the place of its variant in [`ProofError`], counted from 1.
#[unsafe(no_mangle)]
pub extern "C" fn fohlazu_verify_inclusion(
    index: u64,
    size: u64,
    leaf: &[u8; 32],
    proof: &[[u8; 32]],
    root: &[u8; 32],
) -> i32
    ensures accepted { (result ≡ pos 0)
        ↔ ((size ≤ size_limit) × IsIncluded sha256 index size leaf.now proof.now root.now) }
    ensures status { result ≡ status_of (inclusion_refusal sha256 index size leaf.now proof.now root.now) }
{
    status(verify_inclusion(index as usize, size as usize, leaf, proof, root))
}

/// Verifies that a log of `new_size` entries under `new_root` begins with the `old_size` entries under `old_root` (RFC
/// 9162, 2.1.4.2). It returns 0 if the proof is accepted, else the number of the first reason that applies in the order
/// of [`verify_consistency`]: the place of its variant in [`ProofError`], counted from 1.
#[unsafe(no_mangle)]
pub extern "C" fn fohlazu_verify_consistency(
    old_size: u64,
    new_size: u64,
    proof: &[[u8; 32]],
    old_root: &[u8; 32],
    new_root: &[u8; 32],
) -> i32
    ensures accepted { (result ≡ pos 0)
        ↔ ((new_size ≤ size_limit) × IsConsistent sha256 old_size new_size proof.now old_root.now new_root.now) }
    ensures status { result
        ≡ status_of (consistency_refusal sha256 old_size new_size proof.now old_root.now new_root.now) }
{
    status(verify_consistency(
        old_size as usize,
        new_size as usize,
        proof,
        old_root,
        new_root,
    ))
}

/// Writes the leaf hash of an entry to `leaf`: SHA-256 of a byte 0 and the entry (RFC 9162, 2.1.1).
#[unsafe(no_mangle)]
pub extern "C" fn fohlazu_leaf_hash(entry: &[u8], leaf: &mut [u8; 32])
    ensures { leaf.new ≡ leaf_hash_by sha256 entry.now }
{
    *leaf = leaf_hash(entry);
}

/// The status of a verdict: 0 for Ok, else the place of the error's variant in [`ProofError`], counted from 1.
fn status(verdict: Result<(), ProofError>) -> i32
    ensures { result ≡ status_of (result_err verdict) }
{
    match verdict {
        Ok(()) => 0,
        Err(ProofError::SizeTooLarge) => 1,
        Err(ProofError::IndexPastEnd) => 2,
        Err(ProofError::SmallerNewSize) => 3,
        Err(ProofError::TooFewDigests) => 4,
        Err(ProofError::TooManyDigests) => 5,
        Err(ProofError::OldRootMismatch) => 6,
        Err(ProofError::RootMismatch) => 7,
    }
}
