//! The verifier of several entries by one proof.
ghost use Rattle.std.specs.{Prelude.◌≡◌, Prelude.◌≤◌, Prelude.length, Prelude.IfSome, Prelude.IsOk};
ghost use Rattle.std.specs.Prelude.{None, Some};
ghost use Rattle.std.specs.Result.{result_err};
ghost use Rattle.sha2.specs.Sha256.{sha256};
ghost use Rattle.p3_answers.specs.Answers.{AnswersUnless};
ghost use Rattle.tlog.specs.Verdicts.{size_limit};
ghost use Rattle.tlog_multiproof.specs.Entries.{AreIncluded, entries_refusal, indices_refusal};
ghost use Rattle.tlog_multiproof.specs.Inner.Meanings.{IsMeaning};
ghost use Rattle.tlog_multiproof.specs.declared.error.EntriesError.TheVariants.{OutOfMemory};

use crate::error::EntriesError;
use crate::opening::opening_of;
use crate::tree::{LogTree, Node};
use p3_merkle_core::error::MerkleTreeError;
use p3_merkle_verifier::openings::PrunedOpeningRef;
use sha2::Sha256;
use std::alloc::Global;
use tlog::LogHash;

/// Checks that one proof shows that the log of `size` entries under `root` has these leaf hashes as those of the
/// entries at these indices, counted from 0: one for each index, in their order. The indices may be in any order, with
/// repeats.
///
/// The proof has a digest for each node that is no entry of the indices, nor above one, and whose sibling is: layer by
/// layer from the leaves, each from left to right. A node that has no sibling is passed on. For one index these are the
/// digests of its proof of inclusion (RFC 9162, 2.1.3.1). With these digests, no more and no fewer, and equal leaf
/// hashes for a repeated index, the proof is accepted exactly if the standard's verifier (RFC 9162, 2.1.3.2) accepts
/// each leaf hash with the proof of inclusion that the leaf hashes and the digests give for it. It allocates a few
/// lists of the indices, and a row for each.
///
/// # Errors
///
/// The first of these that applies, where `OutOfMemory` may come in place of any from `TooFewDigests` on, and of `Ok`:
///
/// - `SizeTooLarge` if the size is above 2^62;
/// - `NoIndices` if there are no indices;
/// - `LeafCountMismatch` if the number of leaf hashes is not that of the indices;
/// - `IndexPastEnd` if an index is not below the size;
/// - `TooFewDigests` if the proof has fewer digests than a proof of these indices;
/// - `TooManyDigests` if it has more;
/// - `TwoLeafHashes` if an index is there twice with different leaf hashes;
/// - `RootMismatch` if the proof leads to another root.
pub fn verify_entries(
    alloc: Global,
    size: usize,
    indices: &[usize],
    leaves: &[[u8; 32]],
    proof: &[[u8; 32]],
    root: &[u8; 32],
) -> Result<(), EntriesError>
    ensures accepted { IsOk result
        → (size ≤ size_limit) × AreIncluded sha256 size indices.now leaves.now proof.now root.now }
    ensures complete { size ≤ size_limit → AreIncluded sha256 size indices.now leaves.now proof.now root.now
        → AnswersUnless (λ e. e ≡ OutOfMemory) result None }
    ensures checked { IfSome (indices_refusal size indices.now (length leaves.now))
        (λ e. result_err result ≡ Some e) }
    ensures refused { AnswersUnless (λ e. e ≡ OutOfMemory) result
        (entries_refusal sha256 size indices.now leaves.now proof.now root.now) }
{
    verify::<Sha256>(alloc, size, indices, leaves, proof, root)
}

/// [`verify_entries`] under any hash function whose values have 32 bytes, with the same errors in the same order.
pub(crate) fn verify<H: LogHash<32>>(
    alloc: Global,
    size: usize,
    indices: &[usize],
    leaves: &[[u8; 32]],
    proof: &[[u8; 32]],
    root: &[u8; 32],
) -> Result<(), EntriesError>
    ensures accepted { IsOk result
        → (size ≤ size_limit) × AreIncluded H.hash size indices.now leaves.now proof.now root.now }
    ensures complete { size ≤ size_limit → AreIncluded H.hash size indices.now leaves.now proof.now root.now
        → AnswersUnless (λ e. e ≡ OutOfMemory) result None }
    ensures checked { IfSome (indices_refusal size indices.now (length leaves.now))
        (λ e. result_err result ≡ Some e) }
    ensures refused { AnswersUnless (λ e. e ≡ OutOfMemory) result
        (entries_refusal H.hash size indices.now leaves.now proof.now root.now) }
{
    let opening = opening_of(alloc, size, indices, leaves, proof)?;
    let tree = LogTree::<H>::new(size);
    from_opening_verdict(
        tree.checker().check_pruned_opening(
            alloc,
            &[[Node::Hash(*root)]],
            PrunedOpeningRef::new(indices, &opening.opened_values, &opening.pruned_proof),
        ),
    )
}

/// The verdict on entries whose form is right, where `verdict` is that on their opening: `RootMismatch` for
/// `CapMismatch`, and `TwoLeafHashes` for any other error but `OutOfMemory`.
fn from_opening_verdict(verdict: Result<(), MerkleTreeError>) -> Result<(), EntriesError>
    ensures { IsMeaning verdict result }
{
    match verdict {
        Ok(()) => Ok(()),
        Err(MerkleTreeError::OutOfMemory) => Err(EntriesError::OutOfMemory),
        Err(MerkleTreeError::CapMismatch) => Err(EntriesError::RootMismatch),
        // The form is right, so it is `InconsistentDuplicateOpenings`: one index has two leaf hashes.
        Err(_) => Err(EntriesError::TwoLeafHashes),
    }
}
