//! What an accepted proof of several entries shows of them, or else a collision of the hash function.
ghost use Rattle.std.specs.Prelude.{◌≡◌, ◌↔◌, ◌<◌, ◌≤◌, ℕ, [], IfOk, IfSome, IsNone, length, slice_index};
ghost use Rattle.std.specs.Prelude.{slice_index_or};
ghost use Rattle.tlog.specs.Collisions.{IsCollision, entries_of};
ghost use Rattle.tlog.specs.Fixed.{RootFixesLeaf};
ghost use Rattle.tlog.specs.Verdicts.{size_limit};
ghost use Rattle.tlog_multiproof.specs.Entries.{AreIncluded};
ghost use Rattle.tlog_multiproof.specs.Fixed.{RootFixesLeaves};
ghost use Rattle.tlog_multiproof.specs.Inner.Paths.{paths_of, siblings_of};
ghost use Rattle.tlog_multiproof.specs.Instance.{present as present_in};

use crate::error::EntriesError;
use crate::opening::opening_of;
use crate::tree::{LogTree, Node};
use p3_merkle_core::error::MerkleTreeError;
use p3_merkle_core::pruning::MerkleAuthPath;
use p3_merkle_verifier::openings::PrunedOpeningRef;
use std::alloc::{AllocError, Global};
use tlog::collision::Collision;
use tlog::honest_proofs::root;
use tlog::{LogHash, leaf_collision};

/// A collision, if one proof of several leaf hashes is accepted under the root of the entries, and one of them is not
/// that of the entry at its index, counted from 0; else `None`. The hash function may be any whose values have 32
/// bytes.
///
/// # Errors
///
/// `AllocError` if memory runs out.
pub fn entries_collision<H: LogHash<32>>(
    alloc: Global,
    entries: &[Vec<u8>],
    indices: &[usize],
    leaves: &[[u8; 32]],
    proof: &[[u8; 32]],
) -> Result<Option<Collision>, AllocError>
    ensures none { IfOk result (λ found. IsNone found
        ↔ RootFixesLeaves H.hash (entries_of entries.now) indices.now leaves.now proof.now) }
    ensures collision { IfOk result (λ found. IfSome found (IsCollision H.hash)) }
{
    let root = root::<H, 32>(entries);
    let accepted = accepted_paths::<H>(alloc, entries.len(), indices, leaves, proof, &root)?;
    let Some(paths) = accepted else {
        return Ok(None);
    };
    path_collision::<H>(alloc, entries, indices, leaves, &paths)
}

/// The path of each of `leaves`, as `leaves` and `proof` give it, if they are accepted under `root` as the leaf hashes
/// at `indices`, counted from 0, of a log of `size` entries; else `None`. `AllocError` if memory runs out.
fn accepted_paths<H: LogHash<32>>(
    alloc: Global,
    size: usize,
    indices: &[usize],
    leaves: &[[u8; 32]],
    proof: &[[u8; 32]],
    root: &[u8; 32],
) -> Result<Option<Vec<MerkleAuthPath<Node, 1>>>, AllocError>
    ensures refused { IfOk result (λ found. IsNone found → size ≤ size_limit →
        AreIncluded H.hash size indices.now leaves.now proof.now root.now → ⊥) }
    ensures accepted { IfOk result (λ found. IfSome found (λ paths. (size ≤ size_limit)
        × AreIncluded H.hash size indices.now leaves.now proof.now root.now
        × (siblings_of paths.items ≡ paths_of H.hash size indices.now leaves.now proof.now))) }
{
    let opening = match opening_of(alloc, size, indices, leaves, proof) {
        Ok(opening) => opening,
        Err(EntriesError::OutOfMemory) => return Err(AllocError),
        Err(_) => return Ok(None),
    };
    let tree = LogTree::<H>::new(size);
    let checker = tree.checker();
    let opening = PrunedOpeningRef::new(indices, &opening.opened_values, &opening.pruned_proof);
    let paths = match checker.restored_paths(alloc, opening) {
        Ok(paths) => paths,
        Err(MerkleTreeError::OutOfMemory) => return Err(AllocError),
        Err(_) => return Ok(None),
    };
    match checker.check_pruned_opening(alloc, &[[Node::Hash(*root)]], opening) {
        Ok(()) => Ok(Some(paths)),
        Err(MerkleTreeError::OutOfMemory) => Err(AllocError),
        Err(_) => Ok(None),
    }
}

/// A collision, if one of `leaves` is accepted with its path under the root of `entries`, and is not the leaf hash of
/// the entry at its index, counted from 0; else `None`. `indices` and `paths` have the index and the path of each of
/// `leaves`. `AllocError` if memory runs out.
fn path_collision<H: LogHash<32>>(
    alloc: Global,
    entries: &[Vec<u8>],
    indices: &[usize],
    leaves: &[[u8; 32]],
    paths: &[MerkleAuthPath<Node, 1>],
) -> Result<Option<Collision>, AllocError>
    requires leaves { length leaves.now ≡ length indices.now }
    requires paths { length paths.now ≡ length indices.now }
    ensures none { IfOk result (λ found. IsNone found ↔ ((k : ℕ) → k < length indices.now →
        RootFixesLeaf H.hash (entries_of entries.now) (slice_index indices.now k) (slice_index_or leaves.now k [])
        (present_in (slice_index_or (siblings_of paths.now) k [])))) }
    ensures collision { IfOk result (λ found. IfSome found (IsCollision H.hash)) }
{
    for k in 0..indices.len() {
        let path = present(alloc, &paths[k].siblings)?;
        let found = leaf_collision::<H, 32>(alloc, entries, indices[k], &leaves[k], &path)?;
        if found.is_some() {
            return Ok(found);
        }
    }
    Ok(None)
}

/// The hashes among `digests`, in order, without those that are absent. `AllocError` if memory runs out.
fn present(alloc: Global, digests: &[[Node; 1]]) -> Result<Vec<[u8; 32]>, AllocError>
    ensures { IfOk result (λ hashes. hashes.items ≡ present_in digests.now) }
{
    let mut hashes = Vec::new(alloc);
    for digest in digests {
        if let Node::Hash(hash) = digest[0] {
            hashes.push(hash)?;
        }
    }
    Ok(hashes)
}
