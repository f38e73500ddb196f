//! What accepted proofs fix, under one root or under that of entries, or else a collision of the hash function.
ghost use Rattle.std.specs.Prelude.{◌↔◌, IfOk, IfSome, IsNone};
ghost use Rattle.tlog.specs.Collisions.{IsCollision, entries_of};
ghost use Rattle.tlog.specs.Inner.Nodes.{HashFixesChildren};
ghost use Rattle.tlog.specs.Fixed.{NewRootFixesProof, RootFixesEntry, RootFixesLeaf, RootFixesProof, RootsFixPrefix};

use crate::collision::{Collision, leaf_input, node_input, root_collision};
use crate::consistency::{self, Climb};
use crate::hash::LogHash;
use crate::honest_proofs::{consistency_proof, inclusion_proof, root};
use crate::inclusion::{sibling_is_left, verify};
use std::alloc::{AllocError, Global};

/// A collision, if two nodes with different children have one hash; else `None`. `AllocError` if memory runs out.
pub(crate) fn node_collision<H: LogHash<D>, const D: usize>(
    alloc: Global,
    left: &[u8; D],
    right: &[u8; D],
    other_left: &[u8; D],
    other_right: &[u8; D],
) -> Result<Option<Collision>, AllocError>
    ensures none { IfOk result (λ found. IsNone found
        ↔ HashFixesChildren H.hash left.now right.now other_left.now other_right.now) }
    ensures collision { IfOk result (λ found. IfSome found (IsCollision H.hash)) }
{
    if left == other_left && right == other_right {
        return Ok(None);
    }
    if H::node_hash(left, right) != H::node_hash(other_left, other_right) {
        return Ok(None);
    }
    let first = node_input(alloc, left, right)?;
    let second = node_input(alloc, other_left, other_right)?;
    Ok(Some(Collision { first, second }))
}

/// A collision, if two proofs of inclusion of one index, size and root are accepted, and their leaf hashes or their
/// digests differ; else `None`.
///
/// # Errors
///
/// `AllocError` if memory runs out.
pub fn proof_collision<H: LogHash<D>, const D: usize>(
    alloc: Global,
    index: usize,
    size: usize,
    leaf: &[u8; D],
    proof: &[[u8; D]],
    other_leaf: &[u8; D],
    other_proof: &[[u8; D]],
    root: &[u8; D],
) -> Result<Option<Collision>, AllocError>
    ensures none { IfOk result (λ found. IsNone found
        ↔ RootFixesProof H.hash index size leaf.now proof.now other_leaf.now other_proof.now root.now) }
    ensures collision { IfOk result (λ found. IfSome found (IsCollision H.hash)) }
{
    if verify::<H, D>(index, size, leaf, proof, root).is_err() {
        return Ok(None);
    }
    if verify::<H, D>(index, size, other_leaf, other_proof, root).is_err() {
        return Ok(None);
    }
    let mut node = index;
    let mut last = size - 1;
    let mut value = *leaf;
    let mut other = *other_leaf;
    for i in 0..proof.len() {
        let (mut left, mut right) = (value, proof[i]);
        let (mut other_left, mut other_right) = (other, other_proof[i]);
        if sibling_is_left(node, last) {
            let zeros = node.trailing_zeros();
            node >>= zeros;
            last >>= zeros;
            (left, right) = (right, left);
            (other_left, other_right) = (other_right, other_left);
        }
        if let Some(found) = node_collision::<H, D>(
            alloc,
            &left,
            &right,
            &other_left,
            &other_right,
        )? {
            return Ok(Some(found));
        }
        node >>= 1;
        last >>= 1;
        value = H::node_hash(&left, &right);
        other = H::node_hash(&other_left, &other_right);
    }
    Ok(None)
}

/// A collision, if two proofs of consistency between the same sizes are accepted to one new root, and their old roots
/// or their digests differ; else `None`.
///
/// # Errors
///
/// `AllocError` if memory runs out.
pub fn consistency_collision<H: LogHash<D>, const D: usize>(
    alloc: Global,
    old_size: usize,
    new_size: usize,
    old_root: &[u8; D],
    proof: &[[u8; D]],
    other_root: &[u8; D],
    other_proof: &[[u8; D]],
    new_root: &[u8; D],
) -> Result<Option<Collision>, AllocError>
    ensures none { IfOk result (λ found. IsNone found ↔ NewRootFixesProof H.hash old_size new_size
        old_root.now proof.now other_root.now other_proof.now new_root.now) }
    ensures collision { IfOk result (λ found. IfSome found (IsCollision H.hash)) }
{
    if consistency::verify::<H, D>(old_size, new_size, proof, old_root, new_root).is_err() {
        return Ok(None);
    }
    if consistency::verify::<H, D>(old_size, new_size, other_proof, other_root, new_root).is_err() {
        return Ok(None);
    }
    if old_size == 0 {
        return Ok(None);
    }
    let Some(climb) = Climb::of_proof(old_size, proof, old_root) else {
        return Ok(None);
    };
    let Some(other) = Climb::of_proof(old_size, other_proof, other_root) else {
        return Ok(None);
    };
    // Both lead from one node to the new root, as proofs of inclusion of it.
    proof_collision::<H, D>(
        alloc,
        climb.node,
        ((new_size - 1) >> climb.layer) + 1,
        climb.value,
        climb.digests,
        other.value,
        other.digests,
        new_root,
    )
}

/// A collision, if a proof of inclusion of `leaf` at `index`, counted from 0, is accepted under the root of the
/// entries, and the entry there has another leaf hash; else `None`.
///
/// # Errors
///
/// `AllocError` if memory runs out.
pub fn leaf_collision<H: LogHash<D>, const D: usize>(
    alloc: Global,
    entries: &[Vec<u8>],
    index: usize,
    leaf: &[u8; D],
    proof: &[[u8; D]],
) -> Result<Option<Collision>, AllocError>
    ensures none { IfOk result (λ found. IsNone found
        ↔ RootFixesLeaf H.hash (entries_of entries.now) index leaf.now proof.now) }
    ensures collision { IfOk result (λ found. IfSome found (IsCollision H.hash)) }
{
    if index >= entries.len() {
        return Ok(None);
    }
    let expected = H::leaf_hash(&entries[index]);
    if *leaf == expected {
        return Ok(None);
    }
    let honest = inclusion_proof::<H, D>(alloc, entries, index)?;
    let own_root = root::<H, D>(entries);
    proof_collision::<H, D>(
        alloc,
        index,
        entries.len(),
        leaf,
        proof,
        &expected,
        &honest,
        &own_root,
    )
}

/// A collision, if a proof of inclusion of `entry` at `index`, counted from 0, is accepted under the root of the
/// entries, and these have another entry there; else `None`.
///
/// # Errors
///
/// `AllocError` if memory runs out.
pub fn entry_collision<H: LogHash<D>, const D: usize>(
    alloc: Global,
    entries: &[Vec<u8>],
    index: usize,
    entry: &[u8],
    proof: &[[u8; D]],
) -> Result<Option<Collision>, AllocError>
    ensures none { IfOk result (λ found. IsNone found
        ↔ RootFixesEntry H.hash (entries_of entries.now) index entry.now proof.now) }
    ensures collision { IfOk result (λ found. IfSome found (IsCollision H.hash)) }
{
    let leaf = H::leaf_hash(entry);
    if verify::<H, D>(index, entries.len(), &leaf, proof, &root::<H, D>(entries)).is_err() {
        return Ok(None);
    }
    let expected = &entries[index];
    if entry == expected.as_slice() {
        return Ok(None);
    }
    if leaf != H::leaf_hash(expected) {
        return leaf_collision::<H, D>(alloc, entries, index, &leaf, proof);
    }
    let first = leaf_input(alloc, entry)?;
    let second = leaf_input(alloc, expected)?;
    Ok(Some(Collision { first, second }))
}

/// A collision, if a proof of consistency is accepted between the roots of two lists of entries, and the new list does
/// not begin with the old one; else `None`.
///
/// # Errors
///
/// `AllocError` if memory runs out.
pub fn prefix_collision<H: LogHash<D>, const D: usize>(
    alloc: Global,
    old: &[Vec<u8>],
    new: &[Vec<u8>],
    proof: &[[u8; D]],
) -> Result<Option<Collision>, AllocError>
    ensures none { IfOk result (λ found. IsNone found
        ↔ RootsFixPrefix H.hash (entries_of old.now) (entries_of new.now) proof.now) }
    ensures collision { IfOk result (λ found. IfSome found (IsCollision H.hash)) }
{
    let old_root = root::<H, D>(old);
    let new_root = root::<H, D>(new);
    if consistency::verify::<H, D>(old.len(), new.len(), proof, &old_root, &new_root).is_err() {
        return Ok(None);
    }
    // The proof is accepted, so the old list is not the longer one.
    let (prefix, _) = new.split_at(old.len());
    let prefix_root = root::<H, D>(prefix);
    if old_root == prefix_root {
        return root_collision::<H, D>(alloc, old, prefix);
    }
    let honest = consistency_proof::<H, D>(alloc, new, old.len())?;
    consistency_collision::<H, D>(
        alloc,
        old.len(),
        new.len(),
        &old_root,
        proof,
        &prefix_root,
        &honest,
        &new_root,
    )
}
