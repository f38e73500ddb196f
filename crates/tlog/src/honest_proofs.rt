//! The root of entries, and honest proofs of inclusion and of consistency, computed from the entries.
ghost use Rattle.std.specs.Prelude.{◌≡◌, ◌<◌, ◌≤◌, true, IfOk, length};
ghost use Rattle.tlog.specs.Collisions.{entries_of};
ghost use Rattle.tlog.specs.Rfc9162.{path_of, proof_of, root_of, subproof_of, split as split_of};

use crate::hash::LogHash;
use std::alloc::{AllocError, Global};

/// The largest power of two below `n`, where RFC 9162 (2.1.1) splits a list of `n` entries. `n` must be above 1.
pub fn split(n: usize) -> usize
    requires { 1 < n }
    ensures value { result ≡ split_of n }
    ensures some { 0 < result }
    ensures below { result < n }
{
    1 << (n - 1).ilog2()
}

/// The root of entries (RFC 9162, 2.1.1); of no entries the hash of nothing.
pub fn root<H: LogHash<D>, const D: usize>(entries: &[Vec<u8>]) -> [u8; D]
    ensures { result ≡ root_of H.hash (entries_of entries.now) }
{
    match entries {
        [] => H::empty_root(),
        [entry] => H::leaf_hash(entry),
        entries => {
            let (left, right) = entries.split_at(split(entries.len()));
            H::node_hash(&root::<H, D>(left), &root::<H, D>(right))
        }
    }
}

/// The proof of inclusion of entry `index`, counted from 0, under the root of the entries (RFC 9162, 2.1.3.1). The
/// index must be below their number.
///
/// # Errors
///
/// `AllocError` if memory runs out.
pub fn inclusion_proof<H: LogHash<D>, const D: usize>(
    alloc: Global,
    entries: &[Vec<u8>],
    index: usize,
) -> Result<Vec<[u8; D]>, AllocError>
    requires { index < length entries.now }
    ensures { IfOk result (λ proof. proof.items ≡ path_of H.hash index (entries_of entries.now)) }
{
    if entries.len() == 1 {
        return Ok(Vec::new(alloc));
    }
    let middle = split(entries.len());
    let (left, right) = entries.split_at(middle);
    if index < middle {
        let mut proof = inclusion_proof::<H, D>(alloc, left, index)?;
        proof.push(root::<H, D>(right))?;
        Ok(proof)
    } else {
        let mut proof = inclusion_proof::<H, D>(alloc, right, index - middle)?;
        proof.push(root::<H, D>(left))?;
        Ok(proof)
    }
}

/// The proof of consistency from the first `old_size` entries to all (RFC 9162, 2.1.4.1). `old_size` must be at least 1
/// and at most their number. If it is their number, the proof has no digests.
///
/// # Errors
///
/// `AllocError` if memory runs out.
pub fn consistency_proof<H: LogHash<D>, const D: usize>(
    alloc: Global,
    entries: &[Vec<u8>],
    old_size: usize,
) -> Result<Vec<[u8; D]>, AllocError>
    requires some { 0 < old_size }
    requires within { old_size ≤ length entries.now }
    ensures { IfOk result (λ proof. proof.items ≡ proof_of H.hash old_size (entries_of entries.now)) }
{
    subproof::<H, D>(alloc, entries, old_size, true)
}

/// SUBPROOF of RFC 9162 (2.1.4.1): the digests by which the root of the entries, and that of the first `old_size`, can
/// be computed. `is_known`, the flag `b` there, says whether the verifier may know the root of the entries. `old_size`
/// must be at least 1 and at most their number. `AllocError` if memory runs out.
fn subproof<H: LogHash<D>, const D: usize>(
    alloc: Global,
    entries: &[Vec<u8>],
    old_size: usize,
    is_known: bool,
) -> Result<Vec<[u8; D]>, AllocError>
    requires some { 0 < old_size }
    requires within { old_size ≤ length entries.now }
    ensures { IfOk result (λ proof. proof.items ≡ subproof_of H.hash old_size (entries_of entries.now) is_known) }
{
    if old_size == entries.len() {
        let mut proof = Vec::new(alloc);
        if !is_known {
            proof.push(root::<H, D>(entries))?;
        }
        return Ok(proof);
    }
    let middle = split(entries.len());
    let (left, right) = entries.split_at(middle);
    if old_size <= middle {
        let mut proof = subproof::<H, D>(alloc, left, old_size, is_known)?;
        proof.push(root::<H, D>(right))?;
        Ok(proof)
    } else {
        let mut proof = subproof::<H, D>(alloc, right, old_size - middle, false)?;
        proof.push(root::<H, D>(left))?;
        Ok(proof)
    }
}
