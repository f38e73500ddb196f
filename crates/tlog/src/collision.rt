//! The byte strings that a log hashes, and what two lists of entries with one root show of the hash function.
ghost use Rattle.std.specs.Prelude.{◌≡◌, ◌≤◌, ◌++◌, ◌∷◌, ◌↔◌, IsTrue, IfOk, IfSome, IsNone};
ghost use Rattle.tlog.specs.Collisions.{IsCollision, RootsFixEntries, entries_of};
ghost use Rattle.tlog.specs.Inner.Inputs.{root_input as root_input_of};

use crate::hash::LogHash;
use crate::honest_proofs::{root, split};
use std::alloc::{AllocError, Global};

/// Two different byte strings with one hash.
#[derive(Debug, Drop)]
pub struct Collision {
    /// The first.
    pub first: Vec<u8>,
    /// The second.
    pub second: Vec<u8>,
}

/// Whether two lists of entries are equal, entry by entry.
fn are_equal(entries: &[Vec<u8>], other_entries: &[Vec<u8>]) -> bool
    ensures { IsTrue result ↔ (entries_of entries.now ≡ entries_of other_entries.now) }
{
    entries == other_entries
}

/// The byte string whose hash is the leaf hash of an entry: a byte 0 and the entry (RFC 9162, 2.1.1).
///
/// # Errors
///
/// `AllocError` if memory runs out.
pub fn leaf_input(alloc: Global, entry: &[u8]) -> Result<Vec<u8>, AllocError>
    ensures { IfOk result (λ input. input.items ≡ 0 ∷ entry.now) }
{
    let mut input = Vec::from_slice(alloc, &[0])?;
    input.extend_from_slice(entry)?;
    Ok(input)
}

/// The byte string whose hash is that of a node: a byte 1 and the hashes of its children (RFC 9162, 2.1.1). `D` must be
/// at most 64.
///
/// # Errors
///
/// `AllocError` if memory runs out.
pub fn node_input<const D: usize>(
    alloc: Global,
    left: &[u8; D],
    right: &[u8; D],
) -> Result<Vec<u8>, AllocError>
    requires { D ≤ 64 }
    ensures { IfOk result (λ input. input.items ≡ 1 ∷ (left.now ++ right.now)) }
{
    let mut input = Vec::from_slice(alloc, &[1])?;
    input.extend_from_slice(left)?;
    input.extend_from_slice(right)?;
    Ok(input)
}

/// The byte string whose hash is the root of entries: nothing, the input of a leaf, or that of a node. `AllocError` if
/// memory runs out.
fn root_input<H: LogHash<D>, const D: usize>(
    alloc: Global,
    entries: &[Vec<u8>],
) -> Result<Vec<u8>, AllocError>
    ensures { IfOk result (λ input. input.items ≡ root_input_of H.hash (entries_of entries.now)) }
{
    match entries {
        [] => Ok(Vec::new(alloc)),
        [entry] => leaf_input(alloc, entry),
        entries => {
            let (left, right) = entries.split_at(split(entries.len()));
            node_input(alloc, &root::<H, D>(left), &root::<H, D>(right))
        }
    }
}

/// A collision, if two different lists of entries, of any lengths, have one root; else `None`.
///
/// # Errors
///
/// `AllocError` if memory runs out.
pub fn root_collision<H: LogHash<D>, const D: usize>(
    alloc: Global,
    entries: &[Vec<u8>],
    other_entries: &[Vec<u8>],
) -> Result<Option<Collision>, AllocError>
    ensures none { IfOk result (λ found. IsNone found
        ↔ RootsFixEntries H.hash (entries_of entries.now) (entries_of other_entries.now)) }
    ensures collision { IfOk result (λ found. IfSome found (IsCollision H.hash)) }
{
    if are_equal(entries, other_entries) || root::<H, D>(entries) != root::<H, D>(other_entries) {
        return Ok(None);
    }
    // Both parts are different lists of entries with one root.
    let mut part = entries;
    let mut other_part = other_entries;
    loop {
        let first = root_input::<H, D>(alloc, part)?;
        let second = root_input::<H, D>(alloc, other_part)?;
        if first != second {
            return Ok(Some(Collision { first, second }));
        }
        let (left, right) = part.split_at(split(part.len()));
        let (other_left, other_right) = other_part.split_at(split(other_part.len()));
        if are_equal(left, other_left) {
            part = right;
            other_part = other_right;
        } else {
            part = left;
            other_part = other_left;
        }
    }
}
