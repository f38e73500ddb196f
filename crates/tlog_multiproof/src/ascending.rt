//! The verifier of entries in ascending order. It holds no list: a digest and a counter for each layer are all that it
//! takes.
ghost use Rattle.std.specs.Prelude.{◌≡◌, ℕ, List, ◌+◌, ◌*◌, ◌^◌, ◌<◌, ◌≤◌, All, IfSome};
ghost use Rattle.std.specs.Prelude.{MatchResult, None, Some, [], ◌∷◌, length, slice_index, slice_index_or, zip, ◌≢◌};
ghost use Rattle.sha2.specs.Sha256.{sha256};
ghost use Rattle.p3_merkle_core.specs.Geometry.{levels};
ghost use Rattle.p3_merkle_core.specs.Pruning.{is_covered, value_of};
ghost use Rattle.tlog.specs.Verdicts.{size_limit};
ghost use Rattle.tlog_multiproof.specs.Ascending.{IsAscending};
ghost use Rattle.tlog_multiproof.specs.Entries.{entries_opening, entries_refusal, is_one_leaf_each, proof_nodes};
ghost use Rattle.tlog_multiproof.specs.Inner.Ascents.{AreSent, AreStarts, AreUsed, IsReached, StandsAt};
ghost use Rattle.tlog_multiproof.specs.Instance.{log_params, log_shape};
ghost use Rattle.tlog_multiproof.specs.declared.error.EntriesError.TheVariants.{RootMismatch};
ghost use Rattle.tlog_multiproof.specs.declared.tree.Node.TheVariants.{Hash};

use crate::error::EntriesError;
use crate::opening::is_node;
use crate::tree::{Node, dimensions_of, parent_of};
use p3_merkle_core::geometry::MAX_HEIGHT;
use p3_merkle_core::schedule::schedule_of;
use sha2::Sha256;
use tlog::LogHash;
use tlog_tree::NodeId;

/// Entries of a log, in ascending order of their indices. An index may be there more than once.
pub trait AscendingEntries {
    // The indices, counted from 0.
    ghost indices: { Self → List ℕ };

    // The leaf hashes.
    ghost leaves: { Self → List (List ℕ) };

    /// How many entries there are.
    fn len(&self) -> usize
        ensures { result ≡ length (indices self.now) };

    /// The index of entry `k`, counted from 0.
    fn index(&self, k: usize) -> usize
        requires { k < length (indices self.now) }
        ensures { result ≡ slice_index (indices self.now) k };

    /// The leaf hash of entry `k`.
    fn leaf(&self, k: usize) -> [u8; 32]
        requires { k < length (indices self.now) }
        ensures { result ≡ slice_index_or (leaves self.now) k [] };

    // There is a leaf hash for each index.
    ghost in_pairs: { (entries : Self) → length (leaves entries) ≡ length (indices entries) };

    // No index is below one before it.
    ghost ascending: { (entries : Self) → IsAscending (indices entries) };
}

/// The digests of a proof, and how many of them are of layers below each layer.
#[derive(Clone, Copy)]
struct Sent<'a> {
    digests: &'a [[u8; 32]],
    starts: &'a [usize; 64],
}

/// How far a walk has come.
#[derive(Drop)]
struct Cursor {
    /// How many entries are passed.
    next: usize,
    /// How many digests of each layer are.
    used: [usize; 64],
}

/// Checks entries as [`verify_entries`](crate::verify_entries) does, with the same errors in the same order, without
/// memory of its own: `OutOfMemory` never comes, nor does `LeafCountMismatch`. A leaf hash is taken once, or up to
/// three times where an index is there more than once.
///
/// # Errors
///
/// The first of these that applies:
///
/// - `SizeTooLarge` if the size is above 2^62;
/// - `NoIndices` if there are no entries;
/// - `IndexPastEnd` if an index is not below the size;
/// - `TooFewDigests` if the proof has fewer digests than a proof of these indices;
/// - `TooManyDigests` if it has more;
/// - `TwoLeafHashes` if an index is there twice with different leaf hashes;
/// - `RootMismatch` if the proof leads to another root.
pub fn verify_ascending<E: AscendingEntries>(
    size: usize,
    entries: &E,
    proof: &[[u8; 32]],
    root: &[u8; 32],
) -> Result<(), EntriesError>
    ensures { let refusal = entries_refusal sha256 size (E.indices entries.now) (E.leaves entries.now) proof.now
        root.now in MatchResult result (λ ok. refusal ≡ None) (λ e. refusal ≡ Some e) }
{
    verify::<Sha256, E>(size, entries, proof, root)
}

/// [`verify_ascending`] under any hash function whose values have 32 bytes.
fn verify<H: LogHash<32>, E: AscendingEntries>(
    size: usize,
    entries: &E,
    proof: &[[u8; 32]],
    root: &[u8; 32],
) -> Result<(), EntriesError>
    ensures { let refusal = entries_refusal H.hash size (E.indices entries.now) (E.leaves entries.now) proof.now
        root.now in MatchResult result (λ ok. refusal ≡ None) (λ e. refusal ≡ Some e) }
{
    if size > MAX_HEIGHT {
        return Err(EntriesError::SizeTooLarge);
    }
    let count = entries.len();
    if count == 0 {
        return Err(EntriesError::NoIndices);
    }
    if entries.index(count - 1) >= size {
        return Err(EntriesError::IndexPastEnd);
    }
    let top = levels_of(size);
    let (starts, expected) = starts_of(size, top, entries);
    if proof.len() < expected {
        return Err(EntriesError::TooFewDigests);
    }
    if proof.len() > expected {
        return Err(EntriesError::TooManyDigests);
    }
    if !is_one_leaf_each(entries) {
        return Err(EntriesError::TwoLeafHashes);
    }
    let sent = Sent {
        digests: proof,
        starts: &starts,
    };
    let mut cursor = start();
    let value = walk::<H, E>(size, entries, Some(sent), top, 0, &mut cursor);
    check_root(value, root)
}

/// Checks that `value`, that of the top node, is the hash `root`, else `RootMismatch`.
fn check_root(value: Node, root: &[u8; 32]) -> Result<(), EntriesError>
    ensures { MatchResult result (λ ok. value ≡ Hash root.now)
        (λ e. (e ≡ RootMismatch) × (value ≢ Hash root.now)) }
{
    if value == Node::Hash(*root) {
        Ok(())
    } else {
        Err(EntriesError::RootMismatch)
    }
}

/// The cursor ahead of all entries, before a digest is used.
fn start() -> Cursor
    ensures next { result.next ≡ 0 }
    ensures used { (m : ℕ) → slice_index result.used m ≡ 0 }
{
    Cursor {
        next: 0,
        used: [0; 64],
    }
}

/// How many layers a log of `size` entries has above the leaves.
fn levels_of(size: usize) -> usize
    requires { size ≤ size_limit }
    ensures levels { result ≡ levels (log_shape size) }
    ensures few { result ≤ 62 }
{
    schedule_of(&dimensions_of(size), 2).num_levels
}

/// For each layer below `top`, how many digests a proof of `entries` has of the layers below it; and how many digests
/// it has in all. `size` is that of the log, at most 2^62, and `top` how many layers it has above the leaves. There
/// must be an entry, and each index must be below `size`.
fn starts_of<E: AscendingEntries>(size: usize, top: usize, entries: &E) -> ([usize; 64], usize)
    requires limit { size ≤ size_limit }
    requires some { 0 < length (E.indices entries.now) }
    requires below { All (λ index. index < size) (E.indices entries.now) }
    requires top { top ≡ levels (log_shape size) }
    requires few { top ≤ 62 }
    ensures starts { AreStarts size (E.indices entries.now) result.0 }
    ensures count { result.1 ≡ length (proof_nodes size (E.indices entries.now)) }
{
    let mut cursor = start();
    walk::<Sha256, E>(size, entries, None, top, 0, &mut cursor);
    let mut starts = [0; 64];
    let mut total = 0;
    for layer in 0..top {
        starts[layer] = total;
        total += cursor.used[layer];
    }
    (starts, total)
}

/// Whether entries of one index have one leaf hash.
fn is_one_leaf_each<E: AscendingEntries>(entries: &E) -> bool
    ensures { result ≡ is_one_leaf_each (zip (E.indices entries.now) (E.leaves entries.now)) }
{
    for k in 1..entries.len() {
        if entries.index(k - 1) == entries.index(k) && entries.leaf(k - 1) != entries.leaf(k) {
            return false;
        }
    }
    true
}

/// The value of the node `slot` of layer `layer`: the next digest of the layer if no entry is under the node; else at
/// layer 0 the leaf hash of the entry, and above it the hash of the node's children. Without `sent` the value is
/// `Absent`, and the walk only counts the digests. The node must be above an entry, or one whose digest the proof has.
/// `cursor` must be at the first entry that is not left of the node, and is then past all entries under the node.
fn walk<H: LogHash<32>, E: AscendingEntries>(
    size: usize,
    entries: &E,
    sent: Option<Sent<'_>>,
    layer: usize,
    slot: usize,
    cursor: &mut Cursor,
) -> Node
    requires limit { size ≤ size_limit }
    requires below { All (λ index. index < size) (E.indices entries.now) }
    requires layer { layer < 64 }
    requires low { layer ≤ levels (log_shape size) }
    requires inside { slot * 2 ^ layer < size }
    requires reached { IsReached size (E.indices entries.now) layer slot }
    requires stands { StandsAt (E.indices entries.now) (slot * 2 ^ layer) cursor.old.next }
    requires used { AreUsed size (E.indices entries.now) layer slot cursor.old.used }
    requires sent { IfSome sent (λ sent. AreSent size (E.indices entries.now) sent.starts.now sent.digests.now) }
    ensures stands { StandsAt (E.indices entries.now) ((slot + 1) * 2 ^ layer) cursor.new.next }
    ensures used { AreUsed size (E.indices entries.now) layer (slot + 1) cursor.new.used }
    ensures above { (m : ℕ) → layer < m → slice_index cursor.new.used m ≡ slice_index cursor.old.used m }
    ensures value { IfSome sent.entry (λ sent. result ∷ [] ≡ value_of (log_params H.hash size)
        (entries_opening size (E.indices entries.now) (E.leaves entries.now) sent.digests.now) layer slot) }
{
    if !is_above_next(entries, cursor.next, layer, slot) {
        return take_digest(sent, layer, cursor);
    }
    if layer == 0 {
        return take_leaf(entries, sent, slot, cursor);
    }
    let (below, first) = (layer - 1, 2 * slot);
    let left = walk::<H, E>(size, entries, sent, below, first, cursor);
    if !is_node(
        size,
        NodeId {
            layer: below,
            slot: first + 1,
        },
    ) {
        return left;
    }
    let right = walk::<H, E>(size, entries, sent, below, first + 1, cursor);
    parent_of::<H>(left, right)
}

/// The next digest of layer `layer`, which `cursor` then counts as used; `Absent` without `sent`.
fn take_digest(sent: Option<Sent<'_>>, layer: usize, cursor: &mut Cursor) -> Node
    requires layer { layer < 64 }
    requires few { slice_index cursor.old.used layer < 2 ^ 63 }
    requires there { IfSome sent (λ sent.
        slice_index sent.starts.now layer + slice_index cursor.old.used layer < length sent.digests.now) }
    ensures next { cursor.new.next ≡ cursor.old.next }
    ensures used { slice_index cursor.new.used layer ≡ slice_index cursor.old.used layer + 1 }
    ensures others { (m : ℕ) → m ≢ layer → slice_index cursor.new.used m ≡ slice_index cursor.old.used m }
    ensures value { IfSome sent.entry (λ sent. result ≡ Hash (slice_index_or sent.digests.now
        (slice_index sent.starts.now layer + slice_index cursor.old.used layer) [])) }
{
    let used = cursor.used[layer];
    cursor.used[layer] = used + 1;
    match sent {
        Some(sent) => Node::Hash(sent.digests[sent.starts[layer] + used]),
        None => Node::Absent,
    }
}

/// The leaf hash of the next entry, whose index is `index`; `Absent` without `sent`. `cursor` is then past all entries
/// of that index.
fn take_leaf<E: AscendingEntries>(
    entries: &E,
    sent: Option<Sent<'_>>,
    index: usize,
    cursor: &mut Cursor,
) -> Node
    requires inside { cursor.old.next < length (E.indices entries.now) }
    requires stands { StandsAt (E.indices entries.now) index cursor.old.next }
    ensures stands { StandsAt (E.indices entries.now) (index + 1) cursor.new.next }
    ensures used { cursor.new.used ≡ cursor.old.used }
    ensures value { IfSome sent.entry
        (λ sent. result ≡ Hash (slice_index_or (E.leaves entries.now) cursor.old.next [])) }
{
    let next = cursor.next;
    cursor.next = past(entries, next, index);
    match sent {
        Some(_) => Node::Hash(entries.leaf(next)),
        None => Node::Absent,
    }
}

/// Whether there is an entry `next`, and it is under the node `slot` of layer `layer`.
fn is_above_next<E: AscendingEntries>(entries: &E, next: usize, layer: usize, slot: usize) -> bool
    requires { layer < 64 }
    ensures { (size : ℕ) → StandsAt (E.indices entries.now) (slot * 2 ^ layer) next →
        result ≡ is_covered (log_shape size) (E.indices entries.now) layer slot }
{
    next < entries.len() && entries.index(next) >> layer == slot
}

/// How many entries stand ahead of the first one, from entry `first` on, whose index is not `index`.
fn past<E: AscendingEntries>(entries: &E, first: usize, index: usize) -> usize
    requires { StandsAt (E.indices entries.now) index first }
    ensures { StandsAt (E.indices entries.now) (index + 1) result }
{
    for k in first..entries.len() {
        if entries.index(k) != index {
            return k;
        }
    }
    entries.len()
}
