//! The calls about logs that grow.

ghost use Rattle.std.specs.Prelude.{◌≡◌, ◌≢◌, ◌⊎◌, ◌≤◌, ◌+◌, ◌==◌, ℕ, pos, List, [], ◌∷◌, ◌++◌, IfOk, if◌then◌else◌};
ghost use Rattle.std.specs.Prelude.{count_ones, length, map, nat_lt, sum, take};
ghost use Rattle.sha2.specs.Sha256.{sha256};
ghost use Rattle.tlog.specs.Rfc9162.{leaf_hash};
ghost use Rattle.tlog.specs.Verdicts.{size_limit};
ghost use Rattle.tlog_tree.specs.Inner.Layers.{joined};
ghost use Rattle.tlog_tree.specs.Trees.{leaves_root, whole_nodes};
ghost use Rattle.fohlazu_c.specs.Growing.{IsFrontier, cut_entries, leaves_status};

use crate::statuses::{OK, OUT_OF_MEMORY, SIZE_TOO_LARGE, WRONG_COUNT, WRONG_LENGTHS};
use std::alloc::{AllocError, Global};
use tlog::{EMPTY_ROOT, SIZE_LIMIT, node_hash};
use tlog_tree::leaf_hashes;

/// The tree of a log that only grows, in the caller's memory. All zeros are that of no entries.
#[repr(C)]
#[derive(Clone, Copy)]
pub struct Frontier {
    /// How many entries the log has.
    pub size: u64,
    /// First its whole nodes, the roots of the largest perfect subtrees from left to right: as many as ones in the
    /// size's binary digits. Nothing reads what is behind them.
    pub digests: [[u8; 32]; 62],
}

/// Writes the leaf hashes of entries to `leaves`, in their order (RFC 9162, 2.1.1). `bytes` has the entries one after
/// another, and `lengths` the length of each, in bytes. Entries of equal lengths are hashed eight at a time.
///
/// It returns 0, or the number of the first reason that applies, and then writes nothing:
///
/// - 13: `leaves` has more or fewer places than `lengths` has lengths;
/// - 14: the lengths add up to more or fewer bytes than there are;
/// - 12: memory ran out.
#[unsafe(no_mangle)]
pub extern "C" fn fohlazu_leaf_hashes(
    alloc: Global,
    bytes: &[u8],
    lengths: &[usize],
    leaves: &mut [[u8; 32]],
) -> i32
    ensures hashed { result ≡ pos 0 → leaves.new ≡ map (leaf_hash sha256) (cut_entries lengths.now bytes.now) }
    ensures unchanged { result ≢ pos 0 → leaves.new ≡ leaves.old }
    ensures status { let status = leaves_status lengths.now (length bytes.now) (length leaves.old) in
        (result ≡ status) ⊎ ((status ≡ pos 0) × (result ≡ pos 12)) }
{
    if leaves.len() != lengths.len() {
        return WRONG_COUNT;
    }
    if !add_up(lengths, bytes.len()) {
        return WRONG_LENGTHS;
    }
    match hashes_of(alloc, bytes, lengths) {
        Ok(hashes) => {
            leaves.copy_from_slice(&hashes);
            OK
        }
        Err(_) => OUT_OF_MEMORY,
    }
}

/// Whether `lengths` add up to `total`.
fn add_up(lengths: &[usize], total: usize) -> bool
    ensures { result ≡ (sum lengths.now == total) }
{
    let mut left = total;
    for length in lengths {
        match left.checked_sub(*length) {
            Some(rest) => left = rest,
            None => return false,
        }
    }
    left == 0
}

/// The leaf hashes of the entries that `bytes` is cut into. The lengths must add up to that of `bytes`. `AllocError` if
/// memory runs out.
fn hashes_of(alloc: Global, bytes: &[u8], lengths: &[usize]) -> Result<Vec<[u8; 32]>, AllocError>
    requires { sum lengths.now ≡ length bytes.now }
    ensures { IfOk result (λ hashes. hashes.items ≡ map (leaf_hash sha256) (cut_entries lengths.now bytes.now)) }
{
    let entries = entries_of(alloc, bytes, lengths)?;
    leaf_hashes(alloc, &entries)
}

/// The entries that `bytes` is cut into. The lengths must add up to that of `bytes`. `AllocError` if memory runs out.
fn entries_of<'a>(
    alloc: Global,
    bytes: &'a [u8],
    lengths: &[usize],
) -> Result<Vec<&'a [u8]>, AllocError>
    requires { sum lengths.now ≡ length bytes.now }
    ensures { IfOk result (λ entries. map (λ entry. entry.now) entries.items ≡ cut_entries lengths.now bytes.now) }
{
    let mut entries = Vec::with_capacity(alloc, lengths.len())?;
    let mut rest = bytes;
    for length in lengths {
        let (entry, behind) = rest.split_at(*length);
        entries.push(entry)?;
        rest = behind;
    }
    Ok(entries)
}

/// Appends an entry, by its leaf hash, to the log of `frontier`. It takes no memory.
///
/// It returns 0; or 1 if the log has 2^62 entries or more, and then the frontier is as it was.
#[unsafe(no_mangle)]
pub extern "C" fn fohlazu_log_push(frontier: &mut Frontier, leaf: &[u8; 32]) -> i32
    ensures grown { (leaves : List (List ℕ)) → IsFrontier leaves frontier.old → result ≡ pos 0 →
        IsFrontier (leaves ++ leaf.now ∷ []) frontier.new }
    ensures first { frontier.old.size ≡ 0 → IsFrontier (leaf.now ∷ []) frontier.new }
    ensures status { result ≡ (if nat_lt frontier.old.size size_limit then pos 0 else pos 1) }
    ensures unchanged { result ≢ pos 0 → frontier.new ≡ frontier.old }
{
    let size = frontier.size as usize;
    if size >= SIZE_LIMIT {
        return SIZE_TOO_LARGE;
    }
    put(&mut frontier.digests, size, leaf);
    frontier.size += 1;
    OK
}

/// Puts `node` after the `size` nodes of a layer whose whole nodes stand first in `digests`. There must be room for
/// these, and for those of one node more.
fn put(digests: &mut [[u8; 32]], size: usize, node: &[u8; 32])
    requires before { count_ones size ≤ length digests.old }
    requires after { count_ones (size + 1) ≤ length digests.old }
    ensures whole { (layer : List (List ℕ)) → length layer ≡ size →
        take (count_ones size) digests.old ≡ whole_nodes sha256 layer →
        take (count_ones (size + 1)) digests.new ≡ whole_nodes sha256 (layer ++ node.now ∷ []) }
    ensures len { length digests.new ≡ length digests.old }
{
    let count = size.count_ones() as usize;
    if size % 2 == 0 {
        digests[count] = *node;
        return;
    }
    // The last node of the layer has no sibling yet.
    let parent = node_hash(&digests[count - 1], node);
    put(digests, size / 2, &parent);
}

/// Writes the root of the log of `frontier` to `root`: MTH of RFC 9162, 2.1.1. It takes no memory.
///
/// It returns 0; or 1 if the size is above 2^62, and then writes nothing.
#[unsafe(no_mangle)]
pub extern "C" fn fohlazu_log_root(frontier: &Frontier, root: &mut [u8; 32]) -> i32
    ensures root { (leaves : List (List ℕ)) → IsFrontier leaves frontier.now → result ≡ pos 0 →
        root.new ≡ leaves_root sha256 leaves }
    ensures status { result ≡ (if nat_lt size_limit frontier.now.size then pos 1 else pos 0) }
    ensures unchanged { result ≢ pos 0 → root.new ≡ root.old }
{
    let size = frontier.size as usize;
    if size > SIZE_LIMIT {
        return SIZE_TOO_LARGE;
    }
    let count = size.count_ones() as usize;
    *root = root_of_nodes(&frontier.digests[..count]);
    OK
}

/// The root of a tree whose whole nodes, from left to right, are `nodes`.
fn root_of_nodes(nodes: &[[u8; 32]]) -> [u8; 32]
    ensures { result ≡ joined sha256 nodes.now }
{
    match nodes {
        [] => EMPTY_ROOT,
        [node] => *node,
        [node, rest @ ..] => node_hash(node, &root_of_nodes(rest)),
    }
}
