//! The tree of a log that only grows, by its whole nodes.
ghost use Rattle.std.specs.Prelude.{◌≡◌, ℕ, ◌<◌, ◌≤◌, ◌+◌, ◌*◌, ◌/◌, ◌^◌, ◌==◌, nat_lt, if◌then◌else◌, List, [], ◌∷◌};
ghost use Rattle.std.specs.Prelude.{◌++◌, IfOk, IfErr, OnOk, OnErr, length, map, drop, count_ones, slice_index_or};
ghost use Rattle.std.specs.List.Sorted.{IsNonDecreasingBy};
ghost use Rattle.sha2.specs.Sha256.{sha256};
ghost use Rattle.tlog.specs.Verdicts.{size_limit};
ghost use Rattle.tlog_tree.specs.Inner.Layers.{joined, parents_of, root_of_rest};
ghost use Rattle.tlog_tree.specs.Wanted.{end_of};
ghost use Rattle.tlog_tree.specs.Inner.Wanted.{updated};
ghost use Rattle.tlog_tree.specs.Trees.{leaves_root, whole_nodes};

use crate::error::TreeError;
use crate::wanted::{WantedNode, keep};
use sha256_eights::hash_many;
use std::alloc::{AllocError, Global};
use tlog::{EMPTY_ROOT, SIZE_LIMIT, node_hash};

/// So many leaf hashes of a piece are taken at once: what is computed of these needs less than 1 MiB.
const CHUNK: usize = 4096;

/// The tree of a log that only grows, by its whole nodes (the roots of the largest perfect subtrees, from left to
/// right) and nothing else. A log has at most 2^62 entries, and its tree at most 62 whole nodes.
#[derive(Debug, Drop)]
pub struct Frontier {
    size: usize,
    nodes: Vec<[u8; 32]>,
    ghost limit: { size ≤ size_limit },
}

impl Frontier {
    ghost use Rattle.tlog_tree.specs.Frontiers.{IsFrontierOf};
    ghost use Rattle.tlog_tree.specs.declared.error.TreeError.TheVariants.{NodeCountMismatch, OutOfMemory};
    ghost use Rattle.tlog_tree.specs.declared.error.TreeError.TheVariants.{SizeTooLarge};

    /// The tree of no entries.
    pub fn new(alloc: Global) -> Frontier
        ensures { IsFrontierOf [] result }
    {
        Frontier {
            size: 0,
            nodes: Vec::new(alloc),
        }
    }

    /// The tree of a log of `size` entries by its whole nodes, from left to right, as if the entries had been pushed.
    /// Only the number of nodes is checked.
    ///
    /// # Errors
    ///
    /// The first of these that applies:
    ///
    /// - `SizeTooLarge` if the size is above 2^62;
    /// - `NodeCountMismatch` if there are not as many nodes as ones in the size's binary digits;
    /// - `OutOfMemory` if memory runs out.
    pub fn from_nodes(alloc: Global, size: usize, nodes: &[[u8; 32]]) -> Result<Frontier, TreeError>
        ensures begun { IfOk result (λ frontier. (leaves : List (List ℕ)) → length leaves ≡ size →
            nodes.now ≡ whole_nodes sha256 leaves → IsFrontierOf leaves frontier) }
        ensures kept { IfOk result (λ frontier. (frontier.size ≡ size) × (frontier.nodes.items ≡ nodes.now)) }
        ensures refused { IfErr result (λ e. e ≡ (if nat_lt size_limit size then SizeTooLarge
            else (if length nodes.now == count_ones size then OutOfMemory else NodeCountMismatch))) }
        ensures honest { IfErr result (λ e. (leaves : List (List ℕ)) → length leaves ≡ size → size ≤ size_limit →
            nodes.now ≡ whole_nodes sha256 leaves → e ≡ OutOfMemory) }
        ensures accepted { OnOk result ((size ≤ size_limit) × (length nodes.now ≡ count_ones size)) }
    {
        if size > SIZE_LIMIT {
            return Err(TreeError::SizeTooLarge);
        }
        if nodes.len() != size.count_ones() as usize {
            return Err(TreeError::NodeCountMismatch);
        }
        Ok(Frontier {
            size,
            nodes: Vec::from_slice(alloc, nodes)?,
        })
    }

    /// How many entries the log has.
    pub fn size(&self) -> usize
        ensures { result ≡ self.now.size }
    {
        self.size
    }

    /// The whole nodes, from left to right.
    pub fn nodes(&self) -> &[[u8; 32]]
        ensures { result.now ≡ self.now.nodes.items }
    {
        &self.nodes
    }

    /// Appends leaf hashes to those of the log. After an error the log is as it was.
    ///
    /// # Errors
    ///
    /// - `SizeTooLarge` if there would be more than 2^62;
    /// - `OutOfMemory` if memory runs out.
    pub fn push_many(&mut self, alloc: Global, hashes: &[[u8; 32]]) -> Result<(), TreeError>
        ensures grown { OnOk result ((leaves : List (List ℕ)) → IsFrontierOf leaves self.old →
            IsFrontierOf (leaves ++ hashes.now) self.new) }
        ensures size { OnOk result (self.new.size ≡ self.old.size + length hashes.now) }
        ensures unchanged { OnErr result (self.new ≡ self.old) }
        ensures refused { IfErr result (λ e. e
            ≡ (if nat_lt size_limit (self.old.size + length hashes.now) then SizeTooLarge else OutOfMemory)) }
    {
        self.push_kept(alloc, hashes, &mut [])
    }

    /// Appends leaf hashes as [`push_many`](Self::push_many) does, with the same errors. Each node of `wanted` whose
    /// last leaf comes gets its value, if `wanted` is in the order of its nodes' ends; after an error nothing is said
    /// of them.
    pub(crate) fn push_kept(
        &mut self,
        alloc: Global,
        hashes: &[[u8; 32]],
        wanted: &mut [WantedNode],
    ) -> Result<(), TreeError>
        ensures grown { OnOk result ((leaves : List (List ℕ)) → IsFrontierOf leaves self.old →
            IsFrontierOf (leaves ++ hashes.now) self.new) }
        ensures wanted { OnOk result ((leaves : List (List ℕ)) → IsFrontierOf leaves self.old →
            IsNonDecreasingBy end_of wanted.old →
            wanted.new ≡ map (updated sha256 0 (length leaves) (leaves ++ hashes.now)) wanted.old) }
        ensures size { OnOk result (self.new.size ≡ self.old.size + length hashes.now) }
        ensures unchanged { OnErr result (self.new ≡ self.old) }
        ensures refused { IfErr result (λ e. e
            ≡ (if nat_lt size_limit (self.old.size + length hashes.now) then SizeTooLarge else OutOfMemory)) }
    {
        if hashes.len() > SIZE_LIMIT - self.size {
            return Err(TreeError::SizeTooLarge);
        }
        let mut size = self.size;
        let mut nodes = Vec::from_slice(alloc, &self.nodes)?;
        let mut rest = hashes;
        while !rest.is_empty() {
            let (chunk, behind) = rest.split_at(rest.len().min(CHUNK));
            let count = size + chunk.len();
            // No others get their values by this chunk.
            let end = wanted.partition_point(|node| node.end() <= count);
            let start = wanted[..end].partition_point(|node| node.end() <= size);
            nodes = grown(alloc, 0, size, &nodes, chunk, &mut wanted[start..end])?;
            size = count;
            rest = behind;
        }
        self.size = size;
        self.nodes = nodes;
        Ok(())
    }

    /// The root of the log, MTH of RFC 9162, 2.1.1.
    pub fn root(&self) -> [u8; 32]
        ensures { (leaves : List (List ℕ)) → IsFrontierOf leaves self.now → result ≡ leaves_root sha256 leaves }
    {
        root_of_nodes(&self.nodes)
    }

    /// The root of the leaves that follow the first `whole` nodes of a layer; `None` if none follow. `whole` must be
    /// how many nodes of the layer have all their leaves.
    pub(crate) fn root_behind(&self, whole: usize) -> Option<[u8; 32]>
        ensures { (leaves : List (List ℕ)) (layer : ℕ) → IsFrontierOf leaves self.now →
            whole ≡ length leaves / 2 ^ layer → result ≡ root_of_rest sha256 (drop (whole * 2 ^ layer) leaves) }
    {
        // The frontier begins with a node for each bit of `whole`. These stand in the layer, or above its whole nodes.
        let above = whole.count_ones() as usize;
        let (_, behind) = self.nodes.split_at(above.min(self.nodes.len()));
        if behind.is_empty() {
            return None;
        }
        Some(root_of_nodes(behind))
    }
}

/// The whole nodes of a log whose layer `layer_number`, taken as its leaves, had `size` nodes, and which had the whole
/// nodes `nodes`, once `more` follows in that layer. Each node of `wanted` in this layer or above it whose last leaf
/// comes gets its value. `AllocError` if memory runs out.
fn grown(
    alloc: Global,
    layer_number: usize,
    size: usize,
    nodes: &[[u8; 32]],
    more: &[[u8; 32]],
    wanted: &mut [WantedNode],
) -> Result<Vec<[u8; 32]>, AllocError>
    requires { layer_number + size + length more.now < 2 ^ 64 }
    ensures whole { IfOk result (λ whole. (layer : List (List ℕ)) → length layer ≡ size →
        nodes.now ≡ whole_nodes sha256 layer → whole.items ≡ whole_nodes sha256 (layer ++ more.now)) }
    ensures wanted { OnOk result ((layer : List (List ℕ)) → length layer ≡ size →
        nodes.now ≡ whole_nodes sha256 layer →
        wanted.new ≡ map (updated sha256 layer_number size (layer ++ more.now)) wanted.old) }
{
    if more.is_empty() {
        return Vec::from_slice(alloc, nodes);
    }
    keep(wanted, layer_number, size, more);
    // A last node of the layer that has no sibling yet comes before the new ones.
    let (higher, lowest) = nodes.split_at(nodes.len().saturating_sub(size % 2));
    let mut layer = Vec::from_slice(alloc, lowest)?;
    layer.extend_from_slice(more)?;
    let above = parents(alloc, &layer)?;
    let mut whole = grown(alloc, layer_number + 1, size / 2, higher, &above, wanted)?;
    let (_, single) = layer.split_at(2 * (layer.len() / 2));
    whole.extend_from_slice(single)?;
    Ok(whole)
}

/// The root of a tree whose whole nodes, from left to right, are `nodes`.
pub(crate) fn root_of_nodes(nodes: &[[u8; 32]]) -> [u8; 32]
    ensures { result ≡ joined sha256 nodes.now }
{
    match nodes {
        [] => EMPTY_ROOT,
        [node] => *node,
        [node, rest @ ..] => node_hash(node, &root_of_nodes(rest)),
    }
}

/// The input of the hash of a node: a byte 1 and both children (RFC 9162, 2.1.1).
fn node_input(left: &[u8; 32], right: &[u8; 32]) -> [u8; 65]
    ensures { result ≡ 1 ∷ (left.now ++ right.now) }
{
    let mut input = [1; 65];
    input[1..33].copy_from_slice(left);
    input[33..].copy_from_slice(right);
    input
}

/// The parents of `layer`, nodes of a layer that stand side by side from an even slot on. A last node without a sibling
/// has none. `AllocError` if memory runs out.
fn parents(alloc: Global, layer: &[[u8; 32]]) -> Result<Vec<[u8; 32]>, AllocError>
    ensures { IfOk result (λ parents. parents.items ≡ parents_of sha256 layer.now) }
{
    let count = layer.len() / 2;
    let mut inputs = Vec::with_capacity(alloc, count)?;
    for i in 0..count {
        inputs.push(node_input(&layer[2 * i], &layer[2 * i + 1]))?;
    }
    let mut parents = vec![in alloc; [0; 32]; count]?;
    hash_many(inputs.as_flattened(), &mut parents);
    Ok(parents)
}
