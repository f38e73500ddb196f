//! The digests of a proof of several entries, and the pruned opening of a log's tree that they give.
ghost use Rattle.std.specs.Prelude.{◌≡◌, ℕ, List, [], length, slice_index_or, ◌+◌, ◌*◌, ◌^◌, ◌<◌, ◌≤◌, ◌++◌, All, IfOk};
ghost use Rattle.std.specs.{Prelude.filter, Prelude.map, Prelude.not, Prelude.IfSome, Prelude.MatchResult};
ghost use Rattle.std.specs.Prelude.{None, Some, nat_eq, ◌/◌};
ghost use Rattle.std.specs.List.{dedup};
ghost use Rattle.std.specs.Result.{result_err};
ghost use Rattle.p3_merkle_core.specs.Geometry.{levels};
ghost use Rattle.p3_merkle_core.specs.Inner.Agreement.{IsAscending};
ghost use Rattle.p3_merkle_core.specs.Pruning.{boundary};
ghost use Rattle.p3_merkle_core.specs.Views.{pruned_owned};
ghost use Rattle.p3_answers.specs.Answers.{AnswersUnless};
ghost use Rattle.p3_support.specs.Lists.{is_among};
ghost use Rattle.p3_support.specs.Shown.{row_sets};
ghost use Rattle.tlog.specs.Rfc9162.{Hash};
ghost use Rattle.tlog.specs.Verdicts.{size_limit};
ghost use Rattle.tlog_tree.specs.Trees.{all_there, id_of, leaves_root, values_at};
ghost use Rattle.tlog_multiproof.specs.Entries.{AreIncluded, digests_refusal, entries_opening, form_refusal};
ghost use Rattle.tlog_multiproof.specs.Entries.{indices_refusal, is_node as is_node_by, proof_nodes};
ghost use Rattle.tlog_multiproof.specs.Entries.{with_padding as with_padding_of};
ghost use Rattle.tlog_multiproof.specs.Inner.Siblings.{sibling};
ghost use Rattle.tlog_multiproof.specs.Instance.{leaf_row_set, log_shape, slot_of, slots_of};
ghost use Rattle.tlog_multiproof.specs.declared.error.EntriesError.TheVariants.{OutOfMemory};

use crate::error::EntriesError;
use crate::tree::Node;
use p3_merkle_core::pruning::{
    PrunedBatchOpening, PrunedProof, PrunedRows, check_indices, distinct_indices,
};
use std::alloc::{AllocError, Global};
use tlog::SIZE_LIMIT;
use tlog_tree::NodeId;

/// The nodes whose values are the proof of the entries at these indices, counted from 0, in a log of `size` entries, in
/// the order of the proof, as a `TreeBuilder` takes them. The size must be from 1 to 2^62, and each index below it.
///
/// # Errors
///
/// `AllocError` if memory runs out.
pub fn entry_nodes(alloc: Global, indices: &[usize], size: usize) -> Result<Vec<NodeId>, AllocError>
    requires some { 0 < size }
    requires limit { size ≤ size_limit }
    requires within { All (λ index. index < size) indices.now }
    ensures nodes { IfOk result (λ nodes. nodes.items ≡ proof_nodes size indices.now) }

    // The values of these nodes in any log of the size are there, and prove its entries.
    ensures accepted { IfOk result (λ nodes. (hash : Hash) (leaves : List (List ℕ)) → length leaves ≡ size →
        0 < length indices.now → (proof : List (List ℕ)) × (values_at hash leaves nodes.items ≡ all_there proof)
        × AreIncluded hash size indices.now (map (λ i. slice_index_or leaves i []) indices.now) proof
        (leaves_root hash leaves)) }
{
    let boundary = boundary_nodes(alloc, size, indices)?;
    let mut nodes = Vec::new(alloc);
    for node in &boundary {
        if is_node(size, *node) {
            nodes.push(*node)?;
        }
    }
    Ok(nodes)
}

/// Whether `node` has entries below it in a log of `size` entries, at least 1. If it has none, its slot has padding.
pub(crate) fn is_node(size: usize, node: NodeId) -> bool
    requires some { 0 < size }
    requires layer { node.layer < 64 }
    ensures { result ≡ is_node_by size (slot_of node) }
{
    node.slot <= (size - 1) >> node.layer
}

/// The boundary of the entries at `indices`, counted from 0, in a log of `size` entries, padding included: the siblings
/// of entries and of nodes above entries that are neither themselves, layer by layer from the leaves, ascending. The
/// size must be from 1 to 2^62, and each index below it. `AllocError` if memory runs out.
fn boundary_nodes(alloc: Global, size: usize, indices: &[usize]) -> Result<Vec<NodeId>, AllocError>
    requires some { 0 < size }
    requires limit { size ≤ size_limit }
    requires within { All (λ index. index < size) indices.now }
    ensures boundary { let s = log_shape size in
        IfOk result (λ nodes. slots_of nodes.items ≡ boundary s indices.now (levels s)) }
    ensures layers { IfOk result (λ nodes. All (λ node. node.layer < 64) nodes.items) }
{
    let mut covered = distinct_indices(alloc, indices)?;
    let mut nodes = Vec::new(alloc);
    let mut layer = 0;
    // The slot of the layer's last node. The root is the only one of its layer.
    let mut last = size - 1;
    while last > 0 {
        push_siblings(&mut nodes, layer, &covered)?;
        climb(&mut covered);
        layer += 1;
        last /= 2;
    }
    Ok(nodes)
}

/// Appends to `nodes`, in order, the sibling of each slot of `covered` that is not in `covered` itself. The slots are
/// of layer `layer`, must ascend, and be below 2^64 - 1. `AllocError` if memory runs out.
fn push_siblings(nodes: &mut Vec<NodeId>, layer: usize, covered: &[usize]) -> Result<(), AllocError>
    requires ascending { IsAscending covered.now }
    requires fits { All (λ slot. slot + 1 < 2 ^ 64) covered.now }
    ensures { IfOk result (λ done. nodes.new.items ≡ nodes.old.items
        ++ map (id_of layer) (filter (λ j. not (is_among covered.now j)) (map sibling covered.now))) }
{
    for slot in covered {
        let sibling = if *slot % 2 == 0 { *slot + 1 } else { *slot - 1 };
        if covered.binary_search(&sibling).is_err() {
            nodes.push(NodeId {
                layer,
                slot: sibling,
            })?;
        }
    }
    Ok(())
}

/// Replaces `covered`, ascending slots of a layer, by the slots of their parents in the layer above, each once.
fn climb(covered: &mut Vec<usize>)
    ensures { covered.new.items ≡ dedup nat_eq (map (λ slot. slot / 2) covered.old.items) }
{
    for slot in covered.iter_mut() {
        *slot /= 2;
    }
    covered.dedup();
}

/// The opening of the entries at `indices`, counted from 0, in a log of `size` entries: a row for each of `leaves`,
/// their leaf hashes; and a digest for each boundary node, from `proof`, or `Node::Absent` where it is padding. The
/// errors are those of [`check_form`], then those of [`with_padding`]; `OutOfMemory` may come once the form is checked.
pub(crate) fn opening_of(
    alloc: Global,
    size: usize,
    indices: &[usize],
    leaves: &[[u8; 32]],
    proof: &[[u8; 32]],
) -> Result<PrunedBatchOpening<Node, Node, 1>, EntriesError>
    ensures answer { AnswersUnless (λ e. e ≡ OutOfMemory) result
        (form_refusal size indices.now (length leaves.now) (length proof.now)) }
    ensures checked { IfSome (indices_refusal size indices.now (length leaves.now))
        (λ e. result_err result ≡ Some e) }
    ensures made { IfOk result (λ opening.
        pruned_owned indices.now opening ≡ entries_opening size indices.now leaves.now proof.now) }
{
    check_form(size, indices, leaves.len())?;
    let nodes = boundary_nodes(alloc, size, indices)?;
    let sibling_hashes = with_padding(alloc, size, &nodes, proof)?;
    Ok(PrunedRows {
        opened_values: rows_of(alloc, leaves)?,
        pruned_proof: PrunedProof { sibling_hashes },
    })
}

/// Checks the size, the indices and the number of leaf hashes. The error is the first of `SizeTooLarge`, `NoIndices`,
/// `LeafCountMismatch` and `IndexPastEnd` that applies. It does not allocate.
fn check_form(size: usize, indices: &[usize], num_leaves: usize) -> Result<(), EntriesError>
    ensures answer { let refusal = indices_refusal size indices.now num_leaves in
        MatchResult result (λ ok. refusal ≡ None) (λ e. refusal ≡ Some e) }
    ensures within { IfOk result (λ ok. All (λ index. index < size) indices.now) }
{
    if size > SIZE_LIMIT {
        return Err(EntriesError::SizeTooLarge);
    }
    if indices.is_empty() {
        return Err(EntriesError::NoIndices);
    }
    if num_leaves != indices.len() {
        return Err(EntriesError::LeafCountMismatch);
    }
    if check_indices(size, indices).is_err() {
        return Err(EntriesError::IndexPastEnd);
    }
    Ok(())
}

/// For each of `nodes` its digest: the next of `proof`, or `Node::Absent` where the node is padding in a log of `size`
/// entries, at least 1. `TooFewDigests` if `proof` ends ahead of a node's digest, `TooManyDigests` if digests are left
/// over. `OutOfMemory` if memory runs out.
fn with_padding(
    alloc: Global,
    size: usize,
    nodes: &[NodeId],
    proof: &[[u8; 32]],
) -> Result<Vec<[Node; 1]>, EntriesError>
    requires some { 0 < size }
    requires layers { All (λ node. node.layer < 64) nodes.now }
    ensures answer { AnswersUnless (λ e. e ≡ OutOfMemory) result
        (digests_refusal (length (filter (is_node_by size) (slots_of nodes.now))) (length proof.now)) }
    ensures digests { IfOk result (λ digests. digests.items ≡ with_padding_of size (slots_of nodes.now) proof.now) }
{
    let mut digests = Vec::new(alloc);
    let mut used = 0;
    for node in nodes {
        let mut word = Node::Absent;
        if is_node(size, *node) {
            if used == proof.len() {
                return Err(EntriesError::TooFewDigests);
            }
            word = Node::Hash(proof[used]);
            used += 1;
        }
        digests.push([word])?;
    }
    if used < proof.len() {
        return Err(EntriesError::TooManyDigests);
    }
    Ok(digests)
}

/// For each of `leaves`, the row set of its entry: one row, which has the leaf hash alone. `AllocError` if memory runs
/// out.
fn rows_of(alloc: Global, leaves: &[[u8; 32]]) -> Result<Vec<Vec<Vec<Node>>>, AllocError>
    ensures { IfOk result (λ rows. row_sets rows.items ≡ map leaf_row_set leaves.now) }
{
    let mut rows = Vec::with_capacity(alloc, leaves.len())?;
    for leaf in leaves {
        rows.push(vec![in alloc; vec![in alloc; Node::Hash(*leaf)]?]?)?;
    }
    Ok(rows)
}
