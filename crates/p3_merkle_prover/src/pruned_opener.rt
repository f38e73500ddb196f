//! What is read from a tree for several leaves at once: their rows, and the digests of the boundary. A node is covered
//! if it is one of these leaves or above one. The boundary is the children of covered nodes that are not covered
//! themselves.

ghost use Rattle.std.specs.Prelude.{◌≡◌, ◌+◌, ◌-◌, ◌%◌, ◌^◌, ◌<◌, ◌≤◌, ◌++◌, length, map, All, IfOk, None};
ghost use Rattle.std.specs.List.Sorted.{IsStrictlyIncreasing};
ghost use Rattle.p3_merkle_core.specs.Geometry.{heights, levels};
ghost use Rattle.p3_merkle_core.specs.Nodes.{shape};
ghost use Rattle.p3_merkle_core.specs.Openings.{honest_rows, node_in};
ghost use Rattle.p3_merkle_core.specs.declared.error.MerkleTreeError.TheVariants.{OutOfMemory};
ghost use Rattle.p3_merkle_core.specs.Pruning.{boundary_by};
ghost use Rattle.p3_merkle_core.specs.Refusals.{AnswersUnlessMemory};
ghost use Rattle.p3_support.specs.Batches.{greatest};
ghost use Rattle.p3_support.specs.Shown.{row_sets};
ghost use Rattle.p3_merkle_prover.specs.Inner.Own.{others_beside};
ghost use Rattle.p3_merkle_prover.specs.Parts.{layers_of, tree_batch};

use crate::opener::{rows_of_index, tree_schedule};
use crate::tree::Tree;
use p3_merkle_core::covered_nodes::Covered;
use p3_merkle_core::error::MerkleTreeError;
use p3_merkle_core::geometry::position_of;
use p3_merkle_core::group::append_siblings;
use p3_merkle_core::pruning::distinct_indices;
use p3_support::matrix::Matrix;
use std::alloc::Global;

/// The rows of each of some leaves, in the order of the indices. Each index must be below
/// [`max_height`](crate::opener::max_height).
///
/// # Errors
///
/// Only `OutOfMemory`.
pub fn rows_of_indices<F: Copy, X, G, M: Matrix<F>, const N: usize>(
    alloc: Global,
    tree: &Tree<F, X, G, M, N>,
    indices: &[usize],
) -> Result<Vec<Vec<Vec<F>>>, MerkleTreeError>
    requires { All (λ index. index < greatest (heights (shape (tree_batch tree.now)))) indices.now }
    ensures rows { let honest = map (honest_rows (tree_batch tree.now)) indices.now in
        IfOk result (λ rows. row_sets rows.items ≡ honest) }
    ensures memory { AnswersUnlessMemory result None }
{
    let mut rows = Vec::with_capacity(alloc, indices.len())?;
    for index in indices {
        rows.push(rows_of_index(alloc, tree, *index)?)?;
    }
    Ok(rows)
}

/// The digests of a pruned proof of some leaves: those of the boundary below layer `cap_layer`, level by level from the
/// leaves up, ascending. Each index must be below [`max_height`](crate::opener::max_height), and `cap_layer` at most
/// the number of levels. It sorts a copy of the indices, and allocates the digests once, at their number.
///
/// # Errors
///
/// Only `OutOfMemory`.
pub fn boundary_digests<F, X: Copy, G, M: Matrix<F>, const N: usize>(
    alloc: Global,
    tree: &Tree<F, X, G, M, N>,
    indices: &[usize],
    cap_layer: usize,
) -> Result<Vec<X>, MerkleTreeError>
    requires indices { All (λ index. index < greatest (heights (shape (tree_batch tree.now)))) indices.now }
    requires layer { cap_layer ≤ levels (shape (tree_batch tree.now)) }
    ensures digests { (d : X) → let own = boundary_by (node_in d (layers_of tree.now))
        (shape (tree_batch tree.now)) indices.now cap_layer in
        IfOk result (λ digests. digests.items ≡ own) }
    ensures memory { AnswersUnlessMemory result None }
{
    let schedule = tree_schedule(tree);
    let mut covered = Covered::new(&schedule, indices, distinct_indices(alloc, indices)?);
    let len = covered.clone(alloc)?.boundary_len(cap_layer);
    let mut digests = Vec::with_capacity(alloc, len)?;
    for level in 0..cap_layer {
        let step = schedule.step(level);
        extend_with_boundary(&mut digests, &tree.layers[level], &covered.nodes, step)?;
        covered.climb();
    }
    Ok(digests)
}

/// Appends to `digests` those of the boundary in one layer, ascending: of each group of `step` nodes that has a covered
/// one, the digests of the nodes that are not covered. `covered` must have the covered nodes, each once, ascending, and
/// is gone through once. `step` must be at least 1, and `layer` must have the digests of the whole group of each
/// covered node. The only error is `OutOfMemory`.
fn extend_with_boundary<X: Copy>(
    digests: &mut Vec<X>,
    layer: &[X],
    covered: &[usize],
    step: usize,
) -> Result<(), MerkleTreeError>
    requires some { 0 < step }
    requires ascending { IsStrictlyIncreasing covered.now }
    requires groups { All (λ k. k - k % step + step ≤ length layer.now) covered.now }
    requires len { length layer.now < 2 ^ 64 }
    ensures digests { (d : X) → let others = others_beside layer.now covered.now step d in
        IfOk result (λ done. digests.new.items ≡ digests.old.items ++ others) }
    ensures memory { AnswersUnlessMemory result None }
{
    // A slice of the layer has one covered node. It starts with the node's group, or where the slice before it ended.
    // It ends with the group, or ahead of the next covered node.
    let mut next = 0;
    for place in 0..covered.len() {
        let node = covered[place];
        let first = node - position_of(node, step);
        let mut end = first + step;
        if place + 1 < covered.len() {
            end = end.min(covered[place + 1]);
        }
        let start = first.max(next);
        append_siblings(digests, &layer[start..end], node - start)?;
        next = end;
    }
    Ok(())
}
