//! What is read from a tree: its cap, and for one leaf a row of each matrix and the siblings on the leaf's path. Layer
//! 0 is the leaves. Level `l` leads to layer `l + 1`; its step is how many children a node of that layer has.

ghost use Rattle.std.specs.Prelude.{◌≡◌, ◌<◌, ◌≤◌, ◌++◌, length, map, slice_get, IfOk, None, Some};
ghost use Rattle.std.specs.List.{remove};
ghost use Rattle.p3_support.specs.Batches.{greatest};
ghost use Rattle.p3_support.specs.Shown.{roots_of, row_lists};
ghost use Rattle.p3_merkle_core.specs.Geometry.{heights, levels, shape_of};
ghost use Rattle.p3_merkle_core.specs.Nodes.{shape};
ghost use Rattle.p3_merkle_core.specs.Openings.{honest_rows, node_in, siblings_by};
ghost use Rattle.p3_merkle_core.specs.declared.error.MerkleTreeError.TheVariants.{OutOfMemory};
ghost use Rattle.p3_merkle_core.specs.Refusals.{AnswersUnlessMemory};
ghost use Rattle.p3_merkle_prover.specs.Parts.{layers_of, matrices_of, tree_batch};

use crate::tree::{MerkleTree, Tree};
use p3_merkle_core::error::MerkleTreeError;
use p3_merkle_core::geometry::{bits_reduced_of, parent_of, position_of};
use p3_merkle_core::group::append_siblings;
use p3_merkle_core::schedule::Schedule;
use p3_support::matrix::Matrix;
use p3_support::opening::MerkleCap;
use std::alloc::{AllocError, Global};

/// The steps of a tree, from the leaves to the root, which it stores.
pub fn tree_schedule<F, X, G, M: Matrix<F>, const N: usize>(
    tree: &Tree<F, X, G, M, N>,
) -> Schedule<'_>
    ensures { shape_of result.arity result.dimensions.now ≡ shape (tree_batch tree.now) }
{
    tree.schedule.schedule()
}

/// The height of the tallest matrix of a tree, in rows. It is the number of leaves, without padding.
pub fn max_height<F, X, G, M: Matrix<F>, const N: usize>(tree: &Tree<F, X, G, M, N>) -> usize
    ensures { result ≡ greatest (heights (shape (tree_batch tree.now))) }
{
    tree.schedule.max_height
}

/// The cap that is layer `layer` of a tree, padding included. `layer` must be at most the number of levels.
///
/// # Errors
///
/// `AllocError` if memory runs out.
pub fn cap_at<F, W: Copy, M: Matrix<F>, const N: usize, const D: usize>(
    alloc: Global,
    tree: &MerkleTree<F, W, M, N, D>,
    layer: usize,
) -> Result<MerkleCap<F, [W; D]>, AllocError>
    requires { layer ≤ levels (shape (tree_batch tree.now)) }
    ensures { IfOk result (λ cap. slice_get (layers_of tree.now) layer ≡ Some (roots_of cap)) }
{
    Ok(MerkleCap::new(Vec::from_slice(alloc, &tree.layers[layer])?))
}

/// The row of each matrix that belongs to leaf `index`, in input order: row `index >> k` of a matrix whose height is
/// the tallest one halved and rounded up `k` times. The index must be below [`max_height`].
///
/// # Errors
///
/// Only `OutOfMemory`.
pub fn rows_of_index<F: Copy, X, G, M: Matrix<F>, const N: usize>(
    alloc: Global,
    tree: &Tree<F, X, G, M, N>,
    index: usize,
) -> Result<Vec<Vec<F>>, MerkleTreeError>
    requires { index < greatest (heights (shape (tree_batch tree.now))) }
    ensures rows { let honest = honest_rows (tree_batch tree.now) index in
        IfOk result (λ rows. row_lists rows.items ≡ honest) }
    ensures memory { AnswersUnlessMemory result None }
{
    let max_height = max_height(tree);
    let mut rows = Vec::with_capacity(alloc, tree.matrices.len())?;
    for matrix in &tree.matrices {
        let row = index >> bits_reduced_of(max_height, matrix.height());
        let mut words = Vec::with_capacity(alloc, matrix.width())?;
        matrix.append_row(row, &mut words)?;
        rows.push_reserved(words);
    }
    Ok(rows)
}

/// The matrices of a tree, in input order.
///
/// # Errors
///
/// Only `OutOfMemory`.
pub fn matrix_refs<'a, F, X, G, M: Matrix<F>, const N: usize>(
    alloc: Global,
    tree: &'a Tree<F, X, G, M, N>,
) -> Result<Vec<&'a M>, MerkleTreeError>
    ensures matrices { IfOk result (λ v. map (λ m. m.now) v.items ≡ matrices_of tree.now) }
    ensures memory { AnswersUnlessMemory result None }
{
    let mut matrices = Vec::with_capacity(alloc, tree.matrices.len())?;
    for matrix in &tree.matrices {
        matrices.push(matrix)?;
    }
    Ok(matrices)
}

/// The siblings on the path of leaf `index` up to layer `layer`, level by level from the leaves up: the other children
/// of the parent of the path's node, ascending. `schedule` must be that of the tree, the index below [`max_height`],
/// and the layer at most the number of levels.
///
/// # Errors
///
/// Only `OutOfMemory`.
pub fn siblings_of_index<F, X: Copy, G, M: Matrix<F>, const N: usize>(
    alloc: Global,
    tree: &Tree<F, X, G, M, N>,
    schedule: &Schedule<'_>,
    index: usize,
    layer: usize,
) -> Result<Vec<X>, MerkleTreeError>
    requires own { shape_of schedule.now.arity schedule.now.dimensions.now ≡ shape (tree_batch tree.now) }
    requires index { index < greatest (heights (shape (tree_batch tree.now))) }
    requires layer { layer ≤ levels (shape (tree_batch tree.now)) }
    ensures siblings { (d : X) → let own = siblings_by (node_in d (layers_of tree.now))
        (shape (tree_batch tree.now)) layer index in
        IfOk result (λ siblings. siblings.items ≡ own) }
    ensures memory { AnswersUnlessMemory result None }
{
    let mut siblings = Vec::with_capacity(alloc, schedule.siblings_below(layer))?;
    let mut node = index;
    for level in 0..layer {
        let step = schedule.step(level);
        let position = position_of(node, step);
        let first = node - position;
        let group = &tree.layers[level][first..first + step];
        append_siblings(&mut siblings, group, position)?;
        node = parent_of(node, step);
    }
    Ok(siblings)
}
