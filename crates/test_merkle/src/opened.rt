//! What schemes commit to and open, and that they accept it.

use crate::case::{Case, Fault};
use crate::field::Item;
use crate::matrices::{Word, matrices_in};
use crate::scheme::{Statement, Tried};
use p3_merkle_tree::{BatchOpening, BatchOpeningRef, MerkleTreeError, check_indices};
use p3_support::matrix::{RowMajorMatrix, dimensions_of};
use std::alloc::Global;

/// What a scheme has committed to.
#[derive(Drop)]
pub struct Committed<T, X, D> {
    /// What openings are checked against.
    pub statement: Statement<T, X>,
    /// The tree.
    pub tree: D,
}

/// What a scheme commits to. The tree shows matrices of the same dimensions.
pub fn commit_shown<T: Word, X: Item, S: Tried<T, X>>(
    alloc: Global,
    scheme: &mut S,
    matrices: Vec<RowMajorMatrix<T>>,
) -> Result<Committed<T, X, S::ProverData>, Fault> {
    let dimensions = dimensions_of(alloc, &matrices)?;
    let (cap, tree) = scheme.commit(alloc, matrices)?;
    let shown = dimensions_of(alloc, &scheme.get_matrices(alloc, &tree)?)?;
    if shown != dimensions {
        return Err(Fault::Wrong("the tree shows other matrices"));
    }
    let statement = Statement { cap, dimensions };
    Ok(Committed { statement, tree })
}

/// The opening of a leaf of a tree by a scheme, where there is such a leaf.
pub fn leaf_by<T: Word, X: Item, S: Tried<T, X>>(
    alloc: Global,
    scheme: &S,
    tree: &S::ProverData,
    index: usize,
) -> Result<BatchOpening<T, S::Proof>, MerkleTreeError> {
    check_indices(scheme.get_max_height(tree), &[index])?;
    scheme.open_batch(alloc, index, tree)
}

/// The opening of several leaves of a tree by a scheme, where there are such leaves.
pub fn leaves_by<T: Word, X: Item, S: Tried<T, X>>(
    alloc: Global,
    scheme: &S,
    tree: &S::ProverData,
    indices: &[usize],
) -> Result<(Vec<Vec<Vec<T>>>, S::MultiProof), MerkleTreeError> {
    check_indices(scheme.get_max_height(tree), indices)?;
    scheme.open_multi_batch(alloc, indices, tree)
}

/// The opening of a leaf, which is accepted.
pub fn accepted<T: Word, X: Item, S: Tried<T, X>>(
    alloc: Global,
    scheme: &S,
    committed: &Committed<T, X, S::ProverData>,
    index: usize,
) -> Result<BatchOpening<T, S::Proof>, MerkleTreeError> {
    let opening = leaf_by::<T, X, S>(alloc, scheme, &committed.tree, index)?;
    let Statement { cap, dimensions } = &committed.statement;
    let borrowed = BatchOpeningRef::from(&opening);
    scheme.verify_batch(alloc, cap, dimensions, index, borrowed)?;
    Ok(opening)
}

/// The opening of several leaves, which is accepted.
pub fn accepted_leaves<T: Word, X: Item, S: Tried<T, X>>(
    alloc: Global,
    scheme: &S,
    committed: &Committed<T, X, S::ProverData>,
    indices: &[usize],
) -> Result<(Vec<Vec<Vec<T>>>, S::MultiProof), MerkleTreeError> {
    let (rows, proof) = leaves_by::<T, X, S>(alloc, scheme, &committed.tree, indices)?;
    let Statement { cap, dimensions } = &committed.statement;
    scheme.verify_multi_batch(alloc, cap, dimensions, indices, &rows, &proof)?;
    Ok((rows, proof))
}

/// `commit | ARITY | CAP | MATRICES | ROOTS`: the cap. Matrices are written out or by their dimensions.
pub fn commit<T: Word, X: Item, S: Tried<T, X>>(
    case: &mut Case<'_>,
    scheme: &mut S,
) -> Result<(), Fault> {
    let matrices = matrices_in(case.alloc, case.take())?;
    let committed = commit_shown::<T, X, S>(case.alloc, scheme, matrices)?;
    case.list(committed.statement.cap.roots())
}

/// A commitment, and what it opens at the queries of a case.
#[derive(Drop)]
pub struct Opened<T, X, D, Q, O> {
    /// The commitment.
    pub committed: Committed<T, X, D>,
    /// The queries.
    pub queries: Q,
    /// The opening.
    pub opening: O,
}

/// Commits to the matrices of a case and opens its index.
pub fn opened_leaf<T: Word, X: Item, S: Tried<T, X>>(
    case: &mut Case<'_>,
    scheme: &mut S,
) -> Result<Opened<T, X, S::ProverData, usize, BatchOpening<T, S::Proof>>, Fault> {
    let matrices = matrices_in(case.alloc, case.take())?;
    let queries: usize = case.read()?;
    let committed = commit_shown::<T, X, S>(case.alloc, scheme, matrices)?;
    let opening = accepted::<T, X, S>(case.alloc, &*scheme, &committed, queries)?;
    Ok(Opened {
        committed,
        queries,
        opening,
    })
}

/// `open | ARITY | CAP | MATRICES | INDEX | ROWS | SIBLINGS`: the opening of a leaf.
pub fn open<T: Word, X: Item, S: Tried<T, X>>(
    case: &mut Case<'_>,
    scheme: &mut S,
) -> Result<(), Fault> {
    let opened = opened_leaf::<T, X, S>(case, scheme)?;
    case.write(&opened.opening.unpack())
}

/// Commits to the matrices of a case and opens its indices.
pub fn opened_leaves<T: Word, X: Item, S: Tried<T, X>>(
    case: &mut Case<'_>,
    scheme: &mut S,
) -> Result<Opened<T, X, S::ProverData, Vec<usize>, (Vec<Vec<Vec<T>>>, S::MultiProof)>, Fault> {
    let matrices = matrices_in(case.alloc, case.take())?;
    let queries: Vec<usize> = case.read()?;
    let committed = commit_shown::<T, X, S>(case.alloc, scheme, matrices)?;
    let opening = accepted_leaves::<T, X, S>(case.alloc, &*scheme, &committed, &queries)?;
    Ok(Opened {
        committed,
        queries,
        opening,
    })
}

/// `pruned | ARITY | CAP | MATRICES | INDICES | ROW SETS | DIGESTS`: the rows of each query, and the proof for all of
/// them.
pub fn pruned<T: Word, X: Item, S: Tried<T, X>>(
    case: &mut Case<'_>,
    scheme: &mut S,
) -> Result<(), Fault> {
    let opened = opened_leaves::<T, X, S>(case, scheme)?;
    case.write(&opened.opening)
}
