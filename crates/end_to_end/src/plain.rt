//! The plain scheme: what it opens of its own commitment is accepted; and an opening that anybody presents has the
//! committed row of each authenticated matrix, or a collision is returned.

ghost use Rattle.std.specs.Prelude.{◌≡◌, ◌<◌, [], ◌∷◌, All, IfErr, IfOk, IsOk};
ghost use Rattle.end_to_end.specs.Honest.{IsHonest, IsHonestPruned};
ghost use Rattle.end_to_end.specs.Refusals.{open_refusal};
ghost use Rattle.end_to_end.specs.Comparisons.{IsComparison, IsPrunedComparison};
ghost use Rattle.p3_merkle_tree.specs.Committed.{Commits};
ghost use Rattle.p3_merkle_tree.specs.Geometry.{heights};
ghost use Rattle.p3_merkle_tree.specs.MerkleTreeError.TheVariants.{OutOfMemory};
ghost use Rattle.p3_merkle_tree.specs.Nodes.{shape};
ghost use Rattle.p3_merkle_tree.specs.Parts.{matrices_of, tree_batch};
ghost use Rattle.p3_merkle_tree.specs.Refusals.{AnswersUnlessMemory};
ghost use Rattle.p3_merkle_tree.specs.Views.{heights_in, opening_borrowed, opening_owned, pruned_borrowed};
ghost use Rattle.p3_merkle_tree.specs.Views.{pruned_owned};
ghost use Rattle.p3_merkle_tree.specs.Schemes.{cap_rule_of, params_of};
ghost use Rattle.p3_support.specs.Batches.{greatest};
ghost use Rattle.p3_support.specs.Shown.{roots_of};

use crate::Compared;
use p3_merkle_tree::{
    BatchOpening, BatchOpeningRef, Collision, MerkleCap, MerkleTree, MerkleTreeError,
    MerkleTreeMmcs, PrunedBatchOpening, PrunedMerklePaths, check_indices, laws,
};
use p3_support::compress::PseudoCompressionFunction;
use p3_support::hasher::CryptographicHasher;
use p3_support::matrix::{Dimensions, Matrix, dimensions_of};
use p3_support::packed::PackedValue;
use std::alloc::Global;

/// A commitment to matrices: the cap, the tree, and the dimensions of the matrices.
type Committed<T, W, M, const N: usize, const D: usize> = (
    MerkleCap<T, [W; D]>,
    MerkleTree<T, W, M, N, D>,
    Vec<Dimensions>,
);

/// What an opening of one index comes to.
pub type ComparedOpening<T, W, M, const N: usize, const D: usize> = Compared<
    MerkleCap<T, [W; D]>,
    MerkleTree<T, W, M, N, D>,
    BatchOpening<T, Vec<[W; D]>>,
    Collision<T, W, D>,
>;

/// What a pruned opening of several indices comes to. A collision stands beside the places of its two queries.
pub type ComparedPruned<T, W, M, const N: usize, const D: usize> = Compared<
    MerkleCap<T, [W; D]>,
    MerkleTree<T, W, M, N, D>,
    PrunedBatchOpening<T, W, D>,
    (usize, usize, Collision<T, W, D>),
>;

/// Commits to matrices, and checks that they have all the indices. Returns the cap, the tree, and the dimensions of the
/// matrices. The errors are those of `commit`, then that of [`check_indices`].
fn committed<
    P: PackedValue,
    PW: PackedValue,
    H: CryptographicHasher<P, PW, D>,
    C: PseudoCompressionFunction<PW, N, D>,
    M: Matrix<P::Value> + Drop,
    const N: usize,
    const D: usize,
>(
    alloc: Global,
    scheme: &MerkleTreeMmcs<P, PW, H, C, N, D>,
    matrices: Vec<M>,
    indices: &[usize],
) -> Result<Committed<P::Value, PW::Value, M, N, D>, MerkleTreeError>
    ensures answer { let heights = heights_in M.height_of M.width_of M.row_of matrices.items in
        AnswersUnlessMemory result (open_refusal heights indices.now) }
    ensures matrices { IfOk result (λ (cap, tree, dimensions). matrices_of tree ≡ matrices.items) }
    ensures committed { IfOk result (λ (cap, tree, dimensions). Commits scheme.now (roots_of cap) tree) }
    ensures dimensions { IfOk result (λ (cap, tree, dimensions).
        dimensions.items ≡ (shape (tree_batch tree)).dimensions) }
    ensures below { IfOk result (λ (cap, tree, dimensions).
        All (λ index. index < greatest (heights (shape (tree_batch tree)))) indices.now) }
{
    laws::dimensions::<P::Value, M, N>();
    let dimensions = dimensions_of(alloc, &matrices)?;
    let (cap, tree) = scheme.commit(alloc, matrices)?;
    check_indices(scheme.get_max_height(&tree), indices)?;
    Ok((cap, tree, dimensions))
}

/// Commits to matrices, opens the row of each that belongs to an index, verifies the opening under the cap, and
/// compares an opening that anybody claims for this index with it. What is found is a collision of both; or `None`, if
/// the claimed one is accepted and has the honest siblings and the honest row of each authenticated matrix; or the
/// error of `verify_batch` for the claimed one.
///
/// # Errors
///
/// The first of these that applies, where `OutOfMemory` may come at any time, also as what is found:
///
/// - `EmptyBatch`, `TooLarge` or `IncompatibleHeights` if the matrices have such heights;
/// - `IndexOutOfBounds` if the index is not below the tallest height.
pub fn commit_compare<
    P: PackedValue,
    PW: PackedValue,
    H: CryptographicHasher<P, PW, D>,
    C: PseudoCompressionFunction<PW, N, D>,
    M: Matrix<P::Value> + Drop,
    const N: usize,
    const D: usize,
>(
    alloc: Global,
    scheme: &MerkleTreeMmcs<P, PW, H, C, N, D>,
    matrices: Vec<M>,
    index: usize,
    claimed: BatchOpeningRef<'_, P::Value, Vec<[PW::Value; D]>>,
) -> Result<ComparedOpening<P::Value, PW::Value, M, N, D>, MerkleTreeError>
    ensures answer { let heights = heights_in M.height_of M.width_of M.row_of matrices.items in
        AnswersUnlessMemory result (open_refusal heights (index ∷ [])) }
    ensures matrices { IfOk result (λ v. matrices_of v.tree ≡ matrices.items) }
    ensures committed { IfOk result (λ v. Commits scheme.now (roots_of v.cap) v.tree) }
    ensures opened { IfOk result (λ v. IsHonest scheme.now v.tree (roots_of v.cap) (opening_owned index v.opening)) }
    ensures verdict { IfOk result (λ v. IsOk v.verdict) }
    ensures compared { let compares = IsComparison PW.Value.eq (cap_rule_of scheme.now) in
        IfOk result (λ v. compares (params_of scheme.now (shape (tree_batch v.tree))) (roots_of v.cap)
        (opening_borrowed index claimed.entry) (opening_owned index v.opening) v.found) }
{
    laws::answers::<P::Value, PW::Value>();
    let (cap, tree, dimensions) = committed(alloc, scheme, matrices, &[index])?;
    let opening = scheme.open_batch(alloc, index, &tree)?;
    let honest = BatchOpeningRef::from(&opening);
    let verdict = scheme.verify_batch(&cap, &dimensions, index, honest);
    let found = scheme.extract_collision(alloc, &cap, &dimensions, index, claimed, index, honest);
    Ok(Compared {
        cap,
        tree,
        opening,
        verdict,
        found,
    })
}

/// Commits to matrices, opens the rows that belong to several indices by one proof, verifies the opening under the cap,
/// and compares an opening that anybody claims for these indices with it: a row set for each index, and a pruned proof.
/// The indices may come in any order, with repeats.
///
/// What is found is the place of a claimed query in the list of indices, the place of an honest one, and the collision
/// of both; or `None`, if the claimed opening is accepted and each of its queries agrees with each honest one wherever
/// both check; or the error of `verify_batch_pruned` for the claimed opening.
///
/// # Errors
///
/// The first of these that applies, where `OutOfMemory` may come at any time, also as the verdict or as what is found:
///
/// - `EmptyBatch`, `TooLarge` or `IncompatibleHeights` if the matrices have such heights;
/// - `IndexOutOfBounds` for the highest index, if it is not below the tallest height.
pub fn commit_compare_pruned<
    P: PackedValue,
    PW: PackedValue,
    H: CryptographicHasher<P, PW, D>,
    C: PseudoCompressionFunction<PW, N, D>,
    M: Matrix<P::Value> + Drop,
    const N: usize,
    const D: usize,
>(
    alloc: Global,
    scheme: &MerkleTreeMmcs<P, PW, H, C, N, D>,
    matrices: Vec<M>,
    indices: &[usize],
    rows: &[Vec<Vec<P::Value>>],
    proof: &PrunedMerklePaths<PW::Value, D>,
) -> Result<ComparedPruned<P::Value, PW::Value, M, N, D>, MerkleTreeError>
    ensures answer { let heights = heights_in M.height_of M.width_of M.row_of matrices.items in
        AnswersUnlessMemory result (open_refusal heights indices.now) }
    ensures matrices { IfOk result (λ v. matrices_of v.tree ≡ matrices.items) }
    ensures committed { IfOk result (λ v. Commits scheme.now (roots_of v.cap) v.tree) }
    ensures opened { IfOk result (λ v.
        IsHonestPruned scheme.now v.tree (roots_of v.cap) (pruned_owned indices.now v.opening)) }
    ensures verdict { IfOk result (λ v. IfErr v.verdict (λ e. e ≡ OutOfMemory)) }
    ensures compared { let compares = IsPrunedComparison P.Value.eq PW.Value.eq (cap_rule_of scheme.now) in
        IfOk result (λ v. compares (params_of scheme.now (shape (tree_batch v.tree))) (roots_of v.cap)
        (pruned_borrowed indices.now rows.now proof.now) (pruned_owned indices.now v.opening) v.found) }
{
    laws::answers::<P::Value, PW::Value>();
    laws::extraction::<P::Value, PW::Value>();
    let (cap, tree, dimensions) = committed(alloc, scheme, matrices, indices)?;
    let opening = scheme.open_batch_pruned(alloc, indices, &tree)?;
    let (honest_rows, honest_proof) = (&opening.opened_values, &opening.pruned_proof);
    let verdict = scheme.verify_batch_pruned(
        alloc,
        &cap,
        &dimensions,
        indices,
        honest_rows,
        honest_proof,
    );
    let found = scheme.extract_collision_multi(
        alloc,
        &cap,
        &dimensions,
        indices,
        rows,
        proof,
        indices,
        honest_rows,
        honest_proof,
    );
    Ok(Compared {
        cap,
        tree,
        opening,
        verdict,
        found,
    })
}
