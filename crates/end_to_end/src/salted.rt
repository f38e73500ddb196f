//! The salted scheme: what it opens of its own commitment is accepted; and an opening that anybody presents has the
//! committed row of each authenticated matrix, or a collision is returned.

ghost use Rattle.std.specs.Prelude.{◌≡◌, ◌<◌, ◌⊎◌, [], ◌∷◌, All, IfErr, IfOk, IsOk, IsSome, map, slice_index};
ghost use Rattle.end_to_end.specs.Honest.{IsHonestSalted, IsHonestSaltedPruned};
ghost use Rattle.end_to_end.specs.Refusals.{salted_open_refusal};
ghost use Rattle.end_to_end.specs.Comparisons.{IsSaltedComparison, IsSaltedPrunedComparison};
ghost use Rattle.p3_merkle_tree.specs.Geometry.{heights};
ghost use Rattle.p3_merkle_tree.specs.HidingSchemes.{generator_of, salted_owned, salted_pruned_borrowed};
ghost use Rattle.p3_merkle_tree.specs.HidingSchemes.{salted_pruned_owned, plain_of, salted_borrowed, salted_params_of};
ghost use Rattle.p3_merkle_tree.specs.MerkleTreeError.TheVariants.{OutOfMemory};
ghost use Rattle.p3_merkle_tree.specs.Nodes.{shape};
ghost use Rattle.p3_merkle_tree.specs.Parts.{matrices_of, tree_batch};
ghost use Rattle.p3_merkle_tree.specs.Refusals.{AnswersUnlessMemory};
ghost use Rattle.p3_merkle_tree.specs.Salted.{salted_batch};
ghost use Rattle.p3_merkle_tree.specs.SaltRefusals.{salted_commit_refusal};
ghost use Rattle.p3_merkle_tree.specs.SaltedOpened.{CommitsSalted, Draws};
ghost use Rattle.p3_merkle_tree.specs.SaltedTrees.{unsalted_dimensions};
ghost use Rattle.p3_merkle_tree.specs.Views.{batch_of};
ghost use Rattle.p3_merkle_tree.specs.Schemes.{cap_rule_of};
ghost use Rattle.p3_support.specs.Batches.{greatest};
ghost use Rattle.p3_support.specs.Pairs.{left_of};
ghost use Rattle.p3_support.specs.Shown.{roots_of};

use crate::Compared;
use p3_merkle_tree::{
    BatchOpening, BatchOpeningRef, Collision, MerkleCap, MerkleTreeError, MerkleTreeHidingMmcs,
    SaltedMultiProof, SaltedProof, SaltedTree, check_indices, laws,
};
use p3_support::compress::PseudoCompressionFunction;
use p3_support::hasher::CryptographicHasher;
use p3_support::matrix::{Dimensions, Matrix, dimensions_of};
use p3_support::packed::PackedValue;
use p3_support::salts::SaltWord;
use rand_core::CryptoRng;
use std::alloc::Global;

/// The rows of several indices, and their proof.
pub type SaltedRows<T, W, const D: usize> = (Vec<Vec<Vec<T>>>, SaltedMultiProof<T, W, D>);

/// A salted commitment to matrices: the cap, the tree, and the dimensions of the matrices without salts.
type SaltedCommitted<T, W, M, const N: usize, const D: usize> = (
    MerkleCap<T, [W; D]>,
    SaltedTree<T, W, M, N, D>,
    Vec<Dimensions>,
);

/// What an opening of one index comes to.
pub type SaltedComparedOpening<T, W, M, const N: usize, const D: usize> = Compared<
    MerkleCap<T, [W; D]>,
    SaltedTree<T, W, M, N, D>,
    BatchOpening<T, SaltedProof<T, W, D>>,
    Collision<T, W, D>,
>;

/// What a pruned opening of several indices comes to. A collision stands beside the places of its two queries.
pub type SaltedComparedPruned<T, W, M, const N: usize, const D: usize> = Compared<
    MerkleCap<T, [W; D]>,
    SaltedTree<T, W, M, N, D>,
    SaltedRows<T, W, D>,
    (usize, usize, Collision<T, W, D>),
>;

/// Commits to matrices, with salts for each row, and then checks that they have all the indices: if they have not, the
/// salts are drawn already. Returns the cap, the tree, and the dimensions of the matrices without salts. The errors are
/// those of the salted `commit`, then that of [`check_indices`].
fn salted_committed<
    P: PackedValue,
    PW: PackedValue,
    H: CryptographicHasher<P, PW, D>,
    C: PseudoCompressionFunction<PW, N, D>,
    R: CryptoRng,
    M: Matrix<P::Value> + Drop,
    const N: usize,
    const D: usize,
    const SALT_ELEMS: usize,
>(
    alloc: Global,
    scheme: &mut MerkleTreeHidingMmcs<P, PW, H, C, R, N, D, SALT_ELEMS>,
    matrices: Vec<M>,
    indices: &[usize],
) -> Result<SaltedCommitted<P::Value, PW::Value, M, N, D>, MerkleTreeError>
where
    P::Value: SaltWord,
    ensures answer { let b = batch_of M.height_of M.width_of M.row_of N matrices.items in
        AnswersUnlessMemory result (salted_open_refusal SALT_ELEMS (shape b).dimensions indices.now) }
    ensures matrices { IfOk result (λ (cap, tree, dimensions). map left_of (matrices_of tree) ≡ matrices.items) }
    ensures salted { let b = batch_of M.height_of M.width_of M.row_of N matrices.items in
        let salted = salted_batch P.Value.of_salt_word SALT_ELEMS b (R.stream (generator_of scheme.old)) in
        IfOk result (λ (cap, tree, dimensions). tree_batch tree ≡ salted) }
    ensures committed { IfOk result (λ (cap, tree, dimensions). CommitsSalted scheme.new (roots_of cap) tree) }
    ensures dimensions { IfOk result (λ (cap, tree, dimensions).
        dimensions.items ≡ unsalted_dimensions N (matrices_of tree)) }
    ensures below { IfOk result (λ (cap, tree, dimensions).
        All (λ index. index < greatest (heights (shape (tree_batch tree)))) indices.now) }

    // The same of an index that is alone in its list, for calls that need it so.
    ensures first { IfOk result (λ (cap, tree, dimensions).
        slice_index indices.now 0 < greatest (heights (shape (tree_batch tree)))) }
    ensures drawn { let b = batch_of M.height_of M.width_of M.row_of N matrices.items in
        Draws R.stream b.matrices scheme.old scheme.new result }
    ensures untouched { let b = batch_of M.height_of M.width_of M.row_of N matrices.items in
        IsSome (salted_commit_refusal SALT_ELEMS (shape b).dimensions) →
        IfErr result (λ e. (e ≡ OutOfMemory) ⊎ (generator_of scheme.new ≡ generator_of scheme.old)) }
{
    laws::dimensions::<P::Value, M, N>();
    let dimensions = dimensions_of(alloc, &matrices)?;
    let (cap, tree) = scheme.commit(alloc, matrices)?;
    check_indices(scheme.get_max_height(&tree), indices)?;
    Ok((cap, tree, dimensions))
}

/// Commits to matrices with `SALT_ELEMS` salts for each row, opens the row of each that belongs to an index, with its
/// salts, verifies the opening under the cap, and compares an opening that anybody claims for this index with it. What
/// is found is a collision of both; or `None`, if the claimed one is accepted and has the honest siblings, and the
/// honest row and salts of each authenticated matrix; or the error of the salted `verify_batch` for the claimed one.
///
/// # Errors
///
/// The first of these that applies, where `OutOfMemory` may come at any time, also as what is found:
///
/// - `EmptyBatch`, `TooLarge` or `IncompatibleHeights` if the matrices have such heights;
/// - `TooLarge` for the first matrix whose width with its salts does not fit `usize`;
/// - `IndexOutOfBounds` if the index is not below the tallest height. This is found after the salts are drawn.
pub fn salted_commit_compare<
    P: PackedValue,
    PW: PackedValue,
    H: CryptographicHasher<P, PW, D>,
    C: PseudoCompressionFunction<PW, N, D>,
    R: CryptoRng,
    M: Matrix<P::Value> + Drop,
    const N: usize,
    const D: usize,
    const SALT_ELEMS: usize,
>(
    alloc: Global,
    scheme: &mut MerkleTreeHidingMmcs<P, PW, H, C, R, N, D, SALT_ELEMS>,
    matrices: Vec<M>,
    index: usize,
    claimed: BatchOpeningRef<'_, P::Value, SaltedProof<P::Value, PW::Value, D>>,
) -> Result<SaltedComparedOpening<P::Value, PW::Value, M, N, D>, MerkleTreeError>
where
    P::Value: SaltWord,
    ensures answer { let b = batch_of M.height_of M.width_of M.row_of N matrices.items in
        AnswersUnlessMemory result (salted_open_refusal SALT_ELEMS (shape b).dimensions (index ∷ [])) }
    ensures matrices { IfOk result (λ v. map left_of (matrices_of v.tree) ≡ matrices.items) }
    ensures salted { let b = batch_of M.height_of M.width_of M.row_of N matrices.items in
        let drawn = R.stream (generator_of scheme.old) in
        IfOk result (λ v. tree_batch v.tree ≡ salted_batch P.Value.of_salt_word SALT_ELEMS b drawn) }
    ensures committed { IfOk result (λ v. CommitsSalted scheme.new (roots_of v.cap) v.tree) }
    ensures opened { IfOk result (λ v.
        IsHonestSalted scheme.new v.tree (roots_of v.cap) (salted_owned index v.opening)) }
    ensures verdict { IfOk result (λ v. IsOk v.verdict) }
    ensures compared { let compares = IsSaltedComparison PW.Value.eq (cap_rule_of (plain_of scheme.new)) SALT_ELEMS in
        IfOk result (λ v. let dimensions = unsalted_dimensions N (matrices_of v.tree) in
        compares dimensions (salted_params_of scheme.new dimensions) (roots_of v.cap)
        (salted_borrowed index claimed.entry) (salted_owned index v.opening) v.found) }
    ensures drawn { let b = batch_of M.height_of M.width_of M.row_of N matrices.items in
        Draws R.stream b.matrices scheme.old scheme.new result }
    ensures untouched { let b = batch_of M.height_of M.width_of M.row_of N matrices.items in
        IsSome (salted_commit_refusal SALT_ELEMS (shape b).dimensions) →
        IfErr result (λ e. (e ≡ OutOfMemory) ⊎ (generator_of scheme.new ≡ generator_of scheme.old)) }
{
    laws::answers::<P::Value, PW::Value>();
    let (cap, tree, dimensions) = salted_committed(alloc, scheme, matrices, &[index])?;
    let opening = scheme.open_batch(alloc, index, &tree)?;
    let honest = BatchOpeningRef::from(&opening);
    let verdict = scheme.verify_batch(&cap, &dimensions, index, honest);
    let found = scheme.extract_collision(alloc, &cap, &dimensions, index, claimed, index, honest);
    Ok(Compared {
        cap,
        tree,
        opening,
        verdict,
        found,
    })
}

/// Commits to matrices with `SALT_ELEMS` salts for each row, opens the rows that belong to several indices by one
/// proof, with their salts, verifies the opening under the cap, and compares an opening that anybody claims for these
/// indices with it: a row set and a salt set for each index, and a pruned proof. The indices may come in any order,
/// with repeats.
///
/// What is found is the place of a claimed query in the list of indices, the place of an honest one, and the collision
/// of both; or `None`, if the claimed opening is accepted and each of its queries agrees with each honest one wherever
/// both check; or the error of the salted `verify_multi_batch` for the claimed opening.
///
/// # Errors
///
/// The first of these that applies, where `OutOfMemory` may come at any time, also as the verdict or as what is found:
///
/// - `EmptyBatch`, `TooLarge` or `IncompatibleHeights` if the matrices have such heights;
/// - `TooLarge` for the first matrix whose width with its salts does not fit `usize`;
/// - `IndexOutOfBounds` for the highest index, if it is not below the tallest height. This is found after the salts are
///   drawn.
pub fn salted_commit_compare_pruned<
    P: PackedValue,
    PW: PackedValue,
    H: CryptographicHasher<P, PW, D>,
    C: PseudoCompressionFunction<PW, N, D>,
    R: CryptoRng,
    M: Matrix<P::Value> + Drop,
    const N: usize,
    const D: usize,
    const SALT_ELEMS: usize,
>(
    alloc: Global,
    scheme: &mut MerkleTreeHidingMmcs<P, PW, H, C, R, N, D, SALT_ELEMS>,
    matrices: Vec<M>,
    indices: &[usize],
    rows: &[Vec<Vec<P::Value>>],
    proof: &SaltedMultiProof<P::Value, PW::Value, D>,
) -> Result<SaltedComparedPruned<P::Value, PW::Value, M, N, D>, MerkleTreeError>
where
    P::Value: SaltWord,
    ensures answer { let b = batch_of M.height_of M.width_of M.row_of N matrices.items in
        AnswersUnlessMemory result (salted_open_refusal SALT_ELEMS (shape b).dimensions indices.now) }
    ensures matrices { IfOk result (λ v. map left_of (matrices_of v.tree) ≡ matrices.items) }
    ensures salted { let b = batch_of M.height_of M.width_of M.row_of N matrices.items in
        let drawn = R.stream (generator_of scheme.old) in
        IfOk result (λ v. tree_batch v.tree ≡ salted_batch P.Value.of_salt_word SALT_ELEMS b drawn) }
    ensures committed { IfOk result (λ v. CommitsSalted scheme.new (roots_of v.cap) v.tree) }
    ensures opened { IfOk result (λ v.
        IsHonestSaltedPruned scheme.new v.tree (roots_of v.cap) (salted_pruned_owned indices.now v.opening)) }
    ensures verdict { IfOk result (λ v. IfErr v.verdict (λ e. e ≡ OutOfMemory)) }
    ensures compared { let rule = cap_rule_of (plain_of scheme.new) in
        let compares = IsSaltedPrunedComparison P.Value.eq PW.Value.eq rule SALT_ELEMS in
        IfOk result (λ v. let dimensions = unsalted_dimensions N (matrices_of v.tree) in
        compares dimensions (salted_params_of scheme.new dimensions) (roots_of v.cap)
        (salted_pruned_borrowed indices.now rows.now proof.now) (salted_pruned_owned indices.now v.opening) v.found) }
    ensures drawn { let b = batch_of M.height_of M.width_of M.row_of N matrices.items in
        Draws R.stream b.matrices scheme.old scheme.new result }
    ensures untouched { let b = batch_of M.height_of M.width_of M.row_of N matrices.items in
        IsSome (salted_commit_refusal SALT_ELEMS (shape b).dimensions) →
        IfErr result (λ e. (e ≡ OutOfMemory) ⊎ (generator_of scheme.new ≡ generator_of scheme.old)) }
{
    laws::answers::<P::Value, PW::Value>();
    laws::extraction::<P::Value, PW::Value>();
    let (cap, tree, dimensions) = salted_committed(alloc, scheme, matrices, indices)?;
    let opening = scheme.open_multi_batch(alloc, indices, &tree)?;
    let (honest_rows, honest_proof) = &opening;
    let verdict = scheme.verify_multi_batch(
        alloc,
        &cap,
        &dimensions,
        indices,
        honest_rows,
        honest_proof,
    );
    let found = scheme.extract_collision_multi(
        alloc,
        &cap,
        &dimensions,
        indices,
        rows,
        proof,
        indices,
        honest_rows,
        honest_proof,
    );
    Ok(Compared {
        cap,
        tree,
        opening,
        verdict,
        found,
    })
}
