//! The trait `Mmcs` for the scheme, so that callers can be generic in the scheme.

ghost use Rattle.std.specs.Prelude.{◌≡◌, ◌<◌, All, IfErr, IfOk, List, map};
ghost use Rattle.p3_merkle_prover.specs.Parts.{layers_of, matrices_of, tree_batch};
ghost use Rattle.p3_merkle_core.specs.Commitments.{HaveProof, IsCommitment};
ghost use Rattle.p3_merkle_core.specs.Gate.{gate_refusal};
ghost use Rattle.p3_merkle_core.specs.Geometry.{heights, shape_of, IsLawful, halved_index};
ghost use Rattle.p3_merkle_core.specs.Nodes.{shape};
ghost use Rattle.p3_merkle_core.specs.Openings.{opening_of};
ghost use Rattle.p3_merkle_core.specs.Checks.{IsAccepted};
ghost use Rattle.p3_merkle_core.specs.Presented.{IsExactVerdict, IsVerdict};
ghost use Rattle.p3_merkle_core.specs.Pruning.{pruned_of, IsPrunedAccepted};
ghost use Rattle.p3_merkle_core.specs.Refusals.{pruned_refusal_under, refusal_under, AnswersUnlessMemory};
ghost use Rattle.p3_merkle_core.specs.declared.error.MerkleTreeError.TheVariants.{OutOfMemory};
ghost use Rattle.p3_merkle_core.specs.Views.{heights_in, pruned_of_pair, opening_owned};
ghost use Rattle.p3_merkle_tree.specs.Committed.{presented_all, presented_one, Commits, Opens, OpensPruned};
ghost use Rattle.p3_merkle_tree.specs.Inner.CommitmentLaws.{at_same, each_shown, row_in_matrix, same_is_equivalence};
ghost use Rattle.p3_merkle_tree.specs.Inner.CommitmentLaws.{shown_rows_fit, tallest_at_index};
ghost use Rattle.p3_merkle_tree.specs.Schemes.{cap_layer_of, functions_of, params_of, IsSameScheme};
ghost use Rattle.p3_support.specs.Batches.{dimensions_in, greatest, rows_in};
ghost use Rattle.p3_support.specs.Shown.{roots_of, row_lists, row_sets};

use crate::mmcs::MerkleTreeMmcs;
use p3_merkle_core::error::MerkleTreeError;
use p3_merkle_core::pruning::PrunedMerklePaths;
use p3_merkle_prover::tree::{MerkleTree, Tree};
use p3_support::compress::PseudoCompressionFunction;
use p3_support::hasher::CryptographicHasher;
use p3_support::matrix::{Dimensions, Matrix};
use p3_support::mmcs::Mmcs;
use p3_support::opening::{BatchOpening, BatchOpeningRef, MerkleCap};
use p3_support::packed::PackedValue;
use std::alloc::Global;

/// The scheme as an `Mmcs`. The prover's data is the tree, and the commitment is its cap. Each call is the scheme's own
/// call of its name, with the same errors: `self.open_batch` means the method of the type, which comes before the
/// trait's.
impl<
    P: PackedValue,
    PW: PackedValue,
    H: CryptographicHasher<P, PW, D>,
    C: PseudoCompressionFunction<PW, N, D>,
    M: Matrix<P::Value> + Drop,
    const N: usize,
    const D: usize,
> Mmcs<P::Value, M> for MerkleTreeMmcs<P, PW, H, C, N, D> {
    type ProverData = MerkleTree<P::Value, PW::Value, M, N, D>;

    type Commitment = MerkleCap<P::Value, [PW::Value; D]>;

    type Proof = Vec<[PW::Value; D]>;

    type MultiProof = PrunedMerklePaths<PW::Value, D>;

    type Error = MerkleTreeError;

    ghost is_out_of_memory = { λ e. e ≡ OutOfMemory };

    ghost agrees = { λ s t. IsSameScheme s t };

    ghost can_commit = { λ ms. IsLawful (heights_in M.height_of M.width_of M.row_of ms) };

    ghost commit_refusal = { λ ms. gate_refusal (heights_in M.height_of M.width_of M.row_of ms) };

    ghost matrices_in = { λ tree. matrices_of tree };

    ghost commits_to = { λ s cap tree. Commits s (roots_of cap) tree };

    ghost row_at = { halved_index };

    ghost is_shown = { λ s cap dimensions index rows.
        HaveProof (params_of s (shape_of N dimensions)) (roots_of cap) index rows };

    ghost accepts = { λ s cap dimensions index rows siblings.
        IsAccepted (params_of s (shape_of N dimensions)) (roots_of cap) (opening_of index rows siblings.items) };

    ghost accepts_all = { λ s cap dimensions indices sets proof.
        IsPrunedAccepted (params_of s (shape_of N dimensions)) (roots_of cap)
        (pruned_of indices sets proof.sibling_hashes.items) };

    ghost refusal = { λ s cap dimensions index rows siblings.
        refusal_under PW.Value.eq (params_of s (shape_of N dimensions)) (roots_of cap)
        (opening_of index rows siblings.items) };

    ghost refusal_of_all = { λ s cap dimensions indices sets proof.
        pruned_refusal_under P.Value.eq PW.Value.eq (params_of s (shape_of N dimensions)) (roots_of cap)
        (pruned_of indices sets proof.sibling_hashes.items) };

    fn commit(
        &mut self,
        alloc: Global,
        matrices: Vec<M>,
    ) -> Result<(Self::Commitment, Self::ProverData), Self::Error>
        ensures agrees { IsSameScheme self.old self.new }
        ensures matrices_accepted { IfOk result
            (λ made. IsLawful (heights_in M.height_of M.width_of M.row_of matrices.items)) }
        ensures matrices { IfOk result (λ made. matrices_of made.1 ≡ matrices.items) }
        ensures commitment { IfOk result (λ made. Commits self.new (roots_of made.0) made.1) }
        ensures answer { AnswersUnlessMemory result
            (gate_refusal (heights_in M.height_of M.width_of M.row_of matrices.items)) }
        ensures unchanged { self.new ≡ self.old }
        ensures memory { IsLawful (heights_in M.height_of M.width_of M.row_of matrices.items) →
            IfErr result (λ e. e ≡ OutOfMemory) }
    {
        Self::commit(self, alloc, matrices)
    }

    fn open_batch(
        &self,
        alloc: Global,
        index: usize,
        prover_data: &Self::ProverData,
    ) -> Result<BatchOpening<P::Value, Self::Proof>, Self::Error>
        requires { index < greatest (map M.height_of (matrices_of prover_data.now)) }
        ensures rows { let ms = matrices_of prover_data.now in
            IfOk result (λ o. row_lists o.opened_values.items ≡
            rows_in M.height_of M.row_of halved_index (greatest (map M.height_of ms)) ms index) }
        ensures opened { IfOk result (λ o. Opens self.now prover_data.now (opening_owned index o)) }
        ensures accepted { let dimensions = dimensions_in M.height_of M.width_of (matrices_of prover_data.now) in
            (roots : List (List PW.Value)) → Commits self.now roots prover_data.now →
            IfOk result (λ o. IsAccepted (params_of self.now (shape_of N dimensions)) roots (opening_owned index o)) }
        ensures memory { IfErr result (λ e. e ≡ OutOfMemory) }
    {
        lemma_index(prover_data, index);
        self.open_batch(alloc, index, prover_data)
    }

    fn get_matrices<'a>(
        &self,
        alloc: Global,
        prover_data: &'a Self::ProverData,
    ) -> Result<Vec<&'a M>, Self::Error> {
        self.get_matrices(alloc, prover_data)
    }

    fn get_max_height(&self, prover_data: &Self::ProverData) -> usize {
        self.get_max_height(prover_data)
    }

    fn verify_batch(
        &self,
        alloc: Global,
        commitment: &Self::Commitment,
        dimensions: &[Dimensions],
        index: usize,
        opening: BatchOpeningRef<'_, P::Value, Self::Proof>,
    ) -> Result<(), Self::Error>
        ensures { IsExactVerdict (presented_one self.now dimensions.now commitment.now index opening.entry) result }
    {
        self.verify_batch(commitment, dimensions, index, opening)
    }

    fn open_multi_batch(
        &self,
        alloc: Global,
        indices: &[usize],
        prover_data: &Self::ProverData,
    ) -> Result<(Vec<Vec<Vec<P::Value>>>, Self::MultiProof), Self::Error>
        requires { All (λ index. index < greatest (map M.height_of (matrices_of prover_data.now))) indices.now }
        ensures rows { let ms = matrices_of prover_data.now in
            IfOk result (λ o. row_sets o.0.items ≡
            map (rows_in M.height_of M.row_of halved_index (greatest (map M.height_of ms)) ms) indices.now) }
        ensures opened { IfOk result (λ o. OpensPruned self.now prover_data.now (pruned_of_pair indices.now o)) }
        ensures accepted { let dimensions = dimensions_in M.height_of M.width_of (matrices_of prover_data.now) in
            let c = params_of self.now (shape_of N dimensions) in
            (roots : List (List PW.Value)) → Commits self.now roots prover_data.now →
            IfOk result (λ o. IsPrunedAccepted c roots (pruned_of_pair indices.now o)) }
        ensures memory { IfErr result (λ e. e ≡ OutOfMemory) }
    {
        lemma_indices(prover_data, indices);
        self.open_multi_batch(alloc, indices, prover_data)
    }

    fn verify_multi_batch(
        &self,
        alloc: Global,
        commitment: &Self::Commitment,
        dimensions: &[Dimensions],
        indices: &[usize],
        rows: &[Vec<Vec<P::Value>>],
        proof: &Self::MultiProof,
    ) -> Result<(), Self::Error>
        ensures { IsVerdict (presented_all self.now dimensions.now commitment.now indices.now rows.now proof.now)
            result }
    {
        self.verify_multi_batch(alloc, commitment, dimensions, indices, rows, proof)
    }

    ghost row_of_tallest = { tallest_at_index };

    ghost row_below = { λ tree. row_in_matrix M.height_of M.width_of M.row_of N (matrices_of tree) tree.lawful };

    ghost shown_by_one = { λ s cap dimensions index rows siblings accepted.
        record { siblings = siblings.items; is_accepted = accepted } };

    ghost shown_by_all = { λ s cap dimensions indices sets proof accepted.
        each_shown (params_of s (shape_of N dimensions)) (roots_of cap)
        (pruned_of indices sets proof.sibling_hashes.items) accepted };

    ghost shown_fits = { λ s cap dimensions index rows.
        shown_rows_fit (functions_of s) N (cap_layer_of s (shape_of N dimensions)) dimensions (roots_of cap) index
        rows };

    ghost agreement = { same_is_equivalence };

    ghost agreed_commitment = { λ s t cap tree. let b = tree_batch tree in
        at_same (shape b) s t (λ c. IsCommitment c (roots_of cap) b (layers_of tree)) };

    ghost agreed_proof = { λ s t cap dimensions index rows siblings.
        at_same (shape_of N dimensions) s t
        (λ c. IsAccepted c (roots_of cap) (opening_of index rows siblings.items)) };

    ghost agreed_proof_of_all = { λ s t cap dimensions indices sets proof.
        at_same (shape_of N dimensions) s t
        (λ c. IsPrunedAccepted c (roots_of cap) (pruned_of indices sets proof.sibling_hashes.items)) };
}

/// States that an index below the tallest matrix's height is below the tallest height of the tree's shape.
fn lemma_index<F, X, G, M: Matrix<F>, const N: usize>(tree: &Tree<F, X, G, M, N>, index: usize)
    requires { index < greatest (map M.height_of (matrices_of tree.now)) }
    ensures { index < greatest (heights (shape (tree_batch tree.now))) }
{}

/// States of several indices what [`lemma_index`] states of one.
fn lemma_indices<F, X, G, M: Matrix<F>, const N: usize>(
    tree: &Tree<F, X, G, M, N>,
    indices: &[usize],
)
    requires { All (λ index. index < greatest (map M.height_of (matrices_of tree.now))) indices.now }
    ensures { All (λ index. index < greatest (heights (shape (tree_batch tree.now)))) indices.now }
{}
