//! The trait `Mmcs` for the salted scheme, so that callers can be generic in the scheme.

ghost use Rattle.std.specs.Prelude.{◌≡◌, ◌⊎◌, ◌<◌, All, IfErr, IfOk, List, map};
ghost use Rattle.p3_support.specs.Batches.{widened};
ghost use Rattle.p3_merkle_prover.specs.Parts.{layers_of, matrices_of, tree_batch};
ghost use Rattle.p3_merkle_core.specs.Commitments.{IsCommitment};
ghost use Rattle.p3_merkle_core.specs.Geometry.{shape_of, halved_index};
ghost use Rattle.p3_merkle_core.specs.Nodes.{shape};
ghost use Rattle.p3_merkle_core.specs.Presented.{IsExactVerdict, IsVerdict};
ghost use Rattle.p3_merkle_core.specs.Refusals.{AnswersUnlessMemory};
ghost use Rattle.p3_merkle_core.specs.Views.{batch_of};
ghost use Rattle.p3_merkle_core.specs.declared.error.MerkleTreeError.TheVariants.{OutOfMemory};
ghost use Rattle.p3_merkle_tree.specs.Inner.CommitmentLaws.{at_same, row_in_matrix, tallest_at_index};
ghost use Rattle.p3_merkle_tree.specs.Schemes.{cap_layer_of, functions_of, IsSameScheme};
ghost use Rattle.p3_support.specs.Batches.{dimensions_in, greatest, rows_in};
ghost use Rattle.p3_support.specs.Pairs.{left_of};
ghost use Rattle.p3_support.specs.Shown.{roots_of, row_lists, row_sets};
ghost use Rattle.p3_merkle_tree.specs.HidingSchemes.{generator_of, plain_of, presented_all, presented_one};
ghost use Rattle.p3_merkle_tree.specs.HidingSchemes.{salted_owned, salted_params_of, salted_pruned_owned};
ghost use Rattle.p3_merkle_tree.specs.Inner.SaltedCommitmentLaws.{each_salted_shown, left_lawful, salted_rows_fit};
ghost use Rattle.p3_merkle_tree.specs.Inner.SaltedCommitmentLaws.{same_plain_is_equivalence};
ghost use Rattle.p3_merkle_tree.specs.SaltedCommitments.{CanCommitSalted, HaveSaltedProof};
ghost use Rattle.p3_merkle_tree.specs.Salted.{salted_batch};
ghost use Rattle.p3_merkle_tree.specs.SaltRefusals.{salted_commit_refusal};
ghost use Rattle.p3_merkle_tree.specs.SaltRefusals.{salted_pruned_refusal_under, salted_refusal_under};
ghost use Rattle.p3_merkle_tree.specs.SaltedOpened.{CommitsSalted, Draws, OpensSalted, OpensSaltedPruned};
ghost use Rattle.p3_merkle_tree.specs.SaltedOpenings.{salted_of, salted_pruned_of, IsSaltedAccepted};
ghost use Rattle.p3_merkle_tree.specs.SaltedOpenings.{IsSaltedPrunedAccepted};

use crate::hiding_mmcs::{MerkleTreeHidingMmcs, SaltedMultiProof, SaltedProof, SaltedTree};
use p3_merkle_core::error::MerkleTreeError;
use p3_support::compress::PseudoCompressionFunction;
use p3_support::hasher::CryptographicHasher;
use p3_support::matrix::{Dimensions, Matrix};
use p3_support::mmcs::Mmcs;
use p3_support::opening::{BatchOpening, BatchOpeningRef, MerkleCap};
use p3_support::packed::PackedValue;
use p3_support::salts::SaltWord;
use rand_core::CryptoRng;
use std::alloc::Global;

/// The salted scheme as an `Mmcs`. The commitment is the cap of a tree over matrices beside their salts. A commitment
/// changes the scheme in its generator alone. Each call is the scheme's own call of its name, with the same errors:
/// `self.open_batch` means the method of the type, which comes before the trait's.
impl<
    P: PackedValue,
    PW: PackedValue,
    H: CryptographicHasher<P, PW, D>,
    C: PseudoCompressionFunction<PW, N, D>,
    R: CryptoRng,
    M: Matrix<P::Value> + Drop,
    const N: usize,
    const D: usize,
    const SALT_ELEMS: usize,
> Mmcs<P::Value, M> for MerkleTreeHidingMmcs<P, PW, H, C, R, N, D, SALT_ELEMS>
where
    P::Value: SaltWord,
{
    type ProverData = SaltedTree<P::Value, PW::Value, M, N, D>;

    type Commitment = MerkleCap<P::Value, [PW::Value; D]>;

    type Proof = SaltedProof<P::Value, PW::Value, D>;

    type MultiProof = SaltedMultiProof<P::Value, PW::Value, D>;

    type Error = MerkleTreeError;

    ghost is_out_of_memory = { λ e. e ≡ OutOfMemory };

    ghost agrees = { λ s t. IsSameScheme (plain_of s) (plain_of t) };

    ghost can_commit = { λ ms. CanCommitSalted M.height_of M.width_of M.row_of SALT_ELEMS ms };

    ghost commit_refusal = { λ ms.
        salted_commit_refusal SALT_ELEMS (dimensions_in M.height_of M.width_of ms) };

    ghost matrices_in = { λ tree. map left_of (matrices_of tree) };

    ghost commits_to = { λ s cap tree. CommitsSalted s (roots_of cap) tree };

    ghost row_at = { halved_index };

    ghost is_shown = { λ s cap dimensions index rows.
        HaveSaltedProof SALT_ELEMS dimensions (salted_params_of s dimensions) (roots_of cap) index rows };

    ghost accepts = { λ s cap dimensions index rows proof.
        IsSaltedAccepted SALT_ELEMS dimensions (salted_params_of s dimensions) (roots_of cap)
        (salted_of index rows (row_lists proof.0.items) proof.1.items) };

    ghost accepts_all = { λ s cap dimensions indices sets proof.
        IsSaltedPrunedAccepted SALT_ELEMS dimensions (salted_params_of s dimensions) (roots_of cap)
        (salted_pruned_of indices sets (row_sets proof.0.items) proof.1.sibling_hashes.items) };

    ghost refusal = { λ s cap dimensions index rows proof.
        salted_refusal_under PW.Value.eq SALT_ELEMS dimensions (salted_params_of s dimensions) (roots_of cap)
        (salted_of index rows (row_lists proof.0.items) proof.1.items) };

    ghost refusal_of_all = { λ s cap dimensions indices sets proof.
        salted_pruned_refusal_under P.Value.eq PW.Value.eq SALT_ELEMS dimensions
        (salted_params_of s dimensions) (roots_of cap)
        (salted_pruned_of indices sets (row_sets proof.0.items) proof.1.sibling_hashes.items) };

    fn commit(
        &mut self,
        alloc: Global,
        matrices: Vec<M>,
    ) -> Result<(Self::Commitment, Self::ProverData), Self::Error>
        ensures agrees { IsSameScheme (plain_of self.old) (plain_of self.new) }
        ensures matrices_accepted { IfOk result
            (λ made. CanCommitSalted M.height_of M.width_of M.row_of SALT_ELEMS matrices.items) }
        ensures matrices { IfOk result (λ made. map left_of (matrices_of made.1) ≡ matrices.items) }
        ensures commitment { IfOk result (λ made. CommitsSalted self.new (roots_of made.0) made.1) }
        ensures answer { AnswersUnlessMemory result
            (salted_commit_refusal SALT_ELEMS (dimensions_in M.height_of M.width_of matrices.items)) }
        ensures batch { let b = batch_of M.height_of M.width_of M.row_of N matrices.items in
            let drawn = R.stream (generator_of self.old) in
            IfOk result (λ made. tree_batch made.1 ≡ salted_batch P.Value.of_salt_word SALT_ELEMS b drawn) }
        ensures drawn { let b = batch_of M.height_of M.width_of M.row_of N matrices.items in
            Draws R.stream b.matrices self.old self.new result }
        ensures untouched { IfErr result (λ e. (e ≡ OutOfMemory) ⊎ (self.new ≡ self.old)) }
        ensures memory { CanCommitSalted M.height_of M.width_of M.row_of SALT_ELEMS matrices.items →
            IfErr result (λ e. e ≡ OutOfMemory) }
    {
        Self::commit(self, alloc, matrices)
    }

    #[tactic(auto, using(crate::specs::Inner::SaltedCommitmentLaws::left_greatest))]
    fn open_batch(
        &self,
        alloc: Global,
        index: usize,
        prover_data: &Self::ProverData,
    ) -> Result<BatchOpening<P::Value, Self::Proof>, Self::Error>
        requires { index < greatest (map M.height_of (map left_of (matrices_of prover_data.now))) }
        ensures rows { let ms = map left_of (matrices_of prover_data.now) in
            IfOk result (λ o. row_lists o.opened_values.items ≡
            rows_in M.height_of M.row_of halved_index (greatest (map M.height_of ms)) ms index) }
        ensures opened { IfOk result (λ o. OpensSalted self.now prover_data.now (salted_owned index o)) }
        ensures accepted { let dimensions = dimensions_in M.height_of M.width_of
            (map left_of (matrices_of prover_data.now)) in
            (roots : List (List PW.Value)) → CommitsSalted self.now roots prover_data.now →
            IfOk result (λ o. IsSaltedAccepted SALT_ELEMS dimensions (salted_params_of self.now dimensions) roots
            (salted_owned index o)) }
        ensures memory { IfErr result (λ e. e ≡ OutOfMemory) }
    {
        self.open_batch(alloc, index, prover_data)
    }

    fn get_matrices<'a>(
        &self,
        alloc: Global,
        prover_data: &'a Self::ProverData,
    ) -> Result<Vec<&'a M>, Self::Error> {
        self.get_matrices(alloc, prover_data)
    }

    fn get_max_height(&self, prover_data: &Self::ProverData) -> usize {
        self.get_max_height(prover_data)
    }

    fn verify_batch(
        &self,
        alloc: Global,
        commitment: &Self::Commitment,
        dimensions: &[Dimensions],
        index: usize,
        opening: BatchOpeningRef<'_, P::Value, Self::Proof>,
    ) -> Result<(), Self::Error>
        ensures { IsExactVerdict (presented_one self.now dimensions.now commitment.now index opening.entry) result }
    {
        self.verify_batch(commitment, dimensions, index, opening)
    }

    #[tactic(auto, using(crate::specs::Inner::SaltedCommitmentLaws::left_greatest))]
    fn open_multi_batch(
        &self,
        alloc: Global,
        indices: &[usize],
        prover_data: &Self::ProverData,
    ) -> Result<(Vec<Vec<Vec<P::Value>>>, Self::MultiProof), Self::Error>
        requires { let ms = map left_of (matrices_of prover_data.now) in
            All (λ index. index < greatest (map M.height_of ms)) indices.now }
        ensures rows { let ms = map left_of (matrices_of prover_data.now) in
            IfOk result (λ o. row_sets o.0.items ≡
            map (rows_in M.height_of M.row_of halved_index (greatest (map M.height_of ms)) ms) indices.now) }
        ensures opened { let made = salted_pruned_owned indices.now in
            IfOk result (λ o. OpensSaltedPruned self.now prover_data.now (made o)) }
        ensures accepted { let dimensions = dimensions_in M.height_of M.width_of
            (map left_of (matrices_of prover_data.now)) in
            (roots : List (List PW.Value)) → CommitsSalted self.now roots prover_data.now →
            IfOk result (λ o. IsSaltedPrunedAccepted SALT_ELEMS dimensions (salted_params_of self.now dimensions) roots
            (salted_pruned_owned indices.now o)) }
        ensures memory { IfErr result (λ e. e ≡ OutOfMemory) }
    {
        self.open_multi_batch(alloc, indices, prover_data)
    }

    fn verify_multi_batch(
        &self,
        alloc: Global,
        commitment: &Self::Commitment,
        dimensions: &[Dimensions],
        indices: &[usize],
        rows: &[Vec<Vec<P::Value>>],
        proof: &Self::MultiProof,
    ) -> Result<(), Self::Error>
        ensures { IsVerdict (presented_all self.now dimensions.now commitment.now indices.now rows.now proof.now)
            result }
    {
        self.verify_multi_batch(alloc, commitment, dimensions, indices, rows, proof)
    }

    ghost row_of_tallest = { tallest_at_index };

    ghost row_below = { λ tree. let pairs = matrices_of tree in
        row_in_matrix M.height_of M.width_of M.row_of N (map left_of pairs) (left_lawful pairs tree.lawful) };

    ghost shown_by_one = { λ s cap dimensions index rows proof accepted.
        record { salts = row_lists proof.0.items; siblings = proof.1.items; is_accepted = accepted } };

    ghost shown_by_all = { λ s cap dimensions indices sets proof accepted.
        each_salted_shown SALT_ELEMS dimensions (salted_params_of s dimensions) (roots_of cap)
        (salted_pruned_of indices sets (row_sets proof.0.items) proof.1.sibling_hashes.items) accepted };

    ghost shown_fits = { λ s cap dimensions index rows.
        salted_rows_fit (functions_of (plain_of s)) N SALT_ELEMS
        (cap_layer_of (plain_of s) (shape_of N (widened SALT_ELEMS dimensions))) dimensions (roots_of cap) index rows };

    ghost agreement = { same_plain_is_equivalence };

    ghost agreed_commitment = { λ s t cap tree same own. let b = tree_batch tree in record {
      committed = at_same (shape b) (plain_of s) (plain_of t)
          (λ c. IsCommitment c (roots_of cap) b (layers_of tree)) same own.committed;
      columns = own.columns;
    } };

    ghost agreed_proof = { λ s t cap dimensions index rows proof.
        at_same (shape_of N (widened SALT_ELEMS dimensions)) (plain_of s) (plain_of t)
        (λ c. IsSaltedAccepted SALT_ELEMS dimensions c (roots_of cap)
        (salted_of index rows (row_lists proof.0.items) proof.1.items)) };

    ghost agreed_proof_of_all = { λ s t cap dimensions indices sets proof.
        at_same (shape_of N (widened SALT_ELEMS dimensions)) (plain_of s) (plain_of t)
        (λ c. IsSaltedPrunedAccepted SALT_ELEMS dimensions c (roots_of cap)
        (salted_pruned_of indices sets (row_sets proof.0.items) proof.1.sibling_hashes.items)) };
}
