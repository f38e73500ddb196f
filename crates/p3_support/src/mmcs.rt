//! Schemes that commit to matrices of different heights.
ghost use Rattle.std.specs.Prelude.{◌≡◌, ◌⊎◌, ℕ, ◌<◌, All, IfErr, IfOk, IsOk, List, Option, map};
ghost use Rattle.std.specs.List.{AllZip};
ghost use Rattle.p3_answers.specs.Answers.{AnswersUnless};
ghost use Rattle.p3_support.specs.Batches.{dimensions_in, greatest, rows_in, FitDimensions};
ghost use Rattle.p3_support.specs.Relations.{IsEquivalence};
ghost use Rattle.p3_support.specs.Shown.{row_lists, row_sets};
ghost use Rattle.p3_support.specs.declared.matrix.Dimensions.{Dimensions};

use crate::matrix::{Dimensions, Matrix};
use crate::opening::{BatchOpening, BatchOpeningRef};
use std::alloc::Global;

/// A scheme that commits to several matrices `M` of words `T` at once, opens the rows that belong to an index, and
/// verifies an opening against the commitment (`Mmcs` in Plonky3).
///
/// An index counts the rows of the tallest matrix, from 0. The verifier has the commitment and the dimensions of the
/// matrices, and no matrix.
///
/// An accepted opening fits the dimensions: its index is below the tallest height, and it has one row of the right
/// width for each matrix. The trait does not promise that a commitment fixes the rows: two different openings of one
/// index may both be accepted. Each scheme says what follows from two such openings, by a call of its own such as
/// `extract_collision`.
pub trait Mmcs<T, M: Matrix<T>> {
    /// What the prover stores, to open rows from.
    type ProverData: Drop;
    /// What the verifier gets, beside the dimensions.
    type Commitment: Drop;
    /// The proof of the rows of one index.
    type Proof: Drop;
    /// The proof of the rows of several indices.
    type MultiProof: Drop;
    /// Why a call refuses its input, or fails.
    type Error: Drop;

    // An error that says that memory ran out.
    ghost is_out_of_memory: { Self.Error → Type 0 };

    // Two schemes are the same in all but what they draw at random: they commit to the same, and accept the same.
    ghost agrees: { Self → Self → Type 0 };

    // Matrices that such schemes commit to.
    ghost can_commit: { List M → Type 0 };

    // Why such schemes refuse to commit to some matrices, if they do.
    ghost commit_refusal: { List M → Option Self.Error };

    // The matrices that were committed to, in input order.
    ghost matrices_in: { Self.ProverData → List M };

    // The scheme's commitment to what the prover keeps.
    ghost commits_to: { Self → Self.Commitment → Self.ProverData → Type 0 };

    // The number of the row that belongs to an index, by the height of the tallest matrix and that of the row's own.
    ghost row_at: { ℕ → ℕ → ℕ → ℕ };

    // Under a commitment to matrices of these dimensions, these rows are shown to be those of an index.
    ghost is_shown: { Self → Self.Commitment → List Dimensions → ℕ → List (List T) → Type 0 };

    // The scheme accepts a proof that these rows are those of an index.
    ghost accepts: { Self → Self.Commitment → List Dimensions → ℕ → List (List T) → Self.Proof → Type 0 };

    // The scheme accepts one proof of several indices, with a row set for each.
    ghost accepts_all: { Self → Self.Commitment → List Dimensions → List ℕ → List (List (List T)) → Self.MultiProof →
        Type 0 };

    // Why a proof that rows are those of an index is refused, if it is.
    ghost refusal: { Self → Self.Commitment → List Dimensions → ℕ → List (List T) → Self.Proof → Option Self.Error };

    // Why one proof of several indices, with a row set for each, is refused, if it is.
    ghost refusal_of_all: { Self → Self.Commitment → List Dimensions → List ℕ → List (List (List T)) →
        Self.MultiProof → Option Self.Error };

    /// Commits to matrices. Returns the commitment, for verifiers, and the prover's data, from which rows are opened.
    /// Only the scheme's random generator changes, so earlier commitments stay valid.
    ///
    /// # Errors
    ///
    /// The scheme's reason for refusing the matrices, which leaves the scheme and its generator unchanged. Matrices
    /// that the scheme can commit to fail only if memory runs out. That may come at any time, and the generator may
    /// have drawn by then.
    fn commit(
        &mut self,
        alloc: Global,
        matrices: Vec<M>,
    ) -> Result<(Self::Commitment, Self::ProverData), Self::Error>
        ensures agrees { agrees self.old self.new }
        ensures matrices_accepted { IfOk result (λ made. can_commit matrices.items) }
        ensures matrices { IfOk result (λ made. matrices_in made.1 ≡ matrices.items) }
        ensures commitment { IfOk result (λ made. commits_to self.new made.0 made.1) }
        ensures answer { AnswersUnless is_out_of_memory result (commit_refusal matrices.items) }
        ensures untouched { IfErr result (λ e. is_out_of_memory e ⊎ (self.new ≡ self.old)) }
        ensures memory { can_commit matrices.items → IfErr result is_out_of_memory };

    /// Opens an index of the matrices that `prover_data` has. The index must be below their tallest height. The opening
    /// has one row of each matrix, in input order, and a proof of them. It is accepted under a commitment to this data
    /// by this scheme.
    ///
    /// # Errors
    ///
    /// The scheme's error that memory ran out, and no other.
    fn open_batch(
        &self,
        alloc: Global,
        index: usize,
        prover_data: &Self::ProverData,
    ) -> Result<BatchOpening<T, Self::Proof>, Self::Error>
        requires { index < greatest (map M.height_of (matrices_in prover_data.now)) }
        ensures rows { let ms = matrices_in prover_data.now in
            IfOk result (λ o. row_lists o.opened_values.items ≡
            rows_in M.height_of M.row_of row_at (greatest (map M.height_of ms)) ms index) }
        ensures accepted { let dimensions = dimensions_in M.height_of M.width_of (matrices_in prover_data.now) in
            (c : Self.Commitment) → commits_to self.now c prover_data.now →
            IfOk result (λ o. accepts self.now c dimensions index (row_lists o.opened_values.items) o.opening_proof) }
        ensures memory { IfErr result is_out_of_memory };

    /// The matrices that `prover_data` has, in input order: those that were committed to.
    ///
    /// # Errors
    ///
    /// The scheme's error that memory ran out, and no other.
    fn get_matrices<'a>(
        &self,
        alloc: Global,
        prover_data: &'a Self::ProverData,
    ) -> Result<Vec<&'a M>, Self::Error>
        ensures matrices { IfOk result (λ v. map (λ m. m.now) v.items ≡ matrices_in prover_data.now) }
        ensures memory { IfErr result is_out_of_memory };

    /// The tallest height of the matrices, in rows.
    fn get_max_height(&self, prover_data: &Self::ProverData) -> usize
        ensures { result ≡ greatest (map M.height_of (matrices_in prover_data.now)) };

    /// Verifies an opening of an index against a commitment. `dimensions` are those of the matrices, in input order;
    /// they must come from the verifier, never from the proof. An accepted opening has one row for each matrix, as long
    /// as the matrix is wide.
    ///
    /// # Errors
    ///
    /// The scheme's reason for refusing the opening. An accepted opening fails only if memory runs out, which may be
    /// reported at any time.
    fn verify_batch(
        &self,
        alloc: Global,
        commitment: &Self::Commitment,
        dimensions: &[Dimensions],
        index: usize,
        opening: BatchOpeningRef<'_, T, Self::Proof>,
    ) -> Result<(), Self::Error>
        ensures accepted { IsOk result → accepts self.now commitment.now dimensions.now index
            (row_lists opening.entry.opened_values.now) opening.entry.opening_proof.now }
        ensures answer { AnswersUnless is_out_of_memory result (refusal self.now commitment.now dimensions.now index
            (row_lists opening.entry.opened_values.now) opening.entry.opening_proof.now) }
        ensures memory { accepts self.now commitment.now dimensions.now index
            (row_lists opening.entry.opened_values.now) opening.entry.opening_proof.now →
            IfErr result is_out_of_memory };

    /// Opens several indices by one proof. The indices must be below the tallest height, in any order; repeats are
    /// allowed. The result has a row set for each index, in query order, and the proof. A row set has the rows of
    /// [`open_batch`](Self::open_batch) for its index. It is accepted under the same commitments.
    ///
    /// # Errors
    ///
    /// The scheme's error that memory ran out, and no other.
    fn open_multi_batch(
        &self,
        alloc: Global,
        indices: &[usize],
        prover_data: &Self::ProverData,
    ) -> Result<(Vec<Vec<Vec<T>>>, Self::MultiProof), Self::Error>
        requires { All (λ index. index < greatest (map M.height_of (matrices_in prover_data.now))) indices.now }
        ensures rows { let ms = matrices_in prover_data.now in
            IfOk result (λ o. row_sets o.0.items ≡ map
            (rows_in M.height_of M.row_of row_at (greatest (map M.height_of ms)) ms) indices.now) }
        ensures accepted { let dimensions = dimensions_in M.height_of M.width_of (matrices_in prover_data.now) in
            (c : Self.Commitment) → commits_to self.now c prover_data.now →
            IfOk result (λ o. accepts_all self.now c dimensions indices.now (row_sets o.0.items) o.1) }
        ensures memory { IfErr result is_out_of_memory };

    /// Verifies the rows of several indices by one proof against a commitment. `rows` has a row set for each index, in
    /// query order; `dimensions` are as in [`verify_batch`](Self::verify_batch). In an accepted opening each index is
    /// below the tallest height, and its row set has one row of the right width for each matrix.
    ///
    /// # Errors
    ///
    /// The scheme's reason for refusing the opening. An accepted opening fails only if memory runs out, which may be
    /// reported at any time.
    fn verify_multi_batch(
        &self,
        alloc: Global,
        commitment: &Self::Commitment,
        dimensions: &[Dimensions],
        indices: &[usize],
        rows: &[Vec<Vec<T>>],
        proof: &Self::MultiProof,
    ) -> Result<(), Self::Error>
        ensures accepted { IsOk result →
            accepts_all self.now commitment.now dimensions.now indices.now (row_sets rows.now) proof.now }
        ensures answer { AnswersUnless is_out_of_memory result
            (refusal_of_all self.now commitment.now dimensions.now indices.now (row_sets rows.now) proof.now) }
        ensures memory { accepts_all self.now commitment.now dimensions.now indices.now (row_sets rows.now) proof.now →
            IfErr result is_out_of_memory };

    // In the tallest matrix, the row that belongs to an index has the number of the index.
    ghost row_of_tallest: { (height index : ℕ) → row_at height height index ≡ index };

    // In each matrix, the row that belongs to an index is one of its rows.
    ghost row_below: { (d : Self.ProverData) → let tallest = greatest (map M.height_of (matrices_in d)) in
        All (λ m. (index : ℕ) → index < tallest → row_at tallest (M.height_of m) index < M.height_of m)
        (matrices_in d) };

    // What an accepted proof claims is shown, of one index and of several.
    ghost shown_by_one: { (s : Self) (c : Self.Commitment) (ds : List Dimensions) (index : ℕ) (rows : List (List T))
        (proof : Self.Proof) → accepts s c ds index rows proof → is_shown s c ds index rows };

    ghost shown_by_all: { (s : Self) (c : Self.Commitment) (ds : List Dimensions) (indices : List ℕ)
        (sets : List (List (List T))) (proof : Self.MultiProof) → accepts_all s c ds indices sets proof →
        AllZip (is_shown s c ds) indices sets };

    // What is shown fits the dimensions, so that a verifier may index by these what it has verified.
    ghost shown_fits: { (s : Self) (c : Self.Commitment) (ds : List Dimensions) (index : ℕ) (rows : List (List T)) →
        is_shown s c ds index rows → FitDimensions ds index rows };

    // Schemes that agree have the same commitments, and accept the same proofs.
    ghost agreement: { IsEquivalence agrees };

    ghost agreed_commitment: { (s t : Self) (c : Self.Commitment) (d : Self.ProverData) →
        agrees s t → commits_to s c d → commits_to t c d };

    ghost agreed_proof: { (s t : Self) (c : Self.Commitment) (ds : List Dimensions) (index : ℕ) (rows : List (List T))
        (proof : Self.Proof) → agrees s t → accepts s c ds index rows proof → accepts t c ds index rows proof };

    ghost agreed_proof_of_all: { (s t : Self) (c : Self.Commitment) (ds : List Dimensions) (indices : List ℕ)
        (sets : List (List (List T))) (proof : Self.MultiProof) → agrees s t →
        accepts_all s c ds indices sets proof → accepts_all t c ds indices sets proof };
}
