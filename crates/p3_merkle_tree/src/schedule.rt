//! What dimensions alone say: the steps and positions on paths, level by level, the size of pruned proofs, and which
//! matrices a cap authenticates; and the matrices of a tree. A level's step is how many children a node above it has.

ghost use Rattle.std.specs.Prelude.{◌≡◌, ◌<◌, ◌≤◌, ◌-◌, ◌*◌, IfOk, IfSome, IsTrue, MatchResult, None, Some};
ghost use Rattle.std.specs.Prelude.{length, map, take, vec_len};
ghost use Rattle.std.specs.List.{sum_by};
ghost use Rattle.std.specs.Result.{result_err};
ghost use Rattle.p3_support.specs.Batches.{heights_of};
ghost use Rattle.p3_merkle_core.specs.Gate.{gate_refusal};
ghost use Rattle.p3_merkle_core.specs.Geometry.{positions_below, schedule_below, shape_of};
ghost use Rattle.p3_merkle_core.specs.Refusals.{pruned_len_refusal, replay_refusal, AnswersUnlessMemory};

use crate::mmcs::Scheme;
use p3_merkle_core::covered_nodes::Covered;
use p3_merkle_core::error::MerkleTreeError;
use p3_merkle_core::gate::check_heights;
use p3_merkle_core::geometry::{ArityAndPositions, exponent_of};
use p3_merkle_core::pruning::{check_indices, distinct_indices};
use p3_merkle_core::schedule::schedule_of;
use p3_merkle_prover::opener::{matrix_refs, max_height};
use p3_merkle_prover::tree::Tree;
use p3_support::compress::PseudoCompressionFunction;
use p3_support::hasher::CryptographicHasher;
use p3_support::matrix::{Dimensions, Matrix};
use p3_support::packed::PackedValue;
use std::alloc::Global;

impl<
    P: PackedValue,
    PW: PackedValue,
    H: CryptographicHasher<P, PW, D>,
    C: PseudoCompressionFunction<PW, N, D>,
    X,
    G,
    const N: usize,
    const D: usize,
> Scheme<P, PW, H, C, X, G, N, D> {
    ghost use Rattle.p3_support.specs.Batches.{greatest};
    ghost use Rattle.p3_merkle_core.specs.Checks.{is_authenticated as authenticates, siblings_below};
    ghost use Rattle.p3_merkle_core.specs.Geometry.{arity_schedule as schedule_in, exponent, heights};
    ghost use Rattle.p3_merkle_core.specs.Nodes.{shape};
    ghost use Rattle.p3_merkle_core.specs.Pruning.{IsLeast};
    ghost use Rattle.p3_merkle_core.specs.Sizes.{IsFew};
    ghost use Rattle.p3_merkle_core.specs.declared.cap.CapRule.TheVariants.{Lowered};
    ghost use Rattle.p3_merkle_prover.specs.Parts.{matrices_of, tree_batch};
    ghost use Rattle.p3_merkle_tree.specs.Schemes.{cap_layer_of, cap_rule_of};

    /// The step of each level below the cap, from the leaves up: how many children a node above it has, in the tree
    /// over matrices of these dimensions. An opening of one index has one sibling less than the step on each level, so
    /// at most `N - 1` for each of the steps.
    ///
    /// # Errors
    ///
    /// The first of these that applies, or `OutOfMemory` if none of them does:
    ///
    /// - `EmptyBatch` if no matrix has a row;
    /// - `TooLarge` for the first height above 2^62;
    /// - `IncompatibleHeights` for the first height that is not the tallest one halved and rounded up some number of
    ///   times.
    pub fn proof_arity_schedule(
        &self,
        alloc: Global,
        dimensions: &[Dimensions],
    ) -> Result<Vec<usize>, MerkleTreeError>
        ensures answer { AnswersUnlessMemory result (gate_refusal (heights_of dimensions.now)) }
        ensures checked { IfSome (gate_refusal (heights_of dimensions.now)) (λ e. result_err result ≡ Some e) }
        ensures steps { let s = shape_of N dimensions.now in
            IfOk result (λ v. v.items ≡ schedule_below s (cap_layer_of self.now s)) }
        ensures first { let s = shape_of N dimensions.now in
            IfOk result (λ v. v.items ≡ take (cap_layer_of self.now s) (schedule_in s)) }
        ensures few { IfOk result (λ v. vec_len v ≤ exponent (greatest (heights_of dimensions.now))) }
        ensures siblings { let s = shape_of N dimensions.now in
            IfOk result (λ v. siblings_below s (cap_layer_of self.now s) ≡ sum_by (λ step. step - 1) v.items) }
        ensures few_siblings { let s = shape_of N dimensions.now in
            IfOk result (λ v. siblings_below s (cap_layer_of self.now s) ≤ (N - 1) * vec_len v) }
    {
        let schedule = schedule_of(dimensions, N);
        check_heights(schedule.dimensions)?;
        let cap_layer = schedule.cap_layer(self.cap_rule, self.cap_height);
        Ok(schedule.schedule_below(alloc, cap_layer)?)
    }

    /// The path of the leaf `index` to the cap, for a proof of `num_siblings` digests: the steps of
    /// [`proof_arity_schedule`](Self::proof_arity_schedule), and for each level the position, from 0, of the leaf's
    /// ancestor there among the children of its parent.
    ///
    /// # Errors
    ///
    /// The first of these that applies, or `OutOfMemory` if none of them does:
    ///
    /// - `EmptyBatch`, `TooLarge` or `IncompatibleHeights`: [`commit`](Self::commit) refuses such heights;
    /// - `IndexOutOfBounds`: the index is not below the tallest height;
    /// - `WrongHeight`: `num_siblings` is not what the levels below the cap need.
    pub fn replay_arity_and_positions(
        &self,
        alloc: Global,
        dimensions: &[Dimensions],
        index: usize,
        num_siblings: usize,
    ) -> Result<ArityAndPositions, MerkleTreeError>
        ensures answer { let s = shape_of N dimensions.now in
            AnswersUnlessMemory result (replay_refusal s (cap_layer_of self.now s) index num_siblings) }
        ensures checked { let s = shape_of N dimensions.now in
            IfSome (replay_refusal s (cap_layer_of self.now s) index num_siblings)
            (λ e. result_err result ≡ Some e) }
        ensures schedule { let s = shape_of N dimensions.now in
            IfOk result (λ r. r.arity_schedule.items ≡ schedule_below s (cap_layer_of self.now s)) }
        ensures positions { let s = shape_of N dimensions.now in
            IfOk result (λ r. r.query_positions.items ≡ positions_below s (cap_layer_of self.now s) index) }
    {
        let schedule = schedule_of(dimensions, N);
        check_heights(schedule.dimensions)?;
        let max_height = schedule.max_height;
        if index >= max_height {
            return Err(MerkleTreeError::IndexOutOfBounds { max_height, index });
        }
        let cap_layer = schedule.cap_layer(self.cap_rule, self.cap_height);
        let expected_proof_len = schedule.siblings_below(cap_layer);
        if num_siblings != expected_proof_len {
            return Err(MerkleTreeError::WrongHeight {
                expected_proof_len,
                num_siblings,
            });
        }
        Ok(ArityAndPositions {
            arity_schedule: schedule.schedule_below(alloc, cap_layer)?,
            query_positions: schedule.positions_below(alloc, cap_layer, index)?,
        })
    }

    /// The number of digests in a pruned proof of these indices, over matrices of these dimensions. On each level below
    /// the cap these are the digests of the children of covered nodes that are not covered themselves, padding too. A
    /// node is covered if it is a queried leaf or above one. If padding counts as unknown, no smaller set of digests of
    /// uncovered nodes is enough to compute the covered nodes of the cap's layer.
    ///
    /// The indices may be in any order, with repeats. The digests are at most as many as the siblings in an opening of
    /// one index, times the number of distinct indices; for one index they are as many as its siblings.
    ///
    /// # Errors
    ///
    /// The first of these that applies, or `OutOfMemory` if none of them does:
    ///
    /// - `EmptyBatch`, `TooLarge` or `IncompatibleHeights`: [`commit`](Self::commit) refuses such heights;
    /// - `IndexOutOfBounds`, for the highest index: it is not below the tallest height.
    pub fn pruned_len(
        &self,
        alloc: Global,
        dimensions: &[Dimensions],
        indices: &[usize],
    ) -> Result<usize, MerkleTreeError>
        ensures answer { AnswersUnlessMemory result (pruned_len_refusal (shape_of N dimensions.now) indices.now) }
        ensures checked { IfSome (pruned_len_refusal (shape_of N dimensions.now) indices.now)
            (λ e. result_err result ≡ Some e) }
        ensures least { let s = shape_of N dimensions.now in
            IfOk result (λ count. IsLeast s indices.now (cap_layer_of self.now s) count) }
        ensures few { let s = shape_of N dimensions.now in
            IfOk result (λ count. IsFew s indices.now (cap_layer_of self.now s) count) }
    {
        let schedule = schedule_of(dimensions, N);
        check_heights(schedule.dimensions)?;
        check_indices(schedule.max_height, indices)?;
        let cap_layer = schedule.cap_layer(self.cap_rule, self.cap_height);
        let leaves = distinct_indices(alloc, indices)?;
        Ok(Covered::new(&schedule, indices, leaves).boundary_len(cap_layer))
    }

    /// Whether a cap over matrices of these dimensions authenticates the rows of one of them: its rows are hashed into
    /// the cap's layer, or into a layer below it. `matrix` is its position in `dimensions`, from 0, and must be below
    /// their number. Rows of a matrix that is not authenticated are not hashed: a verifier checks their width, and that
    /// queries of one index have the same. Under the rule `Lowered` every matrix is authenticated. The call does not
    /// allocate.
    ///
    /// # Errors
    ///
    /// The first of these that applies:
    ///
    /// - `EmptyBatch` if no matrix has a row;
    /// - `TooLarge` for the first height above 2^62;
    /// - `IncompatibleHeights` for the first height that is not the tallest one halved and rounded up some number of
    ///   times.
    pub fn is_authenticated(
        &self,
        dimensions: &[Dimensions],
        matrix: usize,
    ) -> Result<bool, MerkleTreeError>
        requires { matrix < length dimensions.now }
        ensures answer { MatchResult result
            (λ answer. gate_refusal (heights_of dimensions.now) ≡ None)
            (λ e. gate_refusal (heights_of dimensions.now) ≡ Some e) }
        ensures authenticated { let s = shape_of N dimensions.now in
            IfOk result (λ answer. answer ≡ authenticates s (cap_layer_of self.now s) matrix) }
        ensures lowered { cap_rule_of self.now ≡ Lowered → IfOk result (λ answer. IsTrue answer) }
    {
        let schedule = schedule_of(dimensions, N);
        check_heights(schedule.dimensions)?;
        let cap_layer = schedule.cap_layer(self.cap_rule, self.cap_height);
        let height = dimensions[matrix].height;
        Ok(exponent_of(height) >= schedule.layer_exponent(cap_layer))
    }

    /// The matrices of a tree, in input order.
    ///
    /// # Errors
    ///
    /// Only `OutOfMemory`.
    pub fn get_matrices<'a, M: Matrix<P::Value>>(
        &self,
        alloc: Global,
        tree: &'a Tree<P::Value, X, G, M, N>,
    ) -> Result<Vec<&'a M>, MerkleTreeError>
        ensures matrices { IfOk result (λ v. map (λ m. m.now) v.items ≡ matrices_of tree.now) }
        ensures memory { AnswersUnlessMemory result None }
    {
        matrix_refs(alloc, tree)
    }

    /// The height of the tallest matrix of a tree, in rows: one more than the greatest index that can be opened.
    pub fn get_max_height<M: Matrix<P::Value>>(&self, tree: &Tree<P::Value, X, G, M, N>) -> usize
        ensures { result ≡ greatest (heights (shape (tree_batch tree.now))) }
    {
        max_height(tree)
    }
}
