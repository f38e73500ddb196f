//! Pruned openings: the rows of several leaves by one proof. A query is one index of a list, and its row set has one
//! row of each matrix. Its restored path is its siblings, each from the proof or computed.

ghost use Rattle.std.specs.Prelude.{◌≡◌, ◌<◌, All, IfOk, None, length};
ghost use Rattle.p3_merkle_core.specs.Geometry.{heights, shape_of};
ghost use Rattle.p3_merkle_core.specs.Nodes.{shape};
ghost use Rattle.p3_merkle_core.specs.Presented.{presented_to_restore, IsAcceptedAs, IsVerdict};
ghost use Rattle.p3_merkle_core.specs.Pruning.{as_single, pruned_of, restored_paths};
ghost use Rattle.p3_merkle_core.specs.Refusals.{pruned_early, AnswersUnlessMemory, Refuses};
ghost use Rattle.p3_merkle_core.specs.Views.{pruned_of_pair, pruned_borrowed, pruned_owned, shown_paths};
ghost use Rattle.p3_support.specs.Batches.{greatest};
ghost use Rattle.p3_support.specs.RowSets.{sets_in};
ghost use Rattle.p3_support.specs.Shown.{roots_of};
ghost use Rattle.p3_merkle_prover.specs.Parts.{tree_batch};
ghost use Rattle.p3_merkle_tree.specs.Committed.{presented_all, presented_pruned_under, presented_under, Opens};
ghost use Rattle.p3_merkle_tree.specs.Committed.{OpensPruned};
ghost use Rattle.p3_merkle_tree.specs.Schemes.{cap_layer_of, params_of};

use crate::mmcs::MerkleTreeMmcs;
use p3_merkle_core::error::MerkleTreeError;
use p3_merkle_core::pruning::{
    MerkleAuthPath, PrunedBatchOpening, PrunedMerklePaths, PrunedProof, PrunedRows,
};
use p3_merkle_prover::opener::tree_schedule;
use p3_merkle_prover::pruned_opener::{boundary_digests, rows_of_indices};
use p3_merkle_prover::tree::MerkleTree;
use p3_merkle_verifier::openings::PrunedOpeningRef;
use p3_support::compress::PseudoCompressionFunction;
use p3_support::hasher::CryptographicHasher;
use p3_support::matrix::{Dimensions, Matrix};
use p3_support::opening::MerkleCap;
use p3_support::packed::PackedValue;
use p3_support::row_parts::RowSets;
use std::alloc::Global;

impl<
    P: PackedValue,
    PW: PackedValue,
    H: CryptographicHasher<P, PW, D>,
    C: PseudoCompressionFunction<PW, N, D>,
    const N: usize,
    const D: usize,
> MerkleTreeMmcs<P, PW, H, C, N, D> {
    /// Opens several leaves of a tree by one pruned proof. For each index, in query order, the opening has one row of
    /// each matrix: the one that belongs to the leaf. [`pruned_len`](Self::pruned_len) says how many digests the proof
    /// has, and that fewer are not enough.
    ///
    /// The indices count rows of the tallest matrix and must be below its height, in any order; repeats are allowed.
    /// The digests are read from the tree. If the tree was built with this scheme's hasher and compression, the opening
    /// is accepted under its cap, and its restored paths are those that [`open_batch`](Self::open_batch) opens. Of one
    /// index the digests are the siblings that `open_batch` opens, in their order.
    ///
    /// # Errors
    ///
    /// Only `OutOfMemory`.
    pub fn open_batch_pruned<M: Matrix<P::Value>>(
        &self,
        alloc: Global,
        indices: &[usize],
        tree: &MerkleTree<P::Value, PW::Value, M, N, D>,
    ) -> Result<PrunedBatchOpening<P::Value, PW::Value, D>, MerkleTreeError>
        requires { All (λ index. index < greatest (heights (shape (tree_batch tree.now)))) indices.now }
        ensures opened { IfOk result (λ o. OpensPruned self.now tree.now (pruned_owned indices.now o)) }
        ensures single { length indices.now ≡ 1 →
            IfOk result (λ o. Opens self.now tree.now (as_single (pruned_owned indices.now o))) }
        ensures memory { AnswersUnlessMemory result None }
    {
        let cap_layer = tree_schedule(tree).cap_layer(self.cap_rule, self.cap_height);
        let opened_values = rows_of_indices(alloc, tree, indices)?;
        let sibling_hashes = boundary_digests(alloc, tree, indices, cap_layer)?;
        Ok(PrunedRows {
            opened_values,
            pruned_proof: PrunedProof { sibling_hashes },
        })
    }

    /// Opens several leaves as [`open_batch_pruned`](Self::open_batch_pruned) does, under its condition on the indices,
    /// in the form of the trait `Mmcs`: the row set of each index, in query order, and the proof.
    ///
    /// # Errors
    ///
    /// Only `OutOfMemory`.
    pub fn open_multi_batch<M: Matrix<P::Value>>(
        &self,
        alloc: Global,
        indices: &[usize],
        tree: &MerkleTree<P::Value, PW::Value, M, N, D>,
    ) -> Result<(Vec<Vec<Vec<P::Value>>>, PrunedMerklePaths<PW::Value, D>), MerkleTreeError>
        requires { All (λ index. index < greatest (heights (shape (tree_batch tree.now)))) indices.now }
        ensures opened { IfOk result (λ o. OpensPruned self.now tree.now (pruned_of_pair indices.now o)) }
        ensures single { length indices.now ≡ 1 →
            IfOk result (λ o. Opens self.now tree.now (as_single (pruned_of_pair indices.now o))) }
        ensures memory { AnswersUnlessMemory result None }
    {
        let PrunedRows {
            opened_values,
            pruned_proof,
        } = self.open_batch_pruned(alloc, indices, tree)?;
        Ok((opened_values, pruned_proof))
    }

    /// Verifies the openings of several leaves by one pruned proof against a cap: computes the digests above the leaves
    /// from the rows and the digests of the proof, and compares the last ones with the cap's entries. If the opening is
    /// accepted, [`verify_batch`](Self::verify_batch) accepts each query with its restored path. An opening of one
    /// index is accepted exactly if `verify_batch` accepts its row set with the digests of the proof as siblings.
    ///
    /// An accepted opening has a row set for each index: one row for each of `dimensions`, of that width. Queries of
    /// one index have the same rows. Queries under one node, at most as high as the cap, have the same rows of the
    /// matrices that belong to the node's layer. `dimensions` are those of the matrices, in input order. They must come
    /// from the verifier, never from the proof: a cap does not bind them.
    ///
    /// # Errors
    ///
    /// The first of these that applies, where `OutOfMemory` never takes the place of one of the first four:
    ///
    /// - `EmptyBatch`, `TooLarge` or `IncompatibleHeights`: [`commit`](Self::commit) refuses such heights;
    /// - `WrongBatchSize`: the number of row sets is not that of the indices;
    /// - `SiblingCountMismatch`: the proof has digests, and there are no indices;
    /// - `IndexOutOfBounds`, for the highest index: it is not below the tallest height;
    /// - `InconsistentDuplicateOpenings`: the rows of a query are not those of the first query of its index;
    /// - `SiblingCountMismatch`: the number of digests is not [`pruned_len`](Self::pruned_len);
    /// - in ascending order of the indices, for each row set: `WrongBatchSize` if the number of rows is not that of the
    ///   dimensions, `WrongWidth` for the first row whose length is not the width of its matrix;
    /// - `InconsistentGroupOpening`, layer by layer up to the cap's, by ascending indices and in input order of the
    ///   layer's matrices: a row is not that of the lowest index under the same node;
    /// - `CapMismatch`: the cap has no entry above a leaf, or another digest than the one computed.
    ///
    /// `SiblingCountMismatch` and the two `Inconsistent` errors come within `MalformedPrunedProof`.
    pub fn verify_batch_pruned(
        &self,
        alloc: Global,
        commit: &MerkleCap<P::Value, [PW::Value; D]>,
        dimensions: &[Dimensions],
        indices: &[usize],
        rows: &[Vec<Vec<P::Value>>],
        proof: &PrunedMerklePaths<PW::Value, D>,
    ) -> Result<(), MerkleTreeError>
        ensures verdict { let presented = presented_all self.now dimensions.now commit.now in
            IsVerdict (presented indices.now rows.now proof.now) result }
        ensures checked { Refuses result (pruned_early (shape_of N dimensions.now)
            (pruned_borrowed indices.now rows.now proof.now)) }
        ensures single { let p = pruned_borrowed indices.now rows.now proof.now in
            let single = presented_under self.now dimensions.now (roots_of commit.now) (as_single p) in
            length indices.now ≡ 1 → length rows.now ≡ 1 → IsAcceptedAs single result }
    {
        let rows = RowSets::Vecs(rows);
        let digests = &proof.sibling_hashes;
        self.verify_row_sets(alloc, commit.roots(), dimensions, indices, rows, digests)
    }

    /// Verifies the openings of several leaves as [`verify_batch_pruned`](Self::verify_batch_pruned) does, with the
    /// same errors, wherever their rows lie: see [`RowSets`]. `roots` are those of the cap, and `digests` are those of
    /// the pruned proof, in wire order. It copies no row: it allocates lists of nodes and of their digests.
    pub fn verify_row_sets(
        &self,
        alloc: Global,
        roots: &[[PW::Value; D]],
        dimensions: &[Dimensions],
        indices: &[usize],
        rows: RowSets<'_, P::Value>,
        digests: &[[PW::Value; D]],
    ) -> Result<(), MerkleTreeError>
        ensures verdict { let opening = pruned_of indices.now (sets_in rows.entry) digests.now in
            IsVerdict (presented_pruned_under self.now dimensions.now roots.now opening) result }
        ensures checked { let opening = pruned_of indices.now (sets_in rows.entry) digests.now in
            Refuses result (pruned_early (shape_of N dimensions.now) opening) }
    {
        let opening = PrunedOpeningRef {
            indices,
            sets: rows,
            sent: digests,
        };
        self.checker(dimensions)
            .check_pruned_opening(alloc, roots, opening)
    }

    /// The same as [`verify_batch_pruned`](Self::verify_batch_pruned), by the name that the trait `Mmcs` has for it.
    ///
    /// # Errors
    ///
    /// Those of [`verify_batch_pruned`](Self::verify_batch_pruned).
    pub fn verify_multi_batch(
        &self,
        alloc: Global,
        commit: &MerkleCap<P::Value, [PW::Value; D]>,
        dimensions: &[Dimensions],
        indices: &[usize],
        rows: &[Vec<Vec<P::Value>>],
        proof: &PrunedMerklePaths<PW::Value, D>,
    ) -> Result<(), MerkleTreeError>
        ensures verdict { let presented = presented_all self.now dimensions.now commit.now in
            IsVerdict (presented indices.now rows.now proof.now) result }
        ensures checked { Refuses result (pruned_early (shape_of N dimensions.now)
            (pruned_borrowed indices.now rows.now proof.now)) }
        ensures single { let p = pruned_borrowed indices.now rows.now proof.now in
            let single = presented_under self.now dimensions.now (roots_of commit.now) (as_single p) in
            length indices.now ≡ 1 → length rows.now ≡ 1 → IsAcceptedAs single result }
    {
        self.verify_batch_pruned(alloc, commit, dimensions, indices, rows, proof)
    }

    /// Restores the path of each query, in query order, with its index: its siblings, computed from the rows of all
    /// queries and the digests of a pruned proof. From an honest opening it restores the siblings that
    /// [`open_batch`](Self::open_batch) opens. The parameters are as in
    /// [`verify_batch_pruned`](Self::verify_batch_pruned), and an opening whose paths are restored has the form of an
    /// accepted one.
    ///
    /// No cap is compared, so a restored path proves nothing by itself. `verify_batch_pruned` accepts an opening under
    /// a cap exactly if its paths are restored and [`verify_batch`](Self::verify_batch) accepts each query with its
    /// rows and its path. `dimensions` must come from the verifier, never from the proof.
    ///
    /// # Errors
    ///
    /// Those of `verify_batch_pruned`, in the same order, without `CapMismatch`.
    pub fn restore_and_recompute_paths(
        &self,
        alloc: Global,
        dimensions: &[Dimensions],
        indices: &[usize],
        rows: &[Vec<Vec<P::Value>>],
        proof: &PrunedMerklePaths<PW::Value, D>,
    ) -> Result<Vec<MerkleAuthPath<PW::Value, D>>, MerkleTreeError>
        ensures verdict { let s = shape_of N dimensions.now in
            let p = pruned_borrowed indices.now rows.now proof.now in
            IsVerdict (presented_to_restore P.Value.eq s (cap_layer_of self.now s) p) result }
        ensures checked { Refuses result (pruned_early (shape_of N dimensions.now)
            (pruned_borrowed indices.now rows.now proof.now)) }
        ensures paths { let c = params_of self.now (shape_of N dimensions.now) in
            let p = pruned_borrowed indices.now rows.now proof.now in
            IfOk result (λ paths. shown_paths paths.items ≡ restored_paths c p) }
    {
        let rows = RowSets::Vecs(rows);
        self.restore_row_sets(alloc, dimensions, indices, rows, &proof.sibling_hashes)
    }

    /// Restores the path of each query as [`restore_and_recompute_paths`](Self::restore_and_recompute_paths) does, with
    /// the same errors, wherever their rows lie: see [`RowSets`]. `digests` are those of the pruned proof, in wire
    /// order. It copies no row.
    pub fn restore_row_sets(
        &self,
        alloc: Global,
        dimensions: &[Dimensions],
        indices: &[usize],
        rows: RowSets<'_, P::Value>,
        digests: &[[PW::Value; D]],
    ) -> Result<Vec<MerkleAuthPath<PW::Value, D>>, MerkleTreeError>
        ensures verdict { let s = shape_of N dimensions.now in
            let p = pruned_of indices.now (sets_in rows.entry) digests.now in
            IsVerdict (presented_to_restore P.Value.eq s (cap_layer_of self.now s) p) result }
        ensures checked { let p = pruned_of indices.now (sets_in rows.entry) digests.now in
            Refuses result (pruned_early (shape_of N dimensions.now) p) }
        ensures paths { let c = params_of self.now (shape_of N dimensions.now) in
            let p = pruned_of indices.now (sets_in rows.entry) digests.now in
            IfOk result (λ paths. shown_paths paths.items ≡ restored_paths c p) }
    {
        let opening = PrunedOpeningRef {
            indices,
            sets: rows,
            sent: digests,
        };
        self.checker(dimensions).restored_paths(alloc, opening)
    }
}
