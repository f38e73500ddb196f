//! Pruned openings: their check, and the restored path of each query. Both compute the digests of the covered nodes,
//! layer by layer up to the cap's.
//!
//! A query is one index, and its row set has one row of each matrix. A node is covered if it is a queried leaf or above
//! one; a proof has the digests of the other children of covered nodes. A matrix belongs to the layer whose exponent is
//! log2 of its height, rounded up. A restored path has the siblings of a query, computed or from the proof.

ghost use Rattle.std.specs.Prelude.{◌≡◌, ◌/◌, ◌<◌, ◌≤◌, ℕ, [], All, IfOk, length, map, replicate, slice_index};
ghost use Rattle.std.specs.Prelude.{slice_index_or, zip};
ghost use Rattle.std.specs.List.{list_all, range_with_len};
ghost use Rattle.p3_support.specs.Batches.{heights_of};
ghost use Rattle.p3_support.specs.RowSets.{sets_in};
ghost use Rattle.p3_merkle_core.specs.Checks.{params, words_of_exponent};
ghost use Rattle.p3_merkle_core.specs.Geometry.{layer_exponent};
ghost use Rattle.p3_merkle_core.specs.Nodes.{Functions};
ghost use Rattle.p3_merkle_core.specs.Pruning.{restored_paths};
ghost use Rattle.p3_merkle_core.specs.Refusals.{cap_refusal, AnswersUnlessMemory};
ghost use Rattle.p3_merkle_core.specs.Refusals.{is_entry as is_entry_of, pruned_early, pruned_refusal};
ghost use Rattle.p3_merkle_core.specs.Refusals.{pruned_refusal_under, Refuses};
ghost use Rattle.p3_merkle_core.specs.Views.{pruned_borrowed, shown_paths};
ghost use Rattle.p3_merkle_hashing.specs.Inner.Slots.{rows_over};
ghost use Rattle.p3_merkle_verifier.specs.Inner.Checks.{functions_of, params_in, shape_in};
ghost use Rattle.p3_merkle_verifier.specs.Inner.NodeDigests.{child_group, group_digest};
ghost use Rattle.p3_merkle_verifier.specs.Inner.OpenedMatrices.{row_in};
ghost use Rattle.p3_merkle_verifier.specs.Inner.RestoredLevels.{opened_by, pruned_in, row_values, tree_of, AreLayers};
ghost use Rattle.p3_merkle_verifier.specs.Inner.RestoredLevels.{AreLeaves, AreQueriesAt, AreRestored, IsClimb};
ghost use Rattle.p3_merkle_verifier.specs.Inner.RestoredLevels.{IsCoveredAt, IsLayer, IsLayerAbove};

use crate::checker::Checker;
use crate::openings::{OpenedMatrix, PrunedOpeningRef, RestorableOpening};
use crate::path::is_entry;
use p3_merkle_core::covered_nodes::Covered;
use p3_merkle_core::error::MerkleTreeError;
use p3_merkle_core::geometry::exponent_of;
use p3_merkle_core::pruning::{
    AuthPath, CoveredLayer, PrunedMerklePaths, check_pruned, children_of, siblings_on_path,
};
use p3_merkle_core::schedule::LevelStep;
use p3_merkle_hashing::nodes::{compress_children, inject_row_digests};
use p3_merkle_hashing::rows::LayerRows;
use p3_support::compress::PseudoCompressionFunction;
use p3_support::hasher::CryptographicHasher;
use p3_support::packed::PackedValue;
use p3_support::row_parts::RowSets;
use std::alloc::{AllocError, Global};
use std::marker::PhantomData;
use std::mem;

impl<'a, T, W: Copy, const D: usize> PrunedOpeningRef<'a, T, [W; D]> {
    /// The pruned opening of these indices, row sets and digests.
    pub fn new(
        indices: &'a [usize],
        sets: &'a [Vec<Vec<T>>],
        proof: &'a PrunedMerklePaths<W, D>,
    ) -> PrunedOpeningRef<'a, T, [W; D]>
        ensures { pruned_in result ≡ pruned_borrowed indices.now sets.now proof.now }
    {
        PrunedOpeningRef {
            indices,
            sets: RowSets::Vecs(sets),
            sent: proof.sibling_hashes.as_slice(),
        }
    }
}

/// The layer above `below`, which must be layer `level` and below the cap's layer. `digests` has the digest of each
/// covered node of `below`; the other children of the layer above have the next digests of the proof. `AllocError` if
/// memory runs out.
fn layer_above<'a, T, X: Copy>(
    alloc: Global,
    restorable: &RestorableOpening<'_, T, X>,
    level: usize,
    below: &CoveredLayer<'a, X>,
    digests: &[X],
) -> Result<CoveredLayer<'a, X>, AllocError>
    requires level { level < restorable.now.cap_layer }
    requires coverage { IsCoveredAt (tree_of restorable.now) restorable.now.opening.indices.now level below.now }
    requires digests { length digests.now ≡ length below.now.covered.nodes.items }
    ensures { IfOk result (λ above. IsLayerAbove (tree_of restorable.now) restorable.now.opening.indices.now level
        below.now digests.now restorable.now.opening.sent.now above) }
{
    let mut covered = below.covered.clone(alloc)?;
    let LevelStep { step, has_rows, .. } = covered.climb();
    let left = &restorable.opening.sent[below.covered.boundary_below..];
    let children = children_of(
        alloc,
        &below.covered.nodes,
        digests,
        &covered.nodes,
        step,
        left,
    )?;
    Ok(CoveredLayer {
        covered,
        step,
        has_rows,
        children,
    })
}

/// For each covered node of the layer of the exponent `exponent`, ascending, the position of a query under it: the
/// first query of its lowest leaf. `AllocError` if memory runs out.
fn queries_at<T, X>(
    alloc: Global,
    restorable: &RestorableOpening<'_, T, X>,
    exponent: usize,
) -> Result<Vec<usize>, AllocError>
    ensures among { IfOk result (λ queries. All (λ k. k < length restorable.now.opening.indices.now) queries.items) }
    ensures queries { (l : ℕ) → l ≤ restorable.now.cap_layer → exponent ≡ layer_exponent (tree_of restorable.now) l →
        IfOk result (λ queries. AreQueriesAt (tree_of restorable.now) restorable.now.opening.indices.now l
        queries.items) }
{
    let bits = restorable.schedule.exponent.saturating_sub(exponent);
    let leaves = &restorable.leaves.indices;
    let mut queries = Vec::with_capacity(alloc, leaves.len())?;
    let mut previous = 0;
    for slot in 0..leaves.len() {
        let node = leaves[slot] >> bits;
        if slot == 0 || previous != node {
            queries.push_reserved(restorable.leaves.first_queries[slot]);
        }
        previous = node;
    }
    Ok(queries)
}

/// The matrices of the exponent `exponent`, in input order, each with the rows that `queries` opened of it.
/// `AllocError` if memory runs out.
fn opened_matrices<'a, T, X>(
    alloc: Global,
    restorable: &'a RestorableOpening<'_, T, X>,
    exponent: usize,
    queries: &'a [usize],
) -> Result<Vec<OpenedMatrix<'a, T>>, AllocError>
    requires { All (λ k. k < length restorable.now.opening.indices.now) queries.now }
    ensures heights { IfOk result (λ matrices. All (λ m. length m.queries.now ≡ length queries.now) matrices.items) }
    ensures rows { let sets = sets_in restorable.now.opening.sets in
        let heights = heights_of restorable.now.schedule.now.dimensions.now in
        IfOk result (λ matrices. (j : ℕ) → j < length queries.now → rows_over row_in matrices.items j
        ≡ words_of_exponent exponent (zip heights (slice_index_or sets (slice_index queries.now j) []))) }
{
    let dimensions = restorable.schedule.dimensions;
    let mut matrices = Vec::new(alloc);
    for place in 0..dimensions.len() {
        if exponent_of(dimensions[place].height) == exponent {
            matrices.push(OpenedMatrix {
                sets: restorable.opening.sets,
                queries,
                place,
                width: dimensions[place].width,
            })?;
        }
    }
    Ok(matrices)
}

/// The path of each query of an opening, in query order: the other children of the parent of each node on the path,
/// level by level, ascending. `layers` has the layers of the opening, from the leaves to the cap's. `AllocError` if
/// memory runs out.
pub(crate) fn paths_of<T, W: Copy, const D: usize>(
    alloc: Global,
    restorable: &RestorableOpening<'_, T, [W; D]>,
    layers: &[CoveredLayer<'_, [W; D]>],
) -> Result<Vec<AuthPath<[W; D]>>, AllocError>
    requires { IsClimb (tree_of restorable.now) restorable.now.opening.indices.now restorable.now.cap_layer layers.now }
    ensures { (f : Functions T W) → let c = params f (tree_of restorable.now) restorable.now.cap_layer in
        AreLayers f c.shape c.layer (opened_by restorable.now) c.layer layers.now →
        IfOk result (λ paths. shown_paths paths.items ≡ restored_paths c (opened_by restorable.now)) }
{
    let mut capacity = 0usize;
    for layer in layers {
        capacity = capacity.saturating_add(layer.step.saturating_sub(1));
    }
    let leaves = &restorable.leaves;
    let mut places = vec![in alloc; 0; layers.len()]?;
    let mut of_leaves = Vec::with_capacity(alloc, leaves.indices.len())?;
    // The leaves ascend, so each search goes on where the last one ended.
    for leaf in &leaves.indices {
        of_leaves.push_reserved(siblings_on_path(alloc, layers, &mut places, *leaf, capacity)?);
    }
    let indices = restorable.opening.indices;
    let mut paths: Vec<AuthPath<[W; D]>> = Vec::with_capacity(alloc, indices.len())?;
    for query in 0..indices.len() {
        let slot = leaves.slots[query];
        let first = leaves.first_queries[slot];
        // The first query of a leaf takes its path, the others copy it.
        let siblings = if query == first {
            mem::replace(&mut of_leaves[slot], Vec::new(alloc))
        } else {
            Vec::from_slice(alloc, &paths[first].siblings)?
        };
        paths.push_reserved(AuthPath {
            leaf_index: indices[query],
            siblings,
        });
    }
    Ok(paths)
}

/// Whether `roots`, those of a cap, have the digest `digests[k]` at the position `nodes[k]`, for each `k`.
fn are_entries<X: PartialEq>(roots: &[X], nodes: &[usize], digests: &[X]) -> bool
    ensures { result ≡ list_all (λ (node, digest). is_entry_of X.eq roots.now node digest) (zip nodes.now digests.now) }
{
    nodes
        .iter()
        .zip(digests)
        .all(|(node, digest)| is_entry(roots, *node, digest))
}

impl<
    'a,
    P: PackedValue,
    PW: PackedValue,
    H: CryptographicHasher<P, PW, D>,
    C: PseudoCompressionFunction<PW, N, D>,
    const N: usize,
    const D: usize,
> Checker<'a, P, PW, H, C, [[PW::Value; D]; N], N, D> {
    /// Checks by [`check_pruned`], with its errors, the form of a pruned opening, and that its rows agree wherever
    /// queries share a node. Returns the opening with its steps, the cap's layer and its distinct indices, from which
    /// each path can be restored; and the layer of its covered leaves, from which the layers above are computed.
    pub(crate) fn check_restorable<'b>(
        &'b self,
        alloc: Global,
        opening: PrunedOpeningRef<'b, P::Value, [PW::Value; D]>,
    ) -> Result<
        (
            RestorableOpening<'b, P::Value, [PW::Value; D]>,
            CoveredLayer<'b, [PW::Value; D]>,
        ),
        MerkleTreeError,
    >
        ensures answer { let refusal = pruned_refusal P.Value.eq (shape_in self.now) self.now.cap_layer in
            AnswersUnlessMemory result (refusal (pruned_in opening.entry)) }
        ensures checked { Refuses result (pruned_early (shape_in self.now) (pruned_in opening.entry)) }
        ensures schedule { IfOk result (λ made. made.0.schedule.now ≡ self.now.schedule) }
        ensures layer { IfOk result (λ made. made.0.cap_layer ≡ self.now.cap_layer) }
        ensures opening { IfOk result (λ made. made.0.opening ≡ opening.entry) }
        ensures leaves { IfOk result (λ made. AreLeaves (tree_of made.0) made.0.opening.indices.now made.1) }
    {
        let schedule = &self.schedule;
        let cap_layer = self.cap_layer;
        let indices = opening.indices;
        let num_digests = opening.sent.len();
        let leaves = check_pruned(
            alloc,
            schedule,
            cap_layer,
            indices,
            opening.sets,
            num_digests,
        )?;
        let nodes = Vec::from_slice(alloc, &leaves.indices)?;
        let restorable = RestorableOpening {
            schedule,
            cap_layer,
            opening,
            leaves,
        };
        let leaf_layer = CoveredLayer {
            covered: Covered::new(schedule, indices, nodes),
            step: 0,
            has_rows: true,
            children: Vec::new(alloc),
        };
        Ok((restorable, leaf_layer))
    }

    /// For each covered node of the layer of the exponent `exponent`, ascending, the digest of the rows that the
    /// queries under it opened of the layer's matrices. `AllocError` if memory runs out.
    fn row_digests(
        &self,
        alloc: Global,
        restorable: &RestorableOpening<'_, P::Value, [PW::Value; D]>,
        exponent: usize,
    ) -> Result<Vec<[PW::Value; D]>, AllocError>
        ensures { (l : ℕ) → l ≤ restorable.now.cap_layer → exponent ≡ layer_exponent (tree_of restorable.now) l →
            IfOk result (λ digests. digests.items
            ≡ row_values (functions_of self.now) (tree_of restorable.now) (opened_by restorable.now) l) }
    {
        let queries = queries_at(alloc, restorable, exponent)?;
        let matrices = opened_matrices(alloc, restorable, exponent, &queries)?;
        let height = queries.len();
        let rows = LayerRows::<P, PW, H, OpenedMatrix<'_, P::Value>, [PW::Value; D]> {
            hash: self.hash,
            matrices: &matrices,
            height,
            item: PhantomData,
        };
        let mut digests = vec![in alloc; [PW::Value::default(); D]; height]?;
        rows.fill_batched(&mut Vec::new(alloc), 0, &mut digests)?;
        Ok(digests)
    }

    /// The digests of the parents of `children`, which stand parent by parent. Each parent has `step` children, from 1
    /// to `N`. `AllocError` if memory runs out.
    pub(crate) fn group_digests(
        &self,
        alloc: Global,
        children: &[[PW::Value; D]],
        step: usize,
    ) -> Result<Vec<[PW::Value; D]>, AllocError>
        requires step { 0 < step }
        requires few { step ≤ N }
        ensures count { IfOk result (λ digests. length digests.items ≡ length children.now / step) }
        ensures digests { let digest = group_digest (C.compression self.now.compress.now) N
            (replicate D PW.default_value) step children.now in
            IfOk result (λ digests. digests.items ≡ map digest (range_with_len 0 (length children.now / step))) }
    {
        let mut digests = vec![in alloc; [PW::Value::default(); D]; children.len() / step]?;
        let mut groups = Vec::new(alloc);
        let compress = self.compress;
        compress_children::<PW, C, N, D>(compress, &mut groups, children, step, &mut digests)?;
        Ok(digests)
    }

    /// The digests of the covered nodes of `here`, which must be layer `layer`, by ascending nodes. The digest of a
    /// leaf is that of the rows of its first query. The digest of any other node is the compression of its children;
    /// where matrices belong to the layer, it is compressed once more with the digest of their rows, which the queries
    /// under the node share. `AllocError` if memory runs out.
    pub(crate) fn node_digests(
        &self,
        alloc: Global,
        restorable: &RestorableOpening<'_, P::Value, [PW::Value; D]>,
        layer: usize,
        here: &CoveredLayer<'_, [PW::Value; D]>,
    ) -> Result<Vec<[PW::Value; D]>, AllocError>
        requires arity { restorable.now.schedule.now.arity ≡ N }
        requires in_tree { layer ≤ restorable.now.cap_layer }
        requires covered { let f = functions_of self.now in
            IsLayer f (tree_of restorable.now) restorable.now.cap_layer (opened_by restorable.now) layer here.now }
        ensures count { IfOk result (λ digests. length digests.items ≡ length here.now.covered.nodes.items) }
        ensures restored { let f = functions_of self.now in
            IfOk result (λ digests. AreRestored f (tree_of restorable.now) restorable.now.cap_layer
            (opened_by restorable.now) layer digests.items) }
    {
        if layer == 0 {
            return self.row_digests(alloc, restorable, here.covered.exponent);
        }
        let mut digests = self.group_digests(alloc, &here.children, here.step)?;
        if !here.has_rows {
            return Ok(digests);
        }
        let rows = self.row_digests(alloc, restorable, here.covered.exponent)?;
        let mut pairs = Vec::new(alloc);
        inject_row_digests::<PW, C, N, D>(self.compress, &mut pairs, &rows, &mut digests)?;
        Ok(digests)
    }

    /// Checks that `roots`, those of a cap, have the digest of each covered node of `here`, the cap's layer, else
    /// `CapMismatch`. `OutOfMemory` if memory runs out.
    pub(crate) fn check_roots(
        &self,
        alloc: Global,
        restorable: &RestorableOpening<'_, P::Value, [PW::Value; D]>,
        here: &CoveredLayer<'_, [PW::Value; D]>,
        roots: &[[PW::Value; D]],
    ) -> Result<(), MerkleTreeError>
        requires arity { restorable.now.schedule.now.arity ≡ N }
        requires covered { let f = functions_of self.now in
            IsLayer f (tree_of restorable.now) restorable.now.cap_layer (opened_by restorable.now)
            restorable.now.cap_layer here.now }
        ensures { let c = params (functions_of self.now) (tree_of restorable.now) restorable.now.cap_layer in
            AnswersUnlessMemory result (cap_refusal PW.Value.eq c roots.now (opened_by restorable.now)) }
    {
        let digests = self.node_digests(alloc, restorable, restorable.cap_layer, here)?;
        if !are_entries(roots, &here.covered.nodes, &digests) {
            return Err(MerkleTreeError::CapMismatch);
        }
        Ok(())
    }

    /// The cap's layer of a pruned opening, computed up from the layer of its leaves. Only one layer's children are
    /// stored. `AllocError` if memory runs out.
    fn top_layer<'b>(
        &self,
        alloc: Global,
        restorable: &RestorableOpening<'_, P::Value, [PW::Value; D]>,
        leaf_layer: CoveredLayer<'b, [PW::Value; D]>,
    ) -> Result<CoveredLayer<'b, [PW::Value; D]>, AllocError>
        requires arity { restorable.now.schedule.now.arity ≡ N }
        requires leaf_layer { AreLeaves (tree_of restorable.now) restorable.now.opening.indices.now leaf_layer }
        ensures { let f = functions_of self.now in
            let cap_layer = restorable.now.cap_layer in
            IfOk result (λ top. IsLayer f (tree_of restorable.now) cap_layer (opened_by restorable.now) cap_layer top) }
    {
        let mut layer = leaf_layer;
        for level in 0..restorable.cap_layer {
            let digests = self.node_digests(alloc, restorable, level, &layer)?;
            // The children are freed before those of the next layer are listed.
            layer.children = Vec::new(alloc);
            layer = layer_above(alloc, restorable, level, &layer, &digests)?;
        }
        Ok(layer)
    }

    /// All layers of a pruned opening, from its leaves up to the cap's layer, with the digests of the covered nodes'
    /// children. The digest of a child is computed from the layer below if the child is covered; else it is one of the
    /// proof. `AllocError` if memory runs out.
    pub(crate) fn restored_layers<'b>(
        &self,
        alloc: Global,
        restorable: &RestorableOpening<'_, P::Value, [PW::Value; D]>,
        leaf_layer: CoveredLayer<'b, [PW::Value; D]>,
    ) -> Result<Vec<CoveredLayer<'b, [PW::Value; D]>>, AllocError>
        requires arity { restorable.now.schedule.now.arity ≡ N }
        requires leaf_layer { AreLeaves (tree_of restorable.now) restorable.now.opening.indices.now leaf_layer }
        ensures { let f = functions_of self.now in
            let cap_layer = restorable.now.cap_layer in
            IfOk result (λ layers. AreLayers f (tree_of restorable.now) cap_layer (opened_by restorable.now) cap_layer
            layers.items) }
    {
        let mut layers = Vec::with_capacity(alloc, restorable.cap_layer + 1)?;
        layers.push(leaf_layer)?;
        for level in 0..restorable.cap_layer {
            let below = &layers[level];
            let digests = self.node_digests(alloc, restorable, level, below)?;
            let above = layer_above(alloc, restorable, level, below, &digests)?;
            layers.push(above)?;
        }
        Ok(layers)
    }

    /// Checks a pruned opening against the roots of a cap: checks its form, computes the digest of each covered node of
    /// the cap's layer from the rows and the proof's digests, and compares it with the root at that node.
    ///
    /// # Errors
    ///
    /// The first of these that applies, where `OutOfMemory` may come once the indices are known to be in range:
    ///
    /// - the error of [`check_pruned`];
    /// - `CapMismatch`: there is no root at a covered node of the cap's layer, or another digest than the one computed.
    pub fn check_pruned_opening(
        &self,
        alloc: Global,
        roots: &[[PW::Value; D]],
        opening: PrunedOpeningRef<'_, P::Value, [PW::Value; D]>,
    ) -> Result<(), MerkleTreeError>
        ensures answer { let refusal = pruned_refusal_under P.Value.eq PW.Value.eq (params_in self.now) roots.now in
            AnswersUnlessMemory result (refusal (pruned_in opening.entry)) }
        ensures checked { Refuses result (pruned_early (shape_in self.now) (pruned_in opening.entry)) }
    {
        let (restorable, leaf_layer) = self.check_restorable(alloc, opening)?;
        let top = self.top_layer(alloc, &restorable, leaf_layer)?;
        self.check_roots(alloc, &restorable, &top, roots)
    }

    /// Restores the path of each query up to the cap's layer, in query order, from a pruned opening: each sibling is a
    /// digest of the proof, or is computed from the rows and these digests. No cap is compared.
    ///
    /// # Errors
    ///
    /// The error of [`check_pruned`]. `OutOfMemory` may come once the indices are known to be in range.
    pub fn restored_paths(
        &self,
        alloc: Global,
        opening: PrunedOpeningRef<'_, P::Value, [PW::Value; D]>,
    ) -> Result<Vec<AuthPath<[PW::Value; D]>>, MerkleTreeError>
        ensures answer { let refusal = pruned_refusal P.Value.eq (shape_in self.now) self.now.cap_layer in
            AnswersUnlessMemory result (refusal (pruned_in opening.entry)) }
        ensures checked { Refuses result (pruned_early (shape_in self.now) (pruned_in opening.entry)) }
        ensures paths { let restored = restored_paths (params_in self.now) (pruned_in opening.entry) in
            IfOk result (λ paths. shown_paths paths.items ≡ restored) }
    {
        let (restorable, leaf_layer) = self.check_restorable(alloc, opening)?;
        let layers = self.restored_layers(alloc, &restorable, leaf_layer)?;
        Ok(paths_of(alloc, &restorable, &layers)?)
    }
}
