//! Pruned openings: their form, whether their rows agree, the nodes that they cover, and the paths that are read from
//! their layers. Nothing here needs a cap or a hash.
//!
//! - A query is the index of a leaf. Its row set has one row of each matrix. The slot of an index is its position among
//!   the distinct indices, ascending.
//! - A node is covered if it is a queried leaf or above one. The boundary is the children of covered nodes that are not
//!   covered themselves: a proof has their digests.
//! - The exponent of a height is its log2, rounded up. A matrix belongs to the layer of its exponent.
//! - Rows agree if queries of one index have one row set, and queries under a node one row of each matrix of its layer.

ghost use Rattle.std.specs.Prelude.{◌≡◌, ℕ, ◌+◌, ◌-◌, ◌*◌, ◌/◌, ◌%◌, ◌^◌, ◌<◌, ◌≤◌, ◌⊎◌, Some, None, List, []};
ghost use Rattle.std.specs.Prelude.{All, IfOk, MatchResult, length, map, slice_index, slice_index_or, true};
ghost use Rattle.std.specs.Cmp.Lexicographic.{pointwise};
ghost use Rattle.std.specs.List.Sorted.{IsStrictlyIncreasing};
ghost use Rattle.p3_support.specs.Batches.{heights_of, greatest};
ghost use Rattle.p3_support.specs.Lists.{is_among};
ghost use Rattle.p3_support.specs.RowSets.{sets_in};
ghost use Rattle.p3_support.specs.Shown.{row_lists};
ghost use Rattle.p3_merkle_core.specs.Geometry.{height_limit, shape_of, IsArity};
ghost use Rattle.p3_merkle_core.specs.Refusals.{digest_count_refusal, duplicate_refusal, early_refusal};
ghost use Rattle.p3_merkle_core.specs.Refusals.{pruned_refusal, queries_refusal, AnswersUnlessMemory, Refuses};
ghost use Rattle.p3_merkle_core.specs.Inner.Agreement.{distinct, layers_refusal, matrices_with};
ghost use Rattle.p3_merkle_core.specs.Inner.Agreement.{nodes_refusal, opened_of, opened_with, rows_refusal, slot_rows};
ghost use Rattle.p3_merkle_core.specs.Inner.Agreement.{AreDistinctOf, AreSlots, AreSorted, IsAscending};
ghost use Rattle.p3_merkle_core.specs.Inner.Children.{levels_in, siblings_on_path, place_among, AreChildren, AreLinked};
ghost use Rattle.p3_merkle_core.specs.Inner.Children.{IsFamily};
ghost use Rattle.p3_merkle_core.specs.declared.error.MerkleTreeError.TheVariants.{OutOfMemory};

use crate::covered_nodes::Covered;
use crate::error::{MerkleTreeError, PrunedProofError};
use crate::gate::check_heights;
use crate::geometry::{check_row_widths, exponent_of, parent_of, position_of};
use crate::group::append_siblings;
use crate::schedule::Schedule;
use p3_support::matrix::Dimensions;
use p3_support::row_parts::{RowParts, RowSets, same_row};
use std::alloc::{AllocError, Global};

/// The digests of a pruned proof, which opens several leaves at once. [`PrunedMerklePaths`] has digests of words.
#[derive(Debug, Clone, PartialEq, Eq, Drop)]
pub struct PrunedProof<X> {
    /// The digests of the boundary in wire order: level by level from the leaves up, ascending on each level.
    pub sibling_hashes: Vec<X>,
}

/// The digests of a pruned proof, of `D` words each (`PrunedMerklePaths` in Plonky3).
pub type PrunedMerklePaths<W, const D: usize> = PrunedProof<[W; D]>;

/// The rows of several leaves, and one proof for all of them. [`PrunedBatchOpening`] has digests of words.
#[derive(Debug, Clone, PartialEq, Eq, Drop)]
pub struct PrunedRows<T, X> {
    /// For each query, in query order, one row of each matrix, in input order.
    pub opened_values: Vec<Vec<Vec<T>>>,
    /// What proves that they were committed to.
    pub pruned_proof: PrunedProof<X>,
}

/// The rows of several leaves, and one proof for all of them, with digests of `D` words (`PrunedBatchOpening` in
/// Plonky3).
pub type PrunedBatchOpening<T, W, const D: usize> = PrunedRows<T, [W; D]>;

/// A leaf and the siblings on its path, as a pruned proof restores them. [`MerkleAuthPath`] has digests of words.
#[derive(Debug, Clone, PartialEq, Eq, Drop)]
pub struct AuthPath<X> {
    /// The index of the leaf, from 0.
    pub leaf_index: usize,
    /// The siblings on the leaf's path, level by level from the leaves up, ascending on each level.
    pub siblings: Vec<X>,
}

/// A leaf and the siblings on its path, of `D` words each (`MerkleAuthPath` in Plonky3).
pub type MerkleAuthPath<W, const D: usize> = AuthPath<[W; D]>;

/// A layer on the way up a pruned opening: its covered nodes, and the digests of their children.
#[derive(Drop)]
pub struct CoveredLayer<'a, X> {
    /// The covered nodes.
    pub covered: Covered<'a>,
    /// How many children a node has: 0 at the leaves.
    pub step: usize,
    /// Whether matrices belong to the layer.
    pub has_rows: bool,
    /// The digests of the children, parent by parent: none at the leaves.
    pub children: Vec<X>,
}

/// The distinct indices of some queries, ascending. The slot of an index is its position among them.
#[derive(Debug, Drop)]
pub struct DistinctQueries {
    /// The distinct indices, ascending.
    pub indices: Vec<usize>,
    /// For each of them, the position of its first query among the queries.
    pub first_queries: Vec<usize>,
    /// For each query, the slot of its index.
    pub slots: Vec<usize>,
}

/// Checks that each index is below `max_height`, the tallest height of some matrices.
///
/// # Errors
///
/// `IndexOutOfBounds` with the highest index if that is not below `max_height`, or with 0 if `max_height` is 0 and
/// there is no index.
pub fn check_indices(max_height: usize, indices: &[usize]) -> Result<(), MerkleTreeError>
    ensures answer { MatchResult result (λ ok. queries_refusal max_height indices.now ≡ None)
        (λ e. queries_refusal max_height indices.now ≡ Some e) }
    ensures below { IfOk result (λ ok. All (λ q. q < max_height) indices.now) }
{
    let mut highest = 0;
    for index in indices {
        highest = highest.max(*index);
    }
    if highest < max_height {
        Ok(())
    } else {
        Err(MerkleTreeError::IndexOutOfBounds {
            max_height,
            index: highest,
        })
    }
}

/// The distinct ones of `indices`, ascending, and the slot of each query, in query order: the position of its index
/// among the distinct ones. `indices` has the index of each query. `sorted` must have an entry for each query, its
/// index and its position, and these must ascend. `AllocError` if memory runs out.
fn distinct_slots(
    alloc: Global,
    sorted: &[(usize, usize)],
    indices: &[usize],
) -> Result<(Vec<usize>, Vec<usize>), AllocError>
    requires { AreSorted sorted.now indices.now }
    ensures distinct { IfOk result (λ found. found.0.items ≡ distinct indices.now) }
    ensures slots { IfOk result (λ found. AreSlots found.1.items indices.now) }
{
    let mut distinct = Vec::with_capacity(alloc, sorted.len())?;
    let mut slots = vec![in alloc; 0; indices.len()]?;
    let mut previous = 0;
    for position in 0..sorted.len() {
        let (index, query) = sorted[position];
        if position == 0 || previous != index {
            distinct.push_reserved(index);
        }
        previous = index;
        slots[query] = distinct.len() - 1;
    }
    Ok((distinct, slots))
}

/// The distinct ones of `queries`, the index of each query, with the first query of each, and the slot of each query.
/// `AllocError` if memory runs out.
fn distinct_queries_of(alloc: Global, queries: &[usize]) -> Result<DistinctQueries, AllocError>
    ensures { IfOk result (λ queried. AreDistinctOf queried queries.now) }
{
    let mut sorted = Vec::with_capacity(alloc, queries.len())?;
    for query in 0..queries.len() {
        sorted.push_reserved((queries[query], query));
    }
    sorted.sort_unstable();
    let (indices, slots) = distinct_slots(alloc, &sorted, queries)?;
    let mut first_queries = vec![in alloc; queries.len(); indices.len()]?;
    // From the last query on, so that the first one of an index is written last.
    for first in (0..queries.len()).rev() {
        first_queries[slots[first]] = first;
    }
    Ok(DistinctQueries {
        indices,
        first_queries,
        slots,
    })
}

/// Checks that each query has the row set of the first query of its index, else `InconsistentDuplicateOpenings` with
/// the slot of the first query that has another. `rows` must have a row set for each of `indices`, and `queried` must
/// be what [`distinct_queries_of`] returns of `indices`.
fn check_repeats<T: Eq>(
    indices: &[usize],
    rows: RowSets<'_, T>,
    queried: &DistinctQueries,
) -> Result<(), MerkleTreeError>
    requires queried { AreDistinctOf queried.now indices.now }
    requires pairs { length indices.now ≡ length (sets_in rows) }
    ensures { let p = opened_of indices.now (sets_in rows.entry) in
        MatchResult result (λ ok. duplicate_refusal T.eq p ≡ None) (λ e. duplicate_refusal T.eq p ≡ Some e) }
{
    for query in 0..indices.len() {
        let slot = queried.slots[query];
        let first = queried.first_queries[slot];
        // Nothing is compared where both are the same query.
        if query != first && !rows.rows(query).same_rows(rows.rows(first)) {
            return Err(PrunedProofError::InconsistentDuplicateOpenings { slot }.into());
        }
    }
    Ok(())
}

/// Checks that the row sets of `query` and `first_query` have the same row of each of `matrices`, else
/// `InconsistentGroupOpening` for `slot` and the first matrix whose rows differ. Both row sets must have each of
/// `matrices`. `query` is the first query of `slot`, and `first_query` that of the first slot under the same node.
/// `slot` is only reported.
fn check_same_rows<T: Eq>(
    matrices: &[usize],
    slot: usize,
    rows: RowSets<'_, T>,
    query: usize,
    first_query: usize,
) -> Result<(), MerkleTreeError>
    requires query { query < length (sets_in rows) }
    requires first_query { first_query < length (sets_in rows) }
    requires rows { All (λ matrix. matrix < length (slice_index_or (sets_in rows) query [])) matrices.now }
    requires first_rows { All (λ matrix. matrix < length (slice_index_or (sets_in rows) first_query []))
        matrices.now }
    ensures { let sets = sets_in rows.entry in
        let refusal = rows_refusal T.eq matrices.now slot (slice_index_or sets query [])
        (slice_index_or sets first_query []) in
        MatchResult result (λ ok. refusal ≡ None) (λ e. refusal ≡ Some e) }
{
    if let (RowParts::Vecs(rows), RowParts::Vecs(first_rows)) = (
        rows.rows(query),
        rows.rows(first_query),
    ) {
        // Through `RowSets` a row takes three times as long, and most rows are vectors.
        return check_same_vectors(matrices, slot, rows, first_rows);
    }
    for matrix in matrices {
        let matrix = *matrix;
        if !same_row(rows.row(query, matrix), rows.row(first_query, matrix)) {
            return Err(PrunedProofError::InconsistentGroupOpening { slot, matrix }.into());
        }
    }
    Ok(())
}

/// Checks that `rows` and `first_rows` have the same row of each of `matrices`, with the error of [`check_same_rows`].
/// Both must have each of `matrices`. `slot` is only reported.
fn check_same_vectors<T: Eq>(
    matrices: &[usize],
    slot: usize,
    rows: &[Vec<T>],
    first_rows: &[Vec<T>],
) -> Result<(), MerkleTreeError>
    requires rows { All (λ matrix. matrix < length rows.now) matrices.now }
    requires first_rows { All (λ matrix. matrix < length first_rows.now) matrices.now }
    ensures { let refusal = rows_refusal T.eq matrices.now slot (row_lists rows.now) (row_lists first_rows.now) in
        MatchResult result (λ ok. refusal ≡ None) (λ e. refusal ≡ Some e) }
{
    for matrix in matrices {
        let matrix = *matrix;
        // Rows of one word are compared in place: a call takes longer.
        let differ = match (rows[matrix].as_slice(), first_rows[matrix].as_slice()) {
            ([word], [first]) => *word != *first,
            (words, first) => words != first,
        };
        if differ {
            return Err(PrunedProofError::InconsistentGroupOpening { slot, matrix }.into());
        }
    }
    Ok(())
}

/// Checks that all slots under one node of a layer have the same rows of `matrices`, the positions of the layer's
/// matrices, else `InconsistentGroupOpening` for the first slot that has another row. Each slot is compared with the
/// first one under its node. `indices` has the index of each slot, and must ascend without repeats; the node above an
/// index is the index without its lowest `bits` bits, at most 63. `first_queries` has the first query of each index,
/// whose row set in `rows` is compared, and must have each of `matrices`.
fn check_rows_under_nodes<T: Eq>(
    matrices: &[usize],
    indices: &[usize],
    bits: usize,
    first_queries: &[usize],
    rows: RowSets<'_, T>,
) -> Result<(), MerkleTreeError>
    requires pairs { length indices.now ≡ length first_queries.now }
    requires ascending { IsAscending indices.now }
    requires bits { bits < 64 }
    requires queries { All (λ query. query < length (sets_in rows)) first_queries.now }
    requires full { (k : ℕ) → k < length first_queries.now →
        All (λ matrix. matrix < length (slot_rows first_queries.now (sets_in rows) k)) matrices.now }
    ensures { let nodes = map (λ i. i / 2 ^ bits) indices.now in
        let refusal = nodes_refusal T.eq matrices.now nodes first_queries.now (sets_in rows.entry) in
        MatchResult result (λ ok. refusal ≡ None) (λ e. refusal ≡ Some e) }
{
    let mut first_slot = 0;
    for slot in 1..indices.len() {
        if indices[slot] >> bits == indices[first_slot] >> bits {
            let query = first_queries[slot];
            check_same_rows(matrices, slot, rows, query, first_queries[first_slot])?;
        } else {
            first_slot = slot;
        }
    }
    Ok(())
}

/// Replaces the contents of `matrices` by the positions, in input order, of the matrices whose height has the exponent
/// `exponent`. `AllocError` if memory runs out.
fn list_matrices(
    matrices: &mut Vec<usize>,
    dimensions: &[Dimensions],
    exponent: usize,
) -> Result<(), AllocError>
    ensures { IfOk result (λ done. matrices.new.items ≡ matrices_with (heights_of dimensions.now) exponent) }
{
    matrices.clear();
    for matrix in 0..dimensions.len() {
        if exponent_of(dimensions[matrix].height) == exponent {
            matrices.push(matrix)?;
        }
    }
    Ok(())
}

/// Checks that slots under one node have the same rows of the matrices of its layer, layer by layer up to layer
/// `cap_layer`, else `InconsistentGroupOpening`. This is the last check of [`check_pruned`], whose conditions on
/// `cap_layer` and the arity apply. The earlier checks must have passed: heights and indices are in range, and the
/// first query of each index has a row for each matrix. `OutOfMemory` if memory runs out.
fn check_shared_rows<T: Eq>(
    alloc: Global,
    schedule: &Schedule<'_>,
    cap_layer: usize,
    queried: &DistinctQueries,
    rows: RowSets<'_, T>,
) -> Result<(), MerkleTreeError>
    requires arity { IsArity schedule.now.arity }
    requires low { greatest (heights_of schedule.now.dimensions.now) ≤ height_limit }
    requires below { All (λ i. i < greatest (heights_of schedule.now.dimensions.now)) queried.now.indices.items }
    requires layer { cap_layer ≤ schedule.now.num_levels }
    requires pairs { length queried.now.indices.items ≡ length queried.now.first_queries.items }
    requires ascending { IsStrictlyIncreasing queried.now.indices.items }
    requires queries { All (λ query. query < length (sets_in rows)) queried.now.first_queries.items }
    requires full { (k : ℕ) → k < length queried.now.first_queries.items →
        length (slot_rows queried.now.first_queries.items (sets_in rows) k)
        ≡ length schedule.now.dimensions.now }
    ensures { let s = shape_of schedule.now.arity schedule.now.dimensions.now in
        let refusal = layers_refusal T.eq s cap_layer queried.now.indices.items queried.now.first_queries.items
        (sets_in rows.entry) in
        AnswersUnlessMemory result refusal }
{
    let mut matrices = Vec::new(alloc);
    let mut exponent = schedule.exponent;
    // No two slots are under one leaf, so the first layer to look at is the one above the leaves.
    for level in 0..cap_layer {
        let up = schedule.step_up(schedule.arity, level, exponent);
        exponent = up.exponent;
        if up.has_rows {
            list_matrices(&mut matrices, schedule.dimensions, exponent)?;
            let bits = schedule.exponent - exponent;
            check_rows_under_nodes(
                &matrices,
                &queried.indices,
                bits,
                &queried.first_queries,
                rows,
            )?;
        }
    }
    Ok(())
}

/// Checks everything about a pruned opening that does not depend on the cap's digests: whether the siblings of its
/// queries can be computed up to layer `cap_layer`. Returns its distinct indices, with their queries. `rows` has the
/// row set of each index, and the proof has `num_digests` digests. `cap_layer` must be at most the number of levels,
/// and the arity a power of two from 2 to 2^62.
///
/// It sorts the indices once, and allocates at most five numbers for each index at a time, and a list of the matrices
/// of one layer above the leaves.
///
/// # Errors
///
/// The first of these that applies, where `OutOfMemory` may come once the indices are known to be in range:
///
/// - the error of [`check_heights`];
/// - `WrongBatchSize`: the number of row sets is not that of the indices;
/// - `SiblingCountMismatch`: there is a digest, and no index;
/// - `IndexOutOfBounds`: the highest index is not below the tallest height;
/// - `InconsistentDuplicateOpenings`: the row set of a query is not that of the first query of its index;
/// - `SiblingCountMismatch`: the number of digests is not that of the boundary nodes;
/// - `WrongBatchSize`, `WrongWidth`: by ascending indices, the error of [`check_row_widths`] for the first query of
///   each;
/// - `InconsistentGroupOpening`: layer by layer up to `cap_layer`, by ascending indices and in input order of the
///   layer's matrices, a row is not that of the lowest index under the same node.
pub fn check_pruned<T: Eq>(
    alloc: Global,
    schedule: &Schedule<'_>,
    cap_layer: usize,
    indices: &[usize],
    rows: RowSets<'_, T>,
    num_digests: usize,
) -> Result<DistinctQueries, MerkleTreeError>
    requires arity { IsArity schedule.now.arity }
    requires layer { cap_layer ≤ schedule.now.num_levels }
    ensures answer { let refusal = pruned_refusal T.eq (shape_of schedule.now.arity schedule.now.dimensions.now)
        cap_layer (opened_with indices.now (sets_in rows.entry) num_digests) in
        MatchResult result (λ queried. (refusal ≡ None) × AreDistinctOf queried indices.now)
        (λ e. (e ≡ OutOfMemory) ⊎ (refusal ≡ Some e)) }
    ensures checked { let heights = heights_of schedule.now.dimensions.now in
        Refuses result (early_refusal heights indices.now (length (sets_in rows.entry)) num_digests) }
{
    check_queries(schedule, indices, rows.num_sets(), num_digests)?;
    let queried = distinct_queries_of(alloc, indices)?;
    check_repeats(indices, rows, &queried)?;
    let leaves = Vec::from_slice(alloc, &queried.indices)?;
    let covered = Covered::new(schedule, indices, leaves);
    check_digest_count(covered.boundary_len(cap_layer), num_digests)?;
    for query in &queried.first_queries {
        check_row_widths(schedule.dimensions, 0, rows.rows(*query))?;
    }
    check_shared_rows(alloc, schedule, cap_layer, &queried, rows)?;
    Ok(queried)
}

/// Checks, in this order: the heights; that there is a row set for each index; that there is no digest if there is no
/// index; and that each index is below the tallest height. The errors are the first four of [`check_pruned`]. It does
/// not allocate.
fn check_queries(
    schedule: &Schedule<'_>,
    indices: &[usize],
    num_row_sets: usize,
    num_digests: usize,
) -> Result<(), MerkleTreeError>
    ensures answer { let heights = heights_of schedule.now.dimensions.now in
        let refusal = early_refusal heights indices.now num_row_sets num_digests in
        MatchResult result (λ ok. refusal ≡ None) (λ e. refusal ≡ Some e) }
    ensures low { IfOk result (λ ok. greatest (heights_of schedule.now.dimensions.now) ≤ height_limit) }
{
    check_heights(schedule.dimensions)?;
    let (expected, got) = (indices.len(), num_row_sets);
    if got != expected {
        return Err(MerkleTreeError::WrongBatchSize { expected, got });
    }
    if indices.is_empty() {
        check_digest_count(0, num_digests)?;
    }
    check_indices(schedule.max_height, indices)
}

/// Checks that a proof has `expected` digests, where it has `got`, else `SiblingCountMismatch`.
fn check_digest_count(expected: usize, got: usize) -> Result<(), MerkleTreeError>
    ensures { MatchResult result (λ ok. digest_count_refusal expected got ≡ None)
        (λ e. digest_count_refusal expected got ≡ Some e) }
{
    if expected == got {
        Ok(())
    } else {
        Err(PrunedProofError::SiblingCountMismatch { expected, got }.into())
    }
}

/// The distinct indices, ascending: the covered leaves. It sorts a copy of the list.
///
/// # Errors
///
/// `AllocError` if memory runs out.
pub fn distinct_indices(alloc: Global, indices: &[usize]) -> Result<Vec<usize>, AllocError>
    ensures { IfOk result (λ leaves. leaves.items ≡ distinct indices.now) }
{
    let mut leaves = Vec::from_slice(alloc, indices)?;
    leaves.sort_unstable();
    leaves.dedup();
    Ok(leaves)
}

/// The digests of all children of some parents, `step` of each, parent by parent. A covered child has its digest from
/// `digests`, any other child the next of `proof_digests`. `covered` must have the covered children in that order,
/// `digests` one digest for each of them, and `proof_digests` enough for the others. The number of children, and
/// `step * parent + step` for each parent, must fit `usize`. It allocates the list of children.
///
/// # Errors
///
/// `AllocError` if memory runs out.
pub fn children_of<X: Copy>(
    alloc: Global,
    covered: &[usize],
    digests: &[X],
    parents: &[usize],
    step: usize,
    proof_digests: &[X],
) -> Result<Vec<X>, AllocError>
    requires { IsFamily step parents.now covered.now digests.now proof_digests.now }
    ensures { IfOk result (λ children.
        AreChildren step parents.now covered.now digests.now proof_digests.now children.items) }
{
    let mut children = Vec::with_capacity(alloc, step * parents.len())?;
    let mut known = 0;
    for parent in parents {
        let first = step * *parent;
        for child in first..first + step {
            if known < covered.len() && covered[known] == child {
                children.push_reserved(digests[known]);
                known += 1;
            } else {
                children.push_reserved(proof_digests[children.len() - known]);
            }
        }
    }
    Ok(children)
}

/// The position of `node` in `nodes`, which must ascend without repeats and have it. The search begins at position
/// `start`, or at 0 if there is no such position or `node` stands ahead of it, and takes a step for each node that it
/// passes.
fn place_of(nodes: &[usize], start: usize, node: usize) -> usize
    requires ascending { IsStrictlyIncreasing nodes.now }
    requires among { is_among nodes.now node ≡ true }
    ensures inside { result < length nodes.now }
    ensures place { result ≡ place_among nodes.now node }
{
    let mut place = 0;
    if start < nodes.len() && nodes[start] <= node {
        place = start;
    }
    while nodes[place] != node {
        place += 1;
    }
    place
}

/// The siblings on the path of the leaf `index`, which must be covered, from the leaves up: on each layer above them
/// the digests of the children of the path's node, without the path's own, ascending. `layers` must be those of a
/// pruned opening, the leaves first, and `capacity` is the expected number of siblings.
///
/// `places` must have a number for each layer. The search for the path's node begins at that place among the layer's
/// covered nodes, and the number then becomes the node's own place. So the searches of ascending leaves pass each node
/// once. The path does not depend on these numbers.
///
/// # Errors
///
/// `AllocError` if memory runs out.
pub fn siblings_on_path<X: Copy>(
    alloc: Global,
    layers: &[CoveredLayer<'_, X>],
    places: &mut [usize],
    index: usize,
    capacity: usize,
) -> Result<Vec<X>, AllocError>
    requires some { 0 < length layers.now }
    requires places { length places.now ≡ length layers.now }
    requires linked { AreLinked layers.now }
    requires covered { (x : CoveredLayer X) →
        is_among (slice_index_or layers.now 0 x).covered.nodes.items index ≡ true }
    ensures { IfOk result (λ path. path.items ≡ siblings_on_path (levels_in layers.now) index) }
{
    let mut path = Vec::with_capacity(alloc, capacity)?;
    let mut node = index;
    for level in 1..layers.len() {
        let above = &layers[level];
        let parent = parent_of(node, above.step);
        let place = place_of(&above.covered.nodes, places[level], parent);
        places[level] = place;
        let first = above.step * place;
        let own = position_of(node, above.step);
        append_siblings(&mut path, &above.children[first..first + above.step], own)?;
        node = parent;
    }
    Ok(path)
}
