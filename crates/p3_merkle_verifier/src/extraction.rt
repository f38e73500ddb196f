//! Two openings of one cap: whether their checks agree, and extraction of a collision. Both checks are walked side by
//! side, to the last place that they share and at which their inputs differ.
//!
//! A check has an input of the hash at the leaf, the words of its rows. On each level it has the digests of a group, a
//! node and its siblings; and where matrices belong to the layer above, the words of their rows, and a pair of both
//! digests. Two checks share the leaf or a level if they reach one node there.

ghost use Rattle.std.specs.Prelude.{◌≡◌, ◌<◌, zip, IfOk, IsOk, IsTrue, None, length, replicate};
ghost use Rattle.std.specs.Cmp.Lexicographic.{pointwise};
ghost use Rattle.std.specs.Option.{option_or};
ghost use Rattle.p3_support.specs.Batches.{heights_of};
ghost use Rattle.p3_support.specs.Rows.{rows_in};
ghost use Rattle.p3_merkle_core.specs.Checks.{digests_at, words_at, words_of_exponent};
ghost use Rattle.p3_merkle_core.specs.Extraction.{difference_of, input_eq, last_difference};
ghost use Rattle.p3_merkle_core.specs.Geometry.{layer_exponent, shape_of};
ghost use Rattle.p3_merkle_core.specs.Refusals.{refusal_under, AnswersUnlessMemory, IsEquality, Refuses};
ghost use Rattle.p3_merkle_verifier.specs.Inner.Checks.{functions_of, leaf_difference, opening_in, params_in, shape_in};
ghost use Rattle.p3_merkle_verifier.specs.Inner.Checks.{AgreeBelow, AgreeOnLevel, ShowsLevel};
ghost use Rattle.p3_merkle_verifier.specs.Inner.Collisions.{first_words, inputs_above, level_inputs, second_words};
ghost use Rattle.p3_merkle_verifier.specs.Inner.Collisions.{IsDifference, Shows};
ghost use Rattle.p3_merkle_verifier.specs.Inner.Paths.{CanReach};

use crate::checker::Checker;
use crate::openings::{OpenedParts, OpenedWords, OpeningRef};
use crate::path::PathLevel;
use p3_merkle_core::collision::{Collision, InputPair, Place};
use p3_merkle_core::error::MerkleTreeError;
use p3_merkle_core::schedule::Schedule;
use p3_support::compress::PseudoCompressionFunction;
use p3_support::hasher::CryptographicHasher;
use p3_support::matrix::Dimensions;
use p3_support::packed::PackedValue;
use p3_support::row_parts::RowParts;
use std::alloc::{AllocError, Global};

/// The rows of two openings, to be compared at the matrices of one exponent.
#[derive(Drop)]
struct RowPair<'a, T> {
    /// The dimensions of all matrices.
    pub dimensions: &'a [Dimensions],
    /// The exponent of those whose rows are compared.
    pub exponent: usize,
    /// The rows of all matrices in the first opening.
    pub first: RowParts<'a, T>,
    /// The rows of all matrices in the second opening.
    pub second: RowParts<'a, T>,
}

impl<'a, T: Eq> RowPair<'a, T> {
    /// Whether both openings have the same words in the rows of the matrices of the exponent. Nothing is copied.
    fn agree(&self) -> bool
        ensures { result ≡ pointwise T.eq (first_words self.now) (second_words self.now) }
    {
        let first = OpenedWords::new(self.dimensions, self.first, self.exponent);
        let second = OpenedWords::new(self.dimensions, self.second, self.exponent);
        first.eq(second)
    }
}

/// The digests `first` and `second` that two checks compress at `place`, if they differ. `AllocError` if they do, and
/// memory runs out.
fn differing_digests<T, W: Copy + Eq, const D: usize>(
    alloc: Global,
    place: Place,
    first: &[[W; D]],
    second: &[[W; D]],
) -> Result<Option<InputPair<T, [W; D]>>, AllocError>
    ensures found { let same = pointwise (pointwise W.eq) first.now second.now in
        IfOk result (λ found. IsDifference found same (digests_at place first.now, digests_at place second.now)) }
    ensures agreed { IsTrue (pointwise (pointwise W.eq) first.now second.now) → IsOk result }
{
    if first == second {
        return Ok(None);
    }
    Ok(Some(InputPair::Digests {
        place,
        first: Vec::from_slice(alloc, first)?,
        second: Vec::from_slice(alloc, second)?,
    }))
}

/// The words of the rows of the matrices of the exponent `exponent`, one after another. `rows` has a row for each of
/// `dimensions`. `AllocError` if memory runs out.
fn opened_words<T: Copy + Drop>(
    alloc: Global,
    dimensions: &[Dimensions],
    rows: RowParts<'_, T>,
    exponent: usize,
) -> Result<Vec<T>, AllocError>
    ensures { let pairs = zip (heights_of dimensions.now) (rows_in rows.entry) in
        IfOk result (λ words. words.items ≡ words_of_exponent exponent pairs) }
{
    let mut words = Vec::new(alloc);
    for part in OpenedParts::new(dimensions, rows, exponent) {
        words.extend_from_slice(part)?;
    }
    Ok(words)
}

/// The words of `rows` that two checks hash at `place`, if they differ. Nothing is copied where they are the same.
/// `AllocError` if they differ, and memory runs out.
fn differing_words<T: Copy + Eq + Drop, W, const D: usize>(
    alloc: Global,
    place: Place,
    rows: &RowPair<'_, T>,
) -> Result<Option<InputPair<T, [W; D]>>, AllocError>
    ensures found { let mine = first_words rows.now in
        let theirs = second_words rows.now in
        IfOk result (λ found. IsDifference found (pointwise T.eq mine theirs)
        (words_at place mine, words_at place theirs)) }
    ensures agreed { IsTrue (pointwise T.eq (first_words rows.now) (second_words rows.now)) → IsOk result }
{
    if rows.agree() {
        return Ok(None);
    }
    Ok(Some(InputPair::Words {
        place,
        first: opened_words(alloc, rows.dimensions, rows.first, rows.exponent)?,
        second: opened_words(alloc, rows.dimensions, rows.second, rows.exponent)?,
    }))
}

/// The words that two checks hash at the leaf, if both openings are of one leaf and the words differ. `AllocError` if
/// so it is, and memory runs out.
fn leaf_difference<T: Copy + Eq + Drop, W: Copy + Eq, const D: usize>(
    alloc: Global,
    schedule: &Schedule<'_>,
    first: OpeningRef<'_, T, [W; D]>,
    second: OpeningRef<'_, T, [W; D]>,
) -> Result<Option<InputPair<T, [W; D]>>, AllocError>
    ensures found { let s = shape_of schedule.now.arity schedule.now.dimensions.now in
        let difference = leaf_difference (input_eq T.eq W.eq) s (opening_in first.entry) (opening_in second.entry) in
        IfOk result (λ found. Shows found difference) }
    ensures agreed { let s = shape_of schedule.now.arity schedule.now.dimensions.now in
        let difference = leaf_difference (input_eq T.eq W.eq) s (opening_in first.entry) (opening_in second.entry) in
        difference ≡ None → IsOk result }
{
    if first.index != second.index {
        return Ok(None);
    }
    let rows = RowPair {
        dimensions: schedule.dimensions,
        exponent: schedule.exponent,
        first: first.rows,
        second: second.rows,
    };
    differing_words(alloc, Place::Leaf, &rows)
}

/// The last inputs of a level in which two checks differ above their groups: the pairs, which are compressed last, else
/// the words of the rows. `None` if all are the same, or if no matrix belongs to the layer above the level. `first` and
/// `second` are the level in each check, and must reach one node; `rows` are the rows of both openings at the layer
/// above. `AllocError` if some differ, and memory runs out.
fn difference_above_group<T: Copy + Eq + Drop, W: Copy + Eq, const N: usize, const D: usize>(
    alloc: Global,
    rows: &RowPair<'_, T>,
    first: &PathLevel<[W; D], [[W; D]; N]>,
    second: &PathLevel<[W; D], [[W; D]; N]>,
) -> Result<Option<InputPair<T, [W; D]>>, AllocError>
    ensures found { let mine = inputs_above first.now.level (first_words rows.now) first.now.pair in
        let theirs = inputs_above first.now.level (second_words rows.now) second.now.pair in
        IfOk result (λ found. Shows found (last_difference (input_eq T.eq W.eq) mine theirs)) }
    ensures agreed { let mine = inputs_above first.now.level (first_words rows.now) first.now.pair in
        let theirs = inputs_above first.now.level (second_words rows.now) second.now.pair in
        last_difference (input_eq T.eq W.eq) mine theirs ≡ None → IsOk result }
{
    let (Some(first_pair), Some(second_pair)) = (&first.pair, &second.pair) else {
        return Ok(None);
    };
    match differing_digests(alloc, Place::Pair(first.level), first_pair, second_pair)? {
        Some(pair) => Ok(Some(pair)),
        None => differing_words(alloc, Place::Rows(first.level), rows),
    }
}

/// The last inputs of a level in which two checks differ: the pairs, else the words of the rows, else the groups.
/// `None` if all are the same, or if the checks do not share the node above the level. `first` and `second` are the
/// level in each check; `rows` are the rows of both openings at the layer above. `AllocError` if some differ, and
/// memory runs out.
fn level_difference<T: Copy + Eq + Drop, W: Copy + Eq, const N: usize, const D: usize>(
    alloc: Global,
    rows: &RowPair<'_, T>,
    first: &PathLevel<[W; D], [[W; D]; N]>,
    second: &PathLevel<[W; D], [[W; D]; N]>,
) -> Result<Option<InputPair<T, [W; D]>>, AllocError>
    ensures found { let mine = first_words rows.now in
        let theirs = second_words rows.now in
        IfOk result (λ found. ShowsLevel (input_eq T.eq W.eq) mine theirs first.now second.now found) }
    ensures agreed { let mine = level_inputs first.now.level (first_words rows.now) first.now in
        let theirs = level_inputs first.now.level (second_words rows.now) second.now in
        (first.now.above.node ≡ second.now.above.node → last_difference (input_eq T.eq W.eq) mine theirs ≡ None) →
        IsOk result }
{
    if first.above.node != second.above.node {
        return Ok(None);
    }
    match difference_above_group(alloc, rows, first, second)? {
        Some(above) => Ok(Some(above)),
        None => differing_digests(
            alloc,
            Place::Group(first.level),
            &first.group,
            &second.group,
        ),
    }
}

/// Whether two checks have the same inputs on a level, or do not share the node above it. `first` and `second` are the
/// level in each check; `rows` are the rows of both openings at the layer above. The pairs are computed from the groups
/// and the rows, so they are not compared.
fn levels_agree<T: Eq, W: Copy + Eq, const N: usize, const D: usize>(
    rows: &RowPair<'_, T>,
    first: &PathLevel<[W; D], [[W; D]; N]>,
    second: &PathLevel<[W; D], [[W; D]; N]>,
) -> bool
    ensures { IsEquality T.eq → IsEquality W.eq → IsTrue result →
        AgreeOnLevel (first_words rows.now) (second_words rows.now) first.now second.now }
{
    if first.above.node != second.above.node {
        return true;
    }
    first.group == second.group && (first.pair.is_none() || rows.agree())
}

impl<
    'a,
    P: PackedValue,
    PW: PackedValue,
    H: CryptographicHasher<P, PW, D>,
    C: PseudoCompressionFunction<PW, N, D>,
    const N: usize,
    const D: usize,
> Checker<'a, P, PW, H, C, [[PW::Value; D]; N], N, D> {
    /// True only if the checks of two openings have the same inputs at every place that both share. Both openings must
    /// have their siblings up to the cap. Nothing is allocated.
    pub(crate) fn agree(
        &self,
        first: OpeningRef<'_, P::Value, [PW::Value; D]>,
        second: OpeningRef<'_, P::Value, [PW::Value; D]>,
    ) -> bool
        requires first { CanReach (shape_in self.now) self.now.cap_layer (length first.siblings.now) }
        requires second { CanReach (shape_in self.now) self.now.cap_layer (length second.siblings.now) }
        ensures { IsTrue result → AgreeBelow (functions_of self.now) (shape_in self.now) (opening_in first.entry)
            (opening_in second.entry) self.now.cap_layer }
    {
        let leaves = RowPair {
            dimensions: self.schedule.dimensions,
            exponent: self.schedule.exponent,
            first: first.rows,
            second: second.rows,
        };
        if first.index == second.index && !leaves.agree() {
            return false;
        }
        let mut first_state = self.start(first);
        let mut second_state = self.start(second);
        for level in 0..self.cap_layer {
            let mine = self.compute_level(level, first, &first_state);
            let theirs = self.compute_level(level, second, &second_state);
            let rows = RowPair {
                dimensions: self.schedule.dimensions,
                exponent: mine.above.exponent,
                first: first.rows,
                second: second.rows,
            };
            if !levels_agree(&rows, &mine, &theirs) {
                return false;
            }
            first_state = mine.above;
            second_state = theirs.above;
        }
        true
    }

    /// The last place that the checks of two openings share and at which they differ, with both inputs. `None` if they
    /// agree. Both openings must have their siblings up to the cap. Only the inputs of places that differ are copied.
    /// `AllocError` if the checks differ at such a place, and memory runs out.
    pub fn last_difference(
        &self,
        alloc: Global,
        first: OpeningRef<'_, P::Value, [PW::Value; D]>,
        second: OpeningRef<'_, P::Value, [PW::Value; D]>,
    ) -> Result<Option<Collision<P::Value, PW::Value, D>>, AllocError>
        requires first { CanReach (shape_in self.now) self.now.cap_layer (length first.siblings.now) }
        requires second { CanReach (shape_in self.now) self.now.cap_layer (length second.siblings.now) }
        ensures found { let o = opening_in first.entry in
            let difference = difference_of P.Value.eq PW.Value.eq (params_in self.now) o (opening_in second.entry) in
            IfOk result (λ found. Shows found difference) }
        ensures agreed { let o = opening_in first.entry in
            let difference = difference_of P.Value.eq PW.Value.eq (params_in self.now) o (opening_in second.entry) in
            difference ≡ None → IsOk result }
    {
        let mut first_state = self.start(first);
        let mut second_state = self.start(second);
        let mut last = leaf_difference(alloc, &self.schedule, first, second)?;
        for level in 0..self.cap_layer {
            let mine = self.compute_level(level, first, &first_state);
            let theirs = self.compute_level(level, second, &second_state);
            let rows = RowPair {
                dimensions: self.schedule.dimensions,
                exponent: mine.above.exponent,
                first: first.rows,
                second: second.rows,
            };
            let found = level_difference(alloc, &rows, &mine, &theirs)?;
            last = found.or(last);
            first_state = mine.above;
            second_state = theirs.above;
        }
        Ok(last)
    }

    /// Extracts a collision from two openings under the roots of a cap: the inputs at the last place that both checks
    /// share and at which they differ, or `None` if the checks agree.
    ///
    /// # Errors
    ///
    /// The first of these that applies:
    ///
    /// - the error of [`check_opening`](Self::check_opening) for the first opening;
    /// - that for the second opening;
    /// - `OutOfMemory`, only if the checks differ at a place that both share.
    pub fn extraction(
        &self,
        alloc: Global,
        roots: &[[PW::Value; D]],
        first: OpeningRef<'_, P::Value, [PW::Value; D]>,
        second: OpeningRef<'_, P::Value, [PW::Value; D]>,
    ) -> Result<Option<Collision<P::Value, PW::Value, D>>, MerkleTreeError>
        ensures answer { let refusal = refusal_under PW.Value.eq (params_in self.now) roots.now in
            AnswersUnlessMemory result
            (option_or (refusal (opening_in first.entry)) (refusal (opening_in second.entry))) }
        ensures checked { let refusal = refusal_under PW.Value.eq (params_in self.now) roots.now in
            Refuses result (option_or (refusal (opening_in first.entry)) (refusal (opening_in second.entry))) }
        ensures found { let o = opening_in first.entry in
            let difference = difference_of P.Value.eq PW.Value.eq (params_in self.now) o (opening_in second.entry) in
            IfOk result (λ found. Shows found difference) }
        ensures agreed { let refusal = refusal_under PW.Value.eq (params_in self.now) roots.now in
            let o = opening_in first.entry in
            let u = opening_in second.entry in
            option_or (refusal o) (refusal u) ≡ None →
            difference_of P.Value.eq PW.Value.eq (params_in self.now) o u ≡ None → IsOk result }
    {
        self.check_opening(roots, 0, first)?;
        self.check_opening(roots, 0, second)?;
        Ok(self.last_difference(alloc, first, second)?)
    }
}
