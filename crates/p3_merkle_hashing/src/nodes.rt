//! How groups of children are compressed, and injected rows with them: one node in each lane of a call, or many nodes a
//! call.

ghost use Rattle.std.specs.Mem.{FitsInMemory};
ghost use denote.Param.{ArrayAt};
ghost use Rattle.std.specs.Prelude.{◌≡◌, ℕ, ◌+◌, ◌-◌, ◌*◌, ◌^◌, ◌<◌, ◌≤◌, ◌++◌, [], ◌∷◌, drop, length, map, replicate};
ghost use Rattle.std.specs.Prelude.{slice_index_or, take, IfOk};
ghost use Rattle.std.specs.List.{range_with_len};
ghost use Rattle.p3_support.specs.Lists.{lane_of};
ghost use Rattle.p3_merkle_hashing.specs.Inner.Slots.{IsFilled};

use crate::calls::messages_per_call;
use p3_merkle_core::group::{padded_group, pair_group};
use p3_support::compress::PseudoCompressionFunction;
use p3_support::packed::{PackedValue, lemma_row};
use std::alloc::AllocError;

/// Packs child `n` of each of `PW::WIDTH` nodes: lane `k` has that of node `first + k`. `below` is the layer of the
/// children, of which each node has `step`. `n` must be below `step`, and the children of the last node must be in
/// `below`.
// Inlined: a call would store the child in memory in parts of one size, and read it in parts of another, which is slow.
#[inline(always)]
#[tactic(auto, using(crate::proofs::LaneFacts::child_below, crate::proofs::LaneFacts::node_below))]
fn packed_child<PW: PackedValue, const D: usize>(
    below: &[[PW::Value; D]],
    step: usize,
    first: usize,
    n: usize,
) -> [PW; D]
    requires child { n < step }
    requires inside { step * (first + PW.WIDTH) ≤ length below.now }
    ensures { (k : ℕ) → k < PW.WIDTH →
        lane_of PW.lanes PW.default_value k result ≡ slice_index_or below.now (step * (first + k) + n) [] }
{
    // Only the proof in Rattle needs this loop: each child has `D` elements, as its type says.
    for k in 0..PW::WIDTH {
        lemma_row(&below[step * (first + k) + n]);
    }
    std::array::from_fn(
        |e| -> PW
            requires child { n < step }
            requires inside { step * (first + PW.WIDTH) ≤ length below.now }
            requires element { e < D }
            ensures { (k : ℕ) → k < PW.WIDTH →
                slice_index_or (PW.lanes result) k PW.default_value
                ≡ slice_index_or (slice_index_or below.entry.now (step * (first + k) + n) []) e PW.default_value }
        {
            PW::from_fn(
                |k| -> PW::Value
                    requires inside { step * (first + k) + n < length below.now }
                    requires fits { first + k < 2 ^ 64 }
                    requires element { e < D }
                    ensures { (d : _) → result
                        ≡ slice_index_or (slice_index_or below.entry.now (step * (first + k) + n) []) e d }
                { below[step * (first + k) + n][e] },
            )
        },
    )
}

/// The digests of `PW::WIDTH` nodes: lane `k` is the compression of the children of node `first + k`, followed by
/// default digests. `below` is the layer of the children, `step` of each node, at most `N`; those of the last node must
/// be in it. A packed group of `N` digests must have fewer than 2^63 bytes.
pub fn compress_children_packed<
    PW: PackedValue,
    C: PseudoCompressionFunction<PW, N, D>,
    const N: usize,
    const D: usize,
>(compress: &C, below: &[[PW::Value; D]], step: usize, first: usize) -> [PW; D]
    requires group { FitsInMemory (ArrayAt (ArrayAt PW.row D.row) N.row) }
    requires narrow { step ≤ N }
    requires inside { step * (first + PW.WIDTH) ≤ length below.now }
    ensures { (k : ℕ) → k < PW.WIDTH →
        lane_of PW.lanes PW.default_value k result
        ≡ C.compression compress.now (take step (drop (step * (first + k)) below.now)
        ++ replicate (N - step) (replicate D PW.default_value)) }
{
    let mut group = [[PW::broadcast(PW::Value::default()); D]; N];
    for n in 0..step {
        group[n] = packed_child(below, step, first, n);
    }
    compress.compress_packed(group)
}

/// Compresses two packed digests lane by lane, each pair followed by default digests. `N` must be at least 2, and a
/// packed group of `N` digests must have fewer than 2^63 bytes.
pub fn compress_pairs_packed<
    PW: PackedValue,
    C: PseudoCompressionFunction<PW, N, D>,
    const N: usize,
    const D: usize,
>(compress: &C, left: [PW; D], right: [PW; D]) -> [PW; D]
    requires group { FitsInMemory (ArrayAt (ArrayAt PW.row D.row) N.row) }
    requires pair { 2 ≤ N }
    ensures { (k : ℕ) → k < PW.WIDTH →
        lane_of PW.lanes PW.default_value k result
        ≡ C.compression compress.now
        (lane_of PW.lanes PW.default_value k left ∷ lane_of PW.lanes PW.default_value k right
        ∷ replicate (N - 2) (replicate D PW.default_value)) }
{
    let group = pair_group([PW::broadcast(PW::Value::default()); D], left, right);
    compress.compress_packed(group)
}

/// Replaces what `groups` has by the groups of the nodes `first..end`: the children of each, then default digests.
/// `below` is the layer of the children, of which each node has `step`, from 1 to `N`. The children of the last node
/// must be in `below`, and `first` must be at most `end`. `AllocError` if memory runs out.
fn stage_children<W: Copy, const N: usize, const D: usize>(
    groups: &mut Vec<[[W; D]; N]>,
    default_digest: [W; D],
    below: &[[W; D]],
    step: usize,
    first: usize,
    end: usize,
) -> Result<(), AllocError>
    requires step { 0 < step }
    requires few { step ≤ N }
    requires ends { first ≤ end }
    requires inside { step * end ≤ length below.now }
    ensures count { IfOk result (λ done. length groups.new.items ≡ end - first) }
    ensures groups { let group = λ (j : ℕ). take step (drop (step * (first + j)) below.now)
        ++ replicate (N - step) default_digest in
        IfOk result (λ done. groups.new.items ≡ map group (range_with_len 0 (end - first))) }
{
    groups.clear();
    groups.reserve(end - first)?;
    for j in 0..end - first {
        let start = step * (first + j);
        let children = &below[start..start + step];
        groups.push(padded_group::<W, N, D>(default_digest, children))?;
    }
    Ok(())
}

/// Writes into each slot `j` the digest of node `j`: the compression of its children, followed by default digests. One
/// call takes as many groups as [`messages_per_call`] says. `below` is the layer of the children, `step` of each node,
/// at least one and at most `N`; those of all slots must be in it. `groups` is a buffer.
///
/// # Errors
///
/// `AllocError` if memory runs out.
pub fn compress_children<
    PW: PackedValue,
    C: PseudoCompressionFunction<PW, N, D>,
    const N: usize,
    const D: usize,
>(
    compress: &C,
    groups: &mut Vec<[[PW::Value; D]; N]>,
    below: &[[PW::Value; D]],
    step: usize,
    slots: &mut [[PW::Value; D]],
) -> Result<(), AllocError>
    requires step { 0 < step }
    requires few { step ≤ N }
    requires inside { step * length slots.old ≤ length below.now }
    ensures { let folded = λ (j : ℕ). C.compression compress.now (take step (drop (step * j) below.now)
        ++ replicate (N - step) (replicate D PW.default_value)) in
        IfOk result (λ done. IsFilled folded (length slots.old) (length slots.old) slots.new) }
{
    // Groups of `N` children lie in the layer as the compression takes them, so none is copied.
    if step == N {
        let (groups, _) = below.as_chunks::<N>();
        compress.compress_many(&groups[..slots.len()], slots);
        return Ok(());
    }
    let default_digest = [PW::Value::default(); D];
    let per_call = messages_per_call(std::mem::size_of_val(&[default_digest; N]), C::LANES);
    let mut first = 0;
    while first < slots.len() {
        let end = first + per_call.min(slots.len() - first);
        stage_children(groups, default_digest, below, step, first, end)?;
        compress.compress_many(groups, &mut slots[first..end]);
        first = end;
    }
    Ok(())
}

/// Replaces what `pairs` has by the group of each node: the digest of its children in `folded`, the digest of its rows
/// in `rows`, then default digests. Both lists must have one length, and `N` must be at least 2. `AllocError` if memory
/// runs out.
fn stage_pairs<W: Copy, const N: usize, const D: usize>(
    pairs: &mut Vec<[[W; D]; N]>,
    default_digest: [W; D],
    folded: &[[W; D]],
    rows: &[[W; D]],
) -> Result<(), AllocError>
    requires pair { 2 ≤ N }
    requires same { length rows.now ≡ length folded.now }
    ensures count { IfOk result (λ done. length pairs.new.items ≡ length folded.now) }
    ensures pairs { IfOk result (λ done. pairs.new.items
        ≡ map (λ j. slice_index_or folded.now j [] ∷ slice_index_or rows.now j [] ∷ replicate (N - 2) default_digest)
        (range_with_len 0 (length folded.now))) }
{
    pairs.clear();
    pairs.reserve(folded.len())?;
    for (j, digest) in folded.iter().enumerate() {
        pairs.push(pair_group(default_digest, *digest, rows[j]))?;
    }
    Ok(())
}

/// Injects rows into nodes. `slots[j]` has the digest of the children of node `j`, and `rows[j]` the digest of the
/// node's rows; `slots[j]` becomes the compression of both, followed by default digests, for each `j` below
/// `rows.len()`. There must be at most as many rows as slots, and `N` must be at least 2.
///
/// One call takes as many groups as [`messages_per_call`] says. `pairs` is a buffer for them.
///
/// # Errors
///
/// `AllocError` if memory runs out.
pub fn inject_row_digests<
    PW: PackedValue,
    C: PseudoCompressionFunction<PW, N, D>,
    const N: usize,
    const D: usize,
>(
    compress: &C,
    pairs: &mut Vec<[[PW::Value; D]; N]>,
    rows: &[[PW::Value; D]],
    slots: &mut [[PW::Value; D]],
) -> Result<(), AllocError>
    requires pair { 2 ≤ N }
    requires rows { length rows.now ≤ length slots.old }
    ensures { let joined = λ (j : ℕ). C.compression compress.now
        (slice_index_or slots.old j [] ∷ slice_index_or rows.now j []
        ∷ replicate (N - 2) (replicate D PW.default_value)) in
        IfOk result (λ done. IsFilled joined (length rows.now) (length slots.old) slots.new) }
{
    let default_digest = [PW::Value::default(); D];
    let per_call = messages_per_call(std::mem::size_of_val(&[default_digest; N]), C::LANES);
    let mut first = 0;
    while first < rows.len() {
        let end = first + per_call.min(rows.len() - first);
        stage_pairs(pairs, default_digest, &slots[first..end], &rows[first..end])?;
        compress.compress_many(pairs, &mut slots[first..end]);
        first = end;
    }
    Ok(())
}
