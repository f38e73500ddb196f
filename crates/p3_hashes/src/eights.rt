//! The fold functions of many messages and of many groups, eight at a time, each in a lane of its own. `messages` has
//! messages of `width` words, one after another; column `c` is word `c` of each. A group is `N` digests, its children.
//! The number after the last of a call's eight messages must fit `usize`: so it does in each call, since memory has all
//! of them, or `out` has a place for each.
ghost use Rattle.std.specs.Prelude.{◌≡◌, ℕ, ◌+◌, ◌*◌, ◌/◌, ◌^◌, ◌<◌, ◌≤◌, [], length, map, slice_index_or, slice_range};
ghost use Rattle.std.specs.Prelude.{take};
ghost use Rattle.p3_support.specs.Lists.{lane_of, message as message_of};
ghost use Rattle.p3_hashes.specs.Inner.Eights.{lanes_of};
ghost use Rattle.p3_hashes.specs.Inner.Transposed.{transposed};
ghost use Rattle.sha256_eights.specs.Inner.Written.{AreWritten};
ghost use Rattle.p3_hashes.specs.Fold.{fold_hash, fold_compress};

use crate::fold::{
    FoldPacked, absorb, absorb_words, compress_group, compress_lanes, hash_words, initial_state,
};
use crate::lanes::{U32x8, transpose};
use p3_support::packed::{PackedValue, lemma_rows, pack_columns_fn, unpack_at};
use std::simd::prelude::*;

/// The longest digest, in words, for which eight messages are hashed together. A longer one leaves no registers for the
/// transposed words.
const MOST_HASHED: usize = 4;

/// The longest digest, in words, for which eight groups are compressed together. A longer one fills vectors by itself.
const MOST_COMPRESSED: usize = 1;

/// Packs word `column` of eight messages: lane `k` is from message `first + k`. `messages` must have all eight, and
/// each must have the word.
fn column_of(messages: &[u32], width: usize, first: usize, column: usize) -> U32x8
    requires full { (n : ℕ) × (first + 8 ≤ n) × (length messages.now ≡ n * width) }
    requires fits { first + 8 < 2 ^ 64 }
    requires inside { column < width }
    ensures { (k : ℕ) → k < 8 → slice_index_or (lanes_of result) k 0
        ≡ slice_index_or (message_of width messages.now (first + k)) column 0 }
{
    U32x8::from_fn(
        |k| -> u32
            requires full { (n : ℕ) × (first + k < n) × (length messages.now ≡ n * width) }
            requires fits { first + k < 2 ^ 64 }
            requires inside { column < width }
            ensures { result ≡ slice_index_or (message_of width messages.entry.now (first + k)) column 0 }
        { messages[(first + k) * width + column] },
    )
}

/// Absorbs the columns `from..width` of the eight messages from `first` on, one message a lane. The state must have
/// absorbed the columns before `from`.
fn absorb_columns<const D: usize>(
    state: &mut [U32x8; D],
    messages: &[u32],
    width: usize,
    first: usize,
    from: usize,
)
    requires full { (n : ℕ) × (first + 8 ≤ n) × (length messages.now ≡ n * width) }
    requires fits { first + 8 < 2 ^ 64 }
    requires inside { from ≤ width }
    requires before { (k : ℕ) → k < 8 → lane_of lanes_of 0 k state.old
        ≡ fold_hash D (take from (message_of width messages.now (first + k))) }
    ensures { (k : ℕ) → k < 8 → lane_of lanes_of 0 k state.new
        ≡ fold_hash D (message_of width messages.now (first + k)) }
{
    for column in from..width {
        absorb(state, column_of(messages, width, first, column));
    }
}

/// Words `column` to `column + 3` of message `message`. `messages` must have the message, and the message these words.
fn words_at(messages: &[u32], width: usize, message: usize, column: usize) -> &[u32]
    requires full { (n : ℕ) × (message < n) × (length messages.now ≡ n * width) }
    requires inside { column + 4 ≤ width }
    ensures words { result.now ≡ slice_range (message_of width messages.now message) column (column + 4) }
    ensures long { length result.now ≡ 4 }
{
    let words = &messages[message * width..(message + 1) * width];
    &words[column..column + 4]
}

/// The columns `column` to `column + 3` of the messages `first` to `first + 3`: vector `i` is column `column + i`, and
/// its lane `k` is from message `first + k`. `messages` must have these messages, and each must have these columns.
fn columns_of_four(messages: &[u32], width: usize, first: usize, column: usize) -> [u32x4; 4]
    requires full { (n : ℕ) × (first + 4 ≤ n) × (length messages.now ≡ n * width) }
    requires fits { first + 4 < 2 ^ 64 }
    requires inside { column + 4 ≤ width }
    ensures columns { let row =
        (λ (k : ℕ). slice_range (message_of width messages.now (first + k)) column (column + 4)) in
        result ≡ transposed (row 0) (row 1) (row 2) (row 3) }
    ensures long { (k : ℕ) → k < 4 →
        length (slice_range (message_of width messages.now (first + k)) column (column + 4)) ≡ 4 }
{
    transpose(
        words_at(messages, width, first, column),
        words_at(messages, width, first + 1, column),
        words_at(messages, width, first + 2, column),
        words_at(messages, width, first + 3, column),
    )
}

/// The columns `column` to `column + 3` of the messages `first` to `first + 7`: vector `i` is column `column + i`, and
/// its lane `k` is from message `first + k`. `messages` must have these messages, and each must have these columns.
fn columns_of_eight(messages: &[u32], width: usize, first: usize, column: usize) -> [U32x8; 4]
    requires full { (n : ℕ) × (first + 8 ≤ n) × (length messages.now ≡ n * width) }
    requires fits { first + 8 < 2 ^ 64 }
    requires inside { column + 4 ≤ width }
    ensures { (k : ℕ) → k < 8 → lane_of lanes_of 0 k result
        ≡ slice_range (message_of width messages.now (first + k)) column (column + 4) }
{
    let front = columns_of_four(messages, width, first, column);
    let back = columns_of_four(messages, width, first + 4, column);
    [
        U32x8::join(front[0], back[0]),
        U32x8::join(front[1], back[1]),
        U32x8::join(front[2], back[2]),
        U32x8::join(front[3], back[3]),
    ]
}

/// Absorbs the eight messages from `first` on, one a lane, four columns at a time. The columns after the last whole
/// four are left out. The state must be the initial one.
fn absorb_fours<const D: usize>(
    state: &mut [U32x8; D],
    messages: &[u32],
    width: usize,
    first: usize,
)
    requires full { (n : ℕ) × (first + 8 ≤ n) × (length messages.now ≡ n * width) }
    requires fits { first + 8 < 2 ^ 64 }
    requires before { (k : ℕ) → k < 8 → lane_of lanes_of 0 k state.old ≡ fold_hash D [] }
    ensures { (k : ℕ) → k < 8 → lane_of lanes_of 0 k state.new
        ≡ fold_hash D (take (4 * (width / 4)) (message_of width messages.now (first + k))) }
{
    for block in 0..width / 4 {
        absorb_words(state, &columns_of_eight(messages, width, first, 4 * block));
    }
}

/// The digests of eight messages of `width` words each: lane `k` is that of message `first + k`. `messages` must have
/// all eight.
fn hash_eight<const D: usize>(messages: &[u32], width: usize, first: usize) -> [U32x8; D]
    requires full { (n : ℕ) × (first + 8 ≤ n) × (length messages.now ≡ n * width) }
    requires fits { first + 8 < 2 ^ 64 }
    ensures { (k : ℕ) → k < 8 → lane_of lanes_of 0 k result ≡ fold_hash D (message_of width messages.now (first + k)) }
{
    let mut state = initial_state();
    absorb_fours(&mut state, messages, width, first);
    absorb_columns(&mut state, messages, width, first, 4 * (width / 4));
    state
}

/// Writes the digest of message `i` into `out[i]`, eight at a time, up to the last whole eight. `messages` must have as
/// many messages as `out` has places.
fn hash_eights<const D: usize>(messages: &[u32], width: usize, out: &mut [[u32; D]])
    requires { length messages.now ≡ length out.old * width }
    ensures { let eights = 8 * (length out.old / 8) in
        AreWritten (λ j d. d ≡ fold_hash D (message_of width messages.now j)) 0 eights out.old out.new }
{
    for eight in 0..out.len() / 8 {
        let digests: [U32x8; D] = hash_eight(messages, width, 8 * eight);
        unpack_at(&digests, out, 8 * eight);
    }
}

/// Writes the digest of message `i` into `out[i]`, one by one, from message `from` on. `messages` must have as many
/// messages as `out` has places, and `from` must be at most their number.
fn hash_rest<const D: usize>(messages: &[u32], width: usize, from: usize, out: &mut [[u32; D]])
    requires full { length messages.now ≡ length out.old * width }
    requires inside { from ≤ length out.old }
    ensures { AreWritten (λ j d. d ≡ fold_hash D (message_of width messages.now j))
        from (length out.old) out.old out.new }
{
    for i in from..out.len() {
        out[i] = hash_words(&messages[i * width..(i + 1) * width]);
    }
}

/// Writes the digest of message `i` into `out[i]`. `messages` must have as many messages as `out` has places.
pub(crate) fn hash_all<const D: usize>(messages: &[u32], width: usize, out: &mut [[u32; D]])
    requires { length messages.now ≡ length out.old * width }
    ensures { AreWritten (λ j d. d ≡ fold_hash D (message_of width messages.now j)) 0 (length out.old) out.old out.new }
{
    if D > MOST_HASHED {
        hash_rest(messages, width, 0, out);
        return;
    }
    hash_eights(messages, width, out);
    hash_rest(messages, width, 8 * (out.len() / 8), out);
}

/// Packs child `place`, below `N`, of `P::WIDTH` groups: lane `k` is from group `first + k`. `groups` must have these.
fn pack_child<P: FoldPacked, const N: usize, const D: usize>(
    groups: &[[[u32; D]; N]],
    first: usize,
    place: usize,
) -> [P; D]
    requires groups { first + P.WIDTH ≤ length groups.now }
    requires inside { place < N }
    ensures { (k : ℕ) → k < P.WIDTH → lane_of P.lanes P.default_value k result
        ≡ slice_index_or (slice_index_or groups.now (first + k) []) place [] }
{
    pack_columns_fn(
        |k| -> &[u32]
            requires group { first + k < length groups.now }
            requires inside { place < N }
            ensures child { result.now ≡ slice_index_or (slice_index_or groups.entry.now (first + k) []) place [] }
            ensures long { length result.now ≡ D }
        { &groups[first + k][place] },
    )
}

/// Packs `P::WIDTH` groups: lane `k` is group `first + k`. `groups` must have these.
fn pack_groups<P: FoldPacked, const N: usize, const D: usize>(
    groups: &[[[u32; D]; N]],
    first: usize,
) -> [[P; D]; N]
    requires { first + P.WIDTH ≤ length groups.now }
    ensures { (k : ℕ) → k < P.WIDTH →
        map (lane_of P.lanes P.default_value k) result ≡ slice_index_or groups.now (first + k) [] }
{
    lemma_rows(groups);
    std::array::from_fn(
        |place| -> [P; D]
            requires groups { first + P.WIDTH ≤ length groups.now }
            requires inside { place < N }
            ensures { (k : ℕ) → k < P.WIDTH → lane_of P.lanes P.default_value k result
                ≡ slice_index_or (slice_index_or groups.entry.now (first + k) []) place [] }
        { pack_child(groups, first, place) },
    )
}

/// Writes the digest of group `i` into `out[i]`, eight at a time, up to the last whole eight. `out` must have as many
/// places as there are groups.
fn compress_eights<const N: usize, const D: usize>(groups: &[[[u32; D]; N]], out: &mut [[u32; D]])
    requires { length groups.now ≡ length out.old }
    ensures { let eights = 8 * (length out.old / 8) in
        AreWritten (λ j d. d ≡ fold_compress D (slice_index_or groups.now j [])) 0 eights out.old out.new }
{
    for eight in 0..out.len() / 8 {
        let children: [[U32x8; D]; N] = pack_groups(groups, 8 * eight);
        unpack_at(&compress_lanes(&children), out, 8 * eight);
    }
}

/// Writes the digest of group `i` into `out[i]`, one by one, from group `from` on. `out` must have as many places as
/// there are groups, and `from` must be at most their number.
fn compress_rest<const N: usize, const D: usize>(
    groups: &[[[u32; D]; N]],
    from: usize,
    out: &mut [[u32; D]],
)
    requires long { length groups.now ≡ length out.old }
    requires inside { from ≤ length out.old }
    ensures { AreWritten (λ j d. d ≡ fold_compress D (slice_index_or groups.now j []))
        from (length out.old) out.old out.new }
{
    for i in from..out.len() {
        out[i] = compress_group(&groups[i]);
    }
}

/// Writes the digest of group `i` into `out[i]`. `out` must have as many places as there are groups.
pub(crate) fn compress_all<const N: usize, const D: usize>(
    groups: &[[[u32; D]; N]],
    out: &mut [[u32; D]],
)
    requires { length groups.now ≡ length out.old }
    ensures { AreWritten (λ j d. d ≡ fold_compress D (slice_index_or groups.now j []))
        0 (length out.old) out.old out.new }
{
    if D > MOST_COMPRESSED {
        compress_rest(groups, 0, out);
        return;
    }
    compress_eights(groups, out);
    compress_rest(groups, 8 * (out.len() / 8), out);
}
