//! The fold functions: a hash and a compression by sums modulo 2^32, for tests of trees. They are not secure.
ghost use Rattle.std.specs.Prelude.{◌≡◌, ℕ, ◌+◌, ◌%◌, ◌^◌, ◌<◌, List, [], length, map, slice_index_or};
ghost use Rattle.std.specs.Iterator.{IsFinite};
ghost use Rattle.std.specs.Iterator.Runs.{WholeRun};
ghost use Rattle.std.specs.List.{fold as folded};
ghost use Rattle.p3_support.specs.Lists.{lane_of};
ghost use Rattle.p3_hashes.specs.Fold.{fold_hash, fold_compress, take_in, start as start_of, mix_in};

use crate::eights::{compress_all, hash_all};
use p3_support::compress::PseudoCompressionFunction;
use p3_support::hasher::CryptographicHasher;
use p3_support::packed::PackedValue;
use std::convert::AsSlice;

/// A packed value with lanes of 32 bits, and the arithmetic of the fold functions on all lanes together.
pub trait FoldPacked: PackedValue<Value = u32> {
    /// Lane by lane, `31 * self + word`, modulo 2^32.
    fn mul_31_add(self, word: Self) -> Self
        ensures { (k : ℕ) → k < Self.WIDTH →
            slice_index_or (Self.lanes result) k Self.default_value
            ≡ take_in (slice_index_or (Self.lanes self) k Self.default_value)
            (slice_index_or (Self.lanes word) k Self.default_value) };

    /// Lane by lane, `self + number`, modulo 2^32.
    fn add_to_each(self, number: u32) -> Self
        ensures { (k : ℕ) → k < Self.WIDTH → slice_index_or (Self.lanes result) k Self.default_value
            ≡ (slice_index_or (Self.lanes self) k Self.default_value + number) % 2 ^ 32 };
}

impl FoldPacked for u32 {
    fn mul_31_add(self, word: u32) -> u32 {
        self.wrapping_mul(31).wrapping_add(word)
    }

    fn add_to_each(self, number: u32) -> u32 {
        self.wrapping_add(number)
    }
}

/// The lowest 32 bits of an index.
fn low_bits(index: usize) -> u32
    ensures { result ≡ index % 2 ^ 32 }
{
    (index % 4_294_967_296) as u32
}

/// The state before the first word, in each lane: element `e` is `1 + e`, modulo 2^32.
pub(crate) fn initial_state<P: FoldPacked, const D: usize>() -> [P; D]
    ensures { (k : ℕ) → k < P.WIDTH → lane_of P.lanes P.default_value k result ≡ fold_hash D [] }
{
    std::array::from_fn(
        |e| -> P
            ensures { (k : ℕ) → k < P.WIDTH → slice_index_or (P.lanes result) k P.default_value ≡ start_of e }
        { P::broadcast(low_bits(e).wrapping_add(1)) },
    )
}

/// Absorbs a word into the state, lane by lane: each element becomes `31 * element + word`, modulo 2^32.
pub(crate) fn absorb<P: FoldPacked, const D: usize>(state: &mut [P; D], word: P)
    ensures { (k : ℕ) → k < P.WIDTH →
        lane_of P.lanes P.default_value k state.new
        ≡ map (λ s. take_in s (slice_index_or (P.lanes word) k P.default_value))
        (lane_of P.lanes P.default_value k state.old) }
{
    for element in state.iter_mut() {
        *element = element.mul_31_add(word);
    }
}

/// Absorbs the words of a slice into the state, one after another, lane by lane.
pub(crate) fn absorb_words<P: FoldPacked, const D: usize>(state: &mut [P; D], words: &[P])
    ensures { (k : ℕ) → k < P.WIDTH →
        lane_of P.lanes P.default_value k state.new
        ≡ map (λ s. folded take_in s (lane_of P.lanes P.default_value k words.now))
        (lane_of P.lanes P.default_value k state.old) }
{
    for word in words {
        absorb(state, *word);
    }
}

/// The digests of `P::WIDTH` messages: lane `k` of the items is message `k`, and lane `k` of the result its digest. The
/// items must end, and `next` must be callable until then.
fn hash_lanes<P: FoldPacked, I: Iterator<Item = P>, const D: usize>(input: I) -> [P; D]
    requires can { I.can_next input }
    requires ends { IsFinite (I.remaining input) }
    ensures { WholeRun I.next_gives input (λ p. (k : ℕ) → k < P.WIDTH → lane_of P.lanes P.default_value k result
        ≡ fold_hash D (lane_of P.lanes P.default_value k p.items)) }
{
    let mut state = initial_state();
    for word in input {
        absorb(&mut state, word);
    }
    state
}

/// The digest of the words of a slice.
pub(crate) fn hash_words<const D: usize>(words: &[u32]) -> [u32; D]
    ensures { result ≡ fold_hash D words.now }
{
    let mut state = initial_state();
    absorb_words(&mut state, words);
    state
}

/// The fold hash: element `e` of the digest starts at `1 + e`, and each word `x` makes it `31 * element + x`, modulo
/// 2^32. It is not secure. `L` is its `LANES`; the digests don't depend on it.
#[derive(Clone, Copy, Debug)]
pub struct FoldHash<const L: usize>;

impl<P: FoldPacked, const L: usize, const D: usize> CryptographicHasher<P, P, D> for FoldHash<L> {
    const LANES: usize = L;

    const PREFER_CONTIGUOUS_INPUT: bool = false;

    ghost hash = { λ h xs. fold_hash D xs };

    fn hash_iter<I: Iterator<Item = u32>>(&self, input: I) -> [u32; D] {
        hash_lanes(input)
    }

    fn hash_slice(&self, input: &[u32]) -> [u32; D] {
        hash_words(input)
    }

    fn hash_iter_slices<S: AsSlice<u32> + Drop, I: Iterator<Item = S>>(
        &self,
        input: I,
    ) -> [u32; D] {
        let mut state = initial_state();
        for words in input {
            absorb_words(&mut state, words.as_slice());
        }
        state
    }

    fn hash_many(&self, messages: &[u32], out: &mut [[u32; D]]) {
        if out.is_empty() {
            return;
        }
        let width = messages.len() / out.len();
        hash_all(messages, width, out);
    }

    fn hash_packed<I: Iterator<Item = P>>(&self, input: I) -> [P; D] {
        hash_lanes(input)
    }
}

/// Mixes the child at `place` into the digest, lane by lane: each element becomes `31 * element + child[e] + place`,
/// modulo 2^32.
fn mix<P: FoldPacked, const D: usize>(digest: &mut [P; D], child: &[P; D], place: usize)
    ensures long { length digest.new ≡ length digest.old }
    ensures each { (k e : ℕ) → k < P.WIDTH → e < D →
        slice_index_or (lane_of P.lanes P.default_value k digest.new) e 0
        ≡ mix_in (slice_index_or (lane_of P.lanes P.default_value k digest.old) e 0)
        (place, slice_index_or (lane_of P.lanes P.default_value k child.now) e 0) }
{
    let number = low_bits(place);
    for (e, element) in digest.iter_mut().enumerate() {
        *element = element.mul_31_add(child[e]).add_to_each(number);
    }
}

/// The digests of `P::WIDTH` groups: lane `k` of `children` is group `k`, and lane `k` of the result its digest.
pub(crate) fn compress_lanes<P: FoldPacked, const N: usize, const D: usize>(
    children: &[[P; D]; N],
) -> [P; D]
    ensures { (k : ℕ) → k < P.WIDTH → lane_of P.lanes P.default_value k result
        ≡ fold_compress D (map (lane_of P.lanes P.default_value k) children.now) }
{
    let mut digest = [P::broadcast(0); D];
    for (i, child) in children.iter().enumerate() {
        mix(&mut digest, child, i);
    }
    digest
}

/// The digest of a group of `N` digests.
pub(crate) fn compress_group<const N: usize, const D: usize>(children: &[[u32; D]; N]) -> [u32; D]
    ensures { result ≡ fold_compress D children.now }
{
    compress_lanes(children)
}

/// The fold compression: element `e` starts at 0, and each child `i`, from 0, makes it `31 * element + child[e] + i`,
/// modulo 2^32. `L` is its `LANES`; the digests don't depend on it.
#[derive(Clone, Copy, Debug)]
pub struct FoldCompress<const N: usize, const L: usize>;

impl<P: FoldPacked, const N: usize, const L: usize, const D: usize> PseudoCompressionFunction<
    P,
    N,
    D,
> for FoldCompress<N, L> {
    const LANES: usize = L;

    ghost compression = { λ c xs. fold_compress D xs };

    fn compress(&self, input: [[u32; D]; N]) -> [u32; D]
        ensures { result ≡ fold_compress D input.entry }
    {
        compress_group(&input)
    }

    fn compress_many(&self, groups: &[[[u32; D]; N]], out: &mut [[u32; D]]) {
        compress_all(groups, out);
    }

    fn compress_packed(&self, input: [[P; D]; N]) -> [P; D]
        ensures { (k : ℕ) → k < P.WIDTH → lane_of P.lanes P.default_value k result
            ≡ fold_compress D (map (lane_of P.lanes P.default_value k) input) }
    {
        compress_lanes(&input)
    }
}
