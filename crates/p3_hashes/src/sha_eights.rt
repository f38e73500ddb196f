//! SHA-256 (FIPS 180-4) of rows of bytes, and of digests one after another, by calls that take eight messages at a
//! time. The functions are those of `sha`, so that a tree built with these is the tree built with those.
ghost use Rattle.std.specs.Prelude.{◌≡◌, ℕ, ◌<◌, ◌∷◌, [], length, map, slice_index_or};
ghost use Rattle.p3_support.specs.Lists.{lane_of};
ghost use Rattle.p3_hashes.specs.Sha.{sha256_rows, sha256_nodes};

use crate::sha::{DigestSize, Sha256Nodes, Sha256Rows};
use p3_support::compress::PseudoCompressionFunction;
use p3_support::hasher::CryptographicHasher;
use p3_support::packed::lemma_rows;
use sha2::Sha256;
use sha256_eights::hash_many;
use std::convert::AsSlice;

/// SHA-256 of a row's bytes, with the digests of [`Sha256Rows`]. `hash_many` hashes eight rows at a time, each in a
/// lane of vectors of the processor, and the rows after the last whole eight one by one.
#[derive(Clone, Copy, Debug)]
pub struct Sha256RowsInEights;

impl CryptographicHasher<u8, u8, 32> for Sha256RowsInEights {
    const LANES: usize = 8;

    const PREFER_CONTIGUOUS_INPUT: bool = true;

    ghost hash = { λ h bytes. sha256_rows bytes };

    fn hash_iter<I: Iterator<Item = u8>>(&self, input: I) -> [u8; 32] {
        Sha256Rows.hash_iter(input)
    }

    fn hash_slice(&self, input: &[u8]) -> [u8; 32] {
        Sha256Rows.hash_slice(input)
    }

    fn hash_iter_slices<S: AsSlice<u8> + Drop, I: Iterator<Item = S>>(&self, input: I) -> [u8; 32] {
        Sha256Rows.hash_iter_slices(input)
    }

    fn hash_many(&self, messages: &[u8], out: &mut [[u8; 32]]) {
        hash_many(messages, out);
    }

    // A byte is packed alone, so that there is but one message.
    fn hash_packed<I: Iterator<Item = u8>>(&self, input: I) -> [u8; 32] {
        Sha256Rows.hash_packed(input)
    }
}

/// States that each digest of each group has `D` bytes.
fn lemma_digests<const N: usize, const D: usize>(groups: &[[[u8; D]; N]])
    ensures { (k e : ℕ) → k < length groups.now → e < length (slice_index_or groups.now k []) →
        length (slice_index_or (slice_index_or groups.now k []) e []) ≡ D }
{
    for k in 0..groups.len() {
        lemma_rows(&groups[k]);
    }
}

/// SHA-256 of `N` digests of 32 bytes, one after another, with the digests of [`Sha256Nodes`]. `compress_many` hashes
/// eight groups at a time, each in a lane of vectors of the processor, and the groups after the last whole eight one by
/// one.
#[derive(Clone, Copy, Debug)]
pub struct Sha256NodesInEights<const N: usize>;

impl<const N: usize, const D: usize> PseudoCompressionFunction<u8, N, D> for Sha256NodesInEights<N>
where
    Sha256: DigestSize<D>,
{
    const LANES: usize = 8;

    ghost compression = { λ c digests. sha256_nodes digests };

    fn compress(&self, input: [[u8; D]; N]) -> [u8; D]
        ensures { result ≡ sha256_nodes input.entry }
    {
        Sha256Nodes::<N>.compress(input)
    }

    fn compress_many(&self, groups: &[[[u8; D]; N]], out: &mut [[u8; D]]) {
        lemma_rows(groups);
        lemma_digests(groups);
        // The digests of a group lie one after another already, so that nothing is copied.
        let bytes = groups.as_flattened().as_flattened();
        hash_many(bytes, out);
    }

    fn compress_packed(&self, input: [[u8; D]; N]) -> [u8; D]
        ensures { (k : ℕ) → k < 1 → lane_of (λ byte. byte ∷ []) 0 k result
            ≡ sha256_nodes (map (lane_of (λ byte. byte ∷ []) 0 k) input.entry) }
    {
        Sha256Nodes::<N>.compress_packed(input)
    }
}
