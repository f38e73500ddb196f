//! Trees over exclusive or, whose nodes can be computed in one's head. A row has one byte, which stands in each place
//! of the row's digest, and a node is the exclusive or of its two children.

ghost use Rattle.std.specs.Prelude.{◌≡◌, ℕ, ◌<◌, ◌∷◌, [], bit_xor, map, replicate, slice_index_or};
ghost use Rattle.std.specs.Iterator.{IsFinite};
ghost use Rattle.std.specs.Iterator.Runs.{WholeRun};
ghost use Rattle.std.specs.Simd.Lanes.{zip2};
ghost use Rattle.p3_support.specs.Lists.{lane_of};

use p3_merkle_tree::{MerkleTreeError, MerkleTreeMmcs};
use p3_support::compress::PseudoCompressionFunction;
use p3_support::hasher::CryptographicHasher;
use p3_support::matrix::RowMajorMatrix;
use rand_chacha::ChaCha20Rng;
use rand_core::{Rng, SeedableRng};
use std::alloc::Global;
use std::convert::AsSlice;
use std::process::Abort;
use std::test::Fail;

/// The first byte of an iterator, and 0 where there is none.
fn first_byte<I: Iterator<Item = u8>>(input: I) -> u8
    requires can { I.can_next input }
    requires ends { IsFinite (I.remaining input) }
    ensures { WholeRun I.next_gives input (λ p. result ≡ slice_index_or p.items 0 0) }
{
    let mut first = None;
    for byte in input {
        first = first.or(Some(byte));
    }
    first.unwrap_or(0)
}

/// The hash whose digest is the first byte of a row, repeated 32 times; 0 where a row has none.
#[derive(Clone, Copy)]
pub struct RepeatHash;

impl CryptographicHasher<u8, u8, 32> for RepeatHash {
    const LANES: usize = 1;

    const PREFER_CONTIGUOUS_INPUT: bool = false;

    ghost hash = { λ h bytes. replicate 32 (slice_index_or bytes 0 0) };

    fn hash_iter<I: Iterator<Item = u8>>(&self, input: I) -> [u8; 32] {
        [first_byte(input); 32]
    }

    fn hash_slice(&self, input: &[u8]) -> [u8; 32] {
        [input.first().copied().unwrap_or(0); 32]
    }

    fn hash_iter_slices<S: AsSlice<u8> + Drop, I: Iterator<Item = S>>(&self, input: I) -> [u8; 32] {
        let mut first = None;
        for bytes in input {
            first = first.or(bytes.as_slice().first().copied());
        }
        [first.unwrap_or(0); 32]
    }

    fn hash_packed<I: Iterator<Item = u8>>(&self, input: I) -> [u8; 32] {
        [first_byte(input); 32]
    }
}

/// The exclusive or of two digests, byte by byte.
fn exclusive_or(left: &[u8; 32], right: &[u8; 32]) -> [u8; 32]
    ensures { result ≡ zip2 bit_xor left.now right.now }
{
    let mut digest = [0; 32];
    for e in 0..32 {
        digest[e] = left[e] ^ right[e];
    }
    digest
}

/// The compression of two digests by exclusive or.
#[derive(Clone, Copy)]
pub struct XorNodes;

impl PseudoCompressionFunction<u8, 2, 32> for XorNodes {
    const LANES: usize = 1;

    ghost compression = { λ c digests. zip2 bit_xor (slice_index_or digests 0 []) (slice_index_or digests 1 []) };

    fn compress(&self, input: [[u8; 32]; 2]) -> [u8; 32]
        ensures { result ≡ zip2 bit_xor (slice_index_or input 0 []) (slice_index_or input 1 []) }
    {
        exclusive_or(&input[0], &input[1])
    }

    fn compress_packed(&self, input: [[u8; 32]; 2]) -> [u8; 32]
        ensures { (k : ℕ) → k < 1 → let lane = lane_of (λ byte. byte ∷ []) 0 k in
            lane result ≡ zip2 bit_xor (slice_index_or (map lane input) 0 [])
            (slice_index_or (map lane input) 1 []) }
    {
        exclusive_or(&input[0], &input[1])
    }
}

/// Asserts that the cap over these rows of one byte has one digest for each of the bytes expected: that byte, repeated
/// 32 times.
fn assert_cap(
    rt: &impl Abort,
    alloc: Global,
    cap_height: usize,
    rows: &[u8],
    expected: &[u8],
) -> Result<(), MerkleTreeError> {
    let scheme = MerkleTreeMmcs::<u8, u8, RepeatHash, XorNodes, 2, 32>::new(
        RepeatHash, XorNodes, cap_height,
    );
    let matrix = RowMajorMatrix::new(Vec::from_slice(alloc, rows)?, 1);
    let (cap, _) = scheme.commit(alloc, vec![in alloc; matrix]?)?;
    let mut digests = Vec::new(alloc);
    for byte in expected {
        digests.push([*byte; 32])?;
    }
    assert_eq!(rt; cap.roots(), digests.as_slice());
    Ok(())
}

#[test]
fn caps_are_exclusive_ors_of_the_rows_below(rt: HostRuntime) -> Result<(), Fail> {
    // The cap height, the rows and the cap.
    let cases: [(usize, &[u8], &[u8]); 5] = [
        (1, &[0x01, 0x02, 0x03, 0x04], &[0x03, 0x07]),
        (0, &[0x01, 0x02, 0x03, 0x04], &[0x04]),
        (
            2,
            &[0x01, 0x02, 0x03, 0x04, 0x05, 0x06],
            &[0x03, 0x07, 0x03, 0x00],
        ),
        (0, &[0xaa, 0x55], &[0xff]),
        (1, &[0x05, 0x06, 0x07], &[0x03, 0x07]),
    ];
    for (cap_height, rows, expected) in cases {
        assert_cap(&rt, rt.alloc(), cap_height, rows, expected)?;
    }
    Ok(())
}

#[test]
fn four_digests_over_eight_random_rows_are_exclusive_ors_of_pairs(
    rt: HostRuntime,
) -> Result<(), Fail> {
    let mut rng = ChaCha20Rng::from_seed([7; 32]);
    let mut rows = [0; 8];
    rng.fill_bytes(&mut rows);
    let [a, b, c, d, e, f, g, h] = rows;
    assert_cap(&rt, rt.alloc(), 2, &rows, &[a ^ b, c ^ d, e ^ f, g ^ h])?;
    Ok(())
}
