//! SHA-256 (FIPS 180-4, by the crate `sha2`) of rows of bytes, and of digests one after another. Words are bytes, each
//! packed alone, and a digest has 32 of them.
ghost use Rattle.std.specs.Prelude.{◌≡◌, ℕ, ◌<◌, ◌∷◌, [], IfOk, map};
ghost use Rattle.std.specs.List.{concat};
ghost use Rattle.std.specs.Iterator.{IsFinite};
ghost use Rattle.std.specs.Iterator.Runs.{WholeRun};
ghost use Rattle.p3_support.specs.Lists.{lane_of};
ghost use Rattle.p3_hashes.specs.Laws.{AreDigests};
ghost use Rattle.p3_hashes.specs.Sha.{sha256_rows, sha256_nodes};

use p3_support::compress::PseudoCompressionFunction;
use p3_support::hasher::CryptographicHasher;
use sha2::{Digest, Sha256};
pub use sha256_eights::DigestSize;
use std::alloc::{AllocError, Global};
use std::convert::AsSlice;

/// The length of a block of SHA-256, in bytes.
const BLOCK: usize = 64;

/// SHA-256 of the bytes that `input` yields. The hasher gets them block by block.
fn hash_bytes<I: Iterator<Item = u8>>(input: I) -> [u8; 32]
    requires can { I.can_next input }
    requires ends { IsFinite (I.remaining input) }
    ensures { WholeRun I.next_gives input (λ p. result ≡ sha256_rows p.items) }
{
    let mut hasher = Sha256::new();
    let mut block = [0; BLOCK];
    let mut filled = 0;
    for byte in input {
        block[filled] = byte;
        filled += 1;
        if filled == BLOCK {
            hasher.update(&block);
            filled = 0;
        }
    }
    hasher.update(&block[..filled]);
    hasher.finalize()
}

/// SHA-256 of a row's bytes, one message at a time. A row in one slice is hashed faster than byte by byte.
#[derive(Clone, Copy, Debug)]
pub struct Sha256Rows;

impl CryptographicHasher<u8, u8, 32> for Sha256Rows {
    const LANES: usize = 1;

    const PREFER_CONTIGUOUS_INPUT: bool = true;

    ghost hash = { λ h bytes. sha256_rows bytes };

    fn hash_iter<I: Iterator<Item = u8>>(&self, input: I) -> [u8; 32] {
        hash_bytes(input)
    }

    fn hash_slice(&self, input: &[u8]) -> [u8; 32] {
        Sha256::digest(input)
    }

    fn hash_iter_slices<S: AsSlice<u8> + Drop, I: Iterator<Item = S>>(&self, input: I) -> [u8; 32] {
        let mut hasher = Sha256::new();
        for bytes in input {
            hasher.update(bytes);
        }
        hasher.finalize()
    }

    fn hash_packed<I: Iterator<Item = u8>>(&self, input: I) -> [u8; 32] {
        hash_bytes(input)
    }
}

/// The digest of a group of `N` digests: SHA-256 of their bytes, one digest after another.
fn hash_group<const N: usize, const D: usize>(digests: &[[u8; D]; N]) -> [u8; 32]
    ensures { result ≡ sha256_nodes digests.now }
{
    let mut hasher = Sha256::new();
    for digest in digests {
        hasher.update(digest);
    }
    hasher.finalize()
}

/// The message that SHA-256 hashes for a group of digests: their bytes, one digest after another. Two different groups
/// of equally many digests have different messages.
///
/// # Errors
///
/// `AllocError` if memory runs out.
pub fn group_message(alloc: Global, digests: &[[u8; 32]]) -> Result<Vec<u8>, AllocError>
    ensures message { IfOk result (λ message. message.items ≡ concat digests.now) }
    ensures digests { IfOk result (λ message. AreDigests digests.now) }
{
    let mut message = Vec::new(alloc);
    for digest in digests {
        message.extend_from_slice(digest)?;
    }
    Ok(message)
}

/// SHA-256 of `N` digests of 32 bytes, one after another, one group at a time.
#[derive(Clone, Copy, Debug)]
pub struct Sha256Nodes<const N: usize>;

impl<const N: usize, const D: usize> PseudoCompressionFunction<u8, N, D> for Sha256Nodes<N>
where
    Sha256: DigestSize<D>,
{
    const LANES: usize = 1;

    ghost compression = { λ c digests. sha256_nodes digests };

    fn compress(&self, input: [[u8; D]; N]) -> [u8; D]
        ensures { result ≡ sha256_nodes input.entry }
    {
        Sha256::array(hash_group(&input))
    }

    fn compress_packed(&self, input: [[u8; D]; N]) -> [u8; D]
        ensures { (k : ℕ) → k < 1 → lane_of (λ byte. byte ∷ []) 0 k result
            ≡ sha256_nodes (map (lane_of (λ byte. byte ∷ []) 0 k) input.entry) }
    {
        Sha256::array(hash_group(&input))
    }
}
