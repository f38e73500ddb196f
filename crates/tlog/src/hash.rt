//! The hashes of a log's tree (RFC 9162, 2.1.1).
ghost use Rattle.std.specs.Prelude.{◌≡◌, ℕ, ◌≤◌, List, [], length};
ghost use Rattle.std.proofs.Common.{lit≤};
ghost use Rattle.sha2.proofs.Facts256.{length-sha256};
ghost use Rattle.sha2.specs.Sha256.{sha256};
ghost use Rattle.tlog.specs.Rfc9162.{leaf_hash as leaf_hash_by, node_hash as node_hash_by};

use sha2::{Digest, Sha256};

/// The root of no entries: SHA-256 of nothing (RFC 9162, 2.1.1).
pub const EMPTY_ROOT: [u8; 32] = [
    0xe3, 0xb0, 0xc4, 0x42, 0x98, 0xfc, 0x1c, 0x14, 0x9a, 0xfb, 0xf4, 0xc8, 0x99, 0x6f, 0xb9, 0x24,
    0x27, 0xae, 0x41, 0xe4, 0x64, 0x9b, 0x93, 0x4c, 0xa4, 0x95, 0x99, 0x1b, 0x78, 0x52, 0xb8, 0x55,
];

/// The leaf hash of an entry: SHA-256 of a byte 0 and the entry (RFC 9162, 2.1.1).
pub fn leaf_hash(entry: &[u8]) -> [u8; 32]
    ensures { result ≡ leaf_hash_by sha256 entry.now }
{
    let mut hasher = Sha256::new();
    hasher.update(&[0]);
    hasher.update(entry);
    hasher.finalize()
}

/// The hash of a node: SHA-256 of a byte 1 and the hashes of its left and its right child (RFC 9162, 2.1.1).
pub fn node_hash(left: &[u8; 32], right: &[u8; 32]) -> [u8; 32]
    ensures { result ≡ node_hash_by sha256 left.now right.now }
{
    let mut hasher = Sha256::new();
    hasher.update(&[1]);
    hasher.update(left);
    hasher.update(right);
    hasher.finalize()
}

/// The hash function of a log, with values of `D` bytes, 64 at most. `Sha256` has this trait at 32.
pub trait LogHash<const D: usize> {
    // The function, on byte strings.
    ghost hash: { List ℕ → List ℕ };

    /// The leaf hash of an entry: the hash of a byte 0 and the entry (RFC 9162, 2.1.1).
    fn leaf_hash(entry: &[u8]) -> [u8; D]
        ensures { result ≡ leaf_hash_by hash entry.now };

    /// The hash of a node: the hash of a byte 1 and the hashes of its left and its right child (RFC 9162, 2.1.1).
    fn node_hash(left: &[u8; D], right: &[u8; D]) -> [u8; D]
        ensures { result ≡ node_hash_by hash left.now right.now };

    /// The root of no entries: the hash of nothing (RFC 9162, 2.1.1).
    fn empty_root() -> [u8; D]
        ensures { result ≡ hash [] };

    // A value is short.
    ghost short: { D ≤ 64 };

    // A value has D bytes.
    ghost length_hash: { (message : List ℕ) → length (hash message) ≡ D };
}

impl LogHash<32> for Sha256 {
    ghost hash = { sha256 };

    ghost short = { lit≤ tt };

    ghost length_hash = { length-sha256 };

    fn leaf_hash(entry: &[u8]) -> [u8; 32] {
        leaf_hash(entry)
    }

    fn node_hash(left: &[u8; 32], right: &[u8; 32]) -> [u8; 32] {
        node_hash(left, right)
    }

    fn empty_root() -> [u8; 32] {
        EMPTY_ROOT
    }
}
