//! A hash function of eight bits, whose collisions are easy to find.
ghost use Rattle.std.specs.Prelude.{◌≡◌, ◌≤◌, length, List, ℕ};
ghost use Rattle.std.proofs.Common.{lit≤};
ghost use Rattle.test_log.specs.Weak.{length-weak, weak_hash, weakened as weakened_of};

use tlog::{EMPTY_ROOT, LogHash, leaf_hash, node_hash};

/// The first byte of SHA-256, and 31 zeros.
pub struct Weak;

/// The first byte of a hash, and 31 zeros.
fn weakened(hash: [u8; 32]) -> [u8; 32]
    ensures { result ≡ weakened_of hash }
{
    let mut weak = [0; 32];
    weak[0] = hash[0];
    weak
}

impl LogHash<32> for Weak {
    ghost hash = { weak_hash };

    ghost short = { lit≤ tt };

    ghost length_hash = { length-weak };

    fn leaf_hash(entry: &[u8]) -> [u8; 32] {
        weakened(leaf_hash(entry))
    }

    fn node_hash(left: &[u8; 32], right: &[u8; 32]) -> [u8; 32] {
        weakened(node_hash(left, right))
    }

    fn empty_root() -> [u8; 32] {
        weakened(EMPTY_ROOT)
    }
}
