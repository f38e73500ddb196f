//! SHA-256, one message at a time and in eights.

ghost use Rattle.std.specs.Prelude.{◌≤◌, IsTrue};
ghost use Rattle.p3_merkle_core.specs.Geometry.{is_arity};

use crate::answered;
use crate::case::{Case, Fault};
use crate::scheme::{Cap, scheme_of};
use p3_hashes::sha::{Sha256Nodes, Sha256Rows};
use p3_hashes::sha_eights::{Sha256NodesInEights, Sha256RowsInEights};
use p3_support::hasher::CryptographicHasher;

/// The digest of a message by each call of a hasher.
fn by_each_call<H: CryptographicHasher<u8, u8, 32>>(hasher: &H, message: &[u8]) -> [[u8; 32]; 5] {
    let parts = [&message[..message.len() / 2], &message[message.len() / 2..]];
    let mut many = [[0; 32]; 1];
    hasher.hash_many(message, &mut many);
    [
        hasher.hash_slice(message),
        hasher.hash_iter(message.iter().copied()),
        hasher.hash_iter_slices(parts.iter().copied()),
        hasher.hash_packed(message.iter().copied()),
        many[0],
    ]
}

/// `sha256 | MESSAGE | DIGEST`: the digest of a text, `-` if it is empty, which each call of both hashers gives.
pub fn message(case: &mut Case<'_>) -> Result<(), Fault> {
    let text = case.take();
    let message = if text == "-" { "" } else { text }.as_bytes();
    let digests = by_each_call(&Sha256Rows, message);
    if digests != [digests[0]; 5] || digests != by_each_call(&Sha256RowsInEights, message) {
        return Err(Fault::Wrong("another call gives another digest"));
    }
    case.list(&[digests[0]])
}

/// Answers a case of trees over bytes, which both schemes answer alike.
pub fn sha256<const N: usize>(case: &mut Case<'_>, kind: &str, cap: Cap) -> Result<(), Fault>
    requires arity { IsTrue (is_arity N) }
    requires few { N ≤ 16 }
{
    let mut in_eights = case.again();
    let mut scheme = scheme_of::<u8, _, _, N, 32>(Sha256Rows, Sha256Nodes::<N>, cap);
    let outcome = answered::<u8, [u8; 32], _, N>(case, kind, cap, &mut scheme);
    case.settle(outcome)?;
    let (hash, compress) = (Sha256RowsInEights, Sha256NodesInEights::<N>);
    let mut scheme = scheme_of::<u8, _, _, N, 32>(hash, compress, cap);
    let outcome = answered::<u8, [u8; 32], _, N>(&mut in_eights, kind, cap, &mut scheme);
    case.check_alike(in_eights, outcome)
}
