//! How many messages hashers and compressions take at a time, and whether they prefer contiguous input.

use p3_hashes::batched::Batched3;
use p3_hashes::fold::{FoldCompress, FoldHash};
use p3_hashes::sha::{Sha256Nodes, Sha256Rows};
use p3_support::compress::PseudoCompressionFunction;
use p3_support::hasher::CryptographicHasher;
use p3_support::packed::PackedValue;

/// The constants of a hasher.
fn of_hasher<P: PackedValue, H: CryptographicHasher<P, P, D>, const D: usize>() -> (usize, bool) {
    (H::LANES, H::PREFER_CONTIGUOUS_INPUT)
}

/// The constant of a compression.
fn of_compression<
    P: PackedValue,
    C: PseudoCompressionFunction<P, N, D>,
    const N: usize,
    const D: usize,
>() -> usize {
    C::LANES
}

#[test]
fn hashers_have_their_constants(rt: HostRuntime) {
    assert_eq!(rt; of_hasher::<u32, FoldHash<1>, 1>(), (1, false));
    assert_eq!(rt; of_hasher::<u32, FoldHash<8>, 2>(), (8, false));
    assert_eq!(rt; of_hasher::<u8, Sha256Rows, 32>(), (1, true));
    assert_eq!(rt; of_hasher::<u32, Batched3<FoldHash<8>>, 1>(), (3, false));
    assert_eq!(rt; of_hasher::<u8, Batched3<Sha256Rows>, 32>(), (3, true));
}

#[test]
fn compressions_have_their_constant(rt: HostRuntime) {
    assert_eq!(rt; of_compression::<u32, FoldCompress<2, 1>, 2, 1>(), 1);
    assert_eq!(rt; of_compression::<u32, FoldCompress<4, 8>, 4, 1>(), 8);
    assert_eq!(rt; of_compression::<u8, Sha256Nodes<2>, 2, 32>(), 1);
    assert_eq!(rt; of_compression::<u8, Batched3<Sha256Nodes<2>>, 2, 32>(), 3);
}
