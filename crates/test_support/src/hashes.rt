//! Hashes by each of their calls, on values that were worked out by hand.

ghost use Rattle.std.specs.Prelude.{◌≡◌, ◌*◌, ◌<◌, ◌≤◌, length};

use p3_hashes::batched::Batched3;
use p3_hashes::fold::{FoldCompress, FoldHash, FoldPacked};
use p3_hashes::lanes::{Lanes, U32x8};
use p3_hashes::sha::{Sha256Nodes, Sha256Rows};
use p3_hashes::sha_eights::{Sha256NodesInEights, Sha256RowsInEights};
use p3_support::compress::PseudoCompressionFunction;
use p3_support::hasher::CryptographicHasher;
use p3_support::packed::{PackedValue, unpack_into};
use std::iter;
use std::process::Abort;

/// The digest of a row by each call of a hasher.
fn row_digests<H: CryptographicHasher<u32, u32, 1>>(hasher: &H, row: &[u32]) -> [[u32; 1]; 5] {
    let parts = [&row[..row.len() / 2], &row[row.len() / 2..]];
    let mut many = [[0; 1]; 1];
    hasher.hash_many(row, &mut many);
    [
        hasher.hash_slice(row),
        hasher.hash_iter(row.iter().copied()),
        hasher.hash_iter_slices(parts.iter().copied()),
        hasher.hash_packed(row.iter().copied()),
        many[0],
    ]
}

#[test]
fn each_call_hashes_rows(rt: HostRuntime) {
    let cases: [(&[u32], u32); 5] = [
        (&[], 1),
        (&[5], 36),
        (&[1, 31], 1023),
        (&[2, 0], 1023),
        (&[3, 4, 20], 32818),
    ];
    for (row, digest) in cases {
        assert_eq!(rt; row_digests(&FoldHash::<8>, row), [[digest]; 5]);
        assert_eq!(rt; row_digests(&Batched3(FoldHash::<8>), row), [[digest]; 5]);
    }
}

/// The digest of a pair by each call of a compression.
fn pair_digests<C: PseudoCompressionFunction<u32, 2, 1>>(
    compress: &C,
    pair: [[u32; 1]; 2],
) -> [[u32; 1]; 3] {
    let mut many = [[0; 1]; 1];
    compress.compress_many(&[pair], &mut many);
    [
        compress.compress(pair),
        compress.compress_packed(pair),
        many[0],
    ]
}

#[test]
fn each_call_compresses_pairs(rt: HostRuntime) {
    let cases = [
        ([[32], [33]], 1026),
        ([[34], [35]], 1090),
        ([[1026], [1090]], 32897),
    ];
    for (pair, digest) in cases {
        assert_eq!(rt; pair_digests(&FoldCompress::<2, 8>, pair), [[digest]; 3]);
        let batched = Batched3(FoldCompress::<2, 8>);
        assert_eq!(rt; pair_digests(&batched, pair), [[digest]; 3]);
    }
}

/// The digests of `K` messages of `width` words, which lie one after another, by one call.
fn digests_of_many<P: FoldPacked, H: CryptographicHasher<P, P, 1>, const K: usize>(
    hasher: &H,
    messages: &[u32],
    width: usize,
) -> [[u32; 1]; K]
    requires { length messages.now ≡ width * K }
{
    let mut digests = [[0; 1]; K];
    hasher.hash_many(messages, &mut digests);
    digests
}

/// Asserts the digests of several messages by one call, and of several groups.
fn assert_many<
    P: FoldPacked,
    H: CryptographicHasher<P, P, 1>,
    C: PseudoCompressionFunction<P, 2, 1>,
>(rt: &impl Abort, hasher: &H, compress: &C) {
    let nine = digests_of_many::<P, H, 9>(hasher, &[1, 2, 3, 4, 5, 6, 7, 8, 9], 1);
    assert_eq!(rt;
        nine,
        [[32], [33], [34], [35], [36], [37], [38], [39], [40]]
    );
    assert_eq!(rt; digests_of_many::<P, H, 3>(hasher, &[], 0), [[1]; 3]);
    assert_eq!(rt;
        digests_of_many::<P, H, 2>(hasher, &[1, 31, 2, 0], 2),
        [[1023]; 2]
    );
    let groups = [[[32], [33]], [[34], [35]], [[1026], [1090]]];
    let mut digests = [[0; 1]; 3];
    compress.compress_many(&groups, &mut digests);
    assert_eq!(rt; digests, [[1026], [1090], [32897]]);
}

#[test]
fn many_messages_and_groups_are_taken_by_one_call(rt: HostRuntime) {
    let (hasher, compress) = (FoldHash::<1>, FoldCompress::<2, 1>);
    assert_many::<u32, _, _>(&rt, &hasher, &compress);
    assert_many::<Lanes<u32>, _, _>(&rt, &hasher, &compress);
    assert_many::<U32x8, _, _>(&rt, &hasher, &compress);
    assert_many::<u32, _, _>(&rt, &Batched3(hasher), &Batched3(compress));
    let (hasher, compress) = (FoldHash::<8>, FoldCompress::<2, 8>);
    assert_many::<u32, _, _>(&rt, &hasher, &compress);
    assert_many::<Lanes<u32>, _, _>(&rt, &hasher, &compress);
    assert_many::<U32x8, _, _>(&rt, &hasher, &compress);
    assert_many::<U32x8, _, _>(&rt, &Batched3(hasher), &Batched3(compress));
}

/// The packed value whose lanes are `first`, `first + step`, `first + 2 * step` and so on.
fn ascending<P: FoldPacked>(first: u32, step: u32) -> P
    requires { P.WIDTH ≤ 8 }
{
    P::from_fn(
        |k| -> u32
            requires { k < 8 }
        { first.wrapping_add(step.wrapping_mul(k as u32)) },
    )
}

/// Asserts which digests the lanes of a packed value have: of one word each, by digests of one word and of two, and of
/// two digests.
// It is a macro, since calls on packed values require that these fit into memory, which is known of each type alone.
macro_rules! assert_lanes {
    ($rt:ident, $P:ty, $lanes:tt, $hasher:ident, $compress:ident) => {{
        let first = iter::once(ascending::<$P>(1, 1));
        let packed: [$P; 1] = $hasher.hash_packed(first);
        let mut words = [[0; 1]; $lanes];
        unpack_into(&packed, &mut words);
        let expected = [[32], [33], [34], [35], [36], [37], [38], [39]];
        assert_eq!($rt; words.as_slice(), &expected[..$lanes]);

        let five = iter::once(<$P as PackedValue>::broadcast(5));
        let packed: [$P; 2] = $hasher.hash_packed(five);
        let mut fives = [[0; 2]; $lanes];
        unpack_into(&packed, &mut fives);
        assert_eq!($rt; fives, [[36, 67]; $lanes]);

        // 31 * (32 + 2 * k) + 33 + 2 * k + 1 = 1026 + 64 * k
        let pair = [[ascending::<$P>(32, 2)], [ascending::<$P>(33, 2)]];
        let packed: [$P; 1] = $compress.compress_packed(pair);
        let mut pairs = [[0; 1]; $lanes];
        unpack_into(&packed, &mut pairs);
        let expected = [[1026], [1090], [1154], [1218], [1282], [1346], [1410], [1474]];
        assert_eq!($rt; pairs.as_slice(), &expected[..$lanes]);
    }};
}

/// Asserts the digests of the one lane of a word.
fn assert_one_lane<
    H: CryptographicHasher<u32, u32, 1> + CryptographicHasher<u32, u32, 2>,
    C: PseudoCompressionFunction<u32, 2, 1>,
>(rt: &impl Abort, hasher: &H, compress: &C) {
    assert_lanes!(rt, u32, 1, hasher, compress);
}

/// Asserts the digests of two lanes.
fn assert_two_lanes<
    H: CryptographicHasher<Lanes<u32>, Lanes<u32>, 1>
        + CryptographicHasher<Lanes<u32>, Lanes<u32>, 2>,
    C: PseudoCompressionFunction<Lanes<u32>, 2, 1>,
>(rt: &impl Abort, hasher: &H, compress: &C) {
    assert_lanes!(rt, Lanes<u32>, 2, hasher, compress);
}

/// Asserts the digests of eight lanes.
fn assert_eight_lanes<
    H: CryptographicHasher<U32x8, U32x8, 1> + CryptographicHasher<U32x8, U32x8, 2>,
    C: PseudoCompressionFunction<U32x8, 2, 1>,
>(rt: &impl Abort, hasher: &H, compress: &C) {
    assert_lanes!(rt, U32x8, 8, hasher, compress);
}

#[test]
fn each_lane_has_the_digest_of_its_message(rt: HostRuntime) {
    let (hasher, compress) = (FoldHash::<8>, FoldCompress::<2, 8>);
    assert_one_lane(&rt, &hasher, &compress);
    assert_two_lanes(&rt, &hasher, &compress);
    assert_eight_lanes(&rt, &hasher, &compress);
    let (hasher, compress) = (Batched3(hasher), Batched3(compress));
    assert_one_lane(&rt, &hasher, &compress);
    assert_two_lanes(&rt, &hasher, &compress);
    assert_eight_lanes(&rt, &hasher, &compress);
}

/// How many rows and how many pairs functions say they take at a time.
fn lanes<H: CryptographicHasher<u8, u8, 32>, C: PseudoCompressionFunction<u8, 2, 32>>() -> (
    usize,
    usize,
) {
    (H::LANES, C::LANES)
}

#[test]
fn functions_say_how_many_they_take_at_a_time(rt: HostRuntime) {
    assert_eq!(rt; lanes::<Sha256Rows, Sha256Nodes<2>>(), (1, 1));
    assert_eq!(rt;
        lanes::<Sha256RowsInEights, Sha256NodesInEights<2>>(),
        (8, 8)
    );
    assert!(rt; <Sha256Rows as CryptographicHasher<u8, u8, 32>>::PREFER_CONTIGUOUS_INPUT);
}
