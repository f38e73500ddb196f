//! Roots by each builder of the fold functions, over matrices without columns, too, which no `RowMajorMatrix` is.

ghost use Rattle.std.specs.Prelude.{◌≤◌};

use p3_hashes::batched::Batched3;
use p3_hashes::fold::{FoldCompress, FoldHash, FoldPacked};
use p3_hashes::lanes::{Lanes, U32x8};
use p3_merkle_tree::{MerkleTree, MerkleTreeError};
use p3_support::compress::PseudoCompressionFunction;
use p3_support::hasher::CryptographicHasher;
use std::alloc::Global;
use std::test::Fail;
use test_support::matrices::{Numbers, numbered};

/// The root of the tree of two children over matrices of these widths and heights.
fn root_of<P: FoldPacked, H: CryptographicHasher<P, P, 1>, C: PseudoCompressionFunction<P, 2, 1>>(
    alloc: Global,
    hash: &H,
    compress: &C,
    sizes: &[(usize, usize)],
) -> Result<u32, MerkleTreeError>
    requires { 1 ≤ P.WIDTH }
{
    let matrices = numbered(alloc, sizes)?;
    let tree = MerkleTree::<u32, u32, Numbers, 2, 1>::new::<P, P, H, C>(
        alloc, hash, compress, matrices,
    )?;
    let [root] = *tree.root().value();
    Ok(root)
}

/// The root by each builder: one by one, packed by two and by eight, in batches of eight, and by three.
fn roots_of(alloc: Global, sizes: &[(usize, usize)]) -> Result<[u32; 5], MerkleTreeError> {
    let (hash, compress) = (FoldHash::<1>, FoldCompress::<2, 1>);
    Ok([
        root_of::<u32, _, _>(alloc, &hash, &compress, sizes)?,
        root_of::<Lanes<u32>, _, _>(alloc, &hash, &compress, sizes)?,
        root_of::<U32x8, _, _>(alloc, &hash, &compress, sizes)?,
        root_of::<u32, _, _>(alloc, &FoldHash::<8>, &FoldCompress::<2, 8>, sizes)?,
        root_of::<u32, _, _>(alloc, &Batched3(hash), &Batched3(compress), sizes)?,
    ])
}

#[test]
fn rows_of_no_words_are_hashed_by_every_builder(rt: HostRuntime) -> Result<(), Fail> {
    // The widths and heights, and the root. Each word is the number of its row.
    let cases: [(&[(usize, usize)], u32); 5] = [
        // The rows 0 to 3 have the digests 31 to 34, and the nodes 31 * 31 + 32 + 1 and 31 * 33 + 34 + 1.
        (&[(1, 4)], 31 * 994 + 1058 + 1),
        // The digest of no words is 1, so that the nodes are 31 * 1 + 1 + 1 and 31 * 1 + 0 + 1.
        (&[(0, 3)], 31 * 33 + 32 + 1),
        // The nodes are 994 and 31 * 33 + 0 + 1, and 31 * 994 + 1 + 1 and 31 * 1024 + 1 + 1 with the rows of no words.
        (&[(1, 3), (0, 2)], 31 * 30816 + 31746 + 1),
        // The nodes 33 and 32 are 31 * 33 + 31 + 1 and 31 * 32 + 32 + 1 with the rows 0 and 1.
        (&[(0, 3), (1, 2)], 31 * 1055 + 1025 + 1),
        // Each row of the second matrix is the whole message.
        (&[(0, 2), (1, 2), (0, 2)], 31 * 31 + 32 + 1),
    ];
    for (sizes, root) in cases {
        assert_eq!(rt; roots_of(rt.alloc(), sizes)?, [root; 5]);
    }
    Ok(())
}

#[test]
fn nine_rows_of_no_words_fill_lanes_and_leave_some(rt: HostRuntime) -> Result<(), Fail> {
    // Layers of nine digests 1; of 33 four times and 32; of 33 * 31 + 33 + 1 = 1057 twice and 32 * 31 + 1 = 993; of
    // 1057 * 31 + 1057 + 1 = 33825 and 993 * 31 + 1 = 30784.
    let root = 31 * 33825 + 30784 + 1;
    assert_eq!(rt; roots_of(rt.alloc(), &[(0, 9)])?, [root; 5]);
    Ok(())
}
