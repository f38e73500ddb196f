//! What matrices, packed values, caps and openings hand out, and what their clones hold, on values that were worked out
//! by hand.

ghost use Rattle.std.specs.Prelude.{◌≡◌, ◌<◌, ◌≤◌, length};

use crate::compared::{
    are_told_apart, equals_its_clone, is_printed, is_printed_as_its_clone, is_printed_as_its_copies,
};
use crate::counting::Counting;
use crate::matrices::{Numbers, two_rows};
use p3_hashes::batched::Batched3;
use p3_hashes::fold::{FoldCompress, FoldHash, FoldPacked};
use p3_hashes::lanes::{Lanes, U32x8};
use p3_hashes::sha::{Sha256Nodes, Sha256Rows};
use p3_hashes::sha_eights::{Sha256NodesInEights, Sha256RowsInEights};
use p3_support::matrix::{Dimensions, Matrix, RowMajorMatrix, ShapeError, dimensions_of};
use p3_support::opening::{BatchOpening, BatchOpeningRef, Hash, MerkleCap};
use p3_support::packed::{PackedValue, pack_columns_fn, unpack_at, unpack_into};
use p3_support::pair::HorizontalPair;
use p3_support::rows::{packed_rows_of, rows_of};
use p3_support::salts::SaltWord;
use rand_core::Rng;
use std::alloc::{AllocError, Global};
use std::process::Abort;
use std::test::Fail;

/// How many rows of a width zeros make, or why they make none.
fn rows_made(alloc: Global, len: usize, width: usize) -> Result<String, AllocError> {
    match RowMajorMatrix::try_new(vec![in alloc; 0u32; len]?, width) {
        Ok(matrix) => {
            let height = matrix.height();
            Ok(format!(in alloc; "{height}")?)
        }
        Err(error) => Ok(format!(in alloc; "{error}")?),
    }
}

#[test]
fn values_make_rows_if_the_width_divides(rt: HostRuntime) -> Result<(), Fail> {
    let cases = [
        (0, 0, "0"),
        (5, 0, "5 values cannot be split into rows of width 0"),
        (0, 3, "0"),
        (5, 1, "5"),
        (6, 3, "2"),
        (7, 3, "7 values cannot be split into rows of width 3"),
    ];
    for (len, width, expected) in cases {
        assert_eq!(rt; rows_made(rt.alloc(), len, width)?.as_str(), expected);
    }
    Ok(())
}

#[test]
fn random_words_are_drawn_row_after_row(rt: HostRuntime) -> Result<(), Fail> {
    let mut rng = Counting { step: 10, last: 0 };
    let matrix = RowMajorMatrix::<u32>::rand(rt.alloc(), &mut rng, 2, 3)?;
    let (width, height) = (3, 2);
    assert_eq!(rt; matrix.dimensions(), Dimensions { width, height });
    assert_eq!(rt; matrix.values(), [10, 20, 30, 40, 50, 60].as_slice());
    let too_large = RowMajorMatrix::<u32>::rand(rt.alloc(), &mut rng, usize::MAX, 2);
    assert!(rt; too_large.is_err());
    assert_eq!(rt; rng.next_u64(), 70);
    let word = (1 << 40) + 300;
    assert_eq!(rt;
        (u32::from_salt_word(word), u8::from_salt_word(word)),
        (300, 44)
    );
    Ok(())
}

/// Whether each call that hands out a row gives these words: one by one, by an iterator, and appended to a list.
fn has_row<M: Matrix<u32>>(
    alloc: Global,
    matrix: &M,
    row: usize,
    expected: &[u32],
) -> Result<bool, AllocError>
    requires { row < M.height_of matrix.now }
{
    let mut appended = Vec::new(alloc);
    matrix.append_row(row, &mut appended)?;
    let mut is_same = appended.as_slice() == expected;
    let mut words = matrix.row(row);
    for column in 0..matrix.width() {
        let word = Some(matrix.get(row, column));
        is_same = is_same && words.next() == word && expected.get(column).copied() == word;
    }
    Ok(is_same && words.next().is_none())
}

/// Whether the columns of the first two rows are packed to these.
fn has_columns<M: Matrix<u32>>(matrix: &M, expected: &[[u32; 2]]) -> bool
    requires { 2 ≤ M.height_of matrix.now }
{
    let mut columns = matrix.vertically_packed_row::<Lanes<u32>>(0);
    for [first, second] in expected {
        let is_same = columns.next().is_some_and(|column| column.first == *first
            && column.second == *second);
        if !is_same {
            return false;
        }
    }
    columns.next().is_none()
}

/// Asserts what a matrix of two rows hands out.
fn assert_two_rows<M: Matrix<u32>>(
    rt: &impl Abort,
    alloc: Global,
    matrix: &M,
    rows: [&[u32]; 2],
    columns: &[[u32; 2]],
) -> Result<(), AllocError>
    requires { M.height_of matrix.now ≡ 2 }
{
    assert!(rt; has_row(alloc, matrix, 0, rows[0])? && has_row(alloc, matrix, 1, rows[1])?);
    assert!(rt; has_columns(matrix, columns));
    let (width, height) = (columns.len(), 2);
    assert_eq!(rt; matrix.dimensions(), Dimensions { width, height });
    let dimensions = dimensions_of(alloc, &[matrix])?;
    assert_eq!(rt;
        dimensions.as_slice(),
        [Dimensions { width, height }].as_slice()
    );
    Ok(())
}

#[test]
fn matrices_hand_out_their_rows(rt: HostRuntime) -> Result<(), Fail> {
    let alloc = rt.alloc();
    let left = two_rows(alloc, &[1, 2, 3, 4])?;
    assert_two_rows(&rt, alloc, &left, [&[1, 2], &[3, 4]], &[[1, 3], [2, 4]])?;
    assert_eq!(rt;
        (left.piece(0, 1), left.piece(1, 2)),
        ([2, 3, 4].as_slice(), [].as_slice())
    );
    let pair = HorizontalPair::new(left, two_rows(alloc, &[5, 6, 7, 8])?);
    let rows: [&[u32]; 2] = [&[1, 2, 5, 6], &[3, 4, 7, 8]];
    assert_two_rows(&rt, alloc, &pair, rows, &[[1, 3], [2, 4], [5, 7], [6, 8]])?;
    assert_eq!(rt;
        (pair.piece(0, 1), pair.piece(1, 2)),
        ([2].as_slice(), [7, 8].as_slice())
    );
    assert_eq!(rt; pair.left().values(), [1, 2, 3, 4].as_slice());
    assert_eq!(rt; pair.right().values(), [5, 6, 7, 8].as_slice());
    let numbers = Numbers { words: 1, rows: 2 };
    assert_two_rows(&rt, alloc, &numbers, [&[0], &[1]], &[[0, 1]])?;
    Ok(())
}

#[test]
fn rows_of_several_matrices_come_one_after_another(rt: HostRuntime) -> Result<(), Fail> {
    let alloc = rt.alloc();
    let matrices = [
        two_rows(alloc, &[1, 2, 3, 4])?,
        two_rows(alloc, &[5, 6, 7, 8])?,
    ];
    let words: Vec<u32> = rows_of(&matrices, 2, 1).collect(alloc)?;
    assert_eq!(rt; words.as_slice(), [3, 4, 7, 8].as_slice());
    // Matrices of another height are left out.
    let words: Vec<u32> = rows_of(&matrices, 3, 1).collect(alloc)?;
    assert!(rt; words.is_empty());
    let mut columns = packed_rows_of::<u32, Lanes<u32>, _>(&matrices, 0);
    for expected in [[1, 3], [2, 4], [5, 7], [6, 8]] {
        assert_eq!(rt;
            columns.next().map(|column| [column.first, column.second]),
            Some(expected)
        );
    }
    assert!(rt; columns.next().is_none());
    Ok(())
}

/// The lanes of a packed value.
fn lanes_of<P: PackedValue, const W: usize>(packed: P) -> [P::Value; W]
    requires { P.WIDTH ≡ W }
{
    let mut lanes = [P::Value::default(); W];
    for k in 0..W {
        lanes[k] = packed.lane(k);
    }
    lanes
}

#[test]
fn lanes_are_set_one_by_one(rt: HostRuntime) {
    assert_eq!(rt; lanes_of(u8::broadcast(7)), [7]);
    assert_eq!(rt; lanes_of(u32::broadcast(7).with_lane(0, 9)), [9]);
    assert_eq!(rt; lanes_of(Lanes::<u8>::broadcast(7).with_lane(1, 9)), [7, 9]);
    let eight = U32x8::broadcast(7).with_lane(3, 9);
    assert_eq!(rt; lanes_of(eight), [7, 7, 7, 9, 7, 7, 7, 7]);
    let fives = U32x8::broadcast(5);
    assert_eq!(rt;
        lanes_of(fives.mul_31_add(U32x8::broadcast(3)).add_to_each(2)),
        [160; 8]
    );
}

#[test]
fn columns_are_packed_and_unpacked(rt: HostRuntime) {
    let packed: [Lanes<u8>; 2] = pack_columns_fn(
        |k| -> [u8; 2]
            ensures { length result ≡ 2 }
        { if k == 0 { [5, 6] } else { [7, 8] } },
    );
    assert_eq!(rt; (packed[0].first, packed[0].second), (5, 7));
    let mut rows = [[0; 2]; 2];
    unpack_into(&packed, &mut rows);
    assert_eq!(rt; rows, [[5, 6], [7, 8]]);
    let mut rows = [[0; 2]; 4];
    unpack_at(&packed, &mut rows, 1);
    assert_eq!(rt; rows, [[0, 0], [5, 6], [7, 8], [0, 0]]);
    let alone: [u8; 2] = pack_columns_fn(
        |k| -> [u8; 2]
            ensures { length result ≡ 2 }
        { [5, 6] },
    );
    assert_eq!(rt; alone, [5, 6]);
}

#[test]
fn roots_and_openings_lend_what_they_have(rt: HostRuntime) -> Result<(), Fail> {
    let alloc = rt.alloc();
    let root: Hash<'_, u32, u32, 1> = Hash::from(&[32897]);
    assert_eq!(rt; *root.value(), [32897]);
    let cap: MerkleCap<u32, [u32; 1]> = MerkleCap::new(vec![in alloc; [1026], [1090]]?);
    assert_eq!(rt; cap.roots(), [[1026], [1090]].as_slice());
    assert_eq!(rt; (cap[1], cap.num_roots()), ([1090], 2));
    let rows = vec![in alloc; vec![in alloc; 3u32]?]?;
    let opening = BatchOpening::new(rows, vec![in alloc; [35u32]]?);
    let (rows, siblings) = BatchOpeningRef::from(&opening).unpack();
    assert_eq!(rt; (rows.len(), siblings.as_slice()), (1, [[35]].as_slice()));
    let (rows, siblings) = opening.unpack();
    assert_eq!(rt; (rows.len(), siblings.as_slice()), (1, [[35]].as_slice()));
    Ok(())
}

/// The opening of a row of one word by one sibling.
fn opening_of(
    alloc: Global,
    word: u32,
    sibling: u32,
) -> Result<BatchOpening<u32, Vec<[u32; 1]>>, AllocError> {
    let rows = vec![in alloc; vec![in alloc; word]?]?;
    Ok(BatchOpening::new(rows, vec![in alloc; [sibling]]?))
}

/// The cap of these digests.
fn cap_of(alloc: Global, roots: &[[u32; 1]]) -> Result<MerkleCap<u32, [u32; 1]>, AllocError> {
    Ok(MerkleCap::new(Vec::from_slice(alloc, roots)?))
}

#[test]
fn clones_hold_what_was_cloned(rt: HostRuntime) -> Result<(), Fail> {
    let alloc = rt.alloc();
    let matrix = two_rows(alloc, &[1, 2, 3, 4])?;
    assert!(rt; is_printed_as_its_clone(alloc, &matrix));
    assert!(rt; equals_its_clone(&cap_of(alloc, &[[1026], [1090]])?));
    let opening = opening_of(alloc, 3, 35)?;
    assert!(rt; equals_its_clone(&opening));
    assert!(rt; is_printed_as_its_copies(alloc, BatchOpeningRef::from(&opening)));
    assert!(rt; is_printed_as_its_copies(alloc, Hash::<'_, u32, u32, 1>::from(&[32897])));
    assert!(rt; is_printed_as_its_copies(alloc, matrix.dimensions()));
    assert!(rt; is_printed_as_its_copies(alloc, ShapeError { len: 7, width: 3 }));
    assert!(rt;
        is_printed_as_its_copies(
            alloc,
            Lanes {
                first: 1u8,
                second: 2
            }
        )
    );
    assert!(rt; is_printed_as_its_copies(alloc, U32x8::broadcast(7).with_lane(3, 9)));
    Ok(())
}

// The text is what Rust's derive writes for a struct of these fields, save for the type of PhantomData. Rattle writes
// `_` for that type.
#[test]
fn a_pair_is_printed_with_both_matrices(rt: HostRuntime) -> Result<(), Fail> {
    let alloc = rt.alloc();
    let pair = HorizontalPair::new(
        two_rows(alloc, &[1, 2, 3, 4])?,
        two_rows(alloc, &[5, 6, 7, 8])?,
    );
    let left = "RowMajorMatrix { values: [1, 2, 3, 4], width: 2, height: 2 }";
    let right = "RowMajorMatrix { values: [5, 6, 7, 8], width: 2, height: 2 }";
    let expected = format!(in alloc;
        "HorizontalPair {{ left: {left}, right: {right}, element: PhantomData<_> }}"
    )?;
    assert!(rt; is_printed(alloc, &pair, expected.as_str()));
    Ok(())
}

#[test]
fn functions_can_be_copied(rt: HostRuntime) -> Result<(), Fail> {
    let alloc = rt.alloc();
    assert!(rt; is_printed_as_its_copies(alloc, FoldHash::<1>));
    assert!(rt; is_printed_as_its_copies(alloc, FoldCompress::<2, 1>));
    assert!(rt; is_printed_as_its_copies(alloc, Sha256Rows));
    assert!(rt; is_printed_as_its_copies(alloc, Sha256Nodes::<2>));
    assert!(rt; is_printed_as_its_copies(alloc, Sha256RowsInEights));
    assert!(rt; is_printed_as_its_copies(alloc, Sha256NodesInEights::<2>));
    assert!(rt; is_printed_as_its_copies(alloc, Batched3(FoldHash::<1>)));
    Ok(())
}

/// Three sizes.
fn sizes() -> [Dimensions; 3] {
    [(1, 1), (1, 2), (2, 1)].map(|(width, height)| Dimensions { width, height })
}

/// Four openings.
fn openings(alloc: Global) -> Result<[BatchOpening<u32, Vec<[u32; 1]>>; 4], AllocError> {
    Ok([
        opening_of(alloc, 3, 35)?,
        opening_of(alloc, 3, 36)?,
        opening_of(alloc, 4, 35)?,
        opening_of(alloc, 4, 36)?,
    ])
}

/// Four caps.
fn caps(alloc: Global) -> Result<[MerkleCap<u32, [u32; 1]>; 4], AllocError> {
    Ok([
        cap_of(alloc, &[])?,
        cap_of(alloc, &[[1]])?,
        cap_of(alloc, &[[2]])?,
        cap_of(alloc, &[[1], [2]])?,
    ])
}

/// Two roots.
fn roots<'a>() -> [Hash<'a, u32, u32, 1>; 2] {
    [Hash::from(&[32897]), Hash::from(&[32862])]
}

#[test]
fn equal_values_are_told_from_others(rt: HostRuntime) -> Result<(), Fail> {
    let alloc = rt.alloc();
    assert!(rt; are_told_apart(&sizes(), &sizes()));
    assert!(rt; are_told_apart(&openings(alloc)?, &openings(alloc)?));
    assert!(rt; are_told_apart(&caps(alloc)?, &caps(alloc)?));
    assert!(rt; are_told_apart(&roots(), &roots()));
    Ok(())
}
