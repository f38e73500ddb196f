//! What both schemes commit to, open and accept from commit to verdict, at worked values; and claimed openings of other
//! rows, some with the digests of the honest ones.

use end_to_end::plain::{commit_compare, commit_compare_pruned};
use end_to_end::salted::{salted_commit_compare, salted_commit_compare_pruned};
use p3_hashes::fold::{FoldCompress, FoldHash};
use p3_merkle_tree::{BatchOpeningRef, MerkleTreeHidingMmcs, MerkleTreeMmcs, PrunedMerklePaths};
use std::alloc::{AllocError, Global};
use std::fmt::Debug;
use std::process::Abort;
use std::test::Fail;
use test_support::counting::Counting;
use test_support::matrices::{numbered, two_rows};

/// The plain scheme of two children over the fold functions, whose cap is the root.
fn plain() -> MerkleTreeMmcs<u32, u32, FoldHash<1>, FoldCompress<2, 1>, 2, 1> {
    MerkleTreeMmcs::new(FoldHash, FoldCompress, 0)
}

/// The same with one salt for each row: 1, 2, 3 and so on.
fn salted() -> MerkleTreeHidingMmcs<u32, u32, FoldHash<1>, FoldCompress<2, 1>, Counting, 2, 1, 1> {
    let rng = Counting { step: 1, last: 0 };
    MerkleTreeHidingMmcs::new(FoldHash, FoldCompress, 0, rng)
}

/// Asserts how a value is printed.
fn assert_printed<T: Debug>(
    rt: &impl Abort,
    alloc: Global,
    value: &T,
    expected: &str,
) -> Result<(), AllocError> {
    let text = format!(in alloc; "{value:?}")?;
    assert_eq!(rt; text.as_str(), expected);
    Ok(())
}

/// The widths and the heights of the matrices that are opened. Each word is the number of its row.
const SIZES: [(usize, usize); 2] = [(2, 4), (3, 2)];

// The row j of the first matrix has the digest 961 + 32 * j, and that of the second one 29791 + 993 * j. The digest of
// the rows 0 and 1 is 30785 = 31 * 961 + 993 + 1, and with the row 0 of the other matrix 31 * 30785 + 29791 + 1.
//
// With salts the row j of the first matrix has j + 1 and the digest 29792 + 993 * j, that of the second one j + 5 and
// 923526 + 30784 * j. The rows 0 and 1 have 954338 = 31 * 29792 + 30785 + 1, and then 31 * 954338 + 923526 + 1.

#[test]
fn an_index_is_opened_and_accepted(rt: HostRuntime) -> Result<(), Fail> {
    let alloc = rt.alloc();
    let (rows, siblings) = (Vec::new(alloc), Vec::new(alloc));
    let claimed = BatchOpeningRef::new(&rows, &siblings);
    let verified = commit_compare(alloc, &plain(), numbered(alloc, &SIZES)?, 3, claimed)?;
    let (rows, proof) = verified.opening.unpack();
    assert_printed(&rt, alloc, &rows, "[[3, 3], [1, 1, 1]]")?;
    assert_printed(&rt, alloc, &proof, "[[1025], [984127]]")?;
    assert_eq!(rt; verified.verdict, Ok(()));
    let (rows, proof) = (Vec::new(alloc), (Vec::new(alloc), Vec::new(alloc)));
    let claimed = BatchOpeningRef::new(&rows, &proof);
    let matrices = numbered(alloc, &SIZES)?;
    let verified = salted_commit_compare(alloc, &mut salted(), matrices, 3, claimed)?;
    let (rows, proof) = verified.opening.unpack();
    assert_printed(&rt, alloc, &rows, "[[3, 3], [1, 1, 1]]")?;
    assert_printed(&rt, alloc, &proof, "([[4], [6]], [[31778], [30508005]])")?;
    assert_eq!(rt; verified.verdict, Ok(()));
    Ok(())
}

/// The rows of the indices 3, 0 and 3.
const ROWS: &str = "[[[3, 3], [1, 1, 1]], [[0, 0], [0, 0, 0]], [[3, 3], [1, 1, 1]]]";

#[test]
fn repeated_indices_are_opened_and_accepted(rt: HostRuntime) -> Result<(), Fail> {
    let alloc = rt.alloc();
    let matrices = numbered(alloc, &SIZES)?;
    let proof = of_both_rows(alloc);
    let verified = commit_compare_pruned(alloc, &plain(), matrices, &[3, 0, 3], &[], &proof)?;
    assert_printed(&rt, alloc, &verified.opening.opened_values, ROWS)?;
    let digests = &verified.opening.pruned_proof.sibling_hashes;
    assert_printed(&rt, alloc, digests, "[[993], [1025]]")?;
    assert_eq!(rt; verified.verdict, Ok(()));
    let matrices = numbered(alloc, &SIZES)?;
    let (scheme, indices) = (&mut salted(), &[3, 0, 3]);
    let proof = (Vec::new(alloc), of_both_rows(alloc));
    let verified = salted_commit_compare_pruned(alloc, scheme, matrices, indices, &[], &proof)?;
    let (rows, (salts, proof)) = &verified.opening;
    assert_printed(&rt, alloc, rows, ROWS)?;
    assert_printed(&rt, alloc, salts, "[[[4], [6]], [[1], [5]], [[4], [6]]]")?;
    assert_printed(&rt, alloc, &proof.sibling_hashes, "[[30785], [31778]]")?;
    assert_eq!(rt; verified.verdict, Ok(()));
    Ok(())
}

// Below, the rows [1, 31] and [3, 4] are committed to, with the digests 1023 and 1058; with the salts 1 and 2 these are
// 31714 and 32800. The row [2, 0] has the digest 1023, too, and with the salt 1 31714.

/// A row set of one row.
fn one_row(alloc: Global, words: &[u32]) -> Result<Vec<Vec<u32>>, AllocError> {
    Ok(vec![in alloc; Vec::from_slice(alloc, words)?]?)
}

#[test]
fn another_row_of_the_same_digest_is_a_collision(rt: HostRuntime) -> Result<(), Fail> {
    let alloc = rt.alloc();
    // The claimed row, and what is found.
    let cases = [
        (
            [2, 0],
            "Ok(Some(Words { place: Leaf, first: [2, 0], second: [1, 31] }))",
        ),
        ([2, 1], "Err(CapMismatch)"),
        ([1, 31], "Ok(None)"),
    ];
    for (row, expected) in cases {
        let rows = one_row(alloc, &row)?;
        let siblings = vec![in alloc; [1058]]?;
        let claimed = BatchOpeningRef::new(&rows, &siblings);
        let matrices = vec![in alloc; two_rows(alloc, &[1, 31, 3, 4])?]?;
        let compared = commit_compare(alloc, &plain(), matrices, 0, claimed)?;
        assert_printed(&rt, alloc, &compared.found, expected)?;
    }
    Ok(())
}

#[test]
fn another_salted_row_of_the_same_digest_is_a_collision(rt: HostRuntime) -> Result<(), Fail> {
    let alloc = rt.alloc();
    let rows = one_row(alloc, &[2, 0])?;
    let proof = (one_row(alloc, &[1])?, vec![in alloc; [32800]]?);
    let claimed = BatchOpeningRef::new(&rows, &proof);
    let matrices = vec![in alloc; two_rows(alloc, &[1, 31, 3, 4])?]?;
    let compared = salted_commit_compare(alloc, &mut salted(), matrices, 0, claimed)?;
    let collision = "Ok(Some(Words { place: Leaf, first: [2, 0, 1], second: [1, 31, 1] }))";
    assert_printed(&rt, alloc, &compared.found, collision)?;
    Ok(())
}

/// The pruned proof of no digest: that of both rows.
fn of_both_rows(alloc: Global) -> PrunedMerklePaths<u32, 1> {
    PrunedMerklePaths::<u32, 1> {
        sibling_hashes: Vec::new(alloc),
    }
}

#[test]
fn another_row_among_several_is_a_collision(rt: HostRuntime) -> Result<(), Fail> {
    let alloc = rt.alloc();
    let sets = vec![in alloc; one_row(alloc, &[3, 4])?, one_row(alloc, &[2, 0])?]?;
    let proof = of_both_rows(alloc);
    let matrices = vec![in alloc; two_rows(alloc, &[1, 31, 3, 4])?]?;
    let compared = commit_compare_pruned(alloc, &plain(), matrices, &[1, 0], &sets, &proof)?;
    let collision = "Ok(Some((1, 1, Words { place: Leaf, first: [2, 0], second: [1, 31] })))";
    assert_printed(&rt, alloc, &compared.found, collision)?;
    Ok(())
}

#[test]
fn another_salted_row_among_several_is_a_collision(rt: HostRuntime) -> Result<(), Fail> {
    let alloc = rt.alloc();
    let sets = vec![in alloc; one_row(alloc, &[3, 4])?, one_row(alloc, &[2, 0])?]?;
    let salts = vec![in alloc; one_row(alloc, &[2])?, one_row(alloc, &[1])?]?;
    let proof = (salts, of_both_rows(alloc));
    let matrices = vec![in alloc; two_rows(alloc, &[1, 31, 3, 4])?]?;
    let (scheme, indices) = (&mut salted(), &[1, 0]);
    let compared = salted_commit_compare_pruned(alloc, scheme, matrices, indices, &sets, &proof)?;
    let collision = "Ok(Some((1, 1, Words { place: Leaf, first: [2, 0, 1], second: [1, 31, 1] })))";
    assert_printed(&rt, alloc, &compared.found, collision)?;
    Ok(())
}
