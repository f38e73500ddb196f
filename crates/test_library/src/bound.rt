//! What two trees with one cap lead to, and two openings, under functions of eight bits: a digest is one byte,
//! repeated, which is a row's first byte, or the exclusive or of two children. So a collision of each form can be
//! worked out in one's head: of the rows of a leaf, of a group, of the rows of a layer above, and of a group beside
//! their digest.

use crate::exclusive_or::{RepeatHash, XorNodes};
use p3_merkle_tree::{
    BatchOpeningRef, CapRule, Collision, InputPair, MerkleTreeError, MerkleTreeHidingMmcs,
    MerkleTreeMmcs, check_indices,
};
use p3_support::matrix::{RowMajorMatrix, dimensions_of};
use std::alloc::{AllocError, Global};
use std::process::Abort;
use std::test::Fail;
use test_support::counting::Counting;

/// Matrices, each by its width and its bytes.
type Columns = &'static [(usize, &'static [u8])];

/// What is found: the index of the leaf, and the collision.
type Found = Result<Option<(usize, Collision<u8, u8, 32>)>, MerkleTreeError>;

/// The plain scheme, whose cap is asked for this many levels below the root.
fn plain(cap_height: usize, rule: CapRule) -> MerkleTreeMmcs<u8, u8, RepeatHash, XorNodes, 2, 32> {
    MerkleTreeMmcs::new_with_rule(RepeatHash, XorNodes, cap_height, rule)
}

/// The salted scheme, whose cap is the root, with one salt a row: the numbers after `last`.
fn salted(last: u64) -> MerkleTreeHidingMmcs<u8, u8, RepeatHash, XorNodes, Counting, 2, 32, 1> {
    let rng = Counting { step: 1, last };
    MerkleTreeHidingMmcs::new(RepeatHash, XorNodes, 0, rng)
}

/// Matrices of these widths and bytes; none, if a matrix has half a row.
fn matrices_of(
    alloc: Global,
    columns: Columns,
) -> Result<Vec<RowMajorMatrix<u8>>, MerkleTreeError> {
    let mut matrices = Vec::with_capacity(alloc, columns.len())?;
    for (width, bytes) in columns {
        let values = Vec::from_slice(alloc, bytes)?;
        match RowMajorMatrix::try_new(values, *width) {
            Ok(matrix) => matrices.push(matrix)?,
            Err(_) => return Ok(Vec::new(alloc)),
        }
    }
    Ok(matrices)
}

/// The first byte of each of some digests.
fn first_bytes(alloc: Global, digests: &[[u8; 32]]) -> Result<Vec<u8>, AllocError> {
    let mut bytes = Vec::with_capacity(alloc, digests.len())?;
    for digest in digests {
        bytes.push(digest[0])?;
    }
    Ok(bytes)
}

/// What is found, as a line: the index, the place and both inputs, where a digest is its first byte; or the error.
fn line(alloc: Global, found: &Found) -> Result<String, AllocError> {
    match found {
        Ok(None) => format!(in alloc; "none"),
        Ok(Some((index, pair))) => match pair {
            InputPair::Words {
                place,
                first,
                second,
            } => format!(in alloc; "{index} {place:?} {first:?} {second:?}"),
            InputPair::Digests {
                place,
                first,
                second,
            } => {
                let first = first_bytes(alloc, first)?;
                let second = first_bytes(alloc, second)?;
                format!(in alloc; "{index} {place:?} {first:?} {second:?}")
            }
        },
        Err(error) => format!(in alloc; "{error:?}"),
    }
}

/// Asserts what the trees over two batches lead to, under the cap of the first one.
fn assert_plain(
    rt: &impl Abort,
    alloc: Global,
    (cap_height, rule): (usize, CapRule),
    first: Columns,
    second: Columns,
    expected: &str,
) -> Result<(), MerkleTreeError> {
    let scheme = plain(cap_height, rule);
    let (cap, first) = scheme.commit(alloc, matrices_of(alloc, first)?)?;
    let (_, second) = scheme.commit(alloc, matrices_of(alloc, second)?)?;
    let found = scheme.commitment_collision(alloc, &cap, &first, &second);
    assert_eq!(rt; line(alloc, &found)?.as_str(), expected);
    Ok(())
}

/// The first `count` indices.
fn first_indices(alloc: Global, count: usize) -> Result<Vec<usize>, AllocError> {
    let mut indices = Vec::with_capacity(alloc, count)?;
    for index in 0..count {
        indices.push(index)?;
    }
    Ok(indices)
}

/// Asserts what the openings of all indices by one proof, of the trees over two batches, lead to under the cap of the
/// first one. A collision is expected of one query of each, at the same place in both lists.
fn assert_plain_openings(
    rt: &impl Abort,
    alloc: Global,
    first: Columns,
    second: Columns,
    expected: &str,
) -> Result<(), MerkleTreeError> {
    let scheme = plain(0, CapRule::Lowered);
    let first = matrices_of(alloc, first)?;
    let dimensions = dimensions_of(alloc, &first)?;
    let (cap, first) = scheme.commit(alloc, first)?;
    let (_, second) = scheme.commit(alloc, matrices_of(alloc, second)?)?;
    let indices = first_indices(alloc, scheme.get_max_height(&first))?;
    check_indices(scheme.get_max_height(&first), &indices)?;
    check_indices(scheme.get_max_height(&second), &indices)?;
    let (rows1, proof1) = scheme.open_multi_batch(alloc, &indices, &first)?;
    let (rows2, proof2) = scheme.open_multi_batch(alloc, &indices, &second)?;
    let found = scheme.extract_collision_multi(
        alloc,
        &cap,
        &dimensions,
        &indices,
        &rows1,
        &proof1,
        &indices,
        &rows2,
        &proof2,
    );
    if let Ok(Some((index, other, _))) = &found {
        assert_eq!(rt; index, other);
    }
    let found = found.map(|pair| pair.map(|(index, _, collision)| (index, collision)));
    assert_eq!(rt; line(alloc, &found)?.as_str(), expected);
    Ok(())
}

/// Asserts what the openings of one index, of the trees over two batches, lead to under the cap of the first one.
fn assert_plain_opening(
    rt: &impl Abort,
    alloc: Global,
    index: usize,
    first: Columns,
    second: Columns,
    expected: &str,
) -> Result<(), MerkleTreeError> {
    let scheme = plain(0, CapRule::Lowered);
    let first = matrices_of(alloc, first)?;
    let dimensions = dimensions_of(alloc, &first)?;
    let (cap, first) = scheme.commit(alloc, first)?;
    let (_, second) = scheme.commit(alloc, matrices_of(alloc, second)?)?;
    check_indices(scheme.get_max_height(&first), &[index])?;
    check_indices(scheme.get_max_height(&second), &[index])?;
    let first = scheme.open_batch(alloc, index, &first)?;
    let second = scheme.open_batch(alloc, index, &second)?;
    let (first, second) = (
        BatchOpeningRef::from(&first),
        BatchOpeningRef::from(&second),
    );
    let found = scheme.extract_collision(alloc, &cap, &dimensions, index, first, index, second);
    let found = found.map(|pair| pair.map(|collision| (index, collision)));
    assert_eq!(rt; line(alloc, &found)?.as_str(), expected);
    Ok(())
}

/// Asserts what two salted trees lead to, under the cap of the first one. The salts of the second one are the numbers
/// after `last`, those of the first one the numbers after 0.
fn assert_salted(
    rt: &impl Abort,
    alloc: Global,
    last: u64,
    first: Columns,
    second: Columns,
    expected: &str,
) -> Result<(), MerkleTreeError> {
    let mut scheme = salted(0);
    let (cap, first) = scheme.commit(alloc, matrices_of(alloc, first)?)?;
    let (_, second) = salted(last).commit(alloc, matrices_of(alloc, second)?)?;
    let found = scheme.commitment_collision(alloc, &cap, &first, &second);
    assert_eq!(rt; line(alloc, &found)?.as_str(), expected);
    Ok(())
}

/// Asserts what the salted openings of all indices by one proof lead to, as [`assert_plain_openings`] does.
fn assert_salted_openings(
    rt: &impl Abort,
    alloc: Global,
    last: u64,
    first: Columns,
    second: Columns,
    expected: &str,
) -> Result<(), MerkleTreeError> {
    let mut scheme = salted(0);
    let first = matrices_of(alloc, first)?;
    let dimensions = dimensions_of(alloc, &first)?;
    let (cap, first) = scheme.commit(alloc, first)?;
    let (_, second) = salted(last).commit(alloc, matrices_of(alloc, second)?)?;
    let indices = first_indices(alloc, scheme.get_max_height(&first))?;
    check_indices(scheme.get_max_height(&first), &indices)?;
    check_indices(scheme.get_max_height(&second), &indices)?;
    let (rows1, proof1) = scheme.open_multi_batch(alloc, &indices, &first)?;
    let (rows2, proof2) = scheme.open_multi_batch(alloc, &indices, &second)?;
    let found = scheme.extract_collision_multi(
        alloc,
        &cap,
        &dimensions,
        &indices,
        &rows1,
        &proof1,
        &indices,
        &rows2,
        &proof2,
    );
    if let Ok(Some((index, other, _))) = &found {
        assert_eq!(rt; index, other);
    }
    let found = found.map(|pair| pair.map(|(index, _, collision)| (index, collision)));
    assert_eq!(rt; line(alloc, &found)?.as_str(), expected);
    Ok(())
}

/// Asserts what the salted openings of one index lead to, as [`assert_plain_opening`] does.
fn assert_salted_opening(
    rt: &impl Abort,
    alloc: Global,
    (index, last): (usize, u64),
    first: Columns,
    second: Columns,
    expected: &str,
) -> Result<(), MerkleTreeError> {
    let mut scheme = salted(0);
    let first = matrices_of(alloc, first)?;
    let dimensions = dimensions_of(alloc, &first)?;
    let (cap, first) = scheme.commit(alloc, first)?;
    let (_, second) = salted(last).commit(alloc, matrices_of(alloc, second)?)?;
    check_indices(scheme.get_max_height(&first), &[index])?;
    check_indices(scheme.get_max_height(&second), &[index])?;
    let first = scheme.open_batch(alloc, index, &first)?;
    let second = scheme.open_batch(alloc, index, &second)?;
    let (first, second) = (
        BatchOpeningRef::from(&first),
        BatchOpeningRef::from(&second),
    );
    let found = scheme.extract_collision(alloc, &cap, &dimensions, index, first, index, second);
    let found = found.map(|pair| pair.map(|collision| (index, collision)));
    assert_eq!(rt; line(alloc, &found)?.as_str(), expected);
    Ok(())
}

/// Pairs of batches of the same dimensions: the index of the leaf where a collision is found, else 0; the batches; and
/// what they lead to, by the index, the place and both inputs.
const PLAIN: [(usize, Columns, Columns, &str); 12] = [
    (0, &[(2, &[1, 2, 3, 4])], &[(2, &[1, 2, 3, 4])], "none"),
    // The rows of the first leaf, of the last of two, and of the last of three, beside padding.
    (
        0,
        &[(2, &[1, 2, 3, 4])],
        &[(2, &[1, 9, 3, 4])],
        "0 Leaf [1, 2] [1, 9]",
    ),
    (
        1,
        &[(2, &[1, 2, 3, 4])],
        &[(2, &[1, 2, 3, 9])],
        "1 Leaf [3, 4] [3, 9]",
    ),
    (
        2,
        &[(2, &[1, 2, 3, 4, 5, 6])],
        &[(2, &[1, 2, 3, 4, 5, 9])],
        "2 Leaf [5, 6] [5, 9]",
    ),
    // A group of leaves, and one of nodes: 3 = 1 ^ 2 and 7 = 3 ^ 4.
    (
        0,
        &[(1, &[1, 2])],
        &[(1, &[2, 1])],
        "0 Group(0) [1, 2] [2, 1]",
    ),
    (
        0,
        &[(1, &[1, 2, 3, 4])],
        &[(1, &[3, 4, 1, 2])],
        "0 Group(1) [3, 7] [7, 3]",
    ),
    // A group on the way of the last two leaves alone.
    (
        2,
        &[(1, &[1, 2, 3, 4])],
        &[(1, &[1, 2, 4, 3])],
        "2 Group(0) [3, 4] [4, 3]",
    ),
    // The rows of a matrix of half the height, and of a quarter.
    (
        0,
        &[(1, &[1, 2]), (2, &[5, 6])],
        &[(1, &[1, 2]), (2, &[5, 7])],
        "0 Rows(0) [5, 6] [5, 7]",
    ),
    (
        0,
        &[(1, &[1, 2, 3, 4]), (2, &[5, 6])],
        &[(1, &[1, 2, 3, 4]), (2, &[5, 7])],
        "0 Rows(1) [5, 6] [5, 7]",
    ),
    // A group beside the digest of such rows: of 1 ^ 2 = 3 and 7, or of 1 ^ 3 = 2 and 6; of 1 ^ 2 ^ 3 ^ 4 = 4 and 7,
    // or of 1 ^ 2 ^ 3 ^ 5 = 5 and 6.
    (
        0,
        &[(1, &[1, 2]), (1, &[7])],
        &[(1, &[1, 3]), (1, &[6])],
        "0 Pair(0) [3, 7] [2, 6]",
    ),
    (
        0,
        &[(1, &[1, 2, 3, 4]), (1, &[7])],
        &[(1, &[1, 2, 3, 5]), (1, &[6])],
        "0 Pair(1) [4, 7] [5, 6]",
    ),
    // Another root.
    (0, &[(1, &[1, 2])], &[(1, &[1, 3])], "CapMismatch"),
];

#[test]
fn trees_with_one_root_have_the_same_rows_or_collide(rt: HostRuntime) -> Result<(), Fail> {
    let alloc = rt.alloc();
    for (_, first, second, expected) in PLAIN {
        assert_plain(&rt, alloc, (0, CapRule::Lowered), first, second, expected)?;
    }
    Ok(())
}

#[test]
fn openings_under_one_root_agree_or_collide_in_each_form(rt: HostRuntime) -> Result<(), Fail> {
    let alloc = rt.alloc();
    for (index, first, second, expected) in PLAIN {
        assert_plain_opening(&rt, alloc, index, first, second, expected)?;
    }
    Ok(())
}

#[test]
fn openings_of_all_indices_agree_or_collide_in_each_form(rt: HostRuntime) -> Result<(), Fail> {
    let alloc = rt.alloc();
    for (_, first, second, expected) in PLAIN {
        assert_plain_openings(&rt, alloc, first, second, expected)?;
    }
    Ok(())
}

#[test]
fn the_rule_decides_which_rows_a_cap_binds(rt: HostRuntime) -> Result<(), Fail> {
    let (first, second): (Columns, Columns) = (
        &[(1, &[1, 2]), (1, &[7])],
        &[(1, &[1, 2]), (1, &[6])],
    );
    // Under the rule Fixed the leaves are the cap, and the row above them is not bound.
    let alloc = rt.alloc();
    assert_plain(&rt, alloc, (1, CapRule::Fixed), first, second, "none")?;
    assert_plain(
        &rt,
        alloc,
        (1, CapRule::Lowered),
        first,
        second,
        "CapMismatch",
    )?;
    Ok(())
}

#[test]
fn trees_of_other_dimensions_are_refused(rt: HostRuntime) -> Result<(), Fail> {
    // Two batches, and the error.
    let cases: [(Columns, Columns, &str); 2] = [
        (
            &[(1, &[1, 2])],
            &[(1, &[1, 2]), (1, &[0])],
            "WrongBatchSize { expected: 1, got: 2 }",
        ),
        (
            &[(1, &[1, 2])],
            &[(2, &[1, 2, 2, 4])],
            "WrongWidth { matrix: 0, expected: 1, got: 2 }",
        ),
    ];
    let alloc = rt.alloc();
    for (first, second, expected) in cases {
        assert_plain(&rt, alloc, (0, CapRule::Lowered), first, second, expected)?;
    }
    Ok(())
}

#[test]
fn a_tree_of_fewer_leaves_is_refused(rt: HostRuntime) -> Result<(), Fail> {
    // Both have one root, since the byte 0 has the digest of padding.
    let (first, second): (Columns, Columns) = (&[(1, &[1, 2, 3, 0])], &[(1, &[1, 2, 3])]);
    let error = "IndexOutOfBounds { max_height: 3, index: 3 }";
    assert_plain(&rt, rt.alloc(), (0, CapRule::Lowered), first, second, error)?;
    Ok(())
}

#[test]
fn a_tree_under_another_cap_is_refused(rt: HostRuntime) -> Result<(), Fail> {
    let alloc = rt.alloc();
    let scheme = plain(0, CapRule::Lowered);
    let (_, first) = scheme.commit(alloc, matrices_of(alloc, &[(1, &[1, 2])])?)?;
    let (cap, second) = scheme.commit(alloc, matrices_of(alloc, &[(1, &[1, 3])])?)?;
    let found = scheme.commitment_collision(alloc, &cap, &first, &second);
    assert_eq!(rt; line(alloc, &found)?.as_str(), "CapMismatch");
    Ok(())
}

/// The same of salted matrices. Ahead of the batches stand the index, and the number after which the salts of the
/// second batch begin; those of the first one are 1, 2 and so on.
const SALTED: [(usize, u64, Columns, Columns, &str); 11] = [
    (0, 0, &[(2, &[1, 2, 3, 4])], &[(2, &[1, 2, 3, 4])], "none"),
    (
        1,
        0,
        &[(2, &[1, 2, 3, 4])],
        &[(2, &[1, 2, 3, 9])],
        "1 Leaf [3, 4, 2] [3, 9, 2]",
    ),
    // The salts alone differ: of a leaf, and of the rows of a layer above.
    (
        0,
        4,
        &[(1, &[1, 2])],
        &[(1, &[1, 2])],
        "0 Leaf [1, 1] [1, 5]",
    ),
    (
        0,
        4,
        &[(1, &[1, 2]), (2, &[5, 6])],
        &[(1, &[1, 2]), (2, &[5, 6])],
        "0 Rows(0) [5, 6, 3] [5, 6, 7]",
    ),
    (
        0,
        0,
        &[(1, &[1, 2])],
        &[(1, &[2, 1])],
        "0 Group(0) [1, 2] [2, 1]",
    ),
    (
        0,
        0,
        &[(1, &[1, 2, 3, 4])],
        &[(1, &[3, 4, 1, 2])],
        "0 Group(1) [3, 7] [7, 3]",
    ),
    (
        0,
        0,
        &[(1, &[1, 2]), (2, &[5, 6])],
        &[(1, &[1, 2]), (2, &[5, 7])],
        "0 Rows(0) [5, 6, 3] [5, 7, 3]",
    ),
    (
        0,
        0,
        &[(1, &[1, 2, 3, 4]), (2, &[5, 6])],
        &[(1, &[1, 2, 3, 4]), (2, &[5, 7])],
        "0 Rows(1) [5, 6, 5] [5, 7, 5]",
    ),
    (
        0,
        0,
        &[(1, &[1, 2]), (1, &[7])],
        &[(1, &[1, 3]), (1, &[6])],
        "0 Pair(0) [3, 7] [2, 6]",
    ),
    (
        0,
        0,
        &[(1, &[1, 2, 3, 4]), (1, &[7])],
        &[(1, &[1, 2, 3, 5]), (1, &[6])],
        "0 Pair(1) [4, 7] [5, 6]",
    ),
    (0, 0, &[(1, &[1, 2])], &[(1, &[1, 3])], "CapMismatch"),
];

#[test]
fn salted_trees_with_one_root_have_the_same_rows_and_salts_or_collide(
    rt: HostRuntime,
) -> Result<(), Fail> {
    let alloc = rt.alloc();
    for (_, last, first, second, expected) in SALTED {
        assert_salted(&rt, alloc, last, first, second, expected)?;
    }
    Ok(())
}

#[test]
fn salted_openings_under_one_root_agree_or_collide_in_each_form(
    rt: HostRuntime,
) -> Result<(), Fail> {
    let alloc = rt.alloc();
    for (index, last, first, second, expected) in SALTED {
        assert_salted_opening(&rt, alloc, (index, last), first, second, expected)?;
    }
    Ok(())
}

#[test]
fn salted_openings_of_all_indices_agree_or_collide_in_each_form(
    rt: HostRuntime,
) -> Result<(), Fail> {
    let alloc = rt.alloc();
    for (_, last, first, second, expected) in SALTED {
        assert_salted_openings(&rt, alloc, last, first, second, expected)?;
    }
    Ok(())
}
