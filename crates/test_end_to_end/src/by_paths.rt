//! What pruned openings come to as a whole and by their restored paths, of both schemes, at worked values.

use end_to_end::by_paths::{AnswersByPaths, salted_verify_by_paths, verify_by_paths};
use p3_hashes::fold::{FoldCompress, FoldHash};
use p3_merkle_tree::{
    MerkleAuthPath, MerkleCap, MerkleTreeHidingMmcs, MerkleTreeMmcs, PrunedMerklePaths,
};
use p3_support::matrix::Dimensions;
use std::alloc::{AllocError, Global};
use std::process::Abort;
use std::test::Fail;
use test_support::counting::Counting;

/// The cap of one root.
fn root(alloc: Global, digest: u32) -> Result<MerkleCap<u32, [u32; 1]>, AllocError> {
    Ok(MerkleCap::new(vec![in alloc; [digest]]?))
}

/// The row sets of some queries of one matrix, of one word each.
fn sets(alloc: Global, words: &[u32]) -> Result<Vec<Vec<Vec<u32>>>, AllocError> {
    let mut sets = Vec::with_capacity(alloc, words.len())?;
    for word in words {
        sets.push(vec![in alloc; vec![in alloc; *word]?]?)?;
    }
    Ok(sets)
}

/// The pruned proof of some digests.
fn proof_of(alloc: Global, digests: &[u32]) -> Result<PrunedMerklePaths<u32, 1>, AllocError> {
    let mut sibling_hashes = Vec::with_capacity(alloc, digests.len())?;
    for digest in digests {
        sibling_hashes.push([*digest])?;
    }
    Ok(PrunedMerklePaths::<u32, 1> { sibling_hashes })
}

/// Asserts the verdict, the restored paths and the verdict on each query, each as it is printed.
fn assert_answers(
    rt: &impl Abort,
    alloc: Global,
    answers: &AnswersByPaths<MerkleAuthPath<u32, 1>>,
    expected: [&str; 3],
) -> Result<(), AllocError> {
    let [verdict, paths, each] = expected;
    assert_eq!(rt;
        format!(in alloc; "{:?}", answers.verdict)?.as_str(),
        verdict
    );
    assert_eq!(rt; format!(in alloc; "{:?}", answers.paths)?.as_str(), paths);
    assert_eq!(rt; format!(in alloc; "{:?}", answers.each)?.as_str(), each);
    Ok(())
}

// The rows [0] to [3] have the digests 31 to 34, and the nodes above them are 31 * 31 + 32 + 1 = 994 and
// 31 * 33 + 34 + 1 = 1058; the root is 31 * 994 + 1058 + 1 = 31873. With the row [5] in place of [0] the first node is
// 31 * 36 + 32 + 1 = 1149.

#[test]
fn a_pruned_opening_is_accepted_exactly_if_each_restored_path_is(
    rt: HostRuntime,
) -> Result<(), Fail> {
    let alloc = rt.alloc();
    let scheme: MerkleTreeMmcs<u32, u32, FoldHash<1>, FoldCompress<2, 1>, 2, 1> =
        MerkleTreeMmcs::new(FoldHash, FoldCompress, 0);
    let dimensions = [Dimensions {
        width: 1,
        height: 4,
    }];
    let cap = root(alloc, 31873)?;
    // The indices, the words of their rows, the digests of the proof, and the answers.
    let cases: [(&[usize], &[u32], &[u32], [&str; 3]); 3] = [
        (
            &[3, 0],
            &[3, 0],
            &[32, 33],
            [
                "Ok(())",
                "Ok([AuthPath { leaf_index: 3, siblings: [[33], [994]] }, \
                 AuthPath { leaf_index: 0, siblings: [[32], [1058]] }])",
                "[Ok(()), Ok(())]",
            ],
        ),
        (
            &[3, 0],
            &[3, 5],
            &[32, 33],
            [
                "Err(CapMismatch)",
                "Ok([AuthPath { leaf_index: 3, siblings: [[33], [1149]] }, \
                 AuthPath { leaf_index: 0, siblings: [[32], [1058]] }])",
                "[Err(CapMismatch), Err(CapMismatch)]",
            ],
        ),
        (
            &[4],
            &[4],
            &[],
            [
                "Err(IndexOutOfBounds { max_height: 4, index: 4 })",
                "Err(IndexOutOfBounds { max_height: 4, index: 4 })",
                "[]",
            ],
        ),
    ];
    for (indices, words, digests, expected) in cases {
        let rows = sets(alloc, words)?;
        let proof = proof_of(alloc, digests)?;
        let answers = verify_by_paths(alloc, &scheme, &cap, &dimensions, indices, &rows, &proof)?;
        assert_answers(&rt, alloc, &answers, expected)?;
    }
    Ok(())
}

// With the salts 1 and 2 the rows [0] and [1] have the digests 31 * 31 + 1 = 962 and 31 * 32 + 2 = 994, and the root is
// 31 * 962 + 994 + 1 = 30817.

#[test]
fn a_salted_pruned_opening_is_accepted_exactly_if_each_restored_path_is(
    rt: HostRuntime,
) -> Result<(), Fail> {
    let alloc = rt.alloc();
    let rng = Counting { step: 1, last: 0 };
    let scheme: MerkleTreeHidingMmcs<u32, u32, FoldHash<1>, FoldCompress<2, 1>, Counting, 2, 1, 1> =
        MerkleTreeHidingMmcs::new(FoldHash, FoldCompress, 0, rng);
    let dimensions = [Dimensions {
        width: 1,
        height: 2,
    }];
    let cap = root(alloc, 30817)?;
    // The words of rows, their salts, and the answers, for the index 1.
    let cases: [(&[u32], &[u32], [&str; 3]); 3] = [
        (
            &[1],
            &[2],
            [
                "Ok(())",
                "Ok([AuthPath { leaf_index: 1, siblings: [[962]] }])",
                "[Ok(())]",
            ],
        ),
        (
            &[1],
            &[3],
            [
                "Err(CapMismatch)",
                "Ok([AuthPath { leaf_index: 1, siblings: [[962]] }])",
                "[Err(CapMismatch)]",
            ],
        ),
        (
            &[1],
            &[],
            [
                "Err(WrongBatchSize { expected: 1, got: 0 })",
                "Err(WrongBatchSize { expected: 1, got: 0 })",
                "[]",
            ],
        ),
    ];
    for (words, salts, expected) in cases {
        let rows = sets(alloc, words)?;
        let proof = (sets(alloc, salts)?, proof_of(alloc, &[962])?);
        let answers = salted_verify_by_paths(
            alloc,
            &scheme,
            &cap,
            &dimensions,
            &[1],
            &rows,
            &proof,
        )?;
        assert_answers(&rt, alloc, &answers, expected)?;
    }
    Ok(())
}
