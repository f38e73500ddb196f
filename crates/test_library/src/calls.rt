//! Calls that no stored case makes, on values that were worked out by hand.

use p3_hashes::fold::{FoldCompress, FoldHash};
use p3_merkle_tree::{
    CapRule, MerkleTree, MerkleTreeError, MerkleTreeHidingMmcs, MerkleTreeMmcs, check_indices, laws,
};
use p3_support::matrix::{Dimensions, Matrix, RowMajorMatrix};
use std::alloc::{AllocError, Global};
use std::process::Abort;
use std::test::Fail;
use test_support::counting::Counting;

/// The plain scheme of two children over the fold functions.
type Plain = MerkleTreeMmcs<u32, u32, FoldHash<1>, FoldCompress<2, 1>, 2, 1>;

/// The salted scheme, with two salts for each row.
type Salted = MerkleTreeHidingMmcs<u32, u32, FoldHash<1>, FoldCompress<2, 1>, Counting, 2, 1, 2>;

/// The salts 100, 101, 102 and so on.
fn from_100() -> Counting {
    Counting { step: 1, last: 99 }
}

#[test]
fn schemes_say_which_cap_they_have(rt: HostRuntime) {
    let plain = Plain::new(FoldHash, FoldCompress, 3);
    assert_eq!(rt;
        (plain.cap_height(), plain.cap_rule()),
        (3, CapRule::Lowered)
    );
    let plain = Plain::new_with_rule(FoldHash, FoldCompress, 2, CapRule::Fixed);
    assert_eq!(rt; (plain.cap_height(), plain.cap_rule()), (2, CapRule::Fixed));
    let salted = Salted::new(FoldHash, FoldCompress, 3, from_100());
    assert_eq!(rt;
        (salted.cap_height(), salted.cap_rule()),
        (3, CapRule::Lowered)
    );
    let salted = Salted::new_with_rule(FoldHash, FoldCompress, 2, from_100(), CapRule::Fixed);
    assert_eq!(rt;
        (salted.cap_height(), salted.cap_rule()),
        (2, CapRule::Fixed)
    );
}

/// The matrix of these rows, of one word each.
fn column(alloc: Global, words: &[u32]) -> Result<Vec<RowMajorMatrix<u32>>, AllocError> {
    let rows = RowMajorMatrix::new(Vec::from_slice(alloc, words)?, 1);
    Ok(vec![in alloc; rows]?)
}

/// Asserts the root of a tree, and how many layers it has.
fn assert_layers<M: Matrix<u32> + Drop>(
    rt: &impl Abort,
    tree: &MerkleTree<u32, u32, M, 2, 1>,
    root: u32,
    layers: usize,
) {
    assert_eq!(rt; (*tree.root().value(), tree.num_layers()), ([root], layers));
}

/// Asserts that there is one matrix, of these words.
fn assert_words(rt: &impl Abort, matrices: &[&RowMajorMatrix<u32>], words: &[u32]) {
    assert!(rt; matrices.len() == 1 && matrices.iter().all(|matrix| matrix.values() == words));
}

// The rows 1 to 4 have the digests 32 to 35, the nodes above are 1026 and 1090, and the root is 32897.

#[test]
fn a_plain_tree_shows_its_layers_and_matrices(rt: HostRuntime) -> Result<(), Fail> {
    let (alloc, plain) = (rt.alloc(), Plain::new(FoldHash, FoldCompress, 1));
    let (cap, tree) = plain.commit(alloc, column(alloc, &[1, 2, 3, 4])?)?;
    assert_eq!(rt; cap.roots(), [[1026], [1090]].as_slice());
    assert_layers(&rt, &tree, 32897, 3);
    assert_eq!(rt; plain.get_max_height(&tree), 4);
    assert_words(&rt, &plain.get_matrices(alloc, &tree)?, &[1, 2, 3, 4]);
    Ok(())
}

// The row 9 with the salts 100 and 101 has the digest 40 * 961 + 100 * 31 + 101.

#[test]
fn a_salted_tree_shows_its_matrices_without_salts(rt: HostRuntime) -> Result<(), Fail> {
    let alloc = rt.alloc();
    let mut salted = Salted::new(FoldHash, FoldCompress, 0, from_100());
    let (cap, tree) = salted.commit(alloc, column(alloc, &[9])?)?;
    assert_eq!(rt; cap.roots(), [[41641]].as_slice());
    assert_layers(&rt, &tree, 41641, 1);
    assert_eq!(rt; salted.get_max_height(&tree), 1);
    assert_words(&rt, &salted.get_matrices(alloc, &tree)?, &[9]);
    Ok(())
}

#[test]
fn both_calls_for_several_rows_answer_alike(rt: HostRuntime) -> Result<(), Fail> {
    let (alloc, plain) = (rt.alloc(), Plain::new(FoldHash, FoldCompress, 0));
    let (cap, tree) = plain.commit(alloc, column(alloc, &[1, 2, 3, 4])?)?;
    let indices = [2, 2];
    check_indices(plain.get_max_height(&tree), &indices)?;
    let opening = plain.open_batch_pruned(alloc, &indices, &tree)?;
    let (rows, proof) = plain.open_multi_batch(alloc, &indices, &tree)?;
    assert!(rt; rows == opening.opened_values && proof == opening.pruned_proof);
    assert_eq!(rt; proof.sibling_hashes.as_slice(), [[35], [1026]].as_slice());
    let dimensions = [Dimensions {
        width: 1,
        height: 4,
    }];
    let verdicts = [
        plain.verify_batch_pruned(alloc, &cap, &dimensions, &indices, &rows, &proof),
        plain.verify_multi_batch(alloc, &cap, &dimensions, &indices, &rows, &proof),
    ];
    assert_eq!(rt; verdicts, [Ok(()), Ok(())]);
    Ok(())
}

#[test]
fn indices_are_below_the_tallest_height(rt: HostRuntime) {
    assert_eq!(rt; check_indices(4, &[3, 0, 3]), Ok(()));
    let error = MerkleTreeError::IndexOutOfBounds {
        max_height: 4,
        index: 9,
    };
    assert_eq!(rt; check_indices(4, &[0, 9, 4]), Err(error));
}

#[test]
fn laws_can_be_called(_rt: HostRuntime) {
    laws::shape();
    laws::dimensions::<u32, RowMajorMatrix<u32>, 2>();
    laws::caps();
    laws::one_height::<u32, u32>();
    laws::completeness::<u32, u32>();
    laws::restoration::<u32, u32>();
    laws::answers::<u32, u32>();
    laws::extraction::<u32, u32>();
    laws::boundary();
}
