//! What clones and copies of trees, schemes and openings hold, and of which values `==` holds.

use p3_hashes::fold::{FoldCompress, FoldHash};
use p3_merkle_tree::{
    ArityAndPositions, BatchOpening, CapRule, Collision, Hash, InputPair, MerkleAuthPath,
    MerkleCap, MerkleTree, MerkleTreeError, MerkleTreeHidingMmcs, MerkleTreeMmcs, Place,
    PrunedBatchOpening, PrunedMerklePaths, PrunedProofError, laws,
};
use p3_support::matrix::{Dimensions, Matrix, RowMajorMatrix};
use std::alloc::{AllocError, Global};
use std::test::Fail;
use test_support::compared::{
    are_printed_alike, are_told_apart, equals_its_clone, is_printed, is_printed_as_its_clone,
    is_printed_as_its_copies,
};
use test_support::counting::Counting;
use test_support::matrices::{numbered, two_rows};

/// A tree of two children over the fold functions.
type Tree<M> = MerkleTree<u32, u32, M, 2, 1>;

/// A cap of its digests.
type Cap = MerkleCap<u32, [u32; 1]>;

/// The tree over matrices.
fn tree_over<M: Matrix<u32> + Drop>(
    alloc: Global,
    matrices: Vec<M>,
) -> Result<Tree<M>, MerkleTreeError> {
    Tree::new::<u32, u32, _, _>(alloc, &FoldHash::<1>, &FoldCompress::<2, 1>, matrices)
}

/// The clone of a tree over stored matrices, whose clones have the same rows.
fn clone_of(tree: &Tree<RowMajorMatrix<u32>>) -> Result<Tree<RowMajorMatrix<u32>>, AllocError> {
    tree.clone()
}

#[test]
fn a_clone_of_a_tree_has_its_matrices_and_layers(rt: HostRuntime) -> Result<(), Fail> {
    let alloc = rt.alloc();
    let rows = vec![in alloc; two_rows(alloc, &[1, 31, 3, 4])?]?;
    let tree = tree_over(alloc, rows)?;
    let clone = clone_of(&tree)?;
    assert!(rt; are_printed_alike(alloc, &tree, &clone));
    // The leaves are 1023 and 1058.
    assert_eq!(rt; *clone.root().value(), [32772]);
    let tree = tree_over(alloc, numbered(alloc, &[(2, 5), (1, 3)])?)?;
    let clone = tree.clone()?;
    assert!(rt; are_printed_alike(alloc, &tree, &clone));
    Ok(())
}

/// A pruned proof of these digests.
fn proof_of(alloc: Global, digests: &[[u32; 1]]) -> Result<PrunedMerklePaths<u32, 1>, AllocError> {
    let sibling_hashes = Vec::from_slice(alloc, digests)?;
    Ok(PrunedMerklePaths::<u32, 1> { sibling_hashes })
}

/// A pruned opening of one row of one word.
fn pruned_of(
    alloc: Global,
    word: u32,
    digest: u32,
) -> Result<PrunedBatchOpening<u32, u32, 1>, AllocError> {
    let row_set = vec![in alloc; vec![in alloc; word]?]?;
    Ok(PrunedBatchOpening::<u32, u32, 1> {
        opened_values: vec![in alloc; row_set]?,
        pruned_proof: proof_of(alloc, &[[digest]])?,
    })
}

/// A path of one sibling.
fn path_of(
    alloc: Global,
    leaf_index: usize,
    sibling: u32,
) -> Result<MerkleAuthPath<u32, 1>, AllocError> {
    let siblings = vec![in alloc; [sibling]]?;
    Ok(MerkleAuthPath::<u32, 1> {
        leaf_index,
        siblings,
    })
}

#[test]
fn clones_and_copies_hold_what_they_were_made_of(rt: HostRuntime) -> Result<(), Fail> {
    let alloc = rt.alloc();
    assert!(rt; equals_its_clone(&path_of(alloc, 2, 35)?));
    assert!(rt; equals_its_clone(&proof_of(alloc, &[[35], [1026]])?));
    assert!(rt; equals_its_clone(&pruned_of(alloc, 3, 35)?));
    let path = ArityAndPositions {
        arity_schedule: vec![in alloc; 2, 4]?,
        query_positions: vec![in alloc; 1, 3]?,
    };
    assert!(rt; is_printed_as_its_clone(alloc, &path));
    assert!(rt; is_printed_as_its_copies(alloc, CapRule::Fixed));
    let scheme: MerkleTreeMmcs<u32, u32, FoldHash<1>, FoldCompress<2, 1>, 2, 1> =
        MerkleTreeMmcs::new_with_rule(FoldHash, FoldCompress, 3, CapRule::Fixed);
    assert!(rt; is_printed_as_its_copies(alloc, scheme));
    Ok(())
}

/// The salted scheme of two children over the fold functions, with one salt for each row.
type Salted = MerkleTreeHidingMmcs<u32, u32, FoldHash<1>, FoldCompress<2, 1>, Counting, 2, 1, 1>;

// The text is what Rust's derive writes for structs of these fields, save for the type of PhantomData. Rattle writes
// `_` for that type.
#[test]
fn a_salted_scheme_is_printed_with_its_generator(rt: HostRuntime) -> Result<(), Fail> {
    let alloc = rt.alloc();
    let rng = Counting { step: 1, last: 0 };
    let scheme = Salted::new_with_rule(FoldHash, FoldCompress, 3, rng, CapRule::Fixed);
    let fields =
        "hash: FoldHash, compress: FoldCompress, cap_height: 3, cap_rule: Fixed, item: PhantomData<_>";
    let expected = format!(in alloc;
        "HidingScheme {{ plain: Scheme {{ {fields} }}, generator: Counting {{ step: 1, last: 0 }} }}"
    )?;
    assert!(rt; is_printed(alloc, &scheme, expected.as_str()));
    Ok(())
}

/// Four paths.
fn paths(alloc: Global) -> Result<[MerkleAuthPath<u32, 1>; 4], AllocError> {
    Ok([
        path_of(alloc, 2, 35)?,
        path_of(alloc, 2, 36)?,
        path_of(alloc, 3, 35)?,
        path_of(alloc, 3, 36)?,
    ])
}

/// Four pruned openings.
fn pruned_openings(alloc: Global) -> Result<[PrunedBatchOpening<u32, u32, 1>; 4], AllocError> {
    Ok([
        pruned_of(alloc, 3, 35)?,
        pruned_of(alloc, 3, 36)?,
        pruned_of(alloc, 4, 35)?,
        pruned_of(alloc, 4, 36)?,
    ])
}

/// Seven places.
fn places() -> [Place; 7] {
    [
        Place::Leaf,
        Place::Group(0),
        Place::Group(1),
        Place::Rows(0),
        Place::Rows(1),
        Place::Pair(0),
        Place::Pair(1),
    ]
}

/// Two inputs of the hasher, of one word each.
fn words_at(
    alloc: Global,
    place: Place,
    first: u32,
    second: u32,
) -> Result<Collision<u32, u32, 1>, AllocError> {
    let (first, second) = (vec![in alloc; first]?, vec![in alloc; second]?);
    Ok(InputPair::Words {
        place,
        first,
        second,
    })
}

/// Two inputs of the compression, of one digest each.
fn digests_at(
    alloc: Global,
    place: Place,
    first: u32,
    second: u32,
) -> Result<Collision<u32, u32, 1>, AllocError> {
    let (first, second) = (vec![in alloc; [first]]?, vec![in alloc; [second]]?);
    Ok(InputPair::Digests {
        place,
        first,
        second,
    })
}

/// Six collisions.
fn collisions(alloc: Global) -> Result<[Collision<u32, u32, 1>; 6], AllocError> {
    Ok([
        words_at(alloc, Place::Leaf, 1, 2)?,
        words_at(alloc, Place::Leaf, 1, 3)?,
        words_at(alloc, Place::Leaf, 2, 2)?,
        words_at(alloc, Place::Rows(0), 1, 2)?,
        digests_at(alloc, Place::Leaf, 1, 2)?,
        digests_at(alloc, Place::Leaf, 2, 1)?,
    ])
}

/// An error of each variant, and two of some.
fn errors() -> [MerkleTreeError; 14] {
    let slot_alone = PrunedProofError::InconsistentDuplicateOpenings { slot: 1 };
    let slot = PrunedProofError::InconsistentGroupOpening { slot: 1, matrix: 1 };
    let count = PrunedProofError::SiblingCountMismatch {
        expected: 1,
        got: 1,
    };
    [
        MerkleTreeError::WrongBatchSize {
            expected: 1,
            got: 1,
        },
        MerkleTreeError::WrongBatchSize {
            expected: 1,
            got: 2,
        },
        MerkleTreeError::WrongWidth {
            matrix: 1,
            expected: 1,
            got: 1,
        },
        MerkleTreeError::WrongWidth {
            matrix: 2,
            expected: 1,
            got: 1,
        },
        MerkleTreeError::WrongHeight {
            expected_proof_len: 1,
            num_siblings: 1,
        },
        MerkleTreeError::IncompatibleHeights {
            height: 1,
            max_height: 1,
            expected_height: 1,
            bits_reduced: 1,
        },
        MerkleTreeError::IndexOutOfBounds {
            max_height: 1,
            index: 1,
        },
        MerkleTreeError::EmptyBatch,
        MerkleTreeError::CapMismatch,
        MerkleTreeError::TooLarge { matrix: 1, size: 1 },
        MerkleTreeError::OutOfMemory,
        MerkleTreeError::from(slot_alone),
        MerkleTreeError::from(slot),
        MerkleTreeError::from(count),
    ]
}

#[test]
fn equal_values_are_told_from_others(rt: HostRuntime) -> Result<(), Fail> {
    let alloc = rt.alloc();
    assert!(rt; are_told_apart(&paths(alloc)?, &paths(alloc)?));
    assert!(rt; are_told_apart(&pruned_openings(alloc)?, &pruned_openings(alloc)?));
    assert!(rt; are_told_apart(&places(), &places()));
    assert!(rt; are_told_apart(&collisions(alloc)?, &collisions(alloc)?));
    assert!(rt; are_told_apart(&errors(), &errors()));
    assert!(rt;
        are_told_apart(
            &[CapRule::Lowered, CapRule::Fixed],
            &[CapRule::Lowered, CapRule::Fixed]
        )
    );
    Ok(())
}

/// The opening of a row of one word by one sibling.
fn opening_of(
    alloc: Global,
    word: u32,
    sibling: u32,
) -> Result<BatchOpening<u32, Vec<[u32; 1]>>, AllocError> {
    let rows = vec![in alloc; vec![in alloc; word]?]?;
    Ok(BatchOpening::new(rows, vec![in alloc; [sibling]]?))
}

/// Whether the laws of digests and caps hold of an equal pair, and not of a different one.
fn laws_tell_caps_apart(alloc: Global) -> Result<bool, AllocError> {
    let cap: Cap = MerkleCap::new(vec![in alloc; [35], [1026]]?);
    let other: Cap = MerkleCap::new(vec![in alloc; [35]]?);
    let digests: [Hash<'_, u32, u32, 1>; 2] = [Hash::from(&[35]), Hash::from(&[36])];
    Ok(
        laws::merkle_cap_eq::<u32, u32, 1>(&cap, &cap)
            && !laws::merkle_cap_eq::<u32, u32, 1>(&cap, &other)
            && laws::hash_eq::<u32, u32, 1>(&digests[0], &digests[0])
            && !laws::hash_eq::<u32, u32, 1>(&digests[0], &digests[1]),
    )
}

/// The same of the laws of rules and dimensions.
fn laws_tell_shapes_apart() -> bool {
    let of = |width, height| Dimensions { width, height };
    laws::cap_rule_eq(&CapRule::Fixed, &CapRule::Fixed)
        && !laws::cap_rule_eq(&CapRule::Fixed, &CapRule::Lowered)
        && laws::dimensions_eq(&of(2, 3), &of(2, 3))
        && !laws::dimensions_eq(&of(2, 3), &of(2, 4))
        && !laws::dimensions_eq(&of(2, 3), &of(1, 3))
}

/// The same of the laws of errors.
fn laws_tell_errors_apart() -> bool {
    let (error, other) = (MerkleTreeError::EmptyBatch, MerkleTreeError::CapMismatch);
    let slots = [1, 2].map(|slot| PrunedProofError::InconsistentDuplicateOpenings { slot });
    laws::error_eq(&error, &error)
        && !laws::error_eq(&error, &other)
        && laws::pruned_proof_error_eq(&slots[0], &slots[0])
        && !laws::pruned_proof_error_eq(&slots[0], &slots[1])
}

/// The same of the law of openings.
fn law_tells_openings_apart(alloc: Global) -> Result<bool, AllocError> {
    let (opening, other) = (opening_of(alloc, 3, 35)?, opening_of(alloc, 3, 36)?);
    Ok(
        laws::batch_opening_eq::<u32, u32, 1>(&opening, &opening)
            && !laws::batch_opening_eq::<u32, u32, 1>(&opening, &other),
    )
}

/// The same of the law of pruned proofs.
fn law_tells_proofs_apart(alloc: Global) -> Result<bool, AllocError> {
    let (proof, other) = (proof_of(alloc, &[[35]])?, proof_of(alloc, &[])?);
    Ok(
        laws::pruned_merkle_paths_eq::<u32, 1>(&proof, &proof)
            && !laws::pruned_merkle_paths_eq::<u32, 1>(&proof, &other),
    )
}

/// The same of the law of pruned openings.
fn law_tells_pruned_openings_apart(alloc: Global) -> Result<bool, AllocError> {
    let (opening, other) = (pruned_of(alloc, 3, 35)?, pruned_of(alloc, 4, 35)?);
    Ok(
        laws::pruned_batch_opening_eq::<u32, u32, 1>(&opening, &opening)
            && !laws::pruned_batch_opening_eq::<u32, u32, 1>(&opening, &other),
    )
}

/// The same of the law of paths.
fn law_tells_paths_apart(alloc: Global) -> Result<bool, AllocError> {
    let (path, other) = (path_of(alloc, 2, 35)?, path_of(alloc, 3, 35)?);
    Ok(
        laws::merkle_auth_path_eq::<u32, 1>(&path, &path)
            && !laws::merkle_auth_path_eq::<u32, 1>(&path, &other),
    )
}

/// The same of the law of collisions.
fn law_tells_collisions_apart(alloc: Global) -> Result<bool, AllocError> {
    let words = words_at(alloc, Place::Leaf, 1, 2)?;
    let digests = digests_at(alloc, Place::Leaf, 1, 2)?;
    Ok(
        laws::collision_eq::<u32, u32, 1>(&words, &words)
            && !laws::collision_eq::<u32, u32, 1>(&words, &digests),
    )
}

// Each type has a function of its own, so that none holds the values of all types.
#[test]
fn laws_of_equality_tell_values_apart(rt: HostRuntime) -> Result<(), Fail> {
    let alloc = rt.alloc();
    assert!(rt; laws_tell_caps_apart(alloc)?);
    assert!(rt; laws_tell_shapes_apart());
    assert!(rt; laws_tell_errors_apart());
    assert!(rt; law_tells_openings_apart(alloc)?);
    assert!(rt; law_tells_proofs_apart(alloc)?);
    assert!(rt; law_tells_pruned_openings_apart(alloc)?);
    assert!(rt; law_tells_paths_apart(alloc)?);
    assert!(rt; laws::place_eq(&Place::Rows(1), &Place::Rows(1)));
    assert!(rt; !laws::place_eq(&Place::Rows(1), &Place::Pair(1)));
    assert!(rt; law_tells_collisions_apart(alloc)?);
    Ok(())
}
