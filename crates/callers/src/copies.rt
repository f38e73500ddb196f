//! Copies of a matrix and of a tree, so that a prover goes on with what it has handed over or keeps for another.

ghost use Rattle.std.specs.Prelude.{◌≡◌, IfOk};
ghost use Rattle.p3_merkle_tree.specs.Parts.{layers_of, tree_batch};

use anyhow::Result;
use p3_hashes::fold::{FoldCompress, FoldHash};
use p3_merkle_tree::{MerkleTree, MerkleTreeMmcs, check_indices};
use p3_support::matrix::RowMajorMatrix;
use std::alloc::AllocError;

type Fold = MerkleTreeMmcs<u32, u32, FoldHash<4>, FoldCompress<2, 4>, 2, 1>;

/// The tree that a scheme builds over stored matrices.
type Tree = MerkleTree<u32, u32, RowMajorMatrix<u32>, 2, 1>;

/// A copy of a tree: it has the same rows and the same layers, so it opens what the tree opens.
fn copy_of(tree: &Tree) -> Result<Tree, AllocError>
    ensures batch { IfOk result (λ copy. tree_batch copy ≡ tree_batch tree.now) }
    ensures layers { IfOk result (λ copy. layers_of copy ≡ layers_of tree.now) }
{
    tree.clone()
}

/// Commits to a copy of four rows, and opens row 2 of a copy of the tree. Prints the rows that were kept, and the
/// opening.
pub fn run(rt: &HostRuntime) -> Result<()> {
    let alloc = rt.alloc();
    let scheme = Fold::new(FoldHash::<4>, FoldCompress::<2, 4>, 0);
    let rows = RowMajorMatrix::new(vec![in alloc; 1u32, 2, 3, 4]?, 1);
    let (_, tree) = scheme.commit(alloc, vec![in alloc; rows.clone()?]?)?;
    let copy = copy_of(&tree)?;

    check_indices(scheme.get_max_height(&copy), &[2])?;
    let opening = scheme.open_batch(alloc, 2, &copy)?;
    let (kept, opened) = (rows.values(), &opening.opened_values);
    println!(rt; "kept {kept:?}, opened {opened:?}")?;
    Ok(())
}
