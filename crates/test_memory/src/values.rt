//! Calls of matrices, of a generator, and of clones.

use crate::calls::shown;
use crate::case::{Case, Rows};
use crate::counting::Counting;
use crate::held::Held;
use anyhow::{Result, bail};
use p3_hashes::fold::{FoldCompress, FoldHash};
use p3_merkle_tree::{MerkleCap, MerkleTree, MerkleTreeError};
use p3_support::matrix::{Matrix, RowMajorMatrix, dimensions_of};
use std::alloc::{AllocError, Global};
use std::fmt::Debug;

/// Whether a clone is written as what it is a clone of, unless memory ran out.
pub fn is_alike<A: Debug + Drop>(
    alloc: Global,
    value: &A,
    copy: Result<A, AllocError>,
) -> Result<bool, MerkleTreeError> {
    let copy = copy?;
    let (text, copied) = (
        format!(in alloc; "{value:?}")?,
        format!(in alloc; "{copy:?}")?,
    );
    Ok(text.as_str() == copied.as_str())
}

/// Clones what is held, and prints whether a clone is like the original. Returns whether memory was there.
pub fn clone<D, P: Clone + Debug + Drop, Q: Clone + Debug + Drop>(
    rt: &HostRuntime,
    case: &Case<'_>,
    held: &Held<D, P, Q>,
) -> Result<bool> {
    let alloc = rt.alloc();
    match case.call {
        "clone_matrices" => shown(rt, is_alike(alloc, &held.matrices, held.matrices.clone())),
        "clone_cap" => shown(rt, is_alike(alloc, &held.cap, held.cap.clone())),
        "clone_opening" => shown(rt, is_alike(alloc, &held.opening, held.opening.clone())),
        "clone_multi" => shown(rt, is_alike(alloc, &held.multi, held.multi.clone())),
        _ => bail!("no such clone"),
    }
}

/// The first rows of the matrices, one after another.
fn first_rows(alloc: Global, matrices: &[Rows]) -> Result<Vec<u32>, MerkleTreeError> {
    let mut words = Vec::new(alloc);
    for matrix in matrices {
        if matrix.height() > 0 {
            matrix.append_row(0, &mut words)?;
        }
    }
    Ok(words)
}

/// Builds a tree, and returns its leaves, and whether a clone is like it.
fn tree_of(
    alloc: Global,
    matrices: Vec<Rows>,
) -> Result<(MerkleCap<u32, [u32; 1]>, bool), MerkleTreeError> {
    let (hash, compress) = (FoldHash::<1>, FoldCompress::<2, 1>);
    let tree: MerkleTree<u32, u32, Rows, 2, 1> = MerkleTree::new::<u32, u32, _, _>(
        alloc, &hash, &compress, matrices,
    )?;
    let leaves = tree.cap(alloc, tree.num_layers() - 1)?;
    Ok((leaves, is_alike(alloc, &tree, tree.clone())?))
}

/// Makes a call of matrices, or of a tree over them. A random one has six words of a generator that has given none yet.
pub fn call_matrices(rt: &HostRuntime, case: &Case<'_>, generator: &mut Counting) -> Result<bool> {
    let alloc = rt.alloc();
    match case.call {
        "rand" => {
            let answer = RowMajorMatrix::<u32>::rand(alloc, generator, 3, 2);
            shown(rt, answer.map_err(MerkleTreeError::from))
        }
        "tree" => match case.matrices.clone() {
            Ok(matrices) => shown(rt, tree_of(alloc, matrices)),
            Err(_) => Ok(false),
        },
        "append_row" => shown(rt, first_rows(alloc, &case.matrices)),
        _ => shown(
            rt,
            dimensions_of(alloc, &case.matrices).map_err(MerkleTreeError::from),
        ),
    }
}
