//! Trees that are built in different ways, and all their layers.

ghost use Rattle.std.specs.Prelude.{◌≤◌, IsTrue};
ghost use Rattle.p3_merkle_core.specs.Geometry.{is_arity};

use crate::case::{Case, Fault};
use crate::field::{Item, show_list};
use crate::matrices::{Word, matrices_in};
use p3_hashes::batched::Batched3;
use p3_hashes::fold::{FoldCompress, FoldHash};
use p3_hashes::lanes::{Lanes, U32x8};
use p3_hashes::sha::{Sha256Nodes, Sha256Rows};
use p3_hashes::sha_eights::{Sha256NodesInEights, Sha256RowsInEights};
use p3_merkle_tree::{MerkleCap, MerkleTree, MerkleTreeError};
use p3_support::compress::PseudoCompressionFunction;
use p3_support::hasher::CryptographicHasher;
use p3_support::matrix::{Matrix, RowMajorMatrix};
use p3_support::packed::PackedValue;
use std::alloc::Global;

/// A tree over matrices of words `T`, with digests of `D` words.
type Tree<T, const N: usize, const D: usize> = MerkleTree<T, T, RowMajorMatrix<T>, N, D>;

/// The layers of a tree, the leaves first.
pub fn layers_of<T: Copy, M: Matrix<T> + Drop, const N: usize, const D: usize>(
    alloc: Global,
    tree: &MerkleTree<T, T, M, N, D>,
) -> Result<Vec<MerkleCap<T, [T; D]>>, MerkleTreeError> {
    let mut layers = Vec::new(alloc);
    for below in (0..tree.num_layers()).rev() {
        layers.push(tree.cap(alloc, below)?)?;
    }
    Ok(layers)
}

/// The tree over some matrices that the builders of these functions and packed values make.
fn built<
    T: Word,
    P: PackedValue<Value = T>,
    H: CryptographicHasher<P, P, D>,
    C: PseudoCompressionFunction<P, N, D>,
    const N: usize,
    const D: usize,
>(alloc: Global, hash: &H, compress: &C, matrices: &str) -> Result<Tree<T, N, D>, Fault>
    requires arity { IsTrue (is_arity N) }
    requires some_lane { 1 ≤ P.WIDTH }
{
    let matrices = matrices_in(alloc, matrices)?;
    Ok(MerkleTree::new::<P, P, H, C>(alloc, hash, compress, matrices)?)
}

/// Fails where two trees differ in a layer.
fn check_alike<T: Word, const N: usize, const D: usize>(
    alloc: Global,
    tree: &Tree<T, N, D>,
    other: &Tree<T, N, D>,
) -> Result<(), Fault> {
    if layers_of(alloc, tree)? != layers_of(alloc, other)? {
        return Err(Fault::Wrong("another builder makes another layer"));
    }
    Ok(())
}

/// The digest by SHA-256 of all layers of a tree: the digests of each with a space between, and an LF after them, from
/// the root to the leaves.
fn digest_of_layers<T: Word, const N: usize, const D: usize>(
    alloc: Global,
    tree: &Tree<T, N, D>,
) -> Result<[u8; 32], Fault>
where
    [T; D]: Item,
{
    let mut text = String::new(alloc);
    tree.root().value().show(&mut text)?;
    text.push_str("\n")?;
    for layer in layers_of(alloc, tree)?.iter().rev().skip(1) {
        show_list(layer.roots(), &mut text)?;
        text.push_str("\n")?;
    }
    Ok(Sha256Rows.hash_slice(text.as_bytes()))
}

/// Writes how many layers a tree has and their digest. Fails where another tree has other layers.
fn write_layers<T: Word, const N: usize, const D: usize>(
    case: &mut Case<'_>,
    tree: &Tree<T, N, D>,
    others: &[Tree<T, N, D>],
) -> Result<(), Fault>
where
    [T; D]: Item,
{
    for other in others {
        check_alike(case.alloc, tree, other)?;
    }
    case.write(&tree.num_layers())?;
    case.list(&[digest_of_layers(case.alloc, tree)?])
}

/// `layers | ARITY | MATRICES | LAYERS | DIGEST`: how many layers a tree has, and their digest. A clone of the tree has
/// the same layers. So has the tree if it is built once more, and by each other builder: in lanes of two and of eight,
/// in batches of eight and of three.
pub fn layers<const N: usize>(case: &mut Case<'_>) -> Result<(), Fault>
    requires arity { IsTrue (is_arity N) }
    requires few { N ≤ 16 }
{
    let (alloc, matrices) = (case.alloc, case.take());
    let (hash, compress) = (FoldHash::<1>, FoldCompress::<N, 1>);
    let tree = built::<u32, u32, _, _, N, 1>(alloc, &hash, &compress, matrices)?;
    let others = [
        tree.clone()?,
        built::<u32, u32, _, _, N, 1>(alloc, &hash, &compress, matrices)?,
        built::<u32, Lanes<u32>, _, _, N, 1>(alloc, &hash, &compress, matrices)?,
        built::<u32, U32x8, _, _, N, 1>(alloc, &hash, &compress, matrices)?,
        built::<u32, u32, _, _, N, 1>(alloc, &FoldHash::<8>, &FoldCompress::<N, 8>, matrices)?,
        built::<u32, u32, _, _, N, 1>(alloc, &Batched3(hash), &Batched3(compress), matrices)?,
    ];
    write_layers(case, &tree, &others)
}

/// `sha256_layers | ARITY | MATRICES | LAYERS | DIGEST`: the same of trees over bytes, one message at a time, in eights
/// and by three.
pub fn sha256_layers<const N: usize>(case: &mut Case<'_>) -> Result<(), Fault>
    requires arity { IsTrue (is_arity N) }
    requires few { N ≤ 16 }
{
    let (alloc, matrices) = (case.alloc, case.take());
    let (hash, compress) = (Sha256Rows, Sha256Nodes::<N>);
    let (eights, nodes) = (Sha256RowsInEights, Sha256NodesInEights::<N>);
    let tree = built::<u8, u8, _, _, N, 32>(alloc, &hash, &compress, matrices)?;
    let others = [
        tree.clone()?,
        built::<u8, u8, _, _, N, 32>(alloc, &hash, &compress, matrices)?,
        built::<u8, u8, _, _, N, 32>(alloc, &eights, &nodes, matrices)?,
        built::<u8, u8, _, _, N, 32>(alloc, &Batched3(hash), &Batched3(compress), matrices)?,
    ];
    write_layers(case, &tree, &others)
}
