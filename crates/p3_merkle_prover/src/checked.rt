//! Matrices that a tree can be built over, and the tree over them. Their heights are lawful: each is the tallest one
//! halved, and each time rounded up, some number of times.

ghost use Rattle.std.specs.Prelude.{◌≡◌, ◌≤◌, IfOk, IsTrue, replicate};
ghost use Rattle.p3_support.specs.Batches.{dimensions_in, heights_of};
ghost use Rattle.p3_merkle_core.specs.Gate.{gate_refusal};
ghost use Rattle.p3_merkle_core.specs.Geometry.{is_arity, IsLawful};
ghost use Rattle.p3_merkle_core.specs.Nodes.{functions_of, layers as layers_over};
ghost use Rattle.p3_merkle_core.specs.Refusals.{AnswersUnlessMemory};
ghost use Rattle.p3_merkle_core.specs.Views.{heights_in};
ghost use Rattle.p3_merkle_prover.specs.Parts.{layers_of, matrices_of, tree_batch};

use crate::layers::MerkleTreeBuilder;
use crate::tree::{MerkleTree, Tree};
use p3_merkle_core::error::MerkleTreeError;
use p3_merkle_core::gate::check_heights;
use p3_merkle_core::schedule::OwnedSchedule;
use p3_support::compress::PseudoCompressionFunction;
use p3_support::hasher::CryptographicHasher;
use p3_support::matrix::{Dimensions, Matrix, dimensions_of};
use p3_support::packed::PackedValue;
use std::alloc::{AllocError, Global};
use std::marker::PhantomData;

/// Matrices of lawful heights, and their dimensions, in input order.
#[derive(Drop)]
pub struct CheckedMatrices<T, M: Matrix<T>> {
    /// The matrices.
    pub matrices: Vec<M>,
    /// The dimensions of each.
    pub dimensions: Vec<Dimensions>,
    /// Marks the type of the values.
    pub item: PhantomData<T>,
    ghost own: { dimensions.items ≡ dimensions_in M.height_of M.width_of matrices.items },
    ghost lawful: { IsLawful (heights_of dimensions.items) },
}

/// Checks that heights of matrices are lawful, and returns the matrices with their dimensions.
///
/// # Errors
///
/// Those of [`check_heights`]. `OutOfMemory` may come at any time.
pub fn checked_matrices<T, M: Matrix<T> + Drop>(
    alloc: Global,
    matrices: Vec<M>,
) -> Result<CheckedMatrices<T, M>, MerkleTreeError>
    ensures answer { AnswersUnlessMemory result
        (gate_refusal (heights_in M.height_of M.width_of M.row_of matrices.items)) }
    ensures matrices { IfOk result (λ checked. checked.matrices.items ≡ matrices.items) }
{
    let dimensions = dimensions_of(alloc, &matrices)?;
    check_heights(&dimensions)?;
    Ok(CheckedMatrices {
        matrices,
        dimensions,
        item: PhantomData,
    })
}

/// Builds the tree over the matrices of `checked`: computes how many children the nodes of each layer have, then the
/// layers. `N` must be a power of two from 2 to 2^62, and both packings must have equally many lanes, at least one.
///
/// # Errors
///
/// `AllocError` if memory runs out.
pub fn tree_over<
    P: PackedValue,
    PW: PackedValue,
    H: CryptographicHasher<P, PW, D>,
    C: PseudoCompressionFunction<PW, N, D>,
    M: Matrix<P::Value> + Drop,
    const N: usize,
    const D: usize,
>(
    alloc: Global,
    hash: &H,
    compress: &C,
    checked: CheckedMatrices<P::Value, M>,
) -> Result<MerkleTree<P::Value, PW::Value, M, N, D>, AllocError>
    requires arity { IsTrue (is_arity N) }
    requires lanes { P.WIDTH ≡ PW.WIDTH }
    requires some_lane { 1 ≤ P.WIDTH }
    ensures matrices { IfOk result (λ tree. matrices_of tree ≡ checked.matrices.items) }
    ensures layers { let f = functions_of (H.hash hash.now) (C.compression compress.now)
        (replicate D PW.default_value) in
        IfOk result (λ tree. layers_of tree ≡ layers_over f (tree_batch tree)) }
{
    let CheckedMatrices {
        matrices,
        dimensions,
        ..
    } = checked;
    let kept = OwnedSchedule::new(dimensions, N);
    let schedule = kept.schedule();
    let builder = MerkleTreeBuilder::<P, PW, H, C, M, N, D> {
        hash,
        compress,
        matrices: &matrices,
        schedule: &schedule,
        item: PhantomData,
    };
    let layers = builder.layers(alloc)?;
    Ok(Tree {
        matrices,
        schedule: kept,
        layers,
        item: PhantomData,
    })
}
