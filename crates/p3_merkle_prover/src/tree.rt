//! The tree over a batch of matrices.

ghost use Rattle.std.specs.Prelude.{◌≡◌, suc, ◌+◌, ◌-◌, ◌<◌, ◌≤◌, [], ◌∷◌, All, IfOk, IsTrue, MatchResult, Some, map};
ghost use Rattle.std.specs.Prelude.{length, replicate, slice_get};
ghost use Rattle.std.specs.List.{AllZip, range_with_len};
ghost use Rattle.p3_merkle_core.specs.Geometry.{heights, is_arity, layer_below_root, layer_len, levels, shape_of};
ghost use Rattle.p3_merkle_core.specs.Geometry.{IsArity, IsLawful};
ghost use Rattle.p3_merkle_core.specs.Gate.{gate_refusal};
ghost use Rattle.p3_merkle_core.specs.Nodes.{functions_of, layers as layers_over, shape};
ghost use Rattle.p3_merkle_core.specs.declared.error.MerkleTreeError.TheVariants.{OutOfMemory};
ghost use Rattle.p3_merkle_core.specs.Refusals.{AnswersUnlessMemory};
ghost use Rattle.p3_merkle_core.specs.Views.{batch_of, ClonesShowTheSame};

use crate::checked::{checked_matrices, tree_over};
use crate::opener::cap_at;
use p3_merkle_core::error::MerkleTreeError;
use p3_merkle_core::schedule::OwnedSchedule;
use p3_support::compress::PseudoCompressionFunction;
use p3_support::hasher::CryptographicHasher;
use p3_support::matrix::Matrix;
use p3_support::opening::{Hash, MerkleCap};
use p3_support::packed::PackedValue;
use std::alloc::{AllocError, Global};
use std::marker::PhantomData;

/// A Merkle tree over matrices `M` of values `F`: digests `X` in layers, from the leaves to the root, where each node
/// is a compression of a group `G` of `N` digests. [`MerkleTree`] is this tree at digests of words.
///
/// The heights of its matrices are lawful, and its layers have the lengths that those heights give. It stores the steps
/// between them, so that no opening computes them again.
#[derive(Debug, Drop)]
pub struct Tree<F, X, G, M: Matrix<F>, const N: usize> {
    pub(crate) matrices: Vec<M>,
    pub(crate) schedule: OwnedSchedule,
    pub(crate) layers: Vec<Vec<X>>,
    pub(crate) item: PhantomData<(F, G)>,
    ghost arity: { IsArity N },
    ghost lawful: { IsLawful (heights (shape (batch_of M.height_of M.width_of M.row_of N matrices.items))) },
    ghost layer_lengths: { let s = shape (batch_of M.height_of M.width_of M.row_of N matrices.items) in
        map (λ nodes. length nodes.items) layers.items ≡ map (layer_len s) (range_with_len 0 (suc (levels s))) },
    ghost own_shape: { shape_of schedule.arity schedule.dimensions.items
        ≡ shape (batch_of M.height_of M.width_of M.row_of N matrices.items) },
}

/// A tree over matrices of values `F`, with digests of `D` words `W`, where a node has at most `N` children
/// (`MerkleTree` in Plonky3).
pub type MerkleTree<F, W, M, const N: usize, const D: usize> = Tree<F, [W; D], [[W; D]; N], M, N>;

impl<F: Copy, W: Copy, M: Matrix<F> + Drop, const N: usize, const D: usize> MerkleTree<
    F,
    W,
    M,
    N,
    D,
> {
    ghost use Rattle.p3_merkle_prover.specs.Parts.{layers_of, matrices_of, tree_batch};

    /// Builds the tree over matrices, which it owns from then on, in input order. Leaf `i` is the digest of the rows
    /// `i` of the tallest matrices, one after another. A node above is the compression of its children. Each other
    /// matrix belongs to a layer by its height: there a node's digest is compressed once more, with that of its rows.
    /// Default digests stand for missing children, for rows past the end of a matrix, and as padding.
    ///
    /// `N` must be a power of two from 2 to 2^62, and both packings must have equally many lanes, at least one.
    ///
    /// `LANES` and the packings decide which calls fill a layer, and the tree does not depend on them:
    ///
    /// - The leaves are hashed in batches (`hash_many`) if the hasher's `LANES` are above 1.
    /// - A layer above them is compressed in batches (`compress_many`) if the compression's `LANES` are above 1; if
    ///   matrices belong to it, the hasher's must be, too, and their rows are hashed in batches.
    /// - Every other layer is filled lane by lane (`hash_packed`, `compress_packed`), `WIDTH` digests a call, as far as
    ///   they fill all lanes, and then in batches; if `WIDTH` is 1 in batches alone.
    ///
    /// A batch may be a single row: `hash_slice` hashes it, or `hash_iter_slices` if a lone matrix stores it in two
    /// pieces.
    ///
    /// # Errors
    ///
    /// The first of these that applies, where `OutOfMemory` may come at any time:
    ///
    /// - `EmptyBatch` if no matrix has a row;
    /// - `TooLarge` for the first height above 2^62;
    /// - `IncompatibleHeights` for the first height that is not the tallest one halved and rounded up some number of
    ///   times.
    pub fn new<
        P: PackedValue<Value = F>,
        PW: PackedValue<Value = W>,
        H: CryptographicHasher<P, PW, D>,
        C: PseudoCompressionFunction<PW, N, D>,
    >(alloc: Global, hash: &H, compress: &C, leaves: Vec<M>) -> Result<Self, MerkleTreeError>
        requires arity { IsTrue (is_arity N) }
        requires lanes { P.WIDTH ≡ PW.WIDTH }
        requires some_lane { 1 ≤ P.WIDTH }
        ensures answer { let b = batch_of M.height_of M.width_of M.row_of N leaves.items in
            AnswersUnlessMemory result (gate_refusal (heights (shape b))) }
        ensures matrices { IfOk result (λ tree. matrices_of tree ≡ leaves.items) }
        ensures layers { let f = functions_of (H.hash hash.now) (C.compression compress.now)
            (replicate D PW.default_value) in
            IfOk result (λ tree. layers_of tree ≡ layers_over f (tree_batch tree)) }
    {
        let checked = checked_matrices(alloc, leaves)?;
        let tree = tree_over::<P, PW, H, C, M, N, D>(alloc, hash, compress, checked)?;
        Ok(tree)
    }
}

impl<F: Copy, W: Copy, M: Matrix<F>, const N: usize, const D: usize> MerkleTree<F, W, M, N, D> {
    ghost use Rattle.p3_support.specs.Shown.{digest_of_ref, roots_of};
    ghost use Rattle.p3_merkle_prover.specs.Parts.{layers_of, matrices_of, tree_batch};

    /// The root: the one node of the last layer.
    pub fn root(&self) -> Hash<'_, F, W, D>
        ensures { slice_get (layers_of self.now) (levels (shape (tree_batch self.now))) ≡
            Some (digest_of_ref result ∷ []) }
    {
        let top = &self.layers[self.num_layers() - 1];
        Hash::from(&top[0])
    }

    /// The number of layers, leaves and root included. It is at least 1.
    pub fn num_layers(&self) -> usize
        ensures count { result ≡ length (layers_of self.now) }
        ensures levels { result ≡ levels (shape (tree_batch self.now)) + 1 }
    {
        self.layers.len()
    }

    /// The cap of this height: the whole layer `cap_height` levels below the root, padding included. `cap_height` must
    /// be below `num_layers()`; 0 is the root alone.
    ///
    /// # Errors
    ///
    /// Only `OutOfMemory`.
    pub fn cap(
        &self,
        alloc: Global,
        cap_height: usize,
    ) -> Result<MerkleCap<F, [W; D]>, MerkleTreeError>
        requires { cap_height < length (layers_of self.now) }
        ensures { let layer = slice_get (layers_of self.now)
            (layer_below_root (shape (tree_batch self.now)) cap_height) in
            MatchResult result (λ cap. layer ≡ Some (roots_of cap)) (λ e. e ≡ OutOfMemory) }
    {
        let cap = cap_at(alloc, self, self.num_layers() - 1 - cap_height)?;
        Ok(cap)
    }

    /// A tree with clones of the matrices, and the same layers. A clone of a matrix must have the same height, width
    /// and rows. The copy opens what the tree opens.
    ///
    /// # Errors
    ///
    /// `AllocError` if memory runs out.
    pub fn clone(&self) -> Result<Self, AllocError>
    where
        M: Clone + Drop,
        requires { All (ClonesShowTheSame M.height_of M.width_of M.row_of M.is_clone) (matrices_of self.now) }
        ensures matrices { IfOk result (λ tree. AllZip M.is_clone (matrices_of self.now) (matrices_of tree)) }
        ensures batch { IfOk result (λ tree. tree_batch tree ≡ tree_batch self.now) }
        ensures layers { IfOk result (λ tree. layers_of tree ≡ layers_of self.now) }
    {
        let alloc = *self.matrices.allocator();
        Ok(Tree {
            matrices: self.matrices.clone()?,
            schedule: self.schedule.clone()?,
            layers: copies_of(alloc, &self.layers)?,
            item: PhantomData,
        })
    }
}

/// A copy of each layer, in order. `AllocError` if memory runs out.
fn copies_of<X: Copy>(alloc: Global, layers: &[Vec<X>]) -> Result<Vec<Vec<X>>, AllocError>
    ensures { IfOk result (λ copies. map (λ nodes. nodes.items) copies.items ≡ map (λ nodes. nodes.items) layers.now) }
{
    let mut copies = Vec::with_capacity(alloc, layers.len())?;
    for nodes in layers {
        copies.push(Vec::from_slice(alloc, nodes)?)?;
    }
    Ok(copies)
}
