//! The layers of a tree, one above the other, from the leaves to the root.
//!
//! Each matrix belongs to one layer by its height, the tallest to the leaves. The matrices of a layer are picked once,
//! and its rows are read from those alone.

ghost use Rattle.std.specs.Prelude.{◌≡◌, All, IfOk, map, filter, length, replicate, ◌==◌};
ghost use Rattle.p3_merkle_core.specs.Computed.{Computes};
ghost use Rattle.p3_merkle_core.specs.Geometry.{layer_len, shape_of};
ghost use Rattle.p3_merkle_core.specs.Inner.Levels.{IsLevel};
ghost use Rattle.p3_merkle_core.specs.Views.{batch_of};
ghost use Rattle.p3_merkle_core.specs.Nodes.{layer, layers as layers_over};
ghost use Rattle.p3_merkle_prover.specs.Inner.Levels.{CanBuild, HasChildren};

use crate::layer::{Buffers, LayerBuilder};
use p3_merkle_core::geometry::padded_len;
use p3_merkle_core::layer_shape::LayerShape;
use p3_merkle_core::schedule::Schedule;
use p3_merkle_hashing::rows::LayerRows;
use p3_support::compress::PseudoCompressionFunction;
use p3_support::hasher::CryptographicHasher;
use p3_support::matrix::Matrix;
use p3_support::packed::PackedValue;
use std::alloc::{AllocError, Global};
use std::marker::PhantomData;

/// Builds the layers of a tree, with a hasher for rows and a compression of `N` digests for nodes. `G` is the type of a
/// group. [`MerkleTreeBuilder`] is this builder at digests of words.
///
/// `N` is a power of two from 2 to 2^62, [`check_heights`](p3_merkle_core::gate::check_heights) accepts the heights,
/// and both packings have equally many lanes.
#[derive(Drop)]
pub(crate) struct GenericTreeBuilder<
    'a,
    P: PackedValue,
    PW: PackedValue,
    H: CryptographicHasher<P, PW, D>,
    C: PseudoCompressionFunction<PW, N, D>,
    M: Matrix<P::Value>,
    G,
    const N: usize,
    const D: usize,
> {
    /// The hasher of rows.
    pub hash: &'a H,
    /// The compression of the children of a node.
    pub compress: &'a C,
    /// The matrices, in input order.
    pub matrices: &'a [M],
    /// The steps of the tree.
    pub schedule: &'a Schedule<'a>,
    /// Marks the packings of words and the type of a group.
    pub item: PhantomData<(P, PW, G)>,
    ghost lanes: { P.WIDTH ≡ PW.WIDTH },
    ghost build: { CanBuild (batch_of M.height_of M.width_of M.row_of N matrices.now) schedule.now.dimensions.now },
    ghost arity: { schedule.now.arity ≡ N },
    ghost functions: { Computes (H.hash hash.now) (C.compression compress.now) PW.default_value },
}

/// The builder of layers whose digests have `D` words.
pub(crate) type MerkleTreeBuilder<
    'a,
    P: PackedValue,
    PW: PackedValue,
    H: CryptographicHasher<P, PW, D>,
    C: PseudoCompressionFunction<PW, N, D>,
    M: Matrix<P::Value>,
    const N: usize,
    const D: usize,
> = GenericTreeBuilder<'a, P, PW, H, C, M, [[PW::Value; D]; N], N, D>;

/// Replaces the contents of `picked` by the matrices that have `height` rows, in input order. `AllocError` if memory
/// runs out.
fn pick_matrices<'a, T, M: Matrix<T>>(
    picked: &mut Vec<&'a M>,
    matrices: &'a [M],
    height: usize,
) -> Result<(), AllocError>
    ensures { IfOk result
        (λ done. map (λ m. m.now) picked.new.items ≡ filter (λ m. M.height_of m == height) matrices.now) }
{
    picked.clear();
    picked.extend(matrices.iter().filter(|matrix| matrix.height() == height))
}

/// A list of `count` default digests. `AllocError` if memory runs out.
fn default_digests<PW: PackedValue, const D: usize>(
    alloc: Global,
    count: usize,
) -> Result<Vec<[PW::Value; D]>, AllocError>
    ensures len { IfOk result (λ digests. length digests.items ≡ count) }
    ensures default { IfOk result (λ digests. All (λ x. x ≡ replicate D PW.default_value) digests.items) }
{
    let mut digests = Vec::new(alloc);
    digests.resize(count, [PW::Value::default(); D])?;
    Ok(digests)
}

/// States that the layer `below` has the children of each node of the layer above it. `level` must be the shape of the
/// layer above in the tree, and `below` must have all slots of its layer, padding included.
fn lemma_children<X>(schedule: &Schedule<'_>, level: &LayerShape, below: &[X])
    requires level { IsLevel (shape_of schedule.now.arity schedule.now.dimensions.now) level.now }
    requires slots { length below.now
        ≡ layer_len (shape_of schedule.now.arity schedule.now.dimensions.now) level.now.below }
    ensures { HasChildren schedule.now.arity level.now (length below.now) }
{}

impl<
    'a,
    P: PackedValue,
    PW: PackedValue,
    H: CryptographicHasher<P, PW, D>,
    C: PseudoCompressionFunction<PW, N, D>,
    M: Matrix<P::Value>,
    const N: usize,
    const D: usize,
> MerkleTreeBuilder<'a, P, PW, H, C, M, N, D> {
    ghost use Rattle.p3_merkle_prover.specs.Inner.Slots.{batch_for, functions_for, layer_above};

    /// The leaves: the digests of the rows of the tallest matrices, then default digests. `picked` and `buffers` are
    /// scratch memory that all layers share. `AllocError` if memory runs out.
    fn leaf_layer(
        &self,
        alloc: Global,
        picked: &mut Vec<&'a M>,
        buffers: &mut Buffers<P::Value, [PW::Value; D], [[PW::Value; D]; N]>,
    ) -> Result<Vec<[PW::Value; D]>, AllocError>
        ensures { IfOk result (λ v. v.items ≡ layer (functions_for self.now) (batch_for self.now) 0) }
    {
        let height = self.schedule.max_height;
        pick_matrices(picked, self.matrices, height)?;
        let rows = LayerRows {
            hash: self.hash,
            matrices: picked.as_slice(),
            height,
            item: PhantomData,
        };
        let mut leaves = default_digests::<PW, D>(alloc, padded_len(height, N))?;
        rows.fill(&mut buffers.staged, 0, &mut leaves)?;
        Ok(leaves)
    }

    /// The layer of the shape `level`, which stands above `below`. `below` must have the children of each node of that
    /// layer. `picked` and `buffers` are scratch memory that all layers share. `AllocError` if memory runs out.
    fn next_layer(
        &self,
        alloc: Global,
        picked: &mut Vec<&'a M>,
        buffers: &mut Buffers<P::Value, [PW::Value; D], [[PW::Value; D]; N]>,
        level: LayerShape,
        below: &[[PW::Value; D]],
    ) -> Result<Vec<[PW::Value; D]>, AllocError>
        requires { HasChildren self.now.schedule.now.arity level (length below.now) }
        ensures { IfOk result (λ v. v.items ≡ layer_above self.now level below.now) }
    {
        pick_matrices(picked, self.matrices, level.height)?;
        let rows = LayerRows {
            hash: self.hash,
            matrices: picked.as_slice(),
            height: level.height,
            item: PhantomData,
        };
        let builder = LayerBuilder::<P, PW, H, C, &M, N, D> {
            rows,
            compress: self.compress,
            level,
            below,
            item: PhantomData,
        };
        let mut slots = default_digests::<PW, D>(alloc, level.layer_len)?;
        builder.fill(buffers, &mut slots)?;
        Ok(slots)
    }

    /// All layers, from the leaves to the root.
    ///
    /// # Errors
    ///
    /// `AllocError` if memory runs out.
    pub(crate) fn layers(&self, alloc: Global) -> Result<Vec<Vec<[PW::Value; D]>>, AllocError>
        ensures { let all = layers_over (functions_for self.now) (batch_for self.now) in
            IfOk result (λ layers. map (λ nodes. nodes.items) layers.items ≡ all) }
    {
        let mut exponent = self.schedule.exponent;
        let mut len = self.schedule.max_height;
        let mut picked = Vec::new(alloc);
        let mut buffers = Buffers::new(alloc);
        let leaves = self.leaf_layer(alloc, &mut picked, &mut buffers)?;
        let mut layers = Vec::with_capacity(alloc, self.schedule.num_levels + 1)?;
        layers.push(leaves)?;
        for below in 0..self.schedule.num_levels {
            let level = self.schedule.layer_above(below, exponent, len);
            let nodes = layers[below].as_slice();
            lemma_children(self.schedule, &level, nodes);
            let layer = self.next_layer(alloc, &mut picked, &mut buffers, level, nodes)?;
            layers.push(layer)?;
            exponent = level.exponent;
            len = level.raw_len;
        }
        Ok(layers)
    }
}
