//! Builds one layer of a tree from the layer below it.
//!
//! Slots are filled from the first to the last. Packed calls fill the first ones, one node in each lane; calls that
//! take many messages fill the others.

ghost use Rattle.std.specs.Prelude.{◌≡◌, ℕ, ◌+◌, ◌*◌, ◌<◌, ◌≤◌, All, IfOk, map, length, replicate, true};
ghost use Rattle.std.specs.List.{range_with_len};
ghost use Rattle.std.specs.Mem.{FitsInMemory};
ghost use denote.Param.{ArrayAt};
ghost use Rattle.p3_support.specs.Lists.{lane_of};
ghost use Rattle.p3_merkle_core.specs.Computed.{Computes};
ghost use Rattle.p3_merkle_prover.specs.Inner.Levels.{HasChildren};
ghost use Rattle.p3_merkle_hashing.specs.Inner.Slots.{IsFilled};

use p3_merkle_core::layer_shape::LayerShape;
use p3_merkle_hashing::calls::packed_block_count;
use p3_merkle_hashing::nodes::{
    compress_children, compress_children_packed, compress_pairs_packed, inject_row_digests,
};
use p3_merkle_hashing::rows::LayerRows;
use p3_support::compress::PseudoCompressionFunction;
use p3_support::hasher::CryptographicHasher;
use p3_support::matrix::Matrix;
use p3_support::packed::{PackedValue, unpack_at};
use std::alloc::{AllocError, Global};
use std::marker::PhantomData;

/// Builds a layer above the layer below it, over the rows of its matrices, with a compression of `N` digests for nodes.
/// `X` is the type of a digest, and `G` that of a group. [`LayerBuilder`] is this builder at digests of words.
#[derive(Drop)]
pub(crate) struct GenericLayerBuilder<
    'a,
    'b,
    P: PackedValue,
    PW: PackedValue,
    H: CryptographicHasher<P, PW, D>,
    C: PseudoCompressionFunction<PW, N, D>,
    M: Matrix<P::Value>,
    X,
    G,
    const N: usize,
    const D: usize,
> {
    /// The rows of the matrices that belong to the layer.
    pub rows: LayerRows<'a, P, PW, H, M, X>,
    /// The compression of the children of a node.
    pub compress: &'a C,
    /// The step from the layer below, and the shape of the layer.
    pub level: LayerShape,
    /// The digests of the layer below.
    pub below: &'b [X],
    /// Marks the type of a group.
    pub item: PhantomData<G>,
    ghost lanes: { P.WIDTH ≡ PW.WIDTH },
    ghost children: { HasChildren N level (length below.now) },
    ghost functions: { Computes (H.hash rows.hash.now) (C.compression compress.now) PW.default_value },
}

/// The builder of a layer whose digests have `D` words.
pub(crate) type LayerBuilder<
    'a,
    'b,
    P: PackedValue,
    PW: PackedValue,
    H: CryptographicHasher<P, PW, D>,
    C: PseudoCompressionFunction<PW, N, D>,
    M: Matrix<P::Value>,
    const N: usize,
    const D: usize,
> = GenericLayerBuilder<'a, 'b, P, PW, H, C, M, [PW::Value; D], [[PW::Value; D]; N], N, D>;

/// Scratch memory that all layers of a tree share. What it holds between two layers does not matter.
#[derive(Drop)]
pub(crate) struct Buffers<T, X, G> {
    /// Rows, for calls that hash many.
    pub staged: Vec<T>,
    /// The digests of a layer's rows.
    pub digests: Vec<X>,
    /// Groups of digests, for calls that compress many.
    pub groups: Vec<G>,
}

impl<T, X, G> Buffers<T, X, G> {
    /// Empty buffers. This does not allocate.
    pub(crate) fn new(alloc: Global) -> Buffers<T, X, G> {
        Buffers {
            staged: Vec::new(alloc),
            digests: Vec::new(alloc),
            groups: Vec::new(alloc),
        }
    }
}

/// States that `below` has the children of the `count` nodes from `first` on, so that
/// [`fill`](GenericLayerBuilder::fill) may begin to read there. The layer above `below`, of the shape `level`, must
/// have these nodes, and `below` the children of each node of that layer. `arity` is how many children a node has at
/// most.
fn lemma_children_from<X>(arity: usize, level: &LayerShape, below: &[X], first: usize, count: usize)
    requires children { HasChildren arity level.now (length below.now) }
    requires nodes { first + count ≤ level.now.raw_len }
    ensures { level.now.step * first + level.now.step * count ≤ length below.now }
{}

impl<
    'a,
    'b,
    P: PackedValue,
    PW: PackedValue,
    H: CryptographicHasher<P, PW, D>,
    C: PseudoCompressionFunction<PW, N, D>,
    M: Matrix<P::Value>,
    const N: usize,
    const D: usize,
> LayerBuilder<'a, 'b, P, PW, H, C, M, N, D> {
    ghost use Rattle.p3_merkle_prover.specs.Inner.Slots.{slot_of};

    /// The digests of the `PW::WIDTH` nodes from `first` on, one in each lane. The layer must have these nodes and, if
    /// matrices belong to it, a row for each. A packed group of `N` digests must have fewer than 2^63 bytes.
    fn packed_digest(&self, first: usize) -> [PW; D]
        requires group { FitsInMemory (ArrayAt (ArrayAt PW.row D.row) N.row) }
        requires nodes { first + PW.WIDTH ≤ self.now.level.raw_len }
        requires rows { self.now.level.has_rows ≡ true → first + PW.WIDTH ≤ self.now.rows.height }
        ensures { (k : ℕ) → k < PW.WIDTH →
            lane_of PW.lanes PW.default_value k result ≡ slot_of self.now (first + k) }
    {
        let folded = compress_children_packed::<PW, C, N, D>(
            self.compress,
            self.below,
            self.level.step,
            first,
        );
        if !self.level.has_rows {
            return folded;
        }
        let rows = self.rows.packed_digest(first);
        compress_pairs_packed::<PW, C, N, D>(self.compress, folded, rows)
    }

    /// Fills `slots` with the layer's nodes. All slots must have default digests before; those past the nodes keep
    /// them.
    ///
    /// Constants choose how:
    ///
    /// - If the compression, and the hasher if matrices belong to the layer, have `LANES` above 1, all nodes are made
    ///   many a call.
    /// - Else the first nodes are made one in each lane of a call ([`packed_digest`](Self::packed_digest)), as far as
    ///   they, and the rows that belong to them, fill all lanes. With a `WIDTH` of 1 this is none.
    /// - Nodes that are left over are made many a call, where a function with `LANES` 1 takes one after another.
    ///
    /// # Errors
    ///
    /// `AllocError` if memory runs out, or if the rows of one call have 2^64 words or more.
    pub(crate) fn fill(
        &self,
        buffers: &mut Buffers<P::Value, [PW::Value; D], [[PW::Value; D]; N]>,
        slots: &mut [[PW::Value; D]],
    ) -> Result<(), AllocError>
        requires { All (λ digest. digest ≡ replicate D PW.default_value) slots.old }
        ensures { IfOk result (λ done. slots.new ≡ map (slot_of self.now) (range_with_len 0 (length slots.old))) }
    {
        let has_rows = self.level.has_rows;
        let step = self.level.step;
        let end = self.level.raw_len.min(slots.len());
        let nodes = &mut slots[..end];
        let in_batches = C::LANES > 1 && (!has_rows || H::LANES > 1);
        let mut in_lanes = if in_batches { 0 } else { end };
        if has_rows {
            in_lanes = in_lanes.min(self.rows.height);
        }
        let blocks = packed_block_count::<PW, N, D>(in_lanes);
        for block in 0..blocks {
            let first = block * PW::WIDTH;
            let packed = self.packed_digest(first);
            unpack_at(&packed, nodes, first);
        }
        let done = blocks * PW::WIDTH;
        let rest = &mut nodes[done..];
        let Buffers {
            staged,
            digests,
            groups,
        } = buffers;
        lemma_children_from(N, &self.level, self.below, done, rest.len());
        let below = &self.below[step * done..];
        compress_children::<PW, C, N, D>(self.compress, groups, below, step, rest)?;
        if has_rows {
            digests.clear();
            digests.resize(rest.len(), [PW::Value::default(); D])?;
            self.rows.fill(staged, done, digests)?;
            inject_row_digests::<PW, C, N, D>(self.compress, groups, digests, rest)?;
        }
        Ok(())
    }
}
