//! What checks of openings compute with.

ghost use Rattle.std.specs.Prelude.{◌≡◌};
ghost use Rattle.p3_merkle_core.specs.Computed.{Computes};
ghost use Rattle.p3_merkle_core.specs.Geometry.{shape_of};
ghost use Rattle.p3_merkle_verifier.specs.Inner.Paths.{CanCheck};

use p3_merkle_core::schedule::Schedule;
use p3_support::compress::PseudoCompressionFunction;
use p3_support::hasher::CryptographicHasher;
use p3_support::packed::PackedValue;
use std::marker::PhantomData;

/// Checks openings of one tree up to its cap. `G` is the type of a group. The arity `N` is a power of two from 2 to
/// 2^62.
#[derive(Drop)]
pub struct Checker<
    'a,
    P: PackedValue,
    PW: PackedValue,
    H: CryptographicHasher<P, PW, D>,
    C: PseudoCompressionFunction<PW, N, D>,
    G,
    const N: usize,
    const D: usize,
> {
    /// The hasher of rows.
    pub hash: &'a H,
    /// The compression of the children of a node.
    pub compress: &'a C,
    /// The steps of the tree. Their arity is `N`.
    pub schedule: Schedule<'a>,
    /// The cap's layer, at most the number of levels.
    pub cap_layer: usize,
    /// The packings of words, and the type of a group.
    pub item: PhantomData<(P, PW, G)>,
    ghost functions: { Computes (H.hash hash.now) (C.compression compress.now) PW.default_value },
    ghost arity: { schedule.arity ≡ N },
    ghost check: { CanCheck (shape_of schedule.arity schedule.dimensions.now) cap_layer },
}
