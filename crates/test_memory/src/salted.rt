//! The calls of the salted scheme.

ghost use Rattle.std.specs.Prelude.{◌≤◌, IsTrue};
ghost use Rattle.p3_merkle_tree.specs.Geometry.{is_arity};

use crate::calls::{commit, make_call, shown};
use crate::case::{Case, Rows};
use crate::counting::Counting;
use crate::held::Held;
use anyhow::Result;
use p3_merkle_tree::{
    BatchOpeningRef, CapRule, MerkleTreeHidingMmcs, SaltedMultiProof, SaltedProof, SaltedTree,
};
use p3_support::compress::PseudoCompressionFunction;
use p3_support::hasher::CryptographicHasher;
use p3_support::packed::PackedValue;

/// What a salted scheme committed to and opened.
pub type HeldSalted<const N: usize> = Held<
    SaltedTree<u32, u32, Rows, N, 1>,
    SaltedProof<u32, u32, 1>,
    SaltedMultiProof<u32, u32, 1>,
>;

/// The salted scheme of a hash and a compression, with two salts a row.
pub type Salted<P, H, C, const N: usize> = MerkleTreeHidingMmcs<P, P, H, C, Counting, N, 1, 2>;

/// This scheme before it has drawn a salt. The first one is 100.
pub fn salted_scheme<
    P: PackedValue<Value = u32>,
    H: CryptographicHasher<P, P, 1>,
    C: PseudoCompressionFunction<P, N, 1>,
    const N: usize,
>(hash: H, compress: C) -> Salted<P, H, C, N>
    requires arity { IsTrue (is_arity N) }
    requires some_lane { 1 ≤ P.WIDTH }
{
    MerkleTreeHidingMmcs::new(hash, compress, 0, Counting { last: 99 })
}

/// Whether calls that take no memory answer what they should, of the tree and of the scheme.
fn is_free_right<
    P: PackedValue<Value = u32>,
    H: CryptographicHasher<P, P, 1>,
    C: PseudoCompressionFunction<P, N, 1>,
    const N: usize,
>(scheme: &Salted<P, H, C, N>, held: &HeldSalted<N>) -> bool {
    held.cap.roots().first() == Some(held.tree.root().value())
        && scheme.get_max_height(&held.tree)
            == held.dimensions.first().map_or(0, |size| size.height)
        && scheme.cap_height() == 0
        && scheme.cap_rule() == CapRule::Lowered
}

/// Makes a call of a salted scheme, and prints its answer. Returns whether memory was there.
pub fn call_salted<
    P: PackedValue<Value = u32>,
    H: CryptographicHasher<P, P, 1> + Copy,
    C: PseudoCompressionFunction<P, N, 1> + Copy,
    const N: usize,
>(
    rt: &HostRuntime,
    case: &Case<'_>,
    held: &HeldSalted<N>,
    generator: &mut Counting,
    scheme: &mut Salted<P, H, C, N>,
) -> Result<bool> {
    let alloc = rt.alloc();
    let (cap, dimensions) = (&held.cap, &held.dimensions);
    let (queries, (rows, proof), twins) = (&case.queries, &held.multi, &held.twins);
    match case.call {
        "free" => shown(rt, Ok(is_free_right(&*scheme, held))),
        "fork" => match scheme.fork() {
            Ok(mut fork) => commit(rt, case, &mut fork),
            Err(error) => shown::<()>(rt, Err(error)),
        },
        "extract_collision" => {
            let first = BatchOpeningRef::from(&held.opening);
            let second = BatchOpeningRef::new(&held.twin, &held.opening.opening_proof);
            shown(
                rt,
                scheme.extract_collision(
                    alloc, cap, dimensions, case.index, first, case.index, second,
                ),
            )
        }
        "extract_collision_multi" => {
            shown(
                rt,
                scheme.extract_collision_multi(
                    alloc, cap, dimensions, queries, rows, proof, queries, twins, proof,
                ),
            )
        }
        "commitment_collision" => {
            let tree = &held.tree;
            shown(rt, scheme.commitment_collision(alloc, cap, tree, tree))
        }
        _ => make_call(rt, case, held, generator, scheme),
    }
}
