//! The calls of the plain scheme.

use crate::calls::{make_call, shown};
use crate::case::{Case, Rows};
use crate::counting::Counting;
use crate::free::{hashes_agree, reads_agree};
use crate::held::Held;
use crate::values::is_alike;
use anyhow::Result;
use p3_merkle_tree::{
    BatchOpeningRef, CapRule, MerkleTree, MerkleTreeError, MerkleTreeMmcs, PrunedMerklePaths,
    check_indices,
};
use p3_support::compress::PseudoCompressionFunction;
use p3_support::hasher::CryptographicHasher;
use p3_support::packed::PackedValue;
use std::alloc::Global;

/// What a plain scheme committed to and opened.
pub type HeldPlain<const N: usize> = Held<
    MerkleTree<u32, u32, Rows, N, 1>,
    Vec<[u32; 1]>,
    PrunedMerklePaths<u32, 1>,
>;

/// Whether calls that take no memory answer what they should: of a matrix, the cap, the tree, the scheme, and of
/// hashers and compressions.
fn is_free_right<
    P: PackedValue<Value = u32>,
    H: CryptographicHasher<P, P, 1>,
    C: PseudoCompressionFunction<P, N, 1>,
    const N: usize,
>(scheme: &MerkleTreeMmcs<P, P, H, C, N, 1>, held: &HeldPlain<N>) -> bool {
    let (opening, tree) = (BatchOpeningRef::from(&held.opening), &held.tree);
    held.matrices.first().is_some_and(reads_agree)
        && held.cap.roots().first() == Some(tree.root().value())
        && held.cap.num_roots() == 1
        && tree.num_layers() > 0
        && scheme.get_max_height(tree) == held.dimensions.first().map_or(0, |size| size.height)
        && opening.unpack().0.len() == held.matrices.len()
        && scheme.cap_height() == 0
        && scheme.cap_rule() == CapRule::Lowered
        && check_indices(scheme.get_max_height(tree), &[0]).is_ok()
        && !held.dimensions.is_empty()
        && scheme.is_authenticated(&held.dimensions, 0) == Ok(true)
        && hashes_agree()
}

/// Whether a clone is like what some queries open: `clone_pruned`, the pruned opening; `clone_paths`, the restored
/// paths; `clone_positions`, the steps and positions of the first query.
fn is_cloned_alike<
    P: PackedValue<Value = u32>,
    H: CryptographicHasher<P, P, 1>,
    C: PseudoCompressionFunction<P, N, 1>,
    const N: usize,
>(
    alloc: Global,
    case: &Case<'_>,
    held: &HeldPlain<N>,
    scheme: &MerkleTreeMmcs<P, P, H, C, N, 1>,
) -> Result<bool, MerkleTreeError> {
    let (dimensions, queries, (rows, proof)) = (&held.dimensions, &case.queries, &held.multi);
    match case.call {
        "clone_pruned" => {
            check_indices(scheme.get_max_height(&held.tree), queries)?;
            let opening = scheme.open_batch_pruned(alloc, queries, &held.tree)?;
            is_alike(alloc, &opening, opening.clone())
        }
        "clone_paths" => {
            let paths = scheme.restore_and_recompute_paths(
                alloc, dimensions, queries, rows, proof,
            )?;
            is_alike(alloc, &paths, paths.clone())
        }
        _ => {
            let siblings = held.opening.opening_proof.len();
            let path = scheme.replay_arity_and_positions(alloc, dimensions, case.index, siblings)?;
            is_alike(alloc, &path, path.clone())
        }
    }
}

/// Makes a call of a plain scheme, and prints its answer. Returns whether memory was there.
pub fn call_plain<
    P: PackedValue<Value = u32>,
    H: CryptographicHasher<P, P, 1>,
    C: PseudoCompressionFunction<P, N, 1>,
    const N: usize,
>(
    rt: &HostRuntime,
    case: &Case<'_>,
    held: &HeldPlain<N>,
    generator: &mut Counting,
    scheme: &mut MerkleTreeMmcs<P, P, H, C, N, 1>,
) -> Result<bool> {
    let alloc = rt.alloc();
    let (cap, dimensions) = (&held.cap, &held.dimensions);
    let (queries, (rows, proof), twins) = (&case.queries, &held.multi, &held.twins);
    match case.call {
        "free" => shown(rt, Ok(is_free_right(scheme, held))),
        "clone_pruned" | "clone_paths" | "clone_positions" => {
            shown(rt, is_cloned_alike(alloc, case, held, &*scheme))
        }
        "open_batch_pruned" => {
            check_indices(scheme.get_max_height(&held.tree), queries)?;
            shown(rt, scheme.open_batch_pruned(alloc, queries, &held.tree))
        }
        "verify_batch_pruned" => {
            shown(
                rt,
                scheme.verify_batch_pruned(alloc, cap, dimensions, queries, rows, proof),
            )
        }
        "restore_and_recompute_paths" => {
            shown(
                rt,
                scheme.restore_and_recompute_paths(alloc, dimensions, queries, rows, proof),
            )
        }
        "pruned_len" => shown(rt, scheme.pruned_len(alloc, dimensions, queries)),
        "proof_arity_schedule" => shown(rt, scheme.proof_arity_schedule(alloc, dimensions)),
        "replay_arity_and_positions" => {
            let siblings = held.opening.opening_proof.len();
            shown(
                rt,
                scheme.replay_arity_and_positions(alloc, dimensions, case.index, siblings),
            )
        }
        "extract_collision" => {
            let first = BatchOpeningRef::from(&held.opening);
            let second = BatchOpeningRef::new(&held.twin, &held.opening.opening_proof);
            shown(
                rt,
                scheme.extract_collision(
                    alloc, cap, dimensions, case.index, first, case.index, second,
                ),
            )
        }
        "extract_collision_multi" => {
            shown(
                rt,
                scheme.extract_collision_multi(
                    alloc, cap, dimensions, queries, rows, proof, queries, twins, proof,
                ),
            )
        }
        "commitment_collision" => {
            let tree = &held.tree;
            shown(rt, scheme.commitment_collision(alloc, cap, tree, tree))
        }
        _ => make_call(rt, case, held, generator, scheme),
    }
}
