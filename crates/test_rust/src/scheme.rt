//! The answers of a scheme.

ghost use Rattle.std.specs.Prelude.{◌*◌, ◌<◌, ◌^◌};
ghost use Rattle.std.specs.Mem.{type_size};

use crate::numbers::{Fault, Numbers, Part};
use crate::table::{Table, tables_in};
use p3_merkle_tree::{
    ArityAndPositions, AuthPath, BatchOpeningRef, MerkleCap, MerkleTreeError, MerkleTreeMmcs,
    PrunedProof, check_indices,
};
use p3_support::compress::PseudoCompressionFunction;
use p3_support::hasher::CryptographicHasher;
use p3_support::mmcs::Mmcs;
use p3_support::packed::PackedValue;
use p3_support::salts::SaltWord;
use std::alloc::Global;

/// A word of rows and digests.
pub trait Word: Copy + Default + Part + SaltWord {}

impl Word for u32 {}

impl Word for u8 {}

/// An answer: numbers, or why there are none.
pub type Answer = Result<Vec<u64>, Fault>;

/// The answer that is a value.
fn answer_of<V: Part>(alloc: Global, value: &V) -> Answer {
    let mut answer = Vec::new(alloc);
    value.write(&mut answer)?;
    Ok(answer)
}

/// The answer of a scheme to a call that builds a tree, with salts or without:
///
/// - `commit MATRICES`: the cap
/// - `open INDEX MATRICES`: the rows of the index, and their proof
/// - `prune INDICES MATRICES`: the rows of each index, and one proof of them
fn over_matrices<
    T: Word,
    X: Part + Copy,
    S: Mmcs<T, Table<T>, Commitment = MerkleCap<T, X>, Error = MerkleTreeError>,
>(scheme: &mut S, call: &str, numbers: &mut Numbers<'_>) -> Answer
where
    S::Proof: Part,
    S::MultiProof: Part,
{
    let alloc = numbers.alloc;
    match call {
        "commit" => {
            let (cap, _) = scheme.commit(alloc, tables_in::<T>(numbers)?)?;
            answer_of(alloc, &Vec::from_slice(alloc, cap.roots())?)
        }
        "open" => {
            let index: usize = numbers.read()?;
            let (_, tree) = scheme.commit(alloc, tables_in::<T>(numbers)?)?;
            check_indices(scheme.get_max_height(&tree), &[index])?;
            let opening = scheme.open_batch(alloc, index, &tree)?;
            answer_of(alloc, &opening.unpack())
        }
        _ => {
            let indices: Vec<usize> = numbers.read()?;
            let (_, tree) = scheme.commit(alloc, tables_in::<T>(numbers)?)?;
            check_indices(scheme.get_max_height(&tree), &indices)?;
            answer_of(alloc, &scheme.open_multi_batch(alloc, &indices, &tree)?)
        }
    }
}

/// The answer of a scheme to a call that schemes have with salts and without. A verdict has no numbers:
///
/// - `verify CAP DIMENSIONS INDEX ROWS PROOF`
/// - `vprune CAP DIMENSIONS INDICES SETS PROOF`
pub fn answer_to_shared<
    T: Word,
    X: Part + Copy,
    S: Mmcs<T, Table<T>, Commitment = MerkleCap<T, X>, Error = MerkleTreeError>,
>(scheme: &mut S, call: &str, mut numbers: Numbers<'_>) -> Answer
where
    S::Proof: Part,
    S::MultiProof: Part,
{
    let alloc = numbers.alloc;
    if matches!(call, "commit" | "open" | "prune") {
        return over_matrices(scheme, call, &mut numbers);
    }
    let roots: Vec<X> = numbers.read()?;
    let cap = MerkleCap::new(roots);
    let dimensions = numbers.dimensions()?;
    match call {
        "verify" => {
            let index: usize = numbers.read()?;
            let rows: Vec<Vec<T>> = numbers.read()?;
            let proof: S::Proof = numbers.read()?;
            numbers.end()?;
            let opening = BatchOpeningRef::new(&rows, &proof);
            scheme.verify_batch(alloc, &cap, &dimensions, index, opening)?;
        }
        "vprune" => {
            let indices: Vec<usize> = numbers.read()?;
            let rows: Vec<Vec<Vec<T>>> = numbers.read()?;
            let proof: S::MultiProof = numbers.read()?;
            numbers.end()?;
            scheme.verify_multi_batch(alloc, &cap, &dimensions, &indices, &rows, &proof)?;
        }
        _ => return Err(Fault::NoCase),
    }
    Ok(Vec::new(alloc))
}

/// The answer of a scheme to a call that plain schemes alone have, and None to any other call:
///
/// - `layers MATRICES`: each layer, the leaves first
/// - `restore DIMENSIONS INDICES SETS PROOF`: the path of each index
/// - `schedule DIMENSIONS`: the steps
/// - `replay DIMENSIONS INDEX NUM_SIBLINGS`: the steps, and the positions of the path
pub fn answer_to_plain<
    T: Word,
    P: PackedValue<Value = T>,
    H: CryptographicHasher<P, P, D>,
    C: PseudoCompressionFunction<P, N, D>,
    const N: usize,
    const D: usize,
>(scheme: &MerkleTreeMmcs<P, P, H, C, N, D>, call: &str, mut numbers: Numbers<'_>) -> Answer
    requires { D * type_size T.row < 2 ^ 63 }
{
    let alloc = numbers.alloc;
    if call == "layers" {
        let (_, tree) = scheme.commit(alloc, tables_in::<T>(&mut numbers)?)?;
        let mut layers = Vec::new(alloc);
        for cap_height in (0..tree.num_layers()).rev() {
            let cap = tree.cap(alloc, cap_height)?;
            layers.push(Vec::from_slice(alloc, cap.roots())?)?;
        }
        return answer_of(alloc, &layers);
    }
    let dimensions = numbers.dimensions()?;
    match call {
        "schedule" => {
            numbers.end()?;
            answer_of(alloc, &scheme.proof_arity_schedule(alloc, &dimensions)?)
        }
        "replay" => {
            let index: usize = numbers.read()?;
            let count: usize = numbers.read()?;
            numbers.end()?;
            let ArityAndPositions {
                arity_schedule,
                query_positions,
            } = scheme.replay_arity_and_positions(alloc, &dimensions, index, count)?;
            answer_of(alloc, &(arity_schedule, query_positions))
        }
        _ => {
            let indices: Vec<usize> = numbers.read()?;
            let rows: Vec<Vec<Vec<T>>> = numbers.read()?;
            let proof: PrunedProof<[T; D]> = numbers.read()?;
            numbers.end()?;
            let paths = scheme.restore_and_recompute_paths(
                alloc,
                &dimensions,
                &indices,
                &rows,
                &proof,
            )?;
            let mut shown = Vec::new(alloc);
            for AuthPath {
                leaf_index,
                siblings,
            } in paths {
                shown.push((leaf_index, siblings))?;
            }
            answer_of(alloc, &shown)
        }
    }
}
