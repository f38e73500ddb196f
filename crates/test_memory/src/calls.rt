//! The calls that both schemes have.

use crate::case::{Case, Rows};
use crate::counting::Counting;
use crate::held::Held;
use crate::values::{call_matrices, clone};
use anyhow::{Result, bail};
use p3_merkle_tree::{BatchOpeningRef, MerkleCap, MerkleTreeError, check_indices};
use p3_support::mmcs::Mmcs;
use std::fmt::Debug;

/// The commitment of a scheme.
pub type Cap = MerkleCap<u32, [u32; 1]>;

/// What a scheme has committed to and opened.
pub type HeldBy<S> = Held<
    <S as Mmcs<u32, Rows>>::ProverData,
    <S as Mmcs<u32, Rows>>::Proof,
    <S as Mmcs<u32, Rows>>::MultiProof,
>;

/// Prints the answer of a call, unless memory ran out. Returns whether it did so.
pub fn shown<A: Debug + Drop>(
    rt: &HostRuntime,
    answer: Result<A, MerkleTreeError>,
) -> Result<bool> {
    if matches!(answer, Err(MerkleTreeError::OutOfMemory)) {
        return Ok(false);
    }
    println!(rt; "{answer:?}")?;
    Ok(true)
}

/// Commits to the matrices, and opens index 0: with salts its row shows where the generator stood.
pub fn commit<S: Mmcs<u32, Rows, Commitment = Cap, Error = MerkleTreeError>>(
    rt: &HostRuntime,
    case: &Case<'_>,
    scheme: &mut S,
) -> Result<bool>
where
    S::Proof: Debug,
{
    let Ok(matrices) = case.matrices.clone() else {
        return Ok(false);
    };
    match scheme.commit(rt.alloc(), matrices) {
        Ok((cap, tree)) => {
            check_indices(scheme.get_max_height(&tree), &[0])?;
            let opening = scheme.open_batch(rt.alloc(), 0, &tree);
            shown(rt, opening.map(|opening| (cap, opening.opening_proof)))
        }
        Err(error) => shown::<()>(rt, Err(error)),
    }
}

/// Opens what a tree has of the matrices.
fn open<S: Mmcs<u32, Rows, Commitment = Cap, Error = MerkleTreeError>>(
    rt: &HostRuntime,
    case: &Case<'_>,
    held: &HeldBy<S>,
    scheme: &S,
) -> Result<bool>
where
    S::Proof: Debug,
    S::MultiProof: Debug,
{
    check_indices(scheme.get_max_height(&held.tree), &[case.index])?;
    check_indices(scheme.get_max_height(&held.tree), &case.queries)?;
    match case.call {
        "open_batch" => shown(rt, scheme.open_batch(rt.alloc(), case.index, &held.tree)),
        "open_multi_batch" => shown(
            rt,
            scheme.open_multi_batch(rt.alloc(), &case.queries, &held.tree),
        ),
        _ => shown(rt, scheme.get_matrices(rt.alloc(), &held.tree)),
    }
}

/// Verifies what was opened.
fn verify<S: Mmcs<u32, Rows, Commitment = Cap, Error = MerkleTreeError>>(
    rt: &HostRuntime,
    case: &Case<'_>,
    held: &HeldBy<S>,
    scheme: &S,
) -> Result<bool> {
    let (alloc, cap, dimensions) = (rt.alloc(), &held.cap, &held.dimensions);
    if case.call == "verify_batch" {
        let opening = BatchOpeningRef::from(&held.opening);
        return shown(
            rt,
            scheme.verify_batch(alloc, cap, dimensions, case.index, opening),
        );
    }
    let (rows, proof) = &held.multi;
    shown(
        rt,
        scheme.verify_multi_batch(alloc, cap, dimensions, &case.queries, rows, proof),
    )
}

/// Makes a call, and prints its answer. Returns whether memory was there. A random matrix comes from `generator`.
pub fn make_call<S: Mmcs<u32, Rows, Commitment = Cap, Error = MerkleTreeError>>(
    rt: &HostRuntime,
    case: &Case<'_>,
    held: &HeldBy<S>,
    generator: &mut Counting,
    scheme: &mut S,
) -> Result<bool>
where
    S::Proof: Clone + Debug,
    S::MultiProof: Clone + Debug,
{
    match case.call {
        "commit" => commit(rt, case, scheme),
        "open_batch" | "open_multi_batch" | "get_matrices" => open(rt, case, held, &*scheme),
        "verify_batch" | "verify_multi_batch" => verify(rt, case, held, &*scheme),
        "clone_matrices" | "clone_cap" | "clone_opening" | "clone_multi" => clone(rt, case, held),
        "rand" | "append_row" | "dimensions_of" | "tree" => call_matrices(rt, case, generator),
        _ => bail!("no such call"),
    }
}
