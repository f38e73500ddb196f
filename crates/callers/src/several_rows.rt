//! Opens three of eight rows by one proof, bounds its size, verifies it, and restores their paths.

ghost use Rattle.std.specs.Prelude.{◌≤◌, ℕ, IfOk, IfSome, List, length};
ghost use Rattle.p3_merkle_tree.specs.Geometry.{shape_of};
ghost use Rattle.p3_merkle_tree.specs.Pruning.{IsPrunedAccepted, PrunedOpening};
ghost use Rattle.p3_merkle_tree.specs.Schemes.{params_of};

use anyhow::{Result, bail};
use p3_hashes::fold::{FoldCompress, FoldHash};
use p3_merkle_tree::{MerkleTreeError, MerkleTreeMmcs, check_indices, laws};
use p3_support::matrix::{Dimensions, RowMajorMatrix};
use std::alloc::Global;

type Fold = MerkleTreeMmcs<u32, u32, FoldHash<4>, FoldCompress<2, 4>, 2, 1>;

const DIMENSIONS: [Dimensions; 1] = [Dimensions {
    width: 1,
    height: 8,
}];

/// How many digests an accepted proof of so many queries has at most: one on each level for each query. A verifier need
/// not read more of a proof. `None` if the number does not fit `usize`.
fn most_digests(
    alloc: Global,
    scheme: &Fold,
    queries: usize,
) -> Result<Option<usize>, MerkleTreeError>
    ensures { let c = params_of scheme.now (shape_of 2 DIMENSIONS) in
        IfOk result (λ most. IfSome most (λ n. (cap : List (List ℕ)) (p : PrunedOpening ℕ ℕ) →
        IsPrunedAccepted c cap p → length p.indices ≤ queries → length p.digests ≤ n)) }
{
    laws::boundary();
    let steps = scheme.proof_arity_schedule(alloc, &DIMENSIONS)?;
    Ok(steps.len().checked_mul(queries))
}

/// Prints the rows, the digests of the proof, how many it has at most, and the siblings of each path.
pub fn run(rt: &HostRuntime) -> Result<()> {
    let alloc = rt.alloc();
    let scheme = Fold::new(FoldHash::<4>, FoldCompress::<2, 4>, 0);
    let rows = RowMajorMatrix::new(vec![in alloc; 1u32, 2, 3, 4, 5, 6, 7, 8]?, 1);
    let (cap, tree) = scheme.commit(alloc, vec![in alloc; rows]?)?;

    let indices = [1, 2, 5];
    check_indices(scheme.get_max_height(&tree), &indices)?;
    let opening = scheme.open_batch_pruned(alloc, &indices, &tree)?;
    let (rows, proof) = (&opening.opened_values, &opening.pruned_proof);

    let most = most_digests(alloc, &scheme, indices.len())?;
    if most.is_some_and(|most| proof.sibling_hashes.len() > most) {
        bail!("the proof is too long");
    }
    scheme.verify_batch_pruned(alloc, &cap, &DIMENSIONS, &indices, rows, proof)?;

    let paths = scheme.restore_and_recompute_paths(alloc, &DIMENSIONS, &indices, rows, proof)?;
    let sent = &proof.sibling_hashes;
    println!(rt; "rows {rows:?}, digests {sent:?}")?;
    println!(rt; "digests at most {most:?}")?;
    for path in &paths {
        let (index, siblings) = (path.leaf_index, &path.siblings);
        println!(rt; "index {index}, siblings {siblings:?}")?;
    }
    Ok(())
}
