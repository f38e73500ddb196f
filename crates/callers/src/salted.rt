//! Commits to rows with two random words after each, and opens one, and two by one proof.

use anyhow::Result;
use p3_hashes::fold::{FoldCompress, FoldHash};
use p3_merkle_tree::{BatchOpeningRef, MerkleTreeHidingMmcs, check_indices};
use p3_support::matrix::{Dimensions, RowMajorMatrix};
use rand_chacha::ChaCha20Rng;
use rand_core::SeedableRng;
use std::random::RandomSource;

type Salted = MerkleTreeHidingMmcs<u32, u32, FoldHash<4>, FoldCompress<2, 4>, ChaCha20Rng, 2, 1, 2>;

/// One matrix of four rows of one word, without its salts.
const DIMENSIONS: [Dimensions; 1] = [Dimensions {
    width: 1,
    height: 4,
}];

/// Prints the row of index 2, how many salts and siblings prove it, and the rows of two indices.
pub fn run(rt: &HostRuntime) -> Result<()> {
    let alloc = rt.alloc();
    let mut seed = [0; 32];
    rt.fill_bytes(&mut seed)?;
    let rng = ChaCha20Rng::from_seed(seed);
    let mut scheme = Salted::new(FoldHash::<4>, FoldCompress::<2, 4>, 0, rng);
    let rows = RowMajorMatrix::new(vec![in alloc; 1u32, 2, 3, 4]?, 1);
    let (cap, tree) = scheme.commit(alloc, vec![in alloc; rows]?)?;

    check_indices(scheme.get_max_height(&tree), &[2])?;
    let opening = scheme.open_batch(alloc, 2, &tree)?;
    scheme.verify_batch(&cap, &DIMENSIONS, 2, BatchOpeningRef::from(&opening))?;

    let (row, (salts, siblings)) = (&opening.opened_values, &opening.opening_proof);
    let (salts, siblings) = (salts.len(), siblings.len());
    println!(rt; "row {row:?}, lists of salts {salts}, siblings {siblings}")?;

    let indices = [3, 1];
    check_indices(scheme.get_max_height(&tree), &indices)?;
    let (rows, proof) = scheme.open_multi_batch(alloc, &indices, &tree)?;
    scheme.verify_multi_batch(alloc, &cap, &DIMENSIONS, &indices, &rows, &proof)?;
    println!(rt; "rows {rows:?}")?;
    Ok(())
}
