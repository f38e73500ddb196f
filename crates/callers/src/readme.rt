//! The lines of Rust in README.md: commits to four rows, opens one of them, and verifies it; then verifies another row
//! in its place.

use anyhow::Result;
use p3_hashes::fold::{FoldCompress, FoldHash};
use p3_merkle_tree::{BatchOpeningRef, MerkleTreeMmcs, check_indices};
use p3_support::matrix::{Dimensions, RowMajorMatrix};

/// Arity 2, digests of one word. The fold functions are not secure; their digests can be worked out by hand.
type Fold = MerkleTreeMmcs<u32, u32, FoldHash<4>, FoldCompress<2, 4>, 2, 1>;

/// What the verifier knows beforehand: one matrix of four rows of one word.
const DIMENSIONS: [Dimensions; 1] = [Dimensions {
    width: 1,
    height: 4,
}];

/// Prints the root, the row of index 2 and its siblings, and the verdict on the row 4 in its place.
pub fn run(rt: &HostRuntime) -> Result<()> {
    let alloc = rt.alloc();
    let scheme = Fold::new(FoldHash::<4>, FoldCompress::<2, 4>, 0);
    let rows = RowMajorMatrix::new(vec![in alloc; 1u32, 2, 3, 4]?, 1);
    let (cap, tree) = scheme.commit(alloc, vec![in alloc; rows]?)?;

    check_indices(scheme.get_max_height(&tree), &[2])?;
    let opening = scheme.open_batch(alloc, 2, &tree)?;
    scheme.verify_batch(&cap, &DIMENSIONS, 2, BatchOpeningRef::from(&opening))?;

    let (root, row, siblings) = (cap.roots(), &opening.opened_values, &opening.opening_proof);
    println!(rt; "root {root:?}, row {row:?}, siblings {siblings:?}")?;

    let tampered = vec![in alloc; vec![in alloc; 4u32]?]?;
    let claimed = BatchOpeningRef::new(&tampered, &opening.opening_proof);
    let verdict = scheme.verify_batch(&cap, &DIMENSIONS, 2, claimed);
    println!(rt; "row {tampered:?} in its place: {verdict:?}")?;
    Ok(())
}
