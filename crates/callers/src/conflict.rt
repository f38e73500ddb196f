//! An opening that answers a committed row in another way, and the two inputs behind both answers.

use anyhow::Result;
use end_to_end::plain::commit_compare;
use p3_hashes::fold::{FoldCompress, FoldHash};
use p3_merkle_tree::{BatchOpeningRef, MerkleTreeMmcs};
use p3_support::matrix::RowMajorMatrix;

type Fold = MerkleTreeMmcs<u32, u32, FoldHash<4>, FoldCompress<2, 4>, 2, 1>;

/// Prints the collision: the row [2, 0] is claimed for [1, 31], and both have the fold digest 1023.
pub fn run(rt: &HostRuntime) -> Result<()> {
    let alloc = rt.alloc();
    let scheme = Fold::new(FoldHash::<4>, FoldCompress::<2, 4>, 0);
    let table = RowMajorMatrix::try_new(vec![in alloc; 1u32, 31, 3, 4]?, 2)?;
    let row = vec![in alloc; vec![in alloc; 2u32, 0]?]?;
    let siblings = vec![in alloc; [1058]]?;
    let claimed = BatchOpeningRef::new(&row, &siblings);
    let compared = commit_compare(alloc, &scheme, vec![in alloc; table]?, 0, claimed)?;
    let found = compared.found?;
    println!(rt; "{found:?}")?;
    Ok(())
}
