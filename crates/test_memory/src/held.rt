//! What a caller holds.

use crate::calls::{Cap, HeldBy};
use crate::case::{Case, Rows};
use anyhow::Result;
use p3_merkle_tree::{BatchOpening, MerkleTreeError, check_indices};
use p3_support::matrix::{Dimensions, dimensions_of};
use p3_support::mmcs::Mmcs;
use std::alloc::{AllocError, Global};

/// What a scheme committed to and opened.
#[derive(Drop)]
pub struct Held<D, P, Q> {
    /// The matrices.
    pub matrices: Vec<Rows>,
    /// Their dimensions.
    pub dimensions: Vec<Dimensions>,
    /// The cap.
    pub cap: Cap,
    /// The tree.
    pub tree: D,
    /// The opening of one index.
    pub opening: BatchOpening<u32, P>,
    /// Its rows, where the first may be another row with the same digest.
    pub twin: Vec<Vec<u32>>,
    /// The rows of all queries, and one proof for them.
    pub multi: (Vec<Vec<Vec<u32>>>, Q),
    /// The same rows, where the first row of each query may be another with the same digest.
    pub twins: Vec<Vec<Vec<u32>>>,
}

/// Changes a row into another with the same digest, where it has two words or more.
fn change_row(row: &mut [u32]) {
    if row.len() >= 2 {
        row[0] = row[0].wrapping_add(1);
        row[1] = row[1].wrapping_sub(31);
    }
}

/// Rows with the twin of the first one.
fn twin_of(alloc: Global, rows: &[Vec<u32>]) -> Result<Vec<Vec<u32>>, AllocError> {
    let mut twin = rows.to_vec(alloc)?;
    if let Some(row) = twin.first_mut() {
        change_row(row);
    }
    Ok(twin)
}

/// Commits to the matrices of a case, and opens them.
pub fn hold<S: Mmcs<u32, Rows, Commitment = Cap, Error = MerkleTreeError>>(
    alloc: Global,
    case: &Case<'_>,
    scheme: &mut S,
) -> Result<HeldBy<S>> {
    let matrices = case.matrices.clone()?;
    let dimensions = dimensions_of(alloc, &matrices)?;
    let (cap, tree) = scheme.commit(alloc, case.matrices.clone()?)?;
    check_indices(scheme.get_max_height(&tree), &[case.index])?;
    let opening = scheme.open_batch(alloc, case.index, &tree)?;
    check_indices(scheme.get_max_height(&tree), &case.queries)?;
    let multi = scheme.open_multi_batch(alloc, &case.queries, &tree)?;
    let twin = twin_of(alloc, &opening.opened_values)?;
    let mut twins = Vec::new(alloc);
    for rows in &multi.0 {
        twins.push(twin_of(alloc, rows)?)?;
    }
    Ok(Held {
        matrices,
        dimensions,
        cap,
        tree,
        opening,
        twin,
        multi,
        twins,
    })
}
