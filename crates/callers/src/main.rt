//! Commits to a table of bytes from standard input with notes beside it, and prints the rows of an index and a verified
//! word.
#![tactic(auto)]

// The other callers of docs/CALLING.md, and that of README.md.
mod coins;
mod conflict;
mod copies;
mod growing_log;
mod messages;
mod readme;
mod rules;
mod salted;
mod several_rows;

ghost use Rattle.std.specs.Prelude.{◌<◌, length, map, slice_index};

use anyhow::Result;
use p3_hashes::sha_eights::{Sha256NodesInEights, Sha256RowsInEights};
use p3_merkle_tree::{BatchOpeningRef, MerkleCap, MerkleTreeError, MerkleTreeMmcs, check_indices};
use p3_support::matrix::{Dimensions, RowMajorMatrix};

type Sha = MerkleTreeMmcs<u8, u8, Sha256RowsInEights, Sha256NodesInEights<2>, 2, 32>;

/// What the verifier knows beforehand: four rows of three bytes, and a note of two bytes for every two rows.
const DIMENSIONS: [Dimensions; 2] = [
    Dimensions {
        width: 3,
        height: 4,
    },
    Dimensions {
        width: 2,
        height: 2,
    },
];

/// The numbers that standard input has.
fn numbers(rt: &HostRuntime) -> Result<Vec<u8>> {
    let mut numbers = Vec::new(rt.alloc());
    for line in rt.lines(rt.alloc()) {
        for word in line?.split_whitespace() {
            numbers.push(word.parse()?)?;
        }
    }
    Ok(numbers)
}

/// Word `column` of the row of matrix `matrix`, once the opening is verified.
fn verified_word(
    scheme: &Sha,
    cap: &MerkleCap<u8, [u8; 32]>,
    index: usize,
    opening: BatchOpeningRef<'_, u8, Vec<[u8; 32]>>,
    matrix: usize,
    column: usize,
) -> Result<u8, MerkleTreeError>
    requires matrix { matrix < length DIMENSIONS }
    requires column { column < slice_index (map (λ d. d.width) DIMENSIONS) matrix }
{
    scheme.verify_batch(cap, &DIMENSIONS, index, opening)?;
    Ok(opening.opened_values[matrix][column])
}

fn main(rt: HostRuntime) -> Result<()> {
    readme::run(&rt)?;
    conflict::run(&rt)?;
    messages::run(&rt)?;
    several_rows::run(&rt)?;
    rules::run(&rt)?;
    salted::run(&rt)?;
    growing_log::run(&rt)?;
    coins::run(&rt)?;
    copies::run(&rt)?;
    let alloc = rt.alloc();
    let scheme = Sha::new(Sha256RowsInEights, Sha256NodesInEights::<2>, 0);
    let table = RowMajorMatrix::try_new(numbers(&rt)?, 3)?;
    let notes = RowMajorMatrix::new(vec![in alloc; 1u8, 2, 3, 4]?, 2);
    let (cap, tree) = scheme.commit(alloc, vec![in alloc; table, notes]?)?;

    check_indices(scheme.get_max_height(&tree), &[3])?;
    let opening = scheme.open_batch(alloc, 3, &tree)?;
    let rows = &opening.opened_values;
    let word = verified_word(&scheme, &cap, 3, BatchOpeningRef::from(&opening), 0, 2)?;
    println!(rt; "rows {rows:?}, word {word}")?;
    Ok(())
}
