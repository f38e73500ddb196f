//! A collision under SHA-256 is two byte strings: two openings of one cap that answer one row in two ways give two
//! different messages with one digest.
ghost use Rattle.std.specs.Prelude.{◌≡◌, ◌≢◌, IfOk, IfSome};
ghost use Rattle.p3_hashes.specs.Sha.{sha256_rows};

use anyhow::Result;
use p3_hashes::laws::groups_are_messages;
use p3_hashes::sha::{Sha256Nodes, Sha256Rows, group_message};
use p3_merkle_tree::{
    BatchOpening, BatchOpeningRef, Collision, MerkleCap, MerkleTreeError, MerkleTreeMmcs,
    check_indices,
};
use p3_support::matrix::{Dimensions, RowMajorMatrix};
use std::alloc::Global;

type Sha<const N: usize> = MerkleTreeMmcs<u8, u8, Sha256Rows, Sha256Nodes<N>, N, 32>;

type Opening<'a> = BatchOpeningRef<'a, u8, Vec<[u8; 32]>>;

const DIMENSIONS: [Dimensions; 1] = [Dimensions {
    width: 1,
    height: 2,
}];

/// The messages of the collision that two accepted openings of one index give, or `None` if the openings agree.
fn colliding_messages<const N: usize>(
    alloc: Global,
    scheme: &Sha<N>,
    cap: &MerkleCap<u8, [u8; 32]>,
    index: usize,
    first: Opening<'_>,
    second: Opening<'_>,
) -> Result<Option<(Vec<u8>, Vec<u8>)>, MerkleTreeError>
    ensures { IfOk result (λ found. IfSome found (λ (first, second).
        (first.items ≢ second.items) × (sha256_rows first.items ≡ sha256_rows second.items))) }
{
    match scheme.extract_collision(alloc, cap, &DIMENSIONS, index, first, index, second)? {
        None => Ok(None),
        Some(Collision::Words { first, second, .. }) => Ok(Some((first, second))),
        Some(Collision::Digests { first, second, .. }) => {
            groups_are_messages();
            let message = group_message(alloc, &first)?;
            Ok(Some((message, group_message(alloc, &second)?)))
        }
    }
}

/// Compares an opening with itself, since no collision of SHA-256 is known.
pub fn run(rt: &HostRuntime) -> Result<()> {
    let alloc = rt.alloc();
    let scheme = Sha::<2>::new(Sha256Rows, Sha256Nodes::<2>, 0);
    let rows = RowMajorMatrix::new(vec![in alloc; 1u8, 2]?, 1);
    let (cap, tree) = scheme.commit(alloc, vec![in alloc; rows]?)?;
    check_indices(scheme.get_max_height(&tree), &[1])?;
    let opening = scheme.open_batch(alloc, 1, &tree)?;
    let lent = BatchOpeningRef::from(&opening);
    let found = colliding_messages(alloc, &scheme, &cap, 1, lent, lent)?;
    println!(rt; "{found:?}")?;
    Ok(())
}
