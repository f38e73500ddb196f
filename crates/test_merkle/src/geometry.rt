//! Cases of schedules, proof lengths and heights, which need no words of matrices, and of the shapes of trees.

ghost use Rattle.std.specs.Prelude.{◌%◌, ◌^◌, ◌≤◌, replicate};
ghost use Rattle.std.proofs.lemmas.List.{length-replicate};

use crate::builders::layers_of;
use crate::case::{Case, Fault};
use crate::matrices::matrices_by;
use crate::scheme::{Cap, FoldScheme, fold_scheme};
use p3_hashes::fold::{FoldCompress, FoldHash};
use p3_merkle_core::gate::check_heights;
use p3_merkle_tree::{BatchOpeningRef, CapRule, MerkleCap, MerkleTree, MerkleTreeError};
use p3_support::matrix::{Dimensions, Matrix};
use std::alloc::{AllocError, Global};
use std::fmt::Write;

/// A matrix whose every word is the number of its row, from 0. It takes no memory, whatever its height.
#[derive(Clone, Copy, Debug)]
pub struct Numbers {
    words: usize,
    rows: usize,
}

impl Matrix<u32> for Numbers {
    ghost height_of = { λ m. m.rows };

    ghost width_of = { λ m. m.words };

    ghost row_of = { λ m r. replicate m.words (r % 2 ^ 32) };

    fn height(&self) -> usize {
        self.rows
    }

    fn width(&self) -> usize {
        self.words
    }

    fn get(&self, row: usize, column: usize) -> u32 {
        (row % 4_294_967_296) as u32
    }

    ghost length_row_of = { λ m r h. length-replicate m.words (r % 2 ^ 32) };
}

/// Answers a case of heights by a scheme:
///
/// - `schedule | ARITY | CAP | HEIGHTS | STEPS`: the steps from the leaves up to the cap;
/// - `replay | ARITY | CAP | HEIGHTS | INDEX | NUMBER OF SIBLINGS | STEPS | POSITIONS`: the steps on the path of an
///   index, and its position in each group, read from a clone of the answer;
/// - `authenticated | ARITY | CAP | HEIGHTS | ANSWERS`: `yes` or `no` for each matrix;
/// - `pruned_len | ARITY | CAP | HEIGHTS | INDICES | DIGESTS`: the number of digests in a pruned proof of the indices.
pub fn geometry<const N: usize, const D: usize>(
    case: &mut Case<'_>,
    kind: &str,
    scheme: &FoldScheme<N, D>,
) -> Result<(), Fault>
    requires { D ≤ 1 }
{
    let alloc = case.alloc;
    let columns = case.columns()?;
    match kind {
        "schedule" => case.write(&scheme.proof_arity_schedule(alloc, &columns)?),
        "replay" => {
            let (index, siblings): (usize, usize) = case.read()?;
            let path = scheme.replay_arity_and_positions(alloc, &columns, index, siblings)?;
            let copy = path.clone()?;
            case.list(&copy.arity_schedule)?;
            case.list(&copy.query_positions)
        }
        "authenticated" => {
            for matrix in 0..columns.len() {
                let is_authenticated = scheme.is_authenticated(&columns, matrix)?;
                case.answer.push_str(if matrix > 0 { " " } else { "" })?;
                case.answer
                    .push_str(if is_authenticated { "yes" } else { "no" })?;
            }
            Ok(())
        }
        "pruned_len" => {
            let indices: Vec<usize> = case.read()?;
            case.write(&scheme.pruned_len(alloc, &columns, &indices)?)
        }
        _ => Err(Fault::Unreadable("there is no such kind of case")),
    }
}

/// How many slots of a layer are nodes: all up to the last that does not have the default digest.
pub fn node_count(layer: &MerkleCap<u32, [u32; 1]>) -> usize {
    let mut nodes = 0_usize;
    for (slot, digest) in layer.roots().iter().enumerate() {
        if *digest != [0] {
            nodes = slot.saturating_add(1);
        }
    }
    nodes
}

/// `shape | ARITY | CAP | HEIGHTS | STEPS | LENGTHS`: the steps from the leaves up to the cap, then the nodes and the
/// slots of each layer, leaves first. The last node of a layer must not have the default digest.
pub fn shape<const N: usize>(case: &mut Case<'_>, scheme: &FoldScheme<N, 1>) -> Result<(), Fault> {
    let alloc = case.alloc;
    let columns = case.columns()?;
    case.write(&scheme.proof_arity_schedule(alloc, &columns)?)?;
    let (_, tree) = scheme.commit(alloc, matrices_by(alloc, &columns)?)?;
    case.answer.push_str(" |")?;
    for layer in &layers_of(alloc, &tree)? {
        let (nodes, slots) = (node_count(layer), layer.num_roots());
        write!(case.answer, " {nodes}/{slots}")?;
    }
    Ok(())
}

/// A matrix of each of these dimensions.
pub fn tall_matrices(alloc: Global, dimensions: &[Dimensions]) -> Result<Vec<Numbers>, AllocError> {
    let mut matrices = Vec::new(alloc);
    for Dimensions { width, height } in dimensions {
        let (words, rows) = (*width, *height);
        matrices.push(Numbers { words, rows })?;
    }
    Ok(matrices)
}

/// The root alone.
const ROOT: Cap = Cap {
    height: 0,
    rule: CapRule::Lowered,
};

/// The verdict on an opening with one word for each column, and no siblings.
fn checked(alloc: Global, columns: &[Dimensions]) -> Result<Result<(), MerkleTreeError>, Fault> {
    let mut rows = Vec::new(alloc);
    for _column in columns {
        rows.push(vec![in alloc; 0]?)?;
    }
    let (cap, siblings) = (MerkleCap::new(Vec::new(alloc)), Vec::new(alloc));
    let opening = BatchOpeningRef::new(&rows, &siblings);
    Ok(fold_scheme::<2>(ROOT).verify_batch(&cap, columns, 0, opening))
}

/// `heights | HEIGHTS | ERROR`: the answer that all calls with heights give, or all their answers where two differ:
/// those of the test of heights, the commit, the tree, the schedule and the check of an opening.
pub fn heights(case: &mut Case<'_>) -> Result<(), Fault> {
    let alloc = case.alloc;
    let columns = case.columns()?;
    let scheme = fold_scheme::<2>(ROOT);
    let tree: Result<MerkleTree<u32, u32, Numbers, 2, 1>, MerkleTreeError> = MerkleTree::new::<
        u32,
        u32,
        FoldHash<1>,
        FoldCompress<2, 1>,
    >(
        alloc,
        &FoldHash::<1>,
        &FoldCompress::<2, 1>,
        tall_matrices(alloc, &columns)?,
    );
    let answers = [
        check_heights(&columns),
        scheme
            .commit(alloc, tall_matrices(alloc, &columns)?)
            .map(|_| ()),
        tree.map(|_| ()),
        scheme.proof_arity_schedule(alloc, &columns).map(|_| ()),
        checked(alloc, &columns)?,
    ];
    if answers.iter().all(|answer| *answer == answers[0]) {
        return case.verdict(&answers[0]);
    }
    for answer in &answers {
        case.verdict(answer)?;
    }
    Ok(())
}
