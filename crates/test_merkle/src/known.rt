//! Which nodes of a tree are known from the leaves of some queries and from other nodes.

use crate::builders::layers_of;
use crate::case::{Case, Fault};
use crate::field::{Item, List, NUMBERS, ROWS};
use crate::geometry::node_count;
use crate::matrices::matrices_by;
use crate::opened::{accepted_leaves, commit_shown};
use crate::scheme::FoldScheme;
use p3_merkle_tree::MerkleCap;
use std::alloc::{AllocError, Global};
use std::fmt::Write;

/// A node of a tree.
#[derive(Clone, Copy, Drop)]
struct Node {
    /// Its layer, counted from the leaves.
    layer: usize,
    /// Its number in the layer.
    number: usize,
}

impl Item for Node {
    const LIST: List = NUMBERS;

    const LISTS: List = ROWS;

    fn parse(alloc: Global, text: &str) -> Result<Node, Fault> {
        let Some((layer, number)) = text.split_once(':') else {
            return Err(Fault::Unreadable("a node is not LAYER:NUMBER"));
        };
        Ok(Node {
            layer: usize::parse(alloc, layer)?,
            number: usize::parse(alloc, number)?,
        })
    }

    fn show(&self, answer: &mut String) -> Result<(), Fault> {
        Ok(write!(answer, "{}:{}", self.layer, self.number)?)
    }
}

/// A layer of a tree.
type Layer = MerkleCap<u32, [u32; 1]>;

/// The numbers of the given nodes of a layer, without the one at place `left_out`.
fn given_in(
    alloc: Global,
    given: &[Node],
    left_out: usize,
    layer: usize,
) -> Result<Vec<usize>, AllocError> {
    let mut numbers = Vec::new(alloc);
    for (place, node) in given.iter().enumerate() {
        if node.layer == layer && place != left_out {
            numbers.push(node.number)?;
        }
    }
    Ok(numbers)
}

/// Whether all children of a node are known. `known` are the known nodes of the layer below it.
fn are_children_known(known: &[usize], step: usize, number: usize) -> bool {
    let first = number.saturating_mul(step);
    (0..step).all(|place| known.contains(&first.saturating_add(place)))
}

/// Whether each covered node of the cap's layer is known from the queried leaves and from the given nodes, without the
/// one at place `left_out`. A node is known if it is given, if it is a queried leaf, or if it is no padding and all its
/// children are known.
fn suffices(
    alloc: Global,
    steps: &[usize],
    layers: &[Layer],
    queries: &[usize],
    given: &[Node],
    left_out: usize,
) -> Result<bool, AllocError> {
    let mut known = given_in(alloc, given, left_out, 0)?;
    known.extend_from_slice(queries)?;
    let mut span = 1_usize;
    for (level, (step, nodes)) in steps.iter().zip(layers.iter().skip(1)).enumerate() {
        let mut above = given_in(alloc, given, left_out, level.saturating_add(1))?;
        for number in 0..node_count(nodes) {
            if are_children_known(&known, *step, number) {
                above.push(number)?;
            }
        }
        known = above;
        span = span.saturating_mul(*step);
    }
    let span = span.max(1);
    for query in queries {
        if !known.contains(&(*query / span)) {
            return Ok(false);
        }
    }
    Ok(true)
}

/// The digests of these nodes, as far as the tree has such nodes.
fn digests_of(
    alloc: Global,
    layers: &[Layer],
    nodes: &[Node],
) -> Result<Vec<[u32; 1]>, AllocError> {
    let mut digests = Vec::new(alloc);
    for node in nodes {
        let digest = match layers.get(node.layer) {
            Some(layer) => layer.roots().get(node.number),
            None => None,
        };
        if let Some(digest) = digest {
            digests.push(*digest)?;
        }
    }
    Ok(digests)
}

/// `known | ARITY | CAP | HEIGHTS | INDICES | NODES | sent or not sent | ANSWERS`: whether the pruned proof of the
/// indices has the digests of these nodes, in this order; then, without each of the nodes in turn and at last with all,
/// whether the nodes of the cap's layer above the indices are known. The proof is accepted.
pub fn known<const N: usize>(
    case: &mut Case<'_>,
    scheme: &mut FoldScheme<N, 1>,
) -> Result<(), Fault> {
    let alloc = case.alloc;
    let columns = case.columns()?;
    let (queries, given): (Vec<usize>, Vec<Node>) = case.read()?;
    let matrices = matrices_by(alloc, &columns)?;
    let committed = commit_shown::<u32, [u32; 1], _>(alloc, scheme, matrices)?;
    let (_, proof) = accepted_leaves::<u32, [u32; 1], _>(alloc, &*scheme, &committed, &queries)?;
    let layers = layers_of(alloc, &committed.tree)?;
    let are_sent = proof.sibling_hashes == digests_of(alloc, &layers, &given)?;
    case.answer
        .push_str(if are_sent { "sent |" } else { "not sent |" })?;
    let steps = scheme.proof_arity_schedule(alloc, &columns)?;
    for left_out in 0..=given.len() {
        let is_enough = suffices(alloc, &steps, &layers, &queries, &given, left_out)?;
        case.answer
            .push_str(if is_enough { " yes" } else { " no" })?;
    }
    Ok(())
}
