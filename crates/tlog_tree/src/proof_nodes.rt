//! Which nodes the digests of honest proofs are.
ghost use Rattle.std.specs.Prelude.{◌≡◌, ℕ, ◌<◌, ◌≤◌, ◌+◌, ◌^◌, ◌++◌, List, IfOk, OnOk, length};
ghost use Rattle.tlog.specs.Rfc9162.{Hash, consistency_proof, path};
ghost use Rattle.tlog.specs.Verdicts.{size_limit};
ghost use Rattle.tlog_tree.specs.Inner.Layers.{layer_of};
ghost use Rattle.tlog_tree.specs.Trees.{all_there, values_at};

use crate::node_id::NodeId;
use std::alloc::{AllocError, Global};

/// The nodes whose values are the proof of inclusion of entry `index`, counted from 0, in a log of `size` entries, in
/// the order of the proof (RFC 9162, 2.1.3.1), as a [`TreeBuilder`](crate::TreeBuilder) takes them. The index must be
/// below the size.
///
/// # Errors
///
/// `AllocError` if memory runs out.
pub fn inclusion_nodes(alloc: Global, index: usize, size: usize) -> Result<Vec<NodeId>, AllocError>
    requires { index < size }
    ensures { IfOk result (λ nodes. (hash : Hash) (leaves : List (List ℕ)) → length leaves ≡ size →
        values_at hash leaves nodes.items ≡ all_there (path hash (λ leaf. leaf) index leaves)) }
{
    let mut nodes = Vec::new(alloc);
    add_path(&mut nodes, 0, index, size - 1)?;
    Ok(nodes)
}

/// The nodes of the new tree whose values are the proof of consistency from `old_size` to `new_size` entries, in the
/// order of the proof (RFC 9162, 2.1.4.1), as a [`TreeBuilder`](crate::TreeBuilder) takes them. The old size must be
/// above 0, and below the new one.
///
/// # Errors
///
/// `AllocError` if memory runs out.
pub fn consistency_nodes(
    alloc: Global,
    old_size: usize,
    new_size: usize,
) -> Result<Vec<NodeId>, AllocError>
    requires some { 0 < old_size }
    requires grown { old_size < new_size }
    ensures { IfOk result (λ nodes. (hash : Hash) (leaves : List (List ℕ)) → length leaves ≡ new_size →
        values_at hash leaves nodes.items ≡ all_there (consistency_proof hash (λ leaf. leaf) old_size leaves)) }
{
    let mut layer = 0;
    let mut old = old_size;
    let mut last = new_size - 1;
    // The last old node is whole up to this layer.
    while old % 2 == 0 {
        old /= 2;
        last /= 2;
        layer += 1;
    }
    let mut nodes = Vec::new(alloc);
    // If the old size is a power of two, the verifier has the node's value: it is the old root.
    if old > 1 {
        nodes.push(NodeId {
            layer,
            slot: old - 1,
        })?;
    }
    add_path(&mut nodes, layer, old - 1, last)?;
    Ok(nodes)
}

/// Appends to `nodes` the siblings on the way up from the node `slot` of layer `layer`, but for those past the end of
/// their layer. `last` is the last slot of layer `layer`, at least `slot`. `AllocError` if memory runs out.
fn add_path(
    nodes: &mut Vec<NodeId>,
    layer: usize,
    slot: usize,
    last: usize,
) -> Result<(), AllocError>
    requires within { slot ≤ last }
    requires fits { layer + last < 2 ^ 64 }
    ensures { OnOk result ((hash : Hash) (leaves : List (List ℕ)) → length (layer_of hash layer leaves) ≡ last + 1 →
        values_at hash leaves nodes.new.items
        ≡ values_at hash leaves nodes.old.items
        ++ all_there (path hash (λ leaf. leaf) slot (layer_of hash layer leaves))) }
{
    let mut layer = layer;
    let mut slot = slot;
    let mut last = last;
    while last > 0 {
        let sibling = if slot % 2 == 0 { slot + 1 } else { slot - 1 };
        if sibling <= last {
            nodes.push(NodeId {
                layer,
                slot: sibling,
            })?;
        }
        slot /= 2;
        last /= 2;
        layer += 1;
    }
    Ok(())
}
