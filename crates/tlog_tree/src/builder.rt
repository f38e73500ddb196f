//! The tree of a log that is read once, with the values of wanted nodes.
ghost use Rattle.std.specs.Prelude.{◌≡◌, ℕ, ◌<◌, ◌≤◌, ◌+◌, ◌/◌, ◌^◌, nat_lt, if◌then◌else◌, List, [], ◌++◌};
ghost use Rattle.std.specs.Prelude.{IfOk, IfErr, length, slice_index_or, vec_len};
ghost use Rattle.sha2.specs.Sha256.{sha256};
ghost use Rattle.tlog.specs.Verdicts.{size_limit};
ghost use Rattle.tlog_tree.specs.Trees.{value_at, values_at};
ghost use Rattle.tlog_tree.specs.declared.node_id.NodeId.{NodeId};
ghost use Rattle.tlog_tree.specs.declared.error.TreeError.TheVariants.{OutOfMemory, SizeTooLarge};

use crate::error::TreeError;
use crate::frontier::{Frontier, root_of_nodes};
use crate::node_id::NodeId;
use crate::wanted::{WantedNode, whole_count};
use std::alloc::{AllocError, Global};

/// The tree of a log that is read once, from its first entry on, with the values of the nodes that were wanted when it
/// began, and nothing else: what proofs of inclusion and of consistency are computed from.
#[derive(Debug, Drop)]
pub struct TreeBuilder {
    frontier: Frontier,
    /// In the order of their ends, so that a push looks at those alone that end in it.
    wanted: Vec<WantedNode>,
}

impl TreeBuilder {
    ghost use Rattle.tlog_tree.specs.Builders.{IsBuilderOf};
    ghost use Rattle.tlog_tree.specs.Frontiers.{IsFrontierOf};
    ghost use Rattle.tlog_tree.specs.Wanted.{HasValue};

    /// The tree of no entries, where these nodes are wanted, in any order and as often as they are named.
    ///
    /// # Errors
    ///
    /// `AllocError` if memory runs out.
    pub fn new(alloc: Global, nodes: &[NodeId]) -> Result<TreeBuilder, AllocError>
        ensures { IfOk result (IsBuilderOf [] nodes.now) }
    {
        let mut wanted = Vec::with_capacity(alloc, nodes.len())?;
        for index in 0..nodes.len() {
            wanted.push(WantedNode {
                id: nodes[index],
                index,
                value: [0; 32],
            })?;
        }
        wanted.sort_unstable_by_key(|node| node.end());
        Ok(TreeBuilder {
            frontier: Frontier::new(alloc),
            wanted,
        })
    }

    /// Appends leaf hashes to those of the log. After an error the builder is gone.
    ///
    /// # Errors
    ///
    /// - `SizeTooLarge` if there would be more than 2^62;
    /// - `OutOfMemory` if memory runs out.
    pub fn push_many(mut self, alloc: Global, hashes: &[[u8; 32]]) -> Result<TreeBuilder, TreeError>
        ensures built { IfOk result (λ builder. (leaves : List (List ℕ)) (nodes : List NodeId) →
            IsBuilderOf leaves nodes self → IsBuilderOf (leaves ++ hashes.now) nodes builder) }
        ensures refused { IfErr result (λ e. e
            ≡ (if nat_lt size_limit (self.frontier.size + length hashes.now) then SizeTooLarge else OutOfMemory)) }
    {
        self.frontier.push_kept(alloc, hashes, &mut self.wanted)?;
        Ok(self)
    }

    /// The tree of the log so far.
    pub fn frontier(&self) -> &Frontier
        ensures { result.now ≡ self.now.frontier }
    {
        &self.frontier
    }

    /// The values of the wanted nodes in the tree so far, in the order in which they were wanted: `None` if a node has
    /// no leaves. A node that the end of the log cuts off has the value that is passed on, the root of the leaves that
    /// it has.
    ///
    /// # Errors
    ///
    /// `AllocError` if memory runs out.
    pub fn values(&self, alloc: Global) -> Result<Vec<Option<[u8; 32]>>, AllocError>
        ensures { IfOk result (λ values. (leaves : List (List ℕ)) (nodes : List NodeId) →
            IsBuilderOf leaves nodes self.now → values.items ≡ values_at sha256 leaves nodes) }
    {
        let mut values = vec![in alloc; None; self.wanted.len()]?;
        for node in &self.wanted {
            // Each index is below the count, though the node's type does not say so.
            if node.index < values.len() {
                values[node.index] = self.value(node);
            }
        }
        Ok(values)
    }

    /// The value of a wanted node: the hash that was kept for it, if all its leaves have come; the root of those that
    /// have come, if the end of the log cuts it off; `None` if none have come.
    fn value(&self, node: &WantedNode) -> Option<[u8; 32]>
        ensures { (leaves : List (List ℕ)) → IsFrontierOf leaves self.now.frontier →
            HasValue sha256 leaves node.now → result ≡ value_at sha256 leaves node.now.id }
    {
        let whole = whole_count(self.frontier.size(), node.id.layer);
        if node.id.slot < whole {
            return Some(node.value);
        }
        if node.id.slot == whole {
            return self.frontier.root_behind(whole);
        }
        None
    }
}
