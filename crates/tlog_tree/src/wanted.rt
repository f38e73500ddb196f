//! Nodes that are wanted, and what becomes of them as a log grows.
ghost use Rattle.std.specs.Prelude.{◌≡◌, ◌≤◌, ◌/◌, ◌^◌, map};
ghost use Rattle.tlog.specs.Verdicts.{size_limit};
ghost use Rattle.tlog_tree.specs.Wanted.{end_of};
ghost use Rattle.tlog_tree.specs.Inner.Wanted.{kept_in};

use crate::node_id::NodeId;
use tlog::SIZE_LIMIT;

/// A node that is wanted.
#[derive(Clone, Copy, Debug, PartialEq, Eq)]
pub struct WantedNode {
    /// Which node it is.
    pub id: NodeId,
    /// Its index among the wanted nodes, in the order of the call.
    pub index: usize,
    /// Its value, once all leaves below it have come.
    pub value: [u8; 32],
}

impl WantedNode {
    /// How many leaves a log has once the last leaf below this node has come; `SIZE_LIMIT + 1` if no log has so many.
    pub(crate) fn end(&self) -> usize
        ensures { result ≡ end_of self.now }
    {
        if self.id.slot < whole_count(SIZE_LIMIT, self.id.layer) {
            (self.id.slot + 1) << self.id.layer
        } else {
            SIZE_LIMIT + 1
        }
    }

    /// This node, with its value if it is one of `nodes`, which stand in the layer from slot `first` on.
    fn kept(self, layer: usize, first: usize, nodes: &[[u8; 32]]) -> WantedNode
        ensures { result ≡ kept_in layer first nodes.now self }
    {
        let slot = self.id.slot;
        if self.id.layer == layer && first <= slot && slot - first < nodes.len() {
            return WantedNode {
                value: nodes[slot - first],
                ..self
            };
        }
        self
    }
}

/// Sets the value of each wanted node that is one of `nodes`, which stand in the layer from slot `first` on.
pub(crate) fn keep(wanted: &mut [WantedNode], layer: usize, first: usize, nodes: &[[u8; 32]])
    ensures { wanted.new ≡ map (kept_in layer first nodes.now) wanted.old }
{
    for node in wanted.iter_mut() {
        *node = node.kept(layer, first, nodes);
    }
}

/// How many nodes of a layer have all their leaves, in a log of `size` entries.
pub(crate) fn whole_count(size: usize, layer: usize) -> usize
    requires { size ≤ size_limit }
    ensures { result ≡ size / 2 ^ layer }
{
    if layer < 64 { size >> layer } else { 0 }
}
