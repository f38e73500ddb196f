//! Which node of a log's tree is meant.

/// The node of layer `layer` (0: the leaves) that is the `slot`-th from the left, counted from 0. Below it are the
/// 2^layer leaves from slot * 2^layer on, as far as the log has them: in a log of 7 entries the node of layer 2 and
/// slot 1 has the leaves 4, 5 and 6 below it.
#[derive(Clone, Copy, Debug, PartialEq, Eq)]
pub struct NodeId {
    /// The layer: 0 has the leaf hashes, and each other one the parents of the nodes of the layer below.
    pub layer: usize,
    /// The position in the layer, counted from 0.
    pub slot: usize,
}
