//! What a Merkle commitment to matrices of different heights is: the shape of its tree, the value of each
//! node, when an opening is accepted, and what follows from that. The definitions stand in `specs/`; the code
//! computes shapes and says why dimensions or rows are refused.
//!
//! - The exponent of a height is its log2, rounded up. Heights are lawful if each is the tallest one halved, and each
//!   time rounded up, some number of times.
//! - Layer 0 is the leaves; level `l` leads from layer `l` to layer `l + 1`. The slots of a layer are its nodes, then
//!   default digests as padding. The step of a level is how many children each node above it has: the arity, or 2 if a
//!   step of the arity would pass over a matrix's layer (a bridge step).
//! - A matrix belongs to the layer of its exponent. The cap is one layer, and authenticates the matrices of its own
//!   layer and of those below it.
//! - A query is the index of a leaf. A node is covered if it is a queried leaf or above one. The boundary is the
//!   children of covered nodes that are not covered themselves: a pruned proof has their digests.
#![tactic(auto)]

pub mod cap;
pub mod collision;
pub mod covered_nodes;
pub mod error;
pub mod gate;
pub mod geometry;
pub mod group;
pub mod laws;
pub mod layer_shape;
pub mod pruning;
pub mod schedule;
