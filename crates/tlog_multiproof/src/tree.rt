//! The nodes of a log's tree, and its hash and compression (RFC 9162, 2.1.1).
ghost use Rattle.std.specs.Prelude.{◌≡◌, ℕ, ◌<◌, ◌∷◌, [], map, refl};
ghost use Rattle.std.proofs.Common.{rules};
ghost use Rattle.p3_support.specs.Lists.{lane_of};
ghost use Rattle.p3_merkle_verifier.specs.Inner.Checks.{params_in};
ghost use Rattle.tlog_multiproof.specs.Instance.{log_dimensions, log_params, log_shape};
ghost use Rattle.tlog_multiproof.specs.Nodes.{last_word, parent_digest, parent};
ghost use Rattle.tlog_multiproof.specs.declared.tree.Node.TheVariants.{Absent};

use p3_merkle_core::schedule::schedule_of;
use p3_merkle_verifier::checker::Checker;
use p3_support::compress::PseudoCompressionFunction;
use p3_support::hasher::CryptographicHasher;
use p3_support::matrix::Dimensions;
use p3_support::packed::PackedValue;
use std::convert::AsSlice;
use std::marker::PhantomData;
use tlog::LogHash;

/// What a slot of a layer has: the hash of a node, or nothing where it is padding.
#[derive(Clone, Copy, Debug, Default, PartialEq, Eq)]
pub enum Node {
    /// There is no node.
    #[default]
    Absent,
    /// The SHA-256 value of a node.
    Hash([u8; 32]),
}

/// A node is packed alone, in one lane.
impl PackedValue for Node {
    type Value = Node;

    const WIDTH: usize = 1;

    ghost WIDTH = { 1 };

    ghost lanes = { λ p. p ∷ [] };

    ghost default_value = { Absent };

    fn broadcast(value: Node) -> Node {
        value
    }

    fn lane(&self, k: usize) -> Node {
        *self
    }

    fn with_lane(self, k: usize, value: Node) -> Node {
        value
    }

    ghost length_lanes = { λ p. refl };

    ghost eq_is_equality = { Prim.search rules };

    ghost default_is_unique = { λ a h. h };
}

/// The parent of two nodes: the hash of a byte 1 and both hashes (RFC 9162, 2.1.1), or the only child.
pub(crate) fn parent_of<H: LogHash<32>>(left: Node, right: Node) -> Node
    ensures { result ≡ parent H.hash left right }
{
    match (left, right) {
        (Node::Hash(left), Node::Hash(right)) => Node::Hash(H::node_hash(&left, &right)),
        (left, Node::Absent) => left,
        (Node::Absent, right) => right,
    }
}

/// The hash of a log's rows, each of which has one word, a leaf hash: that word. A longer row gives its last word, an
/// empty one `Absent`.
#[derive(Clone, Copy, Debug)]
pub struct LeafHashes;

impl CryptographicHasher<Node, Node, 1> for LeafHashes {
    const LANES: usize = 1;

    const PREFER_CONTIGUOUS_INPUT: bool = false;

    ghost hash = { λ h row. last_word row };

    fn hash_iter<I: Iterator<Item = Node>>(&self, input: I) -> [Node; 1] {
        [input.fold(Node::Absent, |_, word| word)]
    }

    fn hash_slice(&self, input: &[Node]) -> [Node; 1] {
        [input.iter().copied().fold(Node::Absent, |_, word| word)]
    }

    fn hash_iter_slices<S: AsSlice<Node> + Drop, I: Iterator<Item = S>>(
        &self,
        input: I,
    ) -> [Node; 1] {
        [input.fold(Node::Absent, |so_far, words| {
            words
                .as_slice()
                .iter()
                .copied()
                .fold(so_far, |_, word| word)
        })]
    }

    fn hash_packed<I: Iterator<Item = Node>>(&self, input: I) -> [Node; 1] {
        self.hash_iter(input)
    }
}

/// The compression of a log's tree under a hash function.
#[derive(Debug, Drop)]
pub struct NodeHashes<H> {
    hash: PhantomData<H>,
}

impl<H: LogHash<32>> PseudoCompressionFunction<Node, 2, 1> for NodeHashes<H> {
    const LANES: usize = 1;

    ghost compression = { λ c group. parent_digest H.hash group };

    fn compress(&self, input: [[Node; 1]; 2]) -> [Node; 1]
        ensures { result ≡ parent_digest H.hash input }
    {
        let [[left], [right]] = input;
        [parent_of::<H>(left, right)]
    }

    fn compress_packed(&self, input: [[Node; 1]; 2]) -> [Node; 1]
        ensures { (k : ℕ) → k < 1 → lane_of (λ node. node ∷ []) Absent k result
            ≡ parent_digest H.hash (map (lane_of (λ node. node ∷ []) Absent k) input) }
    {
        self.compress(input)
    }
}

/// The dimensions of the column of a log's leaf hashes.
pub(crate) fn dimensions_of(size: usize) -> [Dimensions; 1]
    ensures { result ≡ log_dimensions size }
{
    [Dimensions {
        width: 1,
        height: size,
    }]
}

/// The tree of a log under a hash function, as openings of it are checked.
#[derive(Drop)]
pub(crate) struct LogTree<H> {
    hash: LeafHashes,
    compress: NodeHashes<H>,
    dimensions: [Dimensions; 1],
}

impl<H: LogHash<32>> LogTree<H> {
    /// The tree of a log of `size` entries.
    pub(crate) fn new(size: usize) -> LogTree<H>
        ensures { result.dimensions ≡ log_dimensions size }
    {
        LogTree {
            hash: LeafHashes,
            compress: NodeHashes { hash: PhantomData },
            dimensions: dimensions_of(size),
        }
    }

    /// The checker of openings of the tree, whose cap is the root.
    pub(crate) fn checker(
        &self,
    ) -> Checker<'_, Node, Node, LeafHashes, NodeHashes<H>, [[Node; 1]; 2], 2, 1>
        ensures { (size : ℕ) → self.now.dimensions ≡ log_dimensions size →
            params_in result ≡ log_params H.hash size }
    {
        let schedule = schedule_of(&self.dimensions, 2);
        let cap_layer = schedule.num_levels;
        Checker {
            hash: &self.hash,
            compress: &self.compress,
            schedule,
            cap_layer,
            item: PhantomData,
        }
    }
}
