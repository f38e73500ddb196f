//! From commit to verdict: each public function commits to matrices, opens rows of them, and has the opening verified
//! and compared with an opening that anybody claims. Its contract is the whole statement, for every packing, hash,
//! compression, matrix type, arity and length of digests. The crate sees the public contracts of the library alone.
//!
//! A contract says what the calls return: the cap and the layers are the definition's, the opening is the honest one,
//! the verdict is `Ok`. It can't say that the calls are made. A body that writes down `Ok(())` in place of
//! `verify_batch` is proved, too. So read the bodies: they are these calls, and `laws` whose contracts the proofs need.
#![tactic(auto)]

pub mod by_paths;
pub mod plain;
pub mod salted;

use p3_merkle_tree::MerkleTreeError;

/// What a commitment, an opening, its verification and its comparison with a claimed opening return.
#[derive(Drop)]
pub struct Compared<Cap, Tree, Opening, Found> {
    /// The cap of the tree.
    pub cap: Cap,
    /// The tree over the matrices.
    pub tree: Tree,
    /// What is opened of the tree.
    pub opening: Opening,
    /// What the verification of the opening under the cap answers.
    pub verdict: Result<(), MerkleTreeError>,
    /// A collision of the claimed opening and this one; `None` if the claimed one is accepted and all checks agree; or
    /// the error for the claimed one.
    pub found: Result<Option<Found>, MerkleTreeError>,
}
