//! Laws of the definitions, each as the contract of a function that does nothing; and functions whose contracts say
//! that `==` on digests, caps, rules, dimensions, errors, openings, proofs, paths and collisions is equality of values.
//! The laws hold for every hash, every compression, every batch of lawful heights and every opening. The contracts of
//! the crates above cite the same definitions.
//!
//! - The honest opening of an index has the rows and siblings that the batch's own tree has.
//! - A pruned opening restores if its form is right and its rows agree: then it gives the digest of each covered node,
//!   and the path of each query.
//! - The check of an opening has an input at each place of its path: the words hashed at the leaf; on each level the
//!   digests of a group and, if matrices belong to the layer above, their words and the digests of a pair. Two checks
//!   share a place if they reach one node there.

ghost use Rattle.std.specs.Prelude.{◌≡◌, ◌↔◌, IsTrue};
ghost use Rattle.p3_support.specs.Shown.{digest_of_ref, roots_of};
ghost use Rattle.p3_merkle_core.specs.Refusals.{IsEquality};
ghost use Rattle.p3_merkle_core.specs.Views.{IsSamePair, shown_opening, shown_path, shown_pruned};
ghost use Rattle.p3_merkle_core.specs.Laws.{AnswerIsExtraction, TestedIsArity, UnrefusedIsLawful, WalkEnds};
ghost use Rattle.p3_merkle_core.specs.Laws.{AnsweredAsEachPath, BatchHasDimensions, BoundaryIsAlone, BoundaryIsLeast};
ghost use Rattle.p3_merkle_core.specs.Laws.{BoundaryIsFew, BoundaryIsSmallest, BoundaryNodesAreApart};
ghost use Rattle.p3_merkle_core.specs.Laws.{BoundaryNodesAreHeld};
ghost use Rattle.p3_merkle_core.specs.Laws.{BoundarySuffices, CappedIsEachAccepted, FixedIsBelowRoot, HonestIsAccepted};
ghost use Rattle.p3_merkle_core.specs.Laws.{HonestNodesAreRestored, HonestPathsAreRestored, HonestPathsInOrder};
ghost use Rattle.p3_merkle_core.specs.Laws.{HonestQueryIsAccepted, HonestQueryIsCapped, InputsAreFull};
ghost use Rattle.p3_merkle_core.specs.Laws.{LastDifferenceCollides, LastInputIsReached, LoweredLeavesNoneOut};
ghost use Rattle.p3_merkle_core.specs.Laws.{MatricesHaveLayers, OkIsAccepted, OkIsCapped, OkIsEachAccepted};
ghost use Rattle.p3_merkle_core.specs.Laws.{OkIsRestorable, OkOrCapMismatch, OneIndexIsBound, OwnOpeningIsHonest};
ghost use Rattle.p3_merkle_core.specs.Laws.{OwnPrunedOpeningIsHonest, PrunedAnswerIsExtraction, RefusedUnderEachCap};
ghost use Rattle.p3_merkle_core.specs.Laws.{OneHeightIsEnough, OneHeightNodesAreChildren, RootIsAlone};
ghost use Rattle.p3_merkle_core.specs.Laws.{RowsAreAncestors, RowsAreBound, RulesAgree, ScheduleStopsAtCap};

use crate::cap::CapRule;
use crate::collision::{Collision, InputPair, Place};
use crate::error::{MerkleTreeError, PrunedProofError};
use crate::pruning::{MerkleAuthPath, PrunedBatchOpening, PrunedMerklePaths};
use p3_support::matrix::{Dimensions, Matrix};
use p3_support::opening::{BatchOpening, Hash, MerkleCap};
use p3_support::packed::PackedValue;
/// `==` holds of two borrowed digests exactly if they are the same digest.
pub fn hash_eq<F, PW: PackedValue, const D: usize>(
    a: &Hash<'_, F, PW::Value, D>,
    b: &Hash<'_, F, PW::Value, D>,
) -> bool
    ensures { IsTrue result ↔ (digest_of_ref a.now ≡ digest_of_ref b.now) }
{
    *a == *b
}

/// `==` holds of two caps exactly if they have the same digests.
pub fn merkle_cap_eq<F, PW: PackedValue, const D: usize>(
    a: &MerkleCap<F, [PW::Value; D]>,
    b: &MerkleCap<F, [PW::Value; D]>,
) -> bool
    ensures { IsTrue result ↔ (roots_of a.now ≡ roots_of b.now) }
{
    *a == *b
}

/// `==` holds of two rules of caps exactly if they are the same value.
pub fn cap_rule_eq(a: &CapRule, b: &CapRule) -> bool
    ensures { IsTrue result ↔ (a.now ≡ b.now) }
{
    *a == *b
}

/// `==` holds of two dimensions exactly if they have the same width and the same height.
pub fn dimensions_eq(a: &Dimensions, b: &Dimensions) -> bool
    ensures { IsTrue result ↔ (a.now ≡ b.now) }
{
    *a == *b
}

/// `==` holds of two errors exactly if they are the same value.
pub fn error_eq(a: &MerkleTreeError, b: &MerkleTreeError) -> bool
    ensures { IsTrue result ↔ (a.now ≡ b.now) }
{
    *a == *b
}

/// `==` holds of two errors of pruned proofs exactly if they are the same value.
pub fn pruned_proof_error_eq(a: &PrunedProofError, b: &PrunedProofError) -> bool
    ensures { IsTrue result ↔ (a.now ≡ b.now) }
{
    *a == *b
}

/// `==` holds of two openings of one index exactly if they have the same rows and siblings.
pub fn batch_opening_eq<P: PackedValue, PW: PackedValue, const D: usize>(
    a: &BatchOpening<P::Value, Vec<[PW::Value; D]>>,
    b: &BatchOpening<P::Value, Vec<[PW::Value; D]>>,
) -> bool
    ensures { IsTrue result ↔ (shown_opening a.now ≡ shown_opening b.now) }
{
    *a == *b
}

/// `==` holds of two pruned proofs exactly if they have the same digests.
pub fn pruned_merkle_paths_eq<PW: PackedValue, const D: usize>(
    a: &PrunedMerklePaths<PW::Value, D>,
    b: &PrunedMerklePaths<PW::Value, D>,
) -> bool
    ensures { IsTrue result ↔ (a.now.sibling_hashes.items ≡ b.now.sibling_hashes.items) }
{
    *a == *b
}

/// `==` holds of two pruned openings exactly if they have the same row sets and digests.
pub fn pruned_batch_opening_eq<P: PackedValue, PW: PackedValue, const D: usize>(
    a: &PrunedBatchOpening<P::Value, PW::Value, D>,
    b: &PrunedBatchOpening<P::Value, PW::Value, D>,
) -> bool
    ensures { IsTrue result ↔ (shown_pruned a.now ≡ shown_pruned b.now) }
{
    *a == *b
}

/// `==` holds of two paths exactly if they have the same leaf index and siblings.
pub fn merkle_auth_path_eq<PW: PackedValue, const D: usize>(
    a: &MerkleAuthPath<PW::Value, D>,
    b: &MerkleAuthPath<PW::Value, D>,
) -> bool
    ensures { IsTrue result ↔ (shown_path a.now ≡ shown_path b.now) }
{
    *a == *b
}

/// `==` holds of two places exactly if they are the same value.
pub fn place_eq(a: &Place, b: &Place) -> bool
    ensures { IsTrue result ↔ (a.now ≡ b.now) }
{
    *a == *b
}

/// If `==` on `T` and on `X` is equality of values, `==` holds of input pairs exactly if both are of one variant, with
/// the same place and the same inputs.
fn input_pair_eq<T: Eq, X: Eq>(a: &InputPair<T, X>, b: &InputPair<T, X>) -> bool
    ensures { IsEquality T.eq → IsEquality X.eq → IsTrue result ↔ IsSamePair a.now b.now }
{
    *a == *b
}

/// `==` holds of two collisions exactly if they are of one variant, with the same place and the same inputs.
pub fn collision_eq<P: PackedValue, PW: PackedValue, const D: usize>(
    a: &Collision<P::Value, PW::Value, D>,
    b: &Collision<P::Value, PW::Value, D>,
) -> bool
    ensures { IsTrue result ↔ IsSamePair a.now b.now }
{
    input_pair_eq(a, b)
}

/// What holds of the shape of every tree, by clause:
///
/// - `arities`: the test of arities accepts exactly the powers of two from 2 to 2^62;
/// - `ends`: the steps from the leaves lead to the root, for all heights;
/// - `root`: the root is one node, unless no matrix has a row;
/// - `schedule`: the steps below a cap are the first of all steps;
/// - `layers`: each matrix has a layer of its exponent;
/// - `rows`: for lawful heights the row of an index in a matrix has the number of the index's ancestor in that layer;
/// - `gate`: [`check_heights`](crate::gate::check_heights) accepts exactly the lawful heights.
pub fn shape()
    ensures arities { TestedIsArity }
    ensures ends { WalkEnds }
    ensures root { RootIsAlone }
    ensures schedule { ScheduleStopsAtCap }
    ensures layers { MatricesHaveLayers }
    ensures rows { RowsAreAncestors }
    ensures gate { UnrefusedIsLawful }
{}

/// The dimensions in the shape of a batch of matrices are those that
/// [`dimensions_of`](p3_support::matrix::dimensions_of) returns of the matrices.
pub fn dimensions<T, M: Matrix<T>, const N: usize>()
    ensures { BatchHasDimensions M.height_of M.width_of M.row_of N }
{}

/// What holds of caps by the rules of [`CapRule`](crate::cap::CapRule), by clause:
///
/// - `lowered`: under the rule `Lowered` a cap authenticates every matrix;
/// - `agree`: if a cap of the rule `Fixed` does so too, both rules give the same cap;
/// - `fixed`: under `Fixed` the cap is the layer `cap_height` levels below the root, or the leaves if there are fewer.
pub fn caps()
    ensures lowered { LoweredLeavesNoneOut }
    ensures agree { RulesAgree }
    ensures fixed { FixedIsBelowRoot }
{}

/// What holds of matrices of one height, by clause:
///
/// - `shape`: each step is the arity; levels, nodes of each layer and the cap's layer follow from the height;
/// - `nodes`: a leaf is the hash of its rows, and each node above the leaves the compression of its children.
pub fn one_height<T, W>()
    ensures shape { OneHeightIsEnough }
    ensures nodes { OneHeightNodesAreChildren T W }
{}

/// What is accepted under a layer of the batch's own tree as the cap, by clause:
///
/// - `single`: the honest opening of each index;
/// - `pruned`: the honest pruned opening of each list of indices.
pub fn completeness<T, W>()
    ensures single { HonestIsAccepted T W }
    ensures pruned { HonestQueryIsAccepted T W }
{}

/// What an honest pruned opening of a lawful batch restores, and what is read from the layers of its tree, by clause:
///
/// - `nodes`: each covered node, up to the cap's layer, is restored as the tree's own node;
/// - `paths`: the restored path of each query has the siblings of the honest opening of its index;
/// - `in_order`: the restored paths are in query order;
/// - `opening`: the opening of an index that is read from the tree's layers is the honest one;
/// - `pruned_opening`: so is the pruned opening of several;
/// - `capped`: the tree's own layer, as the cap, has the restored digest of each covered node of that layer.
pub fn restoration<T, W>()
    ensures nodes { HonestNodesAreRestored T W }
    ensures paths { HonestPathsAreRestored T W }
    ensures in_order { HonestPathsInOrder T W }
    ensures opening { OwnOpeningIsHonest T W }
    ensures pruned_opening { OwnPrunedOpeningIsHonest T W }
    ensures capped { HonestQueryIsCapped T W }
{}

/// What a verifier's answer means, by clause:
///
/// - `single`: a single opening is answered `Ok` exactly if it is accepted;
/// - `pruned`: without a cap, a pruned opening is answered `Ok` exactly if it restores;
/// - `under_cap`: under a cap it is so exactly if it restores and the cap has each covered node of its layer;
/// - `each_path`: under a cap it is so exactly if it restores and each query is accepted with its restored path;
/// - `restored`: of an opening that restores, the two conditions under a cap are one;
/// - `refused`: an opening that does not restore is refused with the same error under each cap;
/// - `answered`: one that restores is answered `Ok` under a cap exactly if each query is, with its restored path;
/// - `mismatch`: one that restores is answered `Ok` or `CapMismatch` under each cap.
pub fn answers<T, W>()
    ensures single { OkIsAccepted T W }
    ensures pruned { OkIsRestorable T W }
    ensures under_cap { OkIsCapped T W }
    ensures each_path { OkIsEachAccepted T W }
    ensures restored { CappedIsEachAccepted T W }
    ensures refused { RefusedUnderEachCap T W }
    ensures answered { AnsweredAsEachPath T W }
    ensures mismatch { OkOrCapMismatch T W }
{}

/// What two accepted openings of one cap fix, by clause:
///
/// - `collision`: if they differ at a shared place, the last such place has two different inputs with one digest;
/// - `single`, `pruned`: the result that the definitions give for two openings is the first refusal; else `None` if all
///   checks agree where they share a place; else the collision of the first two queries whose checks differ;
/// - `rows`: if they agree at each shared place, each row of an authenticated matrix that both open is the same;
/// - `one_index`: two of one index agree exactly if they have the same siblings, and the same authenticated rows;
/// - `full`: each group or pair that a check compresses has as many digests as the arity;
/// - `last`: the digest of a check's last input is the one that is compared with the cap.
pub fn extraction<T, W>()
    ensures collision { LastDifferenceCollides T W }
    ensures single { AnswerIsExtraction T W }
    ensures pruned { PrunedAnswerIsExtraction T W }
    ensures rows { RowsAreBound T W }
    ensures one_index { OneIndexIsBound T W }
    ensures full { InputsAreFull T W }
    ensures last { LastInputIsReached T W }
{}

/// Why a pruned proof has the digests of the boundary, by clause. A node is known from a list of nodes if it is in the
/// list, if it is a queried leaf, or if it is no padding and all its children are known. A list suffices if each
/// covered node of the cap's layer is known from it.
///
/// - `suffices`: the boundary suffices;
/// - `smallest`: no list of uncovered nodes that suffices is shorter than the boundary;
/// - `alone`: one that is as short has the boundary's nodes;
/// - `least`: the boundary suffices, and every other list of uncovered nodes that suffices is longer;
/// - `few`: the boundary has at most as many nodes as the openings of the distinct indices have siblings, and just as
///   many for one index;
/// - `apart`: no node is under two boundary nodes;
/// - `held`: a list of uncovered nodes that suffices has each boundary node, or two different nodes under it.
pub fn boundary()
    ensures suffices { BoundarySuffices }
    ensures smallest { BoundaryIsSmallest }
    ensures alone { BoundaryIsAlone }
    ensures least { BoundaryIsLeast }
    ensures few { BoundaryIsFew }
    ensures apart { BoundaryNodesAreApart }
    ensures held { BoundaryNodesAreHeld }
{}
