//! The call about openings of matrices.

ghost use Rattle.std.specs.Prelude.{◌≡◌, ◌⊎◌, ◌↔◌, ℕ, pos, length, map, nat_lt, sum_by};
ghost use Rattle.std.specs.Prelude.{Err, IfOk, IsOk, IsTrue, None, Some};
ghost use Rattle.std.specs.Result.{result_err};
ghost use Rattle.p3_merkle_core.specs.Checks.{IsAccepted, Params};
ghost use Rattle.p3_answers.specs.Answers.{ok_unless};
ghost use Rattle.p3_merkle_core.specs.declared.error.MerkleTreeError.TheVariants.{OutOfMemory};
ghost use Rattle.fohlazu_c.specs.Openings.{is_arity_taken, opening_status, params_at, params_shown};
ghost use Rattle.fohlazu_c.specs.Openings.{presented_opening, refusal_at, size_shown};

use crate::setting::{MatrixSize, TreeSetting, rule};
use crate::statuses::NO_SUCH_TREE;
use p3_hashes::sha::{Sha256Nodes, Sha256Rows};
use p3_merkle_core::cap::CapRule;
use p3_merkle_core::error::MerkleTreeError;
use p3_merkle_tree::mmcs::MerkleTreeMmcs;
use p3_support::matrix::Dimensions;
use p3_support::row_parts::RowParts;
use std::alloc::{AllocError, Global};

type Scheme<const N: usize> = MerkleTreeMmcs<u8, u8, Sha256Rows, Sha256Nodes<N>, N, 32>;

/// Verifies an opening of the row `index` of the tallest matrix, counted from 0, as `verify_batch` of the library does,
/// under SHA-256. `roots` has the digests of the cap, and `sizes` the dimensions of each matrix, in input order. `rows`
/// has the bytes of the row of each matrix, one after another: as many as all widths together. `siblings` has the
/// digests on the path to the cap.
///
/// It returns 8 if the arity is not 2, 4 or 8, or the rule not 0 or 1. Else it returns 0 if the opening is accepted, or
/// the number of the first reason that applies, where 12, that memory ran out, may come at any time:
///
/// - 11: `rows` has more bytes than all widths together;
/// - 9: no matrix has a row; 1: a height is above 2^62; 10: no tree has these heights;
/// - 4, 5: there are fewer siblings than the levels below the cap need, or more;
/// - 11: `rows` has fewer bytes than all widths together;
/// - 2: the index is not below the tallest height;
/// - 7: the cap has no digest above the leaf, or another than the one computed.
#[unsafe(no_mangle)]
pub extern "C" fn fohlazu_verify_opening(
    alloc: Global,
    setting: &TreeSetting,
    roots: &[[u8; 32]],
    sizes: &[MatrixSize],
    index: usize,
    rows: &[u8],
    siblings: &[[u8; 32]],
) -> i32
    ensures setting { (result ≡ pos 8) ↔ (params_shown setting.now (map size_shown sizes.now) ≡ None) }
    ensures accepted { (c : Params ℕ ℕ) → params_shown setting.now (map size_shown sizes.now) ≡ Some c →
        result ≡ pos 0 →
        IsAccepted c roots.now (presented_opening (map size_shown sizes.now) index rows.now siblings.now) }
    ensures status { (c : Params ℕ ℕ) → params_shown setting.now (map size_shown sizes.now) ≡ Some c →
        (result ≡ pos 12) ⊎ (result ≡ opening_status (refusal_at c roots.now
        (presented_opening (map size_shown sizes.now) index rows.now siblings.now))) }
{
    let claim = Claim {
        roots,
        sizes,
        index,
        rows,
        siblings,
    };
    match (setting.arity, rule(setting.cap_rule)) {
        (2, Some(rule)) => status(verdict::<2>(alloc, setting.cap_height, rule, claim)),
        (4, Some(rule)) => status(verdict::<4>(alloc, setting.cap_height, rule, claim)),
        (8, Some(rule)) => status(verdict::<8>(alloc, setting.cap_height, rule, claim)),
        _ => NO_SUCH_TREE,
    }
}

/// What is claimed: the cap, the dimensions of the matrices, the index, their rows one after another, and the siblings.
#[derive(Clone, Copy)]
struct Claim<'a> {
    roots: &'a [[u8; 32]],
    sizes: &'a [MatrixSize],
    index: usize,
    rows: &'a [u8],
    siblings: &'a [[u8; 32]],
}

/// The verdict on a claim under an arity: that of `verify_batch`, or `OutOfMemory`, which may come at any time. The
/// rows are read where they lie.
fn verdict<const N: usize>(
    alloc: Global,
    cap_height: usize,
    rule: CapRule,
    claim: Claim<'_>,
) -> Result<(), MerkleTreeError>
    requires { IsTrue (is_arity_taken N) }
    ensures answer { let dimensions = map size_shown claim.entry.sizes.now in
        (result ≡ Err OutOfMemory) ⊎ (result
        ≡ ok_unless (refusal_at (params_at N cap_height rule dimensions) claim.entry.roots.now
        (presented_opening dimensions claim.entry.index claim.entry.rows.now claim.entry.siblings.now)) tt) }
    ensures accepted { let dimensions = map size_shown claim.entry.sizes.now in
        IsOk result → IsAccepted (params_at N cap_height rule dimensions) claim.entry.roots.now
        (presented_opening dimensions claim.entry.index claim.entry.rows.now claim.entry.siblings.now) }
{
    if has_extra_bytes(claim.sizes, claim.rows) {
        // The bytes that are left over count as one row too many.
        let expected = claim.sizes.len();
        return Err(MerkleTreeError::WrongBatchSize {
            expected,
            got: expected + 1,
        });
    }
    let dimensions = &dimensions_of(alloc, claim.sizes)?;
    let rows = RowParts::Flat {
        words: claim.rows,
        dimensions,
    };
    let scheme = Scheme::<N>::new_with_rule(Sha256Rows, Sha256Nodes::<N>, cap_height, rule);
    scheme.verify_rows(claim.roots, dimensions, claim.index, rows, claim.siblings)
}

/// Whether `rows` has more bytes than one row of each matrix: than all widths together, at a byte a value.
fn has_extra_bytes(sizes: &[MatrixSize], rows: &[u8]) -> bool
    ensures { result ≡ nat_lt (sum_by (λ size. size.width) sizes.now) (length rows.now) }
{
    let mut left = rows.len();
    for size in sizes {
        left = left.saturating_sub(size.width);
    }
    left > 0
}

/// `sizes` as the library's `Dimensions`. `AllocError` if memory runs out.
fn dimensions_of(alloc: Global, sizes: &[MatrixSize]) -> Result<Vec<Dimensions>, AllocError>
    ensures { IfOk result (λ dimensions. dimensions.items ≡ map size_shown sizes.now) }
{
    let to_dimensions = |&MatrixSize { height, width }: &MatrixSize| Dimensions { height, width };
    sizes.iter().map(to_dimensions).collect(alloc)
}

/// The status of a verdict, by the numbers that the C header lists.
fn status(verdict: Result<(), MerkleTreeError>) -> i32
    ensures { result ≡ opening_status (result_err verdict) }
{
    match verdict {
        Ok(()) => 0,
        Err(MerkleTreeError::TooLarge { .. }) => 1,
        Err(MerkleTreeError::IndexOutOfBounds { .. }) => 2,
        Err(
            MerkleTreeError::WrongHeight {
                expected_proof_len: expected,
                num_siblings: got,
            },
        ) if got < expected => 4,
        Err(MerkleTreeError::WrongHeight { .. }) => 5,
        // No opening of one index has a malformed pruned proof.
        Err(MerkleTreeError::CapMismatch | MerkleTreeError::MalformedPrunedProof(_)) => 7,
        Err(MerkleTreeError::EmptyBatch) => 9,
        Err(MerkleTreeError::IncompatibleHeights { .. }) => 10,
        Err(MerkleTreeError::WrongBatchSize { .. } | MerkleTreeError::WrongWidth { .. }) => 11,
        Err(MerkleTreeError::OutOfMemory) => 12,
    }
}
