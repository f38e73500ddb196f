//! Heights, widths and lengths of layers, computed from the dimensions of matrices. Nothing here allocates.
//!
//! Heights are lawful if each is the tallest one halved, and each time rounded up, some number of times. The slots of a
//! layer are its nodes, then default digests as padding.

ghost use Rattle.std.specs.Prelude.{◌≡◌, ◌/◌, ◌%◌, ◌^◌, ◌<◌, ◌≤◌, Some, None, MatchResult, ◌==◌, ◌+◌, map};
ghost use Rattle.p3_support.specs.Batches.{heights_of, greatest, widened, CanWiden};
ghost use Rattle.p3_support.specs.Rows.{rows_in};
ghost use Rattle.p3_merkle_core.specs.Geometry.{bits_reduced, exponent, height_at, height_limit, padded_len};
ghost use Rattle.p3_merkle_core.specs.Gate.{first_too_large};
ghost use Rattle.p3_merkle_core.specs.Refusals.{width_refusal};
ghost use Rattle.p3_merkle_core.specs.Inner.Shapes.{shortest};

use crate::error::MerkleTreeError;
use p3_support::matrix::Dimensions;
use p3_support::row_parts::RowParts;

/// The greatest height of a matrix, in rows: 2^62. It keeps the slots of all layers within `usize`.
pub const MAX_HEIGHT: usize = 1 << 62;

/// The path of an index to the cap: for each level below the cap, from the leaves up, how many children a node has, and
/// the position of the index's ancestor among them.
#[derive(Debug, Clone, Drop)]
pub struct ArityAndPositions {
    /// The step of each level, in children per node.
    pub arity_schedule: Vec<usize>,
    /// The position of the ancestor on each level, from 0.
    pub query_positions: Vec<usize>,
}

/// The exponent of a height: the least `k` with `2^k >= height` (`log2_ceil_usize` in Plonky3).
pub fn exponent_of(height: usize) -> usize
    ensures { result ≡ exponent height }
{
    (usize::BITS - height.saturating_sub(1).leading_zeros()) as usize
}

/// The greatest and the least height of the matrices, in rows; both are 0 if there are none. It reads each matrix once.
pub(crate) fn extremes_of(dimensions: &[Dimensions]) -> (usize, usize)
    ensures greatest { result.0 ≡ greatest (heights_of dimensions.now) }
    ensures least { result.1 ≡ shortest (heights_of dimensions.now) }
{
    let Some((first, others)) = dimensions.split_first() else {
        return (0, 0);
    };
    let mut max_height = first.height;
    let mut min_height = first.height;
    for matrix in others {
        max_height = max_height.max(matrix.height);
        min_height = min_height.min(matrix.height);
    }
    (max_height, min_height)
}

/// How many halvings, each rounded up, lead from the tallest height down to this one, if both are lawful. It is the
/// exponent of `max_height` less that of `height`, or 0 if that of `height` is greater.
pub fn bits_reduced_of(max_height: usize, height: usize) -> usize
    ensures { result ≡ bits_reduced max_height height }
{
    exponent_of(max_height).saturating_sub(exponent_of(height))
}

/// The lawful height with this exponent, where `max_height` is the tallest: `max_height` halved, and each time rounded
/// up, until it has the exponent. Where the exponent of `max_height` is not above `exponent`, it is `max_height`
/// itself, or 1 if that is 0. `max_height` must be at most [`MAX_HEIGHT`].
pub fn height_of_exponent(max_height: usize, exponent: usize) -> usize
    requires { max_height ≤ height_limit }
    ensures { result ≡ height_at max_height exponent }
{
    // Halving and rounding up `k` times gives (max_height - 1) / 2^k, rounded down, plus 1.
    (max_height.saturating_sub(1) >> exponent_of(max_height).saturating_sub(exponent)) + 1
}

/// The position of the first matrix whose height is above [`MAX_HEIGHT`], if there is one. `max_height` must be the
/// tallest height: where it is within the limit, no other height is read.
pub(crate) fn first_too_large_of(dimensions: &[Dimensions], max_height: usize) -> Option<usize>
    requires { max_height ≡ greatest (heights_of dimensions.now) }
    ensures { result ≡ first_too_large (heights_of dimensions.now) }
{
    if max_height <= MAX_HEIGHT {
        return None;
    }
    dimensions
        .iter()
        .map(|matrix| matrix.height)
        .position(|height| height > MAX_HEIGHT)
}

/// Checks that an opening has one row for each matrix, each as wide as its matrix (`check_widths` in Plonky3).
///
/// # Errors
///
/// The first of these that applies:
///
/// - `WrongBatchSize` if the number of rows is not that of the matrices;
/// - `WrongWidth` for the first row whose length is not the width of its matrix.
pub fn check_widths<T>(dimensions: &[Dimensions], rows: &[Vec<T>]) -> Result<(), MerkleTreeError>
    ensures { MatchResult result (λ ok. width_refusal dimensions.now (map (λ r. r.items) rows.now) ≡ None)
        (λ e. width_refusal dimensions.now (map (λ r. r.items) rows.now) ≡ Some e) }
{
    let (expected, got) = (dimensions.len(), rows.len());
    if got != expected {
        return Err(MerkleTreeError::WrongBatchSize { expected, got });
    }
    for matrix in 0..dimensions.len() {
        let (expected, got) = (dimensions[matrix].width, rows[matrix].len());
        if got != expected {
            return Err(MerkleTreeError::WrongWidth {
                matrix,
                expected,
                got,
            });
        }
    }
    Ok(())
}

/// Checks that there is one row for each matrix, and that each is as wide as its matrix with `salt_elems` salts.
///
/// # Errors
///
/// The first of these that applies:
///
/// - `WrongBatchSize` if the number of rows is not that of the matrices;
/// - `WrongWidth` for the first row whose length is not the width of its matrix with its salts. Where a row has more
///   words than `usize` can count, as words of no size can be, `got` is `usize::MAX`.
pub fn check_row_widths<T>(
    dimensions: &[Dimensions],
    salt_elems: usize,
    mut rows: RowParts<'_, T>,
) -> Result<(), MerkleTreeError>
    requires { 0 < salt_elems → CanWiden salt_elems dimensions.now }
    ensures { let refusal = width_refusal (widened salt_elems dimensions.now) (rows_in rows.entry) in
        MatchResult result (λ ok. refusal ≡ None) (λ e. refusal ≡ Some e) }
{
    if salt_elems == 0 {
        if let RowParts::Vecs(rows) = rows {
            // Through `RowParts` a row takes three times as long, and most rows are vectors.
            return check_widths(dimensions, rows);
        }
    }
    let (expected, got) = (dimensions.len(), rows.num_rows());
    if got != expected {
        return Err(MerkleTreeError::WrongBatchSize { expected, got });
    }
    let mut matrix = 0;
    while let Some((first, second)) = rows.next_row() {
        let expected = dimensions[matrix].width + salt_elems;
        if !has_width(expected, first.len(), second.len()) {
            return Err(MerkleTreeError::WrongWidth {
                matrix,
                expected,
                got: first.len().saturating_add(second.len()),
            });
        }
        matrix += 1;
    }
    Ok(())
}

/// Whether a row in two parts, of `first` and of `second` words, has `width` words. Both together may be more than
/// `usize` can count.
fn has_width(width: usize, first: usize, second: usize) -> bool
    ensures { result ≡ (width == first + second) }
{
    first <= width && second == width - first
}

/// How many slots a layer of `len` nodes has: `len` if that is at most 1, else the least multiple of `arity` that is
/// not below it. The arity must be above 0, and the result must fit `usize`.
pub fn padded_len(len: usize, arity: usize) -> usize
    requires positive { 0 < arity }
    requires fits { padded_len len arity < 2 ^ 64 }
    ensures { result ≡ padded_len len arity }
{
    if len <= 1 {
        len
    } else if len < arity {
        arity
    } else {
        len.next_multiple_of(arity)
    }
}

/// The parent of a node, both by their numbers in their layers. `step` is how many children a parent has, at least 1.
pub fn parent_of(node: usize, step: usize) -> usize
    requires { 0 < step }
    ensures { result ≡ node / step }
{
    // A shift takes less time than a division.
    let bits = step.trailing_zeros();
    if bits < usize::BITS && 1 << bits == step {
        node >> bits
    } else {
        node / step
    }
}

/// The position of a node among its parent's children, from 0. `node` is its number in its layer, and `step` how many
/// children a parent has, at least 1.
pub fn position_of(node: usize, step: usize) -> usize
    requires { 0 < step }
    ensures { result ≡ node % step }
{
    node - step * parent_of(node, step)
}
