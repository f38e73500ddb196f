//! Checks of rows and their salts, and the dimensions of matrices whose rows have salts. A row set has one row of each
//! matrix, a salt set one list of salts for each row.

ghost use Rattle.std.specs.Prelude.{◌≡◌, IfOk, MatchResult, None, Some};
ghost use Rattle.p3_support.specs.Batches.{widened, CanWiden};
ghost use Rattle.p3_support.specs.Shown.{row_lists, row_sets};
ghost use Rattle.p3_merkle_tree.specs.SaltRefusals.{row_and_salt_form_refusal, salted_rows_refusal};
ghost use Rattle.p3_merkle_tree.specs.SaltRefusals.{salted_sets_refusal, widening_refusal};

use p3_merkle_core::error::MerkleTreeError;
use p3_merkle_core::geometry::check_widths;
use p3_support::matrix::Dimensions;
use std::alloc::{AllocError, Global};

/// Checks the rows and the salts of one index. `rows` is the row set, `salts` the salt set. `dimensions` are those of
/// the matrices without salts. How many salts a row has is not checked.
///
/// # Errors
///
/// The first of these that applies:
///
/// - the error of [`check_widths`] for the rows;
/// - `WrongBatchSize` if there are not as many lists of salts as rows;
/// - `TooLarge` for the first matrix whose width with `salt_elems` more columns does not fit `usize`.
pub fn check_salted_rows<T>(
    dimensions: &[Dimensions],
    salt_elems: usize,
    rows: &[Vec<T>],
    salts: &[Vec<T>],
) -> Result<(), MerkleTreeError>
    ensures answer { let refusal = salted_rows_refusal salt_elems dimensions.now (row_lists rows.now)
        (row_lists salts.now) in
        MatchResult result (λ ok. refusal ≡ None) (λ e. refusal ≡ Some e) }
    ensures fits { IfOk result (λ ok. CanWiden salt_elems dimensions.now) }
{
    check_rows_and_salts(dimensions, rows, salts)?;
    check_widening(dimensions, salt_elems)
}

/// Checks the rows and the salts of several indices. `sets` has a row set for each index, and `salts` a salt set.
/// `dimensions` are those of the matrices without salts. How many salts a row has is not checked.
///
/// # Errors
///
/// The first of these that applies:
///
/// - `WrongBatchSize` if the number of salt sets is not that of the row sets;
/// - for each row set in turn, the error of [`check_widths`], else `WrongBatchSize` if the number of lists of salts is
///   not that of the rows;
/// - `TooLarge` for the first matrix whose width with `salt_elems` more columns does not fit `usize`.
pub fn check_salted_sets<T>(
    dimensions: &[Dimensions],
    salt_elems: usize,
    sets: &[Vec<Vec<T>>],
    salts: &[Vec<Vec<T>>],
) -> Result<(), MerkleTreeError>
    ensures answer { let refusal = salted_sets_refusal salt_elems dimensions.now (row_sets sets.now)
        (row_sets salts.now) in
        MatchResult result (λ ok. refusal ≡ None) (λ e. refusal ≡ Some e) }
    ensures fits { IfOk result (λ ok. CanWiden salt_elems dimensions.now) }
{
    if salts.len() != sets.len() {
        return Err(MerkleTreeError::WrongBatchSize {
            expected: sets.len(),
            got: salts.len(),
        });
    }
    for (rows, salt_set) in sets.iter().zip(salts) {
        check_rows_and_salts(dimensions, rows, salt_set)?;
    }
    check_widening(dimensions, salt_elems)
}

/// Checks by [`check_widths`] that there is one row for each matrix, of the matrix's width without salts; and then that
/// there is one list of salts for each row, else `WrongBatchSize`.
fn check_rows_and_salts<T>(
    dimensions: &[Dimensions],
    rows: &[Vec<T>],
    salts: &[Vec<T>],
) -> Result<(), MerkleTreeError>
    ensures { let refusal = row_and_salt_form_refusal dimensions.now (row_lists rows.now) (row_lists salts.now) in
        MatchResult result (λ ok. refusal ≡ None) (λ e. refusal ≡ Some e) }
{
    check_widths(dimensions, rows)?;
    if salts.len() != rows.len() {
        return Err(MerkleTreeError::WrongBatchSize {
            expected: rows.len(),
            got: salts.len(),
        });
    }
    Ok(())
}

/// Checks that each width fits `usize` with `salt_elems` more columns: `TooLarge` for the first that does not, with the
/// width as the size.
pub fn check_widening(dimensions: &[Dimensions], salt_elems: usize) -> Result<(), MerkleTreeError>
    ensures answer { let refusal = widening_refusal salt_elems dimensions.now in
        MatchResult result (λ ok. refusal ≡ None) (λ e. refusal ≡ Some e) }
    ensures fits { IfOk result (λ ok. CanWiden salt_elems dimensions.now) }
{
    for matrix in 0..dimensions.len() {
        let width = dimensions[matrix].width;
        if width > usize::MAX - salt_elems {
            return Err(MerkleTreeError::TooLarge {
                matrix,
                size: width,
            });
        }
    }
    Ok(())
}

/// The dimensions, each with `salt_elems` more columns. The new widths must fit `usize`. `AllocError` if memory runs
/// out.
pub fn widened_dimensions(
    alloc: Global,
    dimensions: &[Dimensions],
    salt_elems: usize,
) -> Result<Vec<Dimensions>, AllocError>
    requires { CanWiden salt_elems dimensions.now }
    ensures { IfOk result (λ v. v.items ≡ widened salt_elems dimensions.now) }
{
    let mut wider = Vec::with_capacity(alloc, dimensions.len())?;
    for matrix in dimensions {
        wider.push(Dimensions {
            width: matrix.width + salt_elems,
            height: matrix.height,
        })?;
    }
    Ok(wider)
}
