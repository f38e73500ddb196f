//! The matrices of cases, written out or by their dimensions.

use crate::case::Fault;
use crate::field::Item;
use p3_support::matrix::{Dimensions, RowMajorMatrix};
use std::alloc::{AllocError, Global};

/// A word of rows.
pub trait Word: Item + Copy + PartialEq {
    /// Whether rows of two words or more have twins: others with the same digest.
    const HAS_TWINS: bool;

    /// The word at a place of a matrix that is given by its dimensions: the place modulo 251.
    fn at(place: usize) -> Self;

    /// Makes the twin of a row.
    fn make_twin(row: &mut [Self]);
}

impl Word for u32 {
    const HAS_TWINS: bool = true;

    fn at(place: usize) -> u32 {
        (place % 251) as u32
    }

    fn make_twin(row: &mut [u32]) {
        if row.len() >= 2 {
            row[0] = row[0].wrapping_add(1);
            row[1] = row[1].wrapping_sub(31);
        }
    }
}

impl Word for u8 {
    const HAS_TWINS: bool = false;

    fn at(place: usize) -> u8 {
        (place % 251) as u8
    }

    fn make_twin(_row: &mut [u8]) {}
}

/// The matrix of these words with rows of this width.
fn matrix_of<T: Word>(words: Vec<T>, width: usize) -> Result<RowMajorMatrix<T>, Fault> {
    RowMajorMatrix::try_new(words, width).map_err(|_| Fault::Unreadable("a matrix has no words"))
}

/// Matrices of these dimensions.
pub fn matrices_by<T: Word>(
    alloc: Global,
    dimensions: &[Dimensions],
) -> Result<Vec<RowMajorMatrix<T>>, Fault> {
    let mut matrices = Vec::new(alloc);
    for Dimensions { width, height } in dimensions {
        let mut words = Vec::new(alloc);
        for place in 0..width.saturating_mul(*height) {
            words.push(T::at(place))?;
        }
        matrices.push(matrix_of(words, *width)?)?;
    }
    Ok(matrices)
}

/// The matrix whose rows stand in a text, with `,` between them.
fn written_matrix<T: Word>(alloc: Global, text: &str) -> Result<RowMajorMatrix<T>, Fault> {
    let mut words = Vec::new(alloc);
    let mut width = 0;
    for row in text.split(", ") {
        let row = Vec::<T>::parse(alloc, row)?;
        if width != 0 && row.len() != width {
            return Err(Fault::Unreadable("rows of a matrix have different widths"));
        }
        width = row.len();
        words.extend_from_slice(&row)?;
    }
    matrix_of(words, width)
}

/// The matrices in a text: their rows, with `;` between the matrices, or their dimensions.
pub fn matrices_in<T: Word>(alloc: Global, text: &str) -> Result<Vec<RowMajorMatrix<T>>, Fault> {
    if text.contains('x') {
        return matrices_by(alloc, &Vec::parse(alloc, text)?);
    }
    let mut matrices = Vec::new(alloc);
    for matrix in text.split("; ") {
        matrices.push(written_matrix(alloc, matrix)?)?;
    }
    Ok(matrices)
}

/// Rows with the twin of the row of one matrix.
fn twin_rows<T: Word>(
    alloc: Global,
    rows: &[Vec<T>],
    matrix: usize,
) -> Result<Vec<Vec<T>>, AllocError> {
    let mut twin = Vec::new(alloc);
    for (place, row) in rows.iter().enumerate() {
        let mut row = Vec::from_slice(alloc, row)?;
        if place == matrix {
            T::make_twin(&mut row);
        }
        twin.push(row)?;
    }
    Ok(twin)
}

/// Row sets with the twins of the rows of one matrix.
pub fn twin_sets<T: Word>(
    alloc: Global,
    sets: &[Vec<Vec<T>>],
    matrix: usize,
) -> Result<Vec<Vec<Vec<T>>>, AllocError> {
    let mut twin = Vec::new(alloc);
    for rows in sets {
        twin.push(twin_rows(alloc, rows, matrix)?)?;
    }
    Ok(twin)
}
