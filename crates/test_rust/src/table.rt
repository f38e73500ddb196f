//! The matrices of cases. Unlike a `RowMajorMatrix` they can have rows of no words.

ghost use Rattle.test_rust.specs.Tables.{height_in, row_in, width_in, length-row_in};

use crate::numbers::{Fault, Numbers, Part};
use p3_support::matrix::{Dimensions, Matrix, RowMajorMatrix};

/// A matrix.
#[derive(Drop)]
pub enum Table<T> {
    /// Rows of at least one word, or no rows.
    Rows(RowMajorMatrix<T>),
    /// So many rows of no words.
    Blank(usize),
}

impl<T: Copy + Default> Matrix<T> for Table<T> {
    ghost height_of = { height_in };

    ghost width_of = { width_in };

    ghost row_of = { row_in };

    fn height(&self) -> usize {
        match self {
            Table::Rows(rows) => rows.height(),
            Table::Blank(height) => *height,
        }
    }

    fn width(&self) -> usize {
        match self {
            Table::Rows(rows) => rows.width(),
            Table::Blank(_) => 0,
        }
    }

    fn get(&self, row: usize, column: usize) -> T {
        match self {
            Table::Rows(rows) => rows.get(row, column),
            Table::Blank(_) => T::default(),
        }
    }

    fn piece(&self, row: usize, column: usize) -> &[T] {
        match self {
            Table::Rows(rows) => rows.piece(row, column),
            Table::Blank(_) => &[],
        }
    }

    ghost length_row_of = { length-row_in };
}

/// The matrix of these words, `width` of them in each of `height` rows.
fn table_of<T: Drop>(words: Vec<T>, height: usize, width: usize) -> Result<Table<T>, Fault> {
    if width == 0 {
        return Ok(Table::Blank(height));
    }
    match RowMajorMatrix::try_new(words, width) {
        Ok(rows) => Ok(Table::Rows(rows)),
        Err(_) => Err(Fault::NoCase),
    }
}

/// A matrix, `HEIGHT WIDTH WORDS..`.
fn table_in<T: Part>(numbers: &mut Numbers<'_>) -> Result<Table<T>, Fault> {
    let Dimensions { width, height } = numbers.sizes()?;
    let mut words = Vec::new(numbers.alloc);
    for _ in 0..height.saturating_mul(width) {
        words.push(T::read(numbers)?)?;
    }
    table_of(words, height, width)
}

/// The list of matrices at the end of a case.
pub fn tables_in<T: Part>(numbers: &mut Numbers<'_>) -> Result<Vec<Table<T>>, Fault> {
    let mut tables = Vec::new(numbers.alloc);
    for _ in 0..usize::read(numbers)? {
        tables.push(table_in(numbers)?)?;
    }
    numbers.end()?;
    Ok(tables)
}
