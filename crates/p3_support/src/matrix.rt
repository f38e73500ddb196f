//! Matrices: a height, a width, and rows.
ghost use Rattle.std.specs.Prelude.{◌≡◌, ℕ, ◌+◌, ◌-◌, ◌*◌, ◌<◌, ◌≤◌, ◌^◌, ◌++◌, List, drop, length, map, slice_get};
ghost use Rattle.std.specs.Prelude.{take, ◌↔◌, IfErr, IfOk, IfSome, IsOk, Some};
ghost use Rattle.std.specs.List.{flat_map, range_with_len};
ghost use Rattle.std.specs.Iterator.{YieldsFirst, YieldsFirstBy, item_count};
ghost use Rattle.p3_support.specs.Batches.{dimensions_in};
ghost use Rattle.p3_support.specs.Lists.{message, column_of_rows, columns};
ghost use Rattle.p3_support.specs.Inner.RowLengths.{length-message};

use crate::packed::PackedValue;
use std::alloc::{AllocError, Global};
use std::marker::{Model, PhantomData};
use thiserror::Error;

/// The longest row, in elements, that is copied one by one: for so few, a call that copies a slice takes longer.
const FEW_WORDS: usize = 4;

/// The size of a matrix.
#[derive(Clone, Copy, Debug, PartialEq, Eq)]
pub struct Dimensions {
    /// How many elements a row has.
    pub width: usize,
    /// How many rows there are.
    pub height: usize,
}

/// A matrix of elements `T`, with `height` rows of `width` elements each. On one matrix each call always returns the
/// same.
pub trait Matrix<T> {
    // The number of rows.
    ghost height_of: { Self → ℕ };

    // The number of elements of each row.
    ghost width_of: { Self → ℕ };

    // The elements of a row, from the first column on.
    ghost row_of: { Self → ℕ → List T };

    /// The number of rows.
    fn height(&self) -> usize
        ensures { result ≡ height_of self.now };

    /// The number of elements of each row.
    fn width(&self) -> usize
        ensures { result ≡ width_of self.now };

    /// The element in a row and a column, both from 0. The row must be below the height, the column below the width.
    fn get(&self, row: usize, column: usize) -> T
        requires row_in { row < height_of self.now }
        requires column_in { column < width_of self.now }
        ensures { slice_get (row_of self.now row) column ≡ Some result };

    /// A slice of elements that the matrix stores one after another, from `column` of `row` on. It may end anywhere,
    /// run on into the next rows, or be empty: the caller reads the elements that it lacks by [`get`](Self::get). The
    /// row must be below the height, and the column at most the width.
    fn piece(&self, row: usize, column: usize) -> &[T]
        requires row_in { row < height_of self.now }
        requires column_in { column ≤ width_of self.now }
        ensures { let rows = range_with_len row (height_of self.now - row) in
            result.now ≡ take (length result.now) (drop column (flat_map (row_of self.now) rows)) }
    {
        &[]
    }

    /// Width and height.
    final fn dimensions(&self) -> Dimensions
        ensures width { result.width ≡ width_of self.now }
        ensures height { result.height ≡ height_of self.now }
    {
        Dimensions {
            width: self.width(),
            height: self.height(),
        }
    }

    /// The elements of a row, by ascending columns. The row must be below the height.
    final fn row(&self, row: usize) -> Row<'_, T, Self>
    where
        Self: Sized,
        requires { row < height_of self.now }
        ensures { result ≡ row_of self.now row }
    {
        Row {
            matrix: self,
            row,
            next: 0,
            item: PhantomData,
        }
    }

    /// Appends the elements of a row from `column` on to `words`, by ascending columns. The row must be below the
    /// height, and the column at most the width. Each is read by [`get`](Self::get), unless the matrix has a call of
    /// its own.
    ///
    /// # Errors
    ///
    /// `AllocError` if memory runs out. `words` may then have a part of the elements.
    fn append_from(&self, row: usize, column: usize, words: &mut Vec<T>) -> Result<(), AllocError>
    where
        T: Drop,
        requires row_in { row < height_of self.now }
        requires column_in { column ≤ width_of self.now }
        ensures { IfOk result (λ done. words.new.items ≡ words.old.items ++ drop column (row_of self.now row)) }
    {
        for next in column..self.width() {
            words.push(self.get(row, next))?;
        }
        Ok(())
    }

    /// Writes the elements of a row from `column` on into `out`, by ascending columns. The row must be below the
    /// height, the column at most the width, and `out` as long as these elements are many. Each is read by
    /// [`get`](Self::get), unless the matrix has its own call.
    fn write_from(&self, row: usize, column: usize, out: &mut [T])
    where
        T: Drop,
        requires row_in { row < height_of self.now }
        requires row_fills { column + length out.old ≡ width_of self.now }
        ensures { out.new ≡ drop column (row_of self.now row) }
    {
        // Only the proof in Rattle needs this line: the width fits `usize`, and so does the index of each column.
        let _width = self.width();
        for (i, word) in out.iter_mut().enumerate() {
            *word = self.get(row, column + i);
        }
    }

    /// Appends the elements of a row to `words`, by ascending columns. The row must be below the height. It copies what
    /// the matrix stores, and takes what is left by [`append_from`](Self::append_from).
    ///
    /// # Errors
    ///
    /// `AllocError` if memory runs out. `words` may then have a part of the row.
    final fn append_row(&self, row: usize, words: &mut Vec<T>) -> Result<(), AllocError>
    where
        T: Copy,
        requires { row < height_of self.now }
        ensures { IfOk result (λ done. words.new.items ≡ words.old.items ++ row_of self.now row) }
    {
        let width = self.width();
        let mut column = 0;
        while width > FEW_WORDS && column < width {
            let piece = self.piece(row, column);
            if piece.is_empty() {
                break;
            }
            let count = piece.len().min(width - column);
            words.extend_from_slice(&piece[..count])?;
            column += count;
        }
        self.append_from(row, column, words)
    }

    /// Writes the elements of a row into `out`, by ascending columns. The row must be below the height, and `out` as
    /// long as the matrix is wide. It copies what the matrix stores, and takes what is left by
    /// [`write_from`](Self::write_from).
    final fn write_row(&self, row: usize, out: &mut [T])
    where
        T: Copy,
        requires row_in { row < height_of self.now }
        requires row_fills { length out.old ≡ width_of self.now }
        ensures { out.new ≡ row_of self.now row }
    {
        let width = out.len();
        let mut column = 0;
        while width > FEW_WORDS && column < width {
            let piece = self.piece(row, column);
            if piece.is_empty() {
                break;
            }
            let count = piece.len().min(width - column);
            out[column..column + count].copy_from_slice(&piece[..count]);
            column += count;
        }
        self.write_from(row, column, &mut out[column..]);
    }

    /// `P::WIDTH` rows from `row` on, packed column by column: lane `k` of an item is the element of row `row + k`.
    /// `row + P::WIDTH` must be at most the height.
    final fn vertically_packed_row<P: PackedValue<Value = T>>(
        &self,
        row: usize,
    ) -> PackedRow<'_, T, P, Self>
    where
        Self: Sized,
        requires { row + P.WIDTH ≤ height_of self.now }
        ensures { result ≡ columns (row_of self.now) P.default_value row P.WIDTH (width_of self.now) }
    {
        PackedRow {
            matrix: self,
            row,
            next: 0,
            item: PhantomData,
        }
    }

    // Every row has as many elements as the matrix is wide.
    ghost length_row_of: { (m : Self) (r : ℕ) → r < height_of m → length (row_of m r) ≡ width_of m };
}

// So that a call that takes a slice of matrices also takes a slice of references.
impl<T, M: Matrix<T>> Matrix<T> for &M {
    ghost height_of = { λ m. M.height_of m.now };

    ghost width_of = { λ m. M.width_of m.now };

    ghost row_of = { λ m r. M.row_of m.now r };

    fn height(&self) -> usize {
        (**self).height()
    }

    fn width(&self) -> usize {
        (**self).width()
    }

    fn get(&self, row: usize, column: usize) -> T {
        (**self).get(row, column)
    }

    fn piece(&self, row: usize, column: usize) -> &[T] {
        (**self).piece(row, column)
    }

    fn append_from(&self, row: usize, column: usize, words: &mut Vec<T>) -> Result<(), AllocError>
    where
        T: Drop,
    {
        (**self).append_from(row, column, words)
    }

    fn write_from(&self, row: usize, column: usize, out: &mut [T])
    where
        T: Drop,
    {
        (**self).write_from(row, column, out)
    }

    ghost length_row_of = { λ m r h. M.length_row_of m.now r h };
}

/// An iterator over the elements of one row of a matrix, by ascending columns.
#[derive(Drop)]
pub struct Row<'a, T, M: Matrix<T>> {
    matrix: &'a M,
    row: usize,
    next: usize,
    item: PhantomData<T>,
}

impl<'a, T, M: Matrix<T>> Model for Row<'a, T, M> {
    ghost use Rattle.std.specs.Prelude.{List, drop, ◌<◌, ◌≤◌};

    ghost Value = { List T };

    // The elements that are left.
    ghost view = { λ s. drop s.next (M.row_of s.matrix.now s.row) };

    ghost invariant = { λ s. (s.row < M.height_of s.matrix.now) × (s.next ≤ M.width_of s.matrix.now) };
}

impl<'a, T, M: Matrix<T>> Iterator for Row<'a, T, M> {
    type Item = T;

    ghost next_gives = { YieldsFirst (λ rest. rest) };

    ghost remaining = { item_count (λ rest. rest) };

    fn next(&mut self) -> Option<T> {
        if self.next == self.matrix.width() {
            return None;
        }
        let item = self.matrix.get(self.row, self.next);
        self.next += 1;
        Some(item)
    }
}

/// An iterator over the columns of `P::WIDTH` rows, each column packed: lane `k` is from row `k` of these.
#[derive(Drop)]
pub struct PackedRow<'a, T, P: PackedValue<Value = T>, M: Matrix<T>> {
    matrix: &'a M,
    row: usize,
    next: usize,
    item: PhantomData<P>,
}

impl<'a, T, P: PackedValue<Value = T>, M: Matrix<T>> Model for PackedRow<'a, T, P, M> {
    ghost use Rattle.std.specs.Prelude.{List, ◌+◌, ◌≤◌, drop};
    ghost use Rattle.p3_support.specs.Lists.{columns};

    ghost Value = { List (List T) };

    // The columns that are left, each as its lanes.
    ghost view = { λ s. drop s.next
        (columns (M.row_of s.matrix.now) P.default_value s.row P.WIDTH (M.width_of s.matrix.now)) };

    ghost invariant = { λ s. (s.row + P.WIDTH ≤ M.height_of s.matrix.now) × (s.next ≤ M.width_of s.matrix.now) };
}

impl<'a, T, P: PackedValue<Value = T>, M: Matrix<T>> Iterator for PackedRow<'a, T, P, M> {
    type Item = P;

    ghost next_gives = { YieldsFirstBy P.lanes (λ rest. rest) };

    ghost remaining = { item_count (λ rest. rest) };

    fn next(&mut self) -> Option<P> {
        if self.next == self.matrix.width() {
            return None;
        }
        let item = packed_column(self.matrix, self.row, self.next);
        self.next += 1;
        Some(item)
    }
}

/// Packs one column of `P::WIDTH` rows from `row` on: lane `k` is the element of row `row + k`. `row + P::WIDTH` must
/// be at most the height, and the column below the width.
pub(crate) fn packed_column<P: PackedValue, M: Matrix<P::Value>>(
    matrix: &M,
    row: usize,
    column: usize,
) -> P
    requires rows { row + P.WIDTH ≤ M.height_of matrix.now }
    requires column { column < M.width_of matrix.now }
    ensures { P.lanes result ≡ column_of_rows (M.row_of matrix.now) P.default_value row P.WIDTH column }
{
    // Only the proof in Rattle needs this line: the height fits `usize`, and so does the index of each row.
    let _height = matrix.height();
    P::from_fn(
        |k| -> P::Value
            requires rows { row + k < M.height_of matrix.now }
            requires column { column < M.width_of matrix.now }
            requires fits { row + k < 2 ^ 64 }
            ensures { slice_get (M.row_of matrix.entry.now (row + k)) column ≡ Some result }
        { matrix.get(row + k, column) },
    )
}

/// The error of values that cannot be split into rows: the width does not divide their number.
#[derive(Clone, Copy, Debug, PartialEq, Eq, Error)]
#[error("{len} values cannot be split into rows of width {width}")]
pub struct ShapeError {
    /// How many values there are.
    pub len: usize,
    /// How many values a row should have.
    pub width: usize,
}

/// A matrix that stores its elements row after row.
#[derive(Debug, Drop)]
pub struct RowMajorMatrix<T> {
    values: Vec<T>,
    width: usize,
    height: usize,
    ghost full: { length values.items ≡ height * width },
    ghost width_fits: { width < 2 ^ 64 },
    ghost no_width: { width ≡ 0 → height ≡ 0 },
}

impl<T> RowMajorMatrix<T> {
    ghost use Rattle.p3_support.specs.RowMajor.{values_of, row_width, row_count};

    /// The matrix of these values, with `width` of them in a row. The width must divide the number of values, which
    /// [`try_new`](Self::try_new) tests. A width of 0 needs an empty list of values, and the matrix then has no rows.
    pub fn new(values: Vec<T>, width: usize) -> RowMajorMatrix<T>
        requires divides { (n : ℕ) × (length values.items ≡ n * width) }
        ensures values { values_of result ≡ values.items }
        ensures width { row_width result ≡ width }
        ensures height { length values.items ≡ row_count result * width }
        ensures no_width { width ≡ 0 → row_count result ≡ 0 }
    {
        let height = if width == 0 { 0 } else { values.len() / width };
        RowMajorMatrix {
            values,
            width,
            height,
        }
    }

    /// The matrix of these values, with `width` of them in a row, as [`new`](Self::new) returns it: for values from
    /// outside, whose number is not known to fit.
    ///
    /// # Errors
    ///
    /// `ShapeError` if the width does not divide the number of values. A width of 0 divides 0 alone.
    pub fn try_new(values: Vec<T>, width: usize) -> Result<RowMajorMatrix<T>, ShapeError>
    where
        T: Drop,
        ensures divides { IsOk result ↔ ((n : ℕ) × (length values.items ≡ n * width)) }
        ensures values { IfOk result (λ m. values_of m ≡ values.items) }
        ensures width { IfOk result (λ m. row_width m ≡ width) }
        ensures height { IfOk result (λ m. length values.items ≡ row_count m * width) }
        ensures no_width { IfOk result (λ m. width ≡ 0 → row_count m ≡ 0) }
        ensures error { IfErr result (λ e. (e.len ≡ length values.items) × (e.width ≡ width)) }
    {
        let len = values.len();
        if !len.is_multiple_of(width) {
            return Err(ShapeError { len, width });
        }
        Ok(RowMajorMatrix::new(values, width))
    }

    /// All elements, row after row.
    pub fn values(&self) -> &[T]
        ensures { result.now ≡ values_of self.now }
    {
        self.values.as_slice()
    }
}

/// Clones the elements. The clone has the same height and width.
impl<T: Clone> Clone for RowMajorMatrix<T> {
    ghost use Rattle.p3_support.specs.RowMajor.{IsMatrixClone};

    ghost is_clone = { IsMatrixClone T.is_clone };

    fn clone(&self) -> Result<RowMajorMatrix<T>, AllocError> {
        Ok(RowMajorMatrix {
            values: self.values.clone()?,
            width: self.width,
            height: self.height,
        })
    }
}

impl<T: Copy> Matrix<T> for RowMajorMatrix<T> {
    ghost use Rattle.p3_support.specs.RowMajor.{values_of, row_width, row_count};

    ghost height_of = { row_count };

    ghost width_of = { row_width };

    ghost row_of = { λ m r. message (row_width m) (values_of m) r };

    fn height(&self) -> usize {
        self.height
    }

    fn width(&self) -> usize {
        self.width
    }

    fn get(&self, row: usize, column: usize) -> T {
        self.values[row * self.width + column]
    }

    fn piece(&self, row: usize, column: usize) -> &[T] {
        &self.values[row * self.width + column..]
    }

    ghost length_row_of = { λ m r h. length-message m.values.items m.width m.height r m.full h };
}

/// The width and the height of each matrix, in input order.
///
/// # Errors
///
/// `AllocError` if memory runs out.
pub fn dimensions_of<T, M: Matrix<T>>(
    alloc: Global,
    matrices: &[M],
) -> Result<Vec<Dimensions>, AllocError>
    ensures { IfOk result (λ v. v.items ≡ dimensions_in M.height_of M.width_of matrices.now) }
{
    let mut dimensions = Vec::with_capacity(alloc, matrices.len())?;
    for matrix in matrices {
        dimensions.push(matrix.dimensions())?;
    }
    Ok(dimensions)
}
