//! The rows of openings, wherever they lie. A row set has one row of each matrix, in input order.

ghost use Rattle.std.specs.Prelude.{◌≡◌, ◌++◌, ◌<◌, [], drop, length, map, slice_get, slice_index_or};
ghost use Rattle.std.specs.Cmp.Lexicographic.{pointwise};
ghost use Rattle.std.specs.Option.{option_map};
ghost use Rattle.p3_support.specs.Batches.{widths_of};
ghost use Rattle.p3_support.specs.RowSets.{sets_in};
ghost use Rattle.p3_support.specs.Rows.{first_len, parts_of, rows_in};
ghost use Rattle.p3_support.specs.Shown.{row_lists, row_sets};

use crate::matrix::Dimensions;

/// The rows of one opening, one of each matrix, in input order. A row is read in two parts, one after the other, so
/// that a check reads a row and its salts where they lie, and copies neither.
///
/// A value is a cursor: it has the rows that are left, and a copy of it goes on from where it stands.
#[derive_where(Clone, Copy)]
pub enum RowParts<'a, T> {
    /// Each row is a vector.
    Vecs(&'a [Vec<T>]),
    /// Each row is a slice.
    Slices(&'a [&'a [T]]),
    /// Each row is followed by its salts. Rows and lists of salts are paired in order, up to the end of the shorter
    /// list.
    Salted {
        /// The rows.
        rows: &'a [Vec<T>],
        /// The salts of each row.
        salts: &'a [Vec<T>],
    },
    /// Each row is a slice, and is followed by its salts. Rows and lists of salts are paired as in `Salted`.
    SaltedSlices {
        /// The rows.
        rows: &'a [&'a [T]],
        /// The salts of each row.
        salts: &'a [Vec<T>],
    },
    /// The rows lie one after another in one slice, each as long as its matrix is wide. The last row has all words that
    /// are left, so that a slice of another length has a row of another length than its matrix.
    Flat {
        /// The words of the rows.
        words: &'a [T],
        /// The dimensions of the matrices, in input order.
        dimensions: &'a [Dimensions],
    },
}

/// The length of the next row, of width `width`, when `left` words are left and rows of `others` follow: `width`, or
/// `left` if that is less; the last row takes all `left`.
fn first_len(width: usize, others: &[Dimensions], left: usize) -> usize
    ensures { result ≡ first_len width (widths_of others.now) left }
{
    if others.is_empty() {
        left
    } else {
        width.min(left)
    }
}

impl<'a, T> RowParts<'a, T> {
    /// How many rows are left.
    pub fn num_rows(&self) -> usize
        ensures { result ≡ length (parts_of self.now) }
    {
        match self {
            RowParts::Vecs(rows) => rows.len(),
            RowParts::Slices(rows) => rows.len(),
            RowParts::Salted { rows, salts } => rows.len().min(salts.len()),
            RowParts::SaltedSlices { rows, salts } => rows.len().min(salts.len()),
            RowParts::Flat { dimensions, .. } => dimensions.len(),
        }
    }

    /// Takes the next row: its first and its second part. The second is empty if the row lies in one piece. `None` if
    /// no row is left.
    // A call that is not inlined writes the row and what is left to memory, for each row of each layer.
    #[inline(always)]
    #[tactic(auto, unfolding(crate::specs::Rows::flat_rows))]
    pub fn next_row(&mut self) -> Option<(&'a [T], &'a [T])>
        ensures row { option_map (λ (first, second). (first.now, second.now)) result
            ≡ slice_get (parts_of self.old) 0 }
        ensures rest { parts_of self.new ≡ drop 1 (parts_of self.old) }
    {
        match *self {
            RowParts::Vecs(rows) => {
                let (row, rows) = rows.split_first()?;
                *self = RowParts::Vecs(rows);
                Some((row.as_slice(), &[]))
            }
            RowParts::Slices(rows) => {
                let (row, rows) = rows.split_first()?;
                *self = RowParts::Slices(rows);
                Some((*row, &[]))
            }
            RowParts::Salted { rows, salts } => {
                let (row, rows) = rows.split_first()?;
                let (salt, salts) = salts.split_first()?;
                *self = RowParts::Salted { rows, salts };
                Some((row.as_slice(), salt.as_slice()))
            }
            RowParts::SaltedSlices { rows, salts } => {
                let (row, rows) = rows.split_first()?;
                let (salt, salts) = salts.split_first()?;
                *self = RowParts::SaltedSlices { rows, salts };
                Some((*row, salt.as_slice()))
            }
            RowParts::Flat { words, dimensions } => {
                let (matrix, dimensions) = dimensions.split_first()?;
                let len = first_len(matrix.width, dimensions, words.len());
                let (row, words) = words.split_at(len);
                *self = RowParts::Flat { words, dimensions };
                Some((row, &[]))
            }
        }
    }
}

impl<'a, T> RowParts<'a, T> {
    /// The row of a matrix, in its two parts. The matrix must be below the number of rows.
    fn nth_row(self, matrix: usize) -> (&'a [T], &'a [T])
        requires { matrix < length (parts_of self) }
        ensures { (result.0.now, result.1.now) ≡ slice_index_or (parts_of self.entry) matrix ([], []) }
    {
        match self {
            RowParts::Vecs(rows) => (row_at(rows, matrix), &[]),
            RowParts::Slices(rows) => (slice_at(rows, matrix), &[]),
            RowParts::Salted { rows, salts } => (row_at(rows, matrix), row_at(salts, matrix)),
            RowParts::SaltedSlices { rows, salts } => {
                (slice_at(rows, matrix), row_at(salts, matrix))
            }
            RowParts::Flat { .. } => self.row_after(matrix),
        }
    }

    /// The row that follows `matrix` rows, in its two parts. There must be more rows than these, which are passed one
    /// by one: where a row begins in one slice depends on all before it.
    fn row_after(mut self, matrix: usize) -> (&'a [T], &'a [T])
        requires { matrix < length (parts_of self) }
        ensures { (result.0.now, result.1.now) ≡ slice_index_or (parts_of self.entry) matrix ([], []) }
    {
        for _ in 0..matrix {
            self.next_row();
        }
        match self.next_row() {
            Some(row) => row,
            None => (&[], &[]),
        }
    }
}

impl<'a, T: Eq> RowParts<'a, T> {
    /// Whether both have the same rows, however they are parted.
    pub fn same_rows(mut self, mut other: RowParts<'_, T>) -> bool
        ensures { result ≡ pointwise (pointwise T.eq) (rows_in self.entry) (rows_in other.entry) }
    {
        while let Some(row) = self.next_row() {
            let Some(other_row) = other.next_row() else {
                return false;
            };
            if !same_row(row, other_row) {
                return false;
            }
        }
        other.next_row().is_none()
    }
}

/// Whether two rows, each in two parts, have the same words.
pub fn same_row<T: Eq>(row: (&[T], &[T]), other: (&[T], &[T])) -> bool
    ensures { result ≡ pointwise T.eq (row.entry.0.now ++ row.entry.1.now) (other.entry.0.now ++ other.entry.1.now) }
{
    let ((first, second), (other_first, other_second)) = (row, other);
    if second.is_empty() && other_second.is_empty() {
        return first == other_first;
    }
    if first.len() <= other_first.len() {
        let (front, back) = other_first.split_at(first.len());
        first == front && is_joined(second, back, other_second)
    } else {
        let (front, back) = first.split_at(other_first.len());
        front == other_first && is_joined(other_second, back, second)
    }
}

/// Whether `row` is `first` followed by `second`.
fn is_joined<T: Eq>(row: &[T], first: &[T], second: &[T]) -> bool
    ensures { result ≡ pointwise T.eq row.now (first.now ++ second.now) }
{
    if row.len() < first.len() {
        return false;
    }
    let (front, back) = row.split_at(first.len());
    front == first && back == second
}

/// The row sets of several queries. Each row is read in two parts, as in [`RowParts`].
#[derive_where(Clone, Copy)]
pub enum RowSets<'a, T> {
    /// Each row is a vector.
    Vecs(&'a [Vec<Vec<T>>]),
    /// Each row is followed by its salts. Row sets and salt sets are paired in order, and so are the rows and the lists
    /// of salts of each, up to the end of the shorter list.
    Salted {
        /// The row sets.
        sets: &'a [Vec<Vec<T>>],
        /// The salts of each row of each set.
        salts: &'a [Vec<Vec<T>>],
    },
    /// The rows of each query lie in a form of their own.
    Parts(&'a [RowParts<'a, T>]),
}

impl<'a, T> RowSets<'a, T> {
    /// How many row sets there are.
    pub fn num_sets(&self) -> usize
        ensures { result ≡ length (sets_in self.now) }
    {
        match self {
            RowSets::Vecs(sets) => sets.len(),
            RowSets::Salted { sets, salts } => sets.len().min(salts.len()),
            RowSets::Parts(sets) => sets.len(),
        }
    }

    /// The row set of a query, which must be below the number of row sets.
    pub fn rows(&self, query: usize) -> RowParts<'a, T>
        requires { query < length (sets_in self.now) }
        ensures { rows_in result ≡ slice_index_or (sets_in self.now) query [] }
    {
        match *self {
            RowSets::Vecs(sets) => RowParts::Vecs(set_at(sets, query)),
            RowSets::Salted { sets, salts } => RowParts::Salted {
                rows: set_at(sets, query),
                salts: set_at(salts, query),
            },
            RowSets::Parts(sets) => parts_at(sets, query),
        }
    }

    /// The row that a query opened of a matrix: its first and its second part, which is empty if the row lies in one
    /// piece. The query must be below the number of row sets, and the matrix below the number of its rows.
    pub fn row(&self, query: usize, matrix: usize) -> (&'a [T], &'a [T])
        requires query { query < length (sets_in self.now) }
        requires matrix { matrix < length (slice_index_or (sets_in self.now) query []) }
        ensures { result.0.now ++ result.1.now
            ≡ slice_index_or (slice_index_or (sets_in self.now) query []) matrix [] }
    {
        match *self {
            RowSets::Vecs(sets) => (row_at(set_at(sets, query), matrix), &[]),
            RowSets::Salted { sets, salts } => (
                row_at(set_at(sets, query), matrix),
                row_at(set_at(salts, query), matrix),
            ),
            RowSets::Parts(sets) => parts_at(sets, query).nth_row(matrix),
        }
    }
}

/// The row set of a query, which must be below the number of row sets.
fn set_at<'a, T>(sets: &'a [Vec<Vec<T>>], query: usize) -> &'a [Vec<T>]
    requires { query < length sets.now }
    ensures { row_lists result.now ≡ slice_index_or (row_sets sets.now) query [] }
{
    &sets[query]
}

/// The rows of a query, which must be below the number of row sets.
fn parts_at<'a, T>(sets: &'a [RowParts<'a, T>], query: usize) -> RowParts<'a, T>
    requires { query < length sets.now }
    ensures { rows_in result ≡ slice_index_or (map (λ rows. rows_in rows) sets.now) query [] }
{
    sets[query]
}

/// The row of a matrix, which must be below the number of rows.
fn row_at<'a, T>(rows: &'a [Vec<T>], matrix: usize) -> &'a [T]
    requires { matrix < length rows.now }
    ensures { result.now ≡ slice_index_or (row_lists rows.now) matrix [] }
{
    &rows[matrix]
}

/// The row of a matrix, which must be below the number of rows.
fn slice_at<'a, T>(rows: &'a [&'a [T]], matrix: usize) -> &'a [T]
    requires { matrix < length rows.now }
    ensures { result.now ≡ slice_index_or (map (λ row. row.now) rows.now) matrix [] }
{
    rows[matrix]
}
