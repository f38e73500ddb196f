//! The rows of several matrices of one height, one after another.
ghost use Rattle.std.specs.Prelude.{◌≡◌, ℕ, ◌+◌, ◌*◌, ◌^◌, ◌<◌, ◌≤◌, All, IfSome, length, slice_index_or};
ghost use Rattle.std.specs.Iterator.{YieldsFirst, YieldsFirstBy, item_count};
ghost use Rattle.p3_support.specs.Lists.{columns_over, rows_of_height};
ghost use Rattle.p3_support.specs.Inner.Stored.{BeginsWith};

use crate::matrix::{Matrix, packed_column};
use crate::packed::PackedValue;
use std::marker::{Model, PhantomData};

/// An iterator over one row of each matrix of one height, in input order, element by element.
#[derive(Drop)]
pub struct Rows<'a, T, M: Matrix<T>> {
    matrices: &'a [M],
    height: usize,
    row: usize,
    next: usize,
    item: PhantomData<T>,
}

impl<'a, T, M: Matrix<T>> Model for Rows<'a, T, M> {
    ghost use Rattle.std.specs.Prelude.{List, ◌<◌};
    ghost use Rattle.p3_support.specs.Lists.{rows_left};

    ghost Value = { List T };

    // The elements that are left.
    ghost view = { λ s. rows_left M.height_of M.row_of s.height s.row s.matrices.now s.next };

    ghost invariant = { λ s. s.row < s.height };
}

/// The elements of row `row` of each of the `matrices` that have `height` rows, in input order. `row` must be below
/// `height`. The call does not allocate.
pub fn rows_of<'a, T, M: Matrix<T>>(matrices: &'a [M], height: usize, row: usize) -> Rows<'a, T, M>
    requires { row < height }
    ensures { result ≡ rows_of_height M.height_of M.row_of height row matrices.now }
{
    Rows {
        matrices,
        height,
        row,
        next: 0,
        item: PhantomData,
    }
}

impl<'a, T, M: Matrix<T>> Iterator for Rows<'a, T, M> {
    type Item = T;

    ghost next_gives = { YieldsFirst (λ rest. rest) };

    ghost remaining = { item_count (λ rest. rest) };

    fn next(&mut self) -> Option<T> {
        while let Some((first, others)) = self.matrices.split_first() {
            if first.height() == self.height && self.next < first.width() {
                let item = first.get(self.row, self.next);
                self.next += 1;
                return Some(item);
            }
            self.matrices = others;
            self.next = 0;
        }
        None
    }
}

/// The elements from row `row` on of the first of the `matrices`, if it stores at least `P::WIDTH` rows there in one
/// piece; else `None`. `row + P::WIDTH` must be at most the height of each.
#[inline(always)]
fn stored_rows<P: PackedValue, M: Matrix<P::Value>>(
    matrices: &[M],
    row: usize,
) -> Option<&[P::Value]>
    requires { All (λ m. row + P.WIDTH ≤ M.height_of m) matrices.now }
    ensures { IfSome result (λ piece. BeginsWith M.row_of M.width_of row P.WIDTH matrices.now piece.now) }
{
    let first = matrices.first()?;
    if P::WIDTH == 0 {
        return None;
    }
    let piece = first.piece(row, 0);
    if first.width() > piece.len() / P::WIDTH {
        return None;
    }
    Some(piece)
}

/// Packs one column of `P::WIDTH` rows of `width` elements each, which lie one after another in `rows`: lane `k` is
/// from row `k`. `rows` must reach to the column's element in the last of them.
#[inline(always)]
fn stored_column<P: PackedValue>(rows: &[P::Value], width: usize, column: usize) -> P
    requires first { column ≤ length rows.now }
    requires inside { (k : ℕ) → k < P.WIDTH → k * width + column < length rows.now }
    ensures { (k : ℕ) → k < P.WIDTH → slice_index_or (P.lanes result) k P.default_value
        ≡ slice_index_or rows.now (k * width + column) P.default_value }
{
    let lanes = &rows[column..];
    // Only the proof in Rattle needs this line: the length fits `usize`, and so does the index of each lane.
    let _len = lanes.len();
    P::from_fn(
        |k| -> P::Value
            requires inside { k * width < length lanes.now }
            requires fits { k * width < 2 ^ 64 }
            ensures { (d : _) → result ≡ slice_index_or lanes.entry.now (k * width) d }
        { lanes[k * width] },
    )
}

/// An iterator over the columns of `P::WIDTH` rows of each of several matrices, one matrix after another, each column
/// packed: lane `k` is from row `k` of these.
#[derive(Drop)]
pub struct PackedRows<'a, T, P: PackedValue<Value = T>, M: Matrix<T>> {
    matrices: &'a [M],
    stored: Option<&'a [T]>,
    row: usize,
    next: usize,
    item: PhantomData<P>,
}

impl<'a, T, P: PackedValue<Value = T>, M: Matrix<T>> Model for PackedRows<'a, T, P, M> {
    ghost use Rattle.std.specs.Prelude.{All, IfSome, List, ◌+◌, ◌≤◌};
    ghost use Rattle.p3_support.specs.Inner.Stored.{BeginsWith};
    ghost use Rattle.p3_support.specs.Lists.{columns_left};

    ghost Value = { List (List T) };

    // The columns that are left, each as its lanes.
    ghost view = { λ s. columns_left M.row_of M.width_of P.default_value s.row P.WIDTH s.matrices.now s.next };

    // `stored` has the rows of the first matrix where that stores them in one piece.
    ghost invariant = { λ s. All (λ m. s.row + P.WIDTH ≤ M.height_of m) s.matrices.now
        × IfSome s.stored (λ piece. BeginsWith M.row_of M.width_of s.row P.WIDTH s.matrices.now piece.now) };
}

/// `P::WIDTH` rows from `row` on of each of the `matrices`, packed column by column, one matrix after another: lane `k`
/// of an item is an element of row `row + k`. `row + P::WIDTH` must be at most the height of each.
pub fn packed_rows_of<'a, T, P: PackedValue<Value = T>, M: Matrix<T>>(
    matrices: &'a [M],
    row: usize,
) -> PackedRows<'a, T, P, M>
    requires { All (λ m. row + P.WIDTH ≤ M.height_of m) matrices.now }
    ensures { result ≡ columns_over M.row_of M.width_of P.default_value row P.WIDTH matrices.now }
{
    PackedRows {
        matrices,
        stored: stored_rows::<P, M>(matrices, row),
        row,
        next: 0,
        item: PhantomData,
    }
}

impl<'a, T, P: PackedValue<Value = T>, M: Matrix<T>> Iterator for PackedRows<'a, T, P, M> {
    type Item = P;

    ghost next_gives = { YieldsFirstBy P.lanes (λ rest. rest) };

    ghost remaining = { item_count (λ rest. rest) };

    // Inlined: a call for each column would pass the column and the position through memory.
    #[inline(always)]
    fn next(&mut self) -> Option<P> {
        while let Some((first, others)) = self.matrices.split_first() {
            let width = first.width();
            if self.next < width {
                let item = match self.stored {
                    Some(rows) => stored_column(rows, width, self.next),
                    None => packed_column(first, self.row, self.next),
                };
                self.next += 1;
                return Some(item);
            }
            self.stored = stored_rows::<P, M>(others, self.row);
            self.matrices = others;
            self.next = 0;
        }
        None
    }
}
