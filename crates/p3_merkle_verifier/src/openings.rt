//! Openings as a check reads them: a single one with its index, a pruned one, and the rows of both. The exponent of a
//! matrix is log2 of its height, rounded up. A query is one index of a pruned opening; a row set is its rows.

ghost use Rattle.std.specs.Prelude.{◌≡◌, ◌++◌, ◌<◌, ◌≤◌, All, length, map, zip};
ghost use Rattle.std.specs.Iterator.{YieldsFirstBy, item_count};
ghost use Rattle.p3_support.specs.Batches.{greatest, heights_of, widths_of};
ghost use Rattle.p3_support.specs.Rows.{parts_of, rows_in};
ghost use Rattle.p3_support.specs.RowSets.{sets_in};
ghost use Rattle.p3_merkle_core.specs.Checks.{words_of_exponent};
ghost use Rattle.p3_merkle_core.specs.Geometry.{height_limit, shape_of};
ghost use Rattle.p3_merkle_core.specs.Inner.Agreement.{opened_of, AreDistinctOf};
ghost use Rattle.p3_merkle_core.specs.Pruning.{boundary, CanQuery, IsAgreed};
ghost use Rattle.p3_merkle_verifier.specs.Inner.OpenedRows.{opened_row, HaveRows};
ghost use Rattle.p3_merkle_verifier.specs.Inner.Parts.{parts_left, parts_of_exponent, rows_left, salted_left};
ghost use Rattle.p3_merkle_verifier.specs.Inner.Parts.{words_left};

use p3_merkle_core::geometry::exponent_of;
use p3_merkle_core::pruning::DistinctQueries;
use p3_merkle_core::schedule::Schedule;
use p3_support::matrix::{Dimensions, Matrix};
use p3_support::opening::BatchOpeningRef;
use p3_support::row_parts::{RowParts, RowSets};

/// A borrowed opening with the index of its leaf.
#[derive_where(Clone, Copy)]
pub struct OpeningRef<'a, T, X> {
    /// The index of the leaf.
    pub index: usize,
    /// One row of each matrix, in input order.
    pub rows: RowParts<'a, T>,
    /// The siblings on the leaf's path, level by level from the leaves up.
    pub siblings: &'a [X],
}

impl<'a, T, W, const D: usize> OpeningRef<'a, T, [W; D]> {
    ghost use Rattle.p3_merkle_core.specs.Views.{opening_borrowed};
    ghost use Rattle.p3_merkle_verifier.specs.Inner.Checks.{opening_in};

    /// The opening of the leaf `index` that has the rows and siblings of `opening`.
    pub fn new(
        index: usize,
        opening: BatchOpeningRef<'a, T, Vec<[W; D]>>,
    ) -> OpeningRef<'a, T, [W; D]>
        ensures { opening_in result ≡ opening_borrowed index opening.entry }
    {
        OpeningRef {
            index,
            rows: RowParts::Vecs(opening.opened_values),
            siblings: opening.opening_proof,
        }
    }
}

/// The parts of the rows of the matrices of one exponent, row after row. `rows` has one row of each matrix, in input
/// order. Nothing is copied.
#[derive(Drop)]
pub(crate) struct OpenedParts<'a, T> {
    /// The dimensions of the matrices.
    pub dimensions: &'a [Dimensions],
    /// Their rows.
    pub rows: RowParts<'a, T>,
    /// The exponent of the matrices whose rows are yielded.
    pub exponent: usize,
    /// The second part of the row whose first part was yielded last; empty if none is due.
    pub second: &'a [T],
}

impl<'a, T> OpenedParts<'a, T> {
    /// The parts of the rows of the matrices of this exponent.
    pub fn new(
        dimensions: &'a [Dimensions],
        rows: RowParts<'a, T>,
        exponent: usize,
    ) -> OpenedParts<'a, T>
        ensures { parts_left result ≡ parts_of_exponent exponent (heights_of dimensions.now) (parts_of rows.entry) }
    {
        OpenedParts {
            dimensions,
            rows,
            exponent,
            second: &[],
        }
    }
}

impl<'a, T> Iterator for OpenedParts<'a, T> {
    type Item = &'a [T];

    ghost next_gives = { YieldsFirstBy (λ part. part.now) parts_left };

    ghost remaining = { item_count parts_left };

    #[tactic(auto, unfolding(crate::specs::Inner::Parts::parts_of_exponent))]
    fn next(&mut self) -> Option<&'a [T]> {
        if !self.second.is_empty() {
            let second = self.second;
            self.second = &[];
            return Some(second);
        }
        while let Some((matrix, matrices)) = self.dimensions.split_first() {
            let (first, second) = self.rows.next_row()?;
            self.dimensions = matrices;
            if exponent_of(matrix.height) == self.exponent {
                self.second = second;
                return Some(first);
            }
        }
        None
    }
}

/// The parts that [`OpenedParts`] yields of rows in one piece.
// Through `RowParts` a row takes three times as long, and most rows are vectors.
#[derive(Drop)]
pub(crate) struct OpenedRows<'a, T> {
    /// The dimensions of the matrices.
    pub dimensions: &'a [Dimensions],
    /// Their rows.
    pub rows: &'a [Vec<T>],
    /// The exponent of the matrices whose rows are yielded.
    pub exponent: usize,
}

impl<'a, T> Iterator for OpenedRows<'a, T> {
    type Item = &'a [T];

    ghost next_gives = { YieldsFirstBy (λ row. row.now) rows_left };

    ghost remaining = { item_count rows_left };

    #[tactic(auto, unfolding(crate::specs::Inner::Parts::parts_of_exponent))]
    fn next(&mut self) -> Option<&'a [T]> {
        while let Some((matrix, matrices)) = self.dimensions.split_first() {
            let (row, rows) = self.rows.split_first()?;
            self.dimensions = matrices;
            self.rows = rows;
            if exponent_of(matrix.height) == self.exponent {
                return Some(row.as_slice());
            }
        }
        None
    }
}

/// The parts that [`OpenedParts`] yields of rows with salts.
// It takes less time for the same reason as `OpenedRows`.
#[derive(Drop)]
pub(crate) struct SaltedRows<'a, T> {
    /// The dimensions of the matrices.
    pub dimensions: &'a [Dimensions],
    /// Their rows.
    pub rows: &'a [Vec<T>],
    /// The salts of each row.
    pub salts: &'a [Vec<T>],
    /// The exponent of the matrices whose rows are yielded.
    pub exponent: usize,
    /// The salts of the row that was yielded last; empty if none are due.
    pub due: &'a [T],
}

impl<'a, T> Iterator for SaltedRows<'a, T> {
    type Item = &'a [T];

    ghost next_gives = { YieldsFirstBy (λ part. part.now) salted_left };

    ghost remaining = { item_count salted_left };

    #[tactic(auto, unfolding(crate::specs::Inner::Parts::parts_of_exponent))]
    fn next(&mut self) -> Option<&'a [T]> {
        if !self.due.is_empty() {
            let due = self.due;
            self.due = &[];
            return Some(due);
        }
        while let Some((matrix, matrices)) = self.dimensions.split_first() {
            let (row, rows) = self.rows.split_first()?;
            let (salt, salts) = self.salts.split_first()?;
            self.dimensions = matrices;
            self.rows = rows;
            self.salts = salts;
            if exponent_of(matrix.height) == self.exponent {
                self.due = salt.as_slice();
                return Some(row.as_slice());
            }
        }
        None
    }
}

/// The words of the rows of the matrices of one exponent, one after another. Nothing is copied.
#[derive(Drop)]
pub(crate) struct OpenedWords<'a, T> {
    /// The words that are left of a part.
    part: &'a [T],
    /// The parts after it.
    parts: OpenedParts<'a, T>,
}

impl<'a, T> OpenedWords<'a, T> {
    /// The words of the rows of the matrices of this exponent. `rows` has one row of each matrix, in input order.
    pub fn new(
        dimensions: &'a [Dimensions],
        rows: RowParts<'a, T>,
        exponent: usize,
    ) -> OpenedWords<'a, T>
        ensures { let pairs = zip (heights_of dimensions.now) (rows_in rows.entry) in
            words_left result ≡ words_of_exponent exponent pairs }
    {
        OpenedWords {
            part: &[],
            parts: OpenedParts::new(dimensions, rows, exponent),
        }
    }
}

impl<'a, T> Iterator for OpenedWords<'a, T> {
    type Item = &'a T;

    ghost next_gives = { YieldsFirstBy (λ word. word.now) words_left };

    ghost remaining = { item_count words_left };

    fn next(&mut self) -> Option<&'a T> {
        while self.part.is_empty() {
            self.part = self.parts.next()?;
        }
        let (word, part) = self.part.split_first()?;
        self.part = part;
        Some(word)
    }
}

/// The rows that some queries opened of one matrix, as a matrix of their own: row `j` is that of query `queries[j]`. So
/// the code that hashes the rows of a tree's layer hashes these, too.
#[derive(Drop)]
pub struct OpenedMatrix<'a, T> {
    /// The row set of each query.
    pub sets: RowSets<'a, T>,
    /// The queries whose rows these are.
    pub queries: &'a [usize],
    /// The position of the matrix in a row set.
    pub place: usize,
    /// How many elements a row has.
    pub width: usize,
    ghost among: { All (λ k. k < length (sets_in sets)) queries.now },
    ghost fit: { HaveRows (sets_in sets) place width },
}

impl<'a, T> OpenedMatrix<'a, T> {
    /// Row `row` of the matrix, that of query `queries[row]`: its first and its second part.
    fn parts(&self, row: usize) -> (&'a [T], &'a [T])
        requires { row < length self.now.queries.now }
        ensures { result.0.now ++ result.1.now
            ≡ opened_row (sets_in self.now.sets) self.now.queries.now self.now.place row }
    {
        self.sets.row(self.queries[row], self.place)
    }
}

impl<'a, T: Copy> Matrix<T> for OpenedMatrix<'a, T> {
    ghost use Rattle.p3_merkle_verifier.specs.Inner.OpenedMatrices.{row_in};
    ghost use Rattle.p3_merkle_verifier.specs.Inner.OpenedRows.{length-opened_row};

    ghost height_of = { λ m. length m.queries.now };

    ghost width_of = { λ m. m.width };

    ghost row_of = { row_in };

    fn height(&self) -> usize {
        self.queries.len()
    }

    fn width(&self) -> usize {
        self.width
    }

    fn get(&self, row: usize, column: usize) -> T {
        let (first, second) = self.parts(row);
        if column < first.len() {
            first[column]
        } else {
            second[column - first.len()]
        }
    }

    fn piece(&self, row: usize, column: usize) -> &[T] {
        let (first, second) = self.parts(row);
        if column < first.len() {
            &first[column..]
        } else {
            &second[column - first.len()..]
        }
    }

    ghost length_row_of = { λ m r h. length-opened_row (sets_in m.sets) m.queries.now m.place m.width m.among m.fit
        r h };
}

/// A borrowed pruned opening.
#[derive_where(Clone, Copy)]
pub struct PrunedOpeningRef<'a, T, X> {
    /// The index of each query.
    pub indices: &'a [usize],
    /// The row set of each query: one row of each matrix, in input order.
    pub sets: RowSets<'a, T>,
    /// The digests of the proof, in wire order.
    pub sent: &'a [X],
}

/// A pruned opening from which the path of each query can be restored, with the steps of its tree. Its form is right,
/// and its rows agree.
#[derive(Drop)]
pub struct RestorableOpening<'a, T, X> {
    /// The steps of the tree.
    pub schedule: &'a Schedule<'a>,
    /// The cap's layer.
    pub cap_layer: usize,
    /// The opening.
    pub opening: PrunedOpeningRef<'a, T, X>,
    /// Its distinct indices, with the first query of each.
    pub leaves: DistinctQueries,
    ghost distinct: { AreDistinctOf leaves opening.indices.now },
    ghost queried: { CanQuery (shape_of schedule.now.arity schedule.now.dimensions.now) opening.indices.now cap_layer },
    ghost low: { greatest (heights_of schedule.now.dimensions.now) ≤ height_limit },
    ghost pairs: { length (sets_in opening.sets) ≡ length opening.indices.now },
    ghost all_sent: { length opening.sent.now
        ≡ length (boundary (shape_of schedule.now.arity schedule.now.dimensions.now) opening.indices.now cap_layer) },
    ghost agreed: { IsAgreed (shape_of schedule.now.arity schedule.now.dimensions.now) cap_layer
        (opened_of opening.indices.now (sets_in opening.sets)) },
    ghost fit: { All (λ rows. map length rows ≡ widths_of schedule.now.dimensions.now) (sets_in opening.sets) },
}
