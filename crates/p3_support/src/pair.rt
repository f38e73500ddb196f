//! Two matrices side by side.
ghost use Rattle.std.specs.Prelude.{◌≡◌, ◌+◌, ◌^◌, ◌<◌};

use crate::matrix::Matrix;
use std::marker::PhantomData;

/// Two matrices of one height, side by side: each row is a row of the left matrix followed by that of the right one.
#[derive(Debug, Drop)]
pub struct HorizontalPair<T, A: Matrix<T>, B: Matrix<T>> {
    left: A,
    right: B,
    element: PhantomData<T>,
    ghost one_height: { A.height_of left ≡ B.height_of right },
    ghost width_fits: { A.width_of left + B.width_of right < 2 ^ 64 },
}

impl<T, A: Matrix<T>, B: Matrix<T>> HorizontalPair<T, A, B> {
    ghost use Rattle.p3_support.specs.Pairs.{left_of, right_of};

    /// The matrices `left` and `right`, side by side. Their heights must be equal, and both widths together fit
    /// `usize`.
    pub fn new(left: A, right: B) -> HorizontalPair<T, A, B>
        requires one_height { A.height_of left ≡ B.height_of right }
        requires width_fits { A.width_of left + B.width_of right < 2 ^ 64 }
        ensures left { left_of result ≡ left }
        ensures right { right_of result ≡ right }
    {
        HorizontalPair {
            left,
            right,
            element: PhantomData,
        }
    }

    /// The left matrix.
    pub fn left(&self) -> &A
        ensures { result.now ≡ left_of self.now }
    {
        &self.left
    }

    /// The right matrix.
    pub fn right(&self) -> &B
        ensures { result.now ≡ right_of self.now }
    {
        &self.right
    }
}

impl<T, A: Matrix<T>, B: Matrix<T>> Matrix<T> for HorizontalPair<T, A, B> {
    ghost use Rattle.std.proofs.Common.{subst};
    ghost use Rattle.p3_support.specs.Pairs.{left_of, pair_row, right_of};
    ghost use Rattle.p3_support.specs.Inner.PairLengths.{length-pair_row};

    ghost height_of = { λ p. A.height_of (left_of p) };

    ghost width_of = { λ p. A.width_of (left_of p) + B.width_of (right_of p) };

    ghost row_of = { λ p. pair_row A.row_of B.row_of (left_of p) (right_of p) };

    fn height(&self) -> usize {
        self.left.height()
    }

    fn width(&self) -> usize {
        self.left.width() + self.right.width()
    }

    fn get(&self, row: usize, column: usize) -> T {
        let width = self.left.width();
        if column < width {
            self.left.get(row, column)
        } else {
            self.right.get(row, column - width)
        }
    }

    fn piece(&self, row: usize, column: usize) -> &[T] {
        // Cut at the row's end: a side's piece may run on into its next row, but the pair goes on in the other side.
        let width = self.left.width();
        if column < width {
            let piece = self.left.piece(row, column);
            &piece[..piece.len().min(width - column)]
        } else {
            let piece = self.right.piece(row, column - width);
            &piece[..piece.len().min(self.width() - column)]
        }
    }

    ghost length_row_of = { λ p r h. length-pair_row A.row_of B.row_of p.left p.right r
        (A.width_of p.left) (B.width_of p.right) (A.length_row_of p.left r h)
        (B.length_row_of p.right r (subst (λ n. r < n) p.one_height h)) };
}
