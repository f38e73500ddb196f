//! Matrices that trees of both schemes are tried on.

ghost use Rattle.std.specs.Prelude.{◌≡◌, ◌%◌, ◌^◌, IfOk, replicate};
ghost use Rattle.std.proofs.lemmas.List.{length-replicate};
ghost use Rattle.p3_support.specs.RowMajor.{row_count, row_width, values_of};

use p3_support::matrix::{Matrix, RowMajorMatrix};
use std::alloc::{AllocError, Global};

/// A matrix whose every word is the number of its row, from 0. It takes no memory, whatever its height.
#[derive(Clone, Copy, Debug)]
pub struct Numbers {
    pub words: usize,
    pub rows: usize,
}

impl Matrix<u32> for Numbers {
    ghost height_of = { λ m. m.rows };

    ghost width_of = { λ m. m.words };

    ghost row_of = { λ m r. replicate m.words (r % 2 ^ 32) };

    fn height(&self) -> usize {
        self.rows
    }

    fn width(&self) -> usize {
        self.words
    }

    fn get(&self, row: usize, column: usize) -> u32 {
        (row % 4_294_967_296) as u32
    }

    ghost length_row_of = { λ m r h. length-replicate m.words (r % 2 ^ 32) };
}

/// Matrices of these widths and heights, whose rows are their own numbers.
pub fn numbered(alloc: Global, sizes: &[(usize, usize)]) -> Result<Vec<Numbers>, AllocError> {
    let mut matrices = Vec::with_capacity(alloc, sizes.len())?;
    for (words, rows) in sizes {
        matrices.push(Numbers {
            words: *words,
            rows: *rows,
        })?;
    }
    Ok(matrices)
}

/// The matrix of two rows of two words.
pub fn two_rows(alloc: Global, words: &[u32; 4]) -> Result<RowMajorMatrix<u32>, AllocError>
    ensures words { IfOk result (λ m. values_of m ≡ words.now) }
    ensures width { IfOk result (λ m. row_width m ≡ 2) }
    ensures height { IfOk result (λ m. row_count m ≡ 2) }
{
    Ok(RowMajorMatrix::new(Vec::from_slice(alloc, words)?, 2))
}
