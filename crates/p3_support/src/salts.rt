//! Random matrices, whose rows serve as salts.
ghost use Rattle.std.specs.Prelude.{◌≡◌, ℕ, ◌*◌, ◌%◌, ◌^◌, ◌≤◌, ◌+◌, ◌++◌, vec_len, vec_capacity, map, IfOk, IsErr};
ghost use Rattle.std.specs.Prelude.{OnErr, OnOk};
ghost use Rattle.p3_support.specs.Salts.{after_words, salts};
ghost use Rattle.p3_support.specs.Inner.Drawn.{AreDrawn};

use crate::matrix::RowMajorMatrix;
use rand_core::Rng;
use std::alloc::{AllocError, Global};

/// A type of random values, each computed from one word of a generator.
pub trait SaltWord: Copy {
    // The value that a word makes.
    ghost of_salt_word: { ℕ → Self };

    /// The value of the random word `w`. It depends on the word alone.
    fn from_salt_word(w: u64) -> Self
        ensures { result ≡ of_salt_word w };
}

/// The lowest 32 bits of a word.
impl SaltWord for u32 {
    ghost of_salt_word = { λ w. w % 2 ^ 32 };

    fn from_salt_word(w: u64) -> u32 {
        (w & 0xffff_ffff) as u32
    }
}

/// The lowest 8 bits of a word.
impl SaltWord for u8 {
    ghost of_salt_word = { λ w. w % 2 ^ 8 };

    fn from_salt_word(w: u64) -> u8 {
        (w & 0xff) as u8
    }
}

/// The next eight words of a generator.
// If each were stored before the next is drawn, the generator's state would go through memory.
fn next_eight<R: Rng>(rng: &mut R) -> [u64; 8]
    ensures words { result ≡ salts (λ w. w) 8 (R.stream rng.old) }
    ensures generator_after { R.stream rng.new ≡ after_words 8 (R.stream rng.old) }
{
    [
        rng.next_u64(),
        rng.next_u64(),
        rng.next_u64(),
        rng.next_u64(),
        rng.next_u64(),
        rng.next_u64(),
        rng.next_u64(),
        rng.next_u64(),
    ]
}

/// Appends the values of eight words to `values`, which must have room for them.
fn push_eight<T: SaltWord>(values: &mut Vec<T>, words: [u64; 8])
    requires { vec_len values.old + 8 ≤ vec_capacity values.old }
    ensures items { values.new.items ≡ values.old.items ++ map T.of_salt_word words }
    ensures len { vec_len values.new ≡ vec_len values.old + 8 }
    ensures capacity { vec_capacity values.new ≡ vec_capacity values.old }
{
    for word in &words {
        values.push_reserved(T::from_salt_word(*word));
    }
}

/// Draws `8 * eights` values, eight at a time, and appends them to `values`, which must have room for them.
fn draw_eights<T: SaltWord, R: Rng>(values: &mut Vec<T>, rng: &mut R, eights: usize)
    requires { vec_len values.old + 8 * eights ≤ vec_capacity values.old }
    ensures { AreDrawn T.of_salt_word (8 * eights) values.old values.new (R.stream rng.old) (R.stream rng.new) }
{
    for _ in 0..eights {
        let words = next_eight(rng);
        push_eight(values, words);
    }
}

/// Draws `count` values, one by one, and appends them to `values`, which must have room for them.
fn draw_each<T: SaltWord, R: Rng>(values: &mut Vec<T>, rng: &mut R, count: usize)
    requires { vec_len values.old + count ≤ vec_capacity values.old }
    ensures { AreDrawn T.of_salt_word count values.old values.new (R.stream rng.old) (R.stream rng.new) }
{
    for _ in 0..count {
        values.push_reserved(T::from_salt_word(rng.next_u64()));
    }
}

impl<T: SaltWord> RowMajorMatrix<T> {
    ghost use Rattle.p3_support.specs.RowMajor.{row_count, row_width, values_of};

    /// A matrix of random values, drawn row after row: one call of `next_u64` for each, `rows * cols` calls in all.
    /// With no columns it has no rows, as in [`new`](Self::new).
    ///
    /// # Errors
    ///
    /// `AllocError` if `rows * cols` does not fit `usize`, or if memory runs out. Then nothing is drawn from the
    /// generator.
    pub fn rand<R: Rng>(
        alloc: Global,
        rng: &mut R,
        rows: usize,
        cols: usize,
    ) -> Result<RowMajorMatrix<T>, AllocError>
        ensures values { IfOk result (λ m. values_of m ≡ salts T.of_salt_word (rows * cols) (R.stream rng.old)) }
        ensures width { IfOk result (λ m. row_width m ≡ cols) }
        ensures height { 1 ≤ cols → IfOk result (λ m. row_count m ≡ rows) }
        ensures no_width { cols ≡ 0 → IfOk result (λ m. row_count m ≡ 0) }
        ensures generator_after { OnOk result (R.stream rng.new ≡ after_words (rows * cols) (R.stream rng.old)) }
        ensures too_large { 2 ^ 64 ≤ rows * cols → IsErr result }
        ensures untouched { OnErr result (rng.new ≡ rng.old) }
    {
        let count = rows.checked_mul(cols).ok_or(AllocError)?;
        let mut values = Vec::with_capacity(alloc, count)?;
        draw_eights(&mut values, rng, count / 8);
        draw_each(&mut values, rng, count % 8);
        Ok(RowMajorMatrix::new(values, cols))
    }
}
