//! Matrices, from the bytes of an input.

ghost use Rattle.std.specs.Prelude.{◌≡◌, ◌⊎◌, ℕ, ◌+◌, ◌*◌, ◌<◌, ◌==◌, false, List, [], ◌∷◌, ◌++◌, map, length, take};
ghost use Rattle.std.specs.Prelude.{◌≤◌, All, IfOk, IfErr, IfSome, IfNone, OnOk};
ghost use Rattle.std.specs.List.{slice_split};
ghost use Rattle.std.specs.Str.Lines.{strip_carriage_return};
ghost use Rattle.p3_merkle_core.specs.declared.error.MerkleTreeError.TheVariants.{OutOfMemory};
ghost use Rattle.mmcs_engine.specs.declared.fault.Fault.TheVariants.{Tree};
ghost use Rattle.mmcs_engine.specs.Numbers.{IsNumberBelow};
ghost use Rattle.mmcs_engine.specs.Inner.Stored.{IsRead, stored_matrix};
ghost use Rattle.mmcs_engine.specs.Input.{is_gap, is_blank, numerals_of, numbers_of, pieces_of, IsFirstFault};
ghost use Rattle.mmcs_engine.specs.Input.{IsLineFault, StandsFor};
ghost use Rattle.mmcs_engine.specs.Inner.Blocks.{IsBlock};
ghost use Rattle.mmcs_engine.specs.Matrices.{matrix_of_rows};

use crate::fault::Fault;
use crate::word::Word;
use memchr::memchr;
use p3_support::matrix::RowMajorMatrix;
use std::alloc::{AllocError, Global};
use std::mem;

/// Whether the byte is a space or a tab.
fn is_gap(byte: u8) -> bool
    ensures { result ≡ is_gap byte }
{
    byte == b' ' || byte == b'\t'
}

/// The bytes before the first line feed, and those after it; or all bytes, where there is none.
pub fn cut_line(input: &[u8]) -> (&[u8], Option<&[u8]>)
    ensures cut { IfSome result.1 (λ rest.
        slice_split (λ b. b == 10) input.now ≡ result.0.now ∷ slice_split (λ b. b == 10) rest.now) }
    ensures last { IfNone result.1 (slice_split (λ b. b == 10) input.now ≡ result.0.now ∷ []) }
{
    match memchr(b'\n', input) {
        Some(at) => (&input[..at], Some(&input[at + 1..])),
        None => (input, None),
    }
}

/// Whether the line is empty, or has spaces and tabs alone.
pub fn is_blank(line: &[u8]) -> bool
    ensures { result ≡ is_blank line.now }
{
    line.iter().all(|byte| is_gap(*byte))
}

/// The line without the carriage return at its end, if there is one.
pub fn without_return(line: &[u8]) -> &[u8]
    ensures { result.now ≡ strip_carriage_return line.now }
{
    line.strip_suffix(b"\r").unwrap_or(line)
}

/// The number of the digits of `before` followed by one more digit; `before` is `None` ahead of the first. `None` if
/// `digit` is no digit, or the number is above `max`.
fn with_digit(before: Option<u32>, digit: u8, max: u32) -> Option<u32>
    ensures some { IfSome result
        (λ number. (digits : List ℕ) → IsRead (max + 1) digits before →
        IsRead (max + 1) (digits ++ digit ∷ []) result) }
    ensures none { IfNone result
        ((digits more : List ℕ) → IsRead (max + 1) digits before →
        (IsNumberBelow (max + 1) ((digits ++ digit ∷ []) ++ more) → ⊥)) }
{
    if !digit.is_ascii_digit() {
        return None;
    }
    let number = u64::from(before.unwrap_or(0)) * 10 + u64::from(digit - b'0');
    if number <= u64::from(max) {
        Some(number as u32)
    } else {
        None
    }
}

/// Appends the numbers of a line, each at most `W::MAX`, and returns how many there are. It returns `None` if a part of
/// the line is no such number; the numbers before that part may be appended then.
///
/// # Errors
///
/// `AllocError` if memory runs out.
pub fn append_row<W: Word>(values: &mut Vec<W>, line: &[u8]) -> Result<Option<usize>, AllocError>
    ensures row { IfOk result (λ count. IfSome count (λ n.
        (map W.value values.new.items ≡ map W.value values.old.items ++ numbers_of line.now) ×
        (n ≡ length (numbers_of line.now)) × All (IsNumberBelow (W.MAX + 1)) (numerals_of line.now))) }
    ensures none { IfOk result (λ count. IfNone count (All (IsNumberBelow (W.MAX + 1)) (numerals_of line.now) → ⊥)) }
{
    let len = values.len();
    let mut number = None;
    for byte in line {
        if is_gap(*byte) {
            if let Some(word) = number.take() {
                values.push(W::from_number(word))?;
            }
        } else {
            number = with_digit(number, *byte, W::MAX);
            if number.is_none() {
                return Ok(None);
            }
        }
    }
    if let Some(word) = number {
        values.push(W::from_number(word))?;
    }
    Ok(Some(values.len() - len))
}

/// The rows of a matrix so far.
#[derive(Drop)]
struct Block<W> {
    /// Row after row.
    values: Vec<W>,
    /// How many values a row has; 0 before the first row.
    width: usize,
}

impl<W: Word> Block<W> {
    /// No rows.
    fn new(alloc: Global) -> Block<W>
        ensures { (limit : ℕ) → IsBlock limit [] (map W.value result.values.items) result.width }
    {
        Block {
            values: Vec::new(alloc),
            width: 0,
        }
    }

    /// Appends `text`, line number `line` of the input, which is not blank, as a row of numbers, each at most `W::MAX`.
    /// `Number` if a part of the line is no such number, else `Count` if there are not as many as in the first row;
    /// `Tree(OutOfMemory)` if memory runs out.
    fn push_row(&mut self, text: &[u8], line: usize) -> Result<(), Fault>
        requires full { is_blank text.now ≡ false }
        ensures row { (lines : List (List ℕ)) →
            IsBlock (W.MAX + 1) lines (map W.value self.old.values.items) self.old.width →
            OnOk result (IsBlock (W.MAX + 1) (lines ++ text.now ∷ []) (map W.value self.new.values.items)
            self.new.width) }
        ensures fault { (lines : List (List ℕ)) →
            IsBlock (W.MAX + 1) lines (map W.value self.old.values.items) self.old.width →
            IfErr result (λ fault. (fault ≡ Tree OutOfMemory) ⊎ IsLineFault (W.MAX + 1) lines line text.now fault) }
    {
        let Some(got) = append_row(&mut self.values, text)? else {
            let max = W::MAX as usize;
            return Err(Fault::Number { line, max });
        };
        let expected = self.width;
        if expected != 0 && expected != got {
            return Err(Fault::Count {
                line,
                expected,
                got,
            });
        }
        self.width = got;
        Ok(())
    }

    /// Takes the rows, if there are any, as a matrix, and leaves none. The values must be those of rows of `width`
    /// values each.
    fn take_matrix(&mut self, alloc: Global) -> Option<RowMajorMatrix<W>>
        requires { (limit : ℕ) × (lines : List (List ℕ)) ×
            IsBlock limit lines (map W.value self.old.values.items) self.old.width }
        ensures emptied { (limit : ℕ) → IsBlock limit [] (map W.value self.new.values.items) self.new.width }
        ensures none { IfNone result (self.old.width ≡ 0) }
        ensures matrix { (limit : ℕ) (lines : List (List ℕ)) →
            IsBlock limit lines (map W.value self.old.values.items) self.old.width →
            IfSome result (λ matrix. stored_matrix (map W.value) matrix ≡ matrix_of_rows (map numbers_of lines)) }
        ensures some { IfSome result (λ matrix. 0 < self.old.width) }
    {
        let values = mem::replace(&mut self.values, Vec::new(alloc));
        let width = mem::take(&mut self.width);
        if width == 0 {
            None
        } else {
            Some(RowMajorMatrix::new(values, width))
        }
    }
}

/// The matrices that the lines of an input stand for, in order.
///
/// Lines end in LF or CRLF, and the last line feed may be missing. A line of spaces and tabs alone, or empty, is blank:
/// one or more of these end a matrix, and are ignored before the first matrix and after the last. Any other line is a
/// row of numbers from 0 to `W::MAX` in decimal, with spaces or tabs between them; the rows of a matrix have equally
/// many.
///
/// # Errors
///
/// The first of these that applies, where `Tree(OutOfMemory)` may come at any time:
///
/// - `Number` for the first line that is no row of its matrix, if a part of it is no number from 0 to `W::MAX`;
/// - `Count` for that line, if it has another count of numbers than the first row of its matrix.
pub fn read_matrices<W: Word>(alloc: Global, input: &[u8]) -> Result<Vec<RowMajorMatrix<W>>, Fault>
    ensures matrices { IfOk result (λ found.
        (matrices : List (List (List ℕ))) × StandsFor (W.MAX + 1) input.now matrices ×
        (map (stored_matrix (map W.value)) found.items ≡ map matrix_of_rows matrices)) }
    ensures fault { IfErr result
        (λ fault. (fault ≡ Tree OutOfMemory) ⊎ IsFirstFault (W.MAX + 1) (pieces_of input.now) fault) }
{
    let mut matrices = Vec::new(alloc);
    let mut block = Block::new(alloc);
    let mut line = 0;
    let mut rest = Some(input);
    while let Some(left) = rest {
        let (piece, below) = cut_line(left);
        rest = below;
        line += 1;
        let text = without_return(piece);
        if is_blank(text) {
            if let Some(matrix) = block.take_matrix(alloc) {
                matrices.push(matrix)?;
            }
        } else {
            block.push_row(text, line)?;
        }
    }
    if let Some(matrix) = block.take_matrix(alloc) {
        matrices.push(matrix)?;
    }
    Ok(matrices)
}
