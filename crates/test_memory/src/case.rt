//! A line, and how what stands in it is written. Numbers have a blank between them, rows `, `, and matrices `; `, as do
//! the rows of an opening; `-` is no number. Matrices may also be given by their dimensions, `WIDTHxHEIGHT`; their
//! words are then 0, 1, 2 and so on, modulo 251.

use anyhow::{Result, bail};
use p3_support::matrix::{Dimensions, RowMajorMatrix};
use std::alloc::Global;

/// A matrix.
pub type Rows = RowMajorMatrix<u32>;

/// Some numbers.
pub fn numbers(alloc: Global, text: &str) -> Result<Vec<usize>> {
    let mut numbers = Vec::new(alloc);
    if text != "-" {
        for word in text.split(' ') {
            numbers.push(word.parse::<usize>()?)?;
        }
    }
    Ok(numbers)
}

/// Some words.
pub fn words(alloc: Global, text: &str) -> Result<Vec<u32>> {
    let mut words = Vec::new(alloc);
    for word in text.split(' ') {
        words.push(word.parse::<u32>()?)?;
    }
    Ok(words)
}

/// Some dimensions.
pub fn dimensions(alloc: Global, text: &str) -> Result<Vec<Dimensions>> {
    let mut dimensions = Vec::new(alloc);
    for part in text.split(' ') {
        let Some((width, height)) = part.split_once('x') else {
            bail!("dimensions are WIDTHxHEIGHT");
        };
        let (width, height) = (width.parse::<usize>()?, height.parse::<usize>()?);
        dimensions.push(Dimensions { width, height })?;
    }
    Ok(dimensions)
}

/// Rows, with `between` between them.
pub fn rows(alloc: Global, text: &str, between: &str) -> Result<Vec<Vec<u32>>> {
    let mut rows = Vec::new(alloc);
    for row in text.split(between) {
        rows.push(words(alloc, row)?)?;
    }
    Ok(rows)
}

/// The matrix of these rows.
fn matrix_of(alloc: Global, rows: &[Vec<u32>]) -> Result<Rows> {
    let mut words = Vec::new(alloc);
    let mut width = 0;
    for row in rows {
        width = row.len();
        words.extend_from_slice(row)?;
    }
    Ok(RowMajorMatrix::try_new(words, width)?)
}

/// A matrix of these dimensions.
fn counted_matrix(alloc: Global, size: &Dimensions) -> Result<Rows> {
    let mut words = Vec::new(alloc);
    for place in 0..size.width.saturating_mul(size.height) {
        words.push((place % 251) as u32)?;
    }
    Ok(RowMajorMatrix::try_new(words, size.width)?)
}

/// Some matrices.
fn matrices(alloc: Global, text: &str) -> Result<Vec<Rows>> {
    let mut matrices = Vec::new(alloc);
    if text.contains('x') {
        for size in &dimensions(alloc, text)? {
            matrices.push(counted_matrix(alloc, size)?)?;
        }
        return Ok(matrices);
    }
    for matrix in text.split("; ") {
        matrices.push(matrix_of(alloc, &rows(alloc, matrix, ", ")?)?)?;
    }
    Ok(matrices)
}

/// A call of a scheme.
#[derive(Drop)]
pub struct Case<'a> {
    /// The whole line.
    pub line: &'a str,
    /// Whether the scheme has salts.
    pub is_salted: bool,
    /// How the scheme builds trees.
    pub builder: &'a str,
    /// The most children of a node.
    pub arity: usize,
    /// What the scheme commits to.
    pub matrices: Vec<Rows>,
    /// The indices that are opened together.
    pub queries: Vec<usize>,
    /// The first of them, which is opened alone, too.
    pub index: usize,
    /// The name of the call.
    pub call: &'a str,
}

impl<'a> Case<'a> {
    /// The case of a line.
    pub fn read(alloc: Global, line: &'a str) -> Result<Case<'a>> {
        let fields: Vec<&str> = line.split(" | ").collect(alloc)?;
        let [scheme, batch, indices, call] = *fields.as_slice() else {
            bail!("a case has four fields");
        };
        let (is_salted, scheme) = match scheme.strip_prefix("salted ") {
            Some(rest) => (true, rest),
            None => (false, scheme),
        };
        let Some((builder, arity)) = scheme.split_once(' ') else {
            bail!("a scheme has a builder and an arity");
        };
        let queries = numbers(alloc, indices)?;
        Ok(Case {
            line,
            is_salted,
            builder,
            arity: arity.parse::<usize>()?,
            matrices: matrices(alloc, batch)?,
            index: queries.first().copied().unwrap_or(0),
            queries,
            call,
        })
    }
}
