//! Batches of matrices and lists of queries: written out, or all of a kind, or random ones.

use crate::case::Fault;
use crate::field::Item;
use p3_merkle_core::gate::check_heights;
use p3_support::matrix::Dimensions;
use rand_chacha::ChaCha20Rng;
use rand_core::{Rng, SeedableRng};
use std::alloc::{AllocError, Global};

/// Each batch of one or two matrices of this width that a tree can have, with heights up to `tallest`.
fn lawful_batches(
    alloc: Global,
    tallest: usize,
    width: usize,
) -> Result<Vec<Vec<Dimensions>>, Fault> {
    let mut batches = Vec::new(alloc);
    for height in 0..=tallest {
        // A second height of 0 is no matrix.
        for second in 0..=tallest {
            let mut batch = Vec::new(alloc);
            batch.push(Dimensions { width, height })?;
            if second > 0 {
                let height = second;
                batch.push(Dimensions { width, height })?;
            }
            if check_heights(&batch).is_ok() {
                batches.push(batch)?;
            }
        }
    }
    Ok(batches)
}

/// The batches that a text names: dimensions with `;` between the batches, or `lawful TALLEST WIDTH`.
pub fn batches_in(alloc: Global, text: &str) -> Result<Vec<Vec<Dimensions>>, Fault> {
    let Some(numbers) = text.strip_prefix("lawful ") else {
        return Vec::parse(alloc, text);
    };
    match Vec::parse(alloc, numbers)?.as_slice() {
        [tallest, width] => lawful_batches(alloc, *tallest, *width),
        _ => Err(Fault::Unreadable("lawful batches are not TALLEST WIDTH")),
    }
}

/// The list of so many of some leaves that are the digits of this number, the last digit first. The base is how many
/// leaves there are.
fn list_numbered(
    alloc: Global,
    leaves: usize,
    len: usize,
    number: usize,
) -> Result<Vec<usize>, AllocError> {
    let base = leaves.max(1);
    let mut list = Vec::new(alloc);
    let mut rest = number;
    for _query in 0..len {
        list.push(rest % base)?;
        rest /= base;
    }
    Ok(list)
}

/// Every list of some leaves whose length is at least `shortest` and at most `longest`.
fn every_list(
    alloc: Global,
    leaves: usize,
    shortest: usize,
    longest: usize,
) -> Result<Vec<Vec<usize>>, AllocError> {
    let mut lists = Vec::new(alloc);
    for len in shortest..=longest {
        for number in 0..leaves.saturating_pow(len.min(64) as u32) {
            lists.push(list_numbered(alloc, leaves, len, number)?)?;
        }
    }
    Ok(lists)
}

/// The generator of a seed of one byte.
pub fn generator(seed: usize) -> Result<ChaCha20Rng, Fault> {
    match u8::try_from(seed) {
        Ok(byte) => Ok(ChaCha20Rng::from_seed([byte; 32])),
        Err(_) => Err(Fault::Unreadable("the seed is no byte")),
    }
}

/// A random number below `end`, which is at least 1.
fn below(rng: &mut ChaCha20Rng, end: usize) -> usize {
    rng.next_u64() as usize % end.max(1)
}

/// A random list of some leaves, whose length is at least `shortest` and at most `longest`.
fn random_list(
    alloc: Global,
    rng: &mut ChaCha20Rng,
    leaves: usize,
    shortest: usize,
    longest: usize,
) -> Result<Vec<usize>, AllocError> {
    let lengths = longest.saturating_sub(shortest).saturating_add(1);
    let mut list = Vec::new(alloc);
    for _query in 0..shortest.saturating_add(below(rng, lengths)) {
        list.push(below(rng, leaves))?;
    }
    Ok(list)
}

/// The lists that a text names, over so many leaves: lists with `;` between them; `every LENGTH`; `up to LENGTH`; or
/// `random SEED LISTS SHORTEST LONGEST`, with lengths between these two.
pub fn lists_in(alloc: Global, text: &str, leaves: usize) -> Result<Vec<Vec<usize>>, Fault> {
    if let Some(len) = text.strip_prefix("every ") {
        let len = usize::parse(alloc, len)?;
        return Ok(every_list(alloc, leaves, len, len)?);
    }
    if let Some(longest) = text.strip_prefix("up to ") {
        return Ok(every_list(alloc, leaves, 0, usize::parse(alloc, longest)?)?);
    }
    let Some(numbers) = text.strip_prefix("random ") else {
        return Vec::parse(alloc, text);
    };
    let [seed, count, shortest, longest] = *Vec::parse(alloc, numbers)?.as_slice() else {
        return Err(Fault::Unreadable("random lists are not SEED LISTS SHORTEST LONGEST"));
    };
    let mut rng = generator(seed)?;
    let mut lists = Vec::new(alloc);
    for _list in 0..count {
        lists.push(random_list(alloc, &mut rng, leaves, shortest, longest)?)?;
    }
    Ok(lists)
}
