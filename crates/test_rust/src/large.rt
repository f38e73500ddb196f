//! Matrices whose words are computed: those of matrix k, from 0, are the states of a xorshift generator after k + 1.

use crate::numbers::Numbers;
use crate::scheme::Answer;
use p3_support::matrix::Dimensions;

/// The state of the generator after this one.
fn next_state(state: u32) -> u32 {
    let state = state ^ (state << 13);
    let state = state ^ (state >> 17);
    state ^ (state << 5)
}

/// The arguments of a commitment to matrices of these dimensions, with words of 32 bits, or bytes: the highest 8 bits.
pub fn matrices_of(mut numbers: Numbers<'_>, are_bytes: bool) -> Answer {
    let dimensions = numbers.dimensions()?;
    numbers.end()?;
    let mut matrices = Vec::new(numbers.alloc);
    matrices.push(dimensions.len() as u64)?;
    let mut seed: u32 = 0;
    for Dimensions { width, height } in &dimensions {
        matrices.push(*height as u64)?;
        matrices.push(*width as u64)?;
        seed = seed.wrapping_add(1);
        let mut state = seed;
        for _ in 0..width.saturating_mul(*height) {
            state = next_state(state);
            let word = if are_bytes { state >> 24 } else { state };
            matrices.push(u64::from(word))?;
        }
    }
    Ok(matrices)
}
