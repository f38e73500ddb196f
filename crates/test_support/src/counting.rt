//! A generator that counts, so that a test can state its words.
ghost use Rattle.std.specs.Prelude.{◌≡◌, ℕ, ◌+◌, ◌%◌, ◌^◌};
ghost use Rattle.rand_core.specs.Steps.{stream_of, steps_u64_low};

use rand_core::utils::NextWord;
use rand_core::{CryptoRng, Rng, utils};
use std::marker::Model;

/// A generator whose words go up by `step`. The first one is `last + step`.
#[derive(Debug, Drop)]
pub struct Counting {
    /// By how much each word is above the one before.
    pub step: u64,
    /// The last word.
    pub last: u64,
}

impl Model for Counting {
    ghost Value = { ℕ × ℕ };

    ghost view = { λ counting. (counting.step, counting.last) };
}

impl NextWord<u64> for Counting {
    ghost step = { λ (step, last). ((last + step) % 2 ^ 64, (step, (last + step) % 2 ^ 64)) };

    fn next_word(&mut self) -> u64 {
        self.last = self.last.wrapping_add(self.step);
        self.last
    }
}

impl Rng for Counting {
    ghost stream = { stream_of (steps_u64_low
        (λ (step, last). ((last + step) % 2 ^ 64, (step, (last + step) % 2 ^ 64)))) };

    fn next_u32(&mut self) -> u32 {
        (self.next_word() % 4_294_967_296) as u32
    }

    fn next_u64(&mut self) -> u64 {
        self.next_word()
    }

    fn fill_bytes(&mut self, dst: &mut [u8]) {
        utils::fill_bytes_via_u64(self, dst)
    }
}

impl CryptoRng for Counting {}
