//! A generator that counts, so that a case can state its words.

ghost use Rattle.std.specs.Prelude.{ℕ, ◌+◌, ◌%◌, ◌^◌};
ghost use Rattle.rand_core.specs.Pcg32Seed.{pcg32_seed};
ghost use Rattle.rand_core.specs.Steps.{stream_of, steps_u64_low};

use rand_core::utils::NextWord;
use rand_core::{CryptoRng, Rng, Seed, SeedableRng, utils};
use std::marker::Model;

/// A generator of words that go up by 1.
#[derive(Drop)]
pub struct Counting {
    /// The last word.
    pub last: u64,
}

impl Model for Counting {
    ghost Value = { ℕ };

    ghost view = { λ counting. counting.last };
}

impl NextWord<u64> for Counting {
    ghost step = { λ last. ((last + 1) % 2 ^ 64, (last + 1) % 2 ^ 64) };

    fn next_word(&mut self) -> u64 {
        self.last = self.last.wrapping_add(1);
        self.last
    }
}

impl Rng for Counting {
    ghost stream = { stream_of (steps_u64_low (λ last. ((last + 1) % 2 ^ 64, (last + 1) % 2 ^ 64))) };

    fn next_u32(&mut self) -> u32 {
        (self.next_word() % 4_294_967_296) as u32
    }

    fn next_u64(&mut self) -> u64 {
        self.next_word()
    }

    fn fill_bytes(&mut self, dst: &mut [u8]) {
        utils::fill_bytes_via_u64(self, dst)
    }
}

impl CryptoRng for Counting {}

// Each begins anew: the first word of any seed is 1.
impl SeedableRng for Counting {
    type Seed = [u8; 8];

    ghost of_seed = { λ seed. 0 };

    ghost seed_of_u64 = { pcg32_seed 8 };

    fn from_seed(_seed: [u8; 8]) -> Counting {
        Counting { last: 0 }
    }

    fn seed_from_u64(_state: u64) -> Counting {
        Counting { last: 0 }
    }
}
