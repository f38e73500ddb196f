//! Words that are no numbers, with a hash and a compression of their own: coins, whose digest shows whether an odd
//! number of them show tails. They are not secure.
ghost use Rattle.std.specs.Prelude.{◌≡◌, ℕ, ◌<◌, ◌∷◌, [], map, refl};
ghost use Rattle.p3_support.specs.Lists.{lane_of};
ghost use Rattle.callers.specs.Coins.{joint_parity, parity, sum};
ghost use Rattle.callers.specs.contracts.coins.Coin.{the_type};
ghost use Rattle.callers.specs.declared.coins.Coin.TheVariants.{Heads};
ghost use denote.Enum.Bare.{same_true, true_same};

use anyhow::Result;
use p3_merkle_tree::MerkleTreeMmcs;
use p3_support::compress::PseudoCompressionFunction;
use p3_support::hasher::CryptographicHasher;
use p3_support::matrix::RowMajorMatrix;
use p3_support::packed::PackedValue;
use std::convert::AsSlice;

/// What a coin shows.
#[derive(Clone, Copy, Debug, Default, PartialEq, Eq)]
enum Coin {
    #[default]
    Heads,
    Tails,
}

/// A coin is packed alone, in one lane.
impl PackedValue for Coin {
    type Value = Coin;

    const WIDTH: usize = 1;

    ghost WIDTH = { 1 };

    ghost lanes = { λ p. p ∷ [] };

    ghost default_value = { Heads };

    fn broadcast(value: Coin) -> Coin {
        value
    }

    fn lane(&self, k: usize) -> Coin {
        *self
    }

    fn with_lane(self, k: usize, value: Coin) -> Coin {
        value
    }

    ghost length_lanes = { λ p. refl };

    ghost eq_is_equality = { λ a b. (same_true the_type tt a b, true_same the_type a b) };

    ghost default_is_unique = { λ a h. h };
}

/// Tails if one of two coins shows tails.
fn add(first: Coin, second: Coin) -> Coin
    ensures { result ≡ sum first second }
{
    if first == second {
        Coin::Heads
    } else {
        Coin::Tails
    }
}

/// Tails if an odd number of coins show tails: the digest of a row, and of two digests.
#[derive(Clone, Copy)]
struct Parity;

impl CryptographicHasher<Coin, Coin, 1> for Parity {
    const LANES: usize = 1;

    const PREFER_CONTIGUOUS_INPUT: bool = false;

    ghost hash = { λ h coins. parity coins };

    fn hash_iter<I: Iterator<Item = Coin>>(&self, input: I) -> [Coin; 1] {
        [input.fold(Coin::Heads, add)]
    }

    fn hash_slice(&self, input: &[Coin]) -> [Coin; 1] {
        [input.iter().copied().fold(Coin::Heads, add)]
    }

    fn hash_iter_slices<S: AsSlice<Coin> + Drop, I: Iterator<Item = S>>(
        &self,
        input: I,
    ) -> [Coin; 1] {
        [input.fold(
            Coin::Heads,
            |so_far, coins| coins.as_slice().iter().copied().fold(so_far, add),
        )]
    }

    fn hash_packed<I: Iterator<Item = Coin>>(&self, input: I) -> [Coin; 1] {
        self.hash_iter(input)
    }
}

impl PseudoCompressionFunction<Coin, 2, 1> for Parity {
    const LANES: usize = 1;

    ghost compression = { λ c digests. joint_parity digests };

    fn compress(&self, input: [[Coin; 1]; 2]) -> [Coin; 1]
        ensures { result ≡ joint_parity input }
    {
        self.hash_slice(input.as_flattened())
    }

    fn compress_packed(&self, input: [[Coin; 1]; 2]) -> [Coin; 1]
        ensures { (k : ℕ) → k < 1 → lane_of (λ coin. coin ∷ []) Heads k result
            ≡ joint_parity (map (lane_of (λ coin. coin ∷ []) Heads k) input) }
    {
        self.compress(input)
    }
}

/// Prints the root over three coins, one of which shows tails.
pub fn run(rt: &HostRuntime) -> Result<()> {
    let alloc = rt.alloc();
    let scheme = MerkleTreeMmcs::<Coin, Coin, Parity, Parity, 2, 1>::new(Parity, Parity, 0);
    let coins = RowMajorMatrix::new(vec![in alloc; Coin::Heads, Coin::Tails, Coin::Heads]?, 1);
    let (cap, _) = scheme.commit(alloc, vec![in alloc; coins]?)?;
    let root = cap.roots();
    println!(rt; "root {root:?}")?;
    Ok(())
}
