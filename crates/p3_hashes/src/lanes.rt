//! Packed values of two lanes, and of eight.
ghost use Rattle.std.specs.Prelude.{◌≡◌, ℕ, ◌<◌, ◌∷◌, [], length, slice_index_or, refl};
ghost use Rattle.std.specs.Cmp.{unsigned_Decides};
ghost use Rattle.p3_hashes.specs.Fold.{take_in};
ghost use Rattle.p3_hashes.specs.Inner.Transposed.{transposed};

use crate::fold::FoldPacked;
use p3_support::packed::PackedValue;
use std::cmp::Eq;
use std::simd::prelude::*;

/// Two lanes, each in a field of its own.
#[derive(Clone, Copy, Debug)]
pub struct Lanes<T> {
    /// Lane 0.
    pub first: T,
    /// Lane 1.
    pub second: T,
}

impl<T: PackedValue<Value = T> + Default + Eq> PackedValue for Lanes<T> {
    type Value = T;

    const WIDTH: usize = 2;

    ghost WIDTH = { 2 };

    ghost lanes = { λ p. p.first ∷ p.second ∷ [] };

    ghost default_value = { T.default_value };

    fn broadcast(value: T) -> Lanes<T> {
        Lanes {
            first: value,
            second: value,
        }
    }

    fn lane(&self, k: usize) -> T {
        if k == 0 { self.first } else { self.second }
    }

    fn with_lane(mut self, k: usize, value: T) -> Lanes<T> {
        if k == 0 {
            self.first = value;
        } else {
            self.second = value;
        }
        self
    }

    ghost length_lanes = { λ p. refl };

    ghost eq_is_equality = { T.eq_is_equality };

    ghost default_is_unique = { T.default_is_unique };
}

impl FoldPacked for Lanes<u32> {
    fn mul_31_add(self, word: Lanes<u32>) -> Lanes<u32> {
        Lanes {
            first: self.first.wrapping_mul(31).wrapping_add(word.first),
            second: self.second.wrapping_mul(31).wrapping_add(word.second),
        }
    }

    fn add_to_each(self, number: u32) -> Lanes<u32> {
        Lanes {
            first: self.first.wrapping_add(number),
            second: self.second.wrapping_add(number),
        }
    }
}

/// Eight lanes of 32 bits, in vectors of the processor.
#[derive(Clone, Copy, Debug)]
pub struct U32x8 {
    lanes: u32x8,
    ghost long: { length lanes ≡ 8 },
}

impl U32x8 {
    ghost use Rattle.std.specs.Prelude.{◌++◌};
    ghost use Rattle.p3_hashes.specs.Inner.Eights.{lanes_of};

    /// Eight lanes from their halves: those of `front`, then those of `back`.
    pub(crate) fn join(front: u32x4, back: u32x4) -> U32x8
        requires front { length front ≡ 4 }
        requires back { length back ≡ 4 }
        ensures { lanes_of result ≡ front ++ back }
    {
        let front = front.to_array();
        let back = back.to_array();
        U32x8 {
            lanes: u32x8::from_array([
                front[0], front[1], front[2], front[3], back[0], back[1], back[2], back[3],
            ]),
        }
    }
}

impl PackedValue for U32x8 {
    type Value = u32;

    const WIDTH: usize = 8;

    ghost WIDTH = { 8 };

    ghost lanes = { λ p. p.lanes };

    ghost default_value = { 0 };

    fn broadcast(value: u32) -> U32x8 {
        U32x8 {
            lanes: u32x8::splat(value),
        }
    }

    fn lane(&self, k: usize) -> u32 {
        let lanes = self.lanes.to_array();
        lanes[k]
    }

    fn with_lane(self, k: usize, value: u32) -> U32x8 {
        let mut lanes = self.lanes.to_array();
        lanes[k] = value;
        U32x8 {
            lanes: u32x8::from_array(lanes),
        }
    }

    ghost length_lanes = { λ p. p.long };

    ghost eq_is_equality = { unsigned_Decides };

    ghost default_is_unique = { λ a h. h };
}

impl FoldPacked for U32x8 {
    fn mul_31_add(self, word: U32x8) -> U32x8 {
        U32x8 {
            lanes: self.lanes * u32x8::splat(31) + word.lanes,
        }
    }

    fn add_to_each(self, number: u32) -> U32x8 {
        U32x8 {
            lanes: self.lanes + u32x8::splat(number),
        }
    }
}

/// Transposes four rows of four words: vector `i` of the result has word `i` of each row.
pub(crate) fn transpose(first: &[u32], second: &[u32], third: &[u32], fourth: &[u32]) -> [u32x4; 4]
    requires first { length first.now ≡ 4 }
    requires second { length second.now ≡ 4 }
    requires third { length third.now ≡ 4 }
    requires fourth { length fourth.now ≡ 4 }
    ensures { result ≡ transposed first.now second.now third.now fourth.now }
{
    let (front_odd, back_odd) = u32x4::from_slice(first).interleave(u32x4::from_slice(third));
    let (front_even, back_even) = u32x4::from_slice(second).interleave(u32x4::from_slice(fourth));
    let (zeroth, next) = front_odd.interleave(front_even);
    let (last_but_one, last) = back_odd.interleave(back_even);
    [zeroth, next, last_but_one, last]
}
