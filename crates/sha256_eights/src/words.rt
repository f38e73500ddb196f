//! The functions of SHA-256 on words (FIPS 180-4, 4.1.2), lane by lane. All are inlined, so that the words of a round
//! stay in registers.
ghost use Rattle.std.specs.Prelude.{◌≡◌, ℕ, ◌<◌, ◌/◌, ◌^◌, bit_xor, slice_index};
ghost use Rattle.std.specs.Int.{w32, rotate_right};
ghost use Rattle.sha2.specs.Sha256.{add32, big_sigma0, big_sigma1, ch, maj, small_sigma0, small_sigma1};

use std::simd::prelude::*;

/// The sum of both words in each lane, modulo 2^32.
#[inline(always)]
pub(crate) fn add(x: u32x8, y: u32x8) -> u32x8
    ensures { (j : ℕ) → j < 8 → slice_index result j ≡ add32 (slice_index x j) (slice_index y j) }
{
    x + y
}

/// ROTR of the standard: the word in each lane rotated to the right by `k` bits, where `0 < k < 32`. Vectors have no
/// such operation, so it takes two shifts.
#[inline(always)]
fn rotate_right(x: u32x8, k: u32) -> u32x8
    requires low { 0 < k }
    requires high { k < 32 }
    ensures { (j : ℕ) → j < 8 → slice_index result j ≡ rotate_right w32 (slice_index x j) k }
{
    (x >> u32x8::splat(k)) | (x << u32x8::splat(32 - k))
}

/// The exclusive or of the three words in each lane.
#[inline(always)]
fn xor3(x: u32x8, y: u32x8, z: u32x8) -> u32x8
    ensures { (j : ℕ) → j < 8 → slice_index result j
        ≡ bit_xor (bit_xor (slice_index x j) (slice_index y j)) (slice_index z j) }
{
    x ^ y ^ z
}

/// SHR of the standard: the word in each lane shifted to the right by `k` bits, where `k < 32`.
#[inline(always)]
fn shift_right(x: u32x8, k: u32) -> u32x8
    requires { k < 32 }
    ensures { (j : ℕ) → j < 8 → slice_index result j ≡ slice_index x j / 2 ^ k }
{
    x >> u32x8::splat(k)
}

/// Ch of the three words in each lane: the bits of `y` where `x` has ones, and those of `z` elsewhere.
#[inline(always)]
pub(crate) fn ch(x: u32x8, y: u32x8, z: u32x8) -> u32x8
    ensures { (j : ℕ) → j < 8 → slice_index result j ≡ ch (slice_index x j) (slice_index y j) (slice_index z j) }
{
    (x & y) ^ (!x & z)
}

/// Maj of the three words in each lane: each bit is the one that at least two of them have.
#[inline(always)]
pub(crate) fn maj(x: u32x8, y: u32x8, z: u32x8) -> u32x8
    ensures { (j : ℕ) → j < 8 → slice_index result j ≡ maj (slice_index x j) (slice_index y j) (slice_index z j) }
{
    // This form takes one operation less than the standard's.
    y ^ ((x ^ y) & (y ^ z))
}

/// The upper case sigma 0 of the standard, in each lane.
#[inline(always)]
pub(crate) fn big_sigma0(x: u32x8) -> u32x8
    ensures { (j : ℕ) → j < 8 → slice_index result j ≡ big_sigma0 (slice_index x j) }
{
    xor3(rotate_right(x, 2), rotate_right(x, 13), rotate_right(x, 22))
}

/// The upper case sigma 1 of the standard, in each lane.
#[inline(always)]
pub(crate) fn big_sigma1(x: u32x8) -> u32x8
    ensures { (j : ℕ) → j < 8 → slice_index result j ≡ big_sigma1 (slice_index x j) }
{
    xor3(rotate_right(x, 6), rotate_right(x, 11), rotate_right(x, 25))
}

/// The lower case sigma 0 of the standard, in each lane.
#[inline(always)]
pub(crate) fn small_sigma0(x: u32x8) -> u32x8
    ensures { (j : ℕ) → j < 8 → slice_index result j ≡ small_sigma0 (slice_index x j) }
{
    xor3(rotate_right(x, 7), rotate_right(x, 18), shift_right(x, 3))
}

/// The lower case sigma 1 of the standard, in each lane.
#[inline(always)]
pub(crate) fn small_sigma1(x: u32x8) -> u32x8
    ensures { (j : ℕ) → j < 8 → slice_index result j ≡ small_sigma1 (slice_index x j) }
{
    xor3(rotate_right(x, 17), rotate_right(x, 19), shift_right(x, 10))
}
