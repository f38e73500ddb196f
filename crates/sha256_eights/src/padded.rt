//! SHA-256 of eight messages of any lengths, each followed by its padding (FIPS 180-4, 5.1.1), that fill one number of
//! blocks: one message a lane.
ghost use Rattle.std.specs.Prelude.{◌≡◌, ℕ, ◌+◌, ◌*◌, ◌<◌, ◌≤◌, List, [], ◌∷◌, ◌++◌, OnOk, length, slice_index};
ghost use Rattle.std.specs.Prelude.{slice_index_or};
ghost use Rattle.sha2.specs.Sha256.{hash_after, initial_hash_256, padded_message, sha256, word_at};
ghost use Rattle.sha256_eights.specs.Messages.{message};
ghost use Rattle.sha256_eights.specs.Inner.Lanes.{lane};

use crate::block::{compress_eight, initial_state};
use crate::messages::{digest_of, lane_words, words};
use std::alloc::AllocError;
use std::simd::prelude::*;

/// Loads block `t` of each of eight messages of `width` bytes into `block`, one message a lane. The messages must have
/// the whole block.
fn load_block(block: &mut [u32x8; 16], messages: &[u8], width: usize, t: usize)
    requires full { length messages.now ≡ 8 * width }
    requires inside { 64 * t + 64 ≤ width }
    ensures { (j i : ℕ) → j < 8 → i < 16 →
        slice_index (lane j block.new) i ≡ word_at (message width messages.now j) (4 * (16 * t + i)) }
{
    for i in 0..16 {
        block[i] = words(messages, width, 64 * t + 4 * i);
    }
}

/// The hash values of eight messages of `count` blocks, which must fill `messages`: one message a lane.
fn whole_states(messages: &[u8], count: usize) -> [u32x8; 8]
    requires { length messages.now ≡ 8 * (64 * count) }
    ensures { (j : ℕ) → j < 8 →
        lane j result ≡ hash_after initial_hash_256 (message (64 * count) messages.now j) count }
{
    let mut state = initial_state();
    let mut block = [u32x8::splat(0); 16];
    for t in 0..count {
        load_block(&mut block, messages, 64 * count, t);
        compress_eight(&mut state, &block);
    }
    state
}

/// The digests of eight messages of any lengths that fill `count` blocks of 64 bytes each with their padding: digest
/// `j` is that of message `j`. `blocks` must have the padded messages one after another, `8 * 64 * count` bytes, as
/// [`push_padded`] appends them.
pub fn hash_padded_eight(blocks: &[u8], count: usize) -> [[u8; 32]; 8]
    requires { length blocks.now ≡ 8 * (64 * count) }
    ensures { (j : ℕ) (m : List ℕ) → j < 8 → message (64 * count) blocks.now j ≡ padded_message m →
        slice_index_or result j [] ≡ sha256 m }
{
    let state = whole_states(blocks, count);
    let mut digests = [[0u8; 32]; 8];
    for j in 0..8 {
        digests[j] = digest_of(lane_words(&state, j));
    }
    digests
}

/// Appends a message and its padding to `blocks`. The message is the byte `first`, then the bytes of `rest`.
///
/// # Errors
///
/// `AllocError` if memory runs out. `blocks` may then have a part of them.
pub fn push_padded(blocks: &mut Vec<u8>, first: u8, rest: &[u8]) -> Result<(), AllocError>
    ensures { OnOk result (blocks.new.items ≡ blocks.old.items ++ padded_message (first ∷ rest.now)) }
{
    let len = rest.len() + 1;
    blocks.push(first)?;
    blocks.extend_from_slice(rest)?;
    blocks.push(0x80)?;
    // The fewest zeros with which the byte 0x80 and the eight bytes of the length end a block.
    blocks.extend_from_slice(&[0; 64][..(119 - len % 64) % 64])?;
    blocks.extend_from_slice(&len.wrapping_mul(8).to_be_bytes())?;
    Ok(())
}
