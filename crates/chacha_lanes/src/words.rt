//! The mask word of one key, those of eight keys, and those of one key in eight rounds.
ghost use Rattle.std.specs.Prelude.{◌≡◌, ℕ, ◌+◌, ◌*◌, ◌^◌, ◌<◌, List, [], slice_index, slice_index_or};
ghost use Rattle.rand_core.specs.Steps.{u32_at};
ghost use Rattle.rand_chacha.specs.Block.{add32, initial_state, double_rounds};
ghost use Rattle.rand_chacha.specs.ChaCha.{key_of};
ghost use Rattle.rand_chacha.specs.Lanes.{lane};
ghost use Rattle.chacha_lanes.specs.Keys.{key_lane};
ghost use Rattle.chacha_lanes.specs.Stream.{mask_word};

use crate::rounds::{Keys, States, columns, diagonals};
use rand_chacha::ChaCha20Rng;
use rand_core::SeedableRng;
use rand_core::utils::{NextWord, read_u32};
use std::simd::u32x8;

// Word `at` of each key.
#[inline(always)]
fn word_of_keys(keys: &[[u8; 32]; 8], at: usize) -> u32x8
    requires { at < 8 }
    ensures { (j : ℕ) → j < 8 → slice_index result j ≡ u32_at (slice_index_or keys.now j []) at }
{
    u32x8::from_array([
        read_u32(&keys[0], at),
        read_u32(&keys[1], at),
        read_u32(&keys[2], at),
        read_u32(&keys[3], at),
        read_u32(&keys[4], at),
        read_u32(&keys[5], at),
        read_u32(&keys[6], at),
        read_u32(&keys[7], at),
    ])
}

// Eight keys, one in each lane.
#[inline(always)]
pub(crate) fn key_in_each_lane(keys: &[[u8; 32]; 8]) -> Keys
    ensures { (j : ℕ) → j < 8 → key_lane j result ≡ key_of (slice_index_or keys.now j []) }
{
    [
        word_of_keys(keys, 0),
        word_of_keys(keys, 1),
        word_of_keys(keys, 2),
        word_of_keys(keys, 3),
        word_of_keys(keys, 4),
        word_of_keys(keys, 5),
        word_of_keys(keys, 6),
        word_of_keys(keys, 7),
    ]
}

// Word `at` of one key, in every lane.
#[inline(always)]
fn word_of_key(key: &[u8; 32], at: usize) -> u32x8
    requires { at < 8 }
    ensures { (j : ℕ) → j < 8 → slice_index result j ≡ u32_at key.now at }
{
    u32x8::splat(read_u32(key, at))
}

// One key, the same in every lane.
#[inline(always)]
pub(crate) fn key_in_all_lanes(key: &[u8; 32]) -> Keys
    ensures { (j : ℕ) → j < 8 → key_lane j result ≡ key_of key.now }
{
    [
        word_of_key(key, 0),
        word_of_key(key, 1),
        word_of_key(key, 2),
        word_of_key(key, 3),
        word_of_key(key, 4),
        word_of_key(key, 5),
        word_of_key(key, 6),
        word_of_key(key, 7),
    ]
}

// Eight rounds one after another, one in each lane.
#[inline(always)]
pub(crate) fn rounds_from(first: u32) -> u32x8
    requires { first + 7 < 2 ^ 32 }
    ensures { (j : ℕ) → j < 8 → slice_index result j ≡ first + j }
{
    u32x8::splat(first) + u32x8::from_array([0, 1, 2, 3, 4, 5, 6, 7])
}

// The states of the first blocks of these keys, each in the stream that its round numbers.
#[inline(always)]
pub(crate) fn first_states(keys: Keys, rounds: u32x8) -> States
    ensures { (j : ℕ) → j < 8 → slice_index rounds j < 2 ^ 32 → lane j result ≡ initial_state (key_lane j keys) 0 (slice_index rounds j) }
{
    [
        u32x8::splat(0x6170_7865),
        u32x8::splat(0x3320_646e),
        u32x8::splat(0x7962_2d32),
        u32x8::splat(0x6b20_6574),
        keys[0],
        keys[1],
        keys[2],
        keys[3],
        keys[4],
        keys[5],
        keys[6],
        keys[7],
        u32x8::splat(0),
        u32x8::splat(0),
        rounds,
        u32x8::splat(0),
    ]
}

// The states after all twenty rounds. The last two stand apart, so that what the caller doesn't read of them is not computed.
#[inline(always)]
fn last_states(first: States) -> States
    ensures { (j : ℕ) → j < 8 → lane j result ≡ double_rounds 10 (lane j first) }
{
    let mut x = first;
    for _done in 0..9u32 {
        x = diagonals(columns(x));
    }
    diagonals(columns(x))
}

// The sums of the lanes of two vectors, modulo 2^32.
#[inline(always)]
pub(crate) fn sums(a: u32x8, b: u32x8) -> [u32; 8]
    ensures { (j : ℕ) → j < 8 → slice_index result j ≡ add32 (slice_index a j) (slice_index b j) }
{
    (a + b).to_array()
}

// A word of its two halves.
#[inline(always)]
pub(crate) fn joined(low: u32, high: u32) -> u64
    ensures { result ≡ low + 2 ^ 32 * high }
{
    u64::from(low) | (u64::from(high) << 32)
}

/// The mask word of a key in a round: the first 8 bytes, little endian, of the ChaCha20 stream
/// (RFC 8439, with a stream number of 64 bits) that the round numbers.
pub fn stream_word(key: &[u8; 32], round: u32) -> u64
    ensures { result ≡ mask_word key.now round }
{
    let mut stream = ChaCha20Rng::from_seed(*key);
    // Before any word is drawn, since the place in the stream is kept.
    stream.set_stream(u64::from(round));
    let low = stream.next_word();
    let high = stream.next_word();
    joined(low, high)
}

// The mask words of the keys in the lanes, each in its lane's round. It stays a function of its own, so that the compiler
// has one copy, in which it sees that only words 0 and 1 of the last states are read.
#[inline(never)]
fn words_in_lanes(keys: Keys, rounds: u32x8) -> [u64; 8]
    ensures { (j : ℕ) (key : List ℕ) → j < 8 → slice_index rounds j < 2 ^ 32 → key_lane j keys ≡ key_of key → slice_index result j ≡ mask_word key (slice_index rounds j) }
{
    let first = first_states(keys, rounds);
    let last = last_states(first);
    let low = sums(last[0], first[0]);
    let high = sums(last[1], first[1]);
    let mut words = [0; 8];
    for lane in 0..8 {
        words[lane] = joined(low[lane], high[lane]);
    }
    words
}

/// The mask word of each of these keys in a round, all eight at once.
pub fn stream_words(keys: &[[u8; 32]; 8], round: u32) -> [u64; 8]
    ensures { (j : ℕ) → j < 8 → slice_index result j ≡ mask_word (slice_index_or keys.now j []) round }
{
    words_in_lanes(key_in_each_lane(keys), u32x8::splat(round))
}

/// The mask words of a key in eight rounds one after another, `first` and the next seven, all at once.
pub fn words_of_rounds(key: &[u8; 32], first: u32) -> [u64; 8]
    requires { first + 7 < 2 ^ 32 }
    ensures { (j : ℕ) → j < 8 → slice_index result j ≡ mask_word key.now (first + j) }
{
    words_in_lanes(key_in_all_lanes(key), rounds_from(first))
}
