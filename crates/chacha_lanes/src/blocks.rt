//! The words of the first blocks: all words of eight keys, and one word of a key in eight rounds.
ghost use Rattle.std.specs.Prelude.{◌≡◌, ℕ, ◌+◌, ◌*◌, ◌^◌, ◌<◌, [], slice_index, slice_index_or};
ghost use Rattle.rand_chacha.specs.Block.{add32, double_rounds};
ghost use Rattle.rand_chacha.specs.Lanes.{lane, lane_at};
ghost use Rattle.chacha_lanes.specs.Blocks.{lane_words};
ghost use Rattle.chacha_lanes.specs.Stream.{word_of_block, words_of_block};

use crate::rounds::{States, columns, diagonals};
use crate::words::{first_states, joined, key_in_all_lanes, key_in_each_lane, rounds_from, sums};
use std::simd::u32x8;

/// The halves of the words in eight lanes, one row for each place of a block.
type Halves = [[u32; 8]; 16];

// The states after all twenty rounds. It isn't `last_states` of `words`: the compiler makes that a part of its one caller, and
// computes there only what is read.
#[inline(always)]
fn all_rounds(first: States) -> States
    ensures { (j : ℕ) → j < 8 → lane j result ≡ double_rounds 10 (lane j first) }
{
    let mut x = first;
    for _done in 0..10u32 {
        x = diagonals(columns(x));
    }
    x
}

// The words of the blocks: each state's last words, added to its first ones.
#[inline(always)]
fn halves(last: States, first: States) -> Halves
    ensures { (j k : ℕ) → j < 8 → k < 16 → lane_at result k j ≡ add32 (lane_at last k j) (lane_at first k j) }
{
    let mut halves = [[0; 8]; 16];
    for place in 0..16usize {
        halves[place] = sums(last[place], first[place]);
    }
    halves
}

// The words of 64 bits in a lane.
#[inline(always)]
fn words_in_lane(halves: &Halves, lane: usize) -> [u64; 8]
    requires { lane < 8 }
    ensures { result ≡ lane_words halves.now lane }
{
    [
        joined(halves[0][lane], halves[1][lane]),
        joined(halves[2][lane], halves[3][lane]),
        joined(halves[4][lane], halves[5][lane]),
        joined(halves[6][lane], halves[7][lane]),
        joined(halves[8][lane], halves[9][lane]),
        joined(halves[10][lane], halves[11][lane]),
        joined(halves[12][lane], halves[13][lane]),
        joined(halves[14][lane], halves[15][lane]),
    ]
}

/// The eight words of the first block of each of these keys in a round, all eight keys at once. Word 0 is the mask word.
#[inline(never)]
pub fn stream_blocks(keys: &[[u8; 32]; 8], round: u32) -> [[u64; 8]; 8]
    ensures { (j : ℕ) → j < 8 → slice_index_or result j [] ≡ words_of_block (slice_index_or keys.now j []) round }
{
    let first = first_states(key_in_each_lane(keys), u32x8::splat(round));
    let last = all_rounds(first);
    let halves = halves(last, first);
    let mut words = [[0; 8]; 8];
    for lane in 0..8usize {
        words[lane] = words_in_lane(&halves, lane);
    }
    words
}

/// Word `place` of the first block of a key in eight rounds one after another, `first` and the next seven, all at once.
#[inline(never)]
pub fn block_words_of_rounds(key: &[u8; 32], first: u32, place: usize) -> [u64; 8]
    requires fits { first + 7 < 2 ^ 32 }
    requires place { place < 8 }
    ensures { (j : ℕ) → j < 8 → slice_index result j ≡ word_of_block key.now (first + j) place }
{
    let begin = first_states(key_in_all_lanes(key), rounds_from(first));
    let last = all_rounds(begin);
    let low = sums(last[2 * place], begin[2 * place]);
    let high = sums(last[2 * place + 1], begin[2 * place + 1]);
    let mut words = [0; 8];
    for lane in 0..8 {
        words[lane] = joined(low[lane], high[lane]);
    }
    words
}
