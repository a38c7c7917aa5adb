//! The words of a group in eight rounds one after another: `first` and the next seven.
ghost use Rattle.std.specs.Prelude.{◌≡◌, ℕ, ◌+◌, ◌<◌, ◌^◌, nat_lt, IsTrue, IfOk, None, [], length, replicate, sum_by, slice_index, slice_index_or};
ghost use Rattle.std.specs.List.{list_all};
ghost use Rattle.group_plan.specs.Plans.{is_place, size};
ghost use Rattle.missing_round.specs.Sets.{IsSet};
ghost use Rattle.missing_round.specs.Words.{word, minus};
ghost use Rattle.blind_core.specs.Blind.{are_places, AreReadings, AreGroupWords};
ghost use Rattle.blind_core.specs.Columns.{column};
ghost use Rattle.blind_core.specs.Rows.{is_higher, taken_from, with_rows, with_owns, AreHidingSums, hidden_or_0};

use crate::group::word_or_0;
use mask_stream::Masks;
use missing_round::MeterSet;
use std::alloc::{AllocError, Global};

// Adds the word of each round to its sum, modulo 2^64. All are read before one is written, so that they are added at once.
#[inline(always)]
fn add(sums: &mut [u64; 8], words: &[u64; 8])
    ensures { (j : ℕ) → j < 8 → slice_index sums.new j ≡ word (slice_index sums.old j + slice_index words.now j) }
{
    let mut next = [0; 8];
    for round in 0..8 {
        next[round] = sums[round].wrapping_add(words[round]);
    }
    *sums = next;
}

// Takes the word of each round away from its sum, modulo 2^64, all at once as well.
#[inline(always)]
fn take_away(sums: &mut [u64; 8], words: &[u64; 8])
    ensures { (j : ℕ) → j < 8 → slice_index sums.new j ≡ word (slice_index sums.old j + minus (slice_index words.now j)) }
{
    let mut next = [0; 8];
    for round in 0..8 {
        next[round] = sums[round].wrapping_sub(words[round]);
    }
    *sums = next;
}

// Takes the words of the pairs of `low` with these higher meters away from the higher ones' sums, and gives their sums.
fn take_row<M: Masks>(
    masks: &M,
    group: u16,
    first: u32,
    low: u8,
    higher: &MeterSet,
    sums: &mut [[u64; 8]],
) -> [u64; 8]
    requires fits { first + 7 < 2 ^ 32 }
    requires higher { IsTrue (list_all (is_higher (M.plan masks.now) group (first + 7) (length sums.old) low) higher.now) }
    ensures sums { (j : ℕ) → j < 8 → column 0 j sums.new ≡ taken_from ((M.table masks.now).pair group (first + j) low) higher.now (column 0 j sums.old) }
    ensures row { (j : ℕ) → j < 8 → word (slice_index result j) ≡ word (sum_by ((M.table masks.now).pair group (first + j) low) higher.now) }
{
    let mut total = [0; 8];
    for high in higher.members() {
        let words = masks.pair_rounds(group, first, low, high);
        add(&mut total, &words);
        take_away(&mut sums[high as usize], &words);
    }
    total
}

// Adds to the sums of each member its shares of the pair words with all members. Each pair is asked once.
fn add_rows<M: Masks>(masks: &M, group: u16, first: u32, members: &MeterSet, sums: &mut [[u64; 8]])
    requires fits { first + 7 < 2 ^ 32 }
    requires places { IsTrue (are_places (M.plan masks.now) group (first + 7) members.now) }
    requires within { IsTrue (list_all (λ j. nat_lt j (length sums.old)) members.now) }
    ensures rows { (j : ℕ) → j < 8 → column 0 j sums.new ≡ with_rows ((M.table masks.now).pair group (first + j)) members.now (column 0 j sums.old) }
    ensures set { IsSet members.now }
{
    let mut higher = *members;
    for low in members.members() {
        higher = higher.without(low);
        let row = take_row(masks, group, first, low, &higher, sums);
        add(&mut sums[low as usize], &row);
    }
}

// Puts the own words of each member in the place of its sums.
fn put_owns<M: Masks>(masks: &M, group: u16, first: u32, members: &MeterSet, sums: &mut [[u64; 8]])
    requires fits { first + 7 < 2 ^ 32 }
    requires places { IsTrue (are_places (M.plan masks.now) group (first + 7) members.now) }
    requires within { IsTrue (list_all (λ j. nat_lt j (length sums.old)) members.now) }
    ensures { (j : ℕ) → j < 8 → column 0 j sums.new ≡ with_owns ((M.table masks.now).own group (first + j)) members.now (column 0 j sums.old) }
{
    for meter in members.members() {
        sums[meter as usize] = masks.own_rounds(group, first, meter);
    }
}

// Makes of zeros what hides the readings of each member: its own words and its shares of the pair words with all members.
fn fill_sums<M: Masks>(masks: &M, group: u16, first: u32, members: &MeterSet, sums: &mut [[u64; 8]])
    requires fits { first + 7 < 2 ^ 32 }
    requires places { IsTrue (are_places (M.plan masks.now) group (first + 7) members.now) }
    requires meters { length sums.old ≡ size (M.plan masks.now).groups group }
    ensures { (j : ℕ) → j < 8 → AreHidingSums ((M.table masks.now).own group (first + j)) ((M.table masks.now).pair group (first + j)) members.now (length sums.old) (column 0 j sums.new) }
{
    put_owns(masks, group, first, members, sums);
    add_rows(masks, group, first, members, sums);
}

// The words of a meter: in each round its reading and what hides it, or 0 where it has no reading.
fn words_or_0(readings: &[Option<u64>; 8], sums: &[u64; 8]) -> [u64; 8]
    ensures { (j : ℕ) → j < 8 → slice_index result j ≡ hidden_or_0 (slice_index sums.now j) (slice_index_or readings.now j None) }
{
    let mut words = [0; 8];
    for round in 0..8 {
        words[round] = word_or_0(readings[round], sums[round]).value();
    }
    words
}

// Puts the words of each meter in the place of what hides its readings.
fn hide(readings: &[[Option<u64>; 8]], sums: &mut [[u64; 8]])
    requires { length sums.old ≡ length readings.now }
    ensures { (i j : ℕ) → i < length readings.now → j < 8
        → slice_index (slice_index_or sums.new i []) j ≡ hidden_or_0 (slice_index (slice_index_or sums.old i []) j) (slice_index_or (slice_index_or readings.now i []) j None) }
{
    for meter in 0..readings.len() {
        sums[meter] = words_or_0(&readings[meter], &sums[meter]);
    }
}

// The sums before any word is added.
fn zeros(alloc: Global, count: usize) -> Result<Vec<[u64; 8]>, AllocError>
    ensures { IfOk result (λ zeros. zeros.items ≡ replicate count (replicate 8 0)) }
{
    vec![in alloc; [0; 8]; count]
}

/// The values of a group's words in eight rounds that have the same members, one row of eight for each meter: the words
/// that hide its readings, and 0 in each round in which it has none.
///
/// The words of a pair are asked once for all eight rounds, added at the lower meter and taken away at the higher one.
pub fn masked_rounds<M: Masks>(
    alloc: Global,
    masks: &M,
    group: u16,
    members: &MeterSet,
    first: u32,
    readings: &[[Option<u64>; 8]],
) -> Result<Vec<[u64; 8]>, AllocError>
    requires fits { first + 7 < 2 ^ 32 }
    requires places { IsTrue (are_places (M.plan masks.now) group (first + 7) members.now) }
    requires meters { length readings.now ≡ size (M.plan masks.now).groups group }
    requires readings { (j : ℕ) → j < 8 → AreReadings members.now (column None j readings.now) }
    ensures { IfOk result (λ words. (j : ℕ) → j < 8
        → AreGroupWords ((M.table masks.now).own group (first + j)) ((M.table masks.now).pair group (first + j)) members.now (column None j readings.now) (column 0 j words.items)) }
{
    let mut words = zeros(alloc, readings.len())?;
    fill_sums(masks, group, first, members, words.as_mut_slice());
    hide(readings, words.as_mut_slice());
    Ok(words)
}
