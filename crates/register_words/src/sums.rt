//! What hides the readings of a group in a round, in all registers at once.
ghost use Rattle.std.specs.Prelude.{◌≡◌, ℕ, ◌+◌, ◌<◌, IfOk, IsTrue, List, length, map, nat_lt, replicate, sum_by, slice_index};
ghost use Rattle.std.specs.List.{list_all};
ghost use Rattle.group_plan.specs.Plans.{size};
ghost use Rattle.pair_keys.specs.Keys.{table_of};
ghost use Rattle.missing_round.specs.Sets.{IsSet};
ghost use Rattle.missing_round.specs.Words.{word, minus};
ghost use Rattle.blind_core.specs.Blind.{are_places};
ghost use Rattle.blind_core.specs.Columns.{column};
ghost use Rattle.blind_core.specs.Rows.{taken_from, with_rows, with_owns, AreHidingSums};
ghost use Rattle.register_words.specs.Hidden.{own_words, pair_words};

use crate::blocks::Blocks;
use crate::rows::{own_blocks, pair_blocks};
use missing_round::MeterSet;
use pair_keys::KeyTable;
use std::alloc::{AllocError, Global};

/// Adds the words to the sums, modulo 2^64, in each register. All are read before one is written, so that they are added at once.
#[inline(always)]
pub(crate) fn add(sums: &mut [u64; 8], words: &[u64; 8])
    ensures { (k : ℕ) → k < 8 → slice_index sums.new k ≡ word (slice_index sums.old k + slice_index words.now k) }
{
    let mut next = [0; 8];
    for register in 0..8usize {
        next[register] = sums[register].wrapping_add(words[register]);
    }
    *sums = next;
}

/// Takes the words away from the sums, modulo 2^64, all at once as well.
#[inline(always)]
pub(crate) fn take_away(sums: &mut [u64; 8], words: &[u64; 8])
    ensures { (k : ℕ) → k < 8 → slice_index sums.new k ≡ word (slice_index sums.old k + minus (slice_index words.now k)) }
{
    let mut next = [0; 8];
    for register in 0..8usize {
        next[register] = sums[register].wrapping_sub(words[register]);
    }
    *sums = next;
}

// Takes the words of the pairs of a meter with these higher ones away from the higher ones' sums, and gives their sums.
fn take_row(blocks: &Blocks, higher: &MeterSet, sums: &mut [[u64; 8]]) -> [u64; 8]
    requires row { length blocks.now.items ≡ length higher.now }
    requires within { IsTrue (list_all (λ j. nat_lt j (length sums.old)) higher.now) }
    ensures sums { (f : ℕ → List ℕ) → blocks.now.items ≡ map f higher.now → (k : ℕ) → k < 8 → column 0 k sums.new ≡ taken_from (λ j. slice_index (f j) k) higher.now (column 0 k sums.old) }
    ensures row { (f : ℕ → List ℕ) → blocks.now.items ≡ map f higher.now → (k : ℕ) → k < 8 → word (slice_index result k) ≡ word (sum_by (λ j. slice_index (f j) k) higher.now) }
{
    let row = blocks.as_slice();
    let mut total = [0; 8];
    let mut place = 0;
    for high in higher.members() {
        add(&mut total, &row[place]);
        take_away(&mut sums[high as usize], &row[place]);
        place += 1;
    }
    total
}

// Adds to the sums of each member its shares of the pair words with all members. Each pair's words are made once.
fn add_rows(
    blocks: &mut Blocks,
    keys: &KeyTable,
    group: u16,
    round: u32,
    members: &MeterSet,
    sums: &mut [[u64; 8]],
)
    requires places { IsTrue (are_places (table_of keys.now).plan group round members.now) }
    requires within { IsTrue (list_all (λ j. nat_lt j (length sums.old)) members.now) }
    ensures rows { (k : ℕ) → k < 8 → column 0 k sums.new ≡ with_rows (pair_words (table_of keys.now) group round k) members.now (column 0 k sums.old) }
    ensures set { IsSet members.now }
{
    let mut higher = *members;
    for low in members.members() {
        higher = higher.without(low);
        pair_blocks(blocks, keys, group, round, low, &higher);
        let row = take_row(blocks, &higher, sums);
        add(&mut sums[low as usize], &row);
    }
}

// Puts the own words of each member in the place of its sums.
fn put_owns(blocks: &Blocks, members: &MeterSet, sums: &mut [[u64; 8]])
    requires row { length blocks.now.items ≡ length members.now }
    requires within { IsTrue (list_all (λ j. nat_lt j (length sums.old)) members.now) }
    ensures { (f : ℕ → List ℕ) → blocks.now.items ≡ map f members.now → (k : ℕ) → k < 8 → column 0 k sums.new ≡ with_owns (λ i. slice_index (f i) k) members.now (column 0 k sums.old) }
{
    let row = blocks.as_slice();
    let mut place = 0;
    for meter in members.members() {
        sums[meter as usize] = row[place];
        place += 1;
    }
}

// Makes of zeros what hides the readings of each member: its own words and its shares of the pair words with all members.
fn fill_sums(
    blocks: &mut Blocks,
    keys: &KeyTable,
    group: u16,
    round: u32,
    members: &MeterSet,
    sums: &mut [[u64; 8]],
)
    requires places { IsTrue (are_places (table_of keys.now).plan group round members.now) }
    requires meters { length sums.old ≡ size (table_of keys.now).plan.groups group }
    ensures { (k : ℕ) → k < 8 → AreHidingSums (own_words (table_of keys.now) group round k) (pair_words (table_of keys.now) group round k) members.now (length sums.old) (column 0 k sums.new) }
{
    own_blocks(blocks, keys, group, round, members);
    put_owns(blocks, members, sums);
    add_rows(blocks, keys, group, round, members, sums);
}

// The sums before any word is added.
fn zeros(alloc: Global, count: usize) -> Result<Vec<[u64; 8]>, AllocError>
    ensures { IfOk result (λ zeros. zeros.items ≡ replicate count (replicate 8 0)) }
{
    vec![in alloc; [0; 8]; count]
}

/// What hides the readings of each member of a round, a row of eight registers for each of so many meters: its own words, and its
/// shares of the pair words with all members.
pub(crate) fn hiding_sums(
    alloc: Global,
    blocks: &mut Blocks,
    keys: &KeyTable,
    group: u16,
    round: u32,
    members: &MeterSet,
    meters: usize,
) -> Result<Vec<[u64; 8]>, AllocError>
    requires places { IsTrue (are_places (table_of keys.now).plan group round members.now) }
    requires meters { meters ≡ size (table_of keys.now).plan.groups group }
    ensures long { IfOk result (λ sums. length sums.items ≡ meters) }
    ensures sums { IfOk result (λ sums. (k : ℕ) → k < 8 → AreHidingSums (own_words (table_of keys.now) group round k) (pair_words (table_of keys.now) group round k) members.now meters (column 0 k sums.items)) }
{
    let mut sums = zeros(alloc, meters)?;
    fill_sums(blocks, keys, group, round, members, sums.as_mut_slice());
    Ok(sums)
}
