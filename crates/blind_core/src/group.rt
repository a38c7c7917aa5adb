//! The words of a group.
ghost use Rattle.std.specs.Prelude.{◌≡◌, ◌≤◌, ◌<◌, ◌^◌, true, nat_lt, IsTrue, is_some, IfOk, OnOk, length, replicate, sum_by, List};
ghost use Rattle.std.specs.List.{list_all};
ghost use Rattle.group_plan.specs.Plans.{is_place, size};
ghost use Rattle.missing_round.specs.Sets.{IsSet};
ghost use Rattle.missing_round.specs.Words.{word};
ghost use Rattle.blind_core.specs.Blind.{are_places, AreReadings, AreGroupWords};
ghost use Rattle.blind_core.specs.Rows.{is_higher, taken_from, with_rows, with_owns, AreHidingSums, hidden_or_0};

use mask_stream::Masks;
use missing_round::MeterSet;
use mod_word::Word;
use std::alloc::{AllocError, Global};

// Takes the words of the pairs of `low` with these higher meters away from the higher ones' sums, and gives their sum.
#[tactic(auto, unfolding(crate::specs::Rows::taken_from))]
fn take_row<M: Masks>(
    masks: &M,
    group: u16,
    round: u32,
    low: u8,
    higher: &MeterSet,
    sums: &mut [u64],
) -> u64
    requires low { IsTrue (is_place (M.plan masks.now) group round low) }
    requires higher { IsTrue (list_all (is_higher (M.plan masks.now) group round (length sums.old) low) higher.now) }
    ensures sums { sums.new ≡ taken_from ((M.table masks.now).pair group round low) higher.now sums.old }
    ensures row { result ≡ word (sum_by ((M.table masks.now).pair group round low) higher.now) }
{
    let row = masks.pairs(group, round, low, higher);
    let words = row.as_slice();
    let mut place = 0;
    let mut total = 0u64;
    for high in higher.members() {
        let word = words[place];
        place += 1;
        total = total.wrapping_add(word);
        let sum = &mut sums[high as usize];
        *sum = sum.wrapping_sub(word);
    }
    total
}

// Adds to the sum of each member its shares of the pair words with all members. Each pair word is asked once.
#[tactic(auto, unfolding(crate::specs::Rows::with_rows))]
fn add_rows<M: Masks>(masks: &M, group: u16, round: u32, members: &MeterSet, sums: &mut [u64])
    requires places { IsTrue (are_places (M.plan masks.now) group round members.now) }
    requires within { IsTrue (list_all (λ j. nat_lt j (length sums.old)) members.now) }
    ensures rows { sums.new ≡ with_rows ((M.table masks.now).pair group round) members.now sums.old }
    ensures set { IsSet members.now }
{
    let mut higher = *members;
    for low in members.members() {
        higher = higher.without(low);
        let row = take_row(masks, group, round, low, &higher, sums);
        let sum = &mut sums[low as usize];
        *sum = sum.wrapping_add(row);
    }
}

// The sums before any word is added.
fn zeros(alloc: Global, count: usize) -> Result<Vec<u64>, AllocError>
    ensures { IfOk result (λ zeros. zeros.items ≡ replicate count 0) }
{
    vec![in alloc; 0; count]
}

// Puts the own word of each member in the place of its sum.
#[tactic(auto, unfolding(crate::specs::Rows::with_owns))]
fn put_owns<M: Masks>(masks: &M, group: u16, round: u32, members: &MeterSet, sums: &mut [u64])
    requires places { IsTrue (are_places (M.plan masks.now) group round members.now) }
    requires within { IsTrue (list_all (λ j. nat_lt j (length sums.old)) members.now) }
    ensures { sums.new ≡ with_owns ((M.table masks.now).own group round) members.now sums.old }
{
    let row = masks.owns(group, round, members);
    let words = row.as_slice();
    let mut place = 0;
    for meter in members.members() {
        sums[meter as usize] = words[place];
        place += 1;
    }
}

// Makes of zeros what hides the reading of each member: its own word and its shares of the pair words with all members.
fn fill_sums<M: Masks>(masks: &M, group: u16, round: u32, members: &MeterSet, sums: &mut [u64])
    requires places { IsTrue (are_places (M.plan masks.now) group round members.now) }
    requires within { IsTrue (list_all (λ j. nat_lt j (length sums.old)) members.now) }
    ensures sums { sums.new ≡ with_rows ((M.table masks.now).pair group round) members.now (with_owns ((M.table masks.now).own group round) members.now sums.old) }
    ensures set { IsSet members.now }
{
    put_owns(masks, group, round, members, sums);
    add_rows(masks, group, round, members, sums);
}

// What hides the reading of each member, at the meter's place: its own word and the sum of its shares with all members,
// modulo 2^64.
fn hiding_sums<M: Masks>(
    alloc: Global,
    masks: &M,
    group: u16,
    round: u32,
    members: &MeterSet,
    meters: usize,
) -> Result<Vec<u64>, AllocError>
    requires places { IsTrue (are_places (M.plan masks.now) group round members.now) }
    requires meters { meters ≡ size (M.plan masks.now).groups group }
    ensures { IfOk result (λ sums. AreHidingSums ((M.table masks.now).own group round) ((M.table masks.now).pair group round) members.now meters sums.items) }
{
    let mut sums = zeros(alloc, meters)?;
    fill_sums(masks, group, round, members, sums.as_mut_slice());
    Ok(sums)
}

// The word of a meter: its reading and what hides it, or 0 where it has no reading.
pub(crate) fn word_or_0(reading: Option<u64>, sum: u64) -> Word
    ensures { result ≡ hidden_or_0 sum reading }
{
    match reading {
        Some(reading) => Word(reading.wrapping_add(sum)),
        None => Word(0),
    }
}

/// One word for each meter of a group: the word that hides its reading, or 0 where it has none.
///
/// Each pair word is asked once, added at the lower meter and taken away at the higher one.
pub fn masked_group<M: Masks>(
    alloc: Global,
    masks: &M,
    group: u16,
    members: &MeterSet,
    round: u32,
    readings: &[Option<u64>],
) -> Result<Vec<Word>, AllocError>
    requires places { IsTrue (are_places (M.plan masks.now) group round members.now) }
    requires meters { length readings.now ≡ size (M.plan masks.now).groups group }
    requires readings { AreReadings members.now readings.now }
    ensures { IfOk result (λ words. AreGroupWords ((M.table masks.now).own group round) ((M.table masks.now).pair group round) members.now readings.now words.items) }
{
    let sums = hiding_sums(alloc, masks, group, round, members, readings.len())?;
    let mut words = Vec::new(alloc);
    for meter in 0..readings.len() {
        let word = word_or_0(readings[meter], sums[meter]);
        words.push(word)?;
    }
    Ok(words)
}
