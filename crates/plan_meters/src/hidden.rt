//! The words of all readings of a plan.

ghost use Rattle.std.specs.Prelude.{◌≡◌, ℕ, ◌+◌, ◌*◌, ◌/◌, ◌<◌, ◌≤◌, ◌^◌, IsTrue, None, length, slice_index_or, IfOk};
ghost use Rattle.group_plan.specs.Plans.{is_place, members};
ghost use Rattle.group_plan.specs.Tables.{reading};
ghost use Rattle.blind_core.specs.Columns.{column};
ghost use Rattle.plan_meters.specs.TickFrames.{IsRow};
ghost use Rattle.plan_meters.specs.Hidden.{Hide, HideRounds, HideBlock, CanHide, AreColumns, AreBlocks, AreHidden, HasRow, words_in, blocks_in};

use crate::pieces::items_a_piece;
use blind_core::{masked_group, masked_rounds};
use event_schedule::members;
use group_plan::{GroupPlan, Plan, Readings};
use mask_stream::Masks;
use mod_word::Word;
use rayon::prelude::*;
use std::alloc::{AllocError, Global};
use std::thread::Threads;

/// The word of each reading of a plan, hidden under mask words, and 0 where there is no reading. Each block
/// has the rows of a group in eight rounds, or in those that are left at the end of the plan. The groups of the first
/// eight rounds come first, then those of the next eight.
#[derive(Drop)]
pub struct HiddenReadings {
    /// How many groups the plan has.
    pub groups: usize,
    /// The blocks, each round by round and each round by meter.
    pub blocks: Vec<Vec<Vec<Word>>>,
}

/// The readings of a group in a round.
fn row_of(
    alloc: Global,
    readings: &Readings,
    group: u16,
    round: u32,
) -> Result<Vec<Option<u64>>, AllocError>
    requires { round < readings.now.plan.rounds }
    ensures { IfOk result (λ row. IsRow readings.now group round row.items) }
{
    let mut row = Vec::new(alloc);
    for meter in 0..readings.plan().meters(group) {
        row.push(readings.get(group, round, meter as u8))?;
    }
    Ok(row)
}

/// The words of a group in a round.
fn words_of_round<M: Masks>(
    alloc: Global,
    readings: &Readings,
    masks: &M,
    group: u16,
    round: u32,
) -> Result<Vec<Word>, AllocError>
    requires masks { M.plan masks.now ≡ readings.now.plan }
    requires group { group < length readings.now.plan.groups }
    requires round { round < readings.now.plan.rounds }
    ensures { IfOk result (λ words. Hide readings.now (M.table masks.now) group round words.items) }
{
    let members = members(readings.plan(), group, round);
    let row = row_of(alloc, readings, group, round)?;
    masked_group(alloc, masks, group, &members, round, &row)
}

/// The words of a group in so many rounds from the first on, one round after another.
fn words_one_by_one<M: Masks>(
    alloc: Global,
    readings: &Readings,
    masks: &M,
    group: u16,
    first: u32,
    count: u32,
) -> Result<Vec<Vec<Word>>, AllocError>
    requires masks { M.plan masks.now ≡ readings.now.plan }
    requires group { group < length readings.now.plan.groups }
    requires fits { first + count < 2 ^ 32 }
    requires rounds { first + count ≤ readings.now.plan.rounds }
    ensures { IfOk result (λ rows. HideRounds readings.now (M.table masks.now) group first count rows.items) }
{
    let mut rows = Vec::new(alloc);
    for later in 0..count {
        rows.push(words_of_round(alloc, readings, masks, group, first + later)?)?;
    }
    Ok(rows)
}

/// The readings of a meter in eight rounds.
fn readings_of_meter(readings: &Readings, group: u16, first: u32, meter: u8) -> [Option<u64>; 8]
    requires fits { first + 7 < 2 ^ 32 }
    requires place { IsTrue (is_place readings.now.plan group (first + 7) meter) }
    ensures { (j : ℕ) → j < 8 → slice_index_or result j None ≡ reading readings.now.table group (first + j) meter }
{
    let mut row = [None; 8];
    for later in 0..8u32 {
        row[later as usize] = readings.get(group, first + later, meter);
    }
    row
}

/// The readings of a group in eight rounds, by meter.
fn readings_by_meter(
    alloc: Global,
    readings: &Readings,
    group: u16,
    first: u32,
) -> Result<Vec<[Option<u64>; 8]>, AllocError>
    requires fits { first + 7 < 2 ^ 32 }
    requires rounds { first + 7 < readings.now.plan.rounds }
    ensures { IfOk result (λ rows. (j : ℕ) → j < 8 → IsRow readings.now group (first + j) (column None j rows.items)) }
{
    let mut rows = Vec::new(alloc);
    for meter in 0..readings.plan().meters(group) {
        rows.push(readings_of_meter(readings, group, first, meter as u8))?;
    }
    Ok(rows)
}

/// The words of all meters in one of eight rounds.
fn words_in_round(alloc: Global, words: &[[u64; 8]], later: usize) -> Result<Vec<Word>, AllocError>
    requires { later < 8 }
    ensures { IfOk result (λ row. row.items ≡ column 0 later words.now) }
{
    let mut row = Vec::new(alloc);
    for word in words {
        row.push(Word(word[later]))?;
    }
    Ok(row)
}

/// The words of all meters in eight rounds, round by round.
fn words_by_round(alloc: Global, words: &[[u64; 8]]) -> Result<Vec<Vec<Word>>, AllocError>
    ensures { IfOk result (λ rows. AreColumns words.now 8 rows.items) }
{
    let mut rows = Vec::new(alloc);
    for later in 0..8 {
        rows.push(words_in_round(alloc, words, later)?)?;
    }
    Ok(rows)
}

/// Whether a group has the same members in eight rounds.
fn have_same_members(plan: &Plan, group: u16, first: u32) -> bool
    requires group { group < length plan.now.groups }
    requires fits { first + 7 < 2 ^ 32 }
    requires rounds { first + 7 < plan.now.rounds }
    ensures { IsTrue result → (j : ℕ) → j < 8 → members plan.now.groups group (first + j) ≡ members plan.now.groups group first }
{
    let here = members(plan, group, first);
    for later in 1..8u32 {
        if members(plan, group, first + later) != here {
            return false;
        }
    }
    true
}

/// The words of a group in eight rounds that have the same members.
fn words_at_once<M: Masks>(
    alloc: Global,
    readings: &Readings,
    masks: &M,
    group: u16,
    first: u32,
) -> Result<Vec<Vec<Word>>, AllocError>
    requires masks { M.plan masks.now ≡ readings.now.plan }
    requires group { group < length readings.now.plan.groups }
    requires fits { first + 7 < 2 ^ 32 }
    requires rounds { first + 7 < readings.now.plan.rounds }
    requires same { (j : ℕ) → j < 8 → members readings.now.plan.groups group (first + j) ≡ members readings.now.plan.groups group first }
    ensures { IfOk result (λ rows. HideRounds readings.now (M.table masks.now) group first 8 rows.items) }
{
    let members = members(readings.plan(), group, first);
    let rows = readings_by_meter(alloc, readings, group, first)?;
    let words = masked_rounds(alloc, masks, group, &members, first, &rows)?;
    words_by_round(alloc, &words)
}

/// The words of a group in a block of rounds: all at once where they are eight that have the same members.
fn words_of_block<M: Masks>(
    alloc: Global,
    readings: &Readings,
    masks: &M,
    group: u16,
    first: u32,
    count: u32,
) -> Result<Vec<Vec<Word>>, AllocError>
    requires masks { M.plan masks.now ≡ readings.now.plan }
    requires group { group < length readings.now.plan.groups }
    requires fits { first + count < 2 ^ 32 }
    requires rounds { first + count ≤ readings.now.plan.rounds }
    ensures { IfOk result (λ rows. HideRounds readings.now (M.table masks.now) group first count rows.items) }
{
    if count == 8 && have_same_members(readings.plan(), group, first) {
        words_at_once(alloc, readings, masks, group, first)
    } else {
        words_one_by_one(alloc, readings, masks, group, first, count)
    }
}

/// The words of the block at a place.
fn words_at<M: Masks>(
    alloc: Global,
    readings: &Readings,
    masks: &M,
    place: usize,
) -> Result<Vec<Vec<Word>>, AllocError>
    requires masks { M.plan masks.now ≡ readings.now.plan }
    requires place { place < blocks_in readings.now.plan.rounds * length readings.now.plan.groups }
    ensures { IfOk result (λ rows. HideBlock readings.now (M.table masks.now) place rows.items) }
{
    let groups = readings.plan().groups().len();
    let group = (place % groups) as u16;
    let first = (place / groups * 8) as u32;
    let count = (readings.plan().rounds() - first).min(8);
    words_of_block(alloc, readings, masks, group, first, count)
}

/// How many mask words the readings of all groups take in a block of eight rounds, where each meter is a member and has
/// a reading.
fn words_a_block(groups: &[GroupPlan]) -> usize {
    let mut words = 0usize;
    for group in groups {
        let meters = group.meters as usize;
        words = words.saturating_add(meters * (meters + 1) / 2);
    }
    words.saturating_mul(8)
}

/// How many places the blocks of a plan take.
fn places_in(plan: &Plan) -> usize
    ensures { result ≡ blocks_in plan.now.rounds * length plan.now.groups }
{
    (plan.rounds() as usize + 7) / 8 * plan.groups().len()
}

/// Hides the readings of all blocks, side by side.
fn all_blocks<R: Threads + Sync, M: Masks + Sync>(
    rt: &R,
    alloc: Global,
    readings: &Readings,
    masks: &M,
) -> Result<Vec<Vec<Vec<Word>>>, AllocError>
    requires { M.plan masks.now ≡ readings.now.plan }
    ensures { IfOk result (λ blocks. AreBlocks readings.now (M.table masks.now) blocks.items) }
{
    let plan = readings.plan();
    let groups = plan.groups();
    (0..places_in(plan))
        .into_par_iter()
        .with_min_len(items_a_piece(words_a_block(groups), groups.len()))
        .map(
            |place: usize| -> Result<Vec<Vec<Word>>, AllocError>
                requires { CanHide readings.now (M.plan masks.now) place }
                ensures { IfOk result (λ rows. HideBlock readings.entry.now (M.table masks.entry.now) place rows.items) }
            { words_at(alloc, readings, masks, place) },
        )
        .collect::<Result<Vec<Vec<Vec<Word>>>, AllocError>>(rt, alloc)?
}

impl HiddenReadings {
    /// Hides the readings of a plan.
    pub fn new<R: Threads + Sync, M: Masks + Sync>(
        rt: &R,
        alloc: Global,
        readings: &Readings,
        masks: &M,
    ) -> Result<HiddenReadings, AllocError>
        requires masks { M.plan masks.now ≡ readings.now.plan }
        ensures { IfOk result (AreHidden readings.now (M.table masks.now)) }
    {
        Ok(HiddenReadings {
            groups: readings.plan().groups().len(),
            blocks: all_blocks(rt, alloc, readings, masks)?,
        })
    }

    /// The words of a group in a round, by meter.
    pub fn row(&self, group: u16, round: u32) -> &[Word]
        requires { HasRow self.now group round }
        ensures { result.now ≡ words_in self.now group round }
    {
        let block = &self.blocks[round as usize / 8 * self.groups + group as usize];
        &block[round as usize % 8]
    }
}
