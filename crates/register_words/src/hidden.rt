//! The words of a group's readings in a round, in all registers.
ghost use Rattle.std.specs.Prelude.{◌≡◌, ℕ, ◌+◌, ◌<◌, [], IfOk, IfSome, IsTrue, OnOk, length, slice_index, slice_index_or, unwrap_or};
ghost use Rattle.group_plan.specs.Plans.{is_place, size};
ghost use Rattle.group_plan.specs.Tables.{reading};
ghost use Rattle.missing_round.specs.Words.{word};
ghost use Rattle.pair_keys.specs.Keys.{Keys, table_of};
ghost use Rattle.plan_files.specs.Registers.{RegistersView, table};
ghost use Rattle.event_schedule.specs.Transcripts.{HasPlace, HasRound};
ghost use Rattle.register_words.specs.Hidden.{AreReadingWords, IsHidden};

use crate::blocks::Blocks;
use crate::shares::answer_words;
use crate::sums::hiding_sums;
use event_schedule::members;
use group_plan::Tag;
use missing_round::MeterSet;
use pair_keys::KeyTable;
use plan_files::Registers;
use std::alloc::{AllocError, Global};

/// The words of the readings of a group in a round.
#[derive(Drop)]
pub(crate) struct HiddenGroup {
    pub group: u16,
    pub round: u32,
    pub members: MeterSet,
    /// By meter, those of each register: of a member, its reading and what hides it.
    pub words: Vec<[u64; 8]>,
}

// Adds the readings of a meter in the registers, where it has one.
fn add_readings(words: &mut [u64; 8], tables: &Registers, group: u16, round: u32, meter: u8)
    requires { IsTrue (is_place tables.now.plan group round meter) }
    ensures { (k : ℕ) → k < length tables.now.tables → slice_index words.new k ≡ word (slice_index words.old k + unwrap_or (reading (table tables.now k) group round meter) 0) }
{
    for register in 0..tables.count() {
        let reading = tables.table(register).get(group, round, meter);
        let hidden = words[register as usize];
        words[register as usize] = hidden.wrapping_add(reading.unwrap_or(0));
    }
}

// Adds the readings of each meter of a group.
fn add_all_readings(words: &mut [[u64; 8]], tables: &Registers, group: u16, round: u32)
    requires round { HasRound tables.now.plan group round }
    requires meters { length words.old ≡ size tables.now.plan.groups group }
    ensures { (i k : ℕ) → i < length words.old → k < length tables.now.tables
        → slice_index (slice_index_or words.new i []) k ≡ word (slice_index (slice_index_or words.old i []) k + unwrap_or (reading (table tables.now k) group round i) 0) }
{
    for meter in 0..tables.plan().meters(group) {
        add_readings(
            &mut words[meter as usize],
            tables,
            group,
            round,
            meter as u8,
        );
    }
}

// The words of a group in a round.
fn hide_group(
    alloc: Global,
    blocks: &mut Blocks,
    tables: &Registers,
    keys: &KeyTable,
    group: u16,
    round: u32,
) -> Result<HiddenGroup, AllocError>
    requires plan { (table_of keys.now).plan ≡ tables.now.plan }
    requires round { HasRound tables.now.plan group round }
    ensures { IfOk result (IsHidden tables.now (table_of keys.now)) }
{
    let plan = tables.plan();
    let members = members(plan, group, round);
    let meters = plan.meters(group) as usize;
    let mut words = hiding_sums(alloc, blocks, keys, group, round, &members, meters)?;
    add_all_readings(words.as_mut_slice(), tables, group, round);
    Ok(HiddenGroup {
        group,
        round,
        members,
        words,
    })
}

/// The words of one reading, whose meter need not be a member.
pub(crate) fn words_alone(
    blocks: &mut Blocks,
    tables: &Registers,
    keys: &KeyTable,
    tag: Tag,
) -> [u64; 8]
    requires plan { (table_of keys.now).plan ≡ tables.now.plan }
    requires place { HasPlace tables.now.plan tag }
    ensures { AreReadingWords tables.now (table_of keys.now) tag.group tag.round tag.meter result }
{
    let others = members(tables.plan(), tag.group, tag.round).without(tag.meter);
    let mut words = answer_words(blocks, keys, tag.group, tag.round, tag.meter, &others);
    add_readings(&mut words, tables, tag.group, tag.round, tag.meter);
    words
}

// The words that are kept of a reading, if they are those of its group in its round, and its meter is a member.
fn kept_words(kept: &Option<HiddenGroup>, tag: Tag) -> Option<[u64; 8]>
    ensures { (registers : RegistersView) (keys : Keys) → IfSome kept.now (IsHidden registers keys) → IfSome result (AreReadingWords registers keys tag.group tag.round tag.meter) }
{
    match kept {
        Some(hidden) => {
            if hidden.group == tag.group
                && hidden.round == tag.round
                && hidden.members.has(tag.meter)
            {
                hidden.words.get(tag.meter as usize).copied()
            } else {
                None
            }
        }
        None => None,
    }
}

/// The words of a reading in the registers. Those of its group in its round are made together, and kept for the next readings.
pub(crate) fn reading_words(
    alloc: Global,
    blocks: &mut Blocks,
    kept: &mut Option<HiddenGroup>,
    tables: &Registers,
    keys: &KeyTable,
    tag: Tag,
) -> Result<[u64; 8], AllocError>
    requires plan { (table_of keys.now).plan ≡ tables.now.plan }
    requires place { HasPlace tables.now.plan tag }
    requires kept { IfSome kept.old (IsHidden tables.now (table_of keys.now)) }
    ensures words { IfOk result (AreReadingWords tables.now (table_of keys.now) tag.group tag.round tag.meter) }
    ensures kept { OnOk result (IfSome kept.new (IsHidden tables.now (table_of keys.now))) }
{
    if let Some(words) = kept_words(kept, tag) {
        return Ok(words);
    }
    *kept = Some(hide_group(alloc, blocks, tables, keys, tag.group, tag.round)?);
    match kept_words(kept, tag) {
        Some(words) => Ok(words),
        None => Ok(words_alone(blocks, tables, keys, tag)),
    }
}
