//! The words of readings in the further registers.
ghost use Rattle.std.specs.Prelude.{◌≡◌, IfOk, OnOk, length};
ghost use Rattle.pair_keys.specs.Keys.{table_of};
ghost use Rattle.event_schedule.specs.Transcripts.{HasPlace};
ghost use Rattle.register_words.specs.Hidden.{AreFurtherWords};
ghost use Rattle.register_words.specs.Readings.{AreReady, AreMade};

use crate::blocks::Blocks;
use crate::hidden::{HiddenGroup, reading_words, words_alone};
use crate::masks::RegisterMasks;
use group_plan::Tag;
use pair_keys::KeyTable;
use plan_files::Registers;
use plan_meters::HiddenReadings;
use std::alloc::{AllocError, Global};
use std::thread::Threads;

/// The words of readings. A block has the words of all registers of a key, and takes less than twice as long to make as one of them
/// alone: so only where there is one further register, its words are made without the others.
#[derive(Drop)]
pub(crate) enum ReadingWords {
    /// Those of register 1, the only further one, of all readings.
    Made(HiddenReadings),
    /// Those of the group and the round that were asked for last, in all registers.
    Kept(Option<HiddenGroup>),
}

// The words of a reading, where those of register 1 are made. Where there is no reading, there is no word among these.
fn made_words(
    blocks: &mut Blocks,
    hidden: &HiddenReadings,
    tables: &Registers,
    keys: &KeyTable,
    tag: Tag,
) -> [u64; 8]
    requires plan { (table_of keys.now).plan ≡ tables.now.plan }
    requires place { HasPlace tables.now.plan tag }
    requires made { AreMade tables.now (table_of keys.now) hidden.now }
    ensures { AreFurtherWords tables.now (table_of keys.now) tag.group tag.round tag.meter result }
{
    if tables
        .table(1)
        .get(tag.group, tag.round, tag.meter)
        .is_none()
    {
        return words_alone(blocks, tables, keys, tag);
    }
    let mut words = [0; 8];
    words[1] = hidden.row(tag.group, tag.round)[tag.meter as usize].value();
    words
}

impl ReadingWords {
    /// Makes the words of all readings, where there are two registers.
    pub(crate) fn new<R: Threads + Sync>(
        rt: &R,
        alloc: Global,
        tables: &Registers,
        keys: &KeyTable,
    ) -> Result<ReadingWords, AllocError>
        requires { (table_of keys.now).plan ≡ tables.now.plan }
        ensures { IfOk result (AreReady tables.now (table_of keys.now)) }
    {
        if tables.count() != 2 {
            return Ok(ReadingWords::Kept(None));
        }
        let masks = RegisterMasks::new(keys, 1);
        let hidden = HiddenReadings::new(rt, alloc, tables.table(1), &masks)?;
        Ok(ReadingWords::Made(hidden))
    }

    /// The words of a reading in the registers, past register 0.
    pub(crate) fn of_reading(
        &mut self,
        alloc: Global,
        blocks: &mut Blocks,
        tables: &Registers,
        keys: &KeyTable,
        tag: Tag,
    ) -> Result<[u64; 8], AllocError>
        requires plan { (table_of keys.now).plan ≡ tables.now.plan }
        requires place { HasPlace tables.now.plan tag }
        requires ready { AreReady tables.now (table_of keys.now) self.old }
        ensures words { IfOk result (AreFurtherWords tables.now (table_of keys.now) tag.group tag.round tag.meter) }
        ensures ready { OnOk result (AreReady tables.now (table_of keys.now) self.new) }
    {
        match self {
            ReadingWords::Made(hidden) => Ok(made_words(blocks, hidden, tables, keys, tag)),
            ReadingWords::Kept(kept) => reading_words(alloc, blocks, kept, tables, keys, tag),
        }
    }
}
