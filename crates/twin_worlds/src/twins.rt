//! Two worlds of one transcript.

ghost use Rattle.std.specs.Prelude.{◌≡◌, ℕ, List, IfOk, IfErr};
ghost use Rattle.pair_keys.specs.Keys.{table_of};
ghost use Rattle.group_plan.specs.Tables.{presence_of};
ghost use Rattle.mask_stream.specs.KeyStreams.{streams};
ghost use Rattle.ideal_masks.specs.Pools.{pool_of};
ghost use Rattle.ideal_masks.specs.Replaying.{events_in};
ghost use Rattle.twin_worlds.specs.Ends.{TextEnds, HeadEnds, IsHeadRefusal, RecordBookEnds, AgreementEnds, PooledAgreementEnds};
ghost use Rattle.twin_worlds.specs.Twins.{IsReadOf, SameWorldEnds, TwinEnds, PooledTwinEnds};

use crate::comparing::book_of;
use crate::heads::is_same_plan;
use crate::moving::moved_rows;
use crate::{MovedWords, PoolTwinError, ReadingTables, TwinError};
use group_book::Book;
use group_plan::{Plan, Readings};
use ideal_masks::{Differ, Offsets, PoolDiffer, offsets_after, pooled_offsets_after};
use mask_stream::{ChaMasks, Masks};
use missing_round::MeterSet;
use pair_keys::KeyTable;
use std::alloc::Global;
use std::thread::Threads;
use transcript_log::Transcript;
use transcript_text::{ReadError, read};

// The transcript that was read, or the fault of its text as a twin tells it.
fn transcript_of(read: Result<Transcript, ReadError>) -> Result<Transcript, TwinError>
    ensures ends { (text : List ℕ) → IsReadOf text read → TextEnds text result }
    ensures refused { IfErr result IsHeadRefusal }
{
    match read {
        Ok(transcript) => Ok(transcript),
        Err(ReadError::Memory) => Err(TwinError::Memory),
        Err(fault) => Err(TwinError::Transcript(fault)),
    }
}

// What a text is read as.
fn read_text<R: Threads + Sync>(rt: &R, alloc: Global, text: &[u8]) -> Result<Transcript, ReadError>
    ensures { IsReadOf text.now result }
{
    read(rt, alloc, text)
}

/// The transcript that was read, where it is of this plan; else `Transcript`, `Head` or `Memory`.
pub fn transcript_of_plan(
    alloc: Global,
    plan: &Plan,
    read: Result<Transcript, ReadError>,
) -> Result<Transcript, TwinError>
    ensures ends { (text : List ℕ) → IsReadOf text read → HeadEnds plan.now text result }
    ensures plan { IfOk result (λ t. t.plan ≡ plan.now) }
    ensures refused { IfErr result IsHeadRefusal }
{
    let transcript = transcript_of(read)?;
    if is_same_plan(alloc, transcript.plan(), plan)? {
        Ok(transcript)
    } else {
        Err(TwinError::Head)
    }
}

// The offsets between two tables that agree after the events of a book.
fn agreed_offsets(
    alloc: Global,
    first: &Readings,
    second: &Readings,
    book: &Book,
) -> Result<Offsets, TwinError>
    requires first { book.now.presence ≡ presence_of first.now }
    requires second { second.now.plan ≡ first.now.plan }
    ensures { AgreementEnds first.now second.now (events_in book.now) result }
{
    match offsets_after(alloc, first, second, book) {
        Ok(offsets) => Ok(offsets),
        Err(Differ::Memory) => Err(TwinError::Memory),
        Err(cause) => Err(TwinError::Differ(cause)),
    }
}

// The offsets between two tables that agree for a pool after the events of a book.
fn agreed_pooled_offsets(
    alloc: Global,
    known: &[MeterSet],
    first: &Readings,
    second: &Readings,
    book: &Book,
) -> Result<Offsets, PoolTwinError>
    requires first { book.now.presence ≡ presence_of first.now }
    requires second { second.now.plan ≡ first.now.plan }
    ensures { PooledAgreementEnds (pool_of known.now) first.now second.now (events_in book.now) result }
{
    match pooled_offsets_after(alloc, known, first, second, book) {
        Ok(offsets) => Ok(offsets),
        Err(
            PoolDiffer::Known {
                group,
                round,
                meter,
            },
        ) => Err(PoolTwinError::Known {
            group,
            round,
            meter,
        }),
        Err(PoolDiffer::Other(Differ::Memory)) => Err(PoolTwinError::Other(TwinError::Memory)),
        Err(PoolDiffer::Other(cause)) => Err(PoolTwinError::Other(TwinError::Differ(cause))),
    }
}

// A book of the events of a transcript, where it is of the plan of the first table, which gives its lines under these masks.
fn record_book<R: Threads + Sync, M: Masks + Sync>(
    rt: &R,
    alloc: Global,
    masks: &M,
    first: &Readings,
    transcript: &Transcript,
) -> Result<Book, TwinError>
    requires { M.plan masks.now ≡ first.now.plan }
    ensures { RecordBookEnds (M.table masks.now) first.now transcript.now result }
{
    if !is_same_plan(alloc, transcript.plan(), first.plan())? {
        return Err(TwinError::Head);
    }
    book_of(rt, alloc, masks, first, transcript)
}

/// The transcript that was read, where it is of the plan of the first table of readings, which gives it under these masks; else
/// `Transcript`, `Head`, `NotThis` or `Memory`, the first in this order.
pub fn same_world_of_read<R: Threads + Sync, M: Masks + Sync>(
    rt: &R,
    alloc: Global,
    masks: &M,
    first: &Readings,
    read: Result<Transcript, ReadError>,
) -> Result<Transcript, TwinError>
    requires { M.plan masks.now ≡ first.now.plan }
    ensures ends { (text : List ℕ) → IsReadOf text read → SameWorldEnds (M.table masks.now) first.now text result }
    ensures plan { IfOk result (λ t. t.plan ≡ first.now.plan) }
{
    let transcript = transcript_of(read)?;
    let _book = record_book(rt, alloc, masks, first, &transcript)?;
    Ok(transcript)
}

/// The same of a text that is to be read.
pub fn same_world<R: Threads + Sync, M: Masks + Sync>(
    rt: &R,
    alloc: Global,
    plan: &Plan,
    masks: &M,
    first: &Readings,
    text: &[u8],
) -> Result<Transcript, TwinError>
    requires masks { M.plan masks.now ≡ plan.now }
    requires first { first.now.plan ≡ plan.now }
    ensures { SameWorldEnds (M.table masks.now) first.now text.now result }
{
    same_world_of_read(rt, alloc, masks, first, read_text(rt, alloc, text))
}

/// The mask words that move so that the second table of readings gives the transcript that was read, where the first table gives it
/// under the words of the keys.
pub fn twin_of_read<R: Threads + Sync>(
    rt: &R,
    alloc: Global,
    keys: &KeyTable,
    tables: &ReadingTables,
    read: Result<Transcript, ReadError>,
) -> Result<MovedWords, TwinError>
    requires keys { (table_of keys.now).plan ≡ tables.now.first.now.plan }
    requires second { tables.now.second.now.plan ≡ tables.now.first.now.plan }
    ensures { (text : List ℕ) → IsReadOf text read → TwinEnds (streams (table_of keys.now)) tables.now.first.now tables.now.second.now text result }
{
    let first = tables.first;
    let _groups = first.plan().groups();
    let masks = ChaMasks::new(keys);
    let transcript = transcript_of(read)?;
    let book = record_book(rt, alloc, &masks, first, &transcript)?;
    drop(transcript);
    let offsets = agreed_offsets(alloc, first, tables.second, &book)?;
    Ok(moved_rows(alloc, &masks, &offsets)?)
}

/// The same of a text that is to be read.
pub fn twin<R: Threads + Sync>(
    rt: &R,
    alloc: Global,
    keys: &KeyTable,
    tables: &ReadingTables,
    text: &[u8],
) -> Result<MovedWords, TwinError>
    requires keys { (table_of keys.now).plan ≡ tables.now.first.now.plan }
    requires second { tables.now.second.now.plan ≡ tables.now.first.now.plan }
    ensures { TwinEnds (streams (table_of keys.now)) tables.now.first.now tables.now.second.now text.now result }
{
    twin_of_read(rt, alloc, keys, tables, read_text(rt, alloc, text))
}

/// The mask words that move so that the second table of readings gives the transcript that was read, and a pool of meters the
/// same readings and the same words, where the first table gives it under the words of the keys. `known` are the meters of
/// the pool, as a set for each group; a group past the last has none.
pub fn pooled_twin_of_read<R: Threads + Sync>(
    rt: &R,
    alloc: Global,
    keys: &KeyTable,
    known: &[MeterSet],
    tables: &ReadingTables,
    read: Result<Transcript, ReadError>,
) -> Result<MovedWords, PoolTwinError>
    requires keys { (table_of keys.now).plan ≡ tables.now.first.now.plan }
    requires second { tables.now.second.now.plan ≡ tables.now.first.now.plan }
    ensures { (text : List ℕ) → IsReadOf text read → PooledTwinEnds (pool_of known.now) (streams (table_of keys.now)) tables.now.first.now tables.now.second.now text result }
{
    let first = tables.first;
    let _groups = first.plan().groups();
    let masks = ChaMasks::new(keys);
    let transcript = transcript_of(read)?;
    let book = record_book(rt, alloc, &masks, first, &transcript)?;
    drop(transcript);
    let offsets = agreed_pooled_offsets(alloc, known, first, tables.second, &book)?;
    Ok(moved_rows(alloc, &masks, &offsets)?)
}

/// The same of a text that is to be read.
pub fn pooled_twin<R: Threads + Sync>(
    rt: &R,
    alloc: Global,
    keys: &KeyTable,
    known: &[MeterSet],
    tables: &ReadingTables,
    text: &[u8],
) -> Result<MovedWords, PoolTwinError>
    requires keys { (table_of keys.now).plan ≡ tables.now.first.now.plan }
    requires second { tables.now.second.now.plan ≡ tables.now.first.now.plan }
    ensures { PooledTwinEnds (pool_of known.now) (streams (table_of keys.now)) tables.now.first.now tables.now.second.now text.now result }
{
    pooled_twin_of_read(rt, alloc, keys, known, tables, read_text(rt, alloc, text))
}
