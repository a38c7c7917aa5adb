//! The side words of a transcript.
ghost use Rattle.std.specs.Prelude.{◌≡◌, ℕ, ◌<◌, ◌≤◌, ◌++◌, [], ◌∷◌, IfOk, IfSome, OnOk, length, slice_index};
ghost use Rattle.pair_keys.specs.Keys.{table_of};
ghost use Rattle.register_words.specs.Readings.{AreReady};
ghost use Rattle.register_words.specs.SideParts.{FitsFrame, row_by};
ghost use Rattle.register_words.specs.Sides.{and_rows, rows_of, side_frame, side_row, register_contents, word_for};

use crate::blocks::Blocks;
use crate::readings::ReadingWords;
use crate::row::{SideRow, SideWords};
use crate::shares::answer_words;
use event_schedule::Line;
use group_plan::Kind;
use meter_frames::Frame;
use mod_word::Word;
use pair_keys::KeyTable;
use plan_files::Registers;
use std::alloc::{AllocError, Global};
use std::thread::Threads;
use transcript_log::Transcript;
use transcript_text::entry_line;

// The frame of a line, where it has words of its own in the further registers.
pub(crate) fn side_frame(line: &Line) -> Option<Frame>
    ensures { result ≡ side_frame line.now }
{
    match *line {
        Line::Send {
            frame: Some(frame),
            ..
        } => match frame.tag.kind {
            Kind::Reading => Some(frame),
            Kind::Announcement => None,
            Kind::Answer => Some(frame),
        },
        Line::Send { frame: None, .. } => None,
        Line::Take { .. } => None,
        Line::Close { .. } => None,
        Line::End { .. } => None,
    }
}

// The words of a frame in the registers, past register 0.
fn frame_words(
    alloc: Global,
    blocks: &mut Blocks,
    readings: &mut ReadingWords,
    tables: &Registers,
    keys: &KeyTable,
    frame: &Frame,
) -> Result<[u64; 8], AllocError>
    requires plan { (table_of keys.now).plan ≡ tables.now.plan }
    requires ready { AreReady tables.now (table_of keys.now) readings.old }
    requires fits { FitsFrame tables.now.plan frame.now }
    ensures words { IfOk result (λ words. (k : ℕ) → 1 ≤ k → k < length tables.now.tables → slice_index words k ≡ word_for (register_contents tables.now (table_of keys.now) k) frame.now) }
    ensures ready { OnOk result (AreReady tables.now (table_of keys.now) readings.new) }
{
    let _plan = tables.plan();
    let tag = frame.tag;
    match tag.kind {
        Kind::Reading => readings.of_reading(alloc, blocks, tables, keys, tag),
        Kind::Announcement => Ok([0; 8]),
        Kind::Answer => {
            let missing = frame.missing.without(tag.meter);
            Ok(answer_words(blocks, keys, tag.group, tag.round, tag.meter, &missing))
        }
    }
}

// The row of a line with these words of all registers, of which there are so many.
fn row_of_words(line: u64, words: &[u64; 8], registers: u8) -> SideRow
    requires { (1 ≤ registers) × (registers ≤ 8) }
    ensures { result ≡ row_by line words.now registers }
{
    let mut further = [Word(0); 7];
    for register in 1..registers {
        further[register as usize - 1] = Word(words[register as usize]);
    }
    SideRow {
        line,
        count: registers - 1,
        words: further,
    }
}

// Adds a row.
fn push_row(
    rows: &mut Vec<SideRow>,
    line: u64,
    count: u8,
    words: [Word; 7],
) -> Result<(), AllocError>
    ensures { OnOk result (rows.new.items ≡ rows.old.items ++ record { line = line; count = count; words = words } ∷ []) }
{
    rows.reserve(1)?;
    rows.push_reserved(SideRow { line, count, words });
    Ok(())
}

// The row of a frame whose line has this number.
fn side_row(
    alloc: Global,
    blocks: &mut Blocks,
    readings: &mut ReadingWords,
    tables: &Registers,
    keys: &KeyTable,
    line: u64,
    frame: &Frame,
) -> Result<SideRow, AllocError>
    requires plan { (table_of keys.now).plan ≡ tables.now.plan }
    requires ready { AreReady tables.now (table_of keys.now) readings.old }
    requires fits { FitsFrame tables.now.plan frame.now }
    ensures row { IfOk result (λ row. row ≡ side_row tables.now (table_of keys.now) line frame.now) }
    ensures ready { OnOk result (AreReady tables.now (table_of keys.now) readings.new) }
{
    let words = frame_words(alloc, blocks, readings, tables, keys, frame)?;
    Ok(row_of_words(line, &words, tables.count()))
}

// Adds the row of a line, if it has one.
fn put_row(
    rows: &mut Vec<SideRow>,
    alloc: Global,
    blocks: &mut Blocks,
    readings: &mut ReadingWords,
    tables: &Registers,
    keys: &KeyTable,
    number: u64,
    frame: Option<Frame>,
) -> Result<(), AllocError>
    requires plan { (table_of keys.now).plan ≡ tables.now.plan }
    requires ready { AreReady tables.now (table_of keys.now) readings.old }
    requires fits { IfSome frame (λ f. FitsFrame tables.now.plan f) }
    ensures rows { OnOk result (rows.new.items ≡ rows.old.items ++ and_rows tables.now (table_of keys.now) number frame []) }
    ensures ready { OnOk result (AreReady tables.now (table_of keys.now) readings.new) }
{
    if let Some(frame) = frame {
        let row = side_row(alloc, blocks, readings, tables, keys, number, &frame)?;
        push_row(rows, row.line, row.count, row.words)?;
    }
    Ok(())
}

/// The words in the further registers of each reading and each answer that the transcript has with a frame: reading words of
/// the registers' tables, and answer words to the frames' missing sets, by the words of the keys that each register has.
pub fn side_words<R: Threads + Sync>(
    rt: &R,
    alloc: Global,
    transcript: &Transcript,
    tables: &Registers,
    keys: &KeyTable,
) -> Result<SideWords, AllocError>
    requires tables { tables.now.plan ≡ transcript.now.plan }
    requires keys { (table_of keys.now).plan ≡ transcript.now.plan }
    ensures { IfOk result (λ words. words ≡ rows_of tables.now (table_of keys.now) transcript.now) }
{
    let count = transcript.len();
    let first = entry_line(transcript.plan(), count as u64) - count as u64;
    let mut blocks = Blocks::new();
    let mut readings = ReadingWords::new(rt, alloc, tables, keys)?;
    let mut rows = Vec::new(alloc);
    for at in 0..count {
        let entry = transcript.entry(at);
        put_row(
            &mut rows,
            alloc,
            &mut blocks,
            &mut readings,
            tables,
            keys,
            first + at as u64,
            side_frame(&entry.line),
        )?;
    }
    Ok(SideWords::of(rows))
}
