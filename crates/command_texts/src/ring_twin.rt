//! The words that move from one table of readings to another, between neighbours on a ring.

ghost use Rattle.command_words.specs.Outcomes.{IsFault};
ghost use Rattle.command_texts.specs.RingTwinParts.{IsDisagreement, RingTablesCompared};
ghost use Rattle.std.specs.Prelude.{◌≡◌, ℕ, List, IfErr};
ghost use Rattle.pair_keys.specs.Keys.{table_of};
ghost use Rattle.plan_files.specs.PlanFiles.{view_of};
ghost use Rattle.command_words.specs.Commands.{twin_names_of};
ghost use Rattle.command_texts.specs.RingTwins.{RingBytesCompared};
ghost use Rattle.twin_worlds.specs.Twins.{IsReadOf};
ghost use Rattle.command_texts.specs.TwinTexts.{AreShort, bytes_with};

use crate::twin::{Tables, TwinTexts, read_tables, world_refusal};
use crate::values::plan_in;
use command_words::{Disagreement, Outcome, TwinFiles};
use mask_stream::ChaMasks;
use plan_files::PlanFile;
use sparse_masks::{RingDiffer, RingMasks, ring_offsets};
use std::alloc::{AllocError, Global};
use std::thread::Threads;
use transcript_log::Transcript;
use transcript_text::ReadError;
use twin_worlds::{MovedWords, moved_rows, same_world_of_read};

// The outcome of tables that disagree on a ring.
fn disagreement<'a>(cause: RingDiffer) -> Outcome<'a>
    ensures ends { IsDisagreement cause result }
    ensures no_fault { ¬ IsFault result }
{
    match cause {
        RingDiffer::Presence {
            group,
            round,
            meter,
        } => Outcome::Disagree(Disagreement::Presence {
            group,
            round,
            meter,
        }),
        RingDiffer::Component {
            group,
            round,
            least,
            first,
            second,
        } => Outcome::Disagree(Disagreement::Component {
            group,
            round,
            least,
            first,
            second,
        }),
        RingDiffer::Memory => Outcome::NoMemory,
    }
}

// The words of neighbours that move from the first readings to the other ones.
fn compare_tables<'a, R: Threads + Sync>(
    rt: &R,
    alloc: Global,
    width: u8,
    transcript: &'a str,
    file: &PlanFile,
    tables: &Tables,
    read: Result<Transcript, ReadError>,
) -> Result<MovedWords, Outcome<'a>>
    requires keys { (table_of file.now.keys).plan ≡ file.now.plan }
    requires first { tables.now.first.plan ≡ file.now.plan }
    requires second { tables.now.second.plan ≡ file.now.plan }
    ensures ends { (tb : List ℕ) → IsReadOf tb read → RingTablesCompared width transcript.now (view_of file.now) tables.now.first tables.now.second tb result }
    ensures no_fault { IfErr result (λ outcome. ¬ IsFault outcome) }
{
    let _rounds = file.plan.rounds();
    let words = ChaMasks::new(&file.keys);
    let masks = RingMasks::new(&words, &file.plan, width);
    let recorded = match same_world_of_read(rt, alloc, &masks, &tables.first, read) {
        Ok(recorded) => recorded,
        Err(error) => return Err(world_refusal(transcript, error)),
    };
    let offsets = match ring_offsets(alloc, &tables.first, &tables.second, &recorded, width) {
        Ok(offsets) => offsets,
        Err(cause) => return Err(disagreement(cause)),
    };
    match moved_rows(alloc, &masks, &offsets) {
        Ok(moved) => Ok(moved),
        Err(AllocError) => Err(Outcome::NoMemory),
    }
}

/// The mask words of neighbours that move from the first readings to the other ones, for rings of this width. The transcript was read
/// before, or has this fault.
pub fn ring_words_moved<'a, R: Threads + Sync>(
    rt: &R,
    alloc: Global,
    width: u8,
    files: TwinFiles<'a>,
    texts: &TwinTexts,
    read: Result<Transcript, ReadError>,
) -> Result<MovedWords, Outcome<'a>>
    requires short { AreShort texts.now }
    ensures ends { (tb : List ℕ) → IsReadOf tb read → RingBytesCompared width (twin_names_of files.entry) (bytes_with texts.now tb) result }
    ensures no_fault { IfErr result (λ outcome. ¬ IsFault outcome) }
{
    let file = or_fail!(plan_in(alloc, files.plan, &texts.plan));
    let tables = or_fail!(read_tables(alloc, files, &file.plan, texts));
    compare_tables(rt, alloc, width, files.transcript, &file, &tables, read)
}
