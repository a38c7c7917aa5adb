//! The words that move from one table of readings to another, against known meters.

ghost use Rattle.std.specs.Prelude.{◌≡◌, ℕ, Err, List, IfErr};
ghost use Rattle.command_words.specs.declared.known.KnownMeter.{KnownMeter};
ghost use Rattle.command_words.specs.Outcomes.{IsFault};
ghost use Rattle.command_texts.specs.RingTwins.{RingUnrecorded, RingTwinRefuses};
ghost use Rattle.twin_worlds.specs.declared.answers.PoolTwinError.TheVariants.{Other};
ghost use Rattle.command_texts.specs.Twins.{TwinBytes};
ghost use Rattle.command_texts.specs.Pooled.{PooledCompared, PooledRefuses, BytesPooled};
ghost use Rattle.command_words.specs.Words.{TwinNames};
ghost use Rattle.command_words.specs.Commands.{twin_names_of};
ghost use Rattle.twin_worlds.specs.Twins.{IsReadOf};
ghost use Rattle.command_texts.specs.TwinTexts.{AreShort, TablesEnd, bytes_with};
ghost use Rattle.command_texts.specs.PooledParts.{IsPlanFor};
ghost use Rattle.plan_files.specs.PlanFiles.{view_of};
ghost use Rattle.pair_keys.specs.Keys.{table_of};
ghost use Rattle.command_words.specs.Known.{IsKnown, known_in};

use crate::values::{plan_in, readings_in};
use command_words::{Disagreement, Outcome, TextFault, TwinFiles, known_sets};
use event_schedule::Entry;
use group_plan::{Plan, Readings};
use ideal_masks::Differ;
use missing_round::MeterSet;
use pair_keys::KeyError;
use plan_files::{FileCause, FileFault, PlanFile};
use std::alloc::Global;
use std::thread::Threads;
use transcript_log::Transcript;
use transcript_text::ReadError;
use twin_worlds::{MovedWords, PoolTwinError, ReadingTables, TwinError, pooled_twin_of_read};

/// The fault of a plan that hasn't each known meter.
const OUTSIDE_PLAN: FileFault = FileFault {
    row: 0,
    cause: FileCause::Key(KeyError::Range),
};

/// The bytes of the files that are read whole: a plan and two tables of readings.
#[derive(Drop)]
pub struct TwinTexts {
    pub plan: Vec<u8>,
    pub readings: Vec<u8>,
    pub other: Vec<u8>,
}

/// Both tables of readings, the second of which is to take the place of the first.
#[derive(Drop)]
pub(crate) struct Tables {
    pub first: Readings,
    pub second: Readings,
}

// The outcome of a text that isn't that of the first table, or of tables that disagree.
pub(crate) fn world_refusal<'a>(transcript: &'a str, error: TwinError) -> Outcome<'a>
    ensures pooled { (known : List KnownMeter) (names : TwinNames) (bytes : TwinBytes) → names.transcript ≡ transcript.now → PooledCompared known bytes (Err (Other error)) → PooledRefuses known names bytes result }
    ensures ring { (width : ℕ) (names : TwinNames) (bytes : TwinBytes) → names.transcript ≡ transcript.now → RingUnrecorded width bytes error → RingTwinRefuses width names bytes result }
    ensures no_fault { ¬ IsFault result }
{
    match error {
        TwinError::Transcript(fault) => Outcome::BadText(transcript, TextFault::Transcript(fault)),
        TwinError::Head => Outcome::BadText(transcript, TextFault::OtherPlan),
        TwinError::NotThis {
            line,
            expected,
            found: _,
            tick,
            fate,
        } => Outcome::BadText(
            transcript,
            TextFault::OtherLine {
                line,
                expected: Entry {
                    tick,
                    fate,
                    line: expected,
                },
            },
        ),
        TwinError::Differ(
            Differ::Presence {
                group,
                round,
                meter,
            },
        ) => Outcome::Disagree(Disagreement::Presence {
            group,
            round,
            meter,
        }),
        TwinError::Differ(
            Differ::Total {
                group,
                round,
                first,
                second,
            },
        ) => Outcome::Disagree(Disagreement::Total {
            group,
            round,
            first,
            second,
        }),
        TwinError::Differ(Differ::Memory) | TwinError::Memory => Outcome::NoMemory,
    }
}

// The outcome of a comparison that finds no moved words.
fn refusal<'a>(transcript: &'a str, error: PoolTwinError) -> Outcome<'a>
    ensures ends { (known : List KnownMeter) (names : TwinNames) (bytes : TwinBytes) → names.transcript ≡ transcript.now → PooledCompared known bytes (Err error) → PooledRefuses known names bytes result }
    ensures no_fault { ¬ IsFault result }
{
    match error {
        PoolTwinError::Known {
            group,
            round,
            meter,
        } => Outcome::Disagree(Disagreement::Known {
            group,
            round,
            meter,
        }),
        PoolTwinError::Other(error) => world_refusal(transcript, error),
    }
}

// Both tables of readings of a plan.
pub(crate) fn read_tables<'a>(
    alloc: Global,
    files: TwinFiles<'a>,
    plan: &Plan,
    texts: &TwinTexts,
) -> Result<Tables, Outcome<'a>>
    requires short { AreShort texts.now }
    ensures ends { (tb : List ℕ) → TablesEnd (twin_names_of files.entry) (bytes_with texts.now tb) plan.now result }
    ensures no_fault { IfErr result (λ outcome. ¬ IsFault outcome) }
{
    let first = or_fail!(readings_in(alloc, files.readings, plan, &texts.readings));
    let second = or_fail!(readings_in(alloc, files.other, plan, &texts.other));
    Ok(Tables { first, second })
}

// The mask words that move from the first readings to the other ones, against the meters of these sets.
fn compare_tables<'a, R: Threads + Sync>(
    rt: &R,
    alloc: Global,
    files: TwinFiles<'a>,
    file: &PlanFile,
    sets: &[MeterSet],
    texts: &TwinTexts,
    read: Result<Transcript, ReadError>,
) -> Result<MovedWords, Outcome<'a>>
    requires short { AreShort texts.now }
    requires keys { (table_of file.now.keys).plan ≡ file.now.plan }
    ensures ends { (tb : List ℕ) (known : List KnownMeter) → IsReadOf tb read → IsPlanFor known (bytes_with texts.now tb) (view_of file.now) sets.now → BytesPooled known (twin_names_of files.entry) (bytes_with texts.now tb) result }
    ensures no_fault { IfErr result (λ outcome. ¬ IsFault outcome) }
{
    let tables = or_fail!(read_tables(alloc, files, &file.plan, texts));
    let both = ReadingTables {
        first: &tables.first,
        second: &tables.second,
    };
    match pooled_twin_of_read(rt, alloc, &file.keys, sets, &both, read) {
        Ok(moved) => Ok(moved),
        Err(error) => Err(refusal(files.transcript, error)),
    }
}

/// The mask words that move from the first readings to the other ones, against the meters that the word names. The transcript was read
/// before, or has this fault.
pub fn words_moved<'a, R: Threads + Sync>(
    rt: &R,
    alloc: Global,
    known: &str,
    files: TwinFiles<'a>,
    texts: &TwinTexts,
    read: Result<Transcript, ReadError>,
) -> Result<MovedWords, Outcome<'a>>
    requires short { AreShort texts.now }
    requires known { IsKnown known.now }
    ensures ends { (tb : List ℕ) → IsReadOf tb read → BytesPooled (known_in known.now) (twin_names_of files.entry) (bytes_with texts.now tb) result }
    ensures no_fault { IfErr result (λ outcome. ¬ IsFault outcome) }
{
    let file = or_fail!(plan_in(alloc, files.plan, &texts.plan));
    let sets = match known_sets(alloc, &file.plan, known) {
        Ok(Some(sets)) => sets,
        Ok(None) => return Err(Outcome::BadPlan(files.plan, OUTSIDE_PLAN)),
        Err(_) => return Err(Outcome::NoMemory),
    };
    compare_tables(rt, alloc, files, &file, &sets, texts, read)
}
