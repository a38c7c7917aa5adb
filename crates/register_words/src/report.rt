//! The report with a total of each register.
ghost use Rattle.std.specs.Prelude.{◌≡◌, ◌++◌, ◌*◌, ◌<◌, ◌≤◌, IfOk, IsTrue, List, None, OnOk, length, map, replicate, slice_index_or, sum_by};
ghost use Rattle.std.specs.List.{list_all, range_with_len};
ghost use Rattle.group_plan.specs.Places.{place_at, places};
ghost use Rattle.group_plan.specs.Plans.{is_place};
ghost use Rattle.missing_round.specs.Words.{word};
ghost use Rattle.event_schedule.specs.declared.Line.{Line};
ghost use Rattle.event_schedule.specs.Events.{lines_of, same_kind};
ghost use Rattle.event_schedule.specs.Transcripts.{HasPlace, HasRound};
ghost use Rattle.transcript_text.specs.Spelling.{ended};
ghost use Rattle.register_words.specs.ReportParts.{AreFirsts, KnowsFirsts, Notes, frame_noted, word_from};
ghost use Rattle.register_words.specs.SideReports.{register_line, register_report, side_total, totals_text, words_in};
ghost use Rattle.register_words.specs.Sides.{has_words};

use crate::row::{SideRow, SideWords};
use crate::side::side_frame;
use event_schedule::members;
use field_texts::put_number;
use group_plan::{Kind, Plan};
use meter_frames::Frame;
use missing_round::MeterSet;
use mod_word::Word;
use std::alloc::{AllocError, Global};
use totals_report::{Report, ReportRow, RowOutcome, row_text};
use transcript_log::Transcript;

/// For each place, the place of the row of the first reading and of the first answer that was sent.
#[derive(Drop)]
struct Firsts {
    readings: Vec<Option<usize>>,
    answers: Vec<Option<usize>>,
}

// No row for each of so many places.
fn no_rows(alloc: Global, places: usize) -> Result<Vec<Option<usize>>, AllocError>
    ensures { IfOk result (λ rows. rows.items ≡ replicate places None) }
{
    vec![in alloc; None; places]
}

// Notes a row, unless there is one before it.
fn note(rows: &mut Vec<Option<usize>>, place: usize, row: usize)
    requires { place < length rows.old.items }
    ensures { Notes rows.old.items place row rows.new.items }
{
    if rows[place].is_none() {
        rows[place] = Some(row);
    }
}

fn is_kind(one: Kind, other: Kind) -> bool
    ensures { result ≡ same_kind one other }
{
    one == other
}

// Notes the row of a frame at its place, where the frame is of the kind.
fn note_frame(rows: &mut Vec<Option<usize>>, plan: &Plan, frame: &Frame, kind: Kind, row: usize)
    requires place { HasPlace plan.now frame.now.tag }
    requires long { length rows.old.items ≡ places plan.now }
    ensures { rows.new.items ≡ frame_noted plan.now kind frame.now row rows.old.items }
{
    let tag = frame.tag;
    if is_kind(tag.kind, kind) {
        note(rows, plan.place_at(tag.group, tag.round, tag.meter), row);
    }
}

// For each place, the place of the row of the first frame of a kind.
fn first_rows(
    alloc: Global,
    transcript: &Transcript,
    kind: Kind,
) -> Result<Vec<Option<usize>>, AllocError>
    requires { IsTrue (has_words kind) }
    ensures { IfOk result (λ rows. AreFirsts transcript.now.plan kind (lines_of transcript.now.entries) rows.items) }
{
    let plan = transcript.plan();
    let mut rows = no_rows(alloc, plan.places())?;
    let mut row = 0;
    for at in 0..transcript.len() {
        if let Some(frame) = side_frame(&transcript.entry(at).line) {
            note_frame(&mut rows, plan, &frame, kind, row);
            row += 1;
        }
    }
    Ok(rows)
}

// The word at a place in a row's words, or 0 where there is none.
fn word_at(rows: &[SideRow], row: Option<usize>, at: usize) -> Word
    ensures { result ≡ word_from at rows.now row }
{
    let Some(row) = row else {
        return Word(0);
    };
    match rows.get(row) {
        Some(row) => match row.words.get(at) {
            Some(word) => *word,
            None => Word(0),
        },
        None => Word(0),
    }
}

// The sum of the words at a place in the first rows of these meters.
fn sum_of(
    plan: &Plan,
    sides: &[SideRow],
    firsts: &[Option<usize>],
    group: u16,
    round: u32,
    meters: MeterSet,
    at: usize,
) -> Word
    requires meters { IsTrue (list_all (is_place plan.now group round) meters) }
    requires long { length firsts.now ≡ places plan.now }
    ensures { result ≡ word (sum_by (λ i. word_from at sides.now (slice_index_or firsts.now (place_at plan.now group round i) None)) meters) }
{
    let mut sum = Word(0);
    for meter in meters.members() {
        let first = firsts[plan.place_at(group, round, meter)];
        sum = sum.add(word_at(sides, first, at));
    }
    sum
}

impl Firsts {
    // The rows of a transcript.
    fn of(alloc: Global, transcript: &Transcript) -> Result<Firsts, AllocError>
        ensures { IfOk result (λ firsts. KnowsFirsts transcript.now.plan (lines_of transcript.now.entries) firsts) }
    {
        Ok(Firsts {
            readings: first_rows(alloc, transcript, Kind::Reading)?,
            answers: first_rows(alloc, transcript, Kind::Answer)?,
        })
    }

    // The frame total of these meters by the words at a place.
    fn total(
        &self,
        plan: &Plan,
        sides: &[SideRow],
        group: u16,
        round: u32,
        meters: MeterSet,
        at: usize,
    ) -> u64
        requires meters { IsTrue (list_all (is_place plan.now group round) meters) }
        requires readings { length self.now.readings.items ≡ places plan.now }
        requires answers { length self.now.answers.items ≡ places plan.now }
        ensures { (ls : List Line) → KnowsFirsts plan.now ls self.now → result ≡ side_total ls sides.now group round meters at }
    {
        let readings = sum_of(plan, sides, &self.readings, group, round, meters, at);
        let answers = sum_of(plan, sides, &self.answers, group, round, meters, at);
        readings.sub(answers).value()
    }

    // The totals of the further registers, each behind a `+`.
    fn put_totals(
        &self,
        out: &mut Vec<u8>,
        plan: &Plan,
        sides: &[SideRow],
        group: u16,
        round: u32,
        meters: MeterSet,
    ) -> Result<(), AllocError>
        requires meters { IsTrue (list_all (is_place plan.now group round) meters) }
        requires readings { length self.now.readings.items ≡ places plan.now }
        requires answers { length self.now.answers.items ≡ places plan.now }
        ensures { (ls : List Line) → KnowsFirsts plan.now ls self.now → OnOk result (out.new.items ≡ out.old.items ++ totals_text (map (side_total ls sides.now group round meters) (range_with_len 0 (words_in sides.now)))) }
    {
        for at in 0..words_in(sides) {
            out.push(b'+')?;
            put_number(out, self.total(plan, sides, group, round, meters, at))?;
        }
        Ok(())
    }

    // The line of a row of the report, with its newline.
    fn put_line(
        &self,
        alloc: Global,
        out: &mut Vec<u8>,
        plan: &Plan,
        sides: &[SideRow],
        group: u16,
        row: &ReportRow,
        round: u32,
    ) -> Result<(), AllocError>
        requires round { HasRound plan.now group round }
        requires readings { length self.now.readings.items ≡ places plan.now }
        requires answers { length self.now.answers.items ≡ places plan.now }
        ensures { (ls : List Line) → KnowsFirsts plan.now ls self.now → OnOk result (out.new.items ≡ out.old.items ++ ended (register_line plan.now ls sides.now group round row.now)) }
    {
        out.extend_from_slice(&row_text(alloc, row)?)?;
        if let RowOutcome::Total(_) = row.outcome {
            let survivors = members(plan, group, round).minus(row.missing);
            self.put_totals(out, plan, sides, group, round, survivors)?;
        }
        out.push(b'\n')?;
        Ok(())
    }
}

// How many words each row has.
fn words_in(sides: &[SideRow]) -> usize
    ensures { result ≡ words_in sides.now }
{
    match sides.first() {
        Some(side) => usize::from(side.count),
        None => 0,
    }
}

/// The report with a total of each register in each row: that of the report, and the frame totals of the side words.
///
/// The rows of the report are those of the transcript's plan, by group and then by round.
#[tactic(auto, unfolding(crate::specs::SideReports::register_report))]
pub fn register_report(
    alloc: Global,
    report: &Report,
    transcript: &Transcript,
    words: &SideWords,
) -> Result<Vec<u8>, AllocError>
    requires { length report.now ≤ length transcript.now.plan.groups * transcript.now.plan.rounds }
    ensures { IfOk result (λ text. text.items ≡ register_report transcript.now.plan (lines_of transcript.now.entries) words.now report.now) }
{
    let plan = transcript.plan();
    let firsts = Firsts::of(alloc, transcript)?;
    let mut out = Vec::from_slice(alloc, b"group,round,survivors,missing,outcome,totals\n")?;
    let mut at = 0;
    for row in report.rows() {
        let group = (at / plan.rounds()) as u16;
        let round = at % plan.rounds();
        firsts.put_line(alloc, &mut out, plan, words.rows(), group, row, round)?;
        at += 1;
    }
    Ok(out)
}
