//! The audit: the lines of a transcript replayed, and the rows that they give compared with those of a report.

ghost use Rattle.std.specs.Prelude.{◌≡◌, ◌<◌, ◌^◌, ◌++◌, [], IfOk, OnOk, length};
ghost use Rattle.event_schedule.specs.Events.{lines_of};
ghost use Rattle.event_schedule.specs.Transcripts.{TranscriptView};
ghost use Rattle.totals_report.specs.Books.{row_in};
ghost use Rattle.totals_report.specs.Reports.{group_rows, report_rows};
ghost use Rattle.audit_check.specs.Audits.{AuditEnds};
ghost use Rattle.audit_check.specs.Ends.{LinesEnd, IsReplayed, ReplayEnds, RowsEnd};
ghost use Rattle.audit_check.specs.Opened.{InspectEnds};
ghost use Rattle.audit_check.specs.Following.{IsReplay};
ghost use Rattle.audit_check.specs.Passes.{IsReplayOf};

use crate::comparing::{count_totals, first_difference, row_at};
use crate::opened::opened_rounds;
use crate::replay::Replay;
use crate::{AuditCounts, AuditError, Inspected};
use audit_rounds::Rounds;
use std::alloc::{AllocError, Global};
use std::marker::Model;
use totals_report::{Report, ReportRow, row_of};
use transcript_log::Transcript;
use transcript_text::entry_line;

// The first entry whose line is not possible, where there is one.
fn first_impossible(
    replay: &mut Replay,
    transcript: &Transcript,
) -> Result<Option<usize>, AllocError>
    requires plan { replay.old.rounds.presence.plan ≡ transcript.now.plan }
    requires journal { replay.old.rounds.journal ≡ [] }
    requires replay { IsReplay replay.old.rounds.presence replay.old.rounds.journal replay.old.seen replay.old.answered.items }
    ensures { IfOk result (λ found. LinesEnd transcript.now.plan (lines_of transcript.now.entries) found replay.new.rounds) }
{
    for at in 0..transcript.len() {
        let entry = transcript.entry(at);
        if !replay.line(&entry.line)? {
            return Ok(Some(at));
        }
    }
    Ok(None)
}

// The rounds of a transcript's lines, where all are possible.
fn replay(alloc: Global, transcript: &Transcript) -> Result<Rounds, AuditError>
    ensures { ReplayEnds transcript.now result }
{
    let _entries = transcript.len();
    let mut replay = Replay::new(alloc, transcript.plan())?;
    match first_impossible(&mut replay, transcript)? {
        None => Ok(replay.rounds),
        Some(at) => Err(AuditError::Line(entry_line(transcript.plan(), at as u64))),
    }
}

// Adds the rows of a group, by round.
fn push_group(rows: &mut Vec<ReportRow>, rounds: &Rounds, group: u16) -> Result<(), AllocError>
    requires { group < length rounds.now.presence.plan.groups }
    ensures { OnOk result (rows.new.items ≡ rows.old.items ++ group_rows rounds.now.presence.plan (row_in rounds.now) group) }
{
    for round in 0..rounds.plan().rounds() {
        let outcome = rounds.outcome(group, round);
        rows.push(row_of(rounds.plan(), group, round, outcome))?;
    }
    Ok(())
}

// The rows that the lines give, by group and then by round.
fn rows_of(alloc: Global, rounds: &Rounds) -> Result<Vec<ReportRow>, AllocError>
    ensures { IfOk result (λ rows. rows.items ≡ report_rows rounds.now.presence.plan (row_in rounds.now)) }
{
    let mut rows = Vec::new(alloc);
    for group in 0..rounds.plan().groups().len() {
        push_group(&mut rows, rounds, group as u16)?;
    }
    Ok(rows)
}

// What the rows have, where they are those that the frames give.
fn confirm(from_frames: &[ReportRow], reported: &[ReportRow]) -> Result<AuditCounts, AuditError>
    requires { length from_frames.now < 2 ^ 31 }
    ensures { RowsEnd from_frames.now reported.now result }
{
    match first_difference(from_frames, reported) {
        None => Ok(AuditCounts {
            rows: reported.len() as u32,
            totals: count_totals(reported) as u32,
        }),
        Some(at) => Err(AuditError::Row {
            at: at as u32 + 1,
            from_frames: row_at(from_frames, at),
            reported: row_at(reported, at),
        }),
    }
}

// Whether the rows of a report are what the lines of a transcript give.
fn judge(alloc: Global, report: &Report, rounds: &Rounds) -> Result<AuditCounts, AuditError>
    ensures { (t : TranscriptView) → IsReplayed t rounds.now → AuditEnds t report.now result }
{
    let _rounds = rounds.plan().rounds();
    let rows = rows_of(alloc, rounds)?;
    confirm(&rows, report.rows())
}

/// What is kept of a transcript's text that was read once: what each round came to, or the first line that is not possible.
#[derive(Drop)]
pub struct Replayed {
    rounds: Rounds,
    /// The number of that line, counted from 1.
    impossible: Option<u64>,
}

impl Model for Replayed {
    ghost use Rattle.audit_check.specs.Passes.{ReplayedView};

    ghost Value = { ReplayedView };

    ghost view = { λ r. record { rounds = r.rounds; impossible = r.impossible } };
}

impl Replayed {
    /// Rounds of which all lines are possible, where there is no line that isn't.
    pub(crate) fn new(rounds: Rounds, impossible: Option<u64>) -> Replayed
        ensures rounds { result.rounds ≡ rounds }
        ensures impossible { result.impossible ≡ impossible }
    {
        Replayed { rounds, impossible }
    }

    /// Whether the rows of a report are what the frames of the transcript give, one for each group and round in order.
    pub fn audit(&self, alloc: Global, report: &Report) -> Result<AuditCounts, AuditError>
        ensures { (t : TranscriptView) → IsReplayOf t self.now → AuditEnds t report.now result }
    {
        match self.impossible {
            Some(line) => Err(AuditError::Line(line)),
            None => judge(alloc, report, &self.rounds),
        }
    }
}

/// Whether the rows of a report are what the frames of a transcript give, one for each group and round in order; and where they are,
/// it counts the opened rounds.
pub fn inspect(
    alloc: Global,
    transcript: &Transcript,
    report: &Report,
) -> Result<Inspected, AuditError>
    ensures { InspectEnds transcript.now report.now result }
{
    let rounds = replay(alloc, transcript)?;
    let counts = judge(alloc, report, &rounds)?;
    let opened = opened_rounds(&rounds);
    Ok(Inspected { counts, opened })
}
