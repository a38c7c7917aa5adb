//! What a transcript and a report come to in an audit.

ghost use Rattle.std.specs.Prelude.{ℕ, List, Ok, IfOk, IfErr, ◌≡◌};
ghost use Rattle.audit_check.specs.Passes.{ReadsAs, IsReplayOf, ReplayedText};
ghost use Rattle.command_words.specs.Outcomes.{IsFault};
ghost use Rattle.command_texts.specs.Audits.{AuditRefuses, ReportRefuses, AreAuditTexts, TextsAudited};
ghost use Rattle.totals_report.specs.Texts.{rows_text};
ghost use Rattle.totals_report.specs.Reading.{rows_of_text};
ghost use Rattle.event_schedule.specs.Transcripts.{TranscriptView};

use audit_check::{AuditCounts, AuditError, Replayed};
use command_words::{AuditFiles, Outcome, TextFault};
use std::alloc::Global;
use totals_report::{Report, ReportError, read_report};
use transcript_text::ReadError;

// What is kept of the transcript of this name, or how the command ends.
fn replay_of<'a>(
    name: &'a str,
    replayed: Result<Replayed, ReadError>,
) -> Result<Replayed, Outcome<'a>>
    ensures reads { (tb : List ℕ) → ReplayedText tb replayed → IfOk result (ReadsAs tb) }
    ensures refused { (tb report rb : List ℕ) → ReplayedText tb replayed → IfErr result (λ outcome. AuditRefuses name.now report tb rb outcome) }
    ensures no_fault { IfErr result (λ outcome. ¬ IsFault outcome) }
{
    match replayed {
        Ok(replayed) => Ok(replayed),
        Err(ReadError::Memory) => Err(Outcome::NoMemory),
        Err(fault) => Err(Outcome::BadText(name, TextFault::Transcript(fault))),
    }
}

/// The report of this name's bytes, or how the command ends.
pub(crate) fn report_of<'a>(
    alloc: Global,
    name: &'a str,
    bytes: &[u8],
) -> Result<Report, Outcome<'a>>
    ensures text { IfOk result (λ rows. bytes.now ≡ rows_text rows) }
    ensures value { IfOk result (λ rows. rows_of_text bytes.now ≡ Ok rows) }
    ensures refused { IfErr result (ReportRefuses name.now bytes.now) }
    ensures no_fault { IfErr result (λ outcome. ¬ IsFault outcome) }
{
    match read_report(alloc, bytes) {
        Ok(report) => Ok(report),
        Err(ReportError::Memory) => Err(Outcome::NoMemory),
        Err(ReportError::Line(line)) => Err(Outcome::BadText(name, TextFault::Report(line))),
    }
}

// The audit of a report against what is kept of the transcript of this name.
fn audit_values<'a>(
    alloc: Global,
    name: &'a str,
    replayed: &Replayed,
    report: &Report,
) -> Result<AuditCounts, Outcome<'a>>
    ensures ends { (other tb rb : List ℕ) (t : TranscriptView) → AreAuditTexts tb rb t report.now → IsReplayOf t replayed.now → TextsAudited name.now other tb rb result }
    ensures no_fault { IfErr result (λ outcome. ¬ IsFault outcome) }
{
    match replayed.audit(alloc, report) {
        Ok(counts) => Ok(counts),
        Err(AuditError::Line(line)) => Err(Outcome::BadText(name, TextFault::Impossible(line))),
        Err(
            AuditError::Row {
                at,
                from_frames,
                reported,
            },
        ) => Err(Outcome::OtherRow {
            at,
            from_frames,
            reported,
        }),
        Err(AuditError::Memory) => Err(Outcome::NoMemory),
    }
}

/// The audit of what is kept of a transcript's text and of the bytes of a report.
pub fn audit_texts<'a>(
    alloc: Global,
    files: AuditFiles<'a>,
    replayed: Result<Replayed, ReadError>,
    report: &[u8],
) -> Result<AuditCounts, Outcome<'a>>
    ensures ends { (tb : List ℕ) → ReplayedText tb replayed → TextsAudited files.entry.transcript.now files.entry.report.now tb report.now result }
    ensures no_fault { IfErr result (λ outcome. ¬ IsFault outcome) }
{
    let replayed = match replay_of(files.transcript, replayed) {
        Ok(replayed) => replayed,
        Err(outcome) => return Err(outcome),
    };
    let report = match report_of(alloc, files.report, report) {
        Ok(report) => report,
        Err(outcome) => return Err(outcome),
    };
    audit_values(alloc, files.transcript, &replayed, &report)
}
