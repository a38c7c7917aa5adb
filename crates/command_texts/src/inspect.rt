//! What a public plan, a transcript and a report come to in an inspection.

ghost use Rattle.std.specs.Prelude.{◌≡◌, ◌≤◌, Ok, IfOk, IfErr, length, ◌≢◌, ℕ, List};
ghost use Rattle.plan_files.specs.PlanFiles.{public_of};
ghost use Rattle.command_words.specs.Outcomes.{IsFault};
ghost use Rattle.command_words.specs.Limits.{most_bytes};
ghost use Rattle.command_texts.specs.Inspecting.{PublicTextRefuses, TextsRefuse, TimesRefuse, InspectRefuses, OfPlan, IsInspected};
ghost use Rattle.group_plan.specs.Plans.{PlanView};
ghost use Rattle.event_schedule.specs.Transcripts.{TranscriptView};
ghost use Rattle.twin_worlds.specs.Twins.{IsReadOf, IsTextOf};
ghost use Rattle.command_words.specs.Commands.{inspect_names_of};
ghost use Rattle.command_texts.specs.InspectParts.{TextsRead, Judged, inspect_bytes_with};
ghost use Rattle.run_course.specs.Beginnings.{IsSomeRun};

use crate::audit::report_of;
use audit_check::{AuditError, Inspected, inspect as inspect_lines};
use command_words::{InspectFiles, Outcome, TextFault};
use group_plan::Plan;
use plan_files::{Failed, read_public};
use run_course::{CourseError, in_time};
use std::alloc::Global;
use totals_report::Report;
use transcript_log::Transcript;
use transcript_text::{ReadError, entry_line};
use twin_worlds::{TwinError, transcript_of_plan};

/// The bytes of the files that are read whole: a public plan and a report.
#[derive(Clone, Copy)]
pub struct InspectTexts<'b> {
    pub public: &'b [u8],
    pub report: &'b [u8],
}

/// What the public plan of this name says.
pub fn public_in<'a>(alloc: Global, name: &'a str, bytes: &[u8]) -> Result<Plan, Outcome<'a>>
    requires { length bytes.now ≤ most_bytes }
    ensures value { IfOk result (λ plan. public_of bytes.now ≡ Ok plan) }
    ensures refused { IfErr result (PublicTextRefuses name.now bytes.now) }
    ensures no_fault { IfErr result (λ outcome. ¬ IsFault outcome) }
{
    match read_public(alloc, bytes) {
        Ok(plan) => Ok(plan),
        Err(Failed::Memory) => Err(Outcome::NoMemory),
        Err(Failed::Fault(fault)) => Err(Outcome::BadPlan(name, fault)),
    }
}

// How the command ends where the transcript is of another plan: that is told only if the report is read.
fn other_plan<'a>(alloc: Global, files: InspectFiles<'a>, report: &[u8]) -> Outcome<'a>
    ensures ends { (plan : PlanView) (text : List ℕ) (t : TranscriptView) → IsTextOf t text → t.plan ≢ plan → TextsRefuse (inspect_names_of files.entry) plan text report.now result }
    ensures no_fault { ¬ IsFault result }
{
    match report_of(alloc, files.report, report) {
        Ok(_report) => Outcome::BadText(files.transcript, TextFault::OtherPlan),
        Err(outcome) => outcome,
    }
}

// The transcript that was read and the report of a text, where the transcript is of the plan.
fn read_texts<'a>(
    alloc: Global,
    files: InspectFiles<'a>,
    plan: &Plan,
    read: Result<Transcript, ReadError>,
    report: &[u8],
) -> Result<(Transcript, Report), Outcome<'a>>
    ensures ends { (tb : List ℕ) → IsReadOf tb read → TextsRead (inspect_names_of files.entry) plan.now tb report.now result }
    ensures no_fault { IfErr result (λ outcome. ¬ IsFault outcome) }
{
    let transcript = match transcript_of_plan(alloc, plan, read) {
        Ok(transcript) => transcript,
        Err(TwinError::Head) => return Err(other_plan(alloc, files, report)),
        Err(TwinError::Transcript(fault)) => {
            return Err(Outcome::BadText(files.transcript, TextFault::Transcript(fault)));
        }
        Err(TwinError::Memory) => return Err(Outcome::NoMemory),
        Err(_) => unreachable!(),
    };
    let report = or_fail!(report_of(alloc, files.report, report));
    Ok((transcript, report))
}

// Whether the entries of the transcript of this name are a run of its plan, or how the command ends.
fn check_times<'a>(alloc: Global, name: &'a str, transcript: &Transcript) -> Result<(), Outcome<'a>>
    ensures run { IfOk result (λ _. IsSomeRun transcript.now.plan transcript.now.entries) }
    ensures refused { IfErr result (TimesRefuse name.now transcript.now) }
    ensures no_fault { IfErr result (λ outcome. ¬ IsFault outcome) }
{
    let plan = transcript.plan();
    let entries = transcript.len();
    match in_time(alloc, transcript) {
        Ok(()) => Ok(()),
        Err(CourseError::Entry(entry)) => {
            Err(Outcome::BadText(name, TextFault::NotInTime(entry_line(plan, entry))))
        }
        Err(CourseError::Unfinished) => {
            Err(Outcome::BadText(name, TextFault::NotInTime(entry_line(plan, entries as u64))))
        }
        Err(CourseError::Memory) => Err(Outcome::NoMemory),
    }
}

// What the transcript of this name and the report come to.
fn judge<'a>(
    alloc: Global,
    name: &'a str,
    transcript: &Transcript,
    report: &Report,
) -> Result<Inspected, Outcome<'a>>
    ensures ends { Judged name.now transcript.now report.now result }
    ensures no_fault { IfErr result (λ outcome. ¬ IsFault outcome) }
{
    match inspect_lines(alloc, transcript, report) {
        Ok(found) => {
            or_fail!(check_times(alloc, name, transcript));
            Ok(found)
        }
        Err(AuditError::Line(line)) => Err(Outcome::BadText(name, TextFault::Impossible(line))),
        Err(
            AuditError::Row {
                at,
                from_frames,
                reported,
            },
        ) => {
            or_fail!(check_times(alloc, name, transcript));
            Err(Outcome::OtherRow {
                at,
                from_frames,
                reported,
            })
        }
        Err(AuditError::Memory) => Err(Outcome::NoMemory),
    }
}

/// What the two files and the transcript that was read come to.
pub fn inspect_texts<'a>(
    alloc: Global,
    files: InspectFiles<'a>,
    texts: InspectTexts<'_>,
    read: Result<Transcript, ReadError>,
) -> Result<Inspected, Outcome<'a>>
    requires { length texts.public.now ≤ most_bytes }
    ensures found { (tb : List ℕ) → IsReadOf tb read → IfOk result (λ found. OfPlan (inspect_bytes_with texts.entry tb) (λ t rows. IsInspected t rows found)) }
    ensures refused { (tb : List ℕ) → IsReadOf tb read → IfErr result (InspectRefuses (inspect_names_of files.entry) (inspect_bytes_with texts.entry tb)) }
    ensures no_fault { IfErr result (λ outcome. ¬ IsFault outcome) }
{
    let plan = or_fail!(public_in(alloc, files.public, texts.public));
    let (transcript, report) = or_fail!(read_texts(alloc, files, &plan, read, texts.report));
    judge(alloc, files.transcript, &transcript, &report)
}
