//! The cut of a run, and the texts of a run that goes on from it.

ghost use Rattle.cut_resume.specs.Cut.{completed};
ghost use Rattle.command_words.specs.Outcomes.{IsFault};
ghost use Rattle.command_texts.specs.ResumeRuns.{CutRefused, CutEnds, BeginsWith, ResumeTextsEnd};
ghost use Rattle.std.specs.Prelude.{◌≡◌, IfErr, IfOk, []};
ghost use Rattle.transcript_text.specs.Spelling.{transcript_text};
ghost use Rattle.link_lanes.specs.Racks.{HasRoom, posts_of, slots};
ghost use Rattle.pair_keys.specs.Keys.{table_of};
ghost use Rattle.plan_files.specs.PlanFiles.{view_of};

use crate::run::{RunTexts, finished_texts};
use crate::sharing::Sharing;
use crate::values::RunInput;
use collector_workers::{Crew, Gate};
use command_words::{Outcome, TextFault};
use cut_resume::{CutError, ResumeError, is_of_plan, read_cut, resume_plan};
use group_plan::Plan;
use link_lanes::Lane;
use std::alloc::{AllocError, Global};
use std::sync::Wait;
use std::thread::Threads;
use transcript_log::Transcript;
use transcript_text::ReadError;

// How the command ends where the completed text of the cut of this name has a fault.
fn refused_cut<'a>(name: &'a str, fault: CutError) -> Outcome<'a>
    ensures refused { CutRefused name.now fault result }
    ensures no_fault { ¬ IsFault result }
{
    let fault = match fault {
        CutError::Head(line) => ReadError::Head(line),
        CutError::Line(line) => ReadError::Line(line),
        CutError::Field(line, field) => ReadError::Field(line, field),
        CutError::Count(line) => ReadError::Count(line),
        CutError::After(line) => ReadError::After(line),
        CutError::Memory => return Outcome::NoMemory,
    };
    Outcome::BadText(name, TextFault::Transcript(fault))
}

/// The cut that the text of this name is, where it is one of the plan.
pub fn cut_in<'a, R: Threads + Sync>(
    rt: &R,
    alloc: Global,
    name: &'a str,
    plan: &Plan,
    text: &[u8],
) -> Result<Transcript, Outcome<'a>>
    ensures ends { CutEnds name.now plan.now text.now result }
    ensures text { IfOk result (λ cut. completed text.now ≡ transcript_text cut) }
    ensures no_fault { IfErr result (λ outcome. ¬ IsFault outcome) }
{
    let cut = match read_cut(rt, alloc, text) {
        Ok(cut) => cut,
        Err(fault) => return Err(refused_cut(name, fault)),
    };
    match is_of_plan(alloc, &cut, plan) {
        Ok(true) => Ok(cut),
        Ok(false) => Err(Outcome::BadText(name, TextFault::OtherPlan)),
        Err(AllocError) => Err(Outcome::NoMemory),
    }
}

/// The texts of a run that goes on from a cut, which is one of its plan. The rack and the readings are let go once the run is over.
pub fn resume_texts<R: Threads + Wait + Sync, G: Gate>(
    crew: &Crew<'_, R, G>,
    input: RunInput,
    cut: &Transcript,
) -> Result<RunTexts, ResumeError>
    requires keys { (table_of input.file.keys).plan ≡ input.file.plan }
    requires same_plan { input.readings.plan ≡ input.file.plan }
    requires cut { cut.now.plan ≡ input.file.plan }
    requires posts { posts_of input.rack ≡ [] }
    requires room { HasRoom (λ b. meaning (b.vtable, b.value)) input.rack }
    ensures begins { IfOk result (λ kept. BeginsWith cut.now kept.transcript) }
    ensures ends { ResumeTextsEnd (record { file = view_of input.file; slots = slots (λ b. meaning (b.vtable, b.value)) input.rack; readings = input.readings }) cut.now result }
{
    let RunInput {
        file,
        mut rack,
        readings,
    } = input;
    let finished = resume_plan(crew, &file.plan, &readings, &file.keys, &mut rack, cut)?;
    drop(rack);
    drop(readings);
    match finished_texts(crew.alloc, finished, Sharing::WithEach) {
        Ok(texts) => Ok(texts),
        Err(AllocError) => Err(ResumeError::Memory),
    }
}
