//! The command `resume`.

ghost use Rattle.std.specs.Prelude.{◌≤◌, map};
ghost use Rattle.desk_outside.specs.Desk.{Rose};
ghost use Rattle.command_words.specs.Commands.{resume_names_of};
ghost use Rattle.command_words.specs.Outcomes.{IsFault};
ghost use Rattle.run_commands.specs.ResumeEnds.{ResumeCommandEnds};

use collector_workers::{Crew, Gate, Workers};
use command_files::{
    Ahead, PendingFile, Source, begin, commit_two, fetch, fetch_two, first_of_two,
};
use command_texts::{cut_in, read_run, resume_texts};
use command_words::{Outcome, ResumeWords, TextFault};
use cut_resume::{ResumeError, begun_bytes};
use desk_outside::{BegunFile, Desk, Readers};
use link_lanes::Lane;
use std::alloc::Global;
use std::sync::Wait;
use std::thread::Threads;

/// Fetches the plan, the readings and a cut transcript, goes on from it, puts the transcript and then the report, and says the summary.
/// Both files are begun before the run, so that a name that can't be written is found then, and the new transcript gets the cut's own
/// bytes, as far as its entries go.
pub fn resume<'a, R: Threads + Wait + Sync, D: Desk, G: Gate>(
    rt: &R,
    alloc: Global,
    words: ResumeWords<'a>,
    desk: &mut D,
    cupboard: Vec<Box<dyn Lane>>,
    gate: &G,
) -> Outcome<'a>
    requires workers { (1 ≤ words.workers) × (words.workers ≤ 16) }
    ensures ends { ResumeCommandEnds (map (λ b. meaning b) cupboard.items) (resume_names_of words.entry.files) (D.view desk.old) (D.view desk.new) result }
    ensures later { D.faults desk.old ≤ D.faults desk.new }
    ensures cause { IsFault result → Rose (D.faults desk.old) (D.faults desk.new) }
{
    let files = words.files;
    let (plan, readings) = or_end!(fetch_two(alloc, files.plan, files.readings, desk));
    let text = or_end!(fetch(alloc, files.cut, desk));
    let Ok(transcript) = begin(files.transcript, Readers::Any, desk) else {
        return Outcome::NoMemory;
    };
    let Ok(report) = begin(files.report, Readers::Any, desk) else {
        return Outcome::NoMemory;
    };
    let input = or_end!(read_run(alloc, files.plan, files.readings, plan, readings, cupboard));
    let cut = or_end!(cut_in(rt, alloc, files.cut, &input.file.plan, &text));
    if transcript.file.has_failed() || report.file.has_failed() {
        return first_of_two(transcript, report, desk);
    }
    let ahead = Ahead::behind(rt, alloc, transcript, begun_bytes(&text, &cut), cut.len());
    drop(text);
    let crew = Crew {
        rt,
        alloc,
        workers: Workers::new(words.workers),
        gate,
    };
    let texts = match resume_texts(&crew, input, &cut) {
        Ok(texts) => texts,
        Err(fault) => match fault {
            ResumeError::NotThis(line) => return Outcome::BadText(
                files.cut,
                TextFault::NotThisRun(line),
            ),
            ResumeError::Memory => return Outcome::NoMemory,
        },
    };
    let transcript = ahead.finished(&texts.transcript);
    let report = PendingFile {
        begun: report,
        source: Source::Bytes(texts.report.as_slice()),
    };
    let line = texts.summary.as_slice();
    commit_two(rt, alloc, transcript, report, line, desk)
}
