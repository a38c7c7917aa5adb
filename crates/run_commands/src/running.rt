//! The commands `run` and `ring`.

ghost use Rattle.std.specs.Prelude.{◌≤◌, map};
ghost use Rattle.desk_outside.specs.Desk.{Rose};
ghost use Rattle.command_words.specs.Words.{names_of};
ghost use Rattle.run_commands.specs.RunEnds.{RunEnds, RingEnds, RunEndsBy};
ghost use Rattle.command_words.specs.Outcomes.{IsFault};

use crate::run_texts::run_texts;
use collector_workers::{Crew, Gate, Workers};
use command_files::{Ahead, PendingFile, Source, begin, commit_two, fetch_two, first_of_two};
use command_texts::{Sharing, read_run};
use command_words::{Outcome, RingWords, RunFiles, RunWords};
use desk_outside::{BegunFile, Desk, Readers};
use link_lanes::Lane;
use std::alloc::Global;
use std::sync::Wait;
use std::thread::Threads;

/// Fetches the plan and the readings, runs, puts the transcript and then the report, and says the summary.
pub fn run<'a, R: Threads + Wait + Sync, D: Desk, G: Gate>(
    rt: &R,
    alloc: Global,
    words: RunWords<'a>,
    desk: &mut D,
    cupboard: Vec<Box<dyn Lane>>,
    gate: &G,
) -> Outcome<'a>
    requires least { 1 ≤ words.workers }
    requires most { words.workers ≤ 16 }
    ensures ends { RunEnds (map (λ b. meaning b) cupboard.items) (names_of words.entry.files) (D.view desk.old) (D.view desk.new) result }
    ensures later { D.faults desk.old ≤ D.faults desk.new }
    ensures cause { IsFault result → Rose (D.faults desk.old) (D.faults desk.new) }
{
    let order = RunOrder {
        files: words.files,
        sharing: Sharing::WithEach,
        workers: words.workers,
    };
    run_order(rt, alloc, order, desk, cupboard, gate)
}

/// The same with mask words between neighbours alone; behind the summary it says the fewest meters whose sum is open.
pub fn ring<'a, R: Threads + Wait + Sync, D: Desk, G: Gate>(
    rt: &R,
    alloc: Global,
    words: RingWords<'a>,
    desk: &mut D,
    cupboard: Vec<Box<dyn Lane>>,
    gate: &G,
) -> Outcome<'a>
    requires workers { (1 ≤ words.workers) × (words.workers ≤ 16) }
    ensures ends { RingEnds words.entry.width (map (λ b. meaning b) cupboard.items) (names_of words.entry.files) (D.view desk.old) (D.view desk.new) result }
    ensures later { D.faults desk.old ≤ D.faults desk.new }
    ensures cause { IsFault result → Rose (D.faults desk.old) (D.faults desk.new) }
{
    let order = RunOrder {
        files: words.files,
        sharing: Sharing::WithNeighbours(words.width),
        workers: words.workers,
    };
    run_order(rt, alloc, order, desk, cupboard, gate)
}

/// What is run: the names of its files, which meters share mask words, and 1 to 16 workers.
#[derive(Clone, Copy)]
struct RunOrder<'a> {
    files: RunFiles<'a>,
    sharing: Sharing,
    workers: u32,
}

/// Fetches the plan and the readings, runs, puts the transcript and then the report, and says the summary. Both files are begun
/// before the run, so that a name that can't be written is found then, and much of the transcript is written while the run goes on.
fn run_order<'a, R: Threads + Wait + Sync, D: Desk, G: Gate>(
    rt: &R,
    alloc: Global,
    order: RunOrder<'a>,
    desk: &mut D,
    cupboard: Vec<Box<dyn Lane>>,
    gate: &G,
) -> Outcome<'a>
    requires workers { (1 ≤ order.workers) × (order.workers ≤ 16) }
    ensures ends { RunEndsBy order.entry.sharing (map (λ b. meaning b) cupboard.items) (names_of order.entry.files) (D.view desk.old) (D.view desk.new) result }
    ensures later { D.faults desk.old ≤ D.faults desk.new }
    ensures cause { IsFault result → Rose (D.faults desk.old) (D.faults desk.new) }
{
    let files = order.files;
    let (plan, readings) = or_end!(fetch_two(alloc, files.plan, files.readings, desk));
    let Ok(transcript) = begin(files.transcript, Readers::Any, desk) else {
        return Outcome::NoMemory;
    };
    let Ok(report) = begin(files.report, Readers::Any, desk) else {
        return Outcome::NoMemory;
    };
    let input = or_end!(read_run(alloc, files.plan, files.readings, plan, readings, cupboard));
    if transcript.file.has_failed() || report.file.has_failed() {
        return first_of_two(transcript, report, desk);
    }
    let crew = Crew {
        rt,
        alloc,
        workers: Workers::new(order.workers),
        gate,
    };
    let ahead = Ahead::new(rt, alloc, transcript);
    let Ok(told) = run_texts(&crew, input, order.sharing, ahead) else {
        return Outcome::NoMemory;
    };
    let (texts, ahead) = told;
    let transcript = ahead.finished(&texts.transcript);
    let report = PendingFile {
        begun: report,
        source: Source::Bytes(texts.report.as_slice()),
    };
    let line = texts.summary.as_slice();
    commit_two(rt, alloc, transcript, report, line, desk)
}
