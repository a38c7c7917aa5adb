//! The command `registers`.

ghost use Rattle.std.specs.Prelude.{◌≤◌, map};
ghost use Rattle.desk_outside.specs.Desk.{Rose};
ghost use Rattle.command_words.specs.Commands.{register_names_of};
ghost use Rattle.command_words.specs.Outcomes.{IsFault};
ghost use Rattle.run_commands.specs.RegisterEnds.{RegistersEnds};

use collector_workers::{Crew, Gate, Workers};
use command_files::{Source, ThreeSources, begin_three, commit_three, fetch_two, first_of_three};
use command_texts::{read_register_run, register_texts};
use command_words::{Outcome, RegisterWords};
use desk_outside::Desk;
use link_lanes::Lane;
use std::alloc::Global;
use std::sync::Wait;
use std::thread::Threads;

/// Fetches the plan and the readings of several registers, runs register 0, puts the transcript, the words of the other registers and
/// the report with a total of each, and says the summary. The files are begun before the run, so that a name that can't be written is
/// found then.
pub fn registers<'a, R: Threads + Wait + Sync, D: Desk, G: Gate>(
    rt: &R,
    alloc: Global,
    words: RegisterWords<'a>,
    desk: &mut D,
    cupboard: Vec<Box<dyn Lane>>,
    gate: &G,
) -> Outcome<'a>
    requires registers { (2 ≤ words.registers) × (words.registers ≤ 8) }
    requires workers { (1 ≤ words.workers) × (words.workers ≤ 16) }
    ensures ends { RegistersEnds (map (λ b. meaning b) cupboard.items) words.entry.registers (register_names_of words.entry.files) (D.view desk.old) (D.view desk.new) result }
    ensures later { D.faults desk.old ≤ D.faults desk.new }
    ensures cause { IsFault result → Rose (D.faults desk.old) (D.faults desk.new) }
{
    let files = words.files;
    let (plan, readings) = or_end!(fetch_two(alloc, files.plan, files.readings, desk));
    let Ok(begun) = begin_three(files.transcript, files.words, files.report, desk) else {
        return Outcome::NoMemory;
    };
    let input = or_end!(read_register_run(alloc, words.registers, files, plan, readings, cupboard));
    if begun.has_failed() {
        return first_of_three(begun, desk);
    }
    let crew = Crew {
        rt,
        alloc,
        workers: Workers::new(words.workers),
        gate,
    };
    let Ok(texts) = register_texts(&crew, input) else {
        return Outcome::NoMemory;
    };
    let sources = ThreeSources {
        first: Source::Transcript(&texts.transcript),
        second: Source::Words(&texts.words),
        third: Source::Bytes(texts.report.as_slice()),
    };
    commit_three(rt, alloc, begun, sources, texts.summary.as_slice(), desk)
}
