//! The command `load`.

ghost use Rattle.std.specs.Prelude.{◌≤◌, IsTrue, map};
ghost use Rattle.desk_outside.specs.Desk.{Rose};
ghost use Rattle.load_maker.specs.Sizes.{is_within};
ghost use Rattle.command_words.specs.Commands.{size_in, name_in};
ghost use Rattle.run_commands.specs.LoadEnds.{LoadEnds};
ghost use Rattle.command_words.specs.Outcomes.{IsFault};

use crate::run_texts::run_texts;
use collector_workers::{Crew, Gate, Workers};
use command_files::{Ahead, begin, commit_failed, commit_one, say};
use command_texts::{Sharing, read_run, texts_in_memory};
use command_words::{LoadWords, Outcome};
use desk_outside::{BegunFile, Desk, Readers};
use link_lanes::Lane;
use load_maker::{MadeFiles, MakeError, make};
use std::alloc::Global;
use std::sync::Wait;
use std::thread::Threads;

/// What the two made files are called, which are never refused.
const PLAN: &str = "plan";

const READINGS: &str = "readings";

/// Makes the two files of a size, runs them in memory, puts the transcript where it has a name, and says the summary.
pub fn load<'a, R: Threads + Wait + Sync, D: Desk, G: Gate>(
    rt: &R,
    alloc: Global,
    words: LoadWords<'a>,
    desk: &mut D,
    cupboard: Vec<Box<dyn Lane>>,
    gate: &G,
) -> Outcome<'a>
    requires size { IsTrue (is_within words.size.groups words.size.meters words.size.rounds) }
    requires least { 1 ≤ words.workers }
    requires most { words.workers ≤ 16 }
    ensures ends { LoadEnds (map (λ b. meaning b) cupboard.items) (size_in words.entry.size) (name_in words.entry.transcript) (D.view desk.old) (D.view desk.new) result }
    ensures later { D.faults desk.old ≤ D.faults desk.new }
    ensures cause { IsFault result → Rose (D.faults desk.old) (D.faults desk.new) }
{
    let size = words.size;
    let MadeFiles { plan, readings } = match make(
        alloc,
        size.seed,
        size.groups,
        size.meters,
        size.rounds,
    ) {
        Ok(made) => made,
        Err(MakeError::Memory) => return Outcome::NoMemory,
        Err(MakeError::Range) => unreachable!(),
    };
    let input = or_end!(read_run(alloc, PLAN, READINGS, plan, readings, cupboard));
    let crew = Crew {
        rt,
        alloc,
        workers: Workers::new(words.workers),
        gate,
    };
    let name = match words.transcript {
        Some(name) => name,
        None => {
            let Ok(texts) = texts_in_memory(&crew, input) else {
                return Outcome::NoMemory;
            };
            return say(texts.summary.as_slice(), desk);
        }
    };
    let Ok(transcript) = begin(name, Readers::Any, desk) else {
        return Outcome::NoMemory;
    };
    if transcript.file.has_failed() {
        return commit_failed(transcript, desk);
    }
    let ahead = Ahead::new(rt, alloc, transcript);
    let Ok(told) = run_texts(&crew, input, Sharing::WithEach, ahead) else {
        return Outcome::NoMemory;
    };
    let (texts, ahead) = told;
    let transcript = ahead.finished(&texts.transcript);
    commit_one(transcript, texts.summary.as_slice(), desk)
}
