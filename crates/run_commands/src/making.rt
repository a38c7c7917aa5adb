//! The command `make`.

ghost use Rattle.std.specs.Prelude.{◌≤◌, IsTrue};
ghost use Rattle.desk_outside.specs.Desk.{Rose};
ghost use Rattle.load_maker.specs.Sizes.{is_within};
ghost use Rattle.command_words.specs.Commands.{size_in};
ghost use Rattle.run_commands.specs.LoadEnds.{MakeEnds};
ghost use Rattle.command_words.specs.Outcomes.{IsFault};

use command_files::{NewFile, Source, put_two};
use command_texts::made_line;
use command_words::{MakeWords, Outcome};
use desk_outside::{Desk, Readers};
use load_maker::{MakeError, make as make_files};
use std::alloc::Global;
use std::thread::Threads;

/// Makes the two files of a size, puts the plan and then the readings, and says how many readings there are.
pub fn make<'a, R: Threads + Sync, D: Desk>(
    rt: &R,
    alloc: Global,
    words: MakeWords<'a>,
    desk: &mut D,
) -> Outcome<'a>
    requires { IsTrue (is_within words.size.groups words.size.meters words.size.rounds) }
    ensures ends { MakeEnds (size_in words.entry.size) words.entry.plan.now words.entry.readings.now (D.view desk.old) (D.view desk.new) result }
    ensures later { D.faults desk.old ≤ D.faults desk.new }
    ensures cause { IsFault result → Rose (D.faults desk.old) (D.faults desk.new) }
{
    let size = words.size;
    let made = match make_files(alloc, size.seed, size.groups, size.meters, size.rounds) {
        Ok(made) => made,
        Err(MakeError::Memory) => return Outcome::NoMemory,
        Err(MakeError::Range) => unreachable!(),
    };
    let Ok(line) = made_line(alloc, size.groups * size.meters * size.rounds) else {
        return Outcome::NoMemory;
    };
    let plan = NewFile {
        name: words.plan,
        source: Source::Bytes(made.plan.as_slice()),
        // It has keys.
        readers: Readers::Owner,
    };
    let readings = NewFile {
        name: words.readings,
        source: Source::Bytes(made.readings.as_slice()),
        readers: Readers::Any,
    };
    put_two(rt, alloc, plan, readings, line.as_bytes(), desk)
}
