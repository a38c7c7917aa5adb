//! The command `public`.

ghost use Rattle.std.specs.Prelude.{◌≤◌};
ghost use Rattle.desk_outside.specs.Desk.{Rose};
ghost use Rattle.command_words.specs.Outcomes.{IsFault};
ghost use Rattle.file_commands.specs.PublicEnds.{PublicEnds};

use command_files::{NewFile, Source, fetch, put_one};
use command_texts::{plan_in, public_line, public_text};
use command_words::{Outcome, PublicFiles};
use desk_outside::{Desk, Readers};
use std::alloc::Global;
use std::thread::Threads;

/// Fetches a plan, puts it without its keys and lanes, and says how many groups and rounds it has.
pub fn public<'a, R: Threads + Sync, D: Desk>(
    rt: &R,
    alloc: Global,
    files: PublicFiles<'a>,
    desk: &mut D,
) -> Outcome<'a>
    ensures ends { PublicEnds files.entry.plan.now files.entry.public.now (D.view desk.old) (D.view desk.new) result }
    ensures later { D.faults desk.old ≤ D.faults desk.new }
    ensures cause { IsFault result → Rose (D.faults desk.old) (D.faults desk.new) }
{
    let bytes = or_end!(fetch(alloc, files.plan, desk));
    let file = or_end!(plan_in(alloc, files.plan, &bytes));
    let Ok(text) = public_text(alloc, &file.plan) else {
        return Outcome::NoMemory;
    };
    let Ok(line) = public_line(alloc, file.plan.groups().len(), file.plan.rounds()) else {
        return Outcome::NoMemory;
    };
    let new = NewFile {
        name: files.public,
        source: Source::Bytes(text.as_slice()),
        readers: Readers::Any,
    };
    put_one(rt, alloc, new, line.as_bytes(), desk)
}
