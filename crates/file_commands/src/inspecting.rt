//! The command `inspect`.

ghost use Rattle.std.specs.Prelude.{◌≤◌};
ghost use Rattle.desk_outside.specs.Desk.{Rose};
ghost use Rattle.command_words.specs.Commands.{inspect_names_of};
ghost use Rattle.command_words.specs.Outcomes.{IsFault};
ghost use Rattle.file_commands.specs.InspectEnds.{InspectCommandEnds};

use crate::pouring::fetch_and_pour;
use command_files::{fetch, say};
use command_texts::{InspectTexts, inspect_texts, inspected_line};
use command_words::{InspectFiles, Outcome};
use desk_outside::Desk;
use std::alloc::Global;
use std::thread::Threads;

/// Fetches a public plan, a transcript and a report, and says whether the transcript is a run of the plan and the report what its
/// frames give; and how many opened rounds have no total, and how few survivors an opened round has. It is handed no key and no
/// reading.
pub fn inspect<'a, R: Threads + Sync, D: Desk>(
    rt: &R,
    alloc: Global,
    files: InspectFiles<'a>,
    desk: &mut D,
) -> Outcome<'a>
    ensures ends { InspectCommandEnds (inspect_names_of files.entry) (D.view desk.old) (D.view desk.new) result }
    ensures later { D.faults desk.old ≤ D.faults desk.new }
    ensures cause { IsFault result → Rose (D.faults desk.old) (D.faults desk.new) }
{
    let (public, read) = or_end!(fetch_and_pour(rt, alloc, files.public, files.transcript, desk));
    let report = or_end!(fetch(alloc, files.report, desk));
    let texts = InspectTexts {
        public: &public,
        report: &report,
    };
    let found = or_end!(inspect_texts(alloc, files, texts, read));
    let Ok(line) = inspected_line(alloc, found) else {
        return Outcome::NoMemory;
    };
    say(line.as_bytes(), desk)
}
