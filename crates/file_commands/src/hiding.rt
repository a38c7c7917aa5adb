//! The command `hide`.

ghost use Rattle.std.specs.Prelude.{◌≤◌};
ghost use Rattle.desk_outside.specs.Desk.{Rose};
ghost use Rattle.command_words.specs.Commands.{hide_names_of};
ghost use Rattle.command_words.specs.Outcomes.{IsFault};
ghost use Rattle.file_commands.specs.BillingEnds.{HideEnds};

use crate::pouring::fetch_and_pour;
use command_files::{NewFile, Source, fetch, put_one};
use command_texts::{HideTexts, hidden_line, hidden_of_files};
use command_words::{HideWords, Outcome};
use desk_outside::{Desk, Readers};
use std::alloc::Global;
use std::thread::Threads;

/// Fetches a plan, readings and a transcript, and puts other readings that hide the one of a place: they have the same totals and
/// the same bills of a period, and give the same transcript under other mask words.
pub fn hide<'a, R: Threads + Sync, D: Desk>(
    rt: &R,
    alloc: Global,
    words: HideWords<'a>,
    desk: &mut D,
) -> Outcome<'a>
    ensures ends { HideEnds (hide_names_of words.entry.files) words.entry.period words.entry.place (D.view desk.old) (D.view desk.new) result }
    ensures later { D.faults desk.old ≤ D.faults desk.new }
    ensures cause { IsFault result → Rose (D.faults desk.old) (D.faults desk.new) }
{
    let files = words.files;
    let plan = or_end!(fetch(alloc, files.plan, desk));
    let (readings, read) = or_end!(fetch_and_pour(
        rt,
        alloc,
        files.readings,
        files.transcript,
        desk
    ));
    let texts = HideTexts {
        plan: &plan,
        readings: &readings,
    };
    let hidden = or_end!(hidden_of_files(alloc, words, texts, read));
    let partner = hidden.partner;
    let Ok(line) = hidden_line(alloc, partner.round, partner.meter) else {
        return Outcome::NoMemory;
    };
    let file = NewFile {
        name: files.other,
        source: Source::Bytes(hidden.text.as_slice()),
        // All readings but a few stand in it as they are.
        readers: Readers::Owner,
    };
    put_one(rt, alloc, file, line.as_bytes(), desk)
}
