//! The command `bill`.

ghost use Rattle.std.specs.Prelude.{◌≤◌};
ghost use Rattle.desk_outside.specs.Desk.{Rose};
ghost use Rattle.command_words.specs.Commands.{bill_names_of};
ghost use Rattle.command_words.specs.Outcomes.{IsFault};
ghost use Rattle.file_commands.specs.BillingEnds.{BillEnds};

use command_files::{NewFile, Source, fetch_two, put_one};
use command_texts::{bills_line, bills_of_files};
use command_words::{BillWords, Outcome};
use desk_outside::{Desk, Readers};
use std::alloc::Global;
use std::thread::Threads;

/// Fetches a plan and readings, and puts the bills of a period.
pub fn bill<'a, R: Threads + Sync, D: Desk>(
    rt: &R,
    alloc: Global,
    words: BillWords<'a>,
    desk: &mut D,
) -> Outcome<'a>
    ensures ends { BillEnds (bill_names_of words.entry.files) words.entry.period (D.view desk.old) (D.view desk.new) result }
    ensures later { D.faults desk.old ≤ D.faults desk.new }
    ensures cause { IsFault result → Rose (D.faults desk.old) (D.faults desk.new) }
{
    let files = words.files;
    let (plan, readings) = or_end!(fetch_two(alloc, files.plan, files.readings, desk));
    let made = or_end!(bills_of_files(alloc, words, &plan, &readings));
    let Ok(line) = bills_line(alloc, made.count) else {
        return Outcome::NoMemory;
    };
    let file = NewFile {
        name: files.bills,
        source: Source::Bytes(made.text.as_slice()),
        readers: Readers::Any,
    };
    put_one(rt, alloc, file, line.as_bytes(), desk)
}
