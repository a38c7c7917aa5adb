//! The command `meter`.

ghost use Rattle.std.specs.Prelude.{◌≡◌, ◌≤◌, ◌⊎◌, IfErr, IfOk, OnOk, Ok, length};
ghost use Rattle.desk_outside.specs.Desk.{Rose};
ghost use Rattle.meter_files.specs.PartFiles.{view_of};
ghost use Rattle.apart_roles.specs.MeterTurns.{HasJournal};
ghost use Rattle.command_words.specs.Limits.{most_bytes};
ghost use Rattle.command_words.specs.Outcomes.{IsFault};
ghost use Rattle.role_commands.specs.MeterEnds.{AreKeysOf, MeterEnds, MeterRefuses};
ghost use Rattle.role_commands.specs.Parts.{FileEnds, MeterBegins, SaysKeys};
ghost use Rattle.meter_files.specs.Whole.{IsWhole};

use crate::told::stopped;
use apart_roles::{Start, run_meter, start_meter};
use command_files::fetch;
use command_words::{MeterFiles, Outcome, TextFault, Unread};
use desk_outside::{Desk, Wire};
use meter_apart::{MeterApart, MeterKeys, Part};
use meter_files::{MeterFile, read_meter};
use plan_files::Failed;
use std::alloc::Global;

// The keys of the meter that a meter file is about.
fn keys_of(file: MeterFile) -> MeterKeys
    requires { IsWhole (view_of file) }
    ensures { AreKeysOf (view_of file) result }
{
    let MeterFile {
        home,
        group,
        meter,
        own,
        pairs,
    } = file;
    let Some(part) = Part::new(home, group, meter) else {
        unreachable!()
    };
    let Some(keys) = MeterKeys::new(part, own, pairs) else {
        unreachable!()
    };
    keys
}

// What the meter file of this name says, or how the command ends.
fn keys_in<'a>(alloc: Global, name: &'a str, bytes: &[u8]) -> Result<MeterKeys, Outcome<'a>>
    requires { length bytes.now ≤ most_bytes }
    ensures value { IfOk result (SaysKeys bytes.now) }
    ensures refused { IfErr result (MeterRefuses name.now bytes.now) }
    ensures no_fault { IfErr result (λ outcome. ¬ IsFault outcome) }
{
    match read_meter(alloc, bytes) {
        Ok(file) => Ok(keys_of(file)),
        Err(Failed::Memory) => Err(Outcome::NoMemory),
        Err(Failed::Fault(fault)) => Err(Outcome::BadPlan(name, fault)),
    }
}

// Fetches a meter file, or says how the command ends.
fn fetch_keys<'a, D: Desk>(
    alloc: Global,
    name: &'a str,
    desk: &mut D,
) -> Result<MeterKeys, Outcome<'a>>
    ensures ends { FileEnds name.now SaysKeys (MeterRefuses name.now) (D.view desk.old) (D.view desk.new) result }
    ensures later { D.faults desk.old ≤ D.faults desk.new }
    ensures cause { IfErr result (λ outcome. IsFault outcome → Rose (D.faults desk.old) (D.faults desk.new)) }
{
    let bytes = or_fail!(fetch(alloc, name, desk));
    keys_in(alloc, name, &bytes)
}

// Starts a meter over the journal of this name, or says how the command ends.
fn start<'a, W: Wire>(
    alloc: Global,
    wire: &mut W,
    journal: &'a str,
    keys: MeterKeys,
) -> Result<MeterApart, Outcome<'a>>
    ensures ends { MeterBegins keys journal.now (W.view wire.old) (W.view wire.new) result }
    ensures ready { IfOk result HasJournal }
    ensures calm { OnOk result ((W.view wire.new).faults ≡ (W.view wire.old).faults) }
    ensures cause { IfErr result (λ outcome. IsFault outcome → Rose (W.view wire.old).faults (W.view wire.new).faults) }
{
    match start_meter(alloc, wire, journal, keys) {
        Ok(Start::Ready(meter)) => Ok(meter),
        Ok(Start::Unreadable) => Err(Outcome::Unread(Unread::File(journal))),
        Ok(Start::Head(line)) => Err(Outcome::BadText(journal, TextFault::JournalHead(line))),
        Ok(Start::Line(line)) => Err(Outcome::BadText(journal, TextFault::JournalLine(line))),
        Err(error) => Err(stopped(journal, error)),
    }
}

/// Fetches a meter file, goes on by the meter's journal, and answers each line of the input.
pub fn meter<'a, D: Desk, W: Wire>(
    alloc: Global,
    files: MeterFiles<'a>,
    desk: &mut D,
    wire: &mut W,
) -> Outcome<'a>
    ensures ends { MeterEnds files.entry.meter.now files.entry.journal.now (D.view desk.old) (D.view desk.new) (W.view wire.old) (W.view wire.new) result }
    ensures later { D.faults desk.old ≤ D.faults desk.new }
    ensures cause { IsFault result → Rose (D.faults desk.old) (D.faults desk.new) ⊎ Rose (W.view wire.old).faults (W.view wire.new).faults }
{
    let keys = or_end!(fetch_keys(alloc, files.meter, desk));
    let mut meter = or_end!(start(alloc, wire, files.journal, keys));
    match run_meter(alloc, wire, &mut meter) {
        Ok(()) => Outcome::Done,
        Err(error) => stopped(files.journal, error),
    }
}
