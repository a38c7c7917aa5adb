//! The program, over any desk and any wire.

ghost use Rattle.std.specs.Prelude.{None, ◌≤◌, map, string_bytes, ◌≡◌, ◌↔◌};
ghost use Rattle.commands.specs.Outside.{FaultsRose, with_wire};
ghost use Rattle.command_words.specs.Words.{command_of};
ghost use Rattle.commands.specs.Ends.{Ends};
ghost use Rattle.command_words.specs.Outcomes.{IsFault, HasComplaint};
ghost use Rattle.commands.specs.Promise.{Tells, EndsAndTells};
ghost use Rattle.commands.specs.Accepted.{AcceptedIsDone};
ghost use Rattle.command_texts.specs.Audits.{RunsAreConfirmed, RunsAreShort};
ghost use Rattle.command_texts.specs.Twins.{RunsAreRecorded};
ghost use Rattle.command_texts.specs.Inspecting.{RunsAreInspected};

use crate::outside::Outside;
use collector_workers::Gate;
use command_files::say;
use command_words::{Command, Outcome, USAGE, VERSION, complaint, parse, status};
use desk_outside::{Desk, Wire};
use file_commands::{audit, bill, convert, hide, inspect, parts, pooled, public, ring_twin, twin};
use link_lanes::Lane;
use role_commands::{collect, meter};
use run_commands::{load, make, registers, resume, ring, run};
use std::alloc::Global;
use std::sync::Wait;
use std::thread::Threads;

// Does what the words ask for.
fn perform<'a, R: Threads + Wait + Sync, D: Desk, W: Wire, G: Gate>(
    rt: &R,
    alloc: Global,
    words: &'a [String],
    outside: &mut Outside<D, W>,
    cupboard: Vec<Box<dyn Lane>>,
    gate: &G,
) -> Outcome<'a>
    ensures ends { Ends (map (λ b. meaning b) cupboard.items) (command_of (map string_bytes words.now)) (with_wire (D.view outside.old.desk) (W.view outside.old.wire)) (with_wire (D.view outside.new.desk) (W.view outside.new.wire)) result }
    ensures later { D.faults outside.old.desk ≤ D.faults outside.new.desk }
    ensures cause { IsFault result → FaultsRose (command_of (map string_bytes words.now)) (D.faults outside.old.desk) (D.faults outside.new.desk) (W.view outside.old.wire) (W.view outside.new.wire) }
{
    let Outside { desk, wire } = outside;
    match parse(words) {
        None => Outcome::BadWords,
        Some(Command::Run(words)) => run(rt, alloc, words, desk, cupboard, gate),
        Some(Command::Ring(words)) => ring(rt, alloc, words, desk, cupboard, gate),
        Some(Command::Resume(words)) => resume(rt, alloc, words, desk, cupboard, gate),
        Some(Command::Registers(words)) => registers(rt, alloc, words, desk, cupboard, gate),
        Some(Command::Audit(files)) => audit(rt, alloc, files, desk),
        Some(Command::Twin(files)) => twin(rt, alloc, files, desk),
        Some(Command::RingTwin(words)) => ring_twin(rt, alloc, words, desk),
        Some(Command::Pooled(words)) => pooled(rt, alloc, words, desk),
        Some(Command::Make(words)) => make(rt, alloc, words, desk),
        Some(Command::Load(words)) => load(rt, alloc, words, desk, cupboard, gate),
        Some(Command::Convert(files)) => convert(rt, alloc, files, desk),
        Some(Command::Public(files)) => public(rt, alloc, files, desk),
        Some(Command::Parts(words)) => parts(alloc, words, desk),
        Some(Command::Collect(files)) => collect(rt, alloc, files, desk, wire),
        Some(Command::Meter(files)) => meter(alloc, files, desk, wire),
        Some(Command::Inspect(files)) => inspect(rt, alloc, files, desk),
        Some(Command::Bill(words)) => bill(rt, alloc, words, desk),
        Some(Command::Hide(words)) => hide(rt, alloc, words, desk),
        Some(Command::Help) => say(USAGE.as_bytes(), desk),
        Some(Command::Version) => say(VERSION.as_bytes(), desk),
    }
}

// Complains of what was refused or failed, once at most.
fn tell<D: Desk>(alloc: Global, outcome: &Outcome<'_>, desk: &mut D)
    requires { HasComplaint outcome.now }
    ensures ends { Tells outcome.now (D.view desk.old) (D.view desk.new) }
    ensures later { D.faults desk.old ≤ D.faults desk.new }
{
    if let Outcome::Done = *outcome {
        return;
    }
    let Ok(text) = complaint(alloc, outcome) else {
        return;
    };
    let _ = desk.complain(&text);
}

/// Does what the words ask for outside, with the lanes of the cupboard, complains where that fails, and answers the
/// status: 0 done, 1 no memory, 2 bad words, 3 a file or an input that cannot be read, or a file that is longer than 2^28 bytes,
/// 4 a file or an output that cannot be written, 5 a bad plan, 6 bad readings, 7 a text that is no transcript, no report or no
/// journal, or a transcript that is impossible, not in time or isn't that of these files, or a cut with which their run does not
/// begin, 8 readings that don't agree, 9 a report that is not what the frames give, 10 a lane row that gets no lane, 11 a reading
/// without a partner.
pub fn meteragg<R: Threads + Wait + Sync, D: Desk, W: Wire, G: Gate>(
    rt: &R,
    alloc: Global,
    words: &[String],
    outside: &mut Outside<D, W>,
    cupboard: Vec<Box<dyn Lane>>,
    gate: &G,
) -> u8
    ensures ends { EndsAndTells (map (λ b. meaning b) cupboard.items) (command_of (map string_bytes words.now)) (with_wire (D.view outside.old.desk) (W.view outside.old.wire)) (with_wire (D.view outside.new.desk) (W.view outside.new.wire)) (D.faults outside.old.desk) (D.faults outside.new.desk) result }
    ensures accepted { AcceptedIsDone (map (λ b. meaning b) cupboard.items) (command_of (map string_bytes words.now)) (with_wire (D.view outside.old.desk) (W.view outside.old.wire)) (with_wire (D.view outside.new.desk) (W.view outside.new.wire)) (D.faults outside.old.desk) (D.faults outside.new.desk) result }
    // The audit finds no fault in what a run stores, what a run stores is the record of its readings under the words that its meters share, and it isn't too long to be read.
    ensures confirmed { RunsAreConfirmed }
    ensures recorded { RunsAreRecorded }
    ensures short { RunsAreShort }
    // Nor does an inspection find a fault in it, under the public plan of its plan file.
    ensures inspected { RunsAreInspected }
    ensures words { (result ≡ 2) ↔ (command_of (map string_bytes words.now) ≡ None) }
{
    let outcome = perform(rt, alloc, words, outside, cupboard, gate);
    tell(alloc, &outcome, &mut outside.desk);
    status(&outcome)
}
