//! Files, desks, wires and calls of the program for tests.

use collector_workers::{Free, Gate};
use commands::{Outside, with_lanes};
use desk_outside::{Desk, MemoryDesk, MemoryWire, Wire};
use std::alloc::Global;
use std::mem;
use std::process::Abort;
use std::sync::Wait;
use std::test::Fail;
use std::thread::Threads;

const ZEROS: &str = "0000000000000000000000000000000000000000000000000000000000000000";

/// One round with windows of 1 and 2 ticks.
pub const HEAD: &str = "rounds,1\nwindows,1,2\n";

/// One group of three meters, and their keys; `Z` is a key of zeros.
pub const NORTH: &str =
    "group,north,3,2\nown,0,0,Z\nown,0,1,Z\nown,0,2,Z\npair,0,0,1,Z\npair,0,0,2,Z\npair,0,1,2,Z\n";

/// Readings of 10, 20 and 30 watt-hours.
pub const READINGS: &str = "north,0,10,20,30\n";

/// The command.
pub const RUN: &str = "run plan.csv readings.csv report.csv t.txt";

/// A text in which `Z` stands for a key of zeros.
pub fn with_keys(alloc: Global, rows: &str) -> Result<String, Fail> {
    let mut text = String::new(alloc);
    let mut is_first = true;
    for part in rows.split('Z') {
        if !is_first {
            text.push_str(ZEROS)?;
        }
        text.push_str(part)?;
        is_first = false;
    }
    Ok(text)
}

// A plan file of some rows after its first, where `Z` stands for a key of zeros.
fn plan_text(alloc: Global, rows: &str) -> Result<String, Fail> {
    let rows = with_keys(alloc, rows)?;
    Ok(format!(in alloc; "plan,1\n{rows}")?)
}

/// How many bytes of a file a desk pours at a time: fewer than any line has.
pub const POURED_BYTES: usize = 5;

/// A desk that holds a plan file of these rows and a readings file, and fails these calls.
pub fn desk_of(
    alloc: Global,
    rows: &str,
    readings: &str,
    failing: Vec<u64>,
) -> Result<MemoryDesk, Fail> {
    let mut desk = MemoryDesk::new(failing).with_pieces(POURED_BYTES);
    desk.place("plan.csv", plan_text(alloc, rows)?.as_bytes())?;
    desk.place("readings.csv", readings.as_bytes())?;
    Ok(desk)
}

/// A wire whose input and journal have nothing, and that fails no call.
pub fn empty_wire(alloc: Global) -> MemoryWire {
    MemoryWire::new(Vec::new(alloc), Vec::new(alloc), Vec::new(alloc))
}

/// The status of the program on these words, parted by blanks.
pub fn status_of<R: Threads + Wait + Sync, D: Desk, W: Wire, G: Gate>(
    rt: &R,
    alloc: Global,
    line: &str,
    outside: &mut Outside<D, W>,
    gate: &G,
) -> Result<u8, Fail> {
    let mut words = Vec::new(alloc);
    for word in line.split(' ') {
        words.push(String::from_str(alloc, word)?)?;
    }
    Ok(with_lanes(rt, alloc, &words, outside, gate)?)
}

/// The status of the program on these words, parted by blanks, over a desk and an empty wire.
pub fn status_at_desk<R: Threads + Wait + Sync, G: Gate>(
    rt: &R,
    alloc: Global,
    line: &str,
    desk: &mut MemoryDesk,
    gate: &G,
) -> Result<u8, Fail> {
    let mut outside = Outside {
        desk: mem::replace(desk, MemoryDesk::new(Vec::new(alloc))),
        wire: empty_wire(alloc),
    };
    let status = status_of(rt, alloc, line, &mut outside, gate)?;
    *desk = outside.desk;
    Ok(status)
}

/// Looks for the status with which the program ended.
pub fn check_ended(rt: &impl Abort, ended: u8, status: u8, row: &str) {
    assert_eq!(rt; ended, status, "at {row}");
}

/// Runs the program on these words, parted by blanks, over a desk and an empty wire, and looks for its status.
pub fn check_status<R: Threads + Wait + Abort + Sync>(
    rt: &R,
    alloc: Global,
    line: &str,
    desk: &mut MemoryDesk,
    status: u8,
    row: &str,
) -> Result<(), Fail> {
    let ended = status_at_desk(rt, alloc, line, desk, &Free)?;
    check_ended(rt, ended, status, row);
    Ok(())
}

/// Looks for this text.
pub fn check_text(rt: &impl Abort, came: &str, text: &str, row: &str) {
    assert_eq!(rt; came, text, "at {row}");
}

/// Looks for this number.
pub fn check_number(rt: &impl Abort, came: usize, number: usize, row: &str) {
    assert_eq!(rt; came, number, "at {row}");
}

/// Asks whether a fact is so.
pub fn check(rt: &impl Abort, is_so: bool, row: &str) {
    assert!(rt; is_so, "at {row}");
}

/// Looks for all that the program said.
pub fn check_said(rt: &impl Abort, desk: &MemoryDesk, text: &str, row: &str) {
    assert_eq!(rt; desk.said(), text.as_bytes(), "at {row}");
}

/// Looks for all that the program complained.
pub fn check_complained(rt: &impl Abort, desk: &MemoryDesk, text: &str, row: &str) {
    assert_eq!(rt; desk.complained(), text.as_bytes(), "at {row}");
}

/// Looks for one complaint and nothing else, under the program's name.
pub fn check_complaint(
    rt: &impl Abort,
    alloc: Global,
    desk: &MemoryDesk,
    complaint: &str,
    row: &str,
) -> Result<(), Fail> {
    let wanted = format!(in alloc; "meteragg: {complaint}\n")?;
    check_complained(rt, desk, &wanted, row);
    Ok(())
}

/// How a command has to be refused: its status, and the one complaint.
#[derive(Clone, Copy)]
pub struct Refusal<'a> {
    pub status: u8,
    pub complaint: &'a str,
}

/// Runs the program on these words, which have to be refused so.
pub fn check_refused<R: Threads + Wait + Abort + Sync>(
    rt: &R,
    alloc: Global,
    line: &str,
    desk: &mut MemoryDesk,
    refusal: Refusal<'_>,
    row: &str,
) -> Result<(), Fail> {
    check_status(rt, alloc, line, desk, refusal.status, row)?;
    check_complaint(rt, alloc, desk, refusal.complaint, row)
}

/// Asks whether a desk holds something under a name.
pub fn check_stored(rt: &impl Abort, desk: &MemoryDesk, name: &str, is_stored: bool, row: &str) {
    assert_eq!(rt; desk.held(name).is_some(), is_stored, "{name} at {row}");
}

/// Looks for the number of calls of a desk.
pub fn check_calls(rt: &impl Abort, desk: &MemoryDesk, count: usize, row: &str) {
    check_number(rt, desk.calls().len(), count, row);
}

/// What a desk holds under a name, as text.
pub fn held<'d>(desk: &'d MemoryDesk, name: &str) -> &'d str {
    match desk.held(name) {
        Some(bytes) => str::from_utf8(bytes).unwrap_or("not text"),
        None => "nothing",
    }
}

/// The text with one piece in the place of another, where that stands first.
pub fn replaced(alloc: Global, text: &str, there: &str, instead: &str) -> Result<String, Fail> {
    let Some((before, after)) = text.split_once(there) else {
        return Err(Fail::from("nothing to replace"));
    };
    Ok(format!(in alloc; "{before}{instead}{after}")?)
}
