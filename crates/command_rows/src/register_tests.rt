//! The command `registers`: words and totals of several registers, and readings that are none.

use crate::fixtures::{
    HEAD, NORTH, Refusal, check, check_calls, check_complained, check_refused, check_said,
    check_status, check_stored, check_text, desk_of, held,
};
use desk_outside::DeskKind;
use std::alloc::Global;
use std::process::Abort;
use std::sync::Wait;
use std::test::Fail;
use std::thread::Threads;

const TWO: &str = "registers 2 plan.csv readings.csv report.csv t.txt words.txt";

const EIGHT: &str = "registers 8 plan.csv readings.csv report.csv t.txt words.txt";

/// Readings of two registers.
const BOTH: &str = "north,0,10+1,20+2,30+3\n";

// Each row: its name, the command, the lane rows, the readings, the words and their number, the report, and what is said. The words of
// the key of zeros are published (RFC 8439, A.1); they were added up by a program of another kind.
static RUNS: [(&str, &str, &str, &str, &str, u32, &str, &str); 5] = [
    (
        "two_registers",
        TWO,
        "",
        BOTH,
        "6,7a3892fbb03f17c1\n7,28bd8653e56a5d42\n8,d74279ac1a95a2c3\n19,28bd8653e56a5d40\n20,28bd8653e56a5d40\n21,28bd8653e56a5d40\n",
        6,
        "north,0,3,-,total,60+6\n",
        "rounds=1 totals=1 none=0 thin=0 sends=9 takes=9\n",
    ),
    (
        "a lost reading has its words too",
        TWO,
        "lane,rules,0.0.r.2=-,0,35\n",
        BOTH,
        "6,7a3892fbb03f17c1\n7,28bd8653e56a5d42\n8,d74279ac1a95a2c3\n16,517b0ca7cad4ba80\n17,517b0ca7cad4ba80\n",
        5,
        "north,0,2,2,total,30+3\n",
        "rounds=1 totals=1 none=0 thin=0 sends=7 takes=6\n",
    ),
    (
        "an absent reading",
        TWO,
        "",
        "north,0,10+1,20+2,\n",
        "6,7a3892fbb03f17c1\n7,28bd8653e56a5d42\n15,517b0ca7cad4ba80\n16,517b0ca7cad4ba80\n",
        4,
        "north,0,2,2,total,30+3\n",
        "rounds=1 totals=1 none=0 thin=0 sends=6 takes=6\n",
    ),
    (
        "a thin round has no totals",
        TWO,
        "",
        "north,0,10+1,,\n",
        "6,7a3892fbb03f17c1\n",
        1,
        "north,0,1,1+2,thin,\n",
        "rounds=1 totals=0 none=0 thin=1 sends=1 takes=1\n",
    ),
    (
        "eight registers",
        EIGHT,
        "",
        "north,0,10+1+2+3+4+5+6+7,20+0+0+0+0+0+0+1099511627775,30+1+1+1+1+1+1+1\n",
        "6,7a3892fbb03f17c1,50c8a8e2284d7839,552866a366cda3fb,a7d905f4750bc592,a5e08a28bfa06d6a,55e34841de28ca44,9331cc173d239750\n\
        7,28bd8653e56a5d40,1aed8da0b819d2bd,c70d778bccef36a8,8d4857517c5941da,374ad8b83fe02477,1ca11815f4b8436a,8665efb269b687c2\n\
        8,d74279ac1a95a2c1,e512725f47e62d44,38f288743310c959,72b7a8ae83a6be27,c8b52747c01fdb8a,e35ee7ea0b47bc97,799a114d9649783e\n\
        19,28bd8653e56a5d40,1aed8da0b819d2bd,c70d778bccef36a8,8d4857517c5941da,374ad8b83fe02477,1ca11815f4b8436a,8665eeb269b687c3\n\
        20,28bd8653e56a5d40,1aed8da0b819d2bd,c70d778bccef36a8,8d4857517c5941da,374ad8b83fe02477,1ca11815f4b8436a,8665eeb269b687c3\n\
        21,28bd8653e56a5d40,1aed8da0b819d2bd,c70d778bccef36a8,8d4857517c5941da,374ad8b83fe02477,1ca11815f4b8436a,8665eeb269b687c3\n",
        6,
        "north,0,3,-,total,60+2+3+4+5+6+7+1099511627783\n",
        "rounds=1 totals=1 none=0 thin=0 sends=9 takes=9\n",
    ),
];

// Runs the command, and looks for the words, the report and what is said.
fn check_registers(
    rt: &(impl Threads + Wait + Abort + Sync),
    alloc: Global,
    command: &str,
    lanes: &str,
    readings: &str,
    words: &str,
    report: &str,
    said: &str,
    name: &str,
) -> Result<(), Fail> {
    let rows = format!(in alloc; "{HEAD}{NORTH}{lanes}")?;
    let mut desk = desk_of(alloc, &rows, readings, Vec::new(alloc))?;
    check_status(rt, alloc, command, &mut desk, 0, name)?;
    check_text(rt, held(&desk, "words.txt"), words, name);
    check_text(rt, held(&desk, "report.csv"), report, name);
    check_said(rt, &desk, said, name);
    check_complained(rt, &desk, "", name);
    Ok(())
}

#[test]
fn registers(rt: HostRuntime) -> Result<(), Fail> {
    let alloc = rt.alloc();
    for case in RUNS.iter() {
        let (name, command, lanes, readings, lines, count, row, said) = *case;
        let words = format!(in alloc; "meteragg words 1\n{lines}end,{count}\n")?;
        let report = format!(in alloc; "group,round,survivors,missing,outcome,totals\n{row}")?;
        check_registers(
            &rt, alloc, command, lanes, readings, &words, &report, said, name,
        )?;
    }
    Ok(())
}

// The calls of the command.
static CALLS: [DeskKind; 6] = [
    DeskKind::Fetch,
    DeskKind::Fetch,
    DeskKind::Put,
    DeskKind::Put,
    DeskKind::Put,
    DeskKind::Say,
];

#[test]
fn register_calls(rt: HostRuntime) -> Result<(), Fail> {
    let alloc = rt.alloc();
    let rows = format!(in alloc; "{HEAD}{NORTH}")?;
    let mut desk = desk_of(alloc, &rows, BOTH, Vec::new(alloc))?;
    check_status(&rt, alloc, TWO, &mut desk, 0, TWO)?;
    check_calls(&rt, &desk, CALLS.len(), TWO);
    for (call, kind) in desk.calls().iter().zip(CALLS.iter()) {
        check(&rt, call.kind == *kind && !call.failed, "a call");
    }
    Ok(())
}

// Fields of meter 0 that are no readings of two registers, each with the cause that is complained.
static FIELDS: [(&str, &str); 8] = [
    ("10", "Number"),
    ("10+", "Number"),
    ("+10", "Number"),
    ("10+1+2", "Number"),
    ("1e3+1", "Number"),
    ("\"10+1\"+2", "Number"),
    ("10+1099511627776", "Range"),
    ("10+18446744073709551616", "Number"),
];

// Runs the command on readings with this field, which it refuses before it puts any file.
fn check_field(
    rt: &(impl Threads + Wait + Abort + Sync),
    alloc: Global,
    field: &str,
    cause: &str,
) -> Result<(), Fail> {
    let rows = format!(in alloc; "{HEAD}{NORTH}")?;
    let readings = format!(in alloc; "north,0,{field},20+2,30+3\n")?;
    let complaint = format!(in alloc; "readings.csv row 1: {cause}")?;
    let mut desk = desk_of(alloc, &rows, &readings, Vec::new(alloc))?;
    check_refused(
        rt,
        alloc,
        TWO,
        &mut desk,
        Refusal {
            status: 6,
            complaint: &complaint,
        },
        field,
    )?;
    check_stored(rt, &desk, "t.txt", false, field);
    check_stored(rt, &desk, "words.txt", false, field);
    check_stored(rt, &desk, "report.csv", false, field);
    Ok(())
}

#[test]
fn fields_that_are_no_readings(rt: HostRuntime) -> Result<(), Fail> {
    for case in FIELDS.iter() {
        let (field, cause) = *case;
        check_field(&rt, rt.alloc(), field, cause)?;
    }
    Ok(())
}
