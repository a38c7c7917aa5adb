//! The commands `ring` and `ringtwin`: masks between neighbours alone, and the words that move on a ring.

use crate::fixtures::{
    HEAD, NORTH, READINGS, RUN, Refusal, check, check_calls, check_complained, check_refused,
    check_said, check_status, check_stored, check_text, desk_of, held,
};
use desk_outside::{DeskKind, MemoryDesk};
use row_fixtures::PLAIN;
use std::alloc::Global;
use std::process::Abort;
use std::sync::Wait;
use std::test::Fail;
use std::thread::Threads;

const RING: &str = "ring plan.csv readings.csv 1 report.csv t.txt";

const RING_TWIN: &str = "ringtwin plan.csv readings.csv other.csv 1 t.txt masks.txt";

/// One group of four meters, and their keys.
const FOUR: &str =
    "group,north,4,2\nown,0,0,Z\nown,0,1,Z\nown,0,2,Z\nown,0,3,Z\npair,0,0,1,Z\npair,0,0,2,Z\npair,0,0,3,Z\npair,0,1,2,Z\npair,0,1,3,Z\npair,0,2,3,Z\n";

// Each row: its name, the command, the rows of the group and the lanes, the readings, the row of the report, and what is said.
static RUNS: [(&str, &str, &str, &str, &str, &str); 7] = [
    (
        "ring_opens_three",
        RING,
        "",
        "north,0,10,20,30,\n",
        "north,0,3,3,total,60\n",
        "rounds=1 totals=1 none=0 thin=0 sends=9 takes=9\nring: least=3\n",
    ),
    (
        "component_of_one_opened",
        RING,
        "",
        "north,0,10,,30,\n",
        "north,0,2,1+3,total,40\n",
        "rounds=1 totals=1 none=0 thin=0 sends=6 takes=6\nring: least=1\n",
    ),
    (
        "all four are one component",
        RING,
        "",
        "north,0,10,20,30,40\n",
        "north,0,4,-,total,100\n",
        "rounds=1 totals=1 none=0 thin=0 sends=12 takes=12\nring: least=4\n",
    ),
    (
        "a wider ring joins over a gap",
        "ring plan.csv readings.csv 2 report.csv t.txt",
        "",
        "north,0,10,,30,\n",
        "north,0,2,1+3,total,40\n",
        "rounds=1 totals=1 none=0 thin=0 sends=6 takes=6\nring: least=2\n",
    ),
    (
        "the greatest width, one worker",
        "ring plan.csv readings.csv 128 report.csv t.txt 1",
        "",
        "north,0,10,20,30,\n",
        "north,0,3,3,total,60\n",
        "rounds=1 totals=1 none=0 thin=0 sends=9 takes=9\nring: least=3\n",
    ),
    (
        "a meter that hears no announcement",
        RING,
        "lane,rules,0.0.m.0=-,0,35\n",
        "north,0,10,,30,\n",
        "north,0,2,1+3,none,\n",
        "rounds=1 totals=0 none=1 thin=0 sends=5 takes=4\nring: least=1\n",
    ),
    (
        "no component of a thin round is opened",
        RING,
        "",
        "north,0,10,,,\n",
        "north,0,1,1+2+3,thin,\n",
        "rounds=1 totals=0 none=0 thin=1 sends=1 takes=1\nring: least=0\n",
    ),
];

// A desk that holds the plan of the four meters with these lanes, and these readings.
fn ring_desk(alloc: Global, lanes: &str, readings: &str) -> Result<MemoryDesk, Fail> {
    let rows = format!(in alloc; "{HEAD}{FOUR}{lanes}")?;
    desk_of(alloc, &rows, readings, Vec::new(alloc))
}

#[test]
fn rings(rt: HostRuntime) -> Result<(), Fail> {
    let alloc = rt.alloc();
    for case in RUNS.iter() {
        let (name, command, lanes, readings, row, said) = *case;
        let mut desk = ring_desk(alloc, lanes, readings)?;
        check_status(&rt, alloc, command, &mut desk, 0, name)?;
        let report = format!(in alloc; "group,round,survivors,missing,outcome,total\n{row}")?;
        check_text(&rt, held(&desk, "report.csv"), &report, name);
        check_said(&rt, &desk, said, name);
        check_complained(&rt, &desk, "", name);
    }
    Ok(())
}

// The calls of the command: it says the summary and the last line in one.
static CALLS: [DeskKind; 5] = [
    DeskKind::Fetch,
    DeskKind::Fetch,
    DeskKind::Put,
    DeskKind::Put,
    DeskKind::Say,
];

#[test]
fn ring_calls(rt: HostRuntime) -> Result<(), Fail> {
    let alloc = rt.alloc();
    let mut desk = ring_desk(alloc, "", "north,0,10,20,30,\n")?;
    check_status(&rt, alloc, RING, &mut desk, 0, RING)?;
    check_calls(&rt, &desk, CALLS.len(), RING);
    for (call, kind) in desk.calls().iter().zip(CALLS.iter()) {
        check(&rt, call.kind == *kind && !call.failed, "a call");
    }
    Ok(())
}

// Each row: its name, the lanes, the readings of the run, the other table, the status, and what is complained, or the lines of the
// masks file and the number of them that is said.
static TWINS: [(&str, &str, &str, &str, u8, &str, u32); 7] = [
    (
        "ring_opens_three",
        "",
        "north,0,10,20,30,\n",
        "north,0,15,15,30,\n",
        0,
        "pair,0,0,0,1,903df1a0ade0b876,903df1a0ade0b871\n",
        1,
    ),
    (
        "a ring of itself",
        "",
        "north,0,10,20,30,\n",
        "north,0,10,20,30,\n",
        0,
        "",
        0,
    ),
    (
        "component_of_one_opened",
        "",
        "north,0,10,,30,\n",
        "north,0,15,,25,\n",
        8,
        "component 0 0 0 10 15",
        0,
    ),
    (
        "the second component differs",
        "",
        "north,0,10,,30,\n",
        "north,0,10,,31,\n",
        8,
        "component 0 0 2 30 31",
        0,
    ),
    (
        "presence before components",
        "",
        "north,0,10,,30,\n",
        "north,0,15,,25,1\n",
        8,
        "presence 0 0 3",
        0,
    ),
    (
        "a component whose answer is lost is opened",
        "lane,rules,0.0.a.0=-,0,35\n",
        "north,0,10,,30,\n",
        "north,0,15,,30,\n",
        8,
        "component 0 0 0 10 15",
        0,
    ),
    (
        "a component without its answer is not opened",
        "lane,rules,0.0.m.0=-,0,35\n",
        "north,0,10,,30,\n",
        "north,0,15,,30,\n",
        0,
        "own,0,0,0,903df1a0ade0b876,903df1a0ade0b871\n",
        1,
    ),
];

// Looks for the masks file of these moved words and for the line of their number, or for neither and a complaint.
fn check_twin(
    rt: &(impl Threads + Wait + Abort + Sync),
    alloc: Global,
    desk: &mut MemoryDesk,
    case: (&str, u8, &str, u32),
) -> Result<(), Fail> {
    let (name, status, text, moved) = case;
    if status != 0 {
        check_refused(
            rt,
            alloc,
            RING_TWIN,
            desk,
            Refusal {
                status,
                complaint: text,
            },
            name,
        )?;
        check_stored(rt, desk, "masks.txt", false, name);
        return Ok(());
    }
    check_status(rt, alloc, RING_TWIN, desk, 0, name)?;
    let masks = format!(in alloc; "meteragg masks 1\n{text}end,{moved}\n")?;
    let said = format!(in alloc; "twin: moved={moved}\n")?;
    check_text(rt, held(desk, "masks.txt"), &masks, name);
    check(rt, desk.said().ends_with(said.as_bytes()), name);
    check_complained(rt, desk, "", name);
    Ok(())
}

#[test]
fn ring_twins(rt: HostRuntime) -> Result<(), Fail> {
    let alloc = rt.alloc();
    for case in TWINS.iter() {
        let (name, lanes, readings, other, status, text, moved) = *case;
        let mut desk = ring_desk(alloc, lanes, readings)?;
        check_status(&rt, alloc, RING, &mut desk, 0, name)?;
        desk.place("other.csv", other.as_bytes())?;
        check_twin(&rt, alloc, &mut desk, (name, status, text, moved))?;
    }
    Ok(())
}

// On a ring of three each two are neighbours, so the transcript of `run` is one of `ring`.
#[test]
fn ring_of_three(rt: HostRuntime) -> Result<(), Fail> {
    let alloc = rt.alloc();
    let rows = format!(in alloc; "{HEAD}{NORTH}")?;
    let mut desk = desk_of(alloc, &rows, READINGS, Vec::new(alloc))?;
    desk.place("t.txt", PLAIN.as_bytes())?;
    desk.place("other.csv", b"north,0,15,15,30\n")?;
    let text = "pair,0,0,0,1,903df1a0ade0b876,903df1a0ade0b871\n";
    check_twin(&rt, alloc, &mut desk, ("three", 0, text, 1))
}

// On a ring of four not each two are, so a transcript of one command is refused by the twins of the other.
#[test]
fn transcripts_of_other_masks(rt: HostRuntime) -> Result<(), Fail> {
    let alloc = rt.alloc();
    let mut desk = ring_desk(alloc, "", "north,0,10,20,30,\n")?;
    desk.place("other.csv", b"north,0,15,15,30,\n")?;
    check_status(&rt, alloc, RUN, &mut desk, 0, "run")?;
    check_status(&rt, alloc, RING_TWIN, &mut desk, 7, "of run")?;
    check_status(&rt, alloc, RING, &mut desk, 0, "ring")?;
    let twin = "twin plan.csv readings.csv other.csv t.txt masks.txt";
    check_status(&rt, alloc, twin, &mut desk, 7, "of ring")?;
    check_stored(&rt, &desk, "masks.txt", false, "other masks");
    Ok(())
}

// Each row: the command, what stands in the files of the plan's lanes, the readings, the other table and the transcript, the status and
// the complaint.
static REFUSALS: [(&str, &str, &str, &str, &str, u8, &str); 9] = [
    (
        RING,
        "lane,none,,0,0\n",
        "x\n",
        "x\n",
        "x\n",
        10,
        "lane row 15: NoSuchLane",
    ),
    (
        RING,
        "",
        "north,0,10,20,30\n",
        "x\n",
        "x\n",
        6,
        "readings.csv row 1: Fields",
    ),
    (
        RING,
        "lane\n",
        "x\n",
        "x\n",
        "x\n",
        5,
        "plan.csv row 15: Fields",
    ),
    (
        "ring none.csv readings.csv 1 report.csv t.txt",
        "",
        "x\n",
        "x\n",
        "x\n",
        3,
        "cannot read none.csv",
    ),
    (
        RING_TWIN,
        "lane\n",
        "x\n",
        "x\n",
        "x\n",
        5,
        "plan.csv row 15: Fields",
    ),
    (
        RING_TWIN,
        "lane,none,,0,0\n",
        "north,0,10,20,30\n",
        "x\n",
        "x\n",
        6,
        "readings.csv row 1: Fields",
    ),
    (
        RING_TWIN,
        "",
        "north,0,10,20,30,\n",
        "north,0,10,20,30\n",
        "x\n",
        6,
        "other.csv row 1: Fields",
    ),
    (
        RING_TWIN,
        "",
        "north,0,10,20,30,\n",
        "north,0,10,20,31,\n",
        "x\n",
        7,
        "t.txt line 1: Head",
    ),
    (
        RING_TWIN,
        "",
        "north,0,10,20,30,\n",
        "north,0,10,20,31,\n",
        PLAIN,
        7,
        "t.txt: other plan",
    ),
];

#[test]
fn refused_rings(rt: HostRuntime) -> Result<(), Fail> {
    let alloc = rt.alloc();
    for case in REFUSALS.iter() {
        let (command, lanes, readings, other, transcript, status, complaint) = *case;
        let mut desk = ring_desk(alloc, lanes, readings)?;
        desk.place("other.csv", other.as_bytes())?;
        desk.place("t.txt", transcript.as_bytes())?;
        check_refused(
            &rt,
            alloc,
            command,
            &mut desk,
            Refusal { status, complaint },
            complaint,
        )?;
        check_stored(&rt, &desk, "report.csv", false, complaint);
        check_stored(&rt, &desk, "masks.txt", false, complaint);
        check_said(&rt, &desk, "", complaint);
    }
    Ok(())
}
