//! The commands `collect` and `meter`: what they say to the lines of an input, what their journals have then, and what they refuse.

use crate::fixtures::{
    check, check_complained, check_complaint, check_ended, check_said, check_text, held, status_of,
    with_keys,
};
use collector_workers::Free;
use commands::Outside;
use desk_outside::{MemoryDesk, MemoryWire, WireStep};
use std::alloc::Global;
use std::process::Abort;
use std::sync::Wait;
use std::test::Fail;
use std::thread::Threads;

const COLLECT: &str = "collect public.csv j.txt report.csv";

const METER: &str = "meter m0.csv m0.journal";

// The public plan of the plain case, and what meter 0 has of its plan; `Z` is a key of zeros.
const PUBLIC: &str = "public,1\nrounds,1\nwindows,1,2\ngroup,north,3,2\n";

const OWN: &str = "meter,1\nrounds,1\ngroup,0,north,3,2\nself,0\nown,Z\npair,1,Z\npair,2,Z\n";

// The heads of their journals.
const COLLECTED: &str = "meteragg journal 1\nrounds,1\nwindows,1,2\ngroup,north,3,2\nbegin\n";

const METERED: &str = "meteragg meter journal 1\nrounds,1\ngroup,0,north,3,2\nself,0\nbegin\n";

// In the texts below `R0` to `R2` stand for the frames of the readings of the plain case, `M0` to `M2` for those of the announcements, and
// `A0` to `A2` for those of the answers.
static FRAMES: [(&str, &str); 9] = [
    (
        "R0",
        "4d02010000000000000000000000000000000000000000000000000000000000000000000000000000000000b0b9d4e209a2296c",
    ),
    (
        "R1",
        "4d02010100000000000000000000000000000000000000000000000000000000000000000000000000000000903df1a0ade0b88a",
    ),
    (
        "R2",
        "4d020102000000000000000000000000000000000000000000000000000000000000000000000000000000006fc20e5f521f47a8",
    ),
    (
        "M0",
        "4d020200000000000000000000000000000000000000000000000000000000000000000000000000000000000000000000000000",
    ),
    (
        "M1",
        "4d020201000000000000000000000000000000000000000000000000000000000000000000000000000000000000000000000000",
    ),
    (
        "M2",
        "4d020202000000000000000000000000000000000000000000000000000000000000000000000000000000000000000000000000",
    ),
    (
        "A0",
        "4d02030000000000000000000000000000000000000000000000000000000000000000000000000000000000903df1a0ade0b876",
    ),
    (
        "A1",
        "4d02030100000000000000000000000000000000000000000000000000000000000000000000000000000000903df1a0ade0b876",
    ),
    (
        "A2",
        "4d02030200000000000000000000000000000000000000000000000000000000000000000000000000000000903df1a0ade0b876",
    ),
];

// A text with the frames that it names.
fn with_frames(alloc: Global, text: &str) -> Result<String, Fail> {
    let mut whole = String::from_str(alloc, text)?;
    for (name, frame) in FRAMES.iter() {
        let mut next = String::new(alloc);
        let mut is_first = true;
        for part in whole.split(*name) {
            if !is_first {
                next.push_str(frame)?;
            }
            next.push_str(part)?;
            is_first = false;
        }
        whole = next;
    }
    Ok(whole)
}

// The files of both commands on a desk, and a wire with this input and this journal; which calls of each fail.
fn outside_of(
    alloc: Global,
    input: &str,
    journal: &str,
    desk_fails: Vec<u64>,
    wire_fails: Vec<u64>,
) -> Result<Outside<MemoryDesk, MemoryWire>, Fail> {
    let mut desk = MemoryDesk::new(desk_fails);
    desk.place("public.csv", PUBLIC.as_bytes())?;
    desk.place("m0.csv", with_keys(alloc, OWN)?.as_bytes())?;
    let input = with_frames(alloc, input)?.into_bytes();
    let journal = with_frames(alloc, journal)?.into_bytes();
    Ok(Outside {
        desk,
        wire: MemoryWire::new(wire_fails, input, journal),
    })
}

// All that was said over a wire.
fn heard_of(alloc: Global, wire: &MemoryWire) -> Result<Vec<u8>, Fail> {
    let mut said = Vec::new(alloc);
    for step in wire.steps() {
        if let WireStep::Said { bytes, failed: _ } = step {
            said.extend_from_slice(bytes.bytes())?;
        }
    }
    Ok(said)
}

// Asks what a command with this journal says to this input, what its journal has then, and the report; the desk says nothing.
fn check_course(
    rt: &(impl Threads + Wait + Abort + Sync),
    alloc: Global,
    command: &str,
    case: (&str, &str, &str, &str, &str),
    row: &str,
) -> Result<(), Fail> {
    let (before, input, said, after, report) = case;
    let mut outside = outside_of(alloc, input, before, Vec::new(alloc), Vec::new(alloc))?;
    let ended = status_of(rt, alloc, command, &mut outside, &Free)?;
    check_ended(rt, ended, 0, row);
    let Outside { desk, wire } = outside;
    let wanted = with_frames(alloc, said)?;
    check(
        rt,
        heard_of(alloc, &wire)?.as_slice() == wanted.as_bytes(),
        row,
    );
    let wanted = with_frames(alloc, after)?;
    check(rt, wire.journal() == wanted.as_bytes(), row);
    check_text(rt, held(&desk, "report.csv"), report, row);
    check_said(rt, &desk, "", row);
    check_complained(rt, &desk, "", row);
    Ok(())
}

// Each row: its name, the lines of the journal behind its head, the input, what is said, the lines of the journal then, and the report's last
// line.
static COLLECTS: [(&str, &str, &str, &str, &str, &str); 4] = [
    (
        "head_end_alone",
        "",
        "tick,0\nframe,R0\nframe,R1\nframe,R2\ntick,1\nframe,A0\nframe,A1\nframe,A2\ntick,2\ntick,3\n",
        "\nready,0\nticked,0\nfresh\nfresh\nfresh\nclosed,north,0,3,-,announced\nframe,M0\nframe,M1\nframe,M2\nticked,1\nfresh\nfresh\nfresh\nticked,2\nrow,north,0,3,-,total,60\nticked,3\nrounds=1 totals=1 none=0 thin=0 open=0\n",
        "t\nf,R0\nf,R1\nf,R2\nt\nf,A0\nf,A1\nf,A2\nt\nt\n",
        "north,0,3,-,total,60\n",
    ),
    (
        "killed_after_the_second_tick",
        "t\nf,R0\nf,R1\nf,R2\nt\nf,A",
        "tick,1\nframe,A0\nframe,A1\nframe,A2\ntick,2\ntick,3\n",
        "\nready,2\nclosed,north,0,3,-,announced\nframe,M0\nframe,M1\nframe,M2\nticked,1\nfresh\nfresh\nfresh\nticked,2\nrow,north,0,3,-,total,60\nticked,3\nrounds=1 totals=1 none=0 thin=0 open=0\n",
        "t\nf,R0\nf,R1\nf,R2\nt\nf,A0\nf,A1\nf,A2\nt\nt\n",
        "north,0,3,-,total,60\n",
    ),
    (
        "asked_again",
        "t\nf,R0\nf,R1\nf,R2\nt\n",
        "frame,A0\nagain\n",
        "\nready,2\nfresh\nframe,M1\nframe,M2\nready,2\nrounds=1 totals=0 none=0 thin=0 open=1\n",
        "t\nf,R0\nf,R1\nf,R2\nt\nf,A0\n",
        "north,0,3,-,open,\n",
    ),
    (
        "report, and a rest",
        "",
        "report\nx\nrepor",
        "\nready,0\nreported\nrefused,Line\nrounds=1 totals=0 none=0 thin=0 open=1\n",
        "",
        "north,0,0,0+1+2,open,\n",
    ),
];

#[test]
fn head_ends(rt: HostRuntime) -> Result<(), Fail> {
    let alloc = rt.alloc();
    for (name, before, input, said, after, row) in COLLECTS.iter() {
        let before = format!(in alloc; "{COLLECTED}{before}")?;
        let after = format!(in alloc; "{COLLECTED}{after}")?;
        let report = format!(in alloc; "group,round,survivors,missing,outcome,total\n{row}")?;
        let case = (
            before.as_str(),
            *input,
            *said,
            after.as_str(),
            report.as_str(),
        );
        check_course(&rt, alloc, COLLECT, case, name)?;
    }
    Ok(())
}

// The same of a meter, which puts no report.
static METERS: [(&str, &str, &str, &str, &str); 3] = [
    (
        "meter_alone",
        "",
        "reading,0,10\nframe,M0\n",
        "\nready\nframe,R0\nframe,A0\n",
        "r,0,10\ns,0,-\n",
    ),
    (
        "second_set_refused",
        "r,0,10\ns,0,-\n",
        "frame,4d020200000000000000000000000000000000000000000000000000000000000000000000000000000000020000000000000000\n",
        "\nready\nrefused,OtherSet\n",
        "r,0,10\ns,0,-\n",
    ),
    (
        "reading_changed",
        "",
        "reading,0,10\nreading,0,11\n",
        "\nready\nframe,R0\nrefused,Twice\n",
        "r,0,10\n",
    ),
];

#[test]
fn meters(rt: HostRuntime) -> Result<(), Fail> {
    let alloc = rt.alloc();
    for (name, before, input, said, after) in METERS.iter() {
        let before = format!(in alloc; "{METERED}{before}")?;
        let after = format!(in alloc; "{METERED}{after}")?;
        let case = (before.as_str(), *input, *said, after.as_str(), "nothing");
        check_course(&rt, alloc, METER, case, name)?;
    }
    Ok(())
}

#[test]
fn journals_that_are_absent(rt: HostRuntime) -> Result<(), Fail> {
    let alloc = rt.alloc();
    let said = "\nready,0\nrounds=1 totals=0 none=0 thin=0 open=1\n";
    let report = "group,round,survivors,missing,outcome,total\nnorth,0,0,0+1+2,open,\n";
    for before in ["", "meteragg journal 1\nrounds,"].iter() {
        let case = (*before, "", said, COLLECTED, report);
        check_course(&rt, alloc, COLLECT, case, before)?;
    }
    Ok(())
}

// Each row: the words, the journal, the failing call of the desk and of the wire, the status, and the complaint.
static REFUSED: [(&str, &str, u64, u64, u8, &str); 19] = [
    (
        COLLECT,
        "meteragg journal 2\n",
        9,
        99,
        7,
        "j.txt line 1: Head",
    ),
    (
        COLLECT,
        "meteragg journal 1\nrounds,1\nwindows,1,3\n",
        9,
        99,
        7,
        "j.txt line 3: Head",
    ),
    (
        COLLECT,
        "meteragg journal 1\nrounds,1\nwindows,1,2\ngroup,north,3,2\nbegin\nt\nx\n",
        9,
        99,
        7,
        "j.txt line 7: Line",
    ),
    (
        METER,
        "meteragg meter journal 1\nrounds,1\ngroup,0,north,3,2\nself,1\nbegin\n",
        9,
        99,
        7,
        "m0.journal line 4: Head",
    ),
    (
        METER,
        "meteragg meter journal 1\nrounds,1\ngroup,0,north,3,2\nself,0\nbegin\nr,0,10\nr,0,10\n",
        9,
        99,
        7,
        "m0.journal line 7: Line",
    ),
    (COLLECT, "", 0, 99, 3, "cannot read public.csv"),
    (METER, "", 0, 99, 3, "cannot read m0.csv"),
    (COLLECT, "", 1, 99, 4, "cannot write report.csv"),
    (
        "collect m0.csv j.txt report.csv",
        "",
        9,
        99,
        5,
        "m0.csv row 1: Row",
    ),
    (
        "meter public.csv m0.journal",
        "",
        9,
        99,
        5,
        "public.csv row 1: Row",
    ),
    (COLLECT, "", 9, 0, 3, "cannot read j.txt"),
    (METER, "", 9, 0, 3, "cannot read m0.journal"),
    // Once it is open, it is emptied, gets its head, and is flushed; then an empty line is said, and that the program is ready.
    (COLLECT, "", 9, 1, 4, "cannot write j.txt"),
    (METER, "", 9, 3, 4, "cannot write m0.journal"),
    (METER, "", 9, 4, 4, "cannot print"),
    // Then a line is heard, and answered.
    (COLLECT, "", 9, 6, 3, "cannot read input"),
    (METER, "", 9, 6, 3, "cannot read input"),
    (COLLECT, "", 9, 7, 4, "cannot print"),
    // At the end of the input the journal is flushed, and the summary said.
    (COLLECT, "", 9, 9, 4, "cannot write j.txt"),
];

#[test]
fn roles_that_stop(rt: HostRuntime) -> Result<(), Fail> {
    let alloc = rt.alloc();
    for case in REFUSED.iter() {
        let (words, journal, desk_fails, wire_fails, status, complaint) = *case;
        let mut outside = outside_of(
            alloc,
            "x\n",
            journal,
            vec![in alloc; desk_fails]?,
            vec![in alloc; wire_fails]?,
        )?;
        let ended = status_of(&rt, alloc, words, &mut outside, &Free)?;
        check_ended(&rt, ended, status, complaint);
        let Outside { desk, wire: _ } = outside;
        check_complaint(&rt, alloc, &desk, complaint, complaint)?;
        check_said(&rt, &desk, "", complaint);
        check_text(&rt, held(&desk, "report.csv"), "nothing", complaint);
    }
    Ok(())
}
