//! The command `audit`: what it confirms, and the first line or row that it doesn't.

use crate::fixtures::{
    NORTH, RUN, Refusal, check_complained, check_refused, check_said, check_status,
    desk_of as run_desk, held, replaced,
};
use desk_outside::MemoryDesk;
use row_fixtures::{PLAIN, PLAIN_OLD};
use std::alloc::Global;
use std::process::Abort;
use std::sync::Wait;
use std::test::Fail;
use std::thread::Threads;

const AUDIT: &str = "audit t.txt report.csv";

const REPORT: &str = "group,round,survivors,missing,outcome,total\nnorth,0,3,-,total,60\n";

// A desk that holds a transcript and a report, and fails these calls.
fn desk_of(
    alloc: Global,
    transcript: &str,
    report: &str,
    failing: Vec<u64>,
) -> Result<MemoryDesk, Fail> {
    let mut desk = MemoryDesk::new(failing);
    desk.place("t.txt", transcript.as_bytes())?;
    desk.place("report.csv", report.as_bytes())?;
    Ok(desk)
}

// Each row: its name, what stands in the transcript and what in its place, the same of the report, the status, and what is
// then complained, or said where the status is 0.
static AUDITS: [(&str, &str, &str, &str, &str, u8, &str); 27] = [
    ("unchanged", "", "", "", "", 0, "audit: rows=1 totals=1"),
    (
        "total_61_reported",
        "",
        "",
        "total,60",
        "total,61",
        9,
        "row 1: from frames north,0,3,-,total,60, reported north,0,3,-,total,61",
    ),
    (
        "report without its row",
        "",
        "",
        "north,0,3,-,total,60\n",
        "",
        9,
        "row 1: from frames north,0,3,-,total,60, reported nothing",
    ),
    (
        "report with a row too many",
        "",
        "",
        "north,0,3,-,total,60\n",
        "north,0,3,-,total,60\nnorth,1,0,-,open,\n",
        9,
        "row 2: from frames nothing, reported north,1,0,-,open,",
    ),
    (
        "report with a cut row",
        "",
        "",
        "total,60\n",
        "total,60",
        7,
        "report.csv line 2: Line",
    ),
    (
        "report without its heading",
        "",
        "",
        "group,round",
        "group;round",
        7,
        "report.csv line 1: Line",
    ),
    (
        "a bad report before an impossible line",
        "1,t,0,0,r,0,fresh",
        "1,t,0,0,r,0,again",
        "total,60\n",
        "total,60",
        7,
        "report.csv line 2: Line",
    ),
    (
        "audit_without_end_line",
        "end,20\n",
        "",
        "",
        "",
        7,
        "t.txt line 26: NoEnd",
    ),
    (
        "again_for_fresh",
        "1,t,0,0,r,0,fresh",
        "1,t,0,0,r,0,again",
        "",
        "",
        7,
        "t.txt line 9: impossible",
    ),
    (
        "late for fresh",
        "2,t,0,0,m,1,fresh",
        "2,t,0,0,m,1,late",
        "",
        "",
        7,
        "t.txt line 17: impossible",
    ),
    (
        "void for fresh",
        "3,t,0,0,a,2,fresh",
        "3,t,0,0,a,2,void",
        "",
        "",
        7,
        "t.txt line 24: impossible",
    ),
    (
        "word_raised_by_1",
        "b0b9d4e209a2296c",
        "b0b9d4e209a2296d",
        "",
        "",
        7,
        "t.txt line 25: impossible",
    ),
    (
        "word_raised_by_half",
        "b0b9d4e209a2296c",
        "30b9d4e209a2296c",
        "",
        "",
        7,
        "t.txt line 21: impossible",
    ),
    (
        "another total",
        "3,e,0,0,total,60",
        "3,e,0,0,total,61",
        "",
        "",
        7,
        "t.txt line 25: impossible",
    ),
    (
        "an end without a total",
        "3,e,0,0,total,60",
        "3,e,0,0,none,1",
        "",
        "",
        7,
        "t.txt line 25: impossible",
    ),
    (
        "a thin end",
        "3,e,0,0,total,60",
        "3,e,0,0,thin,-",
        "",
        "",
        7,
        "t.txt line 25: impossible",
    ),
    (
        "a closing with a missing meter",
        "1,c,0,0,announced,-",
        "1,c,0,0,announced,2",
        "",
        "",
        7,
        "t.txt line 12: impossible",
    ),
    (
        "a thin closing",
        "1,c,0,0,announced,-",
        "1,c,0,0,thin,-",
        "",
        "",
        7,
        "t.txt line 12: impossible",
    ),
    (
        "a second closing",
        "1,c,0,0,announced,-",
        "1,c,0,0,already,-",
        "",
        "",
        7,
        "t.txt line 12: impossible",
    ),
    (
        "an announcement without a frame",
        "1,s,0,0,m,0,1,4d020200000000000000000000000000000000000000000000000000000000000000000000000000000000000000000000000000",
        "1,s,0,0,m,0,-,void",
        "",
        "",
        7,
        "t.txt line 13: impossible",
    ),
    (
        "a taken reading without a frame",
        "0,s,0,0,r,0,1,4d02010000000000000000000000000000000000000000000000000000000000000000000000000000000000b0b9d4e209a2296c",
        "0,s,0,0,r,0,-,void",
        "",
        "",
        7,
        "t.txt line 9: impossible",
    ),
    (
        "an announcement with another set",
        "1,s,0,0,m,0,1,4d02020000000000000000000000000000000000000000000000000000000000000000000000000000000000",
        "1,s,0,0,m,0,1,4d02020000000000000000000000000000000000000000000000000000000000000000000000000000000004",
        "",
        "",
        7,
        "t.txt line 13: impossible",
    ),
    (
        "an answer before its announcement came",
        "2,t,0,0,m,0,fresh\n",
        "2,t,0,0,r,0,again\n",
        "",
        "",
        7,
        "t.txt line 19: impossible",
    ),
    (
        "another tick and another fate",
        "2,s,0,0,a,2,1,",
        "2,s,0,0,a,2,3+16,",
        "",
        "",
        0,
        "audit: rows=1 totals=1",
    ),
    (
        "a transcript of version 1",
        "transcript 2",
        "transcript 1",
        "",
        "",
        7,
        "t.txt line 1: Head",
    ),
    (
        "survivors miscounted",
        "",
        "",
        "0,3,-",
        "0,2,-",
        9,
        "row 1: from frames north,0,3,-,total,60, reported north,0,2,-,total,60",
    ),
    (
        "an open round",
        "3,e,0,0,total,60\nend,20",
        "end,19",
        "total,60",
        "open,",
        0,
        "audit: rows=1 totals=0",
    ),
];

// Audits what a desk holds, of which this is said.
fn check_confirmed(
    rt: &(impl Threads + Wait + Abort + Sync),
    alloc: Global,
    desk: &mut MemoryDesk,
    text: &str,
    name: &str,
) -> Result<(), Fail> {
    check_status(rt, alloc, AUDIT, desk, 0, name)?;
    let wanted = format!(in alloc; "{text}\n")?;
    check_said(rt, desk, &wanted, name);
    check_complained(rt, desk, "", name);
    Ok(())
}

// Audits what a desk holds, with this end: its status, and what is then complained, or said where the status is 0.
fn check_audit(
    rt: &(impl Threads + Wait + Abort + Sync),
    alloc: Global,
    desk: &mut MemoryDesk,
    status: u8,
    text: &str,
    name: &str,
) -> Result<(), Fail> {
    if status == 0 {
        return check_confirmed(rt, alloc, desk, text, name);
    }
    let refusal = Refusal {
        status,
        complaint: text,
    };
    check_refused(rt, alloc, AUDIT, desk, refusal, name)?;
    check_said(rt, desk, "", name);
    Ok(())
}

// The most bytes of a piece in which a transcript comes: fewer than any line has, more than some, and all.
const PIECES: [usize; 3] = [5, 90, usize::MAX];

#[test]
fn audits(rt: HostRuntime) -> Result<(), Fail> {
    let alloc = rt.alloc();
    for case in AUDITS.iter() {
        let (name, there, instead, row, other, status, text) = *case;
        let transcript = replaced(alloc, PLAIN, there, instead)?;
        let report = replaced(alloc, REPORT, row, other)?;
        for piece_bytes in PIECES {
            let desk = desk_of(alloc, &transcript, &report, Vec::new(alloc))?;
            let mut desk = desk.with_pieces(piece_bytes);
            check_audit(&rt, alloc, &mut desk, status, text, name)?;
        }
    }
    Ok(())
}

// `raised_word_explained`: the readings 11, 20 and 30 explain the raised word. And a text of version 1 is no transcript.
#[test]
fn explained_and_old(rt: HostRuntime) -> Result<(), Fail> {
    let alloc = rt.alloc();
    let raised = replaced(alloc, PLAIN, "b0b9d4e209a2296c", "b0b9d4e209a2296d")?;
    let raised = replaced(alloc, &raised, "total,60", "total,61")?;
    let report = replaced(alloc, REPORT, "total,60", "total,61")?;
    for (transcript, report, status) in [
        (raised.as_str(), report.as_str(), 0),
        (PLAIN_OLD, REPORT, 7),
    ] {
        let mut desk = desk_of(alloc, transcript, report, Vec::new(alloc))?;
        check_status(&rt, alloc, AUDIT, &mut desk, status, report)?;
    }
    Ok(())
}

// Each row: the failing call, the status, and the complaint.
static FAILURES: [(u64, u8, &str); 3] = [
    (0, 3, "cannot read t.txt"),
    (1, 3, "cannot read report.csv"),
    (2, 4, "cannot print"),
];

#[test]
fn failing_calls_of_audit(rt: HostRuntime) -> Result<(), Fail> {
    let alloc = rt.alloc();
    for case in FAILURES.iter() {
        let (failing, status, complaint) = *case;
        let mut desk = desk_of(alloc, PLAIN, REPORT, vec![in alloc; failing]?)?;
        check_refused(
            &rt,
            alloc,
            AUDIT,
            &mut desk,
            Refusal { status, complaint },
            complaint,
        )?;
    }
    Ok(())
}

// A transcript of two rounds, with a reading of meter 2 more in the first, of which it is no member.
fn with_further_frame(alloc: Global, text: &str) -> Result<String, Fail> {
    let further =
        "\n0,s,0,0,r,2,1,4d020102000000000000000000000000000000000000000000000000000000000000000000000000000000000000000000000001\n1,t,";
    let text = replaced(alloc, text, "\n1,t,", further)?;
    replaced(alloc, &text, "end,34", "end,35")
}

// The desk of a run of two rounds, of which meter 2 is a member of the second alone.
fn desk_after_run(
    rt: &(impl Threads + Wait + Abort + Sync),
    alloc: Global,
) -> Result<MemoryDesk, Fail> {
    let rows = format!(in alloc; "rounds,2\nwindows,1,2\n{NORTH}member,0,2,1,2\n")?;
    let readings = "north,0,10,20,\nnorth,1,1,2,3\n";
    let mut desk = run_desk(alloc, &rows, readings, Vec::new(alloc))?;
    check_status(rt, alloc, RUN, &mut desk, 0, RUN)?;
    Ok(desk)
}

// A reading of a meter that is no member of the round can't be explained, whatever its frame.
#[test]
fn frame_of_no_member(rt: HostRuntime) -> Result<(), Fail> {
    let alloc = rt.alloc();
    let mut desk = desk_after_run(&rt, alloc)?;
    let text = with_further_frame(alloc, held(&desk, "t.txt"))?;
    desk.place("t.txt", text.as_bytes())?;
    let complaint = "t.txt line 9: impossible";
    check_refused(
        &rt,
        alloc,
        AUDIT,
        &mut desk,
        Refusal {
            status: 7,
            complaint,
        },
        complaint,
    )
}
