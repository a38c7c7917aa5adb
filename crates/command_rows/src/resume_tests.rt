//! The command `resume`: cuts of the plain case, and cuts that are none of it.

use crate::fixtures::{
    HEAD, NORTH, READINGS, Refusal, check_complained, check_refused, check_said, check_status,
    check_stored, check_text, desk_of, held, replaced,
};
use desk_outside::MemoryDesk;
use row_fixtures::PLAIN;
use std::alloc::Global;
use std::process::Abort;
use std::sync::Wait;
use std::test::Fail;
use std::thread::Threads;

const RESUME: &str = "resume plan.csv readings.csv cut.txt report.csv t.txt";

const REPORT: &str = "group,round,survivors,missing,outcome,total\nnorth,0,3,-,total,60\n";

const SUMMARY: &str = "rounds=1 totals=1 none=0 thin=0 sends=9 takes=9\n";

// The first lines of the plain case's transcript, and more behind them.
fn cut_after(alloc: Global, lines: usize, more: &str) -> Result<String, Fail> {
    let mut text = String::new(alloc);
    for line in PLAIN.lines().take(lines) {
        text.push_str(line)?;
        text.push('\n')?;
    }
    text.push_str(more)?;
    Ok(text)
}

// The plain case's files, and a cut.
fn desk_with(alloc: Global, cut: &str) -> Result<MemoryDesk, Fail> {
    let rows = format!(in alloc; "{HEAD}{NORTH}")?;
    let mut desk = desk_of(alloc, &rows, READINGS, Vec::new(alloc))?;
    desk.place("cut.txt", cut.as_bytes())?;
    Ok(desk)
}

// Goes on from a cut to the plain case's report and this transcript.
fn check_resumed(
    rt: &(impl Threads + Wait + Abort + Sync),
    alloc: Global,
    cut: &str,
    transcript: &str,
    row: &str,
) -> Result<(), Fail> {
    let mut desk = desk_with(alloc, cut)?;
    check_status(rt, alloc, RESUME, &mut desk, 0, row)?;
    check_text(rt, held(&desk, "report.csv"), REPORT, row);
    check_text(rt, held(&desk, "t.txt"), transcript, row);
    check_said(rt, &desk, SUMMARY, row);
    check_complained(rt, &desk, "", row);
    Ok(())
}

// From the head alone to the whole text.
#[test]
fn cut_after_each_line(rt: HostRuntime) -> Result<(), Fail> {
    let alloc = rt.alloc();
    for lines in 5..27 {
        let cut = cut_after(alloc, lines, "")?;
        check_resumed(&rt, alloc, &cut, PLAIN, "a line")?;
    }
    Ok(())
}

#[test]
fn cut_within_line_14(rt: HostRuntime) -> Result<(), Fail> {
    let alloc = rt.alloc();
    let cut = cut_after(alloc, 13, "1,s,0,0,m,1,1,4d02")?;
    check_resumed(&rt, alloc, &cut, PLAIN, "line 14")
}

// The order of a cut's Takes stays.
#[test]
fn takes_in_another_order(rt: HostRuntime) -> Result<(), Fail> {
    let alloc = rt.alloc();
    let there = "1,t,0,0,r,0,fresh\n1,t,0,0,r,1,fresh\n1,t,0,0,r,2,fresh\n";
    let instead = "1,t,0,0,r,2,fresh\n1,t,0,0,r,0,fresh\n1,t,0,0,r,1,fresh\n";
    let transcript = replaced(alloc, PLAIN, there, instead)?;
    let cut = cut_after(alloc, 8, "1,t,0,0,r,2,fresh\n")?;
    check_resumed(&rt, alloc, &cut, &transcript, "a Take")
}

// What stands in the plain case's transcript, what the cut has instead, and the complaint.
static REFUSED: [(&str, &str, &str); 6] = [
    (
        "1,s,0,0,m,0,1,",
        "1,s,0,0,m,0,2,",
        "cut.txt line 13: not this run",
    ),
    (
        "1,t,0,0,r,0,fresh\n",
        "1,t,0,0,r,0,again\n",
        "cut.txt line 9: not this run",
    ),
    (
        "1,t,0,0,r,2,fresh\n",
        "1,t,0,0,r,1,again\n",
        "cut.txt line 11: not this run",
    ),
    (
        "3,e,0,0,total,60",
        "3,e,0,0,total,61",
        "cut.txt line 25: not this run",
    ),
    ("windows,1,2", "windows,1,3", "cut.txt: other plan"),
    ("begin\n", "", "cut.txt line 5: Head"),
];

#[test]
fn refused_cuts(rt: HostRuntime) -> Result<(), Fail> {
    let alloc = rt.alloc();
    for (there, instead, complaint) in REFUSED.iter() {
        let cut = replaced(alloc, PLAIN, there, instead)?;
        let mut desk = desk_with(alloc, &cut)?;
        check_refused(
            &rt,
            alloc,
            RESUME,
            &mut desk,
            Refusal {
                status: 7,
                complaint,
            },
            complaint,
        )?;
        check_stored(&rt, &desk, "t.txt", false, complaint);
        check_stored(&rt, &desk, "report.csv", false, complaint);
    }
    Ok(())
}

#[test]
fn cut_before_begin(rt: HostRuntime) -> Result<(), Fail> {
    let alloc = rt.alloc();
    let cut = cut_after(alloc, 4, "")?;
    let mut desk = desk_with(alloc, &cut)?;
    check_refused(
        &rt,
        alloc,
        RESUME,
        &mut desk,
        Refusal {
            status: 7,
            complaint: "cut.txt line 5: Head",
        },
        "no begin",
    )
}
