//! A head end of the plain case over a wire in memory.

use crate::wires::{ANNOUNCED_TO_0, ANSWER_OF_0, READING_OF_0, check, said, text};
use apart_lines::journal_head;
use apart_roles::{
    Pause, Start, report_text, run_head_end, say_reported, say_summary, start_head_end,
};
use desk_outside::MemoryWire;
use row_fixtures::plan_of_north;
use std::alloc::Global;
use std::process::Abort;
use std::test::Fail;

// What meters 1 and 2 say in the plain case, what is announced to them, and what a head end notes of each meter.
static READING_OF_1: &str =
    "frame,4d02010100000000000000000000000000000000000000000000000000000000000000000000000000000000903df1a0ade0b88a\n";

static READING_OF_2: &str =
    "frame,4d020102000000000000000000000000000000000000000000000000000000000000000000000000000000006fc20e5f521f47a8\n";

static ANNOUNCED_TO_1: &str =
    "frame,4d020201000000000000000000000000000000000000000000000000000000000000000000000000000000000000000000000000\n";

static ANNOUNCED_TO_2: &str =
    "frame,4d020202000000000000000000000000000000000000000000000000000000000000000000000000000000000000000000000000\n";

static ANSWER_OF_1: &str =
    "frame,4d02030100000000000000000000000000000000000000000000000000000000000000000000000000000000903df1a0ade0b876\n";

static ANSWER_OF_2: &str =
    "frame,4d02030200000000000000000000000000000000000000000000000000000000000000000000000000000000903df1a0ade0b876\n";

static READING_NOTED_OF_0: &str =
    "f,4d02010000000000000000000000000000000000000000000000000000000000000000000000000000000000b0b9d4e209a2296c\n";

static READING_NOTED_OF_1: &str =
    "f,4d02010100000000000000000000000000000000000000000000000000000000000000000000000000000000903df1a0ade0b88a\n";

static READING_NOTED_OF_2: &str =
    "f,4d020102000000000000000000000000000000000000000000000000000000000000000000000000000000006fc20e5f521f47a8\n";

static ANSWER_NOTED_OF_0: &str =
    "f,4d02030000000000000000000000000000000000000000000000000000000000000000000000000000000000903df1a0ade0b876\n";

static ANSWER_NOTED_OF_1: &str =
    "f,4d02030100000000000000000000000000000000000000000000000000000000000000000000000000000000903df1a0ade0b876\n";

static ANSWER_NOTED_OF_2: &str =
    "f,4d02030200000000000000000000000000000000000000000000000000000000000000000000000000000000903df1a0ade0b876\n";

// The journal with these lines behind its head.
fn journal(alloc: Global, lines: &[&str]) -> Result<Vec<u8>, Fail> {
    let plan = plan_of_north(alloc, 1)?;
    let mut journal = journal_head(alloc, &plan)?;
    journal.extend_from_slice(&text(alloc, lines)?)?;
    Ok(journal)
}

// Starts the head end over the wire, hands it the input, of which one line may ask for the report, and gives the report at its end;
// nothing where a call fails.
fn collect(alloc: Global, wire: &mut MemoryWire) -> Result<Option<Vec<u8>>, Fail> {
    let plan = plan_of_north(alloc, 1)?;
    let Ok(Start::Ready(started)) = start_head_end(alloc, wire, "j.txt", &plan) else {
        return Ok(None);
    };
    let mut head = started;
    match run_head_end(alloc, wire, &mut head) {
        Ok(Pause::Over) => {}
        Ok(Pause::Report) => {
            if say_reported(alloc, wire, &head).is_err()
                || run_head_end(alloc, wire, &mut head).is_err()
            {
                return Ok(None);
            }
        }
        Err(_) => return Ok(None),
    }
    if say_summary(alloc, wire, &head).is_err() {
        return Ok(None);
    }
    Ok(Some(report_text(alloc, &head)?))
}

// Asks what a head end with this journal says to this input, what its journal has then, and its report.
fn check_course(
    rt: &impl Abort,
    alloc: Global,
    before: &[&str],
    input: &[&str],
    expected: &[&str],
    after: &[&str],
    row: &str,
) -> Result<Vec<u8>, Fail> {
    let mut wire = MemoryWire::new(
        Vec::new(alloc),
        text(alloc, input)?,
        journal(alloc, before)?,
    );
    let report = collect(alloc, &mut wire)?.ok_or("a failed call")?;
    check(rt, said(alloc, &wire)? == text(alloc, expected)?, row);
    check(rt, wire.journal() == journal(alloc, after)?.as_slice(), row);
    Ok(report)
}

#[test]
fn head_end_alone(rt: HostRuntime) -> Result<(), Fail> {
    let alloc = rt.alloc();
    let report = check_course(
        &rt,
        alloc,
        &[],
        &[
            "tick,0\n",
            READING_OF_0,
            READING_OF_1,
            READING_OF_2,
            "tick,1\n",
            ANSWER_OF_0,
            ANSWER_OF_1,
            ANSWER_OF_2,
            "tick,2\n",
            "tick,3\n",
        ],
        &[
            "\nready,0\nticked,0\nfresh\nfresh\nfresh\nclosed,north,0,3,-,announced\n",
            ANNOUNCED_TO_0,
            ANNOUNCED_TO_1,
            ANNOUNCED_TO_2,
            "ticked,1\nfresh\nfresh\nfresh\nticked,2\nrow,north,0,3,-,total,60\nticked,3\n",
            "rounds=1 totals=1 none=0 thin=0 open=0\n",
        ],
        &[
            "t\n",
            READING_NOTED_OF_0,
            READING_NOTED_OF_1,
            READING_NOTED_OF_2,
            "t\n",
            ANSWER_NOTED_OF_0,
            ANSWER_NOTED_OF_1,
            ANSWER_NOTED_OF_2,
            "t\nt\n",
        ],
        "head_end_alone",
    )?;
    let total = b"group,round,survivors,missing,outcome,total\nnorth,0,3,-,total,60\n";
    check(&rt, report.as_slice() == total.as_slice(), "the report");
    Ok(())
}

#[test]
fn killed_after_the_second_tick(rt: HostRuntime) -> Result<(), Fail> {
    let alloc = rt.alloc();
    check_course(
        &rt,
        alloc,
        &[
            "t\n",
            READING_NOTED_OF_0,
            READING_NOTED_OF_1,
            READING_NOTED_OF_2,
            "t\nf,4d02",
        ],
        &[
            "tick,1\n",
            ANSWER_OF_0,
            ANSWER_OF_1,
            ANSWER_OF_2,
            "tick,2\n",
            "tick,3\ntick,4\n",
        ],
        &[
            "\nready,2\nclosed,north,0,3,-,announced\n",
            ANNOUNCED_TO_0,
            ANNOUNCED_TO_1,
            ANNOUNCED_TO_2,
            "ticked,1\nfresh\nfresh\nfresh\nticked,2\nrow,north,0,3,-,total,60\nticked,3\nticked,4\n",
            "rounds=1 totals=1 none=0 thin=0 open=0\n",
        ],
        &[
            "t\n",
            READING_NOTED_OF_0,
            READING_NOTED_OF_1,
            READING_NOTED_OF_2,
            "t\n",
            ANSWER_NOTED_OF_0,
            ANSWER_NOTED_OF_1,
            ANSWER_NOTED_OF_2,
            "t\nt\n",
        ],
        "killed_after_the_second_tick",
    )?;
    Ok(())
}

#[test]
fn asked_again(rt: HostRuntime) -> Result<(), Fail> {
    let alloc = rt.alloc();
    let report = check_course(
        &rt,
        alloc,
        &[
            "t\n",
            READING_NOTED_OF_0,
            READING_NOTED_OF_1,
            READING_NOTED_OF_2,
            "t\n",
        ],
        &[ANSWER_OF_0, "report\n", "again\n", READING_OF_0],
        &[
            "\nready,2\nfresh\nreported\n",
            ANNOUNCED_TO_1,
            ANNOUNCED_TO_2,
            "ready,2\nagain\nrounds=1 totals=0 none=0 thin=0 open=1\n",
        ],
        &[
            "t\n",
            READING_NOTED_OF_0,
            READING_NOTED_OF_1,
            READING_NOTED_OF_2,
            "t\n",
            ANSWER_NOTED_OF_0,
        ],
        "asked_again",
    )?;
    let open = b"group,round,survivors,missing,outcome,total\nnorth,0,3,-,open,\n";
    check(&rt, report.as_slice() == open.as_slice(), "the report");
    Ok(())
}

#[test]
fn bad_lines(rt: HostRuntime) -> Result<(), Fail> {
    let alloc = rt.alloc();
    let other_word =
        "frame,4d02010000000000000000000000000000000000000000000000000000000000000000000000000000000000b0b9d4e209a2296d\n";
    let no_meter =
        "frame,4d020103000000000000000000000000000000000000000000000000000000000000000000000000000000006fc20e5f521f47a8\n";
    let no_frame =
        "frame,4e020103000000000000000000000000000000000000000000000000000000000000000000000000000000006fc20e5f521f47a8\n";
    check_course(
        &rt,
        alloc,
        &[],
        &[
            "tick,01\ntick,1\ntick,0\r\n\nfresh\nagain,1\nready,7\nagain\r\nframe,4d\nx\n",
            READING_OF_0,
            other_word,
            no_meter,
            no_frame,
            ANNOUNCED_TO_0,
            ANSWER_OF_0,
            "tick,0\ntick,1\n",
            READING_OF_1,
            "tick,9\n",
            "tick,2",
        ],
        &[
            "\nready,0\nrefused,Line\nrefused,Tick\nrefused,Line\nrefused,Line\nrefused,Line\nrefused,Line\n",
            "fresh\ndiffers\nrefused,Plan\nrefused,Magic\nrefused,Announcement\nvoid\n",
            "ticked,0\nclosed,north,0,1,1+2,thin\nticked,1\nlate\nrefused,Tick\n",
            "rounds=1 totals=0 none=0 thin=0 open=1\n",
        ],
        &[READING_NOTED_OF_0, "t\nt\n"],
        "bad lines",
    )?;
    Ok(())
}

// The line of a journal at which a start ends, by a wrong head or by a wrong line behind it.
fn wrong_line(alloc: Global, journal: Vec<u8>) -> Result<Option<(bool, u64)>, Fail> {
    let plan = plan_of_north(alloc, 1)?;
    let mut wire = MemoryWire::new(Vec::new(alloc), Vec::new(alloc), journal);
    match start_head_end(alloc, &mut wire, "j.txt", &plan) {
        Ok(Start::Head(line)) => Ok(Some((true, line))),
        Ok(Start::Line(line)) => Ok(Some((false, line))),
        Ok(_) => Ok(None),
        Err(_) => Ok(None),
    }
}

#[test]
fn wrong_journals(rt: HostRuntime) -> Result<(), Fail> {
    let alloc = rt.alloc();
    let late = journal(alloc, &["t\nt\n", READING_NOTED_OF_0])?;
    check(&rt, wrong_line(alloc, late)? == Some((false, 8)), "late");
    let twice = journal(alloc, &[READING_NOTED_OF_0, READING_NOTED_OF_0])?;
    check(&rt, wrong_line(alloc, twice)? == Some((false, 7)), "twice");
    let form = journal(alloc, &[READING_NOTED_OF_0, "g\n", READING_NOTED_OF_1])?;
    check(&rt, wrong_line(alloc, form)? == Some((false, 7)), "form");
    let other = Vec::from_slice(alloc, b"meteragg journal 1\nrounds,2\n")?;
    check(&rt, wrong_line(alloc, other)? == Some((true, 2)), "head");
    let begun = Vec::from_slice(alloc, b"meteragg journal 1\nrounds")?;
    check(&rt, wrong_line(alloc, begun)? == None, "begun");
    Ok(())
}

#[test]
fn each_head_end_call_fails(rt: HostRuntime) -> Result<(), Fail> {
    let alloc = rt.alloc();
    for number in 0..17u64 {
        let mut failing = Vec::new(alloc);
        failing.push(number)?;
        let input = text(alloc, &[READING_OF_0, "tick,0\n"])?;
        let mut wire = MemoryWire::new(failing, input, journal(alloc, &[])?);
        let is_done = collect(alloc, &mut wire)?.is_some();
        check(&rt, is_done == (number > 15), "a failed call");
    }
    Ok(())
}
