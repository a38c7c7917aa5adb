//! The commands `bill` and `hide`: the bills of a period, the readings that hide another behind them, and what is refused.

use crate::fixtures::{
    NORTH, RUN, Refusal, check, check_calls, check_refused, check_said, check_status, check_stored,
    check_text, desk_of, held,
};
use desk_outside::MemoryDesk;
use row_fixtures::PLAIN;
use std::alloc::Global;
use std::process::Abort;
use std::sync::Wait;
use std::test::Fail;
use std::thread::Threads;

/// Two rounds with windows of 1 and 2 ticks.
const TWO_ROUNDS: &str = "rounds,2\nwindows,1,2\n";

/// The plain readings, and those of a second round.
const BOTH: &str = "north,0,10,20,30\nnorth,1,1,2,3\n";

// A desk that holds a plan of two rounds and these readings, and fails these calls.
fn desk_of_two(
    alloc: Global,
    lanes: &str,
    readings: &str,
    failing: Vec<u64>,
) -> Result<MemoryDesk, Fail> {
    let rows = format!(in alloc; "{TWO_ROUNDS}{NORTH}{lanes}")?;
    desk_of(alloc, &rows, readings, failing)
}

// Each row: its name, the readings, the period, and the lines of the bills behind the heading.
static BILLS: [(&str, &str, &str, &str); 4] = [
    (
        "bills_of_two_rounds",
        BOTH,
        "0 2",
        "north,0,0,2,2,11\nnorth,1,0,2,2,22\nnorth,2,0,2,2,33\n",
    ),
    (
        "the second round, which a meter has no reading in",
        "north,0,10,20,30\nnorth,1,1,,3\n",
        "1 2",
        "north,0,1,2,1,1\nnorth,1,1,2,0,0\nnorth,2,1,2,1,3\n",
    ),
    (
        "a period beyond the last round",
        BOTH,
        "1 4096",
        "north,0,1,4096,1,1\nnorth,1,1,4096,1,2\nnorth,2,1,4096,1,3\n",
    ),
    (
        "a period behind the last round",
        BOTH,
        "2 3",
        "north,0,2,3,0,0\nnorth,1,2,3,0,0\nnorth,2,2,3,0,0\n",
    ),
];

// Asks for the bills of a period, and looks for their lines.
fn check_bills(
    rt: &(impl Threads + Wait + Abort + Sync),
    alloc: Global,
    readings: &str,
    period: &str,
    lines: &str,
    name: &str,
) -> Result<(), Fail> {
    let mut desk = desk_of_two(alloc, "", readings, Vec::new(alloc))?;
    let words = format!(in alloc; "bill plan.csv readings.csv {period} bills.csv")?;
    check_status(rt, alloc, &words, &mut desk, 0, name)?;
    let text = format!(in alloc; "group,meter,from,until,readings,sum\n{lines}")?;
    check_text(rt, held(&desk, "bills.csv"), &text, name);
    check_said(rt, &desk, "bills=3\n", name);
    Ok(())
}

#[test]
fn bills(rt: HostRuntime) -> Result<(), Fail> {
    for case in BILLS.iter() {
        let (name, readings, period, lines) = *case;
        check_bills(&rt, rt.alloc(), readings, period, lines, name)?;
    }
    Ok(())
}

// Each row: its name, the lane rows of the run, the readings, the period and the place, the other readings, and what is said.
static HIDDEN: [(&str, &str, &str, &str, &str, &str); 6] = [
    (
        "hidden_by_a_partner",
        "",
        BOTH,
        "0 2 0 0 0",
        "north,0,11,19,30\nnorth,1,0,3,3\n",
        "hidden: round=1 meter=1\n",
    ),
    (
        "a reading of 0 can't fall, so another meter is the partner",
        "",
        "north,0,10,0,30\nnorth,1,1,0,3\n",
        "0 2 0 0 0",
        "north,0,11,0,29\nnorth,1,0,0,4\n",
        "hidden: round=1 meter=2\n",
    ),
    (
        "minus, where plus lets a reading fall below 0",
        "",
        "north,0,10,0,30\nnorth,1,0,5,0\n",
        "0 2 0 0 0",
        "north,0,9,1,30\nnorth,1,1,4,0\n",
        "hidden: round=1 meter=1\n",
    ),
    (
        "minus, where plus lets a reading rise to 2^40",
        "",
        "north,0,1099511627775,20,30\nnorth,1,1,2,3\n",
        "0 2 0 0 0",
        "north,0,1099511627774,21,30\nnorth,1,2,1,3\n",
        "hidden: round=1 meter=1\n",
    ),
    (
        "survivors change with each other",
        "lane,rules,0.0.r.2=2,0,0\n",
        BOTH,
        "0 2 0 1 0",
        "north,0,9,21,30\nnorth,1,2,1,3\n",
        "hidden: round=0 meter=1\n",
    ),
    (
        "in a round that isn't opened a late reading changes with one in time",
        "lane,rules,0.0.r.2=2;0.0.m.1=-,0,36\n",
        BOTH,
        "0 2 0 0 2",
        "north,0,9,20,31\nnorth,1,2,2,2\n",
        "hidden: round=1 meter=0\n",
    ),
];

// Hides a place of a run, looks for the other readings, and gives them to `twin`, for which words move.
fn check_hidden(
    rt: &(impl Threads + Wait + Abort + Sync),
    alloc: Global,
    desk: &mut MemoryDesk,
    place: &str,
    other: &str,
    said: &str,
    name: &str,
) -> Result<(), Fail> {
    check_status(rt, alloc, RUN, desk, 0, name)?;
    let words = format!(in alloc; "hide plan.csv readings.csv t.txt {place} other.csv")?;
    check_status(rt, alloc, &words, desk, 0, name)?;
    check_text(rt, held(desk, "other.csv"), other, name);
    check(rt, desk.said().ends_with(said.as_bytes()), name);
    check_status(
        rt,
        alloc,
        "twin plan.csv readings.csv other.csv t.txt masks.txt",
        desk,
        0,
        name,
    )?;
    check(rt, !desk.said().ends_with(b"moved=0\n"), name);
    Ok(())
}

#[test]
fn hidden(rt: HostRuntime) -> Result<(), Fail> {
    let alloc = rt.alloc();
    for case in HIDDEN.iter() {
        let (name, lanes, readings, place, other, said) = *case;
        let mut desk = desk_of_two(alloc, lanes, readings, Vec::new(alloc))?;
        check_hidden(&rt, alloc, &mut desk, place, other, said, name)?;
    }
    Ok(())
}

// Each row: its name, the lane rows of the run, the readings, the period and the place, and the complaint.
static ALONE: [(&str, &str, &str, &str, &str); 9] = [
    ("alone_in_one_round", "", BOTH, "0 1 0 0 0", "alone 0 0 0"),
    (
        "a round behind the period",
        "",
        BOTH,
        "0 1 0 1 0",
        "alone 0 1 0",
    ),
    (
        "a round before the period",
        "",
        BOTH,
        "1 2 0 0 0",
        "alone 0 0 0",
    ),
    (
        "a round outside the plan",
        "",
        BOTH,
        "0 4096 0 2 0",
        "alone 0 2 0",
    ),
    (
        "a group outside the plan",
        "",
        BOTH,
        "0 2 1 0 0",
        "alone 1 0 0",
    ),
    (
        "a meter outside the plan",
        "",
        BOTH,
        "0 2 0 0 3",
        "alone 0 0 3",
    ),
    (
        "an absent reading",
        "",
        "north,0,,20,30\nnorth,1,1,2,3\n",
        "0 2 0 0 0",
        "alone 0 0 0",
    ),
    (
        "the one present meter of the period",
        "",
        "north,0,10,,\nnorth,1,1,,\n",
        "0 2 0 0 0",
        "alone 0 0 0",
    ),
    (
        "the one meter that is no survivor of an opened round",
        "lane,rules,0.0.r.2=2,0,0\n",
        BOTH,
        "0 2 0 0 2",
        "alone 0 0 2",
    ),
];

#[test]
fn alone(rt: HostRuntime) -> Result<(), Fail> {
    let alloc = rt.alloc();
    for case in ALONE.iter() {
        let (name, lanes, readings, place, complaint) = *case;
        let mut desk = desk_of_two(alloc, lanes, readings, Vec::new(alloc))?;
        check_status(&rt, alloc, RUN, &mut desk, 0, name)?;
        let words = format!(in alloc; "hide plan.csv readings.csv t.txt {place} other.csv")?;
        check_refused(
            &rt,
            alloc,
            &words,
            &mut desk,
            Refusal {
                status: 11,
                complaint,
            },
            name,
        )?;
        check_stored(&rt, &desk, "other.csv", false, name);
    }
    Ok(())
}

// Each row: its name, the rows of the plan, the readings, the transcript, the status, and the complaint.
static REFUSED: [(&str, &str, &str, &str, u8, &str); 5] = [
    (
        "a bad plan",
        "rounds,0\nwindows,1,2\n",
        BOTH,
        "",
        5,
        "plan.csv row 0: Plan Rounds",
    ),
    (
        "bad readings",
        TWO_ROUNDS,
        "north,0,10,20,30\n",
        "",
        6,
        "readings.csv row 2: Short",
    ),
    (
        "a bad transcript",
        TWO_ROUNDS,
        BOTH,
        "meteragg\n",
        7,
        "t.txt line 1: Head",
    ),
    (
        "a transcript of another plan",
        TWO_ROUNDS,
        BOTH,
        PLAIN,
        7,
        "t.txt: other plan",
    ),
    (
        "a reading without a partner in its own transcript",
        "rounds,1\nwindows,1,2\n",
        "north,0,10,20,30\n",
        PLAIN,
        11,
        "alone 0 0 0",
    ),
];

#[test]
fn hides_refused(rt: HostRuntime) -> Result<(), Fail> {
    let alloc = rt.alloc();
    for case in REFUSED.iter() {
        let (name, head, readings, transcript, status, complaint) = *case;
        let rows = format!(in alloc; "{head}{NORTH}")?;
        let mut desk = desk_of(alloc, &rows, readings, Vec::new(alloc))?;
        desk.place("t.txt", transcript.as_bytes())?;
        let words = "hide plan.csv readings.csv t.txt 0 2 0 0 0 other.csv";
        check_refused(
            &rt,
            alloc,
            words,
            &mut desk,
            Refusal { status, complaint },
            name,
        )?;
        check_calls(&rt, &desk, 4, name);
        check_stored(&rt, &desk, "other.csv", false, name);
    }
    Ok(())
}

// Each row: the words, the failing call, the status, the complaint, and whether the file is stored.
static FAILURES: [(&str, u64, u8, &str, bool); 9] = [
    (
        "bill plan.csv readings.csv 0 2 out.csv",
        0,
        3,
        "cannot read plan.csv",
        false,
    ),
    (
        "bill plan.csv readings.csv 0 2 out.csv",
        1,
        3,
        "cannot read readings.csv",
        false,
    ),
    (
        "bill plan.csv readings.csv 0 2 out.csv",
        2,
        4,
        "cannot write out.csv",
        false,
    ),
    (
        "bill plan.csv readings.csv 0 2 out.csv",
        3,
        4,
        "cannot print",
        true,
    ),
    (
        "hide plan.csv readings.csv t.txt 0 2 0 0 0 out.csv",
        0,
        3,
        "cannot read plan.csv",
        false,
    ),
    (
        "hide plan.csv readings.csv t.txt 0 2 0 0 0 out.csv",
        1,
        3,
        "cannot read readings.csv",
        false,
    ),
    (
        "hide plan.csv readings.csv t.txt 0 2 0 0 0 out.csv",
        2,
        3,
        "cannot read t.txt",
        false,
    ),
    (
        "hide plan.csv readings.csv t.txt 0 2 0 0 0 out.csv",
        3,
        4,
        "cannot write out.csv",
        false,
    ),
    (
        "hide plan.csv readings.csv t.txt 0 2 0 0 0 out.csv",
        4,
        4,
        "cannot print",
        true,
    ),
];

// The head of a transcript of two rounds that have not begun.
const NO_EVENTS: &str =
    "meteragg transcript 2\nrounds,2\nwindows,1,2\ngroup,north,3,2\nbegin\nend,0\n";

// Calls a command at a desk that fails this call.
fn check_failing_call(
    rt: &(impl Threads + Wait + Abort + Sync),
    alloc: Global,
    words: &str,
    failing: u64,
    status: u8,
    complaint: &str,
    stored: bool,
) -> Result<(), Fail> {
    let mut desk = desk_of_two(alloc, "", BOTH, vec![in alloc; failing]?)?;
    desk.place("t.txt", NO_EVENTS.as_bytes())?;
    check_refused(
        rt,
        alloc,
        words,
        &mut desk,
        Refusal { status, complaint },
        complaint,
    )?;
    check_stored(rt, &desk, "out.csv", stored, complaint);
    check_said(rt, &desk, "", complaint);
    Ok(())
}

#[test]
fn failing_calls_of_bill_and_hide(rt: HostRuntime) -> Result<(), Fail> {
    for case in FAILURES.iter() {
        let (words, failing, status, complaint, stored) = *case;
        check_failing_call(&rt, rt.alloc(), words, failing, status, complaint, stored)?;
    }
    Ok(())
}
