//! The command `inspect`: what it counts of runs, and the first line that no run of the public plan has.

use crate::fixtures::{
    HEAD, NORTH, POURED_BYTES, READINGS, RUN, Refusal, check_complained, check_refused, check_said,
    check_status, desk_of as run_desk, held, replaced,
};
use desk_outside::MemoryDesk;
use row_fixtures::PLAIN;
use std::alloc::Global;
use std::process::Abort;
use std::sync::Wait;
use std::test::Fail;
use std::thread::Threads;

const INSPECT: &str = "inspect public.csv t.txt report.csv";

const PUBLIC: &str = "public,1\nrounds,1\nwindows,1,2\ngroup,north,3,2\n";

const REPORT: &str = "group,round,survivors,missing,outcome,total\nnorth,0,3,-,total,60\n";

// A text as it is.
const SAME: (&str, &str) = ("", "");

// The plain transcript behind the last Send.
const AFTER_SENDS: &str =
    "3,t,0,0,a,0,fresh\n3,t,0,0,a,1,fresh\n3,t,0,0,a,2,fresh\n3,e,0,0,total,60\nend,20";

// A desk that holds a public plan, a transcript and a report, and fails these calls.
fn desk_of(
    alloc: Global,
    public: &str,
    transcript: &str,
    report: &str,
    failing: Vec<u64>,
) -> Result<MemoryDesk, Fail> {
    let mut desk = MemoryDesk::new(failing).with_pieces(POURED_BYTES);
    desk.place("public.csv", public.as_bytes())?;
    desk.place("t.txt", transcript.as_bytes())?;
    desk.place("report.csv", report.as_bytes())?;
    Ok(desk)
}

// Each row: its name, what stands in the public plan and what in its place, the same of the transcript, twice, and of the report,
// the status, and what is then complained, or said where the status is 0.
static FILES: [(
    &str,
    (&str, &str),
    ((&str, &str), (&str, &str)),
    (&str, &str),
    u8,
    &str,
); 24] = [
    (
        "unchanged",
        SAME,
        (SAME, SAME),
        SAME,
        0,
        "inspect: rows=1 totals=1 opened=0 least=3",
    ),
    (
        "a public plan with a key",
        ("north,3,2\n", "north,3,2\nown,0,0,00\n"),
        (SAME, SAME),
        SAME,
        5,
        "public.csv row 5: Row",
    ),
    (
        "a bad public plan before a bad transcript",
        ("rounds,1", "rounds,0"),
        (("end,20\n", ""), SAME),
        SAME,
        5,
        "public.csv row 0: Plan Rounds",
    ),
    (
        "a bad transcript before a bad report",
        SAME,
        (("end,20\n", ""), SAME),
        ("total,60\n", "total,60"),
        7,
        "t.txt line 26: NoEnd",
    ),
    (
        "a bad report before another plan",
        ("windows,1,2", "windows,1,3"),
        (SAME, SAME),
        ("total,60\n", "total,60"),
        7,
        "report.csv line 2: Line",
    ),
    (
        "other windows",
        SAME,
        (("windows,1,2", "windows,1,3"), SAME),
        SAME,
        7,
        "t.txt: other plan",
    ),
    (
        "a lower floor",
        ("north,3,2", "north,3,3"),
        (SAME, SAME),
        SAME,
        7,
        "t.txt: other plan",
    ),
    (
        "a group cut from both files",
        ("north,3,2\n", "north,3,2\ngroup,south,2,2\n"),
        (SAME, SAME),
        SAME,
        7,
        "t.txt: other plan",
    ),
    (
        "another plan before an impossible line",
        ("windows,1,2", "windows,1,3"),
        (("1,t,0,0,r,0,fresh", "1,t,0,0,r,0,again"), SAME),
        SAME,
        7,
        "t.txt: other plan",
    ),
    (
        "again for fresh",
        SAME,
        (("1,t,0,0,r,0,fresh", "1,t,0,0,r,0,again"), SAME),
        SAME,
        7,
        "t.txt line 9: impossible",
    ),
    (
        "an impossible line behind one that is not in time",
        SAME,
        (
            ("0,s,0,0,r,1,1,", "0,s,0,0,r,1,-,"),
            ("3,e,0,0,total,60", "3,e,0,0,total,61"),
        ),
        SAME,
        7,
        "t.txt line 25: impossible",
    ),
    (
        "a lost frame that is taken",
        SAME,
        (("0,s,0,0,r,1,1,", "0,s,0,0,r,1,-,"), SAME),
        SAME,
        7,
        "t.txt line 10: not in time",
    ),
    (
        "not in time before another row",
        SAME,
        (("0,s,0,0,r,1,1,", "0,s,0,0,r,1,-,"), SAME),
        ("total,60", "total,61"),
        7,
        "t.txt line 10: not in time",
    ),
    (
        "a take of a frame that was not repeated",
        SAME,
        (
            (
                "1,t,0,0,r,2,fresh\n",
                "1,t,0,0,r,2,fresh\n1,t,0,0,r,2,again\n",
            ),
            ("end,20", "end,21"),
        ),
        SAME,
        7,
        "t.txt line 12: not in time",
    ),
    (
        "a take before its tick",
        SAME,
        (("2,s,0,0,a,0,1,", "2,s,0,0,a,0,2,"), SAME),
        SAME,
        7,
        "t.txt line 22: not in time",
    ),
    (
        "a wider window",
        ("windows,1,2", "windows,1,3"),
        (
            ("windows,1,2", "windows,1,3"),
            ("3,e,0,0,total,60", "4,e,0,0,total,60"),
        ),
        SAME,
        0,
        "inspect: rows=1 totals=1 opened=0 least=3",
    ),
    (
        "a take a tick late",
        ("windows,1,2", "windows,1,3"),
        (
            ("windows,1,2", "windows,1,3"),
            ("3,t,0,0,a,2,fresh\n3,e,", "4,t,0,0,a,2,fresh\n4,e,"),
        ),
        SAME,
        7,
        "t.txt line 24: not in time",
    ),
    (
        "an end a tick late",
        SAME,
        (("3,e,0,0,total,60", "4,e,0,0,total,60"), SAME),
        SAME,
        7,
        "t.txt line 25: not in time",
    ),
    (
        "a Send without effect",
        SAME,
        (
            (
                "2,t,0,0,m,0,fresh\n",
                "1,s,0,0,a,0,-,void\n2,t,0,0,m,0,fresh\n",
            ),
            ("end,20", "end,21"),
        ),
        SAME,
        7,
        "t.txt line 16: not in time",
    ),
    (
        "cut after the last send",
        SAME,
        ((AFTER_SENDS, "end,16"), SAME),
        ("total,60", "open,"),
        7,
        "t.txt line 22: not in time",
    ),
    (
        "cut before the end of the round",
        SAME,
        (("3,e,0,0,total,60\nend,20", "end,19"), SAME),
        ("total,60", "open,"),
        7,
        "t.txt line 25: not in time",
    ),
    (
        "another total",
        SAME,
        (SAME, SAME),
        ("total,60", "total,61"),
        9,
        "row 1: from frames north,0,3,-,total,60, reported north,0,3,-,total,61",
    ),
    (
        "a total that is kept back",
        SAME,
        (
            ("2,s,0,0,a,2,1,", "2,s,0,0,a,2,-,"),
            (
                "3,t,0,0,a,2,fresh\n3,e,0,0,total,60\nend,20",
                "3,e,0,0,none,2\nend,19",
            ),
        ),
        ("total,60", "none,"),
        0,
        "inspect: rows=1 totals=0 opened=1 least=3",
    ),
    (
        "an answer that was never sent",
        SAME,
        (
            (
                "2,s,0,0,a,2,1,4d02030200000000000000000000000000000000000000000000000000000000000000000000000000000000903df1a0ade0b876\n",
                "",
            ),
            (
                "3,t,0,0,a,2,fresh\n3,e,0,0,total,60\nend,20",
                "3,e,0,0,none,2\nend,18",
            ),
        ),
        ("total,60", "none,"),
        7,
        "t.txt line 21: not in time",
    ),
];

// Inspects three files, with this end: its status, and what is then complained, or said where the status is 0.
fn check_inspected(
    rt: &(impl Threads + Wait + Abort + Sync),
    alloc: Global,
    desk: &mut MemoryDesk,
    status: u8,
    text: &str,
    name: &str,
) -> Result<(), Fail> {
    if status > 0 {
        check_refused(
            rt,
            alloc,
            INSPECT,
            desk,
            Refusal {
                status,
                complaint: text,
            },
            name,
        )?;
        check_said(rt, desk, "", name);
        return Ok(());
    }
    check_status(rt, alloc, INSPECT, desk, 0, name)?;
    let wanted = format!(in alloc; "{text}\n")?;
    check_said(rt, desk, &wanted, name);
    check_complained(rt, desk, "", name);
    Ok(())
}

#[test]
fn inspected_files(rt: HostRuntime) -> Result<(), Fail> {
    let alloc = rt.alloc();
    for case in FILES.iter() {
        let (name, public, transcript, report, status, text) = *case;
        let (first, second) = transcript;
        let public = replaced(alloc, PUBLIC, public.0, public.1)?;
        let transcript = replaced(alloc, PLAIN, first.0, first.1)?;
        let transcript = replaced(alloc, &transcript, second.0, second.1)?;
        let report = replaced(alloc, REPORT, report.0, report.1)?;
        let mut desk = desk_of(alloc, &public, &transcript, &report, Vec::new(alloc))?;
        check_inspected(&rt, alloc, &mut desk, status, text, name)?;
    }
    Ok(())
}

const TWO_ROUNDS: &str = "rounds,2\nwindows,1,2\n";

// Each row: its name, the rows before the group, those after the keys, the readings, and what is said of the run.
static RUNS: [(&str, &str, &str, &str, &str); 9] = [
    (
        "three_meters_total_60",
        HEAD,
        "",
        READINGS,
        "inspect: rows=1 totals=1 opened=0 least=3",
    ),
    (
        "absent_reading_recovered",
        HEAD,
        "",
        "north,0,10,20,\n",
        "inspect: rows=1 totals=1 opened=0 least=2",
    ),
    (
        "one_reading_is_thin",
        HEAD,
        "",
        "north,0,10,,\n",
        "inspect: rows=1 totals=0 opened=0 least=0",
    ),
    (
        "lost_answer_gives_none, and the round is opened",
        HEAD,
        "lane,rules,0.0.a.1=-,0,35\n",
        READINGS,
        "inspect: rows=1 totals=0 opened=1 least=3",
    ),
    (
        "lost_announcement_gives_none, and the round is not opened",
        HEAD,
        "lane,rules,0.0.m.1=-,0,35\n",
        READINGS,
        "inspect: rows=1 totals=0 opened=0 least=0",
    ),
    (
        "an answer after the End opens the round",
        HEAD,
        "lane,rules,0.0.m.1=3,1,1\n",
        READINGS,
        "inspect: rows=1 totals=0 opened=1 least=3",
    ),
    (
        "burst_over_the_run",
        HEAD,
        "lane,burst,2:1,0,35\n",
        READINGS,
        "inspect: rows=1 totals=0 opened=1 least=2",
    ),
    (
        "the fewest survivors are those of a round without a total",
        TWO_ROUNDS,
        "lane,rules,0.1.a.1=-,0,36\n",
        "north,0,10,20,30\nnorth,1,1,2,\n",
        "inspect: rows=2 totals=1 opened=1 least=2",
    ),
    (
        "the fewest survivors are those of a published round, and the thin one counts for nothing",
        TWO_ROUNDS,
        "member,0,2,1,2\nmember,0,1,1,2\n",
        "north,0,10,,\nnorth,1,1,2,3\n",
        "inspect: rows=2 totals=1 opened=0 least=3",
    ),
];

// Runs a plan on readings, and inspects what the run stored under the public plan.
fn check_run(
    rt: &(impl Threads + Wait + Abort + Sync),
    alloc: Global,
    name: &str,
    rows: &str,
    readings: &str,
    said: &str,
) -> Result<(), Fail> {
    let mut desk = run_desk(alloc, rows, readings, Vec::new(alloc))?;
    check_status(rt, alloc, RUN, &mut desk, 0, name)?;
    check_status(rt, alloc, "public plan.csv public.csv", &mut desk, 0, name)?;
    let mut files = desk_of(
        alloc,
        held(&desk, "public.csv"),
        held(&desk, "t.txt"),
        held(&desk, "report.csv"),
        Vec::new(alloc),
    )?;
    check_inspected(rt, alloc, &mut files, 0, said, name)
}

#[test]
fn inspected_runs(rt: HostRuntime) -> Result<(), Fail> {
    let alloc = rt.alloc();
    for case in RUNS.iter() {
        let (name, head, tail, readings, said) = *case;
        let rows = format!(in alloc; "{head}{NORTH}{tail}")?;
        check_run(&rt, alloc, name, &rows, readings, said)?;
    }
    Ok(())
}

// Each row: the failing call, the status, and the complaint.
static FAILURES: [(u64, u8, &str); 4] = [
    (0, 3, "cannot read public.csv"),
    (1, 3, "cannot read t.txt"),
    (2, 3, "cannot read report.csv"),
    (3, 4, "cannot print"),
];

#[test]
fn failing_calls_of_inspect(rt: HostRuntime) -> Result<(), Fail> {
    let alloc = rt.alloc();
    for case in FAILURES.iter() {
        let (failing, status, complaint) = *case;
        let mut desk = desk_of(alloc, PUBLIC, PLAIN, REPORT, vec![in alloc; failing]?)?;
        check_inspected(&rt, alloc, &mut desk, status, complaint, complaint)?;
    }
    Ok(())
}
