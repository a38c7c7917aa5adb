//! Refusals, failing calls of the desk, and words, with their statuses and complaints.

use crate::fixtures::{
    HEAD, NORTH, READINGS, RUN, Refusal, check, check_calls, check_complained, check_refused,
    check_said, check_status, check_stored, desk_of,
};
use desk_outside::MemoryDesk;
use std::alloc::{AllocError, Global};
use std::process::Abort;
use std::sync::Wait;
use std::test::Fail;
use std::thread::Threads;

// Each row: its name, the rows of the plan after its first, the readings, the status, and the complaint.
static REFUSALS: [(&str, &str, &str, u8, &str); 26] = [
    (
        "reading_too_great",
        "rounds,1\nwindows,1,2\nN",
        "north,0,1099511627776,20,30\n",
        6,
        "readings.csv row 1: Range",
    ),
    (
        "reading of 2^64",
        "rounds,1\nwindows,1,2\nN",
        "north,0,18446744073709551616,20,30\n",
        6,
        "readings.csv row 1: Number",
    ),
    (
        "readings_short",
        "rounds,1\nwindows,1,2\nN",
        "",
        6,
        "readings.csv row 1: Short",
    ),
    (
        "readings_extra",
        "rounds,1\nwindows,1,2\nN",
        "north,0,10,20,30\nnorth,1,1,2,3\n",
        6,
        "readings.csv row 2: Extra",
    ),
    (
        "readings of another group",
        "rounds,1\nwindows,1,2\nN",
        "south,0,10,20,30\n",
        6,
        "readings.csv row 1: Row",
    ),
    (
        "two readings",
        "rounds,1\nwindows,1,2\nN",
        "north,0,10,20\n",
        6,
        "readings.csv row 1: Fields",
    ),
    (
        "reading_of_no_member",
        "rounds,2\nwindows,1,2\nNmember,0,2,1,2\n",
        "north,0,10,20,30\nnorth,1,1,2,3\n",
        6,
        "readings.csv row 1: NotMember",
    ),
    (
        "pair_key_missing",
        "rounds,1\nwindows,1,2\ngroup,north,3,2\nown,0,0,Z\nown,0,1,Z\nown,0,2,Z\npair,0,0,1,Z\npair,0,1,2,Z\n",
        READINGS,
        5,
        "plan.csv row 0: Key Missing pair 0 0 2",
    ),
    (
        "own key missing",
        "rounds,1\nwindows,1,2\ngroup,north,3,2\nown,0,0,Z\nown,0,2,Z\npair,0,0,1,Z\n",
        READINGS,
        5,
        "plan.csv row 0: Key Missing own 0 1",
    ),
    (
        "window_of_no_tick",
        "rounds,1\nwindows,0,2\nN",
        READINGS,
        5,
        "plan.csv row 0: Plan Window",
    ),
    (
        "no round",
        "rounds,0\nwindows,1,2\nN",
        READINGS,
        5,
        "plan.csv row 0: Plan Rounds",
    ),
    (
        "no group",
        "rounds,1\nwindows,1,2\n",
        READINGS,
        5,
        "plan.csv row 0: Plan NoGroup",
    ),
    (
        "two groups of one name",
        "rounds,1\nwindows,1,2\ngroup,north,2,2\ngroup,north,2,2\n",
        READINGS,
        5,
        "plan.csv row 0: Plan SameName",
    ),
    (
        "one meter",
        "rounds,1\nwindows,1,2\ngroup,north,1,2\n",
        READINGS,
        5,
        "plan.csv row 0: Plan Meters",
    ),
    (
        "floor above the meters",
        "rounds,1\nwindows,1,2\ngroup,north,3,4\n",
        READINGS,
        5,
        "plan.csv row 0: Plan Floor",
    ),
    (
        "pair_of_one_meter",
        "rounds,1\nwindows,1,2\nNpair,0,1,1,Z\n",
        READINGS,
        5,
        "plan.csv row 11: Key Range",
    ),
    (
        "own_key_twice",
        "rounds,1\nwindows,1,2\nNown,0,0,Z\n",
        READINGS,
        5,
        "plan.csv row 11: Key Twice own 0 0",
    ),
    (
        "key_digit_g",
        "rounds,1\nwindows,1,2\ngroup,north,3,2\nown,0,0,000000000000000000000000000000000000000000000000000000000000000g\n",
        READINGS,
        5,
        "plan.csv row 5: Hex",
    ),
    (
        "plan_of_two_rows",
        "rounds,1\n",
        READINGS,
        5,
        "plan.csv row 3: Short",
    ),
    (
        "empty_span_refused",
        "rounds,2\nwindows,1,2\nNmember,0,2,1,1\n",
        READINGS,
        5,
        "plan.csv row 11: Member Range",
    ),
    (
        "span given twice",
        "rounds,2\nwindows,1,2\nNmember,0,2,1,2\nmember,0,2,0,1\n",
        READINGS,
        5,
        "plan.csv row 12: Member Twice",
    ),
    (
        "lane past the last tick",
        "rounds,1\nwindows,1,2\nNlane,clear,,0,36\n",
        READINGS,
        5,
        "plan.csv row 11: LaneSpan",
    ),
    (
        "fifth_clear_lane",
        "rounds,1\nwindows,1,2\nNlane,clear,,0,0\nlane,clear,,0,0\nlane,clear,,0,0\nlane,clear,,0,0\nlane,clear,,0,0\n",
        READINGS,
        10,
        "lane row 15: NoSuchLane",
    ),
    (
        "a lane's argument before the readings",
        "rounds,1\nwindows,1,2\nNlane,burst,2,0,0\n",
        "",
        10,
        "lane row 11: BadArgument",
    ),
    (
        "a bad plan before a bad lane",
        "rounds,1\nwindows,1,2\nNlane,none,,0,0\nlane,clear,,1,0\n",
        "",
        5,
        "plan.csv row 12: LaneSpan",
    ),
    (
        "group_name",
        "rounds,1\nwindows,1,2\ngroup,nor th,x,2\n",
        READINGS,
        5,
        "plan.csv row 4: Name",
    ),
];

// The rows of a plan, with those of `north` for each `N`.
fn plan_rows(alloc: Global, pattern: &str) -> Result<String, AllocError> {
    let mut rows = String::new(alloc);
    let mut is_first = true;
    for part in pattern.split('N') {
        if !is_first {
            rows.push_str(NORTH)?;
        }
        rows.push_str(part)?;
        is_first = false;
    }
    Ok(rows)
}

// Runs a plan of these rows on these readings, which are refused.
fn check_refused_files(
    rt: &(impl Threads + Wait + Abort + Sync),
    alloc: Global,
    name: &str,
    pattern: &str,
    readings: &str,
    status: u8,
    complaint: &str,
) -> Result<(), Fail> {
    let rows = plan_rows(alloc, pattern)?;
    let mut desk = desk_of(alloc, &rows, readings, Vec::new(alloc))?;
    check_refused(
        rt,
        alloc,
        RUN,
        &mut desk,
        Refusal { status, complaint },
        name,
    )?;
    check_calls(rt, &desk, 3, name);
    check_said(rt, &desk, "", name);
    Ok(())
}

#[test]
fn refused_files(rt: HostRuntime) -> Result<(), Fail> {
    for case in REFUSALS.iter() {
        let (name, pattern, readings, status, complaint) = *case;
        check_refused_files(&rt, rt.alloc(), name, pattern, readings, status, complaint)?;
    }
    Ok(())
}

// Each row: the failing calls, the status, the complaint, and whether the transcript and the report are stored.
static FAILURES: [([u64; 2], u8, &str, bool, bool); 6] = [
    ([0, 9], 3, "meteragg: cannot read plan.csv\n", false, false),
    (
        [1, 9],
        3,
        "meteragg: cannot read readings.csv\n",
        false,
        false,
    ),
    ([2, 9], 4, "meteragg: cannot write t.txt\n", false, false),
    (
        [3, 9],
        4,
        "meteragg: cannot write report.csv\n",
        true,
        false,
    ),
    ([4, 9], 4, "meteragg: cannot print\n", true, true),
    ([0, 1], 3, "", false, false),
];

// Whether the report was put in the place of an old one.
fn has_new_report(desk: &MemoryDesk) -> bool {
    desk.held("report.csv") != Some(b"old".as_slice())
}

// A desk that holds the files of the plain case and an old report, and fails these calls.
fn failing_desk(alloc: Global, failing: [u64; 2]) -> Result<MemoryDesk, Fail> {
    let rows = format!(in alloc; "{HEAD}{NORTH}")?;
    let failing = Vec::from_slice(alloc, &failing)?;
    let mut desk = desk_of(alloc, &rows, READINGS, failing)?;
    desk.place("report.csv", b"old")?;
    Ok(desk)
}

// Runs the plain case at a desk that fails these calls.
fn check_failing_calls(
    rt: &(impl Threads + Wait + Abort + Sync),
    alloc: Global,
    failing: [u64; 2],
    status: u8,
    complaint: &str,
    transcript: bool,
    report: bool,
) -> Result<(), Fail> {
    let mut desk = failing_desk(alloc, failing)?;
    check_status(rt, alloc, RUN, &mut desk, status, complaint)?;
    check_complained(rt, &desk, complaint, complaint);
    check_stored(rt, &desk, "t.txt", transcript, complaint);
    check(rt, has_new_report(&desk) == report, complaint);
    check_said(rt, &desk, "", complaint);
    Ok(())
}

// Runs at an empty desk, and then at one that holds a plan file alone.
fn check_without_files(
    rt: &(impl Threads + Wait + Abort + Sync),
    alloc: Global,
) -> Result<(), Fail> {
    let mut desk = MemoryDesk::new(Vec::new(alloc));
    check_status(rt, alloc, RUN, &mut desk, 3, "no file")?;
    check_complained(rt, &desk, "meteragg: cannot read plan.csv\n", "no file");
    desk.place("plan.csv", b"no plan")?;
    check_status(rt, alloc, RUN, &mut desk, 3, "a plan alone")?;
    check_complained(
        rt,
        &desk,
        "meteragg: cannot read plan.csv\nmeteragg: cannot read readings.csv\n",
        "a plan alone",
    );
    Ok(())
}

#[test]
fn failing_desk_calls(rt: HostRuntime) -> Result<(), Fail> {
    for case in FAILURES.iter() {
        let (failing, status, complaint, transcript, report) = *case;
        check_failing_calls(
            &rt,
            rt.alloc(),
            failing,
            status,
            complaint,
            transcript,
            report,
        )?;
    }
    check_without_files(&rt, rt.alloc())
}

// Words that are no command: too few or too many, names that are equal or empty, numbers outside their ranges.
static BAD_WORDS: [&str; 101] = [
    "run",
    "run plan.csv readings.csv report.csv",
    "ran plan.csv readings.csv report.csv t.txt",
    "run plan.csv plan.csv report.csv t.txt",
    "run plan.csv readings.csv plan.csv t.txt",
    "run plan.csv readings.csv report.csv plan.csv",
    "run plan.csv readings.csv readings.csv t.txt",
    "run plan.csv readings.csv report.csv readings.csv",
    "run plan.csv readings.csv report.csv report.csv",
    "run plan.csv readings.csv report.csv ",
    "run plan.csv readings.csv report.csv t.txt 0",
    "run plan.csv readings.csv report.csv t.txt 17",
    "run plan.csv readings.csv report.csv t.txt 04",
    "run plan.csv readings.csv report.csv t.txt +4",
    "run plan.csv readings.csv report.csv t.txt 4x",
    "run plan.csv readings.csv report.csv t.txt ",
    "run plan.csv readings.csv report.csv t.txt 4 4",
    "ring plan.csv readings.csv 0 report.csv t.txt",
    "ring plan.csv readings.csv 129 report.csv t.txt",
    "ring plan.csv readings.csv 01 report.csv t.txt",
    "ring plan.csv readings.csv +1 report.csv t.txt",
    "ring plan.csv readings.csv  report.csv t.txt",
    "ring plan.csv readings.csv report.csv t.txt",
    "ring plan.csv readings.csv 1 report.csv",
    "ring plan.csv readings.csv 1 report.csv plan.csv",
    "ring plan.csv readings.csv 1 report.csv t.txt 17",
    "ring plan.csv readings.csv 1 report.csv t.txt 4 4",
    "ringtwin plan.csv readings.csv other.csv 0 t.txt masks.txt",
    "ringtwin plan.csv readings.csv other.csv 129 t.txt masks.txt",
    "ringtwin plan.csv readings.csv other.csv 01 t.txt masks.txt",
    "ringtwin plan.csv readings.csv other.csv t.txt masks.txt",
    "ringtwin plan.csv readings.csv other.csv 1 t.txt",
    "ringtwin plan.csv readings.csv other.csv 1 t.txt t.txt",
    "ringtwin plan.csv readings.csv other.csv 1 t.txt ",
    "ringtwin plan.csv readings.csv other.csv 1 t.txt masks.txt 4",
    "registers 1 plan.csv readings.csv report.csv t.txt words.txt",
    "registers 9 plan.csv readings.csv report.csv t.txt words.txt",
    "registers 02 plan.csv readings.csv report.csv t.txt words.txt",
    "registers +2 plan.csv readings.csv report.csv t.txt words.txt",
    "registers plan.csv readings.csv report.csv t.txt words.txt",
    "registers 2 plan.csv readings.csv report.csv t.txt",
    "registers 2 plan.csv readings.csv report.csv t.txt t.txt",
    "registers 2 plan.csv readings.csv report.csv t.txt ",
    "registers 2 plan.csv readings.csv report.csv t.txt words.txt 0",
    "registers 2 plan.csv readings.csv report.csv t.txt words.txt 4 4",
    "twin plan.csv readings.csv other.csv t.txt",
    "twin plan.csv readings.csv other.csv t.txt masks.txt 4",
    "twin plan.csv readings.csv readings.csv t.txt masks.txt",
    "twin plan.csv readings.csv other.csv t.txt t.txt",
    "twin plan.csv readings.csv other.csv t.txt ",
    "pooled plan.csv readings.csv other.csv t.txt masks.txt",
    "pooled - plan.csv readings.csv other.csv t.txt masks.txt 4",
    "pooled - plan.csv readings.csv other.csv t.txt t.txt",
    "pooled 0.1 plan.csv readings.csv other.csv t.txt ",
    "make 18446744073709551616 1 2 1 p.csv r.csv",
    "make 1 0 2 1 p.csv r.csv",
    "make 1 257 2 1 p.csv r.csv",
    "make 1 1 1 1 p.csv r.csv",
    "make 1 1 257 1 p.csv r.csv",
    "make 1 1 2 0 p.csv r.csv",
    "make 1 1 2 4097 p.csv r.csv",
    "make 1 17 2 4096 p.csv r.csv",
    "make 1 33 256 1 p.csv r.csv",
    "make 01 1 2 1 p.csv r.csv",
    "make 1 1 2 1 p.csv p.csv",
    "make 1 1 2 1 p.csv",
    "load 1 1 2 1",
    "load 1 1 2 1 0",
    "load 1 1 2 1 17",
    "load 1 1 1 1 4",
    "load 1 1 2 1 4 ",
    "load 1 1 2 1 4 t.txt 4",
    "load 1 33 256 1 4",
    "convert old.txt",
    "convert old.txt old.txt",
    "convert old.txt t.txt 4",
    "bill plan.csv readings.csv 0 2",
    "bill plan.csv readings.csv 1 1 bills.csv",
    "bill plan.csv readings.csv 0 4097 bills.csv",
    "bill plan.csv readings.csv 0 2 plan.csv",
    "hide plan.csv readings.csv t.txt 2 0 0 0 0 other.csv",
    "hide plan.csv readings.csv t.txt 0 2 256 0 0 other.csv",
    "hide plan.csv readings.csv t.txt 0 2 0 4096 0 other.csv",
    "hide plan.csv readings.csv t.txt 0 2 0 0 256 other.csv",
    "hide plan.csv readings.csv t.txt 0 2 0 0 0 t.txt",
    "public plan.csv",
    "public plan.csv plan.csv",
    "public plan.csv public.csv 4",
    "collect public.csv j.txt",
    "collect public.csv j.txt public.csv",
    "collect public.csv j.txt ",
    "collect public.csv j.txt report.csv 4",
    "collects public.csv j.txt report.csv",
    "meter m0.csv",
    "meter m0.csv m0.csv",
    "meter m0.csv m0.journal 4",
    "inspect public.csv t.txt",
    "inspect public.csv t.txt t.txt",
    "inspect public.csv t.txt report.csv 4",
    "help run",
    "version 2",
];

// Runs the program on words that are no command: it complains of them, and makes no other call.
fn check_bad_words(
    rt: &(impl Threads + Wait + Abort + Sync),
    alloc: Global,
    words: &str,
) -> Result<(), Fail> {
    let mut desk = MemoryDesk::new(Vec::new(alloc));
    check_refused(
        rt,
        alloc,
        words,
        &mut desk,
        Refusal {
            status: 2,
            complaint: "bad words",
        },
        words,
    )?;
    check_calls(rt, &desk, 1, words);
    Ok(())
}

#[test]
fn bad_words(rt: HostRuntime) -> Result<(), Fail> {
    for words in BAD_WORDS.iter() {
        check_bad_words(&rt, rt.alloc(), words)?;
    }
    Ok(())
}

// Words that name no known meters.
static BAD_KNOWN: [&str; 27] = [
    "",
    "0",
    "0.",
    ".",
    ".1",
    "0.1.2",
    "0.1.",
    "0-1",
    "00.1",
    "0.01",
    "+0.1",
    "0.1+",
    "0.1++0.2",
    "256.0",
    "0.256",
    "4294967296.0",
    "0.1+0.1",
    "0.1+0.0",
    "1.0+0.1",
    "0.1+2.0+1.9",
    "0.1,0.2",
    "0.1+-",
    "-+0.1",
    "--",
    "0.x",
    "x.0",
    "0.1;",
];

#[test]
fn bad_known_meters(rt: HostRuntime) -> Result<(), Fail> {
    let alloc = rt.alloc();
    for known in BAD_KNOWN.iter() {
        let words = format!(in alloc;
            "pooled {known} plan.csv readings.csv other.csv t.txt masks.txt"
        )?;
        check_bad_words(&rt, alloc, &words)?;
    }
    Ok(())
}

// Names with bytes that a terminal may obey. Each row: the failing call, the words, the status, and the complaint.
static NAMES: [(u64, &str, u8, &str); 7] = [
    (9, "run a\nb c r t", 3, "cannot read a\\x0ab"),
    (9, "audit \x1b[31mred c", 3, "cannot read \\x1b[31mred"),
    (
        9,
        "audit \x7f\x1f\\x1b~é c",
        3,
        "cannot read \\x7f\\x1f\\x1b~é",
    ),
    (0, "make 1 1 2 1 p\r\n q", 4, "cannot write p\\x0d\\x0a"),
    (9, "run x\ty c r t", 5, "x\\x09y row 1: Row"),
    (9, "audit x\ty c", 7, "x\\x09y line 1: Head"),
    (9, "convert x\ty c", 7, "x\\x09y line 1: Head"),
];

// Runs the program on these words, at a desk that fails a call, and holds two files that are neither plans nor texts.
fn check_shown_name(
    rt: &(impl Threads + Wait + Abort + Sync),
    alloc: Global,
    failing: u64,
    words: &str,
    status: u8,
    complaint: &str,
) -> Result<(), Fail> {
    let mut desk = MemoryDesk::new(Vec::from_slice(alloc, &[failing])?);
    desk.place("x\ty", b"x\n")?;
    desk.place("c", b"x\n")?;
    check_refused(
        rt,
        alloc,
        words,
        &mut desk,
        Refusal { status, complaint },
        complaint,
    )
}

#[test]
fn names_of_many_lines(rt: HostRuntime) -> Result<(), Fail> {
    for case in NAMES.iter() {
        let (failing, words, status, complaint) = *case;
        check_shown_name(&rt, rt.alloc(), failing, words, status, complaint)?;
    }
    Ok(())
}
