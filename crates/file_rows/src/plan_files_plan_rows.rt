//! Plan files: their values and their first faults.

use crate::fixtures::{check, check_bytes, check_same, fault_at};
use group_plan::{Plan, PlanError, SpanError};
use link_lanes::LaneRow;
use pair_keys::{KeyError, KeyId, KeyTable};
use plan_files::{Failed, FileCause, FileFault, PlanFile, read_plan, read_public};
use row_fixtures::reading_tag;
use std::alloc::{AllocError, Global};
use std::process::Abort;
use std::test::Fail;

// The rows of the plain plan. A Z stands for 64 zeros.
static ROWS: [&str; 10] = [
    "plan,1",
    "rounds,1",
    "windows,1,2",
    "group,north,3,2",
    "own,0,0,Z",
    "own,0,1,Z",
    "own,0,2,Z",
    "pair,0,0,1,Z",
    "pair,0,0,2,Z",
    "pair,0,1,2,Z",
];

static ZEROS: &str = "0000000000000000000000000000000000000000000000000000000000000000";

// Adds the text, with zeros for each Z.
fn add(file: &mut Vec<u8>, text: &str) -> Result<(), AllocError> {
    for byte in text.as_bytes() {
        if *byte == b'Z' {
            file.extend_from_slice(ZEROS.as_bytes())?;
        } else {
            file.push(*byte)?;
        }
    }
    Ok(())
}

// The plain plan with a text in place of the rows `from` to `until`, and with more at its end.
fn plan_file(
    alloc: Global,
    from: usize,
    until: usize,
    text: &str,
    more: &str,
) -> Result<Vec<u8>, AllocError> {
    let mut file = Vec::new(alloc);
    for (i, row) in ROWS.iter().enumerate() {
        if i + 1 == from {
            add(&mut file, text)?;
            add(&mut file, "\n")?;
        }
        if i + 1 < from || i + 1 > until {
            add(&mut file, row)?;
            add(&mut file, "\n")?;
        }
    }
    add(&mut file, more)?;
    Ok(file)
}

fn read(alloc: Global, bytes: &[u8]) -> Result<PlanFile, Failed<FileFault>> {
    if bytes.len() > 1 << 28 {
        return Err(Failed::Memory);
    }
    read_plan(alloc, bytes)
}

const OWN_0: KeyId = KeyId::Own { group: 0, meter: 0 };

const OWN_1: KeyId = KeyId::Own { group: 0, meter: 1 };

const PAIR_0_1: KeyId = KeyId::Pair {
    group: 0,
    low: 0,
    high: 1,
};

const PAIR_0_2: KeyId = KeyId::Pair {
    group: 0,
    low: 0,
    high: 2,
};

const KEY_RANGE: FileCause = FileCause::Key(KeyError::Range);

const TWICE_OWN_0: FileCause = FileCause::Key(KeyError::Twice(OWN_0));

const WINDOW: FileCause = FileCause::Plan(PlanError::Window);

const ROUNDS: FileCause = FileCause::Plan(PlanError::Rounds);

const FIRST_SPAN: FileCause = FileCause::Member(SpanError::Range(0));

// Which rows are replaced, by which text, what comes at the end, and the row and the cause of the first fault.
static FAULTS: [(usize, usize, &str, &str, u32, FileCause); 118] = [
    // row 1
    (1, 1, "plan,2", "", 1, FileCause::Row),
    (1, 1, "plan,01", "", 1, FileCause::Row),
    (1, 1, "plan,1,", "", 1, FileCause::Row),
    (1, 1, "plan,1 ", "", 1, FileCause::Row),
    (1, 1, "plan", "", 1, FileCause::Row),
    (1, 1, "Plan,1", "", 1, FileCause::Row),
    (1, 1, "\"\"", "", 1, FileCause::Row),
    (1, 1, " \nplan,1", "", 1, FileCause::Row),
    (1, 1, "\u{feff}\u{feff}plan,1", "", 1, FileCause::Row),
    // a file that ends early
    (1, 10, "", "", 1, FileCause::Short),
    (1, 10, "\r\n\n", "", 1, FileCause::Short),
    (2, 10, "", "", 2, FileCause::Short),
    (3, 10, "", "", 3, FileCause::Short),
    (1, 10, "plan,2", "", 1, FileCause::Row),
    (2, 10, "round,1", "", 2, FileCause::Row),
    (2, 10, "rounds,x", "", 2, FileCause::Number),
    (3, 3, "", "", 3, FileCause::Row),
    // rows 2 and 3
    (2, 2, "windows,1,2", "", 2, FileCause::Row),
    (2, 2, "rounds", "", 2, FileCause::Fields),
    (2, 2, "rounds,x,1", "", 2, FileCause::Fields),
    (2, 2, "rounds,", "", 2, FileCause::Number),
    (2, 2, "rounds,00", "", 2, FileCause::Number),
    (2, 2, "rounds,01", "", 2, FileCause::Number),
    (2, 2, "rounds,+1", "", 2, FileCause::Number),
    (2, 2, "rounds,-0", "", 2, FileCause::Number),
    (2, 2, "rounds, 1", "", 2, FileCause::Number),
    (2, 2, "rounds,1\"0", "", 2, FileCause::Number),
    (2, 2, "rounds,\u{661}", "", 2, FileCause::Number),
    (2, 2, "rounds,4294967296", "", 2, FileCause::Number),
    (
        2,
        2,
        "rounds,18446744073709551617",
        "",
        2,
        FileCause::Number,
    ),
    (
        2,
        2,
        "rounds,100000000000000000000000000000000000000000000000001",
        "",
        2,
        FileCause::Number,
    ),
    (2, 3, "rounds,x\nwindow,1", "", 2, FileCause::Number),
    (3, 3, "windows,1", "", 3, FileCause::Fields),
    (3, 3, "windows,1,2,3", "", 3, FileCause::Fields),
    (3, 3, "windows,1,x", "", 3, FileCause::Number),
    // groups
    (4, 4, "group,a b,x,2", "", 4, FileCause::Name),
    (4, 4, "group,ab,x,2", "", 4, FileCause::Number),
    (4, 4, "group,,3,2", "", 4, FileCause::Name),
    (4, 4, "group,abcdefghijklmnopq,3,2", "", 4, FileCause::Name),
    (4, 4, "group,a b,3", "", 4, FileCause::Fields),
    (4, 4, "group,north,3,2,", "", 4, FileCause::Fields),
    (4, 4, "groups,north,3,2", "", 4, FileCause::Row),
    (
        4,
        4,
        "group,north,3,2",
        "group,south,2,2",
        11,
        FileCause::Row,
    ),
    // keys
    (5, 5, "Own,0,0,Z", "", 5, FileCause::Row),
    (5, 5, "own,0,0", "", 5, FileCause::Fields),
    (5, 5, "own,x,0,Zg", "", 5, FileCause::Number),
    (5, 5, "own,0,4294967296,Z", "", 5, FileCause::Number),
    (5, 5, "own,0,0,", "", 5, FileCause::Hex),
    (5, 5, "own,0,0,Z0", "", 5, FileCause::Hex),
    (5, 5, "own,0,0,Z00", "", 5, FileCause::Hex),
    (
        5,
        5,
        "own,0,0,000000000000000000000000000000000000000000000000000000000000000g",
        "",
        5,
        FileCause::Hex,
    ),
    (8, 8, "pair,0,0,Z", "", 8, FileCause::Fields),
    (8, 8, "pair,0,0,-1,Z", "", 8, FileCause::Number),
    // keys nearly as they are written
    (
        8,
        8,
        "pair,0,0,1,000000000000000000000000000000000000000000000000000000000000000",
        "",
        8,
        FileCause::Hex,
    ),
    (8, 8, "pair,0,0,1,Z0", "", 8, FileCause::Hex),
    (8, 8, "pair,0,0,1,Z ", "", 8, FileCause::Hex),
    (8, 8, "pair,00,0,1,Z", "", 8, FileCause::Number),
    (8, 8, "pair,0,0,01,Z", "", 8, FileCause::Number),
    (8, 8, "pair,0,,1,Z", "", 8, FileCause::Number),
    (8, 8, "pair,0,0,4294967296,Z", "", 8, FileCause::Number),
    (8, 8, "pair,0,0,1,Z,", "", 8, FileCause::Fields),
    (8, 8, "pair,0,0,0,1,Z", "", 8, FileCause::Fields),
    (8, 8, "pair,0,0,1\n,Z", "", 8, FileCause::Fields),
    (8, 8, " pair,0,0,1,Z", "", 8, FileCause::Row),
    (8, 8, "pairs,0,0,1,Z", "", 8, FileCause::Row),
    (
        10,
        10,
        "",
        "pair,0,1,2,000000000000000000000000000000000000000000000000000000000000000",
        10,
        FileCause::Hex,
    ),
    (10, 10, "", "own,0", 10, FileCause::Fields),
    // lanes and members
    (1, 1, "plan,1", "lane,clear,0,0", 11, FileCause::Fields),
    (1, 1, "plan,1", "lane,,a b,0,0", 11, FileCause::Name),
    (1, 1, "plan,1", "lane,clear,a b,x,0", 11, FileCause::Name),
    (1, 1, "plan,1", "lane,clear,\u{e9},0,0", 11, FileCause::Name),
    (
        1,
        1,
        "plan,1",
        "lane,clear,\"a\nb\",0,0",
        11,
        FileCause::Name,
    ),
    (1, 1, "plan,1", "lane,clear,,x,0", 11, FileCause::Number),
    (1, 1, "plan,1", "member,0,0,0", 11, FileCause::Fields),
    (1, 1, "plan,1", "member,0,0,0,x", 11, FileCause::Number),
    (1, 1, "plan,1", "\"\"", 11, FileCause::Row),
    (1, 1, "plan,1", " ", 11, FileCause::Row),
    // the numbers of the plan
    (2, 2, "rounds,0", "", 0, ROUNDS),
    (2, 2, "rounds,4097", "", 0, ROUNDS),
    (2, 2, "rounds,4294967295", "", 0, ROUNDS),
    (3, 3, "windows,0,2", "", 0, WINDOW),
    (3, 3, "windows,17,2", "", 0, WINDOW),
    (3, 3, "windows,1,33", "", 0, WINDOW),
    (4, 4, "", "", 0, FileCause::Plan(PlanError::NoGroup)),
    (4, 10, "", "", 0, FileCause::Plan(PlanError::NoGroup)),
    (
        4,
        4,
        "group,north,3,2\ngroup,north,2,2",
        "",
        0,
        FileCause::Plan(PlanError::SameName(0, 1)),
    ),
    (
        4,
        4,
        "group,north,3,9\ngroup,south,1,2",
        "",
        0,
        FileCause::Plan(PlanError::Meters(1)),
    ),
    (
        4,
        4,
        "group,north,3,4",
        "",
        0,
        FileCause::Plan(PlanError::Floor(0)),
    ),
    (
        2,
        10,
        "rounds,4096\nwindows,1,2\ngroup,north,256,2",
        "",
        0,
        FileCause::Plan(PlanError::TooManyReadings(1_048_576)),
    ),
    // what the plan refuses
    (1, 1, "plan,1", "pair,0,1,1,Z", 11, KEY_RANGE),
    (1, 1, "plan,1", "pair,0,1,0,Z", 11, KEY_RANGE),
    (1, 1, "plan,1", "pair,0,0,3,Z", 11, KEY_RANGE),
    (5, 5, "own,0,3,Z", "", 5, KEY_RANGE),
    (5, 5, "own,1,0,Z", "", 5, KEY_RANGE),
    (5, 5, "own,65536,0,Z", "", 5, KEY_RANGE),
    (5, 5, "own,0,256,Z", "", 5, KEY_RANGE),
    (8, 8, "pair,0,0,65537,Z", "", 8, KEY_RANGE),
    (8, 8, "pair,0,0,4294967295,Z", "", 8, KEY_RANGE),
    (1, 1, "plan,1", "own,0,0,Z", 11, TWICE_OWN_0),
    (
        8,
        8,
        "pair,0,0,2,Z",
        "",
        9,
        FileCause::Key(KeyError::Twice(PAIR_0_2)),
    ),
    (1, 1, "plan,1", "lane,clear,,1,0", 11, FileCause::LaneSpan),
    (1, 1, "plan,1", "lane,clear,,0,36", 11, FileCause::LaneSpan),
    (2, 2, "rounds,2", "member,0,2,1,1", 11, FIRST_SPAN),
    (2, 2, "rounds,2", "member,0,2,0,3", 11, FIRST_SPAN),
    (1, 1, "plan,1", "member,0,3,0,1", 11, FIRST_SPAN),
    (1, 1, "plan,1", "member,1,0,0,1", 11, FIRST_SPAN),
    (1, 1, "plan,1", "member,65536,0,0,1", 11, FIRST_SPAN),
    (
        1,
        1,
        "plan,1",
        "member,0,0,0,1\nmember,0,0,0,1",
        12,
        FileCause::Member(SpanError::Twice(1)),
    ),
    // keys that are missing
    (9, 9, "", "", 0, FileCause::Key(KeyError::Missing(PAIR_0_2))),
    (6, 8, "", "", 0, FileCause::Key(KeyError::Missing(OWN_1))),
    (
        8,
        10,
        "",
        "",
        0,
        FileCause::Key(KeyError::Missing(PAIR_0_1)),
    ),
    // which of two faults
    (5, 5, "own,1,0,Z", "nonsense", 11, FileCause::Row),
    (3, 3, "windows,0,2", "own,9,9,Z", 0, WINDOW),
    (9, 9, "", "lane,clear,,1,0", 10, FileCause::LaneSpan),
    (
        1,
        1,
        "plan,1",
        "lane,clear,,1,0\nown,0,0,Z",
        11,
        FileCause::LaneSpan,
    ),
    (
        1,
        1,
        "plan,1",
        "own,0,0,Z\nlane,clear,,1,0\nmember,9,0,0,1",
        11,
        TWICE_OWN_0,
    ),
    (
        1,
        1,
        "plan,1",
        "member,0,0,0,1\nmember,0,0,0,1\nown,0,0,Z",
        12,
        FileCause::Member(SpanError::Twice(1)),
    ),
    (
        1,
        1,
        "plan,1",
        "member,0,0,0,1\nown,0,0,Z\nmember,0,0,0,1",
        12,
        TWICE_OWN_0,
    ),
];

// Looks for this fault of a file.
fn check_fault(
    rt: &impl Abort,
    alloc: Global,
    file: &[u8],
    fault: Failed<FileFault>,
    text: &str,
    more: &str,
) {
    let came = read(alloc, file).err();
    check_same(rt, &(more, came), &(more, Some(fault)), text);
}

#[test]
fn first_faults_of_plans(rt: HostRuntime) -> Result<(), Fail> {
    for case in FAULTS.iter() {
        let (from, until, text, more, row, cause) = *case;
        let file = plan_file(rt.alloc(), from, until, text, more)?;
        let fault = fault_at(row, cause);
        check_fault(&rt, rt.alloc(), &file, fault, text, more);
    }
    Ok(())
}

// Which rows are replaced, by which text, and what comes at the end.
static ACCEPTED: [(usize, usize, &str, &str); 24] = [
    (1, 1, "plan,1", ""),
    (1, 1, "\u{feff}plan,1", ""),
    (1, 1, "\u{feff}\"plan\",\"1\"\r", ""),
    (1, 1, "\n\r\nplan,1\r\r", ""),
    (2, 2, "\nrounds,\"1\"0", ""),
    (4, 4, "group,\"a-1_b0123456789c\",\"3\",2", ""),
    (4, 4, "group,north,3,3", ""),
    (5, 6, "own,0,1,Z\nlane,clear,,0,0\nown,0,0,Z", ""),
    (
        5,
        5,
        "own,0,0,0123456789abcdefABCDEF0123456789abcdefABCDEF0123456789abcdefABCD",
        "",
    ),
    (1, 1, "plan,1", "lane,clear,,0,35"),
    (1, 1, "plan,1", "lane,other,\"\",35,\"35"),
    (1, 1, "plan,1", "lane,rules,\"a,\"\"b\",0,0\n"),
    (1, 1, "plan,1", "member,0,2,0,1\r\n\r\n"),
    (2, 2, "rounds,2", "member,0,2,1,2\nmember,0,1,0,2"),
    // keys nearly as they are written
    (8, 8, "\"pair\",0,0,1,Z", ""),
    (8, 8, "pair,\"0\",0,1,Z", ""),
    (8, 8, "pair,0,0,1,\"Z\"", ""),
    (8, 8, "pair,0,0,1,Z\r", ""),
    (8, 8, "pair,0,0,1,Z\n\r\n", ""),
    (8, 8, "\npair,0,0,1,Z", ""),
    (
        8,
        8,
        "pair,0,0,1,0123456789abcdefABCDEF0123456789abcdefABCDEF0123456789abcdefABCD",
        "",
    ),
    (5, 5, "own,0,0,\"Z\"\r", ""),
    (10, 10, "", "pair,0,1,2,Z"),
    (10, 10, "", "\"pair\",0,1,2,Z\n\n"),
];

#[test]
fn accepted_plans(rt: HostRuntime) -> Result<(), Fail> {
    for case in ACCEPTED.iter() {
        let (from, until, text, more) = *case;
        let file = plan_file(rt.alloc(), from, until, text, more)?;
        let row = if more.is_empty() { text } else { more };
        check(&rt, read(rt.alloc(), &file).is_ok(), row);
    }
    Ok(())
}

// The first group has the meter in the round, and it is a member there, or isn't.
fn check_member(rt: &impl Abort, plan: &Plan, round: u32, meter: u8, is_member: bool) {
    let is_place = plan.holds(reading_tag(0, round, meter));
    let is_so = is_place && plan.is_member(0, round, meter) == is_member;
    check(rt, is_so, "a member");
}

// Three rounds with windows of 4 and 5 ticks, of which the first is one without the second meter.
fn check_plan(rt: &impl Abort, plan: &Plan) {
    let numbers = [plan.rounds(), plan.w1(), plan.w2()];
    check_same(rt, &numbers, &[3, 4, 5], "the numbers");
    for (round, is_member) in [(0, false), (1, true), (2, true)] {
        check_member(rt, plan, round, 1, is_member);
    }
}

// A seeded lane and a clear one.
fn check_lanes(rt: &impl Abort, lanes: &[LaneRow]) {
    assert!(rt; lanes.len() == 2);
    check_bytes(rt, lanes[0].name.bytes(), b"seeded", "a name");
    check_bytes(
        rt,
        lanes[0].arg.text().as_bytes(),
        b"1:2:3:4",
        "an argument",
    );
    let first = [lanes[0].row, lanes[0].from, lanes[0].to];
    check_same(rt, &first, &[6, 0, 43], "a seeded lane");
    let second = [lanes[1].row, lanes[1].from, lanes[1].to];
    check_same(rt, &second, &[10, 2, 2], "a clear lane");
}

// The own keys of two meters end in f1 and f2, and the key of their pair begins with 3.
fn check_keys(rt: &impl Abort, keys: &KeyTable) {
    let is_place = keys.plan().meters(0) == 2;
    let are_own = is_place && keys.own(0, 0)[31] == 0xf1 && keys.own(0, 1)[31] == 0xf2;
    check(rt, are_own, "the own keys");
    check(rt, is_place && keys.pair(0, 0, 1)[0] == 3, "the pair's key");
}

// What a plan of three rounds says up to its first member row, and the rows behind that.
const HEAD: &str = "rounds,3\nwindows,4,5\ngroup,east,2,2\nmember,0,1,1,3";

const REST: &str =
    "lane,seeded,1:2:3:4,0,43\nown,0,0,00000000000000000000000000000000000000000000000000000000000000f1\nown,0,1,00000000000000000000000000000000000000000000000000000000000000F2\npair,0,0,1,0300000000000000000000000000000000000000000000000000000000000000\nlane,clear,,2,2";

// Looks for the value of this plan.
fn check_value(rt: &impl Abort, alloc: Global, bytes: &[u8]) {
    let Ok(value) = read(alloc, bytes) else {
        panic!(rt; "refused")
    };
    check_plan(rt, &value.plan);
    check_lanes(rt, &value.lanes);
    check_keys(rt, &value.keys);
}

#[test]
fn value_of_a_plan(rt: HostRuntime) -> Result<(), Fail> {
    let file = plan_file(rt.alloc(), 2, 10, HEAD, REST)?;
    check_value(&rt, rt.alloc(), file.as_slice());
    Ok(())
}

const QUOTED_HEAD: &str = "rounds,\"3\"\nwindows,4,5\n\"group\",east,2,\"2\"\nmember,0,1,1,3";

const EXCHANGED_REST: &str =
    "lane,seeded,1:2:3:4,0,43\npair,0,0,1,0300000000000000000000000000000000000000000000000000000000000000\nown,0,1,00000000000000000000000000000000000000000000000000000000000000F2\nown,0,0,00000000000000000000000000000000000000000000000000000000000000f1\nlane,clear,,2,2";

// Spellings of this plan: the first rows, those behind them, and bytes of the file, each with what stands in its place.
static SPELLINGS: [(&str, &str, &[(u8, &str)]); 4] = [
    (
        HEAD,
        REST,
        &[
            (b'\n', "\n"),
            (b'\n', "\n\n"),
            (b'\n', "\r\n"),
            (b'\n', "\r"),
            (b'f', "F"),
            (b'F', "f"),
        ],
    ),
    (QUOTED_HEAD, REST, &[(b'\n', "\n"), (b'\n', "\r\n")]),
    (HEAD, EXCHANGED_REST, &[(b'\n', "\n")]),
    (QUOTED_HEAD, EXCHANGED_REST, &[(b'\n', "\n")]),
];

// The file with a text in place of each such byte.
fn respelled(alloc: Global, file: &[u8], old: u8, new: &str) -> Result<Vec<u8>, AllocError> {
    let mut out = Vec::new(alloc);
    for byte in file {
        if *byte == old {
            out.extend_from_slice(new.as_bytes())?;
        } else {
            out.push(*byte)?;
        }
    }
    Ok(out)
}

// Reads a file in these spellings, each without and with the end of its last line.
fn check_spellings(
    rt: &impl Abort,
    alloc: Global,
    file: &[u8],
    spellings: &[(u8, &str)],
) -> Result<(), AllocError> {
    for (old, new) in spellings {
        let mut file = respelled(alloc, file, *old, new)?;
        check_value(rt, alloc, &file);
        file.push(b'\n')?;
        check_value(rt, alloc, &file);
    }
    Ok(())
}

#[test]
fn spellings_of_a_plan(rt: HostRuntime) -> Result<(), Fail> {
    for (head, rest, spellings) in SPELLINGS.iter() {
        let file = plan_file(rt.alloc(), 2, 10, head, rest)?;
        check_spellings(&rt, rt.alloc(), &file, spellings)?;
    }
    Ok(())
}

// Adds the row of a pair's key, with one digit too many where the pair is one of these.
fn add_pair(
    alloc: Global,
    file: &mut Vec<u8>,
    low: u32,
    high: u32,
    faulty: [(u32, u32); 2],
) -> Result<(), AllocError> {
    let text = format!(in alloc; "pair,0,{low},{high},Z")?;
    add(file, &text)?;
    if faulty[0] == (low, high) || faulty[1] == (low, high) {
        add(file, "0")?;
    }
    add(file, "\n")
}

// Adds the rows of the keys that a meter shares with those after it.
fn add_pairs(
    alloc: Global,
    file: &mut Vec<u8>,
    low: u32,
    faulty: [(u32, u32); 2],
) -> Result<(), AllocError> {
    for high in 0..92 {
        if high > low {
            add_pair(alloc, file, low, high, faulty)?;
        }
    }
    Ok(())
}

// Adds the rows of the own keys of 92 meters.
fn add_own_keys(alloc: Global, file: &mut Vec<u8>) -> Result<(), AllocError> {
    for meter in 0..92 {
        let text = format!(in alloc; "own,0,{meter},Z\n")?;
        add(file, &text)?;
    }
    Ok(())
}

// A plan of 92 meters. Rows 5 to 96 are their own keys, and rows 97 to 4,282 the keys of their pairs.
fn long_plan(alloc: Global, faulty: [(u32, u32); 2]) -> Result<Vec<u8>, AllocError> {
    let mut file = plan_file(alloc, 2, 10, "rounds,1\nwindows,1,2\ngroup,north,92,2", "")?;
    add_own_keys(alloc, &mut file)?;
    for low in 0..92 {
        add_pairs(alloc, &mut file, low, faulty)?;
    }
    Ok(file)
}

// Two pairs whose keys are faulty, and the row of the first. Before those of meter 72 there are 91 + 90 + .. + 20 = 3,996
// rows of pairs, so its first is row 97 + 3,996 = 4,093, that of meters 72 and 73. The first 4,096 rows after the group
// end with row 4,100.
static LONG_FAULTS: [((u32, u32), (u32, u32), u32); 4] = [
    ((90, 91), (90, 91), 4282),
    ((72, 81), (90, 91), 4101),
    ((72, 80), (72, 81), 4100),
    ((0, 1), (90, 91), 97),
];

#[test]
fn plans_of_many_keys(rt: HostRuntime) -> Result<(), Fail> {
    for case in LONG_FAULTS.iter() {
        let (first, second, row) = *case;
        let file = long_plan(rt.alloc(), [first, second])?;
        let fault = fault_at(row, FileCause::Hex);
        check_fault(&rt, rt.alloc(), &file, fault, "a long plan", "");
    }
    let file = long_plan(rt.alloc(), [(0, 0), (0, 0)])?;
    check(&rt, read(rt.alloc(), &file).is_ok(), "a long plan");
    Ok(())
}

fn read_for_everybody(alloc: Global, bytes: &[u8]) -> Result<Plan, Failed<FileFault>> {
    if bytes.len() > 1 << 28 {
        return Err(Failed::Memory);
    }
    read_public(alloc, bytes)
}

// What a public plan of two rounds and one group has before its members.
const PUBLIC_HEAD: &str = "public,1\nrounds,2\nwindows,1,2\ngroup,north,3,2\n";

// The rows of a public plan, and the row and the cause of its first fault.
static PUBLIC_FAULTS: [(&str, u32, FileCause); 9] = [
    ("plan,1\nrounds,2\nwindows,1,2\n", 1, FileCause::Row),
    ("public,2\nrounds,2\nwindows,1,2\n", 1, FileCause::Row),
    ("public,1\nrounds,2\n", 3, FileCause::Short),
    (
        "public,1\nrounds,2\nwindows,0,2\ngroup,north,3,2\n",
        0,
        WINDOW,
    ),
    (
        "public,1\nrounds,2\nwindows,1,2\ngroup,north,3,2\nown,0,0,Z\n",
        5,
        FileCause::Row,
    ),
    (
        "public,1\nrounds,2\nwindows,1,2\ngroup,north,3,2\nlane,clear,,0,0\n",
        5,
        FileCause::Row,
    ),
    (
        "public,1\nrounds,2\nwindows,1,2\ngroup,north,3,2\nmember,0,2,1,2\ngroup,south,3,2\n",
        6,
        FileCause::Row,
    ),
    (
        "public,1\nrounds,2\nwindows,1,2\ngroup,north,3,2\nmember,0,2,1,2\nmember,0,2,0,2\n",
        6,
        FileCause::Member(SpanError::Twice(1)),
    ),
    (
        "public,1\nrounds,2\nwindows,1,2\ngroup,north,3,2\nmember,0,3,1,2\n",
        5,
        FIRST_SPAN,
    ),
];

#[test]
fn first_faults_of_public_plans(rt: HostRuntime) -> Result<(), Fail> {
    for case in PUBLIC_FAULTS.iter() {
        let (text, row, cause) = *case;
        let came = read_for_everybody(rt.alloc(), text.as_bytes()).err();
        check_same(&rt, &came, &Some(fault_at(row, cause)), text);
    }
    Ok(())
}

// A row of a member with the whole span is accepted, and the members are those of the rows.
#[test]
fn public_plan_read(rt: HostRuntime) -> Result<(), Fail> {
    let alloc = rt.alloc();
    let text = format!(in alloc; "{PUBLIC_HEAD}member,0,2,1,2\nmember,0,1,0,2\n")?;
    let Ok(plan) = read_for_everybody(alloc, text.as_bytes()) else {
        return Err(Fail::from("a public plan"));
    };
    check(&rt, plan.rounds() == 2, "rounds");
    check_member(&rt, &plan, 0, 2, false);
    check_member(&rt, &plan, 1, 2, true);
    check_member(&rt, &plan, 0, 1, true);
    Ok(())
}
