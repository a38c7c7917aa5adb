//! Readings files: their values and their first faults.

use crate::fixtures::{check_same, fault_at};
use group_plan::{Plan, Readings, Span};
use plan_files::{Failed, FileCause, FileFault, read_readings};
use row_fixtures::{group, reading_tag};
use std::alloc::Global;
use std::process::Abort;
use std::test::Fail;

// Two rounds of three meters and of two, the last of the three a member in round 1 alone.
fn small_plan(alloc: Global) -> Result<Plan, Fail> {
    let groups = [group(b"north", 3, 2)?, group(b"south", 2, 2)?];
    let span = Span {
        group: 0,
        meter: 2,
        from: 1,
        until: 2,
    };
    let plan = Plan::new(alloc, &groups, 2, 1, 2)?.with_members(&[span])?;
    Ok(plan)
}

fn fault_of_readings(alloc: Global, plan: &Plan, text: &[u8]) -> Option<Failed<FileFault>> {
    if text.len() > 1 << 28 {
        return None;
    }
    read_readings(alloc, plan, text).err()
}

fn reading_at(readings: &Readings, group: u16, round: u32, meter: u8) -> Option<u64> {
    if !readings.plan().holds(reading_tag(group, round, meter)) {
        return None;
    }
    readings.get(group, round, meter)
}

// Groups, rounds and meters, each with its reading.
static READINGS: [(u16, u32, u8, Option<u64>); 10] = [
    (0, 0, 0, Some(10)),
    (0, 0, 1, Some(20)),
    (0, 0, 2, None),
    (0, 1, 0, Some(1)),
    (0, 1, 1, None),
    (0, 1, 2, Some(1_099_511_627_775)),
    (1, 0, 0, Some(4)),
    (1, 0, 1, Some(5)),
    (1, 1, 0, None),
    (1, 1, 1, Some(0)),
];

// Looks for these readings.
fn check_readings(rt: &impl Abort, readings: &Readings) {
    for (group, round, meter, reading) in READINGS.iter() {
        let came = reading_at(readings, *group, *round, *meter);
        check_same(rt, &came, reading, "a reading");
    }
}

#[test]
fn readings_of_two_groups(rt: HostRuntime) -> Result<(), Fail> {
    let plan = small_plan(rt.alloc())?;
    let text = b"north,0,10,20,\nnorth,1,1,,1099511627775\nsouth,0,4,5\nsouth,1,\"\",0";
    match read_readings(rt.alloc(), &plan, text) {
        Ok(readings) => check_readings(&rt, &readings),
        Err(_) => return Err(Fail::new("refused")),
    }
    Ok(())
}

static WHOLE: [&str; 3] = [
    "north,0,10,20,\nnorth,1,1,2,3\nsouth,0,4,5\nsouth,1,,0\n",
    "\u{feff}north,0,10,20,\r\nnorth,1,1,2,3\rsouth,0,4,5\r\n\r\nsouth,1,,0\n\n",
    "\u{feff}\"north\",\"0\",\"1\"0,20,\nnorth,1,1,2,3\nsouth,0,4,5\nsouth,1,,\"0",
];

// Texts, each with the row and the cause of its first fault.
static FAULTS: [(&str, u32, FileCause); 34] = [
    ("", 1, FileCause::Short),
    ("\n\r\n", 1, FileCause::Short),
    ("north,0,10,20,\n", 2, FileCause::Short),
    (
        "north,0,10,20,\n\n\nnorth,1,1,2,3\nsouth,0,4,5\n",
        4,
        FileCause::Short,
    ),
    (
        "north,0,10,20,\nnorth,1,1,2,3\nsouth,0,4,5\nsouth,1,,0\n\"\"\n",
        5,
        FileCause::Extra,
    ),
    (
        "north,0,10,20,\nnorth,1,1,2,3\nsouth,0,4,5\nsouth,1,,0\n ",
        5,
        FileCause::Extra,
    ),
    (
        "north,0,10,20,\nnorth,1,1,2,3\nsouth,0,4,5\nsouth,1,,0\nsouth,1,,0",
        5,
        FileCause::Extra,
    ),
    ("\"\"\n", 1, FileCause::Row),
    ("\u{feff}\u{feff}north,0,10,20,\n", 1, FileCause::Row),
    ("north\n", 1, FileCause::Row),
    ("south,0,4,5\n", 1, FileCause::Row),
    ("north,1,1,2,3\n", 1, FileCause::Row),
    ("north,00,10,20,\n", 1, FileCause::Row),
    ("north,0 ,10,20,\n", 1, FileCause::Row),
    ("north,0,10,20,\nnorth,0,10,20,\n", 2, FileCause::Row),
    ("north,0\n", 1, FileCause::Fields),
    ("north,0,10,20\n", 1, FileCause::Fields),
    ("north,0,x,20,30,\n", 1, FileCause::Fields),
    ("north,0,10,20,30\n", 1, FileCause::NotMember),
    ("north,0,10,20,x\n", 1, FileCause::NotMember),
    ("north,0,10,20,\nnorth,1,1,2,x\n", 2, FileCause::Number),
    ("north,0,x,20,30\n", 1, FileCause::Number),
    ("north,0,x,1099511627776,\n", 1, FileCause::Number),
    ("north,0,1099511627776,x,\n", 1, FileCause::Range),
    ("north,0,18446744073709551615,,\n", 1, FileCause::Range),
    ("north,0,18446744073709551616,,\n", 1, FileCause::Number),
    ("north,0,18446744073709551626,,\n", 1, FileCause::Number),
    (
        "north,0,1000000000000000000000000000000000000000000000000000,,\n",
        1,
        FileCause::Number,
    ),
    ("north,0,010,20,\n", 1, FileCause::Number),
    ("north,0,+1,20,\n", 1, FileCause::Number),
    ("north,0,-0,20,\n", 1, FileCause::Number),
    ("north,0, 1,20,\n", 1, FileCause::Number),
    ("north,0,1\"0,20,\n", 1, FileCause::Number),
    ("north,0,\u{661},20,\n", 1, FileCause::Number),
];

#[test]
fn first_faults_of_readings(rt: HostRuntime) -> Result<(), Fail> {
    let plan = small_plan(rt.alloc())?;
    for text in WHOLE.iter() {
        let came = fault_of_readings(rt.alloc(), &plan, text.as_bytes());
        check_same(&rt, &came, &None, text);
    }
    for (text, row, cause) in FAULTS.iter() {
        let fault = fault_at(*row, *cause);
        let came = fault_of_readings(rt.alloc(), &plan, text.as_bytes());
        check_same(&rt, &came, &Some(fault), text);
    }
    Ok(())
}
