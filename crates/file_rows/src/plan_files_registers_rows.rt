//! Readings files of several registers: their values and their first faults.

ghost use Rattle.std.specs.Prelude.{◌≤◌};

use crate::fixtures::{check_same, fault_at};
use group_plan::Plan;
use plan_files::{Failed, FileCause, FileFault, Registers, read_registers};
use row_fixtures::{plan_of_north, reading_tag};
use std::alloc::Global;
use std::process::Abort;
use std::test::Fail;

fn fault_of_registers(
    alloc: Global,
    plan: &Plan,
    registers: u8,
    text: &[u8],
) -> Option<Failed<FileFault>>
    requires { (2 ≤ registers) × (registers ≤ 8) }
{
    if text.len() > 1 << 28 {
        return None;
    }
    read_registers(alloc, plan, registers, text).err()
}

fn reading_at(registers: &Registers, register: u8, meter: u8) -> Option<u64> {
    if register >= registers.count() {
        return None;
    }
    let table = registers.table(register);
    if !table.plan().holds(reading_tag(0, 0, meter)) {
        return None;
    }
    table.get(0, 0, meter)
}

// Registers and meters, each with its reading.
static READINGS: [(u8, u8, Option<u64>); 6] = [
    (0, 0, Some(10)),
    (0, 1, None),
    (0, 2, Some(1_099_511_627_775)),
    (1, 0, Some(1)),
    (1, 1, None),
    (1, 2, Some(0)),
];

// Looks for these readings.
fn check_readings(rt: &impl Abort, registers: &Registers) {
    for (register, meter, reading) in READINGS.iter() {
        let came = reading_at(registers, *register, *meter);
        check_same(rt, &came, reading, "a reading");
    }
}

#[test]
fn registers_of_two(rt: HostRuntime) -> Result<(), Fail> {
    let plan = plan_of_north(rt.alloc(), 1)?;
    let text = b"north,0,10+1,,\"1099511627775+0\"\n";
    match read_registers(rt.alloc(), &plan, 2, text) {
        Ok(registers) => check_readings(&rt, &registers),
        Err(_) => return Err(Fail::new("refused")),
    }
    Ok(())
}

// Fields of meter 0 with two registers, each with the cause of its fault.
static FAULTS: [(&str, FileCause); 13] = [
    ("10", FileCause::Number),
    ("10+", FileCause::Number),
    ("+10", FileCause::Number),
    ("+", FileCause::Number),
    ("10+1+2", FileCause::Number),
    ("10+01", FileCause::Number),
    ("10 +1", FileCause::Number),
    ("1e3+1", FileCause::Number),
    ("\"10+1\"+2", FileCause::Number),
    ("10+1099511627776", FileCause::Range),
    ("1099511627776+x", FileCause::Number),
    ("10+18446744073709551615", FileCause::Range),
    ("10+18446744073709551616", FileCause::Number),
];

// A row with this field of meter 0, and right fields of the others.
fn row_with(alloc: Global, field: &str) -> Result<String, Fail> {
    let mut row = String::new(alloc);
    row.push_str("north,0,")?;
    row.push_str(field)?;
    row.push_str(",20+2,30+3\n")?;
    Ok(row)
}

#[test]
fn first_faults_of_registers(rt: HostRuntime) -> Result<(), Fail> {
    let plan = plan_of_north(rt.alloc(), 1)?;
    for (field, cause) in FAULTS.iter() {
        let row = row_with(rt.alloc(), field)?;
        let came = fault_of_registers(rt.alloc(), &plan, 2, row.as_bytes());
        check_same(&rt, &came, &Some(fault_at(1, *cause)), field);
    }
    Ok(())
}

// Eight readings of 20 digits are out of range, and a ninth is one too many.
#[test]
fn eight_registers(rt: HostRuntime) -> Result<(), Fail> {
    let plan = plan_of_north(rt.alloc(), 1)?;
    let rows = [
        ("north,0,1+2+3+4+5+6+7+8,,\n", None),
        (
            "north,0,18446744073709551615+18446744073709551615+18446744073709551615+18446744073709551615+18446744073709551615+18446744073709551615+18446744073709551615+18446744073709551615,,\n",
            Some(fault_at(1, FileCause::Range)),
        ),
        (
            "north,0,1+2+3+4+5+6+7+8+9,,\n",
            Some(fault_at(1, FileCause::Number)),
        ),
        (
            "north,0,1+2+3+4+5+6+7,,\n",
            Some(fault_at(1, FileCause::Number)),
        ),
    ];
    for (text, fault) in rows {
        let came = fault_of_registers(rt.alloc(), &plan, 8, text.as_bytes());
        check_same(&rt, &came, &fault, text);
    }
    Ok(())
}
