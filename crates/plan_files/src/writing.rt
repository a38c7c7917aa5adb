//! The readings file of a table.
ghost use Rattle.std.specs.Prelude.{◌≡◌, ◌<◌, ◌++◌, ◌∷◌, Ok, IfOk, OnOk, codes, decimal, length, map};
ghost use Rattle.std.specs.List.{flat_map, range_with_len};
ghost use Rattle.group_plan.specs.Plans.{size, name_of};
ghost use Rattle.group_plan.specs.Tables.{reading};
ghost use Rattle.plan_files.specs.PlainRows.{row_text};
ghost use Rattle.plan_files.specs.Readings.{readings_of};
ghost use Rattle.plan_files.specs.Spelling.{reading_field, readings_row, readings_text};

use field_texts::put_number;
use group_plan::{Plan, Readings};
use std::alloc::{AllocError, Global};

/// Appends the name of a group and a round, parted by a comma.
fn put_place(out: &mut Vec<u8>, plan: &Plan, group: u16, round: u32) -> Result<(), AllocError>
    requires { group < length plan.now.groups }
    ensures { OnOk result (out.new.items ≡ out.old.items ++ name_of plan.now.groups group ++ codes "," ++ decimal round) }
{
    let name = plan.groups()[group as usize].name;
    out.extend_from_slice(name.bytes())?;
    out.push(b',')?;
    put_number(out, u64::from(round))
}

/// Appends a comma and a reading, or nothing behind the comma where it is absent.
fn put_reading(out: &mut Vec<u8>, reading: Option<u64>) -> Result<(), AllocError>
    ensures { OnOk result (out.new.items ≡ out.old.items ++ 44 ∷ reading_field reading) }
{
    out.push(b',')?;
    match reading {
        None => Ok(()),
        Some(reading) => put_number(out, reading),
    }
}

/// Appends the readings of a group in a round, each behind a comma.
fn put_meters(
    out: &mut Vec<u8>,
    readings: &Readings,
    group: u16,
    round: u32,
) -> Result<(), AllocError>
    requires { round < readings.now.plan.rounds }
    ensures { OnOk result (out.new.items ≡ out.old.items ++ flat_map (λ i. 44 ∷ reading_field (reading readings.now.table group round i)) (range_with_len 0 (size readings.now.plan.groups group))) }
{
    for meter in 0..readings.plan().meters(group) {
        put_reading(out, readings.get(group, round, meter as u8))?;
    }
    Ok(())
}

/// Appends the row of a group in a round.
fn put_row(out: &mut Vec<u8>, readings: &Readings, group: u16, round: u32) -> Result<(), AllocError>
    requires group { group < length readings.now.plan.groups }
    requires round { round < readings.now.plan.rounds }
    ensures { OnOk result (out.new.items ≡ out.old.items ++ row_text (readings_row readings.now.plan readings.now.table group round)) }
{
    put_place(out, readings.plan(), group, round)?;
    put_meters(out, readings, group, round)?;
    out.push(b'\n')?;
    Ok(())
}

/// Appends the rows of a group, by round.
fn put_group(out: &mut Vec<u8>, readings: &Readings, group: u16) -> Result<(), AllocError>
    requires { group < length readings.now.plan.groups }
    ensures { OnOk result (out.new.items ≡ out.old.items ++ flat_map row_text (map (readings_row readings.now.plan readings.now.table group) (range_with_len 0 readings.now.plan.rounds))) }
{
    for round in 0..readings.plan().rounds() {
        put_row(out, readings, group, round)?;
    }
    Ok(())
}

/// The readings file of a table, in plain fields. `read_readings` reads the same table from it.
pub fn write_readings(
    alloc: Global,
    plan: &Plan,
    readings: &Readings,
) -> Result<Vec<u8>, AllocError>
    requires { readings.now.plan ≡ plan.now }
    ensures text { IfOk result (λ text. text.items ≡ readings_text readings.now) }
    ensures read { IfOk result (λ text. readings_of plan.now text.items ≡ Ok readings.now) }
{
    let _readings = readings.plan();
    let mut out = Vec::new(alloc);
    for group in 0..plan.groups().len() {
        put_group(&mut out, readings, group as u16)?;
    }
    Ok(out)
}
