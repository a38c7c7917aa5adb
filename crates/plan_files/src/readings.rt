//! The readings file: one row for each group and round of a plan, and in each field a number for each register.
ghost use Rattle.std.specs.Prelude.{◌≡◌, ◌<◌, ◌≤◌, ◌+◌, ◌^◌, IfErr, IfOk, IfSome, IsTrue, None, Ok, OnOk, Some, drop, length, replicate};
ghost use Rattle.std.specs.Result.{result_err};
ghost use Rattle.group_plan.specs.Plans.{is_place, is_member, size};
ghost use Rattle.group_plan.specs.Tables.{absent};
ghost use Rattle.plan_files.specs.Faults.{Ends, Fails};
ghost use Rattle.plan_files.specs.KeptRows.{IsKept, fields_in};
ghost use Rattle.plan_files.specs.Readings.{fields_fault, is_row_of, readings_of, row_fault, rows_due};
ghost use Rattle.plan_files.specs.RegisterParts.{AreOfPlan, AreReadings, AreTables, FillsTables, PutsEach, of_register};
ghost use Rattle.plan_files.specs.Registers.{register_of, rows_say, tables_of};
ghost use Rattle.plan_files.specs.RowsLeft.{IsSound, rows_left};

use crate::fault::{Failed, FileCause, FileFault};
use crate::kept_row::FileRow;
use crate::row::{Numbers, is_long, is_word, number_field, readings_field};
use crate::row_reader::RowReader;
use group_plan::{Plan, Readings};
use std::alloc::{AllocError, Global};

/// Whether the row starts with the group's name and the round.
#[tactic(auto, unfolding(crate::specs::Readings::is_row_of, crate::specs::PlanRows::number_in))]
fn is_row_of(plan: &Plan, group: u16, round: u32, row: &FileRow<'_>) -> bool
    requires kept { IsKept row.now }
    requires group { group < length plan.now.groups }
    ensures { result ≡ is_row_of plan.now group round (fields_in row.now) }
{
    let name = plan.groups()[group as usize].name;
    if !is_word(row, 0, name.bytes()) {
        return false;
    }
    match number_field(row, 1) {
        Ok(number) => number == round,
        Err(_) => false,
    }
}

// The reading of a register among those of a field.
fn of_register(values: &Option<Numbers>, register: usize) -> Option<u64>
    requires { IfSome values.now (λ numbers. register < length numbers.items) }
    ensures { result ≡ of_register values.now register }
{
    match values {
        None => None,
        Some(numbers) => Some(numbers[register]),
    }
}

/// Puts the readings of a meter, in each table that of its register.
fn put_each(
    plan: &Plan,
    tables: &mut [Readings],
    group: u16,
    round: u32,
    meter: u8,
    values: &Option<Numbers>,
)
    requires of_plan { AreOfPlan plan.now tables.old }
    requires place { IsTrue (is_place plan.now group round meter) }
    requires values { AreReadings (length tables.old) (is_member plan.now.groups group round meter) values.now }
    ensures { PutsEach plan.now tables.old group round meter values.now tables.new }
{
    for register in 0..tables.len() {
        tables[register].put(group, round, meter, of_register(values, register));
    }
}

/// Puts the readings of a row's fields, up to the first fault.
fn put_fields(
    plan: &Plan,
    tables: &mut [Readings],
    group: u16,
    round: u32,
    row: &FileRow<'_>,
) -> Result<(), FileCause>
    requires kept { IsKept row.now }
    requires count { (1 ≤ length tables.old) × (length tables.old ≤ 8) }
    requires of_plan { AreOfPlan plan.now tables.old }
    requires round { round < plan.now.rounds }
    requires long { length (fields_in row.now) ≡ 2 + size plan.now.groups group }
    ensures fault { fields_fault (register_of (length tables.old) 0) plan.now group round 0 (drop 2 (fields_in row.now)) ≡ result_err result }
    ensures filled { OnOk result (FillsTables plan.now group round (fields_in row.now) (size plan.now.groups group) tables.old tables.new) }
{
    for meter in 0..plan.meters(group) {
        let is_member = plan.is_member(group, round, meter as u8);
        let values = readings_field(row, 2 + meter as usize, tables.len(), is_member)?;
        put_each(plan, tables, group, round, meter as u8, &values);
    }
    Ok(())
}

/// Puts the readings of a row, up to its first fault.
#[tactic(auto, unfolding(crate::specs::Readings::row_fault))]
fn put_row(
    plan: &Plan,
    tables: &mut [Readings],
    group: u16,
    round: u32,
    row: &FileRow<'_>,
) -> Result<(), FileCause>
    requires kept { IsKept row.now }
    requires count { (1 ≤ length tables.old) × (length tables.old ≤ 8) }
    requires of_plan { AreOfPlan plan.now tables.old }
    requires group { group < length plan.now.groups }
    requires round { round < plan.now.rounds }
    ensures fault { row_fault (register_of (length tables.old) 0) plan.now group round (fields_in row.now) ≡ result_err result }
    ensures filled { OnOk result (FillsTables plan.now group round (fields_in row.now) (size plan.now.groups group) tables.old tables.new) }
{
    if !is_row_of(plan, group, round, row) {
        return Err(FileCause::Row);
    }
    if !is_long(row, 2 + plan.meters(group) as usize) {
        return Err(FileCause::Fields);
    }
    put_fields(plan, tables, group, round, row)
}

/// How many rows the file of a plan has.
fn rows_due(plan: &Plan) -> usize
    ensures due { result ≡ rows_due plan.now }
    ensures few { result ≤ 2 ^ 20 }
{
    plan.groups().len() * plan.rounds() as usize
}

/// Puts the readings of all rows, up to the first fault.
fn put_rows(
    plan: &Plan,
    tables: &mut [Readings],
    rows: &mut RowReader<'_>,
) -> Result<(), Failed<FileFault>>
    requires new { tables.old ≡ replicate (length tables.old) (absent plan.now) }
    requires count { (1 ≤ length tables.old) × (length tables.old ≤ 8) }
    requires sound { IsSound rows.old }
    requires few { length (rows_left rows.old) ≤ 2 ^ 28 + 1 }
    ensures read { OnOk result (rows_say plan.now (length tables.old) (rows_left rows.old) ≡ Ok tables.new) }
    ensures fault { IfErr result (λ failed. Fails (rows_say plan.now (length tables.old) (rows_left rows.old)) failed) }
{
    let rounds = plan.rounds();
    let due = rows_due(plan);
    let mut at = 0;
    while let Some(row) = rows.current() {
        let number = at as u32 + 1;
        if at >= due {
            return Err(Failed::Fault(FileFault {
                row: number,
                cause: FileCause::Extra,
            }));
        }
        let group = (at as u32 / rounds) as u16;
        let round = at as u32 % rounds;
        if let Err(cause) = put_row(plan, tables, group, round, row) {
            return Err(Failed::Fault(FileFault { row: number, cause }));
        }
        at += 1;
        rows.advance()?;
    }
    if at < due {
        return Err(Failed::Fault(FileFault {
            row: at as u32 + 1,
            cause: FileCause::Short,
        }));
    }
    are_tables(tables);
    Ok(())
}

// A table without a reading for each of so many registers.
fn no_readings(alloc: Global, plan: &Plan, count: usize) -> Result<Vec<Readings>, AllocError>
    ensures { IfOk result (λ tables. tables.items ≡ replicate count (absent plan.now)) }
{
    let mut tables = Vec::new(alloc);
    for _register in 0..count {
        tables.push(Readings::new(alloc, plan)?)?;
    }
    Ok(tables)
}

// Learns that tables are reading tables.
fn are_tables(tables: &[Readings])
    ensures { AreTables tables.now }
{
    for at in 0..tables.len() {
        let _plan = tables[at].plan();
    }
}

/// The readings of each of so many registers that the bytes of a readings file say of a plan, or the first fault.
#[tactic(auto, unfolding(crate::specs::Registers::tables_of))]
pub(crate) fn read_tables(
    alloc: Global,
    plan: &Plan,
    count: usize,
    bytes: &[u8],
) -> Result<Vec<Readings>, Failed<FileFault>>
    requires count { (1 ≤ count) × (count ≤ 8) }
    requires few { length bytes.now ≤ 2 ^ 28 }
    ensures read { IfOk result (λ tables. tables_of plan.now count bytes.now ≡ Ok tables.items) }
    ensures fault { IfErr result (λ failed. Fails (tables_of plan.now count bytes.now) failed) }
{
    let mut rows = RowReader::new(alloc, bytes)?;
    let mut tables = no_readings(alloc, plan, count)?;
    put_rows(plan, tables.as_mut_slice(), &mut rows)?;
    Ok(tables)
}

/// The readings that the bytes of a readings file say of a plan, or the first fault.
pub fn read_readings(
    alloc: Global,
    plan: &Plan,
    bytes: &[u8],
) -> Result<Readings, Failed<FileFault>>
    requires { length bytes.now ≤ 2 ^ 28 }
    ensures { Ends (readings_of plan.now bytes.now) result }
{
    let mut tables = read_tables(alloc, plan, 1, bytes)?;
    match tables.pop() {
        Some(readings) => Ok(readings),
        None => Err(Failed::Memory),
    }
}
