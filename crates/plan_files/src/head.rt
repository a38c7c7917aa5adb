//! The first rows of a plan file: its version, its rounds and windows, and its groups.
ghost use Rattle.std.specs.Prelude.{◌≡◌, ◌≤◌, ◌+◌, ◌^◌, IfErr, IfOk, OnOk, Ok, drop, length};
ghost use Rattle.plan_files.specs.Faults.{Fails};
ghost use Rattle.plan_files.specs.KeptRows.{IsKept, fields_in};
ghost use Rattle.plan_files.specs.PlanForms.{first_due, groups_from, head_of};
ghost use Rattle.plan_files.specs.PlanRows.{group_row, rounds_row, version_row, windows_row};
ghost use Rattle.plan_files.specs.RowsLeft.{IsSound, rows_left};

use crate::fault::{Failed, FileCause, FileFault};
use crate::form::PlanForm;
use crate::kept_row::FileRow;
use crate::row::{check_fields, is_long, is_word, name_field, number_field};
use crate::row_reader::RowReader;
use group_plan::GroupPlan;
use std::alloc::Global;

/// The ticks of the windows.
#[derive(Clone, Copy)]
pub struct Windows {
    pub reading: u32,
    pub recovery: u32,
}

/// The rounds and the windows of a plan.
#[derive(Clone, Copy)]
pub struct PlanHead {
    pub rounds: u32,
    pub windows: Windows,
}

/// The first row is the form's title and `1`.
#[tactic(auto, unfolding(crate::specs::PlanRows::version_row))]
fn check_version(form: PlanForm, row: &FileRow<'_>) -> Result<(), FileCause>
    requires kept { IsKept row.now }
    ensures { result ≡ version_row form (fields_in row.now) }
{
    if is_long(row, 2) && is_word(row, 0, form.title()) && is_word(row, 1, b"1") {
        Ok(())
    } else {
        Err(FileCause::Row)
    }
}

/// The number in a row `rounds,ROUNDS`.
#[tactic(auto, unfolding(crate::specs::PlanRows::rounds_row))]
pub fn read_rounds(row: &FileRow<'_>) -> Result<u32, FileCause>
    requires kept { IsKept row.now }
    ensures { result ≡ rounds_row (fields_in row.now) }
{
    if !is_word(row, 0, b"rounds") {
        return Err(FileCause::Row);
    }
    check_fields(row, 2)?;
    number_field(row, 1)
}

/// The windows in a row `windows,READING,RECOVERY`.
#[tactic(auto, unfolding(crate::specs::PlanRows::windows_row))]
fn read_windows(row: &FileRow<'_>) -> Result<Windows, FileCause>
    requires kept { IsKept row.now }
    ensures { result ≡ windows_row (fields_in row.now) }
{
    if !is_word(row, 0, b"windows") {
        return Err(FileCause::Row);
    }
    check_fields(row, 3)?;
    let reading = number_field(row, 1)?;
    let recovery = number_field(row, 2)?;
    Ok(Windows { reading, recovery })
}

/// The group of a row `group,NAME,METERS,FLOOR`.
#[tactic(auto, unfolding(crate::specs::PlanRows::group_row))]
fn read_group(row: &FileRow<'_>) -> Result<GroupPlan, FileCause>
    requires kept { IsKept row.now }
    ensures { result ≡ group_row (fields_in row.now) }
{
    check_fields(row, 4)?;
    let name = name_field(row, 1)?;
    let meters = number_field(row, 2)?;
    let floor = number_field(row, 3)?;
    Ok(GroupPlan {
        name,
        meters,
        floor,
    })
}

/// Whether the file starts with its version.
fn check_first_row(form: PlanForm, rows: &RowReader<'_>) -> Result<(), FileFault>
    requires { IsSound rows.now }
    ensures { result ≡ first_due (version_row form) 1 (rows_left rows.now) }
{
    let Some(row) = rows.current() else {
        return Err(FileFault {
            row: 1,
            cause: FileCause::Short,
        });
    };
    match check_version(form, row) {
        Ok(()) => Ok(()),
        Err(cause) => Err(FileFault { row: 1, cause }),
    }
}

/// The rounds of the plan, in its second row.
fn read_second_row(rows: &RowReader<'_>) -> Result<u32, FileFault>
    requires { IsSound rows.now }
    ensures { result ≡ first_due rounds_row 2 (rows_left rows.now) }
{
    let Some(row) = rows.current() else {
        return Err(FileFault {
            row: 2,
            cause: FileCause::Short,
        });
    };
    match read_rounds(row) {
        Ok(rounds) => Ok(rounds),
        Err(cause) => Err(FileFault { row: 2, cause }),
    }
}

/// The windows of the plan, in its third row.
fn read_third_row(rows: &RowReader<'_>) -> Result<Windows, FileFault>
    requires { IsSound rows.now }
    ensures { result ≡ first_due windows_row 3 (rows_left rows.now) }
{
    let Some(row) = rows.current() else {
        return Err(FileFault {
            row: 3,
            cause: FileCause::Short,
        });
    };
    match read_windows(row) {
        Ok(windows) => Ok(windows),
        Err(cause) => Err(FileFault { row: 3, cause }),
    }
}

/// What the first three rows say.
pub fn read_head(form: PlanForm, rows: &mut RowReader<'_>) -> Result<PlanHead, Failed<FileFault>>
    requires { IsSound rows.old }
    ensures read { IfOk result (λ head. head_of form (rows_left rows.old) ≡ Ok head) }
    ensures rest { OnOk result (rows_left rows.new ≡ drop 3 (rows_left rows.old)) }
    ensures sound { OnOk result (IsSound rows.new) }
    ensures fault { IfErr result (λ failed. Fails (head_of form (rows_left rows.old)) failed) }
{
    check_first_row(form, rows)?;
    rows.advance()?;
    let rounds = read_second_row(rows)?;
    rows.advance()?;
    let windows = read_third_row(rows)?;
    rows.advance()?;
    Ok(PlanHead { rounds, windows })
}

/// The group rows with which these rows start. The first of these is row 4 of the file.
pub fn read_groups(
    alloc: Global,
    rows: &mut RowReader<'_>,
) -> Result<Vec<GroupPlan>, Failed<FileFault>>
    requires sound { IsSound rows.old }
    requires few { length (rows_left rows.old) ≤ 2 ^ 28 + 1 }
    ensures read { IfOk result (λ groups. groups_from 4 (rows_left rows.old) ≡ Ok groups.items) }
    ensures few { IfOk result (λ groups. length groups.items ≤ length (rows_left rows.old)) }
    ensures rest { IfOk result (λ groups. rows_left rows.new ≡ drop (length groups.items) (rows_left rows.old)) }
    ensures sound { OnOk result (IsSound rows.new) }
    ensures fault { IfErr result (λ failed. Fails (groups_from 4 (rows_left rows.old)) failed) }
{
    let mut groups = Vec::new(alloc);
    while let Some(row) = rows.current() {
        if !is_word(row, 0, b"group") {
            return Ok(groups);
        }
        match read_group(row) {
            Ok(group) => groups.push(group)?,
            Err(cause) => {
                return Err(Failed::Fault(FileFault {
                    row: groups.len() as u32 + 4,
                    cause,
                }));
            }
        }
        rows.advance()?;
    }
    Ok(groups)
}
