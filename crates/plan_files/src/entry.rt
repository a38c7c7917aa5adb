//! The rows of a plan file after the groups: keys, lanes and members.
ghost use Rattle.std.specs.Prelude.{◌≡◌, ◌<◌, ◌≤◌, ◌+◌, ◌^◌, ◌∷◌, [], IfErr, IfOk, OnOk, Ok, Err, length};
ghost use Rattle.plan_files.specs.Faults.{Ends, Fails};
ghost use Rattle.plan_files.specs.KeptRows.{IsKept, fields_in};
ghost use Rattle.plan_files.specs.PlanForms.{entries_from};
ghost use Rattle.plan_files.specs.PlanRows.{arg_in, entry_of, key_or_lane, lane_row, member_row, own_row, pair_row};
ghost use Rattle.plan_files.specs.RowsLeft.{IsSound, rows_left};
ghost use Rattle.plan_files.specs.WrittenKeys.{AddsRows};

use crate::fault::{Failed, FileCause, FileFault};
use crate::fields::{is_quoted, plain_end, read_quoted};
use crate::form::PlanForm;
use crate::kept_row::FileRow;
use crate::key_row::take_keys;
use crate::row::{check_fields, is_word, key_field, name_field, number_field};
use crate::row_reader::RowReader;
use group_plan::Span;
use link_lanes::{Arg, ArgError, LaneRow};
use std::alloc::{AllocError, Global};

/// What a row after the groups says.
#[derive(Drop)]
pub enum PlanRow {
    /// A meter's own key.
    Own {
        group: u32,
        meter: u32,
        key: [u8; 32],
    },
    /// The key of two meters.
    Pair {
        group: u32,
        low: u32,
        high: u32,
        key: [u8; 32],
    },
    /// A lane, and the ticks for which it hangs.
    Lane(LaneRow),
    /// The rounds in which a meter is a member.
    Member(Span),
}

/// What a row `own,GROUP,METER,KEY` says.
#[tactic(auto, unfolding(crate::specs::PlanRows::own_row))]
fn own_row(row: &FileRow<'_>) -> Result<PlanRow, FileCause>
    requires kept { IsKept row.now }
    ensures { result ≡ own_row (fields_in row.now) }
{
    check_fields(row, 4)?;
    let group = number_field(row, 1)?;
    let meter = number_field(row, 2)?;
    let key = key_field(row, 3)?;
    Ok(PlanRow::Own { group, meter, key })
}

/// What a row `pair,GROUP,LOW,HIGH,KEY` says.
#[tactic(auto, unfolding(crate::specs::PlanRows::pair_row))]
fn pair_row(row: &FileRow<'_>) -> Result<PlanRow, FileCause>
    requires kept { IsKept row.now }
    ensures { result ≡ pair_row (fields_in row.now) }
{
    check_fields(row, 5)?;
    let group = number_field(row, 1)?;
    let low = number_field(row, 2)?;
    let high = number_field(row, 3)?;
    let key = key_field(row, 4)?;
    Ok(PlanRow::Pair {
        group,
        low,
        high,
        key,
    })
}

/// What a row `member,GROUP,METER,FROM,UNTIL` says.
#[tactic(auto, unfolding(crate::specs::PlanRows::member_row))]
fn member_row(row: &FileRow<'_>) -> Result<PlanRow, FileCause>
    requires kept { IsKept row.now }
    ensures { result ≡ member_row (fields_in row.now) }
{
    check_fields(row, 5)?;
    let group = number_field(row, 1)?;
    let meter = number_field(row, 2)?;
    let from = number_field(row, 3)?;
    let until = number_field(row, 4)?;
    Ok(PlanRow::Member(Span {
        group,
        meter,
        from,
        until,
    }))
}

/// The argument that a text is.
#[tactic(auto, unfolding(crate::specs::PlanRows::arg_in))]
fn arg_of(alloc: Global, text: &[u8]) -> Result<Arg, Failed<FileCause>>
    ensures { Ends (arg_in (text.now ∷ []) 0) result }
{
    match Arg::new(alloc, text) {
        Ok(arg) => Ok(arg),
        Err(ArgError::Byte(_)) => Err(Failed::Fault(FileCause::Name)),
        Err(ArgError::Memory) => Err(Failed::Memory),
    }
}

/// The argument in the third field.
fn arg_field(alloc: Global, row: &FileRow<'_>) -> Result<Arg, Failed<FileCause>>
    requires kept { IsKept row.now }
    requires long { 2 < length (fields_in row.now) }
    ensures { Ends (arg_in (fields_in row.now) 2) result }
{
    let bytes = row.third;
    if !is_quoted(bytes) {
        return arg_of(alloc, &bytes[..plain_end(bytes)]);
    }
    let mut text = Vec::new(alloc);
    read_quoted(&mut text, bytes, bytes.len())?;
    arg_of(alloc, &text)
}

/// What a row `lane,NAME,ARGUMENT,FROM,TO` says. The number is the row's in the file.
#[tactic(auto, unfolding(crate::specs::PlanRows::lane_row))]
fn lane_row(alloc: Global, number: u32, row: &FileRow<'_>) -> Result<PlanRow, Failed<FileCause>>
    requires kept { IsKept row.now }
    ensures { Ends (lane_row number (fields_in row.now)) result }
{
    check_fields(row, 5)?;
    let name = name_field(row, 1)?;
    let arg = arg_field(alloc, row)?;
    let from = number_field(row, 3)?;
    let to = number_field(row, 4)?;
    Ok(PlanRow::Lane(LaneRow {
        row: number,
        name,
        arg,
        from,
        to,
    }))
}

/// What a row of a key or a lane says. The number is the row's in the file.
#[tactic(auto, unfolding(crate::specs::PlanRows::key_or_lane))]
fn key_or_lane(alloc: Global, number: u32, row: &FileRow<'_>) -> Result<PlanRow, Failed<FileCause>>
    requires kept { IsKept row.now }
    ensures { Ends (key_or_lane number (fields_in row.now)) result }
{
    if is_word(row, 0, b"own") {
        Ok(own_row(row)?)
    } else if is_word(row, 0, b"pair") {
        Ok(pair_row(row)?)
    } else if is_word(row, 0, b"lane") {
        lane_row(alloc, number, row)
    } else {
        Err(Failed::Fault(FileCause::Row))
    }
}

/// What a row after the groups says: in a public plan that is a member's. The number is the row's in the file.
#[tactic(auto, unfolding(crate::specs::PlanRows::entry_of))]
pub fn read_entry(
    alloc: Global,
    form: PlanForm,
    number: u32,
    row: &FileRow<'_>,
) -> Result<PlanRow, Failed<FileCause>>
    requires kept { IsKept row.now }
    ensures { Ends (entry_of form number (fields_in row.now)) result }
{
    if is_word(row, 0, b"member") {
        return Ok(member_row(row)?);
    }
    match form {
        PlanForm::Whole => key_or_lane(alloc, number, row),
        PlanForm::Public => Err(Failed::Fault(FileCause::Row)),
    }
}

/// Adds what the rows of keys say that come next and stand as they are written.
fn add_keys(
    form: PlanForm,
    rows: &mut RowReader<'_>,
    entries: &mut Vec<PlanRow>,
) -> Result<(), AllocError>
    requires sound { IsSound rows.old }
    ensures added { OnOk result (AddsRows form (rows_left rows.old) (rows_left rows.new) entries.old.items entries.new.items) }
    ensures sound { OnOk result (IsSound rows.new) }
{
    match form {
        PlanForm::Public => Ok(()),
        PlanForm::Whole => {
            let before = entries.len();
            let rest = take_keys(entries, rows.bytes())?;
            if entries.len() == before {
                return Ok(());
            }
            rows.read(rest)
        }
    }
}

/// What the rows that are left say, up to the first fault of form. The first of them is row `first` of the file.
pub fn read_entries(
    alloc: Global,
    form: PlanForm,
    first: u32,
    rows: &mut RowReader<'_>,
) -> Result<Vec<PlanRow>, Failed<FileFault>>
    requires sound { IsSound rows.old }
    requires few { first + length (rows_left rows.old) ≤ 2 ^ 28 + 2 }
    ensures read { IfOk result (λ entries. entries_from form first (rows_left rows.old) ≡ Ok entries.items) }
    ensures few { IfOk result (λ entries. length entries.items ≤ length (rows_left rows.old)) }
    ensures fault { IfErr result (λ failed. Fails (entries_from form first (rows_left rows.old)) failed) }
{
    let mut entries = Vec::new(alloc);
    add_keys(form, rows, &mut entries)?;
    while let Some(row) = rows.current() {
        let number = first + entries.len() as u32;
        match read_entry(alloc, form, number, row) {
            Ok(entry) => entries.push(entry)?,
            Err(failed) => return Err(failed.in_row(number)),
        }
        rows.advance()?;
        add_keys(form, rows, &mut entries)?;
    }
    Ok(entries)
}
