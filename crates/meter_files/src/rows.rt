//! The rows that a meter file and the head of a meter's journal share.

ghost use Rattle.std.specs.Prelude.{◌≡◌, ◌<◌, ◌++◌, ◌∷◌, decimal, length, OnOk};
ghost use Rattle.group_plan.specs.Plans.{size, name_of, floor_of};
ghost use Rattle.plan_files.specs.PlainRows.{file_text, row_text};
ghost use Rattle.meter_files.specs.Spelling.{rounds_row, group_row, self_row, part_rows, member_row, member_rows_of, member_rows};

use field_texts::put_number;
use group_plan::{Plan, Span};
use std::alloc::AllocError;
use transcript_text::{is_partial, meter_span};

/// Appends a comma and a number.
pub(crate) fn put_field(out: &mut Vec<u8>, number: u32) -> Result<(), AllocError>
    ensures { OnOk result (out.new.items ≡ out.old.items ++ 44 ∷ decimal number) }
{
    out.push(b',')?;
    put_number(out, u64::from(number))
}

/// Appends the row of the rounds.
fn put_rounds(out: &mut Vec<u8>, plan: &Plan) -> Result<(), AllocError>
    ensures { OnOk result (out.new.items ≡ out.old.items ++ row_text (rounds_row plan.now)) }
{
    out.extend_from_slice(b"rounds")?;
    put_field(out, plan.rounds())?;
    out.extend_from_slice(b"\n")
}

/// Appends a comma and the name of the group at a place.
fn put_name(out: &mut Vec<u8>, plan: &Plan, place: u16) -> Result<(), AllocError>
    requires { place < length plan.now.groups }
    ensures { OnOk result (out.new.items ≡ out.old.items ++ 44 ∷ name_of plan.now.groups place) }
{
    let name = plan.groups()[place as usize].name;
    out.push(b',')?;
    out.extend_from_slice(name.bytes())
}

/// Appends a comma and the floor of the group at a place.
fn put_floor(out: &mut Vec<u8>, plan: &Plan, place: u16) -> Result<(), AllocError>
    requires { place < length plan.now.groups }
    ensures { OnOk result (out.new.items ≡ out.old.items ++ 44 ∷ decimal (floor_of plan.now.groups place)) }
{
    put_field(out, plan.groups()[place as usize].floor)
}

/// Appends the row of the group at a place, which frames name by this number.
fn put_group(out: &mut Vec<u8>, plan: &Plan, place: u16, group: u16) -> Result<(), AllocError>
    requires { place < length plan.now.groups }
    ensures { OnOk result (out.new.items ≡ out.old.items ++ row_text (group_row plan.now place group)) }
{
    out.extend_from_slice(b"group")?;
    put_field(out, u32::from(group))?;
    put_name(out, plan, place)?;
    put_field(out, plan.meters(place))?;
    put_floor(out, plan, place)?;
    out.extend_from_slice(b"\n")
}

/// Appends the row of the meter itself.
fn put_self(out: &mut Vec<u8>, meter: u8) -> Result<(), AllocError>
    ensures { OnOk result (out.new.items ≡ out.old.items ++ row_text (self_row meter)) }
{
    out.extend_from_slice(b"self")?;
    put_field(out, u32::from(meter))?;
    out.extend_from_slice(b"\n")
}

/// Appends the rows of the rounds, of the group at a place, which frames name by this number, and of the meter itself.
pub(crate) fn put_part(
    out: &mut Vec<u8>,
    plan: &Plan,
    place: u16,
    group: u16,
    meter: u8,
) -> Result<(), AllocError>
    requires { place < length plan.now.groups }
    ensures { OnOk result (out.new.items ≡ out.old.items ++ file_text (part_rows plan.now place group meter)) }
{
    put_rounds(out, plan)?;
    put_group(out, plan, place, group)?;
    put_self(out, meter)
}

/// Appends the row of a span.
fn put_span(out: &mut Vec<u8>, span: &Span) -> Result<(), AllocError>
    ensures { OnOk result (out.new.items ≡ out.old.items ++ row_text (member_row span.now)) }
{
    out.extend_from_slice(b"member")?;
    put_field(out, span.meter)?;
    put_field(out, span.from)?;
    put_field(out, span.until)?;
    out.extend_from_slice(b"\n")
}

/// Appends the row of a meter, where it isn't a member in all rounds.
fn put_member(out: &mut Vec<u8>, plan: &Plan, place: u16, meter: u8) -> Result<(), AllocError>
    requires { meter < size plan.now.groups place }
    ensures { OnOk result (out.new.items ≡ out.old.items ++ file_text (member_rows_of plan.now place meter)) }
{
    let span = meter_span(plan, place, meter);
    if is_partial(plan.rounds(), &span) {
        put_span(out, &span)?;
    }
    Ok(())
}

/// Appends the rows of the meters of the group at a place that aren't members in all rounds.
#[tactic(auto, unfolding(crate::specs::Spelling::member_rows))]
pub(crate) fn put_members(out: &mut Vec<u8>, plan: &Plan, place: u16) -> Result<(), AllocError>
    ensures { OnOk result (out.new.items ≡ out.old.items ++ file_text (member_rows plan.now place)) }
{
    for meter in 0..plan.meters(place) {
        put_member(out, plan, place, meter as u8)?;
    }
    Ok(())
}
