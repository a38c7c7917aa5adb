//! The lines after the head.
ghost use Rattle.std.specs.Prelude.{◌≡◌};
ghost use Rattle.std.specs.Option.{ok_or, option_map};
ghost use Rattle.group_plan.specs.Plans.{size};
ghost use Rattle.field_texts.specs.Numbers.{number_of};
ghost use Rattle.field_texts.specs.Parts.{parts};
ghost use Rattle.transcript_text.specs.ReadBack.{HasHead};
ghost use Rattle.transcript_text.specs.Parts.{at, view, AreFields};
ghost use Rattle.transcript_text.specs.declared.fault.BodyLine.TheVariants as row;
ghost use Rattle.transcript_text.specs.declared.fault.RowFault.TheVariants as row_fault;
ghost use Rattle.transcript_text.specs.Reading.{tick_of, group_of, round_of, tag_of, send_of, take_of, close_of, end_of, as_entry, row_of};

use crate::Version;
use crate::cut::{Fields, split_fields};
use crate::fault::{BodyLine, RowFault};
use crate::fields::{closing, ending, kind, sent, verdict};
use crate::written::written;
use event_schedule::{Entry, Line};
use field_texts::{read_number, read_number_within};
use group_plan::{Plan, Tag};
use link_lanes::{Fate, read_fate};

/// Field 1, a tick that is not below `last`.
fn tick(last: u32, fields: &Fields) -> Result<u32, RowFault>
    requires { AreFields fields.now }
    ensures { result ≡ tick_of last (view fields.now) }
{
    let tick = read_number_within(fields.get(0), u64::from(last), 1 << 32);
    Ok(tick.ok_or(RowFault::Field(1))? as u32)
}

/// Field 3, a group of the plan.
fn group(plan: &Plan, fields: &Fields) -> Result<u16, RowFault>
    requires { AreFields fields.now }
    ensures { result ≡ group_of plan.now (view fields.now) }
{
    let groups = plan.groups().len() as u64;
    let group = read_number_within(fields.get(2), 0, groups).ok_or(RowFault::Field(3))?;
    Ok(group as u16)
}

/// Field 4, a round of the plan.
fn round(plan: &Plan, fields: &Fields) -> Result<u32, RowFault>
    requires { AreFields fields.now }
    ensures { result ≡ round_of plan.now (view fields.now) }
{
    let rounds = u64::from(plan.rounds());
    let round = read_number_within(fields.get(3), 0, rounds).ok_or(RowFault::Field(4))?;
    Ok(round as u32)
}

/// Fields 3 to 6, a tag of the plan.
#[tactic(auto, unfolding(crate::specs::Reading::tag_of))]
fn tag(plan: &Plan, fields: &Fields) -> Result<Tag, RowFault>
    requires { AreFields fields.now }
    ensures { result ≡ tag_of plan.now (view fields.now) }
{
    let group = group(plan, fields)?;
    let round = round(plan, fields)?;
    let kind = kind(fields.get(4)).ok_or(RowFault::Field(5))?;
    let meters = u64::from(plan.meters(group));
    let meter = read_number_within(fields.get(5), 0, meters).ok_or(RowFault::Field(6))?;
    Ok(Tag {
        group,
        round,
        meter: meter as u8,
        kind,
    })
}

/// The entry of a Send line.
#[tactic(auto, unfolding(crate::specs::Reading::send_of))]
fn send(version: Version, plan: &Plan, last: u32, fields: &Fields) -> Result<Entry, RowFault>
    requires { AreFields fields.now }
    ensures { result ≡ send_of version plan.now last (view fields.now) }
{
    let tick = tick(last, fields)?;
    let tag = tag(plan, fields)?;
    let fate = read_fate(fields.get(6)).ok_or(RowFault::Field(7))?;
    let meters = plan.meters(tag.group);
    let frame = sent(version, meters, tag, fate, fields.get(7)).ok_or(RowFault::Field(8))?;
    Ok(Entry {
        tick,
        fate,
        line: Line::Send { tag, frame },
    })
}

/// The entry of a Take line.
#[tactic(auto, unfolding(crate::specs::Reading::take_of))]
fn take(plan: &Plan, last: u32, fields: &Fields) -> Result<Entry, RowFault>
    requires { AreFields fields.now }
    ensures { result ≡ take_of plan.now last (view fields.now) }
{
    let tick = tick(last, fields)?;
    let tag = tag(plan, fields)?;
    let verdict = verdict(fields.get(6)).ok_or(RowFault::Field(7))?;
    Ok(Entry {
        tick,
        fate: Fate::lost(),
        line: Line::Take { tag, verdict },
    })
}

/// The entry of a Close line.
#[tactic(auto, unfolding(crate::specs::Reading::close_of))]
fn close(plan: &Plan, last: u32, fields: &Fields) -> Result<Entry, RowFault>
    requires { AreFields fields.now }
    ensures { result ≡ close_of plan.now last (view fields.now) }
{
    let tick = tick(last, fields)?;
    let group = group(plan, fields)?;
    let round = round(plan, fields)?;
    let closing = closing(plan.meters(group), fields.get(4), fields.get(5))?;
    Ok(Entry {
        tick,
        fate: Fate::lost(),
        line: Line::Close {
            group,
            round,
            closing,
        },
    })
}

/// The entry of an End line.
#[tactic(auto, unfolding(crate::specs::Reading::end_of))]
fn end(plan: &Plan, last: u32, fields: &Fields) -> Result<Entry, RowFault>
    requires { AreFields fields.now }
    ensures { result ≡ end_of plan.now last (view fields.now) }
{
    let tick = tick(last, fields)?;
    let group = group(plan, fields)?;
    let round = round(plan, fields)?;
    let ending = ending(plan.meters(group), fields.get(4), fields.get(5))?;
    Ok(Entry {
        tick,
        fate: Fate::lost(),
        line: Line::End {
            group,
            round,
            ending,
        },
    })
}

/// An entry as a row.
fn as_row(entry: Result<Entry, RowFault>) -> Result<BodyLine, RowFault>
    ensures { result ≡ as_entry entry }
{
    Ok(BodyLine::Entry(entry?))
}

/// The row of the `end` line.
fn last_row(fields: &Fields) -> Result<BodyLine, RowFault>
    requires { AreFields fields.now }
    ensures { result ≡ ok_or (option_map row.Last (number_of (at (view fields.now) 1))) (row_fault.Field 2) }
{
    let count = read_number(fields.get(1)).ok_or(RowFault::Field(2))?;
    Ok(BodyLine::Last(count))
}

/// A line after an entry with the tick `last`, by its fields.
#[tactic(auto, using(crate::proofs::Cutting::length_view), unfolding(crate::specs::Reading::row_of))]
fn row_of_fields(
    version: Version,
    plan: &Plan,
    last: u32,
    fields: &Fields,
) -> Result<BodyLine, RowFault>
    requires { AreFields fields.now }
    ensures { result ≡ row_of version plan.now last (view fields.now) }
{
    let kind = fields.get(1);
    if fields.count == 2 && fields.get(0) == b"end".as_slice() {
        last_row(fields)
    } else if fields.count == 8 && kind == b"s".as_slice() {
        as_row(send(version, plan, last, fields))
    } else if fields.count == 7 && kind == b"t".as_slice() {
        as_row(take(plan, last, fields))
    } else if fields.count == 6 && kind == b"c".as_slice() {
        as_row(close(plan, last, fields))
    } else if fields.count == 6 && kind == b"e".as_slice() {
        as_row(end(plan, last, fields))
    } else {
        Err(RowFault::Form)
    }
}

/// A line after an entry with the tick `last`. One as it is written is read at once, and any other by its fields.
#[tactic(auto, using(crate::proofs::LineFields::row_many, crate::proofs::WrittenLines::row_written))]
pub(crate) fn row(
    version: Version,
    plan: &Plan,
    last: u32,
    line: &[u8],
) -> Result<BodyLine, RowFault>
    requires { HasHead version plan.now }
    ensures { result ≡ row_of version plan.now last (parts 44 line.now) }
{
    let _groups = plan.groups();
    if let Some(entry) = written(version, plan, last, line) {
        return Ok(BodyLine::Entry(entry));
    }
    let Some(fields) = split_fields(line) else {
        return Err(RowFault::Form);
    };
    row_of_fields(version, plan, last, &fields)
}
