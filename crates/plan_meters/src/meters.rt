//! What the meters of a group read and answer, one after another.

ghost use Rattle.std.specs.Prelude.{◌≡◌, ◌+◌, ◌<◌, IfOk, IsTrue, is_some, length, List};
ghost use Rattle.group_plan.specs.Plans.{is_place, is_member};
ghost use Rattle.group_plan.specs.Tables.{presence_of, reading};
ghost use Rattle.event_schedule.specs.declared.Event.{Event};
ghost use Rattle.plan_meters.specs.Meters.{AreOfGroup, CanReadGroup, is_answer, is_announcement};

use event_schedule::{floor_of, members};
use group_plan::{Kind, Readings, Tag};
use meter_core::{Heard, Meter};
use std::alloc::{AllocError, Global};

/// The meters of a group, before they read or hear anything.
pub(crate) fn new_group(
    alloc: Global,
    readings: &Readings,
    group: u16,
) -> Result<Vec<Meter>, AllocError>
    requires { group < length readings.now.plan.groups }
    ensures { IfOk result (λ meters. (past : List Event) → AreOfGroup (presence_of readings.now) past 0 group meters.items) }
{
    let plan = readings.plan();
    let floor = floor_of(plan, group);
    let rounds = plan.rounds();
    let mut meters = Vec::new(alloc);
    for meter in 0..plan.meters(group) {
        meters.push(Meter::new(alloc, meter as u8, floor, rounds)?)?;
    }
    Ok(meters)
}

/// Whether a meter has a reading in a round.
fn has_reading(readings: &Readings, group: u16, round: u32, meter: u8) -> bool
    requires { IsTrue (is_place readings.now.plan group round meter) }
    ensures present { result ≡ is_some (reading readings.now.table group round meter) }
    ensures member { IsTrue result → IsTrue (is_member readings.now.plan.groups group round meter) }
{
    readings.get(group, round, meter).is_some()
}

/// Marks the round as read by each meter of the group that has a reading in it.
pub(crate) fn read_group(meters: &mut [Meter], readings: &Readings, group: u16, round: u32)
    requires group { group < length readings.now.plan.groups }
    requires round { round < readings.now.plan.rounds }
    requires meters { CanReadGroup readings.now round group meters.old }
    ensures { (past : List Event) → AreOfGroup (presence_of readings.now) past round group meters.old → AreOfGroup (presence_of readings.now) past (round + 1) group meters.new }
{
    let members = members(readings.plan(), group, round);
    for meter in 0..readings.plan().meters(group) {
        if has_reading(readings, group, round, meter as u8) {
            meters[meter as usize].mark_read(round, &members);
        }
    }
}

/// Whether it is an announcement.
pub(crate) fn is_announcement(tag: Tag) -> bool
    ensures { result ≡ is_announcement tag }
{
    tag.kind == Kind::Announcement
}

/// Whether the meter answers.
pub(crate) fn is_answer(heard: Heard) -> bool
    ensures { result ≡ is_answer heard }
{
    match heard {
        Heard::Answer | Heard::AnswerAgain => true,
        Heard::Refused(_) => false,
    }
}
