//! The meters of one group: each reads its rounds, and answers at most one missing set in each.

ghost use Rattle.std.specs.Prelude.{◌≡◌, ◌+◌, ◌<◌, ℕ, true, IfOk, length, List};
ghost use Rattle.group_plan.specs.Tables.{PresenceView, presence_of};
ghost use Rattle.meter_frames.specs.declared.Frame.{Frame as FrameView};
ghost use Rattle.event_schedule.specs.declared.Event.{Event};
ghost use Rattle.plan_meters.specs.Meters.{AreOfGroup, CanReadGroup, is_announcement, IsTold};
ghost use Rattle.plan_meters.specs.GroupMeters.{AreGroupMeters, CanHearIn, KeepsSet};

use crate::meters::{is_announcement, is_answer, new_group, read_group};
use group_plan::Readings;
use meter_core::Meter;
use meter_frames::Frame;
use std::alloc::{AllocError, Global};

/// The meters of a group, one after another.
#[derive(Drop)]
pub struct GroupMeters {
    pub meters: Vec<Meter>,
}

impl GroupMeters {
    /// The meters of a group with these readings, before they read or hear anything.
    pub fn new(alloc: Global, readings: &Readings, group: u16) -> Result<GroupMeters, AllocError>
        requires { group < length readings.now.plan.groups }
        ensures { IfOk result (λ made. (past : List Event) → AreOfGroup (presence_of readings.now) past 0 group made.meters.items) }
    {
        Ok(GroupMeters {
            meters: new_group(alloc, readings, group)?,
        })
    }

    /// Marks the round that starts at the tick as read by each meter of the group that has a reading in it.
    pub fn read(&mut self, readings: &Readings, group: u16, tick: u32)
        requires group { group < length readings.now.plan.groups }
        requires can { CanReadGroup readings.now tick group self.old.meters.items }
        ensures { (past : List Event) → AreOfGroup (presence_of readings.now) past tick group self.old.meters.items → AreOfGroup (presence_of readings.now) past (tick + 1) group self.new.meters.items }
    {
        if tick < readings.plan().rounds() {
            read_group(&mut self.meters, readings, group, tick);
        }
    }

    /// Whether the frame to a meter of the group is an announcement that it answers: it hears of the set that the frame carries.
    pub fn hear(&mut self, frame: &Frame) -> bool
        requires { CanHearIn self.old.meters.items frame.now }
        ensures meters { (p : PresenceView) (past : List Event) (t : ℕ) → AreGroupMeters p past t frame.now.tag.group self.old.meters.items → (is_announcement frame.now.tag ≡ true → IsTold p past t frame.now) →
            AreGroupMeters p past t frame.now.tag.group self.new.meters.items }
        ensures answered { result ≡ is_announcement frame.now.tag }
        ensures heard { is_announcement frame.now.tag ≡ true → KeepsSet self.new.meters.items frame.now }
        ensures kept { (other : FrameView) → KeepsSet self.old.meters.items other → KeepsSet self.new.meters.items other }
    {
        if !is_announcement(frame.tag) {
            return false;
        }
        let meter = &mut self.meters[frame.tag.meter as usize];
        is_answer(meter.hear(frame.tag.round, &frame.missing))
    }
}
