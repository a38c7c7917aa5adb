//! The members of a round and the floor of a group, for the layers above.

ghost use Rattle.std.specs.Prelude.{◌≡◌, ◌<◌, ◌≤◌, length};
ghost use Rattle.group_plan.specs.Plans.{members, floor_of};
ghost use Rattle.event_schedule.specs.Transcripts.{HasRound};

use group_plan::Plan;
use missing_round::MeterSet;

/// The members of the group in the round.
pub fn members(plan: &Plan, group: u16, round: u32) -> MeterSet
    requires { HasRound plan.now group round }
    ensures { result ≡ members plan.now.groups group round }
{
    let mut members = MeterSet::empty();
    for meter in 0..plan.meters(group) {
        if plan.is_member(group, round, meter as u8) {
            members = members.with(meter as u8);
        }
    }
    members
}

/// The floor of the group: the fewest survivors with which a round of it is announced, 2 to 256.
pub fn floor_of(plan: &Plan, group: u16) -> u16
    requires { group < length plan.now.groups }
    ensures floor { result ≡ floor_of plan.now.groups group }
    ensures least { 2 ≤ result }
    ensures most { result ≤ 256 }
{
    plan.groups()[group as usize].floor as u16
}
