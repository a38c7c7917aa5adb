//! What a meter has of its plan.

ghost use Rattle.std.specs.Prelude.{◌≡◌, ◌<◌, ◌≤◌, length};
ghost use Rattle.group_plan.specs.Plans.{size, floor_of};

use group_plan::{Kind, Plan, Tag};
use missing_round::MeterSet;

/// A meter's part of a plan: its group as a plan of one group, whose windows mean nothing, and the numbers under which frames
/// name the group and the meter.
#[derive(Drop)]
pub struct Part {
    home: Plan,
    group: u16,
    meter: u8,
    ghost one: { length home.groups ≡ 1 },
    ghost is_meter: { meter < size home.groups 0 },
}

impl Part {
    ghost use Rattle.meter_apart.specs.Parts.{MakesPart, home_of, group_of, members_in, takes_part, own_tag, is_to_me};

    /// The part of a meter, or `None` where the plan has another number of groups than one, or no such meter.
    pub fn new(home: Plan, group: u16, meter: u8) -> Option<Part>
        ensures { MakesPart home group meter result }
    {
        if home.groups().len() != 1 || u32::from(meter) >= home.meters(0) {
            return None;
        }
        Some(Part { home, group, meter })
    }

    /// The number of rounds.
    pub fn rounds(&self) -> u32
        ensures rounds { result ≡ self.now.home.rounds }
        ensures least { 1 ≤ result }
        ensures most { result ≤ 4096 }
    {
        self.home.rounds()
    }

    /// The meter's group as a plan of one group. Its windows mean nothing.
    pub fn home(&self) -> &Plan
        ensures home { result.now ≡ home_of self.now }
        ensures one { length (home_of self.now).groups ≡ 1 }
        ensures meter { self.now.meter < size (home_of self.now).groups 0 }
    {
        let _rounds = self.home.rounds();
        &self.home
    }

    /// The number by which frames name the group.
    pub fn group(&self) -> u16
        ensures { result ≡ group_of self.now }
    {
        self.group
    }

    /// The number of the meter in its group.
    pub fn meter(&self) -> u8
        ensures { result ≡ self.now.meter }
    {
        self.meter
    }

    /// The number of meters of its group.
    pub(crate) fn meters(&self) -> u32
        ensures { result ≡ size self.now.home.groups 0 }
    {
        self.home.meters(0)
    }

    /// The fewest survivors with which a round is announced.
    pub(crate) fn floor(&self) -> u16
        ensures floor { result ≡ floor_of self.now.home.groups 0 }
        ensures least { 2 ≤ result }
        ensures most { result ≤ 256 }
    {
        self.home.groups()[0].floor as u16
    }

    /// The members of the meter's group in a round.
    pub(crate) fn members(&self, round: u32) -> MeterSet
        requires { round < self.now.home.rounds }
        ensures { result ≡ members_in self.now round }
    {
        let mut members = MeterSet::empty();
        for meter in 0..self.home.meters(0) {
            if self.home.is_member(0, round, meter as u8) {
                members = members.with(meter as u8);
            }
        }
        members
    }

    /// Whether the plan has the round, and the meter is a member of it.
    pub(crate) fn takes_part(&self, round: u32) -> bool
        ensures { result ≡ takes_part self.now round }
    {
        round < self.home.rounds() && self.home.is_member(0, round, self.meter)
    }

    /// The tag of this kind under which the meter's frames go.
    pub(crate) fn own_tag(&self, kind: Kind, round: u32) -> Tag
        ensures { result ≡ own_tag self.now kind round }
    {
        Tag {
            group: self.group,
            round,
            meter: self.meter,
            kind,
        }
    }

    /// Whether a tag is that of an announcement to the meter.
    pub(crate) fn is_to_me(&self, tag: Tag) -> bool
        ensures { result ≡ is_to_me self.now tag }
    {
        tag.group == self.group && tag.meter == self.meter && matches!(tag.kind, Kind::Announcement)
    }
}
