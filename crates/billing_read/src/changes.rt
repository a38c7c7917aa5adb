//! The other world: the readings of which one has moved to its partner.
ghost use Rattle.std.specs.Prelude.{◌≡◌, ◌<◌, ◌^◌, ◌+◌, IsTrue, IsSome, IfOk, IfSome, length};
ghost use Rattle.group_plan.specs.Plans.{is_place, is_member, size};
ghost use Rattle.group_plan.specs.Tables.{reading};
ghost use Rattle.billing_read.specs.Partners.{CanExchange, move_of, moved};
ghost use Rattle.billing_read.specs.PartnerEnds.{IsOtherWorld};
ghost use Rattle.billing_read.specs.Changes.{after_change, HasBefore, IsChange, CanStep};

use crate::{Partner, ReadingPlace};
use group_plan::{Plan, Readings};
use std::alloc::{AllocError, Global};

// A reading that moves to its partner.
#[derive(Clone, Copy)]
struct Change<'a> {
    readings: &'a Readings,
    place: ReadingPlace,
    partner: Partner,
}

// A reading that rises by 1, falls by 1, or stays.
fn moved(step: Option<bool>, value: u64) -> u64
    requires { CanStep step value }
    ensures { result ≡ moved step value }
{
    match step {
        None => value,
        Some(true) => value + 1,
        Some(false) => value - 1,
    }
}

impl<'a> Change<'a> {
    // Whether the reading of a place rises, or falls, where it moves.
    fn move_of(&self, group: u16, round: u32, meter: u8) -> Option<bool>
        ensures { result ≡ move_of self.now.place.group self.now.place.round self.now.place.meter self.now.partner group round meter }
    {
        let (here, there) = (round == self.place.round, round == self.partner.round);
        let (same, partner) = (meter == self.place.meter, meter == self.partner.meter);
        if group != self.place.group {
            None
        } else if (here && same) || (there && partner) {
            Some(self.partner.plus)
        } else if (here && partner) || (there && same) {
            Some(!self.partner.plus)
        } else {
            None
        }
    }

    // The changed reading of a place.
    fn reading(&self, group: u16, round: u32, meter: u8) -> Option<u64>
        requires change { IsChange self.now }
        requires place { IsTrue (is_place self.now.readings.now.plan group round meter) }
        ensures reading { result ≡ after_change self.now group round meter }
        ensures small { IfSome result (λ v. v < 2 ^ 40) }
        ensures member { IsSome result → IsTrue (is_member self.now.readings.now.plan.groups group round meter) }
    {
        let reading = self.readings.get(group, round, meter)?;
        Some(moved(self.move_of(group, round, meter), reading))
    }

    // Puts the changed readings of a round.
    fn put_round(&self, group: u16, round: u32, other: &mut Readings)
        requires change { IsChange self.now }
        requires plan { other.old.plan ≡ self.now.readings.now.plan }
        requires round { round < self.now.readings.now.plan.rounds }
        requires before { HasBefore (after_change self.now) other.old group round 0 }
        ensures plan { other.new.plan ≡ other.old.plan }
        ensures after { HasBefore (after_change self.now) other.new group (round + 1) 0 }
    {
        let _readings = self.readings.plan();
        let _other = other.plan();
        for meter in 0..self.readings.plan().meters(group) {
            let reading = self.reading(group, round, meter as u8);
            other.put(group, round, meter as u8, reading);
        }
        let _whole = other.plan();
    }

    // Puts the changed readings of a group.
    fn put_group(&self, group: u16, other: &mut Readings)
        requires change { IsChange self.now }
        requires plan { other.old.plan ≡ self.now.readings.now.plan }
        requires before { HasBefore (after_change self.now) other.old group 0 0 }
        ensures plan { other.new.plan ≡ other.old.plan }
        ensures after { HasBefore (after_change self.now) other.new (group + 1) 0 0 }
    {
        let _readings = self.readings.plan();
        for round in 0..self.readings.plan().rounds() {
            self.put_round(group, round, other);
        }
        let _whole = other.plan();
    }
}

/// The readings in which one watt-hour has moved between a reading and its partner: with plus the reading rises by 1.
pub fn other_world(
    alloc: Global,
    plan: &Plan,
    readings: &Readings,
    place: ReadingPlace,
    partner: &Partner,
) -> Result<Readings, AllocError>
    requires plan { readings.now.plan ≡ plan.now }
    requires exchange { CanExchange (reading readings.now.table) place.group place.round place.meter partner.now }
    ensures { IfOk result (IsOtherWorld readings.now place.group place.round place.meter partner.now) }
{
    let _readings = readings.plan();
    let mut other = Readings::new(alloc, plan)?;
    let change = Change {
        readings,
        place,
        partner: *partner,
    };
    for group in 0..plan.groups().len() {
        change.put_group(group as u16, &mut other);
    }
    let _whole = other.plan();
    Ok(other)
}
