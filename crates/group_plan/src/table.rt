//! The tables over the places of a plan: readings, and who has one.

ghost use Rattle.std.specs.Prelude.{◌≡◌, ◌<◌, ◌^◌, IsTrue, IsSome, IfOk, IfSome, None, is_some, map, replicate};
ghost use Rattle.group_plan.specs.Plans.{is_place, is_member};
ghost use Rattle.group_plan.specs.Places.{places};
ghost use Rattle.group_plan.specs.Tables.{reading, absent, is_present, presence_of, IsReadingTable, IsPresenceTable, PutsReading, NotesReading};

use crate::Plan;
use std::alloc::{AllocError, Global};
use std::marker::Model;

/// The readings of a plan: at each place a number of watt-hours below 2^40, or none. Only members have one.
#[derive(Drop)]
pub struct Readings {
    plan: Plan,
    values: Vec<Option<u64>>,
}

impl Model for Readings {
    ghost use Rattle.std.specs.Prelude.{None};
    ghost use Rattle.group_plan.specs.Tables.{ReadingsView};
    ghost use Rattle.group_plan.specs.TableParts.{kept_table, KeepsReadings};

    ghost Value = { ReadingsView };

    ghost view = { λ r. record { plan = r.plan; table = kept_table None r.plan r.values.items } };

    ghost invariant = { λ r. KeepsReadings r.plan r.values.items };
}

/// No reading at each of so many places.
fn no_values(alloc: Global, places: usize) -> Result<Vec<Option<u64>>, AllocError>
    ensures { IfOk result (λ values. values.items ≡ replicate places None) }
{
    vec![in alloc; None; places]
}

impl Readings {
    /// A table without a reading.
    pub fn new(alloc: Global, plan: &Plan) -> Result<Readings, AllocError>
        ensures { IfOk result (λ readings. readings ≡ absent plan.now) }
    {
        Ok(Readings {
            plan: plan.try_copy()?,
            values: no_values(alloc, plan.places())?,
        })
    }

    /// The plan of the table.
    pub fn plan(&self) -> &Plan
        ensures plan { result.now ≡ self.now.plan }
        ensures table { IsReadingTable self.now.plan self.now.table }
    {
        &self.plan
    }

    /// Sets the reading of a place, in watt-hours below 2^40, or takes it out.
    pub fn put(&mut self, group: u16, round: u32, meter: u8, value: Option<u64>)
        requires place { IsTrue (is_place self.old.plan group round meter) }
        requires small { IfSome value (λ v. v < 2 ^ 40) }
        requires member { IsSome value → IsTrue (is_member self.old.plan.groups group round meter) }
        ensures { PutsReading self.old group round meter value self.new }
    {
        let at = self.plan.place_at(group, round, meter);
        self.values[at] = value;
    }

    /// The reading of a place, in watt-hours.
    pub fn get(&self, group: u16, round: u32, meter: u8) -> Option<u64>
        requires { IsTrue (is_place self.now.plan group round meter) }
        ensures reading { result ≡ reading self.now.table group round meter }
        ensures small { IfSome result (λ v. v < 2 ^ 40) }
        ensures member { IsSome result → IsTrue (is_member self.now.plan.groups group round meter) }
    {
        self.values[self.plan.place_at(group, round, meter)]
    }
}

/// Who has a reading.
#[derive(Drop)]
pub struct Presence {
    plan: Plan,
    present: Vec<bool>,
}

impl Model for Presence {
    ghost use Rattle.std.specs.Prelude.{false};
    ghost use Rattle.group_plan.specs.Tables.{PresenceView};
    ghost use Rattle.group_plan.specs.TableParts.{kept_table, KeepsPresence};

    ghost Value = { PresenceView };

    ghost view = { λ p. record { plan = p.plan; table = kept_table false p.plan p.present.items } };

    ghost invariant = { λ p. KeepsPresence p.plan p.present.items };
}

/// At which places there is a reading.
fn presence_of(alloc: Global, values: &[Option<u64>]) -> Result<Vec<bool>, AllocError>
    ensures { IfOk result (λ present. present.items ≡ map is_some values.now) }
{
    values.iter().map(|value| value.is_some()).collect(alloc)
}

fn copy_of_present(present: &Vec<bool>) -> Result<Vec<bool>, AllocError>
    ensures { IfOk result (λ copy. copy.items ≡ present.now.items) }
{
    present.clone()
}

impl Presence {
    /// The places that have a reading.
    pub fn of(alloc: Global, readings: &Readings) -> Result<Presence, AllocError>
        ensures { IfOk result (λ presence. presence ≡ presence_of readings.now) }
    {
        Ok(Presence {
            plan: readings.plan.try_copy()?,
            present: presence_of(alloc, &readings.values)?,
        })
    }

    /// The plan of the places.
    pub fn plan(&self) -> &Plan
        ensures plan { result.now ≡ self.now.plan }
        ensures table { IsPresenceTable self.now.plan self.now.table }
    {
        &self.plan
    }

    /// Whether the place has a reading.
    pub fn has(&self, group: u16, round: u32, meter: u8) -> bool
        requires { IsTrue (is_place self.now.plan group round meter) }
        ensures present { result ≡ is_present self.now.table group round meter }
        ensures member { IsTrue result → IsTrue (is_member self.now.plan.groups group round meter) }
    {
        self.present[self.plan.place_at(group, round, meter)]
    }

    /// Notes that a member has a reading at a place.
    pub fn note(&mut self, group: u16, round: u32, meter: u8)
        requires place { IsTrue (is_place self.old.plan group round meter) }
        requires member { IsTrue (is_member self.old.plan.groups group round meter) }
        ensures { NotesReading self.old group round meter self.new }
    {
        let at = self.plan.place_at(group, round, meter);
        self.present[at] = true;
    }

    /// An equal presence.
    pub fn try_copy(&self) -> Result<Presence, AllocError>
        ensures presence { IfOk result (λ presence. presence ≡ self.now) }
        ensures table { IsPresenceTable self.now.plan self.now.table }
    {
        Ok(Presence {
            plan: self.plan.try_copy()?,
            present: copy_of_present(&self.present)?,
        })
    }
}
