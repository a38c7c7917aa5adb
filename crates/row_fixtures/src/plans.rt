//! Plans and tables of readings.

ghost use Rattle.std.specs.Prelude.{◌≡◌, IfOk};
ghost use Rattle.group_plan.specs.declared.Kind.TheVariants.{Reading};

use group_plan::{GroupPlan, Kind, Name, Plan, Readings, Tag};
use std::alloc::Global;
use std::test::Fail;

/// A group of so many meters. Fails where `name` isn't a name.
pub fn group(name: &[u8], meters: u32, floor: u32) -> Result<GroupPlan, Fail> {
    let name = Name::new(name).ok_or("no name")?;
    Ok(GroupPlan {
        name,
        meters,
        floor,
    })
}

/// The plan of `north`, a group of three meters with floor 2, in so many rounds. Fails where it is no plan or memory runs
/// out.
pub fn plan_of_north(alloc: Global, rounds: u32) -> Result<Plan, Fail> {
    Ok(Plan::new(alloc, &[group(b"north", 3, 2)?], rounds, 1, 2)?)
}

/// The tag of a reading.
pub fn reading_tag(group: u16, round: u32, meter: u8) -> Tag
    ensures { result ≡ record { group = group; round = round; meter = meter; kind = Reading } }
{
    Tag {
        group,
        round,
        meter,
        kind: Kind::Reading,
    }
}

/// Puts a reading of the first group, in watt-hours. Fails where the meter isn't a member in that round, and at 2^40 and
/// more.
pub fn put(readings: &mut Readings, round: u32, meter: u8, reading: u64) -> Result<(), Fail>
    ensures { readings.new.plan ≡ readings.old.plan }
{
    let plan = readings.plan();
    let is_member = plan.holds(reading_tag(0, round, meter)) && plan.is_member(0, round, meter);
    if !is_member || reading >= 1 << 40 {
        return Err(Fail::new("no reading of the plan"));
    }
    readings.put(0, round, meter, Some(reading));
    Ok(())
}

/// A table of the readings of the first meters in round 0. Fails as `put` does, and where memory runs out.
pub fn table(alloc: Global, plan: &Plan, readings: &[u64]) -> Result<Readings, Fail>
    ensures { IfOk result (λ table. table.plan ≡ plan.now) }
{
    let mut table = Readings::new(alloc, plan)?;
    let mut meter = 0u8;
    for reading in readings {
        put(&mut table, 0, meter, *reading)?;
        meter = meter.wrapping_add(1);
    }
    Ok(table)
}
