//! Names, the order in which plans are refused, and readings put into a table.

use crate::fixtures::{check, check_same};
use group_plan::{GroupPlan, Name, Plan, PlanError, Presence, Readings, Span, SpanError};
use row_fixtures::{group, plan_of_north, put, reading_tag};
use std::alloc::Global;
use std::process::Abort;
use std::test::Fail;

/// A group's name, meters and floor.
type Row<'a> = (&'a [u8], u32, u32);

// The groups of these rows, so many times.
fn groups(alloc: Global, rows: &[Row], times: u32) -> Result<Vec<GroupPlan>, Fail> {
    let mut groups = Vec::new(alloc);
    for _ in 0..times {
        for (name, meters, floor) in rows {
            groups.push(group(name, *meters, *floor)?)?;
        }
    }
    Ok(groups)
}

fn refusal(
    alloc: Global,
    rows: &[Row],
    times: u32,
    (rounds, w1, w2): Numbers,
) -> Result<Option<PlanError>, Fail> {
    let groups = groups(alloc, rows, times)?;
    Ok(Plan::new(alloc, &groups, rounds, w1, w2).err())
}

// Texts, and whether they are names.
static NAMES: [(&[u8], bool); 9] = [
    (b"n", true),
    (b"north", true),
    (b"a-Z_09", true),
    (b"sixteen-letters_", true),
    (b"", false),
    (b"a b", false),
    (b"seventeen-letters", false),
    (b"n\xc3\xb6rd", false),
    (b"a.b", false),
];

// Whether a text is a name, of the same bytes.
fn is_name(text: &[u8]) -> bool {
    match Name::new(text) {
        Some(name) => name.bytes() == text,
        None => false,
    }
}

#[test]
fn names_of_1_to_16_bytes(rt: HostRuntime) {
    for (text, is_so) in NAMES.iter() {
        check_same(&rt, &(*text, is_name(text)), &(*text, *is_so), "a name");
    }
}

const NORTH: Row = (b"north", 3, 2);

const SOUTH: Row = (b"south", 1, 2);

const LOW: Row = (b"low", 3, 1);

const WIDE: Row = (b"wide", 256, 256);

/// Rounds and windows.
type Numbers = (u32, u32, u32);

// Groups, how many times they come, rounds and windows, and how their plan is refused: without a group and with one too many,
// with a fault in their groups, and of a group of 256 meters. The last is accepted.
static PLANS: [(&[Row], u32, Numbers, Option<PlanError>); 9] = [
    (&[], 1, (0, 0, 0), Some(PlanError::NoGroup)),
    (
        &[NORTH],
        257,
        (0, 0, 0),
        Some(PlanError::TooManyGroups(257)),
    ),
    (
        &[LOW, NORTH, SOUTH, SOUTH, NORTH],
        1,
        (0, 0, 0),
        Some(PlanError::SameName(2, 3)),
    ),
    (&[LOW, SOUTH], 1, (0, 0, 0), Some(PlanError::Meters(1))),
    (&[NORTH, LOW], 1, (0, 0, 0), Some(PlanError::Floor(1))),
    (&[WIDE], 1, (4097, 0, 0), Some(PlanError::Rounds)),
    (&[WIDE], 1, (4096, 16, 33), Some(PlanError::Window)),
    (
        &[WIDE],
        1,
        (513, 16, 32),
        Some(PlanError::TooManyReadings(131_328)),
    ),
    (&[WIDE], 1, (512, 16, 32), None),
];

#[test]
fn plans_in_the_order_of_refusals(rt: HostRuntime) -> Result<(), Fail> {
    for (rows, times, numbers, error) in PLANS.iter() {
        let refusal = refusal(rt.alloc(), rows, *times, *numbers)?;
        check_same(&rt, &refusal, error, "a plan");
    }
    Ok(())
}

// The third meter of the first group, in round 1 alone.
const JOINS: Span = Span {
    group: 0,
    meter: 2,
    from: 1,
    until: 2,
};

// Looks for who is a member.
fn check_members(rt: &impl Abort, plan: &Plan) {
    for (round, meter, is_member) in [(0, 0, true), (0, 2, false), (1, 2, true)] {
        let is_place = plan.holds(reading_tag(0, round, meter));
        let is_so = is_place && plan.is_member(0, round, meter) == is_member;
        check(rt, is_so, "a member");
    }
    check_same(rt, &plan.last_tick(), &36, "the last tick");
}

// Adds an empty span, and one for a meter that has a span.
fn check_spans(rt: &impl Abort, plan: &Plan) {
    let empty = Span {
        from: 1,
        until: 1,
        ..JOINS
    };
    let refusal = plan.with_members(&[JOINS, empty]).err();
    check_same(rt, &refusal, &Some(SpanError::Range(1)), "an empty span");
    let again = Span { from: 0, ..JOINS };
    let refusal = plan.with_members(&[JOINS, again]).err();
    check_same(rt, &refusal, &Some(SpanError::Twice(1)), "a second span");
}

// Looks for who is a member in a copy of the plan in which a meter joins.
fn check_joined(rt: &impl Abort, plan: &Plan) -> Result<(), Fail> {
    check_members(rt, &plan.with_members(&[JOINS])?.try_copy()?);
    Ok(())
}

#[test]
fn meter_joins_in_round_1(rt: HostRuntime) -> Result<(), Fail> {
    let plan = plan_of_north(rt.alloc(), 2)?;
    check_spans(&rt, &plan);
    check_joined(&rt, &plan)
}

// The reading of a meter of the first group in round 1. None where there is no such place.
fn reading_of(readings: &Readings, meter: u8) -> Option<Option<u64>> {
    if !readings.plan().holds(reading_tag(0, 1, meter)) {
        return None;
    }
    Some(readings.get(0, 1, meter))
}

// Takes out the reading of a meter of the first group in round 1.
fn take_out(readings: &mut Readings, meter: u8) -> Result<(), Fail> {
    if !readings.plan().holds(reading_tag(0, 1, meter)) {
        return Err(Fail::new("no place of the plan"));
    }
    readings.put(0, 1, meter, None);
    Ok(())
}

// Whether a meter of the first group has a reading in round 1. None where there is no such place.
fn is_present(presence: &Presence, meter: u8) -> Option<bool> {
    if !presence.plan().holds(reading_tag(0, 1, meter)) {
        return None;
    }
    Some(presence.has(0, 1, meter))
}

// Whether the meter of the first group is a member in round 1.
fn is_member(plan: &Plan, meter: u8) -> bool {
    plan.holds(reading_tag(0, 1, meter)) && plan.is_member(0, 1, meter)
}

// Puts the readings 20 and 30 of meters 1 and 2 in round 1, of which the first is taken out again.
fn fill(readings: &mut Readings) -> Result<(), Fail> {
    if !matches!(reading_of(readings, 2), Some(None)) {
        return Err(Fail::new("a reading before the first"));
    }
    put(readings, 1, 2, 30)?;
    put(readings, 1, 1, 20)?;
    take_out(readings, 1)
}

// A table of these readings.
fn small_table(alloc: Global, plan: &Plan) -> Result<Readings, Fail> {
    let mut readings = Readings::new(alloc, plan)?;
    fill(&mut readings)?;
    Ok(readings)
}

// Looks for the reading of meter 2, and for none of meter 1.
fn check_present(rt: &impl Abort, readings: &Readings, presence: &Presence) {
    let reading = reading_of(readings, 2);
    check_same(rt, &reading, &Some(Some(30)), "a reading");
    let has_reading = [is_present(presence, 1), is_present(presence, 2)];
    let is_so = [Some(false), Some(true)];
    check_same(rt, &has_reading, &is_so, "who has a reading");
}

// Looks for what is in a small table.
fn check_small_table(rt: &impl Abort, alloc: Global, plan: &Plan) -> Result<(), Fail> {
    let readings = small_table(alloc, plan)?;
    check_present(rt, &readings, &Presence::of(alloc, &readings)?);
    Ok(())
}

#[test]
fn readings_put_and_taken_out(rt: HostRuntime) -> Result<(), Fail> {
    let plan = plan_of_north(rt.alloc(), 2)?;
    check(&rt, is_member(&plan, 2), "meter 2");
    check(&rt, is_member(&plan, 1), "meter 1");
    check_small_table(&rt, rt.alloc(), &plan)
}
