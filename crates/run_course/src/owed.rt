//! What is to be sent in a tick besides readings: announcements of the rounds that closed in it, and answers to the announcements
//! that came in it.

ghost use Rattle.std.specs.Prelude.{◌≡◌, ◌<◌, ◌++◌, length, IfOk, OnOk};
ghost use Rattle.std.specs.List.{flat_map, range_with_len};
ghost use Rattle.event_schedule.specs.Transcripts.{HasRound};
ghost use Rattle.run_rows.specs.Ticks.{tags};
ghost use Rattle.run_course.specs.Marks.{announced_marks, answered_marks, owed_by_marks, owed_marks};

use crate::marks::marked;
use event_schedule::floor_of;
use group_plan::{Kind, Readings, Tag};
use missing_round::MeterSet;
use std::alloc::{AllocError, Global};

// Adds a Send of this kind for each of these meters.
fn add(
    owed: &mut Vec<Tag>,
    kind: Kind,
    group: u16,
    round: u32,
    meters: MeterSet,
) -> Result<(), AllocError>
    ensures { OnOk result (owed.new.items ≡ owed.old.items ++ tags kind group round meters) }
{
    for meter in meters.members() {
        owed.push(Tag {
            round,
            group,
            meter,
            kind,
        })?;
    }
    Ok(())
}

// Adds the announcements of a round, where it closes at this tick and enough readings came.
fn add_announcements(
    owed: &mut Vec<Tag>,
    came: &Readings,
    tick: u32,
    group: u16,
    round: u32,
) -> Result<(), AllocError>
    requires { HasRound came.now.plan group round }
    ensures { OnOk result (owed.new.items ≡ owed.old.items ++ announced_marks came.now tick group round) }
{
    let _rounds = came.plan().rounds();
    if round + came.plan().w1() != tick {
        return Ok(());
    }
    let meters = marked(came, 0, group, round);
    if meters.len() < floor_of(came.plan(), group) {
        return Ok(());
    }
    add(owed, Kind::Announcement, group, round, meters)
}

// Adds the answers of a round to the announcements that came at this tick.
fn add_answers(
    owed: &mut Vec<Tag>,
    heard: &Readings,
    tick: u32,
    group: u16,
    round: u32,
) -> Result<(), AllocError>
    requires { HasRound heard.now.plan group round }
    ensures { OnOk result (owed.new.items ≡ owed.old.items ++ answered_marks heard.now tick group round) }
{
    let _rounds = heard.plan().rounds();
    let closed = round + heard.plan().w1();
    if tick <= closed || closed + 16 < tick {
        return Ok(());
    }
    let meters = marked(heard, u64::from(tick), group, round);
    add(owed, Kind::Answer, group, round, meters)
}

fn add_all_announcements(
    owed: &mut Vec<Tag>,
    came: &Readings,
    tick: u32,
    group: u16,
) -> Result<(), AllocError>
    requires { group < length came.now.plan.groups }
    ensures { OnOk result (owed.new.items ≡ owed.old.items ++ flat_map (announced_marks came.now tick group) (range_with_len 0 came.now.plan.rounds)) }
{
    for round in 0..came.plan().rounds() {
        add_announcements(owed, came, tick, group, round)?;
    }
    Ok(())
}

fn add_all_answers(
    owed: &mut Vec<Tag>,
    heard: &Readings,
    tick: u32,
    group: u16,
) -> Result<(), AllocError>
    requires { group < length heard.now.plan.groups }
    ensures { OnOk result (owed.new.items ≡ owed.old.items ++ flat_map (answered_marks heard.now tick group) (range_with_len 0 heard.now.plan.rounds)) }
{
    for round in 0..heard.plan().rounds() {
        add_answers(owed, heard, tick, group, round)?;
    }
    Ok(())
}

/// What all groups are to send at a tick besides readings, in order.
pub(crate) fn owed(
    alloc: Global,
    came: &Readings,
    heard: &Readings,
    tick: u32,
) -> Result<Vec<Tag>, AllocError>
    requires { heard.now.plan ≡ came.now.plan }
    ensures { IfOk result (λ owed. owed.items ≡ owed_marks came.now heard.now tick) }
{
    let mut owed = Vec::new(alloc);
    for group in 0..came.plan().groups().len() {
        add_all_announcements(&mut owed, came, tick, group as u16)?;
        add_all_answers(&mut owed, heard, tick, group as u16)?;
    }
    Ok(owed)
}
