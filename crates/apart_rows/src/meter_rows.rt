//! Meter 0 of `north` in one round, with keys of zeros: its reading and its answer, a restart, and what it refuses.

use crate::frames::{check, frame};
use group_plan::{Kind, Plan};
use meter_apart::{
    FrameRefusal, MeterApart, MeterKeys, Noted, Part, ReadingRefusal, ReplayError, replay,
};
use meter_core::Why;
use meter_frames::Frame;
use missing_round::MeterSet;
use row_fixtures::{group, plan_of_north};
use std::alloc::Global;
use std::process::Abort;
use std::test::Fail;

/// Keys of zeros, with those of so many pairs.
fn zero_keys(alloc: Global, part: Part, pairs: usize) -> Result<Option<MeterKeys>, Fail> {
    let pairs = vec![in alloc; Some([0; 32]); pairs]?;
    Ok(MeterKeys::new(part, [0; 32], pairs))
}

/// The keys of meter 0.
fn keys_of_meter_0(alloc: Global) -> Result<MeterKeys, Fail> {
    let part = Part::new(plan_of_north(alloc, 1)?, 0, 0).ok_or("no part")?;
    Ok(zero_keys(alloc, part, 3)?.ok_or("a key is lacking")?)
}

/// Meter 0 with a journal.
fn meter_0(alloc: Global, journal: &[Noted]) -> Result<MeterApart, Fail> {
    match replay(alloc, keys_of_meter_0(alloc)?, journal) {
        Ok(meter) => Ok(meter),
        Err(_) => Err(Fail::new("no journal")),
    }
}

/// The reading 10, hidden.
fn reading_frame() -> Frame {
    frame(Kind::Reading, 0, MeterSet::empty(), 0xb0b9_d4e2_09a2_296c)
}

fn announcement(meter: u8, missing: MeterSet) -> Frame {
    frame(Kind::Announcement, meter, missing, 0)
}

/// The answer where no meter is missing.
fn answer_frame() -> Frame {
    frame(Kind::Answer, 0, MeterSet::empty(), 0x903d_f1a0_ade0_b876)
}

fn check_read(
    rt: &impl Abort,
    meter: &mut MeterApart,
    reading: u64,
    said: Result<Frame, ReadingRefusal>,
    row: &str,
) {
    check(rt, meter.read(0, reading) == said, row);
}

fn check_hear(
    rt: &impl Abort,
    meter: &mut MeterApart,
    frame: &Frame,
    said: Result<Frame, FrameRefusal>,
    row: &str,
) {
    check(rt, meter.hear(frame) == said, row);
}

#[test]
fn meter_alone(rt: HostRuntime) -> Result<(), Fail> {
    let alloc = rt.alloc();
    let mut meter = meter_0(alloc, &[])?;
    let told = announcement(0, MeterSet::empty());
    let early = Err(FrameRefusal::Why(Why::NotRead));
    check_hear(&rt, &mut meter, &told, early, "before the reading");
    check_read(&rt, &mut meter, 10, Ok(reading_frame()), "reading");
    check_read(&rt, &mut meter, 10, Ok(reading_frame()), "again");
    check_hear(&rt, &mut meter, &told, Ok(answer_frame()), "answer");
    check_hear(&rt, &mut meter, &told, Ok(answer_frame()), "again");
    Ok(())
}

/// The journal of a meter that has read 10 and answered.
fn first_lines() -> [Noted; 2] {
    [
        Noted::Read {
            round: 0,
            reading: 10,
        },
        Noted::Kept {
            round: 0,
            set: MeterSet::empty(),
        },
    ]
}

#[test]
fn second_set_refused(rt: HostRuntime) -> Result<(), Fail> {
    let alloc = rt.alloc();
    let mut meter = meter_0(alloc, &first_lines())?;
    let none = MeterSet::empty();
    let other = announcement(0, none.with(1));
    let refused = Err(FrameRefusal::Why(Why::OtherSet(none)));
    check_hear(&rt, &mut meter, &other, refused, "another set");
    let told = announcement(0, none);
    check_hear(&rt, &mut meter, &told, Ok(answer_frame()), "the set");
    check_read(&rt, &mut meter, 10, Ok(reading_frame()), "reading");
    Ok(())
}

#[test]
fn reading_changed(rt: HostRuntime) -> Result<(), Fail> {
    let alloc = rt.alloc();
    let mut meter = meter_0(alloc, &[])?;
    let range = Err(ReadingRefusal::Range);
    check_read(&rt, &mut meter, 1 << 40, range, "too large");
    check_read(&rt, &mut meter, 10, Ok(reading_frame()), "reading");
    let twice = Err(ReadingRefusal::Twice);
    check_read(&rt, &mut meter, 11, twice, "changed");
    let round = Err(ReadingRefusal::Round);
    check(&rt, meter.read(1, 10) == round, "no such round");
    Ok(())
}

#[test]
fn sets_not_answered(rt: HostRuntime) -> Result<(), Fail> {
    let alloc = rt.alloc();
    let mut meter = meter_0(alloc, &[])?;
    check_read(&rt, &mut meter, 10, Ok(reading_frame()), "reading");
    let none = MeterSet::empty();
    let tag = Err(FrameRefusal::Tag);
    check_hear(&rt, &mut meter, &announcement(1, none), tag, "to 1");
    let own = reading_frame();
    let tag = Err(FrameRefusal::Tag);
    check_hear(&rt, &mut meter, &own, tag, "no announcement");
    let strange = announcement(0, none.with(3));
    let plan_ends = Err(FrameRefusal::Why(Why::OutOfPlan));
    check_hear(&rt, &mut meter, &strange, plan_ends, "no meter 3");
    let itself = announcement(0, none.with(0));
    let missing = Err(FrameRefusal::Why(Why::SelfMissing));
    check_hear(&rt, &mut meter, &itself, missing, "itself");
    let two = announcement(0, none.with(1).with(2));
    let thin = Err(FrameRefusal::Why(Why::Thin(1)));
    check_hear(&rt, &mut meter, &two, thin, "thin");
    Ok(())
}

#[test]
fn wrong_meter_journal(rt: HostRuntime) -> Result<(), Fail> {
    let alloc = rt.alloc();
    let [read, kept] = first_lines();
    let lines = [kept, read];
    let early = replay(alloc, keys_of_meter_0(alloc)?, &lines).err();
    check(&rt, early == Some(ReplayError::Line(0)), "no reading yet");
    let [read, again] = [read, read];
    let lines = [read, kept, again];
    let twice = replay(alloc, keys_of_meter_0(alloc)?, &lines).err();
    check(&rt, twice == Some(ReplayError::Line(2)), "twice");
    Ok(())
}

#[test]
fn no_keys_and_no_part(rt: HostRuntime) -> Result<(), Fail> {
    let alloc = rt.alloc();
    let plan = plan_of_north(alloc, 1)?;
    let part = Part::new(plan.try_copy()?, 0, 0).ok_or("no part")?;
    let keys = zero_keys(alloc, part, 2)?;
    check(&rt, keys.is_none(), "a key is lacking");
    check(&rt, Part::new(plan, 0, 3).is_none(), "no meter 3");
    let groups = [group(b"north", 3, 2)?, group(b"south", 3, 2)?];
    let two = Plan::new(alloc, &groups, 1, 1, 2)?;
    check(&rt, Part::new(two, 0, 0).is_none(), "two groups");
    Ok(())
}
