//! What a meter answers to the sets that it hears of.

use crate::fixtures::check_same;
use meter_core::{Heard, Meter, Why};
use missing_round::MeterSet;
use std::process::Abort;
use std::test::Fail;

fn only(i: u8) -> MeterSet {
    MeterSet::empty().with(i)
}

// Each row is a round, the set that the meter hears of in it, and what it answers.
fn check_heard(rt: &impl Abort, meter: &mut Meter, rows: &[(u32, MeterSet, Heard)]) {
    for (round, set, heard) in rows {
        check_same(rt, &meter.hear(*round, set), heard, "a set");
    }
}

#[test]
fn one_set_per_round(rt: HostRuntime) -> Result<(), Fail> {
    let mut meter = Meter::new(rt.alloc(), 0, 2, 2)?;
    meter.mark_read(0, &MeterSet::full(3));
    meter.mark_read(1, &MeterSet::full(3));
    let rows = [
        (0, only(2), Heard::Answer),
        (0, only(1), Heard::Refused(Why::OtherSet(only(2)))),
        (0, only(2), Heard::AnswerAgain),
        (1, only(0), Heard::Refused(Why::SelfMissing)),
        (1, only(1).with(2), Heard::Refused(Why::Thin(1))),
    ];
    check_heard(&rt, &mut meter, &rows);
    Ok(())
}

#[test]
fn thin_set_then_answer(rt: HostRuntime) -> Result<(), Fail> {
    let mut meter = Meter::new(rt.alloc(), 0, 2, 1)?;
    meter.mark_read(0, &MeterSet::full(3));
    let rows = [
        (0, only(1).with(2), Heard::Refused(Why::Thin(1))),
        (0, only(2), Heard::Answer),
    ];
    check_heard(&rt, &mut meter, &rows);
    Ok(())
}

#[test]
fn wide_set_beside_low_ones(rt: HostRuntime) -> Result<(), Fail> {
    let mut meter = Meter::new(rt.alloc(), 0, 2, 3)?;
    meter.mark_read(0, &MeterSet::full(200));
    meter.mark_read(1, &MeterSet::full(200));
    meter.mark_read(2, &MeterSet::full(60));
    let wide = only(3).with(70).with(199);
    let rows = [
        (0, only(3), Heard::Answer),
        (1, wide, Heard::Answer),
        (2, only(4), Heard::Answer),
        (0, only(3), Heard::AnswerAgain),
        (1, wide, Heard::AnswerAgain),
        (2, only(4), Heard::AnswerAgain),
        (1, only(3), Heard::Refused(Why::OtherSet(wide))),
    ];
    check_heard(&rt, &mut meter, &rows);
    Ok(())
}
