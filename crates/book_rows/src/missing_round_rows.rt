//! Sets of meters.

use crate::fixtures::{check, check_same};
use missing_round::{MeterSet, SetError};
use std::process::Abort;

fn check_bits(
    rt: &impl Abort,
    came: Result<MeterSet, SetError>,
    set: Result<MeterSet, SetError>,
    row: &str,
) {
    check_same(rt, &came, &set, row);
}

#[test]
fn sets_from_bits(rt: HostRuntime) {
    let outside = Err(SetError::OutOfGroup(3));
    check_bits(&rt, MeterSet::from_bits(3, [9, 0, 0, 0]), outside, "bit 3");
    let set = Ok(MeterSet::empty().with(2).with(0));
    check_bits(&rt, MeterSet::from_bits(3, [5, 0, 0, 0]), set, "two bits");
    let last = MeterSet::from_bits(255, [0, 0, 0, 1 << 63]);
    check_bits(&rt, last, Err(SetError::OutOfGroup(255)), "bit 255");
}

#[test]
fn members_by_place(rt: HostRuntime) {
    let rows = [(3, 2, Some(2)), (3, 3, None), (256, 255, Some(255))];
    for (meters, place, member) in rows {
        check_same(&rt, &MeterSet::full(meters).nth(place), &member, "a place");
    }
    check_same(&rt, &MeterSet::full(256).len(), &256, "all");
}

#[test]
fn one_set_by_every_call(rt: HostRuntime) {
    let set = MeterSet::full(4)
        .minus(MeterSet::empty().with(1))
        .without(2)
        .with(200);
    check(&rt, set.bits() == [9, 0, 0, 256], "the bits");
    check(&rt, set.has(200) && !set.has(1) && !set.has(2), "members");
    let mut sum = 0u16;
    for i in set.members() {
        sum = sum.wrapping_add(i as u16);
    }
    check_same(&rt, &sum, &203, "the sum of the members");
}
