//! Copies by tick, each with the bytes of its post.

use crate::fixtures::{check, check_same, reading_frame};
use link_lanes::Fate;
use lossy_link::Link;
use meter_frames::encode;
use std::process::Abort;
use std::test::Fail;

fn send(link: &mut Link, tick: u32, meter: u8, delays: &[u8]) -> Result<(), Fail> {
    if tick >= 100 {
        return Err(Fail::new("a late tick"));
    }
    let bytes = encode(&reading_frame(meter, 100 + u64::from(meter)));
    link.post(tick, bytes, Fate::new(delays)?)?;
    Ok(())
}

// Looks for the frames of the readings of these meters, in order.
fn check_copies(rt: &impl Abort, copies: &[[u8; 52]], tick: u32, meters: &[u8]) {
    assert_eq!(rt; copies.len(), meters.len(), "at {tick}");
    for (bytes, meter) in copies.iter().zip(meters) {
        let frame = reading_frame(*meter, 100 + u64::from(*meter));
        check(rt, *bytes == encode(&frame), "a copy");
    }
}

// The meters whose readings come out at the tick, in order, each with the bytes of its frame.
fn check_due(rt: &impl Abort, link: &mut Link, tick: u32, meters: &[u8]) -> Result<(), Fail> {
    let copies = link.due(tick)?;
    check_copies(rt, &copies, tick, meters);
    Ok(())
}

// Posts readings, with six copies in all.
fn send_all(link: &mut Link) -> Result<(), Fail> {
    send(link, 3, 9, &[1, 3])?;
    send(link, 0, 7, &[])?;
    send(link, 2, 8, &[2, 2, 4])?;
    send(link, 5, 6, &[1])
}

// Looks for the copies that are due at some ticks, in no order of time.
fn check_all_due(rt: &impl Abort, link: &mut Link) -> Result<(), Fail> {
    check_due(rt, link, 3, &[])?;
    check_due(rt, link, 6, &[9, 8, 6])?;
    check_same(rt, &link.left(), &3, "tick 6");
    check_due(rt, link, 6, &[])?;
    check_due(rt, link, 5, &[])?;
    check_due(rt, link, 4, &[9, 8, 8])
}

#[test]
fn copies_by_tick_in_the_order_of_posts(rt: HostRuntime) -> Result<(), Fail> {
    let mut link = Link::new(rt.alloc());
    check_same(&rt, &link.left(), &0, "the beginning");
    send_all(&mut link)?;
    check_same(&rt, &link.left(), &6, "the posts");
    check_all_due(&rt, &mut link)?;
    check_same(&rt, &link.left(), &0, "the end");
    Ok(())
}
