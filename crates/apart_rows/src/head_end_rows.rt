//! The head end of `north` in one round: a whole run, a restart, frames that it doesn't take, and what it says when it is asked
//! again.

use crate::frames::{check, frame};
use group_plan::{Kind, Plan};
use head_end::{HeadEnd, Logged, Refusal, ReplayError, Reply, TickLine, replay};
use meter_frames::Frame;
use missing_round::MeterSet;
use row_fixtures::plan_of_north;
use std::alloc::Global;
use std::process::Abort;
use std::test::Fail;
use totals_report::{ReportRow, RowOutcome};

/// The readings 10, 20 and 30, hidden.
fn readings() -> [Frame; 3] {
    let none = MeterSet::empty();
    [
        frame(Kind::Reading, 0, none, 122),
        frame(Kind::Reading, 1, none, 226),
        frame(Kind::Reading, 2, none, 312),
    ]
}

/// The answers where no meter is missing.
fn answers() -> [Frame; 3] {
    let none = MeterSet::empty();
    [
        frame(Kind::Answer, 0, none, 100),
        frame(Kind::Answer, 1, none, 200),
        frame(Kind::Answer, 2, none, 300),
    ]
}

fn announcement(meter: u8) -> TickLine {
    TickLine::Announce(frame(Kind::Announcement, meter, MeterSet::empty(), 0))
}

/// The lines of tick 1.
fn close_lines() -> [TickLine; 4] {
    let closed = TickLine::Closed {
        group: 0,
        round: 0,
        survivors: 3,
        missing: MeterSet::empty(),
        announced: true,
    };
    [closed, announcement(0), announcement(1), announcement(2)]
}

fn row_of(plan: &Plan, outcome: RowOutcome) -> Option<ReportRow> {
    match plan.groups() {
        [group] => Some(ReportRow {
            name: group.name,
            round: 0,
            survivors: 3,
            missing: MeterSet::empty(),
            outcome,
        }),
        _ => None,
    }
}

fn check_take(rt: &impl Abort, head: &mut HeadEnd, frame: &Frame, reply: Reply, row: &str) {
    check(rt, head.take(frame) == reply, row);
}

fn take_all(rt: &impl Abort, head: &mut HeadEnd, frames: &[Frame], row: &str) {
    for frame in frames {
        check_take(rt, head, frame, Reply::Fresh, row);
    }
}

/// Lets a tick pass, and looks for its lines.
fn check_tick(
    rt: &impl Abort,
    alloc: Global,
    head: &mut HeadEnd,
    lines: &[TickLine],
    row: &str,
) -> Result<(), Fail> {
    let tick = head.ticks();
    check(rt, head.pass(), row);
    check(rt, head.tick_lines(alloc, tick)?.as_slice() == lines, row);
    Ok(())
}

fn check_rows(
    rt: &impl Abort,
    alloc: Global,
    head: &HeadEnd,
    expected: Option<ReportRow>,
    row: &str,
) -> Result<(), Fail> {
    let expected = expected.ok_or("no row")?;
    check(
        rt,
        head.rows(alloc)?.as_slice() == [expected].as_slice(),
        row,
    );
    Ok(())
}

/// From the answers to the end: no line of tick 2, the total in tick 3, and no tick after it.
fn check_end(rt: &impl Abort, alloc: Global, head: &mut HeadEnd) -> Result<(), Fail> {
    take_all(rt, head, &answers(), "answers");
    check_tick(rt, alloc, head, &[], "tick 2")?;
    check_rows(
        rt,
        alloc,
        head,
        row_of(head.plan(), RowOutcome::Running),
        "before the end",
    )?;
    let total = row_of(head.plan(), RowOutcome::Total(60));
    let line = TickLine::Row(total.ok_or("no row")?);
    check_tick(rt, alloc, head, &[line], "tick 3")?;
    check_rows(rt, alloc, head, total, "after the end")?;
    check(rt, !head.pass(), "no tick after the last");
    Ok(())
}

#[test]
fn head_end_alone(rt: HostRuntime) -> Result<(), Fail> {
    let alloc = rt.alloc();
    let mut head = HeadEnd::new(alloc, &plan_of_north(alloc, 1)?)?;
    check_tick(&rt, alloc, &mut head, &[], "tick 0")?;
    take_all(&rt, &mut head, &readings(), "readings");
    check_tick(&rt, alloc, &mut head, &close_lines(), "tick 1")?;
    check_end(&rt, alloc, &mut head)
}

/// The journal of the first two ticks.
fn first_lines() -> [Logged; 5] {
    let [first, second, third] = readings();
    [
        Logged::Passed,
        Logged::Took(first),
        Logged::Took(second),
        Logged::Took(third),
        Logged::Passed,
    ]
}

#[test]
fn killed_after_the_second_tick(rt: HostRuntime) -> Result<(), Fail> {
    let alloc = rt.alloc();
    let plan = plan_of_north(alloc, 1)?;
    let Ok(mut head) = replay(alloc, &plan, &first_lines()) else {
        return Err(Fail::new("no journal"));
    };
    check(&rt, head.ticks() == 2, "ready");
    let lines = head.tick_lines(alloc, 1)?;
    check(
        &rt,
        lines.as_slice() == close_lines().as_slice(),
        "tick 1 again",
    );
    check_end(&rt, alloc, &mut head)
}

#[test]
fn wrong_journal(rt: HostRuntime) -> Result<(), Fail> {
    let alloc = rt.alloc();
    let plan = plan_of_north(alloc, 1)?;
    let [reading, _, _] = readings();
    let [again, _, _] = readings();
    let lines = [Logged::Took(reading), Logged::Passed, Logged::Took(again)];
    let refused = replay(alloc, &plan, &lines).err();
    check(&rt, refused == Some(ReplayError::Line(2)), "twice");
    Ok(())
}

#[test]
fn frames_not_taken(rt: HostRuntime) -> Result<(), Fail> {
    let alloc = rt.alloc();
    let none = MeterSet::empty();
    let mut head = HeadEnd::new(alloc, &plan_of_north(alloc, 1)?)?;
    let cases = [
        (
            frame(Kind::Announcement, 0, none, 0),
            Reply::Refused(Refusal::Announcement),
            "announcement",
        ),
        (
            frame(Kind::Reading, 3, none, 5),
            Reply::Refused(Refusal::Plan),
            "no meter",
        ),
        (
            frame(Kind::Answer, 0, none, 100),
            Reply::Void,
            "early answer",
        ),
        (frame(Kind::Reading, 0, none, 122), Reply::Fresh, "reading"),
        (frame(Kind::Reading, 0, none, 122), Reply::Again, "again"),
        (
            frame(Kind::Reading, 0, none, 123),
            Reply::Differs,
            "another_word_of_one_tag",
        ),
    ];
    for (frame, reply, row) in &cases {
        check_take(&rt, &mut head, frame, *reply, row);
    }
    Ok(())
}

#[test]
fn asked_again(rt: HostRuntime) -> Result<(), Fail> {
    let alloc = rt.alloc();
    let plan = plan_of_north(alloc, 1)?;
    let Ok(mut head) = replay(alloc, &plan, &first_lines()) else {
        return Err(Fail::new("no journal"));
    };
    let other = frame(Kind::Answer, 1, MeterSet::empty().with(2), 211);
    check_take(
        &rt,
        &mut head,
        &other,
        Reply::Refused(Refusal::Set),
        "another set",
    );
    let [answer, _, _] = answers();
    check_take(&rt, &mut head, &answer, Reply::Fresh, "answer");
    let lines = head.again(alloc)?;
    check(
        &rt,
        lines.as_slice() == [announcement(1), announcement(2)].as_slice(),
        "again",
    );
    Ok(())
}
