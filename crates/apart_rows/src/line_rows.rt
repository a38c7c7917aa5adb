//! The lines of `north`: what is said, what is heard, and the journals.

ghost use Rattle.meter_frames.specs.Frames.{FitsKind};
ghost use Rattle.apart_lines.specs.Said.{CanSay, CanMeterSay};

use crate::frames::check;
use apart_lines::{
    HeadEndSays, MeterSays, ToHeadEnd, ToMeter, journal_head, put_head_end_says, put_logged,
    put_meter_says, put_noted, read_logged, read_noted, read_to_head_end, read_to_meter,
};
use group_plan::{Kind, Plan, Tag};
use head_end::{Logged, Refusal, Reply, TickLine};
use meter_apart::{FrameRefusal, Noted, ReadingRefusal};
use meter_core::Why;
use meter_frames::{Frame, FrameError};
use missing_round::MeterSet;
use mod_word::Word;
use row_fixtures::plan_of_north;
use std::alloc::Global;
use std::process::Abort;
use std::test::Fail;
use totals_report::{ReportRow, RowOutcome};

/// The reading 10 of meter 0, hidden.
const READING_0: &[u8] =
    b"frame,4d02010000000000000000000000000000000000000000000000000000000000000000000000000000000000b0b9d4e209a2296c";

/// The same in digits of the other case.
const READING_0_AGAIN: &[u8] =
    b"frame,4D02010000000000000000000000000000000000000000000000000000000000000000000000000000000000B0B9D4E209A2296C";

/// The same as a line of a journal.
const TOOK_0: &[u8] =
    b"f,4d02010000000000000000000000000000000000000000000000000000000000000000000000000000000000b0b9d4e209a2296c";

/// With another first byte.
const BROKEN: &[u8] =
    b"frame,4e02010000000000000000000000000000000000000000000000000000000000000000000000000000000000b0b9d4e209a2296c";

/// One digit less.
const SHORT: &[u8] =
    b"frame,4d02010000000000000000000000000000000000000000000000000000000000000000000000000000000000b0b9d4e209a2296";

fn reading_0() -> Frame
    ensures { FitsKind result.tag.kind result.missing result.word }
{
    Frame {
        tag: Tag {
            group: 0,
            round: 0,
            meter: 0,
            kind: Kind::Reading,
        },
        missing: MeterSet::empty(),
        word: Word(0xb0b9_d4e2_09a2_296c),
    }
}

fn check_said(
    rt: &impl Abort,
    alloc: Global,
    plan: &Plan,
    says: HeadEndSays,
    text: &[u8],
) -> Result<(), Fail>
    requires { CanSay says }
{
    let mut line = Vec::new(alloc);
    put_head_end_says(alloc, &mut line, plan, &says)?;
    check(rt, line.as_slice() == text, "said by the head end");
    Ok(())
}

#[test]
fn lines_of_a_head_end(rt: HostRuntime) -> Result<(), Fail> {
    let alloc = rt.alloc();
    let plan = plan_of_north(alloc, 1)?;
    let none = MeterSet::empty();
    let closed = TickLine::Closed {
        group: 0,
        round: 0,
        survivors: 3,
        missing: none,
        announced: true,
    };
    check_said(
        &rt,
        alloc,
        &plan,
        HeadEndSays::Line(closed),
        b"closed,north,0,3,-,announced",
    )?;
    let thin = TickLine::Closed {
        group: 0,
        round: 0,
        survivors: 1,
        missing: none.with(0).with(2),
        announced: false,
    };
    check_said(
        &rt,
        alloc,
        &plan,
        HeadEndSays::Line(thin),
        b"closed,north,0,1,0+2,thin",
    )?;
    let lacking = TickLine::Lacking {
        group: 0,
        round: 0,
        lacking: none.with(1),
    };
    check_said(
        &rt,
        alloc,
        &plan,
        HeadEndSays::Line(lacking),
        b"lacking,north,0,1",
    )?;
    let refused = HeadEndSays::Reply(Reply::Refused(Refusal::Set));
    check_said(&rt, alloc, &plan, refused, b"refused,Set")?;
    check_said(
        &rt,
        alloc,
        &plan,
        HeadEndSays::Reply(Reply::Differs),
        b"differs",
    )?;
    let broken = HeadEndSays::Broken(FrameError::SetInReading);
    check_said(&rt, alloc, &plan, broken, b"refused,SetInReading")?;
    check_said(&rt, alloc, &plan, HeadEndSays::UnknownLine, b"refused,Line")?;
    check_said(&rt, alloc, &plan, HeadEndSays::WrongTick, b"refused,Tick")?;
    check_said(&rt, alloc, &plan, HeadEndSays::Ticked(3), b"ticked,3")?;
    check_said(&rt, alloc, &plan, HeadEndSays::Reported, b"reported")?;
    check_said(&rt, alloc, &plan, HeadEndSays::Ready(2), b"ready,2")
}

#[test]
fn row_of_a_tick(rt: HostRuntime) -> Result<(), Fail> {
    let alloc = rt.alloc();
    let plan = plan_of_north(alloc, 1)?;
    let [group] = plan.groups() else {
        return Err(Fail::new("no group"));
    };
    let row = ReportRow {
        name: group.name,
        round: 0,
        survivors: 3,
        missing: MeterSet::empty(),
        outcome: RowOutcome::Total(60),
    };
    let says = HeadEndSays::Line(TickLine::Row(row));
    check_said(&rt, alloc, &plan, says, b"row,north,0,3,-,total,60")
}

fn check_meter_says(
    rt: &impl Abort,
    alloc: Global,
    says: MeterSays,
    text: &[u8],
) -> Result<(), Fail>
    requires { CanMeterSay says }
{
    let mut line = Vec::new(alloc);
    put_meter_says(&mut line, &says)?;
    check(rt, line.as_slice() == text, "said by the meter");
    Ok(())
}

#[test]
fn lines_of_a_meter(rt: HostRuntime) -> Result<(), Fail> {
    let alloc = rt.alloc();
    check_meter_says(&rt, alloc, MeterSays::Said(reading_0()), READING_0)?;
    let none = MeterSet::empty();
    let other = MeterSays::Unanswered(FrameRefusal::Why(Why::OtherSet(none)));
    check_meter_says(&rt, alloc, other, b"refused,OtherSet")?;
    let tag = MeterSays::Unanswered(FrameRefusal::Tag);
    check_meter_says(&rt, alloc, tag, b"refused,Tag")?;
    let twice = MeterSays::Unread(ReadingRefusal::Twice);
    check_meter_says(&rt, alloc, twice, b"refused,Twice")?;
    let broken = MeterSays::Broken(FrameError::Magic);
    check_meter_says(&rt, alloc, broken, b"refused,Magic")?;
    check_meter_says(&rt, alloc, MeterSays::UnknownLine, b"refused,Line")?;
    check_meter_says(&rt, alloc, MeterSays::Ready, b"ready")
}

#[test]
fn heard_by_a_head_end(rt: HostRuntime) -> Result<(), Fail> {
    let cases: [(&[u8], ToHeadEnd); 12] = [
        (READING_0, ToHeadEnd::Frame(Ok(reading_0()))),
        (READING_0_AGAIN, ToHeadEnd::Frame(Ok(reading_0()))),
        (BROKEN, ToHeadEnd::Frame(Err(FrameError::Magic))),
        (SHORT, ToHeadEnd::Unknown),
        (b"tick,12", ToHeadEnd::Tick(12)),
        (b"tick,01", ToHeadEnd::Unknown),
        (b"again", ToHeadEnd::Again),
        (b"again,1", ToHeadEnd::Nothing),
        (b"report", ToHeadEnd::Report),
        (b"", ToHeadEnd::Nothing),
        (b"ready,0", ToHeadEnd::Nothing),
        (b"reading,0,10", ToHeadEnd::Unknown),
    ];
    for (line, said) in &cases {
        check(
            &rt,
            read_to_head_end(line) == *said,
            "heard by the head end",
        );
    }
    Ok(())
}

#[test]
fn heard_by_a_meter(rt: HostRuntime) -> Result<(), Fail> {
    let reading = ToMeter::Reading {
        round: 0,
        reading: 10,
    };
    let cases: [(&[u8], ToMeter); 9] = [
        (READING_0, ToMeter::Frame(Ok(reading_0()))),
        (BROKEN, ToMeter::Frame(Err(FrameError::Magic))),
        (b"reading,0,10", reading),
        (b"reading,0,010", ToMeter::Unknown),
        (b"reading,0,10,", ToMeter::Unknown),
        (b"again", ToMeter::Nothing),
        (b"closed,north,0,3,-,announced", ToMeter::Nothing),
        (b"", ToMeter::Nothing),
        (b"tick,0", ToMeter::Unknown),
    ];
    for (line, said) in &cases {
        check(&rt, read_to_meter(line) == *said, "heard by the meter");
    }
    Ok(())
}

#[test]
fn journal_of_a_head_end(rt: HostRuntime) -> Result<(), Fail> {
    let alloc = rt.alloc();
    let head = journal_head(alloc, &plan_of_north(alloc, 1)?)?;
    let text = b"meteragg journal 1\nrounds,1\nwindows,1,2\ngroup,north,3,2\nbegin\n";
    check(&rt, head.as_slice() == text.as_slice(), "head");
    let cases: [(&[u8], Option<Logged>); 5] = [
        (TOOK_0, Some(Logged::Took(reading_0()))),
        (b"t", Some(Logged::Passed)),
        (b"t,", None),
        (b"f,", None),
        (READING_0, None),
    ];
    for (line, said) in &cases {
        check(&rt, read_logged(line) == *said, "journal of the head end");
    }
    let mut line = Vec::new(alloc);
    put_logged(&mut line, &Logged::Took(reading_0()))?;
    check(&rt, line.as_slice() == TOOK_0, "taken");
    Ok(())
}

#[test]
fn journal_of_a_meter(rt: HostRuntime) -> Result<(), Fail> {
    let alloc = rt.alloc();
    let read = Noted::Read {
        round: 0,
        reading: 10,
    };
    let kept = Noted::Kept {
        round: 0,
        set: MeterSet::empty().with(1).with(2),
    };
    let cases: [(&[u8], Option<Noted>); 6] = [
        (b"r,0,10", Some(read)),
        (b"s,0,1+2", Some(kept)),
        (b"s,0,2+1", None),
        (b"r,4294967296,10", None),
        (b"r,0,", None),
        (b"t", None),
    ];
    for (line, said) in &cases {
        check(&rt, read_noted(line) == *said, "journal of the meter");
    }
    let mut line = Vec::new(alloc);
    put_noted(&mut line, &kept)?;
    check(&rt, line.as_slice() == b"s,0,1+2".as_slice(), "kept");
    Ok(())
}
