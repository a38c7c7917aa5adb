//! Texts of transcripts, read and written, and their first faults.

use crate::fixtures::{check, check_bytes, check_same};
use event_schedule::{Entry, Line, members};
use group_plan::{Kind, Plan, Span, Tag};
use link_lanes::Fate;
use round_machine::Verdict;
use row_fixtures::{PLAIN, PLAIN_OLD, plan_of_north, reading_tag, with_line};
use std::alloc::{AllocError, Global};
use std::process::Abort;
use std::test::Fail;
use std::thread::Threads;
use transcript_log::Transcript;
use transcript_text::{ReadError, line_text, read, read_old, write};

const WHOLE: Option<ReadError> = None;

// The plain case, as it is read in this version or in the old one.
fn plain_case<R: Threads + Sync>(rt: &R, alloc: Global, old: bool) -> Result<Transcript, Fail> {
    let read_back = if old {
        read_old(rt, alloc, PLAIN_OLD.as_bytes())
    } else {
        read(rt, alloc, PLAIN.as_bytes())
    };
    match read_back {
        Ok(transcript) => Ok(transcript),
        Err(_) => Err(Fail::new("refused")),
    }
}

// Looks for the number of lines of a transcript, and for its text.
fn check_text(
    rt: &impl Abort,
    alloc: Global,
    transcript: &Transcript,
    lines: usize,
    text: &str,
) -> Result<(), Fail> {
    check_same(rt, &transcript.len(), &lines, "the length");
    check_bytes(rt, &write(alloc, transcript)?, text.as_bytes(), "the text");
    Ok(())
}

// Looks for the text of the plain case.
fn check_plain<R: Abort + Threads + Sync>(rt: &R, alloc: Global, old: bool) -> Result<(), Fail> {
    check_text(rt, alloc, &plain_case(rt, alloc, old)?, 20, PLAIN)
}

#[test]
fn texts_written_again(rt: HostRuntime) -> Result<(), Fail> {
    check_plain(&rt, rt.alloc(), false)?;
    check_plain(&rt, rt.alloc(), true)
}

#[test]
fn cut_before_each_byte(rt: HostRuntime) {
    let bytes = PLAIN.as_bytes();
    let mut lines = 1u64;
    for cut in 0..bytes.len() {
        let expected = if lines <= 5 {
            ReadError::Head(lines)
        } else {
            ReadError::NoEnd(lines)
        };
        let fault = read(&rt, rt.alloc(), &bytes[..cut]).err();
        check_same(&rt, &(cut, fault), &(cut, Some(expected)), "a cut");
        if bytes[cut] == b'\n' {
            lines = lines.wrapping_add(1);
        }
    }
}

// Numbers of lines, from 1, each with the line that stands there in place of that of `PLAIN`, and with the first fault.
static FAULTS: [(usize, &str, Option<ReadError>); 40] = [
    (1, "meteragg transcript 1", Some(ReadError::Head(1))),
    (1, "meteragg transcript 2\r", Some(ReadError::Head(1))),
    (1, "\u{feff}meteragg transcript 2", Some(ReadError::Head(1))),
    (2, "rounds,01", Some(ReadError::Head(2))),
    (2, "rounds,4294967296", Some(ReadError::Head(2))),
    (2, "rounds,0", Some(ReadError::Head(5))),
    (3, "windows,1", Some(ReadError::Head(3))),
    (3, "windows,17,2", Some(ReadError::Head(5))),
    (4, "group,no th,3,2", Some(ReadError::Head(4))),
    (4, "group,north,257,2", Some(ReadError::Head(5))),
    (4, "member,0,0,0,1", Some(ReadError::Head(4))),
    (5, "member,0,0,0,1", Some(ReadError::Head(5))),
    (6, "end,s", Some(ReadError::Field(6, 2))),
    (6, "end,s,0,0,r,0,1,void", Some(ReadError::Field(6, 1))),
    (6, "0,s,0,0,r,0,-,void", WHOLE),
    (6, "0,s,0,0,r,0,1,void", Some(ReadError::Field(6, 8))),
    (6, "0,s,0,0,r,0,17,void", Some(ReadError::Field(6, 7))),
    (6, "0,s,0,0,r,0,2+1,void", Some(ReadError::Field(6, 7))),
    (6, "0,s,0,0,r,0,1+1+1+1,void", Some(ReadError::Field(6, 7))),
    (6, "0,x,0,0,r,0,-,void", Some(ReadError::Line(6))),
    (6, "0,t,0,0,r,0,fresh,void", Some(ReadError::Line(6))),
    (9, "1,t,1,0,r,0,fresh", Some(ReadError::Field(9, 3))),
    (9, "1,t,0,1,r,0,fresh", Some(ReadError::Field(9, 4))),
    (9, "1,t,0,0,x,0,fresh", Some(ReadError::Field(9, 5))),
    (9, "1,t,0,0,r,3,fresh", Some(ReadError::Field(9, 6))),
    (9, "1,t,0,0,r,0,Fresh", Some(ReadError::Field(9, 7))),
    (10, "0,t,0,0,r,1,fresh", Some(ReadError::Field(10, 1))),
    (
        10,
        "4294967296,t,0,0,r,1,fresh",
        Some(ReadError::Field(10, 1)),
    ),
    (12, "1,c,0,0,announced,3", Some(ReadError::Field(12, 6))),
    (12, "1,c,0,0,announced,2+0", Some(ReadError::Field(12, 6))),
    (12, "1,c,0,0,thin,0+0", Some(ReadError::Field(12, 6))),
    (12, "1,c,0,0,already,0", Some(ReadError::Field(12, 6))),
    (12, "1,c,0,0,closed,-", Some(ReadError::Field(12, 5))),
    (25, "3,e,0,0,none,0+2", WHOLE),
    (25, "3,e,0,0,total,18446744073709551615", WHOLE),
    (
        25,
        "3,e,0,0,total,18446744073709551616",
        Some(ReadError::Field(25, 6)),
    ),
    (26, "end,19", Some(ReadError::Count(26))),
    (26, "end,020", Some(ReadError::Field(26, 2))),
    (26, "end,20\nx", Some(ReadError::After(27))),
    (26, "3,t,0,0,a,2,again", Some(ReadError::NoEnd(27))),
];

#[test]
fn first_faults(rt: HostRuntime) -> Result<(), Fail> {
    for (number, line, expected) in FAULTS.iter() {
        let text = with_line(rt.alloc(), PLAIN, *number, line)?;
        let fault = read(&rt, rt.alloc(), text.as_bytes()).err();
        check_same(&rt, &fault, expected, line);
    }
    Ok(())
}

fn small_plan(alloc: Global) -> Result<Plan, Fail> {
    let span = Span {
        group: 0,
        meter: 2,
        from: 1,
        until: 2,
    };
    Ok(plan_of_north(alloc, 2)?.with_members(&[span])?)
}

#[test]
fn members_of_a_round(rt: HostRuntime) -> Result<(), Fail> {
    let plan = small_plan(rt.alloc())?;
    if plan.groups().len() == 1 && plan.rounds() == 2 {
        check(&rt, members(&plan, 0, 0).len() == 2, "round 0");
        check(&rt, members(&plan, 0, 1).has(2), "round 1");
    } else {
        panic!(rt; "another plan")
    }
    Ok(())
}

static SMALL: &str = "\
meteragg transcript 2\n\
rounds,2\n\
windows,1,2\n\
group,north,3,2\n\
member,0,2,1,2\n\
begin\n\
7,t,0,1,r,2,late\n\
end,1\n";

// The reading of meter 2 in round 1, which comes late.
const LATE: Line = Line::Take {
    tag: Tag {
        group: 0,
        round: 1,
        meter: 2,
        kind: Kind::Reading,
    },
    verdict: Verdict::Late,
};

// Looks for the line of this fate at tick 7.
fn check_late_line(rt: &impl Abort, alloc: Global, fate: Fate) -> Result<(), Fail> {
    let entry = Entry {
        tick: 7,
        fate,
        line: LATE,
    };
    let line = line_text(alloc, &entry)?;
    check_bytes(rt, &line, b"7,t,0,1,r,2,late", "the line");
    Ok(())
}

// The transcript of that line.
fn late_transcript(alloc: Global, plan: &Plan, fate: Fate) -> Result<Transcript, AllocError> {
    let entry = Entry {
        tick: 7,
        fate,
        line: LATE,
    };
    let mut transcript = Transcript::empty(alloc, plan)?;
    if plan.holds(reading_tag(0, 1, 2)) && fate.delays().is_empty() {
        transcript.push(entry)?;
    }
    Ok(transcript)
}

// Looks for the text of that transcript.
fn check_late_text(rt: &impl Abort, alloc: Global, fate: Fate) -> Result<(), Fail> {
    let transcript = late_transcript(alloc, &small_plan(alloc)?, fate)?;
    check_text(rt, alloc, &transcript, 1, SMALL)
}

#[test]
fn entry_pushed(rt: HostRuntime) -> Result<(), Fail> {
    let fate = Fate::lost();
    check_late_line(&rt, rt.alloc(), fate)?;
    check_late_text(&rt, rt.alloc(), fate)
}
