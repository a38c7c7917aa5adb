//! Masks files of the plain case, the first lines that differ, and the causes that come first.

use crate::fixtures::check;
use crate::transcripts::{LATE, is_writable};
use event_schedule::{Entry, Line};
use group_plan::{Plan, Span};
use ideal_masks::Differ;
use link_lanes::Fate;
use row_fixtures::{PLAIN, group, keys_of_north, plan_of_north, table, with_line};
use std::alloc::Global;
use std::process::Abort;
use std::test::Fail;
use std::thread::Threads;
use transcript_log::Transcript;
use transcript_text::{ReadError, line_text, write};
use twin_worlds::{MovedWords, ReadingTables, TwinError, moved_text, twin};

// ---- files

/// Tables of readings beside that of 10, 20 and 30, and the masks files that `PLAIN` gives with them.
static PLAIN_FILES: [([u64; 3], &str); 2] = [
    ([10, 20, 30], "meteragg masks 1\nend,0\n"),
    (
        [15, 15, 30],
        "meteragg masks 1\n\
        pair,0,0,0,1,903df1a0ade0b876,903df1a0ade0b871\n\
        end,1\n",
    ),
];

static LATE_MASKS: &str = "\
meteragg masks 1\n\
own,0,0,2,903df1a0ade0b876,903df1a0ade0b894\n\
pair,0,0,0,1,903df1a0ade0b876,903df1a0ade0b871\n\
end,2\n";

/// The announcement to meter 1 is lost.
pub(crate) static DEAF: &str = "\
meteragg transcript 2\n\
rounds,1\n\
windows,1,2\n\
group,north,3,2\n\
begin\n\
0,s,0,0,r,0,1,4d02010000000000000000000000000000000000000000000000000000000000000000000000000000000000b0b9d4e209a2296c\n\
0,s,0,0,r,1,1,4d02010100000000000000000000000000000000000000000000000000000000000000000000000000000000903df1a0ade0b88a\n\
0,s,0,0,r,2,1,4d020102000000000000000000000000000000000000000000000000000000000000000000000000000000006fc20e5f521f47a8\n\
1,t,0,0,r,0,fresh\n\
1,t,0,0,r,1,fresh\n\
1,t,0,0,r,2,fresh\n\
1,c,0,0,announced,-\n\
1,s,0,0,m,0,1,4d020200000000000000000000000000000000000000000000000000000000000000000000000000000000000000000000000000\n\
1,s,0,0,m,1,-,4d020201000000000000000000000000000000000000000000000000000000000000000000000000000000000000000000000000\n\
1,s,0,0,m,2,1,4d020202000000000000000000000000000000000000000000000000000000000000000000000000000000000000000000000000\n\
2,t,0,0,m,0,fresh\n\
2,t,0,0,m,2,fresh\n\
2,s,0,0,a,0,1,4d02030000000000000000000000000000000000000000000000000000000000000000000000000000000000903df1a0ade0b876\n\
2,s,0,0,a,2,1,4d02030200000000000000000000000000000000000000000000000000000000000000000000000000000000903df1a0ade0b876\n\
3,t,0,0,a,0,fresh\n\
3,t,0,0,a,2,fresh\n\
3,e,0,0,none,1\n\
end,17\n";

pub(crate) static DEAF_MASKS: &str = "\
meteragg masks 1\n\
own,0,0,1,903df1a0ade0b876,903df1a0ade0b8ac\n\
pair,0,0,0,2,903df1a0ade0b876,903df1a0ade0b87f\n\
pair,0,0,1,2,903df1a0ade0b876,903df1a0ade0b852\n\
end,3\n";

/// The answer of meter 1 is lost.
pub(crate) static LOST: &str = "\
meteragg transcript 2\n\
rounds,1\n\
windows,1,2\n\
group,north,3,2\n\
begin\n\
0,s,0,0,r,0,1,4d02010000000000000000000000000000000000000000000000000000000000000000000000000000000000b0b9d4e209a2296c\n\
0,s,0,0,r,1,1,4d02010100000000000000000000000000000000000000000000000000000000000000000000000000000000903df1a0ade0b88a\n\
0,s,0,0,r,2,1,4d020102000000000000000000000000000000000000000000000000000000000000000000000000000000006fc20e5f521f47a8\n\
1,t,0,0,r,0,fresh\n\
1,t,0,0,r,1,fresh\n\
1,t,0,0,r,2,fresh\n\
1,c,0,0,announced,-\n\
1,s,0,0,m,0,1,4d020200000000000000000000000000000000000000000000000000000000000000000000000000000000000000000000000000\n\
1,s,0,0,m,1,1,4d020201000000000000000000000000000000000000000000000000000000000000000000000000000000000000000000000000\n\
1,s,0,0,m,2,1,4d020202000000000000000000000000000000000000000000000000000000000000000000000000000000000000000000000000\n\
2,t,0,0,m,0,fresh\n\
2,t,0,0,m,1,fresh\n\
2,t,0,0,m,2,fresh\n\
2,s,0,0,a,0,1,4d02030000000000000000000000000000000000000000000000000000000000000000000000000000000000903df1a0ade0b876\n\
2,s,0,0,a,1,-,4d02030100000000000000000000000000000000000000000000000000000000000000000000000000000000903df1a0ade0b876\n\
2,s,0,0,a,2,1,4d02030200000000000000000000000000000000000000000000000000000000000000000000000000000000903df1a0ade0b876\n\
3,t,0,0,a,0,fresh\n\
3,t,0,0,a,2,fresh\n\
3,e,0,0,none,1\n\
end,19\n";

// ---- tables

// What `twin` answers for a text of this plan.
fn judged<R: Threads + Sync>(
    rt: &R,
    alloc: Global,
    plan: &Plan,
    first: &[u64],
    second: &[u64],
    text: &[u8],
) -> Result<Result<MovedWords, TwinError>, Fail> {
    let keys = keys_of_north(alloc, plan, [0; 6])?;
    let first = table(alloc, plan, first)?;
    let second = table(alloc, plan, second)?;
    let tables = ReadingTables {
        first: &first,
        second: &second,
    };
    Ok(twin(rt, alloc, &keys, &tables, text))
}

// ---- moved words

// What `twin` answers for a text of the plan of `north` in one round.
fn judged_north<R: Threads + Sync>(
    rt: &R,
    alloc: Global,
    first: &[u64],
    second: &[u64],
    text: &str,
) -> Result<Result<MovedWords, TwinError>, Fail> {
    let plan = plan_of_north(alloc, 1)?;
    judged(rt, alloc, &plan, first, second, text.as_bytes())
}

// Whether these are the moved words from 10, 20 and 30 to the second table.
fn moves<R: Threads + Sync>(
    rt: &R,
    alloc: Global,
    text: &str,
    second: &[u64],
    masks: &str,
) -> Result<bool, Fail> {
    match judged_north(rt, alloc, &[10, 20, 30], second, text)? {
        Ok(moved) => Ok(moved_text(alloc, &moved)?.as_slice() == masks.as_bytes()),
        Err(_) => Ok(false),
    }
}

#[test]
fn masks_files(rt: HostRuntime) -> Result<(), Fail> {
    for (second, masks) in PLAIN_FILES.iter() {
        check(&rt, moves(&rt, rt.alloc(), PLAIN, second, masks)?, masks);
    }
    let moves_late = moves(&rt, rt.alloc(), LATE, &[15, 15, 0], LATE_MASKS)?;
    check(&rt, moves_late, "late_reading_left_out");
    let moves_deaf = moves(&rt, rt.alloc(), DEAF, &[1, 2, 3], DEAF_MASKS)?;
    check(&rt, moves_deaf, "lost_announcement_gives_none");
    Ok(())
}

// ---- refusals

/// Lines of `PLAIN` that are changed: the line's number and its text, and the first line that differs then, with what is
/// expected there.
static OTHER_LINES: [(usize, &str, u64, &str); 8] = [
    (9, "1,t,0,0,r,0,again", 9, "1,t,0,0,r,0,fresh"),
    (12, "1,c,0,0,announced,2", 12, "1,c,0,0,announced,-"),
    (25, "3,e,0,0,total,61", 25, "3,e,0,0,total,60"),
    // another word, at another tick and with another fate
    (
        8,
        "1,s,0,0,r,2,2+5,4d020102000000000000000000000000000000000000000000000000000000000000000000000000000000000000000000000007",
        8,
        "1,s,0,0,r,2,2+5,4d020102000000000000000000000000000000000000000000000000000000000000000000000000000000006fc20e5f521f47a8",
    ),
    // another set
    (
        13,
        "1,s,0,0,m,0,3,4d020200000000000000000000000000000000000000000000000000000000000000000000000000000000040000000000000000",
        13,
        "1,s,0,0,m,0,3,4d020200000000000000000000000000000000000000000000000000000000000000000000000000000000000000000000000000",
    ),
    // a frame is expected where there is none
    (
        13,
        "1,s,0,0,m,0,-,void",
        13,
        "1,s,0,0,m,0,-,4d020200000000000000000000000000000000000000000000000000000000000000000000000000000000000000000000000000",
    ),
    // without the Close an announcement is void, whatever its fate is
    (12, "1,e,0,0,notclosed,-", 13, "1,s,0,0,m,0,-,void"),
    // a Send of a reading in the place of a Take: the meter isn't taken, and missing in the Close
    (
        11,
        "1,s,0,0,r,2,-,4d020102000000000000000000000000000000000000000000000000000000000000000000000000000000006fc20e5f521f47a8",
        12,
        "1,c,0,0,announced,2",
    ),
];

// Whether a line is expected at this tick and with this fate, and has this text.
fn is_line(
    alloc: Global,
    tick: u32,
    fate: Fate,
    line: Line,
    expected_text: &str,
) -> Result<bool, Fail> {
    if !is_writable(&line) {
        return Ok(false);
    }
    let text = line_text(alloc, &Entry { tick, fate, line })?;
    Ok(text.as_slice() == expected_text.as_bytes())
}

// Whether this line is the first that differs, and this is expected there.
fn is_expected(
    alloc: Global,
    error: &TwinError,
    number: u64,
    expected_text: &str,
) -> Result<bool, Fail> {
    match error {
        TwinError::NotThis {
            line,
            expected,
            tick,
            fate,
            ..
        } if *line == number => is_line(alloc, *tick, *fate, *expected, expected_text),
        _ => Ok(false),
    }
}

// Whether this line of the text is the first that differs from what the table gives, and this is expected there.
fn expects<R: Threads + Sync>(
    rt: &R,
    alloc: Global,
    first: &[u64],
    text: &str,
    number: u64,
    expected_text: &str,
) -> Result<bool, Fail> {
    match judged_north(rt, alloc, first, &[1, 2], text)?.err() {
        Some(error) => is_expected(alloc, &error, number, expected_text),
        None => Ok(false),
    }
}

#[test]
fn other_lines(rt: HostRuntime) -> Result<(), Fail> {
    for (number, line, first, expected) in OTHER_LINES.iter() {
        let text = with_line(rt.alloc(), PLAIN, *number, line)?;
        let named = expects(&rt, rt.alloc(), &[10, 20, 30], &text, *first, expected)?;
        check(&rt, named, line);
    }
    let line =
        "0,s,0,0,r,0,1,4d02010000000000000000000000000000000000000000000000000000000000000000000000000000000000b0b9d4e209a2296d";
    let named = expects(&rt, rt.alloc(), &[11, 20, 30], PLAIN, 6, line)?;
    check(&rt, named, "readings_changed_after_run");
    Ok(())
}

// Whether `twin` answers this error, from 10, 20 and 30 to the second table.
fn refuses<R: Threads + Sync>(
    rt: &R,
    alloc: Global,
    floor: u32,
    text: &str,
    second: &[u64],
    error: TwinError,
) -> Result<bool, Fail> {
    let plan = Plan::new(alloc, &[group(b"north", 3, floor)?], 1, 1, 2)?;
    match judged(rt, alloc, &plan, &[10, 20, 30], second, text.as_bytes())? {
        Err(answered) => Ok(answered == error),
        Ok(_) => Ok(false),
    }
}

// Looks for the first cause where the answer of meter 1 is lost.
fn check_lost<R: Abort + Threads + Sync>(rt: &R, alloc: Global) -> Result<(), Fail> {
    let (group, round) = (0, 0);
    let total = Differ::Total {
        group,
        round,
        first: 60,
        second: 6,
    };
    let is_first = refuses(rt, alloc, 2, LOST, &[1, 2, 3], TwinError::Differ(total))?;
    check(rt, is_first, "lost_answer_gives_none");
    let presence = Differ::Presence {
        group,
        round,
        meter: 2,
    };
    let is_first = refuses(rt, alloc, 2, LOST, &[1, 2], TwinError::Differ(presence))?;
    check(rt, is_first, "presence");
    Ok(())
}

// Whether `twin` answers this error where a line of `PLAIN` is changed and the plan is another.
fn refuses_changed<R: Threads + Sync>(
    rt: &R,
    alloc: Global,
    number: usize,
    line: &str,
    error: TwinError,
) -> Result<bool, Fail> {
    let text = with_line(alloc, PLAIN, number, line)?;
    refuses(rt, alloc, 3, &text, &[1, 2], error)
}

/// The cause that comes first is answered, whatever else there is.
#[test]
fn first_causes(rt: HostRuntime) -> Result<(), Fail> {
    check_lost(&rt, rt.alloc())?;
    let other = refuses_changed(&rt, rt.alloc(), 9, "1,t,0,0,r,0,again", TwinError::Head)?;
    check(&rt, other, "other plan");
    let count = TwinError::Transcript(ReadError::Count(26));
    let cut = refuses_changed(&rt, rt.alloc(), 26, "end,19", count)?;
    check(&rt, cut, "other count");
    Ok(())
}

// The text of an empty transcript.
fn empty_text(alloc: Global, plan: &Plan) -> Result<Vec<u8>, Fail> {
    Ok(write(alloc, &Transcript::empty(alloc, plan)?)?)
}

// Whether `twin` takes an empty transcript of the other plan for one of this plan.
fn is_same_plan<R: Threads + Sync>(
    rt: &R,
    alloc: Global,
    plan: &Plan,
    other: &Plan,
) -> Result<bool, Fail> {
    let text = empty_text(alloc, other)?;
    match judged(rt, alloc, plan, &[], &[], &text)? {
        Ok(_) => Ok(true),
        Err(TwinError::Head) => Ok(false),
        Err(_) => Err(Fail::new("another cause")),
    }
}

// A meter with a span from the first round on.
fn span(until: u32) -> Span {
    Span {
        group: 0,
        meter: 1,
        from: 0,
        until,
    }
}

// Whether `twin` takes an empty transcript of the plan with this span for one of the plan.
fn is_same_with<R: Threads + Sync>(
    rt: &R,
    alloc: Global,
    plan: &Plan,
    span: Span,
) -> Result<bool, Fail> {
    is_same_plan(rt, alloc, plan, &plan.with_members(&[span])?)
}

// Looks for whether plans of one round and of two are the same as others.
fn check_plans<R: Abort + Threads + Sync>(
    rt: &R,
    alloc: Global,
    plan: &Plan,
    longer: &Plan,
) -> Result<(), Fail> {
    check(rt, is_same_with(rt, alloc, plan, span(1))?, "the same");
    check(rt, !is_same_plan(rt, alloc, plan, longer)?, "rounds");
    check(rt, is_same_with(rt, alloc, longer, span(2))?, "both rounds");
    check(rt, !is_same_with(rt, alloc, longer, span(1))?, "a span");
    Ok(())
}

/// Plans are the same where their groups, rounds, windows and spans are.
#[test]
fn other_plans(rt: HostRuntime) -> Result<(), Fail> {
    let plan = plan_of_north(rt.alloc(), 1)?;
    let longer = plan_of_north(rt.alloc(), 2)?;
    check_plans(&rt, rt.alloc(), &plan, &longer)
}
