//! Entries on course: the plain case, cut and changed.

use crate::fixtures::check_same;
use row_fixtures::{PLAIN, with_line};
use run_course::{CourseError, in_time};
use std::alloc::Global;
use std::process::Abort;
use std::test::Fail;
use std::thread::Threads;
use transcript_text::{entry_line, read};

// The line that is named: of the first entry off course, or the `end` line where the run goes on; 0 where all is a run.
fn named<R: Threads + Sync>(rt: &R, alloc: Global, text: &str) -> Result<u64, Fail> {
    let transcript = match read(rt, alloc, text.as_bytes()) {
        Ok(transcript) => transcript,
        Err(_) => return Err(Fail::new("refused")),
    };
    let entries = transcript.len() as u64;
    match in_time(alloc, &transcript) {
        Ok(()) => Ok(0),
        Err(CourseError::Entry(at)) if at < entries => Ok(entry_line(transcript.plan(), at)),
        Err(CourseError::Unfinished) => Ok(entry_line(transcript.plan(), entries)),
        Err(_) => Err(Fail::new("no memory")),
    }
}

// The first lines of the plain case, up to this number, and the `end` line that they want.
fn cut_after(alloc: Global, lines: usize) -> Result<String, Fail> {
    let mut text = String::new(alloc);
    for line in PLAIN.lines().take(lines) {
        text.push_str(line)?;
        text.push('\n')?;
    }
    let end = format!(in alloc; "end,{}\n", lines.saturating_sub(5))?;
    text.push_str(&end)?;
    Ok(text)
}

// Looks for the line that is named where the plain case has another line in the place of that of this number.
fn check_changed<R: Abort + Threads + Sync>(
    rt: &R,
    alloc: Global,
    number: usize,
    line: &str,
    wanted: u64,
) -> Result<(), Fail> {
    let text = with_line(alloc, PLAIN, number, line)?;
    check_same(rt, &named(rt, alloc, &text)?, &wanted, line);
    Ok(())
}

// Looks for the `end` line where the plain case is cut after this line.
fn check_cut<R: Abort + Threads + Sync>(rt: &R, alloc: Global, lines: usize) -> Result<(), Fail> {
    let text = cut_after(alloc, lines)?;
    check_same(
        rt,
        &named(rt, alloc, &text)?,
        &(lines as u64).wrapping_add(1),
        "a cut",
    );
    Ok(())
}

#[test]
fn plain_case_is_a_run(rt: HostRuntime) -> Result<(), Fail> {
    check_same(&rt, &named(&rt, rt.alloc(), PLAIN)?, &0, "the plain case");
    Ok(())
}

#[test]
fn cut_runs_go_on(rt: HostRuntime) -> Result<(), Fail> {
    for lines in 5..25 {
        check_cut(&rt, rt.alloc(), lines)?;
    }
    Ok(())
}

#[test]
fn first_entry_off_course(rt: HostRuntime) -> Result<(), Fail> {
    for (number, line, wanted) in [
        // A copy is taken a tick before its delay is over.
        (
            6,
            "0,s,0,0,r,0,2,4d02010000000000000000000000000000000000000000000000000000000000000000000000000000000000b0b9d4e209a2296c",
            9,
        ),
        // A lost frame is taken.
        (
            7,
            "0,s,0,0,r,1,-,4d02010100000000000000000000000000000000000000000000000000000000000000000000000000000000903df1a0ade0b88a",
            10,
        ),
        // A copy is taken twice, and another that is due isn't.
        (11, "1,t,0,0,r,1,again", 11),
        // A round ends at the tick of its Close.
        (12, "1,e,0,0,notclosed,-", 12),
        // The second announcement stands before the first.
        (
            13,
            "1,s,0,0,m,1,1,4d020201000000000000000000000000000000000000000000000000000000000000000000000000000000000000000000000000",
            13,
        ),
        // A Send has no effect.
        (14, "1,s,0,0,m,1,-,void", 14),
        // An announcement has two copies, and one is taken in its tick.
        (
            13,
            "1,s,0,0,m,0,1+1,4d020200000000000000000000000000000000000000000000000000000000000000000000000000000000000000000000000000",
            19,
        ),
    ] {
        check_changed(&rt, rt.alloc(), number, line, wanted)?;
    }
    Ok(())
}
