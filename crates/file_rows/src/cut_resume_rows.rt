//! Texts of transcripts that were cut, and what they are read as.

use crate::fixtures::{check, check_same};
use cut_resume::{CutError, read_cut};
use row_fixtures::{PLAIN, with_line};
use std::alloc::{AllocError, Global};
use std::test::Fail;
use std::thread::Threads;
use transcript_text::write;

/// How many lines the head of `PLAIN` has, and how many entries stand behind it.
const HEAD: u64 = 5;

const ENTRIES: u64 = 20;

// How many entries the text has as a cut, or its first fault.
fn entries<R: Threads + Sync>(rt: &R, alloc: Global, text: &[u8]) -> Result<u64, CutError> {
    Ok(read_cut(rt, alloc, text)?.len() as u64)
}

// So many lines of `PLAIN`, and more behind them.
fn cut_after(alloc: Global, lines: usize, more: &str) -> Result<String, AllocError> {
    let mut text = String::new(alloc);
    for line in PLAIN.lines().take(lines) {
        text.push_str(line)?;
        text.push('\n')?;
    }
    text.push_str(more)?;
    Ok(text)
}

// What a cut is read as that has so many whole lines of `PLAIN`.
fn expected(lines: u64) -> Result<u64, CutError> {
    if lines < HEAD {
        Err(CutError::Head(lines.saturating_add(1)))
    } else {
        Ok(lines.saturating_sub(HEAD).min(ENTRIES))
    }
}

#[test]
fn cut_before_each_byte(rt: HostRuntime) {
    let bytes = PLAIN.as_bytes();
    let mut lines = 0u64;
    for cut in 0..bytes.len() {
        check_same(
            &rt,
            &(cut, entries(&rt, rt.alloc(), &bytes[..cut])),
            &(cut, expected(lines)),
            "a cut",
        );
        if bytes[cut] == b'\n' {
            lines = lines.wrapping_add(1);
        }
    }
}

// How many lines of `PLAIN` stand before a text, the text, and what they are read as.
static CUTS: [(usize, &str, Result<u64, CutError>); 16] = [
    (0, "", Err(CutError::Head(1))),
    (0, "meteragg transcript 1\n", Err(CutError::Head(1))),
    (4, "", Err(CutError::Head(5))),
    (4, "end\n", Err(CutError::Head(5))),
    (5, "", Ok(0)),
    (5, "begin\n", Err(CutError::Line(6))),
    (13, "0,s,0,0,r", Ok(8)),
    (13, "end", Ok(8)),
    (13, "end\n", Err(CutError::Line(14))),
    (13, "end,5,x\n", Err(CutError::Line(14))),
    (13, "ended,8\n", Err(CutError::Line(14))),
    (13, "end,8\n", Ok(8)),
    (13, "end,7\n", Err(CutError::Count(14))),
    (13, "0,t,0,0,r,0,again\n", Err(CutError::Field(14, 1))),
    (26, "x", Ok(20)),
    (26, "x\n", Err(CutError::After(27))),
];

#[test]
fn cuts(rt: HostRuntime) -> Result<(), Fail> {
    for (lines, more, came) in CUTS.iter() {
        let text = cut_after(rt.alloc(), *lines, more)?;
        check_same(&rt, &entries(&rt, rt.alloc(), text.as_bytes()), came, more);
    }
    Ok(())
}

// A fault before the place of a line `end` is the first.
#[test]
fn fault_before_end(rt: HostRuntime) -> Result<(), Fail> {
    let text = with_line(rt.alloc(), PLAIN, 10, "0,t,0,0,r,1,fresh")?;
    check_same(
        &rt,
        &entries(&rt, rt.alloc(), text.as_bytes()),
        &Err(CutError::Field(10, 1)),
        "a tick that falls",
    );
    Ok(())
}

// What is left of a cut text is written as its whole lines, and the `end` line of their entries.
#[test]
fn cut_within_line_14(rt: HostRuntime) -> Result<(), Fail> {
    let cut = cut_after(rt.alloc(), 13, "1,s,0,0,m,1,1,4d02")?;
    let Ok(transcript) = read_cut(&rt, rt.alloc(), cut.as_bytes()) else {
        return Err(Fail::new("refused"));
    };
    let text = cut_after(rt.alloc(), 13, "end,8\n")?;
    let written = write(rt.alloc(), &transcript)?;
    check(&rt, written.as_slice() == text.as_bytes(), "line 14");
    Ok(())
}
