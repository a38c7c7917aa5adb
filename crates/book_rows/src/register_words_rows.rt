//! Registers: a published word, and the side words and the report of the plain case with two registers.

ghost use Rattle.std.specs.Prelude.{◌≡◌, IfOk};

use crate::fixtures::{check, check_same};
use mask_stream::Masks;
use plan_files::{Registers, read_registers};
use register_words::{
    RegisterMasks, SideWords, register_report, register_word, side_text, side_words,
};
use row_fixtures::{PLAIN, keys_of_north};
use std::alloc::Global;
use std::test::Fail;
use std::thread::Threads;
use totals_report::{Report, read_report};
use transcript_log::Transcript;
use transcript_text::read;

// The words at places 2 and 3 of the stream of the key of zeros: bytes 8 to 15 of the published block (RFC 8439, A.1).
#[test]
fn register_1_stream_word(rt: HostRuntime) {
    let word = register_word(&[0; 32], 0, 1);
    check_same(&rt, &word.value(), &0x28bd_8653_e56a_5d40, "register 1");
    let first = register_word(&[0; 32], 0, 0);
    check_same(&rt, &first.value(), &0x903d_f1a0_ade0_b876, "register 0");
}

#[test]
fn register_masks_are_register_words(rt: HostRuntime) -> Result<(), Fail> {
    let plan = row_fixtures::plan_of_north(rt.alloc(), 1)?;
    let keys = keys_of_north(rt.alloc(), &plan, [0; 6])?;
    if plan.rounds() < 1 || plan.groups().is_empty() || plan.meters(0) < 2 {
        return Err(Fail::new("no plan of two meters"));
    }
    let masks = RegisterMasks::new(&keys, 1);
    let own = masks.own(0, 0, 1);
    check_same(&rt, &own.value(), &0x28bd_8653_e56a_5d40, "an own word");
    let pair = masks.pair(0, 0, 0, 1);
    check_same(&rt, &pair.value(), &0x28bd_8653_e56a_5d40, "a pair word");
    Ok(())
}

// The words of register 1 are 1 + 3W, 2 + W and 3 - W, where W is the word of `register_1_stream_word`, and each answer is W.
static WORDS: &str = "\
meteragg words 1\n\
6,7a3892fbb03f17c1\n\
7,28bd8653e56a5d42\n\
8,d74279ac1a95a2c3\n\
19,28bd8653e56a5d40\n\
20,28bd8653e56a5d40\n\
21,28bd8653e56a5d40\n\
end,6\n";

static REPORT: &str = "group,round,survivors,missing,outcome,total\nnorth,0,3,-,total,60\n";

static TOTALS: &str = "group,round,survivors,missing,outcome,totals\nnorth,0,3,-,total,60+6\n";

fn plain_transcript<R: Threads + Sync>(rt: &R, alloc: Global) -> Result<Transcript, Fail> {
    match read(rt, alloc, PLAIN.as_bytes()) {
        Ok(transcript) => Ok(transcript),
        Err(_) => Err(Fail::new("no transcript")),
    }
}

fn two_tables(alloc: Global, transcript: &Transcript) -> Result<Registers, Fail>
    ensures { IfOk result (λ tables. tables.plan ≡ transcript.now.plan) }
{
    match read_registers(alloc, transcript.plan(), 2, b"north,0,10+1,20+2,30+3\n") {
        Ok(tables) => Ok(tables),
        Err(_) => Err(Fail::new("refused")),
    }
}

fn plain_words<R: Threads + Sync>(
    rt: &R,
    alloc: Global,
    transcript: &Transcript,
) -> Result<SideWords, Fail> {
    let tables = two_tables(alloc, transcript)?;
    let keys = keys_of_north(alloc, transcript.plan(), [0; 6])?;
    Ok(side_words(rt, alloc, transcript, &tables, &keys)?)
}

fn plain_report(alloc: Global) -> Result<Report, Fail> {
    match read_report(alloc, REPORT.as_bytes()) {
        Ok(report) => Ok(report),
        Err(_) => Err(Fail::new("no report")),
    }
}

fn totals(
    alloc: Global,
    report: &Report,
    transcript: &Transcript,
    words: &SideWords,
) -> Result<Vec<u8>, Fail> {
    let plan = transcript.plan();
    if report.rows().len() > plan.groups().len() * plan.rounds() as usize {
        return Err(Fail::new("more rows than rounds"));
    }
    Ok(register_report(alloc, report, transcript, words)?)
}

#[test]
fn two_registers(rt: HostRuntime) -> Result<(), Fail> {
    let transcript = plain_transcript(&rt, rt.alloc())?;
    let words = plain_words(&rt, rt.alloc(), &transcript)?;
    let text = side_text(rt.alloc(), &words)?;
    check(&rt, text.as_slice() == WORDS.as_bytes(), "the side words");
    let report = plain_report(rt.alloc())?;
    let totals = totals(rt.alloc(), &report, &transcript, &words)?;
    check(&rt, totals.as_slice() == TOTALS.as_bytes(), "the report");
    Ok(())
}
