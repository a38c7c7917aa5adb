//! Worked rows of words, over tables of ideal masks.

ghost use Rattle.std.specs.Prelude.{◌≡◌, ◌<◌, ◌∷◌, [], true, false, IsTrue, IfOk};
ghost use Rattle.group_plan.specs.Plans.{is_place};
ghost use Rattle.blind_core.specs.Blind.{are_places};
ghost use Rattle.ideal_masks.specs.Order.{AreOfPlan};

use crate::fixtures::check;
use crate::transcripts::LATE;
use blind_core::{answer, masked};
use group_plan::{Plan, Readings};
use ideal_masks::{MaskTable, Offsets, offsets, shift};
use mask_stream::Masks;
use missing_round::MeterSet;
use mod_word::Word;
use row_fixtures::{group, plan_of_north, reading_tag, table};
use std::alloc::Global;
use std::process::Abort;
use std::test::Fail;
use std::thread::Threads;
use transcript_log::Transcript;
use transcript_text::read;

fn holds(plan: &Plan, meter: u8) -> bool
    ensures { result ≡ is_place plan.now 0 0 meter }
{
    plan.holds(reading_tag(0, 0, meter))
}

fn set_own(masks: &mut MaskTable, meter: u8, word: u64) -> Result<(), Fail>
    ensures { masks.new.plan ≡ masks.old.plan }
{
    if !holds(masks.plan(), meter) {
        return Err(Fail::new("no meter"));
    }
    masks.set_own(0, 0, meter, Word(word));
    Ok(())
}

/// Sets the word of a pair in round 0 of the first group. Fails where the plan has no such pair.
pub(crate) fn set_pair(masks: &mut MaskTable, low: u8, high: u8, word: u64) -> Result<(), Fail>
    ensures { masks.new.plan ≡ masks.old.plan }
{
    if low >= high || !holds(masks.plan(), high) {
        return Err(Fail::new("no pair"));
    }
    masks.set_pair(0, 0, low, high, Word(word));
    Ok(())
}

fn set_ideal_words(masks: &mut MaskTable) -> Result<(), Fail>
    ensures { masks.new.plan ≡ masks.old.plan }
{
    set_own(masks, 0, 100)?;
    set_own(masks, 1, 200)?;
    set_own(masks, 2, 300)?;
    set_pair(masks, 0, 1, 5)?;
    set_pair(masks, 0, 2, 7)?;
    set_pair(masks, 1, 2, 11)
}

/// The own words 100, 200 and 300, and 5, 7 and 11 for the pairs of 0 and 1, 0 and 2, 1 and 2.
pub(crate) fn ideal_table(alloc: Global, plan: &Plan) -> Result<MaskTable, Fail>
    ensures { IfOk result (λ masks. masks.plan ≡ plan.now) }
{
    let mut masks = MaskTable::zeros(alloc, plan)?;
    set_ideal_words(&mut masks)?;
    Ok(masks)
}

// The word that hides a reading among so many members, 2 or 3.
fn word_of(masks: &MaskTable, meters: u8, meter: u8, reading: u64) -> Result<Word, Fail> {
    let plan = masks.plan();
    let are_places = holds(plan, 0) && holds(plan, 1) && (meters == 2 || holds(plan, 2));
    if !are_places || meters < 2 || meters > 3 || meter >= meters || reading >= 1 << 40 {
        return Err(Fail::new("no reading of a member"));
    }
    let members = MeterSet::full(u16::from(meters));
    Ok(masked(masks, 0, &members, 0, meter, reading))
}

// The word that a meter answers where meter 2 is missing.
fn answer_of(masks: &MaskTable, meter: u8) -> Result<Word, Fail> {
    let plan = masks.plan();
    if !holds(plan, meter) || !holds(plan, 2) || meter == 2 {
        return Err(Fail::new("no meter"));
    }
    let missing = MeterSet::empty().with(2);
    Ok(answer(masks, 0, 0, meter, &missing))
}

// Whether these are the words of the ideal table with readings of 10, 20 and 30, and of its answers where meter 2 is missing.
fn gives_ideal_words(masks: &MaskTable, readings: [u64; 3]) -> Result<bool, Fail> {
    let [first, second, third] = readings;
    for (meter, reading, word) in [(0u8, first, 122u64), (1, second, 226), (2, third, 312)] {
        if word_of(masks, 3, meter, reading)? != Word(word) {
            return Ok(false);
        }
    }
    for (meter, word) in [(0u8, 107u64), (1, 211)] {
        if answer_of(masks, meter)? != Word(word) {
            return Ok(false);
        }
    }
    Ok(true)
}

fn check_ideal_words(rt: &impl Abort, masks: &MaskTable, readings: [u64; 3]) -> Result<(), Fail> {
    check(rt, gives_ideal_words(masks, readings)?, "the words");
    Ok(())
}

/// The answers are those of the row `answers_open_total_30`.
#[test]
fn words_over_ideal_table(rt: HostRuntime) -> Result<(), Fail> {
    let plan = plan_of_north(rt.alloc(), 1)?;
    check_ideal_words(&rt, &ideal_table(rt.alloc(), &plan)?, [10, 20, 30])
}

#[test]
fn higher_meter_subtracts(rt: HostRuntime) -> Result<(), Fail> {
    let plan = Plan::new(rt.alloc(), &[group(b"north", 2, 2)?], 1, 1, 2)?;
    let mut masks = MaskTable::zeros(rt.alloc(), &plan)?;
    set_pair(&mut masks, 0, 1, 1)?;
    let word = word_of(&masks, 2, 1, 0)?;
    check(&rt, word == Word(18_446_744_073_709_551_615), "the word");
    Ok(())
}

fn shift_by(masks: &mut MaskTable, first: &Readings, offsets: &Offsets)
    requires same { masks.old.plan ≡ first.now.plan }
    requires places { AreOfPlan first.now.plan offsets.now }
{
    shift(masks, offsets);
}

// What this transcript moves from a table to 15, 15 and 0.
fn offsets_from(alloc: Global, first: &Readings, transcript: &Transcript) -> Result<Offsets, Fail>
    requires { first.now.plan ≡ transcript.now.plan }
    ensures { IfOk result (AreOfPlan first.now.plan) }
{
    let second = table(alloc, transcript.plan(), &[15, 15, 0])?;
    match offsets(alloc, first, &second, transcript) {
        Ok(offsets) => Ok(offsets),
        Err(_) => Err(Fail::new("no offsets")),
    }
}

// Shifts a table by what this transcript moves from 10, 20 and 30 to 15, 15 and 0.
fn shift_over(alloc: Global, masks: &mut MaskTable, transcript: &Transcript) -> Result<(), Fail>
    requires { masks.old.plan ≡ transcript.now.plan }
{
    let first = table(alloc, transcript.plan(), &[10, 20, 30])?;
    let offsets = offsets_from(alloc, &first, transcript)?;
    shift_by(masks, &first, &offsets);
    Ok(())
}

fn late_transcript<R: Threads + Sync>(rt: &R, alloc: Global) -> Result<Transcript, Fail> {
    match read(rt, alloc, LATE.as_bytes()) {
        Ok(transcript) => Ok(transcript),
        Err(_) => Err(Fail::new("no transcript")),
    }
}

// The ideal table, shifted by what this transcript moves from 10, 20 and 30 to 15, 15 and 0.
fn shifted_table(alloc: Global, transcript: &Transcript) -> Result<MaskTable, Fail> {
    let mut masks = ideal_table(alloc, transcript.plan())?;
    shift_over(alloc, &mut masks, transcript)?;
    Ok(masks)
}

// Looks for the words of the shifted table.
fn check_shifted(rt: &impl Abort, masks: &MaskTable) -> Result<(), Fail> {
    check(rt, holds(masks.plan(), 1), "meter 1");
    check(rt, holds(masks.plan(), 2), "meter 2");
    if holds(masks.plan(), 1) && holds(masks.plan(), 2) {
        check(rt, masks.pair(0, 0, 0, 1) == Word(0), "a pair's word");
        check(rt, masks.own(0, 0, 2) == Word(330), "an own word");
    }
    check_ideal_words(rt, masks, [15, 15, 0])
}

#[test]
fn ideal_table_shifted(rt: HostRuntime) -> Result<(), Fail> {
    let transcript = late_transcript(&rt, rt.alloc())?;
    check_shifted(&rt, &shifted_table(rt.alloc(), &transcript)?)
}
