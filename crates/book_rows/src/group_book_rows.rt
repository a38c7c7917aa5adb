//! Whole rounds of one group of three meters, call by call.

use crate::fixtures::{book_of_north, check, check_same, is_same, reading_frame};
use group_book::{Book, Outcome, OutcomeState, SendAnswer, TakeError};
use group_plan::{Kind, Tag};
use meter_frames::Frame;
use missing_round::MeterSet;
use mod_word::Word;
use round_machine::{Closing, Ending, Verdict};
use row_fixtures::reading_tag;
use std::alloc::Global;
use std::process::Abort;
use std::test::Fail;
use transcript_log::Lines;

fn frame(kind: Kind, meter: u8, missing: MeterSet, word: u64) -> Frame {
    Frame {
        tag: Tag {
            group: 0,
            round: 0,
            meter,
            kind,
        },
        missing,
        word: Word(word),
    }
}

fn check_send(
    rt: &impl Abort,
    book: &mut Book,
    frame: Frame,
    answer: &SendAnswer,
) -> Result<(), Fail> {
    if book.spare() < 1 {
        return Err(Fail::new("no room"));
    }
    match frame.tag.kind {
        Kind::Reading if frame.missing.len() > 0 => Err(Fail::new("a set in a reading")),
        Kind::Announcement if frame.word.value() > 0 => Err(Fail::new("a word")),
        _ => {
            check(rt, book.send(frame) == *answer, "a Send");
            Ok(())
        }
    }
}

// Looks for what a Take says, or why it is refused.
fn check_take(
    rt: &impl Abort,
    book: &mut Book,
    frame: &Frame,
    answer: &Result<Verdict, TakeError>,
) -> Result<(), Fail> {
    if book.spare() < 1 {
        return Err(Fail::new("no room"));
    }
    check(rt, book.take(frame) == *answer, "a Take");
    Ok(())
}

fn check_close(rt: &impl Abort, book: &mut Book, closing: &Closing) -> Result<(), Fail> {
    if book.spare() < 1 || !book.has_round(0, 0) {
        return Err(Fail::new("no room"));
    }
    check(rt, book.close(0, 0) == *closing, "the Close");
    Ok(())
}

fn check_end(rt: &impl Abort, book: &mut Book, ending: &Ending) -> Result<(), Fail> {
    if book.spare() < 1 || !book.has_round(0, 0) {
        return Err(Fail::new("no room"));
    }
    check(rt, book.end(0, 0) == *ending, "the End");
    Ok(())
}

fn outcome(book: &Book) -> Result<Outcome, Fail> {
    if !book.has_round(0, 0) {
        return Err(Fail::new("no round"));
    }
    Ok(book.outcome(0, 0))
}

// Calls before the first reading is taken, which add four lines.
fn check_sends(rt: &impl Abort, book: &mut Book) -> Result<(), Fail> {
    let (seven, eight) = (reading_frame(0, 7), reading_frame(0, 8));
    check_end(rt, book, &Ending::NotClosed)?;
    check_take(rt, book, &seven, &Ok(Verdict::Void))?;
    check_send(rt, book, seven, &SendAnswer::Sent)?;
    check_send(rt, book, eight, &SendAnswer::Differs { posted: seven })
}

// Why a Take of the reading 8 in the place of 7 is refused.
fn forged_eight() -> TakeError {
    TakeError::Forged {
        posted: reading_frame(0, 7),
        came: reading_frame(0, 8),
    }
}

// Takes of the reading 7, and of another frame in its place.
fn check_seven(rt: &impl Abort, book: &mut Book) -> Result<(), Fail> {
    let seven = reading_frame(0, 7);
    check_take(rt, book, &reading_frame(0, 8), &Err(forged_eight()))?;
    check_take(rt, book, &seven, &Ok(Verdict::Fresh))?;
    check_take(rt, book, &seven, &Ok(Verdict::Again))
}

// The Close and the End of a round with one survivor, each of them twice, and an announcement between them.
fn check_thin(rt: &impl Abort, book: &mut Book) -> Result<(), Fail> {
    let others = MeterSet::empty().with(1).with(2);
    let announcement = frame(Kind::Announcement, 0, others, 0);
    check_close(rt, book, &Closing::Thin(others))?;
    check_close(rt, book, &Closing::Already)?;
    check_send(rt, book, announcement, &SendAnswer::NotAllowed)?;
    check_end(rt, book, &Ending::Thin)?;
    check_end(rt, book, &Ending::Already)
}

// The calls of a thin round, which add ten lines.
fn check_round(rt: &impl Abort, book: &mut Book) -> Result<(), Fail> {
    check_sends(rt, book)?;
    check_seven(rt, book)?;
    check_thin(rt, book)?;
    check_same(rt, &book.journal().len(), &10, "the lines");
    check(rt, book.spare() >= 2, "the room");
    Ok(())
}

#[test]
fn book_call_by_call(rt: HostRuntime) -> Result<(), Fail> {
    let mut book = book_of_north(rt.alloc(), &[10, 10, 10], 12)?;
    check_round(&rt, &mut book)
}

// Sends three readings.
fn check_readings(rt: &impl Abort, book: &mut Book) -> Result<(), Fail> {
    check_send(rt, book, reading_frame(0, 122), &SendAnswer::Sent)?;
    check_send(rt, book, reading_frame(1, 226), &SendAnswer::Sent)?;
    check_send(rt, book, reading_frame(2, 312), &SendAnswer::Sent)
}

// The frame of a reading, under the tag of another group or of another round.
fn frame_of(group: u16, round: u32) -> Frame {
    Frame {
        tag: reading_tag(group, round, 0),
        ..reading_frame(0, 122)
    }
}

// Takes a frame of another group, one of another round, and an answer that was not sent.
fn check_outside(rt: &impl Abort, book: &mut Book) -> Result<(), Fail> {
    check_take(rt, book, &frame_of(1, 0), &Err(TakeError::Unknown))?;
    check_take(rt, book, &frame_of(0, 1), &Err(TakeError::Unknown))?;
    let answer = frame(Kind::Answer, 0, MeterSet::empty(), 100);
    check_take(rt, book, &answer, &Ok(Verdict::Void))
}

#[test]
fn frames_outside_plan(rt: HostRuntime) -> Result<(), Fail> {
    let mut book = book_of_north(rt.alloc(), &[10, 10, 10], 6)?;
    check_readings(&rt, &mut book)?;
    check_outside(&rt, &mut book)
}

// The set of meter 2 alone.
fn third() -> MeterSet {
    MeterSet::empty().with(2)
}

// Takes the readings of meters 0 and 1, closes the round, and takes the others then.
fn check_late(rt: &impl Abort, book: &mut Book) -> Result<(), Fail> {
    check_readings(rt, book)?;
    check_take(rt, book, &reading_frame(0, 122), &Ok(Verdict::Fresh))?;
    check_take(rt, book, &reading_frame(1, 226), &Ok(Verdict::Fresh))?;
    check_close(rt, book, &Closing::Announced(third()))?;
    check_take(rt, book, &reading_frame(2, 312), &Ok(Verdict::Late))?;
    check_take(rt, book, &reading_frame(0, 122), &Ok(Verdict::Again))
}

// A frame of a meter to the missing set, which is sent and taken.
fn check_reached(
    rt: &impl Abort,
    book: &mut Book,
    kind: Kind,
    meter: u8,
    word: u64,
) -> Result<(), Fail> {
    let sent = frame(kind, meter, third(), word);
    check_send(rt, book, sent, &SendAnswer::Sent)?;
    check_take(rt, book, &sent, &Ok(Verdict::Fresh))
}

// Announces the missing meter to the others, which answer.
fn check_answered(rt: &impl Abort, book: &mut Book) -> Result<(), Fail> {
    check_reached(rt, book, Kind::Announcement, 0, 0)?;
    check_reached(rt, book, Kind::Announcement, 1, 0)?;
    let missing = frame(Kind::Announcement, 2, third(), 0);
    check_send(rt, book, missing, &SendAnswer::NotAllowed)?;
    check_reached(rt, book, Kind::Answer, 0, 107)?;
    check_reached(rt, book, Kind::Answer, 1, 211)?;
    check_end(rt, book, &Ending::Total(30))?;
    check_end(rt, book, &Ending::Already)
}

#[test]
fn late_reading_left_out(rt: HostRuntime) -> Result<(), Fail> {
    let mut book = book_of_north(rt.alloc(), &[10, 20, 30], 21)?;
    check_late(&rt, &mut book)?;
    check_answered(&rt, &mut book)
}

fn are_same(lines: &Lines, others: &Lines) -> bool {
    if lines.len() != others.len() {
        return false;
    }
    for at in 0..lines.len() {
        if !is_same(&lines.at(at), &others.at(at)) {
            return false;
        }
    }
    true
}

// Sends and takes the frames of these words, by meter, each of which is posted, and fresh.
fn check_pass(rt: &impl Abort, book: &mut Book, kind: Kind, words: &[u64]) -> Result<(), Fail> {
    let mut meter = 0u8;
    for word in words {
        let sent = frame(kind, meter, MeterSet::empty(), *word);
        check_send(rt, book, sent, &SendAnswer::Sent)?;
        check_take(rt, book, &sent, &Ok(Verdict::Fresh))?;
        meter = meter.wrapping_add(1);
    }
    Ok(())
}

// Makes a round of three meters in a new book, which ends with the total 60.
fn make_round(rt: &impl Abort, book: &mut Book) -> Result<(), Fail> {
    check_pass(rt, book, Kind::Reading, &[122, 226, 312])?;
    check_close(rt, book, &Closing::Announced(MeterSet::empty()))?;
    check_pass(rt, book, Kind::Announcement, &[0, 0, 0])?;
    check_pass(rt, book, Kind::Answer, &[100, 200, 300])?;
    check_end(rt, book, &Ending::Total(60))
}

fn is_same_outcome(outcome: &Outcome, other: &Outcome) -> bool {
    *outcome == *other
}

fn has_same_outcome(book: &Book, other: &Book) -> Result<bool, Fail> {
    // A function that holds outcomes has to name all types in them.
    let _state: Option<OutcomeState> = None;
    Ok(is_same_outcome(&outcome(book)?, &outcome(other)?))
}

fn has_total(book: &Book, total: u64) -> Result<bool, Fail> {
    Ok(outcome(book)?.state == OutcomeState::Total(total))
}

// The copy has 20 lines, and the lines and the outcome of the book, which is the total 60.
fn check_copy(rt: &impl Abort, copy: &Book, book: &Book) -> Result<(), Fail> {
    check_same(rt, &copy.journal().len(), &20, "the lines");
    check(rt, are_same(copy.journal(), book.journal()), "each line");
    check(rt, has_same_outcome(copy, book)?, "the outcome");
    check(rt, has_total(copy, 60)?, "the total");
    Ok(())
}

// Copies a book, and compares the copy with it.
fn check_copied(rt: &impl Abort, book: &Book) -> Result<(), Fail> {
    let copy = book.try_copy()?;
    check_copy(rt, &copy, book)
}

#[test]
fn book_copied(rt: HostRuntime) -> Result<(), Fail> {
    let mut book = book_of_north(rt.alloc(), &[10, 10, 10], 20)?;
    make_round(&rt, &mut book)?;
    check_copied(&rt, &book)
}
