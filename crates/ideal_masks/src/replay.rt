//! The events of a transcript, made again on a book.
ghost use Rattle.std.specs.Prelude.{◌≡◌, ◌<◌, true, Some, IsTrue, IfOk};
ghost use Rattle.meter_frames.specs.Frames.{FitsKind};
ghost use Rattle.event_schedule.specs.Events.{events_of};
ghost use Rattle.event_schedule.specs.Transcript.{frame};
ghost use Rattle.group_book.specs.Books.{shape_of, past, knows, has_round, allows};
ghost use Rattle.event_schedule.specs.Schedule.{is_announced, missing};
ghost use Rattle.ideal_masks.specs.Replaying.{no_contents, IsOfBook, IsBlank, MakesEvent, HasEvents, HasBlankFrames};

use event_schedule::Event;
use group_book::Book;
use group_plan::{Kind, Presence, Readings, Tag};
use meter_frames::Frame;
use missing_round::MeterSet;
use mod_word::Word;
use std::alloc::{AllocError, Global};
use transcript_log::Transcript;

// The announced set of a round, and the empty one where it isn't announced.
fn announced_set(book: &Book, group: u16, round: u32) -> MeterSet
    requires { IsTrue (has_round book.now group round) }
    ensures { is_announced (shape_of book.now) group round (past book.now) ≡ true → result ≡ missing (shape_of book.now) group round (past book.now) }
{
    match book.announced(group, round) {
        Some(set) => set,
        None => MeterSet::empty(),
    }
}

// The frame of a tag now, with the word 0.
fn blank_frame(book: &Book, tag: Tag) -> Frame
    requires { IsTrue (knows book.now tag) }
    ensures tag { result.tag ≡ tag }
    ensures fits { FitsKind result.tag.kind result.missing result.word }
    ensures frame { allows book.now tag ≡ true → frame (shape_of book.now) no_contents tag (past book.now) ≡ Some result }
{
    let missing = match tag.kind {
        Kind::Reading => MeterSet::empty(),
        Kind::Announcement | Kind::Answer => announced_set(book, tag.group, tag.round),
    };
    Frame {
        tag,
        missing,
        word: Word(0),
    }
}

// Makes an event of the book.
fn make_event(book: &mut Book, event: &Event)
    requires spare { 0 < book.old.spare }
    requires event { IsOfBook book.old event.now }
    requires blank { IsBlank book.old }
    ensures { MakesEvent book.old event.now book.new }
{
    match *event {
        Event::Send(tag) => {
            let frame = blank_frame(book, tag);
            let _sent = book.send(frame);
        }
        Event::Take(tag) => {
            let frame = blank_frame(book, tag);
            let _verdict = book.take(&frame);
        }
        Event::Close { group, round } => {
            let _closing = book.close(group, round);
        }
        Event::End { group, round } => {
            let _ending = book.end(group, round);
        }
    }
}

/// A book of the readings' presence after the events of a transcript, with the word 0 in each frame. No word of the transcript is read.
pub fn replay_events(
    alloc: Global,
    readings: &Readings,
    transcript: &Transcript,
) -> Result<Book, AllocError>
    requires { transcript.now.plan ≡ readings.now.plan }
    ensures events { IfOk result (HasEvents readings.now (events_of transcript.now.entries)) }
    ensures frames { IfOk result HasBlankFrames }
{
    let presence = Presence::of(alloc, readings)?;
    let mut book = Book::new(alloc, readings.plan(), &presence)?;
    let len = transcript.len();
    book.reserve(len as u64)?;
    for at in 0..len {
        let entry = transcript.entry(at);
        make_event(&mut book, &entry.line.event());
    }
    Ok(book)
}
