//! The lines of a transcript, compared with those that a table of readings gives.

ghost use Rattle.std.specs.Prelude.{◌≡◌, ◌^◌, ◌<◌, Some, slice_get, IfSome};
ghost use Rattle.event_schedule.specs.Events.{lines_of, events_of};
ghost use Rattle.ideal_masks.specs.Replaying.{HasEvents, HasBlankFrames};
ghost use Rattle.twin_worlds.specs.Comparing.{Decides, IsOther, DifferAt, CanCompare};
ghost use Rattle.twin_worlds.specs.Worlds.{Tells};
ghost use Rattle.twin_worlds.specs.Twins.{lines_under};
ghost use Rattle.twin_worlds.specs.Ends.{LinesEnd, BookEnds};

use crate::TwinError;
use crate::answer_words::AnswerWords;
use crate::world::{World, filled};
use event_schedule::Line;
use group_book::Book;
use group_plan::Readings;
use ideal_masks::replay_events;
use mask_stream::Masks;
use plan_meters::{HiddenReadings, Known};
use rayon::prelude::*;
use std::alloc::Global;
use std::thread::Threads;
use transcript_log::Transcript;
use transcript_text::entry_line;

/// How many lines are worth a thread.
const LINES_A_THREAD: usize = 4096;

fn is_same(one: &Line, other: &Line) -> bool
    ensures { Decides (one.now ≡ other.now) result }
{
    one == other
}

// The line that the world gives for the entry at a place.
fn line_at<M: Masks>(world: &World<M>, transcript: &Transcript, at: usize) -> Line
    requires { CanCompare M.plan M.table world.now transcript.now at }
    ensures { slice_get (lines_under world.now.known.readings.now (M.table world.now.known.masks.now) transcript.now) at ≡ Some result }
{
    filled(world, &world.book.journal().at(at))
}

// Whether the entry at a place has another line than the world gives for it.
fn is_other<M: Masks>(world: &World<M>, transcript: &Transcript, at: usize) -> bool
    requires { CanCompare M.plan M.table world.now transcript.now at }
    ensures { IsOther (lines_of transcript.now.entries) (lines_under world.now.known.readings.now (M.table world.now.known.masks.now) transcript.now) at result }
{
    !is_same(&transcript.entry(at).line, &line_at(world, transcript, at))
}

// The first entry whose line is another than the world gives for it, where there is one. It looks for it side by side.
fn first_other<R: Threads + Sync, M: Masks + Sync>(
    rt: &R,
    world: &World<M>,
    transcript: &Transcript,
) -> Option<usize>
    requires { Tells M.plan M.table world.now transcript.now }
    ensures place { DifferAt (lines_of transcript.now.entries) (lines_under world.now.known.readings.now (M.table world.now.known.masks.now) transcript.now) result }
    ensures few { IfSome result (λ at. at < 2 ^ 63) }
{
    (0..transcript.len())
        .into_par_iter()
        .with_min_len(LINES_A_THREAD)
        .position_first(
            rt,
            |at: usize| -> bool
                requires { CanCompare M.plan M.table world.now transcript.now at }
                ensures { IsOther (lines_of transcript.entry.now.entries) (lines_under world.entry.now.known.readings.now (M.table world.entry.now.known.masks.now) transcript.entry.now) at result }
            { is_other(world, transcript, at) },
        )
}

// Whether the lines of a transcript are those that the world gives for its events, or else the first that isn't.
fn confirm<R: Threads + Sync, M: Masks + Sync>(
    rt: &R,
    world: &World<M>,
    transcript: &Transcript,
) -> Result<(), TwinError>
    requires { Tells M.plan M.table world.now transcript.now }
    ensures { LinesEnd (M.table world.now.known.masks.now) world.now.known.readings.now transcript.now result }
{
    match first_other(rt, world, transcript) {
        None => Ok(()),
        Some(at) => {
            let entry = transcript.entry(at);
            Err(TwinError::NotThis {
                line: entry_line(transcript.plan(), at as u64),
                expected: line_at(world, transcript, at),
                found: entry.line,
                tick: entry.tick,
                fate: entry.fate,
            })
        }
    }
}

// Whether the lines of a transcript are those that the first table gives under these masks for its events, which this book has without
// words; or else the first that isn't.
fn confirm_under<R: Threads + Sync, M: Masks + Sync>(
    rt: &R,
    alloc: Global,
    masks: &M,
    first: &Readings,
    book: &Book,
    transcript: &Transcript,
) -> Result<(), TwinError>
    requires masks { M.plan masks.now ≡ first.now.plan }
    requires transcript { transcript.now.plan ≡ first.now.plan }
    requires events { HasEvents first.now (events_of transcript.now.entries) book.now }
    requires frames { HasBlankFrames book.now }
    ensures { LinesEnd (M.table masks.now) first.now transcript.now result }
{
    let _entries = transcript.len();
    let _lines = book.journal();
    let world = World {
        known: Known {
            readings: first,
            masks,
            hidden: HiddenReadings::new(rt, alloc, first, masks)?,
        },
        book,
        answers: AnswerWords::new(rt, alloc, masks, book)?,
    };
    confirm(rt, &world, transcript)
}

/// A book of the events of a transcript, where its lines are those that the first table gives under these masks; or else the first that
/// isn't.
pub(crate) fn book_of<R: Threads + Sync, M: Masks + Sync>(
    rt: &R,
    alloc: Global,
    masks: &M,
    first: &Readings,
    transcript: &Transcript,
) -> Result<Book, TwinError>
    requires masks { M.plan masks.now ≡ first.now.plan }
    requires transcript { transcript.now.plan ≡ first.now.plan }
    ensures { BookEnds (M.table masks.now) first.now transcript.now result }
{
    let book = replay_events(alloc, first, transcript)?;
    confirm_under(rt, alloc, masks, first, &book, transcript)?;
    Ok(book)
}
