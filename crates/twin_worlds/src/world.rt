//! A table of readings under masks, after the events of a book: the lines that it gives.

ghost use Rattle.std.specs.Prelude.{◌≡◌, true, IsTrue, Some, is_some};
ghost use Rattle.group_plan.specs.declared.Kind.TheVariants.{Answer};
ghost use Rattle.group_plan.specs.Plans.{is_place};
ghost use Rattle.group_plan.specs.Tables.{reading};
ghost use Rattle.event_schedule.specs.declared.Line.TheVariants.{Send};
ghost use Rattle.event_schedule.specs.Schedule.{survivors, is_announcement_taken};
ghost use Rattle.event_schedule.specs.Transcript.{word_sent, frame};
ghost use Rattle.group_book.specs.Books.{shape_of, past, knows, has_round, allows};
ghost use Rattle.plan_meters.specs.Hidden.{IsOfOnePlan};
ghost use Rattle.twin_worlds.specs.Worlds.{IsWorldOf, IsLineOf, contents_of, filled};

use crate::answer_words::AnswerWords;
use event_schedule::Line;
use group_book::Book;
use group_plan::{Kind, Tag};
use ideal_masks::sum_of_readings;
use mask_stream::Masks;
use meter_frames::Frame;
use mod_word::Word;
use plan_meters::Known;
use round_machine::Ending;

/// What the meters of a plan have, a book without words, and what the meters answer after its events.
#[derive(Drop)]
pub(crate) struct World<'a, M> {
    /// The readings and the masks of the meters.
    pub(crate) known: Known<'a, M>,
    /// The events, and whether each has effect.
    pub(crate) book: &'a Book,
    /// The words of the answers.
    pub(crate) answers: AnswerWords,
}

// The word that hides the meter's reading, 0 where it has none.
fn reading_word<M: Masks>(known: &Known<M>, group: u16, round: u32, meter: u8) -> Word
    requires known { IsOfOnePlan M.plan M.table known.now }
    requires place { IsTrue (is_place known.now.readings.now.plan group round meter) }
    ensures { is_some (reading known.now.readings.now.table group round meter) ≡ true → result ≡ (contents_of M.table known.now).reading group round meter }
{
    let words = known.hidden.row(group, round);
    words[meter as usize]
}

// The word that a meter answers which took its announcement.
fn answer_word<M: Masks>(world: &World<M>, group: u16, round: u32, meter: u8) -> Word
    requires world { IsWorldOf M.plan M.table world.now }
    requires place { IsTrue (is_place world.now.book.now.presence.plan group round meter) }
    requires taken { is_announcement_taken (shape_of world.now.book.now) group round meter (past world.now.book.now) ≡ true }
    ensures { result ≡ word_sent (shape_of world.now.book.now) (contents_of M.table world.now.known) Answer group round meter (past world.now.book.now) }
{
    let _plan = world.known.readings.plan();
    let words = world.answers.row(group, round);
    Word(words[meter as usize])
}

// The word that a Send of the tag carries.
fn word_of<M: Masks>(world: &World<M>, tag: Tag) -> Word
    requires world { IsWorldOf M.plan M.table world.now }
    requires known { IsTrue (knows world.now.book.now tag) }
    requires sent { allows world.now.book.now tag ≡ true }
    ensures { result ≡ word_sent (shape_of world.now.book.now) (contents_of M.table world.now.known) tag.kind tag.group tag.round tag.meter (past world.now.book.now) }
{
    match tag.kind {
        Kind::Reading => reading_word(&world.known, tag.group, tag.round, tag.meter),
        Kind::Announcement => Word(0),
        Kind::Answer => answer_word(world, tag.group, tag.round, tag.meter),
    }
}

// The frame with its word.
fn filled_frame<M: Masks>(world: &World<M>, tag: Tag, blank: &Frame) -> Frame
    requires world { IsWorldOf M.plan M.table world.now }
    requires line { IsLineOf world.now.book.now (Send tag (Some blank.now)) }
    ensures { frame (shape_of world.now.book.now) (contents_of M.table world.now.known) tag (past world.now.book.now) ≡ Some result }
{
    Frame {
        tag,
        missing: blank.missing,
        word: word_of(world, tag),
    }
}

// The sum of the survivors' readings.
fn total<M: Masks>(world: &World<M>, group: u16, round: u32) -> u64
    requires world { IsWorldOf M.plan M.table world.now }
    requires round { IsTrue (has_round world.now.book.now group round) }
    ensures { result ≡ (contents_of M.table world.now.known).total group round (survivors (shape_of world.now.book.now) group round (past world.now.book.now)) }
{
    let survivors = world.book.outcome(group, round).survivors;
    sum_of_readings(world.known.readings, group, round, survivors)
}

/// A line of the book with its word or its total.
pub(crate) fn filled<M: Masks>(world: &World<M>, line: &Line) -> Line
    requires world { IsWorldOf M.plan M.table world.now }
    requires line { IsLineOf world.now.book.now line.now }
    ensures { result ≡ filled (shape_of world.now.book.now) (contents_of M.table world.now.known) (past world.now.book.now) line.now }
{
    match *line {
        Line::Send {
            tag,
            frame: Some(frame),
        } => Line::Send {
            tag,
            frame: Some(filled_frame(world, tag, &frame)),
        },
        Line::End {
            group,
            round,
            ending: Ending::Total(_),
        } => Line::End {
            group,
            round,
            ending: Ending::Total(total(world, group, round)),
        },
        other => other,
    }
}
