//! Lines said again by what is kept of each round.

ghost use Rattle.std.specs.Prelude.{◌≡◌, ◌<◌, [], Some, None, IsTrue};
ghost use Rattle.meter_frames.specs.Frames.{FitsKind};
ghost use Rattle.group_book.specs.Books.{has_round, knows};
ghost use Rattle.event_schedule.specs.declared.Line.TheVariants.{Send as SendLine, Take as TakeLine, Close as CloseLine, End as EndLine};
ghost use Rattle.audit_check.specs.Replays.{Says, FitsBook, IsPostedOrEmpty};
ghost use Rattle.audit_check.specs.Deciding.{Decides};

use audit_rounds::Rounds;
use event_schedule::Line;
use group_book::SendAnswer;
use group_plan::Tag;
use meter_frames::Frame;
use missing_round::MeterSet;
use mod_word::Word;
use round_machine::{Closing, Ending, Verdict};

// A frame of the tag, where none is known.
fn empty_frame(tag: Tag) -> Frame
    ensures { result ≡ record { tag = tag; missing = []; word = 0 } }
{
    Frame {
        tag,
        missing: MeterSet::empty(),
        word: Word(0),
    }
}

// A Send with a frame.
fn say_send(rounds: &mut Rounds, frame: Frame) -> bool
    requires spare { 0 < rounds.old.spare }
    requires known { IsTrue (knows rounds.old frame.tag) }
    requires fits { FitsKind frame.tag.kind frame.missing frame.word }
    ensures { Says rounds.old (SendLine frame.tag (Some frame)) result rounds.new }
{
    let _room = rounds.spare();
    match rounds.send(frame) {
        SendAnswer::Sent => true,
        SendAnswer::Unknown => false,
        SendAnswer::NotAllowed => false,
        SendAnswer::WrongSet { .. } => false,
        SendAnswer::Differs { .. } => false,
    }
}

// A Send without a frame, which is void.
fn say_void(rounds: &mut Rounds, tag: Tag) -> bool
    requires spare { 0 < rounds.old.spare }
    requires known { IsTrue (knows rounds.old tag) }
    ensures { Says rounds.old (SendLine tag None) result rounds.new }
{
    match rounds.send(empty_frame(tag)) {
        SendAnswer::NotAllowed => true,
        SendAnswer::Unknown => false,
        SendAnswer::WrongSet { .. } => false,
        SendAnswer::Differs { .. } => false,
        SendAnswer::Sent => false,
    }
}

// The frame that is posted under a tag, or one of no words where there is none.
fn posted_or_empty(rounds: &Rounds, tag: Tag) -> Frame
    ensures { IsPostedOrEmpty rounds.now tag result }
{
    let _room = rounds.spare();
    match rounds.posted(tag) {
        Some(frame) => frame,
        None => empty_frame(tag),
    }
}

// A Take.
fn say_take(rounds: &mut Rounds, tag: Tag, verdict: Verdict) -> bool
    requires spare { 0 < rounds.old.spare }
    requires known { IsTrue (knows rounds.old tag) }
    ensures { Says rounds.old (TakeLine tag verdict) result rounds.new }
{
    let frame = posted_or_empty(rounds, tag);
    match rounds.take(&frame) {
        Ok(said) => said == verdict,
        Err(_) => false,
    }
}

// A Close.
fn say_close(rounds: &mut Rounds, group: u16, round: u32, closing: Closing) -> bool
    requires spare { 0 < rounds.old.spare }
    requires known { IsTrue (has_round rounds.old group round) }
    ensures { Says rounds.old (CloseLine group round closing) result rounds.new }
{
    rounds.close(group, round) == closing
}

fn is_same(one: Ending, other: Ending) -> bool
    ensures { Decides (one ≡ other) result }
{
    one == other
}

// An End.
fn say_end(rounds: &mut Rounds, group: u16, round: u32, ending: Ending) -> bool
    requires spare { 0 < rounds.old.spare }
    requires known { IsTrue (has_round rounds.old group round) }
    ensures { Says rounds.old (EndLine group round ending) result rounds.new }
{
    is_same(rounds.end(group, round), ending)
}

/// Says the line for the event of a line; whether it is that line.
pub(crate) fn say(rounds: &mut Rounds, line: &Line) -> bool
    requires spare { 0 < rounds.old.spare }
    requires fits { FitsBook rounds.old line.now }
    ensures { Says rounds.old line.now result rounds.new }
{
    match *line {
        Line::Send {
            frame: Some(frame),
            ..
        } => say_send(rounds, frame),
        Line::Send { tag, frame: None } => say_void(rounds, tag),
        Line::Take { tag, verdict } => say_take(rounds, tag, verdict),
        Line::Close {
            group,
            round,
            closing,
        } => say_close(rounds, group, round, closing),
        Line::End {
            group,
            round,
            ending,
        } => say_end(rounds, group, round, ending),
    }
}
