//! Lines in a small form, of at most 12 bytes. Those with a set of meters or a word name it by its place in a list.

ghost use Rattle.std.specs.Prelude.{◌≡◌, ◌<◌, List, [], ℕ, Some, length};
ghost use Rattle.round_machine.specs.declared.Closing.TheVariants as closing;
ghost use Rattle.event_schedule.specs.declared.Line.TheVariants.{Send, Close, End};
ghost use Rattle.transcript_log.specs.declared.extras.Extra.{Extra};
ghost use Rattle.transcript_log.specs.Extras.{extra_at};
ghost use Rattle.transcript_log.specs.Kinds.{is_sending, is_taking};
ghost use Rattle.transcript_log.specs.Lines.{HasOwnTag};
ghost use Rattle.transcript_log.specs.SmallLines.{sent, line_in, named_in, IsPlaced, extra_of_closing, extra_of_ending, extra_of, StandsAt, IsKept};

use crate::extras::{Extra, Extras};
use event_schedule::Line;
use group_plan::{Kind, Tag};
use meter_frames::Frame;
use missing_round::MeterSet;
use mod_word::Word;
use round_machine::{Closing, Ending, Verdict};
use std::mem::size_of;

/// A line. Where it has a set of meters or a word, `at` is their place in a list of extras. A line that was sent has the
/// frame's kind in its variant: a field more would not fit.
#[derive(Clone, Copy)]
pub(crate) enum SmallLine {
    SentReading {
        meter: u8,
        group: u16,
        round: u32,
        at: u32,
    },
    SentAnnouncement {
        meter: u8,
        group: u16,
        round: u32,
        at: u32,
    },
    SentAnswer {
        meter: u8,
        group: u16,
        round: u32,
        at: u32,
    },
    NotSent {
        tag: Tag,
    },
    Took {
        verdict: Verdict,
        tag: Tag,
    },
    Announced {
        group: u16,
        round: u32,
        at: u32,
    },
    ClosedThin {
        group: u16,
        round: u32,
        at: u32,
    },
    ClosedAlready {
        group: u16,
        round: u32,
    },
    Total {
        group: u16,
        round: u32,
        at: u32,
    },
    Lacking {
        group: u16,
        round: u32,
        at: u32,
    },
    EndedThin {
        group: u16,
        round: u32,
    },
    EndedAlready {
        group: u16,
        round: u32,
    },
    NotClosed {
        group: u16,
        round: u32,
    },
}

// A run keeps every line, so its size counts.
const _: () = prove!(size_of::<SmallLine>() <= 12);

fn tag_of(meter: u8, kind: Kind, group: u16, round: u32) -> Tag
    ensures { result ≡ record { group = group; round = round; meter = meter; kind = kind } }
{
    Tag {
        group,
        round,
        meter,
        kind,
    }
}

fn sent_in(extras: &Extras, tag: Tag, at: u32) -> Line
    requires { at < length extras.now.items }
    ensures { result ≡ sent tag (extra_at extras.now.items at) }
{
    let extra = extras.at(at);
    let frame = Frame {
        tag,
        missing: extra.set,
        word: extra.word,
    };
    Line::Send {
        tag,
        frame: Some(frame),
    }
}

/// The line that a small one stands for.
pub(crate) fn line_in(extras: &Extras, line: &SmallLine) -> Line
    requires { IsPlaced (length extras.now.items) line.now }
    ensures { result ≡ line_in extras.now.items line.now }
{
    match *line {
        SmallLine::SentReading {
            meter,
            group,
            round,
            at,
        } => sent_in(extras, tag_of(meter, Kind::Reading, group, round), at),
        SmallLine::SentAnnouncement {
            meter,
            group,
            round,
            at,
        } => sent_in(extras, tag_of(meter, Kind::Announcement, group, round), at),
        SmallLine::SentAnswer {
            meter,
            group,
            round,
            at,
        } => sent_in(extras, tag_of(meter, Kind::Answer, group, round), at),
        SmallLine::NotSent { tag } => Line::Send { tag, frame: None },
        SmallLine::Took { verdict, tag } => Line::Take { tag, verdict },
        SmallLine::Announced { group, round, at } => Line::Close {
            group,
            round,
            closing: Closing::Announced(extras.at(at).set),
        },
        SmallLine::ClosedThin { group, round, at } => Line::Close {
            group,
            round,
            closing: Closing::Thin(extras.at(at).set),
        },
        SmallLine::ClosedAlready { group, round } => Line::Close {
            group,
            round,
            closing: Closing::Already,
        },
        SmallLine::Total { group, round, at } => Line::End {
            group,
            round,
            ending: Ending::Total(extras.at(at).word.value()),
        },
        SmallLine::Lacking { group, round, at } => Line::End {
            group,
            round,
            ending: Ending::Lacking(extras.at(at).set),
        },
        SmallLine::EndedThin { group, round } => Line::End {
            group,
            round,
            ending: Ending::Thin,
        },
        SmallLine::EndedAlready { group, round } => Line::End {
            group,
            round,
            ending: Ending::Already,
        },
        SmallLine::NotClosed { group, round } => Line::End {
            group,
            round,
            ending: Ending::NotClosed,
        },
    }
}

/// Whether a small line stands for a Send with a frame.
pub(crate) fn is_sending(line: &SmallLine) -> bool
    ensures { (extras : List Extra) → result ≡ is_sending (line_in extras line.now) }
{
    matches!(
        line,
        SmallLine::SentReading { .. }
            | SmallLine::SentAnnouncement { .. }
            | SmallLine::SentAnswer { .. }
    )
}

/// Whether a small line stands for a Take.
pub(crate) fn is_taking(line: &SmallLine) -> bool
    ensures { (extras : List Extra) → result ≡ is_taking (line_in extras line.now) }
{
    matches!(line, SmallLine::Took { .. })
}

fn set_alone(set: MeterSet) -> Extra
    ensures { result ≡ record { set = set; word = 0 } }
{
    Extra { set, word: Word(0) }
}

fn word_alone(word: u64) -> Extra
    ensures { result ≡ record { set = []; word = word } }
{
    Extra {
        set: MeterSet::empty(),
        word: Word(word),
    }
}

fn extra_of_closing(closing: Closing) -> Option<Extra>
    ensures { result ≡ extra_of_closing closing }
{
    match closing {
        Closing::Announced(set) | Closing::Thin(set) => Some(set_alone(set)),
        Closing::Already => None,
    }
}

fn extra_of_ending(ending: Ending) -> Option<Extra>
    ensures { result ≡ extra_of_ending ending }
{
    match ending {
        Ending::Total(total) => Some(word_alone(total)),
        Ending::Lacking(set) => Some(set_alone(set)),
        Ending::Thin | Ending::Already | Ending::NotClosed => None,
    }
}

/// The set of meters and the word of a line, where it has one of them.
pub(crate) fn extra_of(line: &Line) -> Option<Extra>
    ensures { result ≡ extra_of line.now }
{
    match *line {
        Line::Send { frame: None, .. } => None,
        Line::Send {
            frame: Some(frame),
            ..
        } => Some(Extra {
            set: frame.missing,
            word: frame.word,
        }),
        Line::Take { .. } => None,
        Line::Close { closing, .. } => extra_of_closing(closing),
        Line::End { ending, .. } => extra_of_ending(ending),
    }
}

fn small_sent(tag: Tag, at: u32) -> SmallLine
    ensures { (extras : List Extra) (extra : Extra) → StandsAt extras at (Some extra) → IsKept extras (sent tag extra) result }
{
    let Tag {
        group,
        round,
        meter,
        kind,
    } = tag;
    match kind {
        Kind::Reading => SmallLine::SentReading {
            meter,
            group,
            round,
            at,
        },
        Kind::Announcement => SmallLine::SentAnnouncement {
            meter,
            group,
            round,
            at,
        },
        Kind::Answer => SmallLine::SentAnswer {
            meter,
            group,
            round,
            at,
        },
    }
}

fn small_send(tag: Tag, frame: Option<Frame>, at: u32) -> SmallLine
    requires { HasOwnTag (Send tag frame) }
    ensures { (extras : List Extra) → StandsAt extras at (extra_of (Send tag frame)) → IsKept extras (Send tag frame) result }
{
    match frame {
        None => SmallLine::NotSent { tag },
        Some(_) => small_sent(tag, at),
    }
}

fn small_closing(group: u16, round: u32, closing: Closing, at: u32) -> SmallLine
    ensures { (extras : List Extra) → StandsAt extras at (extra_of_closing closing) → IsKept extras (Close group round closing) result }
{
    match closing {
        Closing::Announced(_) => SmallLine::Announced { group, round, at },
        Closing::Thin(_) => SmallLine::ClosedThin { group, round, at },
        Closing::Already => SmallLine::ClosedAlready { group, round },
    }
}

fn small_ending(group: u16, round: u32, ending: Ending, at: u32) -> SmallLine
    ensures { (extras : List Extra) → StandsAt extras at (extra_of_ending ending) → IsKept extras (End group round ending) result }
{
    match ending {
        Ending::Total(_) => SmallLine::Total { group, round, at },
        Ending::Lacking(_) => SmallLine::Lacking { group, round, at },
        Ending::Thin => SmallLine::EndedThin { group, round },
        Ending::Already => SmallLine::EndedAlready { group, round },
        Ending::NotClosed => SmallLine::NotClosed { group, round },
    }
}

/// The small form of a line whose extra, where it has one, stands at this place.
pub(crate) fn small_line(line: &Line, at: u32) -> SmallLine
    requires { HasOwnTag line.now }
    ensures { (extras : List Extra) → StandsAt extras at (extra_of line.now) → IsKept extras line.now result }
{
    match *line {
        Line::Send { tag, frame } => small_send(tag, frame, at),
        Line::Take { tag, verdict } => SmallLine::Took { verdict, tag },
        Line::Close {
            group,
            round,
            closing,
        } => small_closing(group, round, closing, at),
        Line::End {
            group,
            round,
            ending,
        } => small_ending(group, round, ending, at),
    }
}

/// The set of meters and the word that a small line names, where it names them.
pub(crate) fn named_in(extras: &Extras, line: &SmallLine) -> Option<Extra>
    requires { IsPlaced (length extras.now.items) line.now }
    ensures { result ≡ named_in extras.now.items line.now }
{
    match *line {
        SmallLine::SentReading { at, .. }
        | SmallLine::SentAnnouncement { at, .. }
        | SmallLine::SentAnswer { at, .. }
        | SmallLine::Announced { at, .. }
        | SmallLine::ClosedThin { at, .. }
        | SmallLine::Total { at, .. }
        | SmallLine::Lacking { at, .. } => Some(extras.at(at)),
        SmallLine::NotSent { .. }
        | SmallLine::Took { .. }
        | SmallLine::ClosedAlready { .. }
        | SmallLine::EndedThin { .. }
        | SmallLine::EndedAlready { .. }
        | SmallLine::NotClosed { .. } => None,
    }
}

/// The same line for another list of extras, where its extra, if it has one, stands at this place.
pub(crate) fn moved(line: &SmallLine, at: u32) -> SmallLine
    ensures { (extras others : List Extra) → StandsAt others at (named_in extras line.now) → IsKept others (line_in extras line.now) result }
{
    match *line {
        SmallLine::SentReading {
            meter,
            group,
            round,
            ..
        } => SmallLine::SentReading {
            meter,
            group,
            round,
            at,
        },
        SmallLine::SentAnnouncement {
            meter,
            group,
            round,
            ..
        } => SmallLine::SentAnnouncement {
            meter,
            group,
            round,
            at,
        },
        SmallLine::SentAnswer {
            meter,
            group,
            round,
            ..
        } => SmallLine::SentAnswer {
            meter,
            group,
            round,
            at,
        },
        SmallLine::Announced { group, round, .. } => SmallLine::Announced { group, round, at },
        SmallLine::ClosedThin { group, round, .. } => SmallLine::ClosedThin { group, round, at },
        SmallLine::Total { group, round, .. } => SmallLine::Total { group, round, at },
        SmallLine::Lacking { group, round, .. } => SmallLine::Lacking { group, round, at },
        SmallLine::NotSent { .. }
        | SmallLine::Took { .. }
        | SmallLine::ClosedAlready { .. }
        | SmallLine::EndedThin { .. }
        | SmallLine::EndedAlready { .. }
        | SmallLine::NotClosed { .. } => *line,
    }
}
