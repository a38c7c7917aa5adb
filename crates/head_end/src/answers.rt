//! The lines of a head end's journal, and what it says to a frame.

use meter_frames::Frame;
use missing_round::MeterSet;
use totals_report::ReportRow;

/// A line of a head end's journal.
#[derive(Clone, Copy, Debug, PartialEq, Eq)]
pub enum Logged {
    /// This frame was taken fresh.
    Took(Frame),
    /// A tick has passed.
    Passed,
}

/// Why a frame is refused; the first that applies.
#[derive(Clone, Copy, Debug, PartialEq, Eq)]
pub enum Refusal {
    /// It is an announcement, and a head end takes none.
    Announcement,
    /// The plan has no such place, or the meter is no member of the round.
    Plan,
    /// It answers another set than the one that was announced.
    Set,
}

/// What a head end says to a frame.
#[derive(Clone, Copy, Debug, PartialEq, Eq)]
pub enum Reply {
    /// The first of its place and kind, and in time: it is taken.
    Fresh,
    /// A frame of its place and kind was taken before, with the same word.
    Again,
    /// A frame of its place and kind was taken before, with another word.
    Differs,
    /// A reading after its round's close, or an answer after its round's end.
    Late,
    /// An answer that isn't asked for: its round isn't announced, or its meter is no survivor.
    Void,
    /// It is refused.
    Refused(Refusal),
}

/// A line that a head end says for a tick, or when it is asked again.
#[derive(Clone, Copy, PartialEq, Eq)]
pub enum TickLine {
    /// An announced round has ended, and the answers of these survivors were not taken.
    Lacking {
        group: u16,
        round: u32,
        lacking: MeterSet,
    },
    /// A round has ended, with this row of the report.
    Row(ReportRow),
    /// A round has closed, with so many survivors and this missing set.
    Closed {
        group: u16,
        round: u32,
        survivors: u16,
        missing: MeterSet,
        announced: bool,
    },
    /// The announcement to a survivor.
    Announce(Frame),
}
