//! How a command ends, and its status.

ghost use Rattle.std.specs.Prelude.{◌≡◌};
ghost use Rattle.command_words.specs.Outcomes.{status_of};

use crate::disagreement::Disagreement;
use crate::text_fault::TextFault;
use crate::unread::Unread;
use crate::unwritten::Unwritten;
use link_lanes::RackError;
use plan_files::FileFault;
use totals_report::ReportRow;

/// How a command ends: one case for each status. A name is the word that named the file.
#[derive(Clone, Copy)]
pub enum Outcome<'a> {
    /// The command was done.
    Done,
    /// Memory ran out.
    NoMemory,
    /// The words are no command.
    BadWords,
    /// A file or the input can't be read, or a file is too long.
    Unread(Unread<'a>),
    /// A file or the output can't be written.
    Unwritten(Unwritten<'a>),
    /// The plan file has this fault.
    BadPlan(&'a str, FileFault),
    /// The readings file has this fault.
    BadReadings(&'a str, FileFault),
    /// The text of a transcript, a report or a journal has this fault.
    BadText(&'a str, TextFault),
    /// Two tables of readings don't agree.
    Disagree(Disagreement),
    /// This row of the report, counted from 1, is the first that is not the one that the frames give; both rows, or none
    /// where a side has ended.
    OtherRow {
        at: u32,
        from_frames: Option<ReportRow>,
        reported: Option<ReportRow>,
    },
    /// A lane row of the plan file gets no lane.
    BadLane(RackError),
    /// The reading of this meter in this round has no partner in the period; all are counted from 0.
    NoPartner {
        group: u16,
        round: u32,
        meter: u8,
    },
}

/// The status of a command that ends so.
pub fn status(outcome: &Outcome<'_>) -> u8
    ensures { result ≡ status_of outcome.now }
{
    match outcome {
        Outcome::Done => 0,
        Outcome::NoMemory => 1,
        Outcome::BadWords => 2,
        Outcome::Unread(_) => 3,
        Outcome::Unwritten(_) => 4,
        Outcome::BadPlan(_, _) => 5,
        Outcome::BadReadings(_, _) => 6,
        Outcome::BadText(_, _) => 7,
        Outcome::Disagree(_) => 8,
        Outcome::OtherRow { .. } => 9,
        Outcome::BadLane(_) => 10,
        Outcome::NoPartner { .. } => 11,
    }
}
