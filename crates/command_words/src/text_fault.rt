//! What is wrong with the text of a transcript, a report or a journal.

use event_schedule::Entry;
use transcript_text::ReadError;

/// What is wrong with the text of a transcript, a report or a journal. Lines are counted from 1.
#[derive(Clone, Copy)]
pub enum TextFault {
    /// The transcript's text has this fault.
    Transcript(ReadError),
    /// The report's text is refused at this line.
    Report(u64),
    /// This line of the journal is the first that isn't that of the head.
    JournalHead(u64),
    /// This line of the journal behind its head, counted with the head's, is the first that has no form or can't have come.
    JournalLine(u64),
    /// This line of the transcript is the first that is not possible.
    Impossible(u64),
    /// The line of this entry is the first with which no run of the plan begins; or all entries begin one that goes on, and this
    /// is the line behind them.
    NotInTime(u64),
    /// The entry of this line of a cut transcript is the first with which the run of the files does not begin.
    NotThisRun(u64),
    /// The transcript is one of another plan.
    OtherPlan,
    /// This line of the transcript is the first that isn't the one of the readings under the keys; the expected one, with the
    /// tick and the fate that stand there.
    OtherLine { line: u64, expected: Entry },
}
