//! What holds of all that a role says. Each law is a contract with an empty body.

ghost use Rattle.apart_roles.specs.Backed.{ReadingsAreMarked, RunsSayFlushed, SetsAreKept};
ghost use Rattle.apart_roles.specs.HeadEndBacked.{AnnouncementsAreOnDisk, RunsWriteLines};
ghost use Rattle.apart_roles.specs.Written.{HeadEndRunsAreWritten, HeadEndStartsAreWritten, MeterRunsAreWritten, MeterStartsAreWritten};

/// Nothing is said while the journal has what is not on the disk, and a frame that a meter says is backed by a line of the journal.
pub fn said_is_backed()
    ensures flushed { RunsSayFlushed }
    ensures readings { ReadingsAreMarked }
    ensures sets { SetsAreKept }
{}

/// What a head end appends and flushes are the lines of its journal, and each announcement that it says is one of a tick that has passed
/// by the lines that are on the disk.
pub fn announced_is_backed()
    ensures written { RunsWriteLines }
    ensures announced { AnnouncementsAreOnDisk }
{}

/// Whatever stood in a journal: once a role has started, and behind each run, it has its head and the lines that give the role its state, and
/// nothing else.
pub fn journals_are_whole()
    ensures head_end_starts { HeadEndStartsAreWritten }
    ensures meter_starts { MeterStartsAreWritten }
    ensures head_end_runs { HeadEndRunsAreWritten }
    ensures meter_runs { MeterRunsAreWritten }
{}
