//! A gate before each commit of a worker, so that a test can choose who goes first; and how much is worth a thread.

/// What each worker calls before each of its commits, and how much work is worth a thread. It has no effect on any answer.
pub trait Gate: Sync {
    /// Called by a worker; workers are numbered from 1.
    fn at(&self, worker: u32);

    /// So many frames are enough for a thread beside the calling one, where a tick has two things to do with them that share
    /// nothing else. Four where a gate says nothing else, so that a test has both ways.
    fn beside(&self) -> usize {
        4
    }

    /// At most so many threads make the ticks of a run, on a machine with so many processors. No bound where a gate says nothing
    /// else, so that a test has each of its workers on any machine.
    fn most(&self, _processors: usize) -> usize {
        usize::MAX
    }

    /// So many entries of a transcript are enough for a part whose text is made while the run goes on; 0 counts as one. Eight where a
    /// gate says nothing else, so that a test has several parts.
    fn part(&self) -> usize {
        8
    }
}

/// A gate that lets each worker through. It has a thread beside for 1,024 frames, and a part for 4,096 entries, whose text takes
/// about a millisecond. Two processors are left to the text of the transcript and to writing it: a tick ends with its last group, so one
/// thread that has to wait for a processor holds up all.
pub struct Free;

impl Gate for Free {
    fn at(&self, _worker: u32) {}

    fn beside(&self) -> usize {
        1024
    }

    fn most(&self, processors: usize) -> usize {
        processors.saturating_sub(2)
    }

    fn part(&self) -> usize {
        4096
    }
}
