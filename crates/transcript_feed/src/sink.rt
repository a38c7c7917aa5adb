//! What takes the entries of a transcript.

ghost use Rattle.std.specs.Prelude.{[], List, IfOk};
ghost use Rattle.group_plan.specs.Plans.{PlanView};
ghost use Rattle.event_schedule.specs.declared.Entry.{Entry};
ghost use Rattle.transcript_text.specs.Ahead.{entries_of};
ghost use Rattle.transcript_text.specs.Reading.{before};
ghost use Rattle.transcript_feed.specs.Sinks.{CanTakeEntries, HasFront, SinkEnds, TakesEntries};

use event_schedule::Entry;
use group_plan::Plan;
use std::alloc::{AllocError, Global};
use std::thread::Threads;
use transcript_text::{EntriesAhead, ReadError};

/// What takes the entries of a transcript, in their order.
pub trait EntrySink: Drop {
    /// It has taken these entries of a transcript of this plan.
    ghost has: { Self → PlanView → List Entry → Type 0 };

    /// None yet, of a transcript of this plan. An error where memory runs out.
    fn begin(alloc: Global, plan: &Plan) -> Result<Self, AllocError>
        ensures { IfOk result (λ sink. has sink plan.now []) };

    /// Takes some more, which fit the plan and whose ticks don't fall. An error where memory runs out.
    fn take(self, lists: &[Vec<Entry>]) -> Result<Self, AllocError>
        requires { CanTakeEntries has self (entries_of lists.now) }
        ensures { IfOk result (λ sink. TakesEntries has self (entries_of lists.now) sink) };
}

/// Hands the entries that are left to read to a sink. While it takes those of a batch, the next are read.
pub(crate) fn take_all<R: Threads + Sync, S: EntrySink>(
    reader: &mut EntriesAhead<R>,
    sink: S,
) -> Result<S, ReadError>
    requires { HasFront S.has sink reader.old.plan reader.old.last }
    ensures { (front : List Entry) → S.has sink reader.old.plan front → SinkEnds S.has reader.old.plan (before front reader.old.left) result }
{
    let mut sink = sink;
    'batches: loop {
        let batch = match reader.next_batch() {
            Ok(Some(batch)) => batch,
            Ok(None) => return Ok(sink),
            Err(fault) => return Err(fault),
        };
        let work = move || -> Result<S, AllocError>
            requires { CanTakeEntries S.has sink (entries_of batch.items) }
            ensures { IfOk result (TakesEntries S.has sink (entries_of batch.items)) }
        { sink.take(&batch) };
        sink = reader.read_beside(work)?;
    }
}
