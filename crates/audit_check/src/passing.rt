//! The text of a transcript, read once: each line is judged as it is read, and not kept.

ghost use Rattle.std.specs.Prelude.{◌≡◌, ◌+◌, ◌∷◌, [], List, IfOk, OnOk};
ghost use Rattle.event_schedule.specs.declared.Entry.{Entry};
ghost use Rattle.transcript_text.specs.Reading.{before};
ghost use Rattle.transcript_text.specs.Ahead.{entries_of};
ghost use Rattle.audit_check.specs.Passes.{CanJudge, CanJudgeOn, IsPassOver, Judges, PassEnds, IsLineOf, ReplayedText};

use crate::auditing::Replayed;
use crate::replay::Replay;
use event_schedule::Entry;
use group_plan::Plan;
use std::alloc::{AllocError, Global};
use std::thread::Threads;
use transcript_text::{BYTES_A_PIECE, EntriesAhead, ReadError, Version, entry_line};

/// What is kept of entries while they are judged.
#[derive(Drop)]
pub(crate) struct Pass {
    pub(crate) replay: Replay,
    /// How many lines are replayed.
    count: u32,
    /// The place of the first entry whose line is not possible. Nothing is replayed from there on.
    pub(crate) impossible: Option<u32>,
}

// One more. Want of memory stands for more than 2^32 entries, which no text has.
fn one_more(count: u32) -> Result<u32, AllocError>
    ensures { IfOk result (λ more. more ≡ count + 1) }
{
    count.checked_add(1).ok_or(AllocError)
}

impl Pass {
    // A pass over no entry.
    pub(crate) fn new(alloc: Global, plan: &Plan) -> Result<Pass, AllocError>
        ensures { IfOk result (IsPassOver plan.now []) }
    {
        let replay = Replay::new(alloc, plan)?;
        Ok(Pass {
            replay,
            count: 0,
            impossible: None,
        })
    }

    // Judges the next entry.
    fn entry(&mut self, entry: &Entry) -> Result<(), AllocError>
        requires { CanJudge self.old (entry.now ∷ []) }
        ensures { OnOk result (Judges self.old (entry.now ∷ []) self.new) }
    {
        if self.impossible.is_some() {
            return Ok(());
        }
        if self.replay.line(&entry.line)? {
            self.count = one_more(self.count)?;
        } else {
            self.impossible = Some(self.count);
        }
        Ok(())
    }

    // Judges the next entries.
    fn entries(&mut self, entries: &[Entry]) -> Result<(), AllocError>
        requires { CanJudge self.old entries.now }
        ensures { OnOk result (Judges self.old entries.now self.new) }
    {
        for entry in entries {
            self.entry(entry)?;
        }
        Ok(())
    }

    // The pass over the next batch too.
    pub(crate) fn over(mut self, batch: &[Vec<Entry>]) -> Result<Pass, AllocError>
        requires { CanJudge self (entries_of batch.now) }
        ensures { IfOk result (Judges self (entries_of batch.now)) }
    {
        for entries in batch {
            self.entries(entries)?;
        }
        Ok(self)
    }
}

// The pass over the entries that are left to read too. While those of a batch are judged, the next are read.
pub(crate) fn judge_all<R: Threads + Sync>(
    reader: &mut EntriesAhead<R>,
    pass: Pass,
) -> Result<Pass, ReadError>
    requires { CanJudgeOn reader.old.plan pass }
    ensures ends { (judged : List Entry) → IsPassOver reader.old.plan judged pass → PassEnds reader.old.plan (before judged reader.old.left) result }
    ensures head { reader.new.plan ≡ reader.old.plan }
{
    let mut pass = pass;
    'batches: loop {
        let batch = match reader.next_batch() {
            Ok(Some(batch)) => batch,
            Ok(None) => return Ok(pass),
            Err(fault) => return Err(fault),
        };
        let work = move || -> Result<Pass, AllocError>
            requires { CanJudge pass (entries_of batch.items) }
            ensures { IfOk result (Judges pass (entries_of batch.items)) }
        { pass.over(&batch) };
        pass = reader.read_beside(work)?;
    }
}

// The number of the line of an entry, where there is one.
pub(crate) fn line_of(plan: &Plan, entry: Option<u32>) -> Option<u64>
    ensures { IsLineOf plan.now entry result }
{
    match entry {
        Some(at) => Some(entry_line(plan, u64::from(at))),
        None => None,
    }
}

/// Reads the text of a transcript of version 2, in pieces side by side, and judges its lines one after another. Memory grows
/// with the plan alone.
pub fn replay_text<R: Threads + Sync>(
    rt: &R,
    alloc: Global,
    bytes: &[u8],
) -> Result<Replayed, ReadError>
    ensures { ReplayedText bytes.now result }
{
    let mut reader = match EntriesAhead::new(rt, alloc, Version::Two, bytes, BYTES_A_PIECE) {
        Ok(reader) => reader,
        Err(fault) => return Err(fault),
    };
    let pass = Pass::new(alloc, reader.plan())?;
    let pass = match judge_all(&mut reader, pass) {
        Ok(pass) => pass,
        Err(fault) => return Err(fault),
    };
    let line = line_of(reader.plan(), pass.impossible);
    Ok(Replayed::new(pass.replay.rounds, line))
}
