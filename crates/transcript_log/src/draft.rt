//! Transcripts in the making: their lines stand in a journal.

ghost use Rattle.std.specs.Prelude.{◌≡◌, ◌≤◌, ◌-◌, [], ◌∷◌, ◌++◌, IfOk, OnOk, OnErr, All, length, map, drop, replicate};
ghost use Rattle.transcript_log.specs.Drafts.{Begins, quiet};
ghost use Rattle.event_schedule.specs.Events.{lines_of};
ghost use Rattle.event_schedule.specs.Transcripts.{Fits, FitsLine, Pushes, last_tick_from, no_entries};

use crate::stretches::Stretches;
use crate::transcript::{Stamp, entry_is, fate_is, tick_is};
use crate::{Lines, Transcript};
use event_schedule::Entry;
use group_plan::Plan;
use link_lanes::Fate;
use std::alloc::{AllocError, Global};
use std::marker::Model;
use std::snapshot::Snapshot;

/// A run has about so many entries for each Send, and each Send may have a stretch of its own.
const ENTRIES_A_SEND: usize = 2;

/// A transcript in the making. It keeps when its lines were written and the fates of their frames; the lines stand in a
/// journal, which it is shown.
#[derive(Drop)]
pub struct Draft {
    plan: Plan,
    stamps: Stretches,
    lines: Snapshot<Lines>,
}

impl Model for Draft {
    ghost use Rattle.event_schedule.specs.Transcripts.{TranscriptView};

    ghost Value = { TranscriptView };

    ghost use Rattle.transcript_log.specs.Stamps.{entries_of};
    ghost use Rattle.transcript_log.specs.Drafts.{IsDrafted};

    ghost view = { λ d. record { plan = d.plan; entries = entries_of d.stamps d.lines.value.items } };

    ghost invariant = { λ d. IsDrafted d.plan d.stamps d.lines.value.items };
}

/// Adds a stamp until there are so many. `AllocError` also where 2^32 or more are added, since a stretch counts fewer.
fn add_stamps(stamps: &mut Stretches, count: usize, stamp: Stamp) -> Result<(), AllocError>
    requires { length stamps.old ≤ count }
    ensures ok { OnOk result (stamps.new ≡ stamps.old ++ replicate (count - length stamps.old) stamp) }
    ensures err { OnErr result (stamps.new ≡ stamps.old) }
{
    match u32::try_from(count - stamps.len()) {
        Ok(0) => Ok(()),
        Ok(more) => stamps.push(stamp, more),
        Err(_) => Err(AllocError),
    }
}

impl Draft {
    /// The draft of a plan before its first entry, with room for about so many entries.
    pub fn with_room(alloc: Global, plan: &Plan, entries: usize) -> Result<Draft, AllocError>
        ensures { IfOk result (λ draft. draft ≡ no_entries plan.now) }
    {
        let _groups = plan.groups();
        Ok(Draft {
            plan: plan.try_copy()?,
            stamps: Stretches::with_room(alloc, entries / ENTRIES_A_SEND)?,
            lines: Snapshot::of(&Lines::new(alloc)),
        })
    }

    /// Adds an entry at the end. Its line is the next one of the journal, which has those of all entries before it.
    pub fn push(&mut self, entry: Entry, journal: &Lines) -> Result<(), AllocError>
        requires tick { last_tick_from 0 self.old.entries ≤ entry.tick }
        requires fits { Fits self.old.plan entry }
        requires next { Begins journal.now.items (lines_of self.old.entries ++ entry.line ∷ []) }
        ensures { Pushes self.old entry result self.new }
    {
        entry_is(&entry);
        let _lines = journal.len();
        let stamp = Stamp {
            tick: entry.tick,
            fate: entry.fate,
        };
        self.stamps.push(stamp, 1)?;
        self.lines = Snapshot::of(journal);
        Ok(())
    }

    /// Adds an entry for each line that the journal has beyond those of the entries, all at one tick and with no copies.
    /// `AllocError` also where they are 2^32 or more.
    pub fn push_all(&mut self, tick: u32, journal: &Lines) -> Result<(), AllocError>
        requires tick { last_tick_from 0 self.old.entries ≤ tick }
        requires before { Begins journal.now.items (lines_of self.old.entries) }
        requires fits { All (FitsLine self.old.plan []) (drop (length self.old.entries) journal.now.items) }
        ensures ok { OnOk result (self.new ≡ record self.old { entries = self.old.entries ++ map (quiet tick) (drop (length self.old.entries) journal.now.items) }) }
        ensures err { OnErr result (self.new ≡ self.old) }
    {
        journal.are_lines();
        tick_is(tick);
        let fate = Fate::lost();
        fate_is(fate);
        add_stamps(&mut self.stamps, journal.len(), Stamp { tick, fate })?;
        self.lines = Snapshot::of(journal);
        Ok(())
    }

    /// How many entries there are.
    pub fn len(&self) -> usize
        ensures { result ≡ length self.now.entries }
    {
        self.stamps.len()
    }

    /// The entries from a place on, as a transcript of the same plan. The journal is that of all entries.
    pub fn tail(&self, journal: &Lines, from: usize) -> Result<Transcript, AllocError>
        requires within { from ≤ length self.now.entries }
        requires journal { journal.now.items ≡ lines_of self.now.entries }
        ensures { IfOk result (λ tail. tail ≡ record { plan = self.now.plan; entries = drop from self.now.entries }) }
    {
        Ok(Transcript {
            plan: self.plan.try_copy()?,
            stamps: self.stamps.tail(from)?,
            lines: journal.tail(from)?,
        })
    }

    /// The transcript, with the journal that has just the lines of its entries.
    pub fn finish(self, journal: Lines) -> Result<Transcript, AllocError>
        requires { journal.items ≡ lines_of self.entries }
        ensures { IfOk result (λ transcript. transcript ≡ self) }
    {
        let Draft {
            plan,
            stamps,
            lines: _,
        } = self;
        let stamps = stamps.spelled_out()?;
        Ok(Transcript {
            plan,
            stamps,
            lines: journal,
        })
    }
}
