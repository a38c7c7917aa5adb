//! Transcripts: a plan and entries that fit it.

ghost use Rattle.std.specs.Prelude.{◌≡◌, ◌≤◌, ◌^◌, ◌<◌, [], ◌∷◌, ◌++◌, length, slice_index_or, IfOk, OnOk, OnErr};
ghost use Rattle.missing_round.specs.Sets.{IsSet};
ghost use Rattle.event_schedule.specs.declared.Line.TheVariants.{Send, Close, End};
ghost use Rattle.transcript_log.specs.Lines.{HasOwnTag};
ghost use Rattle.link_lanes.specs.Fates.{IsFate};
ghost use Rattle.event_schedule.specs.Transcripts.{IsEntry, IsLine, IsTranscript, Fits, Pushes, last_tick_from, no_entries};

use crate::Lines;
use event_schedule::{Entry, Line};
use group_plan::{Plan, Tag};
use link_lanes::Fate;
use meter_frames::Frame;
use missing_round::MeterSet;
use round_machine::{Closing, Ending};
use std::alloc::{AllocError, Global};
use std::marker::Model;

/// When a line was written, and the fate of its frame.
#[derive(Clone, Copy, PartialEq, Eq)]
pub(crate) struct Stamp {
    pub tick: u32,
    pub fate: Fate,
}

/// A plan, and the entries of a run of it. Their ticks never fall.
#[derive(Drop)]
pub struct Transcript {
    pub(crate) plan: Plan,
    pub(crate) stamps: Vec<Stamp>,
    pub(crate) lines: Lines,
}

impl Model for Transcript {
    ghost use Rattle.event_schedule.specs.Transcripts.{TranscriptView};

    ghost Value = { TranscriptView };

    ghost use Rattle.transcript_log.specs.Stamps.{entries_of, IsStamped};

    ghost view = { λ t. record { plan = t.plan; entries = entries_of t.stamps.items t.lines.items } };

    ghost invariant = { λ t. IsStamped t.plan t.stamps.items t.lines.items };
}

/// What the type says of a set. The functions below say it of the parts of a line, up to the whole entry.
fn set_is(set: MeterSet)
    ensures { IsSet set }
{
    let _bits = set.bits();
}

fn number_is(number: u64)
    ensures { number < 2 ^ 64 }
{}

fn frame_is(frame: &Frame)
    ensures set { IsSet frame.now.missing }
    ensures word { frame.now.word < 2 ^ 64 }
{
    set_is(frame.missing);
    number_is(frame.word.value());
}

fn sent_is(tag: Tag, sent: &Option<Frame>)
    ensures { IsLine (Send tag sent.now) }
{
    if let Some(frame) = sent {
        frame_is(frame);
    }
}

fn closing_is(group: u16, round: u32, closing: Closing)
    ensures { IsLine (Close group round closing) }
{
    match closing {
        Closing::Announced(set) => set_is(set),
        Closing::Thin(set) => set_is(set),
        Closing::Already => {}
    }
}

fn ending_is(group: u16, round: u32, ending: Ending)
    ensures { IsLine (End group round ending) }
{
    match ending {
        Ending::Total(total) => number_is(total),
        Ending::Lacking(set) => set_is(set),
        Ending::Thin => {}
        Ending::Already => {}
        Ending::NotClosed => {}
    }
}

pub(crate) fn line_is(line: &Line)
    ensures { IsLine line.now }
{
    match line {
        Line::Send { tag, frame } => sent_is(*tag, frame),
        Line::Take { .. } => {}
        Line::Close {
            group,
            round,
            closing,
        } => closing_is(*group, *round, *closing),
        Line::End {
            group,
            round,
            ending,
        } => ending_is(*group, *round, *ending),
    }
}

pub(crate) fn fate_is(fate: Fate)
    ensures { IsFate fate }
{
    let _delays = fate.delays();
}

pub(crate) fn tick_is(tick: u32)
    ensures { tick < 2 ^ 32 }
{}

/// What the types of an entry's parts say of them.
pub(crate) fn entry_is(entry: &Entry)
    ensures { IsEntry entry.now }
{
    tick_is(entry.tick);
    fate_is(entry.fate);
    line_is(&entry.line);
}

/// Adds a stamp and a line at the end, or neither.
fn add(stamps: &mut Vec<Stamp>, lines: &mut Lines, entry: &Entry) -> Result<(), AllocError>
    requires { HasOwnTag entry.now.line }
    ensures stamps { OnOk result (stamps.new.items ≡ stamps.old.items ++ record { tick = entry.now.tick; fate = entry.now.fate } ∷ []) }
    ensures lines { OnOk result (lines.new.items ≡ lines.old.items ++ entry.now.line ∷ []) }
    ensures no_stamp { OnErr result (stamps.new.items ≡ stamps.old.items) }
    ensures no_line { OnErr result (lines.new.items ≡ lines.old.items) }
{
    stamps.reserve(1)?;
    lines.push(&entry.line)?;
    stamps.push_reserved(Stamp {
        tick: entry.tick,
        fate: entry.fate,
    });
    Ok(())
}

impl Transcript {
    /// The transcript of a plan before its first entry.
    pub fn empty(alloc: Global, plan: &Plan) -> Result<Transcript, AllocError>
        ensures { IfOk result (λ transcript. transcript ≡ no_entries plan.now) }
    {
        Transcript::with_room(alloc, plan, 0)
    }

    /// The transcript of a plan before its first entry, with room for so many entries.
    pub fn with_room(alloc: Global, plan: &Plan, entries: usize) -> Result<Transcript, AllocError>
        ensures { IfOk result (λ transcript. transcript ≡ no_entries plan.now) }
    {
        let _groups = plan.groups();
        Ok(Transcript {
            plan: plan.try_copy()?,
            stamps: Vec::with_capacity(alloc, entries)?,
            lines: Lines::with_room(alloc, entries)?,
        })
    }

    /// Adds an entry at the end.
    pub fn push(&mut self, entry: Entry) -> Result<(), AllocError>
        requires tick { last_tick_from 0 self.old.entries ≤ entry.tick }
        requires fits { Fits self.old.plan entry }
        ensures { Pushes self.old entry result self.new }
    {
        entry_is(&entry);
        add(&mut self.stamps, &mut self.lines, &entry)
    }

    /// The plan.
    pub fn plan(&self) -> &Plan
        ensures { result.now ≡ self.now.plan }
    {
        &self.plan
    }

    /// How many entries there are.
    pub fn len(&self) -> usize
        ensures len { result ≡ length self.now.entries }
        ensures few { result < 2 ^ 63 }
        ensures sound { IsTranscript self.now }
    {
        self.lines.len()
    }

    /// The entry at a place, counted from 0.
    pub fn entry(&self, at: usize) -> Entry
        requires { at < length self.now.entries }
        ensures { result ≡ slice_index_or self.now.entries at result }
    {
        let stamp = self.stamps[at];
        Entry {
            tick: stamp.tick,
            fate: stamp.fate,
            line: self.lines.at(at),
        }
    }
}
