//! A book without its journal.

ghost use Rattle.std.specs.Prelude.{◌≡◌, ◌<◌, [], IsTrue, IfOk, OnOk, length};
ghost use Rattle.group_plan.specs.Plans.{is_place, is_member};
ghost use Rattle.group_plan.specs.Tables.{NotesReading};
ghost use Rattle.meter_frames.specs.Frames.{FitsKind};
ghost use Rattle.group_book.specs.Books.{shape_of, has_round, SendEnds, TakeEnds, CloseEnds, EndEnds, IsPosted, IsAnnounced, outcome_of};
ghost use Rattle.group_book.specs.Replay.{IsGroup, IsJournal};
ghost use Rattle.audit_rounds.specs.Told.{IsUnsent};

use group_book::{Book, GroupPages, Outcome, Parts, SendAnswer, TakeError};
use group_plan::{Plan, Presence, Tag};
use http_server::Log;
use meter_frames::Frame;
use missing_round::MeterSet;
use round_machine::{Closing, Ending, Verdict};
use std::alloc::{AllocError, Global};
use std::marker::Model;
use transcript_log::Lines;

/// All rounds of a plan and who has a reading, as a `Book` keeps them, and in place of its journal the line that was said last. All
/// lines so far are known to proofs alone: what is kept is always what they say.
#[derive(Drop)]
pub struct Rounds {
    presence: Presence,
    groups: Vec<GroupPages>,
    /// The lines that were said since there was room for one.
    last: Lines,
    /// Those before them, which take no memory.
    told: Log<Lines, ()>,
}

impl Model for Rounds {
    ghost use Rattle.std.specs.Prelude.{◌++◌};
    ghost use Rattle.group_book.specs.Books.{BookView};
    ghost use Rattle.group_book.specs.Replay.{AreReplayed};
    ghost use Rattle.audit_rounds.specs.Told.{all_told};

    ghost Value = { BookView };

    ghost view = { λ r. record { presence = r.presence; journal = all_told r.told.items ++ r.last.items; spare = r.last.spare } };

    ghost invariant = { λ r. AreReplayed r.presence (all_told r.told.items ++ r.last.items) r.groups.items };
}

impl Rounds {
    /// Rounds of which no line was said.
    pub fn new(alloc: Global, presence: &Presence) -> Result<Rounds, AllocError>
        ensures presence { IfOk result (λ rounds. rounds.presence ≡ presence.now) }
        ensures journal { IfOk result (λ rounds. rounds.journal ≡ []) }
    {
        let book = Book::new(alloc, presence.plan(), presence)?;
        let Parts {
            presence,
            groups,
            journal,
        } = book.into_parts();
        Ok(Rounds {
            presence,
            groups,
            last: journal,
            told: Log::new(),
        })
    }

    /// The plan of the rounds.
    pub fn plan(&self) -> &Plan
        ensures { result.now ≡ self.now.presence.plan }
    {
        self.presence.plan()
    }

    /// Who has a reading, as far as it is noted.
    pub fn presence(&self) -> &Presence
        ensures { result.now ≡ self.now.presence }
    {
        &self.presence
    }

    /// For how many more lines there is room.
    pub fn spare(&self) -> u64
        ensures spare { result ≡ self.now.spare }
        ensures journal { IsJournal (shape_of self.now) self.now.journal }
    {
        self.last.spare()
    }

    /// Makes room for one more line. It is taken from the lines that were said.
    pub fn make_room(&mut self) -> Result<(), AllocError>
        ensures room { OnOk result (0 < self.new.spare) }
        ensures presence { self.new.presence ≡ self.old.presence }
        ensures journal { self.new.journal ≡ self.old.journal }
    {
        self.told = self.told.and(&self.last, &());
        self.last.clear();
        self.last.reserve(1)
    }

    /// Notes that a member has a reading, of which no Send was said.
    pub fn note(&mut self, group: u16, round: u32, meter: u8)
        requires place { IsTrue (is_place self.old.presence.plan group round meter) }
        requires member { IsTrue (is_member self.old.presence.plan.groups group round meter) }
        requires unsent { IsUnsent self.old.journal group round meter }
        ensures presence { NotesReading self.old.presence group round meter self.new.presence }
        ensures journal { self.new.journal ≡ self.old.journal }
        ensures spare { self.new.spare ≡ self.old.spare }
    {
        self.presence.note(group, round, meter);
        let _plan = self.presence.plan();
    }

    /// The missing set of a round, where it was announced.
    pub fn announced(&self, group: u16, round: u32) -> Option<MeterSet>
        requires { IsTrue (has_round self.now group round) }
        ensures { IsAnnounced self.now group round result }
    {
        self.group(group).announced(round)
    }

    /// The frame that is posted under the tag: that of its first Send with effect.
    pub fn posted(&self, tag: Tag) -> Option<Frame>
        ensures { IsPosted self.now tag result }
    {
        if !self.presence.plan().holds(tag) {
            return None;
        }
        self.group(tag.group).posted(tag)
    }

    /// Sends a frame. It is posted under its tag where the Send has effect; a Send without effect has a line too.
    pub fn send(&mut self, frame: Frame) -> SendAnswer
        requires spare { 0 < self.old.spare }
        requires frame { FitsKind frame.tag.kind frame.missing frame.word }
        ensures { SendEnds self.old frame result self.new }
    {
        if !self.plan().holds(frame.tag) {
            return SendAnswer::Unknown;
        }
        let at = frame.tag.group as usize;
        self.groups[at].send(&self.presence, frame, &mut self.last)
    }

    /// Takes a frame: what came from the link.
    pub fn take(&mut self, frame: &Frame) -> Result<Verdict, TakeError>
        requires spare { 0 < self.old.spare }
        ensures { TakeEnds self.old frame.now result self.new }
    {
        if !self.plan().holds(frame.tag) {
            return Err(TakeError::Unknown);
        }
        let at = frame.tag.group as usize;
        self.groups[at].take(frame, &mut self.last)
    }

    /// Closes a round to readings. The first Close announces the missing set, or finds the round thin.
    pub fn close(&mut self, group: u16, round: u32) -> Closing
        requires spare { 0 < self.old.spare }
        requires known { IsTrue (has_round self.old group round) }
        ensures { CloseEnds self.old group round result self.new }
    {
        self.groups[group as usize].close(round, &mut self.last)
    }

    /// Ends a round. The first End after a Close says its total, or why none is published.
    pub fn end(&mut self, group: u16, round: u32) -> Ending
        requires spare { 0 < self.old.spare }
        requires known { IsTrue (has_round self.old group round) }
        ensures { EndEnds self.old group round result self.new }
    {
        self.groups[group as usize].end(round, &mut self.last)
    }

    /// What a round comes to: its survivors so far and its total, or why there is none.
    pub fn outcome(&self, group: u16, round: u32) -> Outcome
        requires { IsTrue (has_round self.now group round) }
        ensures { result ≡ outcome_of self.now group round }
    {
        self.group(group).outcome(round)
    }

    // What is kept of a group of the plan.
    fn group(&self, group: u16) -> &GroupPages
        requires { group < length self.now.presence.plan.groups }
        ensures { IsGroup self.now.presence self.now.journal group result.now }
    {
        &self.groups[group as usize]
    }
}
