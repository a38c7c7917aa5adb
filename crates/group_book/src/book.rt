//! The book: every round of a plan, the word posted under each tag, and the journal.

ghost use Rattle.std.specs.Prelude.{◌≡◌, ◌<◌, ◌≤◌, [], IsTrue, IfOk, OnOk, length, map};
ghost use Rattle.std.specs.List.{range_with_len};
ghost use Rattle.group_plan.specs.Plans.{IsWithinLimits};
ghost use Rattle.meter_frames.specs.Frames.{FitsKind};
ghost use Rattle.group_book.specs.Groups.{GroupView, first_group};
ghost use Rattle.group_book.specs.Books.{shape_of, has_round, SendEnds, TakeEnds, CloseEnds, EndEnds, IsPosted, IsAnnounced, outcome_of};
ghost use Rattle.group_book.specs.Replay.{IsJournal, IsGroup, AreReplayed};
ghost use Rattle.group_book.specs.Tables.{IsTranscriptUnder, IsOutcomeUnder};

use crate::group_pages::GroupPages;
use crate::places::is_round;
use crate::{Outcome, SendAnswer, TakeError};
use group_plan::{Plan, Presence, Tag};
use meter_frames::Frame;
use missing_round::MeterSet;
use round_machine::{Closing, Ending, Verdict};
use std::alloc::{AllocError, Global};
use std::marker::Model;
use transcript_log::Lines;

/// All rounds of a plan and who has a reading, the word of the frame posted under each tag, who took its announcement, and
/// the journal: the list of lines so far. What it keeps is always what the journal says.
#[derive(Drop)]
pub struct Book {
    alloc: Global,
    presence: Presence,
    /// What is kept of each group.
    groups: Vec<GroupPages>,
    journal: Lines,
}

impl Model for Book {
    ghost use Rattle.group_book.specs.Books.{BookView};
    ghost use Rattle.group_book.specs.Replay.{AreReplayed};

    ghost Value = { BookView };

    ghost view = { λ b. record { presence = b.presence; journal = b.journal.items; spare = b.journal.spare } };

    ghost invariant = { λ b. AreReplayed b.presence b.journal.items b.groups.items };
}

/// A book taken apart: who has a reading, what is kept of each group, and the journal. Each group can go its own way, as long as the
/// journal gets its lines.
#[derive(Drop)]
pub struct Parts {
    pub presence: Presence,
    pub groups: Vec<GroupPages>,
    pub journal: Lines,
}

/// The groups of a plan, of which nothing was taken yet.
fn first_groups(alloc: Global, plan: &Plan) -> Result<Vec<GroupPages>, AllocError>
    ensures limits { OnOk result (IsWithinLimits plan.now) }
    ensures groups { IfOk result (λ groups. groups.items ≡ map (first_group plan.now) (range_with_len 0 (length plan.now.groups))) }
{
    let count = plan.groups().len();
    let mut groups = Vec::with_capacity(alloc, count)?;
    for group in 0..count {
        groups.push(GroupPages::new(alloc, plan, group as u16)?)?;
    }
    Ok(groups)
}

/// The same groups.
fn copy_of_groups(alloc: Global, groups: &[GroupPages]) -> Result<Vec<GroupPages>, AllocError>
    ensures { IfOk result (λ copy. copy.items ≡ groups.now) }
{
    let mut copy = Vec::with_capacity(alloc, groups.len())?;
    for group in groups {
        copy.push(group.try_copy(alloc)?)?;
    }
    Ok(copy)
}

impl Book {
    /// A book with no line, for the plan and a presence of it.
    pub fn new(alloc: Global, plan: &Plan, presence: &Presence) -> Result<Book, AllocError>
        requires { presence.now.plan ≡ plan.now }
        ensures presence { IfOk result (λ book. book.presence ≡ presence.now) }
        ensures journal { IfOk result (λ book. book.journal ≡ []) }
    {
        Ok(Book {
            alloc,
            groups: first_groups(alloc, plan)?,
            presence: presence.try_copy()?,
            journal: Lines::new(alloc),
        })
    }

    /// The plan of the rounds.
    pub fn plan(&self) -> &Plan
        ensures { result.now ≡ self.now.presence.plan }
    {
        self.presence.plan()
    }

    /// Who has a reading.
    pub fn presence(&self) -> &Presence
        ensures { result.now ≡ self.now.presence }
    {
        &self.presence
    }

    /// The lines so far.
    pub fn journal(&self) -> &Lines
        ensures lines { result.now.items ≡ self.now.journal }
        ensures journal { IsJournal (shape_of self.now) result.now.items }
        ensures tables { IsTranscriptUnder self.now.presence result.now.items }
    {
        &self.journal
    }

    /// The lines alone.
    pub fn into_journal(self) -> Lines
        ensures { result.items ≡ self.journal }
    {
        let Book { journal, .. } = self;
        journal
    }

    /// The book taken apart.
    pub fn into_parts(self) -> Parts
        ensures presence { result.presence ≡ self.presence }
        ensures journal { result.journal.items ≡ self.journal }
        ensures groups { AreReplayed self.presence self.journal result.groups.items }
    {
        let Book {
            alloc: _,
            presence,
            groups,
            journal,
        } = self;
        Parts {
            presence,
            groups,
            journal,
        }
    }

    /// A book put together again, of groups that are what the journal says of them.
    pub fn of_parts(alloc: Global, parts: Parts) -> Book
        requires { AreReplayed parts.presence parts.journal.items parts.groups.items }
        ensures presence { result.presence ≡ parts.presence }
        ensures journal { result.journal ≡ parts.journal.items }
    {
        let Parts {
            presence,
            groups,
            journal,
        } = parts;
        Book {
            alloc,
            presence,
            groups,
            journal,
        }
    }

    /// For how many more lines there is room.
    pub fn spare(&self) -> u64
        ensures { result ≡ self.now.spare }
    {
        self.journal.spare()
    }

    /// Makes room for the lines of so many events.
    pub fn reserve(&mut self, events: u64) -> Result<(), AllocError>
        ensures room { OnOk result (events ≤ self.new.spare) }
        ensures presence { self.new.presence ≡ self.old.presence }
        ensures journal { self.new.journal ≡ self.old.journal }
        ensures spare { self.old.spare ≤ self.new.spare }
    {
        self.journal.reserve(events)
    }

    /// An equal book. For how many lines it has room is not said.
    pub fn try_copy(&self) -> Result<Book, AllocError>
        ensures presence { IfOk result (λ book. book.presence ≡ self.now.presence) }
        ensures journal { IfOk result (λ book. book.journal ≡ self.now.journal) }
    {
        Ok(Book {
            alloc: self.alloc,
            presence: self.presence.try_copy()?,
            groups: copy_of_groups(self.alloc, &self.groups)?,
            journal: self.journal.try_copy()?,
        })
    }

    /// Whether the plan has the group and the round, counted from 0.
    pub fn has_round(&self, group: u16, round: u32) -> bool
        ensures { result ≡ has_round self.now group round }
    {
        is_round(self.plan(), group, round)
    }

    /// The missing set of a round, where it was announced.
    pub fn announced(&self, group: u16, round: u32) -> Option<MeterSet>
        requires { IsTrue (has_round self.now group round) }
        ensures { IsAnnounced self.now group round result }
    {
        self.group(group).announced(round)
    }

    /// The frame that is posted under the tag: that of its first Send with effect.
    pub fn posted(&self, tag: Tag) -> Option<Frame>
        ensures { IsPosted self.now tag result }
    {
        if !self.presence.plan().holds(tag) {
            return None;
        }
        self.group(tag.group).posted(tag)
    }

    /// Sends a frame. It is posted under its tag where the Send has effect; a Send without effect has a line too.
    pub fn send(&mut self, frame: Frame) -> SendAnswer
        requires spare { 0 < self.old.spare }
        requires frame { FitsKind frame.tag.kind frame.missing frame.word }
        ensures { SendEnds self.old frame result self.new }
    {
        if !self.plan().holds(frame.tag) {
            return SendAnswer::Unknown;
        }
        let at = frame.tag.group as usize;
        self.groups[at].send(&self.presence, frame, &mut self.journal)
    }

    /// Takes a frame: what came from the link.
    pub fn take(&mut self, frame: &Frame) -> Result<Verdict, TakeError>
        requires spare { 0 < self.old.spare }
        ensures { TakeEnds self.old frame.now result self.new }
    {
        if !self.plan().holds(frame.tag) {
            return Err(TakeError::Unknown);
        }
        let at = frame.tag.group as usize;
        self.groups[at].take(frame, &mut self.journal)
    }

    /// Closes a round to readings. The first Close announces the missing set, or finds the round thin.
    pub fn close(&mut self, group: u16, round: u32) -> Closing
        requires spare { 0 < self.old.spare }
        requires known { IsTrue (has_round self.old group round) }
        ensures { CloseEnds self.old group round result self.new }
    {
        self.groups[group as usize].close(round, &mut self.journal)
    }

    /// Ends a round. The first End after a Close says its total, or why none is published.
    pub fn end(&mut self, group: u16, round: u32) -> Ending
        requires spare { 0 < self.old.spare }
        requires known { IsTrue (has_round self.old group round) }
        ensures { EndEnds self.old group round result self.new }
    {
        self.groups[group as usize].end(round, &mut self.journal)
    }

    /// What a round comes to: its survivors so far and its total, or why there is none.
    pub fn outcome(&self, group: u16, round: u32) -> Outcome
        requires { IsTrue (has_round self.now group round) }
        ensures outcome { result ≡ outcome_of self.now group round }
        ensures tables { IsOutcomeUnder self.now group round result.state }
    {
        self.group(group).outcome(round)
    }

    // What is kept of a group of the plan.
    fn group(&self, group: u16) -> &GroupPages
        requires { group < length self.now.presence.plan.groups }
        ensures { IsGroup self.now.presence self.now.journal group result.now }
    {
        &self.groups[group as usize]
    }
}
