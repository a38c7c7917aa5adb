//! What a book keeps of one group: its rounds, and the word posted under each of its tags.

ghost use Rattle.std.specs.Prelude.{◌≡◌, ◌<◌, ℕ, List, IsTrue, IfOk, length, slice_index_or};
ghost use Rattle.missing_round.specs.Sets.{is_member};
ghost use Rattle.group_plan.specs.Tables.{PresenceView};
ghost use Rattle.meter_frames.specs.Frames.{FitsKind};
ghost use Rattle.event_schedule.specs.declared.Line.{Line as LineView};
ghost use Rattle.group_book.specs.Books.{allows, knows, HasSet, missing_of, IsFree, SendEnds, TakeEnds, CloseEnds, EndEnds, IsPosted, IsAnnounced, outcome_of};
ghost use Rattle.group_book.specs.BookParts.{HasWord, set_carried, IsOther, IsOtherSet, HasSetOf};
ghost use Rattle.group_book.specs.Groups.{first_group, holds};
ghost use Rattle.group_book.specs.Replay.{Replays, CanCall, CanSend, PagesEnd, book_at};

use crate::copies::copy_of_pages;
use crate::lines::{add_close, add_end, add_send, add_take};
use crate::page::Page;
use crate::places::word_in;
use crate::start::{first_pages, no_words};
use crate::words::Words;
use crate::{Outcome, SendAnswer, TakeError};
use group_plan::{Kind, Plan, Presence, Tag};
use meter_frames::Frame;
use missing_round::MeterSet;
use mod_word::Word;
use round_machine::{Closing, Ending, Verdict};
use std::alloc::{AllocError, Global};
use std::marker::Model;
use transcript_log::Lines;

/// All rounds of a group, and the words of the frames posted under its tags. Of which journal they are, its holder knows.
#[derive(Drop)]
pub struct GroupPages {
    group: u16,
    /// How many rounds the group has.
    rounds: u32,
    /// How many meters the group has, at most 256.
    meters: u16,
    /// The rounds in order.
    pages: Vec<Page>,
    /// The words of the posted frames, one kind after another, and in each by rounds. The tag and the round give the rest.
    words: Words,
}

impl Model for GroupPages {
    ghost use Rattle.group_book.specs.Groups.{GroupView};

    ghost Value = { GroupView };

    ghost view = { λ v. record { group = v.group; rounds = v.rounds; meters = v.meters; pages = v.pages.items; words = v.words } };
}

impl GroupPages {
    /// A group of which nothing was taken yet.
    pub(crate) fn new(alloc: Global, plan: &Plan, group: u16) -> Result<GroupPages, AllocError>
        requires { group < length plan.now.groups }
        ensures { IfOk result (λ v. v ≡ first_group plan.now group) }
    {
        let rounds = plan.rounds();
        let meters = plan.meters(group) as u16;
        Ok(GroupPages {
            group,
            rounds,
            meters,
            pages: first_pages(alloc, plan, group)?,
            words: no_words(alloc, rounds, meters)?,
        })
    }

    /// The same rounds and words.
    pub(crate) fn try_copy(&self, alloc: Global) -> Result<GroupPages, AllocError>
        ensures { IfOk result (λ copy. copy ≡ self.now) }
    {
        Ok(GroupPages {
            group: self.group,
            rounds: self.rounds,
            meters: self.meters,
            pages: copy_of_pages(alloc, &self.pages)?,
            words: self.words.try_copy(alloc)?,
        })
    }

    /// The number of the group, counted from 0.
    pub fn group(&self) -> u16
        ensures { result ≡ self.now.group }
    {
        self.group
    }

    /// The missing set of a round, where it was announced.
    pub fn announced(&self, round: u32) -> Option<MeterSet>
        requires can { CanCall self.now }
        requires round { round < self.now.rounds }
        ensures { (p : PresenceView) (j : List LineView) → Replays p j self.now → IsAnnounced (book_at p j 0) self.now.group round result }
    {
        self.page(round).announced()
    }

    /// The frame that is posted under a tag of the group: that of its first Send with effect.
    pub fn posted(&self, tag: Tag) -> Option<Frame>
        requires can { CanCall self.now }
        requires own { tag.group ≡ self.now.group }
        ensures { (p : PresenceView) (j : List LineView) → Replays p j self.now → IsPosted (book_at p j 0) tag result }
    {
        if !self.holds(tag) {
            return None;
        }
        let word = self.word(tag)?;
        let missing = set_carried(tag.kind, self.announced(tag.round));
        Some(Frame { tag, missing, word })
    }

    /// Sends a frame of the group, with the presence of its plan, and adds its line. It is posted under its tag where the Send has
    /// effect; a Send without effect has a line too.
    #[inline(always)]
    pub fn send(&mut self, presence: &Presence, frame: Frame, lines: &mut Lines) -> SendAnswer
        requires can { CanSend presence.now self.old }
        requires own { frame.tag.group ≡ self.old.group }
        requires spare { 0 < lines.old.spare }
        requires frame { FitsKind frame.tag.kind frame.missing frame.word }
        ensures { (j : List LineView) → Replays presence.now j self.old → PagesEnd presence.now j (λ b c. SendEnds b frame result c) lines.old self.old.group self.new lines.new }
    {
        let tag = frame.tag;
        if !self.holds(tag) {
            return SendAnswer::Unknown;
        }
        if !self.allows(presence, tag) {
            add_send(lines, tag, None);
            return SendAnswer::NotAllowed;
        }
        if let Some(announced) = self.other_set(&frame) {
            return SendAnswer::WrongSet { announced };
        }
        if let Some(posted) = other_frame(&self.posted(tag), &frame) {
            return SendAnswer::Differs { posted };
        }
        let at = word_in(self.rounds, self.meters, tag);
        self.words.put(at, frame.word);
        add_send(lines, tag, Some(frame));
        SendAnswer::Sent
    }

    /// Takes a frame of the group: what came from the link. Adds its line.
    #[inline(always)]
    pub fn take(&mut self, frame: &Frame, lines: &mut Lines) -> Result<Verdict, TakeError>
        requires can { CanCall self.old }
        requires own { frame.now.tag.group ≡ self.old.group }
        requires spare { 0 < lines.old.spare }
        ensures { (p : PresenceView) (j : List LineView) → Replays p j self.old → PagesEnd p j (λ b c. TakeEnds b frame.now result c) lines.old self.old.group self.new lines.new }
    {
        let tag = frame.tag;
        if !self.holds(tag) {
            return Err(TakeError::Unknown);
        }
        let posted = self.posted(tag);
        if let Some(posted) = other_frame(&posted, frame) {
            return Err(TakeError::Forged {
                posted,
                came: *frame,
            });
        }
        if posted.is_none() {
            add_take(lines, tag, Verdict::Void);
            return Ok(Verdict::Void);
        }
        let verdict = self.pages[tag.round as usize].take(tag.kind, tag.meter, frame.word);
        add_take(lines, tag, verdict);
        Ok(verdict)
    }

    /// Closes a round to readings, and adds the line of that. The first Close announces the missing set, or finds the round thin.
    #[inline(always)]
    pub fn close(&mut self, round: u32, lines: &mut Lines) -> Closing
        requires can { CanCall self.old }
        requires round { round < self.old.rounds }
        requires spare { 0 < lines.old.spare }
        ensures { (p : PresenceView) (j : List LineView) → Replays p j self.old → PagesEnd p j (λ b c. CloseEnds b self.old.group round result c) lines.old self.old.group self.new lines.new }
    {
        let closing = self.pages[round as usize].close();
        add_close(lines, self.group, round, &closing);
        closing
    }

    /// Ends a round, and adds the line of that. The first End after a Close says its total, or why none is published.
    #[inline(always)]
    pub fn end(&mut self, round: u32, lines: &mut Lines) -> Ending
        requires can { CanCall self.old }
        requires round { round < self.old.rounds }
        requires spare { 0 < lines.old.spare }
        ensures { (p : PresenceView) (j : List LineView) → Replays p j self.old → PagesEnd p j (λ b c. EndEnds b self.old.group round result c) lines.old self.old.group self.new lines.new }
    {
        let ending = self.pages[round as usize].end();
        add_end(lines, self.group, round, &ending);
        ending
    }

    /// What a round comes to: its survivors so far and its total, or why there is none.
    pub fn outcome(&self, round: u32) -> Outcome
        requires can { CanCall self.now }
        requires round { round < self.now.rounds }
        ensures { (p : PresenceView) (j : List LineView) → Replays p j self.now → result ≡ outcome_of (book_at p j 0) self.now.group round }
    {
        let page = self.page(round);
        Outcome {
            survivors: page.survivors(),
            state: page.state(),
        }
    }

    // The page of a round.
    fn page(&self, round: u32) -> &Page
        requires can { CanCall self.now }
        requires round { round < self.now.rounds }
        ensures { result.now ≡ slice_index_or self.now.pages round result.now }
    {
        &self.pages[round as usize]
    }

    // Whether the group has the round and the meter of a tag.
    fn holds(&self, tag: Tag) -> bool
        ensures { result ≡ holds self.now tag }
    {
        tag.round < self.rounds && u16::from(tag.meter) < self.meters
    }

    // The word of the frame that is posted under a tag of the group.
    fn word(&self, tag: Tag) -> Option<Word>
        requires can { CanCall self.now }
        requires own { tag.group ≡ self.now.group }
        requires held { IsTrue (holds self.now tag) }
        ensures { (p : PresenceView) (j : List LineView) → Replays p j self.now → HasWord (book_at p j 0) tag result }
    {
        self.words.get(word_in(self.rounds, self.meters, tag))
    }

    // Whether a Send of the tag has effect now.
    fn allows(&self, presence: &Presence, tag: Tag) -> bool
        requires can { CanSend presence.now self.now }
        requires own { tag.group ≡ self.now.group }
        requires held { IsTrue (holds self.now tag) }
        ensures { (j : List LineView) → Replays presence.now j self.now → result ≡ allows (book_at presence.now j 0) tag }
    {
        match tag.kind {
            Kind::Reading => presence.has(tag.group, tag.round, tag.meter),
            Kind::Announcement => {
                let page = self.page(tag.round);
                page.announced().is_some() && page.survivors().has(tag.meter)
            }
            Kind::Answer => self.page(tag.round).is_told(tag.meter),
        }
    }

    // The announced set, where the frame has another one.
    fn other_set(&self, frame: &Frame) -> Option<MeterSet>
        requires can { CanCall self.now }
        requires own { frame.now.tag.group ≡ self.now.group }
        requires held { IsTrue (holds self.now frame.now.tag) }
        ensures { (p : PresenceView) (j : List LineView) → Replays p j self.now → IsTrue (allows (book_at p j 0) frame.now.tag) →
            HasSetOf (missing_of (book_at p j 0) frame.now.tag) frame.now result }
    {
        let announced = self.announced(frame.tag.round);
        other_set(announced, frame)
    }
}

// The missing set that a frame of this kind carries: the announced one, and none in a reading.
fn set_carried(kind: Kind, announced: Option<MeterSet>) -> MeterSet
    ensures { result ≡ set_carried kind announced }
{
    match kind {
        Kind::Reading => MeterSet::empty(),
        Kind::Announcement | Kind::Answer => announced.unwrap_or(MeterSet::empty()),
    }
}

// The posted frame, where another one came.
fn other_frame(found: &Option<Frame>, came: &Frame) -> Option<Frame>
    ensures { IsOther found.now came.now result }
{
    match *found {
        None => None,
        Some(posted) => { if posted == *came { None } else { Some(posted) } }
    }
}

// The announced set, where the frame is to carry it and has another one.
fn other_set(announced: Option<MeterSet>, frame: &Frame) -> Option<MeterSet>
    ensures { IsOtherSet announced frame.now result }
{
    match announced {
        None => None,
        Some(set) => match frame.tag.kind {
            Kind::Reading => None,
            Kind::Announcement | Kind::Answer => {
                if set == frame.missing {
                    None
                } else {
                    Some(set)
                }
            }
        },
    }
}
