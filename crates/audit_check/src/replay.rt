//! Lines replayed, one after another, and none of them kept.

ghost use Rattle.std.specs.Prelude.{◌≡◌, ◌<◌, [], ◌&&◌, IsTrue, IfOk, length, not, replicate};
ghost use Rattle.group_plan.specs.Plans.{is_place, is_member};
ghost use Rattle.group_plan.specs.Tables.{is_present};
ghost use Rattle.group_book.specs.Books.{knows};
ghost use Rattle.group_book.specs.Places.{is_round, all_rounds, page_at};
ghost use Rattle.frame_presence.specs.Presence.{IsPresenceOf};
ghost use Rattle.audit_check.specs.Replays.{FitsBook, AreAnswered, Replays};
ghost use Rattle.audit_check.specs.Answers.{IsAnswerOf, AnswerEnds};
ghost use Rattle.audit_check.specs.Following.{IsReplay, Meets, LineEnds};

use crate::meeting::{has_frame, reading_of};
use crate::telling::say;
use crate::totals::may_open;
use audit_rounds::Rounds;
use event_schedule::Line;
use frame_presence::presence_of_frames;
use group_plan::{Kind, Plan, Presence, Tag};
use missing_round::MeterSet;
use std::alloc::{AllocError, Global};
use transcript_log::Transcript;

/// What is kept of each round while lines are replayed, and none of the lines.
#[derive(Drop)]
pub(crate) struct Replay {
    pub(crate) rounds: Rounds,
    /// The members of whose reading a Send came.
    seen: Presence,
    /// The meters that have sent an answer, the rounds one after another by groups.
    answered: Vec<MeterSet>,
}

// The place of a round among those of all groups, counted from 0.
fn page_at(plan: &Plan, group: u16, round: u32) -> usize
    requires { IsTrue (is_round plan.now group round) }
    ensures at { result ≡ page_at plan.now group round }
    ensures within { result < all_rounds plan.now }
{
    group as usize * plan.rounds() as usize + round as usize
}

// An empty set for each of so many rounds.
fn no_answers_of(alloc: Global, rounds: usize) -> Result<Vec<MeterSet>, AllocError>
    ensures { IfOk result (λ answered. answered.items ≡ replicate rounds []) }
{
    vec![in alloc; MeterSet::empty(); rounds]
}

// No meter has answered in any round.
fn no_answers(alloc: Global, plan: &Plan) -> Result<Vec<MeterSet>, AllocError>
    ensures { IfOk result (λ answered. answered.items ≡ replicate (all_rounds plan.now) []) }
{
    no_answers_of(alloc, plan.rounds() as usize * plan.groups().len())
}

// The tag of a line that posts an answer.
fn answer_of(line: &Line) -> Option<Tag>
    ensures { IsAnswerOf line.now result }
{
    match *line {
        Line::Send {
            tag,
            frame: Some(_),
        } => match tag.kind {
            Kind::Answer => Some(tag),
            Kind::Reading => None,
            Kind::Announcement => None,
        },
        Line::Send { frame: None, .. } => None,
        Line::Take { .. } => None,
        Line::Close { .. } => None,
        Line::End { .. } => None,
    }
}

// Nobody has a reading.
fn no_presence(alloc: Global, plan: &Plan) -> Result<Presence, AllocError>
    ensures { IfOk result (IsPresenceOf plan.now []) }
{
    let none = Transcript::empty(alloc, plan)?;
    presence_of_frames(alloc, &none)
}

impl Replay {
    /// A replay of no line.
    pub(crate) fn new(alloc: Global, plan: &Plan) -> Result<Replay, AllocError>
        ensures plan { IfOk result (λ replay. replay.rounds.presence.plan ≡ plan.now) }
        ensures journal { IfOk result (λ replay. replay.rounds.journal ≡ []) }
        ensures replay { IfOk result (λ replay. IsReplay replay.rounds.presence replay.rounds.journal replay.seen replay.answered.items) }
    {
        let seen = no_presence(alloc, plan)?;
        let rounds = Rounds::new(alloc, &seen)?;
        let answered = no_answers(alloc, plan)?;
        Ok(Replay {
            rounds,
            seen,
            answered,
        })
    }

    // Whether no Send of a reading came, and its meter is a member.
    fn is_first(&self, tag: Tag) -> bool
        requires place { IsTrue (is_place self.now.rounds.presence.plan tag.group tag.round tag.meter) }
        requires plan { self.now.seen.plan ≡ self.now.rounds.presence.plan }
        ensures { result ≡ (is_member self.now.rounds.presence.plan.groups tag.group tag.round tag.meter && not (is_present self.now.seen.table tag.group tag.round tag.meter)) }
    {
        let member = self
            .rounds
            .plan()
            .is_member(tag.group, tag.round, tag.meter);
        member && !self.seen.has(tag.group, tag.round, tag.meter)
    }

    // Notes who has a reading, where a line is the first Send of it.
    fn meet(&mut self, line: &Line)
        requires fits { FitsBook self.old.rounds line.now }
        requires replay { IsReplay self.old.rounds.presence self.old.rounds.journal self.old.seen self.old.answered.items }
        ensures meets { Meets self.old.rounds line.now self.new.rounds self.new.seen }
        ensures answered { self.new.answered.items ≡ self.old.answered.items }
    {
        let Some(tag) = reading_of(line) else {
            return;
        };
        if !self.is_first(tag) {
            return;
        }
        self.seen.note(tag.group, tag.round, tag.meter);
        if has_frame(line) {
            self.rounds.note(tag.group, tag.round, tag.meter);
        }
    }

    // Notes an answer that was sent; whether no round is opened by it, or one whose total its readings can be.
    fn answer(&mut self, tag: Tag) -> bool
        requires known { IsTrue (knows self.old.rounds tag) }
        requires long { length self.old.answered.items ≡ all_rounds self.old.rounds.presence.plan }
        ensures rounds { self.new.rounds ≡ self.old.rounds }
        ensures seen { self.new.seen ≡ self.old.seen }
        ensures answered { AnswerEnds self.old.rounds tag self.old.answered.items result self.new.answered.items }
    {
        let at = page_at(self.rounds.plan(), tag.group, tag.round);
        let before = self.answered[at];
        if before.has(tag.meter) {
            return true;
        }
        let answered = before.with(tag.meter);
        self.answered[at] = answered;
        may_open(&self.rounds, tag.group, tag.round, answered)
    }

    // Says a line, whose reading is noted; whether it may follow the lines before it.
    fn tell(&mut self, line: &Line) -> bool
        requires spare { 0 < self.old.rounds.spare }
        requires fits { FitsBook self.old.rounds line.now }
        requires answered { AreAnswered self.old.rounds.presence.plan self.old.rounds.journal self.old.answered.items }
        ensures replays { Replays self.old.rounds line.now result self.new.rounds self.new.answered.items }
        ensures seen { self.new.seen ≡ self.old.seen }
    {
        let _rounds = self.rounds.plan().rounds();
        let _plan = self.rounds.presence().plan();
        if !say(&mut self.rounds, line) {
            return false;
        }
        let _room = self.rounds.spare();
        match answer_of(line) {
            Some(tag) => self.answer(tag),
            None => true,
        }
    }

    /// Replays a line; whether it may follow the lines before it. Nothing may be replayed after one that may not.
    pub(crate) fn line(&mut self, line: &Line) -> Result<bool, AllocError>
        requires fits { FitsBook self.old.rounds line.now }
        requires replay { IsReplay self.old.rounds.presence self.old.rounds.journal self.old.seen self.old.answered.items }
        ensures { IfOk result (λ may. LineEnds self.old.rounds.presence self.old.rounds.journal line.now may self.new.rounds self.new.seen self.new.answered.items) }
    {
        self.rounds.make_room()?;
        self.meet(line);
        Ok(self.tell(line))
    }
}
