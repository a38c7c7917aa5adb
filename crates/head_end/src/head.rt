//! The head end: what it keeps, and what it says to a frame and to a tick.

ghost use Rattle.std.specs.Prelude.{◌≡◌, ◌<◌, [], List, true, IsTrue, IfOk};
ghost use Rattle.group_plan.specs.declared.Kind.TheVariants.{Reading, Answer};
ghost use Rattle.group_plan.specs.Plans.{members, IsWithinLimits};
ghost use Rattle.group_book.specs.Places.{is_round, all_rounds, page_at};
ghost use Rattle.head_end.specs.declared.answers.Logged.{Logged};
ghost use Rattle.head_end.specs.Journal.{passed, survivors};
ghost use Rattle.head_end.specs.Lines.{ending};
ghost use Rattle.head_end.specs.Replies.{is_known, has_other_set, announced_set, repeated_by, is_fresh};
ghost use Rattle.head_end.specs.Kept.{KeepsRounds, closed_where, ended_where, has_closed, has_ended};

use crate::answers::{Logged, Refusal, Reply};
use crate::start::{first_rounds, no_words};
use event_schedule::{floor_of, members};
use group_plan::{Kind, Plan, Tag};
use meter_frames::Frame;
use missing_round::MeterSet;
use mod_word::Word;
use round_machine::{Ending, Round, Verdict};
use std::alloc::{AllocError, Global};

/// A head end: the rounds of a plan with what was taken in each, and the ticks that have passed. It takes the memory of the
/// plan's rounds and words when it begins, and no more however many frames come.
#[derive(Drop)]
pub struct HeadEnd {
    plan: Plan,
    ticks: u32,
    /// The rounds, one after another by groups.
    rounds: Vec<Round>,
    /// The words of the readings that were taken, by places.
    readings: Vec<Word>,
    /// The words of the answers that were taken, by places.
    answers: Vec<Word>,
    ghost keeps: { KeepsRounds plan rounds.items readings.items answers.items },
}

/// Whether the plan has this group and round.
fn is_round(plan: &Plan, group: u16, round: u32) -> bool
    ensures { result ≡ is_round plan.now group round }
{
    (group as usize) < plan.groups().len() && round < plan.rounds()
}

/// Where a round is kept.
fn page_at(plan: &Plan, group: u16, round: u32) -> usize
    requires { IsTrue (is_round plan.now group round) }
    ensures at { result ≡ page_at plan.now group round }
    ensures within { result < all_rounds plan.now }
    ensures limits { IsWithinLimits plan.now }
{
    group as usize * plan.rounds() as usize + round as usize
}

/// The round, closed where it is to be.
fn closed_where(round: Round, closed: bool) -> Round
    ensures { result ≡ closed_where closed round }
{
    let mut round = round;
    if closed {
        round.close();
    }
    round
}

/// The round, ended where it is to be and is closed.
fn ended_where(round: Round, ended: bool) -> Round
    ensures { result ≡ ended_where ended round }
{
    let mut round = round;
    if ended {
        round.end();
    }
    round
}

/// What is said where another frame of the place and kind was taken, by the two words.
fn repeated(taken: Word, came: Word) -> Reply
    ensures { result ≡ repeated_by taken came }
{
    if taken == came {
        Reply::Again
    } else {
        Reply::Differs
    }
}

/// Whether the frame was taken.
fn is_fresh(reply: Reply) -> bool
    ensures { result ≡ is_fresh reply }
{
    match reply {
        Reply::Fresh => true,
        Reply::Again | Reply::Differs | Reply::Late | Reply::Void | Reply::Refused(_) => false,
    }
}

impl HeadEnd {
    ghost use Rattle.head_end.specs.Head.{IsAfter, IsNow, Replies, Passes, Follows, KeepsReading, KeepsAnswer};

    /// A head end before the first frame and the first tick.
    pub fn new(alloc: Global, plan: &Plan) -> Result<HeadEnd, AllocError>
        ensures plan { IfOk result (λ head. head.plan ≡ plan.now) }
        ensures state { IfOk result (λ head. IsAfter [] head) }
    {
        Ok(HeadEnd {
            rounds: first_rounds(alloc, plan)?,
            readings: no_words(alloc, plan)?,
            answers: no_words(alloc, plan)?,
            plan: plan.try_copy()?,
            ticks: 0,
        })
    }

    /// The plan.
    pub fn plan(&self) -> &Plan
        ensures { result.now ≡ self.now.plan }
    {
        &self.plan
    }

    /// How many ticks have passed.
    pub fn ticks(&self) -> u32
        ensures { (journal : List Logged) → IsAfter journal self.now → result ≡ passed journal }
    {
        self.ticks
    }

    /// Takes a frame that came. A frame that isn't fresh changes nothing.
    pub fn take(&mut self, frame: &Frame) -> Reply
        ensures { (journal : List Logged) → IsAfter journal self.old → Replies self.old journal frame.now result self.new }
    {
        let tag = frame.tag;
        match tag.kind {
            Kind::Announcement => Reply::Refused(Refusal::Announcement),
            Kind::Reading => {
                if self.knows(tag) {
                    self.take_reading(frame)
                } else {
                    Reply::Refused(Refusal::Plan)
                }
            }
            Kind::Answer => {
                if self.knows(tag) {
                    self.take_answer(frame)
                } else {
                    Reply::Refused(Refusal::Plan)
                }
            }
        }
    }

    /// Lets a tick pass, and answers whether it did: after the last tick of the plan none does.
    pub fn pass(&mut self) -> bool
        ensures { (journal : List Logged) → IsAfter journal self.old → Passes self.old journal result self.new }
    {
        if self.ticks >= self.plan.rounds() + self.plan.w1() + self.plan.w2() {
            return false;
        }
        self.ticks += 1;
        true
    }

    /// Goes on by a line of a journal, and answers whether it can follow those before it. Another line changes nothing.
    pub fn follow(&mut self, line: &Logged) -> bool
        ensures { (journal : List Logged) → IsAfter journal self.old → Follows self.old journal line.now result self.new }
    {
        match line {
            Logged::Took(frame) => is_fresh(self.take(frame)),
            Logged::Passed => self.pass(),
        }
    }

    // Whether the plan has the place, and its meter is a member of the round.
    fn knows(&self, tag: Tag) -> bool
        ensures { result ≡ is_known self.now.plan tag }
    {
        self.plan.holds(tag) && self.plan.is_member(tag.group, tag.round, tag.meter)
    }

    // Whether the tick in which the round closes has passed.
    fn is_closed(&self, round: u32) -> bool
        ensures { result ≡ has_closed self.now.plan self.now.ticks round }
    {
        u64::from(round) + u64::from(self.plan.w1()) < u64::from(self.ticks)
    }

    /// Whether the tick in which the round ends has passed.
    pub(crate) fn is_ended(&self, round: u32) -> bool
        ensures { result ≡ has_ended self.now.plan self.now.ticks round }
    {
        u64::from(round) + u64::from(self.plan.w1()) + u64::from(self.plan.w2())
            < u64::from(self.ticks)
    }

    // The round as it is now.
    fn round_now(&self, group: u16, round: u32) -> Round
        requires { IsTrue (is_round self.now.plan group round) }
        ensures members { result.members ≡ members self.now.plan.groups group round }
        ensures limits { IsWithinLimits self.now.plan }
        ensures now { (journal : List Logged) → IsAfter journal self.now → IsNow self.now.plan journal group round result }
    {
        let kept = self.rounds[page_at(&self.plan, group, round)];
        ended_where(
            closed_where(kept, self.is_closed(round)),
            self.is_ended(round),
        )
    }

    /// The survivors of the round so far.
    pub(crate) fn survivors(&self, group: u16, round: u32) -> MeterSet
        requires { IsTrue (is_round self.now.plan group round) }
        ensures { (journal : List Logged) → IsAfter journal self.now → result ≡ survivors self.now.plan journal group round }
    {
        self.round_now(group, round).survivors()
    }

    /// What an end of the round would say.
    pub(crate) fn ending(&self, group: u16, round: u32) -> Ending
        requires { IsTrue (is_round self.now.plan group round) }
        ensures { (journal : List Logged) → IsAfter journal self.now → result ≡ ending self.now.plan journal group round }
    {
        let kept = self.rounds[page_at(&self.plan, group, round)];
        let mut closed = closed_where(kept, self.is_closed(round));
        closed.end()
    }

    /// The missing set of the round, where it is announced.
    pub(crate) fn announced(&self, group: u16, round: u32) -> Option<MeterSet>
        requires { IsTrue (is_round self.now.plan group round) }
        ensures { (journal : List Logged) → IsAfter journal self.now → result ≡ announced_set self.now.plan journal group round }
    {
        if !self.is_closed(round) {
            return None;
        }
        let survivors = self.round_now(group, round).survivors();
        if survivors.len() < floor_of(&self.plan, group) {
            return None;
        }
        Some(members(&self.plan, group, round).minus(survivors))
    }

    // Whether the round of the frame is announced with another set.
    fn has_other_set(&self, frame: &Frame) -> bool
        requires { is_known self.now.plan frame.now.tag ≡ true }
        ensures { (journal : List Logged) → IsAfter journal self.now → result ≡ has_other_set self.now.plan journal frame.now }
    {
        match self.announced(frame.tag.group, frame.tag.round) {
            None => false,
            Some(missing) => missing != frame.missing,
        }
    }

    // Keeps a round, and the word of the reading that was taken in it.
    fn keep_reading(&mut self, tag: Tag, round: Round, word: Word)
        requires known { is_known self.old.plan tag ≡ true }
        requires members { round.members ≡ members self.old.plan.groups tag.group tag.round }
        ensures { KeepsReading self.old tag round word self.new }
    {
        let page = page_at(&self.plan, tag.group, tag.round);
        let place = self.plan.place_at(tag.group, tag.round, tag.meter);
        self.rounds[page] = round;
        self.readings[place] = word;
    }

    // Keeps a round, and the word of the answer that was taken in it.
    fn keep_answer(&mut self, tag: Tag, round: Round, word: Word)
        requires known { is_known self.old.plan tag ≡ true }
        requires members { round.members ≡ members self.old.plan.groups tag.group tag.round }
        ensures { KeepsAnswer self.old tag round word self.new }
    {
        let page = page_at(&self.plan, tag.group, tag.round);
        let place = self.plan.place_at(tag.group, tag.round, tag.meter);
        self.rounds[page] = round;
        self.answers[place] = word;
    }

    // Takes the reading of a member.
    fn take_reading(&mut self, frame: &Frame) -> Reply
        requires kind { frame.now.tag.kind ≡ Reading }
        requires known { is_known self.old.plan frame.now.tag ≡ true }
        ensures { (journal : List Logged) → IsAfter journal self.old → Replies self.old journal frame.now result self.new }
    {
        let tag = frame.tag;
        let mut round = self.round_now(tag.group, tag.round);
        match round.take_reading(tag.meter, frame.word) {
            Verdict::Fresh => {
                self.keep_reading(tag, round, frame.word);
                Reply::Fresh
            }
            Verdict::Again => {
                let place = self.plan.place_at(tag.group, tag.round, tag.meter);
                repeated(self.readings[place], frame.word)
            }
            Verdict::Late => Reply::Late,
            Verdict::Void => Reply::Void,
        }
    }

    // Takes the answer of a member.
    fn take_answer(&mut self, frame: &Frame) -> Reply
        requires kind { frame.now.tag.kind ≡ Answer }
        requires known { is_known self.old.plan frame.now.tag ≡ true }
        ensures { (journal : List Logged) → IsAfter journal self.old → Replies self.old journal frame.now result self.new }
    {
        if self.has_other_set(frame) {
            return Reply::Refused(Refusal::Set);
        }
        let tag = frame.tag;
        let mut round = self.round_now(tag.group, tag.round);
        match round.take_answer(tag.meter, frame.word) {
            Verdict::Fresh => {
                self.keep_answer(tag, round, frame.word);
                Reply::Fresh
            }
            Verdict::Again => {
                let place = self.plan.place_at(tag.group, tag.round, tag.meter);
                repeated(self.answers[place], frame.word)
            }
            Verdict::Late => Reply::Late,
            Verdict::Void => Reply::Void,
        }
    }
}
