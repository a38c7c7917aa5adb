//! The judge of entries: where their run stands, and whether the next entry can come.

ghost use Rattle.std.specs.Prelude.{◌≡◌, ◌+◌, ◌<◌, ◌≤◌, ◌^◌, [], ◌∷◌, ◌↔◌, drop, IsTrue, IfOk, List, false};
ghost use Rattle.group_plan.specs.declared.Kind.TheVariants.{Reading};
ghost use Rattle.group_plan.specs.declared.Tag.{Tag as TagView};
ghost use Rattle.group_plan.specs.Plans.{PlanView, is_place, last_tick};
ghost use Rattle.event_schedule.specs.declared.Entry.{Entry as EntryView};
ghost use Rattle.event_schedule.specs.declared.Event.TheVariants.{Send as SendEvent, Take as TakeEvent, Close as CloseEvent, End as EndEvent};
ghost use Rattle.event_schedule.specs.Events.{event_of};
ghost use Rattle.event_schedule.specs.Transcripts.{Fits};
ghost use Rattle.run_course.specs.Beginnings.{is_void_send};
ghost use Rattle.run_course.specs.Courses.{IsSound, Keeps, IsEntered, IsReached, SendsBegin, TickBegins, Advances, Judges, JudgeEnds, IsReadingNow, IsBelowFirst, MayCall, MaySend, WholeEnds, Decides, stage_of};
ghost use Rattle.run_course.specs.Sends.{rank};
ghost use Rattle.run_course.specs.declared.course.Phase.TheVariants.{Sends};

use crate::marks::note;
use crate::owed::owed;
use crate::waiting::{
    Arrival, due_at, due_elsewhere, groups_due, is_same, post, remove_copy, remove_group,
};
use event_schedule::{Entry, Line};
use group_plan::{Kind, Plan, Readings, Tag};
use link_lanes::Fate;
use std::alloc::{AllocError, Global};

/// The phases of a tick: copies are taken, rounds close and end, frames are sent.
#[derive(Clone, Copy, Drop)]
pub(crate) enum Phase {
    Takes,
    Rounds,
    Sends,
}

/// Where the run of the entries so far stands.
#[derive(Drop)]
pub(crate) struct Course {
    alloc: Global,
    tick: u32,
    phase: Phase,
    /// The copies that are still to be taken in this tick, and those of later ticks.
    due: Vec<Tag>,
    later: Vec<Arrival>,
    /// The groups whose round is still to be closed in this tick, and ended.
    closing: Vec<u16>,
    ending: Vec<u16>,
    /// What is to be sent in this tick besides readings, and how many of it were sent.
    owed: Vec<Tag>,
    sent: usize,
    /// The least rank that the next Send may have.
    least: u64,
    /// The ticks at which readings and announcements came.
    came: Readings,
    heard: Readings,
}

// The place of a Send among those of its tick.
fn rank(tag: Tag) -> u64
    ensures { result ≡ rank tag }
{
    let kind = match tag.kind {
        Kind::Reading => 0,
        Kind::Announcement => 1,
        Kind::Answer => 2,
    };
    u64::from(tag.group) * 3145728
        + kind * 1048576
        + u64::from(tag.round) * 256
        + u64::from(tag.meter)
}

impl Course {
    /// A run of the plan before its first entry.
    pub(crate) fn new(alloc: Global, plan: &Plan) -> Result<Course, AllocError>
        ensures keeps { IfOk result (λ course. Keeps plan.now [] course) }
        ensures entered { IfOk result (λ course. IsEntered [] course) }
        ensures reached { IfOk result (λ course. IsReached [] course) }
        ensures sound { IfOk result (λ course. IsSound course) }
    {
        let _rounds = plan.rounds();
        Ok(Course {
            alloc,
            tick: 0,
            phase: Phase::Takes,
            due: Vec::new(alloc),
            later: Vec::new(alloc),
            closing: groups_due(alloc, plan, plan.w1(), 0)?,
            ending: groups_due(alloc, plan, plan.w1() + plan.w2(), 0)?,
            owed: Vec::new(alloc),
            sent: 0,
            least: 0,
            came: Readings::new(alloc, plan)?,
            heard: Readings::new(alloc, plan)?,
        })
    }

    // Whether all came that comes before the Sends of the tick.
    fn may_send(&self) -> bool
        ensures { IsTrue result ↔ MaySend self.now }
    {
        self.due.is_empty() && self.closing.is_empty() && self.ending.is_empty()
    }

    // The Sends of the tick begin, where all that comes before them came.
    fn begin_sends(&mut self) -> Result<bool, AllocError>
        requires { IsSound self.old }
        ensures begins { (plan : PlanView) (entries : List EntryView) → Keeps plan entries self.old → SendsBegin plan entries self.old result self.new }
        ensures sound { IsSound self.new }
        ensures tick { self.new.tick ≡ self.old.tick }
        ensures plan { self.new.came.plan ≡ self.old.came.plan }
    {
        if let Phase::Sends = self.phase {
            return Ok(true);
        }
        if !self.may_send() {
            return Ok(false);
        }
        let _limits = self.came.plan().rounds();
        self.owed = owed(self.alloc, &self.came, &self.heard, self.tick)?;
        self.sent = 0;
        self.least = 0;
        self.phase = Phase::Sends;
        Ok(true)
    }

    // The next tick begins, where this one is whole.
    fn next_tick(&mut self) -> Result<bool, AllocError>
        requires sound { IsSound self.old }
        requires tick { self.old.tick ≤ last_tick self.old.came.plan }
        ensures begins { (plan : PlanView) (entries : List EntryView) → Keeps plan entries self.old → TickBegins plan entries self.old result self.new }
        ensures sound { IsSound self.new }
        ensures moved { IfOk result (λ went. IsTrue went → self.new.tick ≡ self.old.tick + 1) }
        ensures plan { self.new.came.plan ≡ self.old.came.plan }
    {
        if !self.begin_sends()? {
            return Ok(false);
        }
        let _limits = self.came.plan().rounds();
        if self.sent < self.owed.len() {
            return Ok(false);
        }
        let tick = self.tick + 1;
        self.due = due_at(self.alloc, &self.later, tick)?;
        self.later = due_elsewhere(self.alloc, &self.later, tick)?;
        let plan = self.came.plan();
        self.closing = groups_due(self.alloc, plan, plan.w1(), tick)?;
        self.ending = groups_due(self.alloc, plan, plan.w1() + plan.w2(), tick)?;
        self.tick = tick;
        self.phase = Phase::Takes;
        Ok(true)
    }

    // A copy is taken, where it is due.
    fn take(&mut self, tag: Tag) -> bool
        requires sound { IsSound self.old }
        requires tick { self.old.tick ≤ last_tick self.old.came.plan }
        requires place { IsTrue (is_place self.old.came.plan tag.group tag.round tag.meter) }
        ensures judges { (plan : PlanView) (entries : List EntryView) (e : EntryView) → Keeps plan entries self.old → IsEntered entries self.old → e.tick ≡ self.old.tick → event_of e.line ≡ TakeEvent tag → e.fate ≡ [] → Judges plan entries e result self.new }
        ensures sound { IsSound self.new }
    {
        match self.phase {
            Phase::Takes => {}
            Phase::Rounds => return false,
            Phase::Sends => return false,
        }
        if !remove_copy(&mut self.due, tag) {
            return false;
        }
        note(&mut self.came, &mut self.heard, tag, self.tick);
        true
    }

    // Whether rounds may close and end now.
    fn may_call(&self) -> bool
        ensures { IsTrue result ↔ MayCall self.now }
    {
        match self.phase {
            Phase::Takes => self.due.is_empty(),
            Phase::Rounds => self.due.is_empty(),
            Phase::Sends => false,
        }
    }

    // A round closes, where it is due.
    fn close(&mut self, group: u16, round: u32) -> bool
        requires sound { IsSound self.old }
        requires tick { self.old.tick ≤ last_tick self.old.came.plan }
        requires round { round < self.old.came.plan.rounds }
        ensures judges { (plan : PlanView) (entries : List EntryView) (e : EntryView) → Keeps plan entries self.old → IsEntered entries self.old → e.tick ≡ self.old.tick → event_of e.line ≡ CloseEvent group round → e.fate ≡ [] → Judges plan entries e result self.new }
        ensures sound { IsSound self.new }
    {
        let _limits = self.came.plan().rounds();
        if !self.may_call() {
            return false;
        }
        let due = round + self.came.plan().w1();
        if due != self.tick {
            return false;
        }
        if !remove_group(&mut self.closing, group) {
            return false;
        }
        self.phase = Phase::Rounds;
        true
    }

    // A round ends, where it is due.
    fn end(&mut self, group: u16, round: u32) -> bool
        requires sound { IsSound self.old }
        requires tick { self.old.tick ≤ last_tick self.old.came.plan }
        requires round { round < self.old.came.plan.rounds }
        ensures judges { (plan : PlanView) (entries : List EntryView) (e : EntryView) → Keeps plan entries self.old → IsEntered entries self.old → e.tick ≡ self.old.tick → event_of e.line ≡ EndEvent group round → e.fate ≡ [] → Judges plan entries e result self.new }
        ensures sound { IsSound self.new }
    {
        let _limits = self.came.plan().rounds();
        if !self.may_call() {
            return false;
        }
        let due = round + (self.came.plan().w1() + self.came.plan().w2());
        if due != self.tick {
            return false;
        }
        if !remove_group(&mut self.ending, group) {
            return false;
        }
        self.phase = Phase::Rounds;
        true
    }

    // Whether this rank is below that of what is to be sent next besides readings.
    fn is_before_owed(&self, rank: u64) -> bool
        ensures { Decides (IsBelowFirst rank (drop self.now.sent self.now.owed.items)) result }
    {
        match self.owed.get(self.sent) {
            Some(next) => rank < self::rank(*next),
            None => true,
        }
    }

    // Whether a reading may be sent now.
    fn is_reading_now(&self, tag: Tag) -> bool
        requires { IsTrue (is_place self.now.came.plan tag.group tag.round tag.meter) }
        ensures { Decides (IsReadingNow self.now.came.plan (stage_of self.now) tag) result }
    {
        tag.round == self.tick
            && self.came.plan().is_member(tag.group, tag.round, tag.meter)
            && self.least <= rank(tag)
            && self.is_before_owed(rank(tag))
    }

    // Whether this is to be sent next besides readings.
    fn is_owed_now(&self, tag: Tag) -> bool
        ensures { Decides ((rest : List TagView) × (drop self.now.sent self.now.owed.items ≡ tag ∷ rest)) result }
    {
        match self.owed.get(self.sent) {
            Some(next) => is_same(*next, tag),
            None => false,
        }
    }

    // A reading is sent, where it may be now.
    fn send_reading(&mut self, tag: Tag, fate: Fate) -> Result<bool, AllocError>
        requires sound { IsSound self.old }
        requires tick { self.old.tick ≤ last_tick self.old.came.plan }
        requires place { IsTrue (is_place self.old.came.plan tag.group tag.round tag.meter) }
        ensures judges { (plan : PlanView) (entries : List EntryView) (e : EntryView) → Keeps plan entries self.old → self.old.phase ≡ Sends → tag.kind ≡ Reading → e.tick ≡ self.old.tick → event_of e.line ≡ SendEvent tag → e.fate ≡ fate → is_void_send e.line ≡ false → JudgeEnds plan entries e result self.new }
        ensures sound { IsSound self.new }
    {
        let _delays = fate.delays();
        let _limits = self.came.plan().rounds();
        if !self.is_reading_now(tag) {
            return Ok(false);
        }
        self.least = rank(tag) + 1;
        post(&mut self.later, self.tick, tag, fate)?;
        Ok(true)
    }

    // What is owed is sent, where it is next.
    fn send_owed(&mut self, tag: Tag, fate: Fate) -> Result<bool, AllocError>
        requires sound { IsSound self.old }
        requires tick { self.old.tick ≤ last_tick self.old.came.plan }
        ensures judges { (plan : PlanView) (entries : List EntryView) (e : EntryView) → Keeps plan entries self.old → self.old.phase ≡ Sends → (tag.kind ≡ Reading → ⊥) → e.tick ≡ self.old.tick → event_of e.line ≡ SendEvent tag → e.fate ≡ fate → is_void_send e.line ≡ false → JudgeEnds plan entries e result self.new }
        ensures sound { IsSound self.new }
    {
        let _delays = fate.delays();
        let _limits = self.came.plan().rounds();
        if !self.is_owed_now(tag) {
            return Ok(false);
        }
        self.sent += 1;
        self.least = rank(tag) + 1;
        post(&mut self.later, self.tick, tag, fate)?;
        Ok(true)
    }

    // A frame is sent, where its turn has come.
    fn send(&mut self, tag: Tag, fate: Fate) -> Result<bool, AllocError>
        requires sound { IsSound self.old }
        requires tick { self.old.tick ≤ last_tick self.old.came.plan }
        requires place { IsTrue (is_place self.old.came.plan tag.group tag.round tag.meter) }
        ensures judges { (plan : PlanView) (entries : List EntryView) (e : EntryView) → Keeps plan entries self.old → e.tick ≡ self.old.tick → event_of e.line ≡ SendEvent tag → e.fate ≡ fate → is_void_send e.line ≡ false → JudgeEnds plan entries e result self.new }
        ensures sound { IsSound self.new }
    {
        if !self.begin_sends()? {
            return Ok(false);
        }
        match tag.kind {
            Kind::Reading => self.send_reading(tag, fate),
            Kind::Announcement => self.send_owed(tag, fate),
            Kind::Answer => self.send_owed(tag, fate),
        }
    }

    // Ticks are ended and begun up to this one.
    fn advance(&mut self, tick: u32) -> Result<bool, AllocError>
        requires sound { IsSound self.old }
        requires tick { tick ≤ last_tick self.old.came.plan + 1 }
        ensures advances { (plan : PlanView) (entries : List EntryView) → Keeps plan entries self.old → IsEntered entries self.old → self.old.tick ≤ tick → Advances plan entries tick result self.new }
        ensures sound { IsSound self.new }
        ensures moved { IfOk result (λ went. IsTrue went → self.old.tick ≤ tick → self.new.tick ≡ tick) }
        ensures plan { self.new.came.plan ≡ self.old.came.plan }
    {
        while self.tick < tick {
            if !self.next_tick()? {
                return Ok(false);
            }
        }
        Ok(true)
    }

    // The entry of an event at the tick of now.
    fn judge_now(&mut self, entry: &Entry) -> Result<bool, AllocError>
        requires sound { IsSound self.old }
        requires tick { self.old.tick ≤ last_tick self.old.came.plan }
        requires fits { Fits self.old.came.plan entry.now }
        ensures judges { (plan : PlanView) (entries : List EntryView) → Keeps plan entries self.old → IsEntered entries self.old → entry.now.tick ≡ self.old.tick → JudgeEnds plan entries entry.now result self.new }
        ensures sound { IsSound self.new }
    {
        match entry.line {
            Line::Take { tag, .. } => Ok(self.take(tag)),
            Line::Close { group, round, .. } => Ok(self.close(group, round)),
            Line::End { group, round, .. } => Ok(self.end(group, round)),
            Line::Send { frame: None, .. } => Ok(false),
            Line::Send {
                tag,
                frame: Some(_),
            } => self.send(tag, entry.fate),
        }
    }

    /// Whether the entry can come after those so far.
    pub(crate) fn judge(&mut self, entry: &Entry) -> Result<bool, AllocError>
        requires sound { IsSound self.old }
        requires fits { Fits self.old.came.plan entry.now }
        ensures judges { (plan : PlanView) (entries : List EntryView) → Keeps plan entries self.old → IsEntered entries self.old → IsReached entries self.old → JudgeEnds plan entries entry.now result self.new }
        ensures sound { IsSound self.new }
    {
        if entry.tick < self.tick {
            return Ok(false);
        }
        if self.came.plan().last_tick() < entry.tick {
            return Ok(false);
        }
        if !self.advance(entry.tick)? {
            return Ok(false);
        }
        self.judge_now(entry)
    }

    /// Whether nothing is still to come.
    pub(crate) fn is_whole(&mut self) -> Result<bool, AllocError>
        requires { IsSound self.old }
        ensures { (plan : PlanView) (entries : List EntryView) → Keeps plan entries self.old → IsEntered entries self.old → WholeEnds plan entries result }
    {
        let _limits = self.came.plan().rounds();
        let last = self.came.plan().last_tick();
        self.advance(last + 1)
    }
}
