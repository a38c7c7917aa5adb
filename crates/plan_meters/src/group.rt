//! All frames that the meters of a group send at a tick: their readings, and their answers to what came.

ghost use Rattle.std.specs.Prelude.{◌≡◌, ◌++◌, ◌<◌, ◌≤◌, List, [], ◌∷◌, true, length, All, OnOk};
ghost use Rattle.group_plan.specs.declared.Kind.TheVariants.{Announcement};
ghost use Rattle.run_rows.specs.Ticks.{tag_of};
ghost use Rattle.plan_meters.specs.Came.{tags_of};
ghost use Rattle.plan_meters.specs.TickFrames.{was_taken, announced_set, answers_to, CanAnswer, AreAnswerable, is_announcement_in};
ghost use Rattle.plan_meters.specs.Sent.{readings_at, answers_at};
ghost use Rattle.plan_meters.specs.Hearers.{HearsToo, AreHearers};
ghost use Rattle.plan_meters.specs.Hidden.{IsOfOnePlan};
ghost use Rattle.meter_frames.specs.declared.Frame.{Frame};

use crate::frames::{add_answers, add_readings};
use crate::known::Known;
use event_schedule::members;
use group_plan::{Kind, Tag};
use mask_stream::Masks;
use meter_frames::Frame;
use missing_round::MeterSet;
use std::alloc::AllocError;

/// Whether it is an announcement of this round.
fn is_announcement(tag: Tag, group: u16, round: u32) -> bool
    ensures { result ≡ is_announcement_in group round tag }
{
    tag.group == group && tag.round == round && tag.kind == Kind::Announcement
}

/// The meters of a round to which an announcement came; some of those to which the same missing set came; and that set.
#[derive(Clone, Copy)]
pub(crate) struct Hearers {
    pub meters: MeterSet,
    pub alike: MeterSet,
    pub missing: MeterSet,
}

/// The meters that heard, with one that now hears of a set.
fn with_meter(hearers: Hearers, meter: u8, missing: MeterSet) -> Hearers
    ensures { HearsToo hearers meter missing result }
{
    let meters = hearers.meters.with(meter);
    if hearers.meters.has(meter) {
        Hearers { meters, ..hearers }
    } else if hearers.alike.len() == 0 {
        Hearers {
            meters,
            alike: MeterSet::empty().with(meter),
            missing,
        }
    } else if missing == hearers.missing {
        Hearers {
            meters,
            alike: hearers.alike.with(meter),
            missing,
        }
    } else {
        Hearers { meters, ..hearers }
    }
}

/// Adds the meter of this frame to those that heard, where it is an announcement of the round.
fn add_heard(hearers: &mut Hearers, frame: &Frame, group: u16, round: u32)
    ensures { (came : List Frame) → AreHearers came group round hearers.old → AreHearers (came ++ frame.now ∷ []) group round hearers.new }
{
    if is_announcement(frame.tag, group, round) {
        *hearers = with_meter(*hearers, frame.tag.meter, frame.missing);
    }
}

/// No meter has heard.
fn no_hearers() -> Hearers
    ensures { result ≡ record { meters = []; alike = []; missing = [] } }
{
    let none = MeterSet::empty();
    Hearers {
        meters: none,
        alike: none,
        missing: none,
    }
}

/// The meters of a round to which an announcement came.
fn hearers_in(came: &[Frame], group: u16, round: u32) -> Hearers
    ensures { AreHearers came.now group round result }
{
    let mut hearers = no_hearers();
    for frame in came {
        add_heard(&mut hearers, frame, group, round);
    }
    hearers
}

/// Adds the readings of a group in the round that starts at the tick.
pub fn add_reading_frames<M: Masks>(
    known: &Known<M>,
    group: u16,
    tick: u32,
    frames: &mut Vec<Frame>,
) -> Result<(), AllocError>
    requires known { IsOfOnePlan M.plan M.table known.now }
    requires group { group < length known.now.readings.now.plan.groups }
    ensures { OnOk result (frames.new.items ≡ frames.old.items ++ readings_at known.now.readings.now (M.table known.now.masks.now) tick group) }
{
    if tick >= known.readings.plan().rounds() {
        return Ok(());
    }
    let members = members(known.readings.plan(), group, tick);
    add_readings(known, group, tick, &members, frames)
}

/// No frame that came is of an earlier round.
fn oldest_round(came: &[Frame]) -> u32
    ensures { All (λ f. result ≤ f.tag.round) came.now }
{
    let mut oldest = u32::MAX;
    for frame in came {
        oldest = oldest.min(frame.tag.round);
    }
    oldest
}

/// Adds the answers of a round to the announcements that came, none of which is of a round before the oldest.
fn add_answers_of<M: Masks>(
    known: &Known<M>,
    came: &[Frame],
    oldest: u32,
    group: u16,
    round: u32,
    frames: &mut Vec<Frame>,
) -> Result<(), AllocError>
    requires known { IsOfOnePlan M.plan M.table known.now }
    requires group { group < length known.now.readings.now.plan.groups }
    requires round { round < known.now.readings.now.plan.rounds }
    requires oldest { All (λ f. oldest ≤ f.tag.round) came.now }
    requires can { (i : _) → was_taken (tags_of came.now) (tag_of Announcement group round i) ≡ true → CanAnswer known.now.readings.now.plan group round i (announced_set came.now (tag_of Announcement group round i)) }
    ensures { OnOk result (frames.new.items ≡ frames.old.items ++ answers_to known.now.readings.now.plan.groups (M.table known.now.masks.now) came.now group round) }
{
    if round < oldest {
        return Ok(());
    }
    let hearers = hearers_in(came, group, round);
    if hearers.meters.len() == 0 {
        return Ok(());
    }
    add_answers(known, group, round, &hearers, came, frames)
}

/// Adds the answers of a group to the announcements that came: their rounds closed at most 16 ticks before.
pub fn add_answer_frames<M: Masks>(
    known: &Known<M>,
    came: &[Frame],
    group: u16,
    tick: u32,
    frames: &mut Vec<Frame>,
) -> Result<(), AllocError>
    requires known { IsOfOnePlan M.plan M.table known.now }
    requires group { group < length known.now.readings.now.plan.groups }
    requires came { AreAnswerable known.now.readings.now.plan tick came.now }
    ensures { OnOk result (frames.new.items ≡ frames.old.items ++ answers_at known.now.readings.now.plan (M.table known.now.masks.now) came.now group) }
{
    let closed = tick.saturating_sub(known.readings.plan().w1());
    let until = closed.min(known.readings.plan().rounds());
    let first = closed.saturating_sub(16).min(until);
    let oldest = oldest_round(came);
    for round in first..until {
        add_answers_of(known, came, oldest, group, round, frames)?;
    }
    Ok(())
}
