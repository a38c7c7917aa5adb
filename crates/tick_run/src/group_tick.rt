//! A tick of one group: all that concerns it, and no other group.

ghost use Rattle.std.specs.Prelude.{◌≡◌, ◌+◌, ◌<◌, ◌≤◌, ◌-◌, ◌^◌, ◌++◌, [], ◌∷◌, ℕ, List, All, Some, None, length, OnOk, IfOk, if◌then◌else◌};
ghost use Rattle.missing_round.specs.Sets.{IsSet};
ghost use Rattle.group_plan.specs.Tables.{PresenceView, presence_of};
ghost use Rattle.meter_frames.specs.Frames.{FitsKind, IsFrame};
ghost use Rattle.event_schedule.specs.declared.Entry.{Entry as EntryView};
ghost use Rattle.event_schedule.specs.declared.Event.{Event};
ghost use Rattle.event_schedule.specs.declared.Line.{Line as LineView};
ghost use Rattle.group_book.specs.Replay.{Replays, CanCall, book_at};
ghost use Rattle.run_rows.specs.Ticks.{clock_of};
ghost use Rattle.plan_meters.specs.Came.{frame_in, frames_in, IsSpelling};
ghost use Rattle.plan_meters.specs.GroupMeters.{AreGroupMeters};
ghost use Rattle.plan_meters.specs.Hidden.{IsOfOnePlan};
ghost use Rattle.plan_meters.specs.Meters.{announcements, AreTold};
ghost use Rattle.plan_meters.specs.Sent.{readings_at, answers_at};
ghost use Rattle.plan_meters.specs.TickFrames.{AreAnswerable};
ghost use Rattle.tick_run.specs.Jobs.{announcements_due};
ghost use Rattle.tick_run.specs.Running.{is_due, calls_of};
ghost use Rattle.tick_run.specs.GroupRuns.{Calls, IsTakeable, takes_of, CanTakeAll, close_of, end_of, AreSendable, CanSendFrames, SendsAll, CanHearFrames, posted_all, IsGroupAt, CanTick, GroupTicks};

use crate::announcements::add_announcements;
use event_schedule::members;
use group_book::GroupPages;
use group_plan::{Plan, Presence};
use link_lanes::Fate;
use lossy_link::Link;
use mask_stream::Masks;
use meter_frames::{Frame, decode, encode};
use missing_round::MeterSet;
use plan_meters::{GroupMeters, Known, add_answer_frames, add_reading_frames};
use std::alloc::{AllocError, Global};
use transcript_log::Lines;

/// What a group has between ticks beside its pages of the book: its meters, its copies on their way, the frames that it sent last with
/// the fates that they met, and the lines of its last tick.
#[derive(Drop)]
pub(crate) struct GroupWork {
    pub meters: GroupMeters,
    pub link: Link,
    pub frames: Vec<Frame>,
    pub fates: Vec<Fate>,
    /// Lines of Takes, then of Closes and Ends, then of Sends.
    pub lines: Lines,
    /// Where the lines of Closes and Ends begin, and where those of Sends begin.
    pub closed_from: usize,
    pub sent_from: usize,
    /// Whether there was no memory for its last tick.
    pub failed: bool,
}

// ---- the copies

/// Sends copies of frames of a tick on their way, by the fates that they met.
fn post_all(link: &mut Link, frames: &[Frame], fates: &[Fate], tick: u32) -> Result<(), AllocError>
    requires tick { tick < 2 ^ 31 }
    requires long { length fates.now ≡ length frames.now }
    requires fits { All (λ f. FitsKind f.tag.kind f.missing f.word) frames.now }
    ensures { OnOk result (link.new ≡ posted_all tick frames.now fates.now link.old) }
{
    for at in 0..frames.len() {
        link.post(tick, encode(&frames[at]), fates[at])?;
    }
    Ok(())
}

/// The frame of bytes that came.
fn frame_of(bytes: &[u8]) -> Frame
    requires { IsSpelling bytes.now }
    ensures { result ≡ frame_in bytes.now }
{
    match decode(bytes) {
        Ok(frame) => frame,
        Err(_) => unreachable!(),
    }
}

/// The frames of copies.
fn frames_of(alloc: Global, copies: &[[u8; 52]]) -> Result<Vec<Frame>, AllocError>
    requires { All IsSpelling copies.now }
    ensures { IfOk result (λ came. came.items ≡ frames_in copies.now) }
{
    let mut came = Vec::with_capacity(alloc, copies.len())?;
    for bytes in copies {
        came.push(frame_of(bytes))?;
    }
    Ok(came)
}

// ---- the head end

/// Takes a frame that stands posted under its tag.
fn take_one(pages: &mut GroupPages, frame: &Frame, lines: &mut Lines)
    requires can { CanTakeAll pages.old (frame.now ∷ []) }
    requires spare { 0 < lines.old.spare }
    ensures takes { (p : PresenceView) (j : List LineView) → Replays p j pages.old → IsTakeable p pages.old.group j frame.now → Calls p j (takes_of (frame.now ∷ [])) lines.old pages.old.group pages.new lines.new }
    ensures spare { lines.old.spare ≤ lines.new.spare + 1 }
{
    let _verdict = pages.take(frame, lines);
}

/// Takes frames in order.
fn take_all(pages: &mut GroupPages, came: &[Frame], lines: &mut Lines)
    requires can { CanTakeAll pages.old came.now }
    requires spare { length came.now ≤ lines.old.spare }
    ensures { (p : PresenceView) (j : List LineView) → Replays p j pages.old → All (IsTakeable p pages.old.group j) came.now → Calls p j (takes_of came.now) lines.old pages.old.group pages.new lines.new }
{
    for frame in came {
        take_one(pages, frame, lines);
    }
}

/// The round of which the window ends at the tick.
fn due_round(rounds: u32, window: u32, tick: u32) -> Option<u32>
    ensures { result ≡ (if is_due rounds window tick then Some (tick - window) else None) }
{
    if window <= tick && tick - window < rounds {
        Some(tick - window)
    } else {
        None
    }
}

/// Closes a round, where there is one.
fn close_one(pages: &mut GroupPages, round: Option<u32>, lines: &mut Lines)
    requires can { CanCall pages.old }
    requires round { (r : ℕ) → round ≡ Some r → r < pages.old.rounds }
    requires spare { 0 < lines.old.spare }
    ensures calls { (p : PresenceView) (j : List LineView) → Replays p j pages.old → Calls p j (close_of pages.old.group round) lines.old pages.old.group pages.new lines.new }
    ensures spare { lines.old.spare ≤ lines.new.spare + 1 }
{
    if let Some(round) = round {
        let _closing = pages.close(round, lines);
    }
}

/// Ends a round, where there is one.
fn end_one(pages: &mut GroupPages, round: Option<u32>, lines: &mut Lines)
    requires can { CanCall pages.old }
    requires round { (r : ℕ) → round ≡ Some r → r < pages.old.rounds }
    requires spare { 0 < lines.old.spare }
    ensures { (p : PresenceView) (j : List LineView) → Replays p j pages.old → Calls p j (end_of pages.old.group round) lines.old pages.old.group pages.new lines.new }
{
    if let Some(round) = round {
        let _ending = pages.end(round, lines);
    }
}

/// Closes and ends the rounds that are due at the tick.
fn close_and_end(
    plan: &Plan,
    pages: &mut GroupPages,
    tick: u32,
    lines: &mut Lines,
) -> Result<(), AllocError>
    requires can { CanCall pages.old }
    requires rounds { pages.old.rounds ≡ plan.now.rounds }
    ensures { (p : PresenceView) (j : List LineView) → Replays p j pages.old → OnOk result (Calls p j (calls_of (clock_of plan.now) tick pages.old.group) lines.old pages.old.group pages.new lines.new) }
{
    lines.reserve(2)?;
    let rounds = plan.rounds();
    let closes = plan.w1();
    let ends = closes + plan.w2();
    close_one(pages, due_round(rounds, closes, tick), lines);
    end_one(pages, due_round(rounds, ends, tick), lines);
    Ok(())
}

// ---- the meters

/// The announcements among the frames that came, of which the meters have heard.
fn hear_all(
    alloc: Global,
    meters: &mut GroupMeters,
    came: &[Frame],
) -> Result<Vec<Frame>, AllocError>
    requires can { CanHearFrames meters.old.meters.items came.now }
    ensures meters { (p : PresenceView) (past : List Event) (t g : ℕ) → All (λ f. f.tag.group ≡ g) came.now → AreGroupMeters p past t g meters.old.meters.items → AreTold p past t came.now → OnOk result (AreGroupMeters p past t g meters.new.meters.items) }
    ensures answered { IfOk result (λ heard. heard.items ≡ announcements came.now) }
{
    let mut heard = Vec::new(alloc);
    for frame in came {
        if meters.hear(frame) {
            heard.push(*frame)?;
        }
    }
    Ok(heard)
}

// ---- the Sends

/// Adds the announcements of the round that closed at the tick.
fn announce(
    plan: &Plan,
    pages: &GroupPages,
    tick: u32,
    frames: &mut Vec<Frame>,
) -> Result<(), AllocError>
    requires can { CanCall pages.now }
    requires rounds { pages.now.rounds ≡ plan.now.rounds }
    requires group { pages.now.group < length plan.now.groups }
    ensures { (p : PresenceView) (j : List LineView) → Replays p j pages.now → p.plan ≡ plan.now → OnOk result (frames.new.items ≡ frames.old.items ++ announcements_due (book_at p j 0) tick pages.now.group) }
{
    let Some(round) = tick.checked_sub(plan.w1()) else {
        return Ok(());
    };
    if round >= plan.rounds() {
        return Ok(());
    }
    let Some(missing) = pages.announced(round) else {
        return Ok(());
    };
    let group = pages.group();
    let members = members(plan, group, round);
    add_announcements(group, round, &members, &missing, frames)
}

/// Adds the frames that are due at the tick: readings, announcements, and answers to the announcements that were heard.
fn add_due<M: Masks>(
    known: &Known<M>,
    pages: &GroupPages,
    heard: &[Frame],
    tick: u32,
    frames: &mut Vec<Frame>,
) -> Result<(), AllocError>
    requires known { IsOfOnePlan M.plan M.table known.now }
    requires can { CanCall pages.now }
    requires rounds { pages.now.rounds ≡ known.now.readings.now.plan.rounds }
    requires group { pages.now.group < length known.now.readings.now.plan.groups }
    requires heard { AreAnswerable known.now.readings.now.plan tick heard.now }
    ensures { (p : PresenceView) (j : List LineView) → Replays p j pages.now → p.plan ≡ known.now.readings.now.plan →
        OnOk result (frames.new.items ≡ frames.old.items ++ readings_at known.now.readings.now (M.table known.now.masks.now) tick pages.now.group
        ++ announcements_due (book_at p j 0) tick pages.now.group ++ answers_at known.now.readings.now.plan (M.table known.now.masks.now) heard.now pages.now.group) }
{
    let group = pages.group();
    add_reading_frames(known, group, tick, frames)?;
    announce(known.readings.plan(), pages, tick, frames)?;
    add_answer_frames(known, heard, group, tick, frames)
}

/// What the types of a tag's numbers say of them.
fn tag_fits(group: u16, round: u32, meter: u8)
    ensures group { group < 2 ^ 16 }
    ensures round { round < 2 ^ 32 }
    ensures meter { meter < 256 }
{}

/// What the type says of a set.
fn set_is(set: MeterSet)
    ensures { IsSet set }
{
    let _bits = set.bits();
}

/// What the type says of a number.
fn number_is(number: u64)
    ensures { number < 2 ^ 64 }
{}

/// What the types of a frame's parts say of it.
fn frame_is(frame: &Frame)
    requires { FitsKind frame.now.tag.kind frame.now.missing frame.now.word }
    ensures { IsFrame frame.now }
{
    tag_fits(frame.tag.group, frame.tag.round, frame.tag.meter);
    set_is(frame.missing);
    number_is(frame.word.value());
}

/// Sends a frame.
fn send_one(presence: &Presence, pages: &mut GroupPages, frame: &Frame, lines: &mut Lines)
    requires can { CanSendFrames presence.now pages.old (frame.now ∷ []) }
    requires spare { 0 < lines.old.spare }
    ensures sends { (j : List LineView) → Replays presence.now j pages.old → AreSendable presence.now pages.old.group j (frame.now ∷ []) → SendsAll presence.now j (frame.now ∷ []) lines.old pages.old.group pages.new lines.new }
    ensures spare { lines.old.spare ≤ lines.new.spare + 1 }
{
    frame_is(frame);
    let _answer = pages.send(presence, *frame, lines);
}

/// Sends frames in order.
fn send_all(presence: &Presence, pages: &mut GroupPages, frames: &[Frame], lines: &mut Lines)
    requires can { CanSendFrames presence.now pages.old frames.now }
    requires spare { length frames.now ≤ lines.old.spare }
    ensures { (j : List LineView) → Replays presence.now j pages.old → AreSendable presence.now pages.old.group j frames.now → SendsAll presence.now j frames.now lines.old pages.old.group pages.new lines.new }
{
    for frame in frames {
        send_one(presence, pages, frame, lines);
    }
}

// ---- a tick

/// One tick of a group: the copies of its frames of the tick before go off by their fates; what came is taken, and what is due is closed
/// and ended; its meters read, hear and answer; and its frames are sent. They wait for their fates.
pub(crate) fn group_tick<M: Masks>(
    known: &Known<M>,
    presence: &Presence,
    pages: &mut GroupPages,
    work: &mut GroupWork,
    tick: u32,
) -> Result<(), AllocError>
    requires known { IsOfOnePlan M.plan M.table known.now }
    requires presence { presence.now ≡ presence_of known.now.readings.now }
    requires can { CanTick known.now.readings.now (M.table known.now.masks.now) tick pages.old work.old }
    requires tick { tick < 2 ^ 31 }
    ensures { (entries : List EntryView) → IsGroupAt known.now.readings.now (M.table known.now.masks.now) tick entries work.old.fates.items pages.old work.old →
        OnOk result (GroupTicks known.now.readings.now (M.table known.now.masks.now) tick entries pages.old.group pages.new work.new) }
{
    let alloc = *work.frames.allocator();
    let group = pages.group();
    post_all(
        &mut work.link,
        &work.frames,
        &work.fates,
        tick.saturating_sub(1),
    )?;
    let copies = work.link.due(tick)?;
    let came = frames_of(alloc, &copies)?;
    work.lines.clear();
    work.lines.reserve(came.len() as u64)?;
    take_all(pages, &came, &mut work.lines);
    work.closed_from = work.lines.len();
    close_and_end(known.readings.plan(), pages, tick, &mut work.lines)?;
    work.sent_from = work.lines.len();
    work.meters.read(known.readings, group, tick);
    let heard = hear_all(alloc, &mut work.meters, &came)?;
    work.frames.clear();
    add_due(known, pages, &heard, tick, &mut work.frames)?;
    work.lines.reserve(work.frames.len() as u64)?;
    send_all(presence, pages, &work.frames, &mut work.lines);
    Ok(())
}
