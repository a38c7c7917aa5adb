//! The ticks of a run, group by group.

ghost use Rattle.std.specs.Prelude.{◌≡◌, ◌+◌, ◌<◌, ◌≤◌, ◌^◌, ℕ, List, All, Some, false, length, OnOk};
ghost use Rattle.std.specs.List.{AllZip, list_any};
ghost use Rattle.group_plan.specs.Tables.{presence_of};
ghost use Rattle.link_lanes.specs.Racks.{slots, posts_of, spare_of, HasRoom};
ghost use Rattle.event_schedule.specs.declared.Entry.{Entry as EntryView};
ghost use Rattle.plan_meters.specs.Hidden.{IsOfOnePlan};
ghost use Rattle.shared_book.specs.Ends.{opening};
ghost use Rattle.tick_run.specs.Progress.{IsDelay};
ghost use Rattle.tick_run.specs.Runs.{IsOfRun};
ghost use Rattle.tick_run.specs.ByGroups.{IsAt, IsMade, CanShare, AllStand, CanTickAll, AllMade, Passes, PassesBehind, frames_by, fates_by, Fated, IsButFates};

use crate::context::Context;
use crate::group_tick::group_tick;
use crate::running::Group;
use collector_workers::Gate;
use link_lanes::{Fate, Lane, Rack};
use mask_stream::Masks;
use meter_frames::Frame;
use plan_meters::Known;
use shared_book::SharedBook;
use std::alloc::AllocError;
use std::sync::Wait;
use std::thread;
use std::thread::Threads;

// ---- the ticks of the groups

/// Makes the tick of a group: checks its pages out of the shared book, and in again with the lines of the tick. No other pass makes
/// commits in the group, so that the pages are always the group's own.
fn tick_shared<R: Wait, M: Masks>(
    rt: &R,
    known: &Known<M>,
    shared: &SharedBook,
    group: &mut Group,
    tick: u32,
) -> Result<(), AllocError>
    requires known { IsOfOnePlan M.plan M.table known.now }
    requires presence { (opening shared.now).presence ≡ presence_of known.now.readings.now }
    requires can { CanShare shared.now known.now.readings.now (M.table known.now.masks.now) tick group.old }
    requires tick { tick < 2 ^ 31 }
    ensures { (entries : List EntryView) (g : ℕ) → IsAt shared.now known.now.readings.now (M.table known.now.masks.now) tick entries g group.old →
        OnOk result (IsMade shared.now known.now.readings.now (M.table known.now.masks.now) tick entries g group.new) }
{
    let (mut pages, own) = shared.check_out_own(rt, &mut group.pass, group.number);
    if !own {
        return Err(AllocError);
    }
    group_tick(known, shared.presence(), &mut pages, &mut group.work, tick)?;
    shared.check_in(&mut group.pass, pages, &group.work.lines, 0);
    Ok(())
}

/// Makes the tick of a group, and notes whether there was no memory for it.
fn tick_work<R: Wait, M: Masks>(
    rt: &R,
    known: &Known<M>,
    shared: &SharedBook,
    group: &mut Group,
    tick: u32,
)
    requires known { IsOfOnePlan M.plan M.table known.now }
    requires presence { (opening shared.now).presence ≡ presence_of known.now.readings.now }
    requires can { CanShare shared.now known.now.readings.now (M.table known.now.masks.now) tick group.old }
    requires tick { tick < 2 ^ 31 }
    ensures { (entries : List EntryView) (g : ℕ) → IsAt shared.now known.now.readings.now (M.table known.now.masks.now) tick entries g group.old →
        group.new.work.failed ≡ false → IsMade shared.now known.now.readings.now (M.table known.now.masks.now) tick entries g group.new }
{
    let made = tick_shared(rt, known, shared, group, tick);
    group.work.failed = made.is_err();
}

/// Whether there was no memory for the tick of one of the groups.
fn any_failed(groups: &[Group]) -> bool
    ensures { result ≡ list_any (λ group. group.work.failed) groups.now }
{
    for group in groups {
        if group.work.failed {
            return true;
        }
    }
    false
}

/// The number of the worker that makes the tick of a group, counted from 1: each worker has a part of the groups, one after another.
fn worker_of(at: usize, groups: usize, threads: usize) -> u32
    requires { 0 < threads }
{
    let part = groups.div_ceil(threads).max(1);
    (at / part).saturating_add(1).min(u32::MAX as usize) as u32
}

/// Makes the tick of all groups, in the crew's threads. The gate is asked before each group, by the number of the
/// worker that makes its tick.
pub(crate) fn tick_all<R: Threads + Wait + Sync, M: Masks + Sync, G: Gate>(
    context: &Context<R, M, G>,
    shared: &SharedBook,
    groups: &mut [Group],
    tick: u32,
) -> Result<(), AllocError>
    requires context { IsOfRun M.plan M.table context.now }
    requires presence { (opening shared.now).presence ≡ presence_of context.now.known.readings.now }
    requires can { CanTickAll shared.now context.now.known.readings.now (M.table context.now.known.masks.now) tick groups.old }
    requires tick { tick < 2 ^ 31 }
    ensures { (entries : List EntryView) → AllStand shared.now context.now.known.readings.now (M.table context.now.known.masks.now) tick entries groups.old →
        OnOk result (AllMade shared.now context.now.known.readings.now (M.table context.now.known.masks.now) tick entries groups.new) }
{
    let count = groups.len();
    thread::for_each_mut(
        context.crew.rt,
        groups,
        context.threads,
        &|at: usize, group: &mut Group|
            requires context { IsOfRun M.plan M.table context.now }
            requires presence { (opening shared.now).presence ≡ presence_of context.now.known.readings.now }
            requires can { CanShare shared.now context.now.known.readings.now (M.table context.now.known.masks.now) tick group.now }
            requires tick { tick < 2 ^ 31 }
            ensures { (entries : List EntryView) (g : ℕ) → IsAt shared.entry.now context.entry.now.known.readings.now (M.table context.entry.now.known.masks.now) tick entries g group.entry.now →
                group.exit.now.work.failed ≡ false → IsMade shared.entry.now context.entry.now.known.readings.now (M.table context.entry.now.known.masks.now) tick entries g group.exit.now }
        {
            let crew = context.crew;
            crew.gate.at(worker_of(at, count, context.threads));
            tick_work(crew.rt, &context.known, shared, group, tick)
        },
    );
    if any_failed(groups) {
        return Err(AllocError);
    }
    Ok(())
}

// ---- the lanes

/// Learns that the delays of a fate are 1 to 16 ticks.
fn fate_is(_fate: Fate)
    ensures { All IsDelay _fate }
{}

/// Passes frames through the lanes, in order. The fates that they meet go behind those before.
fn pass_frames(
    tick: u32,
    frames: &[Frame],
    fates: &mut Vec<Fate>,
    rack: &mut Rack,
) -> Result<(), AllocError>
    requires posts { length frames.now ≤ spare_of rack.old }
    requires few { length (posts_of rack.old) + length frames.now < 2 ^ 32 }
    requires room { HasRoom (λ b. meaning (b.vtable, b.value)) rack.old }
    ensures passes { OnOk result (PassesBehind tick frames.now (slots (λ b. meaning (b.vtable, b.value)) rack.old) (slots (λ b. meaning (b.vtable, b.value)) rack.new) (posts_of rack.old) (posts_of rack.new) fates.old.items fates.new.items) }
    ensures spare { OnOk result (spare_of rack.old ≤ spare_of rack.new + length frames.now) }
    ensures room { HasRoom (λ b. meaning (b.vtable, b.value)) rack.new }
{
    for frame in frames {
        let fate = rack.pass(tick, frame.tag);
        fate_is(fate);
        fates.push(fate)?;
    }
    Ok(())
}

/// How many frames all groups have sent; none where they are more than can be counted.
pub(crate) fn count_frames(groups: &[Group]) -> Option<usize>
    ensures { (n : ℕ) → result ≡ Some n → n ≡ length (frames_by groups.now) }
{
    let mut count = 0usize;
    for group in groups {
        count = count.checked_add(group.work.frames.len())?;
    }
    Some(count)
}

/// Passes the frames of all groups through the lanes, one group after another, and keeps the fates that they meet.
pub(crate) fn pass_all(
    tick: u32,
    groups: &[Group],
    fates: &mut Vec<Fate>,
    rack: &mut Rack,
) -> Result<(), AllocError>
    requires posts { length (frames_by groups.now) ≤ spare_of rack.old }
    requires few { length (posts_of rack.old) + length (frames_by groups.now) < 2 ^ 32 }
    requires room { HasRoom (λ b. meaning (b.vtable, b.value)) rack.old }
    ensures passes { OnOk result (Passes tick (frames_by groups.now) (slots (λ b. meaning (b.vtable, b.value)) rack.old) (slots (λ b. meaning (b.vtable, b.value)) rack.new) (posts_of rack.old) (posts_of rack.new) fates.new.items) }
    ensures room { HasRoom (λ b. meaning (b.vtable, b.value)) rack.new }
{
    fates.clear();
    for group in groups {
        pass_frames(tick, &group.work.frames, fates, rack)?;
    }
    Ok(())
}

/// Gives a group the fates that its frames have met.
fn give_fates(group: &mut Group, fates: &[Fate]) -> Result<(), AllocError>
    ensures same { OnOk result (IsButFates group.old group.new) }
    ensures fates { OnOk result (group.new.work.fates.items ≡ fates.now) }
{
    group.work.fates.clear();
    group.work.fates.extend_from_slice(fates)
}

/// Gives each group the fates that its frames have met, of those that the frames of all groups have met, one group after another.
pub(crate) fn give_all_fates(groups: &mut [Group], fates: &[Fate]) -> Result<(), AllocError>
    requires long { length fates.now ≡ length (frames_by groups.old) }
    requires delays { All (All IsDelay) fates.now }
    ensures same { OnOk result (AllZip IsButFates groups.old groups.new) }
    ensures fated { OnOk result (All Fated groups.new) }
    ensures fates { OnOk result (fates_by groups.new ≡ fates.now) }
{
    let mut from = 0;
    for at in 0..groups.len() {
        let group = &mut groups[at];
        let to = from + group.work.frames.len();
        give_fates(group, &fates[from..to])?;
        from = to;
    }
    Ok(())
}
