//! One tick of a run.

ghost use Rattle.std.specs.Prelude.{◌≡◌, ◌+◌, ◌++◌, ◌<◌, ◌≤◌, ◌^◌, List, length, All, OnOk};
ghost use Rattle.link_lanes.specs.Lanes.{Slot};
ghost use Rattle.link_lanes.specs.Racks.{slots, posts_of, spare_of, HasRoom};
ghost use Rattle.event_schedule.specs.Events.{lines_of};
ghost use Rattle.event_schedule.specs.Transcripts.{last_tick_from};
ghost use Rattle.tick_run.specs.ByGroups.{frames_by, sends_by, quiet_then, Passes};
ghost use Rattle.tick_run.specs.Runs.{IsOfRun};
ghost use Rattle.tick_run.specs.Sending.{KeptFates};
ghost use Rattle.tick_run.specs.Whole.{RunsAt, Extends};
ghost use Rattle.tick_run.specs.Written.{Fits};

use crate::by_groups::{count_frames, give_all_fates, pass_all, tick_all};
use crate::context::Context;
use crate::journal::{stamp_all, write_lines};
use crate::running::{Group, Running};
use collector_workers::Gate;
use link_lanes::{Lane, Rack};
use mask_stream::Masks;
use std::alloc::AllocError;
use std::sync::Wait;
use std::thread;
use std::thread::Threads;

/// Makes room for the posts of all frames that the groups have sent.
fn reserve_posts(groups: &[Group], rack: &mut Rack) -> Result<(), AllocError>
    requires room { HasRoom (λ b. meaning (b.vtable, b.value)) rack.old }
    ensures posts { OnOk result (length (frames_by groups.now) ≤ spare_of rack.new) }
    ensures few { OnOk result (length (posts_of rack.new) + length (frames_by groups.now) < 2 ^ 32) }
    ensures posts_same { posts_of rack.new ≡ posts_of rack.old }
    ensures lanes { slots (λ b. meaning (b.vtable, b.value)) rack.new ≡ slots (λ b. meaning (b.vtable, b.value)) rack.old }
    ensures room { HasRoom (λ b. meaning (b.vtable, b.value)) rack.new }
{
    let Some(frames) = count_frames(groups) else {
        return Err(AllocError);
    };
    rack.reserve(frames as u64)?;
    match rack.posts().len().checked_add(frames) {
        Some(all) if all <= u32::MAX as usize => Ok(()),
        _ => Err(AllocError),
    }
}

/// Makes two calls: the first in a thread of its own where there may be more than one, and else one after the other.
fn make_both<R: Threads, F: FnMut() -> A + Send, G: FnMut() -> B, A: Send, B>(
    rt: &R,
    threads: usize,
    first: &mut F,
    second: &mut G,
) -> (A, B)
    requires { F.pre first.old × G.pre second.old }
    ensures { F.step first.old result.0 first.new × G.step second.old result.1 second.new }
{
    if threads > 1 {
        return thread::join_mut(rt, first, second);
    }
    let one = first();
    let other = second();
    (one, other)
}

/// Passes the frames of all groups through the lanes, and beside that writes down the lines of all groups.
fn pass_and_write<R: Threads + Sync, M: Masks + Sync, G: Gate>(
    context: &Context<R, M, G>,
    run: &mut Running,
    rack: &mut Rack,
    tick: u32,
) -> Result<(), AllocError>
    requires posts { length (frames_by run.old.groups.items) ≤ spare_of rack.old }
    requires few { length (posts_of rack.old) + length (frames_by run.old.groups.items) < 2 ^ 32 }
    requires room { HasRoom (λ b. meaning (b.vtable, b.value)) rack.old }
    requires later { last_tick_from 0 run.old.transcript.entries ≤ tick }
    requires journal { run.old.journal.items ≡ lines_of run.old.transcript.entries }
    requires fits { All (Fits run.old.transcript.plan) run.old.groups.items }
    ensures passes { OnOk result (Passes tick (frames_by run.old.groups.items) (slots (λ b. meaning (b.vtable, b.value)) rack.old) (slots (λ b. meaning (b.vtable, b.value)) rack.new) (posts_of rack.old) (posts_of rack.new) run.new.fates.items) }
    ensures transcript { OnOk result (run.new.transcript ≡ record run.old.transcript { entries = quiet_then tick run.old.transcript.entries run.old.groups.items }) }
    ensures journal { OnOk result (run.new.journal.items ≡ lines_of run.new.transcript.entries ++ sends_by run.old.groups.items) }
    ensures groups { run.new.groups ≡ run.old.groups }
    ensures shared { (run.new.shared ≡ run.old.shared) × (run.new.first ≡ run.old.first) }
    ensures room { HasRoom (λ b. meaning (b.vtable, b.value)) rack.new }
{
    let groups = run.groups.as_slice();
    let fates = &mut run.fates;
    let journal = &mut run.journal;
    let transcript = &mut run.transcript;
    let (written, passed) = make_both(
        context.crew.rt,
        context.threads,
        &mut || -> Result<(), AllocError>
            requires later { last_tick_from 0 transcript.now.entries ≤ tick }
            requires journal { journal.now.items ≡ lines_of transcript.now.entries }
            requires fits { All (Fits transcript.now.plan) groups.now }
            ensures transcript { OnOk result (transcript.exit.now ≡ record transcript.entry.now { entries = quiet_then tick transcript.entry.now.entries groups.entry.now }) }
            ensures journal { OnOk result (journal.exit.now.items ≡ lines_of transcript.exit.now.entries ++ sends_by groups.entry.now) }
        { write_lines(tick, groups, journal, transcript) },
        &mut || -> Result<(), AllocError>
            requires posts { length (frames_by groups.now) ≤ spare_of rack.now }
            requires few { length (posts_of rack.now) + length (frames_by groups.now) < 2 ^ 32 }
            requires room { HasRoom (λ b. meaning (b.vtable, b.value)) rack.now }
            ensures passes { OnOk result (Passes tick (frames_by groups.entry.now) (slots (λ b. meaning (b.vtable, b.value)) rack.entry.now) (slots (λ b. meaning (b.vtable, b.value)) rack.exit.now) (posts_of rack.entry.now) (posts_of rack.exit.now) fates.exit.now.items) }
            ensures room { HasRoom (λ b. meaning (b.vtable, b.value)) rack.exit.now }
        { pass_all(tick, groups, fates, rack) },
    );
    written?;
    passed
}

/// Makes one tick: lanes are let go whose span ended; each group takes, closes, hears and sends; what it sent passes the lanes, one group
/// after another, while the lines of all of it are written down; and last the Sends get their entries, with the fates.
pub(crate) fn run_tick<R: Threads + Wait + Sync, M: Masks + Sync, G: Gate>(
    context: &Context<R, M, G>,
    run: &mut Running,
    rack: &mut Rack,
    tick: u32,
) -> Result<(), AllocError>
    requires runs { RunsAt context.now.known.readings.now (M.table context.now.known.masks.now) tick run.old }
    requires context { IsOfRun M.plan M.table context.now }
    requires tick { tick < 2 ^ 31 }
    requires room { HasRoom (λ b. meaning (b.vtable, b.value)) rack.old }
    ensures runs { OnOk result (RunsAt context.now.known.readings.now (M.table context.now.known.masks.now) (tick + 1) run.new) }
    ensures fates { (hung : List Slot) → KeptFates hung tick run.old.transcript.entries (slots (λ b. meaning (b.vtable, b.value)) rack.old) (posts_of rack.old) →
        OnOk result (KeptFates hung (tick + 1) run.new.transcript.entries (slots (λ b. meaning (b.vtable, b.value)) rack.new) (posts_of rack.new)) }
    ensures grows { OnOk result (Extends run.old.transcript run.new.transcript) }
    ensures room { HasRoom (λ b. meaning (b.vtable, b.value)) rack.new }
{
    rack.retire(tick);
    tick_all(context, &run.shared, &mut run.groups, tick)?;
    reserve_posts(&run.groups, rack)?;
    pass_and_write(context, run, rack, tick)?;
    give_all_fates(&mut run.groups, &run.fates)?;
    stamp_all(tick, &run.groups, &mut run.transcript, &run.journal)
}
