//! A run as a value, between its ticks.

ghost use Rattle.std.specs.Prelude.{◌≡◌, ◌+◌, ◌≤◌, List, [], length, drop, IfOk};
ghost use Rattle.group_plan.specs.Plans.{last_tick};
ghost use Rattle.link_lanes.specs.Lanes.{Slot};
ghost use Rattle.link_lanes.specs.declared.Post.{Post as PostView};
ghost use Rattle.link_lanes.specs.Racks.{slots, posts_of, HasRoom};
ghost use Rattle.tick_run.specs.Finished.{IsFinishedUnder, HasRowsOf};
ghost use Rattle.tick_run.specs.Runs.{before_ticks, told_by, HaveMet, IsOver, MakesTicks};

use crate::context::{Context, threads_of};
use crate::finished::{Finished, make_finished, presence_is_of_members, readings_are_limited};
use crate::first::{begin, sends_about};
use crate::running::Running;
use crate::tick::run_tick;
use collector_workers::{Crew, Gate};
use group_plan::Readings;
use link_lanes::{Lane, Rack};
use mask_stream::Masks;
use plan_meters::{HiddenReadings, Known};
use std::alloc::AllocError;
use std::marker::Model;
use std::sync::Wait;
use std::thread::Threads;
use transcript_log::Transcript;

/// A run between its ticks. It has a crew that makes them, and all that they need but the lanes.
#[derive(Drop)]
pub struct Run<'a, R: Threads + Sync, M: Masks + Sync, G: Gate> {
    context: Context<'a, R, M, G>,
    running: Running,
    tick: u32,
}

impl<'a, R: Threads + Sync, M: Masks + Sync, G: Gate> Model for Run<'a, R, M, G> {
    ghost use Rattle.tick_run.specs.Runs.{RunView, IsRun};

    ghost Value = { RunView M };

    ghost view = { λ run. record { readings = run.context.known.readings.now; masks = run.context.known.masks.now; tick = run.tick; entries = run.running.transcript.entries } };

    ghost invariant = { λ run. IsRun M.plan M.table run.context run.running run.tick };
}

impl<'a, R: Threads + Sync, M: Masks + Sync, G: Gate> Run<'a, R, M, G> {
    /// A run before its first tick. The rack gets room for about as many posts as there will be.
    pub fn begin(
        crew: &'a Crew<'a, R, G>,
        readings: &'a Readings,
        masks: &'a M,
        rack: &mut Rack,
    ) -> Result<Run<'a, R, M, G>, AllocError>
        requires masks { M.plan masks.now ≡ readings.now.plan }
        requires posts { posts_of rack.old ≡ [] }
        requires room { HasRoom (λ b. meaning (b.vtable, b.value)) rack.old }
        ensures begins { IfOk result (λ run. run ≡ before_ticks readings.now masks.now) }
        ensures met { IfOk result (λ run. HaveMet (slots (λ b. meaning (b.vtable, b.value)) rack.old) run (slots (λ b. meaning (b.vtable, b.value)) rack.new) (posts_of rack.new)) }
        ensures room { HasRoom (λ b. meaning (b.vtable, b.value)) rack.new }
    {
        let plan = readings.plan();
        rack.reserve(sends_about(plan))?;
        let hidden = HiddenReadings::new(crew.rt, crew.alloc, readings, masks)?;
        let running = begin(crew.alloc, readings)?;
        Ok(Run {
            context: Context {
                crew,
                threads: threads_of(plan, crew),
                known: Known {
                    readings,
                    masks,
                    hidden,
                },
            },
            running,
            tick: 0,
        })
    }

    /// How many ticks are still to be made.
    pub fn ticks_left(&self) -> u32
        ensures { self.now.tick + result ≡ last_tick self.now.readings.plan + 1 }
    {
        let readings = self.context.known.readings;
        readings_are_limited(readings);
        readings.plan().last_tick() + 1 - self.tick
    }

    /// How many entries there are.
    pub fn len(&self) -> usize
        ensures { result ≡ length self.now.entries }
    {
        self.running.transcript.len()
    }

    /// The entries behind the first ones, so many of them, as a transcript of the same plan.
    pub fn newest(&self, told: usize) -> Result<Transcript, AllocError>
        requires { told ≤ length self.now.entries }
        ensures { IfOk result (λ part. part ≡ record { plan = self.now.readings.plan; entries = drop told self.now.entries }) }
    {
        let running = &self.running;
        running.transcript.tail(&running.journal, told)
    }

    /// The book and the transcript, once all ticks are made.
    pub fn finish(self) -> Result<Finished, AllocError>
        requires { IsOver self }
        ensures finished { (first lanes : List Slot) (posts : List PostView) → HaveMet first self.entry lanes posts
            → IfOk result (λ f. IsFinishedUnder self.entry.readings (M.table self.entry.masks) first f.book f.transcript) }
        ensures report { (first lanes : List Slot) (posts : List PostView) → HaveMet first self.entry lanes posts → IfOk result (λ f. HasRowsOf f.transcript.entries f.book) }
        ensures transcript { IfOk result (λ f. f.transcript ≡ told_by self.entry) }
    {
        readings_are_limited(self.context.known.readings);
        let Run {
            context,
            running,
            tick: _,
        } = self;
        presence_is_of_members(running.shared.presence());
        Ok(make_finished(context.crew.alloc, running))
    }
}

impl<'a, R: Threads + Wait + Sync, M: Masks + Sync, G: Gate> Run<'a, R, M, G> {
    /// Makes the next tick. Where there is no memory for it, the run is lost.
    pub fn tick(self, rack: &mut Rack) -> Result<Run<'a, R, M, G>, AllocError>
        requires left { self.tick ≤ last_tick self.readings.plan }
        requires room { HasRoom (λ b. meaning (b.vtable, b.value)) rack.old }
        ensures makes { IfOk result (MakesTicks 1 self.entry) }
        ensures met { (first : List Slot) → HaveMet first self.entry (slots (λ b. meaning (b.vtable, b.value)) rack.old) (posts_of rack.old)
            → IfOk result (λ run. HaveMet first run (slots (λ b. meaning (b.vtable, b.value)) rack.new) (posts_of rack.new)) }
        ensures room { HasRoom (λ b. meaning (b.vtable, b.value)) rack.new }
    {
        readings_are_limited(self.context.known.readings);
        let Run {
            context,
            mut running,
            tick,
        } = self;
        run_tick(&context, &mut running, rack, tick)?;
        Ok(Run {
            context,
            running,
            tick: tick + 1,
        })
    }
}
