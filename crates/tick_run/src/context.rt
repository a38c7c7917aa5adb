//! What never changes in a run, and how many threads make its ticks.

ghost use Rattle.std.specs.Prelude.{◌<◌};

use collector_workers::{Crew, Gate};
use group_plan::Plan;
use plan_meters::Known;
use std::thread;
use std::thread::Threads;

/// About how many frames a tick of a plan has: the readings of all of its meters.
fn frames_a_tick(plan: &Plan) -> usize {
    let mut frames = 0usize;
    for group in plan.groups() {
        frames = frames.saturating_add(group.meters as usize);
    }
    frames
}

/// How many processors there are, or one where that can't be told.
fn processors<R: Threads>(rt: &R) -> usize {
    match thread::available_parallelism(rt) {
        Ok(processors) => processors.get(),
        Err(_) => 1,
    }
}

/// How many threads make the ticks of a plan: one, and another for so many frames a tick as the gate says; no more than the workers,
/// the groups, and what the gate allows on this machine.
pub(crate) fn threads_of<R: Threads, G: Gate>(plan: &Plan, crew: &Crew<R, G>) -> usize
    ensures { 0 < result }
{
    let worth = frames_a_tick(plan) / crew.gate.beside().max(1);
    let threads = worth
        .saturating_add(1)
        .min(crew.workers.count as usize)
        .min(plan.groups().len())
        .min(crew.gate.most(processors(crew.rt)));
    threads.max(1)
}

/// What never changes in a run: who makes its ticks, in how many threads, and what the meters have.
#[derive(Drop)]
pub(crate) struct Context<'a, R, M, G> {
    pub crew: &'a Crew<'a, R, G>,
    pub threads: usize,
    pub known: Known<'a, M>,
}
