//! Workers, each with a pass of its own and the parcels of its groups.

ghost use Rattle.std.specs.Prelude.{◌≡◌, ◌∷◌, [], ◌+◌, ◌^◌, ◌<◌, ◌≤◌, None, length, slice_index_or, vec_len, vec_capacity, All, ℕ};
ghost use Rattle.shared_book.specs.Ends.{opening, view, IsPassOf};
ghost use Rattle.shared_book.specs.declared.parcel.Parcel.{Parcel as ParcelView};
ghost use Rattle.collector_workers.specs.Gathering.{AreWorkloads, IsReady, Commits, Works, SplitsAll, AreNewWorkers, AllWork, JoinsAll, AreLast, Merges, AreWhole};

use crate::gate::Gate;
use crate::outcome::{Outcome, outcome_at, outcome_of};
use crate::workload::{Workload, worker_for};
use shared_book::{Parcel, Pass, SharedBook};
use std::sync::Wait;
use std::thread;
use std::thread::Threads;

/// A worker: its pass, and what it has to do.
#[derive(Drop)]
pub struct Worker {
    pub pass: Pass,
    pub workload: Workload,
}

/// Splits a pass for each workload from the first.
pub(crate) fn split_all(
    shared: &SharedBook,
    first: &mut Pass,
    workloads: Vec<Workload>,
    workers: &mut Vec<Worker>,
)
    requires pass { IsPassOf shared.now first.old }
    requires first { ((view first.old).number ≡ 0) × ((view first.old).held ≡ None) }
    requires few { (view first.old).made + length workloads.items < 2 ^ 32 }
    requires empty { (workers.old.items ≡ []) × (vec_len workers.old ≡ 0) }
    requires room { length workloads.items ≤ vec_capacity workers.old }
    ensures pass { IsPassOf shared.now first.new }
    ensures first { SplitsAll (view first.old) (length workloads.items) (view first.new) }
    ensures workers { AreNewWorkers shared.now (view first.old) workloads.items workers.new.items }
{
    for workload in workloads {
        let pass = shared.split(first);
        workers.push_reserved(Worker { pass, workload });
    }
}

/// Commits one parcel of a worker.
fn commit_one<R: Wait>(rt: &R, shared: &SharedBook, worker: &mut Worker, place: usize)
    requires pass { IsPassOf shared.now worker.old.pass }
    requires free { (view worker.old.pass).held ≡ None }
    requires place { place < length worker.old.workload.parcels.items }
    requires room { (vec_len worker.old.workload.outcomes < vec_capacity worker.old.workload.outcomes) × (1 ≤ worker.old.workload.lines.spare) }
    ensures pass { IsPassOf shared.now worker.new.pass }
    ensures committed { (d : ParcelView) → Commits (opening shared.now) worker.old (slice_index_or worker.old.workload.parcels.items place d) worker.new }
    ensures room { (vec_capacity worker.new.workload.outcomes ≡ vec_capacity worker.old.workload.outcomes) × (vec_len worker.new.workload.outcomes ≡ vec_len worker.old.workload.outcomes + 1) × (worker.old.workload.lines.spare ≤ worker.new.workload.lines.spare + 1) }
{
    let parcel = worker.workload.parcels[place];
    let came = shared.commit(rt, &mut worker.pass, &parcel, &mut worker.workload.lines);
    let outcome = outcome_of(&came, &worker.workload.lines);
    worker.workload.outcomes.push_reserved(outcome);
}

/// One worker: for each of its parcels it calls the gate and commits it.
fn work<R: Wait, G: Gate>(rt: &R, shared: &SharedBook, worker: &mut Worker, gate: &G, number: u32)
    requires { IsReady shared.now worker.old }
    ensures { Works shared.now worker.old worker.new }
{
    for place in 0..worker.workload.parcels.len() {
        gate.at(number);
        commit_one(rt, shared, worker, place);
    }
}

/// All workers beside each other. One of them works on the calling thread.
pub(crate) fn work_all<R: Threads + Wait + Sync, G: Gate>(
    rt: &R,
    shared: &SharedBook,
    workers: &mut [Worker],
    gate: &G,
)
    requires workers { All (IsReady shared.now) workers.old }
    requires few { (0 < length workers.old) × (length workers.old < 2 ^ 16) }
    ensures { AllWork shared.now workers.old workers.new }
{
    let count = workers.len();
    thread::for_each_mut(
        rt,
        workers,
        count,
        &|i: usize, worker: &mut Worker|
            requires { IsReady shared.now worker.now × (i < 2 ^ 16) }
            ensures { Works shared.entry.now worker.entry.now worker.exit.now }
        { work(rt, shared, worker, gate, i as u32 + 1) },
    );
}

/// Puts what became of the parcels into the order of the batch. `taken` has a 0 for each worker.
pub(crate) fn merge(
    batch: &[Parcel],
    workers: &[Worker],
    taken: &mut [usize],
    outcomes: &mut Vec<Outcome>,
)
    requires some { (0 < length workers.now) × (length taken.old ≡ length workers.now) }
    requires none_taken { All (λ n. n ≡ 0) taken.old }
    requires whole { AreWhole batch.now workers.now }
    requires empty { (outcomes.old.items ≡ []) × (vec_len outcomes.old ≡ 0) }
    requires room { length batch.now ≤ vec_capacity outcomes.old }
    ensures { Merges batch.now workers.now outcomes.new.items }
{
    for place in 0..batch.len() {
        let worker = worker_for(&batch[place], workers.len());
        let outcome = outcome_at(&workers[worker].workload.outcomes, taken[worker]);
        outcomes.push_reserved(outcome);
        taken[worker] += 1;
    }
}

/// Takes the workers' passes back.
pub(crate) fn join_all(shared: &SharedBook, first: &mut Pass, workers: Vec<Worker>)
    requires pass { IsPassOf shared.now first.old }
    requires first { ((view first.old).number ≡ 0) × ((view first.old).held ≡ None) }
    requires workers { All (λ worker. IsPassOf shared.now worker.pass × ((view worker.pass).held ≡ None)) workers.items }
    requires numbers { AreLast (view first.old).made workers.items }
    ensures pass { IsPassOf shared.now first.new }
    ensures joined { JoinsAll (view first.old) workers.items (view first.new) }
{
    for worker in workers {
        let Worker { pass, workload: _ } = worker;
        shared.join(first, pass);
    }
}
