//! What each worker has to do: the parcels of its groups, and room for what becomes of them.

ghost use Rattle.std.specs.Prelude.{◌≡◌, ◌<◌, ◌≤◌, IfOk, length, vec_len, vec_capacity};
ghost use Rattle.collector_workers.specs.Outcomes.{worker_for, parcels_for};
ghost use Rattle.collector_workers.specs.Gathering.{IsWorkloadFor, AreWorkloads};

use crate::outcome::Outcome;
use shared_book::Parcel;
use std::alloc::{AllocError, Global};
use transcript_log::Lines;

/// The parcels of a worker, the lines that it added, and what became of each parcel that it has committed, in their order.
#[derive(Drop)]
pub struct Workload {
    pub parcels: Vec<Parcel>,
    pub lines: Lines,
    pub outcomes: Vec<Outcome>,
}

/// The worker, of so many, who commits a parcel: that of its group, so that no two bring one group's parcels.
pub(crate) fn worker_for(parcel: &Parcel, workers: usize) -> usize
    requires { 0 < workers }
    ensures { (result ≡ worker_for workers parcel.now) × (result < workers) }
{
    match parcel.request() {
        Ok(request) => request.group() as usize % workers,
        Err(_) => 0,
    }
}

/// The parcels of one of so many workers, in their order.
fn parcels_for(
    alloc: Global,
    batch: &[Parcel],
    workers: usize,
    worker: usize,
) -> Result<Vec<Parcel>, AllocError>
    requires { 0 < workers }
    ensures { IfOk result (λ v. v.items ≡ parcels_for workers worker batch.now) }
{
    let mut parcels = Vec::new(alloc);
    for place in 0..batch.len() {
        if worker_for(&batch[place], workers) == worker {
            parcels.push(batch[place])?;
        }
    }
    Ok(parcels)
}

/// What one of so many workers has to do.
fn workload_for(
    alloc: Global,
    batch: &[Parcel],
    workers: usize,
    worker: usize,
) -> Result<Workload, AllocError>
    requires { 0 < workers }
    ensures { IfOk result (λ workload. IsWorkloadFor batch.now workers worker workload) }
{
    let parcels = parcels_for(alloc, batch, workers, worker)?;
    let outcomes = Vec::with_capacity(alloc, parcels.len())?;
    let mut lines = Lines::new(alloc);
    lines.reserve(parcels.len() as u64)?;
    Ok(Workload {
        parcels,
        lines,
        outcomes,
    })
}

/// What each of so many workers has to do.
pub(crate) fn all_workloads(
    alloc: Global,
    batch: &[Parcel],
    workers: usize,
) -> Result<Vec<Workload>, AllocError>
    requires { 0 < workers }
    ensures { IfOk result (λ v. (length v.items ≡ workers) × AreWorkloads batch.now workers v.items) }
{
    let mut workloads = Vec::with_capacity(alloc, workers)?;
    for worker in 0..workers {
        let workload = workload_for(alloc, batch, workers, worker)?;
        workloads.push_reserved(workload);
    }
    Ok(workloads)
}
