//! A whole run, from its first tick to its last.

ghost use Rattle.std.specs.Prelude.{◌≡◌, List, [], IfOk};
ghost use Rattle.link_lanes.specs.Lanes.{Slot};
ghost use Rattle.link_lanes.specs.Racks.{slots, posts_of, HasRoom};
ghost use Rattle.pair_keys.specs.Keys.{table_of};
ghost use Rattle.run_rows.specs.Ticks.{posts_of as posts_of_entries};
ghost use Rattle.tick_run.specs.Finished.{IsFinished, IsFinishedUnder, HasRowsOf};
ghost use Rattle.tick_run.specs.Runs.{HaveMet, IsOver, MakesTicks};

use crate::RunError;
use crate::finished::Finished;
use crate::run::Run;
use collector_workers::{Crew, Gate};
use group_plan::{Plan, Readings};
use link_lanes::{Lane, Rack};
use mask_stream::{ChaMasks, Masks};
use pair_keys::KeyTable;
use std::alloc::AllocError;
use std::sync::Wait;
use std::thread::Threads;

/// Makes all ticks that are left.
fn to_end<'a, R: Threads + Wait + Sync, M: Masks + Sync, G: Gate>(
    run: Run<'a, R, M, G>,
    rack: &mut Rack,
) -> Result<Run<'a, R, M, G>, AllocError>
    requires room { HasRoom (λ b. meaning (b.vtable, b.value)) rack.old }
    ensures over { IfOk result IsOver }
    ensures same { IfOk result (λ over. (over.readings ≡ run.entry.readings) × (over.masks ≡ run.entry.masks)) }
    ensures met { (first : List Slot) → HaveMet first run.entry (slots (λ b. meaning (b.vtable, b.value)) rack.old) (posts_of rack.old)
        → IfOk result (λ over. HaveMet first over (slots (λ b. meaning (b.vtable, b.value)) rack.new) (posts_of rack.new)) }
    ensures room { HasRoom (λ b. meaning (b.vtable, b.value)) rack.new }
{
    let mut run = run;
    for _ in 0..run.ticks_left() {
        run = run.tick(rack)?;
    }
    Ok(run)
}

/// Runs a plan by ticks, from the first to the last: its readings are sent and taken, its rounds are closed, answered and
/// ended. Frames are hidden under the words of the masks, and go through the lanes of the rack.
pub fn run_masked<R: Threads + Wait + Sync, M: Masks + Sync, G: Gate>(
    crew: &Crew<'_, R, G>,
    plan: &Plan,
    readings: &Readings,
    masks: &M,
    rack: &mut Rack,
) -> Result<Finished, RunError>
    requires readings { readings.now.plan ≡ plan.now }
    requires masks { M.plan masks.now ≡ plan.now }
    requires posts { posts_of rack.old ≡ [] }
    requires room { HasRoom (λ b. meaning (b.vtable, b.value)) rack.old }
    ensures finished { IfOk result (λ f. IsFinishedUnder readings.now (M.table masks.now) (slots (λ b. meaning (b.vtable, b.value)) rack.old) f.book f.transcript) }
    ensures posts { IfOk result (λ f. posts_of rack.new ≡ posts_of_entries f.transcript.entries) }
    ensures report { IfOk result (λ f. HasRowsOf f.transcript.entries f.book) }
{
    let begun = Run::begin(crew, readings, masks, rack)?;
    let over = to_end(begun, rack)?;
    Ok(over.finish()?)
}

/// Runs a plan by ticks, as `run_masked` does, under the stream words of the keys.
pub fn run_plan<R: Threads + Wait + Sync, G: Gate>(
    crew: &Crew<'_, R, G>,
    plan: &Plan,
    readings: &Readings,
    keys: &KeyTable,
    rack: &mut Rack,
) -> Result<Finished, RunError>
    requires readings { readings.now.plan ≡ plan.now }
    requires keys { (table_of keys.now).plan ≡ plan.now }
    requires posts { posts_of rack.old ≡ [] }
    requires room { HasRoom (λ b. meaning (b.vtable, b.value)) rack.old }
    ensures finished { IfOk result (λ f. IsFinished readings.now (table_of keys.now) (slots (λ b. meaning (b.vtable, b.value)) rack.old) f.book f.transcript) }
    ensures posts { IfOk result (λ f. posts_of rack.new ≡ posts_of_entries f.transcript.entries) }
    ensures report { IfOk result (λ f. HasRowsOf f.transcript.entries f.book) }
{
    let masks = ChaMasks::new(keys);
    run_masked(crew, plan, readings, &masks, rack)
}
