//! A run that is made beside a cut: it is heard, as it goes on, whether it begins with the cut's entries in their order.

ghost use Rattle.std.specs.Prelude.{◌≡◌, ◌≤◌, ◌<◌, ◌+◌, ◌^◌, true, List, [], drop, length, IfOk, Some};
ghost use Rattle.group_plan.specs.Plans.{last_tick};
ghost use Rattle.link_lanes.specs.Lanes.{Slot};
ghost use Rattle.link_lanes.specs.Racks.{slots, posts_of, HasRoom};
ghost use Rattle.tick_run.specs.Finished.{HasRowsOf, IsFinishedUnder};
ghost use Rattle.tick_run.specs.Runs.{HaveMet, IsOver};
ghost use Rattle.cut_resume.specs.Heard.{AreAllFirst, AreFirst, AreHeard, IsInOrder};

use crate::left::is_same;
use collector_workers::{Crew, Gate};
use group_plan::Readings;
use link_lanes::{Lane, Rack};
use mask_stream::Masks;
use std::alloc::AllocError;
use std::sync::Wait;
use std::thread::Threads;
use tick_run::{Finished, Run};
use transcript_log::Transcript;

/// So many parts are heard at once. With the program's gate they are 8,192 entries.
const PARTS_AT_ONCE: usize = 2;

/// A run that is over, and whether it begins with the entries of a cut in their order.
#[derive(Drop)]
pub(crate) struct Heard {
    pub run: Finished,
    pub is_in_order: bool,
}

/// How many entries of a part, from its first on, are those of a cut from a place on.
fn first_same(cut: &Transcript, from: usize, part: &Transcript) -> usize
    requires { from ≤ length cut.now.entries }
    ensures same { AreAllFirst (drop from cut.now.entries) part.now.entries result }
    ensures few { from + result < 2 ^ 63 }
{
    let most = part.len().min(cut.len() - from);
    for at in 0..most {
        if !is_same(&cut.entry(from + at), &part.entry(at)) {
            return at;
        }
    }
    most
}

/// Hears the entries of a run behind those that were heard: how many of its first ones are those of the cut now, or nothing where one differs.
fn hear_part<R: Threads + Sync, M: Masks + Sync, G: Gate>(
    run: &Run<'_, R, M, G>,
    cut: &Transcript,
    heard: usize,
) -> Result<Option<usize>, AllocError>
    requires { AreFirst cut.now.entries run.now.entries heard }
    ensures { IfOk result (AreHeard cut.now.entries run.now.entries) }
{
    let part = run.newest(heard)?;
    let more = first_same(cut, heard, &part);
    let now = heard + more;
    if more < part.len() && now < cut.len() {
        return Ok(None);
    }
    Ok(Some(now))
}

/// Hears what a run has made, where enough of it was not heard, none has differed, and the cut goes on.
fn hear<R: Threads + Sync, M: Masks + Sync, G: Gate>(
    run: &Run<'_, R, M, G>,
    cut: &Transcript,
    heard: Option<usize>,
    enough: usize,
) -> Result<Option<usize>, AllocError>
    requires heard { AreHeard cut.now.entries run.now.entries heard }
    ensures { IfOk result (AreHeard cut.now.entries run.now.entries) }
{
    let Some(count) = heard else {
        return Ok(None);
    };
    if count == cut.len() || run.len() - count < enough {
        return Ok(heard);
    }
    hear_part(run, cut, count)
}

/// Whether all entries of the cut were heard.
fn has_all(cut: &Transcript, heard: Option<usize>) -> bool
    ensures { result ≡ true → heard ≡ Some (length cut.now.entries) }
{
    match heard {
        Some(count) => count == cut.len(),
        None => false,
    }
}

/// Makes all ticks that are left of a run, and hears its entries as they come.
fn lead<'a, R: Threads + Wait + Sync, M: Masks + Sync, G: Gate>(
    run: Run<'a, R, M, G>,
    rack: &mut Rack,
    cut: &Transcript,
    heard: &mut Option<usize>,
    enough: usize,
) -> Result<Run<'a, R, M, G>, AllocError>
    requires room { HasRoom (λ b. meaning (b.vtable, b.value)) rack.old }
    requires heard { AreHeard cut.now.entries run.entries heard.old }
    ensures over { IfOk result IsOver }
    ensures same { IfOk result (λ over. (over.readings ≡ run.entry.readings) × (over.masks ≡ run.entry.masks)) }
    ensures met { (first : List Slot) → HaveMet first run.entry (slots (λ b. meaning (b.vtable, b.value)) rack.old) (posts_of rack.old)
        → IfOk result (λ over. HaveMet first over (slots (λ b. meaning (b.vtable, b.value)) rack.new) (posts_of rack.new)) }
    ensures heard { IfOk result (λ over. AreHeard cut.now.entries over.entries heard.new) }
{
    let mut run = run;
    for _ in 0..run.ticks_left() {
        run = run.tick(rack)?;
        *heard = hear(&run, cut, *heard, enough)?;
    }
    *heard = hear(&run, cut, *heard, 1)?;
    Ok(run)
}

/// Runs a plan under the words of the masks, and hears whether the run begins with the entries of a cut in their order.
pub(crate) fn run_beside<R: Threads + Wait + Sync, M: Masks + Sync, G: Gate>(
    crew: &Crew<'_, R, G>,
    readings: &Readings,
    masks: &M,
    rack: &mut Rack,
    cut: &Transcript,
) -> Result<Heard, AllocError>
    requires masks { M.plan masks.now ≡ readings.now.plan }
    requires posts { posts_of rack.old ≡ [] }
    requires room { HasRoom (λ b. meaning (b.vtable, b.value)) rack.old }
    ensures finished { IfOk result (λ h. IsFinishedUnder readings.now (M.table masks.now) (slots (λ b. meaning (b.vtable, b.value)) rack.old) h.run.book h.run.transcript) }
    ensures report { IfOk result (λ h. HasRowsOf h.run.transcript.entries h.run.book) }
    ensures order { IfOk result (IsInOrder cut.now.entries) }
{
    let enough = crew.gate.part().saturating_mul(PARTS_AT_ONCE);
    let mut heard = Some(0);
    let begun = Run::begin(crew, readings, masks, rack)?;
    let over = lead(begun, rack, cut, &mut heard, enough)?;
    let run = over.finish()?;
    let is_in_order = has_all(cut, heard);
    Ok(Heard { run, is_in_order })
}
