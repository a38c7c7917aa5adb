//! A run, whose transcript is written ahead.

ghost use Rattle.std.specs.Prelude.{◌≡◌, ◌≤◌, ◌<◌, ◌^◌, ℕ, List, IfOk, [], length};
ghost use Rattle.link_lanes.specs.Racks.{slots, posts_of, HasRoom};
ghost use Rattle.command_files.specs.Ahead.{IsAhead, AreNext, AreHanded, CameOut, Leads};
ghost use Rattle.rtrb.specs.Ring.{sent, received, IsPair, SameProducer, SameConsumer};
ghost use Rattle.event_schedule.specs.Transcripts.{TranscriptView};
ghost use Rattle.link_lanes.specs.Lanes.{Slot};
ghost use Rattle.tick_run.specs.Runs.{told_by, HaveMet, IsOver};
ghost use Rattle.tick_run.specs.Finished.{IsFinishedUnder};

use crate::ahead::Ahead;
use crate::parts::{PartsIn, PartsOut, Progress, parts};
use collector_workers::{Crew, Gate};
use desk_outside::BegunFile;
use group_plan::Readings;
use link_lanes::{Lane, Rack};
use mask_stream::Masks;
use std::alloc::AllocError;
use std::sync::Wait;
use std::thread;
use std::thread::Threads;
use tick_run::{Finished, Run};

/// A run that is so many parts ahead of its text waits for it.
const FAR_AHEAD: usize = 8;

/// Does nothing: that what comes back is used tells how long it was lent.
fn take_back<T>(lent: &mut T)
    ensures { lent.new ≡ lent.old }
{}

/// Appends the text of the parts to the file as they come, until no more come or the file has failed.
fn append_parts<'n, 'r, 'p, R: Threads + Wait + Sync, B: BegunFile + Send + Drop>(
    rt: &R,
    file: &mut Ahead<'n, 'r, R, B>,
    parts: &mut PartsOut<'p>,
)
    requires none { received parts.old.ring ≡ [] }
    ensures ring { SameConsumer parts.old.ring parts.new.ring }
    ensures name { file.new.begun.name.now ≡ file.old.begun.name.now }
    ensures ahead { (t : TranscriptView) → length t.entries < 2 ^ 64 → AreNext file.old.entries t (received parts.new.ring) → IsAhead B.has file.old.begun.file file.old.entries t
        → IsAhead B.has file.new.begun.file file.new.entries t }
{
    for _ in rt.forever() {
        let Some(part) = parts.next(rt) else {
            return;
        };
        file.append(&part);
        if file.begun.file.has_failed() {
            return;
        }
    }
    unreachable!()
}

/// Appends the text of the parts to the file as they come, and lets the one who makes ticks know that somebody does.
fn write_parts<'n, 'r, 'p, R: Threads + Wait + Sync, B: BegunFile + Send + Drop>(
    rt: &R,
    file: Ahead<'n, 'r, R, B>,
    parts: PartsOut<'p>,
) -> (Ahead<'n, 'r, R, B>, PartsOut<'p>)
    requires none { received parts.ring ≡ [] }
    ensures ring { SameConsumer parts.entry.ring result.1.ring }
    ensures name { result.0.begun.name.now ≡ file.entry.begun.name.now }
    ensures ahead { (t : TranscriptView) → length t.entries < 2 ^ 64 → AreNext file.entry.entries t (received result.1.ring) → IsAhead B.has file.entry.begun.file file.entry.entries t
        → IsAhead B.has result.0.begun.file result.0.entries t }
{
    let mut file = file;
    let mut parts = parts;
    parts.begin();
    append_parts(rt, &mut file, &mut parts);
    parts.end();
    (file, parts)
}

/// Hands the newest entries of a run over as a part, where there are enough of them and a part may go in. The answer is how many entries
/// are handed over now.
fn hand_over<'p, R: Threads + Wait + Sync, M: Masks + Sync, G: Gate>(
    rt: &R,
    run: &Run<'_, R, M, G>,
    parts: &mut PartsIn<'p>,
    handed: usize,
    enough: usize,
) -> Result<usize, AllocError>
    requires enough { 1 ≤ enough }
    requires handed { handed ≤ length run.now.entries }
    ensures ring { SameProducer parts.old.ring parts.new.ring }
    ensures handed { (first : ℕ) → AreHanded first (told_by run.now) (sent parts.old.ring) handed → IfOk result (AreHanded first (told_by run.now) (sent parts.new.ring)) }
{
    let new = run.len() - handed;
    if new < enough || !parts.has_room(rt, new / FAR_AHEAD >= enough) {
        return Ok(handed);
    }
    let part = run.newest(handed)?;
    parts.give(part);
    Ok(run.len())
}

/// Makes all ticks that are left of a run, and hands its entries over as they come.
fn lead<'a, 'p, R: Threads + Wait + Sync, M: Masks + Sync, G: Gate>(
    rt: &R,
    run: Run<'a, R, M, G>,
    rack: &mut Rack,
    parts: &mut PartsIn<'p>,
    first: usize,
    enough: usize,
) -> Result<Run<'a, R, M, G>, AllocError>
    requires room { HasRoom (λ b. meaning (b.vtable, b.value)) rack.old }
    requires enough { 1 ≤ enough }
    requires first { first ≤ length run.entries }
    requires none { sent parts.old.ring ≡ [] }
    ensures leads { Leads first run.entry (slots (λ b. meaning (b.vtable, b.value)) rack.old) (posts_of rack.old) result (slots (λ b. meaning (b.vtable, b.value)) rack.new) (posts_of rack.new) (sent parts.new.ring) }
    ensures room { HasRoom (λ b. meaning (b.vtable, b.value)) rack.new }
    ensures ring { SameProducer parts.old.ring parts.new.ring }
{
    let mut run = run;
    let mut handed = first;
    for _ in 0..run.ticks_left() {
        run = run.tick(rack)?;
        handed = hand_over(rt, &run, parts, handed, enough)?;
    }
    let _entries = run.len();
    Ok(run)
}

/// What came out went in, in that order.
fn all_came(came: PartsOut, given: PartsIn)
    requires pair { IsPair given.ring came.ring }
    ensures { CameOut (sent given.entry.ring) (received came.entry.ring) }
{
    let mut came = came;
    let mut given = given;
    let _left = came.ring.slots_beside(&mut given.ring);
}

/// Appends the text of the parts in a thread of its own, and makes all ticks that are left beside that.
fn write_beside<
    'a,
    'n,
    'r,
    'p,
    R: Threads + Wait + Sync,
    M: Masks + Sync,
    G: Gate,
    B: BegunFile + Send + Drop,
>(
    rt: &R,
    run: Run<'a, R, M, G>,
    rack: &mut Rack,
    file: Ahead<'n, 'r, R, B>,
    parts: (PartsIn<'p>, PartsOut<'p>),
    enough: usize,
) -> (
    Ahead<'n, 'r, R, B>,
    PartsOut<'p>,
    Result<Run<'a, R, M, G>, AllocError>,
    PartsIn<'p>,
)
    requires room { HasRoom (λ b. meaning (b.vtable, b.value)) rack.old }
    requires enough { 1 ≤ enough }
    requires first { file.entries ≤ length run.entries }
    requires none { (sent parts.0.ring ≡ []) × (received parts.1.ring ≡ []) }
    ensures name { result.0.begun.name.now ≡ file.entry.begun.name.now }
    ensures ahead { (t : TranscriptView) → length t.entries < 2 ^ 64 → AreNext file.entry.entries t (received result.1.ring) → IsAhead B.has file.entry.begun.file file.entry.entries t
        → IsAhead B.has result.0.begun.file result.0.entries t }
    ensures leads { Leads file.entry.entries run.entry (slots (λ b. meaning (b.vtable, b.value)) rack.old) (posts_of rack.old) result.2 (slots (λ b. meaning (b.vtable, b.value)) rack.new) (posts_of rack.new) (sent result.3.ring) }
    ensures ring { SameProducer parts.entry.0.ring result.3.ring × SameConsumer parts.entry.1.ring result.1.ring }
{
    let (parts_in, parts_out) = parts;
    let first = file.entries;
    let lent = &mut *rack;
    let ((file, came), (made, back, given)) = thread::join(
        rt,
        move || -> (Ahead<R, B>, PartsOut)
            requires none { received parts_out.ring ≡ [] }
            ensures ring { SameConsumer parts_out.entry.ring result.1.ring }
            ensures name { result.0.begun.name.now ≡ file.entry.begun.name.now }
            ensures ahead { (t : TranscriptView) → length t.entries < 2 ^ 64 → AreNext file.entry.entries t (received result.1.ring) → IsAhead B.has file.entry.begun.file file.entry.entries t
                → IsAhead B.has result.0.begun.file result.0.entries t }
        { write_parts(rt, file, parts_out) },
        move || -> (Result<Run<R, M, G>, AllocError>, &mut Rack, PartsIn)
            requires room { HasRoom (λ b. meaning (b.vtable, b.value)) lent.now }
            requires enough { 1 ≤ enough }
            requires first { first ≤ length run.entries }
            requires none { sent parts_in.ring ≡ [] }
            ensures same { result.1.ghost_name ≡ lent.entry.ghost_name }
            ensures leads { Leads first run.entry (slots (λ b. meaning (b.vtable, b.value)) lent.entry.now) (posts_of lent.entry.now) result.0 (slots (λ b. meaning (b.vtable, b.value)) result.1.now) (posts_of result.1.now) (sent result.2.ring) }
            ensures ring { SameProducer parts_in.entry.ring result.2.ring }
        {
            let mut parts_in = parts_in;
            let made = lead(rt, run, lent, &mut parts_in, first, enough);
            parts_in.end();
            (made, lent, parts_in)
        },
    );
    take_back(back);
    (file, came, made, given)
}

/// Makes all ticks that are left of a run, while a thread of its own appends the text of its entries to the file as they come.
fn lead_beside<
    'a,
    'n,
    'r,
    R: Threads + Wait + Sync,
    M: Masks + Sync,
    G: Gate,
    B: BegunFile + Send + Drop,
>(
    crew: &Crew<'_, R, G>,
    run: Run<'a, R, M, G>,
    rack: &mut Rack,
    file: Ahead<'n, 'r, R, B>,
    enough: usize,
) -> Result<(Run<'a, R, M, G>, Ahead<'n, 'r, R, B>), AllocError>
    requires room { HasRoom (λ b. meaning (b.vtable, b.value)) rack.old }
    requires enough { 1 ≤ enough }
    requires ahead { IsAhead B.has file.begun.file file.entries (told_by run) }
    ensures over { IfOk result (λ led. IsOver led.0) }
    ensures same { IfOk result (λ led. (led.0.readings ≡ run.entry.readings) × (led.0.masks ≡ run.entry.masks)) }
    ensures met { (first : List Slot) → HaveMet first run.entry (slots (λ b. meaning (b.vtable, b.value)) rack.old) (posts_of rack.old)
        → IfOk result (λ led. HaveMet first led.0 (slots (λ b. meaning (b.vtable, b.value)) rack.new) (posts_of rack.new)) }
    ensures name { IfOk result (λ led. led.1.begun.name.now ≡ file.entry.begun.name.now) }
    ensures ahead { IfOk result (λ led. IsAhead B.has led.1.begun.file led.1.entries (told_by led.0)) }
{
    let progress = Progress::new();
    let ends = parts(crew.alloc, &progress)?;
    let (file, came, made, given) = write_beside(crew.rt, run, rack, file, ends, enough);
    let run = made?;
    all_came(came, given);
    Ok((run, file))
}

/// Runs a plan under the words of the masks, and appends the text of its entries to the file as they come.
pub fn run_ahead<
    'n,
    'r,
    R: Threads + Wait + Sync,
    M: Masks + Sync,
    G: Gate,
    B: BegunFile + Send + Drop,
>(
    crew: &Crew<'_, R, G>,
    readings: &Readings,
    masks: &M,
    rack: &mut Rack,
    file: Ahead<'n, 'r, R, B>,
) -> Result<(Finished, Ahead<'n, 'r, R, B>), AllocError>
    requires masks { M.plan masks.now ≡ readings.now.plan }
    requires posts { posts_of rack.old ≡ [] }
    requires room { HasRoom (λ b. meaning (b.vtable, b.value)) rack.old }
    requires empty { (t : TranscriptView) → IsAhead B.has file.begun.file file.entries t }
    ensures finished { IfOk result (λ led. IsFinishedUnder readings.now (M.table masks.now) (slots (λ b. meaning (b.vtable, b.value)) rack.old) led.0.book led.0.transcript) }
    ensures name { IfOk result (λ led. led.1.begun.name.now ≡ file.entry.begun.name.now) }
    ensures ahead { IfOk result (λ led. IsAhead B.has led.1.begun.file led.1.entries led.0.transcript) }
{
    let enough = crew.gate.part().max(1);
    let begun = Run::begin(crew, readings, masks, rack)?;
    let (over, file) = or_fail!(lead_beside(crew, begun, rack, file, enough));
    let finished = over.finish()?;
    Ok((finished, file))
}
