//! Worked runs.

ghost use Rattle.std.specs.Prelude.{◌≡◌, ◌≤◌, [], IfOk};
ghost use Rattle.group_plan.specs.Plans.{last_tick};
ghost use Rattle.link_lanes.specs.Racks.{posts_of, HasRoom};
ghost use Rattle.event_schedule.specs.Events.{lines_of};

use crate::fixtures::{check, check_same, is_same, reading_frame};
use crate::twin_worlds_table_rows::ideal_table;
use collector_workers::{Crew, Free, Workers};
use event_schedule::Line;
use group_plan::Readings;
use link_lanes::Rack;
use mask_stream::Masks;
use round_machine::Ending;
use row_fixtures::{keys_of_north, plan_of_north, reading_tag, table};
use std::alloc::Global;
use std::sync::Wait;
use std::test::Fail;
use std::thread::Threads;
use tick_run::{Finished, Run, run_masked, run_plan};
use transcript_log::Lines;

// Whether this is the last line.
fn ends_with(lines: &Lines, last: &Line) -> bool {
    let count = lines.len();
    count > 0 && is_same(&lines.at(count - 1), last)
}

// Two workers, and the program's gate.
fn crew_of_two<R>(rt: &R, alloc: Global) -> Crew<'_, R, Free> {
    Crew {
        rt,
        alloc,
        workers: Workers::new(2),
        gate: &Free,
    }
}

// Runs the readings 10, 20 and 30 over a rack on which no post was made.
fn run(rt: &(impl Threads + Wait + Sync), alloc: Global, rack: &mut Rack) -> Result<Finished, Fail>
    requires posts { posts_of rack.old ≡ [] }
    requires room { HasRoom (λ b. meaning (b.vtable, b.value)) rack.old }
    ensures { IfOk result (λ done. done.book.journal ≡ lines_of done.transcript.entries) }
{
    let plan = plan_of_north(alloc, 1)?;
    let readings = table(alloc, &plan, &[10, 20, 30])?;
    let keys = keys_of_north(alloc, &plan, [1, 2, 3, 4, 5, 6])?;
    let crew = crew_of_two(rt, alloc);
    match run_plan(&crew, &plan, &readings, &keys, rack) {
        Ok(done) => Ok(done),
        Err(_) => Err(Fail::new("want of memory")),
    }
}

// Runs the same readings under the words of the ideal table.
fn run_ideal(
    rt: &(impl Threads + Wait + Sync),
    alloc: Global,
    rack: &mut Rack,
) -> Result<Finished, Fail>
    requires posts { posts_of rack.old ≡ [] }
    requires room { HasRoom (λ b. meaning (b.vtable, b.value)) rack.old }
{
    let plan = plan_of_north(alloc, 1)?;
    let readings = table(alloc, &plan, &[10, 20, 30])?;
    let masks = ideal_table(alloc, &plan)?;
    let crew = crew_of_two(rt, alloc);
    match run_masked(&crew, &plan, &readings, &masks, rack) {
        Ok(done) => Ok(done),
        Err(_) => Err(Fail::new("want of memory")),
    }
}

// Whether the line at the place of its number is the Send of this meter's reading, under this word.
fn sends(lines: &Lines, meter: u8, word: u64) -> bool {
    let at = usize::from(meter);
    let send = Line::Send {
        tag: reading_tag(0, 0, meter),
        frame: Some(reading_frame(meter, word)),
    };
    at < lines.len() && is_same(&lines.at(at), &send)
}

#[test]
fn three_meters_total_60(rt: HostRuntime) -> Result<(), Fail> {
    let alloc = rt.alloc();
    let Ok(rack) = Rack::fit(alloc, Vec::new(alloc), &[]) else {
        return Err(Fail::new("an empty rack"));
    };
    let mut rack = rack;
    let Finished { book, transcript } = run(&rt, alloc, &mut rack)?;
    check_same(&rt, &rack.posts().len(), &9, "the posts");
    let end = Line::End {
        group: 0,
        round: 0,
        ending: Ending::Total(60),
    };
    check(&rt, ends_with(book.journal(), &end), "the end");
    // 9 Sends, 9 Takes, a Close and an End.
    let transcript = transcript.finish(book.into_journal())?;
    check_same(&rt, &transcript.len(), &20, "the lines");
    Ok(())
}

/// The words are those of the row `words_over_ideal_table`.
#[test]
fn ideal_words_total_60(rt: HostRuntime) -> Result<(), Fail> {
    let alloc = rt.alloc();
    let Ok(rack) = Rack::fit(alloc, Vec::new(alloc), &[]) else {
        return Err(Fail::new("an empty rack"));
    };
    let mut rack = rack;
    let Finished { book, .. } = run_ideal(&rt, alloc, &mut rack)?;
    let lines = book.journal();
    let hidden = sends(lines, 0, 122) && sends(lines, 1, 226) && sends(lines, 2, 312);
    check(&rt, hidden, "the words");
    let end = Line::End {
        group: 0,
        round: 0,
        ending: Ending::Total(60),
    };
    check(&rt, ends_with(lines, &end), "the end");
    Ok(())
}

// How many entries a run has behind its first one.
fn entries_behind_first<R: Threads + Sync, M: Masks + Sync>(
    run: &Run<'_, R, M, Free>,
) -> Result<usize, Fail> {
    if run.len() < 1 {
        return Ok(0);
    }
    let newest = run.newest(1)?;
    Ok(newest.len())
}

// How many ticks are left of a run after its next tick, how many entries it has, and how many of them behind the first.
fn told_after_tick<R: Threads + Wait + Sync, M: Masks + Sync>(
    run: Run<'_, R, M, Free>,
    rack: &mut Rack,
) -> Result<(u32, usize, usize), Fail>
    requires left { run.tick ≤ last_tick run.readings.plan }
    requires room { HasRoom (λ b. meaning (b.vtable, b.value)) rack.old }
{
    let run = run.tick(rack)?;
    let behind = entries_behind_first(&run)?;
    Ok((run.ticks_left(), run.len(), behind))
}

// The same of a run after its first tick.
fn told_after_first<R: Threads + Wait + Sync, M: Masks + Sync>(
    crew: &Crew<'_, R, Free>,
    readings: &Readings,
    masks: &M,
    rack: &mut Rack,
) -> Result<(u32, usize, usize), Fail>
    requires masks { M.plan masks.now ≡ readings.now.plan }
    requires posts { posts_of rack.old ≡ [] }
    requires room { HasRoom (λ b. meaning (b.vtable, b.value)) rack.old }
{
    let run = Run::begin(crew, readings, masks, rack)?;
    told_after_tick(run, rack)
}

// How many ticks a run has, before its first one.
fn ticks_at_first<R: Threads + Wait + Sync, M: Masks + Sync>(
    crew: &Crew<'_, R, Free>,
    readings: &Readings,
    masks: &M,
    rack: &mut Rack,
) -> Result<u32, Fail>
    requires masks { M.plan masks.now ≡ readings.now.plan }
    requires posts { posts_of rack.old ≡ [] }
    requires room { HasRoom (λ b. meaning (b.vtable, b.value)) rack.old }
{
    let run = Run::begin(crew, readings, masks, rack)?;
    Ok(run.ticks_left())
}

#[test]
fn run_begins_with_36_ticks(rt: HostRuntime) -> Result<(), Fail> {
    let alloc = rt.alloc();
    let plan = plan_of_north(alloc, 1)?;
    let readings = table(alloc, &plan, &[10, 20, 30])?;
    let masks = ideal_table(alloc, &plan)?;
    let Ok(mut rack) = Rack::fit(alloc, Vec::new(alloc), &[]) else {
        return Err(Fail::new("an empty rack"));
    };
    let crew = crew_of_two(&rt, alloc);
    let ticks = ticks_at_first(&crew, &readings, &masks, &mut rack)?;
    check_same(&rt, &ticks, &36, "the ticks");
    Ok(())
}

/// 35 ticks are left then.
#[test]
fn first_tick_sends_three_readings(rt: HostRuntime) -> Result<(), Fail> {
    let alloc = rt.alloc();
    let plan = plan_of_north(alloc, 1)?;
    let readings = table(alloc, &plan, &[10, 20, 30])?;
    let masks = ideal_table(alloc, &plan)?;
    let Ok(mut rack) = Rack::fit(alloc, Vec::new(alloc), &[]) else {
        return Err(Fail::new("an empty rack"));
    };
    let crew = crew_of_two(&rt, alloc);
    let told = told_after_first(&crew, &readings, &masks, &mut rack)?;
    check_same(&rt, &told, &(35, 3, 2), "what the run tells");
    Ok(())
}
