//! A run that goes on from a cut.

ghost use Rattle.std.specs.Prelude.{◌≡◌, ◌≤◌, []};
ghost use Rattle.group_plan.specs.Tables.{IsPresenceTable};
ghost use Rattle.link_lanes.specs.Racks.{slots, posts_of, HasRoom};
ghost use Rattle.pair_keys.specs.Keys.{table_of};
ghost use Rattle.run_rows.specs.Ticks.{IsOrdered};
ghost use Rattle.event_schedule.specs.Events.{lines_of};
ghost use Rattle.cut_resume.specs.Resumed.{FollowEnds, ResumeEnds};

use crate::ResumeError;
use crate::heard::{Heard, run_beside};
use crate::left::pick_all;
use crate::remaking::{RemadeRun, remake};
use collector_workers::{Crew, Gate};
use group_book::{Book, Parts};
use group_plan::{Plan, Presence, Readings};
use link_lanes::{Lane, Rack};
use mask_stream::ChaMasks;
use pair_keys::KeyTable;
use std::alloc::Global;
use std::sync::Wait;
use std::thread::Threads;
use tick_run::Finished;
use transcript_log::Transcript;

/// Learns that only members have a reading.
fn presence_is_of_members(presence: &Presence)
    ensures { IsPresenceTable presence.now.plan presence.now.table }
{
    let _plan = presence.plan();
}

/// A run that is over, with the entries of a cut first, where they are picked out of its own.
fn follow(alloc: Global, run: Finished, cut: &Transcript) -> Result<Finished, ResumeError>
    requires plan { run.transcript.plan ≡ cut.now.plan }
    requires journal { run.book.journal ≡ lines_of run.transcript.entries }
    requires ordered { IsOrdered run.transcript.entries }
    ensures members { IsPresenceTable run.book.presence.plan run.book.presence.table }
    ensures follows { FollowEnds run cut.now result }
{
    let Finished { book, transcript } = run;
    let Parts {
        presence,
        groups,
        journal,
    } = book.into_parts();
    presence_is_of_members(&presence);
    let run = transcript.finish(journal)?;
    let _entries = (run.len(), cut.len());
    let left = pick_all(alloc, run, cut)?;
    let RemadeRun { journal, draft } = remake(alloc, cut, &left)?;
    let book = Book::of_parts(
        alloc,
        Parts {
            presence,
            groups,
            journal,
        },
    );
    Ok(Finished {
        book,
        transcript: draft,
    })
}

/// Goes on from a cut: the run of a plan, with the entries of the cut first. The plan is run again from its first tick. Where its
/// entries begin with the cut's, it is the run; else the cut's entries are picked out of its own.
pub fn resume_plan<R: Threads + Wait + Sync, G: Gate>(
    crew: &Crew<'_, R, G>,
    plan: &Plan,
    readings: &Readings,
    keys: &KeyTable,
    rack: &mut Rack,
    cut: &Transcript,
) -> Result<Finished, ResumeError>
    requires readings { readings.now.plan ≡ plan.now }
    requires keys { (table_of keys.now).plan ≡ plan.now }
    requires posts { posts_of rack.old ≡ [] }
    requires room { HasRoom (λ b. meaning (b.vtable, b.value)) rack.old }
    requires cut { cut.now.plan ≡ plan.now }
    ensures { ResumeEnds readings.now (table_of keys.now) (slots (λ b. meaning (b.vtable, b.value)) rack.old) cut.now result }
{
    let masks = ChaMasks::new(keys);
    let Heard { run, is_in_order } = run_beside(crew, readings, &masks, rack, cut)?;
    if is_in_order {
        return Ok(run);
    }
    follow(crew.alloc, run, cut)
}
