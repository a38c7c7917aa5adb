//! What a run that is over has made.

ghost use Rattle.std.specs.Prelude.{◌≡◌, ◌<◌, ℕ, length, slice_index_or};
ghost use Rattle.group_plan.specs.Plans.{IsWithinLimits};
ghost use Rattle.group_plan.specs.Tables.{IsPresenceTable, IsReadingTable};
ghost use Rattle.shared_book.specs.Ends.{opening, view, IsPassOf};
ghost use Rattle.tick_run.specs.declared.running.Group.{Group as GroupValue};
ghost use Rattle.tick_run.specs.Sharing.{leading, IsSplit, JoinsGroups, HaveMade};

use crate::running::{Group, Running};
use group_book::{Book, Parts};
use group_plan::{Presence, Readings};
use shared_book::{Pass, SharedBook};
use std::alloc::Global;
use transcript_log::Draft;

/// What a run that is over has made: its book, and its transcript, of which the lines stand in the book's journal.
#[derive(Drop)]
pub struct Finished {
    pub book: Book,
    pub transcript: Draft,
}

/// Learns the limits of the plan and of its readings.
pub(crate) fn readings_are_limited(readings: &Readings)
    ensures limits { IsWithinLimits readings.now.plan }
    ensures table { IsReadingTable readings.now.plan readings.now.table }
{
    let _rounds = readings.plan().rounds();
}

/// Learns that only members have a reading.
pub(crate) fn presence_is_of_members(presence: &Presence)
    ensures { IsPresenceTable presence.now.plan presence.now.table }
{
    let _plan = presence.plan();
}

/// Takes the passes of all groups back.
fn join_all(shared: &SharedBook, first: &mut Pass, groups: Vec<Group>)
    requires pass { IsPassOf shared.now first.old }
    requires leads { view first.old ≡ leading (length groups.items) }
    requires groups { (g : ℕ) (d : GroupValue) → g < length groups.items → IsSplit shared.now g (slice_index_or groups.items g d).pass }
    ensures pass { IsPassOf shared.now first.new }
    ensures joins { JoinsGroups (length groups.items) groups.items (view first.new) }
{
    for group in groups {
        let Group { pass, .. } = group;
        shared.join(first, pass);
    }
}

/// What a run has made, once it is over: the passes are joined, the shared book is shut, and its pages make a book with the journal.
pub(crate) fn make_finished(alloc: Global, run: Running) -> Finished
    requires { HaveMade run.shared run.first run.groups.items run.journal.items }
    ensures presence { result.book.presence ≡ (opening run.shared).presence }
    ensures journal { result.book.journal ≡ run.journal.items }
    ensures transcript { result.transcript ≡ run.transcript }
{
    let Running {
        shared,
        mut first,
        groups,
        journal,
        transcript,
        fates: _,
    } = run;
    join_all(&shared, &mut first, groups);
    let Parts {
        presence,
        groups,
        journal: _,
    } = shared.shut(first);
    let book = Book::of_parts(
        alloc,
        Parts {
            presence,
            groups,
            journal,
        },
    );
    Finished { book, transcript }
}
