//! A part of a draft.

ghost use Rattle.std.specs.Prelude.{◌≡◌, ◌≤◌, ◌++◌, ◌∷◌, [], OnOk};
ghost use Rattle.event_schedule.specs.Events.{lines_of};
ghost use Rattle.event_schedule.specs.Transcripts.{last_tick_from, Fits};
ghost use Rattle.transcript_log.specs.Lines.{HasOwnTag};

use crate::fixtures::{check_bytes, check_same};
use event_schedule::{Entry, Line};
use group_plan::{Kind, Plan, Tag};
use link_lanes::Fate;
use round_machine::Verdict;
use row_fixtures::plan_of_north;
use std::alloc::{AllocError, Global};
use std::process::Abort;
use std::test::Fail;
use transcript_log::{Draft, Lines, Transcript};

// The reading of meter 2 in round 0.
const TAG: Tag = Tag {
    group: 0,
    round: 0,
    meter: 2,
    kind: Kind::Reading,
};

const FRESH: Line = Line::Take {
    tag: TAG,
    verdict: Verdict::Fresh,
};

const AGAIN: Line = Line::Take {
    tag: TAG,
    verdict: Verdict::Again,
};

// Adds an entry to a draft of this plan and to the journal of its lines.
fn add(plan: &Plan, draft: &mut Draft, journal: &mut Lines, entry: Entry) -> Result<(), AllocError>
    requires plan { draft.old.plan ≡ plan.now }
    requires tick { last_tick_from 0 draft.old.entries ≤ entry.tick }
    requires fits { Fits plan.now entry }
    requires own { HasOwnTag entry.line }
    requires lines { journal.old.items ≡ lines_of draft.old.entries }
    ensures plan { draft.new.plan ≡ draft.old.plan }
    ensures entries { OnOk result (draft.new.entries ≡ draft.old.entries ++ entry ∷ []) }
    ensures lines { OnOk result (journal.new.items ≡ journal.old.items ++ entry.line ∷ []) }
{
    let _groups = plan.groups();
    journal.push(&entry.line)?;
    draft.push(entry, journal)
}

// Adds two entries, at ticks 7 and 8.
fn fill(plan: &Plan, draft: &mut Draft, journal: &mut Lines) -> Result<(), Fail>
    requires plan { draft.old.plan ≡ plan.now }
    requires entries { draft.old.entries ≡ [] }
    requires lines { journal.old.items ≡ [] }
    ensures { OnOk result (journal.new.items ≡ lines_of draft.new.entries) }
{
    if !plan.holds(TAG) {
        return Err(Fail::new("another plan"));
    }
    let fate = Fate::lost();
    let first = Entry {
        tick: 7,
        fate,
        line: FRESH,
    };
    add(plan, draft, journal, first)?;
    let second = Entry {
        tick: 8,
        fate,
        line: AGAIN,
    };
    add(plan, draft, journal, second)?;
    Ok(())
}

// Looks for the second entry.
fn check_entry(rt: &impl Abort, entry: &Entry) {
    check_same(rt, &entry.tick, &8, "its tick");
    check_bytes(rt, entry.fate.delays(), b"", "its fate");
    check_same(rt, &entry.line, &AGAIN, "its line");
}

// Looks for a tail of the second entry alone.
fn check_tail(rt: &impl Abort, tail: &Transcript) {
    check_same(rt, &tail.len(), &1, "the tail");
    if tail.len() == 1 {
        check_entry(rt, &tail.entry(0));
    }
}

// Adds the two entries, and looks for both in the draft, and for the second in its tail.
fn check_draft(
    rt: &impl Abort,
    plan: &Plan,
    draft: &mut Draft,
    journal: &mut Lines,
) -> Result<(), Fail>
    requires plan { draft.old.plan ≡ plan.now }
    requires entries { draft.old.entries ≡ [] }
    requires lines { journal.old.items ≡ [] }
{
    fill(plan, draft, journal)?;
    check_same(rt, &draft.len(), &2, "the draft");
    if draft.len() == 2 {
        check_tail(rt, &draft.tail(journal, 1)?);
    }
    Ok(())
}

// The same of a new draft.
fn check_drafted(
    rt: &impl Abort,
    alloc: Global,
    plan: &Plan,
    journal: &mut Lines,
) -> Result<(), Fail>
    requires { journal.old.items ≡ [] }
{
    let mut draft = Draft::with_room(alloc, plan, 2)?;
    check_draft(rt, plan, &mut draft, journal)
}

#[test]
fn second_entry(rt: HostRuntime) -> Result<(), Fail> {
    let plan = plan_of_north(rt.alloc(), 1)?;
    let mut journal = Lines::new(rt.alloc());
    check_drafted(&rt, rt.alloc(), &plan, &mut journal)
}
