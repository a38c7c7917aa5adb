//! The entries of a cut, and behind them those that are left of a run.

ghost use Rattle.std.specs.Prelude.{◌≡◌, ◌≤◌, ◌<◌, ◌++◌, [], ◌∷◌, All, IfOk, OnOk, drop, length};
ghost use Rattle.event_schedule.specs.Transcripts.{Fits, NeverFalls};
ghost use Rattle.cut_resume.specs.Left.{IsLeft, at_places, entries_left};
ghost use Rattle.cut_resume.specs.Remaking.{CanGoOn, GoesOn, IsRemade};

use crate::left::Left;
use event_schedule::Entry;
use std::alloc::{AllocError, Global};
use transcript_log::{Draft, Lines, Transcript};

/// A run that is remade: its entries, and the journal that has their lines.
#[derive(Drop)]
pub(crate) struct RemadeRun {
    pub journal: Lines,
    pub draft: Draft,
}

/// Writes an entry.
fn add(made: &mut RemadeRun, entry: Entry) -> Result<(), AllocError>
    requires { CanGoOn made.old (entry ∷ []) }
    ensures { OnOk result (GoesOn made.old (entry ∷ []) made.new) }
{
    made.journal.push(&entry.line)?;
    made.draft.push(entry, &made.journal)
}

/// Writes the entries of a run at these places.
fn add_places(made: &mut RemadeRun, run: &Transcript, places: &[usize]) -> Result<(), AllocError>
    requires places { All (λ k. k < length run.now.entries) places.now }
    requires entries { CanGoOn made.old (at_places run.now.entries places.now) }
    ensures { OnOk result (GoesOn made.old (at_places run.now.entries places.now) made.new) }
{
    for at in 0..places.len() {
        add(made, run.entry(places[at]))?;
    }
    Ok(())
}

/// Writes the entries of a transcript from a place on.
fn add_from(made: &mut RemadeRun, part: &Transcript, from: usize) -> Result<(), AllocError>
    requires within { from ≤ length part.now.entries }
    requires entries { CanGoOn made.old (drop from part.now.entries) }
    ensures { OnOk result (GoesOn made.old (drop from part.now.entries) made.new) }
{
    for at in from..part.len() {
        add(made, part.entry(at))?;
    }
    Ok(())
}

/// The entries of a cut, and behind them those that are left of a run.
pub(crate) fn remake(alloc: Global, cut: &Transcript, left: &Left) -> Result<RemadeRun, AllocError>
    requires left { IsLeft left.now }
    requires fits { All (Fits cut.now.plan) (cut.now.entries ++ entries_left left.now) }
    requires ticks { NeverFalls 0 (cut.now.entries ++ entries_left left.now) }
    ensures { IfOk result (IsRemade cut.now (entries_left left.now)) }
{
    let entries = left.run.len();
    let mut made = RemadeRun {
        journal: Lines::with_room(alloc, entries)?,
        draft: Draft::with_room(alloc, cut.plan(), entries)?,
    };
    add_from(&mut made, cut, 0)?;
    add_places(&mut made, &left.run, &left.passed)?;
    add_from(&mut made, &left.run, left.next)?;
    Ok(made)
}
