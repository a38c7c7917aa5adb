//! The command `ringtwin`.

ghost use Rattle.std.specs.Prelude.{◌≤◌};
ghost use Rattle.desk_outside.specs.Desk.{Rose};
ghost use Rattle.command_words.specs.Commands.{twin_names_of};
ghost use Rattle.command_words.specs.Outcomes.{IsFault};
ghost use Rattle.file_commands.specs.TwinEnds.{RingTwinEnds};

use crate::twins::{Fetched, fetch_texts, put_moved};
use command_texts::ring_words_moved;
use command_words::{Outcome, RingTwinWords};
use desk_outside::Desk;
use std::alloc::Global;
use std::thread::Threads;

/// Fetches a plan, two tables of readings and a transcript of `ring`, and puts the mask words of neighbours that move so that the
/// second table gives the transcript of the first.
pub fn ring_twin<'a, R: Threads + Sync, D: Desk>(
    rt: &R,
    alloc: Global,
    words: RingTwinWords<'a>,
    desk: &mut D,
) -> Outcome<'a>
    ensures ends { RingTwinEnds words.entry.width (twin_names_of words.entry.files) (D.view desk.old) (D.view desk.new) result }
    ensures later { D.faults desk.old ≤ D.faults desk.new }
    ensures cause { IsFault result → Rose (D.faults desk.old) (D.faults desk.new) }
{
    let files = words.files;
    let Fetched { texts, read } = or_end!(fetch_texts(rt, alloc, files, desk));
    let moved = or_end!(ring_words_moved(rt, alloc, words.width, files, &texts, read));
    put_moved(rt, alloc, "twin", files.masks, &moved, desk)
}
