//! Lines added to a journal that has room for them.

ghost use Rattle.std.specs.Prelude.{◌≡◌, ◌<◌, ◌≤◌, ◌+◌, ◌++◌, [], ◌∷◌};
ghost use Rattle.event_schedule.specs.declared.Line.TheVariants.{Send as SendLine, Take as TakeLine, Close as CloseLine, End as EndLine};
ghost use Rattle.transcript_log.specs.Lines.{HasOwnTag};

use event_schedule::Line;
use group_plan::Tag;
use meter_frames::Frame;
use round_machine::{Closing, Ending, Verdict};
use transcript_log::Lines;

/// Adds the line of a Send, with no frame where it had no effect.
pub(crate) fn add_send(journal: &mut Lines, tag: Tag, frame: Option<Frame>)
    requires room { 0 < journal.old.spare }
    requires own { HasOwnTag (SendLine tag frame) }
    ensures lines { journal.new.items ≡ journal.old.items ++ SendLine tag frame ∷ [] }
    ensures spare { journal.old.spare ≤ journal.new.spare + 1 }
{
    journal.push_reserved(&Line::Send { tag, frame });
}

/// Adds the line of a Take with its verdict.
pub(crate) fn add_take(journal: &mut Lines, tag: Tag, verdict: Verdict)
    requires { 0 < journal.old.spare }
    ensures lines { journal.new.items ≡ journal.old.items ++ TakeLine tag verdict ∷ [] }
    ensures spare { journal.old.spare ≤ journal.new.spare + 1 }
{
    journal.push_reserved(&Line::Take { tag, verdict });
}

/// Adds the line of a Close.
pub(crate) fn add_close(journal: &mut Lines, group: u16, round: u32, closing: &Closing)
    requires { 0 < journal.old.spare }
    ensures lines { journal.new.items ≡ journal.old.items ++ CloseLine group round closing.now ∷ [] }
    ensures spare { journal.old.spare ≤ journal.new.spare + 1 }
{
    journal.push_reserved(&Line::Close {
        group,
        round,
        closing: *closing,
    });
}

/// Adds the line of an End.
pub(crate) fn add_end(journal: &mut Lines, group: u16, round: u32, ending: &Ending)
    requires { 0 < journal.old.spare }
    ensures lines { journal.new.items ≡ journal.old.items ++ EndLine group round ending.now ∷ [] }
    ensures spare { journal.old.spare ≤ journal.new.spare + 1 }
{
    journal.push_reserved(&Line::End {
        group,
        round,
        ending: *ending,
    });
}
