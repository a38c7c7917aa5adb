//! The line that one request adds to the pages of its group.

ghost use Rattle.std.specs.Prelude.{◌≡◌, ◌≤◌, List};
ghost use Rattle.group_plan.specs.Tables.{PresenceView};
ghost use Rattle.event_schedule.specs.declared.Line.{Line as LineView};
ghost use Rattle.group_book.specs.Replay.{Replays, CanCall};
ghost use Rattle.shared_book.specs.declared.parcel.Request.TheVariants.{Take as TakeRequest, Close as CloseRequest, End as EndRequest};
ghost use Rattle.shared_book.specs.Parcels.{group_in};
ghost use Rattle.shared_book.specs.Writes.{WriteEnds};

use crate::parcel::{CommitError, Reply, Request};
use group_book::GroupPages;
use meter_frames::Frame;
use transcript_log::Lines;

/// Makes one event on the pages of its group.
pub(crate) fn write(
    pages: &mut GroupPages,
    rounds: u32,
    request: &Request,
    lines: &mut Lines,
) -> Result<Reply, CommitError>
    requires can { CanCall pages.old }
    requires own { pages.old.group ≡ group_in request.now }
    requires rounds { rounds ≡ pages.old.rounds }
    requires spare { 1 ≤ lines.old.spare }
    ensures { (p : PresenceView) (j : List LineView) → Replays p j pages.old → WriteEnds p j request.now pages.old.group lines.old result pages.new lines.new }
{
    match request {
        Request::Take(frame) => take(pages, frame, lines),
        Request::Close { group: _, round } => close(pages, rounds, *round, lines),
        Request::End { group: _, round } => end(pages, rounds, *round, lines),
    }
}

/// The line of a frame that the pages take.
fn take(pages: &mut GroupPages, frame: &Frame, lines: &mut Lines) -> Result<Reply, CommitError>
    requires can { CanCall pages.old }
    requires own { frame.now.tag.group ≡ pages.old.group }
    requires spare { 1 ≤ lines.old.spare }
    ensures { (p : PresenceView) (j : List LineView) → Replays p j pages.old → WriteEnds p j (TakeRequest frame.now) pages.old.group lines.old result pages.new lines.new }
{
    match pages.take(frame, lines) {
        Ok(verdict) => Ok(Reply::Took(verdict)),
        Err(e) => Err(CommitError::Take(e)),
    }
}

/// The line of a Close of this round.
#[tactic(auto, using(crate::proofs::Writing::no_close))]
fn close(
    pages: &mut GroupPages,
    rounds: u32,
    round: u32,
    lines: &mut Lines,
) -> Result<Reply, CommitError>
    requires can { CanCall pages.old }
    requires rounds { rounds ≡ pages.old.rounds }
    requires spare { 1 ≤ lines.old.spare }
    ensures { (p : PresenceView) (j : List LineView) → Replays p j pages.old → WriteEnds p j (CloseRequest pages.old.group round) pages.old.group lines.old result pages.new lines.new }
{
    if round >= rounds {
        return Err(CommitError::Place);
    }
    Ok(Reply::Closed(pages.close(round, lines)))
}

/// The line of an End of this round.
#[tactic(auto, using(crate::proofs::Writing::no_end))]
fn end(
    pages: &mut GroupPages,
    rounds: u32,
    round: u32,
    lines: &mut Lines,
) -> Result<Reply, CommitError>
    requires can { CanCall pages.old }
    requires rounds { rounds ≡ pages.old.rounds }
    requires spare { 1 ≤ lines.old.spare }
    ensures { (p : PresenceView) (j : List LineView) → Replays p j pages.old → WriteEnds p j (EndRequest pages.old.group round) pages.old.group lines.old result pages.new lines.new }
{
    if round >= rounds {
        return Err(CommitError::Place);
    }
    Ok(Reply::Ended(pages.end(round, lines)))
}
