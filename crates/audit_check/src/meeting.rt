//! Who has a reading, noted by the first Send of it.

ghost use Rattle.std.specs.Prelude.{◌≡◌, is_some};
ghost use Rattle.event_schedule.specs.Events.{frame_of};
ghost use Rattle.audit_check.specs.Following.{IsReadingOf};

use event_schedule::Line;
use group_plan::{Kind, Tag};

/// The tag of a line that is a Send of a reading.
pub(crate) fn reading_of(line: &Line) -> Option<Tag>
    ensures { IsReadingOf line.now result }
{
    match *line {
        Line::Send { tag, .. } => match tag.kind {
            Kind::Reading => Some(tag),
            Kind::Announcement => None,
            Kind::Answer => None,
        },
        Line::Take { .. } => None,
        Line::Close { .. } => None,
        Line::End { .. } => None,
    }
}

/// Whether a line is a Send with a frame.
pub(crate) fn has_frame(line: &Line) -> bool
    ensures { result ≡ is_some (frame_of line.now) }
{
    match *line {
        Line::Send { frame, .. } => frame.is_some(),
        Line::Take { .. } => false,
        Line::Close { .. } => false,
        Line::End { .. } => false,
    }
}
