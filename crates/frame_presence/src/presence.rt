//! Who has a reading, by the frames of a transcript.

ghost use Rattle.std.specs.Prelude.{IfOk};
ghost use Rattle.event_schedule.specs.Events.{lines_of};
ghost use Rattle.frame_presence.specs.Presence.{HasTagPlace, IsPresenceOf, IsNoted, Notes};

use event_schedule::Line;
use group_plan::{Kind, Presence, Readings};
use std::alloc::{AllocError, Global};
use transcript_log::Transcript;

// Notes whether a line is a Send of a reading of a member, and has a frame: a reading of 0 stands for one that is present.
fn note(readings: &mut Readings, line: &Line)
    requires { HasTagPlace readings.old.plan line.now }
    ensures { Notes readings.old line.now readings.new }
{
    if let Line::Send { tag, frame } = *line {
        if let Kind::Reading = tag.kind {
            let member = readings.plan().is_member(tag.group, tag.round, tag.meter);
            let present = if member && frame.is_some() {
                Some(0)
            } else {
                None
            };
            readings.put(tag.group, tag.round, tag.meter, present);
        }
    }
}

/// A table of the readings that the frames of a transcript say are there: 0 watt-hours at each place whose meter is a member of
/// its round and whose reading's first Send has a frame, and none elsewhere.
pub fn readings_of_frames(alloc: Global, transcript: &Transcript) -> Result<Readings, AllocError>
    ensures { IfOk result (IsNoted transcript.now.plan (lines_of transcript.now.entries)) }
{
    let mut readings = Readings::new(alloc, transcript.plan())?;
    let mut at = transcript.len();
    while at > 0 {
        at -= 1;
        let entry = transcript.entry(at);
        note(&mut readings, &entry.line);
    }
    Ok(readings)
}

/// The presence that the frames of a transcript say: of the first Send of each reading.
pub fn presence_of_frames(alloc: Global, transcript: &Transcript) -> Result<Presence, AllocError>
    ensures { IfOk result (IsPresenceOf transcript.now.plan (lines_of transcript.now.entries)) }
{
    let readings = readings_of_frames(alloc, transcript)?;
    Presence::of(alloc, &readings)
}
