//! Whether a transcript is in time: its entries one after another.

ghost use Rattle.run_course.specs.Ends.{CourseEnds};

use crate::CourseError;
use crate::course::Course;
use std::alloc::Global;
use transcript_log::Transcript;

/// Whether the entries of a transcript are a run of its plan, whoever has a reading and whatever became of the frames; or the first
/// entry with which no run begins, or that a run begins with them and goes on.
pub fn in_time(alloc: Global, transcript: &Transcript) -> Result<(), CourseError>
    ensures { CourseEnds transcript.now result }
{
    let mut course = Course::new(alloc, transcript.plan())?;
    for at in 0..transcript.len() {
        let entry = transcript.entry(at);
        if !course.judge(&entry)? {
            return Err(CourseError::Entry(at as u64));
        }
    }
    if course.is_whole()? {
        Ok(())
    } else {
        Err(CourseError::Unfinished)
    }
}
