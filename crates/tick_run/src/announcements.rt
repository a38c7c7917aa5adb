//! The head end's announcements.

ghost use Rattle.std.specs.Prelude.{◌≡◌, ◌++◌, map, OnOk};
ghost use Rattle.missing_round.specs.Sets.{less};
ghost use Rattle.tick_run.specs.TickFrames.{announcement_frame};

use group_plan::{Kind, Tag};
use meter_frames::Frame;
use missing_round::MeterSet;
use mod_word::Word;
use std::alloc::AllocError;

/// Adds the announcement of a missing set to each other member.
pub(crate) fn add_announcements(
    group: u16,
    round: u32,
    members: &MeterSet,
    missing: &MeterSet,
    frames: &mut Vec<Frame>,
) -> Result<(), AllocError>
    ensures { OnOk result (frames.new.items ≡ frames.old.items ++ map (announcement_frame group round missing.now) (less members.now missing.now)) }
{
    for meter in members.minus(*missing).members() {
        let tag = Tag {
            group,
            round,
            meter,
            kind: Kind::Announcement,
        };
        frames.push(Frame {
            tag,
            missing: *missing,
            word: Word(0),
        })?;
    }
    Ok(())
}
