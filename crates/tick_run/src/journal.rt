//! What all groups made of a tick, in the journal and in the transcript: their Takes, then their Closes and Ends, then their Sends.

ghost use Rattle.std.specs.Prelude.{◌≡◌, ◌+◌, ◌-◌, ◌≤◌, ◌++◌, ◌∷◌, [], All, Some, length, take, drop, OnOk};
ghost use Rattle.event_schedule.specs.declared.Line.TheVariants.{Send};
ghost use Rattle.transcript_log.specs.Drafts.{Begins};
ghost use Rattle.event_schedule.specs.Events.{lines_of};
ghost use Rattle.event_schedule.specs.Transcripts.{last_tick_from};
ghost use Rattle.tick_run.specs.ByGroups.{AllInParts, taken_by, closed_by, sends_by, sent_by, quiet_then, Fated};
ghost use Rattle.tick_run.specs.GroupRuns.{sent_with};
ghost use Rattle.tick_run.specs.Progress.{sending};
ghost use Rattle.tick_run.specs.Sending.{IsOfPlan};
ghost use Rattle.tick_run.specs.Written.{Fits};

use crate::running::Group;
use event_schedule::{Entry, Line};
use link_lanes::Fate;
use meter_frames::Frame;
use std::alloc::AllocError;
use transcript_log::{Draft, Lines};

/// Adds the Takes of all groups to the journal.
fn add_taken(groups: &[Group], journal: &mut Lines) -> Result<(), AllocError>
    requires { AllInParts groups.now }
    ensures { OnOk result (journal.new.items ≡ journal.old.items ++ taken_by groups.now) }
{
    for group in groups {
        let work = &group.work;
        journal.append_part(&work.lines, 0, work.closed_from)?;
    }
    Ok(())
}

/// Adds the Closes and Ends of all groups to the journal.
fn add_closed(groups: &[Group], journal: &mut Lines) -> Result<(), AllocError>
    requires { AllInParts groups.now }
    ensures { OnOk result (journal.new.items ≡ journal.old.items ++ closed_by groups.now) }
{
    for group in groups {
        let work = &group.work;
        journal.append_part(&work.lines, work.closed_from, work.sent_from)?;
    }
    Ok(())
}

/// Adds the Sends of all groups to the journal.
fn add_sent(groups: &[Group], journal: &mut Lines) -> Result<(), AllocError>
    requires { AllInParts groups.now }
    ensures { OnOk result (journal.new.items ≡ journal.old.items ++ sends_by groups.now) }
{
    for group in groups {
        let work = &group.work;
        journal.append_part(&work.lines, work.sent_from, work.lines.len())?;
    }
    Ok(())
}

/// Writes down the lines of all groups in a tick: Takes, then Closes and Ends with their entries, then Sends, whose entries are left
/// for when their frames have met their fates.
pub(crate) fn write_lines(
    tick: u32,
    groups: &[Group],
    journal: &mut Lines,
    transcript: &mut Draft,
) -> Result<(), AllocError>
    requires later { last_tick_from 0 transcript.old.entries ≤ tick }
    requires journal { journal.old.items ≡ lines_of transcript.old.entries }
    requires fits { All (Fits transcript.old.plan) groups.now }
    ensures transcript { OnOk result (transcript.new ≡ record transcript.old { entries = quiet_then tick transcript.old.entries groups.now }) }
    ensures journal { OnOk result (journal.new.items ≡ lines_of transcript.new.entries ++ sends_by groups.now) }
{
    add_taken(groups, journal)?;
    add_closed(groups, journal)?;
    transcript.push_all(tick, journal)?;
    add_sent(groups, journal)
}

/// Adds the entry of a Send to the transcript. Its line is the journal's next one.
fn stamp_one(
    tick: u32,
    frame: &Frame,
    fate: Fate,
    transcript: &mut Draft,
    journal: &Lines,
) -> Result<(), AllocError>
    requires later { last_tick_from 0 transcript.old.entries ≤ tick }
    requires frame { IsOfPlan transcript.old.plan frame.now }
    requires next { Begins journal.now.items (lines_of transcript.old.entries ++ Send frame.now.tag (Some frame.now) ∷ []) }
    ensures { OnOk result (transcript.new ≡ record transcript.old { entries = transcript.old.entries ++ sending tick frame.now.tag (Some frame.now) fate ∷ [] }) }
{
    let line = Line::Send {
        tag: frame.tag,
        frame: Some(*frame),
    };
    transcript.push(Entry { tick, fate, line }, journal)
}

/// Adds the entries of a group's Sends to the transcript, each with its fate. Their lines are the journal's next ones.
fn stamp_group(
    tick: u32,
    frames: &[Frame],
    fates: &[Fate],
    transcript: &mut Draft,
    journal: &Lines,
) -> Result<(), AllocError>
    requires later { last_tick_from 0 transcript.old.entries ≤ tick }
    requires frames { All (IsOfPlan transcript.old.plan) frames.now }
    requires fates { length fates.now ≡ length frames.now }
    requires lines { Begins journal.now.items (lines_of (transcript.old.entries ++ sent_with tick frames.now fates.now)) }
    ensures stamped { OnOk result (transcript.new ≡ record transcript.old { entries = transcript.old.entries ++ sent_with tick frames.now fates.now }) }
    ensures later { OnOk result (last_tick_from 0 transcript.new.entries ≤ tick) }
{
    for at in 0..frames.len() {
        stamp_one(tick, &frames[at], fates[at], transcript, journal)?;
    }
    Ok(())
}

/// Adds the entries of all groups' Sends to the transcript, one group after another. Their lines are the journal's last ones.
pub(crate) fn stamp_all(
    tick: u32,
    groups: &[Group],
    transcript: &mut Draft,
    journal: &Lines,
) -> Result<(), AllocError>
    requires later { last_tick_from 0 transcript.old.entries ≤ tick }
    requires fits { All (Fits transcript.old.plan) groups.now }
    requires fated { All Fated groups.now }
    requires lines { journal.now.items ≡ lines_of (transcript.old.entries ++ sent_by tick groups.now) }
    ensures { OnOk result (transcript.new ≡ record transcript.old { entries = transcript.old.entries ++ sent_by tick groups.now }) }
{
    for group in groups {
        let work = &group.work;
        stamp_group(tick, &work.frames, &work.fates, transcript, journal)?;
    }
    Ok(())
}
