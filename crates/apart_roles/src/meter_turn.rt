//! What a meter does with a line.

ghost use Rattle.std.specs.Prelude.{◌≡◌, IfOk, List, Ok};
ghost use Rattle.meter_apart.specs.declared.answers.Noted.{Noted};
ghost use Rattle.meter_apart.specs.declared.answers.Noted.TheVariants.{Read};
ghost use Rattle.meter_apart.specs.Meter.{IsAfter, meter_keys, meter_masks, meter_part};
ghost use Rattle.meter_apart.specs.Parts.{is_to_me};
ghost use Rattle.meter_apart.specs.Replies.{to_frame, to_reading};
ghost use Rattle.apart_lines.specs.declared.heard.ToMeter.TheVariants as hears;
ghost use Rattle.apart_lines.specs.Heard.{to_meter};
ghost use Rattle.apart_lines.specs.Said.{CanMeterSay};
ghost use Rattle.apart_roles.specs.MeterTurns.{Answers, HasJournal, Keeps, Prepares, by_frame, by_reading, noted_frame, noted_line};

use crate::outcome::RoleError;
use crate::saying::{note, say};
use apart_lines::{MeterSays, ToMeter, read_to_meter};
use desk_outside::Wire;
use group_plan::Kind;
use meter_apart::{FrameRefusal, MeterApart, Noted, Part, ReadingRefusal};
use meter_frames::Frame;
use std::alloc::Global;

// Whether a frame is an announcement to the meter of this part.
fn is_to_me(part: &Part, frame: &Frame) -> bool
    ensures { result ≡ is_to_me part.now frame.now.tag }
{
    let tag = frame.tag;
    tag.group == part.group() && tag.meter == part.meter() && matches!(tag.kind, Kind::Announcement)
}

// What is said of a reading.
fn by_reading(said: Result<Frame, ReadingRefusal>) -> MeterSays
    ensures { result ≡ by_reading said }
{
    match said {
        Ok(frame) => MeterSays::Said(frame),
        Err(cause) => MeterSays::Unread(cause),
    }
}

// What is said to a frame.
fn by_frame(said: Result<Frame, FrameRefusal>) -> MeterSays
    ensures { result ≡ by_frame said }
{
    match said {
        Ok(answer) => MeterSays::Said(answer),
        Err(cause) => MeterSays::Unanswered(cause),
    }
}

// Goes on by a line where it can follow, and has it on the disk.
fn keep<W: Wire>(
    alloc: Global,
    wire: &mut W,
    meter: &mut MeterApart,
    line: &Noted,
) -> Result<(), RoleError>
    ensures keys { meter_keys meter.new ≡ meter_keys meter.old }
    ensures keeps { (journal : List Noted) → IsAfter journal meter.old → Keeps (noted_line (meter_part meter.old) journal line.now) journal (W.view wire.old) (W.view wire.new) result meter.new }
{
    if meter.follow(line) {
        note(alloc, wire, line)
    } else {
        Ok(())
    }
}

// Keeps the set of a frame that is an announcement to the meter.
fn keep_set<W: Wire>(
    alloc: Global,
    wire: &mut W,
    meter: &mut MeterApart,
    frame: &Frame,
) -> Result<(), RoleError>
    ensures keys { meter_keys meter.new ≡ meter_keys meter.old }
    ensures keeps { (journal : List Noted) → IsAfter journal meter.old → Keeps (noted_frame (meter_part meter.old) journal frame.now) journal (W.view wire.old) (W.view wire.new) result meter.new }
{
    if !is_to_me(meter.part(), frame) {
        return Ok(());
    }
    let line = Noted::Kept {
        round: frame.tag.round,
        set: frame.missing,
    };
    keep(alloc, wire, meter, &line)
}

// What a meter says to a reading of a round that its plan has. The first reading of a round is noted.
fn answer_reading<W: Wire>(
    alloc: Global,
    wire: &mut W,
    meter: &mut MeterApart,
    round: u32,
    reading: u64,
) -> Result<MeterSays, RoleError>
    requires { HasJournal meter.old }
    ensures keys { meter_keys meter.new ≡ meter_keys meter.old }
    ensures can { IfOk result CanMeterSay }
    ensures prepares { (journal : List Noted) → IsAfter journal meter.old → Prepares (noted_line (meter_part meter.old) journal (Read round reading)) (by_reading (to_reading (meter_part meter.old) (meter_masks meter.old) journal round reading)) journal (W.view wire.old) (W.view wire.new) result meter.new }
{
    keep(alloc, wire, meter, &Noted::Read { round, reading })?;
    Ok(by_reading(meter.read(round, reading)))
}

// What a meter says to a frame. The first set that is answered in a round is noted.
fn answer_frame<W: Wire>(
    alloc: Global,
    wire: &mut W,
    meter: &mut MeterApart,
    frame: &Frame,
) -> Result<MeterSays, RoleError>
    requires { HasJournal meter.old }
    ensures keys { meter_keys meter.new ≡ meter_keys meter.old }
    ensures can { IfOk result CanMeterSay }
    ensures prepares { (journal : List Noted) → IsAfter journal meter.old → Prepares (noted_frame (meter_part meter.old) journal frame.now) (by_frame (to_frame (meter_part meter.old) (meter_masks meter.old) journal frame.now)) journal (W.view wire.old) (W.view wire.new) result meter.new }
{
    keep_set(alloc, wire, meter, frame)?;
    Ok(by_frame(meter.hear(frame)))
}

// Answers a reading, of a round that the plan may lack.
#[tactic(auto, using(crate::proofs::TurnLemmas::unprepared, crate::proofs::TurnLemmas::no_round))]
fn turn_reading<W: Wire>(
    alloc: Global,
    wire: &mut W,
    meter: &mut MeterApart,
    round: u64,
    reading: u64,
) -> Result<(), RoleError>
    requires { HasJournal meter.old }
    ensures keys { meter_keys meter.new ≡ meter_keys meter.old }
    ensures answers { (journal : List Noted) → IsAfter journal meter.old → Answers meter.old journal (hears.Reading round reading) (W.view wire.old) (W.view wire.new) result meter.new }
{
    if round >= u64::from(meter.part().rounds()) {
        return say(alloc, wire, &MeterSays::Unread(ReadingRefusal::Round));
    }
    let says = answer_reading(alloc, wire, meter, round as u32, reading)?;
    say(alloc, wire, &says)
}

// Answers a frame.
fn turn_frame<W: Wire>(
    alloc: Global,
    wire: &mut W,
    meter: &mut MeterApart,
    frame: &Frame,
) -> Result<(), RoleError>
    requires { HasJournal meter.old }
    ensures keys { meter_keys meter.new ≡ meter_keys meter.old }
    ensures answers { (journal : List Noted) → IsAfter journal meter.old → Answers meter.old journal (hears.Frame (Ok frame.now)) (W.view wire.old) (W.view wire.new) result meter.new }
{
    let says = answer_frame(alloc, wire, meter, frame)?;
    say(alloc, wire, &says)
}

/// Answers a line, without its newline. What has to be in the journal is on the disk before anything is said.
#[tactic(auto, using(crate::proofs::TurnLemmas::said_at_once))]
pub(crate) fn answer_line<W: Wire>(
    alloc: Global,
    wire: &mut W,
    meter: &mut MeterApart,
    line: &[u8],
) -> Result<(), RoleError>
    requires { HasJournal meter.old }
    ensures keys { meter_keys meter.new ≡ meter_keys meter.old }
    ensures answers { (journal : List Noted) → IsAfter journal meter.old → Answers meter.old journal (to_meter line.now) (W.view wire.old) (W.view wire.new) result meter.new }
{
    match read_to_meter(line) {
        ToMeter::Nothing => Ok(()),
        ToMeter::Unknown => say(alloc, wire, &MeterSays::UnknownLine),
        ToMeter::Frame(Err(rule)) => say(alloc, wire, &MeterSays::Broken(rule)),
        ToMeter::Frame(Ok(frame)) => turn_frame(alloc, wire, meter, &frame),
        ToMeter::Reading { round, reading } => turn_reading(alloc, wire, meter, round, reading),
    }
}
