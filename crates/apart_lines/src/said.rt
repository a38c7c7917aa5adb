//! What a head end says, and what a meter says.

ghost use Rattle.std.specs.Prelude.{◌≡◌, ◌++◌, ◌∷◌, [], codes, decimal, OnOk};
ghost use Rattle.group_plan.specs.Plans.{name_of};
ghost use Rattle.meter_frames.specs.Frames.{FitsKind, IsFrame};
ghost use Rattle.field_texts.specs.Sets.{numbers_text};
ghost use Rattle.transcript_text.specs.Spelling.{joined};
ghost use Rattle.totals_report.specs.Texts.{fields_of};
ghost use Rattle.apart_lines.specs.Frames.{digits_of};
ghost use Rattle.apart_lines.specs.Heard.{to_head_end, to_meter};
ghost use Rattle.apart_lines.specs.Said.{broken_name, refusal_name, unread_name, why_name, unanswered_name, refused_fields, reply_fields, closing_word, tick_line_fields, head_end_text, CanSayLine, HasSpelling, CanSay, head_end_to_meter, meter_text, CanMeterSay, meter_to_head_end};

use crate::digits::digits;
use field_texts::{put_number, put_set};
use group_plan::Plan;
use head_end::{Refusal, Reply, TickLine};
use meter_apart::{FrameRefusal, ReadingRefusal};
use meter_core::Why;
use meter_frames::{Frame, FrameError};
use missing_round::MeterSet;
use std::alloc::{AllocError, Global};
use totals_report::{ReportRow, row_text};

/// What a head end says, a line each.
#[derive(Clone, Copy, PartialEq, Eq)]
pub enum HeadEndSays {
    /// The reply to a frame.
    Reply(Reply),
    /// The digits are no frame: the first rule that their bytes break.
    Broken(FrameError),
    /// The line says nothing that a head end knows.
    UnknownLine,
    /// The tick is neither the next one nor one that has passed.
    WrongTick,
    /// A line of a tick, or an announcement that is said again.
    Line(TickLine),
    /// All lines of this tick have been said.
    Ticked(u32),
    /// The report has been put.
    Reported,
    /// So many ticks have passed, and the next line can come.
    Ready(u32),
}

/// What a meter says, a line each.
#[derive(Clone, Copy, PartialEq, Eq)]
pub enum MeterSays {
    /// The frame of a reading, or that of an answer.
    Said(Frame),
    /// Why a reading is refused.
    Unread(ReadingRefusal),
    /// Why a frame has no answer.
    Unanswered(FrameRefusal),
    /// The digits are no frame: the first rule that their bytes break.
    Broken(FrameError),
    /// The line says nothing that a meter knows.
    UnknownLine,
    /// The next line can come.
    Ready,
}

// The name of a rule that bytes break.
fn broken_name(rule: FrameError) -> &'static [u8]
    ensures { result.now ≡ broken_name rule }
{
    match rule {
        FrameError::Length(_) => b"Length",
        FrameError::Magic => b"Magic",
        FrameError::Version => b"Version",
        FrameError::Kind => b"Kind",
        FrameError::Reserved => b"Reserved",
        FrameError::SetInReading => b"SetInReading",
        FrameError::WordInAnnouncement => b"WordInAnnouncement",
    }
}

// The name of a head end's refusal.
fn refusal_name(refusal: Refusal) -> &'static [u8]
    ensures { result.now ≡ refusal_name refusal }
{
    match refusal {
        Refusal::Announcement => b"Announcement",
        Refusal::Plan => b"Plan",
        Refusal::Set => b"Set",
    }
}

// The name of a reading's refusal.
fn unread_name(refusal: ReadingRefusal) -> &'static [u8]
    ensures { result.now ≡ unread_name refusal }
{
    match refusal {
        ReadingRefusal::Round => b"Round",
        ReadingRefusal::Range => b"Range",
        ReadingRefusal::Twice => b"Twice",
    }
}

// The name of the cause for which a set isn't answered.
fn why_name(why: Why) -> &'static [u8]
    ensures { result.now ≡ why_name why }
{
    match why {
        Why::OutOfPlan => b"OutOfPlan",
        Why::NotRead => b"NotRead",
        Why::SelfMissing => b"SelfMissing",
        Why::Thin(_) => b"Thin",
        Why::OtherSet(_) => b"OtherSet",
    }
}

// The name of the cause for which a frame has no answer.
fn unanswered_name(refusal: FrameRefusal) -> &'static [u8]
    ensures { result.now ≡ unanswered_name refusal }
{
    match refusal {
        FrameRefusal::Tag => b"Tag",
        FrameRefusal::Why(why) => why_name(why),
    }
}

// Appends a refusal with the name of its cause.
fn put_refused(out: &mut Vec<u8>, cause: &[u8]) -> Result<(), AllocError>
    ensures { OnOk result (out.new.items ≡ out.old.items ++ joined (refused_fields cause.now)) }
{
    out.extend_from_slice(b"refused,")?;
    out.extend_from_slice(cause)
}

// Appends a reply to a frame.
fn put_reply(out: &mut Vec<u8>, reply: Reply) -> Result<(), AllocError>
    ensures { OnOk result (out.new.items ≡ out.old.items ++ joined (reply_fields reply)) }
{
    match reply {
        Reply::Fresh => out.extend_from_slice(b"fresh"),
        Reply::Again => out.extend_from_slice(b"again"),
        Reply::Differs => out.extend_from_slice(b"differs"),
        Reply::Late => out.extend_from_slice(b"late"),
        Reply::Void => out.extend_from_slice(b"void"),
        Reply::Refused(refusal) => put_refused(out, refusal_name(refusal)),
    }
}

// Appends a frame.
fn put_frame(out: &mut Vec<u8>, frame: &Frame) -> Result<(), AllocError>
    requires { FitsKind frame.now.tag.kind frame.now.missing frame.now.word }
    ensures text { OnOk result (out.new.items ≡ out.old.items ++ joined (codes "frame" ∷ digits_of frame.now ∷ [])) }
    ensures frame { IsFrame frame.now }
{
    let digits = digits(frame);
    out.extend_from_slice(b"frame,")?;
    out.extend_from_slice(&digits)
}

// Appends a word and the number behind it.
fn put_word(out: &mut Vec<u8>, word: &[u8], number: u32) -> Result<(), AllocError>
    ensures { OnOk result (out.new.items ≡ out.old.items ++ joined (word.now ∷ decimal number ∷ [])) }
{
    out.extend_from_slice(word)?;
    out.extend_from_slice(b",")?;
    put_number(out, u64::from(number))
}

// Appends the name of a group, where the plan has it.
#[tactic(auto, using(crate::proofs::SaidLemmas::name_found, crate::proofs::SaidLemmas::name_lacking))]
fn put_name(out: &mut Vec<u8>, plan: &Plan, group: u16) -> Result<(), AllocError>
    ensures { OnOk result (out.new.items ≡ out.old.items ++ name_of plan.now.groups group) }
{
    match plan.groups().get(group as usize) {
        Some(group) => out.extend_from_slice(group.name.bytes()),
        None => Ok(()),
    }
}

// Appends a word, the name of a group and a round, each with a comma behind it.
fn put_round(
    out: &mut Vec<u8>,
    word: &[u8],
    plan: &Plan,
    group: u16,
    round: u32,
) -> Result<(), AllocError>
    ensures { OnOk result (out.new.items ≡ out.old.items ++ word.now ++ codes "," ++ name_of plan.now.groups group ++ codes "," ++ decimal round ++ codes ",") }
{
    out.extend_from_slice(word)?;
    out.extend_from_slice(b",")?;
    put_name(out, plan, group)?;
    out.extend_from_slice(b",")?;
    put_number(out, u64::from(round))?;
    out.extend_from_slice(b",")
}

// Appends the number of survivors, the missing set, and whether the round is announced.
fn put_closing(
    out: &mut Vec<u8>,
    survivors: u16,
    missing: MeterSet,
    announced: bool,
) -> Result<(), AllocError>
    ensures { OnOk result (out.new.items ≡ out.old.items ++ joined (decimal survivors ∷ numbers_text missing ∷ closing_word announced ∷ [])) }
{
    put_number(out, u64::from(survivors))?;
    out.extend_from_slice(b",")?;
    put_set(out, missing)?;
    if announced {
        out.extend_from_slice(b",announced")
    } else {
        out.extend_from_slice(b",thin")
    }
}

// Appends a row of the report.
#[tactic(auto, using(crate::proofs::SaidLemmas::row_text))]
fn put_row(alloc: Global, out: &mut Vec<u8>, row: &ReportRow) -> Result<(), AllocError>
    ensures { OnOk result (out.new.items ≡ out.old.items ++ joined (codes "row" ∷ fields_of row.now)) }
{
    let text = row_text(alloc, row)?;
    out.extend_from_slice(b"row,")?;
    out.extend_from_slice(&text)
}

// Appends a line of a tick.
fn put_tick_line(
    alloc: Global,
    out: &mut Vec<u8>,
    plan: &Plan,
    line: &TickLine,
) -> Result<(), AllocError>
    requires { CanSayLine line.now }
    ensures text { OnOk result (out.new.items ≡ out.old.items ++ joined (tick_line_fields plan.now line.now)) }
    ensures frame { HasSpelling line.now }
{
    match line {
        TickLine::Lacking {
            group,
            round,
            lacking,
        } => {
            put_round(out, b"lacking", plan, *group, *round)?;
            put_set(out, *lacking)
        }
        TickLine::Row(row) => put_row(alloc, out, row),
        TickLine::Closed {
            group,
            round,
            survivors,
            missing,
            announced,
        } => {
            put_round(out, b"closed", plan, *group, *round)?;
            put_closing(out, *survivors, *missing, *announced)
        }
        TickLine::Announce(frame) => put_frame(out, frame),
    }
}

/// Appends what a head end of this plan says, without its newline. At `Err` a part may stand at the end.
#[tactic(auto, using(crate::proofs::SaidLemmas::head_end_heard), unfolding(crate::specs::Said::head_end_text))]
pub fn put_head_end_says(
    alloc: Global,
    out: &mut Vec<u8>,
    plan: &Plan,
    says: &HeadEndSays,
) -> Result<(), AllocError>
    requires { CanSay says.now }
    ensures text { OnOk result (out.new.items ≡ out.old.items ++ head_end_text plan.now says.now) }
    // A meter hears an announcement as it was said, and nothing of all else.
    ensures heard { to_meter (head_end_text plan.now says.now) ≡ head_end_to_meter says.now }
{
    match says {
        HeadEndSays::Reply(reply) => put_reply(out, *reply),
        HeadEndSays::Broken(rule) => put_refused(out, broken_name(*rule)),
        HeadEndSays::UnknownLine => put_refused(out, b"Line"),
        HeadEndSays::WrongTick => put_refused(out, b"Tick"),
        HeadEndSays::Line(line) => put_tick_line(alloc, out, plan, line),
        HeadEndSays::Ticked(tick) => put_word(out, b"ticked", *tick),
        HeadEndSays::Reported => out.extend_from_slice(b"reported"),
        HeadEndSays::Ready(ticks) => put_word(out, b"ready", *ticks),
    }
}

/// Appends what a meter says, without its newline. At `Err` a part may stand at the end.
#[tactic(auto, using(crate::proofs::SaidLemmas::meter_heard), unfolding(crate::specs::Said::meter_text))]
pub fn put_meter_says(out: &mut Vec<u8>, says: &MeterSays) -> Result<(), AllocError>
    requires { CanMeterSay says.now }
    ensures text { OnOk result (out.new.items ≡ out.old.items ++ meter_text says.now) }
    // A head end hears a frame as it was said, and nothing of all else.
    ensures heard { to_head_end (meter_text says.now) ≡ meter_to_head_end says.now }
{
    match says {
        MeterSays::Said(frame) => put_frame(out, frame),
        MeterSays::Unread(cause) => put_refused(out, unread_name(*cause)),
        MeterSays::Unanswered(cause) => put_refused(out, unanswered_name(*cause)),
        MeterSays::Broken(rule) => put_refused(out, broken_name(*rule)),
        MeterSays::UnknownLine => put_refused(out, b"Line"),
        MeterSays::Ready => out.extend_from_slice(b"ready"),
    }
}
