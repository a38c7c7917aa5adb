//! The texts of complaints.

ghost use Rattle.std.specs.Prelude.{◌≡◌, ◌++◌, IfOk, OnOk, codes, string_bytes};
ghost use Rattle.command_words.specs.Causes.{key_text, plan_error_name, span_error_name, key_error_text, cause_text, rack_cause_name, read_error_name};
ghost use Rattle.transcript_text.specs.Faults.{fault_line};
ghost use Rattle.command_words.specs.Outcomes.{HasComplaint, HasText, complaint_of, disagreement_complaint, file_complaint, lane_complaint, line_complaint, partner_complaint, row_complaint, row_or_nothing, shown_byte, shown_name, text_complaint, unread_complaint, unwritten_complaint};
ghost use Rattle.transcript_text.specs.declared.version.Version.TheVariants.{Two};
ghost use Rattle.transcript_text.specs.Spelling.{entry_text};
ghost use Rattle.transcript_text.specs.Writing.{IsWritable};

use crate::disagreement::Disagreement;
use crate::outcome::Outcome;
use crate::text_fault::TextFault;
use crate::unread::Unread;
use crate::unwritten::Unwritten;
use event_schedule::Entry;
use group_plan::{PlanError, SpanError};
use link_lanes::{RackCause, RackError};
use meter_files::part_name;
use pair_keys::{KeyError, KeyId};
use plan_files::{FileCause, FileFault};
use std::alloc::{AllocError, Global};
use totals_report::{ReportRow, row_text};
use transcript_text::{ReadError, line_text};

// Adds a byte of a name as a complaint shows it.
fn push_shown(text: &mut Vec<u8>, byte: u8) -> Result<(), AllocError>
    ensures { OnOk result (text.new.items ≡ text.old.items ++ shown_byte byte) }
{
    if !byte.is_ascii_control() {
        text.push(byte)?;
        return Ok(());
    }
    let mut digits = [0u8; 2];
    let _ = hex::encode_to_slice([byte], &mut digits);
    text.extend_from_slice(b"\\x")?;
    text.extend_from_slice(&digits)
}

// A text, a name as it is shown, and another text.
fn named(alloc: Global, before: &str, name: &str, after: &str) -> Result<Vec<u8>, AllocError>
    ensures { IfOk result (λ text. text.items ≡ before.now ++ (shown_name name.now ++ after.now)) }
{
    let mut text = Vec::from_slice(alloc, before.as_bytes())?;
    for byte in name.as_bytes() {
        push_shown(&mut text, *byte)?;
    }
    text.extend_from_slice(after.as_bytes())?;
    Ok(text)
}

// A key by its numbers: `own G I` or `pair G I J`.
#[tactic(auto, unfolding(crate::specs::Causes::key_text))]
fn key_text(alloc: Global, key: KeyId) -> Result<String, AllocError>
    ensures { IfOk result (λ text. string_bytes text ≡ key_text key) }
{
    match key {
        KeyId::Own { group, meter } => format!(in alloc; "own {group} {meter}"),
        KeyId::Pair { group, low, high } => format!(in alloc; "pair {group} {low} {high}"),
    }
}

fn plan_error_name(error: PlanError) -> &'static str
    ensures { result.now ≡ plan_error_name error }
{
    match error {
        PlanError::NoGroup => "NoGroup",
        PlanError::TooManyGroups(_) => "TooManyGroups",
        PlanError::SameName(_, _) => "SameName",
        PlanError::Meters(_) => "Meters",
        PlanError::Floor(_) => "Floor",
        PlanError::Rounds => "Rounds",
        PlanError::Window => "Window",
        PlanError::TooManyReadings(_) => "TooManyReadings",
        PlanError::Memory => "Memory",
        PlanError::TooManyPairs(_) => "TooManyPairs",
    }
}

fn span_error_name(error: SpanError) -> &'static str
    ensures { result.now ≡ span_error_name error }
{
    match error {
        SpanError::Range(_) => "Range",
        SpanError::Twice(_) => "Twice",
        SpanError::Memory => "Memory",
    }
}

#[tactic(auto, unfolding(crate::specs::Causes::key_error_text))]
fn key_error_text(alloc: Global, error: KeyError) -> Result<String, AllocError>
    ensures { IfOk result (λ text. string_bytes text ≡ key_error_text error) }
{
    match error {
        KeyError::Range => String::from_str(alloc, "Range"),
        KeyError::Twice(key) => {
            let key = key_text(alloc, key)?;
            format!(in alloc; "Twice {key}")
        }
        KeyError::Missing(key) => {
            let key = key_text(alloc, key)?;
            format!(in alloc; "Missing {key}")
        }
    }
}

// The cause in the complaint of a plan file or a readings file.
#[tactic(auto, unfolding(crate::specs::Causes::cause_text))]
fn cause_text(alloc: Global, cause: FileCause) -> Result<String, AllocError>
    ensures { IfOk result (λ text. string_bytes text ≡ cause_text cause) }
{
    match cause {
        FileCause::Row => String::from_str(alloc, "Row"),
        FileCause::Fields => String::from_str(alloc, "Fields"),
        FileCause::Number => String::from_str(alloc, "Number"),
        FileCause::Name => String::from_str(alloc, "Name"),
        FileCause::Hex => String::from_str(alloc, "Hex"),
        FileCause::Plan(error) => {
            let name = plan_error_name(error);
            format!(in alloc; "Plan {name}")
        }
        FileCause::Key(error) => {
            let text = key_error_text(alloc, error)?;
            format!(in alloc; "Key {text}")
        }
        FileCause::LaneSpan => String::from_str(alloc, "LaneSpan"),
        FileCause::Range => String::from_str(alloc, "Range"),
        FileCause::Short => String::from_str(alloc, "Short"),
        FileCause::Extra => String::from_str(alloc, "Extra"),
        FileCause::Member(error) => {
            let name = span_error_name(error);
            format!(in alloc; "Member {name}")
        }
        FileCause::NotMember => String::from_str(alloc, "NotMember"),
    }
}

fn rack_cause_name(cause: RackCause) -> &'static str
    ensures { result.now ≡ rack_cause_name cause }
{
    match cause {
        RackCause::NoSuchLane => "NoSuchLane",
        RackCause::BadArgument => "BadArgument",
        RackCause::Memory => "Memory",
    }
}

// The complaint of a faulty plan file or readings file.
#[tactic(auto, unfolding(crate::specs::Outcomes::file_complaint))]
fn file_complaint(alloc: Global, name: &str, fault: FileFault) -> Result<Vec<u8>, AllocError>
    ensures { IfOk result (λ text. text.items ≡ file_complaint name.now fault) }
{
    let row = fault.row;
    let cause = cause_text(alloc, fault.cause)?;
    let after = format!(in alloc; " row {row}: {cause}\n")?;
    named(alloc, "meteragg: ", name, &after)
}

// The faulty line of a transcript.
fn fault_line(fault: ReadError) -> u64
    ensures { result ≡ fault_line fault }
{
    match fault {
        ReadError::Head(line)
        | ReadError::Line(line)
        | ReadError::Field(line, _)
        | ReadError::NoEnd(line)
        | ReadError::Count(line)
        | ReadError::After(line) => line,
        ReadError::Memory => 0,
    }
}

// The cause in the complaint of a transcript, whose line is told beside it.
#[tactic(auto, unfolding(crate::specs::Causes::read_error_name))]
fn read_error_name(alloc: Global, fault: ReadError) -> Result<String, AllocError>
    ensures { IfOk result (λ text. string_bytes text ≡ read_error_name fault) }
{
    match fault {
        ReadError::Head(_) => String::from_str(alloc, "Head"),
        ReadError::Line(_) => String::from_str(alloc, "Line"),
        ReadError::Field(_, field) => format!(in alloc; "Field {field}"),
        ReadError::NoEnd(_) => String::from_str(alloc, "NoEnd"),
        ReadError::Count(_) => String::from_str(alloc, "Count"),
        ReadError::After(_) => String::from_str(alloc, "After"),
        ReadError::Memory => String::from_str(alloc, "Memory"),
    }
}

// The complaint of a faulty line of a transcript or a report.
#[tactic(auto, unfolding(crate::specs::Outcomes::line_complaint))]
fn line_complaint(alloc: Global, name: &str, line: u64, cause: &str) -> Result<Vec<u8>, AllocError>
    ensures { IfOk result (λ text. text.items ≡ line_complaint name.now line cause.now) }
{
    let after = format!(in alloc; " line {line}: {cause}\n")?;
    named(alloc, "meteragg: ", name, &after)
}

// Adds a row of a report, or `nothing` where there is none.
#[tactic(auto, unfolding(crate::specs::Outcomes::row_or_nothing))]
fn put_row(text: &mut Vec<u8>, alloc: Global, row: &Option<ReportRow>) -> Result<(), AllocError>
    ensures { OnOk result (text.new.items ≡ text.old.items ++ row_or_nothing row.now) }
{
    match row {
        None => text.extend_from_slice(b"nothing"),
        Some(row) => text.extend_from_slice(&row_text(alloc, row)?),
    }
}

// The complaint of the first row that is not what the frames give.
#[tactic(auto, unfolding(crate::specs::Outcomes::row_complaint))]
fn row_complaint(
    alloc: Global,
    at: u32,
    from_frames: &Option<ReportRow>,
    reported: &Option<ReportRow>,
) -> Result<Vec<u8>, AllocError>
    ensures { IfOk result (λ text. text.items ≡ row_complaint at from_frames.now reported.now) }
{
    let mut text = format!(in alloc; "meteragg: row {at}: from frames ")?.into_bytes();
    put_row(&mut text, alloc, from_frames)?;
    text.extend_from_slice(b", reported ")?;
    put_row(&mut text, alloc, reported)?;
    text.extend_from_slice(b"\n")?;
    Ok(text)
}

// Adds the line of an entry.
fn put_line(text: &mut Vec<u8>, alloc: Global, entry: &Entry) -> Result<(), AllocError>
    requires { IsWritable entry.now.line }
    ensures { OnOk result (text.new.items ≡ text.old.items ++ entry_text Two entry.now) }
{
    text.extend_from_slice(&line_text(alloc, entry)?)
}

// The complaint of a line of a transcript that should be another.
#[tactic(auto, unfolding(crate::specs::Outcomes::line_complaint))]
fn expected_complaint(
    alloc: Global,
    name: &str,
    line: u64,
    expected: &Entry,
) -> Result<Vec<u8>, AllocError>
    requires { IsWritable expected.now.line }
    ensures { IfOk result (λ text. text.items ≡ line_complaint name.now line (codes "expected " ++ entry_text Two expected.now)) }
{
    let after = format!(in alloc; " line {line}: expected ")?;
    let mut text = named(alloc, "meteragg: ", name, &after)?;
    put_line(&mut text, alloc, expected)?;
    text.extend_from_slice(b"\n")?;
    Ok(text)
}

// The complaint of a faulty transcript.
fn transcript_complaint(alloc: Global, name: &str, fault: ReadError) -> Result<Vec<u8>, AllocError>
    ensures { IfOk result (λ text. text.items ≡ line_complaint name.now (fault_line fault) (read_error_name fault)) }
{
    let cause = read_error_name(alloc, fault)?;
    line_complaint(alloc, name, fault_line(fault), &cause)
}

// The complaint of a text of this name.
#[tactic(auto, unfolding(crate::specs::Outcomes::text_complaint))]
fn text_complaint(alloc: Global, name: &str, fault: &TextFault) -> Result<Vec<u8>, AllocError>
    requires { HasText fault.now }
    ensures { IfOk result (λ text. text.items ≡ text_complaint name.now fault.now) }
{
    match fault {
        TextFault::Transcript(fault) => transcript_complaint(alloc, name, *fault),
        TextFault::Report(line) | TextFault::JournalLine(line) => {
            line_complaint(alloc, name, *line, "Line")
        }
        TextFault::JournalHead(line) => line_complaint(alloc, name, *line, "Head"),
        TextFault::Impossible(line) => line_complaint(alloc, name, *line, "impossible"),
        TextFault::NotInTime(line) => line_complaint(alloc, name, *line, "not in time"),
        TextFault::NotThisRun(line) => line_complaint(alloc, name, *line, "not this run"),
        TextFault::OtherPlan => named(alloc, "meteragg: ", name, ": other plan\n"),
        TextFault::OtherLine { line, expected } => expected_complaint(alloc, name, *line, expected),
    }
}

// The complaint of what can't be read.
#[tactic(auto, unfolding(crate::specs::Outcomes::unread_complaint))]
fn unread_complaint(alloc: Global, unread: &Unread<'_>) -> Result<Vec<u8>, AllocError>
    ensures { IfOk result (λ text. text.items ≡ unread_complaint unread.now) }
{
    match unread {
        Unread::File(name) => named(alloc, "meteragg: cannot read ", name, "\n"),
        Unread::TooLong(name) => {
            named(
                alloc,
                "meteragg: ",
                name,
                " is longer than 268435456 bytes\n",
            )
        }
        Unread::Input => Vec::from_slice(alloc, b"meteragg: cannot read input\n"),
    }
}

// The complaint of what can't be written.
#[tactic(auto, unfolding(crate::specs::Outcomes::unwritten_complaint))]
fn unwritten_complaint(alloc: Global, unwritten: &Unwritten<'_>) -> Result<Vec<u8>, AllocError>
    ensures { IfOk result (λ text. text.items ≡ unwritten_complaint unwritten.now) }
{
    match unwritten {
        Unwritten::File(name) => named(alloc, "meteragg: cannot write ", name, "\n"),
        Unwritten::Part {
            prefix,
            meter,
            file,
        } => {
            let name = part_name(alloc, prefix, *meter, *file)?;
            named(alloc, "meteragg: cannot write ", &name, "\n")
        }
        Unwritten::Output => Vec::from_slice(alloc, b"meteragg: cannot print\n"),
    }
}

// The complaint of two tables of readings.
#[tactic(auto, unfolding(crate::specs::Outcomes::disagreement_complaint))]
fn disagreement_complaint(alloc: Global, disagreement: &Disagreement) -> Result<String, AllocError>
    ensures { IfOk result (λ text. string_bytes text ≡ disagreement_complaint disagreement.now) }
{
    match disagreement {
        Disagreement::Presence {
            group,
            round,
            meter,
        } => format!(in alloc; "meteragg: presence {group} {round} {meter}\n"),
        Disagreement::Known {
            group,
            round,
            meter,
        } => format!(in alloc; "meteragg: known {group} {round} {meter}\n"),
        Disagreement::Total {
            group,
            round,
            first,
            second,
        } => format!(in alloc; "meteragg: total {group} {round} {first} {second}\n"),
        Disagreement::Component {
            group,
            round,
            least,
            first,
            second,
        } => { format!(in alloc; "meteragg: component {group} {round} {least} {first} {second}\n") }
    }
}

// The complaint of a lane row that gets no lane.
#[tactic(auto, unfolding(crate::specs::Outcomes::lane_complaint))]
fn lane_complaint(alloc: Global, fault: RackError) -> Result<String, AllocError>
    ensures { IfOk result (λ text. string_bytes text ≡ lane_complaint fault) }
{
    let row = fault.row;
    let cause = rack_cause_name(fault.cause);
    format!(in alloc; "meteragg: lane row {row}: {cause}\n")
}

// The complaint of a reading without a partner.
#[tactic(auto, unfolding(crate::specs::Outcomes::partner_complaint))]
fn partner_complaint(alloc: Global, group: u16, round: u32, meter: u8) -> Result<String, AllocError>
    ensures { IfOk result (λ text. string_bytes text ≡ partner_complaint group round meter) }
{
    format!(in alloc; "meteragg: alone {group} {round} {meter}\n")
}

/// The text of the complaint, none where the command was done.
#[tactic(auto, unfolding(crate::specs::Outcomes::complaint_of))]
pub fn complaint(alloc: Global, outcome: &Outcome<'_>) -> Result<Vec<u8>, AllocError>
    requires { HasComplaint outcome.now }
    ensures { IfOk result (λ text. text.items ≡ complaint_of outcome.now) }
{
    match outcome {
        Outcome::Done => Ok(Vec::new(alloc)),
        Outcome::NoMemory => Vec::from_slice(alloc, b"meteragg: no memory\n"),
        Outcome::BadWords => Vec::from_slice(alloc, b"meteragg: bad words\n"),
        Outcome::Unread(unread) => unread_complaint(alloc, unread),
        Outcome::Unwritten(unwritten) => unwritten_complaint(alloc, unwritten),
        Outcome::BadPlan(name, fault) | Outcome::BadReadings(name, fault) => {
            file_complaint(alloc, name, *fault)
        }
        Outcome::BadText(name, fault) => text_complaint(alloc, name, fault),
        Outcome::Disagree(disagreement) => {
            Ok(disagreement_complaint(alloc, disagreement)?.into_bytes())
        }
        Outcome::OtherRow {
            at,
            from_frames,
            reported,
        } => row_complaint(alloc, *at, from_frames, reported),
        Outcome::BadLane(fault) => Ok(lane_complaint(alloc, *fault)?.into_bytes()),
        Outcome::NoPartner {
            group,
            round,
            meter,
        } => Ok(partner_complaint(alloc, *group, *round, *meter)?.into_bytes()),
    }
}
