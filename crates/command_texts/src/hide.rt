//! The readings that hide another, of three files.

ghost use Rattle.std.specs.Prelude.{IfOk, IfErr, ◌≡◌, ◌≤◌, length, List, ℕ};
ghost use Rattle.command_words.specs.Limits.{most_bytes};
ghost use Rattle.twin_worlds.specs.Twins.{IsReadOf};
ghost use Rattle.command_words.specs.Outcomes.{IsFault};
ghost use Rattle.command_texts.specs.Billing.{IsTextIn, TextRefuses, IsAlone, HideRefuses};
ghost use Rattle.group_plan.specs.Tables.{reading};
ghost use Rattle.billing_read.specs.Partners.{CanExchange};
ghost use Rattle.command_texts.specs.BillingParts.{IsOtherText, HidesPlace, FindsHidden, hide_bytes_with, HidesIn};
ghost use Rattle.command_words.specs.Commands.{hide_names_of};

use crate::values::read_metered;
use billing_read::{Partner, ReadingPlace, other_world, partner};
use command_words::{HideWords, Outcome, TextFault};
use group_plan::{Plan, Readings};
use plan_files::write_readings;
use std::alloc::{AllocError, Global};
use transcript_log::Transcript;
use transcript_text::ReadError;
use twin_worlds::{TwinError, transcript_of_plan};

/// The bytes of the files that are read whole: a plan and its readings.
#[derive(Clone, Copy)]
pub struct HideTexts<'b> {
    pub plan: &'b [u8],
    pub readings: &'b [u8],
}

/// The text of the other readings, and the partner with which they change.
#[derive(Drop)]
pub struct Hidden {
    pub text: Vec<u8>,
    pub partner: Partner,
}

// The transcript that was read, where it is of the plan.
fn transcript_of<'a>(
    alloc: Global,
    name: &'a str,
    plan: &Plan,
    read: Result<Transcript, ReadError>,
) -> Result<Transcript, Outcome<'a>>
    ensures read { (text : List ℕ) → IsReadOf text read → IfOk result (λ transcript. IsTextIn plan.now transcript text) }
    ensures plan { IfOk result (λ transcript. transcript.plan ≡ plan.now) }
    ensures refused { (text : List ℕ) → IsReadOf text read → IfErr result (TextRefuses name.now plan.now text) }
    ensures no_fault { IfErr result (λ outcome. ¬ IsFault outcome) }
{
    match transcript_of_plan(alloc, plan, read) {
        Ok(transcript) => Ok(transcript),
        Err(TwinError::Transcript(fault)) => Err(Outcome::BadText(
            name,
            TextFault::Transcript(fault),
        )),
        Err(TwinError::Head) => Err(Outcome::BadText(name, TextFault::OtherPlan)),
        Err(TwinError::Memory) => Err(Outcome::NoMemory),
        Err(_) => unreachable!(),
    }
}

// The text of the readings in which the one of the place moves to its partner.
fn other_text(
    alloc: Global,
    plan: &Plan,
    readings: &Readings,
    place: ReadingPlace,
    partner: &Partner,
) -> Result<Vec<u8>, AllocError>
    requires plan { readings.now.plan ≡ plan.now }
    requires exchange { CanExchange (reading readings.now.table) place.group place.round place.meter partner.now }
    ensures { IfOk result (λ text. IsOtherText plan.now readings.now place partner.now text.items) }
{
    let other = other_world(alloc, plan, readings, place, partner)?;
    write_readings(alloc, plan, &other)
}

// The readings that hide the one of the place, where it has a partner.
fn hidden_in<'a>(
    alloc: Global,
    words: HideWords<'a>,
    plan: &Plan,
    readings: &Readings,
    transcript: &Transcript,
) -> Result<Hidden, Outcome<'a>>
    requires plan { readings.now.plan ≡ plan.now }
    requires transcript { transcript.now.plan ≡ plan.now }
    ensures hidden { IfOk result (HidesPlace words.entry.period words.entry.place plan.now readings.now transcript.now) }
    ensures alone { IfErr result (IsAlone words.entry.period words.entry.place readings.now transcript.now) }
    ensures no_fault { IfErr result (λ outcome. ¬ IsFault outcome) }
{
    let period = words.period;
    let place = ReadingPlace {
        group: words.place.group,
        round: words.place.round,
        meter: words.place.meter,
    };
    let found = match partner(
        alloc,
        readings,
        transcript,
        period.from,
        period.until,
        place,
    ) {
        Ok(found) => found,
        Err(_) => return Err(Outcome::NoMemory),
    };
    let Some(partner) = found else {
        return Err(Outcome::NoPartner {
            group: place.group,
            round: place.round,
            meter: place.meter,
        });
    };
    match other_text(alloc, plan, readings, place, &partner) {
        Ok(text) => Ok(Hidden { text, partner }),
        Err(_) => Err(Outcome::NoMemory),
    }
}

// The readings that hide the one of the place, of a plan and readings that were read.
fn hidden_under<'a>(
    alloc: Global,
    words: HideWords<'a>,
    plan: &Plan,
    readings: &Readings,
    read: Result<Transcript, ReadError>,
) -> Result<Hidden, Outcome<'a>>
    requires { readings.now.plan ≡ plan.now }
    ensures ends { (text : List ℕ) → IsReadOf text read → FindsHidden (hide_names_of words.entry.files) words.entry.period words.entry.place plan.now readings.now text result }
    ensures no_fault { IfErr result (λ outcome. ¬ IsFault outcome) }
{
    let transcript = or_fail!(transcript_of(alloc, words.files.transcript, plan, read));
    hidden_in(alloc, words, plan, readings, &transcript)
}

/// The readings that hide the one of the place, of the two files and the transcript that was read.
pub fn hidden_of_files<'a>(
    alloc: Global,
    words: HideWords<'a>,
    texts: HideTexts<'_>,
    read: Result<Transcript, ReadError>,
) -> Result<Hidden, Outcome<'a>>
    requires plan { length texts.plan.now ≤ most_bytes }
    requires readings { length texts.readings.now ≤ most_bytes }
    ensures hidden { (tb : List ℕ) → IsReadOf tb read → IfOk result (HidesIn words.entry.period words.entry.place (hide_bytes_with texts.entry tb)) }
    ensures refused { (tb : List ℕ) → IsReadOf tb read → IfErr result (HideRefuses (hide_names_of words.entry.files) words.entry.period words.entry.place (hide_bytes_with texts.entry tb)) }
    ensures no_fault { IfErr result (λ outcome. ¬ IsFault outcome) }
{
    let files = words.files;
    let (file, table) = or_fail!(read_metered(
        alloc,
        files.plan,
        files.readings,
        texts.plan,
        texts.readings,
    ));
    hidden_under(alloc, words, &file.plan, &table, read)
}
