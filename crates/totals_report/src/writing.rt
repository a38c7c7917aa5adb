//! Reports and summaries as text.
ghost use Rattle.std.specs.Prelude.{◌≡◌, ◌++◌, ◌∷◌, [], codes, decimal, IfOk, OnOk};
ghost use Rattle.field_texts.specs.Sets.{numbers_text};
ghost use Rattle.transcript_text.specs.Spelling.{joined};
ghost use Rattle.totals_report.specs.Texts.{outcome_word, total_text, row_line, rows_text, counts_text};
ghost use Rattle.totals_report.specs.Counts.{summary_of};
ghost use Rattle.totals_report.specs.Reports.{summary_text};

use crate::counts::{Counts, count_outcomes};
use crate::row::{HEADING, ReportRow, RowOutcome};
use field_texts::{put_number, put_set};
use group_plan::Name;
use missing_round::MeterSet;
use std::alloc::{AllocError, Global};

// The word of an outcome and its total, parted by a comma.
fn put_outcome(out: &mut Vec<u8>, outcome: RowOutcome) -> Result<(), AllocError>
    ensures { OnOk result (out.new.items ≡ out.old.items ++ joined (outcome_word outcome ∷ total_text outcome ∷ [])) }
{
    match outcome {
        RowOutcome::Total(total) => {
            out.extend_from_slice(b"total,")?;
            put_number(out, total)
        }
        RowOutcome::Lacking => out.extend_from_slice(b"none,"),
        RowOutcome::Thin => out.extend_from_slice(b"thin,"),
        RowOutcome::Running => out.extend_from_slice(b"open,"),
    }
}

// The name of a group and a round, parted by a comma.
fn put_place(out: &mut Vec<u8>, name: &Name, round: u32) -> Result<(), AllocError>
    ensures { OnOk result (out.new.items ≡ out.old.items ++ joined (name.now ∷ decimal round ∷ [])) }
{
    out.extend_from_slice(name.bytes())?;
    out.extend_from_slice(b",")?;
    put_number(out, u64::from(round))
}

// The number of survivors and the missing set, parted by a comma.
fn put_meters(out: &mut Vec<u8>, survivors: u16, missing: MeterSet) -> Result<(), AllocError>
    ensures { OnOk result (out.new.items ≡ out.old.items ++ joined (decimal survivors ∷ numbers_text missing ∷ [])) }
{
    put_number(out, u64::from(survivors))?;
    out.extend_from_slice(b",")?;
    put_set(out, missing)
}

// The line of a row, without its newline.
#[tactic(auto, unfolding(crate::specs::Texts::row_line))]
fn put_row(out: &mut Vec<u8>, row: &ReportRow) -> Result<(), AllocError>
    ensures { OnOk result (out.new.items ≡ out.old.items ++ row_line row.now) }
{
    put_place(out, &row.name, row.round)?;
    out.extend_from_slice(b",")?;
    put_meters(out, row.survivors, row.missing)?;
    out.extend_from_slice(b",")?;
    put_outcome(out, row.outcome)
}

/// The line of a row in a report's text, without its newline.
pub fn row_text(alloc: Global, row: &ReportRow) -> Result<Vec<u8>, AllocError>
    ensures { IfOk result (λ text. text.items ≡ row_line row.now) }
{
    let mut text = Vec::new(alloc);
    put_row(&mut text, row)?;
    Ok(text)
}

/// The text of a report with these rows.
#[tactic(auto, unfolding(crate::specs::Texts::lines_text))]
pub fn rows_text(alloc: Global, rows: &[ReportRow]) -> Result<Vec<u8>, AllocError>
    ensures { IfOk result (λ text. text.items ≡ rows_text rows.now) }
{
    let mut text = Vec::from_slice(alloc, HEADING)?;
    text.extend_from_slice(b"\n")?;
    for row in rows {
        put_row(&mut text, row)?;
        text.extend_from_slice(b"\n")?;
    }
    Ok(text)
}

// A name with an equals sign, and its number.
fn put_count(out: &mut Vec<u8>, name: &[u8], count: u64) -> Result<(), AllocError>
    ensures { OnOk result (out.new.items ≡ out.old.items ++ (name.now ++ decimal count)) }
{
    out.extend_from_slice(name)?;
    put_number(out, count)
}

// How many rounds there are, and how many have a total, none, or too few survivors.
fn put_outcomes(
    out: &mut Vec<u8>,
    rounds: u64,
    totals: u64,
    nones: u64,
    thins: u64,
) -> Result<(), AllocError>
    ensures { OnOk result (out.new.items ≡ out.old.items ++ ((codes "rounds=" ++ decimal rounds) ++ (codes " totals=" ++ decimal totals) ++ (codes " none=" ++ decimal nones) ++ (codes " thin=" ++ decimal thins))) }
{
    put_count(out, b"rounds=", rounds)?;
    put_count(out, b" totals=", totals)?;
    put_count(out, b" none=", nones)?;
    put_count(out, b" thin=", thins)
}

// The line of the summary with these counts.
#[tactic(auto, unfolding(crate::specs::Reports::summary_text))]
pub(crate) fn summary_line(alloc: Global, counts: &Counts) -> Result<Vec<u8>, AllocError>
    ensures { IfOk result (λ text. text.items ≡ summary_text (summary_of counts.now)) }
{
    let mut text = Vec::new(alloc);
    put_outcomes(
        &mut text,
        counts.rounds,
        counts.totals,
        counts.nones,
        counts.thins,
    )?;
    put_count(&mut text, b" sends=", counts.sends)?;
    put_count(&mut text, b" takes=", counts.takes)?;
    text.extend_from_slice(b"\n")?;
    Ok(text)
}

/// The line that says how many rows there are and how many of each outcome, with its newline.
#[tactic(auto, unfolding(crate::specs::Texts::counts_text))]
pub fn counts_line(alloc: Global, rows: &[ReportRow]) -> Result<Vec<u8>, AllocError>
    ensures { IfOk result (λ text. text.items ≡ counts_text rows.now) }
{
    let counts = count_outcomes(rows);
    let mut text = Vec::new(alloc);
    put_outcomes(
        &mut text,
        rows.len() as u64,
        counts.totals,
        counts.nones,
        counts.thins,
    )?;
    put_count(&mut text, b" open=", counts.opens)?;
    text.extend_from_slice(b"\n")?;
    Ok(text)
}
