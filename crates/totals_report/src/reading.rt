//! Rows read from the text of a report.
ghost use Rattle.std.specs.Prelude.{◌≡◌, List};
ghost use Rattle.field_texts.specs.Parts.{parts};
ghost use Rattle.totals_report.specs.declared.row.ReportRow.{ReportRow};
ghost use Rattle.totals_report.specs.Rows.{AreRows};
ghost use Rattle.totals_report.specs.Texts.{rows_text};
ghost use Rattle.totals_report.specs.Reading.{outcome_spelled, without_total, row_of, rows_from, rows_of_text, Gives};
ghost use Rattle.totals_report.specs.Faults.{ReadEnds};

use crate::cut::split_row;
use crate::row::{HEADING, Report, ReportError, ReportRow, RowOutcome};
use field_texts::{cut, read_number, read_number_within, read_set};
use group_plan::Name;
use std::alloc::Global;

/// The outcome of this word, with this text beside it.
#[tactic(auto, unfolding(crate::specs::Reading::outcome_spelled))]
fn outcome(word: &[u8], total: &[u8]) -> Option<RowOutcome>
    ensures { result ≡ outcome_spelled word.now total.now }
{
    if word == b"total".as_slice() {
        let total = read_number(total)?;
        return Some(RowOutcome::Total(total));
    }
    if word == b"none".as_slice() {
        return without_total(RowOutcome::Lacking, total);
    }
    if word == b"thin".as_slice() {
        return without_total(RowOutcome::Thin, total);
    }
    if word == b"open".as_slice() {
        return without_total(RowOutcome::Running, total);
    }
    None
}

/// The outcome, where nothing stands beside its word.
fn without_total(outcome: RowOutcome, total: &[u8]) -> Option<RowOutcome>
    ensures { result ≡ without_total outcome total.now }
{
    if total.is_empty() {
        Some(outcome)
    } else {
        None
    }
}

/// The row that a line spells.
#[tactic(auto, using(crate::proofs::RowLemmas::not_six), unfolding(crate::specs::Reading::row_of))]
fn row(line: &[u8]) -> Option<ReportRow>
    ensures { result ≡ row_of (parts 44 line.now) }
{
    let fields = split_row(line)?;
    let name = Name::new(fields.name)?;
    let round = read_number_within(fields.round, 0, 4096)?;
    let survivors = read_number_within(fields.survivors, 0, 257)?;
    let missing = read_set(fields.missing, 256)?;
    let outcome = outcome(fields.outcome, fields.total)?;
    Some(ReportRow {
        name,
        round: round as u32,
        survivors: survivors as u16,
        missing,
        outcome,
    })
}

/// The report with the rows of these lines, which are those below the heading.
#[tactic(auto, using(crate::proofs::LineLemmas::none_onto))]
fn rows(alloc: Global, text: &[u8]) -> Result<Report, ReportError>
    ensures { Gives (rows_from 2 (parts 10 text.now)) result }
{
    let mut rows = Vec::new(alloc);
    let mut rest = text;
    let mut number = 2u64;
    while let Some((line, after)) = cut(b'\n', rest) {
        let Some(row) = row(line) else {
            return Err(ReportError::Line(number));
        };
        rows.push(row)?;
        number += 1;
        rest = after;
    }
    if !rest.is_empty() {
        return Err(ReportError::Line(number));
    }
    Ok(Report::new(rows))
}

/// The report that the bytes spell.
#[tactic(auto, using(crate::proofs::LineLemmas::no_line, crate::proofs::LineLemmas::heading_wrong, crate::proofs::LineLemmas::heading_read))]
fn read(alloc: Global, bytes: &[u8]) -> Result<Report, ReportError>
    ensures { Gives (rows_of_text bytes.now) result }
{
    let Some((heading, rest)) = cut(b'\n', bytes) else {
        return Err(ReportError::Line(1));
    };
    if heading == HEADING {
        rows(alloc, rest)
    } else {
        Err(ReportError::Line(1))
    }
}

/// The report whose text the bytes are.
///
/// Line `n` is refused where it is the first that is not of the form: line 1 is the heading, and each other line is a
/// row's, with its newline.
pub fn read_report(alloc: Global, bytes: &[u8]) -> Result<Report, ReportError>
    ensures exact { Gives (rows_of_text bytes.now) result }
    ensures ends { ReadEnds bytes.now result }
    ensures only { (rows : List ReportRow) → AreRows rows → bytes.now ≡ rows_text rows → Gives (Ok rows) result }
{
    read(alloc, bytes)
}
