//! What a summary counts.
ghost use Rattle.std.specs.Prelude.{◌≡◌, count_by};
ghost use Rattle.run_rows.specs.Summary.{is_sending, is_taking};
ghost use Rattle.totals_report.specs.Counts.{is_total, is_lacking, is_thin, is_running};

use crate::row::{ReportRow, RowOutcome};
use transcript_log::Lines;

/// How many rounds there are, how many of each outcome, how many Sends with a frame, and how many Takes.
#[derive(Drop)]
pub(crate) struct Counts {
    pub(crate) rounds: u64,
    pub(crate) totals: u64,
    pub(crate) nones: u64,
    pub(crate) thins: u64,
    pub(crate) sends: u64,
    pub(crate) takes: u64,
}

/// How many rounds have each outcome.
#[derive(Drop)]
pub(crate) struct OutcomeCounts {
    pub(crate) totals: u64,
    pub(crate) nones: u64,
    pub(crate) thins: u64,
    pub(crate) opens: u64,
}

/// Counts the rows of each outcome.
pub(crate) fn count_outcomes(rows: &[ReportRow]) -> OutcomeCounts
    ensures totals { result.totals ≡ count_by (λ row. is_total row.outcome) rows.now }
    ensures nones { result.nones ≡ count_by (λ row. is_lacking row.outcome) rows.now }
    ensures thins { result.thins ≡ count_by (λ row. is_thin row.outcome) rows.now }
    ensures opens { result.opens ≡ count_by (λ row. is_running row.outcome) rows.now }
{
    let mut counts = OutcomeCounts {
        totals: 0,
        nones: 0,
        thins: 0,
        opens: 0,
    };
    for row in rows {
        match row.outcome {
            RowOutcome::Total(_) => counts.totals += 1,
            RowOutcome::Lacking => counts.nones += 1,
            RowOutcome::Thin => counts.thins += 1,
            RowOutcome::Running => counts.opens += 1,
        }
    }
    counts
}

/// Counts the Sends with a frame, and the Takes.
pub(crate) fn count_lines(lines: &Lines) -> (u64, u64)
    ensures sends { result.0 ≡ count_by is_sending lines.now.items }
    ensures takes { result.1 ≡ count_by is_taking lines.now.items }
{
    let mut sends = 0u64;
    let mut takes = 0u64;
    for at in 0..lines.len() {
        if lines.is_sending(at) {
            sends += 1;
        }
        if lines.is_taking(at) {
            takes += 1;
        }
    }
    (sends, takes)
}
