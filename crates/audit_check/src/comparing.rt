//! The rows of a report, compared with those that the frames give.

ghost use Rattle.std.specs.Prelude.{◌≡◌, ◌≤◌, count_by, slice_get, length, IfSome};
ghost use Rattle.totals_report.specs.Counts.{is_total};
ghost use Rattle.audit_check.specs.Rows.{DifferAt};
ghost use Rattle.audit_check.specs.Deciding.{Decides};

use totals_report::{ReportRow, RowOutcome};

/// The row at a place, where there is one.
pub(crate) fn row_at(rows: &[ReportRow], at: usize) -> Option<ReportRow>
    ensures { result ≡ slice_get rows.now at }
{
    rows.get(at).copied()
}

// Whether two rows, or none, are the same.
fn is_same(one: Option<ReportRow>, other: Option<ReportRow>) -> bool
    ensures { Decides (one ≡ other) result }
{
    one == other
}

/// The first place at which two lists of rows differ, where there is one.
pub(crate) fn first_difference(from_frames: &[ReportRow], reported: &[ReportRow]) -> Option<usize>
    ensures differ { DifferAt from_frames.now reported.now result }
    ensures within { IfSome result (λ at. at ≤ length from_frames.now) }
{
    let mut at = 0;
    while at < from_frames.len() && is_same(row_at(from_frames, at), row_at(reported, at)) {
        at += 1;
    }
    if at == from_frames.len() && at == reported.len() {
        None
    } else {
        Some(at)
    }
}

/// How many rows have a total.
pub(crate) fn count_totals(rows: &[ReportRow]) -> usize
    ensures count { result ≡ count_by (λ row. is_total row.outcome) rows.now }
    ensures within { result ≤ length rows.now }
{
    let mut totals = 0;
    for row in rows {
        if let RowOutcome::Total(_) = row.outcome {
            totals += 1;
        }
    }
    totals
}
