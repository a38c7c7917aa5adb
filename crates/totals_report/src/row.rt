//! Rows of a report.
ghost use Rattle.std.specs.Prelude.{◌≡◌};

use group_plan::Name;
use missing_round::MeterSet;
use std::alloc::{AllocError, AllocFailed};
use std::marker::Model;

/// The first line of a report, without its newline.
pub(crate) const HEADING: &[u8] = b"group,round,survivors,missing,outcome,total";

/// How a round ended.
#[derive(Clone, Copy, PartialEq, Eq)]
pub enum RowOutcome {
    /// The round was published with this total, in watt-hours.
    Total(u64),
    /// The round ended and the answer of a survivor was lacking.
    Lacking,
    /// The round ended with fewer survivors than the floor of its group.
    Thin,
    /// The round has not ended.
    Running,
}

/// A row of a report: what became of one round of one group.
#[derive(Clone, Copy, PartialEq, Eq)]
pub struct ReportRow {
    /// The name of the group.
    pub name: Name,
    /// The round, counted from 0; below 4096.
    pub round: u32,
    /// The number of survivors, at most 256.
    pub survivors: u16,
    /// The meters that are missing.
    pub missing: MeterSet,
    /// How the round ended.
    pub outcome: RowOutcome,
}

/// A report: its rows.
#[derive(Drop)]
pub struct Report {
    rows: Vec<ReportRow>,
}

impl Model for Report {
    ghost use Rattle.std.specs.Prelude.{List};
    ghost use Rattle.totals_report.specs.declared.row.ReportRow.{ReportRow};

    ghost Value = { List ReportRow };

    ghost view = { λ report. report.rows.items };
}

impl Report {
    /// A report of these rows, in order.
    pub(crate) fn new(rows: Vec<ReportRow>) -> Report
        ensures { result ≡ rows.items }
    {
        Report { rows }
    }

    /// The rows, in order.
    pub fn rows(&self) -> &[ReportRow]
        ensures { result.now ≡ self.now }
    {
        self.rows.as_slice()
    }
}

/// Why a text is read as no report.
#[derive(Clone, Copy, Debug)]
pub enum ReportError {
    /// This line, counted from 1, is the first that is not of a report's form.
    Line(u64),
    /// Want of memory.
    Memory,
}

impl From<AllocError> for ReportError {
    ghost use Rattle.std.specs.Prelude.{◌≡◌};
    ghost use Rattle.totals_report.specs.declared.row.ReportError.TheVariants.{Memory};

    ghost from_gives = { λ _ e. e ≡ Memory };

    fn from(_e: AllocError) -> ReportError {
        ReportError::Memory
    }
}

impl<T: Drop> From<AllocFailed<T>> for ReportError {
    ghost use Rattle.std.specs.Prelude.{◌≡◌};
    ghost use Rattle.totals_report.specs.declared.row.ReportError.TheVariants.{Memory};

    ghost from_gives = { λ _ e. e ≡ Memory };

    fn from(_e: AllocFailed<T>) -> ReportError {
        ReportError::Memory
    }
}
