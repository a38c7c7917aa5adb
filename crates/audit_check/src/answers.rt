//! What an audit answers: the counts of a confirmed report, or why the frames do not confirm it.

use crate::OpenedRounds;
use std::alloc::{AllocError, AllocFailed};
use totals_report::ReportRow;

/// What a report that the frames confirm has.
#[derive(Clone, Copy)]
pub struct AuditCounts {
    /// The number of its rows.
    pub rows: u32,
    /// The number of its totals.
    pub totals: u32,
}

/// What a report that the frames confirm has, and what its transcript opens.
#[derive(Clone, Copy)]
pub struct Inspected {
    pub counts: AuditCounts,
    pub opened: OpenedRounds,
}

/// Why the frames do not confirm a report.
#[derive(Clone, Copy)]
pub enum AuditError {
    /// This line of the transcript's text, counted from 1, is the first that is not possible.
    Line(u64),
    /// The lines are possible. This row, counted from 1, is the first at which the report differs from what the frames give;
    /// both rows, or none where a side has ended.
    Row {
        at: u32,
        from_frames: Option<ReportRow>,
        reported: Option<ReportRow>,
    },
    /// Memory ran out.
    Memory,
}

impl From<AllocError> for AuditError {
    ghost use Rattle.std.specs.Prelude.{◌≡◌};
    ghost use Rattle.audit_check.specs.declared.answers.AuditError.TheVariants.{Memory};

    ghost from_gives = { λ _ e. e ≡ Memory };

    fn from(_error: AllocError) -> AuditError {
        AuditError::Memory
    }
}

impl<T: Drop> From<AllocFailed<T>> for AuditError {
    ghost use Rattle.std.specs.Prelude.{◌≡◌};
    ghost use Rattle.audit_check.specs.declared.answers.AuditError.TheVariants.{Memory};

    ghost from_gives = { λ _ e. e ≡ Memory };

    fn from(_error: AllocFailed<T>) -> AuditError {
        AuditError::Memory
    }
}
