//! Why a file is refused.

use group_plan::{PlanError, SpanError};
use pair_keys::KeyError;
use std::alloc::{AllocError, AllocFailed};

/// The first fault of a file.
#[derive(Clone, Copy, Debug, PartialEq, Eq)]
pub struct FileFault {
    /// The row, counted from 1 among the rows that `csv` gives; 0 is the file as a whole.
    pub row: u32,
    pub cause: FileCause,
}

/// What is wrong with a row, or with the file as a whole.
#[derive(Clone, Copy, Debug, PartialEq, Eq)]
pub enum FileCause {
    /// Row 1 of a plan isn't `plan`, `1` and nothing more; or a later row starts with a word that isn't due here; or a
    /// row of readings has fewer than two fields, or its first two aren't the name and the round that are due.
    Row,
    /// The row has too few or too many fields.
    Fields,
    /// The first faulty field should be a number below 2^32, or below 2^64 for a reading, and isn't one.
    Number,
    /// The first faulty field should be a name or an argument.
    Name,
    /// The first faulty field should be a key of 64 hexadecimal digits.
    Hex,
    /// The plan's numbers have this fault.
    Plan(PlanError),
    /// The key is refused so, or the plan has this key and the file has no row for it.
    Key(KeyError),
    /// The lane's span begins after its end, or ends after the last tick.
    LaneSpan,
    /// The first faulty field is a reading of 2^40 or more, below 2^64.
    Range,
    /// The file ends before this row.
    Short,
    /// The file has this row after its last.
    Extra,
    /// The row's span has this fault, at this place among those of the file.
    Member(SpanError),
    /// The first faulty field is a reading of a meter that is no member in the round.
    NotMember,
}

/// Why something has no answer.
#[derive(Clone, Copy, Debug, PartialEq, Eq)]
pub enum Failed<E> {
    /// Memory ran out.
    Memory,
    /// This is wrong.
    Fault(E),
}

impl Failed<FileCause> {
    ghost use Rattle.std.specs.Prelude.{◌≡◌};
    ghost use Rattle.plan_files.specs.Faults.{failed_in_row};

    /// A failure of a row as the file's.
    pub(crate) fn in_row(self, row: u32) -> Failed<FileFault>
        ensures { result ≡ failed_in_row row self }
    {
        match self {
            Failed::Memory => Failed::Memory,
            Failed::Fault(cause) => Failed::Fault(FileFault { row, cause }),
        }
    }
}

impl<E> From<AllocError> for Failed<E> {
    ghost use Rattle.std.specs.Prelude.{◌≡◌};
    ghost use Rattle.plan_files.specs.declared.fault.Failed.TheVariants.{Memory};

    ghost from_gives = { λ _ failed. failed ≡ Memory };

    fn from(_: AllocError) -> Failed<E> {
        Failed::Memory
    }
}

impl<T: Drop, E> From<AllocFailed<T>> for Failed<E> {
    ghost use Rattle.std.specs.Prelude.{◌≡◌};
    ghost use Rattle.plan_files.specs.declared.fault.Failed.TheVariants.{Memory};

    ghost from_gives = { λ _ failed. failed ≡ Memory };

    fn from(_: AllocFailed<T>) -> Failed<E> {
        Failed::Memory
    }
}

impl From<FileFault> for Failed<FileFault> {
    ghost use Rattle.std.specs.Prelude.{◌≡◌};
    ghost use Rattle.plan_files.specs.declared.fault.Failed.TheVariants.{Fault};

    ghost from_gives = { λ fault failed. failed ≡ Fault fault };

    fn from(fault: FileFault) -> Failed<FileFault> {
        Failed::Fault(fault)
    }
}

impl From<FileCause> for Failed<FileCause> {
    ghost use Rattle.std.specs.Prelude.{◌≡◌};
    ghost use Rattle.plan_files.specs.declared.fault.Failed.TheVariants.{Fault};

    ghost from_gives = { λ cause failed. failed ≡ Fault cause };

    fn from(cause: FileCause) -> Failed<FileCause> {
        Failed::Fault(cause)
    }
}
