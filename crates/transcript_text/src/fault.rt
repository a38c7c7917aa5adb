//! Why a text is no transcript.

use event_schedule::Entry;
use std::alloc::{AllocError, AllocFailed};

/// Why a text is no transcript: its first fault. Lines and fields are counted from 1.
#[derive(Clone, Copy, Debug, PartialEq, Eq)]
pub enum ReadError {
    /// This line is not the head's next line, or lacks its newline, or is `begin` after numbers that no plan has.
    Head(u64),
    /// This line is no entry and no `end`.
    Line(u64),
    /// This field of this line breaks its form.
    Field(u64, u8),
    /// The text ends before an `end` line; this is the number of whole lines and 1.
    NoEnd(u64),
    /// This line is the `end` line, and its number is not that of the entries.
    Count(u64),
    /// Something stands here, after the `end` line.
    After(u64),
    /// Memory ran out.
    Memory,
}

impl From<AllocError> for ReadError {
    ghost use Rattle.std.specs.Prelude.{◌≡◌};
    ghost use Rattle.transcript_text.specs.declared.fault.ReadError.TheVariants.{Memory};

    ghost from_gives = { λ _ e. e ≡ Memory };

    fn from(_error: AllocError) -> ReadError {
        ReadError::Memory
    }
}

impl<T: Drop> From<AllocFailed<T>> for ReadError {
    ghost use Rattle.std.specs.Prelude.{◌≡◌};
    ghost use Rattle.transcript_text.specs.declared.fault.ReadError.TheVariants.{Memory};

    ghost from_gives = { λ _ e. e ≡ Memory };

    fn from(_error: AllocFailed<T>) -> ReadError {
        ReadError::Memory
    }
}

/// A line after the head.
#[derive(Clone, Copy)]
pub(crate) enum BodyLine {
    Entry(Entry),
    /// The `end` line, with its number.
    Last(u64),
}

/// What is wrong with a line after the head.
#[derive(Clone, Copy)]
pub(crate) enum RowFault {
    /// It is no entry and no `end`.
    Form,
    /// This field, counted from 1, breaks its form.
    Field(u8),
}
