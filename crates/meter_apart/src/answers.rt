//! The lines of a meter's journal, and why it says no frame.

use meter_core::Why;
use missing_round::MeterSet;

/// A line of a meter's journal.
#[derive(Clone, Copy, Debug, PartialEq, Eq)]
pub enum Noted {
    /// This reading, in watt-hours, was marked for the round.
    Read { round: u32, reading: u64 },
    /// This missing set was kept for the round.
    Kept { round: u32, set: MeterSet },
}

/// Why a reading is refused; the first that applies.
#[derive(Clone, Copy, Debug, PartialEq, Eq)]
pub enum ReadingRefusal {
    /// The plan has no such round, or the meter is no member of it.
    Round,
    /// It is 2^40 watt-hours or more.
    Range,
    /// Another reading was marked for the round.
    Twice,
}

/// Why a frame has no answer; the first that applies.
#[derive(Clone, Copy, Debug, PartialEq, Eq)]
pub enum FrameRefusal {
    /// It is no announcement to this meter.
    Tag,
    /// The meter doesn't answer the set.
    Why(Why),
}
