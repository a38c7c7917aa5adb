//! What a book answers to a Send and to a Take, and what a round comes to.

use meter_frames::Frame;
use missing_round::MeterSet;

/// What became of a Send.
#[derive(Clone, Copy, PartialEq, Eq)]
pub enum SendAnswer {
    /// The tag is outside the plan.
    Unknown,
    /// The Send has no effect; its line has no frame.
    NotAllowed,
    /// The frame has another missing set than the announced one.
    WrongSet { announced: MeterSet },
    /// Another frame is posted under the tag.
    Differs { posted: Frame },
    /// The frame is posted under its tag.
    Sent,
}

/// Why a Take is refused.
#[derive(Clone, Copy, Debug, PartialEq, Eq)]
pub enum TakeError {
    /// The tag is outside the plan.
    Unknown,
    /// Another frame is posted under the tag.
    Forged { posted: Frame, came: Frame },
}

/// What a round comes to.
#[derive(Clone, Copy, PartialEq, Eq)]
pub enum OutcomeState {
    /// It has not ended.
    Running,
    /// It is published, with the sum of the readings of its survivors, in watt-hours.
    Total(u64),
    /// It has ended without the answers of these survivors; nothing is published.
    Lacking(MeterSet),
    /// It has ended with fewer survivors than the floor; nothing is published.
    Thin,
}

/// The survivors of a round, those so far where it is running, and what it comes to.
#[derive(Clone, Copy, PartialEq, Eq)]
pub struct Outcome {
    pub survivors: MeterSet,
    pub state: OutcomeState,
}
