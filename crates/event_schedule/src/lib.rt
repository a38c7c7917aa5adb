//! The protocol's events and schedules: what a schedule of events says at each step, the lines that it writes, and laws of all
//! schedules. Definitions and the types that they speak of; what keeps lines stands in `transcript_log`.
#![tactic(auto)]

ghost use Rattle.std.specs.Prelude.{◌≡◌};
ghost use Rattle.event_schedule.specs.Events.{event_of};

mod round_members;

use group_plan::Tag;
use link_lanes::Fate;
use meter_frames::Frame;
use round_machine::{Closing, Ending, Verdict};
pub use round_members::{floor_of, members};

/// One step of the protocol: a frame is sent under its tag, one of its copies is taken, or a round is closed or ended.
#[derive(Clone, Copy)]
pub enum Event {
    Send(Tag),
    Take(Tag),
    Close { group: u16, round: u32 },
    End { group: u16, round: u32 },
}

/// What the transcript keeps of an event. A Send that has no effect has no frame.
#[derive(Clone, Copy, Debug, PartialEq, Eq)]
pub enum Line {
    Send {
        tag: Tag,
        frame: Option<Frame>,
    },
    Take {
        tag: Tag,
        verdict: Verdict,
    },
    Close {
        group: u16,
        round: u32,
        closing: Closing,
    },
    End {
        group: u16,
        round: u32,
        ending: Ending,
    },
}

/// A line at its tick, with the fate of its frame; the fate is empty where the line has no frame.
#[derive(Clone, Copy)]
pub struct Entry {
    pub tick: u32,
    pub fate: Fate,
    pub line: Line,
}

impl Line {
    /// The event that wrote this line.
    pub fn event(&self) -> Event
        ensures { result ≡ event_of self.now }
    {
        match *self {
            Line::Send { tag, .. } => Event::Send(tag),
            Line::Take { tag, .. } => Event::Take(tag),
            Line::Close { group, round, .. } => Event::Close { group, round },
            Line::End { group, round, .. } => Event::End { group, round },
        }
    }
}

pub mod laws;
