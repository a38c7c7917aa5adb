//! Parcels, what they ask of the book, and what it answers.

ghost use Rattle.std.specs.Prelude.{◌≡◌};
ghost use Rattle.shared_book.specs.Parcels.{request_of, group_in, decoded};

use group_book::TakeError;
use meter_frames::{Frame, FrameError, decode};
use round_machine::{Closing, Ending, Verdict};

/// What a collector brings to the book: the bytes of a frame to be taken, or a round to be closed or ended.
#[derive(Clone, Copy, PartialEq, Eq)]
pub enum Parcel {
    /// The bytes of a frame.
    Bytes([u8; 52]),
    Close { group: u16, round: u32 },
    End { group: u16, round: u32 },
}

/// What the book answered.
#[derive(Clone, Copy, Debug, PartialEq, Eq)]
pub enum Reply {
    /// The frame's verdict.
    Took(Verdict),
    /// What the Close came to.
    Closed(Closing),
    /// What the End came to.
    Ended(Ending),
}

/// What a parcel asks of the book.
#[derive(Clone, Copy)]
pub enum Request {
    Take(Frame),
    Close { group: u16, round: u32 },
    End { group: u16, round: u32 },
}

/// Why a commit added no line.
#[derive(Clone, Copy, Debug, PartialEq, Eq)]
pub enum CommitError {
    /// The bytes are no frame.
    Frame(FrameError),
    /// The book refuses the frame.
    Take(TakeError),
    /// The round to be closed or ended is outside the plan.
    Place,
}

impl Request {
    /// The group whose pages it asks for.
    pub fn group(&self) -> u16
        ensures { result ≡ group_in self.now }
    {
        match self {
            Request::Take(frame) => frame.tag.group,
            Request::Close { group, .. } | Request::End { group, .. } => *group,
        }
    }
}

impl Parcel {
    /// What the parcel asks; an error where its bytes are no frame.
    pub fn request(&self) -> Result<Request, FrameError>
        ensures { result ≡ request_of self.now }
    {
        match self {
            Parcel::Bytes(bytes) => match frame_in(bytes) {
                Ok(frame) => Ok(Request::Take(frame)),
                Err(e) => Err(e),
            },
            Parcel::Close { group, round } => Ok(Request::Close {
                group: *group,
                round: *round,
            }),
            Parcel::End { group, round } => Ok(Request::End {
                group: *group,
                round: *round,
            }),
        }
    }
}

/// The frame that the bytes are the spelling of.
#[tactic(auto, using(crate::proofs::Frames::decoded_is))]
fn frame_in(bytes: &[u8]) -> Result<Frame, FrameError>
    ensures { result ≡ decoded bytes.now }
{
    decode(bytes)
}
