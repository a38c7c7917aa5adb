//! What a batch answers: the book, and what became of each parcel.

use group_book::{Book, TakeError};
use meter_frames::FrameError;
use shared_book::Reply;

/// What became of a parcel.
#[derive(Clone, Copy, Debug, PartialEq, Eq)]
pub enum Mark {
    /// It is accepted: a line was added, and this is its reply.
    Made(Reply),
    /// Its bytes are no frame.
    Bad(FrameError),
    /// The book refuses its frame.
    Refused(TakeError),
    /// The round that it closes or ends is outside the plan.
    OutOfPlan,
}

/// A book after a batch, and the mark of each parcel.
#[derive(Drop)]
pub struct Collected {
    pub book: Book,
    pub replies: Vec<Mark>,
}

/// There was no memory; the book has the lines that it had.
#[derive(Drop)]
pub struct CollectRefused {
    pub book: Book,
}
