//! What a run has made so far.

use crate::group_tick::GroupWork;
use link_lanes::Fate;
use shared_book::{Pass, SharedBook};
use transcript_log::{Draft, Lines};

/// A group between ticks: its number, the pass that makes its commits on the shared book, which has its pages, and its work.
#[derive(Drop)]
pub(crate) struct Group {
    pub number: u16,
    pub pass: Pass,
    pub work: GroupWork,
}

/// A run between its ticks: its shared book, with the first pass; its groups in order, the lines of all of them, their entries, and the
/// fates that the frames of the last tick met.
#[derive(Drop)]
pub(crate) struct Running {
    pub shared: SharedBook,
    pub first: Pass,
    pub groups: Vec<Group>,
    pub journal: Lines,
    pub transcript: Draft,
    pub fates: Vec<Fate>,
}
