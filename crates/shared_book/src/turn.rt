//! What a commit leaves, and what the rule knows of a pass.

use event_schedule::Line;
use group_book::Book;
use std::collections::LinkedList;

/// One commit: the number of the pass that made it, and the line that was added.
#[derive(Clone, Copy)]
pub struct Turn {
    pub number: u32,
    pub line: Line,
}

/// What the rule knows of a pass. No value of it is made.
pub struct View {
    /// The book that the shared book was opened with.
    pub opening: Book,
    /// It was not joined.
    pub live: bool,
    /// Its number; that of the first pass is 0.
    pub number: u64,
    /// How many passes were split from it.
    pub made: u64,
    /// How many of these were not joined yet.
    pub out: u64,
    /// The numbers of the passes that were joined to it.
    pub joined: LinkedList<u64>,
    /// The group whose pages it has, where it has some.
    pub held: Option<u64>,
    /// The turns that it has seen, the earliest first.
    pub seen: LinkedList<Turn>,
    /// Its own turns among these.
    pub mine: LinkedList<Turn>,
    /// It was told of another pass, and has not learnt it yet.
    pub pending: bool,
    /// The turns that the other pass has seen.
    pub told: LinkedList<Turn>,
    /// The number of the other pass.
    pub told_by: u64,
    /// The other pass's own turns.
    pub told_mine: LinkedList<Turn>,
    /// How many passes were not joined before the other was.
    pub told_out: u64,
}
