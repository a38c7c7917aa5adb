//! What is made of a text and not yet taken.

use std::collections::VecDeque;

/// What comes next of a text.
#[derive(Clone, Copy)]
pub(crate) enum TextPlace {
    /// The head.
    Head,
    /// The line of the entry at this place, or what stands behind the last entry.
    Entry(usize),
    /// Nothing.
    End,
}

/// How far a text goes.
#[derive(Clone, Copy)]
pub(crate) enum Until {
    /// As far as the last entry.
    LastEntry,
    /// As far as the `end` line, which is its last.
    EndLine,
}

/// Pieces of a text that are made and not yet taken, and what comes after them.
#[derive(Drop)]
pub(crate) struct MadePieces {
    pub(crate) pieces: VecDeque<Vec<u8>>,
    pub(crate) after: TextPlace,
}
