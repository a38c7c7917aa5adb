//! How a role ends before its input does.

/// What failed.
#[derive(Clone, Copy, Debug, PartialEq, Eq)]
pub enum RoleError {
    /// The input can't be read.
    Input,
    /// The journal can't be written or brought to the disk.
    Journal,
    /// The output can't be written.
    Output,
    /// Memory ran out.
    Memory,
}

/// How a start ends, where nothing failed.
#[derive(Drop)]
pub enum Start<R> {
    /// The role that the journal gives.
    Ready(R),
    /// The journal can't be opened or read.
    Unreadable,
    /// This line of the journal, counted from 1, is the first that isn't its head's.
    Head(u64),
    /// This line of the journal, counted from 1, is of no form, or can't follow those before it.
    Line(u64),
}

/// What comes of the next line of a journal.
#[derive(Clone, Copy, Debug, PartialEq, Eq)]
pub(crate) enum Recollection {
    /// It was followed.
    Followed,
    /// It is of no form, or can't follow those before it.
    Wrong,
    /// There is none.
    Over,
    /// The journal can't be read.
    Unreadable,
}
