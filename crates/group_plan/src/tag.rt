//! The tag of a frame: its group, round, meter and kind.

/// What a frame says.
#[derive(Clone, Copy, Debug, PartialEq, Eq)]
pub enum Kind {
    /// A meter's hidden reading.
    Reading,
    /// The head end's list of the missing meters, to a survivor.
    Announcement,
    /// A survivor's answer to that list.
    Answer,
}

/// Whose frame it is, of which round, and its kind. Group, round and meter are counted from 0.
///
/// In this order the fields take 8 bytes: each frame, post and line on its way has a tag, so its size counts.
#[derive(Clone, Copy, Debug, PartialEq, Eq)]
pub struct Tag {
    pub round: u32,
    pub group: u16,
    pub meter: u8,
    pub kind: Kind,
}
