//! The versions of a transcript's text.

/// The version of a transcript's text.
#[derive(Clone, Copy)]
pub enum Version {
    /// Frames of 28 bytes, for groups of up to 64 meters. It is only read.
    One,
    /// Frames of 52 bytes.
    Two,
}
