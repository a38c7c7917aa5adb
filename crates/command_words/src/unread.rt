//! What can't be read.

/// What can't be read. A name is the word that named the file.
#[derive(Clone, Copy)]
pub enum Unread<'a> {
    /// The file can't be read.
    File(&'a str),
    /// The file is longer than 2^28 bytes.
    TooLong(&'a str),
    /// The input can't be read.
    Input,
}
