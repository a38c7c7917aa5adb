//! What can't be written.

use meter_files::PartFile;

/// What can't be written. A name is the word that named the file.
#[derive(Clone, Copy)]
pub enum Unwritten<'a> {
    /// The file can't be written.
    File(&'a str),
    /// This file of a meter can't be written; the prefix begins its name.
    Part {
        prefix: &'a str,
        meter: u8,
        file: PartFile,
    },
    /// The output can't be written.
    Output,
}
