//! What the program has outside.

/// A desk for files, for what is said and for complaints, and a wire for lines that come in, for answers and for a journal.
#[derive(Drop)]
pub struct Outside<D, W> {
    pub desk: D,
    pub wire: W,
}
