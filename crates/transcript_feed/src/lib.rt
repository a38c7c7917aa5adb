//! Transcripts whose texts come piece by piece: their entries are read as far as the text has come, and handed on.
#![tactic(auto)]

mod body;
mod feed;
mod intake;
mod keeping;
mod sink;

pub use feed::TextFeed;
pub use keeping::kept;
pub use sink::EntrySink;
