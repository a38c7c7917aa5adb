//! Transcripts: the lines of a run in small form, the ticks and fates of their entries, and a transcript as it is drafted.
#![tactic(auto)]

mod draft;
mod extras;
mod lines;
mod small;
mod stretches;
mod transcript;

pub use draft::Draft;
pub use lines::Lines;
pub use transcript::Transcript;
