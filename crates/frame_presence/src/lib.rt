//! Who has a reading, by the frames of a transcript alone.
#![tactic(auto)]

mod presence;

pub use presence::{presence_of_frames, readings_of_frames};
