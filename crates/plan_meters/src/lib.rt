//! The meters of a plan: what each knows, has read and heard, and what they send at a tick.
#![tactic(auto)]

mod frames;
mod group;
mod group_meters;
mod hidden;
mod known;
mod meters;
mod pieces;

pub use group::{add_answer_frames, add_reading_frames};
pub use group_meters::GroupMeters;
pub use hidden::HiddenReadings;
pub use known::Known;
