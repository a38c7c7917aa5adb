//! The head end that stands apart: what it answers to frames and ticks, over values alone. It has no key and no reading.
#![tactic(auto)]

mod answers;
mod head;
pub mod laws;
mod lines;
mod replaying;
mod start;

pub use answers::{Logged, Refusal, Reply, TickLine};
pub use head::HeadEnd;
pub use replaying::{ReplayError, replay};
