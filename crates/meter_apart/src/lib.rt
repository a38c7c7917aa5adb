//! The meter that stands apart: what it says to readings and announcements, over values alone. It has its own keys and readings.
#![tactic(auto)]

mod answers;
mod keys;
pub mod laws;
mod meter;
mod part;
mod replaying;

pub use answers::{FrameRefusal, Noted, ReadingRefusal};
pub use keys::MeterKeys;
pub use meter::MeterApart;
pub use part::Part;
pub use replaying::{ReplayError, replay};
