//! Bills in clear: what each meter uses in a period, and whether the bills leave a reading untold.
#![tactic(auto)]

mod bills;
mod changes;
mod partners;
mod search;
mod writing;

pub use bills::{Bill, bills_of};
pub use changes::other_world;
pub use partners::{Partner, ReadingPlace};
pub use search::partner;
pub use writing::bills_text;

pub mod laws;
