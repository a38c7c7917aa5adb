//! What the rows of several crates share: the group of three meters with floor 2, with its plan, readings, keys and
//! transcript.
#![tactic(auto)]

mod keys;
mod plans;
mod texts;

pub use keys::keys_of_north;
pub use plans::{group, plan_of_north, put, reading_tag, table};
pub use texts::{PLAIN, PLAIN_OLD, with_line};
