//! Numbers and sets of meters as they stand in the fields of a line.
#![tactic(auto)]

mod number;
mod parts;
mod sets;

pub use number::{put_number, read_number, read_number_within};
pub use parts::{cut, cut_far};
pub use sets::{put_set, read_set};
