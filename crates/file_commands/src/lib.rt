//! The commands that work on files and run nothing, over any desk.
#![tactic(auto)]

/// The value of a result, or the command ends with the outcome that stands in its place.
macro_rules! or_end {
    ($result:expr) => {
        match $result {
            Ok(value) => value,
            Err(outcome) => return outcome,
        }
    };
}

/// The value of a result, or the function fails with the outcome that stands in its place.
macro_rules! or_fail {
    ($result:expr) => {
        match $result {
            Ok(value) => value,
            Err(outcome) => return Err(outcome),
        }
    };
}

mod auditing;
mod billing;
mod converting;
mod hiding;
mod inspecting;
mod part_files;
mod pouring;
mod publishing;
mod ring_twins;
mod twins;

pub use auditing::audit;
pub use billing::bill;
pub use converting::convert;
pub use hiding::hide;
pub use inspecting::inspect;
pub use part_files::parts;
pub use publishing::public;
pub use ring_twins::ring_twin;
pub use twins::{pooled, twin};
