//! The commands of the roles that stand apart, over any desk and any wire: `collect` and `meter`.
#![tactic(auto)]

/// The value of a result, or the command ends with the outcome that stands in its place.
macro_rules! or_end {
    ($result:expr) => {
        match $result {
            Ok(value) => value,
            Err(outcome) => return outcome,
        }
    };
}

/// The value of a result, or the function fails with the outcome that stands in its place.
macro_rules! or_fail {
    ($result:expr) => {
        match $result {
            Ok(value) => value,
            Err(outcome) => return Err(outcome),
        }
    };
}

mod collecting;
mod metering;
mod report;
mod told;

pub use collecting::collect;
pub use metering::meter;
