//! The files of a command on any desk: fetched whole, written while a run goes on, and put all or none, with the line that is then said.
#![tactic(auto)]

/// The value of a result, or the command ends with the outcome that stands in its place.
macro_rules! or_end {
    ($result:expr) => {
        match $result {
            Ok(value) => value,
            Err(outcome) => return outcome,
        }
    };
}

/// The value of a result, or the function fails with the outcome that stands in its place.
macro_rules! or_fail {
    ($result:expr) => {
        match $result {
            Ok(value) => value,
            Err(outcome) => return Err(outcome),
        }
    };
}

mod ahead;
mod desk_calls;
mod leading;
mod parts;
mod source;

pub use ahead::Ahead;
pub use desk_calls::{
    Begun, NewFile, PendingFile, ThreeBegun, ThreeSources, begin, begin_three, commit,
    commit_failed, commit_one, commit_three, commit_two, fetch, fetch_two, first_of_three,
    first_of_two, pour, pour_and_fetch, put_one, put_two, say,
};
pub use leading::run_ahead;
pub use source::Source;
