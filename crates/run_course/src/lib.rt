//! Whether the entries of a transcript are in time: with which of them a run of its plan can begin. It is handed no key and no reading.
#![tactic(auto)]

mod course;
mod errors;
mod judging;
pub mod laws;
mod marks;
mod owed;
mod waiting;

pub use errors::CourseError;
pub use judging::in_time;
