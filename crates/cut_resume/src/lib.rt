//! Going on from a cut transcript: what a cut text is read as, and with which entries a run of a plan, its readings, keys and
//! lanes can begin.
#![tactic(auto)]

mod cut;
mod errors;
mod heard;
pub mod laws;
mod left;
mod remaking;
mod resume;

pub use cut::{begun_bytes, is_of_plan, read_cut};
pub use errors::{CutError, ResumeError};
pub use resume::resume_plan;
