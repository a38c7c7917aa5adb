//! The run over ticks.
#![tactic(auto)]

mod announcements;
mod by_groups;
mod context;
mod finished;
mod first;
mod group_tick;
mod journal;
mod plan_run;
mod run;
mod running;
mod tick;

pub use finished::Finished;
pub use plan_run::{run_masked, run_plan};
pub use run::Run;
use std::alloc::AllocError;

/// Why there is no run.
#[derive(Clone, Copy)]
pub enum RunError {
    /// There was no memory.
    Memory,
}

impl From<AllocError> for RunError {
    fn from(_error: AllocError) -> RunError {
        RunError::Memory
    }
}
