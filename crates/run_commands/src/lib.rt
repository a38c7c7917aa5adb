//! The commands that run a plan, over any desk: `run`, `ring`, `registers`, `resume` and `load`; and `make`, which makes files to run.
#![tactic(auto)]

/// The value of a result, or the command ends with the outcome that stands in its place.
macro_rules! or_end {
    ($result:expr) => {
        match $result {
            Ok(value) => value,
            Err(outcome) => return outcome,
        }
    };
}

/// The value of a result, or the function fails with the outcome that stands in its place.
macro_rules! or_fail {
    ($result:expr) => {
        match $result {
            Ok(value) => value,
            Err(outcome) => return Err(outcome),
        }
    };
}

mod loading;
mod making;
mod register_runs;
mod resuming;
mod run_texts;
mod running;

pub use loading::load;
pub use making::make;
pub use register_runs::registers;
pub use resuming::resume;
pub use running::{ring, run};
