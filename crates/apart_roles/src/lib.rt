//! The roles of a head end and of a meter that stand apart, over a wire: each line that is heard is answered, and what is said rests
//! on what the journal has on the disk.
#![tactic(auto)]

mod head_end_report;
mod head_end_run;
mod head_end_start;
mod head_end_turn;
pub mod laws;
mod meter_run;
mod meter_start;
mod meter_turn;
mod outcome;
mod saying;
mod start;
mod steps;

pub use head_end_report::{report_text, say_reported, say_summary};
pub use head_end_run::{Pause, run_head_end};
pub use head_end_start::start_head_end;
pub use meter_run::run_meter;
pub use meter_start::start_meter;
pub use outcome::{RoleError, Start};
