//! Meter files: what a meter has of its plan, with its keys; and the head of its journal.
#![tactic(auto)]

mod file;
mod journal;
pub mod laws;
mod names;
mod part_file;
mod part_row;
mod putting;
mod rows;

pub use file::meter_text;
pub use journal::journal_head;
pub use names::{PartFile, part_name};
pub use part_file::{MeterFile, read_meter};
pub use putting::{PartFailure, put_parts};
