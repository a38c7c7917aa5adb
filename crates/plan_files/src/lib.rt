//! The plan file, the public plan and the readings file: files of comma-separated fields, by `csv`.
#![tactic(auto)]

mod entry;
mod fault;
mod fields;
mod form;
mod gathering;
mod head;
mod kept_row;
mod key;
mod key_row;
pub mod laws;
mod plan;
mod readings;
mod registers;
mod row;
mod row_reader;
pub mod rows;
mod writing;

pub use fault::{Failed, FileCause, FileFault};
pub use plan::{PlanFile, read_plan, read_public};
pub use readings::read_readings;
pub use registers::{Registers, read_registers};
pub use writing::write_readings;
