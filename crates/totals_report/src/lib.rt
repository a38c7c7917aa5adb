//! Reports and summaries: their texts, and the rows that a text spells.
#![tactic(auto)]

mod book;
mod counts;
mod cut;
mod reading;
mod row;
mod writing;

pub use book::{report, row_of, rows_of, summary};
pub use reading::read_report;
pub use row::{Report, ReportError, ReportRow, RowOutcome};
pub use writing::{counts_line, row_text, rows_text};
