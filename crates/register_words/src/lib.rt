//! Time-of-use registers: the words of a frame in the further registers, and the report with a total of each.
#![tactic(auto)]

mod blocks;
mod hidden;
pub mod laws;
mod masks;
mod readings;
mod report;
mod row;
mod rows;
mod shares;
mod side;
mod sums;
mod text;
mod word;

pub use masks::RegisterMasks;
pub use report::register_report;
pub use row::{SideRow, SideWords};
pub use side::side_words;
pub use text::{side_end, side_head, side_lines, side_text};
pub use word::register_word;
