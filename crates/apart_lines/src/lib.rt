//! The lines that pass between a head end and meters that stand apart, and the lines of their journals.
#![tactic(auto)]

mod digits;
mod fields;
mod head_end_journal;
mod heads;
mod heard;
pub mod laws;
mod meter_journal;
mod said;

pub use head_end_journal::{put_logged, read_logged};
pub use heads::{HeadFound, find_head, journal_head, meter_journal_head};
pub use heard::{ToHeadEnd, ToMeter, read_to_head_end, read_to_meter};
pub use meter_journal::{put_noted, read_noted};
pub use said::{HeadEndSays, MeterSays, put_head_end_says, put_meter_says};
