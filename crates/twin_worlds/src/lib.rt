//! Two worlds: the mask words under which other readings give a stored transcript, line by line.
#![tactic(auto)]

mod answer_words;
mod answers;
mod comparing;
mod heads;
mod moving;
mod rows;
mod tables;
mod twins;
mod world;
mod writing;

pub use answers::{PoolTwinError, TwinError};
pub use moving::moved_rows;
pub use rows::{MovedRow, MovedWords};
pub use tables::ReadingTables;
pub use twins::{
    pooled_twin, pooled_twin_of_read, same_world, same_world_of_read, transcript_of_plan, twin,
    twin_of_read,
};
pub use writing::moved_text;

pub mod laws;
