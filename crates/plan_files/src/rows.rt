//! The rows of a file, what their fields hold, and what a plan says to them: for readers of files whose rows are of the same kinds.

pub use crate::gathering::{check_member, settle};
pub use crate::head::{PlanHead, Windows, read_rounds};
pub use crate::kept_row::FileRow;
pub use crate::plan::stated_plan;
pub use crate::row::{check_fields, is_long, is_word, key_field, name_field, number_field};
pub use crate::row_reader::RowReader;
