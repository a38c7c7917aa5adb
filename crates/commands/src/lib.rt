//! The program over any desk and any wire: it reads its words, has their command done, tells how that ended and answers the status.
#![tactic(auto)]

mod cupboard;
mod outside;
mod program;

pub use command_words::{USAGE, VERSION};
pub use cupboard::with_lanes;
pub use outside::Outside;
pub use program::meteragg;
