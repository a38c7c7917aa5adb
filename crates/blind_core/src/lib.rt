//! Reading words and answer words, over any table of masks.
#![tactic(auto)]

mod answering;
mod group;
mod rounds;
mod words;

pub use answering::answers;
pub use group::masked_group;
pub use rounds::masked_rounds;
pub use words::{answer, masked};
