//! Mask words, from keys by ChaCha20.
#![tactic(auto)]

mod cha_masks;
mod masks;

pub use cha_masks::ChaMasks;
pub use masks::{MaskRow, Masks};
