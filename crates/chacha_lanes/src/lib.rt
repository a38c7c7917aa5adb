//! Mask words by ChaCha20: one at a time, and eight at once in the lanes of vectors, of eight keys or of eight rounds; and the further
//! words of the same blocks: all of eight keys, or one of a key in eight rounds.
#![tactic(auto)]

mod blocks;
mod rounds;
mod row;
mod words;

pub use blocks::{block_words_of_rounds, stream_blocks};
pub use row::WordRow;
pub use words::{stream_word, stream_words, words_of_rounds};
