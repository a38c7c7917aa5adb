//! How work is cut into pieces that are worth a thread.

// As many mask words as are worth a thread.
const WORDS_A_PIECE: usize = 40_000;

/// How many items make about as many mask words as are worth a thread, where so many items make so many words: at least one.
pub(crate) fn items_a_piece(words: usize, items: usize) -> usize {
    let each = words / items.max(1);
    (WORDS_A_PIECE / each.max(1)).max(1)
}
