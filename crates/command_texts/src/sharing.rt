//! Which meters share mask words.

/// With which other meters of its group a meter shares mask words.
#[derive(Clone, Copy)]
pub enum Sharing {
    /// With each.
    WithEach,
    /// With those at most so many places away on the ring of the group, 1 to 128.
    WithNeighbours(u8),
}
