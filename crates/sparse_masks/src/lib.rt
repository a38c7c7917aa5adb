//! Masks between neighbours on a ring alone.
#![tactic(auto)]

ghost use Rattle.std.specs.Prelude.{◌≡◌};

pub mod laws;
mod least;
mod neighbours;
mod offsets;
mod ring;
mod round;
mod sides;
mod stretch;
mod trees;

pub use least::{least_of_book, least_opened};
pub use offsets::ring_offsets;
pub use ring::RingMasks;
use std::alloc::AllocError;

/// Why tables of readings don't agree on a ring for the events of a transcript. Groups, rounds and meters are counted from 0.
#[derive(Clone, Copy, PartialEq, Eq)]
pub enum RingDiffer {
    /// One table alone has a reading at this place, the first such by group, round and meter.
    Presence {
        group: u16,
        round: u32,
        meter: u8,
    },
    /// The sums of the two tables' readings, in watt-hours, over an opened component of this round differ. It is the first such
    /// by group, round and its least member.
    Component {
        group: u16,
        round: u32,
        least: u8,
        first: u64,
        second: u64,
    },
    /// Memory ran out.
    Memory,
}

impl From<AllocError> for RingDiffer {
    ghost use Rattle.sparse_masks.specs.declared.RingDiffer.{RingDiffer};

    ghost from_gives = { λ _ e. e ≡ RingDiffer.Memory };

    fn from(_error: AllocError) -> RingDiffer {
        RingDiffer::Memory
    }
}
