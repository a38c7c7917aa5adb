//! Ideal mask tables: the shift that carries one reading table into another under one and the same transcript.
#![tactic(auto)]

ghost use Rattle.std.specs.Prelude.{◌≡◌};

mod agreement;
mod chain;
mod compared;
mod links;
mod mask_table;
mod moved;
mod offset_list;
mod order;
mod owns;
mod pool;
mod replay;
mod shifting;
mod worlds;

pub use agreement::{check_presence, sum_of_readings};
pub use chain::{Chain, chain_of, opened_survivors};
pub use compared::reading_or_zero;
pub use mask_table::MaskTable;
use mod_word::Word;
pub use moved::push_moved;
pub use offset_list::Offsets;
use pair_keys::KeyId;
pub use replay::replay_events;
pub use shifting::{shift, unshift};
use std::alloc::AllocError;
pub use worlds::{offsets, offsets_after, pooled_offsets_after};

/// How much the mask word of a key moves in a round, added modulo 2^64.
#[derive(Clone, Copy)]
pub struct Offset {
    pub id: KeyId,
    pub round: u32,
    pub by: Word,
}

/// Why tables of readings don't agree for the events of a transcript. Groups, rounds and meters are counted from 0.
#[derive(Clone, Copy, PartialEq, Eq)]
pub enum Differ {
    /// One table alone has a reading at this place, the first such by group, round and meter.
    Presence {
        group: u16,
        round: u32,
        meter: u8,
    },
    /// The sums of the two tables' readings, in watt-hours, over the survivors of this opened round differ. It is the
    /// first such by group and round.
    Total {
        group: u16,
        round: u32,
        first: u64,
        second: u64,
    },
    /// Memory ran out.
    Memory,
}

impl From<AllocError> for Differ {
    ghost use Rattle.ideal_masks.specs.declared.Differ.{Differ};

    ghost from_gives = { λ _ e. e ≡ Differ.Memory };

    fn from(_error: AllocError) -> Differ {
        Differ::Memory
    }
}

/// Why tables of readings don't agree for a pool of meters and the events of a transcript.
#[derive(Clone, Copy, PartialEq, Eq)]
pub enum PoolDiffer {
    /// The tables have their readings at the same places, and other readings at this place, whose meter is in the pool. It is
    /// the first such by group, round and meter.
    Known { group: u16, round: u32, meter: u8 },
    /// Another cause: `Presence` before `Known`, and `Total` after it. The sums are over the survivors outside the pool.
    Other(Differ),
}

impl From<Differ> for PoolDiffer {
    ghost use Rattle.std.specs.Prelude.{◌≡◌};
    ghost use Rattle.ideal_masks.specs.declared.PoolDiffer.TheVariants.{Other};

    ghost from_gives = { λ differ e. e ≡ Other differ };

    fn from(differ: Differ) -> PoolDiffer {
        PoolDiffer::Other(differ)
    }
}

pub mod laws;
pub mod table_laws;
