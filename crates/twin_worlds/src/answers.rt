//! Why two tables of readings have no transcript in common.

use event_schedule::Line;
use ideal_masks::Differ;
use link_lanes::Fate;
use std::alloc::{AllocError, AllocFailed};
use transcript_text::ReadError;

/// Why `twin` finds no moved words. The first cause in this order is answered.
#[derive(Clone, Copy, PartialEq, Eq)]
pub enum TwinError {
    /// The text is refused as a transcript's, for another cause than memory.
    Transcript(ReadError),
    /// It is the transcript of another plan.
    Head,
    /// This line of the text, counted from 1, is the first that the first table doesn't give under the keys. A text of
    /// `expected` has the tick and the fate of the line that was found.
    NotThis {
        line: u64,
        expected: Line,
        found: Line,
        tick: u32,
        fate: Fate,
    },
    /// The tables don't agree: one alone has a reading somewhere, or the totals of an opened round differ. Never
    /// `Differ::Memory`.
    Differ(Differ),
    /// Memory ran out.
    Memory,
}

impl From<AllocError> for TwinError {
    ghost use Rattle.std.specs.Prelude.{◌≡◌};
    ghost use Rattle.twin_worlds.specs.declared.answers.TwinError.TheVariants.{Memory};

    ghost from_gives = { λ _ e. e ≡ Memory };

    fn from(_error: AllocError) -> TwinError {
        TwinError::Memory
    }
}

impl<T: Drop> From<AllocFailed<T>> for TwinError {
    ghost use Rattle.std.specs.Prelude.{◌≡◌};
    ghost use Rattle.twin_worlds.specs.declared.answers.TwinError.TheVariants.{Memory};

    ghost from_gives = { λ _ e. e ≡ Memory };

    fn from(_error: AllocFailed<T>) -> TwinError {
        TwinError::Memory
    }
}

/// Why `pooled_twin` finds no moved words.
#[derive(Clone, Copy, PartialEq, Eq)]
pub enum PoolTwinError {
    /// The tables have their readings at the same places, and other readings at this place, whose meter is in the pool. It is
    /// the first such by group, round and meter.
    Known { group: u16, round: u32, meter: u8 },
    /// A cause of `twin`. A total is that of the survivors outside the pool, and comes after `Known`.
    Other(TwinError),
}

impl From<TwinError> for PoolTwinError {
    ghost use Rattle.std.specs.Prelude.{◌≡◌};
    ghost use Rattle.twin_worlds.specs.declared.answers.PoolTwinError.TheVariants.{Other};

    ghost from_gives = { λ error e. e ≡ Other error };

    fn from(error: TwinError) -> PoolTwinError {
        PoolTwinError::Other(error)
    }
}

impl From<AllocError> for PoolTwinError {
    ghost use Rattle.std.specs.Prelude.{◌≡◌};
    ghost use Rattle.twin_worlds.specs.declared.answers.PoolTwinError.TheVariants.{Other};
    ghost use Rattle.twin_worlds.specs.declared.answers.TwinError.TheVariants.{Memory};

    ghost from_gives = { λ _ e. e ≡ Other Memory };

    fn from(_error: AllocError) -> PoolTwinError {
        PoolTwinError::Other(TwinError::Memory)
    }
}
