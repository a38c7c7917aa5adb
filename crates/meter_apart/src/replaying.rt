//! A meter from the lines of its journal.

ghost use Rattle.std.specs.Prelude.{◌≡◌};
ghost use Rattle.meter_apart.specs.Replay.{Replays};

use crate::answers::Noted;
use crate::keys::MeterKeys;
use crate::meter::MeterApart;
use std::alloc::{AllocError, Global};

/// Why lines are no journal of a meter.
#[derive(Clone, Copy, Debug, PartialEq, Eq)]
pub enum ReplayError {
    /// This line, counted from 0, is the first that can't follow those before it.
    Line(usize),
    /// Memory ran out.
    Memory,
}

impl From<AllocError> for ReplayError {
    ghost use Rattle.meter_apart.specs.declared.replaying.ReplayError.{ReplayError};

    ghost from_gives = { λ _ e. e ≡ ReplayError.Memory };

    fn from(_error: AllocError) -> ReplayError {
        ReplayError::Memory
    }
}

/// The meter that a journal gives. It says from then on what the one that wrote the journal would say.
pub fn replay(alloc: Global, keys: MeterKeys, lines: &[Noted]) -> Result<MeterApart, ReplayError>
    ensures { Replays keys lines.now result }
{
    let mut meter = MeterApart::new(alloc, keys)?;
    for at in 0..lines.len() {
        if !meter.follow(&lines[at]) {
            return Err(ReplayError::Line(at));
        }
    }
    Ok(meter)
}
