//! A head end from the lines of its journal.

ghost use Rattle.std.specs.Prelude.{◌≡◌};
ghost use Rattle.head_end.specs.Replay.{Replays};

use crate::answers::Logged;
use crate::head::HeadEnd;
use group_plan::Plan;
use std::alloc::{AllocError, Global};

/// Why lines are no journal of a plan.
#[derive(Clone, Copy, Debug, PartialEq, Eq)]
pub enum ReplayError {
    /// This line, counted from 0, is the first that can't follow those before it.
    Line(usize),
    /// Memory ran out.
    Memory,
}

impl From<AllocError> for ReplayError {
    ghost use Rattle.head_end.specs.declared.replaying.ReplayError.{ReplayError};

    ghost from_gives = { λ _ e. e ≡ ReplayError.Memory };

    fn from(_error: AllocError) -> ReplayError {
        ReplayError::Memory
    }
}

/// The head end that a journal gives. It says from then on what the one that wrote the journal would say.
pub fn replay(alloc: Global, plan: &Plan, lines: &[Logged]) -> Result<HeadEnd, ReplayError>
    ensures { Replays plan.now lines.now result }
{
    let mut head = HeadEnd::new(alloc, plan)?;
    for at in 0..lines.len() {
        if !head.follow(&lines[at]) {
            return Err(ReplayError::Line(at));
        }
    }
    Ok(head)
}
