//! The lane `burst`, which loses posts in turns.

ghost use Rattle.std.specs.Prelude.{◌≡◌, None};
ghost use Rattle.link_lanes.specs.Kinds.{turns_of, burst_by};
ghost use Rattle.link_lanes.specs.MadeLanes.{burst_lane};

use crate::texts::halves;
use crate::{Fate, Lane, LaneError};
use field_texts::read_number_within;
use group_plan::Tag;
use std::alloc::Global;
use std::marker::Model;

// In turns so many posts pass and so many are lost.
#[derive(Clone, Copy)]
struct Turns {
    passed: u32,
    lost: u32,
}

impl Model for Turns {
    ghost use Rattle.std.specs.Prelude.{◌≤◌};
    ghost use Rattle.link_lanes.specs.Kinds.{Turns};

    ghost Value = { Turns };

    ghost view = { λ t. record { passed = t.passed; lost = t.lost } };

    ghost invariant = { λ t. (1 ≤ t.passed) × (t.passed ≤ 1000000) × (t.lost ≤ 1000000) };

    ghost inverse = { λ t. record { passed = t.passed; lost = t.lost } };
}

// The turns that an argument spells, `N:M`.
fn read_turns(arg: &str) -> Option<Turns>
    ensures { result ≡ turns_of arg.now }
{
    let (passed, lost) = halves(arg.as_bytes(), b':')?;
    let passed = read_number_within(passed, 1, 1_000_001)? as u32;
    let lost = read_number_within(lost, 1, 1_000_001)? as u32;
    Some(Turns { passed, lost })
}

/// The lane `burst`: in turns N posts keep what came and M posts are lost.
/// Its argument is `N:M`, each from 1 to 1,000,000.
#[derive(Drop)]
pub struct Burst {
    turns: Option<Turns>,
    count: u64,
}

impl Burst {
    /// A lane with no post and no argument yet.
    pub fn new() -> Burst
        ensures { burst_lane result ≡ burst_by 0 None }
    {
        Burst {
            turns: None,
            count: 0,
        }
    }
}

impl Lane for Burst {
    ghost use Rattle.link_lanes.specs.MadeLanes.{burst_lane};

    ghost meaning = { burst_lane };

    fn name(&self) -> &str {
        "burst"
    }

    fn load(&mut self, _alloc: Global, arg: &str) -> Result<(), LaneError> {
        let Some(turns) = read_turns(arg) else {
            return Err(LaneError::Refused);
        };
        self.turns = Some(turns);
        self.count = 0;
        Ok(())
    }

    fn fate(&mut self, _tag: Tag, coming: Fate) -> Fate {
        let number = self.count;
        self.count += 1;
        let Some(turns) = self.turns else {
            return coming;
        };
        let turn = u64::from(turns.passed) + u64::from(turns.lost);
        if number % turn >= u64::from(turns.passed) {
            Fate::lost()
        } else {
            coming
        }
    }
}
