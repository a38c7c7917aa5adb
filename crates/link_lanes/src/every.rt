//! The lane `every`, which gives each Nth post a fate of its own.

ghost use Rattle.std.specs.Prelude.{◌≡◌, None};
ghost use Rattle.link_lanes.specs.Kinds.{nth_of, every_by};
ghost use Rattle.link_lanes.specs.MadeLanes.{every_lane};

use crate::texts::{halves, read_fate};
use crate::{Fate, Lane, LaneError};
use field_texts::read_number_within;
use group_plan::Tag;
use std::alloc::Global;
use std::marker::Model;

// The posts numbered step, twice step and so on get the fate.
#[derive(Clone, Copy)]
struct Nth {
    step: u32,
    fate: Fate,
}

impl Model for Nth {
    ghost use Rattle.std.specs.Prelude.{◌≤◌};
    ghost use Rattle.link_lanes.specs.Kinds.{Nth};

    ghost Value = { Nth };

    ghost view = { λ n. record { step = n.step; fate = n.fate } };

    ghost invariant = { λ n. 1 ≤ n.step };

    ghost inverse = { λ n. record { step = n.step; fate = n.fate } };
}

// The step and the fate that an argument spells, `N:FATE`.
fn read_nth(arg: &str) -> Option<Nth>
    ensures { result ≡ nth_of arg.now }
{
    let (step, fate) = halves(arg.as_bytes(), b':')?;
    let step = read_number_within(step, 1, 1_000_001)? as u32;
    let fate = read_fate(fate)?;
    Some(Nth { step, fate })
}

/// The lane `every`: each Nth post gets a fate of the lane's own, and the others keep what came.
/// Its argument is `N:FATE`, N from 1 to 1,000,000.
#[derive(Drop)]
pub struct EveryNth {
    nth: Option<Nth>,
    count: u64,
}

impl EveryNth {
    /// A lane with no post and no argument yet.
    pub fn new() -> EveryNth
        ensures { every_lane result ≡ every_by 0 None }
    {
        EveryNth {
            nth: None,
            count: 0,
        }
    }
}

impl Lane for EveryNth {
    ghost use Rattle.link_lanes.specs.MadeLanes.{every_lane};

    ghost meaning = { every_lane };

    fn name(&self) -> &str {
        "every"
    }

    fn load(&mut self, _alloc: Global, arg: &str) -> Result<(), LaneError> {
        let Some(nth) = read_nth(arg) else {
            return Err(LaneError::Refused);
        };
        self.nth = Some(nth);
        self.count = 0;
        Ok(())
    }

    fn fate(&mut self, _tag: Tag, coming: Fate) -> Fate {
        self.count += 1;
        let Some(nth) = self.nth else {
            return coming;
        };
        if self.count % u64::from(nth.step) == 0 {
            nth.fate
        } else {
            coming
        }
    }
}
