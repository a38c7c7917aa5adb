//! The lane `clear`, which gives each post one copy of delay 1.

ghost use Rattle.std.specs.Prelude.{◌≡◌};
ghost use Rattle.link_lanes.specs.Kinds.{clear_by};
ghost use Rattle.link_lanes.specs.MadeLanes.{clear_lane};

use crate::{Fate, Lane, LaneError};
use group_plan::Tag;
use std::alloc::Global;

/// The lane `clear`: one copy with delay 1, whatever came. It takes the empty argument.
#[derive(Drop)]
pub struct Clear {
    count: u64,
}

impl Clear {
    /// A lane with no post.
    pub fn new() -> Clear
        ensures { clear_lane result ≡ clear_by 0 }
    {
        Clear { count: 0 }
    }
}

impl Lane for Clear {
    ghost use Rattle.link_lanes.specs.MadeLanes.{clear_lane};

    ghost meaning = { clear_lane };

    fn name(&self) -> &str {
        "clear"
    }

    fn load(&mut self, _alloc: Global, arg: &str) -> Result<(), LaneError> {
        if !arg.is_empty() {
            return Err(LaneError::Refused);
        }
        self.count = 0;
        Ok(())
    }

    fn fate(&mut self, _tag: Tag, _coming: Fate) -> Fate {
        self.count += 1;
        Fate::once(1)
    }
}
