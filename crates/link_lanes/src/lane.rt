//! The trait of a lane, which gives posted frames their fates.

ghost use Rattle.std.specs.Prelude.{◌≡◌, ◌<◌, ◌^◌};
ghost use Rattle.link_lanes.specs.Lanes.{Meaning, counted};
ghost use Rattle.link_lanes.specs.Loads.{LoadEnds};

use crate::Fate;
use group_plan::Tag;
use std::alloc::{AllocError, Global};

/// Why a lane did not take an argument.
#[derive(Clone, Copy, Debug)]
pub enum LaneError {
    /// The lane's own test of the argument is false.
    Refused,
    /// Want of memory.
    Memory,
}

impl From<AllocError> for LaneError {
    ghost use Rattle.std.specs.Prelude.{◌≡◌};
    ghost use Rattle.link_lanes.specs.declared.lane.LaneError.TheVariants.{Memory};

    ghost from_gives = { λ _ error. error ≡ Memory };

    fn from(_: AllocError) -> Self {
        LaneError::Memory
    }
}

/// Gives posts their fates, one lane after another: each is told the tag and the fate that the
/// lanes before it gave, and never a word of the frame.
pub trait Lane: Drop {
    /// Its name, its test of an argument, the number of its posts, its answer, and the answer that
    /// each argument would give it.
    ghost meaning: { Self → Meaning };

    /// The name by which a row of a plan file asks for the lane.
    fn name(&self) -> &str
        ensures { result.now ≡ (meaning self.now).called };

    /// Takes an argument, and counts its posts from 0 again. After an error the lane is as before.
    fn load(&mut self, alloc: Global, arg: &str) -> Result<(), LaneError>
        ensures { LoadEnds (meaning self.old) arg.now (meaning self.new) result };

    /// The fate of a post that comes to this lane with a fate, and counts it.
    fn fate(&mut self, tag: Tag, coming: Fate) -> Fate
        requires { (meaning self.old).count < 2 ^ 63 }
        ensures answered { result ≡ (meaning self.old).answer (meaning self.old).count tag coming }
        ensures counted { meaning self.new ≡ counted (meaning self.old) };
}
