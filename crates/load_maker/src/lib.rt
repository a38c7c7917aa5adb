//! Plan files and readings files of any size, made from a number.
#![tactic(auto)]

ghost use Rattle.std.specs.Prelude.{IfOk};
ghost use Rattle.load_maker.specs.MadeFiles.{AreRead};
ghost use Rattle.load_maker.specs.Makes.{Makes};

mod drawing;
pub mod laws;
mod plan;
mod readings;
mod size;

use plan::plan_text;
use readings::readings_text;
use size::PlanSize;
pub use size::is_within;
use std::alloc::{AllocError, Global};

/// The bytes of a plan file and of a readings file of this plan.
#[derive(Drop)]
pub struct MadeFiles {
    pub plan: Vec<u8>,
    pub readings: Vec<u8>,
}

/// Why no files are made.
#[derive(Clone, Copy)]
pub enum MakeError {
    /// The groups aren't 1 to 256, the meters of each not 2 to 256 or the rounds not 1 to 4096; or there are more than
    /// 131,072 readings or 1,048,576 pairs.
    Range,
    /// Memory ran out.
    Memory,
}

impl From<AllocError> for MakeError {
    ghost use Rattle.std.specs.Prelude.{◌≡◌};
    ghost use Rattle.load_maker.specs.declared.MakeError.TheVariants.{Memory};

    ghost from_gives = { λ _ error. error ≡ Memory };

    fn from(_: AllocError) -> MakeError {
        MakeError::Memory
    }
}

/// The files of this many groups, meters in each group, and rounds. Their keys and readings are drawn from the seed.
pub fn make(
    alloc: Global,
    seed: u64,
    groups: u64,
    meters: u64,
    rounds: u64,
) -> Result<MadeFiles, MakeError>
    ensures made { Makes seed groups meters rounds result }
    ensures read { IfOk result (λ _. AreRead seed groups meters rounds) }
{
    let Some(size) = PlanSize::new(groups, meters, rounds) else {
        return Err(MakeError::Range);
    };
    Ok(MadeFiles {
        plan: plan_text(alloc, seed, size)?,
        readings: readings_text(alloc, seed, size)?,
    })
}
