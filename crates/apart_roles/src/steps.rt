//! The single steps of a role, and why each was not done.

ghost use Rattle.std.specs.Prelude.{[], ◌∷◌, false};
ghost use Rattle.desk_outside.specs.declared.wire.WireStep.TheVariants.{Appended, Emptied, Flushed, Said, Trimmed};
ghost use Rattle.apart_roles.specs.Steps.{Does};

use crate::outcome::RoleError;
use desk_outside::{Wire, WireError};

/// Appends bytes to the journal.
#[tactic(auto, using(crate::proofs::StepLemmas::stops_here))]
pub(crate) fn append<W: Wire>(wire: &mut W, bytes: &[u8]) -> Result<(), RoleError>
    ensures { Does (Appended bytes.now false ∷ []) (W.view wire.old) (W.view wire.new) result }
{
    match wire.append(bytes) {
        Ok(()) => Ok(()),
        Err(WireError::Failed) => Err(RoleError::Journal),
        Err(WireError::Memory) => Err(RoleError::Memory),
    }
}

/// Has the journal on the disk.
#[tactic(auto, using(crate::proofs::StepLemmas::stops_here))]
pub(crate) fn flush<W: Wire>(wire: &mut W) -> Result<(), RoleError>
    ensures { Does (Flushed false ∷ []) (W.view wire.old) (W.view wire.new) result }
{
    match wire.flush() {
        Ok(()) => Ok(()),
        Err(WireError::Failed) => Err(RoleError::Journal),
        Err(WireError::Memory) => Err(RoleError::Memory),
    }
}

/// Takes all bytes out of the journal.
#[tactic(auto, using(crate::proofs::StepLemmas::stops_here))]
pub(crate) fn empty<W: Wire>(wire: &mut W) -> Result<(), RoleError>
    ensures { Does (Emptied false ∷ []) (W.view wire.old) (W.view wire.new) result }
{
    match wire.empty() {
        Ok(()) => Ok(()),
        Err(WireError::Failed) => Err(RoleError::Journal),
        Err(WireError::Memory) => Err(RoleError::Memory),
    }
}

/// Cuts off what the journal has behind what was recalled.
#[tactic(auto, using(crate::proofs::StepLemmas::stops_here))]
pub(crate) fn trim<W: Wire>(wire: &mut W) -> Result<(), RoleError>
    ensures { Does (Trimmed false ∷ []) (W.view wire.old) (W.view wire.new) result }
{
    match wire.trim() {
        Ok(()) => Ok(()),
        Err(WireError::Failed) => Err(RoleError::Journal),
        Err(WireError::Memory) => Err(RoleError::Memory),
    }
}

/// Prints bytes.
#[tactic(auto, using(crate::proofs::StepLemmas::stops_here))]
pub(crate) fn print<W: Wire>(wire: &mut W, bytes: &[u8]) -> Result<(), RoleError>
    ensures { Does (Said bytes.now false ∷ []) (W.view wire.old) (W.view wire.new) result }
{
    match wire.say(bytes) {
        Ok(()) => Ok(()),
        Err(WireError::Failed) => Err(RoleError::Output),
        Err(WireError::Memory) => Err(RoleError::Memory),
    }
}
