//! The head of a meter's journal.

ghost use Rattle.std.specs.Prelude.{◌≡◌, ◌<◌, length, IfOk};
ghost use Rattle.meter_files.specs.Spelling.{journal_head};

use crate::rows::{put_members, put_part};
use group_plan::Plan;
use std::alloc::{AllocError, Global};

/// The head of the journal of a meter of the group at a place of the plan, which frames name by this number: up to the newline after
/// `begin`.
#[tactic(auto, unfolding(crate::specs::Spelling::journal_head))]
pub fn journal_head(
    alloc: Global,
    plan: &Plan,
    place: u16,
    group: u16,
    meter: u8,
) -> Result<Vec<u8>, AllocError>
    requires { place < length plan.now.groups }
    ensures { IfOk result (λ head. head.items ≡ journal_head plan.now place group meter) }
{
    let mut head = Vec::from_slice(alloc, b"meteragg meter journal 1\n")?;
    put_part(&mut head, plan, place, group, meter)?;
    put_members(&mut head, plan, place)?;
    head.extend_from_slice(b"begin\n")?;
    Ok(head)
}
