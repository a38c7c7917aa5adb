//! Plans, compared by the heads that transcripts of them have.

ghost use Rattle.std.specs.Prelude.{◌≡◌, IfOk, Ok};
ghost use Rattle.transcript_text.specs.declared.version.Version.TheVariants.{Two};
ghost use Rattle.event_schedule.specs.Transcripts.{no_entries};
ghost use Rattle.transcript_text.specs.Spelling.{transcript_text};
ghost use Rattle.transcript_text.specs.Heads.{read_of};
ghost use Rattle.twin_worlds.specs.Comparing.{Decides};

use group_plan::Plan;
use std::alloc::{AllocError, Global};
use transcript_log::Transcript;
use transcript_text::write;

// The text of a transcript of the plan, before its first entry.
fn head_text(alloc: Global, plan: &Plan) -> Result<Vec<u8>, AllocError>
    ensures text { IfOk result (λ text. text.items ≡ transcript_text (no_entries plan.now)) }
    ensures read { IfOk result (λ text. read_of Two text.items ≡ Ok (no_entries plan.now)) }
{
    write(alloc, &Transcript::empty(alloc, plan)?)
}

/// Whether two plans are the same.
pub(crate) fn is_same_plan(alloc: Global, one: &Plan, other: &Plan) -> Result<bool, AllocError>
    ensures { IfOk result (Decides (one.now ≡ other.now)) }
{
    Ok(head_text(alloc, one)? == head_text(alloc, other)?)
}
