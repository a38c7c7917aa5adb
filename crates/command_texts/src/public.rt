//! The text of a public plan.

ghost use Rattle.std.specs.Prelude.{◌≡◌, ◌≤◌, ◌-◌, length, slice_range, IfOk};
ghost use Rattle.plan_files.specs.Spelling.{public_text};

use group_plan::Plan;
use std::alloc::{AllocError, Global};
use transcript_log::Transcript;
use transcript_text::write;

/// The first line of a public plan.
const TITLE: &[u8] = b"public,1\n";

/// How many bytes the first line of a transcript has.
const TRANSCRIPT_TITLE: usize = 22;

/// How many bytes the last two lines of a transcript without entries have, `begin` and `end,0`.
const TRANSCRIPT_END: usize = 12;

// The lines of a transcript's head, between the title and `begin`, where the transcript has no entries.
fn head_rows(transcript: &[u8]) -> &[u8]
    requires { 34 ≤ length transcript.now }
    ensures { result.now ≡ slice_range transcript.now 22 (length transcript.now - 12) }
{
    let end = transcript.len() - TRANSCRIPT_END;
    &transcript[TRANSCRIPT_TITLE..end]
}

/// The text of a public plan. Its rows are the lines of a transcript's head, between the title and `begin`.
pub fn public_text(alloc: Global, plan: &Plan) -> Result<Vec<u8>, AllocError>
    ensures { IfOk result (λ text. text.items ≡ public_text plan.now) }
{
    let transcript = write(alloc, &Transcript::empty(alloc, plan)?)?;
    let mut text = Vec::new(alloc);
    text.extend_from_slice(TITLE)?;
    text.extend_from_slice(head_rows(&transcript))?;
    Ok(text)
}
