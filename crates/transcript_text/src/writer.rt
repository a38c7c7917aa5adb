//! The writer of a transcript.

ghost use Rattle.std.specs.Prelude.{◌≡◌, IfOk, Ok};
ghost use Rattle.transcript_text.specs.declared.version.Version.TheVariants.{Two};
ghost use Rattle.event_schedule.specs.Transcripts.{IsTranscript};
ghost use Rattle.transcript_text.specs.Spelling.{transcript_text};
ghost use Rattle.transcript_text.specs.Heads.{read_of};

use crate::head_writing::put_head;
use crate::lines::BYTES_A_LINE;
use crate::writing::put_entries;
use std::alloc::{AllocError, Global};
use transcript_log::Transcript;

/// The text of the transcript.
#[tactic(auto, using(crate::proofs::Writable::writable, crate::proofs::ReadAgain::read_back), unfolding(crate::specs::Spelling::text_of))]
pub fn write(alloc: Global, transcript: &Transcript) -> Result<Vec<u8>, AllocError>
    ensures text { IfOk result (λ text. text.items ≡ transcript_text transcript.now) }
    // What holds of every transcript.
    ensures sound { IsTranscript transcript.now }
    // So `read` gives the transcript back.
    ensures read_back { IfOk result (λ text. read_of Two text.items ≡ Ok transcript.now) }
{
    let bytes = transcript.len().saturating_mul(BYTES_A_LINE);
    let mut out = Vec::with_capacity(alloc, bytes)?;
    put_head(&mut out, transcript.plan())?;
    put_entries(&mut out, transcript)?;
    Ok(out)
}
