//! The heads of journals: their texts, and how a text is judged by the head that it should have.

ghost use Rattle.std.specs.Prelude.{◌≡◌, ◌-◌, ◌≤◌, length, take, drop, IfOk};
ghost use Rattle.meter_apart.specs.Parts.{group_of, home_of};
ghost use Rattle.apart_lines.specs.Heads.{journal_head, meter_journal_head, head_found};

use group_plan::Plan;
use meter_apart::Part;
use std::alloc::{AllocError, Global};
use transcript_log::Transcript;
use transcript_text::write;

// What stands between the first line and the last one of the text of a transcript without entries.
fn between(text: &[u8]) -> &[u8]
    requires { 28 ≤ length text.now }
    ensures { result.now ≡ take (length text.now - 28) (drop 22 text.now) }
{
    &text[22..text.len() - 6]
}

/// The head of the journal of a head end of this plan, up to the newline after `begin`.
#[tactic(auto, using(crate::proofs::HeadLemmas::long_text, crate::proofs::HeadLemmas::journal_text))]
pub fn journal_head(alloc: Global, plan: &Plan) -> Result<Vec<u8>, AllocError>
    ensures { IfOk result (λ head. head.items ≡ journal_head plan.now) }
{
    let transcript = Transcript::empty(alloc, plan)?;
    let text = write(alloc, &transcript)?;
    let mut head = Vec::from_slice(alloc, b"meteragg journal 1\n")?;
    head.extend_from_slice(between(&text))?;
    Ok(head)
}

/// The head of the journal of the meter that has this part of a plan, up to the newline after `begin`.
pub fn meter_journal_head(alloc: Global, part: &Part) -> Result<Vec<u8>, AllocError>
    ensures { IfOk result (λ head. head.items ≡ meter_journal_head part.now) }
{
    meter_files::journal_head(alloc, part.home(), 0, part.group(), part.meter())
}

/// How a text begins, by the head that it should have.
#[derive(Clone, Copy, Debug, PartialEq, Eq)]
pub enum HeadFound {
    /// With the head.
    Whole,
    /// It is a proper beginning of the head.
    Begun,
    /// This line of the text, counted from 1, is the first that isn't the head's.
    Other(u64),
}

/// Judges byte by byte how a text begins, by the head that it should have.
pub fn find_head(head: &[u8], text: &[u8]) -> HeadFound
    ensures { result ≡ head_found 1 head.now text.now }
{
    let mut line = 1u64;
    let (mut left, mut rest) = (head, text);
    while let Some((expected, others)) = left.split_first() {
        let Some((found, behind)) = rest.split_first() else {
            return HeadFound::Begun;
        };
        if expected != found {
            return HeadFound::Other(line);
        }
        if *expected == b'\n' {
            line += 1;
        }
        left = others;
        rest = behind;
    }
    HeadFound::Whole
}
