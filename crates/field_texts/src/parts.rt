//! Texts cut at a byte.
ghost use Rattle.field_texts.specs.Parts.{Cuts};

use memchr::memchr;

/// The text before the first `stop` and that after it, or nothing where there is none.
#[tactic(auto, using(crate::proofs::Cutting::cut_none, crate::proofs::Cutting::cut_here))]
pub fn cut(stop: u8, text: &[u8]) -> Option<(&[u8], &[u8])>
    ensures { Cuts stop text.now result }
{
    let mut end = 0;
    while end < text.len() {
        if text[end] == stop {
            return Some((&text[..end], &text[end + 1..]));
        }
        end += 1;
    }
    None
}

/// The same, with a search that pays off in long texts.
pub fn cut_far(stop: u8, text: &[u8]) -> Option<(&[u8], &[u8])>
    ensures { Cuts stop text.now result }
{
    match memchr(stop, text) {
        Some(end) => Some((&text[..end], &text[end + 1..])),
        None => None,
    }
}
