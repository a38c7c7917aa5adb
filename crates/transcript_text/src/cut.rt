//! The fields of a line.
ghost use Rattle.std.specs.Prelude.{◌≡◌, ◌<◌, ◌≤◌, length, MatchOption};
ghost use Rattle.field_texts.specs.Parts.{parts, Cuts};
ghost use Rattle.transcript_text.specs.Parts.{at, view, AreFields};

use field_texts::{cut, cut_far};

/// The fields of a line.
#[derive(Drop)]
pub(crate) struct Fields<'a> {
    pub(crate) count: usize,
    pub(crate) at: [&'a [u8]; 8],
}

/// The field at a place and what comes after it, where it isn't the last. Only the eighth can be long.
fn next_field(place: usize, text: &[u8]) -> Option<(&[u8], &[u8])>
    ensures { Cuts 44 text.now result }
{
    if place < 7 {
        cut(b',', text)
    } else {
        cut_far(b',', text)
    }
}

/// The fields of a line that has at most 8.
#[tactic(auto)]
pub(crate) fn split_fields(line: &[u8]) -> Option<Fields<'_>>
    ensures { MatchOption result (8 < length (parts 44 line.now)) (λ f. (view f ≡ parts 44 line.now) × AreFields f) }
{
    let mut at = [line; 8];
    let mut rest = line;
    for i in 0..8 {
        match next_field(i, rest) {
            None => {
                at[i] = rest;
                return Some(Fields { count: i + 1, at });
            }
            Some((field, after)) => {
                at[i] = field;
                rest = after;
            }
        }
    }
    None
}

impl<'a> Fields<'a> {
    /// The field at a place, empty past the last.
    pub(crate) fn get(&self, i: usize) -> &'a [u8]
        requires { AreFields self.now }
        ensures { result.now ≡ at (view self.now) i }
    {
        if i < self.count { self.at[i] } else { &[] }
    }
}
