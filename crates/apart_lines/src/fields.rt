//! The fields of a line.

ghost use Rattle.field_texts.specs.Parts.{parts};
ghost use Rattle.apart_lines.specs.Fields.{AreFields};

use field_texts::cut;

/// The fields of a line, parted by commas: up to three, or the first of more.
#[derive(Clone, Copy)]
pub(crate) enum Fields<'a> {
    One(&'a [u8]),
    Two(&'a [u8], &'a [u8]),
    Three(&'a [u8], &'a [u8], &'a [u8]),
    More(&'a [u8]),
}

/// The fields of a line.
#[tactic(auto, using(crate::proofs::FieldLemmas::more_fields))]
pub(crate) fn split(line: &[u8]) -> Fields<'_>
    ensures { AreFields (parts 44 line.now) result }
{
    let Some((first, rest)) = cut(b',', line) else {
        return Fields::One(line);
    };
    let Some((second, rest)) = cut(b',', rest) else {
        return Fields::Two(first, rest);
    };
    match cut(b',', rest) {
        None => Fields::Three(first, second, rest),
        Some((_third, _after)) => Fields::More(first),
    }
}
