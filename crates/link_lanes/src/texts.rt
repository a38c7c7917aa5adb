//! Parts of a lane's argument, and fates in any text.

ghost use Rattle.std.specs.Prelude.{◌≡◌, ◌≤◌, ◌∷◌, [], Some};
ghost use Rattle.std.specs.Option.{option_map};
ghost use Rattle.field_texts.specs.Numbers.{number_of, within};
ghost use Rattle.field_texts.specs.Parts.{parts};
ghost use Rattle.field_texts.specs.Sets.{ahead};
ghost use Rattle.link_lanes.specs.Fates.{IsFate};
ghost use Rattle.link_lanes.specs.Texts.{two, four, delays_from, fate_of};

use crate::Fate;
use field_texts::{cut, read_number_within};

/// The two parts of a text that has one mark.
pub(crate) fn halves(text: &[u8], mark: u8) -> Option<(&[u8], &[u8])>
    ensures { option_map (λ p. (p.0.now, p.1.now)) result ≡ two (parts mark text.now) }
{
    let (first, rest) = cut(mark, text)?;
    match cut(mark, rest) {
        None => Some((first, rest)),
        Some(_) => None,
    }
}

/// The four parts of a text that has three marks.
pub(crate) fn quarters(text: &[u8], mark: u8) -> Option<(&[u8], &[u8], &[u8], &[u8])>
    ensures { option_map (λ p. (p.0.now, p.1.now, p.2.now, p.3.now)) result ≡ four (parts mark text.now) }
{
    let (first, rest) = cut(mark, text)?;
    let (second, rest) = cut(mark, rest)?;
    let (third, fourth) = halves(rest, mark)?;
    Some((first, second, third, fourth))
}

/// A delay of `low` to 16 ticks.
fn delay(low: u8, text: &[u8]) -> Option<u8>
    ensures { result ≡ within low 17 (number_of text.now) }
{
    match read_number_within(text, u64::from(low), 17) {
        Some(delay) => Some(delay as u8),
        None => None,
    }
}

/// The fate with these delays.
fn fate_with(delays: &[u8]) -> Option<Fate>
    requires { IsFate delays.now }
    ensures { result ≡ Some delays.now }
{
    match Fate::new(delays) {
        Ok(fate) => Some(fate),
        Err(_) => unreachable!(),
    }
}

/// The fate of two delays and the last one in the text.
fn fate_of_three(first: u8, second: u8, text: &[u8]) -> Option<Fate>
    requires first { 1 ≤ first }
    requires second { first ≤ second }
    ensures { result ≡ ahead (first ∷ second ∷ []) (delays_from 1 second (parts 43 text.now)) }
{
    match cut(b'+', text) {
        None => {
            let Some(third) = delay(second, text) else {
                return None;
            };
            fate_with(&[first, second, third])
        }
        Some(_) => None,
    }
}

/// The fate of a delay and the one or two in the text.
fn fate_of_two(first: u8, text: &[u8]) -> Option<Fate>
    requires { 1 ≤ first }
    ensures { result ≡ ahead (first ∷ []) (delays_from 2 first (parts 43 text.now)) }
{
    match cut(b'+', text) {
        None => {
            let Some(second) = delay(first, text) else {
                return None;
            };
            fate_with(&[first, second])
        }
        Some((part, rest)) => {
            let Some(second) = delay(first, part) else {
                return None;
            };
            fate_of_three(first, second, rest)
        }
    }
}

/// The fate of the one to three delays in the text.
fn fate_of_one(text: &[u8]) -> Option<Fate>
    ensures { result ≡ ahead [] (delays_from 3 1 (parts 43 text.now)) }
{
    match cut(b'+', text) {
        None => {
            let Some(first) = delay(1, text) else {
                return None;
            };
            fate_with(&[first])
        }
        Some((part, rest)) => {
            let Some(first) = delay(1, part) else {
                return None;
            };
            fate_of_two(first, rest)
        }
    }
}

/// The fate that a text writes: `-`, or 1 to 3 delays of 1 to 16 ticks joined by `+`, none below the one before it.
#[tactic(auto, using(crate::proofs::FateLemmas::ahead_none), unfolding(crate::specs::Texts::fate_of))]
pub fn read_fate(text: &[u8]) -> Option<Fate>
    ensures { result ≡ fate_of text.now }
{
    if text == b"-".as_slice() {
        fate_with(&[])
    } else {
        fate_of_one(text)
    }
}
