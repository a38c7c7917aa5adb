//! Sends and Takes as they are written, each read at once. Nearly all lines are such.
//!
//! A field is read as far as its comma. Where a line isn't one as it is written, nothing is said of it.

ghost use Rattle.std.specs.Prelude.{◌≡◌, ◌≤◌, ◌<◌, ◌+◌, ◌++◌, ◌∷◌, [], IfSome, decimal};
ghost use Rattle.event_schedule.specs.Transcripts.{HasPlace};
ghost use Rattle.transcript_text.specs.Spelling.{kind_text, verdict_text, tag_fields};
ghost use Rattle.transcript_text.specs.Written.{ahead_of, IsWritten};

use crate::{Version, fields};
use event_schedule::{Entry, Line};
use field_texts::cut;
use group_plan::{Kind, Plan, Tag};
use link_lanes::{Fate, read_fate};
use round_machine::Verdict;

/// The number below 10 that a byte is the digit of.
fn digit(byte: u8) -> Option<u32>
    ensures { IfSome result (λ n. (n < 10) × (byte ≡ 48 + n)) }
{
    if byte.is_ascii_digit() {
        Some(u32::from(byte - b'0'))
    } else {
        None
    }
}

/// The number with one digit more, where it is below 2^32.
fn with_digit(number: u32, byte: u8) -> Option<u32>
    ensures { IfSome result (λ more. decimal more ≡ decimal number ++ byte ∷ []) }
{
    let digit = digit(byte)?;
    if number == 0 {
        return None;
    }
    let more = number.checked_mul(10)?.checked_add(digit)?;
    Some(more)
}

/// A number below 2^32.
fn number(text: &[u8]) -> Option<(u32, &[u8])>
    ensures { IfSome result (λ x. text.now ≡ decimal x.0 ++ 44 ∷ x.1.now) }
{
    let [first, digits @ ..] = text else {
        return None;
    };
    let mut number = digit(*first)?;
    let mut rest = digits;
    while let [byte, after @ ..] = rest {
        if *byte == b',' {
            return Some((number, after));
        }
        number = with_digit(number, *byte)?;
        rest = after;
    }
    None
}

/// A number below `high`.
fn number_below(text: &[u8], high: u32) -> Option<(u32, &[u8])>
    ensures { IfSome result (λ x. (text.now ≡ decimal x.0 ++ 44 ∷ x.1.now) × (x.0 < high)) }
{
    let (number, rest) = number(text)?;
    if number < high {
        Some((number, rest))
    } else {
        None
    }
}

/// A kind.
fn kind(text: &[u8]) -> Option<(Kind, &[u8])>
    ensures { IfSome result (λ x. text.now ≡ kind_text x.0 ++ 44 ∷ x.1.now) }
{
    match text {
        [b'r', b',', rest @ ..] => Some((Kind::Reading, rest)),
        [b'm', b',', rest @ ..] => Some((Kind::Announcement, rest)),
        [b'a', b',', rest @ ..] => Some((Kind::Answer, rest)),
        _ => None,
    }
}

/// The fields of a tag of the plan.
fn tag<'a>(plan: &Plan, text: &'a [u8]) -> Option<(Tag, &'a [u8])>
    ensures { IfSome result (λ x. (text.now ≡ ahead_of (tag_fields x.0) x.1.now) × HasPlace plan.now x.0) }
{
    let (group, text) = number_below(text, plan.groups().len() as u32)?;
    let (round, text) = number_below(text, plan.rounds())?;
    let (kind, text) = kind(text)?;
    let (meter, text) = number_below(text, plan.meters(group as u16))?;
    let tag = Tag {
        group: group as u16,
        round,
        meter: meter as u8,
        kind,
    };
    Some((tag, text))
}

/// A verdict, the last field.
fn verdict(text: &[u8]) -> Option<Verdict>
    ensures { IfSome result (λ verdict. text.now ≡ verdict_text verdict) }
{
    match text {
        [b'f', b'r', b'e', b's', b'h'] => Some(Verdict::Fresh),
        [b'a', b'g', b'a', b'i', b'n'] => Some(Verdict::Again),
        [b'l', b'a', b't', b'e'] => Some(Verdict::Late),
        [b'v', b'o', b'i', b'd'] => Some(Verdict::Void),
        _ => None,
    }
}

/// The entry of a Send at a tick, by what stands behind its `s`.
fn send(version: Version, plan: &Plan, tick: u32, text: &[u8]) -> Option<Entry>
    ensures { IfSome result (λ e. (e.tick ≡ tick) × IsWritten version plan.now (ahead_of (decimal tick ∷ (115 ∷ []) ∷ []) text.now) e) }
{
    let (tag, text) = tag(plan, text)?;
    let (delays, digits) = cut(b',', text)?;
    let fate = read_fate(delays)?;
    let frame = fields::sent(version, plan.meters(tag.group), tag, fate, digits)?;
    Some(Entry {
        tick,
        fate,
        line: Line::Send { tag, frame },
    })
}

/// The entry of a Take at a tick, by what stands behind its `t`.
#[tactic(auto, using(crate::proofs::WrittenLines::take_written))]
fn take(version: Version, plan: &Plan, tick: u32, text: &[u8]) -> Option<Entry>
    ensures { IfSome result (λ e. (e.tick ≡ tick) × IsWritten version plan.now (ahead_of (decimal tick ∷ (116 ∷ []) ∷ []) text.now) e) }
{
    let (tag, text) = tag(plan, text)?;
    let verdict = verdict(text)?;
    Some(Entry {
        tick,
        fate: Fate::lost(),
        line: Line::Take { tag, verdict },
    })
}

/// The entry of a Send or a Take whose line this is, after an entry with the tick `last`.
pub(crate) fn written(version: Version, plan: &Plan, last: u32, line: &[u8]) -> Option<Entry>
    ensures { IfSome result (λ e. (last ≤ e.tick) × IsWritten version plan.now line.now e) }
{
    let (tick, text) = number(line)?;
    if tick < last {
        return None;
    }
    match text {
        [b's', b',', text @ ..] => send(version, plan, tick, text),
        [b't', b',', text @ ..] => take(version, plan, tick, text),
        _ => None,
    }
}
