//! What a field may hold: words, sets, fates and frames.
ghost use Rattle.std.specs.Prelude.{◌≡◌, ◌≤◌, length, codes};
ghost use Rattle.std.specs.Option.{ok_or};
ghost use Rattle.event_schedule.specs.Events.{same_kind, is_tag};
ghost use Rattle.transcript_text.specs.declared.version.Version.TheVariants.{One, Two};
ghost use Rattle.transcript_text.specs.declared.fault.RowFault.TheVariants.{Field};
ghost use Rattle.field_texts.specs.Numbers.{number_of};
ghost use Rattle.field_texts.specs.Sets.{set_of};
ghost use Rattle.transcript_text.specs.Reading.{kind_of, verdict_of, dash_of, bytes_of, frame_of_bytes, frame_of, is_within, fitting, sent_of, closing_of, ending_of};

use crate::Version;
use crate::fault::RowFault;
use crate::hex_digits::{bytes_of_digits, hex_digits};
use field_texts::{read_number, read_set};
use group_plan::{Kind, Tag};
use hex::FromHex;
use link_lanes::Fate;
use meter_frames::{Frame, decode, decode_old};
use missing_round::MeterSet;
use round_machine::{Closing, Ending, Verdict};

/// The kind that a letter stands for: `r`, `m` or `a`.
pub(crate) fn kind(text: &[u8]) -> Option<Kind>
    ensures { result ≡ kind_of text.now }
{
    if text == b"r".as_slice() {
        Some(Kind::Reading)
    } else if text == b"m".as_slice() {
        Some(Kind::Announcement)
    } else if text == b"a".as_slice() {
        Some(Kind::Answer)
    } else {
        None
    }
}

/// The verdict that a word stands for.
pub(crate) fn verdict(text: &[u8]) -> Option<Verdict>
    ensures { result ≡ verdict_of text.now }
{
    if text == b"fresh".as_slice() {
        Some(Verdict::Fresh)
    } else if text == b"again".as_slice() {
        Some(Verdict::Again)
    } else if text == b"late".as_slice() {
        Some(Verdict::Late)
    } else if text == b"void".as_slice() {
        Some(Verdict::Void)
    } else {
        None
    }
}

/// Whether the text is `-`.
fn dash(text: &[u8]) -> Result<(), RowFault>
    ensures { result ≡ ok_or (dash_of tt text.now) (Field 6) }
{
    if text == b"-".as_slice() {
        Ok(())
    } else {
        Err(RowFault::Field(6))
    }
}

/// What the fields 5 and 6 of a Close say.
#[tactic(auto, unfolding(crate::specs::Reading::closing_of))]
pub(crate) fn closing(size: u32, word: &[u8], text: &[u8]) -> Result<Closing, RowFault>
    requires { size ≤ 256 }
    ensures { result ≡ closing_of size word.now text.now }
{
    if word == b"announced".as_slice() {
        let set = read_set(text, size).ok_or(RowFault::Field(6))?;
        Ok(Closing::Announced(set))
    } else if word == b"thin".as_slice() {
        let set = read_set(text, size).ok_or(RowFault::Field(6))?;
        Ok(Closing::Thin(set))
    } else if word == b"already".as_slice() {
        dash(text)?;
        Ok(Closing::Already)
    } else {
        Err(RowFault::Field(5))
    }
}

/// What the fields 5 and 6 of an End say.
#[tactic(auto, unfolding(crate::specs::Reading::ending_of))]
pub(crate) fn ending(size: u32, word: &[u8], text: &[u8]) -> Result<Ending, RowFault>
    requires { size ≤ 256 }
    ensures { result ≡ ending_of size word.now text.now }
{
    if word == b"total".as_slice() {
        let total = read_number(text).ok_or(RowFault::Field(6))?;
        Ok(Ending::Total(total))
    } else if word == b"none".as_slice() {
        let set = read_set(text, size).ok_or(RowFault::Field(6))?;
        Ok(Ending::Lacking(set))
    } else if word == b"thin".as_slice() {
        dash(text)?;
        Ok(Ending::Thin)
    } else if word == b"already".as_slice() {
        dash(text)?;
        Ok(Ending::Already)
    } else if word == b"notclosed".as_slice() {
        dash(text)?;
        Ok(Ending::NotClosed)
    } else {
        Err(RowFault::Field(5))
    }
}

/// The 28 bytes that the text writes in lower-case digits.
#[tactic(auto, unfolding(crate::specs::Reading::bytes_of))]
fn old_bytes(text: &[u8]) -> Option<[u8; 28]>
    ensures { result ≡ bytes_of 28 text.now }
{
    match <[u8; 28] as FromHex>::from_hex(text) {
        Ok(bytes) => {
            let mut digits = [0u8; 56];
            if hex::encode_to_slice(bytes, &mut digits).is_err() {
                unreachable!()
            }
            if digits.as_slice() == text {
                Some(bytes)
            } else {
                None
            }
        }
        Err(_) => None,
    }
}

/// The 52 bytes that the text writes in lower-case digits. They are read with no test, and written again for the test.
fn bytes(text: &[u8]) -> Option<[u8; 52]>
    ensures { result ≡ bytes_of 52 text.now }
{
    if text.len() != 104 {
        return None;
    }
    let bytes = bytes_of_digits(text);
    if hex_digits(&bytes).as_slice() == text {
        Some(bytes)
    } else {
        None
    }
}

/// The frame of 28 bytes of version 1.
fn frame_of_old_bytes(bytes: &[u8]) -> Option<Frame>
    ensures { result ≡ frame_of_bytes One bytes.now }
{
    match decode_old(bytes) {
        Ok(frame) => Some(frame),
        Err(_) => None,
    }
}

/// The frame of 52 bytes of version 2.
fn frame_of_bytes(bytes: &[u8]) -> Option<Frame>
    ensures { result ≡ frame_of_bytes Two bytes.now }
{
    match decode(bytes) {
        Ok(frame) => Some(frame),
        Err(_) => None,
    }
}

/// The frame that the text writes in a version.
fn frame(version: Version, text: &[u8]) -> Option<Frame>
    ensures { result ≡ frame_of version text.now }
{
    match version {
        Version::One => {
            let bytes = old_bytes(text)?;
            frame_of_old_bytes(&bytes)
        }
        Version::Two => {
            let bytes = bytes(text)?;
            frame_of_bytes(&bytes)
        }
    }
}

fn same_kind(kind: Kind, other: Kind) -> bool
    ensures { result ≡ same_kind kind other }
{
    match (kind, other) {
        (Kind::Reading, Kind::Reading) => true,
        (Kind::Announcement, Kind::Announcement) => true,
        (Kind::Answer, Kind::Answer) => true,
        _ => false,
    }
}

fn is_tag(tag: Tag, other: Tag) -> bool
    ensures { result ≡ is_tag tag.group tag.round tag.meter tag.kind other }
{
    other.group == tag.group
        && other.round == tag.round
        && other.meter == tag.meter
        && same_kind(other.kind, tag.kind)
}

/// Whether each member is below `size`.
#[tactic(auto, using(crate::proofs::WithinLemmas::all_within))]
fn is_within(size: u32, set: MeterSet) -> bool
    requires { size ≤ 256 }
    ensures { result ≡ is_within size set }
{
    set.minus(MeterSet::full(size as u16)).len() == 0
}

/// The frame, if it has the tag and a set within a group of this size.
fn fitting(size: u32, tag: Tag, frame: Option<Frame>) -> Option<Option<Frame>>
    requires { size ≤ 256 }
    ensures { result ≡ fitting size tag frame }
{
    match frame {
        Some(frame) if is_tag(tag, frame.tag) && is_within(size, frame.missing) => {
            Some(Some(frame))
        }
        _ => None,
    }
}

/// The frame of a Send, or nothing for `void`.
#[tactic(auto, unfolding(crate::specs::Reading::sent_of))]
pub(crate) fn sent(
    version: Version,
    size: u32,
    tag: Tag,
    fate: Fate,
    text: &[u8],
) -> Option<Option<Frame>>
    requires { size ≤ 256 }
    ensures { result ≡ sent_of version size tag fate text.now }
{
    if text == b"void".as_slice() {
        if fate.delays().is_empty() {
            return Some(None);
        }
        return None;
    }
    fitting(size, tag, frame(version, text))
}
