//! What lines say to a head end and to a meter.

ghost use Rattle.std.specs.Prelude.{◌≡◌};
ghost use Rattle.std.specs.Char.{is_ascii_digit};
ghost use Rattle.std.specs.List.{list_all};
ghost use Rattle.field_texts.specs.Numbers.{is_numeral};
ghost use Rattle.apart_lines.specs.Frames.{frame_in, IsRead};
ghost use Rattle.apart_lines.specs.Heard.{told_number, is_answer, is_verdict, to_head_end, to_head_end_alone, to_head_end_pair, to_head_end_other, frame_to_head_end, tick_to_head_end, IsSoundToHeadEnd, to_meter, to_meter_alone, to_meter_pair, to_meter_three, to_meter_other, reading_to_meter, IsSoundToMeter};

use crate::digits::read_frame;
use crate::fields::{Fields, split};
use field_texts::read_number;
use meter_frames::{Frame, FrameError};

/// What a line says to a head end.
#[derive(Clone, Copy, Debug, PartialEq, Eq)]
pub enum ToHeadEnd {
    /// A frame in 104 hexadecimal digits of either case, or the first rule that these bytes break.
    Frame(Result<Frame, FrameError>),
    /// The tick with this number is to pass, or its lines are to be said again.
    Tick(u64),
    /// The announcements whose answers lack are to be said again.
    Again,
    /// The report is to be put.
    Report,
    /// Nothing: the line is empty, or an answer of a head end or of a meter.
    Nothing,
    /// Nothing that a head end knows.
    Unknown,
}

/// What a line says to a meter.
#[derive(Clone, Copy, Debug, PartialEq, Eq)]
pub enum ToMeter {
    /// A reading of a round, in watt-hours.
    Reading { round: u64, reading: u64 },
    /// A frame in 104 hexadecimal digits of either case, or the first rule that these bytes break.
    Frame(Result<Frame, FrameError>),
    /// Nothing: the line is empty, or an answer of a head end or of a meter.
    Nothing,
    /// Nothing that a meter knows.
    Unknown,
}

// Whether all bytes are decimal digits.
fn are_digits(text: &[u8]) -> bool
    ensures { result ≡ list_all is_ascii_digit text.now }
{
    match text {
        [] => true,
        [first, rest @ ..] => first.is_ascii_digit() && are_digits(rest),
    }
}

// Whether a text is decimal digits: one, or several of which the first is not `0`.
fn is_numeral(text: &[u8]) -> bool
    ensures { result ≡ is_numeral text.now }
{
    match text {
        [] => false,
        [digit] => digit.is_ascii_digit(),
        [first, _second, ..] => *first != b'0' && are_digits(text),
    }
}

// The number that a text writes, or the greatest that is kept where it is greater.
#[tactic(auto, using(crate::proofs::NumberLemmas::told_small, crate::proofs::NumberLemmas::told_large, crate::proofs::NumberLemmas::told_none))]
fn read_told(text: &[u8]) -> Option<u64>
    ensures { result ≡ told_number text.now }
{
    match read_number(text) {
        Some(number) => Some(number),
        None if is_numeral(text) => Some(u64::MAX),
        None => None,
    }
}

// Whether an answer of a head end or of a meter begins with the word.
fn is_answer(word: &[u8]) -> bool
    ensures { result ≡ is_answer word.now }
{
    is_verdict(word)
        || word == b"refused".as_slice()
        || word == b"closed".as_slice()
        || word == b"lacking".as_slice()
        || word == b"row".as_slice()
        || word == b"ticked".as_slice()
        || word == b"reported".as_slice()
        || word == b"ready".as_slice()
}

// Whether the word is a verdict of a head end.
fn is_verdict(word: &[u8]) -> bool
    ensures { result ≡ is_verdict word.now }
{
    word == b"fresh".as_slice()
        || word == b"again".as_slice()
        || word == b"differs".as_slice()
        || word == b"late".as_slice()
        || word == b"void".as_slice()
}

// What a line that begins with a word says to a head end, unless its other fields tell more.
fn to_head_end_other(word: &[u8]) -> ToHeadEnd
    ensures { result ≡ to_head_end_other word.now }
{
    if is_answer(word) {
        ToHeadEnd::Nothing
    } else {
        ToHeadEnd::Unknown
    }
}

// What a line of one word says to a head end.
fn to_head_end_alone(word: &[u8]) -> ToHeadEnd
    ensures { result ≡ to_head_end_alone word.now }
{
    if word == b"".as_slice() {
        ToHeadEnd::Nothing
    } else if word == b"again".as_slice() {
        ToHeadEnd::Again
    } else if word == b"report".as_slice() {
        ToHeadEnd::Report
    } else {
        to_head_end_other(word)
    }
}

// What a frame's digits say to a head end.
fn frame_to_head_end(digits: &[u8]) -> ToHeadEnd
    ensures said { result ≡ frame_to_head_end (frame_in digits.now) }
    ensures sound { IsSoundToHeadEnd result }
{
    match read_frame(digits) {
        Some(frame) => ToHeadEnd::Frame(frame),
        None => ToHeadEnd::Unknown,
    }
}

// What a tick's number says to a head end.
fn tick_to_head_end(number: &[u8]) -> ToHeadEnd
    ensures { result ≡ tick_to_head_end (told_number number.now) }
{
    match read_told(number) {
        Some(tick) => ToHeadEnd::Tick(tick),
        None => ToHeadEnd::Unknown,
    }
}

// What a line of two fields says to a head end.
fn to_head_end_pair(word: &[u8], rest: &[u8]) -> ToHeadEnd
    ensures said { result ≡ to_head_end_pair word.now rest.now }
    ensures sound { IsSoundToHeadEnd result }
{
    if word == b"frame".as_slice() {
        frame_to_head_end(rest)
    } else if word == b"tick".as_slice() {
        tick_to_head_end(rest)
    } else {
        to_head_end_other(word)
    }
}

/// What a line says to a head end, without its newline.
#[tactic(auto, unfolding(crate::specs::Heard::to_head_end))]
pub fn read_to_head_end(line: &[u8]) -> ToHeadEnd
    ensures said { result ≡ to_head_end line.now }
    // A frame that is read has a spelling.
    ensures sound { IsSoundToHeadEnd result }
{
    match split(line) {
        Fields::One(word) => to_head_end_alone(word),
        Fields::Two(word, rest) => to_head_end_pair(word, rest),
        Fields::Three(word, _, _) => to_head_end_other(word),
        Fields::More(word) => to_head_end_other(word),
    }
}

// What a line that begins with a word says to a meter, unless its other fields tell more.
fn to_meter_other(word: &[u8]) -> ToMeter
    ensures { result ≡ to_meter_other word.now }
{
    if is_answer(word) {
        ToMeter::Nothing
    } else {
        ToMeter::Unknown
    }
}

// What a line of one word says to a meter.
fn to_meter_alone(word: &[u8]) -> ToMeter
    ensures { result ≡ to_meter_alone word.now }
{
    if word == b"".as_slice() {
        ToMeter::Nothing
    } else {
        to_meter_other(word)
    }
}

// What a line of two fields says to a meter.
fn to_meter_pair(word: &[u8], digits: &[u8]) -> ToMeter
    ensures said { result ≡ to_meter_pair word.now digits.now }
    ensures sound { IsSoundToMeter result }
{
    if word == b"frame".as_slice() {
        match read_frame(digits) {
            Some(frame) => ToMeter::Frame(frame),
            None => ToMeter::Unknown,
        }
    } else {
        to_meter_other(word)
    }
}

// What a round and a reading say to a meter.
fn reading_to_meter(round: &[u8], reading: &[u8]) -> ToMeter
    ensures { result ≡ reading_to_meter (told_number round.now) (told_number reading.now) }
{
    let Some(round) = read_told(round) else {
        return ToMeter::Unknown;
    };
    match read_told(reading) {
        Some(reading) => ToMeter::Reading { round, reading },
        None => ToMeter::Unknown,
    }
}

// What a line of three fields says to a meter.
fn to_meter_three(word: &[u8], round: &[u8], reading: &[u8]) -> ToMeter
    ensures { result ≡ to_meter_three word.now round.now reading.now }
{
    if word == b"reading".as_slice() {
        reading_to_meter(round, reading)
    } else {
        to_meter_other(word)
    }
}

/// What a line says to a meter, without its newline.
#[tactic(auto, unfolding(crate::specs::Heard::to_meter))]
pub fn read_to_meter(line: &[u8]) -> ToMeter
    ensures said { result ≡ to_meter line.now }
    // A frame that is read has a spelling.
    ensures sound { IsSoundToMeter result }
{
    match split(line) {
        Fields::One(word) => to_meter_alone(word),
        Fields::Two(word, rest) => to_meter_pair(word, rest),
        Fields::Three(word, second, third) => to_meter_three(word, second, third),
        Fields::More(word) => to_meter_other(word),
    }
}
