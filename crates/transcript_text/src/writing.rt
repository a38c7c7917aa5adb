//! The lines of entries.
ghost use Rattle.std.specs.Prelude.{◌≡◌, ◌≤◌, ◌<◌, ◌++◌, ◌∷◌, length, codes, decimal, All, OnOk, IfOk, IfSome};
ghost use Rattle.hex.specs.Hex.{encode_lower};
ghost use Rattle.meter_frames.specs.Frames.{spelling, FitsKind};
ghost use Rattle.transcript_text.specs.declared.version.Version.TheVariants.{Two};
ghost use Rattle.field_texts.specs.Sets.{numbers_text};
ghost use Rattle.transcript_text.specs.Spelling.{ended, joined, verdict_text, tag_fields, sent_fields, closing_fields, ending_fields, entry_text, entries_text};
ghost use Rattle.transcript_text.specs.Writing.{IsWritable, lines_from};

use crate::hex_digits::hex_digits;
use event_schedule::{Entry, Line};
use field_texts::{put_number, put_set};
use group_plan::{Kind, Tag};
use link_lanes::Fate;
use meter_frames::{Frame, encode};
use missing_round::MeterSet;
use round_machine::{Closing, Ending, Verdict};
use std::alloc::{AllocError, Global};
use transcript_log::Transcript;

/// The delays joined by `+`, or `-` where there is none.
fn put_fate(out: &mut Vec<u8>, fate: Fate) -> Result<(), AllocError>
    ensures { OnOk result (out.new.items ≡ out.old.items ++ numbers_text fate) }
{
    match *fate.delays() {
        [first] => put_number(out, u64::from(first)),
        [first, second] => {
            put_number(out, u64::from(first))?;
            out.push(b'+')?;
            put_number(out, u64::from(second))
        }
        [first, second, third] => {
            put_number(out, u64::from(first))?;
            out.push(b'+')?;
            put_number(out, u64::from(second))?;
            out.push(b'+')?;
            put_number(out, u64::from(third))
        }
        _ => out.extend_from_slice(b"-"),
    }
}

/// Two numbers with a comma between them.
pub(crate) fn put_two(out: &mut Vec<u8>, first: u64, second: u64) -> Result<(), AllocError>
    ensures { OnOk result (out.new.items ≡ out.old.items ++ decimal first ++ codes "," ++ decimal second) }
{
    put_number(out, first)?;
    out.push(b',')?;
    put_number(out, second)
}

/// A letter between two commas.
fn put_letter(out: &mut Vec<u8>, letter: u8) -> Result<(), AllocError>
    ensures { OnOk result (out.new.items ≡ out.old.items ++ codes "," ++ letter ∷ codes ",") }
{
    out.push(b',')?;
    out.push(letter)?;
    out.push(b',')?;
    Ok(())
}

/// The group, round, kind and meter, parted by commas.
fn put_tag(out: &mut Vec<u8>, tag: Tag) -> Result<(), AllocError>
    ensures { OnOk result (out.new.items ≡ out.old.items ++ joined (tag_fields tag)) }
{
    put_two(out, u64::from(tag.group), u64::from(tag.round))?;
    match tag.kind {
        Kind::Reading => put_letter(out, b'r')?,
        Kind::Announcement => put_letter(out, b'm')?,
        Kind::Answer => put_letter(out, b'a')?,
    }
    put_number(out, u64::from(tag.meter))
}

/// The 52 bytes of a frame in lower-case digits.
fn put_frame(out: &mut Vec<u8>, frame: &Frame) -> Result<(), AllocError>
    requires { FitsKind frame.now.tag.kind frame.now.missing frame.now.word }
    ensures { OnOk result (out.new.items ≡ out.old.items ++ encode_lower (spelling frame.now)) }
{
    out.extend_from_slice(&hex_digits(&encode(frame)))
}

/// The fate and the frame of a Send, each after a comma, or `void` where it had no effect.
fn put_sent(out: &mut Vec<u8>, fate: Fate, sent: &Option<Frame>) -> Result<(), AllocError>
    requires { IfSome sent.now (λ f. FitsKind f.tag.kind f.missing f.word) }
    ensures { OnOk result (out.new.items ≡ out.old.items ++ codes "," ++ joined (sent_fields Two fate sent.now)) }
{
    match sent {
        Some(frame) => {
            out.push(b',')?;
            put_fate(out, fate)?;
            out.push(b',')?;
            put_frame(out, frame)
        }
        None => out.extend_from_slice(b",-,void"),
    }
}

fn put_verdict(out: &mut Vec<u8>, verdict: Verdict) -> Result<(), AllocError>
    ensures { OnOk result (out.new.items ≡ out.old.items ++ codes "," ++ verdict_text verdict) }
{
    match verdict {
        Verdict::Fresh => out.extend_from_slice(b",fresh"),
        Verdict::Again => out.extend_from_slice(b",again"),
        Verdict::Late => out.extend_from_slice(b",late"),
        Verdict::Void => out.extend_from_slice(b",void"),
    }
}

/// What a Close came to: a word and a set, each after a comma.
fn put_closing(out: &mut Vec<u8>, closing: Closing) -> Result<(), AllocError>
    ensures { OnOk result (out.new.items ≡ out.old.items ++ codes "," ++ joined (closing_fields closing)) }
{
    match closing {
        Closing::Announced(set) => {
            out.extend_from_slice(b",announced,")?;
            put_set(out, set)
        }
        Closing::Thin(set) => {
            out.extend_from_slice(b",thin,")?;
            put_set(out, set)
        }
        Closing::Already => out.extend_from_slice(b",already,-"),
    }
}

/// What an End came to: a word and its total or set, each after a comma.
fn put_ending(out: &mut Vec<u8>, ending: Ending) -> Result<(), AllocError>
    ensures { OnOk result (out.new.items ≡ out.old.items ++ codes "," ++ joined (ending_fields ending)) }
{
    match ending {
        Ending::Total(total) => {
            out.extend_from_slice(b",total,")?;
            put_number(out, total)
        }
        Ending::Lacking(set) => {
            out.extend_from_slice(b",none,")?;
            put_set(out, set)
        }
        Ending::Thin => out.extend_from_slice(b",thin,-"),
        Ending::Already => out.extend_from_slice(b",already,-"),
        Ending::NotClosed => out.extend_from_slice(b",notclosed,-"),
    }
}

/// The line of an entry, without its newline.
#[tactic(auto, unfolding(crate::specs::Spelling::entry_text))]
fn put_entry(out: &mut Vec<u8>, entry: &Entry) -> Result<(), AllocError>
    requires { IsWritable entry.now.line }
    ensures { OnOk result (out.new.items ≡ out.old.items ++ entry_text Two entry.now) }
{
    put_number(out, u64::from(entry.tick))?;
    match &entry.line {
        Line::Send { tag, frame } => {
            put_letter(out, b's')?;
            put_tag(out, *tag)?;
            put_sent(out, entry.fate, frame)
        }
        Line::Take { tag, verdict } => {
            put_letter(out, b't')?;
            put_tag(out, *tag)?;
            put_verdict(out, *verdict)
        }
        Line::Close {
            group,
            round,
            closing,
        } => {
            put_letter(out, b'c')?;
            put_two(out, u64::from(*group), u64::from(*round))?;
            put_closing(out, *closing)
        }
        Line::End {
            group,
            round,
            ending,
        } => {
            put_letter(out, b'e')?;
            put_two(out, u64::from(*group), u64::from(*round))?;
            put_ending(out, *ending)
        }
    }
}

/// The entry's line in the text of a transcript, without its newline.
pub fn line_text(alloc: Global, entry: &Entry) -> Result<Vec<u8>, AllocError>
    requires { IsWritable entry.now.line }
    ensures { IfOk result (λ text. text.items ≡ entry_text Two entry.now) }
{
    let mut out = Vec::new(alloc);
    put_entry(&mut out, entry)?;
    Ok(out)
}

/// The lines of the entries from one place up to another, each with its newline.
#[tactic(auto, using(crate::proofs::LinesText::line_written))]
pub(crate) fn put_lines(
    out: &mut Vec<u8>,
    transcript: &Transcript,
    from: usize,
    until: usize,
) -> Result<(), AllocError>
    requires lines { All (λ e. IsWritable e.line) transcript.now.entries }
    requires order { from ≤ until }
    requires within { until ≤ length transcript.now.entries }
    ensures lines { OnOk result (out.new.items ++ lines_from transcript.now.entries until ≡ out.old.items ++ lines_from transcript.now.entries from) }
    ensures some { OnOk result (from < until → 0 < length out.new.items) }
{
    for at in from..until {
        let entry = transcript.entry(at);
        put_entry(out, &entry)?;
        out.push(b'\n')?;
    }
    Ok(())
}

/// The `end` line after so many entries.
pub(crate) fn put_end(out: &mut Vec<u8>, entries: usize) -> Result<(), AllocError>
    ensures { OnOk result (out.new.items ≡ out.old.items ++ ended (codes "end," ++ decimal entries)) }
{
    out.extend_from_slice(b"end,")?;
    put_number(out, entries as u64)?;
    out.extend_from_slice(b"\n")
}

/// The lines of all entries, and the `end` line with their number.
pub(crate) fn put_entries(out: &mut Vec<u8>, transcript: &Transcript) -> Result<(), AllocError>
    requires { All (λ e. IsWritable e.line) transcript.now.entries }
    ensures { OnOk result (out.new.items ≡ out.old.items ++ entries_text Two 0 transcript.now.entries) }
{
    let entries = transcript.len();
    put_lines(out, transcript, 0, entries)?;
    put_end(out, entries)
}
