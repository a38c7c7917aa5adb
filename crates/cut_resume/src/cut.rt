//! The reader of a cut text.

ghost use Rattle.std.specs.Prelude.{◌≡◌, ◌≤◌, ◌<◌, ◌+◌, ◌^◌, ◌||◌, ◌++◌, ℕ, List, length, take, codes, bytes_eq, true, false, IfOk, IfSome, Ok, Result, Err, if◌then◌else◌};
ghost use Rattle.std.specs.List.{list_any};
ghost use Rattle.event_schedule.specs.Transcripts.{IsTranscript, TranscriptView, no_entries};
ghost use Rattle.transcript_text.specs.declared.Version.TheVariants.{Two};
ghost use Rattle.transcript_text.specs.declared.fault.ReadError.{ReadError as ReadErrorView};
ghost use Rattle.transcript_text.specs.declared.fault.ReadError.TheVariants.{NoEnd};
ghost use Rattle.transcript_text.specs.Reading.{Fails};
ghost use Rattle.transcript_text.specs.Faults.{lines_text};
ghost use Rattle.transcript_text.specs.Heads.{read_of};
ghost use Rattle.transcript_text.specs.Spelling.{ended, transcript_text};
ghost use Rattle.transcript_text.specs.Writing.{begun_text};
ghost use Rattle.cut_resume.specs.Left.{Decides};
ghost use Rattle.cut_resume.specs.Cut.{whole_lines, is_end, after_begin, end_line, completed, CutsLast, IsLastPart, HasEnd, CutEnds};

use crate::errors::CutError;
use field_texts::{cut, cut_far, put_number};
use group_plan::Plan;
use itoa::Buffer;
use memchr::memrchr;
use std::alloc::{AllocError, Global};
use std::thread::Threads;
use transcript_log::Transcript;
use transcript_text::{ReadError, read, write};

/// As many bytes as an `end` line has at most, with its newline.
const BYTES_OF_END: usize = 25;

/// What some lines are, one after another.
#[derive(Clone, Copy)]
struct Seen {
    /// Whether one of them has the first field `end`.
    is_ended: bool,
    /// Whether one of them is `begin`.
    is_begun: bool,
    /// How many of them stand after the first `begin`.
    after_begin: u64,
}

/// What the whole lines of a text are.
#[derive(Clone, Copy)]
struct WholeLines {
    /// How many bytes they are.
    bytes: usize,
    /// Whether one of them has the first field `end`.
    is_ended: bool,
    /// How many of them stand after `begin`, where none has the first field `end`.
    after_begin: u64,
}

/// Whether the first field of a line is `end`.
fn is_end(line: &[u8]) -> bool
    ensures { result ≡ is_end line.now }
{
    match cut(b',', line) {
        Some((field, _)) => field == b"end".as_slice(),
        None => line == b"end".as_slice(),
    }
}

/// The same lines and one more.
fn see(seen: Seen, line: &[u8]) -> Seen
    requires { seen.after_begin < 2 ^ 63 }
    ensures ended { result.is_ended ≡ (seen.is_ended || is_end line.now) }
    ensures begun { result.is_begun ≡ (seen.is_begun || bytes_eq line.now (codes "begin")) }
    ensures after_begin { result.after_begin ≡ seen.after_begin + (if seen.is_begun then 1 else 0) }
{
    Seen {
        is_ended: seen.is_ended || is_end(line),
        is_begun: seen.is_begun || line == b"begin".as_slice(),
        after_begin: seen.after_begin + u64::from(seen.is_begun),
    }
}

/// The whole lines of a text, one after another.
fn each_line(text: &[u8]) -> WholeLines
    ensures few { length text.now < 2 ^ 63 }
    ensures within { result.bytes ≤ length text.now }
    ensures bytes { take result.bytes text.now ≡ lines_text (whole_lines text.now) }
    ensures ended { result.is_ended ≡ list_any is_end (whole_lines text.now) }
    ensures after_begin { result.after_begin ≡ after_begin (whole_lines text.now) }
{
    let mut rest = text;
    let mut seen = Seen {
        is_ended: false,
        is_begun: false,
        after_begin: 0,
    };
    while let Some((line, after)) = cut_far(b'\n', rest) {
        seen = see(seen, line);
        rest = after;
    }
    WholeLines {
        bytes: text.len() - rest.len(),
        is_ended: seen.is_ended,
        after_begin: seen.after_begin,
    }
}

/// The text before its last newline, and that after it, or nothing where there is none.
fn cut_last(text: &[u8]) -> Option<(&[u8], &[u8])>
    ensures { CutsLast text.now result }
{
    match memrchr(b'\n', text) {
        Some(end) => Some((&text[..end], &text[end + 1..])),
        None => None,
    }
}

/// The last line of a text that does not end with a newline.
fn last_line(text: &[u8]) -> &[u8]
    ensures { IsLastPart text.now result.now }
{
    match cut_last(text) {
        Some((_, line)) => line,
        None => text,
    }
}

/// How many bytes the whole lines of a text are, where the last of them has the first field `end`.
fn ended_lines(text: &[u8]) -> Option<usize>
    ensures few { length text.now < 2 ^ 63 }
    ensures within { IfSome result (λ n. n ≤ length text.now) }
    ensures bytes { IfSome result (λ n. take n text.now ≡ lines_text (whole_lines text.now)) }
    ensures ended { IfSome result (λ _. list_any is_end (whole_lines text.now) ≡ true) }
{
    let Some((lines, _)) = cut_last(text) else {
        return None;
    };
    if is_end(last_line(lines)) {
        Some(lines.len() + 1)
    } else {
        None
    }
}

/// The whole lines of a text. Where the last of them has the first field `end`, the others are not looked at.
fn whole_lines(text: &[u8]) -> WholeLines
    ensures few { length text.now < 2 ^ 63 }
    ensures within { result.bytes ≤ length text.now }
    ensures bytes { take result.bytes text.now ≡ lines_text (whole_lines text.now) }
    ensures ended { result.is_ended ≡ list_any is_end (whole_lines text.now) }
    ensures after_begin { result.is_ended ≡ false → result.after_begin ≡ after_begin (whole_lines text.now) }
{
    match ended_lines(text) {
        Some(bytes) => WholeLines {
            bytes,
            is_ended: true,
            after_begin: 0,
        },
        None => each_line(text),
    }
}

/// Lines, and the `end` line of so many entries: a copy.
fn with_end(alloc: Global, lines: &[u8], count: u64) -> Result<Vec<u8>, AllocError>
    ensures { IfOk result (λ text. text.items ≡ lines.now ++ ended (end_line count)) }
{
    let mut text = Vec::with_capacity(alloc, lines.len().saturating_add(BYTES_OF_END))?;
    text.extend_from_slice(lines)?;
    text.extend_from_slice(b"end,")?;
    put_number(&mut text, count)?;
    text.push(b'\n')?;
    Ok(text)
}

/// The fault of a text that has an `end` line.
fn fault(error: ReadError) -> CutError
    requires { (n : ℕ) → ¬ (error ≡ NoEnd n) }
    ensures { (answer : Result TranscriptView ReadErrorView) → Fails error answer → CutEnds (Err result) answer }
{
    match error {
        ReadError::Head(line) => CutError::Head(line),
        ReadError::Line(line) => CutError::Line(line),
        ReadError::Field(line, field) => CutError::Field(line, field),
        ReadError::NoEnd(_) => unreachable!(),
        ReadError::Count(line) => CutError::Count(line),
        ReadError::After(line) => CutError::After(line),
        ReadError::Memory => CutError::Memory,
    }
}

/// What a text is read as that has an `end` line.
fn read_ended<R: Threads + Sync>(rt: &R, alloc: Global, text: &[u8]) -> Result<Transcript, CutError>
    requires ended { HasEnd text.now }
    ensures exact { CutEnds result (read_of Two text.now) }
    ensures found { IfOk result (λ t. text.now ≡ transcript_text t) }
    ensures sound { IfOk result (λ t. IsTranscript t) }
{
    match read(rt, alloc, text) {
        Ok(transcript) => Ok(transcript),
        Err(error) => Err(fault(error)),
    }
}

/// The plan and the entries of a text that was cut: its whole lines are read, and a rest is dropped. Where none of them has the
/// first field `end`, they are read with the `end` line of their entries, in a copy of the text.
pub fn read_cut<R: Threads + Sync>(
    rt: &R,
    alloc: Global,
    bytes: &[u8],
) -> Result<Transcript, CutError>
    ensures exact { CutEnds result (read_of Two (completed bytes.now)) }
    ensures found { IfOk result (λ t. completed bytes.now ≡ transcript_text t) }
    ensures sound { IfOk result (λ t. IsTranscript t) }
{
    let whole = whole_lines(bytes);
    let lines = &bytes[..whole.bytes];
    if whole.is_ended {
        return read_ended(rt, alloc, lines);
    }
    let text = with_end(alloc, lines, whole.after_begin)?;
    read_ended(rt, alloc, &text)
}

/// How many bytes the `end` line of so many entries has, with its newline.
fn end_len(count: u64) -> usize
    ensures { result ≡ length (ended (end_line count)) }
{
    let mut number = Buffer::new();
    b"end,\n".len() + number.format(count).len()
}

/// The bytes of a text that are the head and the entries of the cut that it is read as: all of its whole lines but the `end` line.
pub fn begun_bytes<'b>(bytes: &'b [u8], cut: &Transcript) -> &'b [u8]
    requires { completed bytes.now ≡ transcript_text cut.now }
    ensures { result.now ≡ begun_text cut.now.plan cut.now.entries }
{
    let entries = cut.len();
    let whole = whole_lines(bytes);
    if whole.is_ended {
        let end = end_len(entries as u64);
        return &bytes[..whole.bytes - end];
    }
    &bytes[..whole.bytes]
}

// The text of a transcript of the plan, before its first entry.
fn head_text(alloc: Global, plan: &Plan) -> Result<Vec<u8>, AllocError>
    ensures text { IfOk result (λ text. text.items ≡ transcript_text (no_entries plan.now)) }
    ensures read { IfOk result (λ text. read_of Two text.items ≡ Ok (no_entries plan.now)) }
{
    write(alloc, &Transcript::empty(alloc, plan)?)
}

/// Whether a cut is one of this plan: their heads are the same.
pub fn is_of_plan(alloc: Global, cut: &Transcript, plan: &Plan) -> Result<bool, AllocError>
    ensures { IfOk result (Decides (cut.now.plan ≡ plan.now)) }
{
    Ok(head_text(alloc, cut.plan())? == head_text(alloc, plan)?)
}
