//! Fields in the bytes of a file: where each ends, and what it says.
ghost use Rattle.std.specs.Prelude.{◌≡◌, ◌≤◌, IfOk, OnOk, false, true, drop, length, take};
ghost use Rattle.plan_files.specs.Fields.{IsCutField, IsStep, cut_text_with, first_field, is_quoted};

use memchr::memchr3;
use std::alloc::AllocError;

/// Where a reader stands in a field that began with a quote.
#[derive(Clone, Copy)]
enum QuoteState {
    /// Between its quotes.
    Quoted,
    /// Behind a quote, which is the closing one unless another follows.
    Closed,
    /// Behind the closing quote.
    Plain,
}

/// Whether the first field is quoted.
pub fn is_quoted(bytes: &[u8]) -> bool
    ensures { result ≡ is_quoted bytes.now }
{
    !bytes.is_empty() && bytes[0] == b'"'
}

/// Where the first field ends, which isn't quoted.
pub fn plain_end(bytes: &[u8]) -> usize
    requires { is_quoted bytes.now ≡ false }
    ensures field { first_field bytes.now ≡ (take result bytes.now, drop result bytes.now) }
    ensures inside { result ≤ length bytes.now }
{
    match memchr3(b',', b'\n', b'\r', bytes) {
        Some(end) => end,
        None => bytes.len(),
    }
}

/// What a byte does to the field in which it stands.
enum Step {
    /// The field ends before it.
    End,
    /// It is within the field.
    Within {
        /// Where the reader stands behind it.
        place: QuoteState,
        /// Whether the field says this byte.
        is_text: bool,
    },
}

/// What a byte at a place does.
fn step_over(place: QuoteState, byte: u8) -> Step
    ensures { IsStep place byte result }
{
    let (place, is_text) = match (place, byte) {
        (QuoteState::Quoted, b'"') => (QuoteState::Closed, false),
        (QuoteState::Quoted, _) | (QuoteState::Closed, b'"') => (QuoteState::Quoted, true),
        (_, b',' | b'\n' | b'\r') => return Step::End,
        (_, _) => (QuoteState::Plain, true),
    };
    Step::Within { place, is_text }
}

/// Adds a byte to a text where it belongs to it, unless that has so many.
fn put_byte(text: &mut Vec<u8>, is_text: bool, byte: u8, most: usize) -> Result<(), AllocError>
    ensures { OnOk result (text.new.items ≡ cut_text_with most text.old.items is_text byte) }
{
    if is_text && text.len() < most {
        text.push(byte)?;
    }
    Ok(())
}

/// Reads the first field, which is quoted: at most so many bytes of what it says. Answers where it ends.
pub fn read_quoted(text: &mut Vec<u8>, bytes: &[u8], most: usize) -> Result<usize, AllocError>
    requires { is_quoted bytes.now ≡ true }
    ensures { IfOk result (λ end. IsCutField bytes.now end most text.new.items) }
{
    text.clear();
    let mut place = QuoteState::Quoted;
    for at in 1..bytes.len() {
        match step_over(place, bytes[at]) {
            Step::End => return Ok(at),
            Step::Within {
                place: next,
                is_text,
            } => {
                put_byte(text, is_text, bytes[at], most)?;
                place = next;
            }
        }
    }
    Ok(bytes.len())
}
