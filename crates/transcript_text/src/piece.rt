//! Pieces of a text, whose entries are read side by side.

ghost use Rattle.std.specs.Prelude.{◌≡◌, ◌++◌, [], ℕ, List, All, IfOk};
ghost use Rattle.transcript_text.specs.ReadBack.{HasHead};
ghost use Rattle.transcript_text.specs.Ahead.{IsPieceOf, IsReadUpTo, PutEnds};

use crate::fault::BodyLine;
use crate::rows::row;
use crate::version::Version;
use event_schedule::Entry;
use field_texts::cut_far;
use group_plan::Plan;
use rayon::prelude::*;
use std::alloc::{AllocError, Global};
use std::thread::Threads;

/// As many bytes of a text as a thread reads at a time.
pub const BYTES_A_PIECE: usize = 64 * 1024;

/// The most pieces that are read side by side, so that their entries take about 1.5 MB where a piece has `BYTES_A_PIECE`.
const PIECES_A_BATCH: usize = 16;

/// So many pieces are worth a thread.
const PIECES_A_THREAD: usize = 4;

/// About as many bytes as a line has: room is made by it.
const BYTES_A_LINE: usize = 64;

/// Entries whose lines stand one after another in a text. Its places are told by the bytes that are left from there on.
#[derive(Drop)]
pub(crate) struct Piece {
    /// Where the first line begins.
    pub(crate) from: usize,
    /// Where the last line ends.
    pub(crate) until: usize,
    /// The tick of the last entry, 0 where there is none.
    pub(crate) last: u32,
    pub(crate) entries: Vec<Entry>,
}

/// The text from the first line on that begins at a place or behind it.
fn lines_from(text: &[u8], at: usize) -> &[u8]
    ensures { (front : List ℕ) × (text.now ≡ front ++ result.now) }
{
    if at == 0 {
        return text;
    }
    if at > text.len() {
        return &[];
    }
    match cut_far(b'\n', &text[at - 1..]) {
        Some((_, after)) => after,
        None => &[],
    }
}

/// Puts the entry of a line after one with the tick `last` behind others, and gives its tick, where the line is an entry.
fn put_entry(
    version: Version,
    plan: &Plan,
    last: u32,
    line: &[u8],
    entries: &mut Vec<Entry>,
) -> Result<Option<u32>, AllocError>
    requires { HasHead version plan.now }
    ensures { IfOk result (PutEnds version plan.now last line.now entries.old.items entries.new.items) }
{
    match row(version, plan, last, line) {
        Ok(BodyLine::Entry(entry)) => {
            let tick = entry.tick;
            entries.push(entry)?;
            Ok(Some(tick))
        }
        Ok(BodyLine::Last(_)) => Ok(None),
        Err(_) => Ok(None),
    }
}

/// Puts the entries of the lines from the front of the text on, as far as those that begin where no more than `stop` bytes
/// are left, or one that is no entry. Gives how many bytes are left then, and the tick of the last entry.
fn put_entries(
    version: Version,
    plan: &Plan,
    text: &[u8],
    stop: usize,
    entries: &mut Vec<Entry>,
) -> Result<(usize, u32), AllocError>
    requires head { HasHead version plan.now }
    requires empty { entries.old.items ≡ [] }
    ensures { IfOk result (λ x. IsReadUpTo version plan.now text.now x.0 x.1 entries.new.items) }
{
    let _groups = plan.groups();
    let mut last = 0;
    let mut rest = text;
    while rest.len() > stop {
        let Some((line, after)) = cut_far(b'\n', rest) else {
            break;
        };
        match put_entry(version, plan, last, line, entries)? {
            Some(tick) => {
                last = tick;
                rest = after;
            }
            None => break,
        }
    }
    Ok((rest.len(), last))
}

/// The entries of the lines from the front of the text on, as far as those that begin where no more than `stop` bytes are
/// left, or one that is no entry.
fn piece_of(
    alloc: Global,
    version: Version,
    plan: &Plan,
    text: &[u8],
    stop: usize,
) -> Result<Piece, AllocError>
    requires { HasHead version plan.now }
    ensures { (whole front : List ℕ) → whole ≡ front ++ text.now → IfOk result (IsPieceOf version plan.now whole) }
{
    let room = text.len().saturating_sub(stop) / BYTES_A_LINE;
    let mut entries = Vec::with_capacity(alloc, room)?;
    let (until, last) = put_entries(version, plan, text, stop, &mut entries)?;
    Ok(Piece {
        from: text.len(),
        until,
        last,
        entries,
    })
}

/// Piece `k` of a text, where each has so many bytes.
fn piece_at(
    alloc: Global,
    version: Version,
    plan: &Plan,
    text: &[u8],
    size: usize,
    k: usize,
) -> Result<Piece, AllocError>
    requires { HasHead version plan.now }
    ensures { IfOk result (IsPieceOf version plan.now text.now) }
{
    let start = k.saturating_mul(size);
    let stop = text.len().saturating_sub(start.saturating_add(size));
    piece_of(alloc, version, plan, lines_from(text, start), stop)
}

/// The first pieces of a text, where each has so many bytes, read side by side.
pub(crate) fn pieces(
    rt: &(impl Threads + Sync),
    alloc: Global,
    version: Version,
    plan: &Plan,
    text: &[u8],
    size: usize,
) -> Result<Vec<Piece>, AllocError>
    requires { HasHead version plan.now }
    ensures { IfOk result (λ pieces. All (IsPieceOf version plan.now text.now) pieces.items) }
{
    let size = size.max(1);
    let count = text.len().div_ceil(size).min(PIECES_A_BATCH);
    (0..count)
        .into_par_iter()
        .with_min_len(PIECES_A_THREAD)
        .map(
            |k: usize| -> Result<Piece, AllocError>
                requires { HasHead version plan.now }
                ensures { IfOk result (IsPieceOf version plan.entry.now text.entry.now) }
            { piece_at(alloc, version, plan, text, size, k) },
        )
        .collect::<Result<Vec<Piece>, AllocError>>(rt, alloc)?
}
