//! The lines of entries in pieces, which are made side by side.

ghost use Rattle.std.specs.Prelude.{◌≡◌, ◌≤◌, ◌<◌, ◌+◌, ◌*◌, ℕ, length, All, IfOk};
ghost use Rattle.std.specs.List.{AllZip, range_with_len};
ghost use Rattle.transcript_text.specs.Writing.{IsWritable};
ghost use Rattle.transcript_text.specs.Pieces.{AreNextOfBoth};
ghost use Rattle.transcript_text.specs.Batches.{piece_start, HasPiece, IsPiece};

use crate::made::{MadePieces, TextPlace};
use crate::writing::put_lines;
use rayon::prelude::*;
use std::alloc::{AllocError, Global};
use std::collections::VecDeque;
use std::thread::Threads;
use transcript_log::Transcript;

/// The most entries whose lines are put into one piece, so that it has about 64 KB.
const ENTRIES_A_PIECE: usize = 512;

/// As many bytes as a piece has, or a few more: room is made by it, so that what grows need not be moved.
const BYTES_A_PIECE: usize = 72 * 1024;

/// The most pieces that are made side by side, so that they have about 2 MB.
const PIECES_A_BATCH: usize = 32;

/// As many pieces as are worth a thread.
const PIECES_A_THREAD: usize = 8;

/// How many pieces are made side by side of the entries from a place on.
fn piece_count(transcript: &Transcript, at: usize) -> usize
    requires { at < length transcript.now.entries }
    ensures some { 0 < result }
    ensures few { result ≤ 32 }
    ensures each { (k : ℕ) → k < result → at + k * 512 < length transcript.now.entries }
{
    let entries = transcript.len() - at;
    entries.div_ceil(ENTRIES_A_PIECE).min(PIECES_A_BATCH)
}

/// The place at which a piece begins, where the first one begins at a place.
fn piece_start(transcript: &Transcript, at: usize, piece: usize) -> usize
    requires within { at < length transcript.now.entries }
    requires few { piece ≤ 32 }
    ensures { result ≡ piece_start transcript.now.entries at piece }
{
    transcript.len().min(at + piece * ENTRIES_A_PIECE)
}

/// The lines of a piece, where the first one begins at a place.
fn piece_at(
    alloc: Global,
    transcript: &Transcript,
    at: usize,
    piece: usize,
) -> Result<Vec<u8>, AllocError>
    requires { HasPiece transcript.now.entries at piece }
    ensures { IfOk result (λ lines. IsPiece transcript.now.entries at piece lines.items) }
{
    let from = piece_start(transcript, at, piece);
    let until = piece_start(transcript, at, piece + 1);
    let mut lines = Vec::with_capacity(alloc, BYTES_A_PIECE)?;
    put_lines(&mut lines, transcript, from, until)?;
    Ok(lines)
}

/// The first pieces of the entries from a place on, side by side.
fn pieces_from(
    rt: &(impl Threads + Sync),
    alloc: Global,
    transcript: &Transcript,
    at: usize,
    count: usize,
) -> Result<Vec<Vec<u8>>, AllocError>
    requires { (k : ℕ) → k < count → HasPiece transcript.now.entries at k }
    ensures { IfOk result (λ pieces. AllZip (λ k piece. IsPiece transcript.now.entries at k piece.items) (range_with_len 0 count) pieces.items) }
{
    (0..count)
        .into_par_iter()
        .with_min_len(PIECES_A_THREAD)
        .map(
            |piece: usize| -> Result<Vec<u8>, AllocError>
                requires { HasPiece transcript.now.entries at piece }
                ensures { IfOk result (λ lines. IsPiece transcript.entry.now.entries at piece lines.items) }
            { piece_at(alloc, transcript, at, piece) },
        )
        .collect::<Result<Vec<Vec<u8>>, AllocError>>(rt, alloc)?
}

/// The lines of the entries from a place on, as many as are made side by side.
pub(crate) fn next_batch(
    rt: &(impl Threads + Sync),
    alloc: Global,
    transcript: &Transcript,
    at: usize,
) -> Result<MadePieces, AllocError>
    requires lines { All (λ e. IsWritable e.line) transcript.now.entries }
    requires within { at < length transcript.now.entries }
    ensures { IfOk result (AreNextOfBoth transcript.now (TextPlace.Entry at)) }
{
    let count = piece_count(transcript, at);
    let pieces = pieces_from(rt, alloc, transcript, at, count)?;
    Ok(MadePieces {
        pieces: VecDeque::from(pieces),
        after: TextPlace::Entry(piece_start(transcript, at, count)),
    })
}
