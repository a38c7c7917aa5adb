//! The entries of a text, read ahead in pieces side by side, and handed out in batches.

ghost use Rattle.std.specs.Prelude.{◌≡◌, ◌∷◌, [], All, IfOk};
ghost use Rattle.transcript_text.specs.Readers.{IsTextOfWhatIsRead};
ghost use Rattle.transcript_text.specs.Ahead.{AheadBegins, AreNextLists, BatchEnds, FillEnds, IsBehind, IsPieceOf, entries_of};

use crate::entry_reader::EntryReader;
use crate::fault::ReadError;
use crate::piece::Piece;
use crate::version::Version;
use event_schedule::Entry;
use group_plan::Plan;
use std::alloc::{AllocError, Global};
use std::collections::VecDeque;
use std::marker::Model;
use std::thread::{Threads, join};

/// A text whose entries are read ahead, in pieces of so many bytes side by side, and handed out in batches. Where memory for that is
/// wanting, or a line is no entry, the next line is read alone, as an `EntryReader` does.
#[derive(Drop)]
pub struct EntriesAhead<'a, R: Threads + Sync> {
    rt: &'a R,
    alloc: Global,
    size: usize,
    /// The text from the first line on whose entry is not handed out.
    reader: EntryReader<'a>,
    /// Pieces of that text.
    pieces: VecDeque<Piece>,
}

impl<'a, R: Threads + Sync> Model for EntriesAhead<'a, R> {
    ghost use Rattle.std.specs.Prelude.{All};
    ghost use Rattle.transcript_text.specs.Ahead.{AheadView, IsPieceOf};

    ghost Value = { AheadView };

    ghost view = { λ r. record { plan = r.reader.plan; last = r.reader.last; left = r.reader.left; most = r.reader.bytes } };

    ghost invariant = { λ r. All (IsPieceOf r.reader.version r.reader.plan r.reader.text) r.pieces.items };
}

/// The next pieces, or none where memory is wanting.
pub(crate) fn next_pieces<R: Threads + Sync>(
    rt: &R,
    alloc: Global,
    reader: &EntryReader,
    size: usize,
) -> VecDeque<Piece>
    ensures { All (IsPieceOf reader.now.version reader.now.plan reader.now.text) result.items }
{
    match reader.pieces(rt, alloc, size) {
        Ok(pieces) => VecDeque::from(pieces),
        Err(_) => VecDeque::new(alloc),
    }
}

/// Has pieces, where there are none.
fn fill_pieces<R: Threads + Sync>(
    rt: &R,
    alloc: Global,
    reader: &EntryReader,
    size: usize,
    pieces: &mut VecDeque<Piece>,
)
    requires { All (IsPieceOf reader.now.version reader.now.plan reader.now.text) pieces.old.items }
    ensures { All (IsPieceOf reader.now.version reader.now.plan reader.now.text) pieces.new.items }
{
    if pieces.is_empty() {
        *pieces = next_pieces(rt, alloc, reader, size);
    }
}

/// The entries of the first of the pieces, where they come next.
fn first_entries(reader: &mut EntryReader, pieces: &mut VecDeque<Piece>) -> Option<Vec<Entry>>
    requires { All (IsPieceOf reader.old.version reader.old.plan reader.old.text) pieces.old.items }
    ensures entries { FillEnds reader.old result reader.new }
    ensures pieces { All (IsPieceOf reader.new.version reader.new.plan reader.new.text) pieces.new.items }
{
    let piece = pieces.pop_front()?;
    if reader.skip(&piece) {
        Some(piece.entries)
    } else {
        None
    }
}

/// The entries of the next piece, where they come next. Where there are no pieces, the next are read side by side.
pub(crate) fn next_entries<R: Threads + Sync>(
    rt: &R,
    alloc: Global,
    size: usize,
    reader: &mut EntryReader,
    pieces: &mut VecDeque<Piece>,
) -> Option<Vec<Entry>>
    requires { All (IsPieceOf reader.old.version reader.old.plan reader.old.text) pieces.old.items }
    ensures entries { FillEnds reader.old result reader.new }
    ensures pieces { All (IsPieceOf reader.new.version reader.new.plan reader.new.text) pieces.new.items }
{
    fill_pieces(rt, alloc, reader, size, pieces);
    first_entries(reader, pieces)
}

/// The entries of the pieces, a list for each piece, as far as they come next.
pub(crate) fn next_lists(
    alloc: Global,
    reader: &mut EntryReader,
    pieces: &mut VecDeque<Piece>,
) -> Result<Vec<Vec<Entry>>, AllocError>
    requires { All (IsPieceOf reader.old.version reader.old.plan reader.old.text) pieces.old.items }
    ensures lists { IfOk result (λ lists. AreNextLists reader.old lists.items reader.new) }
    ensures plan { reader.new.plan ≡ reader.old.plan }
    ensures pieces { All (IsPieceOf reader.new.version reader.new.plan reader.new.text) pieces.new.items }
{
    let mut lists = Vec::with_capacity(alloc, pieces.len())?;
    'lists: while let Some(entries) = first_entries(reader, pieces) {
        lists.push(entries)?;
    }
    Ok(lists)
}

/// A batch of one entry.
fn alone(alloc: Global, entry: Entry) -> Result<Vec<Vec<Entry>>, AllocError>
    ensures { IfOk result (λ batch. entries_of batch.items ≡ entry ∷ []) }
{
    Ok(vec![in alloc; vec![in alloc; entry]?]?)
}

/// Does some work, and reads the next pieces beside it.
pub(crate) fn pieces_beside<R: Threads + Sync, T, F: FnOnce() -> T>(
    rt: &R,
    alloc: Global,
    reader: &EntryReader,
    size: usize,
    work: F,
) -> (VecDeque<Piece>, T)
    requires { F.pre work }
    ensures pieces { All (IsPieceOf reader.now.version reader.now.plan reader.now.text) result.0.items }
    ensures done { F.post work result.1 }
{
    let read = || -> VecDeque<Piece>
        ensures { All (IsPieceOf reader.entry.now.version reader.entry.now.plan reader.entry.now.text) result.items }
    { next_pieces(rt, alloc, reader, size) };
    join(rt, read, work)
}

impl<'a, R: Threads + Sync> EntriesAhead<'a, R> {
    /// Reads the head of a text.
    pub fn new(
        rt: &'a R,
        alloc: Global,
        version: Version,
        bytes: &'a [u8],
        size: usize,
    ) -> Result<EntriesAhead<'a, R>, ReadError>
        ensures begins { AheadBegins version bytes.now result }
        ensures text { IsTextOfWhatIsRead version bytes.now }
    {
        let reader = match EntryReader::new(alloc, version, bytes) {
            Ok(reader) => reader,
            Err(fault) => return Err(fault),
        };
        Ok(EntriesAhead {
            rt,
            alloc,
            size,
            reader,
            pieces: VecDeque::new(alloc),
        })
    }

    /// A text of which a reader has read the front, and this is the rest.
    pub fn behind(
        rt: &'a R,
        alloc: Global,
        reader: EntryReader<'_>,
        rest: &'a [u8],
        size: usize,
    ) -> Result<EntriesAhead<'a, R>, AllocError>
        ensures { IfOk result (λ ahead. IsBehind reader.entry rest.now ahead) }
    {
        Ok(EntriesAhead {
            rt,
            alloc,
            size,
            reader: reader.over(rest)?,
            pieces: VecDeque::new(alloc),
        })
    }

    /// The plan of the head.
    pub fn plan(&self) -> &Plan
        ensures { result.now ≡ self.now.plan }
    {
        self.reader.plan()
    }

    /// Hands out the next entries: those of the next pieces, a list for each piece, or one that is read alone. There are none where
    /// the next line is the last, as it has to be.
    pub fn next_batch(&mut self) -> Result<Option<Vec<Vec<Entry>>>, ReadError>
        ensures { BatchEnds self.old result self.new }
    {
        fill_pieces(
            self.rt,
            self.alloc,
            &self.reader,
            self.size,
            &mut self.pieces,
        );
        let lists = next_lists(self.alloc, &mut self.reader, &mut self.pieces)?;
        self.pieces.clear();
        if !lists.is_empty() {
            return Ok(Some(lists));
        }
        match self.reader.next() {
            Ok(Some(entry)) => Ok(Some(alone(self.alloc, entry)?)),
            Ok(None) => Ok(None),
            Err(fault) => Err(fault),
        }
    }

    /// Does some work. Where the text goes on for more than a piece, the next pieces are read beside it.
    pub fn read_beside<T, F: FnOnce() -> T>(&mut self, work: F) -> T
        requires { F.pre work }
        ensures done { F.post work result }
        ensures same { self.new ≡ self.old }
    {
        if self.reader.bytes_left() <= self.size {
            return work();
        }
        let (pieces, answer) = pieces_beside(self.rt, self.alloc, &self.reader, self.size, work);
        self.pieces = pieces;
        answer
    }
}
