//! A text that comes piece by piece, whose entries are read as far as it has come.

ghost use Rattle.std.specs.Prelude.{◌≡◌, List, ℕ, All, IfOk, IfSome};
ghost use Rattle.transcript_text.specs.Readers.{IsTextOfWhatIsRead};
ghost use Rattle.transcript_text.specs.Ahead.{IsPieceOf, entries_of};
ghost use Rattle.transcript_text.specs.Feeds.{IsFed, IsFeedOf};

use crate::ahead::{next_lists, next_pieces, pieces_beside};
use crate::entry_reader::EntryReader;
use crate::fault::ReadError;
use crate::piece::Piece;
use crate::version::Version;
use event_schedule::Entry;
use group_plan::Plan;
use std::alloc::{AllocError, Global};
use std::collections::VecDeque;
use std::marker::Model;
use std::thread::Threads;

/// A text that comes piece by piece, of which the head and some entries are read.
#[derive(Drop)]
pub struct EntryFeed<'a, R: Threads + Sync> {
    rt: &'a R,
    alloc: Global,
    /// As many bytes as a thread reads at a time.
    size: usize,
    /// What is read, over no text.
    reader: EntryReader<'a>,
    /// The bytes that came and are not read.
    rest: Vec<u8>,
}

impl<'a, R: Threads + Sync> Model for EntryFeed<'a, R> {
    ghost use Rattle.transcript_text.specs.Feeds.{FeedView};

    ghost Value = { FeedView };

    ghost view = { λ f. record { reader = f.reader; rest = f.rest.items } };
}

/// What became of some bytes that a text went on by: the feed behind them, the entries that were read, a list for each piece, and
/// what was done beside.
#[derive(Drop)]
pub struct Fed<'a, R: Threads + Sync, T> {
    pub feed: EntryFeed<'a, R>,
    pub entries: Vec<Vec<Entry>>,
    pub done: T,
}

/// What is left of a text once all its bytes have come: a reader of the entries that are read, and the bytes that it has still to read.
#[derive(Drop)]
pub struct Rest<'a> {
    pub reader: EntryReader<'a>,
    pub bytes: Vec<u8>,
}

/// Reads the first pieces of a text, beside some work where there is more than one.
fn pieces_and<R: Threads + Sync, T, F: FnOnce() -> T>(
    rt: &R,
    alloc: Global,
    reader: &EntryReader,
    size: usize,
    work: F,
) -> (VecDeque<Piece>, T)
    requires { F.pre work }
    ensures pieces { All (IsPieceOf reader.now.version reader.now.plan reader.now.text) result.0.items }
    ensures done { F.post work result.1 }
{
    if reader.bytes_left() > size {
        return pieces_beside(rt, alloc, reader, size, work);
    }
    (next_pieces(rt, alloc, reader, size), work())
}

impl<'a, R: Threads + Sync> EntryFeed<'a, R> {
    /// Reads the head of a text that may go on. There is none where the text has no head so far.
    pub fn begin(
        rt: &'a R,
        alloc: Global,
        version: Version,
        text: &[u8],
        size: usize,
    ) -> Result<Option<EntryFeed<'a, R>>, AllocError>
        ensures { IfOk result (λ begun. IfSome begun (IsFeedOf version text.now)) }
    {
        let reader = match EntryReader::new(alloc, version, text) {
            Ok(reader) => reader,
            Err(ReadError::Memory) => return Err(AllocError),
            Err(_) => return Ok(None),
        };
        Ok(Some(EntryFeed {
            rt,
            alloc,
            size,
            rest: reader.text().to_vec(alloc)?,
            reader: reader.over(&[])?,
        }))
    }

    /// The plan of the head.
    pub fn plan(&self) -> &Plan
        ensures { result.now ≡ self.now.reader.plan }
    {
        self.reader.plan()
    }

    /// Takes the bytes by which the text goes on, does some work, and reads as many entries as it can, at most about 16 pieces.
    pub fn take<T: Drop, F: FnOnce() -> T>(
        self,
        bytes: &[u8],
        work: F,
    ) -> Result<Fed<'a, R, T>, AllocError>
        requires { F.pre work }
        ensures fed { IfOk result (λ fed. IsFed self.entry bytes.now (entries_of fed.entries.items) fed.feed) }
        ensures done { IfOk result (λ fed. F.post work fed.done) }
    {
        let EntryFeed {
            rt,
            alloc,
            size,
            reader,
            rest: mut text,
        } = self;
        text.extend_from_slice(bytes)?;
        let mut reader = reader.over(&text)?;
        let (mut pieces, done) = pieces_and(rt, alloc, &reader, size, work);
        let entries = next_lists(alloc, &mut reader, &mut pieces)?;
        let feed = EntryFeed {
            rt,
            alloc,
            size,
            rest: reader.text().to_vec(alloc)?,
            reader: reader.over(&[])?,
        };
        Ok(Fed {
            feed,
            entries,
            done,
        })
    }

    /// What is left to read where no more bytes come.
    #[tactic(auto, using(crate::proofs::ReaderLemmas::text_is))]
    pub fn finish(self) -> Rest<'a>
        ensures reader { result.reader ≡ self.entry.reader }
        ensures bytes { result.bytes.items ≡ self.entry.rest }
        ensures law { (version : Version) (text : List ℕ) → IsTextOfWhatIsRead version text }
    {
        Rest {
            reader: self.reader,
            bytes: self.rest,
        }
    }
}
