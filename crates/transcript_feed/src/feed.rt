//! A text that comes piece by piece: its entries are read as far as it has come, and handed on.

ghost use Rattle.std.specs.Prelude.{◌≡◌, ◌++◌, [], List, ℕ, IfOk};
ghost use Rattle.transcript_text.specs.declared.version.Version.{Version};
ghost use Rattle.transcript_text.specs.Readers.{IsTextOfWhatIsRead};
ghost use Rattle.transcript_feed.specs.Feeds.{CanTake, FeedEnds, HasTaken, IsStateOf};

use crate::body::Body;
use crate::intake::Intake;
use crate::sink::{EntrySink, take_all};
use std::alloc::{AllocError, Global};
use std::thread::Threads;
use transcript_text::{BYTES_A_PIECE, EntriesAhead, EntryFeed, ReadError, Version};

/// How far a text is read.
#[derive(Drop)]
enum TextState<'a, R: Threads + Sync, S> {
    /// Its head is not read. That is tried once more when it has so many bytes.
    AtHead { bytes: Vec<u8>, next: usize },
    /// Its head is read.
    AtEntries(Intake<'a, R, S>),
}

/// A text of a transcript that comes piece by piece: its entries are read as far as it has come, and handed to a sink. While the
/// sink takes those of a piece, those of the next are read side by side. Apart from the sink memory grows with the plan and the
/// pieces alone, where the text has a head.
#[derive(Drop)]
pub struct TextFeed<'a, R: Threads + Sync, S> {
    rt: &'a R,
    alloc: Global,
    version: Version,
    state: TextState<'a, R, S>,
}

// Reads the head of a text, where it has one.
fn begin<'a, R: Threads + Sync, S: EntrySink>(
    rt: &'a R,
    alloc: Global,
    version: Version,
    bytes: Vec<u8>,
) -> Result<TextState<'a, R, S>, AllocError>
    ensures { IfOk result (λ state. IsStateOf S.has version bytes.items state) }
{
    match EntryFeed::begin(rt, alloc, version, &bytes, BYTES_A_PIECE)? {
        Some(feed) => {
            let sink = S::begin(alloc, feed.plan())?;
            let body = Body {
                feed,
                sink,
                read: Vec::new(alloc),
            };
            Ok(TextState::AtEntries(Intake::new(alloc, body)))
        }
        None => Ok(TextState::AtHead {
            next: bytes.len().saturating_mul(2),
            bytes,
        }),
    }
}

// Some more bytes of a text whose head is not read. It is tried again where they are enough.
fn goes_on<'a, R: Threads + Sync, S: EntrySink>(
    rt: &'a R,
    alloc: Global,
    version: Version,
    front: Vec<u8>,
    next: usize,
    bytes: &[u8],
) -> Result<TextState<'a, R, S>, AllocError>
    ensures { IfOk result (λ state. IsStateOf S.has version (front.items ++ bytes.now) state) }
{
    let mut text = front;
    text.extend_from_slice(bytes)?;
    if text.len() < next {
        return Ok(TextState::AtHead { bytes: text, next });
    }
    begin(rt, alloc, version, text)
}

// Reads a text at once, of which the head was never read.
fn read_whole<R: Threads + Sync, S: EntrySink>(
    rt: &R,
    alloc: Global,
    version: Version,
    bytes: &[u8],
) -> Result<S, ReadError>
    ensures ends { FeedEnds S.has version bytes.now result }
    ensures law { IsTextOfWhatIsRead version bytes.now }
{
    let mut reader = match EntriesAhead::new(rt, alloc, version, bytes, BYTES_A_PIECE) {
        Ok(reader) => reader,
        Err(fault) => return Err(fault),
    };
    let sink = S::begin(alloc, reader.plan())?;
    take_all(&mut reader, sink)
}

impl<'a, R: Threads + Sync, S: EntrySink> TextFeed<'a, R, S> {
    /// A text of this version of which nothing has come.
    pub fn new(rt: &'a R, alloc: Global, version: Version) -> TextFeed<'a, R, S>
        ensures { HasTaken S.has version result [] }
    {
        TextFeed {
            rt,
            alloc,
            version,
            state: TextState::AtHead {
                bytes: Vec::new(alloc),
                next: 0,
            },
        }
    }

    /// Takes the bytes by which the text goes on.
    pub fn take(self, bytes: &[u8]) -> Result<TextFeed<'a, R, S>, AllocError>
        requires { CanTake S.has self }
        ensures { IfOk result (λ feed. (version : Version) (before : List ℕ) → HasTaken S.has version self.entry before → HasTaken S.has version feed (before ++ bytes.now)) }
    {
        let TextFeed {
            rt,
            alloc,
            version,
            state,
        } = self;
        let state = match state {
            TextState::AtHead { bytes: front, next } => {
                goes_on(rt, alloc, version, front, next, bytes)?
            }
            TextState::AtEntries(intake) => TextState::AtEntries(intake.take(alloc, bytes)?),
        };
        Ok(TextFeed {
            rt,
            alloc,
            version,
            state,
        })
    }

    /// The sink with all entries of the text, where no more bytes come; or the text's first fault.
    pub fn finish(self) -> Result<S, ReadError>
        requires { CanTake S.has self }
        ensures ends { (version : Version) (text : List ℕ) → HasTaken S.has version self.entry text → FeedEnds S.has version text result }
        ensures law { (version : Version) (text : List ℕ) → HasTaken S.has version self.entry text → IsTextOfWhatIsRead version text }
    {
        let TextFeed {
            rt,
            alloc,
            version,
            state,
        } = self;
        match state {
            TextState::AtHead { bytes, .. } => read_whole(rt, alloc, version, &bytes),
            TextState::AtEntries(intake) => intake.finish(rt, alloc),
        }
    }
}
