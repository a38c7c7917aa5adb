//! A text of which the head is read, and what has taken its entries so far.

ghost use Rattle.std.specs.Prelude.{◌++◌, List, ℕ, IfOk};
ghost use Rattle.transcript_text.specs.declared.version.Version.{Version};
ghost use Rattle.transcript_text.specs.Ahead.{entries_of};
ghost use Rattle.transcript_text.specs.Readers.{IsTextOfWhatIsRead};
ghost use Rattle.transcript_feed.specs.Sinks.{CanTakeEntries, TakesEntries};
ghost use Rattle.transcript_feed.specs.Feeds.{FeedEnds, IsBodyOf};

use crate::sink::{EntrySink, take_all};
use event_schedule::Entry;
use std::alloc::{AllocError, Global};
use std::thread::Threads;
use transcript_text::{BYTES_A_PIECE, EntriesAhead, EntryFeed, Fed, ReadError, Rest};

/// A text of which the head is read.
#[derive(Drop)]
pub(crate) struct Body<'a, R: Threads + Sync, S> {
    pub(crate) feed: EntryFeed<'a, R>,
    /// What has taken the entries before those.
    pub(crate) sink: S,
    /// The entries that are read and not taken.
    pub(crate) read: Vec<Vec<Entry>>,
}

impl<'a, R: Threads + Sync, S: EntrySink> Body<'a, R, S> {
    /// Hands on what is read, and reads on by the bytes that have come.
    pub(crate) fn take(self, bytes: &[u8]) -> Result<Body<'a, R, S>, AllocError>
        requires { (version : Version) × (text : List ℕ) × IsBodyOf S.has version text self }
        ensures { IfOk result (λ body. (version : Version) (before : List ℕ) → IsBodyOf S.has version before self.entry → IsBodyOf S.has version (before ++ bytes.now) body) }
    {
        let Body { feed, sink, read } = self;
        let work = move || -> Result<S, AllocError>
            requires { CanTakeEntries S.has sink (entries_of read.items) }
            ensures { IfOk result (TakesEntries S.has sink (entries_of read.items)) }
        { sink.take(&read) };
        let Fed {
            feed,
            entries,
            done,
        } = feed.take(bytes, work)?;
        Ok(Body {
            feed,
            sink: done?,
            read: entries,
        })
    }

    /// Hands on all that is left, where these bytes are the last.
    pub(crate) fn finish(self, rt: &R, alloc: Global, last: &[u8]) -> Result<S, ReadError>
        requires { (version : Version) × (text : List ℕ) × IsBodyOf S.has version text self }
        ensures ends { (version : Version) (text : List ℕ) → IsBodyOf S.has version text self.entry → FeedEnds S.has version (text ++ last.now) result }
        ensures law { (version : Version) (text : List ℕ) → IsTextOfWhatIsRead version text }
    {
        let Body { feed, sink, read } = self;
        let Rest { reader, mut bytes } = feed.finish();
        let sink = sink.take(&read)?;
        bytes.extend_from_slice(last)?;
        let Ok(mut ahead) = EntriesAhead::behind(rt, alloc, reader, &bytes, BYTES_A_PIECE) else {
            return Err(ReadError::Memory);
        };
        take_all(&mut ahead, sink)
    }
}
