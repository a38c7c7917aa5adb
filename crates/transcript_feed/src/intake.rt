//! How the bytes of a text whose head is read reach its reader.

ghost use Rattle.std.specs.Prelude.{◌++◌, List, ℕ, IfOk};
ghost use Rattle.transcript_text.specs.declared.version.Version.{Version};
ghost use Rattle.transcript_text.specs.Readers.{IsTextOfWhatIsRead};
ghost use Rattle.transcript_feed.specs.Feeds.{FeedEnds, IsBodyOf, IsIntakeOf};

use crate::body::Body;
use crate::sink::EntrySink;
use event_schedule::Entry;
use std::alloc::{AllocError, Global};
use std::thread::Threads;
use transcript_text::ReadError;

/// A text of which the head is read, with the bytes that its reader has not seen. Where the last bytes gave no entry, the next ones wait
/// until they are as many as those in vain: so a long line is looked through a few times, and not with each of its pieces.
#[derive(Drop)]
pub(crate) struct Intake<'a, R: Threads + Sync, S> {
    pub(crate) body: Body<'a, R, S>,
    pub(crate) waiting: Vec<u8>,
    /// How many bytes have been read in vain.
    pub(crate) vain: usize,
}

// Whether there is no entry in any of the lists.
fn is_empty(lists: &[Vec<Entry>]) -> bool {
    lists.iter().all(|entries| entries.is_empty())
}

// Reads on by these bytes, where so many before them were read in vain.
fn read_on<'a, R: Threads + Sync, S: EntrySink>(
    alloc: Global,
    body: Body<'a, R, S>,
    bytes: &[u8],
    vain: usize,
) -> Result<Intake<'a, R, S>, AllocError>
    requires { (version : Version) × (text : List ℕ) × IsBodyOf S.has version text body }
    ensures { IfOk result (λ intake. (version : Version) (before : List ℕ) → IsBodyOf S.has version before body.entry → IsIntakeOf S.has version (before ++ bytes.now) intake) }
{
    let body = body.take(bytes)?;
    let vain = if is_empty(&body.read) {
        vain.saturating_add(bytes.len())
    } else {
        0
    };
    Ok(Intake {
        body,
        waiting: Vec::new(alloc),
        vain,
    })
}

impl<'a, R: Threads + Sync, S: EntrySink> Intake<'a, R, S> {
    /// A text of which nothing is read but the head.
    pub(crate) fn new(alloc: Global, body: Body<'a, R, S>) -> Intake<'a, R, S>
        ensures { (version : Version) (text : List ℕ) → IsBodyOf S.has version text body.entry → IsIntakeOf S.has version text result }
    {
        Intake {
            body,
            waiting: Vec::new(alloc),
            vain: 0,
        }
    }

    /// Reads on by the bytes that wait and these, or has these wait too.
    pub(crate) fn take(self, alloc: Global, bytes: &[u8]) -> Result<Intake<'a, R, S>, AllocError>
        requires { (version : Version) × (text : List ℕ) × IsIntakeOf S.has version text self }
        ensures { IfOk result (λ intake. (version : Version) (before : List ℕ) → IsIntakeOf S.has version before self.entry → IsIntakeOf S.has version (before ++ bytes.now) intake) }
    {
        let Intake {
            body,
            waiting: mut all,
            vain,
        } = self;
        if all.is_empty() && vain <= bytes.len() {
            return read_on(alloc, body, bytes, vain);
        }
        all.extend_from_slice(bytes)?;
        if vain <= all.len() {
            return read_on(alloc, body, &all, vain);
        }
        Ok(Intake {
            body,
            waiting: all,
            vain,
        })
    }

    /// Hands on all that is left, where no more bytes come.
    pub(crate) fn finish(self, rt: &R, alloc: Global) -> Result<S, ReadError>
        requires { (version : Version) × (text : List ℕ) × IsIntakeOf S.has version text self }
        ensures ends { (version : Version) (text : List ℕ) → IsIntakeOf S.has version text self.entry → FeedEnds S.has version text result }
        ensures law { (version : Version) (text : List ℕ) → IsTextOfWhatIsRead version text }
    {
        let Intake {
            body,
            waiting,
            vain: _vain,
        } = self;
        body.finish(rt, alloc, &waiting)
    }
}
