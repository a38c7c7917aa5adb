//! The entries of a transcript, a piece of the text after another. The pieces are read side by side.

ghost use Rattle.std.specs.Prelude.{◌≡◌, ◌++◌, All, IfOk, OnOk};
ghost use Rattle.event_schedule.specs.Transcripts.{Fits, IsTranscript, NeverFalls, last_tick_from, no_entries};
ghost use Rattle.transcript_text.specs.Reading.{Gives};

use crate::ahead::next_entries;
use crate::entry_reader::EntryReader;
use crate::fault::ReadError;
use event_schedule::Entry;
use std::alloc::{AllocError, Global};
use std::collections::VecDeque;
use std::thread::Threads;
use transcript_log::Transcript;

/// About as many bytes as a line has: room is made by it, so that what grows need not be moved.
pub(crate) const BYTES_A_LINE: usize = 72;

/// Puts entries behind those of a transcript. An error where memory runs out; some of them may be put then.
pub fn put_all(transcript: &mut Transcript, entries: &[Entry]) -> Result<(), AllocError>
    requires ticks { NeverFalls (last_tick_from 0 transcript.old.entries) entries.now }
    requires fits { All (Fits transcript.old.plan) entries.now }
    ensures { OnOk result (transcript.new ≡ record transcript.old { entries = transcript.old.entries ++ entries.now }) }
{
    for entry in entries {
        transcript.push(*entry)?;
    }
    Ok(())
}

/// Puts the entries that are left to read into a transcript that has none yet. Where those of a piece don't come next, the next
/// line is read alone.
fn put_entries<R: Threads + Sync>(
    rt: &R,
    alloc: Global,
    size: usize,
    transcript: &mut Transcript,
    reader: &mut EntryReader,
) -> Result<(), ReadError>
    requires empty { transcript.old ≡ no_entries reader.old.plan }
    requires first { reader.old.last ≡ 0 }
    ensures entries { Gives (λ _. transcript.new.entries) result reader.old.left }
    ensures plan { OnOk result (transcript.new.plan ≡ reader.old.plan) }
    ensures sound { OnOk result (IsTranscript transcript.new) }
{
    let mut pieces = VecDeque::new(alloc);
    'entries: loop {
        if let Some(entries) = next_entries(rt, alloc, size, reader, &mut pieces) {
            put_all(transcript, &entries)?;
            continue;
        }
        pieces.clear();
        match reader.next() {
            Ok(Some(entry)) => transcript.push(entry)?,
            Ok(None) => {
                let _entries = transcript.len();
                return Ok(());
            }
            Err(fault) => return Err(fault),
        }
    }
}

/// The transcript of the plan of a text and its entries, of which none is read yet.
pub(crate) fn entries<R: Threads + Sync>(
    rt: &R,
    alloc: Global,
    size: usize,
    reader: &mut EntryReader,
) -> Result<Transcript, ReadError>
    requires { reader.old.last ≡ 0 }
    ensures entries { Gives (λ t. t.entries) result reader.old.left }
    ensures plan { IfOk result (λ t. t.plan ≡ reader.old.plan) }
    ensures sound { IfOk result (λ t. IsTranscript t) }
{
    let lines = reader.bytes_left() / BYTES_A_LINE;
    let mut transcript = Transcript::with_room(alloc, reader.plan(), lines)?;
    put_entries(rt, alloc, size, &mut transcript, reader)?;
    Ok(transcript)
}
