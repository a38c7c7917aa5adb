//! The file of a transcript, of which much is written ahead, while the run goes on.

ghost use Rattle.std.specs.Prelude.{◌<◌, ◌≡◌, ◌≤◌, ◌+◌, ◌^◌, [], length, take, ◌++◌};
ghost use Rattle.event_schedule.specs.Transcripts.{TranscriptView};
ghost use Rattle.transcript_text.specs.Spelling.{transcript_text};
ghost use Rattle.transcript_text.specs.Writing.{begun_text, lines_text};
ghost use Rattle.command_files.specs.Ahead.{IsAhead, IsPart};

use crate::desk_calls::Begun;
use crate::source::{Source, TranscriptPieces};
use desk_outside::BegunFile;
use std::alloc::Global;
use std::thread::Threads;
use transcript_log::Transcript;
use transcript_text::TextPieces;

/// The file of a transcript, which has the text of its first entries.
#[derive(Drop)]
pub struct Ahead<'n, 'r, R, B: BegunFile + Drop> {
    rt: &'r R,
    alloc: Global,
    pub begun: Begun<'n, B>,
    /// How many entries there are in the file.
    pub entries: usize,
}

impl<'n, 'r, R: Threads + Sync, B: BegunFile + Drop> Ahead<'n, 'r, R, B> {
    /// A file that has nothing yet.
    pub fn new(rt: &'r R, alloc: Global, begun: Begun<'n, B>) -> Ahead<'n, 'r, R, B>
        requires { B.has begun.file [] }
        ensures begun { result.begun ≡ begun.entry }
        ensures ahead { (t : TranscriptView) → IsAhead B.has result.begun.file result.entries t }
    {
        Ahead {
            rt,
            alloc,
            begun,
            entries: 0,
        }
    }

    /// A file that has nothing yet gets the text of the first entries of a transcript, so many of them. Where there are none, it gets
    /// nothing.
    pub fn behind(
        rt: &'r R,
        alloc: Global,
        begun: Begun<'n, B>,
        text: &[u8],
        entries: usize,
    ) -> Ahead<'n, 'r, R, B>
        requires { B.has begun.file [] }
        ensures name { result.begun.name.now ≡ begun.entry.name.now }
        ensures ahead { (t : TranscriptView) → entries ≤ length t.entries → text.now ≡ begun_text t.plan (take entries t.entries) → IsAhead B.has result.begun.file result.entries t }
    {
        if entries == 0 {
            return Ahead::new(rt, alloc, begun);
        }
        let mut begun = begun;
        begun.append_source(rt, alloc, Source::Bytes(text));
        Ahead {
            rt,
            alloc,
            begun,
            entries,
        }
    }

    /// Appends the text of a part.
    pub(crate) fn append(&mut self, part: &Transcript)
        ensures name { self.new.begun.name.now ≡ self.old.begun.name.now }
        ensures ahead { (t : TranscriptView) → length t.entries < 2 ^ 64 → IsPart self.old.entries t part.now → IsAhead B.has self.old.begun.file self.old.entries t
            → IsAhead B.has self.new.begun.file self.new.entries t × (self.new.entries ≡ self.old.entries + length part.now.entries) }
    {
        let mut pieces = TranscriptPieces {
            text: part_text(self.rt, self.alloc, self.entries, part),
        };
        self.begun.append(&mut pieces);
        self.entries = self.entries.saturating_add(part.len());
    }

    /// The file with the whole text: what is left of it is appended.
    pub fn finished(self, transcript: &Transcript) -> Begun<'n, B>
        requires { IsAhead B.has self.begun.file self.entries transcript.now }
        ensures name { result.name.now ≡ self.entry.begun.name.now }
        ensures text { B.has result.file (transcript_text transcript.now) }
    {
        let Ahead {
            rt,
            alloc,
            mut begun,
            entries,
        } = self;
        let mut rest = TranscriptPieces {
            text: rest_text(rt, alloc, entries, transcript),
        };
        begun.append(&mut rest);
        begun
    }
}

/// The text of a part behind so many entries: the first one's has the head.
fn part_text<'a, R: Threads + Sync>(
    rt: &'a R,
    alloc: Global,
    entries: usize,
    part: &'a Transcript,
) -> TextPieces<'a, R>
    ensures first { entries ≡ 0 → result ≡ begun_text part.now.plan part.now.entries }
    ensures next { 0 < entries → result ≡ lines_text part.now.entries }
{
    if entries == 0 {
        TextPieces::begun(rt, alloc, part)
    } else {
        TextPieces::lines(rt, alloc, part)
    }
}

/// The text of a transcript behind so many entries: all of it where there are none.
fn rest_text<'a, R: Threads + Sync>(
    rt: &'a R,
    alloc: Global,
    entries: usize,
    transcript: &'a Transcript,
) -> TextPieces<'a, R>
    requires { entries ≤ length transcript.now.entries }
    ensures whole { entries ≡ 0 → result ≡ transcript_text transcript.now }
    ensures rest { 0 < entries → begun_text transcript.now.plan (take entries transcript.now.entries) ++ result ≡ transcript_text transcript.now }
{
    if entries == 0 {
        TextPieces::new(rt, alloc, transcript)
    } else {
        TextPieces::after(rt, alloc, transcript, entries)
    }
}
