//! The command `convert`.

ghost use Rattle.std.specs.Prelude.{◌≤◌, ◌≡◌, ℕ, List, Ok, IfErr, IfOk};
ghost use Rattle.event_schedule.specs.Transcripts.{TranscriptView};
ghost use Rattle.transcript_text.specs.declared.version.Version.TheVariants.{One};
ghost use Rattle.transcript_text.specs.Heads.{read_of};
ghost use Rattle.transcript_text.specs.Reading.{Gives};
ghost use Rattle.desk_outside.specs.Desk.{Rose};
ghost use Rattle.file_commands.specs.ConvertEnds.{ConvertEnds, ConvertRefuses};
ghost use Rattle.command_words.specs.Outcomes.{IsFault};

use command_files::{NewFile, Source, pour, put_one};
use command_texts::converted_line;
use command_words::{ConvertFiles, Outcome, TextFault};
use desk_outside::{Desk, Readers, Sink};
use std::alloc::{AllocError, Global};
use std::thread::Threads;
use transcript_feed::{TextFeed, kept};
use transcript_log::Transcript;
use transcript_text::{ReadError, Version};

/// A transcript's text of version 1, whose bytes come from a desk.
#[derive(Drop)]
struct OldText<'a, R: Threads + Sync> {
    feed: TextFeed<'a, R, Transcript>,
}

impl<'a, R: Threads + Sync> Sink for OldText<'a, R> {
    ghost use Rattle.std.specs.Thread.{IsSync};
    ghost use Rattle.transcript_feed.specs.Feeds.{HasTaken};
    ghost use Rattle.transcript_feed.specs.Kept.{IsKept};
    ghost use Rattle.transcript_text.specs.declared.version.Version.TheVariants.{One};

    // Threads may share the handle.
    ghost has = { λ old text. IsSync R.row × HasTaken IsKept One old.feed text };

    fn take(self, bytes: &[u8]) -> Result<Self, AllocError> {
        Ok(OldText {
            feed: self.feed.take(bytes)?,
        })
    }
}

// The transcript that was read of the text of this name, or how the command ends.
fn old_transcript<'a>(
    name: &'a str,
    read: Result<Transcript, ReadError>,
) -> Result<Transcript, Outcome<'a>>
    ensures same { IfOk result (λ t. read ≡ Ok t) }
    ensures refused { (bytes : List ℕ) → Gives (λ (t : TranscriptView). t) read (read_of One bytes) → IfErr result (λ outcome. ConvertRefuses name.now bytes outcome) }
    ensures no_fault { IfErr result (λ outcome. ¬ IsFault outcome) }
{
    match read {
        Ok(transcript) => Ok(transcript),
        Err(ReadError::Memory) => Err(Outcome::NoMemory),
        Err(fault) => Err(Outcome::BadText(name, TextFault::Transcript(fault))),
    }
}

/// Reads a transcript of version 1 while it comes, and puts the same transcript in version 2.
pub fn convert<'a, R: Threads + Sync, D: Desk>(
    rt: &R,
    alloc: Global,
    files: ConvertFiles<'a>,
    desk: &mut D,
) -> Outcome<'a>
    ensures ends { ConvertEnds files.entry.old.now files.entry.transcript.now (D.view desk.old) (D.view desk.new) result }
    ensures later { D.faults desk.old ≤ D.faults desk.new }
    ensures cause { IsFault result → Rose (D.faults desk.old) (D.faults desk.new) }
{
    let text = OldText {
        feed: TextFeed::new(rt, alloc, Version::One),
    };
    let poured = or_end!(pour(alloc, files.old, text, desk));
    let transcript = or_end!(old_transcript(files.old, kept(poured.feed)));
    let Ok(line) = converted_line(alloc, transcript.len()) else {
        return Outcome::NoMemory;
    };
    let file = NewFile {
        name: files.transcript,
        source: Source::Transcript(&transcript),
        readers: Readers::Any,
    };
    put_one(rt, alloc, file, line.as_bytes(), desk)
}
