//! The commands `twin` and `pooled`: `twin` is the case of nobody.

ghost use Rattle.std.specs.Prelude.{◌≤◌, IfErr};
ghost use Rattle.desk_outside.specs.Desk.{Rose};
ghost use Rattle.command_words.specs.Commands.{twin_names_of};
ghost use Rattle.command_words.specs.Outcomes.{IsFault};
ghost use Rattle.file_commands.specs.TwinEnds.{TextsFetched, MovedAreSaid, PooledEndsAs, TwinCommandEnds, PooledCommandEnds};
ghost use Rattle.command_words.specs.Known.{IsKnown, known_in};

use crate::pouring::fetch_and_pour;
use command_files::{NewFile, Source, fetch_two, put_one};
use command_texts::{TwinTexts, counted_line, words_moved};
use command_words::{Outcome, PooledWords, TwinFiles};
use desk_outside::{Desk, Readers};
use std::alloc::Global;
use std::thread::Threads;
use transcript_log::Transcript;
use transcript_text::ReadError;
use twin_worlds::{MovedWords, moved_text};

/// What the four files of a comparison came to: the bytes of those that are read whole, and the transcript or its first fault.
#[derive(Drop)]
pub(crate) struct Fetched {
    pub texts: TwinTexts,
    pub read: Result<Transcript, ReadError>,
}

// Fetches the four files. The transcript is read while it comes.
pub(crate) fn fetch_texts<'a, R: Threads + Sync, D: Desk>(
    rt: &R,
    alloc: Global,
    files: TwinFiles<'a>,
    desk: &mut D,
) -> Result<Fetched, Outcome<'a>>
    ensures ends { TextsFetched (twin_names_of files.entry) (D.view desk.old) (D.view desk.new) result }
    ensures later { D.faults desk.old ≤ D.faults desk.new }
    ensures cause { IfErr result (λ outcome. IsFault outcome → Rose (D.faults desk.old) (D.faults desk.new)) }
{
    let (plan, readings) = or_fail!(fetch_two(alloc, files.plan, files.readings, desk));
    let (other, read) = or_fail!(fetch_and_pour(rt, alloc, files.other, files.transcript, desk));
    let texts = TwinTexts {
        plan,
        readings,
        other,
    };
    Ok(Fetched { texts, read })
}

// Puts the file of the words that move, and says how many they are, as the command of this name.
pub(crate) fn put_moved<'a, R: Threads + Sync, D: Desk>(
    rt: &R,
    alloc: Global,
    verb: &str,
    name: &'a str,
    moved: &MovedWords,
    desk: &mut D,
) -> Outcome<'a>
    ensures ends { MovedAreSaid verb.now name.now moved.now (D.view desk.old) (D.view desk.new) result }
    ensures later { D.faults desk.old ≤ D.faults desk.new }
    ensures cause { IsFault result → Rose (D.faults desk.old) (D.faults desk.new) }
{
    let Ok(text) = moved_text(alloc, moved) else {
        return Outcome::NoMemory;
    };
    let Ok(line) = counted_line(alloc, verb, moved.rows().len()) else {
        return Outcome::NoMemory;
    };
    let file = NewFile {
        name,
        source: Source::Bytes(text.as_slice()),
        // With the other table it gives the readings away.
        readers: Readers::Owner,
    };
    put_one(rt, alloc, file, line.as_bytes(), desk)
}

// Fetches a plan, two tables of readings and a transcript, and puts the mask words that move so that the second table
// gives the transcript of the first and the known meters the same, as the command of this name.
fn twin_for<'a, R: Threads + Sync, D: Desk>(
    rt: &R,
    alloc: Global,
    verb: &str,
    known: &str,
    files: TwinFiles<'a>,
    desk: &mut D,
) -> Outcome<'a>
    requires { IsKnown known.now }
    ensures ends { PooledEndsAs verb.now (known_in known.now) (twin_names_of files.entry) (D.view desk.old) (D.view desk.new) result }
    ensures later { D.faults desk.old ≤ D.faults desk.new }
    ensures cause { IsFault result → Rose (D.faults desk.old) (D.faults desk.new) }
{
    let Fetched { texts, read } = or_end!(fetch_texts(rt, alloc, files, desk));
    let moved = or_end!(words_moved(rt, alloc, known, files, &texts, read));
    put_moved(rt, alloc, verb, files.masks, &moved, desk)
}

/// Fetches a plan, two tables of readings and a transcript, and puts the mask words that move so that the second table
/// gives the transcript of the first.
pub fn twin<'a, R: Threads + Sync, D: Desk>(
    rt: &R,
    alloc: Global,
    files: TwinFiles<'a>,
    desk: &mut D,
) -> Outcome<'a>
    ensures ends { TwinCommandEnds (twin_names_of files.entry) (D.view desk.old) (D.view desk.new) result }
    ensures later { D.faults desk.old ≤ D.faults desk.new }
    ensures cause { IsFault result → Rose (D.faults desk.old) (D.faults desk.new) }
{
    twin_for(rt, alloc, "twin", "-", files, desk)
}

/// The same against meters that share what they know: the second table gives them the same readings, and they have the same
/// mask words.
pub fn pooled<'a, R: Threads + Sync, D: Desk>(
    rt: &R,
    alloc: Global,
    words: PooledWords<'a>,
    desk: &mut D,
) -> Outcome<'a>
    requires { IsKnown words.known.now }
    ensures ends { PooledCommandEnds (known_in words.entry.known.now) (twin_names_of words.entry.files) (D.view desk.old) (D.view desk.new) result }
    ensures later { D.faults desk.old ≤ D.faults desk.new }
    ensures cause { IsFault result → Rose (D.faults desk.old) (D.faults desk.new) }
{
    twin_for(rt, alloc, "pooled", words.known, words.files, desk)
}
