//! The calls of a command on the desk: fetches at its beginning, puts and a said line at its end.

ghost use Rattle.std.specs.Prelude.{◌≤◌, IfErr, [], ◌≡◌, ◌++◌, ℕ, List, true, IfOk, ◌∷◌, ◌⊎◌, ◌||◌};
ghost use Rattle.desk_outside.specs.Desk.{Rose};
ghost use Rattle.desk_outside.specs.Sink.{HasSome};
ghost use Rattle.command_files.specs.Calls.{OneFetched, TwoFetched, OnePoured, PouredAndFetched, PutsEnd, Committed, IsAmong, Unwritable, putting, CommitsEnd};
ghost use Rattle.command_words.specs.Outcomes.{IsFault};
ghost use Rattle.command_files.specs.Sources.{source_bytes};

use crate::source::{Source, TranscriptPieces, WordsPieces, WordsStage};
use command_words::{Outcome, Unread, Unwritten};
use desk_outside::{BegunFile, Desk, DeskError, FetchError, Pieces, Readers, Sink, Slice};
use std::alloc::{AllocError, Global};
use std::thread::Threads;
use transcript_text::TextPieces;

/// The most bytes that a file may have.
const MOST_BYTES: u64 = 1 << 28;

/// Fetches a file, or says how the command ends.
pub fn fetch<'a, D: Desk>(
    alloc: Global,
    name: &'a str,
    desk: &mut D,
) -> Result<Vec<u8>, Outcome<'a>>
    ensures ends { OneFetched name.now (D.view desk.old) (D.view desk.new) result }
    ensures later { D.faults desk.old ≤ D.faults desk.new }
    ensures cause { IfErr result (λ outcome. IsFault outcome → Rose (D.faults desk.old) (D.faults desk.new)) }
{
    match desk.fetch(alloc, name, MOST_BYTES) {
        Ok(bytes) => Ok(bytes),
        Err(FetchError::Failed) => Err(Outcome::Unread(Unread::File(name))),
        Err(FetchError::TooLong(_)) => Err(Outcome::Unread(Unread::TooLong(name))),
        Err(FetchError::Memory) => Err(Outcome::NoMemory),
    }
}

/// Has a sink take the bytes of a file, or says how the command ends.
pub fn pour<'a, D: Desk, S: Sink>(
    alloc: Global,
    name: &'a str,
    sink: S,
    desk: &mut D,
) -> Result<S, Outcome<'a>>
    requires { HasSome S.has sink }
    ensures ends { OnePoured S.has name.now sink (D.view desk.old) (D.view desk.new) result }
    ensures later { D.faults desk.old ≤ D.faults desk.new }
    ensures cause { IfErr result (λ outcome. IsFault outcome → Rose (D.faults desk.old) (D.faults desk.new)) }
{
    match desk.pour(alloc, name, MOST_BYTES, sink) {
        Ok(full) => Ok(full),
        Err(FetchError::Failed) => Err(Outcome::Unread(Unread::File(name))),
        Err(FetchError::TooLong(_)) => Err(Outcome::Unread(Unread::TooLong(name))),
        Err(FetchError::Memory) => Err(Outcome::NoMemory),
    }
}

/// Fetches two files, one after the other, or says how the command ends.
pub fn fetch_two<'a, D: Desk>(
    alloc: Global,
    first: &'a str,
    second: &'a str,
    desk: &mut D,
) -> Result<(Vec<u8>, Vec<u8>), Outcome<'a>>
    ensures ends { TwoFetched first.now second.now (D.view desk.old) (D.view desk.new) result }
    ensures later { D.faults desk.old ≤ D.faults desk.new }
    ensures cause { IfErr result (λ outcome. IsFault outcome → Rose (D.faults desk.old) (D.faults desk.new)) }
{
    let first_bytes = or_fail!(fetch(alloc, first, desk));
    let second_bytes = or_fail!(fetch(alloc, second, desk));
    Ok((first_bytes, second_bytes))
}

/// Has a sink take the bytes of a file and then fetches another, or says how the command ends.
pub fn pour_and_fetch<'a, D: Desk, S: Sink>(
    alloc: Global,
    first: &'a str,
    sink: S,
    second: &'a str,
    desk: &mut D,
) -> Result<(S, Vec<u8>), Outcome<'a>>
    requires { HasSome S.has sink }
    ensures ends { PouredAndFetched S.has first.now second.now sink (D.view desk.old) (D.view desk.new) result }
    ensures later { D.faults desk.old ≤ D.faults desk.new }
    ensures cause { IfErr result (λ outcome. IsFault outcome → Rose (D.faults desk.old) (D.faults desk.new)) }
{
    let full = or_fail!(pour(alloc, first, sink, desk));
    let bytes = or_fail!(fetch(alloc, second, desk));
    Ok((full, bytes))
}

/// Says a line.
pub fn say<'a, D: Desk>(line: &[u8], desk: &mut D) -> Outcome<'a>
    ensures ends { PutsEnd [] line.now (D.view desk.old) (D.view desk.new) result }
    ensures later { D.faults desk.old ≤ D.faults desk.new }
    ensures cause { IsFault result → Rose (D.faults desk.old) (D.faults desk.new) }
{
    match desk.say(line) {
        Ok(()) => Outcome::Done,
        Err(DeskError::Failed) => Outcome::Unwritten(Unwritten::Output),
        Err(DeskError::Memory) => Outcome::NoMemory,
    }
}

/// A file to put: its name, where its bytes come from, and who may read it.
#[derive(Clone, Copy)]
pub struct NewFile<'a, 'b> {
    pub name: &'a str,
    pub source: Source<'b>,
    pub readers: Readers,
}

/// A file that the desk has begun, with the command's name of it.
#[derive(Drop)]
pub struct Begun<'a, B: BegunFile + Drop> {
    pub name: &'a str,
    pub file: B,
    ghost named: { B.name file ≡ name.now },
}

impl<B: BegunFile + Drop> Begun<'_, B> {
    /// Appends the bytes that are still to come.
    pub fn append<P: Pieces>(&mut self, pieces: &mut P)
        requires { P.ready pieces.old }
        ensures name { self.new.name.now ≡ self.old.name.now }
        ensures has { (bytes : List ℕ) → B.has self.old.file bytes → B.has self.new.file (bytes ++ P.rest pieces.old) }
        ensures remembers { B.failed self.old.file ≡ true → B.failed self.new.file ≡ true }
    {
        self.file.append(pieces);
    }

    /// Appends the bytes of a source.
    pub fn append_source<R: Threads + Sync>(&mut self, rt: &R, alloc: Global, source: Source<'_>)
        ensures name { self.new.name.now ≡ self.old.name.now }
        ensures has { (bytes : List ℕ) → B.has self.old.file bytes → B.has self.new.file (bytes ++ source_bytes source.entry) }
        ensures remembers { B.failed self.old.file ≡ true → B.failed self.new.file ≡ true }
    {
        match source {
            Source::Bytes(rest) => self.append(&mut Slice { rest }),
            Source::Transcript(transcript) => {
                let mut pieces = TranscriptPieces {
                    text: TextPieces::new(rt, alloc, transcript),
                };
                self.append(&mut pieces);
            }
            Source::Words(words) => self.append(&mut WordsPieces {
                alloc,
                words,
                stage: WordsStage::Head,
            }),
        }
    }

    /// Has all its bytes on the disk. Whether that failed, or something before it.
    fn fails_to_flush(&mut self) -> bool
        ensures name { self.new.name.now ≡ self.old.name.now }
        ensures has { (bytes : List ℕ) → B.has self.old.file bytes → B.has self.new.file bytes }
        ensures remembers { B.failed self.old.file ≡ true → B.failed self.new.file ≡ true }
        ensures fails { result ≡ B.failed self.new.file }
    {
        self.file.flush().is_err()
    }
}

/// A file that the desk has begun, and where the bytes that it still lacks come from.
#[derive(Drop)]
pub struct PendingFile<'a, 'b, B: BegunFile + Drop> {
    pub begun: Begun<'a, B>,
    pub source: Source<'b>,
}

/// Begins a file for a command.
pub fn begin<'a, B: BegunFile + Drop, D: Desk<Begun = B>>(
    name: &'a str,
    readers: Readers,
    desk: &mut D,
) -> Result<Begun<'a, B>, AllocError>
    ensures same_view { D.view desk.new ≡ D.view desk.old }
    ensures same_faults { D.faults desk.new ≡ D.faults desk.old }
    ensures begun { IfOk result (λ begun. (begun.name.now ≡ name.now) × B.has begun.file []) }
{
    let file = desk.begin(name, readers)?;
    Ok(Begun { name, file })
}

/// Commits a file, or says how the command ends.
pub fn commit<'a, B: BegunFile + Drop, D: Desk<Begun = B>>(
    begun: Begun<'a, B>,
    desk: &mut D,
) -> Result<(), Outcome<'a>>
    ensures ends { Committed (B.has begun.entry.file) (B.failed begun.entry.file) begun.entry.name.now (D.view desk.old) (D.view desk.new) result }
    ensures later { D.faults desk.old ≤ D.faults desk.new }
    ensures cause { IfErr result (λ outcome. IsFault outcome → Rose (D.faults desk.old) (D.faults desk.new)) }
{
    let Begun { name, file } = begun;
    match desk.commit(file) {
        Ok(()) => Ok(()),
        Err(DeskError::Failed) => Err(Outcome::Unwritten(Unwritten::File(name))),
        Err(DeskError::Memory) => Err(Outcome::NoMemory),
    }
}

/// Says that a file that has failed can't be written.
pub fn commit_failed<'a, B: BegunFile + Drop, D: Desk<Begun = B>>(
    begun: Begun<'a, B>,
    desk: &mut D,
) -> Outcome<'a>
    requires { B.failed begun.file ≡ true }
    ensures ends { (names : List (List ℕ)) → IsAmong begun.entry.name.now names → Unwritable names (D.view desk.old) (D.view desk.new) result }
    ensures later { D.faults desk.old ≤ D.faults desk.new }
    ensures cause { IsFault result → Rose (D.faults desk.old) (D.faults desk.new) }
{
    match commit(begun, desk) {
        Ok(()) => unreachable!(),
        Err(outcome) => outcome,
    }
}

/// Commits a file and then says a line.
pub fn commit_one<'a, B: BegunFile + Drop, D: Desk<Begun = B>>(
    begun: Begun<'a, B>,
    line: &[u8],
    desk: &mut D,
) -> Outcome<'a>
    ensures ends { (bytes : List ℕ) → B.has begun.entry.file bytes → PutsEnd (putting begun.entry.name.now bytes ∷ []) line.now (D.view desk.old) (D.view desk.new) result }
    ensures later { D.faults desk.old ≤ D.faults desk.new }
    ensures cause { IsFault result → Rose (D.faults desk.old) (D.faults desk.new) }
{
    or_end!(commit(begun, desk));
    say(line, desk)
}

/// Appends the bytes that the second of two files lacks, commits both, one after the other, once both are on the disk, and then says a
/// line. Where either of them has failed, neither is committed. A first file that is a pipe is closed before the second gets its bytes.
pub fn commit_two<'a, R: Threads + Sync, B: BegunFile + Drop, D: Desk<Begun = B>>(
    rt: &R,
    alloc: Global,
    first: Begun<'a, B>,
    second: PendingFile<'a, '_, B>,
    line: &[u8],
    desk: &mut D,
) -> Outcome<'a>
    ensures ends { (one : List ℕ) → B.has first.entry.file one → B.has second.entry.begun.file []
        → PutsEnd (putting first.entry.name.now one ∷ putting second.entry.begun.name.now (source_bytes second.entry.source) ∷ []) line.now (D.view desk.old) (D.view desk.new) result }
    ensures neither { (B.failed first.entry.file ≡ true) ⊎ (B.failed second.entry.begun.file ≡ true)
        → Unwritable (first.entry.name.now ∷ second.entry.begun.name.now ∷ []) (D.view desk.old) (D.view desk.new) result }
    ensures later { D.faults desk.old ≤ D.faults desk.new }
    ensures cause { IsFault result → Rose (D.faults desk.old) (D.faults desk.new) }
{
    let mut front = first;
    let PendingFile {
        begun: mut back,
        source,
    } = second;
    if front.fails_to_flush() {
        return commit_failed(front, desk);
    }
    back.append_source(rt, alloc, source);
    if back.fails_to_flush() {
        return commit_failed(back, desk);
    }
    or_end!(commit(front, desk));
    commit_one(back, line, desk)
}

/// Commits two files, one after the other, and then says a line.
fn commit_then<'a, B: BegunFile + Drop, D: Desk<Begun = B>>(
    first: Begun<'a, B>,
    second: Begun<'a, B>,
    line: &[u8],
    desk: &mut D,
) -> Outcome<'a>
    ensures ends { (one two : List ℕ) → B.has first.entry.file one → B.has second.entry.file two
        → CommitsEnd (putting first.entry.name.now one ∷ putting second.entry.name.now two ∷ []) line.now (D.view desk.old) (D.view desk.new) result }
    ensures later { D.faults desk.old ≤ D.faults desk.new }
    ensures cause { IsFault result → Rose (D.faults desk.old) (D.faults desk.new) }
{
    or_end!(commit(first, desk));
    commit_one(second, line, desk)
}

/// Says which of two files has failed, the first one before the second, and can't be written.
pub fn first_of_two<'a, B: BegunFile + Drop, D: Desk<Begun = B>>(
    first: Begun<'a, B>,
    second: Begun<'a, B>,
    desk: &mut D,
) -> Outcome<'a>
    requires { (B.failed first.file || B.failed second.file) ≡ true }
    ensures ends { Unwritable (first.entry.name.now ∷ second.entry.name.now ∷ []) (D.view desk.old) (D.view desk.new) result }
    ensures later { D.faults desk.old ≤ D.faults desk.new }
    ensures cause { IsFault result → Rose (D.faults desk.old) (D.faults desk.new) }
{
    if first.file.has_failed() {
        commit_failed(first, desk)
    } else {
        commit_failed(second, desk)
    }
}

/// Three files that the desk has begun, in the order in which they are put.
#[derive(Drop)]
pub struct ThreeBegun<'a, B: BegunFile + Drop> {
    pub first: Begun<'a, B>,
    pub second: Begun<'a, B>,
    pub third: Begun<'a, B>,
}

impl<B: BegunFile + Drop> ThreeBegun<'_, B> {
    /// Whether one of them has failed.
    pub fn has_failed(&self) -> bool
        ensures { result ≡ (B.failed self.now.first.file || (B.failed self.now.second.file || B.failed self.now.third.file)) }
    {
        self.first.file.has_failed()
            || self.second.file.has_failed()
            || self.third.file.has_failed()
    }
}

/// Where the bytes of three new files come from.
#[derive(Clone, Copy)]
pub struct ThreeSources<'b> {
    pub first: Source<'b>,
    pub second: Source<'b>,
    pub third: Source<'b>,
}

/// Begins three files for a command.
pub fn begin_three<'a, B: BegunFile + Drop, D: Desk<Begun = B>>(
    first: &'a str,
    second: &'a str,
    third: &'a str,
    desk: &mut D,
) -> Result<ThreeBegun<'a, B>, AllocError>
    ensures same_view { D.view desk.new ≡ D.view desk.old }
    ensures same_faults { D.faults desk.new ≡ D.faults desk.old }
    ensures first { IfOk result (λ begun. (begun.first.name.now ≡ first.now) × B.has begun.first.file []) }
    ensures second { IfOk result (λ begun. (begun.second.name.now ≡ second.now) × B.has begun.second.file []) }
    ensures third { IfOk result (λ begun. (begun.third.name.now ≡ third.now) × B.has begun.third.file []) }
{
    Ok(ThreeBegun {
        first: begin(first, Readers::Any, desk)?,
        second: begin(second, Readers::Any, desk)?,
        third: begin(third, Readers::Any, desk)?,
    })
}

/// Says which of three files has failed, the first one before the others, and can't be written.
pub fn first_of_three<'a, B: BegunFile + Drop, D: Desk<Begun = B>>(
    begun: ThreeBegun<'a, B>,
    desk: &mut D,
) -> Outcome<'a>
    requires { (B.failed begun.first.file || (B.failed begun.second.file || B.failed begun.third.file)) ≡ true }
    ensures ends { Unwritable (begun.entry.first.name.now ∷ begun.entry.second.name.now ∷ begun.entry.third.name.now ∷ []) (D.view desk.old) (D.view desk.new) result }
    ensures later { D.faults desk.old ≤ D.faults desk.new }
    ensures cause { IsFault result → Rose (D.faults desk.old) (D.faults desk.new) }
{
    let ThreeBegun {
        first,
        second,
        third,
    } = begun;
    if first.file.has_failed() {
        commit_failed(first, desk)
    } else if second.file.has_failed() {
        commit_failed(second, desk)
    } else {
        commit_failed(third, desk)
    }
}

/// Appends the bytes of three sources to three files, commits these, one after the other, once all are on the disk, and then says a line.
/// Where one of them has failed, none is committed.
pub fn commit_three<'a, R: Threads + Sync, B: BegunFile + Drop, D: Desk<Begun = B>>(
    rt: &R,
    alloc: Global,
    begun: ThreeBegun<'a, B>,
    sources: ThreeSources<'_>,
    line: &[u8],
    desk: &mut D,
) -> Outcome<'a>
    ensures ends { B.has begun.entry.first.file [] → B.has begun.entry.second.file [] → B.has begun.entry.third.file []
        → PutsEnd (putting begun.entry.first.name.now (source_bytes sources.entry.first) ∷ putting begun.entry.second.name.now (source_bytes sources.entry.second) ∷ putting begun.entry.third.name.now (source_bytes sources.entry.third) ∷ [])
        line.now (D.view desk.old) (D.view desk.new) result }
    ensures later { D.faults desk.old ≤ D.faults desk.new }
    ensures cause { IsFault result → Rose (D.faults desk.old) (D.faults desk.new) }
{
    let ThreeBegun {
        first: mut front,
        second: mut middle,
        third: mut last,
    } = begun;
    front.append_source(rt, alloc, sources.first);
    if front.fails_to_flush() {
        return commit_failed(front, desk);
    }
    middle.append_source(rt, alloc, sources.second);
    if middle.fails_to_flush() {
        return commit_failed(middle, desk);
    }
    last.append_source(rt, alloc, sources.third);
    if last.fails_to_flush() {
        return commit_failed(last, desk);
    }
    or_end!(commit(front, desk));
    commit_then(middle, last, line, desk)
}

/// Puts a file and then says a line.
pub fn put_one<'a, R: Threads + Sync, D: Desk>(
    rt: &R,
    alloc: Global,
    file: NewFile<'a, '_>,
    line: &[u8],
    desk: &mut D,
) -> Outcome<'a>
    ensures ends { PutsEnd (putting file.entry.name.now (source_bytes file.entry.source) ∷ []) line.now (D.view desk.old) (D.view desk.new) result }
    ensures later { D.faults desk.old ≤ D.faults desk.new }
    ensures cause { IsFault result → Rose (D.faults desk.old) (D.faults desk.new) }
{
    let Ok(mut begun) = begin(file.name, file.readers, desk) else {
        return Outcome::NoMemory;
    };
    begun.append_source(rt, alloc, file.source);
    commit_one(begun, line, desk)
}

/// Puts two files, or neither, and then says a line. Only where the second can't take its name, once the first has, the first alone
/// is put.
pub fn put_two<'a, R: Threads + Sync, D: Desk>(
    rt: &R,
    alloc: Global,
    first: NewFile<'a, '_>,
    second: NewFile<'a, '_>,
    line: &[u8],
    desk: &mut D,
) -> Outcome<'a>
    ensures ends { PutsEnd (putting first.entry.name.now (source_bytes first.entry.source) ∷ putting second.entry.name.now (source_bytes second.entry.source) ∷ []) line.now (D.view desk.old) (D.view desk.new) result }
    ensures later { D.faults desk.old ≤ D.faults desk.new }
    ensures cause { IsFault result → Rose (D.faults desk.old) (D.faults desk.new) }
{
    let Ok(mut one) = begin(first.name, first.readers, desk) else {
        return Outcome::NoMemory;
    };
    let Ok(begun) = begin(second.name, second.readers, desk) else {
        return Outcome::NoMemory;
    };
    one.append_source(rt, alloc, first.source);
    let two = PendingFile {
        begun,
        source: second.source,
    };
    commit_two(rt, alloc, one, two, line, desk)
}
