//! The entries of a text, read one after another.

ghost use Rattle.std.specs.Prelude.{◌≡◌, All, IfOk};
ghost use Rattle.transcript_text.specs.Ahead.{IsPieceOf, SkipEnds};
ghost use Rattle.transcript_text.specs.Reading.{in_line};
ghost use Rattle.transcript_text.specs.Readers.{Begins, NextEnds, IsTextOfWhatIsRead, over};

use crate::fault::{BodyLine, ReadError, RowFault};
use crate::head::read_head;
use crate::piece::{Piece, pieces};
use crate::rows::row;
use crate::version::Version;
use event_schedule::Entry;
use field_texts::cut_far;
use group_plan::Plan;
use std::alloc::{AllocError, Global};
use std::marker::Model;
use std::thread::Threads;

/// The number of a line that no text has.
const MOST_LINES: u64 = 1 << 62;

/// A text of which the head is read, and some of the entries.
#[derive(Drop)]
pub struct EntryReader<'a> {
    version: Version,
    plan: Plan,
    /// The number of the next line.
    line: u64,
    /// The tick of the last entry that is read, 0 before the first.
    last: u32,
    /// How many entries are read.
    count: u64,
    /// The text from the next line on.
    rest: &'a [u8],
}

impl<'a> Model for EntryReader<'a> {
    ghost use Rattle.std.specs.Prelude.{◌<◌, ◌≤◌, ◌+◌, ◌-◌, ◌^◌, length};
    ghost use Rattle.field_texts.specs.Parts.{parts};
    ghost use Rattle.transcript_text.specs.Reading.{entries_from};
    ghost use Rattle.transcript_text.specs.ReadBack.{HasHead};
    ghost use Rattle.transcript_text.specs.Readers.{ReaderView};

    ghost Value = { ReaderView };

    ghost view = { λ r. record { version = r.version; plan = r.plan; line = r.line; last = r.last; count = r.count; left = entries_from r.version r.plan r.line r.last r.count (parts 10 r.rest.now); text = r.rest.now; bytes = length r.rest.now } };

    ghost invariant = { λ r. (r.line + length r.rest.now < 2 ^ 64 - 1) × (r.count ≤ r.line) × HasHead r.version r.plan };
}

/// The fault of a row, as one of line `n`.
fn in_line(n: u64, fault: RowFault) -> ReadError
    ensures { result ≡ in_line n fault }
{
    match fault {
        RowFault::Form => ReadError::Line(n),
        RowFault::Field(k) => ReadError::Field(n, k),
    }
}

impl<'a> EntryReader<'a> {
    /// Reads the head of a text.
    #[tactic(auto, using(crate::proofs::ReaderLemmas::text_is))]
    pub fn new(
        alloc: Global,
        version: Version,
        bytes: &'a [u8],
    ) -> Result<EntryReader<'a>, ReadError>
        ensures begins { Begins version bytes.now result }
        ensures text { IsTextOfWhatIsRead version bytes.now }
    {
        let head = match read_head(alloc, version, bytes) {
            Ok(head) => head,
            Err(fault) => return Err(fault),
        };
        Ok(EntryReader {
            version,
            plan: head.plan,
            line: head.line,
            last: 0,
            count: 0,
            rest: head.rest,
        })
    }

    /// A reader that has read as much, over another text from the next line on. Want of memory stands for more than 2^62 lines.
    pub(crate) fn over<'b>(self, text: &'b [u8]) -> Result<EntryReader<'b>, AllocError>
        ensures { IfOk result (λ reader. reader ≡ over self.entry text.now) }
    {
        if self.line > MOST_LINES {
            return Err(AllocError);
        }
        Ok(EntryReader {
            version: self.version,
            plan: self.plan,
            line: self.line,
            last: self.last,
            count: self.count,
            rest: text,
        })
    }

    /// The plan of the head.
    pub fn plan(&self) -> &Plan
        ensures { result.now ≡ self.now.plan }
    {
        &self.plan
    }

    /// The number of the next line, counted from 1.
    pub fn line(&self) -> u64
        ensures { result ≡ self.now.line }
    {
        self.line
    }

    /// The text from the next line on.
    pub(crate) fn text(&self) -> &'a [u8]
        ensures { result.now ≡ self.now.text }
    {
        self.rest
    }

    /// How many bytes are left to read.
    pub fn bytes_left(&self) -> usize
        ensures { result ≡ self.now.bytes }
    {
        self.rest.len()
    }

    /// Reads the next entry. There is none where the next line is the last, as it has to be.
    pub fn next(&mut self) -> Result<Option<Entry>, ReadError>
        ensures { NextEnds self.old result self.new }
    {
        let _groups = self.plan.groups();
        let Some((line, after)) = cut_far(b'\n', self.rest) else {
            return Err(ReadError::NoEnd(self.line));
        };
        match row(self.version, &self.plan, self.last, line) {
            Ok(BodyLine::Entry(entry)) => {
                self.line += 1;
                self.last = entry.tick;
                self.count += 1;
                self.rest = after;
                Ok(Some(entry))
            }
            Ok(BodyLine::Last(count)) => {
                if count != self.count {
                    return Err(ReadError::Count(self.line));
                }
                if !after.is_empty() {
                    return Err(ReadError::After(self.line + 1));
                }
                Ok(None)
            }
            Err(fault) => Err(in_line(self.line, fault)),
        }
    }

    /// The first pieces of the text that is left, where each has so many bytes, read side by side.
    pub(crate) fn pieces(
        &self,
        rt: &(impl Threads + Sync),
        alloc: Global,
        size: usize,
    ) -> Result<Vec<Piece>, AllocError>
        ensures { IfOk result (λ ps. All (IsPieceOf self.now.version self.now.plan self.now.text) ps.items) }
    {
        pieces(rt, alloc, self.version, &self.plan, self.rest, size)
    }

    /// Goes on behind the entries of a piece, where they come next.
    pub(crate) fn skip(&mut self, piece: &Piece) -> bool
        requires { IsPieceOf self.old.version self.old.plan self.old.text piece.now }
        ensures { SkipEnds self.old piece.now result self.new }
    {
        let _groups = self.plan.groups();
        let Some(first) = piece.entries.first() else {
            return false;
        };
        if piece.from != self.rest.len() || first.tick < self.last {
            return false;
        }
        let entries = piece.entries.len() as u64;
        self.line += entries;
        self.last = piece.last;
        self.count += entries;
        self.rest = &self.rest[self.rest.len() - piece.until..];
        true
    }
}
