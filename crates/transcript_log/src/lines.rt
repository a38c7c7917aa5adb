//! A list of lines that is kept small: 12 bytes a line, and 12 more where it has a set of meters or a word, beside the sets.

ghost use Rattle.std.specs.Prelude.{◌≡◌, ◌^◌, ◌+◌, ◌-◌, ◌<◌, ◌≤◌, ◌++◌, [], ◌∷◌, IfOk, OnOk, OnErr, All, take, drop, length, slice_index_or};
ghost use Rattle.event_schedule.specs.declared.Line.{Line};
ghost use Rattle.transcript_log.specs.Extras.{Grows};
ghost use Rattle.transcript_log.specs.Kinds.{is_sending, is_taking};
ghost use Rattle.transcript_log.specs.Lines.{HasOwnTag};
ghost use Rattle.transcript_log.specs.SmallLines.{StandsAt};
ghost use Rattle.event_schedule.specs.Transcripts.{IsLine};

use crate::extras::{Extra, Extras};
use crate::small::{
    SmallLine, extra_of, is_sending, is_taking, line_in, moved, named_in, small_line,
};
use crate::transcript::line_is;
use event_schedule::Line;
use std::alloc::{AllocError, Global};
use std::marker::Model;

/// A list of lines. The sets of meters and the words that some of them have stand in a list of their own.
#[derive(Drop)]
pub struct Lines {
    lines: Vec<SmallLine>,
    extras: Extras,
}

impl Model for Lines {
    ghost use Rattle.std.specs.Prelude.{◌-◌, min, map, vec_len, vec_capacity};
    ghost use Rattle.transcript_log.specs.Lines.{LinesView};
    ghost use Rattle.transcript_log.specs.SmallLines.{line_in, AreKept};

    ghost Value = { LinesView };

    ghost view = { λ l. record { items = map (line_in l.extras.items) l.lines.items; spare = min (vec_capacity l.lines - vec_len l.lines) l.extras.spare } };

    ghost invariant = { λ l. AreKept l.extras.items l.lines.items };
}

/// Adds the extra of a line, where it has one. The place is that of the extra, and any place where the line has none.
fn add_extra(extras: &mut Extras, extra: Option<Extra>) -> u32
    requires { 0 < extras.old.spare }
    ensures place { StandsAt extras.new.items result extra }
    ensures items { Grows extras.old.items extras.new.items }
    ensures spare { extras.old.spare ≤ extras.new.spare + 1 }
{
    let at = extras.len();
    if let Some(extra) = extra {
        extras.push_reserved(extra);
    }
    at
}

impl Lines {
    /// No line.
    pub fn new(alloc: Global) -> Lines
        ensures { result.items ≡ [] }
    {
        Lines {
            lines: Vec::new(alloc),
            extras: Extras::new(alloc),
        }
    }

    /// No line, with memory for about so many. `reserve` is for those who need to know that there is room.
    pub fn with_room(alloc: Global, lines: usize) -> Result<Lines, AllocError>
        ensures { IfOk result (λ made. made.items ≡ []) }
    {
        Ok(Lines {
            lines: Vec::with_capacity(alloc, lines)?,
            extras: Extras::new(alloc),
        })
    }

    /// Makes room for so many lines. Those with a set or a word are at most 2^32 - 1; `AllocError` where these may be more.
    pub fn reserve(&mut self, lines: u64) -> Result<(), AllocError>
        ensures room { OnOk result (lines ≤ self.new.spare) }
        ensures items { self.new.items ≡ self.old.items }
        ensures spare { self.old.spare ≤ self.new.spare }
    {
        let lines = lines as usize;
        self.extras.reserve(lines)?;
        self.lines.reserve(lines)
    }

    /// How many lines there are.
    pub fn len(&self) -> usize
        ensures len { result ≡ length self.now.items }
        ensures few { result < 2 ^ 63 }
    {
        self.lines.as_slice().len()
    }

    /// What the types of their parts say of all lines.
    pub(crate) fn are_lines(&self)
        ensures { All IsLine self.now.items }
    {
        let _lines = self.lines.len();
    }

    /// For how many more lines there is room.
    pub fn spare(&self) -> u64
        ensures { result ≡ self.now.spare }
    {
        let lines = self.lines.capacity() - self.lines.len();
        lines.min(self.extras.spare()) as u64
    }

    /// The line at a place, counted from 0.
    pub fn at(&self, at: usize) -> Line
        requires { at < length self.now.items }
        ensures { result ≡ slice_index_or self.now.items at result }
    {
        line_in(&self.extras, &self.lines[at])
    }

    /// Whether the line at a place is a Send with a frame.
    pub fn is_sending(&self, at: usize) -> bool
        requires { at < length self.now.items }
        ensures { (line : Line) → result ≡ is_sending (slice_index_or self.now.items at line) }
    {
        is_sending(&self.lines[at])
    }

    /// Whether the line at a place is a Take.
    pub fn is_taking(&self, at: usize) -> bool
        requires { at < length self.now.items }
        ensures { (line : Line) → result ≡ is_taking (slice_index_or self.now.items at line) }
    {
        is_taking(&self.lines[at])
    }

    /// Adds a line where there is room for it.
    pub fn push_reserved(&mut self, line: &Line)
        requires room { 0 < self.old.spare }
        requires own { HasOwnTag line.now }
        ensures items { self.new.items ≡ self.old.items ++ line.now ∷ [] }
        ensures spare { self.old.spare ≤ self.new.spare + 1 }
    {
        line_is(line);
        let at = add_extra(&mut self.extras, extra_of(line));
        self.lines.push_reserved(small_line(line, at));
    }

    /// Adds a line.
    pub fn push(&mut self, line: &Line) -> Result<(), AllocError>
        requires { HasOwnTag line.now }
        ensures ok { OnOk result (self.new.items ≡ self.old.items ++ line.now ∷ []) }
        ensures err { OnErr result (self.new.items ≡ self.old.items) }
    {
        self.reserve(1)?;
        self.push_reserved(line);
        Ok(())
    }

    /// Adds the line at a place of another list where there is room for it.
    fn push_from(&mut self, others: &Lines, at: usize)
        requires room { 0 < self.old.spare }
        requires within { at < length others.now.items }
        ensures items { (line : Line) → self.new.items ≡ self.old.items ++ slice_index_or others.now.items at line ∷ [] }
        ensures spare { self.old.spare ≤ self.new.spare + 1 }
    {
        let line = &others.lines[at];
        let place = add_extra(&mut self.extras, named_in(&others.extras, line));
        self.lines.push_reserved(moved(line, place));
    }

    /// Adds some lines of another list, in their order: those from a place on, up to another.
    pub fn append_part(&mut self, others: &Lines, from: usize, to: usize) -> Result<(), AllocError>
        requires order { from ≤ to }
        requires within { to ≤ length others.now.items }
        ensures ok { OnOk result (self.new.items ≡ self.old.items ++ take (to - from) (drop from others.now.items)) }
        ensures err { OnErr result (self.new.items ≡ self.old.items) }
    {
        self.reserve((to - from) as u64)?;
        for at in from..to {
            self.push_from(others, at);
        }
        Ok(())
    }

    /// Forgets all lines, and keeps their memory for others.
    pub fn clear(&mut self)
        ensures { self.new.items ≡ [] }
    {
        self.lines.clear();
        self.extras.clear();
    }

    /// The lines from a place on, in a list of their own.
    pub fn tail(&self, from: usize) -> Result<Lines, AllocError>
        requires { from ≤ length self.now.items }
        ensures { IfOk result (λ tail. tail.items ≡ drop from self.now.items) }
    {
        let mut tail = Lines::new(*self.lines.allocator());
        tail.append_part(self, from, self.len())?;
        Ok(tail)
    }

    /// The same lines. For how many more there is room is not said.
    pub fn try_copy(&self) -> Result<Lines, AllocError>
        ensures { IfOk result (λ copy. copy.items ≡ self.now.items) }
    {
        Ok(Lines {
            lines: self.lines.clone()?,
            extras: self.extras.try_copy()?,
        })
    }
}
