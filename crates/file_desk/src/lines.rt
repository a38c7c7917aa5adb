//! Lines of a file or a stream, read as they come.

ghost use Rattle.std.specs.Prelude.{◌≤◌, ◌+◌, length, OnOk, IfOk};

use desk_outside::Coming;
use memchr::memchr;
use std::alloc::{AllocError, Global};
use std::io;
use std::io::{ErrorKind, Read};

// The most bytes of a line.
const MOST_LINE: usize = 4096;

// The most bytes that are read at once.
const BUFFER_BYTES: usize = 1 << 16;

/// Lines of a source. Few of its bytes are in memory at a time, whatever the lines.
#[derive(Drop)]
pub(crate) struct LineReader<I> {
    source: I,
    buffer: Vec<u8>,
    // Which bytes of the buffer were read of the source and belong to no line yet.
    from: usize,
    to: usize,
    // How many bytes were passed by, with the newlines.
    passed: u64,
    // The rest, once the source has ended.
    rest: Option<Vec<u8>>,
    ghost ordered: { from ≤ to },
    ghost within: { to ≤ length buffer.items },
}

// Adds the bytes to a line, as many as it may still have.
fn keep(line: &mut Vec<u8>, bytes: &[u8]) -> Result<(), AllocError> {
    let room = MOST_LINE.saturating_sub(line.len());
    line.extend_from_slice(&bytes[..bytes.len().min(room)])
}

// Tells the rest again.
fn tell_rest(line: &mut Vec<u8>, rest: &[u8]) -> Result<Coming, AllocError> {
    line.extend_from_slice(rest)?;
    Ok(if rest.is_empty() {
        Coming::End
    } else {
        Coming::Rest
    })
}

impl<I: Read + Drop> LineReader<I> {
    /// The lines of a source.
    pub(crate) fn new(alloc: Global, source: I) -> Result<LineReader<I>, AllocError> {
        Ok(LineReader {
            source,
            buffer: vec![in alloc; 0; BUFFER_BYTES]?,
            from: 0,
            to: 0,
            passed: 0,
            rest: None,
        })
    }

    /// How many bytes were passed by.
    pub(crate) fn passed(&self) -> u64 {
        self.passed
    }

    // Reads the next bytes of the source into the empty buffer; whether there were any.
    fn fill(&mut self) -> io::Result<bool> {
        for _ in 0..u64::MAX {
            match self.source.read(&mut self.buffer) {
                Ok(got) => {
                    self.from = 0;
                    self.to = got;
                    return Ok(got > 0);
                }
                Err(error) if error.kind() == ErrorKind::Interrupted => {}
                Err(error) => return Err(error),
            }
        }
        Ok(false)
    }

    // Passes so many bytes of the buffer by.
    fn pass(&mut self, count: usize)
        requires { self.old.from + count ≤ self.old.to }
    {
        self.from += count;
        self.passed = self.passed.saturating_add(count as u64);
    }

    // Takes the next bytes of the source, until there are so many.
    fn take_front(&mut self, front: &mut Vec<u8>, most: usize) -> io::Result<()> {
        for _ in 0..u64::MAX {
            let room = most.saturating_sub(front.len());
            if room == 0 || self.from == self.to && !self.fill()? {
                return Ok(());
            }
            let count = (self.to - self.from).min(room);
            front.extend_from_slice(&self.buffer[self.from..self.from + count])?;
            self.pass(count);
        }
        Ok(())
    }

    /// The first bytes of the source, at most so many, which are passed by.
    pub(crate) fn front(&mut self, alloc: Global, most: usize) -> io::Result<Vec<u8>>
        ensures { IfOk result (λ front. length front.items ≤ most) }
    {
        let mut front = Vec::new(alloc);
        self.take_front(&mut front, most)?;
        front.truncate(most);
        Ok(front)
    }

    // Takes what the buffer has of a line behind its first bytes, and tells whether the line ends there.
    fn take_part(&mut self, line: &mut Vec<u8>) -> Result<(usize, bool), AllocError> {
        let part = &self.buffer[self.from..self.to];
        let found = memchr(b'\n', part);
        let end = found.unwrap_or(part.len());
        keep(line, &part[..end])?;
        let is_end = found.is_some();
        self.pass(if is_end { end + 1 } else { end });
        Ok((end, is_end))
    }

    // Puts what comes next behind an empty line.
    fn take_line(&mut self, alloc: Global, line: &mut Vec<u8>) -> io::Result<Coming> {
        let before = self.passed;
        let mut length = 0u64;
        for _ in 0..u64::MAX {
            if self.from == self.to && !self.fill()? {
                self.passed = before;
                let rest = line.to_vec(alloc)?;
                let is_end = rest.is_empty();
                self.rest = Some(rest);
                return Ok(if is_end { Coming::End } else { Coming::Rest });
            }
            let (count, is_end) = self.take_part(line)?;
            length = length.saturating_add(count as u64);
            if is_end {
                let is_short = length <= MOST_LINE as u64;
                return Ok(if is_short {
                    Coming::Line
                } else {
                    Coming::TooLong
                });
            }
        }
        Ok(Coming::End)
    }

    /// Puts what comes next in place of what the line held, without its newline. A rest is not passed by.
    pub(crate) fn next(&mut self, alloc: Global, line: &mut Vec<u8>) -> io::Result<Coming>
        ensures { OnOk result (length line.new.items ≤ 4096) }
    {
        line.clear();
        let what = match &self.rest {
            Some(rest) => tell_rest(line, rest)?,
            None => self.take_line(alloc, line)?,
        };
        line.truncate(MOST_LINE);
        Ok(what)
    }

    /// Nothing more is read of the source.
    pub(crate) fn end(&mut self, alloc: Global) {
        self.rest = Some(Vec::new(alloc));
    }
}
