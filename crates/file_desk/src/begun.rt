//! Files that a desk over files has begun.

ghost use Rattle.std.specs.Prelude.{◌≡◌, true, false, OnOk, OnErr, string_bytes, ⊤};

use crate::parts::Part;
use crate::writing::Tail;
use desk_outside::{BegunFile, DeskError, Pieces};
use std::alloc::Global;
use std::fs::{File, OpenOptions};
use std::io;
use std::io::{ErrorKind, Write};
use std::rt::Files;
use std::sync::Wait;

/// Where the bytes of a begun file go.
#[derive(Drop)]
pub(crate) enum Target<R: Files<File = File> + Copy> {
    /// Nowhere: the name can't be written.
    Nowhere,
    /// To a part, which will take a path.
    Beside(Part<R>, Tail),
    /// Into what the name leads to, once that is opened.
    AsItIs(Option<File>),
    /// Into standard output.
    Output,
}

/// A file that a desk over files has begun.
#[derive(Drop)]
pub struct BegunOnDisk<R: Files<File = File> + Copy> {
    pub(crate) rt: R,
    pub(crate) alloc: Global,
    pub(crate) name: String,
    pub(crate) place: Target<R>,
    /// What has failed.
    pub(crate) error: Option<DeskError>,
    /// Whether nothing was appended after the last flush.
    pub(crate) is_flushed: bool,
    /// Whether its name is to hold nothing until it is committed.
    pub(crate) is_new: bool,
}

impl<R: Files<File = File> + Print + Wait + Copy> BegunOnDisk<R> {
    ghost use Rattle.file_desk.specs.Files.{begun_name, has_failed};

    // Remembers that something has failed. What is written as it is can't be taken back, so want of memory is a fault there.
    fn remember(&mut self, done: io::Result<()>) -> Result<(), DeskError>
        ensures name { begun_name self.new ≡ begun_name self.old }
        ensures ok { OnOk done (self.new.error ≡ self.old.error) }
        ensures err { OnErr done (has_failed self.new ≡ true) }
        ensures ok_result { OnOk result (self.new.error ≡ self.old.error) }
        ensures err_result { OnErr result (has_failed self.new ≡ true) }
    {
        let Err(error) = done else {
            return Ok(());
        };
        let error = match self.place {
            Target::AsItIs(_) | Target::Output => DeskError::Failed,
            Target::Nowhere | Target::Beside(_, _) => put_error(error),
        };
        self.error = Some(error);
        Err(error)
    }

    // Writes a piece, or keeps it until there are more.
    fn push(&mut self, piece: Vec<u8>) -> io::Result<()>
        ensures name { begun_name self.new ≡ begun_name self.old }
        ensures error { self.new.error ≡ self.old.error }
    {
        match &mut self.place {
            Target::Nowhere => Ok(()),
            Target::Beside(part, tail) => tail.push(&self.rt, &mut part.handle, piece),
            Target::AsItIs(open) => opened(&self.rt, &self.name, open)?.write_all(&piece),
            Target::Output => Print::write_all(&self.rt, &piece),
        }
    }

    // Takes the pieces that are still to come.
    fn push_all<P: Pieces>(&mut self, pieces: &mut P) -> io::Result<()>
        requires { P.ready pieces.old }
        ensures name { begun_name self.new ≡ begun_name self.old }
        ensures error { self.new.error ≡ self.old.error }
    {
        loop {
            let mut piece = Vec::new(self.alloc);
            pieces.next(&mut piece)?;
            if piece.is_empty() {
                return Ok(());
            }
            self.push(piece)?;
        }
    }

    // Has all pieces where they go. What was written as it is is closed, so that a reader comes to its end.
    fn settle(&mut self) -> io::Result<()>
        ensures name { begun_name self.new ≡ begun_name self.old }
        ensures error { self.new.error ≡ self.old.error }
    {
        match &mut self.place {
            Target::Nowhere | Target::Output => Ok(()),
            Target::Beside(part, tail) => tail.flush(&self.rt, &mut part.handle),
            Target::AsItIs(open) => {
                let _ = opened(&self.rt, &self.name, open)?;
                *open = None;
                Ok(())
            }
        }
    }
}

impl<R: Files<File = File> + Print + Wait + Copy> BegunFile for BegunOnDisk<R> {
    ghost use Rattle.file_desk.specs.Files.{begun_name, has_failed};

    ghost name = { begun_name };

    ghost has = { λ _ _. ⊤ };

    ghost failed = { has_failed };

    fn append<P: Pieces>(&mut self, pieces: &mut P) {
        if self.error.is_some() {
            return;
        }
        self.is_flushed = false;
        let pushed = self.push_all(pieces);
        let _ = self.remember(pushed);
    }

    fn flush(&mut self) -> Result<(), DeskError> {
        if let Some(error) = self.error {
            return Err(error);
        }
        if self.is_flushed {
            return Ok(());
        }
        self.is_flushed = true;
        let settled = self.settle();
        self.remember(settled)
    }

    fn has_failed(&self) -> bool {
        self.error.is_some()
    }
}

// What the name leads to, opened where it isn't yet.
fn opened<'o, R: Files<File = File>>(
    rt: &R,
    name: &str,
    open: &'o mut Option<File>,
) -> io::Result<&'o mut File> {
    if open.is_none() {
        *open = Some(OpenOptions::new().write(true).open(rt, name)?);
    }
    match open {
        Some(file) => Ok(file),
        None => Err(io::Error::from(ErrorKind::NotFound)),
    }
}

/// Why a put was not done.
pub(crate) fn put_error(error: io::Error) -> DeskError {
    match error.kind() {
        ErrorKind::OutOfMemory => DeskError::Memory,
        _ => DeskError::Failed,
    }
}
