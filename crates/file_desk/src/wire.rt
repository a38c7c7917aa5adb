//! The wire over a stream of lines, standard output and a journal on the disk, of which it tells nothing.

ghost use Rattle.std.specs.Prelude.{◌≡◌, ◌<◌, ◌^◌, IfOk};

use crate::lines::LineReader;
use desk_outside::{Absent, Coming, Wire, WireError};
use std::alloc::{AllocError, Global};
use std::fs::{File, OpenOptions};
use std::io::{ErrorKind, Read, Write};
use std::path::{Path, PathBuf};
use std::rt::Files;
use std::{fs, io};

// A journal that is open and locked.
#[derive(Drop)]
struct OpenJournal {
    file: File,
    lines: LineReader<File>,
    // The folder of its name, until that is on the disk.
    folder: Option<File>,
    // Whether what it has behind what was recalled is to stay.
    is_whole: bool,
}

/// The wire over the lines of a stream, standard output, and a journal on the disk, which is locked from when it is opened until the
/// wire is let go. A journal is a regular file.
#[derive(Drop)]
pub struct FileWire<R, I> {
    rt: R,
    alloc: Global,
    input: LineReader<I>,
    journal: Option<OpenJournal>,
    faults: u64,
    ghost counted: { faults < 2 ^ 64 },
}

// The folder of a path, opened.
fn open_folder<R: Files<File = File>>(rt: &R, path: Path<'_>) -> io::Result<File> {
    match path.parent() {
        Some(folder) if !folder.as_str().is_empty() => fs::open(rt, folder),
        _ => fs::open(rt, "."),
    }
}

// Opens and locks a journal.
fn open_locked<R: Files<File = File>>(
    rt: &R,
    alloc: Global,
    name: &str,
    absent: Absent,
) -> io::Result<OpenJournal> {
    let mut options = OpenOptions::new();
    options
        .read(true)
        .append(true)
        .create(absent == Absent::Begun);
    let file = options.open(rt, name)?;
    if !file.metadata()?.is_file() || file.try_lock().is_err() {
        return Err(io::Error::from(ErrorKind::InvalidInput));
    }
    let path = PathBuf::from_str(alloc, name)?;
    let folder = open_folder(rt, path.as_path())?;
    let lines = LineReader::new(alloc, file.try_clone()?)?;
    Ok(OpenJournal {
        file,
        lines,
        folder: Some(folder),
        is_whole: false,
    })
}

impl OpenJournal {
    // Takes all bytes out of it.
    fn empty(&mut self, alloc: Global) -> io::Result<()> {
        self.file.set_len(0)?;
        self.lines.end(alloc);
        self.is_whole = true;
        Ok(())
    }

    // Cuts off what it has behind what was recalled.
    fn trim(&mut self, alloc: Global) -> io::Result<()> {
        if self.is_whole {
            return Ok(());
        }
        self.file.set_len(self.lines.passed())?;
        self.lines.end(alloc);
        self.is_whole = true;
        Ok(())
    }

    // Appends bytes.
    fn append(&mut self, alloc: Global, bytes: &[u8]) -> io::Result<()> {
        if !self.is_whole {
            self.lines.end(alloc);
            self.is_whole = true;
        }
        self.file.write_all(bytes)
    }

    // Has all that it has on the disk, and its name.
    fn flush(&mut self) -> io::Result<()> {
        let Some(folder) = &self.folder else {
            return self.file.sync_data();
        };
        self.file.sync_all()?;
        folder.sync_all()?;
        self.folder = None;
        Ok(())
    }
}

impl<R: AllocGlobal + Copy, I: Read + Drop> FileWire<R, I> {
    ghost use Rattle.file_desk.specs.Wires.{faults_of};

    /// A wire whose input is this stream, and that has opened no journal and counts no fault.
    pub fn new(rt: &R, input: I) -> Result<FileWire<R, I>, AllocError>
        ensures { IfOk result (λ wire. faults_of wire ≡ 0) }
    {
        let alloc = rt.alloc();
        Ok(FileWire {
            rt: *rt,
            alloc,
            input: LineReader::new(alloc, input)?,
            journal: None,
            faults: 0,
        })
    }
}

impl<R, I> FileWire<R, I> {
    ghost use Rattle.file_desk.specs.Wires.{faults_of, CountsFault, GivesOn};

    // The answer of a call, which is counted where it has failed.
    fn counted<T: Drop>(&mut self, done: io::Result<T>) -> Result<T, WireError>
        ensures counts { CountsFault (faults_of self.old) (faults_of self.new) result }
        ensures given { GivesOn done result }
    {
        match done {
            Ok(value) => Ok(value),
            Err(error) if error.kind() == ErrorKind::OutOfMemory => Err(WireError::Memory),
            Err(_) => {
                self.faults = self.faults.saturating_add(1);
                Err(WireError::Failed)
            }
        }
    }
}

#[tactic(auto, unfolding(desk_outside::specs::Wire::after_step))]
impl<R: Files<File = File> + Print + Copy, I: Read + Drop> Wire for FileWire<R, I> {
    ghost use Rattle.file_desk.specs.Wires.{view_of};

    ghost view = { view_of };

    fn open(
        &mut self,
        alloc: Global,
        name: &str,
        absent: Absent,
        most: usize,
    ) -> Result<Vec<u8>, WireError> {
        let front = match open_locked(&self.rt, self.alloc, name, absent) {
            Ok(mut journal) => {
                let front = journal.lines.front(alloc, most);
                self.journal = Some(journal);
                front
            }
            Err(error) => Err(error),
        };
        self.counted(front)
    }

    fn recall(&mut self, line: &mut Vec<u8>) -> Result<Coming, WireError> {
        let what = match &mut self.journal {
            Some(journal) => journal.lines.next(self.alloc, line),
            None => Err(io::Error::from(ErrorKind::NotFound)),
        };
        self.counted(what)
    }

    fn empty(&mut self) -> Result<(), WireError> {
        let done = match &mut self.journal {
            Some(journal) => journal.empty(self.alloc),
            None => Err(io::Error::from(ErrorKind::NotFound)),
        };
        self.counted(done)
    }

    fn trim(&mut self) -> Result<(), WireError> {
        let done = match &mut self.journal {
            Some(journal) => journal.trim(self.alloc),
            None => Err(io::Error::from(ErrorKind::NotFound)),
        };
        self.counted(done)
    }

    #[tactic(auto, using(crate::proofs::WireLemmas::appended))]
    fn append(&mut self, bytes: &[u8]) -> Result<(), WireError> {
        let done = match &mut self.journal {
            Some(journal) => journal.append(self.alloc, bytes),
            None => Err(io::Error::from(ErrorKind::NotFound)),
        };
        self.counted(done)
    }

    fn flush(&mut self) -> Result<(), WireError> {
        let done = match &mut self.journal {
            Some(journal) => journal.flush(),
            None => Err(io::Error::from(ErrorKind::NotFound)),
        };
        self.counted(done)
    }

    fn hear(&mut self, line: &mut Vec<u8>) -> Result<Coming, WireError> {
        let what = self.input.next(self.alloc, line);
        self.counted(what)
    }

    #[tactic(auto, using(crate::proofs::WireLemmas::said))]
    fn say(&mut self, bytes: &[u8]) -> Result<(), WireError> {
        let done = Print::write_all(&self.rt, bytes);
        self.counted(done)
    }
}
