//! The desk over files and the standard streams, of which it tells nothing.

ghost use Rattle.std.specs.Prelude.{◌≡◌, ◌≤◌, ◌<◌, ◌^◌, string_bytes, false, OnOk, IsErrOf, ⊤};
ghost use Rattle.desk_outside.specs.Begun.{CommitEnds};
ghost use Rattle.desk_outside.specs.Sink.{HasSome};
ghost use Rattle.desk_outside.specs.Desk.{FetchEnds, PourEnds, SayEnds, ComplainEnds, Rose, one_more, untold};
ghost use Rattle.file_desk.specs.Pouring.{PoursAtMost};

use crate::begun::{BegunOnDisk, Target, put_error};
use crate::parts::{FileId, Part, part_name, take_name};
use crate::pouring::{fetch_error, pour_all};
use crate::writing::{Group, Tail, start_writer};
use crossbeam_channel::Sender;
use desk_outside::{BegunFile, Desk, DeskError, FetchError, Readers, Sink};
use std::alloc::{AllocError, Global};
use std::fs::{File, Metadata, OpenOptions, Permissions, TryLockError};
use std::io::{ErrorKind, Read};
use std::os::unix::fs::PermissionsExt;
use std::path::{Path, PathBuf};
use std::rt::Files;
use std::sync::Wait;
use std::thread::Threads;
use std::{fs, io, str};

// The name of standard output.
const OUTPUT: &str = "/dev/stdout";

// How many names of parts are tried.
const MOST_PARTS: u32 = 100;

// The bits of a mode that are the owner's.
const OWNER_BITS: u32 = 0o700;

// A path that a begun file will take: its folder, whatever the name that leads there, and the last name in it.
#[derive(Drop)]
struct BegunPath {
    folder: FileId,
    last: String,
    // The name for which the file was begun.
    name: String,
}

// A file that was put, and the name under which it was.
#[derive(Drop)]
struct PutFile {
    file: FileId,
    name: String,
}

/// The desk over files, standard output and standard error. A commit leaves a whole file: the new one, or where it failed
/// what was there. It fails on a file that this desk has fetched, by whatever name, on one that it has begun or put under another
/// name, on a journal that a wire has open, and on a link that leads nowhere. A name of no regular file, such as a pipe, is written as
/// it is, and so is the file that standard output goes to.
#[derive(Drop)]
pub struct FileDesk<R> {
    rt: R,
    alloc: Global,
    fetched: Vec<FileId>,
    // The same files, open, so that no file that is made later gets the number of one that is gone.
    held: Vec<File>,
    begun: Vec<BegunPath>,
    put: Vec<PutFile>,
    // The way to the thread that writes larger files, where there is one.
    writer: Option<Sender<Group>>,
    faults: u64,
    ghost counted: { faults < 2 ^ 64 },
}

impl<R: AllocGlobal + Threads + Wait + Copy + Send + 'static> FileDesk<R> {
    ghost use Rattle.file_desk.specs.Files.{faults_of};

    /// A desk that has fetched nothing and counts no fault.
    pub fn new(rt: &R) -> FileDesk<R>
        ensures { faults_of result ≡ 0 }
    {
        let alloc = rt.alloc();
        FileDesk {
            rt: *rt,
            alloc,
            fetched: Vec::new(alloc),
            held: Vec::new(alloc),
            begun: Vec::new(alloc),
            put: Vec::new(alloc),
            writer: start_writer(*rt, alloc),
            faults: 0,
        }
    }
}

impl<R: Files<File = File> + Print + Wait + Copy> FileDesk<R> {
    ghost use Rattle.file_desk.specs.Files.{faults_of, has_failed, begun_name, Counts};

    // Counts a fault.
    fn count_fault(&mut self)
        ensures { faults_of self.new ≡ one_more (faults_of self.old) }
    {
        self.faults = self.faults.saturating_add(1);
    }

    // Opens a file, which is one of those fetched from then on.
    fn open(&mut self, name: &str) -> io::Result<(File, Metadata)>
        ensures { faults_of self.new ≡ faults_of self.old }
    {
        let file = fs::open(&self.rt, name)?;
        let metadata = file.metadata()?;
        self.fetched.push(FileId::of(&metadata))?;
        Ok((file, metadata))
    }

    // The first bytes of a file, at most this many. The file is one of those fetched from then on.
    fn read_front(&mut self, alloc: Global, name: &str, most: u64) -> io::Result<Vec<u8>>
        ensures { faults_of self.new ≡ faults_of self.old }
    {
        let (file, metadata) = self.open(name)?;
        // Room for the whole file at once, so that its bytes need not be moved.
        let room = metadata.len().min(most).saturating_add(1);
        let mut bytes = Vec::with_capacity(alloc, room as usize)?;
        let mut front = file.take(most);
        front.read_to_end(&mut bytes)?;
        self.held.push(front.into_inner())?;
        Ok(bytes)
    }

    // Has a sink take the bytes of a file, of which there may be at most `most`. The file is one of those fetched from then on.
    #[tactic(auto, using(crate::proofs::Poured::unreadable_pours))]
    fn pour_file<S: Sink>(
        &mut self,
        alloc: Global,
        name: &str,
        most: u64,
        sink: S,
    ) -> Result<S, FetchError>
        requires { HasSome S.has sink }
        ensures poured { PoursAtMost S.has most sink result }
        ensures same_faults { faults_of self.new ≡ faults_of self.old }
    {
        let (file, _metadata) = self.open(name).map_err(fetch_error)?;
        let mut front = file.take(most.saturating_add(1));
        let poured = pour_all(alloc, &mut front, most, sink);
        if self.held.push(front.into_inner()).is_err() {
            return Err(FetchError::Memory);
        }
        poured
    }

    // Counts a put where it failed.
    fn counted(&mut self, put: Result<(), DeskError>) -> Result<(), DeskError>
        ensures same { result ≡ put }
        ensures count { Counts (faults_of self.old) (faults_of self.new) result }
    {
        if put == Err(DeskError::Failed) {
            self.count_fault();
        }
        put
    }

    // Whether standard output goes to this file.
    fn is_output(&self, file: FileId) -> bool {
        match fs::metadata(&self.rt, OUTPUT) {
            Ok(output) => FileId::of(&output) == file,
            Err(_) => false,
        }
    }

    // Whether the path is that of the file that standard output goes to.
    fn leads_to_output(&self, path: Path<'_>) -> bool {
        match fs::symlink_metadata(&self.rt, path) {
            Ok(found) => self.is_output(FileId::of(&found)),
            Err(_) => false,
        }
    }

    // Whether this file may not be put under a name: it was fetched, or it was put under another name.
    fn is_kept(&self, file: FileId, name: &str) -> bool {
        self.fetched.contains(&file)
            || self
                .put
                .iter()
                .any(|put| put.file == file && put.name.as_str() != name)
    }

    // Whether a file was begun for another name than this that leads to the path.
    fn is_begun(&self, folder: FileId, last: &str, name: &str) -> bool {
        self.begun.iter().any(|begun| {
            begun.folder == folder && begun.last.as_str() == last && begun.name.as_str() != name
        })
    }

    // Where the bytes go for a name that leads to this.
    fn place_over(
        &mut self,
        found: Metadata,
        name: &str,
        readers: Readers,
    ) -> Result<Target<R>, DeskError>
        ensures { faults_of self.new ≡ faults_of self.old }
    {
        let file = FileId::of(&found);
        if found.is_dir() || found.is_file() && self.is_kept(file, name) {
            return Err(DeskError::Failed);
        }
        if self.is_output(file) {
            return Ok(Target::Output);
        }
        // A pipe isn't opened ahead of its bytes, since that waits for its reader.
        if !found.is_file() {
            return Ok(Target::AsItIs(None));
        }
        let writable = OpenOptions::new()
            .write(true)
            .open(&self.rt, name)
            .map_err(put_error)?;
        // A journal that a program goes on by is locked, and stays.
        if let Err(TryLockError::WouldBlock) = writable.try_lock_shared() {
            return Err(DeskError::Failed);
        }
        let path = without_link(&self.rt, self.alloc, name).map_err(put_error)?;
        let mode = found.permissions().mode();
        let mode = match readers {
            Readers::Any => mode,
            Readers::Owner => mode & OWNER_BITS,
        };
        let permissions = Permissions::from_mode(mode);
        self.place_beside(path, name, 0o600, Some(permissions))
            .map_err(put_error)
    }

    // Where the bytes go for a name that leads nowhere.
    fn place_new(&mut self, name: &str, readers: Readers) -> Result<Target<R>, DeskError>
        ensures { faults_of self.new ≡ faults_of self.old }
    {
        if fs::symlink_metadata(&self.rt, name).is_ok() {
            return Err(DeskError::Failed);
        }
        let path = PathBuf::from_str(self.alloc, name)?;
        let mode = match readers {
            Readers::Any => 0o666,
            Readers::Owner => 0o600,
        };
        self.place_beside(path, name, mode, None).map_err(put_error)
    }

    // Where the bytes go for a name.
    fn place(&mut self, name: &str, readers: Readers) -> Result<Target<R>, DeskError>
        ensures { faults_of self.new ≡ faults_of self.old }
    {
        match fs::metadata(&self.rt, name) {
            Ok(found) => self.place_over(found, name, readers),
            Err(error) if error.kind() == ErrorKind::NotFound => self.place_new(name, readers),
            Err(error) => Err(put_error(error)),
        }
    }

    // A part beside a path, which nobody has begun under another name.
    fn place_beside(
        &mut self,
        path: PathBuf,
        name: &str,
        mode: u32,
        permissions: Option<Permissions>,
    ) -> io::Result<Target<R>>
        ensures { faults_of self.new ≡ faults_of self.old }
    {
        let last = String::from_str(self.alloc, path.file_name().unwrap_or(""))?;
        let folder = FileId::of(&folder_of(&self.rt, path.as_path())?);
        // A path that ends in a slash or a dot is none of a file.
        if last.is_empty()
            || !path.as_str().ends_with(last.as_str())
            || self.is_begun(folder, &last, name)
        {
            return Err(io::Error::from(ErrorKind::InvalidInput));
        }
        let part = self.part(path, folder, &last, mode)?;
        if let Some(permissions) = permissions {
            part.set_permissions(permissions)?;
        }
        let name = String::from_str(self.alloc, name)?;
        self.begun.push(BegunPath { folder, last, name })?;
        Ok(Target::Beside(part, Tail::new(self.alloc, &self.writer)))
    }

    // Makes a part of the path. Its name is the path's with `.part` behind it; where another command writes that, or it is a file
    // that may not be written over or that standard output goes to, a number follows. What a killed command left under the name is removed.
    fn part(&self, path: PathBuf, folder: FileId, last: &str, mode: u32) -> io::Result<Part<R>> {
        for number in 0..MOST_PARTS {
            let part = part_name(self.alloc, last, number)?;
            let beside = path.with_file_name(self.alloc, &part)?;
            if self.is_begun(folder, &part, "") || self.leads_to_output(beside.as_path()) {
                continue;
            }
            if let Some(handle) = take_name(&self.rt, beside.as_path(), mode, &self.fetched)? {
                return Ok(Part::new(self.rt, handle, beside, path));
            }
        }
        Err(io::Error::from(ErrorKind::AlreadyExists))
    }

    // Has a part in place of what its path names, unless that may not be written over, or is to be new.
    fn take_path(&mut self, part: Part<R>, name: String, is_new: bool) -> Result<(), DeskError>
        ensures { faults_of self.new ≡ faults_of self.old }
    {
        if part
            .found()
            .is_some_and(|found| is_new || self.is_kept(found, &name))
        {
            return Err(DeskError::Failed);
        }
        let file = part.id().map_err(put_error)?;
        if self.put.push(PutFile { file, name }).is_err() {
            return Err(DeskError::Memory);
        }
        part.take_path().map_err(put_error)
    }

    // Has the bytes of a file where they go, and puts it where nothing has failed.
    fn flush_and_put(&mut self, file: BegunOnDisk<R>) -> Result<(), DeskError>
        ensures whole { OnOk result (has_failed file ≡ false) }
        ensures same_faults { faults_of self.new ≡ faults_of self.old }
    {
        let mut file = file;
        file.flush()?;
        self.put_flushed(file)
    }

    // A file that is begun for a name, whose bytes go there or nowhere.
    fn begun_at(
        &self,
        name: String,
        place: Result<Target<R>, DeskError>,
        is_new: bool,
    ) -> BegunOnDisk<R>
        ensures { begun_name result ≡ string_bytes name }
    {
        let (place, error) = match place {
            Ok(place) => (place, None),
            Err(error) => (Target::Nowhere, Some(error)),
        };
        BegunOnDisk {
            rt: self.rt,
            alloc: self.alloc,
            name,
            place,
            error,
            is_flushed: false,
            is_new,
        }
    }

    // Puts a file whose bytes are where they go.
    fn put_flushed(&mut self, file: BegunOnDisk<R>) -> Result<(), DeskError>
        ensures { faults_of self.new ≡ faults_of self.old }
    {
        let BegunOnDisk {
            rt: _,
            alloc: _,
            name,
            place,
            error: _,
            is_flushed: _,
            is_new,
        } = file;
        match place {
            Target::Nowhere => Err(DeskError::Failed),
            Target::Beside(part, _tail) => self.take_path(part, name, is_new),
            Target::AsItIs(_) | Target::Output => Ok(()),
        }
    }
}

// The folder of a path.
fn folder_of<R: Files>(rt: &R, path: Path<'_>) -> io::Result<Metadata> {
    match path.parent() {
        Some(folder) if !folder.as_str().is_empty() => fs::metadata(rt, folder),
        _ => fs::metadata(rt, "."),
    }
}

// The path of the file that a name leads to: the name itself, or where it is a link the path without links.
fn without_link<R: Files>(rt: &R, alloc: Global, name: &str) -> io::Result<PathBuf> {
    if fs::symlink_metadata(rt, name)?.is_symlink() {
        rt.canonicalize(alloc, name)
    } else {
        Ok(PathBuf::from_str(alloc, name)?)
    }
}

#[tactic(auto, unfolding(desk_outside::specs::Desk::after_step))]
impl<R: Files<File = File> + Print + Eprint + Wait + Copy + Send> Desk for FileDesk<R> {
    type Begun = BegunOnDisk<R>;

    ghost use Rattle.file_desk.specs.Files.{faults_of, begun_name, has_failed, CountsFetch, Counts};

    ghost view = { λ _. untold };

    ghost faults = { faults_of };

    ghost counted = { λ d. d.counted };

    fn fetch(&mut self, alloc: Global, name: &str, most: u64) -> Result<Vec<u8>, FetchError>
        ensures ends { FetchEnds name.now most untold untold result }
        ensures later { faults_of self.old ≤ faults_of self.new }
        ensures cause { IsErrOf result FetchError.Failed
            → Rose (faults_of self.old) (faults_of self.new) }
        ensures count { CountsFetch (faults_of self.old) (faults_of self.new) result }
    {
        match self.read_front(alloc, name, most.saturating_add(1)) {
            Ok(bytes) if bytes.len() as u64 > most => Err(FetchError::TooLong(most + 1)),
            Ok(bytes) => Ok(bytes),
            Err(error) if error.kind() == ErrorKind::OutOfMemory => Err(FetchError::Memory),
            Err(_) => {
                self.count_fault();
                Err(FetchError::Failed)
            }
        }
    }

    fn pour<S: Sink>(
        &mut self,
        alloc: Global,
        name: &str,
        most: u64,
        sink: S,
    ) -> Result<S, FetchError>
        requires { HasSome S.has sink }
        ensures ends { PourEnds S.has name.now most untold untold sink result }
        ensures later { faults_of self.old ≤ faults_of self.new }
        ensures cause { IsErrOf result FetchError.Failed
            → Rose (faults_of self.old) (faults_of self.new) }
        ensures count { CountsFetch (faults_of self.old) (faults_of self.new) result }
    {
        let poured = self.pour_file(alloc, name, most, sink);
        if let Err(FetchError::Failed) = poured {
            self.count_fault();
        }
        poured
    }

    fn begin(&mut self, name: &str, readers: Readers) -> Result<BegunOnDisk<R>, AllocError> {
        let own = String::from_str(self.alloc, name)?;
        let place = self.place(name, readers);
        Ok(self.begun_at(own, place, false))
    }

    fn begin_new(&mut self, name: &str, readers: Readers) -> Result<BegunOnDisk<R>, AllocError> {
        let own = String::from_str(self.alloc, name)?;
        let place = self.place_new(name, readers);
        Ok(self.begun_at(own, place, true))
    }

    fn commit(&mut self, file: BegunOnDisk<R>) -> Result<(), DeskError>
        ensures ends { CommitEnds (λ _. ⊤) (has_failed file) (begun_name file) untold untold result }
        ensures later { faults_of self.old ≤ faults_of self.new }
        ensures cause { IsErrOf result DeskError.Failed
            → Rose (faults_of self.old) (faults_of self.new) }
        ensures count { Counts (faults_of self.old) (faults_of self.new) result }
    {
        let put = self.flush_and_put(file);
        self.counted(put)
    }

    fn say(&mut self, bytes: &[u8]) -> Result<(), DeskError>
        ensures ends { SayEnds bytes.now untold untold result }
        ensures later { faults_of self.old ≤ faults_of self.new }
        ensures cause { IsErrOf result DeskError.Failed
            → Rose (faults_of self.old) (faults_of self.new) }
        ensures count { Counts (faults_of self.old) (faults_of self.new) result }
    {
        match Print::write_all(&self.rt, bytes) {
            Ok(()) => Ok(()),
            Err(_) => {
                self.count_fault();
                Err(DeskError::Failed)
            }
        }
    }

    // Standard error takes text alone, so bytes that are no text are a fault.
    fn complain(&mut self, bytes: &[u8]) -> Result<(), DeskError>
        ensures ends { ComplainEnds bytes.now untold untold result }
        ensures later { faults_of self.old ≤ faults_of self.new }
        ensures cause { IsErrOf result DeskError.Failed
            → Rose (faults_of self.old) (faults_of self.new) }
        ensures count { Counts (faults_of self.old) (faults_of self.new) result }
    {
        let is_printed = match str::from_utf8(bytes) {
            Ok(text) => self.rt.eprint(text).is_ok(),
            Err(_) => false,
        };
        if is_printed {
            Ok(())
        } else {
            self.count_fault();
            Err(DeskError::Failed)
        }
    }
}
