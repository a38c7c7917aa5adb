//! Parts: new files beside the paths that they will take.

use std::alloc::{AllocError, Global};
use std::fs::{File, Metadata, OpenFile, OpenOptions, Permissions, TryLockError};
use std::io::ErrorKind;
use std::os::unix::fs::{MetadataExt, OpenOptionsExt};
use std::path::{Path, PathBuf};
use std::rt::Files;
use std::{fs, io};

/// A file, whatever the name that leads to it.
#[derive(Clone, Copy, PartialEq, Eq)]
pub(crate) struct FileId {
    device: u64,
    inode: u64,
}

impl FileId {
    /// The file that these metadata are of.
    pub(crate) fn of(metadata: &Metadata) -> FileId {
        FileId {
            device: metadata.dev(),
            inode: metadata.ino(),
        }
    }
}

/// A new file beside a path. It is locked while it is written, and removed where it is let go before it has taken the path.
pub(crate) struct Part<R: Files<File = File> + Copy> {
    rt: R,
    /// What it is written by.
    pub(crate) handle: File,
    beside: PathBuf,
    path: PathBuf,
}

impl<R: Files<File = File> + Copy> Drop for Part<R> {
    fn drop(self) {
        let Part {
            rt,
            handle: _handle,
            beside,
            path: _path,
        } = self;
        let _ = fs::remove_file(&rt, &beside);
    }
}

impl<R: Files<File = File> + Copy> Part<R> {
    /// The part of a path that is this new file beside it.
    pub(crate) fn new(rt: R, handle: File, beside: PathBuf, path: PathBuf) -> Part<R> {
        Part {
            rt,
            handle,
            beside,
            path,
        }
    }

    /// Gives the part these permissions.
    pub(crate) fn set_permissions(&self, permissions: Permissions) -> io::Result<()> {
        self.handle.set_permissions(permissions)
    }

    /// The file that the path names now.
    pub(crate) fn found(&self) -> Option<FileId> {
        match fs::symlink_metadata(&self.rt, &self.path) {
            Ok(found) => Some(FileId::of(&found)),
            Err(_) => None,
        }
    }

    /// The file that the part is.
    pub(crate) fn id(&self) -> io::Result<FileId> {
        Ok(FileId::of(&self.handle.metadata()?))
    }

    /// Has the part in place of what the path names. From then on another command may put the path as well, so the part is no longer
    /// this one's alone.
    pub(crate) fn take_path(self) -> io::Result<()> {
        let _ = self.handle.try_lock_shared();
        fs::rename(&self.rt, &self.beside, &self.path)?;
        let Part {
            rt: _rt,
            handle: _handle,
            beside: _beside,
            path: _path,
        } = self;
        Ok(())
    }
}

/// The name of a part of a file with this name: `.part` stands behind it, and a number from the second one on.
pub(crate) fn part_name(alloc: Global, name: &str, number: u32) -> Result<String, AllocError> {
    if number == 0 {
        format!(in alloc; "{name}.part")
    } else {
        format!(in alloc; "{name}.part{number}")
    }
}

// Whether the path names the file of this handle.
fn is_named<R: Files<File = File>>(rt: &R, path: Path<'_>, handle: &File) -> io::Result<bool> {
    let named = fs::symlink_metadata(rt, path)?;
    Ok(FileId::of(&named) == FileId::of(&handle.metadata()?))
}

// Makes a new file with this name, and locks it where the file system has locks. None where another command has taken it
// meanwhile.
fn make_locked<R: Files<File = File>>(
    rt: &R,
    path: Path<'_>,
    mode: u32,
) -> io::Result<Option<File>> {
    let mut options = OpenOptions::new();
    options.write(true).create_new(true).mode(mode);
    let handle = options.open(rt, path)?;
    if let Err(TryLockError::WouldBlock) = handle.try_lock() {
        return Ok(None);
    }
    Ok(
        is_named(rt, path, &handle)
            .unwrap_or(false)
            .then_some(handle),
    )
}

// Removes what a killed command left under this name: a regular file that nobody has locked, and that is none of those that are
// kept. Whether it did.
fn remove_left<R: Files<File = File>>(rt: &R, path: Path<'_>, kept: &[FileId]) -> io::Result<bool> {
    let found = fs::symlink_metadata(rt, path)?;
    if !found.is_file() || kept.contains(&FileId::of(&found)) {
        return Ok(false);
    }
    let handle = OpenOptions::new().write(true).open(rt, path)?;
    if handle.try_lock().is_err() || !is_named(rt, path, &handle)? {
        return Ok(false);
    }
    fs::remove_file(rt, path)?;
    Ok(true)
}

/// Makes a new file with this name, in place of what a killed command left. None where the name is another's.
pub(crate) fn take_name<R: Files<File = File>>(
    rt: &R,
    path: Path<'_>,
    mode: u32,
    kept: &[FileId],
) -> io::Result<Option<File>> {
    match make_locked(rt, path, mode) {
        Err(error) if error.kind() == ErrorKind::AlreadyExists => {}
        made => return made,
    }
    if !remove_left(rt, path, kept).unwrap_or(false) {
        return Ok(None);
    }
    match make_locked(rt, path, mode) {
        Err(error) if error.kind() == ErrorKind::AlreadyExists => Ok(None),
        made => made,
    }
}
