//! How the bytes of a begun file come to the disk.

use crossbeam_channel::{Receiver, Sender, bounded};
use std::alloc::Global;
use std::fs::{File, OpenFile};
use std::io::{ErrorKind, Write};
use std::sync::Wait;
use std::thread::Threads;
use std::{io, mem, thread};

// So many bytes are written at a time, or a piece more.
const GROUP_BYTES: usize = 1 << 19;

// So many groups of a file may be on their way.
const MOST_ON_WAY: usize = 8;

/// Pieces that are to be written behind what a file has.
#[derive(Drop)]
pub(crate) struct Group {
    // A handle of the file.
    file: File,
    pieces: Vec<Vec<u8>>,
    // Where it is told whether they were written.
    written: Sender<io::Result<()>>,
}

// Writes pieces in their order.
fn write_pieces(file: &mut File, pieces: &[Vec<u8>]) -> io::Result<()> {
    for piece in pieces {
        file.write_all(piece)?;
    }
    Ok(())
}

// Writes a group, and has its file on the disk where that keeps no other group waiting.
fn write_group<R: Wait>(rt: &R, group: Group, is_last: bool) {
    let Group {
        mut file,
        pieces,
        written,
    } = group;
    let mut done = write_pieces(&mut file, &pieces);
    if is_last && done.is_ok() {
        done = file.sync_data();
    }
    let _ = written.send(rt, done);
}

// Writes groups as they come, until none comes any more.
fn write_groups<R: Wait>(rt: &R, groups: &Receiver<Group>) {
    for _ in rt.forever() {
        let Ok(group) = groups.recv(rt) else {
            return;
        };
        write_group(rt, group, groups.is_empty());
    }
    unreachable!()
}

/// Starts a thread that writes groups of pieces to their files. None where there is no thread or no memory for it.
pub(crate) fn start_writer<R: Threads + Wait + Copy + Send + 'static>(
    rt: R,
    alloc: Global,
) -> Option<Sender<Group>> {
    let (groups, coming) = bounded(alloc, MOST_ON_WAY).ok()?;
    let _thread = thread::spawn(&rt, move || write_groups(&rt, &coming)).ok()?;
    Some(groups)
}

// The way to the thread that writes, and the way by which it tells what was written.
#[derive(Drop)]
struct Way {
    groups: Sender<Group>,
    written: Sender<io::Result<()>>,
    told: Receiver<io::Result<()>>,
}

/// What comes to a file's end. A small file is written when it is flushed; a larger one by the desk's thread, beside those that
/// make its bytes.
#[derive(Drop)]
pub(crate) struct Tail {
    alloc: Global,
    pieces: Vec<Vec<u8>>,
    // How many bytes they have.
    bytes: usize,
    way: Option<Way>,
    // How many groups are on their way.
    on_way: usize,
}

impl Tail {
    /// Nothing yet. Groups go to this thread, where there is one.
    pub(crate) fn new(alloc: Global, writer: &Option<Sender<Group>>) -> Tail {
        Tail {
            alloc,
            pieces: Vec::new(alloc),
            bytes: 0,
            way: way_to(alloc, writer),
            on_way: 0,
        }
    }

    /// Takes a piece, which comes next.
    pub(crate) fn push<R: Wait>(
        &mut self,
        rt: &R,
        file: &mut File,
        piece: Vec<u8>,
    ) -> io::Result<()> {
        self.bytes = self.bytes.saturating_add(piece.len());
        self.pieces.push(piece)?;
        if self.bytes < GROUP_BYTES {
            return Ok(());
        }
        match file.try_clone() {
            Ok(second) => self.hand_on(rt, file, second),
            Err(_) => self.write(rt, file),
        }
    }

    // Hands the pieces on to the thread, where there is one.
    fn hand_on<R: Wait>(&mut self, rt: &R, file: &mut File, second: File) -> io::Result<()> {
        if self.on_way >= MOST_ON_WAY {
            self.take_answer(rt)?;
        }
        let Some(way) = &self.way else {
            return self.write(rt, file);
        };
        let written = way.written.clone()?;
        let pieces = mem::replace(&mut self.pieces, Vec::new(self.alloc));
        let group = Group {
            file: second,
            pieces,
            written,
        };
        if way.groups.send(rt, group).is_err() {
            return Err(io::Error::from(ErrorKind::BrokenPipe));
        }
        self.bytes = 0;
        self.on_way = self.on_way.saturating_add(1);
        Ok(())
    }

    // Waits until one more group is written.
    fn take_answer<R: Wait>(&mut self, rt: &R) -> io::Result<()> {
        self.on_way = self.on_way.saturating_sub(1);
        match &self.way {
            Some(way) => match way.told.recv(rt) {
                Ok(written) => written,
                Err(_) => Err(io::Error::from(ErrorKind::BrokenPipe)),
            },
            None => Ok(()),
        }
    }

    // Writes the pieces behind the groups that are on their way.
    fn write<R: Wait>(&mut self, rt: &R, file: &mut File) -> io::Result<()> {
        for _ in 0..self.on_way {
            self.take_answer(rt)?;
        }
        write_pieces(file, &self.pieces)?;
        self.pieces.clear();
        self.bytes = 0;
        Ok(())
    }

    /// Has all pieces on the disk.
    pub(crate) fn flush<R: Wait>(&mut self, rt: &R, file: &mut File) -> io::Result<()> {
        self.write(rt, file)?;
        file.sync_all()
    }
}

// A way to the thread, where there is one and memory for it.
fn way_to(alloc: Global, writer: &Option<Sender<Group>>) -> Option<Way> {
    let Some(writer) = writer else {
        return None;
    };
    let groups = writer.clone().ok()?;
    let (written, told) = bounded(alloc, MOST_ON_WAY).ok()?;
    Some(Way {
        groups,
        written,
        told,
    })
}
