//! The head end for private smart-meter readings.
#![tactic(auto)]

use collector_workers::Free;
use commands::{Outside, with_lanes};
use file_desk::{FileDesk, FileWire};
use std::alloc::{AllocError, Global};
use std::env::Args;
use std::fs::File;
use std::io::ErrorKind;
use std::process::ExitCode;
use std::{env, fs};

// The words that follow the program's name.
fn words_after_name(alloc: Global, all: Args) -> Result<Vec<String>, AllocError> {
    let mut words = Vec::new(alloc);
    for word in all.skip(1) {
        words.push(word)?;
    }
    Ok(words)
}

// The words of the command line, without the program's name; none where a word isn't UTF-8, and the program complains of
// bad words.
fn command_words(rt: &HostRuntime) -> Result<Vec<String>, AllocError> {
    match env::args(rt) {
        Ok(all) => words_after_name(rt.alloc(), all),
        Err(error) if error.kind() == ErrorKind::InvalidData => Ok(Vec::new(rt.alloc())),
        Err(_) => Err(AllocError),
    }
}

// Freed memory is kept up to about this size.
const KEPT_BLOCK: usize = 2 << 20;

// Has glibc's `malloc` keep what is freed for what is asked next, and not give it back to the system at once, since each page that
// comes again costs as much as a line of a transcript. Once a block of this size was freed, it keeps those up to it, and up to
// twice as much at the end of its heap (`M_MMAP_THRESHOLD` in mallopt(3)). Larger ones still go back. No page of the block is
// touched, so it takes no memory.
fn keep_freed_memory(alloc: Global) {
    let _block: Result<Vec<u8>, AllocError> = Vec::with_capacity(alloc, KEPT_BLOCK);
}

// Opens a file in place of a standard stream that is closed. Else the next file that a command opens, as a journal, would stand there, and
// get what is said.
fn stand_in(rt: &HostRuntime, stream: &str) -> Option<File> {
    match fs::metadata(rt, stream) {
        Ok(_) => None,
        Err(_) => fs::open(rt, "/dev/null").ok(),
    }
}

fn main(rt: HostRuntime) -> ExitCode {
    let _stood_in = [
        stand_in(&rt, "/dev/stdin"),
        stand_in(&rt, "/dev/stdout"),
        stand_in(&rt, "/dev/stderr"),
    ];
    let Ok(words) = command_words(&rt) else {
        return ExitCode::from(1);
    };
    keep_freed_memory(rt.alloc());
    // Only a command that hears lines reads the input.
    let Ok(wire) = FileWire::new(&rt, rt.stdin()) else {
        return ExitCode::from(1);
    };
    let mut outside = Outside {
        desk: FileDesk::new(&rt),
        wire,
    };
    match with_lanes(&rt, rt.alloc(), &words, &mut outside, &Free) {
        Ok(status) => ExitCode::from(status),
        Err(AllocError) => ExitCode::from(1),
    }
}
