//! Texts read ahead in small pieces: what is read is what one thread reads, whatever stands at the first and the last line of a piece.

use crate::fixtures::check_same;
use event_schedule::Entry;
use row_fixtures::{PLAIN, PLAIN_OLD, with_line};
use std::alloc::Global;
use std::process::Abort;
use std::test::Fail;
use std::thread::Threads;
use transcript_text::{EntriesAhead, EntryReader, ReadError, Version, read_in_pieces};

// More entries than any text here has.
const ENTRIES: usize = 100;

// A text in each version.
fn texts() -> [(Version, &'static str); 2] {
    [(Version::One, PLAIN_OLD), (Version::Two, PLAIN)]
}

// How many bytes a piece has: fewer than a line, about a line, some lines, more than the text.
static SIZES: [usize; 6] = [1, 20, 110, 111, 300, 5000];

// Sizes for very many texts: a piece of one byte would have each of them start hundreds of threads.
static FEW_SIZES: [usize; 3] = [20, 110, 300];

// Lines that stand in place of each line in turn: no entry, one that is longer than most pieces, a tick that falls, a tick that others
// may not fall below, a last line, and an empty line.
static LINES: [&str; 6] = [
    "x",
    "0,s,0,0,r,0,1,4d0102000000000000000000000000000000000000b0b9d4e209a2296c4d0102000000000000000000000000000000000000b0b9d4e209a2296c",
    "0,t,0,0,r,1,fresh",
    "9,t,0,0,r,1,fresh",
    "end,5",
    "",
];

// How many entries a batch has.
fn entry_count(batch: &[Vec<Entry>]) -> usize {
    let mut count: usize = 0;
    for entries in batch {
        count = count.saturating_add(entries.len());
    }
    count
}

// How many entries a text has that is read ahead, or its first fault.
fn count_ahead<R: Threads + Sync>(
    rt: &R,
    alloc: Global,
    version: Version,
    bytes: &[u8],
    size: usize,
) -> Result<usize, ReadError> {
    let mut reader = match EntriesAhead::new(rt, alloc, version, bytes, size) {
        Ok(reader) => reader,
        Err(fault) => return Err(fault),
    };
    let mut count: usize = 0;
    for _ in 0..ENTRIES {
        match reader.next_batch() {
            Ok(Some(batch)) => {
                count = reader.read_beside(|| count.saturating_add(entry_count(&batch)));
            }
            Ok(None) => return Ok(count),
            Err(fault) => return Err(fault),
        }
    }
    Ok(ENTRIES)
}

// The same of the whole transcript.
fn count_whole<R: Threads + Sync>(
    rt: &R,
    alloc: Global,
    version: Version,
    bytes: &[u8],
    size: usize,
) -> Result<usize, ReadError> {
    match read_in_pieces(rt, alloc, version, bytes, size) {
        Ok(transcript) => Ok(transcript.len()),
        Err(fault) => Err(fault),
    }
}

// The same, read line by line.
fn count_alone(alloc: Global, version: Version, bytes: &[u8]) -> Result<usize, ReadError> {
    let mut reader = match EntryReader::new(alloc, version, bytes) {
        Ok(reader) => reader,
        Err(fault) => return Err(fault),
    };
    for count in 0..ENTRIES {
        match reader.next() {
            Ok(Some(_entry)) => {}
            Ok(None) => return Ok(count),
            Err(fault) => return Err(fault),
        }
    }
    Ok(ENTRIES)
}

// Looks for the same answer in pieces of each size.
fn check_sizes<R: Abort + Threads + Sync>(
    rt: &R,
    alloc: Global,
    version: Version,
    bytes: &[u8],
    row: &str,
) {
    let alone = count_alone(alloc, version, bytes);
    for size in SIZES.iter() {
        let ahead = count_ahead(rt, alloc, version, bytes, *size);
        let whole = count_whole(rt, alloc, version, bytes, *size);
        check_same(rt, &(*size, ahead, whole), &(*size, alone, alone), row);
    }
}

#[test]
fn read_ahead_whole(rt: HostRuntime) {
    for (version, text) in texts() {
        for size in SIZES.iter() {
            let ahead = count_ahead(&rt, rt.alloc(), version, text.as_bytes(), *size);
            let whole = count_whole(&rt, rt.alloc(), version, text.as_bytes(), *size);
            check_same(&rt, &(*size, ahead, whole), &(*size, Ok(20), Ok(20)), text);
        }
    }
}

#[test]
fn read_ahead_cut_before_each_byte(rt: HostRuntime) {
    let bytes = PLAIN.as_bytes();
    for cut in 0..bytes.len() {
        let alone = count_alone(rt.alloc(), Version::Two, &bytes[..cut]);
        for size in FEW_SIZES.iter() {
            let ahead = count_ahead(&rt, rt.alloc(), Version::Two, &bytes[..cut], *size);
            check_same(&rt, &(*size, ahead), &(*size, alone), "a cut");
        }
    }
}

// Each line is cut before its newline and behind it.
#[test]
fn read_ahead_cut_at_each_line(rt: HostRuntime) {
    for (version, text) in texts() {
        let bytes = text.as_bytes();
        for cut in 1..bytes.len() {
            if bytes[cut - 1] == b'\n' || bytes[cut] == b'\n' {
                check_sizes(&rt, rt.alloc(), version, &bytes[..cut], "a cut");
            }
        }
    }
}

#[test]
fn read_ahead_with_each_line_changed(rt: HostRuntime) -> Result<(), Fail> {
    for (version, text) in texts() {
        for line in LINES.iter() {
            for number in 1..=27usize {
                let text = with_line(rt.alloc(), text, number, line)?;
                check_sizes(&rt, rt.alloc(), version, text.as_bytes(), line);
            }
        }
    }
    Ok(())
}
