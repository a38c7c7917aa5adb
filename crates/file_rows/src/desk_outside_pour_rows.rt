//! Files that a sink takes piece by piece, from the desk in memory and from the desk over real files.

ghost use Rattle.std.specs.Prelude.{◌≡◌};

use crate::desk_outside_rows::{empty_folder, put};
use crate::fixtures::{check_bytes, check_same};
use desk_outside::{Desk, DeskError, FetchError, MemoryDesk, Sink};
use file_desk::FileDesk;
use std::alloc::{AllocError, Global};
use std::fs;
use std::process::Abort;
use std::test::Fail;

// The bytes that were taken, for which there is so much room more, and the number of their pieces.
#[derive(Drop)]
struct Collected {
    bytes: Vec<u8>,
    room: usize,
    pieces: u64,
}

impl Sink for Collected {
    ghost has = { λ sink bytes. sink.bytes.items ≡ bytes };

    fn take(self, bytes: &[u8]) -> Result<Collected, AllocError> {
        let mut sink = self;
        if bytes.len() > sink.room {
            return Err(AllocError);
        }
        sink.room -= bytes.len();
        sink.bytes.extend_from_slice(bytes)?;
        sink.pieces = sink.pieces.saturating_add(1);
        Ok(sink)
    }
}

// Nothing yet, with room for so many bytes.
fn nothing(alloc: Global, room: usize) -> Collected {
    Collected {
        bytes: Vec::new(alloc),
        room,
        pieces: 0,
    }
}

// So many bytes of several values.
fn bytes_of(alloc: Global, length: usize) -> Result<Vec<u8>, AllocError> {
    let mut bytes = Vec::new(alloc);
    for at in 0..length {
        bytes.push((at % 251) as u8)?;
    }
    Ok(bytes)
}

// The name of the files that are poured whole.
const WHOLE: &str = "pour_whole_test/a";

// Pours these bytes, in so many pieces, and fetches them.
fn check_poured(
    rt: &impl Abort,
    alloc: Global,
    desk: &mut impl Desk,
    bytes: &[u8],
    pieces: u64,
) -> Result<(), FetchError> {
    let most = bytes.len() as u64;
    let full = desk.pour(alloc, WHOLE, most, nothing(alloc, bytes.len()))?;
    check_bytes(rt, &full.bytes, bytes, "the pour");
    check_same(rt, &full.pieces, &pieces, "the pieces");
    let fetched = desk.fetch(alloc, WHOLE, most)?;
    check_bytes(rt, &fetched, bytes, "the fetch");
    Ok(())
}

// A pour: its name, its limit, the sink's room, and its error.
type PourRow = (&'static str, u64, usize, Option<FetchError>);

// Makes these pours.
fn check_pours(rt: &impl Abort, alloc: Global, desk: &mut impl Desk, pours: &[PourRow]) {
    for (name, most, room, error) in pours {
        let came = desk.pour(alloc, name, *most, nothing(alloc, *room)).err();
        check_same(rt, &(*most, came), &(*most, *error), name);
    }
}

// The name of the file that pours are refused of.
const NAME: &str = "pour_test/a";

// Pours of four bytes, of a name that holds nothing, and of a folder.
static POURS: [PourRow; 7] = [
    (NAME, u64::MAX, 4, None),
    (NAME, 4, 4, None),
    (NAME, 3, 4, Some(FetchError::TooLong(4))),
    (NAME, 0, 4, Some(FetchError::TooLong(1))),
    (NAME, 4, 3, Some(FetchError::Memory)),
    ("pour_test/absent", 4, 4, Some(FetchError::Failed)),
    ("pour_test", 4, 4, Some(FetchError::Failed)),
];

// How many bytes a desk in memory has, and in how many pieces of eight bytes a sink takes them.
static IN_MEMORY: [(usize, u64); 6] = [(0, 0), (5, 1), (7, 1), (8, 1), (9, 2), (24, 3)];

#[test]
fn memory_desk_pours_what_it_fetches(rt: HostRuntime) -> Result<(), Fail> {
    let mut desk = MemoryDesk::new(Vec::new(rt.alloc())).with_pieces(8);
    for (length, pieces) in IN_MEMORY.iter() {
        let bytes = bytes_of(rt.alloc(), *length)?;
        desk.place(WHOLE, &bytes)?;
        check_poured(&rt, rt.alloc(), &mut desk, &bytes, *pieces)?;
    }
    Ok(())
}

#[test]
fn memory_desk_refuses_pours(rt: HostRuntime) -> Result<(), Fail> {
    let mut desk = MemoryDesk::new(Vec::new(rt.alloc())).with_pieces(2);
    desk.place(NAME, b"\xffabc")?;
    check_pours(&rt, rt.alloc(), &mut desk, &POURS);
    check_same(&rt, &desk.calls().len(), &6, "the calls");
    check_same(&rt, &desk.faults(), &2, "the faults");
    Ok(())
}

// How many bytes a real file has, and in how many pieces of 1 MiB a sink takes them.
static ON_DISK: [(usize, u64); 6] = [
    (0, 0),
    (5, 1),
    (1_048_575, 1),
    (1_048_576, 1),
    (1_048_577, 2),
    (3_145_728, 3),
];

// Pours of the last of these files, which end at a piece that is not the first.
static CUT_SHORT: [PourRow; 2] = [
    (
        WHOLE,
        2_000_000,
        3_145_728,
        Some(FetchError::TooLong(2_000_001)),
    ),
    (WHOLE, 3_145_728, 3_145_727, Some(FetchError::Memory)),
];

#[test]
fn file_desk_pours_what_it_fetches(rt: HostRuntime) -> Result<(), Fail> {
    empty_folder(&rt, "pour_whole_test")?;
    let mut desk = FileDesk::new(&rt);
    for (length, pieces) in ON_DISK.iter() {
        let bytes = bytes_of(rt.alloc(), *length)?;
        fs::write(&rt, WHOLE, bytes.as_slice())?;
        check_poured(&rt, rt.alloc(), &mut desk, &bytes, *pieces)?;
    }
    check_pours(&rt, rt.alloc(), &mut desk, &CUT_SHORT);
    fs::remove_dir_all(&rt, "pour_whole_test")?;
    Ok(())
}

#[test]
fn file_desk_refuses_pours_and_puts_over_what_it_poured(rt: HostRuntime) -> Result<(), Fail> {
    empty_folder(&rt, "pour_test")?;
    fs::write(&rt, NAME, b"\xffabc")?;
    let mut desk = FileDesk::new(&rt);
    check_pours(&rt, rt.alloc(), &mut desk, &POURS);
    let failed = Err(DeskError::Failed);
    check_same(&rt, &put(&mut desk, NAME, b"new"), &failed, "the put");
    fs::remove_dir_all(&rt, "pour_test")?;
    Ok(())
}
