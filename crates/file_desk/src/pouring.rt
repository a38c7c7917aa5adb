//! How the bytes of a file come to a sink.

ghost use Rattle.std.specs.Prelude.{◌≤◌, length, IfOk};
ghost use Rattle.desk_outside.specs.Sink.{HasSome};
ghost use Rattle.file_desk.specs.Pouring.{IsUnreadable, PoursAtMost};

use desk_outside::{FetchError, Sink};
use std::alloc::{AllocError, Global};
use std::io;
use std::io::{ErrorKind, Read};

// So many bytes are read before a sink takes them.
const BUFFER_BYTES: usize = 1 << 20;

/// Why a file can't be read.
pub(crate) fn fetch_error(error: io::Error) -> FetchError
    ensures { IsUnreadable result }
{
    if error.kind() == ErrorKind::OutOfMemory {
        FetchError::Memory
    } else {
        FetchError::Failed
    }
}

// Room for the bytes that are read before a sink takes them.
fn new_buffer(alloc: Global) -> Result<Vec<u8>, AllocError> {
    vec![in alloc; 0; BUFFER_BYTES]
}

// Fills a buffer as far as the source gives. How many bytes it gave: fewer than there is room for only where it has ended.
fn fill<I: Read>(source: &mut I, buffer: &mut [u8]) -> io::Result<usize>
    ensures { IfOk result (λ count. count ≤ length buffer.new) }
{
    let mut count = 0;
    for _ in 0..u64::MAX {
        if count == buffer.len() {
            return Ok(count);
        }
        match source.read(&mut buffer[count..]) {
            Ok(0) => return Ok(count),
            Ok(more) => count += more,
            Err(error) if error.kind() == ErrorKind::Interrupted => {}
            Err(error) => return Err(error),
        }
    }
    Err(io::Error::from(ErrorKind::Interrupted))
}

/// Has a sink take all bytes of a source, of which there may be at most `most`. One buffer of them is in memory at a time.
#[tactic(auto, using(crate::proofs::Poured::unreadable_pours))]
pub(crate) fn pour_all<I: Read, S: Sink>(
    alloc: Global,
    source: &mut I,
    most: u64,
    sink: S,
) -> Result<S, FetchError>
    requires { HasSome S.has sink }
    ensures { PoursAtMost S.has most sink result }
{
    let mut buffer = new_buffer(alloc)?;
    let mut sink = sink;
    let mut seen: u64 = 0;
    loop {
        let count = fill(source, &mut buffer).map_err(fetch_error)?;
        if count == 0 {
            return Ok(sink);
        }
        seen = seen.checked_add(count as u64).ok_or(FetchError::Failed)?;
        if seen > most {
            return Err(FetchError::TooLong(most + 1));
        }
        sink = sink.take(&buffer[..count])?;
    }
}
