//! Texts of lines, and what was said over a wire.

use desk_outside::{MemoryWire, WireStep};
use std::alloc::Global;
use std::process::Abort;
use std::test::Fail;

/// The reading of meter 0 in the plain case.
pub(crate) static READING_OF_0: &str =
    "frame,4d02010000000000000000000000000000000000000000000000000000000000000000000000000000000000b0b9d4e209a2296c\n";

/// The announcement to it.
pub(crate) static ANNOUNCED_TO_0: &str =
    "frame,4d020200000000000000000000000000000000000000000000000000000000000000000000000000000000000000000000000000\n";

/// Its answer.
pub(crate) static ANSWER_OF_0: &str =
    "frame,4d02030000000000000000000000000000000000000000000000000000000000000000000000000000000000903df1a0ade0b876\n";

/// These texts, one behind another.
pub(crate) fn text(alloc: Global, parts: &[&str]) -> Result<Vec<u8>, Fail> {
    let mut text = Vec::new(alloc);
    for part in parts {
        text.extend_from_slice(part.as_bytes())?;
    }
    Ok(text)
}

/// All that was said over the wire.
pub(crate) fn said(alloc: Global, wire: &MemoryWire) -> Result<Vec<u8>, Fail> {
    let mut said = Vec::new(alloc);
    for step in wire.steps() {
        if let WireStep::Said { bytes, failed: _ } = step {
            said.extend_from_slice(bytes.bytes())?;
        }
    }
    Ok(said)
}

/// Asks whether a fact is so.
pub(crate) fn check(rt: &impl Abort, is_so: bool, row: &str) {
    assert!(rt; is_so, "at {row}");
}
