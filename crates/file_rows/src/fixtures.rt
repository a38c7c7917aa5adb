//! What the rows of several modules ask: each is asked in one place, since every assertion of a body is proved by itself.

use plan_files::{Failed, FileCause, FileFault};
use std::fmt::Debug;
use std::process::Abort;

/// What a file's reader answers that finds this fault.
pub(crate) fn fault_at(row: u32, cause: FileCause) -> Failed<FileFault> {
    Failed::Fault(FileFault { row, cause })
}

/// Looks for this value.
pub(crate) fn check_same<T: PartialEq + Debug>(rt: &impl Abort, came: &T, value: &T, row: &str) {
    assert_eq!(rt; came, value, "at {row}");
}

/// Looks for these bytes.
pub(crate) fn check_bytes(rt: &impl Abort, came: &[u8], bytes: &[u8], row: &str) {
    check_same(rt, &came, &bytes, row);
}

/// Asks whether a fact is so.
pub(crate) fn check(rt: &impl Abort, is_so: bool, row: &str) {
    assert!(rt; is_so, "at {row}");
}
