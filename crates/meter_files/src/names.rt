//! The names of the files of a meter.

ghost use Rattle.std.specs.Prelude.{◌≡◌, IfOk, string_bytes};
ghost use Rattle.meter_files.specs.Names.{part_name};

use std::alloc::{AllocError, Global};

/// A file of a meter.
#[derive(Clone, Copy, PartialEq, Eq)]
pub enum PartFile {
    /// What the meter has of its plan, with its keys.
    Keys,
    /// Its journal.
    Journal,
}

/// The name of a file of a meter, behind a prefix.
pub fn part_name(
    alloc: Global,
    prefix: &str,
    meter: u8,
    file: PartFile,
) -> Result<String, AllocError>
    ensures { IfOk result (λ name. string_bytes name ≡ part_name prefix.now meter file) }
{
    match file {
        PartFile::Keys => format!(in alloc; "{prefix}{meter}.csv"),
        PartFile::Journal => format!(in alloc; "{prefix}{meter}.journal"),
    }
}
