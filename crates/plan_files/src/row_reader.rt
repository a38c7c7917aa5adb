//! The rows of a file, one after another.
ghost use Rattle.std.specs.Prelude.{◌≡◌, ◌≤◌, ◌+◌, ◌∷◌, [], IfOk, OnOk, MatchOption, drop, length};
ghost use Rattle.csv.specs.Reading.{strip_bom};
ghost use Rattle.plan_files.specs.KeptRows.{rows_in};
ghost use Rattle.plan_files.specs.Rows.{file_rows};
ghost use Rattle.plan_files.specs.RowsLeft.{IsCurrent, IsSound, rows_left};

use crate::kept_row::{FileRow, read_row, skip_row};
use std::alloc::{AllocError, Global};

/// The bytes of a file behind its byte order mark, if it has one.
#[tactic(auto, unfolding(csv::specs::Reading::strip_bom))]
fn without_mark(bytes: &[u8]) -> &[u8]
    ensures { result.now ≡ strip_bom bytes.now }
{
    if bytes.starts_with(b"\xef\xbb\xbf") {
        &bytes[3..]
    } else {
        bytes
    }
}

/// The rows of a file from the current one on. Each is read in place of the one before it.
#[derive(Drop)]
pub struct RowReader<'b> {
    row: FileRow<'b>,
    has_row: bool,
    /// The bytes from the end of the last field on that is kept of the current row.
    left: &'b [u8],
}

impl<'b> RowReader<'b> {
    /// The rows of a file, from the first one on.
    #[tactic(auto, using(crate::proofs::AllRecords::few_rows))]
    pub fn new(alloc: Global, bytes: &'b [u8]) -> Result<RowReader<'b>, AllocError>
        ensures rows { IfOk result (λ rows. rows_left rows ≡ file_rows bytes.now) }
        ensures few { IfOk result (λ rows. length (rows_left rows) ≤ length bytes.now + 1) }
        ensures sound { IfOk result (λ rows. IsSound rows) }
    {
        let mut rows = RowReader {
            row: FileRow::new(alloc),
            has_row: false,
            left: &[],
        };
        rows.read(without_mark(bytes))?;
        Ok(rows)
    }

    /// Reads the first row of the bytes, if they hold any.
    pub(crate) fn read(&mut self, bytes: &'b [u8]) -> Result<(), AllocError>
        ensures rows { OnOk result (rows_left self.new ≡ rows_in bytes.now) }
        ensures sound { OnOk result (IsSound self.new) }
    {
        match read_row(&mut self.row, bytes)? {
            Some(left) => {
                self.left = left;
                self.has_row = true;
            }
            None => self.has_row = false,
        }
        Ok(())
    }

    /// The current row, where any is left.
    pub fn current(&self) -> Option<&FileRow<'b>>
        requires { IsSound self.now }
        ensures { MatchOption result (rows_left self.now ≡ []) (λ row. IsCurrent self.now row.now) }
    {
        if self.has_row { Some(&self.row) } else { None }
    }

    /// The bytes of the file from the current row on, where any is left.
    #[tactic(auto, using(crate::proofs::RowsLeft::none_in_nothing))]
    pub(crate) fn bytes(&self) -> &'b [u8]
        ensures { rows_in result.now ≡ rows_left self.now }
    {
        if self.has_row { self.row.start } else { &[] }
    }

    /// Leaves the current row for the one behind it.
    pub fn advance(&mut self) -> Result<(), AllocError>
        requires { IsSound self.old }
        ensures rows { OnOk result (rows_left self.new ≡ drop 1 (rows_left self.old)) }
        ensures sound { OnOk result (IsSound self.new) }
    {
        if !self.has_row {
            return Ok(());
        }
        let behind = skip_row(&mut self.row.text, self.left)?;
        self.read(behind)
    }
}
