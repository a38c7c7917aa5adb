//! A row of a file, of which so much is kept as its judgement needs.
ghost use Rattle.std.specs.Prelude.{◌≡◌, ◌<◌, ◌≤◌, ◌==◌, IfOk, OnOk, [], drop, length, true, if◌then◌else◌};
ghost use Rattle.csv.specs.Records.{fields_of, partial_of};
ghost use Rattle.plan_files.specs.Fields.{first_field};
ghost use Rattle.plan_files.specs.KeptRows.{IsBegun, IsBehind, KeepsField, ReadsRow, SkipsTo, goes_on, is_at_comma, is_line_end, kept_with, starts_row};

use crate::fields::{is_quoted, plain_end, read_quoted};
use csv::ByteRecord;
use std::alloc::{AllocError, Global};

/// How many fields of a row are kept: one more than a right row has.
const MOST_FIELDS: usize = 259;

/// How many bytes of a field are kept: one more than a right one has that is no argument of a lane.
const MOST_BYTES: usize = 168;

/// A row, of any length: the first of its fields, and the first bytes of each.
#[derive(Drop)]
pub struct FileRow<'b> {
    /// The bytes of the file from the row's first one on.
    pub(crate) start: &'b [u8],
    /// What is kept of its fields.
    pub(crate) kept: ByteRecord,
    /// The bytes of the file from the third field on, since an argument may have any length.
    pub(crate) third: &'b [u8],
    /// What is kept of a quoted field, while it is read.
    pub(crate) text: Vec<u8>,
}

impl<'b> FileRow<'b> {
    /// A row that isn't read yet.
    pub(crate) fn new(alloc: Global) -> FileRow<'b> {
        FileRow {
            start: &[],
            kept: ByteRecord::new(alloc),
            third: &[],
            text: Vec::new(alloc),
        }
    }
}

/// Keeps what is to be kept of one field more.
fn keep(kept: &mut ByteRecord, text: &[u8]) -> Result<(), AllocError>
    requires { partial_of kept.old ≡ [] }
    ensures kept { OnOk result (fields_of kept.new ≡ kept_with (fields_of kept.old) text.now) }
    ensures none { OnOk result (partial_of kept.new ≡ []) }
{
    if kept.len() < MOST_FIELDS {
        kept.push_field(&text[..text.len().min(MOST_BYTES)])?;
    }
    Ok(())
}

/// The bytes from a place on.
pub fn rest_from(bytes: &[u8], place: usize) -> &[u8]
    requires { place ≤ length bytes.now }
    ensures { result.now ≡ drop place bytes.now }
{
    &bytes[place..]
}

/// Reads the first field of the bytes, and answers those from its end on.
fn read_field<'b>(
    kept: &mut ByteRecord,
    text: &mut Vec<u8>,
    bytes: &'b [u8],
) -> Result<&'b [u8], AllocError>
    requires { partial_of kept.old ≡ [] }
    ensures { IfOk result (λ rest. KeepsField bytes.now (fields_of kept.old) kept.new rest.now) }
{
    if is_quoted(bytes) {
        let end = read_quoted(text, bytes, MOST_BYTES)?;
        keep(kept, text)?;
        Ok(rest_from(bytes, end))
    } else {
        let end = plain_end(bytes);
        keep(kept, &bytes[..end])?;
        Ok(rest_from(bytes, end))
    }
}

/// Whether a byte ends a line.
fn is_line_end(byte: u8) -> bool
    ensures { result ≡ is_line_end byte }
{
    byte == b'\r' || byte == b'\n'
}

/// The bytes from the first on that ends no line.
fn skip_ends(bytes: &[u8]) -> &[u8]
    ensures { SkipsTo bytes.now result.now }
{
    let mut count = 0;
    while count < bytes.len() && is_line_end(bytes[count]) {
        count += 1;
    }
    rest_from(bytes, count)
}

/// Whether the bytes begin with a comma.
fn is_at_comma(bytes: &[u8]) -> bool
    ensures { result ≡ is_at_comma bytes.now }
{
    !bytes.is_empty() && bytes[0] == b','
}

/// Whether another field is kept: so many are, and the last of them ends where these bytes begin.
fn goes_on(kept: usize, bytes: &[u8]) -> bool
    ensures { result ≡ goes_on kept bytes.now }
{
    kept < MOST_FIELDS && is_at_comma(bytes)
}

/// The bytes behind the first one.
fn behind(bytes: &[u8]) -> &[u8]
    ensures { result.now ≡ drop 1 bytes.now }
{
    if bytes.is_empty() { &[] } else { &bytes[1..] }
}

/// Where the third field begins, if the next one does here and so many are kept.
fn third_from<'b>(kept: usize, third: &'b [u8], next: &'b [u8]) -> &'b [u8]
    ensures { result.now ≡ (if kept == 2 then next.now else third.now) }
{
    if kept == 2 { next } else { third }
}

/// Reads so much of the row with which the bytes begin as is kept, and answers the bytes from the end of its last field on.
fn read_fields<'b>(row: &mut FileRow<'b>, start: &'b [u8]) -> Result<&'b [u8], AllocError>
    requires starts { starts_row start.now ≡ true }
    requires some { 0 < length start.now }
    ensures begun { IfOk result (λ left. IsBegun row.new left.now) }
    ensures start { OnOk result (row.new.start.now ≡ start.now) }
{
    row.start = start;
    row.kept.clear();
    let mut left = read_field(&mut row.kept, &mut row.text, start)?;
    while goes_on(row.kept.len(), left) {
        let next = behind(left);
        row.third = third_from(row.kept.len(), row.third, next);
        left = read_field(&mut row.kept, &mut row.text, next)?;
    }
    Ok(left)
}

/// Reads so much of the first row as is kept, and answers the bytes from the end of its last field on; or nothing where there
/// is no row.
pub fn read_row<'b>(row: &mut FileRow<'b>, bytes: &'b [u8]) -> Result<Option<&'b [u8]>, AllocError>
    ensures { IfOk result (λ left. ReadsRow bytes.now row.new left) }
{
    let start = skip_ends(bytes);
    if start.is_empty() {
        return Ok(None);
    }
    let left = read_fields(row, start)?;
    Ok(Some(left))
}

/// The bytes from the end of the first field on.
fn skip_field<'b>(text: &mut Vec<u8>, bytes: &'b [u8]) -> Result<&'b [u8], AllocError>
    ensures field { IfOk result (λ rest. (first_field bytes.now).1 ≡ rest.now) }
    ensures short { IfOk result (λ rest. length rest.now ≤ length bytes.now) }
{
    let end = if is_quoted(bytes) {
        read_quoted(text, bytes, 0)?
    } else {
        plain_end(bytes)
    };
    Ok(rest_from(bytes, end))
}

/// The bytes behind the row that goes on where these begin.
pub fn skip_row<'b>(text: &mut Vec<u8>, left: &'b [u8]) -> Result<&'b [u8], AllocError>
    ensures { IfOk result (λ rest. IsBehind left.now rest.now) }
{
    let mut left = left;
    while is_at_comma(left) {
        left = skip_field(text, behind(left))?;
    }
    Ok(behind(left))
}
