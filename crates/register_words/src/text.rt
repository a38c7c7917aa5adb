//! The text of the side words.
ghost use Rattle.std.specs.Prelude.{◌≡◌, ◌++◌, ◌≤◌, IfOk, OnOk, decimal, length, take, drop, ◌-◌, ◌+◌, ◌∷◌, [], codes};
ghost use Rattle.std.specs.List.{flat_map};
ghost use Rattle.transcript_text.specs.Spelling.{ended};
ghost use Rattle.register_words.specs.SideText.{row_text, rows_text, side_end, side_head, side_text, word_text};

use crate::row::{SideRow, SideWords};
use field_texts::put_number;
use mod_word::Word;
use std::alloc::{AllocError, Global};

// A comma and the 16 lower-case digits of a word.
fn put_word(out: &mut Vec<u8>, word: Word) -> Result<(), AllocError>
    ensures { OnOk result (out.new.items ≡ out.old.items ++ word_text word) }
{
    let mut digits = [0u8; 16];
    if hex::encode_to_slice(word.value().to_be_bytes(), &mut digits).is_err() {
        unreachable!()
    }
    out.push(b',')?;
    out.extend_from_slice(&digits)
}

// Each of these words, behind a comma.
fn put_words(out: &mut Vec<u8>, words: &[Word]) -> Result<(), AllocError>
    ensures { OnOk result (out.new.items ≡ out.old.items ++ flat_map word_text words.now) }
{
    for word in words {
        put_word(out, *word)?;
    }
    Ok(())
}

// The words of the further registers.
fn further(row: &SideRow) -> &[Word]
    ensures { result.now ≡ take row.now.count row.now.words }
{
    let count = usize::from(row.count).min(7);
    &row.words[..count]
}

// The line of a row, with its newline.
fn put_row(out: &mut Vec<u8>, row: &SideRow) -> Result<(), AllocError>
    ensures { OnOk result (out.new.items ≡ out.old.items ++ ended (row_text row.now)) }
{
    put_number(out, row.line)?;
    put_words(out, further(row))?;
    out.push(b'\n')?;
    Ok(())
}

// The line of each row, with its newline.
#[tactic(auto, unfolding(crate::specs::SideText::rows_text))]
fn put_rows(out: &mut Vec<u8>, rows: &[SideRow]) -> Result<(), AllocError>
    ensures { OnOk result (out.new.items ≡ out.old.items ++ rows_text rows.now) }
{
    for row in rows {
        put_row(out, row)?;
    }
    Ok(())
}

// The last line, with the number of rows.
fn put_end(out: &mut Vec<u8>, count: usize) -> Result<(), AllocError>
    ensures { OnOk result (out.new.items ≡ out.old.items ++ ended (side_end count)) }
{
    out.extend_from_slice(b"end,")?;
    put_number(out, count as u64)?;
    out.push(b'\n')?;
    Ok(())
}

/// The first line of the file, with its newline.
pub fn side_head() -> &'static [u8]
    ensures { result.now ≡ ended side_head }
{
    b"meteragg words 1\n"
}

/// The lines of some rows, each with its newline: a piece of the file.
pub fn side_lines(alloc: Global, rows: &[SideRow]) -> Result<Vec<u8>, AllocError>
    ensures { IfOk result (λ text. text.items ≡ rows_text rows.now) }
{
    let mut out = Vec::new(alloc);
    put_rows(&mut out, rows)?;
    Ok(out)
}

/// The last line of the file of these side words, with its newline.
pub fn side_end(alloc: Global, words: &SideWords) -> Result<Vec<u8>, AllocError>
    ensures { IfOk result (λ text. text.items ≡ ended (side_end (length words.now))) }
{
    let mut out = Vec::new(alloc);
    put_end(&mut out, words.rows().len())?;
    Ok(out)
}

/// The file of the side words: the line `meteragg words 1`, a line for each row, and the line `end` with their number.
#[tactic(auto, unfolding(crate::specs::SideText::side_text))]
pub fn side_text(alloc: Global, words: &SideWords) -> Result<Vec<u8>, AllocError>
    ensures { IfOk result (λ text. text.items ≡ side_text words.now) }
{
    let mut out = Vec::from_slice(alloc, side_head())?;
    put_rows(&mut out, words.rows())?;
    put_end(&mut out, words.rows().len())?;
    Ok(out)
}
