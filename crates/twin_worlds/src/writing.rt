//! The masks file.

ghost use Rattle.std.specs.Prelude.{◌≡◌, ◌++◌, codes, decimal, IfOk, OnOk};
ghost use Rattle.std.specs.List.{flat_map};
ghost use Rattle.transcript_text.specs.Spelling.{joined, ended};
ghost use Rattle.twin_worlds.specs.MasksText.{word_text, place_fields, row_text, masks_text};

use crate::{MovedRow, MovedWords};
use field_texts::put_number;
use mod_word::Word;
use pair_keys::KeyId;
use std::alloc::{AllocError, Global};

// The 16 lower-case digits of a word.
fn put_word(out: &mut Vec<u8>, word: Word) -> Result<(), AllocError>
    ensures { OnOk result (out.new.items ≡ out.old.items ++ word_text word) }
{
    let mut digits = [0u8; 16];
    if hex::encode_to_slice(word.value().to_be_bytes(), &mut digits).is_err() {
        unreachable!()
    }
    out.extend_from_slice(&digits)
}

// A comma and a number.
fn put_next(out: &mut Vec<u8>, number: u32) -> Result<(), AllocError>
    ensures { OnOk result (out.new.items ≡ out.old.items ++ codes "," ++ decimal number) }
{
    out.extend_from_slice(b",")?;
    put_number(out, u64::from(number))
}

// Two numbers, each after a comma.
fn put_two(out: &mut Vec<u8>, first: u32, second: u32) -> Result<(), AllocError>
    ensures { OnOk result (out.new.items ≡ out.old.items ++ codes "," ++ decimal first ++ codes "," ++ decimal second) }
{
    put_next(out, first)?;
    put_next(out, second)
}

// Which word it is: its key and its round.
fn put_place(out: &mut Vec<u8>, id: KeyId, round: u32) -> Result<(), AllocError>
    ensures { OnOk result (out.new.items ≡ out.old.items ++ joined (place_fields id round)) }
{
    match id {
        KeyId::Own { group, meter } => {
            out.extend_from_slice(b"own")?;
            put_two(out, group, round)?;
            put_next(out, meter)
        }
        KeyId::Pair { group, low, high } => {
            out.extend_from_slice(b"pair")?;
            put_two(out, group, round)?;
            put_two(out, low, high)
        }
    }
}

// Two words, each after a comma.
fn put_words(out: &mut Vec<u8>, first: Word, second: Word) -> Result<(), AllocError>
    ensures { OnOk result (out.new.items ≡ out.old.items ++ codes "," ++ word_text first ++ codes "," ++ word_text second) }
{
    out.extend_from_slice(b",")?;
    put_word(out, first)?;
    out.extend_from_slice(b",")?;
    put_word(out, second)
}

// The line of a row, with its newline.
fn put_row(out: &mut Vec<u8>, row: &MovedRow) -> Result<(), AllocError>
    ensures { OnOk result (out.new.items ≡ out.old.items ++ ended (row_text row.now)) }
{
    put_place(out, row.id, row.round)?;
    put_words(out, row.old, row.new)?;
    out.push(b'\n')?;
    Ok(())
}

/// The line of each row.
fn put_rows(out: &mut Vec<u8>, rows: &[MovedRow]) -> Result<(), AllocError>
    ensures { OnOk result (out.new.items ≡ out.old.items ++ flat_map (λ row. ended (row_text row)) rows.now) }
{
    for row in rows {
        put_row(out, row)?;
    }
    Ok(())
}

/// The last line, with the number of rows.
fn put_end(out: &mut Vec<u8>, rows: usize) -> Result<(), AllocError>
    ensures { OnOk result (out.new.items ≡ out.old.items ++ ended (codes "end," ++ decimal rows)) }
{
    out.extend_from_slice(b"end,")?;
    put_number(out, rows as u64)?;
    out.push(b'\n')?;
    Ok(())
}

/// The first line, the rows and the last line.
#[tactic(auto, unfolding(crate::specs::MasksText::masks_text))]
fn put_masks(out: &mut Vec<u8>, rows: &[MovedRow]) -> Result<(), AllocError>
    ensures { OnOk result (out.new.items ≡ out.old.items ++ masks_text rows.now) }
{
    out.extend_from_slice(b"meteragg masks 1\n")?;
    put_rows(out, rows)?;
    put_end(out, rows.len())?;
    Ok(())
}

/// The text of the masks file: a line for each moved word.
pub fn moved_text(alloc: Global, moved: &MovedWords) -> Result<Vec<u8>, AllocError>
    ensures { IfOk result (λ text. text.items ≡ masks_text moved.now) }
{
    let mut out = Vec::new(alloc);
    put_masks(&mut out, moved.rows())?;
    Ok(out)
}
