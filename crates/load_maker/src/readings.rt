//! The readings file.
ghost use Rattle.std.specs.Prelude.{◌≡◌, ◌≤◌, ◌<◌, ◌+◌, ◌*◌, ◌^◌, ◌++◌, IfOk, OnOk};
ghost use Rattle.std.specs.List.{flat_map, range_with_len};
ghost use Rattle.plan_files.specs.Spelling.{readings_text};
ghost use Rattle.load_maker.specs.Drawing.{ahead, reading_drawn, stream_at};
ghost use Rattle.load_maker.specs.Made.{made_readings};
ghost use Rattle.load_maker.specs.Writing.{field_text, fields_text, group_rows_text, row_drawn};

use crate::drawing::{draw_reading, stream_of};
use crate::size::PlanSize;
use field_texts::put_number;
use rand_chacha::ChaCha20Rng;
use std::alloc::{AllocError, Global};

/// Appends a comma and the next reading of the stream, or nothing behind the comma where it is absent.
fn put_reading(out: &mut Vec<u8>, stream: &mut ChaCha20Rng) -> Result<(), AllocError>
    requires { stream.old.word_pos + 2 < 2 ^ 68 }
    ensures written { OnOk result (out.new.items ≡ out.old.items ++ field_text (reading_drawn stream.old)) }
    ensures after { OnOk result (stream.new ≡ ahead stream.old 2) }
{
    out.push(b',')?;
    match draw_reading(stream) {
        None => Ok(()),
        Some(reading) => put_number(out, u64::from(reading)),
    }
}

/// Appends the next readings of the stream, each behind a comma.
fn put_readings(out: &mut Vec<u8>, stream: &mut ChaCha20Rng, meters: u64) -> Result<(), AllocError>
    requires few { meters ≤ 256 }
    requires room { stream.old.word_pos < 2 ^ 60 }
    ensures written { OnOk result (out.new.items ≡ out.old.items ++ fields_text stream.old meters) }
    ensures after { OnOk result (stream.new ≡ ahead stream.old (2 * meters)) }
{
    for _meter in 0..meters {
        put_reading(out, stream)?;
    }
    Ok(())
}

/// Appends the row of a group in a round.
#[tactic(auto, unfolding(crate::specs::Writing::row_drawn))]
fn put_row(
    out: &mut Vec<u8>,
    stream: &mut ChaCha20Rng,
    group: u64,
    round: u64,
    meters: u64,
) -> Result<(), AllocError>
    requires few { meters ≤ 256 }
    requires room { stream.old.word_pos < 2 ^ 60 }
    ensures written { OnOk result (out.new.items ≡ out.old.items ++ row_drawn stream.old group round meters) }
    ensures after { OnOk result (stream.new ≡ ahead stream.old (2 * meters)) }
{
    out.push(b'g')?;
    put_number(out, group)?;
    out.push(b',')?;
    put_number(out, round)?;
    put_readings(out, stream, meters)?;
    out.push(b'\n')?;
    Ok(())
}

/// Appends the rows of a group, by round.
fn put_group(
    out: &mut Vec<u8>,
    stream: &mut ChaCha20Rng,
    group: u64,
    size: PlanSize,
) -> Result<(), AllocError>
    requires { stream.old.word_pos < 2 ^ 40 }
    ensures written { OnOk result (out.new.items ≡ out.old.items ++ group_rows_text stream.old group size.meters size.rounds) }
    ensures after { OnOk result (stream.new ≡ ahead stream.old (2 * (size.rounds * size.meters))) }
{
    for round in 0..size.rounds {
        put_row(out, stream, group, round, size.meters)?;
    }
    Ok(())
}

/// The readings file.
pub fn readings_text(alloc: Global, seed: u64, size: PlanSize) -> Result<Vec<u8>, AllocError>
    ensures { IfOk result (λ text. text.items ≡ readings_text (made_readings seed size.groups size.meters size.rounds)) }
{
    let mut out = Vec::new(alloc);
    let mut stream = stream_of(seed, 2);
    for group in 0..size.groups {
        put_group(&mut out, &mut stream, group, size)?;
    }
    Ok(out)
}
