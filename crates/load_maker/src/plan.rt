//! The plan file.
ghost use Rattle.std.specs.Prelude.{◌≡◌, ◌≤◌, ◌<◌, ◌+◌, ◌*◌, ◌^◌, ◌++◌, ◌∷◌, [], Some, IfOk, OnOk, decimal, map, length};
ghost use Rattle.std.specs.List.{flat_map, range_with_len};
ghost use Rattle.hex.specs.Hex.{encode_lower};
ghost use Rattle.pair_keys.specs.declared.KeyId.TheVariants.{Own, Pair};
ghost use Rattle.plan_files.specs.MissingKeys.{group_keys, pairs_above};
ghost use Rattle.plan_files.specs.PlainRows.{row_text, file_text};
ghost use Rattle.plan_files.specs.Spelling.{first_rows, group_fields, key_fields, lane_fields, plan_text};
ghost use Rattle.load_maker.specs.Drawing.{ahead, key_drawn, stream_at};
ghost use Rattle.load_maker.specs.Made.{made_file, made_lane, made_plan};
ghost use Rattle.load_maker.specs.Writing.{after_keys, group_text, keys_text, lane_text, start_text};

use crate::drawing::{draw_key, stream_of};
use crate::size::PlanSize;
use field_texts::put_number;
use rand_chacha::ChaCha20Rng;
use std::alloc::{AllocError, Global};

/// By how many ticks the last one comes after as many as there are rounds: both windows, and the longest way of an answer.
const TICKS_AFTER: u64 = 37;

/// Appends a number and a comma.
fn put_field(out: &mut Vec<u8>, number: u64) -> Result<(), AllocError>
    ensures { OnOk result (out.new.items ≡ out.old.items ++ (decimal number ++ 44 ∷ [])) }
{
    put_number(out, number)?;
    out.push(b',')?;
    Ok(())
}

/// Appends the next key of the stream in hexadecimal digits, and the end of the row.
fn put_key(out: &mut Vec<u8>, stream: &mut ChaCha20Rng) -> Result<(), AllocError>
    requires { stream.old.word_pos + 8 < 2 ^ 68 }
    ensures written { OnOk result (out.new.items ≡ out.old.items ++ (encode_lower (key_drawn stream.old) ++ 10 ∷ [])) }
    ensures after { OnOk result (stream.new ≡ ahead stream.old 8) }
{
    let key = draw_key(stream);
    let mut digits = [0; 64];
    if hex::encode_to_slice(key, &mut digits).is_err() {
        unreachable!();
    }
    out.extend_from_slice(&digits)?;
    out.push(b'\n')?;
    Ok(())
}

/// Appends the row of a meter's own key.
fn put_own(
    out: &mut Vec<u8>,
    stream: &mut ChaCha20Rng,
    group: u64,
    meter: u64,
) -> Result<(), AllocError>
    requires { stream.old.word_pos + 8 < 2 ^ 68 }
    ensures written { OnOk result (out.new.items ≡ out.old.items ++ row_text (key_fields (Own group meter) (Some (key_drawn stream.old)))) }
    ensures after { OnOk result (stream.new ≡ ahead stream.old 8) }
{
    out.extend_from_slice(b"own,")?;
    put_field(out, group)?;
    put_field(out, meter)?;
    put_key(out, stream)
}

/// Appends the row of the key of two meters.
fn put_pair(
    out: &mut Vec<u8>,
    stream: &mut ChaCha20Rng,
    group: u64,
    low: u64,
    high: u64,
) -> Result<(), AllocError>
    requires { stream.old.word_pos + 8 < 2 ^ 68 }
    ensures written { OnOk result (out.new.items ≡ out.old.items ++ row_text (key_fields (Pair group low high) (Some (key_drawn stream.old)))) }
    ensures after { OnOk result (stream.new ≡ ahead stream.old 8) }
{
    out.extend_from_slice(b"pair,")?;
    put_field(out, group)?;
    put_field(out, low)?;
    put_field(out, high)?;
    put_key(out, stream)
}

/// Appends the rows of the own keys of a group.
fn put_owns(
    out: &mut Vec<u8>,
    stream: &mut ChaCha20Rng,
    group: u64,
    meters: u64,
) -> Result<(), AllocError>
    requires few { meters ≤ 256 }
    requires room { stream.old.word_pos < 2 ^ 40 }
    ensures written { OnOk result (out.new.items ≡ out.old.items ++ keys_text stream.old (map (Own group) (range_with_len 0 meters))) }
    ensures after { OnOk result (stream.new ≡ after_keys stream.old (map (Own group) (range_with_len 0 meters))) }
    ensures near { OnOk result (stream.new.word_pos ≤ stream.old.word_pos + 2 ^ 11) }
{
    for meter in 0..meters {
        put_own(out, stream, group, meter)?;
    }
    Ok(())
}

/// Appends the rows of the keys of a meter with those above it.
fn put_pairs_above(
    out: &mut Vec<u8>,
    stream: &mut ChaCha20Rng,
    group: u64,
    meters: u64,
    low: u64,
) -> Result<(), AllocError>
    requires few { meters ≤ 256 }
    requires low { low < meters }
    requires room { stream.old.word_pos < 2 ^ 41 }
    ensures written { OnOk result (out.new.items ≡ out.old.items ++ keys_text stream.old (pairs_above group meters low)) }
    ensures after { OnOk result (stream.new ≡ after_keys stream.old (pairs_above group meters low)) }
    ensures near { OnOk result (stream.new.word_pos ≤ stream.old.word_pos + 2 ^ 11) }
{
    for high in low + 1..meters {
        put_pair(out, stream, group, low, high)?;
    }
    Ok(())
}

/// Appends the rows of the keys of all pairs of a group.
fn put_pairs(
    out: &mut Vec<u8>,
    stream: &mut ChaCha20Rng,
    group: u64,
    meters: u64,
) -> Result<(), AllocError>
    requires few { meters ≤ 256 }
    requires room { stream.old.word_pos < 2 ^ 40 + 2 ^ 11 }
    ensures written { OnOk result (out.new.items ≡ out.old.items ++ keys_text stream.old (flat_map (pairs_above group meters) (range_with_len 0 meters))) }
    ensures after { OnOk result (stream.new ≡ after_keys stream.old (flat_map (pairs_above group meters) (range_with_len 0 meters))) }
    ensures near { OnOk result (stream.new.word_pos ≤ stream.old.word_pos + 2 ^ 19) }
{
    for low in 0..meters {
        put_pairs_above(out, stream, group, meters, low)?;
    }
    Ok(())
}

/// Appends the rows of the keys of all groups.
fn put_keys(
    out: &mut Vec<u8>,
    stream: &mut ChaCha20Rng,
    groups: u64,
    meters: u64,
) -> Result<(), AllocError>
    requires groups { groups ≤ 256 }
    requires meters { meters ≤ 256 }
    requires start { stream.old.word_pos ≡ 0 }
    ensures { OnOk result (out.new.items ≡ out.old.items ++ keys_text stream.old (flat_map (λ g. group_keys g meters) (range_with_len 0 groups))) }
{
    for group in 0..groups {
        put_owns(out, stream, group, meters)?;
        put_pairs(out, stream, group, meters)?;
    }
    Ok(())
}

/// Appends the version, the rounds and the windows.
fn put_first_rows(out: &mut Vec<u8>, rounds: u64) -> Result<(), AllocError>
    ensures { OnOk result (out.new.items ≡ out.old.items ++ start_text rounds) }
{
    out.extend_from_slice(b"plan,1\nrounds,")?;
    put_number(out, rounds)?;
    out.extend_from_slice(b"\nwindows,2,4\n")
}

/// Appends the row of a group.
fn put_group(out: &mut Vec<u8>, group: u64, meters: u64) -> Result<(), AllocError>
    ensures { OnOk result (out.new.items ≡ out.old.items ++ group_text meters group) }
{
    out.extend_from_slice(b"group,g")?;
    put_field(out, group)?;
    put_number(out, meters)?;
    out.extend_from_slice(b",2\n")
}

/// Appends the rows of all groups.
fn put_groups(out: &mut Vec<u8>, groups: u64, meters: u64) -> Result<(), AllocError>
    ensures { OnOk result (out.new.items ≡ out.old.items ++ flat_map (group_text meters) (range_with_len 0 groups)) }
{
    for group in 0..groups {
        put_group(out, group, meters)?;
    }
    Ok(())
}

/// Appends the row of the lane.
fn put_lane(out: &mut Vec<u8>, seed: u64, last_tick: u64) -> Result<(), AllocError>
    ensures { OnOk result (out.new.items ≡ out.old.items ++ lane_text seed last_tick) }
{
    out.extend_from_slice(b"lane,seeded,")?;
    put_number(out, seed)?;
    out.extend_from_slice(b":5:10:2,0,")?;
    put_number(out, last_tick)?;
    out.push(b'\n')?;
    Ok(())
}

/// The plan file.
pub fn plan_text(alloc: Global, seed: u64, size: PlanSize) -> Result<Vec<u8>, AllocError>
    ensures { IfOk result (λ text. text.items ≡ plan_text (made_file seed size.groups size.meters size.rounds)) }
{
    let mut out = Vec::new(alloc);
    put_first_rows(&mut out, size.rounds)?;
    put_groups(&mut out, size.groups, size.meters)?;
    let mut stream = stream_of(seed, 1);
    put_keys(&mut out, &mut stream, size.groups, size.meters)?;
    put_lane(&mut out, seed, size.rounds + TICKS_AFTER)?;
    Ok(out)
}
