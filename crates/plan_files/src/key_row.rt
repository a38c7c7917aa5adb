//! Rows of keys that stand as they are written: plain fields, one comma between two of them, and a newline at the end.
ghost use Rattle.std.specs.Prelude.{◌≡◌, ◌≤◌, ◌∷◌, ◌++◌, [], IfOk, IfSome, codes, decimal, drop, length};
ghost use Rattle.plan_files.specs.KeptRows.{rows_in};
ghost use Rattle.plan_files.specs.WrittenKeys.{AddsRows, IsKeyPart, IsKeyRow, IsNumberPart};
ghost use Rattle.plan_files.specs.declared.form.PlanForm.TheVariants.{Whole};

use crate::entry::PlanRow;
use crate::kept_row::rest_from;
use crate::key::read_key;
use std::alloc::AllocError;

/// A number up to this one is below 2^32 with any digit behind it.
const MOST_BEFORE: u32 = 400_000_000;

/// The number that one digit writes.
#[tactic(auto, using(crate::proofs::WrittenKeys::digit_written))]
fn one_digit(digit: u8) -> Option<u32>
    ensures { IfSome result (λ number. decimal number ≡ digit ∷ []) }
{
    if !digit.is_ascii_digit() {
        return None;
    }
    Some(u32::from(digit - b'0'))
}

/// The number with one digit more behind it; nothing where it is 0, or large.
#[tactic(auto, using(crate::proofs::WrittenKeys::digit_more))]
fn with_digit(number: u32, digit: u8) -> Option<u32>
    ensures { IfSome result (λ more. decimal more ≡ decimal number ++ digit ∷ []) }
{
    if number == 0 || number > MOST_BEFORE || !digit.is_ascii_digit() {
        return None;
    }
    Some(10 * number + u32::from(digit - b'0'))
}

/// The number that stands before the first comma, unless it is large, and the bytes behind this.
fn number_part(bytes: &[u8]) -> Option<(u32, &[u8])>
    ensures { IfSome result (λ it. IsNumberPart bytes.now it.0 it.1.now) }
{
    if bytes.is_empty() {
        return None;
    }
    let Some(first) = one_digit(bytes[0]) else {
        return None;
    };
    let mut number = first;
    for place in 1..bytes.len() {
        if bytes[place] == b',' {
            return Some((number, rest_from(bytes, place + 1)));
        }
        let Some(more) = with_digit(number, bytes[place]) else {
            return None;
        };
        number = more;
    }
    None
}

/// The key that stands before a newline at byte 64.
fn key_part(bytes: &[u8]) -> Option<[u8; 32]>
    ensures key { IfSome result (λ key. IsKeyPart bytes.now key (drop 65 bytes.now)) }
    ensures long { IfSome result (λ key. 65 ≤ length bytes.now) }
{
    if bytes.len() < 65 || bytes[64] != b'\n' {
        return None;
    }
    read_key(&bytes[..64])
}

/// What a row `own,GROUP,METER,KEY` says, of which these bytes begin behind the first comma.
#[tactic(auto, using(crate::proofs::WrittenKeys::own_read))]
fn own_part(bytes: &[u8]) -> Option<(PlanRow, &[u8])>
    ensures { IfSome result (λ it. IsKeyRow (codes "own," ++ bytes.now) it.0 it.1.now) }
{
    let Some((group, behind_group)) = number_part(bytes) else {
        return None;
    };
    let Some((meter, behind_meter)) = number_part(behind_group) else {
        return None;
    };
    let Some(key) = key_part(behind_meter) else {
        return None;
    };
    Some((
        PlanRow::Own { group, meter, key },
        rest_from(behind_meter, 65),
    ))
}

/// What a row `pair,GROUP,LOW,HIGH,KEY` says, of which these bytes begin behind the first comma.
#[tactic(auto, using(crate::proofs::WrittenKeys::pair_read))]
fn pair_part(bytes: &[u8]) -> Option<(PlanRow, &[u8])>
    ensures { IfSome result (λ it. IsKeyRow (codes "pair," ++ bytes.now) it.0 it.1.now) }
{
    let Some((group, behind_group)) = number_part(bytes) else {
        return None;
    };
    let Some((low, behind_low)) = number_part(behind_group) else {
        return None;
    };
    let Some((high, behind_high)) = number_part(behind_low) else {
        return None;
    };
    let Some(key) = key_part(behind_high) else {
        return None;
    };
    Some((
        PlanRow::Pair {
            group,
            low,
            high,
            key,
        },
        rest_from(behind_high, 65),
    ))
}

/// What the row of a key says with which the bytes begin, and the bytes behind it; nothing where no row of a key stands there as
/// it is written.
fn key_row(bytes: &[u8]) -> Option<(PlanRow, &[u8])>
    ensures { IfSome result (λ it. IsKeyRow bytes.now it.0 it.1.now) }
{
    match bytes {
        [b'p', b'a', b'i', b'r', b',', rest @ ..] => pair_part(rest),
        [b'o', b'w', b'n', b',', rest @ ..] => own_part(rest),
        _ => None,
    }
}

/// Adds what the rows of keys say with which the bytes begin and that stand as they are written. Answers the bytes behind them.
pub fn take_keys<'b>(entries: &mut Vec<PlanRow>, bytes: &'b [u8]) -> Result<&'b [u8], AllocError>
    ensures { IfOk result (λ rest. AddsRows Whole (rows_in bytes.now) (rows_in rest.now) entries.old.items entries.new.items) }
{
    let mut left = bytes;
    while let Some((entry, rest)) = key_row(left) {
        entries.push(entry)?;
        left = rest;
    }
    Ok(left)
}
