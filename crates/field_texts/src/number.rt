//! Decimal numbers.
ghost use Rattle.std.specs.Prelude.{◌≡◌, ◌++◌, ◌≤◌, ◌<◌, ◌+◌, decimal, vec_len, vec_capacity, IfSome, OnErr, OnOk};
ghost use Rattle.field_texts.specs.Numbers.{number_of, within};
ghost use Rattle.field_texts.specs.Spelled.{IsNumberOf};

use itoa::Buffer;
use std::alloc::AllocError;

// The number of decimal digits, where it is below 2^64.
#[tactic(auto, using(crate::proofs::Digits::number_empty, crate::proofs::Digits::number_zero, crate::proofs::Digits::number_start, crate::proofs::Digits::number_step, crate::proofs::Digits::number_stop, crate::proofs::Digits::number_large, crate::proofs::Digits::number_end))]
fn number(text: &[u8]) -> Option<u64>
    ensures { result ≡ number_of text.now }
{
    if text.is_empty() {
        return None;
    }
    if text.len() > 1 && text[0] == b'0' {
        return None;
    }
    let mut number = 0u64;
    for digit in text {
        if !digit.is_ascii_digit() {
            return None;
        }
        number = number
            .checked_mul(10)?
            .checked_add(u64::from(*digit - b'0'))?;
    }
    Some(number)
}

/// The number below 2^64 that the text writes in decimal digits, without leading zeros.
#[tactic(auto, using(crate::proofs::SpelledLaws::number_read))]
pub fn read_number(text: &[u8]) -> Option<u64>
    ensures number { result ≡ number_of text.now }
    ensures written { IsNumberOf text.now result }
{
    number(text)
}

/// The number that the text writes, where it is from `low` on and below `high`.
pub fn read_number_within(text: &[u8], low: u64, high: u64) -> Option<u64>
    ensures number { result ≡ within low high (number_of text.now) }
    ensures range { IfSome result (λ n. (low ≤ n) × (n < high)) }
{
    match read_number(text) {
        Some(number) if low <= number && number < high => Some(number),
        _ => None,
    }
}

/// The digit of a number below 10.
fn digit(number: u16) -> u8
    requires { number < 10 }
    ensures { result ≡ 48 + number }
{
    b'0' + number as u8
}

/// Appends a number below 10 in decimal.
#[tactic(auto, using(crate::proofs::SmallNumbers::one_digit))]
fn put_ones(out: &mut Vec<u8>, number: u16)
    requires small { number < 10 }
    requires room { vec_len out.old < vec_capacity out.old }
    ensures written { out.new.items ≡ out.old.items ++ decimal number }
    ensures len { vec_len out.new ≡ vec_len out.old + 1 }
    ensures capacity { vec_capacity out.new ≡ vec_capacity out.old }
{
    out.push_reserved(digit(number));
}

/// Appends a number below 100 in decimal.
#[tactic(auto, using(crate::proofs::SmallNumbers::digit_more))]
fn put_tens(out: &mut Vec<u8>, number: u16)
    requires small { number < 100 }
    requires room { vec_len out.old + 2 ≤ vec_capacity out.old }
    ensures written { out.new.items ≡ out.old.items ++ decimal number }
    ensures len { vec_len out.new ≤ vec_len out.old + 2 }
    ensures capacity { vec_capacity out.new ≡ vec_capacity out.old }
{
    if number < 10 {
        return put_ones(out, number);
    }
    put_ones(out, number / 10);
    out.push_reserved(digit(number % 10));
}

/// Appends a number below 1000 in decimal.
#[tactic(auto, using(crate::proofs::SmallNumbers::digit_more))]
fn put_hundreds(out: &mut Vec<u8>, number: u16)
    requires small { number < 1000 }
    requires room { vec_len out.old + 3 ≤ vec_capacity out.old }
    ensures written { out.new.items ≡ out.old.items ++ decimal number }
{
    if number < 100 {
        return put_tens(out, number);
    }
    put_tens(out, number / 10);
    out.push_reserved(digit(number % 10));
}

/// Appends a number below 1000 in decimal.
fn put_small(out: &mut Vec<u8>, number: u16) -> Result<(), AllocError>
    requires { number < 1000 }
    ensures written { OnOk result (out.new.items ≡ out.old.items ++ decimal number) }
    ensures kept { OnErr result (out.new.items ≡ out.old.items) }
{
    out.reserve(3)?;
    put_hundreds(out, number);
    Ok(())
}

/// Appends a number in decimal.
pub fn put_number(out: &mut Vec<u8>, number: u64) -> Result<(), AllocError>
    ensures written { OnOk result (out.new.items ≡ out.old.items ++ decimal number) }
    ensures kept { OnErr result (out.new.items ≡ out.old.items) }
{
    if number < 1000 {
        return put_small(out, number as u16);
    }
    let mut buffer = Buffer::new();
    out.extend_from_slice(buffer.format(number).as_bytes())
}
