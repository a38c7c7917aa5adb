//! The bytes of a frame in hexadecimal digits.

ghost use Rattle.std.specs.Prelude.{◌≡◌, ◌<◌, length, slice_index};
ghost use Rattle.hex.specs.Hex.{encode_lower, lower_digits, IsBytes};
ghost use Rattle.transcript_text.specs.HexDigits.{IsNumberOf, AreBytesOf};

/// The digit of a number below 16. It is computed and not looked up, so that many are made at once.
#[tactic(auto, using(crate::proofs::HexLemmas::digit_low, crate::proofs::HexLemmas::digit_high))]
fn hex_digit(number: u8) -> u8
    requires { number < 16 }
    ensures { result ≡ slice_index lower_digits number }
{
    if number < 10 {
        b'0' + number
    } else {
        b'a' - 10 + number
    }
}

/// Two digits for each byte, the high four bits first.
pub(crate) fn hex_digits(bytes: &[u8; 52]) -> [u8; 104]
    ensures { result ≡ encode_lower bytes.now }
{
    let mut digits = [0u8; 104];
    for at in 0..52usize {
        let byte = bytes[at];
        digits[2 * at] = hex_digit(byte >> 4);
        digits[2 * at + 1] = hex_digit(byte & 0x0f);
    }
    digits
}

/// The number below 16 that a digit stands for. Another byte gives some such number too, so that many are read at once.
#[tactic(auto, using(crate::proofs::HexLemmas::low_number, crate::proofs::HexLemmas::high_number))]
fn digit_number(digit: u8) -> u8
    ensures below { result < 16 }
    ensures number { IsNumberOf digit result }
{
    if digit < b'a' {
        digit % 16
    } else {
        (digit % 16 + 9) % 16
    }
}

/// The bytes whose digits these are. Where they are those of no bytes, some bytes.
pub(crate) fn bytes_of_digits(digits: &[u8]) -> [u8; 52]
    requires { length digits.now ≡ 104 }
    ensures bytes { IsBytes result }
    ensures digits { AreBytesOf digits.now result }
{
    let mut bytes = [0u8; 52];
    for at in 0..52usize {
        bytes[at] = digit_number(digits[2 * at]) * 16 + digit_number(digits[2 * at + 1]);
    }
    bytes
}
