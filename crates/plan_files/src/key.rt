//! A key as it stands in a field: 64 hexadecimal digits.
ghost use Rattle.std.specs.Prelude.{◌≡◌, ◌≤◌, length, unwrap_or};
ghost use Rattle.std.specs.Result.{result_ok};
ghost use Rattle.hex.specs.Hex.{decode_sized, hex_digit_value};
ghost use Rattle.plan_files.specs.DigitValues.{AreDigitValues};

/// The value of a hexadecimal digit of either case, or 16 for another byte.
fn digit_value(digit: u8) -> u8
    ensures value { result ≡ unwrap_or (hex_digit_value digit) 16 }
    ensures small { result ≤ 16 }
{
    match digit {
        b'A'..=b'F' => digit - b'A' + 10,
        b'a'..=b'f' => digit - b'a' + 10,
        b'0'..=b'9' => digit - b'0',
        _ => 16,
    }
}

/// The values of 64 digits. A processor takes many of them at once.
fn digit_values(digits: &[u8]) -> [u8; 64]
    requires { length digits.now ≡ 64 }
    ensures { AreDigitValues digits.now result }
{
    let mut values = [0u8; 64];
    for place in 0..64usize {
        values[place] = digit_value(digits[place]);
    }
    values
}

/// The key of 64 hexadecimal digits of either case.
///
/// All bytes are read before one is refused: a processor can't guess a branch on each digit, since keys are random.
pub fn read_key(digits: &[u8]) -> Option<[u8; 32]>
    ensures { result ≡ result_ok (decode_sized digits.now 32) }
{
    if digits.len() != 64 {
        return None;
    }
    let values = digit_values(digits);
    let mut key = [0u8; 32];
    let mut highest = 0u8;
    for place in 0..32usize {
        let high = values[2 * place];
        let low = values[2 * place + 1];
        highest = highest.max(high).max(low);
        key[place] = high % 16 * 16 + low % 16;
    }
    if highest < 16 { Some(key) } else { None }
}
