//! Numbers.

ghost use Rattle.std.specs.Prelude.{◌≡◌, ◌≤◌};
ghost use Rattle.std.specs.List.{list_all};
ghost use Rattle.std.specs.Char.{digit_value, is_digit};
ghost use Rattle.std.specs.Str.Parse.{digits_value};
ghost use Rattle.source_text.specs.Numbers.{are_digits as are_digits_lem, value_within as value_within_lem, number_in as number_in_lem, number_of as number_of_lem};

fn all_digits(radix: u32, digits: &[u8]) -> bool
    requires low { 2 ≤ radix }
    requires high { radix ≤ 16 }
    ensures { result ≡ list_all (λ b. is_digit b radix) digits.now }
{
    digits.iter().all(|byte| (*byte as char).is_digit(radix))
}

fn are_digits(radix: u32, digits: &[u8]) -> bool
    requires low { 2 ≤ radix }
    requires high { radix ≤ 16 }
    ensures { result ≡ are_digits_lem radix digits.now }
{
    !digits.is_empty() && all_digits(radix, digits)
}

// The value of a digit: 0 to 35, or 36 if the byte isn't a digit in any radix.
#[tactic(auto, using(crate::proofs::Digits::digit_most))]
fn digit(byte: u8) -> u64
    ensures value { result ≡ digit_value byte }
    ensures most { result ≤ 36 }
{
    match (byte as char).to_digit(36) {
        Some(digit) => digit as u64,
        None => 36,
    }
}

// The number that the digits write, if it fits 32 bits.
fn value_within(radix: u32, digits: &[u8]) -> Option<u32>
    requires low { 2 ≤ radix }
    requires high { radix ≤ 16 }
    ensures { result ≡ value_within_lem (digits_value radix digits.now) }
{
    let mut value = 0;
    for byte in digits {
        value = value * radix as u64 + digit(*byte);
        if value > u32::MAX as u64 {
            return None;
        }
    }
    Some(value as u32)
}

fn number_in(radix: u32, digits: &[u8]) -> Option<u32>
    requires low { 2 ≤ radix }
    requires high { radix ≤ 16 }
    ensures { result ≡ number_in_lem radix digits.now }
{
    if are_digits(radix, digits) {
        value_within(radix, digits)
    } else {
        None
    }
}

/// The number that a word writes: hexadecimal after `0x`, octal after `0`, else decimal. None if it
/// isn't a number of 32 bits.
pub fn number_of(word: &[u8]) -> Option<u32>
    ensures { result ≡ number_of_lem word.now }
{
    match word {
        [b'0', b'x', digits @ ..] => number_in(16, digits),
        [b'0', _, ..] => number_in(8, word),
        _ => number_in(10, word),
    }
}
