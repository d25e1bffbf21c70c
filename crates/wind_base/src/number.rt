//! Numbers in decimal digits.

ghost use Rattle.std.specs.Prelude.{◌≡◌, ◌-◌, ◌^◌, ◌≤◌, IsTrue, IfSome};
ghost use Rattle.std.specs.Char.{is_ascii_digit};
ghost use Rattle.std.specs.List.{list_all};
ghost use Rattle.wind_base.specs.Decimal.{is_numeral as is_numeral_lem, number_within, decimal_value};

use std::str;

fn all_digits(text: &[u8]) -> bool
    ensures { result ≡ list_all is_ascii_digit text.now }
{
    text.iter().all(|byte| byte.is_ascii_digit())
}

// Whether a text is one or more decimal digits.
fn is_numeral(text: &[u8]) -> bool
    ensures { result ≡ is_numeral_lem text.now }
{
    !text.is_empty() && all_digits(text)
}

// The number of a numeral. None if it needs more than 64 bits.
fn numeral_value(numeral: &[u8]) -> Option<u64>
    requires { IsTrue (is_numeral_lem numeral.now) }
    ensures { result ≡ number_within (2 ^ 64 - 1) numeral.now }
{
    match str::from_utf8(numeral) {
        Ok(text) => text.parse::<u64>().ok(),
        Err(_) => None,
    }
}

/// The number that a text writes in decimal digits; leading zeros are allowed. None if the text is
/// empty, if it has a byte other than a digit, or if the number is above `most`.
#[tactic(auto, unfolding(crate::specs::Decimal::decimal_value))]
pub fn decimal(text: &[u8], most: u64) -> Option<u64>
    ensures value { result ≡ decimal_value most text.now }
    ensures within { IfSome result (λ n. n ≤ most) }
{
    if !is_numeral(text) {
        return None;
    }
    match numeral_value(text) {
        Some(n) if n <= most => Some(n),
        _ => None,
    }
}
