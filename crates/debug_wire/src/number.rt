//! Numbers and ids of threads.

ghost use Rattle.std.specs.Prelude.{◌≡◌, ◌≤◌};
ghost use Rattle.std.specs.Char.{digit_value, is_digit};
ghost use Rattle.std.specs.List.{list_all};
ghost use Rattle.std.specs.Str.Parse.{digits_value};
ghost use Rattle.debug_wire.specs.Numbers.{are_hex_digits as are_hex_digits_lem, hex_number as hex_number_lem, numbered_thread as numbered_thread_lem, thread_id as thread_id_lem, within_64_bits};

/// The threads that a packet names.
#[derive(Clone, Copy, Debug, PartialEq, Eq)]
pub enum ThreadId {
    /// `-1`: all threads.
    All,
    /// 0: any thread.
    Any,
    /// The thread of this id.
    Id(u64),
}

// Whether a text is one or more hexadecimal digits.
fn are_hex_digits(text: &[u8]) -> bool
    ensures { result ≡ are_hex_digits_lem text.now }
{
    !text.is_empty() && all_hex_digits(text)
}

fn all_hex_digits(text: &[u8]) -> bool
    ensures { result ≡ list_all (λ b. is_digit b 16) text.now }
{
    text.iter().all(|byte| (*byte as char).is_digit(16))
}

// The value of a digit: 0 to 35, or 36 if the byte isn't a digit in any radix.
#[tactic(auto, using(crate::proofs::Digits::digit_most))]
fn digit(byte: u8) -> u128
    ensures value { result ≡ digit_value byte }
    ensures most { result ≤ 36 }
{
    match (byte as char).to_digit(36) {
        Some(digit) => u128::from(digit),
        None => 36,
    }
}

// The number that hexadecimal digits write, if it fits 64 bits.
fn value_of(digits: &[u8]) -> Option<u64>
    ensures { result ≡ within_64_bits (digits_value 16 digits.now) }
{
    let mut value = 0;
    for byte in digits {
        value = value * 16 + digit(*byte);
        if value > u64::MAX as u128 {
            return None;
        }
    }
    Some(value as u64)
}

/// The number that a text writes in hexadecimal digits, in either case. None if the text is empty,
/// if it has another character, or if the number doesn't fit 64 bits.
#[tactic(auto, unfolding(crate::specs::Numbers::hex_number))]
pub fn hex_number(text: &[u8]) -> Option<u64>
    ensures { result ≡ hex_number_lem text.now }
{
    if are_hex_digits(text) {
        value_of(text)
    } else {
        None
    }
}

// The thread that a number names.
fn numbered_thread(number: u64) -> ThreadId
    ensures { result ≡ numbered_thread_lem number }
{
    if number == 0 {
        ThreadId::Any
    } else {
        ThreadId::Id(number)
    }
}

/// The threads that a text names. None if it is neither `-1` nor a hexadecimal number of at most 64
/// bits.
pub fn thread_id(text: &[u8]) -> Option<ThreadId>
    ensures { result ≡ thread_id_lem text.now }
{
    if text == b"-1".as_slice() {
        return Some(ThreadId::All);
    }
    let number = hex_number(text)?;
    Some(numbered_thread(number))
}
