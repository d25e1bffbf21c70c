//! Bytes in hexadecimal digits.

use case_files::Trouble;
use std::alloc::Global;

/// A byte in hexadecimal digits.
pub fn byte(word: &str) -> Result<u8, Trouble> {
    u8::from_str_radix(word, 16).or(Err(Trouble::Unreadable))
}

/// Bytes in words of hexadecimal digits, two digits a byte.
pub fn bytes(alloc: Global, words: &[&str]) -> Result<Vec<u8>, Trouble> {
    let mut all = Vec::new(alloc);
    for word in words {
        let piece = hex::decode(alloc, *word).or(Err(Trouble::Unreadable))?;
        all.extend_from_slice(&piece)?;
    }
    Ok(all)
}
