//! The words of a line.

use case_files::Trouble;
use std::alloc::Global;

/// A word of a line.
#[derive(Clone, Copy)]
pub enum Word<'a> {
    /// A name or a number.
    Plain(&'a str),
    /// A text in quotes.
    Quoted(&'a str),
}

// Adds the words of a piece that is outside quotes.
fn push_plain<'a>(all: &mut Vec<Word<'a>>, piece: &'a str) -> Result<(), Trouble> {
    for word in piece.split_whitespace() {
        all.push(Word::Plain(word))?;
    }
    Ok(())
}

/// The words of a line.
pub fn words<'a>(alloc: Global, line: &'a str) -> Result<Vec<Word<'a>>, Trouble> {
    let mut all = Vec::new(alloc);
    let mut quoted = false;
    for piece in line.split('"') {
        if quoted {
            all.push(Word::Quoted(piece))?;
        } else {
            push_plain(&mut all, piece)?;
        }
        quoted = !quoted;
    }
    Ok(all)
}
