//! Which exception a step causes.

ghost use Rattle.std.specs.Prelude.{◌≡◌};
ghost use Rattle.board_trace.specs.Causes.{begins_with as begins_with_lem, cause_of as cause_of_lem};

/// Which exception a step causes (Power ISA, Book III, interrupts).
#[derive(Clone, Copy, Debug, PartialEq, Eq)]
pub enum Cause {
    /// A load or store has no place at this data address, or no word can be fetched there.
    Access(u32),
    /// This data address is no multiple of what its load or store needs.
    Alignment(u32),
    /// This word is no instruction.
    Illegal(u32),
    /// A trap instruction whose condition holds.
    Trap,
    /// A system call.
    SystemCall,
}

// Whether a text begins with these bytes.
fn begins_with(word: &[u8], text: &[u8]) -> bool
    ensures { result ≡ begins_with_lem word.now text.now }
{
    word.len() <= text.len() && &text[..word.len()] == word
}

/// The exception that a step reported, which executed this word at an address. `target` is the word's
/// data address, if it is a load or store.
pub fn cause_of(written: &[u8], at: u32, word: Option<u32>, target: Option<u32>) -> Cause
    ensures { result ≡ cause_of_lem written.now at word target }
{
    if begins_with(b"\nexception access", written) {
        return Cause::Access(target.unwrap_or(at));
    }
    if begins_with(b"\nexception alignment", written) {
        return Cause::Alignment(target.unwrap_or(at));
    }
    if begins_with(b"\nexception illegal", written) {
        return Cause::Illegal(word.unwrap_or(0));
    }
    if begins_with(b"\nexception trap", written) {
        return Cause::Trap;
    }
    Cause::SystemCall
}
