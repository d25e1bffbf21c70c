//! The shell's phases.

/// What the shell does at its next step.
#[derive(Clone, Copy, Debug, PartialEq, Eq)]
pub enum Phase {
    /// It writes its prompt, or its task waits for the console.
    Prompt,
    /// It takes a line and reads it.
    Read,
    /// It goes on with the current statement.
    Eval,
    /// Its task is in a call.
    Call,
}
