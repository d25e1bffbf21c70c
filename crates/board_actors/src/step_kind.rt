//! What a step was.

use live_loading::Reply;

/// What a step of a task or of an interrupt routine was.
#[derive(Clone, Copy, Debug, PartialEq, Eq)]
pub enum StepKind {
    /// An instruction that caused no exception. Only the registers of its task or routine and the
    /// bus have changed.
    Instruction,
    /// Anything else: a step at a gate, an exception, or a step of the shell. Another task may run
    /// next. A kernel call has its reply.
    Other(Option<Reply>),
}
