//! 32-bit words that the kernel's calls know by name (VxWorks 5.4 Reference Manual).

/// The result of a refused call.
pub const ERROR: u32 = u32::MAX;

/// The result of a successful call that returns nothing else.
pub const OK: u32 = 0;

/// The timeout, in ticks, of a wait without a time limit.
pub const WAIT_FOREVER: u32 = u32::MAX;

/// The timeout, in ticks, of a call that is refused instead of waiting.
pub const NO_WAIT: u32 = 0;
