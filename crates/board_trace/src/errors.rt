//! The error with a number.

ghost use Rattle.std.specs.Prelude.{◌≡◌, ◌==◌, find, option_copied};
ghost use Rattle.wind_base.specs.Errno.{errno_number};
ghost use Rattle.board_trace.specs.Errors.{errno_named as errno_named_lem};

use wind_base::Errno;

// Every error of the kernel's calls.
const ERRORS: [Errno; 26] = [
    Errno::ObjIdError,
    Errno::ObjUnavailable,
    Errno::ObjDeleted,
    Errno::ObjTimeout,
    Errno::NotEnoughMemory,
    Errno::NotABlock,
    Errno::BadAlign,
    Errno::BadAddress,
    Errno::IllegalPriority,
    Errno::NotSafe,
    Errno::TooMany,
    Errno::IdsSpent,
    Errno::TaskNotFound,
    Errno::InvalidState,
    Errno::InvalidOption,
    Errno::InvalidOperation,
    Errno::CountOver,
    Errno::InvalidMsgLength,
    Errno::NonZeroTimeout,
    Errno::BadSize,
    Errno::NotIsrCallable,
    Errno::NotShell,
    Errno::SymbolsFull,
    Errno::BadKind,
    Errno::LoadFailed,
    Errno::NoSuchModule,
];

// The error with this number, if it is one of these.
fn named_in(errors: &[Errno], number: u32) -> Option<&Errno>
    ensures { option_copied result ≡ find (λ e. errno_number e == number) errors.now }
{
    errors.iter().find(|errno| errno.number() == number)
}

/// The error with this number, if it is one of the kernel's calls.
pub fn errno_named(number: u32) -> Option<Errno>
    ensures { result ≡ errno_named_lem number }
{
    named_in(&ERRORS, number).copied()
}
