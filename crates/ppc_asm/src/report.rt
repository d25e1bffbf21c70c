//! The messages that say how a call ended.

ghost use Rattle.std.specs.Prelude.{◌≡◌, ◌≤◌};
ghost use Rattle.ppc_asm.specs.declared.status.AsmStatus.TheVariants as ends;

use crate::position::position_of;
use crate::status::AsmStatus;
use arrayvec::ArrayString;
use asm_lines::Cause;
use program_main::put_text;
use std::fmt::{Display, Write};
use wind_outside::{Put, Sink};

const USAGE: &str = "usage: ppcasm FILE\n       ppcasm --list FILE\n";

/// The most bytes of a number, a cause or a refusal as text.
const SHOWN_BYTES: usize = 64;

// A value as text, made without host memory.
fn shown<D: Display + Drop>(value: D) -> ArrayString<SHOWN_BYTES> {
    let mut text = ArrayString::new();
    let _ = text.write(value);
    text
}

// Says which line of a source text is refused, and where and why.
fn tell_line<E: Sink>(err: &mut E, file: &str, text: &[u8], line: u64, cause: Cause) -> Put
    ensures { E.faults err.old ≤ E.faults err.new }
{
    let position = position_of(text, line, cause);
    let (number, cause) = (shown(line), shown(cause));
    let (number, cause) = (number.as_str().as_bytes(), cause.as_str().as_bytes());
    let column = shown(position.column);
    put_text(
        err,
        &[
            b"ppcasm: ",
            file.as_bytes(),
            b": line ",
            number,
            b": ",
            cause,
            b", column ",
            column.as_str().as_bytes(),
            b": ",
            position.reason.as_str().as_bytes(),
            b"\n",
        ],
    )
}

// Says why a call on a file ended.
fn tell_file<E: Sink>(err: &mut E, file: &str, reason: &str) -> Put
    ensures { E.faults err.old ≤ E.faults err.new }
{
    put_text(
        err,
        &[
            b"ppcasm: ",
            file.as_bytes(),
            b": ",
            reason.as_bytes(),
            b"\n",
        ],
    )
}

/// Writes the message that says how a call on a file with these bytes ended. `Done` has no message.
pub(crate) fn tell<E: Sink>(err: &mut E, file: &str, bytes: &[u8], status: AsmStatus)
    ensures faults { E.faults err.old ≤ E.faults err.new }
    ensures quiet { status ≡ ends.Done → E.bytes err.new ≡ E.bytes err.old }
{
    let _ = match status {
        AsmStatus::Done => Put::Done,
        AsmStatus::Usage => put_text(err, &[USAGE.as_bytes()]),
        AsmStatus::Absent => tell_file(err, file, "not found"),
        AsmStatus::ReadFault => put_text(
            err,
            &[b"ppcasm: reading failed: ", file.as_bytes(), b"\n"],
        ),
        AsmStatus::WriteFault => put_text(err, &[b"ppcasm: writing failed\n"]),
        AsmStatus::NoMemory => put_text(err, &[b"ppcasm: out of memory\n"]),
        AsmStatus::BadSource(line, cause) => tell_line(err, file, bytes, line, cause),
        AsmStatus::TooLong => tell_file(err, file, "too long"),
        AsmStatus::BadObject(error) => tell_file(err, file, shown(error).as_str()),
    };
}
