//! The messages for the statuses of a session.

ghost use Rattle.std.specs.Prelude.{◌≡◌, ◌≤◌, ◌++◌, codes, map};
ghost use Rattle.std.specs.Fmt.{decimal};
ghost use Rattle.std.specs.List.{concat};
ghost use Rattle.wind_outside.specs.Counts.{Rose};
ghost use Rattle.wind_session.specs.Texts.{memory_text, line_text, name_of as name_of_lem, status_text, IsPrinted};
ghost use Rattle.wind_session.specs.Words.{command_state};

use crate::command::Command;
use crate::ending::{Status, Which};
use generated_session::put_all;
use itoa::Buffer;
use wind_outside::{Put, Sink};

// Puts a text piece by piece, or a prefix of it.
fn print<E: Sink>(err: &mut E, pieces: &[&[u8]])
    ensures printed { IsPrinted (E.bytes err.old) (E.bytes err.new)
        (concat (map (λ p. p.now) pieces.now)) (Rose (E.faults err.old) (E.faults err.new)) }
    ensures faults { E.faults err.old ≤ E.faults err.new }
{
    match put_all(err, pieces) {
        Put::Failed => {}
        Put::Done => {}
    }
}

/// Puts a text of three pieces, or a prefix of it.
pub fn put_pieces<E: Sink>(err: &mut E, first: &[u8], second: &[u8], third: &[u8])
    ensures printed { IsPrinted (E.bytes err.old) (E.bytes err.new)
        (first.now ++ second.now ++ third.now) (Rose (E.faults err.old) (E.faults err.new)) }
    ensures faults { E.faults err.old ≤ E.faults err.new }
{
    print(err, &[first, second, third]);
}

/// Reports why the arguments give no command.
pub fn tell_usage<E: Sink>(err: &mut E, text: &str)
    ensures printed { IsPrinted (E.bytes err.old) (E.bytes err.new)
        text.now (Rose (E.faults err.old) (E.faults err.new)) }
    ensures faults { E.faults err.old ≤ E.faults err.new }
{
    put_pieces(err, text.as_bytes(), b"", b"");
}

// Puts a line of three pieces after the program's name, or a prefix of it.
fn print_line<E: Sink>(program: &str, err: &mut E, first: &[u8], second: &[u8], third: &[u8])
    ensures printed { IsPrinted (E.bytes err.old) (E.bytes err.new)
        (line_text program.now (first.now ++ second.now ++ third.now)) (Rose (E.faults err.old) (E.faults err.new)) }
    ensures faults { E.faults err.old ≤ E.faults err.new }
{
    print(err, &[program.as_bytes(), b": ", first, second, third]);
}

/// Reports that host memory ran out.
pub fn tell_no_memory<E: Sink>(program: &str, err: &mut E)
    ensures printed { IsPrinted (E.bytes err.old) (E.bytes err.new)
        (memory_text program.now) (Rose (E.faults err.old) (E.faults err.new)) }
    ensures faults { E.faults err.old ≤ E.faults err.new }
{
    print_line(program, err, b"out of memory\n", b"", b"");
}

// Reports that a line of the tick file with this name is invalid.
fn tell_bad_line<E: Sink>(program: &str, err: &mut E, name: &[u8], line: u64)
    ensures printed { IsPrinted (E.bytes err.old) (E.bytes err.new)
        (line_text program.now (name.now ++ codes ": line " ++ decimal line ++ codes " is not understood\n"))
        (Rose (E.faults err.old) (E.faults err.new)) }
    ensures faults { E.faults err.old ≤ E.faults err.new }
{
    let mut digits = Buffer::new();
    let number = digits.format(line).as_bytes();
    print(
        err,
        &[
            program.as_bytes(),
            b": ",
            name,
            b": line ",
            number,
            b" is not understood\n",
        ],
    );
}

// The name that the arguments give for a file.
fn name_of<'a>(command: &Command<'a>, file: Which) -> &'a [u8]
    ensures { result.now ≡ name_of_lem (command_state command.now) file }
{
    match file {
        Which::Console => command.console.as_bytes(),
        Which::Ticks => command.ticks.as_bytes(),
    }
}

/// Reports how a command's session ended, in a line that begins with the program's name. A quiet
/// end is not reported. With a command, the status is never `Usage`.
#[tactic(auto, unfolding(crate::specs::Texts::status_text))]
pub fn tell<E: Sink>(program: &str, err: &mut E, command: &Command, status: Status)
    ensures printed { IsPrinted (E.bytes err.old) (E.bytes err.new)
        (status_text program.now (command_state command.now) status) (Rose (E.faults err.old) (E.faults err.new)) }
    ensures faults { E.faults err.old ≤ E.faults err.new }
{
    match status {
        Status::Quiet | Status::Usage => {}
        Status::Absent(file) => {
            print_line(program, err, name_of(command, file), b": not found\n", b"");
        }
        Status::Limit => {
            let mut digits = Buffer::new();
            let limit = digits.format(command.limit).as_bytes();
            print_line(program, err, b"limit of ", limit, b" steps reached\n");
        }
        Status::ReadFault => print_line(program, err, b"reading failed\n", b"", b""),
        Status::WriteFault => print_line(program, err, b"writing failed\n", b"", b""),
        Status::NoMemory => tell_no_memory(program, err),
        Status::BadTicks(line) => {
            tell_bad_line(program, err, name_of(command, Which::Ticks), line);
        }
        Status::TooLong(file) => {
            print_line(program, err, name_of(command, file), b": too long\n", b"");
        }
    }
}
