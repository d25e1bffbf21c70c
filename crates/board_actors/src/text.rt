//! The texts that the board writes.

ghost use Rattle.std.specs.Prelude.{◌≡◌, ◌≤◌, length};
ghost use Rattle.wind_base.specs.OutBuf.{Added};
ghost use Rattle.wind_machine.specs.Text.{syntax_text, eight_digits, fault_text, kind_text as kind_text_lem, cause_text, place_text, exception_text, level_text, routine_text};
ghost use Rattle.shell_eval.specs.declared.fault.EvalFault.TheVariants as faults;

use ppc_core::Trap;
use shell_eval::EvalFault;
use wind_base::text::{add, add_decimal, add_hex, add_places};
use wind_base::{Name, OutBuf, ShortName};

/// Adds the line that reports the column of a syntax error.
pub(crate) fn add_syntax(out: &mut OutBuf, column: u32)
    requires { 64 ≤ out.old.room }
    ensures { Added 64 out.old out.new (syntax_text column) }
{
    add(out, b"syntax error at column ");
    add_decimal(out, column);
    add(out, b"\n");
}

// Adds a word in eight hexadecimal digits.
fn add_eight_digits(out: &mut OutBuf, v: u32)
    requires { 64 ≤ out.old.room }
    ensures { Added 64 out.old out.new (eight_digits v) }
{
    add_places(out, 8, u64::from(v));
}

// Adds the line that reports a name that means no symbol.
fn add_undefined(out: &mut OutBuf, name: &Name)
    requires { 300 ≤ out.old.room }
    ensures { Added 300 out.old out.new (fault_text (faults.Undefined name.now)) }
{
    add(out, b"undefined symbol: ");
    add(out, name.bytes());
    add(out, b"\n");
}

// Adds the line that reports an address that cannot be reached.
fn add_access(out: &mut OutBuf, at: u32)
    requires { 300 ≤ out.old.room }
    ensures { Added 300 out.old out.new (fault_text (faults.AccessAt at)) }
{
    add(out, b"access fault at 0x");
    add_eight_digits(out, at);
    add(out, b"\n");
}

/// Adds the line that reports a fault of evaluation.
#[tactic(auto, unfolding(wind_machine::specs::Text::fault_text))]
pub(crate) fn add_fault(out: &mut OutBuf, fault: &EvalFault)
    requires { 300 ≤ out.old.room }
    ensures { Added 300 out.old out.new (fault_text fault.now) }
{
    match fault {
        EvalFault::Undefined(name) => add_undefined(out, name),
        EvalFault::AccessAt(at) => add_access(out, *at),
        EvalFault::DivideByZero => add(out, b"divide by zero\n"),
        EvalFault::NoRoom => add(out, b"not enough memory\n"),
        EvalFault::SymbolsFull => add(out, b"symbol table full\n"),
    }
}

// The word for the kind of an exception.
fn kind_text(trap: Trap) -> &'static [u8]
    ensures kind { result.now ≡ kind_text_lem trap }
    ensures short { length result.now ≤ 9 }
{
    match trap {
        Trap::Illegal => b"illegal",
        Trap::Align => b"alignment",
        Trap::Access => b"access",
        Trap::TrapInsn => b"trap",
        Trap::Sysc => b"sysc",
    }
}

// Adds a newline, and what kind of exception a context with this name has caused.
fn add_cause(out: &mut OutBuf, trap: Trap, name: &[u8])
    requires room { 60 ≤ out.old.room }
    requires short { length name.now ≤ 31 }
    ensures { Added 60 out.old out.new (cause_text trap name.now) }
{
    add(out, b"\nexception ");
    add(out, kind_text(trap));
    add(out, b" in ");
    add(out, name);
}

// Adds the id of a task and an address, and ends the line.
fn add_place(out: &mut OutBuf, id: u32, at: u32)
    requires { 96 ≤ out.old.room }
    ensures { Added 96 out.old out.new (place_text id at) }
{
    add(out, b" (0x");
    add_hex(out, id);
    add(out, b") at 0x");
    add_eight_digits(out, at);
    add(out, b"\n");
}

/// Adds a newline, and the line that reports an exception of the task with this name and id.
pub(crate) fn add_exception(out: &mut OutBuf, trap: Trap, name: &ShortName, id: u32, at: u32)
    requires { 160 ≤ out.old.room }
    ensures { Added 160 out.old out.new (exception_text trap name.now id at) }
{
    add_cause(out, trap, name.bytes());
    add_place(out, id, at);
}

// Adds an address, and ends the line.
#[tactic(auto, using(std::proofs::Common::append_assoc), unfolding(wind_machine::specs::Text::level_text))]
fn add_level(out: &mut OutBuf, at: u32)
    requires { 80 ≤ out.old.room }
    ensures { Added 80 out.old out.new (level_text at) }
{
    add(out, b" at 0x");
    add_eight_digits(out, at);
    add(out, b"\n");
}

/// Adds a newline, and the line that reports an exception of an interrupt routine.
pub(crate) fn add_routine_exception(out: &mut OutBuf, trap: Trap, at: u32)
    requires { 160 ≤ out.old.room }
    ensures { Added 160 out.old out.new (routine_text trap at) }
{
    add_cause(out, trap, b"interrupt");
    add_level(out, at);
}
