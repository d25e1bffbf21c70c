//! The messages of a call: how it ended, and which names are undefined.

ghost use Rattle.std.specs.Prelude.{◌≡◌, ◌≤◌, map};
ghost use Rattle.program_main.specs.Messages.{PutsText};
ghost use Rattle.wind_link.specs.declared.status.LinkStatus.TheVariants as ends;
ghost use Rattle.wind_link.specs.Undefined.{pair_of, undefined_line, undefined_text};

use crate::linking::{LinkErr, Placed};
use crate::status::LinkStatus;
use crate::undefined::Undefined;
use arrayvec::ArrayString;
use itoa::Buffer;
use module_image::SegmentKind;
use program_main::put_text;
use reloc_link::RelocErr;
use std::fmt::Write;
use wind_outside::{Put, Sink};

const USAGE: &str = "usage: windlink LIST DIR\n";

/// The name of a relocation without a symbol.
const NO_NAME: &[u8] = b"";

/// The most bytes that a message on a line takes, without names.
const LINE_BYTES: usize = 96;

/// The files that a message can name.
#[derive(Clone, Copy, Debug, Drop)]
pub(crate) struct Paths<'a> {
    /// The list.
    pub list: &'a str,
    /// The module that was read last; empty if there is none.
    pub module: &'a str,
}

impl<'a> Paths<'a> {
    // The file that was read last.
    fn last(&self) -> &'a str {
        if self.module.is_empty() {
            self.list
        } else {
            self.module
        }
    }
}

// Says what is wrong with a file.
fn tell_file<E: Sink>(err: &mut E, file: &str, reason: &str) -> Put
    ensures { E.faults err.old ≤ E.faults err.new }
{
    put_text(
        err,
        &[
            b"windlink: ",
            file.as_bytes(),
            b": ",
            reason.as_bytes(),
            b"\n",
        ],
    )
}

fn relocation_reason(error: RelocErr) -> &'static str {
    match error {
        RelocErr::Range(_) => "out of range",
        RelocErr::Unaligned(_) => "unaligned",
        RelocErr::Unsupported(_) => "unsupported",
    }
}

fn segment_name(segment: SegmentKind) -> &'static str {
    match segment {
        SegmentKind::Text => "text",
        SegmentKind::Data => "data",
        SegmentKind::Bss => "bss",
    }
}

// Says what is wrong with a line of the list.
fn put_line<E: Sink>(err: &mut E, list: &str, text: &str) -> Put
    ensures { E.faults err.old ≤ E.faults err.new }
{
    put_text(err, &[b"windlink: ", list.as_bytes(), text.as_bytes()])
}

// What is wrong with a line of the list, or with its module; made without host memory.
fn line_text(status: LinkStatus) -> ArrayString<LINE_BYTES> {
    let mut text = ArrayString::new();
    let _ = match status {
        LinkStatus::BadList(line) => write!(text, ": line {line} is not understood\n"),
        LinkStatus::BadObject(line, error) => write!(text, ": line {line}: {error}\n"),
        LinkStatus::BadPlace(line, segment) => {
            let name = segment_name(segment);
            write!(text, ": line {line}: bad place of {name}\n")
        }
        _ => Ok(()),
    };
    text
}

// What is wrong with a relocation of this type; made without host memory.
fn relocation_text(line: u64, error: RelocErr, number: u32, kind: u8) -> ArrayString<LINE_BYTES> {
    let mut text = ArrayString::new();
    let reason = relocation_reason(error);
    let _ = write!(
        text,
        ": line {line}: relocation {number} {reason} (type {kind}"
    );
    text
}

// The type of relocation number `number` of a module, and the name of its symbol, which is empty if
// it has none.
fn reference(placed: &Placed, number: u32) -> (u8, &[u8]) {
    let Some(relocation) = placed.module.relocs.as_slice().get(number as usize) else {
        return (0, NO_NAME);
    };
    if relocation.symbol == 0 {
        return (relocation.kind, NO_NAME);
    }
    let symbols = placed.module.symbols.as_slice();
    match symbols.get(relocation.symbol as usize - 1) {
        Some(symbol) => (relocation.kind, symbol.name.bytes()),
        None => (relocation.kind, NO_NAME),
    }
}

// Says what is wrong with a relocation whose symbol has this name.
fn put_relocation<E: Sink>(err: &mut E, list: &str, text: &[u8], name: &[u8]) -> Put
    ensures { E.faults err.old ≤ E.faults err.new }
{
    if name.is_empty() {
        return put_text(err, &[b"windlink: ", list.as_bytes(), text, b")\n"]);
    }
    put_text(
        err,
        &[b"windlink: ", list.as_bytes(), text, b", ", name, b")\n"],
    )
}

/// Says which relocation is refused, if one is: its number in the module, its type, and its symbol.
pub(crate) fn tell_relocation<E: Sink>(err: &mut E, list: &str, modules: &[Placed], error: LinkErr)
    ensures { E.faults err.old ≤ E.faults err.new }
{
    let LinkErr::BadReloc(index, number, error) = error else {
        return;
    };
    let Some(placed) = modules.get(index as usize) else {
        return;
    };
    let (kind, name) = reference(placed, number);
    let text = relocation_text(index.saturating_add(1), error, number, kind);
    let _ = put_relocation(err, list, text.as_str().as_bytes(), name);
}

// Says that a name is undefined, which the module of this line refers to.
fn tell_name<E: Sink>(err: &mut E, list: &str, line: u64, name: &[u8]) -> Put
    ensures { PutsText (undefined_line list.now (line, name.now)) result (E.bytes err.old) (E.bytes err.new)
        (E.faults err.old) (E.faults err.new) }
{
    let mut digits = Buffer::new();
    let number = digits.format(line).as_bytes();
    put_text(
        err,
        &[
            b"windlink: ",
            list.as_bytes(),
            b": line ",
            number,
            b": undefined symbol: ",
            name,
            b"\n",
        ],
    )
}

/// Says which names are undefined, a line for each. The first put that fails ends the text.
pub(crate) fn tell_undefined<E: Sink>(err: &mut E, list: &str, names: &[Undefined]) -> Put
    ensures { PutsText (undefined_text list.now (map pair_of names.now)) result (E.bytes err.old) (E.bytes err.new)
        (E.faults err.old) (E.faults err.new) }
{
    for one in names {
        match tell_name(err, list, one.line, one.name) {
            Put::Failed => return Put::Failed,
            Put::Done => {}
        }
    }
    Put::Done
}

/// Writes the message that says which arguments there are.
pub(crate) fn tell_usage<E: Sink>(err: &mut E)
    ensures { E.faults err.old ≤ E.faults err.new }
{
    let _ = put_text(err, &[USAGE.as_bytes()]);
}

/// Writes the message that says how a call ended. `Done` has no message, and `BadReloc` had its own.
pub(crate) fn tell<E: Sink>(err: &mut E, paths: Paths, status: LinkStatus)
    ensures faults { E.faults err.old ≤ E.faults err.new }
    ensures quiet { status ≡ ends.Done
        → (E.bytes err.new ≡ E.bytes err.old) × (E.faults err.new ≡ E.faults err.old) }
{
    let list = paths.list;
    let _ = match status {
        LinkStatus::Done | LinkStatus::BadReloc(_, _, _) => Put::Done,
        LinkStatus::Usage => put_text(err, &[USAGE.as_bytes()]),
        LinkStatus::Absent(0) => tell_file(err, list, "not found"),
        LinkStatus::Absent(_) => tell_file(err, paths.module, "not found"),
        LinkStatus::ReadFault => tell_file(err, "reading failed", paths.last()),
        LinkStatus::WriteFault => put_text(err, &[b"windlink: writing failed\n"]),
        LinkStatus::NoMemory => put_text(err, &[b"windlink: out of memory\n"]),
        LinkStatus::TooLong(0) => tell_file(err, list, "too long"),
        LinkStatus::TooLong(_) => tell_file(err, paths.module, "too long"),
        LinkStatus::BadList(_) | LinkStatus::BadObject(_, _) | LinkStatus::BadPlace(_, _) => {
            put_line(err, list, line_text(status).as_str())
        }
    };
}
