//! The calls that write texts.

ghost use Rattle.std.specs.Prelude.{◌≡◌, ◌++◌, ◌≤◌, IfOk, OnErr};
ghost use Rattle.wind_base.specs.OutBuf.{KeepsSpace};
ghost use Rattle.text_show.specs.Columns.{with_text};
ghost use Rattle.kernel_calls.specs.ShowRows.{printf_row, tasks_row, width_of as width_of_lem, units_of as units_of_lem, dump_row, lookup_row, modules_row};

use board_mem::Ram;
use call_rows::{DONE, Reply};
use module_loader::Modules;
use std::alloc::Global;
use symbol_table::Symbols;
use text_show::{dump, module_rows, printf_text, symbol_rows, task_table};
use wind_base::{Errno, NoMemory, OutBuf};
use wind_core::Kern;

// The most bytes that a dump may show.
const MOST_DUMPED: u64 = 65_536;

// printf, with its first seven values given and the others on the stack.
pub(crate) fn print(
    ram: &Ram,
    format: u32,
    values: &[u32; 7],
    stack: u32,
    out: &mut OutBuf,
) -> Reply
    requires { 4096 ≤ out.old.room }
    ensures reply { result ≡ (printf_row ram.now.bytes format values.now stack).reply }
    ensures text { out.new.bytes ≡ out.old.bytes ++ (printf_row ram.now.bytes format values.now stack).text }
    ensures space { KeepsSpace out.old out.new }
{
    match printf_text(format, values, stack, ram, out) {
        Some(count) => Reply::Answer(count),
        None => Reply::Refusal(Errno::BadAddress),
    }
}

// i: writes the table of tasks. If memory runs out, nothing is written.
pub(crate) fn show_tasks(alloc: Global, kern: &Kern, out: &mut OutBuf) -> Result<Reply, NoMemory>
    ensures ok { IfOk result (λ r. (r ≡ (tasks_row kern.now).reply)
        × (out.new ≡ with_text out.old (tasks_row kern.now).text)) }
    ensures err { OnErr result (out.new ≡ out.old) }
{
    task_table(alloc, kern, out)?;
    Ok(DONE)
}

// lkup: writes the symbols whose names contain the text at an address, or all symbols if the
// address is 0. If memory runs out, nothing is written.
pub(crate) fn show_symbols(
    alloc: Global,
    syms: &Symbols,
    ram: &Ram,
    at: u32,
    out: &mut OutBuf,
) -> Result<Reply, NoMemory>
    ensures ok { IfOk result (λ r. (r ≡ (lookup_row syms.now.list ram.now.bytes at).reply)
        × (out.new ≡ with_text out.old (lookup_row syms.now.list ram.now.bytes at).text)) }
    ensures err { OnErr result (out.new ≡ out.old) }
{
    if at == 0 {
        symbol_rows(alloc, syms, b"", out)?;
        return Ok(DONE);
    }
    let Some(text) = ram.string(at) else {
        return Ok(Reply::Refusal(Errno::BadAddress));
    };
    symbol_rows(alloc, syms, text.bytes(), out)?;
    Ok(DONE)
}

// moduleShow: writes the table of modules. If memory runs out, nothing is written.
pub(crate) fn show_modules(
    alloc: Global,
    mods: &Modules,
    out: &mut OutBuf,
) -> Result<Reply, NoMemory>
    ensures ok { IfOk result (λ r. (r ≡ (modules_row mods.now.rows).reply)
        × (out.new ≡ with_text out.old (modules_row mods.now.rows).text)) }
    ensures err { OnErr result (out.new ≡ out.old) }
{
    module_rows(alloc, mods, out)?;
    Ok(DONE)
}

// The width in bytes that a number means: 0 means 2.
fn width_of(width: u32) -> u32
    ensures { result ≡ width_of_lem width }
{
    if width == 0 { 2 } else { width }
}

// How many units a number means: 0 means as many as make 128 bytes.
fn units_of(units: u32, width: u32) -> u32
    requires { 1 ≤ width }
    ensures { result ≡ units_of_lem units width }
{
    if units == 0 { 128 / width } else { units }
}

// d: writes units of a width in bytes, from an address on. If memory runs out, nothing is written.
pub(crate) fn show_memory(
    alloc: Global,
    ram: &Ram,
    at: u32,
    units: u32,
    width: u32,
    out: &mut OutBuf,
) -> Result<Reply, NoMemory>
    ensures ok { IfOk result (λ r. (r ≡ (dump_row ram.now.bytes at units width).reply)
        × (out.new ≡ with_text out.old (dump_row ram.now.bytes at units width).text)) }
    ensures err { OnErr result (out.new ≡ out.old) }
{
    let width = width_of(width);
    if width != 1 && width != 2 && width != 4 {
        return Ok(Reply::Refusal(Errno::BadSize));
    }
    let units = units_of(units, width);
    if u64::from(units) * u64::from(width) > MOST_DUMPED {
        return Ok(Reply::Refusal(Errno::BadSize));
    }
    if !ram.has(at, units * width) {
        return Ok(Reply::Refusal(Errno::BadAddress));
    }
    dump(alloc, ram, at, units, width, out)?;
    Ok(DONE)
}
