//! All changes of a load. None of them can fail.

ghost use Rattle.std.specs.Prelude.{◌≡◌, ◌<◌, ◌≤◌, ◌+◌, ◌-◌, ◌^◌, ◌++◌, false, length, take, drop, replicate, All};
ghost use Rattle.wind_base.specs.Limits.{greatest_id};
ghost use Rattle.id_table.specs.Rows.{IdsBelow, added};
ghost use Rattle.symbol_table.specs.State.{HasName};
ghost use Rattle.module_loader.specs.Loading.{block_size as block_size_lem, in_block, stored, stored_all, segment_at, record_of};
ghost use Rattle.module_loader.specs.Modules.{HasIdent};
ghost use Rattle.module_loader.specs.Steps.{three_pieces};

use crate::module::{Loaded, LoadedModule, Segment};
use board_mem::Ram;
use id_table::{Ident, Table};
use mem_partition::round_up;
use module_image::{Need, Needs, Places, Prepared};
use symbol_table::{Symbol, Symbols};
use wind_base::Name;
use wind_core::Kern;

/// The size in bytes of the block of a segment of `n` bytes.
#[tactic(auto, unfolding(crate::specs::Loading::block_size))]
fn block_size(n: u32) -> u32
    requires { block_size_lem n < 2 ^ 32 }
    ensures { result ≡ block_size_lem n }
{
    if n == 0 {
        return 0;
    }
    round_up(n) as u32
}

/// Fills a segment's block with zeros.
#[tactic(auto, unfolding(crate::specs::Loading::stored), using(crate::proofs::Filling::zeros_in_block))]
fn write_zeros(ram: &mut Ram, at: u32, n: u32)
    requires { at + block_size_lem n ≤ length ram.old.bytes }
    ensures bytes { ram.new.bytes ≡ stored ram.old.bytes (at, in_block (replicate n 0)) }
    ensures same { length ram.new.bytes ≡ length ram.old.bytes }
{
    // RAM has fewer than 2^32 bytes
    let _size = ram.size();
    let _ = ram.fill(at, block_size(n), 0);
}

/// Writes the bytes of a segment to the beginning of its block, and zeros after them.
#[tactic(auto, using(crate::proofs::Filling::after_copy, crate::proofs::Filling::block_holds))]
fn write(ram: &mut Ram, at: u32, src: &[u8])
    requires { at + block_size_lem (length src.now) ≤ length ram.old.bytes }
    ensures bytes { ram.new.bytes ≡ stored ram.old.bytes (at, in_block src.now) }
    ensures same { length ram.new.bytes ≡ length ram.old.bytes }
{
    let _size = ram.size();
    write_zeros(ram, at, src.len() as u32);
    let _ = ram.copy_in(at, src);
}

/// Writes the three segments, each with zeros to the end of its block. Text is the bytes up to
/// `cut`, and data the rest.
fn store(ram: &mut Ram, bytes: &[u8], cut: usize, at: Places, bss: u32)
    requires cut { cut ≤ length bytes.now }
    requires text { at.text + block_size_lem cut ≤ length ram.old.bytes }
    requires data { at.«data» + block_size_lem (length bytes.now - cut) ≤ length ram.old.bytes }
    requires bss { at.bss + block_size_lem bss ≤ length ram.old.bytes }
    ensures { ram.new.bytes ≡ stored_all ram.old.bytes
        (three_pieces at (in_block (take cut bytes.now)) (in_block (drop cut bytes.now)) (in_block (replicate bss 0))) }
{
    let text = &bytes[..cut];
    let data = &bytes[cut..];
    write(ram, at.text, text);
    write(ram, at.data, data);
    write_zeros(ram, at.bss, bss);
}

/// Adds the symbols in order. There must be room for them, and each must have a name.
fn add_all(syms: &mut Symbols, list: &mut Vec<Symbol>)
    requires room { length list.old.items ≤ syms.old.spare }
    requires named { All HasName list.old.items }
    ensures { syms.new.list ≡ syms.old.list ++ list.old.items }
{
    list.reverse();
    while let Some(s) = list.pop() {
        syms.add(s);
    }
}

fn segment(need: Need, at: u32) -> Segment
    requires { need.size < 2 ^ 32 }
    ensures { result ≡ segment_at need at }
{
    Segment {
        addr: at,
        size: need.size as u32,
    }
}

/// The record of a module.
pub(crate) fn make_record(name: Name, needs: Needs, at: Places) -> LoadedModule
    requires text { needs.text.size < 2 ^ 32 }
    requires data { needs.«data».size < 2 ^ 32 }
    requires bss { needs.bss.size < 2 ^ 32 }
    ensures { result ≡ record_of name needs at }
{
    LoadedModule {
        name,
        segments: [
            segment(needs.text, at.text),
            segment(needs.data, at.data),
            segment(needs.bss, at.bss),
        ],
    }
}

/// Adds the record; there must be room and an id for it.
#[tactic(auto, using(crate::proofs::Kernel::idents_more))]
fn add_record(table: &mut Table<LoadedModule>, kern: &mut Kern, row: LoadedModule) -> Ident
    requires room { length table.old.rows < table.old.room }
    requires left { kern.old.next_id ≤ greatest_id }
    requires ids { kern.old.lent ≡ false }
    requires below { IdsBelow kern.old.next_id table.old.rows }
    requires idents { All HasIdent table.old.rows }
    ensures id { result ≡ kern.old.next_id }
    ensures next { kern.new ≡ record kern.old { next_id = kern.old.next_id + 1 } }
    ensures rows { table.new ≡ added table.old kern.old.next_id row }
    ensures idents { All HasIdent table.new.rows }
{
    match kern.add_to(table, row) {
        Ok(id) => {
            let _is_one = id.get();
            id
        }
        Err(_) => unreachable!(),
    }
}

/// Writes the image into RAM, adds the symbols and the record, and gives the module its id.
pub(crate) fn commit(
    table: &mut Table<LoadedModule>,
    kern: &mut Kern,
    syms: &mut Symbols,
    ram: &mut Ram,
    row: LoadedModule,
    cut: usize,
    at: Places,
    bss: u32,
    made: Prepared,
) -> Loaded
    requires room { length table.old.rows < table.old.room }
    requires left { kern.old.next_id ≤ greatest_id }
    requires ids { kern.old.lent ≡ false }
    requires below { IdsBelow kern.old.next_id table.old.rows }
    requires idents { All HasIdent table.old.rows }
    requires symbols { length made.exports.items ≤ syms.old.spare }
    requires named { All HasName made.exports.items }
    requires cut { cut ≤ length made.bytes.items }
    requires text { at.text + block_size_lem cut ≤ length ram.old.bytes }
    requires data { at.«data» + block_size_lem (length made.bytes.items - cut) ≤ length ram.old.bytes }
    requires bss { at.bss + block_size_lem bss ≤ length ram.old.bytes }
    ensures id { result.id ≡ kern.old.next_id }
    ensures undefined { result.undefined ≡ made.undefined }
    ensures next { kern.new ≡ record kern.old { next_id = kern.old.next_id + 1 } }
    ensures rows { table.new ≡ added table.old kern.old.next_id row }
    ensures idents { All HasIdent table.new.rows }
    ensures symbols { syms.new.list ≡ syms.old.list ++ made.exports.items }
    ensures ram { ram.new.bytes ≡ stored_all ram.old.bytes (three_pieces at
        (in_block (take cut made.bytes.items)) (in_block (drop cut made.bytes.items)) (in_block (replicate bss 0))) }
{
    let Prepared {
        bytes,
        mut exports,
        undefined,
    } = made;
    store(ram, &bytes, cut, at, bss);
    add_all(syms, &mut exports);
    let id = add_record(table, kern, row);
    Loaded { id, undefined }
}
