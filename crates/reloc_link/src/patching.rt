//! Writes the fields of an image in order.

ghost use Rattle.std.specs.Prelude.{◌≡◌, ◌≤◌, ◌<◌, ◌^◌, ◌++◌, All, length, drop};
ghost use Rattle.byteorder.specs.Endian.{big_number, big_bytes};
ghost use Rattle.reloc_link.specs.Types.{IsWidth};
ghost use Rattle.reloc_link.specs.Patched.{LiesWithin, asked, written, after_one, answered, numbered, patched, fault_of};

use crate::fields::{FieldFault, field, width};
use byteorder::{BigEndian, ByteOrder};
use thiserror::Error;

/// A relocation whose symbol has an address.
#[derive(Clone, Copy, Debug, PartialEq, Eq)]
pub struct Binding {
    /// The field's offset in the image, in bytes.
    pub offset: u32,
    /// The number of the relocation type.
    pub kind: u8,
    /// The address of the symbol.
    pub s: u32,
    /// The addend.
    pub a: u32,
    /// The address of the field.
    pub p: u32,
}

/// The first binding that is refused, by its number counted from 0, and why.
#[derive(Clone, Copy, Debug, PartialEq, Eq, Error)]
pub enum RelocErr {
    /// The value doesn't fit the field.
    #[error("relocation {0} does not fit its field")]
    Range(u32),
    /// The value fits, but isn't a multiple of 4, as the target of a branch must be.
    #[error("relocation {0} is no multiple of 4")]
    Unaligned(u32),
    /// There is no such type, or it isn't supported.
    #[error("relocation {0} is of no type that is known")]
    Unsupported(u32),
}

/// The number in the first `width` bytes, highest byte first.
fn read_number(bytes: &[u8], width: u32) -> u32
    requires within { width ≤ length bytes.now }
    requires form { IsWidth width }
    ensures { result ≡ big_number width bytes.now }
{
    match width {
        4 => BigEndian::read_u32(bytes),
        2 => u32::from(BigEndian::read_u16(bytes)),
        _ => 0,
    }
}

/// Writes a number over the first `width` bytes, highest byte first.
fn write_number(bytes: &mut [u8], width: u32, v: u32)
    requires within { width ≤ length bytes.old }
    requires form { IsWidth width }
    requires small { v < 256 ^ width }
    ensures { bytes.new ≡ big_bytes width v ++ drop width bytes.old }
{
    match width {
        4 => BigEndian::write_u32(bytes, v),
        2 => BigEndian::write_u16(bytes, v as u16),
        _ => {}
    }
}

/// Writes the field of one binding.
#[tactic(auto, unfolding(crate::specs::Patched::asked, crate::specs::Patched::written))]
fn patch_one(image: &mut [u8], binding: &Binding) -> Result<(), FieldFault>
    requires { LiesWithin (length image.old) binding.now }
    ensures image { image.new ≡ after_one image.old binding.now (asked image.old binding.now) }
    ensures answer { result ≡ answered (asked image.old binding.now) }
    ensures length { length image.new ≡ length image.old }
{
    let width = width(binding.kind);
    let start = binding.offset as usize;
    let old = read_number(&image[start..], width);
    let v = field(binding.kind, binding.s, binding.a, binding.p, old)?;
    write_number(&mut image[start..], width, v);
    Ok(())
}

/// The error for the binding with this number.
fn number_fault(fault: FieldFault, i: u32) -> RelocErr
    ensures { result ≡ numbered fault i }
{
    match fault {
        FieldFault::Range => RelocErr::Range(i),
        FieldFault::Unaligned => RelocErr::Unaligned(i),
        FieldFault::Unsupported => RelocErr::Unsupported(i),
    }
}

/// Writes the fields of the bindings in order, and stops at the first that is refused; the image
/// then holds what those before it wrote. It allocates no memory.
pub fn patch(image: &mut [u8], list: &[Binding]) -> Result<(), RelocErr>
    requires lies { All (LiesWithin (length image.old)) list.now }
    requires few { length list.now ≤ 2 ^ 32 }
    ensures image { image.new ≡ (patched 0 image.old list.now).image }
    ensures answer { fault_of result ≡ (patched 0 image.old list.now).fault }
{
    for (i, binding) in list.iter().enumerate() {
        match patch_one(image, binding) {
            Ok(()) => {}
            Err(fault) => return Err(number_fault(fault, i as u32)),
        }
    }
    Ok(())
}
