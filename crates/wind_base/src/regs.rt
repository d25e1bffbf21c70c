//! The registers of the processor.

/// The register file of the PowerPC processor (Power ISA, Book I).
#[derive(Clone, Copy, Debug, PartialEq, Eq)]
pub struct Regs {
    /// The general registers r0 to r31.
    pub gpr: [u32; 32],
    /// The condition register.
    pub cr: u32,
    /// XER: the carry and overflow bits, and the byte count of string instructions.
    pub xer: u32,
    /// The link register.
    pub lr: u32,
    /// The count register.
    pub ctr: u32,
    /// The address of the next instruction.
    pub pc: u32,
    /// The address that `lwarx` reserved for `stwcx.`, if there is a reservation.
    pub reserve: Option<u32>,
}
